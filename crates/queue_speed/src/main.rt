// Times the ready queues: puts and takes over 32 tasks, with so many jobs waiting. The times go to standard error.
#![tactic(auto)]

use heap_queue::queue::HeapQueue;
use lane_queue::queue::LaneQueue;
use plain_queue::queue::PlainQueue;
use ready::job::Job;
use ready::queue::ReadyQueue;
use std::io;
use std::time::Instant;

// How often a job is taken and put back.
const ROUNDS: u32 = 2_000_000;

// Puts a first job of each of so many tasks, then takes the most urgent job and puts the task's next one, again and again.
// The sum over the keys of what was taken is the same for every queue.
fn work<Q: ReadyQueue>(mut queue: Q, tasks: u32) -> u64 {
    queue.clear();
    for task in 0..tasks {
        let _ = queue.put(Job {
            key: task.wrapping_mul(7919) % 1000,
            task: task.wrapping_add(1),
            number: 1,
            left: 1,
        });
    }
    let mut sum = 0u64;
    for round in 0..ROUNDS {
        if let Some(job) = queue.take() {
            sum = sum.wrapping_add(u64::from(job.key));
            // each field is written out: `..job` saves one line, and would time the copy of `left` too
            let _ = queue.put(Job {
                key: job
                    .key
                    .wrapping_add(round.wrapping_mul(2_654_435_761) % 1009),
                task: job.task,
                number: job.number.wrapping_add(1),
                left: 1,
            });
        }
    }
    sum
}

fn timed<Q: ReadyQueue>(rt: &HostRuntime, name: &str, queue: Q, tasks: u32) -> io::Result<()> {
    let start = Instant::now(rt)?;
    let sum = work(queue, tasks);
    let millis = start.elapsed(rt)?.as_millis();
    println!(rt; "{name}, {tasks} tasks: sum {sum}")?;
    eprintln!(rt; "{name}, {tasks} tasks: {millis} ms for {ROUNDS} takes and puts")
}

fn main(rt: HostRuntime) -> io::Result<()> {
    for tasks in [1, 8, 32] {
        timed(&rt, "heap", HeapQueue::new(), tasks)?;
        timed(&rt, "lanes", LaneQueue::new(), tasks)?;
        timed(&rt, "plain", PlainQueue::new(), tasks)?;
    }
    Ok(())
}

// Sums of what a bench answers and gives. They cannot overflow, and what says so are the contracts of its calls alone.
use crate::sheets::{EXAMPLE, table};
use duty_bench::bench::Bench;
use duty_bench::open::open;
use plain_queue::queue::PlainQueue;
use ready::queue::ReadyQueue;
use std::process::Abort;
use std::test::Fail;
use verdict::judge::judge;

fn next_clock<Q: ReadyQueue>(bench: &Bench<Q>) -> u32 {
    bench.clock() + 1
}

fn idle_and_begun<Q: ReadyQueue>(bench: &Bench<Q>) -> u32 {
    let counts = bench.counts();
    counts.idle + counts.begun
}

fn given_and_done<Q: ReadyQueue>(bench: &Bench<Q>, task: u32) -> u32 {
    match bench.task_counts(task) {
        Ok(counts) => counts.given + counts.done,
        Err(_) => 0,
    }
}

fn after_first<Q: ReadyQueue>(bench: &Bench<Q>) -> u32 {
    match bench.first_waiting() {
        Some(job) => job.task + 1,
        None => 0,
    }
}

fn clock_after_step<Q: ReadyQueue>(bench: &mut Bench<Q>) -> u32 {
    match bench.step('r') {
        Ok(outcome) => outcome.tick.clock + 1,
        Err(_) => 0,
    }
}

fn clock_and_idle<Q: ReadyQueue>(bench: Bench<Q>) -> u32 {
    let closing = bench.close();
    closing.clock + closing.counts.idle
}

#[test]
fn the_answers_of_a_bench_add_up(rt: HostRuntime) -> Result<(), Fail> {
    let mut bench = open(judge(table(&EXAMPLE)?), PlainQueue::new());
    for _ in 0..3 {
        let _ = bench.step('r');
    }
    let first = after_first(&bench);
    let clock = clock_after_step(&mut bench);
    for _ in 0..2 {
        let _ = bench.step('r');
    }
    let sums = (
        next_clock(&bench),
        idle_and_begun(&bench),
        given_and_done(&bench, 1),
        given_and_done(&bench, 3),
    );
    let closed = clock_and_idle(bench);
    assert_eq!(rt; (first, clock), (3, 4));
    assert_eq!(rt; sums, (7, 4, 4, 0));
    assert_eq!(rt; closed, 7);
    Ok(())
}

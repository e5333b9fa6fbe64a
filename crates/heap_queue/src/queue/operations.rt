// The five operations of a ready queue, on a heap.
ghost use Rattle.std.specs.Prelude.{◌≡◌, []};
ghost use Rattle.heap_queue.specs.Waiting.{waiting_jobs};
ghost use Rattle.heap_queue.specs.Waits.{lawful_slots};

use super::HeapQueue;
use heap::slots::{add, remove};
use ready::job::Job;
use ready::put::{MOST_JOBS, check_put};
use ready::queue::ReadyQueue;
use ready::refusal::PutRefusal;

impl HeapQueue {
    // No job waits.
    pub fn new() -> HeapQueue
        ensures { waiting_jobs result ≡ [] }
    {
        HeapQueue {
            slots: [Job::default(); MOST_JOBS],
            len: 0,
        }
    }
}

impl ReadyQueue for HeapQueue {
    ghost waiting = { waiting_jobs };

    ghost lawful = { unfold waiting_jobs in λ q. lawful_slots q };

    fn clear(&mut self) {
        self.len = 0;
    }

    fn count(&self) -> usize {
        self.len
    }

    fn first(&self) -> Option<Job> {
        self.slots[..self.len].first().copied()
    }

    fn take(&mut self) -> Option<Job> {
        let job = remove(&mut self.slots, self.len)?;
        self.len -= 1;
        Some(job)
    }

    fn put(&mut self, job: Job) -> Result<(), PutRefusal> {
        check_put(&job, &self.slots[..self.len])?;
        let Ok(()) = add(&mut self.slots, self.len, job) else {
            // proved never to happen: fewer than 128 jobs wait where fewer than four of this task do
            unreachable()
        };
        self.len += 1;
        Ok(())
    }
}

// Making a queue, and its operations.
ghost use Rattle.std.specs.Prelude.{◌≡◌, []};
ghost use Rattle.plain_queue.specs.Waiting.{waiting_of};
ghost use Rattle.ready.proofs.Lawful.{lawful_had};

use crate::queue::PlainQueue;
use crate::slots::place;
use ready::job::Job;
use ready::put::{MOST_JOBS, check_put};
use ready::queue::ReadyQueue;
use ready::refusal::PutRefusal;

impl PlainQueue {
    // A queue in which no job waits.
    pub fn new() -> PlainQueue
        ensures { waiting_of result ≡ [] }
    {
        let slots = [Job::default(); MOST_JOBS];
        PlainQueue { slots, count: 0 }
    }
}

impl ReadyQueue for PlainQueue {
    ghost waiting = { waiting_of };

    ghost lawful = { λ q. lawful_had _ q.lawful };

    fn clear(&mut self) {
        self.count = 0;
    }

    fn count(&self) -> usize {
        self.count
    }

    fn first(&self) -> Option<Job> {
        self.slots[..self.count].last().copied()
    }

    fn take(&mut self) -> Option<Job> {
        let job = self.first()?;
        self.count -= 1;
        Some(job)
    }

    fn put(&mut self, job: Job) -> Result<(), PutRefusal> {
        let used = &self.slots[..self.count];
        check_put(&job, used)?;
        // there is room: a lawful list has at most four jobs of each of 32 tasks
        place(&mut self.slots[0..self.count + 1], job);
        self.count += 1;
        Ok(())
    }
}

// What a ready queue does.
ghost use Rattle.std.specs.Prelude.{◌≡◌, []};
ghost use Rattle.lane_queue.specs.Waiting.{waiting_jobs};
ghost use Rattle.lane_queue.specs.LanesLemmas.{lawful_lanes};

use super::LaneQueue;
use crate::lane::Lane;
use crate::word::{with_bit, without_bit};
use ready::job::Job;
use ready::put::{MOST_OF_TASK, TASKS};
use ready::queue::ReadyQueue;
use ready::refusal::PutRefusal;

impl LaneQueue {
    // A queue in which no job waits.
    pub fn new() -> LaneQueue
        ensures { waiting_jobs result ≡ [] }
    {
        LaneQueue {
            lanes: [Lane::new(); TASKS as usize],
            used: 0,
            count: 0,
        }
    }
}

// A change takes a copy of one lane, changes it and stores it back.
impl ReadyQueue for LaneQueue {
    ghost waiting = { waiting_jobs };

    ghost lawful = { unfold waiting_jobs in λ q. lawful_lanes q };

    fn clear(&mut self) {
        self.lanes = [Lane::new(); TASKS as usize];
        self.used = 0;
        self.count = 0;
    }

    fn count(&self) -> usize {
        self.count
    }

    fn first(&self) -> Option<Job> {
        let i = self.leader()?;
        Some(self.lanes[i].jobs[0])
    }

    fn take(&mut self) -> Option<Job> {
        let i = self.leader()?;
        let mut lane = self.lanes[i];
        let job = lane.remove_first();
        if lane.len == 0 {
            self.used = without_bit(self.used, i);
        }
        self.lanes[i] = lane;
        self.count -= 1;
        Some(job)
    }

    fn put(&mut self, job: Job) -> Result<(), PutRefusal> {
        // the tests of a put, on the lane of the task alone: its length is the count
        if job.task == 0 || job.task > TASKS {
            return Err(PutRefusal::NoSuchTask);
        }
        let i = (job.task - 1) as usize;
        let mut lane = self.lanes[i];
        if lane.has(job.number) {
            return Err(PutRefusal::AlreadyWaits);
        }
        if lane.len == MOST_OF_TASK {
            return Err(PutRefusal::FourWait);
        }
        lane.insert(job);
        self.lanes[i] = lane;
        self.used = with_bit(self.used, i);
        self.count += 1;
        Ok(())
    }
}

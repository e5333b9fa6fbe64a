// What is asked of a lane, and what is done to it.
ghost use Rattle.std.specs.Prelude.{◌≡◌, ◌+◌, ◌<◌, ◌≤◌, ◌∷◌, length};
ghost use Rattle.std.specs.List.{list_any, prefix_len};
ghost use Rattle.ready.specs.Order.{before};
ghost use Rattle.ready.specs.Sorted.{placed};
ghost use Rattle.lane_queue.specs.Lanes.{head, lane_jobs, of_number};

use super::Lane;
use ready::job::Job;
use ready::put::MOST_OF_TASK;

// How many jobs of the row, which is in order, come before the job.
fn place(row: &[Job], job: &Job) -> usize
    ensures within { result ≤ length row.now }
    ensures in_front { result ≡ prefix_len (λ other. before other job.now) row.now }
{
    row.iter().take_while(|other| other.is_before(job)).count()
}

impl Lane {
    // A lane without jobs.
    pub(crate) fn new() -> Lane
        ensures { result.len ≡ 0 }
    {
        Lane {
            jobs: [Job::default(); MOST_OF_TASK],
            len: 0,
        }
    }

    // Whether the job in front is more urgent than the one in front of `other`.
    pub(crate) fn leads(&self, other: &Lane) -> bool
        ensures { result ≡ before (head self.now) (head other.now) }
    {
        self.jobs[0].is_before(&other.jobs[0])
    }

    // Whether the job of that number is in the lane.
    pub(crate) fn has(&self, number: u32) -> bool
        ensures { result ≡ list_any (of_number number) (lane_jobs self.now) }
    {
        self.jobs[..self.len].iter().any(|job| job.number == number)
    }

    // Puts a job at its place, where fewer than four are in the lane.
    pub(crate) fn insert(&mut self, job: Job)
        requires { self.old.len < 4 }
        ensures jobs { lane_jobs self.new ≡ placed before job (lane_jobs self.old) }
        ensures len { self.new.len ≡ self.old.len + 1 }
    {
        let len = self.len;
        let at = place(&self.jobs[0..len], &job);
        self.jobs[len] = job;
        self.jobs[at..len + 1].rotate_right(1);
        self.len = len + 1;
    }

    // Takes the first job out of a lane that has one.
    pub(crate) fn remove_first(&mut self) -> Job
        requires { 0 < self.old.len }
        ensures jobs { lane_jobs self.old ≡ result ∷ lane_jobs self.new }
        ensures len { self.new.len + 1 ≡ self.old.len }
    {
        let len = self.len;
        let first = self.jobs[0];
        self.jobs[0..len].rotate_left(1);
        self.len = len - 1;
        first
    }
}

// Whether a job may be put among those that wait.
ghost use Rattle.std.specs.Prelude.{◌≡◌};
ghost use Rattle.ready.specs.Waiting.{put_answer};

use crate::job::Job;
use crate::refusal::PutRefusal;

// Tasks are numbered from 1 to this.
pub const TASKS: u32 = 32;

// How many jobs of one task can wait.
pub const MOST_OF_TASK: usize = 4;

// How many jobs can wait: four of each of 32 tasks.
pub const MOST_JOBS: usize = 128;

// The first refusal that applies to the job, if one does, where these jobs wait, in any order.
// A `for` does it in one pass: with `any`, and then `filter` and `count`, takes and puts took a third longer.
pub fn check_put(job: &Job, waiting: &[Job]) -> Result<(), PutRefusal>
    ensures { result ≡ put_answer job.now waiting.now }
{
    if !(1..=TASKS).contains(&job.task) {
        return Err(PutRefusal::NoSuchTask);
    }
    let mut of_its_task = 0;
    for other in waiting {
        if other.task == job.task {
            if other.number == job.number {
                return Err(PutRefusal::AlreadyWaits);
            }
            of_its_task += 1;
        }
    }
    if of_its_task >= MOST_OF_TASK {
        return Err(PutRefusal::FourWait);
    }
    Ok(())
}

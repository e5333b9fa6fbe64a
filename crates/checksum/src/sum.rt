// A checksum over numbers, which tells in which order they came.
ghost use Rattle.std.specs.Prelude.{◌≡◌, fold};
ghost use Rattle.checksum.specs.Sums.{sum_with, numbers_of};

use ready::job::Job;

// What stands for no job.
const NO_JOB: u64 = 1_000_003;

#[derive(Clone, Copy, Debug, PartialEq, Eq, Default)]
pub struct Checksum {
    pub value: u64,
}

impl Checksum {
    // Adds a number.
    pub fn add(&mut self, number: u64)
        ensures { self.new.value ≡ sum_with self.old.value number }
    {
        self.value = self
            .value
            .wrapping_mul(0x0100_0000_01B3)
            .wrapping_add(number);
    }

    // Adds the fields of a job, or one number where there is none.
    pub fn add_job(&mut self, job: Option<Job>)
        ensures { self.new.value ≡ fold sum_with self.old.value (numbers_of job) }
    {
        match job {
            Some(job) => {
                self.add(u64::from(job.key));
                self.add(u64::from(job.task));
                self.add(u64::from(job.number));
                self.add(u64::from(job.left));
            }
            None => self.add(NO_JOB),
        }
    }
}

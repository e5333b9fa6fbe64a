// Which of two jobs is the more urgent.
ghost use Rattle.std.specs.Prelude.{◌≡◌};
ghost use Rattle.ready.specs.Order.{before};

use crate::job::Job;

impl Job {
    // Whether this job is more urgent than `other`: by key, then task, then number.
    // It is no `Ord`: urgency leaves out `left`, so two jobs may be unequal with neither before the other.
    pub fn is_before(&self, other: &Job) -> bool
        ensures { result ≡ before self.now other.now }
    {
        (self.key, self.task, self.number) < (other.key, other.task, other.number)
    }
}

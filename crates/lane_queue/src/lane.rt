// A lane: the waiting jobs of one task.
ghost use Rattle.std.specs.Prelude.{◌≡◌, ◌≤◌, length, take};
ghost use Rattle.ready.specs.Order.{before};
ghost use Rattle.ready.specs.Sorted.{ordered};

use ready::job::Job;
use ready::put::MOST_OF_TASK;

mod changes;

// Up to four jobs, most urgent first, in the first `len` places.
// Places and a length: no heap memory is asked for, and std, beside which nothing is trusted here, has no vector of a fixed capacity.
#[derive(Clone, Copy)]
pub(crate) struct Lane {
    pub(crate) jobs: [Job; MOST_OF_TASK],
    pub(crate) len: usize,
    ghost whole: { length jobs ≡ 4 },
    ghost within: { len ≤ 4 },
    ghost sorted: { ordered before (take len jobs) ≡ take len jobs },
}

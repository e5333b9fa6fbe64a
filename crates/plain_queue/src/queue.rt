// A ready queue over an array that is kept in order.
ghost use Rattle.std.specs.Prelude.{◌≡◌, ◌≤◌, length};
ghost use Rattle.ready.specs.Waiting.{Lawful};
ghost use Rattle.plain_queue.specs.Slots.{last_first};

use ready::job::Job;
use ready::put::MOST_JOBS;

// The waiting jobs stand in the first `count` slots, the most urgent one last, so that taking it moves no other.
// Slots and a count: no heap memory is asked for, and std, beside which nothing is trusted here, has no vector of a fixed capacity.
#[derive(Drop)]
pub struct PlainQueue {
    pub(crate) slots: [Job; MOST_JOBS],
    pub(crate) count: usize,
    ghost sized: { length slots ≡ 128 },
    ghost within: { count ≤ 128 },
    ghost lawful: { ∥ Lawful (last_first count slots) ∥₁ },
}

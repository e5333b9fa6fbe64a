// The jobs that wait, as a heap in an array.
ghost use Rattle.std.specs.Prelude.{◌≡◌, ℕ, ◌≤◌, length, take, count_by};
ghost use Rattle.ready.specs.Order.{before};
ghost use Rattle.ready.specs.Waiting.{stray, is_job, of_task};
ghost use Rattle.heap.specs.Heaps.{Heaped};

use ready::job::Job;
use ready::put::MOST_JOBS;

pub mod operations;

// A heap in the first `len` slots: of tasks 1 to 32, no job twice, at most four jobs of a task. So 128 slots are enough.
// Slots and a length: no heap memory is asked for, and std, beside which nothing is trusted here, has no vector of a fixed capacity.
#[derive(Drop)]
pub struct HeapQueue {
    slots: [Job; MOST_JOBS],
    len: usize,
    ghost whole: { length slots ≡ 128 },
    ghost within: { len ≤ 128 },
    ghost heaped: { Heaped before (take len slots) },
    ghost known: { count_by (λ j. stray j.task) (take len slots) ≡ 0 },
    ghost once: { (task number : ℕ) → count_by (is_job task number) (take len slots) ≤ 1 },
    ghost four: { (task : ℕ) → count_by (of_task task) (take len slots) ≤ 4 },
}

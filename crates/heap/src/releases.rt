// The releases to come, at most 32. They mean a list, the earliest first.
ghost use Rattle.std.specs.Prelude.{◌≡◌, ◌≤◌, length, take};
ghost use Rattle.heap.specs.Coming.{earlier};
ghost use Rattle.heap.specs.Heaps.{Heaped};

use crate::release::Release;
use ready::put::TASKS;

pub mod operations;

// A heap in the first `len` slots: no heap memory is asked for, and std, beside which nothing is trusted here, has no vector of a fixed capacity.
// The heap queue is another type: its jobs keep laws of their own, and the heap's text is one for both.
#[derive(Drop)]
pub struct Releases {
    slots: [Release; TASKS as usize],
    len: usize,
    ghost whole: { length slots ≡ 32 },
    ghost within: { len ≤ 32 },
    ghost heaped: { Heaped earlier (take len slots) },
}

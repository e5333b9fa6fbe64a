// Work on the slots that are in use.
ghost use Rattle.std.specs.Prelude.{◌≡◌, ◌-◌, ◌<◌, reverse, length, take};
ghost use Rattle.ready.specs.Order.{before};
ghost use Rattle.ready.specs.Sorted.{placed};

use ready::job::Job;

// Sets the job at its place among the jobs in all slots but the last, which is free: the more urgent ones move up by a slot.
// A loop does it: with `take_while` and `rotate_right` a put of the most urgent job took three times as long.
pub(crate) fn place(slots: &mut [Job], job: Job)
    requires { 0 < length slots.old }
    ensures { reverse slots.new ≡ placed before job (reverse (take (length slots.old - 1) slots.old)) }
{
    let mut free = slots.len() - 1;
    while free > 0 && slots[free - 1].is_before(&job) {
        slots[free] = slots[free - 1];
        free -= 1;
    }
    slots[free] = job;
}

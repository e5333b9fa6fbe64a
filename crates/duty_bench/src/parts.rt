// The parts of a bench that a step changes one after the other.
use crate::stage::Stage;
use ready::job::JobId;
use ready::put::TASKS;
use ready::queue::ReadyQueue;
use rules::counts::{Counts, TaskCounts};

// What relates them within a step is told by the contracts of the functions here, and by no invariant: it changes from point to point of a step.
pub struct Parts<Q: ReadyQueue> {
    pub(crate) queue: Q,
    pub(crate) clock: u32,
    pub(crate) stage: Stage,
    pub(crate) previous: Option<JobId>,
    // for the tasks of the table, and beyond: the memory of a bench is fixed
    pub(crate) tasks: [TaskCounts; TASKS as usize],
    pub(crate) counts: Counts,
}

// What closing a bench gives.
use crate::counts::{Counts, TaskCounts};
use ready::job::Job;
use ready::put::TASKS;

// It moves and is never copied. Of `tasks`, the first `rows` are the tasks of the table; the others are 0.
#[derive(Drop)]
pub struct Closing {
    pub clock: u32,
    pub counts: Counts,
    // a count beside the array: the memory of a bench is fixed, and a table has up to 32 rows
    pub rows: usize,
    pub tasks: [TaskCounts; TASKS as usize],
    pub miss: Option<Job>,
}

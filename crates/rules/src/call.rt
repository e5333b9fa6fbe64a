// What can be asked of an open bench.
#[derive(Clone, Copy, Debug, PartialEq, Eq)]
pub enum Call {
    // a step with a letter
    Step(char),
    // the counts of the bench
    Counts,
    // the counts of a task
    TaskCounts(u32),
    // the first waiting job
    First,
}

// What a bench counts.

// The counts of one task.
#[derive(Clone, Copy, Debug, PartialEq, Eq, Default)]
pub struct TaskCounts {
    // jobs released
    pub released: u32,
    // jobs done
    pub done: u32,
    // ticks given to its jobs
    pub given: u32,
}

// The counts of the whole bench.
#[derive(Clone, Copy, Debug, PartialEq, Eq, Default)]
pub struct Counts {
    // ticks in which nothing was pending
    pub idle: u32,
    // jobs that have had a tick
    pub begun: u32,
    // preemptions: ticks in which a job took over from another that was not done
    pub interruptions: u32,
}

// A ready queue that keeps its jobs in a heap.
#![tactic(auto)]

pub mod queue;

// A plain ready queue: an array of jobs that is kept in order.
#![tactic(auto)]

pub mod operations;
pub mod queue;
mod slots;

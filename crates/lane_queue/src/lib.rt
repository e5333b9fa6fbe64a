// A ready queue that keeps a lane of jobs for each task, and marks the lanes in use in a word.
#![tactic(auto)]

mod lane;
pub mod queue;
mod word;

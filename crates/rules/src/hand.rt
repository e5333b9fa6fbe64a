// The hand.
use ready::job::Job;

// A job that keeps the processor for the next tick, with its holds in a row.
#[derive(Clone, Copy, Debug, PartialEq, Eq)]
pub struct Held {
    pub job: Job,
    pub holds: u32,
}

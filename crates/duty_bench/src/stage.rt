// The state of a bench that decides what a letter does.
use ready::job::Job;
use rules::hand::Held;

#[derive(Clone, Copy)]
pub enum Stage {
    // no job keeps the processor
    Free,
    // a job keeps the processor, with its holds in a row
    Holding(Held),
    // a job has missed its deadline; the hand stays as it was
    Stopped { hand: Option<Held>, miss: Job },
}

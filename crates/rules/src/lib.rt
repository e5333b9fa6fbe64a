// The rules of a run: what a step does, and what is true of every run.
#![tactic(auto)]

pub mod call;
pub mod closing;
pub mod counts;
pub mod hand;
pub mod letter;
pub mod refusal;
pub mod theorems;

// Ready queues: the jobs that wait for the processor, and the interface that every queue of them keeps.
#![tactic(auto)]

pub mod job;
pub mod order;
pub mod put;
pub mod queue;
pub mod refusal;
pub mod theorems;

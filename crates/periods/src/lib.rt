// The period list: the periods that a task may have.
#![tactic(auto)]

pub mod list;
pub mod theorems;

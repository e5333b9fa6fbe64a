// The log: a line is a value first, and its bytes are a function of that value.
#![tactic(auto)]

pub mod line;
pub mod logged;
pub mod refusal;
pub mod text;
pub mod theorems;
pub mod write;

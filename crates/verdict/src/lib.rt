// Devi's test with blocking, and the judged table that comes of it.
#![tactic(auto)]

pub mod answer;
pub mod judge;
pub mod judged;
mod test;
pub mod theorems;

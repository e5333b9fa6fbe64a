// What the program does, over any readers and any writer: its `main` only opens them.
#![tactic(auto)]

pub mod lines;
pub mod run;
pub mod sheets;

// The bench: a judged table that is run tick by tick over a ready queue.
#![tactic(auto)]

mod advance;
pub mod ask;
pub mod bench;
mod check;
pub mod open;
mod parts;
mod release;
pub mod run;
mod stage;
pub mod step;
pub mod stream;
mod tick;

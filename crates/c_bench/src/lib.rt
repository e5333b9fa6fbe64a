// The bench for callers in C and Rust: a sheet and letters go in as bytes, and a sheet or a line comes out as bytes.
#![tactic(auto)]

pub mod runs;
pub mod sheets;
pub mod theorems;

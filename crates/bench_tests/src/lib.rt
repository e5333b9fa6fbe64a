#![tactic(auto)]

// The bench over every ready queue, on the same tables and letters: what it answers must not tell the queues apart.
// And the program's whole logs, with readers that give their bytes in parts.
#[cfg(test)]
mod programs;
#[cfg(test)]
mod questions;
#[cfg(test)]
mod runs;
#[cfg(test)]
mod sheets;
#[cfg(test)]
mod tests;

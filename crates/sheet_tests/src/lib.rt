#![tactic(auto)]

// Tests of reading and writing sheets: each refusal at its edge, and two faults at once.
#[cfg(test)]
mod cases;
#[cfg(test)]
mod tests;

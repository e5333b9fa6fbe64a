// What tests in numbers share: a checksum over all that was answered, and drawn numbers.
#![tactic(auto)]

pub mod draws;
pub mod sum;

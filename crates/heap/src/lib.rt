// Heaps: one text for every kind of entry whose order is total. It serves waiting jobs and coming releases.
#![tactic(auto)]

pub mod entry;
pub mod job;
pub mod release;
pub mod releases;
pub mod slots;

// Task tables and their sheets: rows, the rules that a table keeps, reading and writing.
#![tactic(auto)]

pub mod fault;
mod layout;
pub mod made;
pub mod read;
pub mod refusal;
pub mod row;
mod rules;
pub mod table;
pub mod theorems;
pub mod write;

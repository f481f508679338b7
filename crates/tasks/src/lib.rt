// The task model: what a line of a task table says, the table, and why a call is refused.
#![tactic(auto)]

pub mod job;
pub mod line;
pub mod lines;
pub mod name;
pub mod names;
pub mod refusal;
pub mod table;
pub mod tables;
pub mod technique;
pub mod twins;

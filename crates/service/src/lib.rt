// What a scheduler's user is owed: calls of an engine with their answers, and what is guaranteed of every list of them.
#![tactic(auto)]

pub mod apply;
pub mod log;
pub mod replay;

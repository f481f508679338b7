// Scripts of calls, and the lines that answer them.
#![tactic(auto)]

pub mod answer;
pub mod call;
pub mod script;

// Worked examples, each a call of the real code whose contract is the example.
#![tactic(auto)]

pub mod all;
mod cameras;
mod demands;
mod patterns;
pub mod run;

// Policies: what is planned for a line's jobs, what that promises, and the six that ship.
#![tactic(auto)]

pub mod by_line;
mod costs;
pub mod pattern;
pub mod policy;
pub mod technique;

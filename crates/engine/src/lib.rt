// The engine: a table is opened, its tasks are released, and ticks run their jobs by priority.
#![tactic(auto)]

mod advance;
pub mod engine;
pub mod open;
pub mod questions;
pub mod release;
pub mod state;
pub mod tick;
mod word;

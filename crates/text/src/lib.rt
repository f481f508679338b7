// Reads a table text: lines of nine fields, each line ended by a line feed.
#![tactic(auto)]

pub mod line;
pub mod lines;
pub mod number;
pub mod part;
pub mod read;
pub mod value;

// The bytes that answer a table text: its figures and verdict, or its refusal.
#![tactic(auto)]

pub mod report;

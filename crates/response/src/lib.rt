// Response figures: the smallest times by which a job of a line and all that the lines above may ask for fit.
#![tactic(auto)]

mod asks;
pub mod figures;
mod kept;

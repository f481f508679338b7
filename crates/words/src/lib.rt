// Words of zeros and ones: their bits, the two ready-made patterns, and the turn that rearranges a word.
#![tactic(auto)]

pub mod bits;
pub mod patterns;
pub mod quota;
pub mod turns;

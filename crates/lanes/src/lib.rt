// Five hundred and twelve patterns at once: a line has eight words, and bit j of word w is its value under pattern base + 64 w + j.

#![tactic(auto)]

pub mod eight;
pub mod fill;
pub mod flat;
pub mod flip;
mod gate;
pub mod own;
pub mod trial;

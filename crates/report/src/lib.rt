// Lines made from what calls say, each by a function whose contract says which bytes.

#![tactic(auto)]

pub mod book;
pub mod input;
pub mod lines;
pub mod output;
pub mod rooms;

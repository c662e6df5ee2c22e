// One command line of the bench console: what it asks for.

#![tactic(auto)]

mod bytes;
pub mod command;
mod fault;
mod forms;
pub mod hex;
mod number;

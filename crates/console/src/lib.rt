// The console's commands, a module for each group.

#![tactic(auto)]

pub mod help;
pub mod on_book;
pub mod on_both;
pub mod on_image;
pub mod on_rows;
pub mod on_target;

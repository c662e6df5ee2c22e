// Text made in a buffer, by functions whose contracts say which bytes. Nothing here knows of a call or a refusal.

#![tactic(auto)]

pub mod form;
pub mod hex;
pub mod line;
pub mod numbers;
pub mod put;

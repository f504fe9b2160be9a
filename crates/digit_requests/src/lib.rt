//! Answers each line of an input, as the program `digit_drain` does. Start reading at
//! [`engine::serve`].
#![tactic(auto)]

pub mod engine;
pub mod fault;
pub mod input;
pub mod line;
pub mod output;
pub mod report;

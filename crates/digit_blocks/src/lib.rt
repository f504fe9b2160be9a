//! Blocks of a text, each of which is read by itself, in any order, on any machine: where one may
//! begin, and that together they give the list of the text.
#![tactic(auto)]

mod end;
pub mod laws;
mod start;

pub use self::end::end_in_text;
pub use self::start::block_start;

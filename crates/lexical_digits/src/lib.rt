//! Digit iterators that share one cursor and drop digit separators: `iterator.rs` and `skip.rs` of
//! lexical-util.
//!
//! Start with [`skip`]: the buffer with its cursor, and the iterators of the four components.
//! [`iterator`] has the traits. [`laws`], [`stop`] and [`texts`] state what is proved of them.
#![tactic(auto)]

pub mod iterator;
pub mod laws;
pub mod ops;
pub mod skip;
pub mod stop;
pub mod texts;

//! A buffer with a cursor, and its one iterator, which drops no byte: lexical-util's `noskip.rs`.
//!
//! The place and the count are the cursor. Each call follows the plain call table of
//! `specs/Plain.antt`. For a word with no separator, no flag and equal radixes the calls answer
//! what those of `lexical_digits::skip` do, as [`plain_agrees`](crate::laws::plain_agrees) says;
//! `len` and `size_hint` are exact as well. With any other word every byte is still yielded,
//! separators included.

mod bytes;
mod digits;

pub use bytes::{AsBytes, Bytes};
pub use digits::DigitsIterator;

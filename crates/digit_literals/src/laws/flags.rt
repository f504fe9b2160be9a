//! What a word with more flags reads.

pub use digit_integers::laws::flags::more_flags_read_the_same;

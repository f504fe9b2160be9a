//! That a number that was written is read.

pub use digit_integers::laws::written::written_numbers_are_read;

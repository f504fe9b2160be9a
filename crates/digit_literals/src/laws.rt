//! Laws of bytes, gaps and lists, and those of `digit_values` and `digit_integers`.

pub mod bytes;
pub mod flags;
pub mod follows;
pub mod gaps;
pub mod lists;
pub mod written;

pub use digit_integers::laws::{greater_reads_more, outcomes_say, read_integer_is_read_digits};
pub use digit_values::laws::{first_are_significant, first_go_on, too_large_leaves_the_rest};

//! Integers in a text, one and many, under one name: what `digit_values` and `digit_integers` read,
//! and here lists of integers, with the bytes between them.
#![tactic(auto)]

mod ends;
pub mod equality;
pub mod laws;
mod list;
mod one;
pub mod others;

pub use self::list::{
    COMMAS, COMMAS_IN_LINE, Gap, LINES, ListEnd, ListRead, SPACES, SPACES_IN_LINE, WHITESPACE,
    is_list_by_ends, read_list, read_list_with,
};
pub use self::one::{Integers, ReadsOne};
pub use digit_integers::{
    Integer, ParseError, parse_number, parse_number_from, read_at_most, read_exactly, read_integer,
    read_integer_from, read_number, read_number_from, read_wide_from,
};
pub use digit_values::{
    BLANKS, Digits, FirstDigits, LiteralError, TooLarge, byte_at, count_digits, expect_byte,
    expect_bytes, has_byte, has_bytes, name_end, outcomes_differ, pass_digits, pass_zeros,
    past_bytes, read_digits, read_digits_after, read_digits_of, read_digits_up_to,
    read_few_digits_from, read_first_digits, read_first_digits_from, read_some_digits_from,
    read_some_digits_here, stop_from, take_digits,
};

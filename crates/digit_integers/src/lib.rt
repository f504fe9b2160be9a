//! Integers of every type, read from a text: `parse_number::<i32>(b"-1_000", PYTHON_LITERAL)` is
//! `Ok(-1000)`.
#![tactic(auto)]

pub mod equality;
mod exactly;
mod groups;
mod hexadecimal;
mod integer;
pub mod laws;
mod number;
mod parse;
mod types;
mod wide;

pub use self::exactly::{read_at_most, read_exactly};
pub use self::integer::{read_integer, read_integer_from};
pub use self::number::{
    greatest, greatest_of_both, parse_number, parse_number_from, read_number, read_number_from,
};
pub use self::parse::ParseError;
pub use self::types::Integer;
pub use self::wide::read_wide_from;

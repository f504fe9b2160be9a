//! Numbers are written as text that is read back as the same number: integers, in decimal or in a
//! layout, lists of integers, and amounts, in a slice of the caller.
//!
//! ```text
//! write_number(-128i8, &mut out)                            -128
//! write_number_by(1234567, decimal grouped by `,`, ..)      1,234,567
//! write_number_by(255, radix 16 with at least 4 digits, ..) 00ff
//! write_list(&[80, -1, 443], b',', ..)                      80,-1,443
//! write_scaled(-1250, b'.', 2, ..)                          -12.50
//! write_price(123450, b'.', 2, b',', ..)                    1,234.50
//! ```
//!
//! [`write_number`] writes the shortest text: `parse_number` reads it back by each word of radix
//! 10, and no shorter text. It requires room for each number of the type ([`Written::ROOM`]). The
//! others answer the room that is needed, if there is less
//! ([`NoRoom`](decimal_writers::NoRoom)), and then write nothing. What is behind the text isn't
//! touched.
//!
//! [`write_number_by`] writes in a [`Layout`]: radix and case, groups, zeros and `+`. A word reads
//! the layout if it has its radix, and drops its separator between digits of the integer; a `+` is
//! read as a number of a type with a sign. A list is read back by `parse_list` of `digit_lists`, if
//! no byte between two numbers may be in one. `read_scaled_from` and `read_price_from` of
//! `digit_amounts` read amounts and prices back.
//!
//! The laws for callers are in [`laws`].
#![tactic(auto)]

mod amounts;
mod by;
mod digits;
mod groups;
pub mod laws;
mod layout;
mod list;
mod number;
mod thousands;
mod triples;
mod types;
mod wide;

pub use self::amounts::{write_price, write_scaled};
pub use self::by::write_number_by;
pub use self::layout::Layout;
pub use self::list::write_list;
pub use self::number::write_number;
pub use self::types::{MOST_ROOM, Written};

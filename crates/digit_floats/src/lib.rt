//! The nearest `f64` or `f32` of a text with digit separators, and its decimal number.
#![tactic(auto)]

mod binary;
mod bounds;
mod decimal;
mod eights;
mod error;
mod exact;
mod float;
mod hexadecimal;
pub mod laws;
mod long;
mod middle;
mod near;
mod parts;
mod powers;
mod read;
mod round;
mod zeros;

pub use self::binary::round_integer;
pub use self::decimal::{Decimal, decimal_of, read_decimal_from};
pub use self::error::FloatError;
pub use self::float::Float;
pub use self::hexadecimal::{HexMantissa, read_hex_float_from, read_hex_mantissa, round_hex};
pub use self::parts::{
    Mantissa, Marks, Power, has_mark, read_exponent, read_mantissa, read_short_exponent,
    read_short_exponent_here, read_short_fraction, read_short_whole, read_sign,
};
pub use self::read::{parse_float, parse_float_from, read_float, read_float_from};
pub use self::round::{round_few, round_few_with, round_parts};
pub use self::zeros::are_zeros;

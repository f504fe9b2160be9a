//! `==` and `clone` on the plain values of this crate: `==` answers `true` exactly if the two
//! values are the same, part by part, and a clone is the same value.

ghost use Rattle.std.specs.Prelude.{◌≡◌};

use digit_integers::ParseError;
pub use digit_integers::equality::same_parse_error;
pub use digit_values::equality::{
    same_digits, same_first_digits, same_literal_error, same_too_large,
};
use digit_values::{Digits, FirstDigits, LiteralError, TooLarge};

/// A clone is the same value.
pub fn clones_are_same(
    literal_error: LiteralError,
    parse_error: ParseError,
    digits: Digits,
    too_large: TooLarge,
    first_digits: FirstDigits,
) -> (LiteralError, ParseError, Digits, TooLarge, FirstDigits)
    ensures { result ≡ (literal_error, parse_error, digits, too_large, first_digits) }
{
    let literal_error = literal_error.clone().unwrap();
    let parse_error = parse_error.clone().unwrap();
    (
        literal_error,
        parse_error,
        digits.clone().unwrap(),
        too_large.clone().unwrap(),
        first_digits.clone().unwrap(),
    )
}

//! `==` and `clone` on the plain values of this crate: `==` answers `true` exactly if the two
//! values are the same, part by part, and a clone is the same value.

ghost use Rattle.std.specs.Prelude.{◌≡◌, true};

use super::{Digits, FirstDigits, LiteralError, TooLarge};

/// Two errors of a literal are equal exactly if they are the same.
pub fn same_literal_error(a: LiteralError, b: LiteralError) -> bool
    ensures same { result ≡ true → a ≡ b }
    ensures equal { a ≡ b → result ≡ true }
{
    a == b
}

/// Two answers of digits are equal exactly if they are the same.
pub fn same_digits(a: Digits, b: Digits) -> bool
    ensures same { result ≡ true → a ≡ b }
    ensures equal { a ≡ b → result ≡ true }
{
    a == b
}

/// Two answers of first digits are equal exactly if they are the same.
pub fn same_first_digits(a: FirstDigits, b: FirstDigits) -> bool
    ensures same { result ≡ true → a ≡ b }
    ensures equal { a ≡ b → result ≡ true }
{
    a == b
}

/// Two errors of a value too large are equal exactly if they are the same.
pub fn same_too_large(a: TooLarge, b: TooLarge) -> bool
    ensures same { result ≡ true → a ≡ b }
    ensures equal { a ≡ b → result ≡ true }
{
    a == b
}

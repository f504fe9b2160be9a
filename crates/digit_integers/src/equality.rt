//! `==` and `clone` on the plain values of this crate: `==` answers `true` exactly if the two
//! values are the same, part by part, and a clone is the same value.

ghost use Rattle.std.specs.Prelude.{◌≡◌, true};

use super::ParseError;

/// Two errors of a whole text are equal exactly if they are the same.
pub fn same_parse_error(a: ParseError, b: ParseError) -> bool
    ensures same { result ≡ true → a ≡ b }
    ensures equal { a ≡ b → result ≡ true }
{
    a == b
}

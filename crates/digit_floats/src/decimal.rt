//! The decimal number at a position of a text.

ghost use Rattle.std.specs.Prelude.{◌≡◌, ◌<◌, ◌≤◌, ◌^◌, ◌-◌, ℕ, min, length, pos, ◌+ℤ◌, ◌-ℤ◌, IsTrue, IfOk, Ok, Err, MatchResult};
ghost use Rattle.std.specs.Int.{saturate_signed, w64};
ghost use Rattle.lexical_format.specs.Word.{is_supported};
ghost use Rattle.digit_floats.specs.Decimals.{decimal_of, signed_exponent, read_decimal_at};
ghost use Rattle.digit_floats.specs.Float.{IsDecimal, plain_marks};
ghost use Rattle.digit_floats.specs.Parts.{IsMantissa, integer_of, fraction_of};

use super::error::FloatError;
use super::parts::{Mantissa, Marks, Power, read_parts};

/// A decimal number: about `value` times ten to the power `exponent`, and exactly that if no digit
/// was dropped.
#[derive(Clone, Copy, Debug, PartialEq, Eq)]
pub struct Decimal {
    /// Whether it has a minus; so may a zero.
    pub negative: bool,
    /// The first 19 significant digits as a number. Leading zeros aren't significant.
    pub value: u64,
    /// How many digits follow those of the value.
    pub dropped: usize,
    /// The power of ten by which `value` is multiplied: the written exponent, minus the number of
    /// digits after the point, plus `dropped`. If that doesn't fit, it is `i64::MIN` or `i64::MAX`.
    pub exponent: i64,
}

/// An exponent, more by the digits that were dropped and less by those that follow the point.
#[inline(always)]
fn exponent_of(power: Power, dropped: usize, places: usize) -> i64
    requires dropped { dropped < 2 ^ 63 }
    requires places { places < 2 ^ 63 }
    ensures { (n : ℕ) → power.value ≡ min n (2 ^ 64 - 1) → result ≡ saturate_signed w64
        (signed_exponent power.negative n +ℤ (pos dropped -ℤ pos places)) }
{
    let more = dropped as i64 - places as i64;
    if power.negative {
        more.saturating_sub_unsigned(power.value)
    } else {
        more.saturating_add_unsigned(power.value)
    }
}

/// Returns the number that [`round_parts`](crate::round_parts) rounds: its digits and a power of
/// ten.
#[inline(always)]
pub fn decimal_of(text: &[u8], negative: bool, mantissa: Mantissa, power: Power) -> Decimal
    requires { IsMantissa text.now mantissa }
    ensures { (n : ℕ) → power.value ≡ min n (2 ^ 64 - 1) → result
        ≡ decimal_of negative (integer_of text.now mantissa) (fraction_of text.now mantissa)
        (signed_exponent power.negative n) }
{
    Decimal {
        negative,
        value: mantissa.value,
        dropped: mantissa.dropped,
        exponent: exponent_of(power, mantissa.dropped, mantissa.places),
    }
}

/// Reads the number that [`read_float_from`](crate::read_float_from) rounds: its digits and a power
/// of ten. Requires that the word is supported, and that its mantissa and exponent are decimal.
///
/// It begins at `start`, and the position after it is returned too.
///
/// ```text
/// `-0.1000000000000000055511151231257827e+7x`:
///     value 1000000000000000055, dropped 15, exponent 7 + 15 - 34 = -12, end 40
/// ```
#[inline(always)]
pub fn read_decimal_from(
    text: &[u8],
    word: u128,
    start: usize,
) -> Result<(Decimal, usize), FloatError>
    requires supported { IsTrue (is_supported word) }
    requires decimal { IsDecimal word }
    requires within { start ≤ length text.now }
    ensures reads { MatchResult result
        (λ r. read_decimal_at word text.now plain_marks start ≡ Ok r)
        (λ error. read_decimal_at word text.now plain_marks start ≡ Err error) }
    ensures within { IfOk result (λ r. (start < r.1) × (r.1 ≤ length text.now)) }
{
    let parts = read_parts(text, word, Marks::PLAIN, start, false)?;
    let number = decimal_of(text, parts.negative, parts.mantissa, parts.power);
    Ok((number, parts.power.end))
}

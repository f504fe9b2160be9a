//! Digits whose number is known, such as those of a date, an escape or a colour.

ghost use Rattle.std.specs.Prelude.{◌≡◌, ◌+◌, ◌-◌, ◌^◌, ◌<◌, ◌≤◌, unsigned_abs, length, take, drop, false, Ok, Err, IfOk, IfErr, MatchResult};
ghost use Rattle.digit_values.specs.Errors.{literal_position};
ghost use Rattle.digit_integers.specs.Exactly.{counted_at, exactly_at, at_most_at, IsCounted};
ghost use Rattle.digit_integers.specs.Numbers.{with_sign};

use super::types::Integer;
use super::wide::add_wide;
use digit_values::{LiteralError, add_digit};
use lexical_format::char_to_digit_const;

/// Digits that were read.
#[derive(Clone, Copy)]
struct Counted<V> {
    value: V,
    /// How many they are.
    count: usize,
    /// Whether the value is above the greatest with the digit after them.
    is_too_large: bool,
}

/// At most `many` bytes from a position on.
#[inline(always)]
fn window(text: &[u8], start: usize, many: usize) -> &[u8]
    ensures { result.now ≡ take many (drop start text.now) }
{
    if start >= text.len() {
        return &[];
    }
    let rest = &text[start..];
    if many < rest.len() {
        &rest[..many]
    } else {
        rest
    }
}

/// The digits that some bytes begin with, as far as their value is at most `most`.
#[inline(always)]
#[tactic(auto, using(crate::proofs::Counts::turns))]
fn count_narrow(bytes: &[u8], radix: u32, most: u64) -> Counted<u64>
    ensures { IsCounted radix bytes.now most result.value result.count result.is_too_large }
{
    let mut value = 0;
    for count in 0..bytes.len() {
        let Some(digit) = char_to_digit_const(bytes[count], radix) else {
            return Counted {
                value,
                count,
                is_too_large: false,
            };
        };
        let Some(more) = add_digit(value, radix, digit, most) else {
            return Counted {
                value,
                count,
                is_too_large: true,
            };
        };
        value = more;
    }
    Counted {
        value,
        count: bytes.len(),
        is_too_large: false,
    }
}

/// The digits that some bytes begin with, as far as their value is at most `most`.
#[inline(always)]
#[tactic(auto, using(crate::proofs::Counts::turns))]
fn count_wide(bytes: &[u8], radix: u32, most: u128) -> Counted<u128>
    ensures { IsCounted radix bytes.now most result.value result.count result.is_too_large }
{
    let mut value = 0;
    for count in 0..bytes.len() {
        let Some(digit) = char_to_digit_const(bytes[count], radix) else {
            return Counted {
                value,
                count,
                is_too_large: false,
            };
        };
        let Some(more) = add_wide(value, radix, digit, most) else {
            return Counted {
                value,
                count,
                is_too_large: true,
            };
        };
        value = more;
    }
    Counted {
        value,
        count: bytes.len(),
        is_too_large: false,
    }
}

/// [`count_wide`], by 64 bits where these are enough.
#[inline(always)]
fn count_up_to(bytes: &[u8], radix: u32, most: u128) -> Counted<u128>
    ensures { IsCounted radix bytes.now most result.value result.count result.is_too_large }
{
    if most > u128::from(u64::MAX) {
        return count_wide(bytes, radix, most);
    }
    let narrow = count_narrow(bytes, radix, most as u64);
    Counted {
        value: u128::from(narrow.value),
        count: narrow.count,
        is_too_large: narrow.is_too_large,
    }
}

/// The value of the digits at a position, from `few` to `many` of them, and where they end.
#[inline(always)]
#[tactic(auto, unfolding(crate::specs::Exactly::counted_at))]
fn read_counted<T: Integer>(
    text: &[u8],
    start: usize,
    radix: u32,
    few: usize,
    many: usize,
) -> Result<(T, usize), LiteralError>
    ensures is { let read = with_sign false (counted_at radix text.now start few many T.MAX) in
        MatchResult result (λ r. read ≡ Ok (T.number r.0, r.1)) (λ error. read ≡ Err error) }
    ensures end { IfOk result (λ r. (start + few ≤ r.1) × (r.1 ≤ start + many)) }
    ensures below { IfOk result (λ r.
        unsigned_abs (T.number r.0) < radix ^ (r.1 - start)) }
    ensures within { start ≤ length text.now → IfOk result (λ r. r.1 ≤ length text.now) }
    ensures fault { IfErr result (λ error. start ≤ literal_position error) }
    ensures fault_within { start ≤ length text.now →
        IfErr result (λ error. literal_position error ≤ length text.now) }
{
    let read = count_up_to(window(text, start, many), radix, T::MAX);
    let end = start + read.count;
    if read.is_too_large {
        Err(LiteralError::Overflow(end))
    } else if read.count < few {
        Err(LiteralError::Empty(end))
    } else {
        Ok((T::of_magnitude(false, read.value), end))
    }
}

/// Reads exactly `n` digits: no sign, no separator. What follows isn't looked at. In a radix above
/// 10 letters are digits, in either case.
///
/// They begin at `start`, and end at `start + n`. The number is below `radix` to the power `n`: two
/// decimal digits are at most 99. Any radix may be given. With an `n` of 0 the number is 0, and
/// ends at `start`, also where that is after the end of the text. Radix 1 has the digit `0` alone,
/// so its numbers are 0; radix 0 has no digit.
///
/// [`Empty`](LiteralError::Empty) holds the first of the `n` bytes that is no digit, or the end of
/// the text; [`Overflow`](LiteralError::Overflow) the first digit with which the type has no such
/// number.
///
/// ```text
/// `2026-11-25`: `read_exactly::<u16>` from 0, radix 10, 4 digits: Ok((2026, 4))
/// `\u00e9`: `read_exactly::<u32>` from 2, radix 16, 4 digits: Ok((233, 6))
/// `7:05`, 2 digits from 0: Err(Empty(1))
/// ```
#[inline(always)]
pub fn read_exactly<T: Integer>(
    text: &[u8],
    start: usize,
    radix: u32,
    n: usize,
) -> Result<(T, usize), LiteralError>
    ensures is { let read = exactly_at radix text.now start n T.MAX in
        MatchResult result (λ r. read ≡ Ok (T.number r.0, r.1)) (λ error. read ≡ Err error) }
    ensures end { IfOk result (λ r. r.1 ≡ start + n) }
    ensures below { IfOk result (λ r. unsigned_abs (T.number r.0) < radix ^ n) }
    ensures within { start ≤ length text.now → IfOk result (λ r. r.1 ≤ length text.now) }
    ensures fault { IfErr result (λ error. start ≤ literal_position error) }
    ensures fault_within { start ≤ length text.now →
        IfErr result (λ error. literal_position error ≤ length text.now) }
{
    read_counted::<T>(text, start, radix, n, n)
}

/// Reads one to `n` digits, as many as there are.
///
/// It is [`read_exactly`] of as many digits as are there, if these are fewer. An `n` of 0 is
/// [`Empty`](LiteralError::Empty).
///
/// ```text
/// `7:05`, `read_at_most::<u8>` from 0, radix 10, 2 digits: Ok((7, 1)); `123`: Ok((12, 2))
/// ```
#[inline(always)]
pub fn read_at_most<T: Integer>(
    text: &[u8],
    start: usize,
    radix: u32,
    n: usize,
) -> Result<(T, usize), LiteralError>
    ensures is { let read = at_most_at radix text.now start n T.MAX in
        MatchResult result (λ r. read ≡ Ok (T.number r.0, r.1)) (λ error. read ≡ Err error) }
    ensures end { IfOk result (λ r. (start < r.1) × (r.1 ≤ start + n)) }
    ensures within { start ≤ length text.now → IfOk result (λ r. r.1 ≤ length text.now) }
    ensures fault { IfErr result (λ error. start ≤ literal_position error) }
    ensures fault_within { start ≤ length text.now →
        IfErr result (λ error. literal_position error ≤ length text.now) }
{
    read_counted::<T>(text, start, radix, 1, n)
}

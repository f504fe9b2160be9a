//! A decimal number as an integer, in units of its last place.

ghost use Rattle.std.specs.Prelude.{◌≡◌, ◌==◌, ◌+◌, ◌-◌, ◌*◌, ◌^◌, ◌<◌, ◌≤◌, ℕ, true, false, length, filter, take, IfOk, IfSome, Some, Ok, Err, IsTrue, MatchOption, MatchResult};
ghost use Rattle.std.specs.Char.{is_ascii_digit, digit_value};
ghost use Rattle.std.specs.Str.Parse.{digits_value, digits_value_after};
ghost use Rattle.lexical_format.specs.Word.{is_supported};
ghost use Rattle.lexical_digits.specs.declared.skip.component.Component.TheVariants.{Integer};
ghost use Rattle.digit_integers.specs.Numbers.{is_negative_from, digits_from};
ghost use Rattle.digit_floats.specs.Float.{IsDecimal, digits_end, mantissa_end};
ghost use Rattle.digit_floats.specs.Parts.{IsMantissa, integer_of, fraction_of};
ghost use Rattle.digit_amounts.specs.Scaled.{is_exact, first_value, scaled_value, fitting, fault_at, scaled_at, read_scaled_at, whole_of, none_at, position, message};

use digit_floats::{Mantissa, are_zeros, read_mantissa, read_sign};
use digit_integers::{Integer, read_wide_from};
use digit_values::LiteralError;
use digit_words::powers::wide_ten_to;
use std::error::Error;
use std::fmt;

/// Why no amount was read. A position counts bytes from the start of the text, from 0.
#[derive(Clone, Copy, Debug, PartialEq, Eq)]
pub enum ScaledError {
    /// Neither integer nor fraction has a digit, and they end at this position.
    Empty(usize),
    /// With the digit at this position the amount is outside of the type, or above `most`.
    TooLarge(usize),
    /// The digit at this position is beyond the last place, and isn't 0.
    TooFine(usize),
    /// The byte at this position is no part of the amount.
    Invalid(usize),
}

impl ScaledError {
    /// The position of the fault.
    pub fn position(&self) -> usize
        ensures { result ≡ position self.now }
    {
        match *self {
            ScaledError::Empty(at)
            | ScaledError::TooLarge(at)
            | ScaledError::TooFine(at)
            | ScaledError::Invalid(at) => at,
        }
    }

    /// Whether the error says that no number begins at `place`: no digit, no point, and no sign
    /// that the type has.
    pub fn is_none_at(&self, place: usize) -> bool
        ensures { result ≡ none_at place self.now }
    {
        match *self {
            ScaledError::Empty(at) => at == place,
            ScaledError::TooLarge(_) | ScaledError::TooFine(_) | ScaledError::Invalid(_) => false,
        }
    }
}

impl fmt::Display for ScaledError {
    ghost output = { λ e. Some (message e) };

    fn fmt<W: fmt::Write>(&self, f: &mut fmt::Formatter<W>) -> fmt::Result {
        match *self {
            ScaledError::Empty(at) => write!(f, "there is no digit before {at}"),
            ScaledError::TooLarge(at) => {
                write!(f, "the number is too large with the digit at {at}")
            }
            ScaledError::TooFine(at) => write!(f, "the digit at {at} is after the last place"),
            ScaledError::Invalid(at) => write!(f, "the byte at {at} is no part of a number"),
        }
    }
}

impl Error for ScaledError {}

/// A value with a digit after it, if it has at most 128 bits.
fn push_digit(value: u128, byte: u8) -> Option<u128>
    requires { is_ascii_digit byte ≡ true }
    ensures { let more = value * 10 + digit_value byte in
        MatchOption result (2 ^ 128 ≤ more) (λ v. v ≡ more) }
{
    value.checked_mul(10)?.checked_add(u128::from(byte - b'0'))
}

/// The value with the first digits of some bytes after those of a value, if it has at most 128
/// bits.
#[tactic(auto, using(crate::proofs::Firsts::turns))]
fn keep_first(bytes: &[u8], before: u128, count: usize) -> Option<u128>
    ensures { let first = take count (filter is_ascii_digit bytes.now) in
        let value = digits_value_after 10 before first in
        MatchOption result (2 ^ 128 ≤ value) (λ v. v ≡ value) }
{
    let mut value = before;
    let mut left = count;
    for byte in bytes {
        if left > 0 && byte.is_ascii_digit() {
            value = push_digit(value, *byte)?;
            left -= 1;
        }
    }
    Some(value)
}

/// A value times ten to a power, if it is at most `most`.
fn times_ten_to(value: u128, tens: usize, most: u128) -> Option<u128>
    requires { tens ≤ 38 }
    ensures is { MatchOption result (most < value * 10 ^ tens) (λ v. v ≡ value * 10 ^ tens) }
    ensures fits { IfSome result (λ v. v ≤ most) }
{
    let scaled = value.checked_mul(wide_ten_to(tens))?;
    if scaled <= most { Some(scaled) } else { None }
}

/// The value of the digits of the integer and of the first ones of the fraction, if it has at most
/// 128 bits.
#[tactic(auto, using(crate::proofs::Firsts::firsts))]
fn first_value(text: &[u8], mantissa: Mantissa, places: usize) -> Option<u128>
    requires { IsMantissa text.now mantissa }
    ensures { let fraction = fraction_of text.now mantissa in
        let whole = digits_value 10 (integer_of text.now mantissa) in
        let value = first_value whole places fraction in
        MatchOption result (2 ^ 128 ≤ value) (λ v. v ≡ value) }
{
    let whole = keep_first(
        &text[mantissa.start..mantissa.whole_end],
        0,
        mantissa.digits,
    )?;
    keep_first(&text[mantissa.fraction_start..mantissa.end], whole, places)
}

/// How many of the last place a mantissa is, without the digits after that, up to `most`.
#[tactic(auto, using(crate::proofs::Firsts::scales))]
fn value_of(text: &[u8], mantissa: Mantissa, places: usize, most: u128) -> Option<u128>
    requires is { IsMantissa text.now mantissa }
    requires places { places ≤ 38 }
    ensures is { let fraction = fraction_of text.now mantissa in
        let whole = digits_value 10 (integer_of text.now mantissa) in
        let value = scaled_value whole places fraction in
        MatchOption result (most < value) (λ v. v ≡ value) }
    ensures fits { IfSome result (λ v. v ≤ most) }
{
    if mantissa.dropped == 0 && mantissa.places <= places {
        return times_ten_to(u128::from(mantissa.value), places - mantissa.places, most);
    }
    let value = first_value(text, mantissa, places)?;
    times_ten_to(value, places.saturating_sub(mantissa.places), most)
}

/// Whether all digits after the last place are zeros.
#[tactic(auto, using(crate::proofs::Firsts::none_follows))]
fn is_exact(text: &[u8], mantissa: Mantissa, places: usize) -> bool
    requires { IsMantissa text.now mantissa }
    ensures { result ≡ is_exact (fraction_of text.now mantissa) places }
{
    mantissa.places <= places || are_zeros(&text[mantissa.fraction_start..mantissa.end], places)
}

/// A value with a digit of a fraction after it, if the number is neither too large nor too fine
/// with that digit, which is the first of `left` places.
#[tactic(auto, using(crate::proofs::Firsts::tens_grow))]
fn push_place(value: u128, left: usize, byte: u8, most: u128) -> Option<u128>
    requires digit { is_ascii_digit byte ≡ true }
    requires left { left ≤ 38 }
    ensures place { 0 < left → let more = value * 10 + digit_value byte in
        MatchOption result (most < more * 10 ^ (left - 1))
        (λ v. (v ≡ more) × (more * 10 ^ (left - 1) ≤ most)) }
    ensures no_place { left ≡ 0 →
        MatchOption result ((byte == 48) ≡ false) (λ v. (v ≡ value) × ((byte == 48) ≡ true)) }
{
    if left == 0 {
        return if byte == b'0' { Some(value) } else { None };
    }
    let more = push_digit(value, byte)?;
    times_ten_to(more, left - 1, most)?;
    Some(more)
}

/// How many bytes of a fraction are before the first digit with which the number is too large or
/// too fine. The value is that of its integer.
fn count_fitting(bytes: &[u8], whole: u128, places: usize, most: u128) -> usize
    requires places { places ≤ 38 }
    requires fits { whole * 10 ^ places ≤ most }
    ensures is { result ≡ fitting whole places most bytes.now }
    ensures within { result ≤ length bytes.now }
{
    let mut value = whole;
    let mut left = places;
    for at in 0..bytes.len() {
        if bytes[at].is_ascii_digit() {
            match push_place(value, left, bytes[at], most) {
                Some(more) => value = more,
                None => return at,
            }
            left = left.saturating_sub(1);
        }
    }
    bytes.len()
}

/// The first digit with which the number of a mantissa is too large or too fine.
#[cold]
#[inline(never)]
#[tactic(auto, using(crate::proofs::Faults::tens_fit), unfolding(digit_floats::specs::Float::digits_end))]
fn fault_of(text: &[u8], word: u128, mantissa: Mantissa, places: usize, most: u128) -> usize
    requires supported { IsTrue (is_supported word) }
    requires is { IsMantissa text.now mantissa }
    requires integer { mantissa.whole_end ≡ digits_end word text.now Integer mantissa.start }
    requires places { places ≤ 38 }
    ensures { (point : ℕ) → mantissa.end ≡ mantissa_end word text.now point mantissa.start
        → result ≡ fault_at word text.now point places most mantissa.start }
{
    let start = mantissa.whole_end;
    let whole = match read_wide_from(text, word, mantissa.start, most / wide_ten_to(places)) {
        Ok((whole, _)) => whole,
        Err(LiteralError::Empty(_)) => 0,
        Err(LiteralError::Overflow(over)) => return over,
    };
    start + count_fitting(&text[start..mantissa.end], whole, places, most)
}

/// Reads an amount without a sign, up to `most`. Like the result, `most` counts units of the last
/// place: for a `DECIMAL(9, 2)` of SQL it is 999,999,999.
///
/// It is [`read_scaled_from`] of a number whose sign is yours to read. Requires what that does.
#[inline]
#[tactic(auto, unfolding(crate::specs::Scaled::scaled_at))]
pub fn read_scaled_up_to(
    text: &[u8],
    word: u128,
    at: usize,
    point: u8,
    places: usize,
    most: u128,
) -> Result<(u128, usize), ScaledError>
    requires supported { IsTrue (is_supported word) }
    requires decimal { IsDecimal word }
    requires within { at ≤ length text.now }
    requires places { places ≤ 38 }
    ensures is { result ≡ scaled_at word text.now point places most at }
    ensures fits { IfOk result (λ read. read.0 ≤ most) }
    ensures end { IfOk result (λ read. (at < read.1) × (read.1 ≤ length text.now)) }
{
    let mantissa = read_mantissa(text, word, at, point);
    if mantissa.digits == 0 {
        return Err(ScaledError::Empty(mantissa.end));
    }
    let Some(value) = value_of(text, mantissa, places, most) else {
        let over = fault_of(text, word, mantissa, places, most);
        return Err(ScaledError::TooLarge(over));
    };
    if is_exact(text, mantissa, places) {
        Ok((value, mantissa.end))
    } else {
        let fine = fault_of(text, word, mantissa, places, most);
        Err(ScaledError::TooFine(fine))
    }
}

/// The sign of a number of a type: whether it is a minus, and the position after it.
#[inline(always)]
pub(super) fn sign_of<T: Integer>(text: &[u8], start: usize) -> (bool, usize)
    requires { start ≤ length text.now }
    ensures negative { result.0 ≡ is_negative_from T.MIN_MAGNITUDE text.now start }
    ensures begins { result.1 ≡ digits_from T.MIN_MAGNITUDE text.now start }
    ensures onward { start ≤ result.1 }
    ensures within { result.1 ≤ length text.now }
{
    if T::MIN_MAGNITUDE == 0 {
        return (false, start);
    }
    read_sign(text, start)
}

/// Reads the amount at `start`, and returns the position after it. One side of the point may have
/// no digit. An exponent isn't read. Requires that `start` is within the text, that the word is
/// supported and decimal, and that there are at most 38 places.
///
/// An amount is a decimal number times ten to the power `places`, as an exact integer of a type. It
/// is an optional `+` or `-` if the type has a sign, and then integer and fraction, with `point`
/// between them, of any number of digits.
///
/// ```text
/// `-1_234.5;` with internal `_`, as an `i64` of 2 places: Ok((-123450, 8))
/// `12.` and `.5` of 2 places: Ok((1200, 3)) and Ok((50, 2)); `.`: Err(Empty(1))
/// `0.125` of 2 places: Err(TooFine(4)); `0.1250` of 3 places: Ok((125, 6))
/// ```
#[inline]
pub fn read_scaled_from<T: Integer>(
    text: &[u8],
    word: u128,
    start: usize,
    point: u8,
    places: usize,
) -> Result<(T, usize), ScaledError>
    requires supported { IsTrue (is_supported word) }
    requires decimal { IsDecimal word }
    requires within { start ≤ length text.now }
    requires places { places ≤ 38 }
    ensures is { let read = read_scaled_at word text.now point places T.MIN_MAGNITUDE T.MAX start in
        MatchResult result (λ r. read ≡ Ok (T.number r.0, r.1)) (λ error. read ≡ Err error) }
    ensures end { IfOk result (λ r. (start < r.1) × (r.1 ≤ length text.now)) }
{
    let (is_negative, at) = sign_of::<T>(text, start);
    let most = if is_negative {
        T::MIN_MAGNITUDE
    } else {
        T::MAX
    };
    let (magnitude, end) = read_scaled_up_to(text, word, at, point, places, most)?;
    Ok((T::of_magnitude(is_negative, magnitude), end))
}

/// Reads a whole text as an amount: with 2 places `12.5` is 1250.
///
/// [`read_scaled_from`] says what it may be. Requires what that does.
///
/// ```text
/// `1_234.5` with internal `_`, as an `i64` of 2 places: Ok(123450); `1.5x`: Err(Invalid(3))
/// ```
#[inline]
pub fn parse_scaled<T: Integer>(
    text: &[u8],
    word: u128,
    point: u8,
    places: usize,
) -> Result<T, ScaledError>
    requires supported { IsTrue (is_supported word) }
    requires decimal { IsDecimal word }
    requires places { places ≤ 38 }
    ensures is { let read = read_scaled_at word text.now point places T.MIN_MAGNITUDE T.MAX 0 in
        let parsed = whole_of text.now read in
        MatchResult result (λ x. parsed ≡ Ok (T.number x)) (λ error. parsed ≡ Err error) }
{
    let (value, end) = read_scaled_from::<T>(text, word, 0, point, places)?;
    if end == text.len() {
        Ok(value)
    } else {
        Err(ScaledError::Invalid(end))
    }
}

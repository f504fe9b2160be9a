//! The float nearest to a number that was read.

ghost use Rattle.std.specs.Prelude.{◌≡◌, ◌+◌, ◌*◌, ◌-◌, ◌^◌, ◌<◌, ◌++◌, ℕ, min, if◌then◌else◌, IfSome};
ghost use Rattle.std.specs.Float.{NotNan};
ghost use Rattle.std.specs.Float.Ieee.{round};
ghost use Rattle.std.specs.Str.Parse.{digits_value};
ghost use Rattle.digit_floats.specs.Parts.{integer_of, fraction_of, IsMantissa};
ghost use Rattle.digit_floats.specs.Rounds.{IsRounded};

use super::bounds::round_bounds;
use super::exact::round_exact;
use super::float::{Float, signed};
use super::long::round_digits;
use super::middle::round_middle;
use super::near::{round_cut, round_from};
use super::parts::{Mantissa, Power};

/// A zero with a sign, which a zero times any power of ten is.
#[inline(always)]
fn zero<F: Float>(negative: bool) -> F
    ensures { (up down : ℕ) →
        F.value result ≡ round F.format negative (0 * 10 ^ up) (10 ^ down) }
{
    signed(negative, F::of_units(0, 0))
}

/// [`round_parts`] of a mantissa of which no digits were dropped, and that no exponent follows, if
/// one division or one product tells.
#[inline(always)]
pub fn round_few<F: Float>(text: &[u8], negative: bool, mantissa: Mantissa) -> Option<F>
    requires is { IsMantissa text.now mantissa }
    requires few { mantissa.dropped ≡ 0 }
    ensures value { IfSome result (λ x. F.value x ≡ round F.format negative
        (digits_value 10 (integer_of text.now mantissa ++ fraction_of text.now mantissa))
        (10 ^ mantissa.places)) }
    ensures no_nan { IfSome result (λ x. NotNan (F.value x)) }
{
    let places = mantissa.places as u64;
    let value = mantissa.value;
    match F::over_ten_to(value, places) {
        Some(x) => Some(signed(negative, x)),
        None if value == 0 => None,
        None => match round_from::<F>(negative, value, 0, places, false, 0) {
            Some(x) => Some(x),
            None => None,
        },
    }
}

/// [`round_parts`] of a mantissa of which no digits were dropped, if one operation or one product
/// tells.
#[inline(always)]
pub fn round_few_with<F: Float>(
    text: &[u8],
    negative: bool,
    mantissa: Mantissa,
    power: Power,
) -> Option<F>
    requires is { IsMantissa text.now mantissa }
    requires few { mantissa.dropped ≡ 0 }
    ensures value { IfSome result (λ x.
        IsRounded F.format negative text.now mantissa power (F.value x)) }
    ensures no_nan { IfSome result (λ x. NotNan (F.value x)) }
{
    if power.value > 0x7fff_ffff {
        return None;
    }
    let places = mantissa.places as u64;
    let value = mantissa.value;
    match round_exact::<F>(negative, value, places, power.negative, power.value) {
        Some(x) => Some(x),
        None if value == 0 => None,
        None => match round_from::<F>(negative, value, 0, places, power.negative, power.value) {
            Some(x) => Some(x),
            None => None,
        },
    }
}

/// [`round_few_with`], by code of its own for the numbers without an exponent, which are the most.
#[inline(always)]
pub fn round_short<F: Float>(
    text: &[u8],
    negative: bool,
    mantissa: Mantissa,
    power: Power,
) -> Option<F>
    requires is { IsMantissa text.now mantissa }
    requires few { mantissa.dropped ≡ 0 }
    ensures value { IfSome result (λ x.
        IsRounded F.format negative text.now mantissa power (F.value x)) }
    ensures no_nan { IfSome result (λ x. NotNan (F.value x)) }
{
    if power.value == 0 {
        match round_few::<F>(text, negative, mantissa) {
            Some(x) => Some(x),
            None => None,
        }
    } else {
        match round_few_with::<F>(text, negative, mantissa, power) {
            Some(x) => Some(x),
            None => None,
        }
    }
}

/// [`round_short`], by no branch that depends on the sign. It is only for speed, where no branch
/// before depends on it.
#[inline(always)]
pub fn round_unsigned<F: Float>(
    text: &[u8],
    negative: bool,
    mantissa: Mantissa,
    power: Power,
) -> Option<F>
    requires is { IsMantissa text.now mantissa }
    requires few { mantissa.dropped ≡ 0 }
    ensures value { IfSome result (λ x.
        IsRounded F.format negative text.now mantissa power (F.value x)) }
    ensures no_nan { IfSome result (λ x. NotNan (F.value x)) }
{
    match round_short::<F>(text, false, mantissa, power) {
        Some(x) => Some(x.negated_if(negative)),
        None => None,
    }
}

/// [`round_parts`] by [`round_bounds`]. Only for speed: zeros, infinities and numbers that aren't
/// normal need no text for std then.
#[inline(always)]
fn round_far<F: Float>(text: &[u8], negative: bool, mantissa: Mantissa, power: Power) -> Option<F>
    requires { IsMantissa text.now mantissa }
    ensures { IfSome result (λ x.
        IsRounded F.format negative text.now mantissa power (F.value x)) }
{
    if mantissa.value == 0 || power.value > 0xffff_ffff {
        return None;
    }
    let x: F = round_bounds(
        negative,
        mantissa.value,
        mantissa.dropped as u64,
        mantissa.places as u64,
        power.negative,
        power.value,
    )?;
    Some(x)
}

/// [`round_parts`] of a number that no product tells, in code of its own.
#[cold]
#[inline(never)]
fn round_apart<F: Float>(text: &[u8], negative: bool, mantissa: Mantissa, power: Power) -> F
    requires { IsMantissa text.now mantissa }
    ensures { IsRounded F.format negative text.now mantissa power (F.value result) }
{
    if let Some(x) = round_middle::<F>(text, negative, mantissa, power) {
        return x;
    }
    if let Some(x) = round_far::<F>(text, negative, mantissa, power) {
        return x;
    }
    round_digits::<F>(
        negative,
        &text[mantissa.start..mantissa.whole_end],
        &text[mantissa.fraction_start..mantissa.end],
        mantissa.places as u64,
        power,
    )
}

/// [`round_apart`]. What its call takes in memory belongs to this function, so it is set only where
/// that is called.
#[inline(always)]
fn round_rest<F: Float>(text: &[u8], negative: bool, mantissa: Mantissa, power: Power) -> F
    requires { IsMantissa text.now mantissa }
    ensures { IsRounded F.format negative text.now mantissa power (F.value result) }
{
    round_apart::<F>(text, negative, mantissa, power)
}

/// Rounds integer, fraction and exponent of a text to the nearest float, with a sign. `mantissa`
/// and `power` are what [`read_mantissa`](crate::read_mantissa) and
/// [`read_exponent`](crate::read_exponent) returned of this text.
#[inline(always)]
pub fn round_parts<F: Float>(text: &[u8], negative: bool, mantissa: Mantissa, power: Power) -> F
    requires { IsMantissa text.now mantissa }
    ensures value { (n : ℕ) → power.value ≡ min n (2 ^ 64 - 1)
        → F.value result ≡ round F.format negative
        (digits_value 10 (integer_of text.now mantissa ++ fraction_of text.now mantissa)
        * 10 ^ (if power.negative then 0 else n))
        (10 ^ (mantissa.places + (if power.negative then n else 0))) }
    ensures no_nan { NotNan (F.value result) }
{
    // One multiplication or division decides digits and a power of ten that a float holds: up to
    // 2^53 (of an `f32` 2^24) and 10^22 (10^10). Otherwise one product of 64 bits with a power of
    // ten decides; of random numbers with 16 digits and more it leaves 1 in 400 undecided, and also
    // powers beyond its table. These go the long way: a whole number over at most 16 by itself, if
    // the first 19 digits are one of 54 binary digits or more, and the others follow the point;
    // then by the two ends of the product; all else by a text for std.
    let places = mantissa.places as u64;
    let cut = mantissa.dropped as u64;
    let value = mantissa.value;
    if cut == 0 {
        if let Some(x) = round_short::<F>(text, negative, mantissa, power) {
            return x;
        }
        if value == 0 {
            return zero(negative);
        }
    } else if value > 0 && power.value <= 0xffff_ffff {
        let near = round_cut::<F>(negative, value, cut, places, power.negative, power.value);
        if let Some(x) = near {
            return x;
        }
    }
    round_rest::<F>(text, negative, mantissa, power)
}

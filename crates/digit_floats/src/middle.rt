//! A float whose digits are those of a whole number over a few twos, so that the middle between two
//! floats is exact.

ghost use Rattle.std.specs.Prelude.{◌≡◌, ◌+◌, ◌-◌, ◌*◌, ◌^◌, ◌<◌, ◌≤◌, ◌++◌, ℕ, min, if◌then◌else◌, IfSome};
ghost use Rattle.std.specs.Str.Parse.{digits_value};
ghost use Rattle.digit_floats.specs.Cut.{IsCut};
ghost use Rattle.digit_floats.specs.Parts.{integer_of, fraction_of, IsMantissa};
ghost use Rattle.digit_floats.specs.Rounds.{IsRounded};

use super::binary::round_binary;
use super::float::{Float, signed};
use super::parts::{Mantissa, Power};
use super::zeros::are_zeros_after;

/// The digits over five to `below`, if that is a whole number of 54 binary digits or more, as the
/// middle between two `f64` is.
fn over_fives(digits: u64, below: u64) -> Option<u64>
    requires { below ≤ 4 }
    ensures is { IfSome result (λ whole. digits ≡ whole * 5 ^ below) }
    ensures many { IfSome result (λ whole. 2 ^ 53 ≤ whole) }
{
    let fives = 5u64.pow(below as u32);
    if digits % fives != 0 || digits / fives < 1 << 53 {
        return None;
    }
    Some(digits / fives)
}

/// Whether one of the digits after the first 19 is no zero, where all of them follow the point.
fn is_more(text: &[u8], mantissa: Mantissa) -> bool
    requires is { IsMantissa text.now mantissa }
    requires after { mantissa.dropped ≤ mantissa.places }
    ensures { IsCut
        (digits_value 10 (integer_of text.now mantissa ++ fraction_of text.now mantissa))
        mantissa.value mantissa.dropped result }
{
    let fraction = &text[mantissa.fraction_start..mantissa.end];
    !are_zeros_after(
        fraction,
        mantissa.places,
        mantissa.places - mantissa.dropped,
    )
}

/// How many of the digits that were read follow the point once the power of ten is counted in, if
/// none to four.
fn places_left(places: u64, cut: u64, power: Power) -> Option<u64>
    requires places { places < 2 ^ 63 }
    requires cut { cut < 2 ^ 63 }
    ensures is { IfSome result (λ below. (n : ℕ) → power.value ≡ min n (2 ^ 64 - 1)
        → places + (if power.negative then n else 0)
        ≡ cut + (if power.negative then 0 else n) + below) }
    ensures few { IfSome result (λ below. below ≤ 4) }
{
    if power.value > 0xffff_ffff {
        return None;
    }
    let (up, down) = if power.negative {
        (0, power.value)
    } else {
        (power.value, 0)
    };
    let below = (places + down).wrapping_sub(cut + up);
    if below <= 4 { Some(below) } else { None }
}

/// [`round_parts`](crate::round_parts), where the first 19 digits are a whole number over a few
/// twos, and those after them follow the point. Only for speed: the middle between two floats, and
/// a number just above it, needs no text for std then.
#[inline(always)]
pub fn round_middle<F: Float>(
    text: &[u8],
    negative: bool,
    mantissa: Mantissa,
    power: Power,
) -> Option<F>
    requires { IsMantissa text.now mantissa }
    ensures { IfSome result (λ x.
        IsRounded F.format negative text.now mantissa power (F.value x)) }
{
    if mantissa.dropped > mantissa.places {
        return None;
    }
    let below = places_left(mantissa.places as u64, mantissa.dropped as u64, power)?;
    let whole = over_fives(mantissa.value, below)?;
    let more = is_more(text, mantissa);
    let x: F = round_binary(whole as u128, more, F::least() as u128, below as u128);
    Some(signed(negative, x))
}

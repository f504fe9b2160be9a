//! A float by the least and the greatest number that one product leaves open: also one that isn't
//! normal, and one beside the middle of two floats of fewer digits.

ghost use Rattle.std.specs.Prelude.{◌≡◌, true, false, ◌+◌, ◌-◌, ◌*◌, ◌^◌, ◌<◌, ◌≤◌, ℕ, IfSome, if◌then◌else◌};
ghost use Rattle.std.specs.Float.{Format};
ghost use Rattle.std.specs.Float.Ieee.{prec, units, round};
ghost use Rattle.digit_floats.specs.Near.{IsScaled, IsCutAt};
ghost use Rattle.digit_floats.specs.Rounds.{nearest_decimal};

use super::binary::nearest_binary;
use super::float::{Float, signed};
use super::near::{LOWER_BITS, normalized};
use super::powers::{POWER_OF_ONE, POWERS, SCALE_BIAS, row, scale};

/// Whether two counts of units, each with its scale, are one number. A power of two is the greatest
/// count of a scale, and the least of the next.
fn are_one(count: u64, scale: u128, other: u64, other_scale: u128, precision: u64) -> bool
    requires precision { (0 < precision) × (precision ≤ 53) }
    ensures { result ≡ true → (f : Format) → prec f ≡ precision
        → units f false count scale ≡ units f false other other_scale }
{
    if scale == other_scale {
        return count == other;
    }
    if scale > other_scale {
        return false;
    }
    if other_scale - scale > 1 {
        return false;
    }
    count == 1 << precision && other == 1 << (precision - 1)
}

/// The float nearest to all numbers from the digits to the digits and `more`, times
/// 10 ^ (power - 342), if the two numbers between which the product of 128 bits puts them round
/// alike.
#[tactic(auto, using(crate::proofs::Units::low_few, crate::proofs::Units::prec_few))]
fn round_between<F: Float>(digits: u64, more: u64, power: u64) -> Option<F>
    requires digits { 0 < digits }
    requires more { more ≤ 1 }
    requires power { power < 651 }
    ensures { IfSome result (λ x. (num den : ℕ) → 0 < den
        → IsScaled num den digits (digits + more) power
        → F.value x ≡ round F.format false num den) }
{
    let (shifted, zeros) = normalized(digits);
    let least = (shifted as u128 * row(power) as u128) >> 64;
    let most = least + 2 + (more << zeros) as u128;
    let above = (LOWER_BITS + scale(power) + F::least()) as u128;
    let below = (SCALE_BIAS + zeros) as u128;
    let precision = F::precision();
    let (count, units) = nearest_binary(least, false, above, below, precision);
    let (last_count, last_units) = nearest_binary(most, false, above, below, precision);
    if are_one(count, units, last_count, last_units, precision) {
        return Some(F::of_units(count, units));
    }
    None
}

/// The powers of ten of a number: up, and down.
fn powers_of(places: u64, cut: u64, down: bool, power: u64) -> (u64, u64)
    requires cut { cut < 2 ^ 63 }
    requires places { places < 2 ^ 63 }
    requires power { power < 2 ^ 32 }
    ensures up { result.0 ≡ cut + 342 + (if down then 0 else power) }
    ensures down { result.1 ≡ places + (if down then power else 0) }
{
    if down {
        (cut + POWER_OF_ONE, places + power)
    } else {
        (cut + POWER_OF_ONE + power, places)
    }
}

/// [`round_from`](super::near::round_from), whatever the number is, if the two numbers between
/// which the product puts it round alike. Beyond the table of powers it is 0 or the infinity.
pub fn round_bounds<F: Float>(
    negative: bool,
    digits: u64,
    cut: u64,
    places: u64,
    down: bool,
    power: u64,
) -> Option<F>
    requires digits { 0 < digits }
    requires cut { cut < 2 ^ 63 }
    requires places { places < 2 ^ 63 }
    requires power { power < 2 ^ 32 }
    ensures { IfSome result (λ x. (n : ℕ) → IsCutAt n digits cut
        → F.value x ≡ nearest_decimal F.format negative n places down power) }
{
    let (up, below) = powers_of(places, cut, down, power);
    if up < below {
        return Some(signed(negative, F::of_units(0, 0)));
    }
    if up - below >= POWERS {
        return Some(signed(negative, F::infinity()));
    }
    let x: F = round_between(digits, cut.min(1), up - below)?;
    Some(signed(negative, x))
}

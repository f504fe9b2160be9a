//! The float nearest to a whole number times a power of two.

ghost use Rattle.std.specs.Prelude.{◌≡◌, false, ◌+◌, ◌-◌, ◌*◌, ◌/◌, ◌^◌, ◌<◌, ◌≤◌, ℕ, IfSome};
ghost use Rattle.std.specs.Float.{Format, NotNan};
ghost use Rattle.std.specs.Float.Ieee.{prec, low, units, round};
ghost use Rattle.digit_floats.specs.Binary.{IsWholePart, shifted};

use super::float::{Float, signed};

/// How many binary digits a number has.
fn bit_length(digits: u128) -> u128
    requires { 2 ^ 53 ≤ digits }
    ensures some { (53 < result) × (result ≤ 128) }
    ensures least { 2 ^ (result - 1) ≤ digits }
    ensures most { digits < 2 ^ result }
{
    128 - digits.leading_zeros() as u128
}

/// The power of two of the units in which a number of so many binary digits is rounded, and how
/// many digits it loses there.
fn scale_of(size: u128, above: u128, below: u128, precision: u128) -> (u128, u128)
    requires size { (53 < size) × (size ≤ 128) }
    requires above { above < 2 ^ 72 }
    requires below { below < 2 ^ 72 }
    requires precision { precision ≤ 53 }
    ensures scale { result.0 ≡ size + above - (below + precision) }
    ensures shift { result.0 + below ≡ above + result.1 }
    ensures some { 0 < result.1 }
{
    let scale = (size + above).saturating_sub(below + precision);
    (scale, scale + below - above)
}

/// The digits over 2 to `shift`, to the nearest whole number and at a tie to the even one, where
/// `more` says that the number is above the digits.
fn shift_digits(digits: u128, shift: u128, more: bool) -> u64
    requires shift { 0 < shift }
    requires few { digits < 2 ^ 119 }
    requires fits { digits / 2 ^ shift < 2 ^ 53 }
    ensures value { result ≡ shifted digits shift more }
    ensures least { digits / 2 ^ shift ≤ result }
    ensures most { result ≤ digits / 2 ^ shift + 1 }
{
    if shift >= 120 {
        return 0;
    }
    let whole = (digits >> shift) as u64;
    let rest = digits % (1 << shift);
    let half = 1 << (shift - 1);
    if rest < half {
        return whole;
    }
    if rest > half {
        return whole + 1;
    }
    if more {
        return whole + 1;
    }
    whole + whole % 2
}

/// How many units of the least float above 0, times 2 to a scale, are nearest to a number whose
/// whole part is the digits, in units of 2 to `above` over 2 to `below` of the least floats above
/// 0; `more` says whether the number is above that.
pub fn nearest_binary(
    digits: u128,
    more: bool,
    above: u128,
    below: u128,
    precision: u64,
) -> (u64, u128)
    requires many { 2 ^ 53 ≤ digits }
    requires few { digits < 2 ^ 119 }
    requires above { above < 2 ^ 72 }
    requires below { below < 2 ^ 72 }
    requires precision { (0 < precision) × (precision ≤ 53) }
    ensures is { (f : Format) → prec f ≡ precision → (num den : ℕ) → 0 < den
        → IsWholePart (num * 2 ^ low f * 2 ^ below) (2 ^ above * den) digits more
        → units f false result.0 result.1 ≡ round f false num den }
    ensures many { 0 < result.1 → 2 ^ (precision - 1) ≤ result.0 }
    ensures few { result.0 ≤ 2 ^ precision }
{
    let size = bit_length(digits);
    let (scale, shift) = scale_of(size, above, below, precision as u128);
    (shift_digits(digits, shift, more), scale)
}

/// The float nearest to a number whose whole part is the digits, in units of 2 to `above` over 2 to
/// `below` of the least floats above 0; `more` says whether the number is above that.
pub fn round_binary<F: Float>(digits: u128, more: bool, above: u128, below: u128) -> F
    requires many { 2 ^ 53 ≤ digits }
    requires few { digits < 2 ^ 119 }
    requires above { above < 2 ^ 72 }
    requires below { below < 2 ^ 72 }
    ensures { (num den : ℕ) → 0 < den
        → IsWholePart (num * 2 ^ low F.format * 2 ^ below) (2 ^ above * den) digits more
        → F.value result ≡ round F.format false num den }
{
    let (count, scale) = nearest_binary(digits, more, above, below, F::precision());
    F::of_units(count, scale)
}

/// The float nearest to a whole number.
fn round_magnitude<F: Float>(magnitude: u128) -> F
    ensures { F.value result ≡ round F.format false magnitude 1 }
{
    let least = F::least() as u128;
    if magnitude == 0 {
        F::of_units(0, 0)
    } else if magnitude < 1 << 53 {
        round_binary(magnitude << 53, false, least, 53)
    } else if magnitude < 1 << 118 {
        round_binary(magnitude, false, least, 0)
    } else {
        round_binary(magnitude >> 12, magnitude % (1 << 12) != 0, least + 12, 0)
    }
}

/// The float nearest to a whole number, if it is exactly a float that the processor converts.
#[inline(always)]
fn exact_magnitude<F: Float>(magnitude: u128) -> Option<F>
    ensures { IfSome result (λ x. F.value x ≡ round F.format false magnitude 1) }
{
    if magnitude >= 1 << 53 {
        return None;
    }
    F::times_ten_to(magnitude as u64, 0)
}

/// Rounds an integer, by its sign and its magnitude, to the nearest float. A zero keeps its sign.
#[tactic(auto, using(crate::proofs::Numbers::round_number))]
pub fn round_integer<F: Float>(negative: bool, magnitude: u128) -> F
    ensures value { F.value result ≡ round F.format negative magnitude 1 }
    ensures no_nan { NotNan (F.value result) }
{
    match exact_magnitude::<F>(magnitude) {
        Some(x) => signed(negative, x),
        None => signed(negative, round_magnitude::<F>(magnitude)),
    }
}

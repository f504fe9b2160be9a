//! A float by one product of its digits with the 64 leading bits of a power of ten.

ghost use Rattle.std.specs.Prelude.{◌≡◌, false, ◌+◌, ◌-◌, ◌*◌, ◌%◌, ◌^◌, ◌<◌, ◌≤◌, ℕ, IfSome};
ghost use Rattle.std.specs.Float.{Format};
ghost use Rattle.std.specs.Float.Ieee.{prec, low, units, round};
ghost use Rattle.digit_floats.specs.Near.{IsScaled, IsCutAt};
ghost use Rattle.digit_floats.specs.Rounds.{nearest_decimal};

use super::float::{Float, signed};
use super::powers::{POWER_OF_ONE, POWERS, SCALE_BIAS, row, scale};

/// How many bits of a product of 128 are below its upper half.
pub const LOWER_BITS: u64 = 64;

/// How many bits the upper half has at least, without the last digit, which says half a unit.
const UPPER_BITS: u64 = 62;

/// The digits shifted up until the top bit is set, and by how much.
#[inline(always)]
pub fn normalized(digits: u64) -> (u64, u64)
    requires { 0 < digits }
    ensures shifted { result.0 ≡ digits * 2 ^ result.1 }
    ensures top { (2 ^ 63 ≤ result.0) × (result.1 ≤ 63) }
{
    let zeros = digits.leading_zeros();
    (digits << zeros, zeros as u64)
}

/// The upper digits of a product, one more than a float has; the others, how much they lack of the
/// next, and whether the product has its top bit.
#[inline(always)]
fn halves_of(high: u64, precision: u64) -> (u64, u64, u64, u64)
    requires high { 2 ^ 62 ≤ high }
    requires precision { (0 < precision) × (precision ≤ 53) }
    ensures top { result.3 ≤ 1 }
    ensures parts { high ≡ result.0 * 2 ^ (62 - precision + result.3) + result.1 }
    ensures room { result.1 + result.2 ≡ 2 ^ (62 - precision + result.3) }
    ensures many { 2 ^ precision ≤ result.0 }
    ensures few { result.0 < 2 ^ (precision + 1) }
{
    let top = high >> 63;
    let drop = UPPER_BITS - precision + top;
    let halves = high >> drop;
    let unit = 1 << drop;
    let rest = high % unit;
    (halves, rest, unit - rest, top)
}

/// Whether the lower digits of a product's upper half, one fewer than it may have, are all 0 or all
/// 1: of 256 products with 53 digits one is so.
#[inline(always)]
fn is_at_edge(high: u64, precision: u64) -> bool
    requires precision { (0 < precision) × (precision ≤ 53) }
    ensures zeros { result ≡ false → 0 < high % 2 ^ (62 - precision) }
    ensures ones { result ≡ false → high % 2 ^ (62 - precision) + 1 < 2 ^ (62 - precision) }
{
    let unit = 1 << (UPPER_BITS - precision);
    (high % unit + 1) % unit < 2
}

/// How many units of the least float above 0, times 2 to a scale, are nearest to all numbers from
/// the digits to the digits and `more`, times 10 ^ (power - 342), if the product of 128 bits says
/// it. Its upper digits are kept, one more than the float has, so the last says half a unit. Where
/// all these numbers are above what is kept, and below the next, that and an even last digit
/// decide.
#[inline(always)]
pub fn nearest_units(
    digits: u64,
    more: u64,
    power: u64,
    precision: u64,
    least: u64,
) -> Option<(u64, u64)>
    requires digits { 0 < digits }
    requires more { more ≤ 1 }
    requires power { power < 651 }
    requires precision { (0 < precision) × (precision ≤ 53) }
    requires least { (precision ≤ least) × (least ≤ 1074) }
    ensures is { IfSome result (λ r. (f : Format) → prec f ≡ precision → low f ≡ least
        → (num den : ℕ) → 0 < den → IsScaled num den digits (digits + more) power
        → units f false r.0 r.1 ≡ round f false num den) }
    ensures many { IfSome result (λ r. 2 ^ (precision - 1) ≤ r.0) }
    ensures few { IfSome result (λ r. r.0 ≤ 2 ^ precision) }
{
    let (shifted, zeros) = normalized(digits);
    let product = shifted as u128 * row(power) as u128;
    let high = (product >> 64) as u64;
    let (halves, rest, room, top) = halves_of(high, precision);
    let above = scale(power) + least + (LOWER_BITS + UPPER_BITS) + top;
    let below = SCALE_BIAS + precision + zeros;
    // no subnormal and no infinite float: the least scale is 1, and the greatest this bound
    let scale = above.wrapping_sub(below);
    if scale >= 2 * (least + 2 - precision) - 1 {
        return None;
    }
    if more > 0 || is_at_edge(high, precision) {
        if room < 2 + (more << zeros) {
            return None;
        }
        // in the middle between two floats, or just above it
        if rest == 0 && halves % 2 == 1 && product % (1 << 64) == 0 {
            return None;
        }
    }
    Some(((halves + 1) / 2, scale + 1))
}

/// The float nearest to all numbers from the digits to the digits and `more`, times
/// 10 ^ (power - 342), if one product tells.
#[inline(always)]
#[tactic(auto, using(crate::proofs::Units::low_few, crate::proofs::Units::prec_few))]
fn nearest<F: Float>(digits: u64, more: u64, power: u64) -> Option<F>
    requires digits { 0 < digits }
    requires more { more ≤ 1 }
    requires power { power < 651 }
    ensures { IfSome result (λ x. (num den : ℕ) → 0 < den
        → IsScaled num den digits (digits + more) power
        → F.value x ≡ round F.format false num den) }
{
    let (count, scale) = nearest_units(digits, more, power, F::precision(), F::least())?;
    Some(F::of_units(count, scale as u128))
}

/// The float nearest to all numbers from the digits to the digits and one, if any were cut off
/// after them, of which the last `places` follow the point, times ten to a power, if one product
/// tells.
#[inline]
#[tactic(auto, using(crate::proofs::Between::is_between, crate::proofs::Tens::ten_pos))]
pub fn round_from<F: Float>(
    negative: bool,
    digits: u64,
    cut: u64,
    places: u64,
    down: bool,
    power: u64,
) -> Option<F>
    requires digits { 0 < digits }
    requires cut { cut < 2 ^ 63 }
    requires places { places < 2 ^ 63 }
    requires power { power < 2 ^ 32 }
    ensures { IfSome result (λ x. (n : ℕ) → IsCutAt n digits cut
        → F.value x ≡ nearest_decimal F.format negative n places down power) }
{
    let exponent = if down {
        0u64.wrapping_sub(power)
    } else {
        power
    };
    // one test for both ends: what is below 0 wraps
    let row = (cut + POWER_OF_ONE)
        .wrapping_sub(places)
        .wrapping_add(exponent);
    if row >= POWERS {
        return None;
    }
    let x: F = nearest(digits, cut.min(1), row)?;
    Some(signed(negative, x))
}

/// [`round_from`] of digits after which others were cut off, in code of its own.
#[cold]
#[inline(never)]
fn round_cut_apart<F: Float>(
    negative: bool,
    digits: u64,
    cut: u64,
    places: u64,
    down: bool,
    power: u64,
) -> Option<F>
    requires digits { 0 < digits }
    requires cut { cut < 2 ^ 63 }
    requires places { places < 2 ^ 63 }
    requires power { power < 2 ^ 32 }
    ensures { IfSome result (λ x. (n : ℕ) → IsCutAt n digits cut
        → F.value x ≡ nearest_decimal F.format negative n places down power) }
{
    round_from(negative, digits, cut, places, down, power)
}

/// [`round_cut_apart`], whose answer in memory belongs to this function, so it is set only where
/// that is called.
#[inline(always)]
pub fn round_cut<F: Float>(
    negative: bool,
    digits: u64,
    cut: u64,
    places: u64,
    down: bool,
    power: u64,
) -> Option<F>
    requires digits { 0 < digits }
    requires cut { cut < 2 ^ 63 }
    requires places { places < 2 ^ 63 }
    requires power { power < 2 ^ 32 }
    ensures { IfSome result (λ x. (n : ℕ) → IsCutAt n digits cut
        → F.value x ≡ nearest_decimal F.format negative n places down power) }
{
    match round_cut_apart(negative, digits, cut, places, down, power) {
        Some(x) => Some(x),
        None => None,
    }
}

//! Floats with few places: the number in units of the last place fits an integer.

ghost use Rattle.std.specs.Prelude.{◌≡◌, ◌-◌, ◌*◌, ◌^◌, ◌<◌, ◌≤◌, ◌+◌, ◌/◌, ◌%◌, IfSome};
ghost use lib.Ieee.Nearest.{closest};
ghost use mir.Val.{bool_byte};

/// Whether a number over a power of two is nearer to the next whole number than to its whole part,
/// or is between them and its whole part odd.
#[inline(always)]
#[tactic(auto, using(crate::proofs::QuickUnits::rounds))]
fn rounds_over(number: u128, one: u128, whole: u128) -> bool
    requires one { (0 < one) × (one ≤ 2 ^ 127) }
    requires whole { whole ≡ number / one }
    ensures { closest number one ≡ number / one + bool_byte result }
{
    let rest = number - whole * one;
    if rest * 2 == one {
        return whole % 2 == 1;
    }
    rest * 2 > one
}

/// A number of units of the least float above 0, in units of the last place, rounded at a tie to
/// the
/// even one; none if it doesn't fit, or isn't computed here.
#[inline(always)]
#[tactic(auto, using(crate::proofs::QuickUnits::quick))]
pub fn quick_units(significand: u64, shift: usize, places: u32) -> Option<u64>
    requires { significand < 2 ^ 53 }
    ensures units { IfSome result
        (λ n. n ≡ closest (significand * 10 ^ places) (2 ^ (1074 - shift))) }
    ensures whole { IfSome result (λ n. shift ≤ 1074) }
    ensures few { IfSome result (λ n. places ≤ 19) }
{
    if places > 19 || shift > 1074 || shift < 947 {
        return None;
    }
    let number = significand as u128 * 10u64.pow(places) as u128;
    let down = 1074 - shift;
    let one = 1u128 << down;
    let whole = number >> down;
    let units = whole + rounds_over(number, one, whole) as u128;
    if units > u64::MAX as u128 {
        return None;
    }
    Some(units as u64)
}

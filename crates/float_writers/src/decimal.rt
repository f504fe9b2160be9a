//! The shortest decimal that reads as a float.

ghost use Rattle.std.specs.Prelude.{◌≡◌, ◌⊎◌, pos, negsuc, ◌-ℤ◌, ◌≤ℤ◌, ◌+◌, ◌-◌, ◌*◌, ◌%◌, ◌^◌, ◌<◌, ◌≤◌};
ghost use Rattle.decimal_writers.specs.Text.{units_of, places_of};
ghost use Rattle.float_writers.specs.Decimals.{Reads, HasNoMoreDigits, IsNearer, IsAsNear};
ghost use Rattle.float_writers.specs.Parts.{IsAboveZero};

use super::grid::digits_of;
use super::parts::WrittenFloat;

/// A decimal number: the digits times ten to the power.
#[derive(Clone, Copy, Debug, PartialEq, Eq)]
pub struct Decimal {
    /// The digits.
    pub digits: u64,
    /// The power of ten.
    pub power: i32,
}

/// The digits without so many zeros at their end, if they have them, and the power of ten with
/// them.
#[inline(always)]
#[tactic(auto, using(crate::proofs::Zeros::some_less))]
fn strip(digits: u64, power: u64, tens: u64, zeros: u64) -> (u64, u64)
    requires digits { 0 < digits }
    requires power { power < 2 ^ 32 }
    requires tens { (tens ≡ 10 ^ zeros) × (0 < tens) }
    requires few { (0 < zeros) × (zeros ≤ 8) }
    ensures value { result.0 * 10 ^ (result.1 - power) ≡ digits }
    ensures some { 0 < result.0 }
    ensures onward { (power ≤ result.1) × (result.1 ≤ power + zeros) }
{
    if digits % tens == 0 {
        return (digits / tens, power + zeros);
    }
    (digits, power)
}

/// The digits without up to fourteen zeros at their end.
#[inline(always)]
fn without_most_zeros(digits: u64, power: u64) -> (u64, u64)
    requires digits { 0 < digits }
    requires power { power ≤ 617 }
    ensures value { result.0 * 10 ^ (result.1 - power) ≡ digits }
    ensures some { 0 < result.0 }
    ensures onward { (power ≤ result.1) × (result.1 ≤ power + 14) }
{
    let (eight, above) = strip(digits, power, 100_000_000, 8);
    let (four, higher) = strip(eight, above, 10_000, 4);
    strip(four, higher, 100, 2)
}

/// The digits without the zeros at their end, and the power of ten with them.
#[inline(always)]
#[tactic(auto, using(crate::proofs::Zeros::zeros))]
fn without_zeros(digits: u64, power: u64) -> (u64, u64)
    requires digits { (0 < digits) × (digits < 10 ^ 17) }
    requires power { power ≤ 617 }
    ensures value { result.0 * 10 ^ (result.1 - power) ≡ digits }
    ensures onward { power ≤ result.1 }
    ensures few { (0 < result.0) × (result.0 < 10 ^ 17) }
    ensures zeros { result.1 < power + 17 }
    ensures last { result.0 % 10 ≡ 0 → ⊥ }
{
    if digits % 10 != 0 {
        return (digits, power);
    }
    let (mut left, mut up) = without_most_zeros(digits, power);
    while left % 10 == 0 {
        left /= 10;
        up += 1;
    }
    (left, up)
}

/// The power of ten of which that plus 324 is given.
#[inline(always)]
fn signed_power(up: u64) -> i32
    requires { up < 2 ^ 16 }
    ensures { result ≡ pos up -ℤ pos 324 }
{
    up as i32 - 324
}

/// The decimal of these digits, by the power of ten plus 324.
#[inline(always)]
fn decimal_of(digits: u64, up: u64) -> Decimal
    requires { up < 634 }
    ensures least { negsuc 323 ≤ℤ result.power }
    ensures most { result.power ≤ℤ pos 309 }
    ensures digits { result.digits ≡ digits }
    ensures units { units_of digits result.power ≡ digits * 10 ^ (up - 324) }
    ensures places { places_of result.power ≡ 324 - up }
{
    let power = signed_power(up);
    Decimal { digits, power }
}

/// The shortest decimal that reads as a float, and of those with as many digits the closest to it;
/// of two as close, the one whose last digit is even. It has no zero at its end.
#[inline(always)]
pub fn shortest<F: WrittenFloat>(x: F) -> Decimal
    requires { IsAboveZero (F.value x) }
    ensures reads { Reads F.format (F.value x) result }
    ensures shortest { (other : Decimal) → Reads F.format (F.value x) other
        → HasNoMoreDigits result other }
    ensures closest { (other : Decimal) → Reads F.format (F.value x) other
        → HasNoMoreDigits other result
        → IsNearer (F.value x) result other ⊎ IsAsNear (F.value x) result other }
    ensures even { (other : Decimal) → Reads F.format (F.value x) other
        → HasNoMoreDigits other result → IsAsNear (F.value x) result other
        → (other.digits ≡ result.digits) ⊎ (result.digits % 2 ≡ 0) }
    ensures last { result.digits % 10 ≡ 0 → ⊥ }
    ensures few { (0 < result.digits) × (result.digits < 10 ^ 17) }
    ensures least { negsuc 323 ≤ℤ result.power }
    ensures most { result.power ≤ℤ pos 309 }
{
    let parts = x.parts();
    let (digits, power) = digits_of(parts);
    let (left, up) = without_zeros(digits, power);
    decimal_of(left, up)
}

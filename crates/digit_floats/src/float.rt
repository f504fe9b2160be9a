//! `f64` and `f32`: what rounding asks of a type of floats.

ghost use Rattle.std.specs.Prelude.{◌≡◌, ◌+◌, ◌-◌, ◌<◌, ◌≤◌, ◌*◌, ◌^◌, ℕ, false, if◌then◌else◌, IfSome, Some, None, MatchOption};
ghost use Rattle.std.specs.Float as Ieee;
ghost use Rattle.std.specs.Float.{Format, NotNan, inf, nan, binary32, binary64};
ghost use Rattle.std.specs.Float.Ieee.{prec, low, neg, round, units};
ghost use Rattle.std.specs.Float.Parse.{parse_float as std_float};

use super::powers::{ten_to_f32, ten_to_f64};

/// A type of floats that are read: `f64` and `f32`.
pub trait Float: Copy {
    /// The format, in std's word.
    ghost format: { Format };

    /// The number that a float is.
    ghost value: { Self → Ieee.Float };

    /// The float that a text is, by std's `parse`.
    fn of_text(text: &str) -> Option<Self>
        ensures { MatchOption result (std_float format text.now ≡ None)
            (λ x. std_float format text.now ≡ Some (value x)) };

    /// The digits times ten to a power, if both factors are exact.
    fn times_ten_to(digits: u64, tens: u64) -> Option<Self>
        ensures { IfSome result (λ x. value x ≡ round format false (digits * 10 ^ tens) 1) };

    /// The digits over ten to a power, if both are exact.
    fn over_ten_to(digits: u64, tens: u64) -> Option<Self>
        ensures { IfSome result (λ x. value x ≡ round format false digits (10 ^ tens)) };

    /// The float with the other sign.
    fn negated(self) -> Self
        ensures { value result ≡ neg (value self) };

    /// The float, with the other sign if `negative`. It must be a number.
    #[inline(always)]
    fn negated_if(self, negative: bool) -> Self
        requires number { NotNan (value self) }
        ensures { value result ≡ (if negative then neg (value self) else value self) }
    {
        if negative { self.negated() } else { self }
    }

    /// How many binary digits a float has.
    fn precision() -> u64
        ensures value { result ≡ prec format }
        ensures few { (0 < result) × (result ≤ 53) };

    /// The least float above 0 is 2 to minus this.
    fn least() -> u64
        ensures { result ≡ low format };

    /// So many of the least floats above 0, times 2 to `scale`; from the least number above all
    /// floats on, the infinity.
    fn of_units(count: u64, scale: u128) -> Self
        requires few { count ≤ 2 ^ prec format }
        requires many { 0 < scale → 2 ^ (prec format - 1) ≤ count }
        ensures { value result ≡ units format false count scale };

    /// The infinity without a minus.
    fn infinity() -> Self
        ensures { value result ≡ inf false };

    /// The value that is not a number.
    fn not_a_number() -> Self
        ensures { value result ≡ nan };
}

impl Float for f64 {
    ghost format = { binary64 };

    ghost value = { λ x. x };

    #[inline]
    fn of_text(text: &str) -> Option<f64> {
        match text.parse::<f64>() {
            Ok(x) => Some(x),
            Err(_) => None,
        }
    }

    #[inline(always)]
    fn times_ten_to(digits: u64, tens: u64) -> Option<f64> {
        if digits > 1 << 53 || tens > 22 {
            return None;
        }
        Some(digits as f64 * ten_to_f64(tens))
    }

    #[inline(always)]
    fn over_ten_to(digits: u64, tens: u64) -> Option<f64> {
        if digits > 1 << 53 || tens > 22 {
            return None;
        }
        Some(digits as f64 / ten_to_f64(tens))
    }

    #[inline(always)]
    fn negated(self) -> f64 {
        -self
    }

    #[inline(always)]
    fn negated_if(self, negative: bool) -> f64 {
        // the sign is the top bit: no branch depends on it
        f64::from_bits(self.to_bits().wrapping_add(u64::from(negative) << 63))
    }

    #[inline(always)]
    fn precision() -> u64 {
        53
    }

    #[inline(always)]
    fn least() -> u64 {
        1074
    }

    #[inline(always)]
    fn of_units(count: u64, scale: u128) -> f64 {
        if scale >= 2046 {
            return f64::INFINITY;
        }
        f64::from_bits(count + ((scale as u64) << 52))
    }

    #[inline(always)]
    fn infinity() -> f64 {
        f64::INFINITY
    }

    #[inline(always)]
    fn not_a_number() -> f64 {
        f64::NAN
    }
}

impl Float for f32 {
    ghost format = { binary32 };

    ghost value = { λ x. x };

    #[inline]
    fn of_text(text: &str) -> Option<f32> {
        match text.parse::<f32>() {
            Ok(x) => Some(x),
            Err(_) => None,
        }
    }

    #[inline(always)]
    fn times_ten_to(digits: u64, tens: u64) -> Option<f32> {
        if digits > 1 << 24 || tens > 10 {
            return None;
        }
        Some(digits as f32 * ten_to_f32(tens))
    }

    #[inline(always)]
    fn over_ten_to(digits: u64, tens: u64) -> Option<f32> {
        if digits > 1 << 24 || tens > 10 {
            return None;
        }
        Some(digits as f32 / ten_to_f32(tens))
    }

    #[inline(always)]
    fn negated(self) -> f32 {
        -self
    }

    #[inline(always)]
    fn negated_if(self, negative: bool) -> f32 {
        // the sign is the top bit: no branch depends on it
        f32::from_bits(self.to_bits().wrapping_add(u32::from(negative) << 31))
    }

    #[inline(always)]
    fn precision() -> u64 {
        24
    }

    #[inline(always)]
    fn least() -> u64 {
        149
    }

    #[inline(always)]
    fn of_units(count: u64, scale: u128) -> f32 {
        if scale >= 254 {
            return f32::INFINITY;
        }
        f32::from_bits((count as u32) + ((scale as u32) << 23))
    }

    #[inline(always)]
    fn infinity() -> f32 {
        f32::INFINITY
    }

    #[inline(always)]
    fn not_a_number() -> f32 {
        f32::NAN
    }
}

/// A float with a sign.
#[inline(always)]
pub fn signed<F: Float>(negative: bool, x: F) -> F
    ensures { (num den : ℕ) → F.value x ≡ round F.format false num den
        → F.value result ≡ round F.format negative num den }
{
    if negative { x.negated() } else { x }
}

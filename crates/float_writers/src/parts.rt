//! `f64` and `f32`: what writing asks of a type of floats.

ghost use Rattle.std.specs.Prelude.{◌≡◌, true, false, ◌-◌, ◌^◌, ◌<◌, ◌≤◌, from_bits};
ghost use Rattle.std.specs.Float.{Format};
ghost use Rattle.std.specs.Float.Ieee.{hid, low};
ghost use Rattle.float_writers.specs.Parts.{IsParts, IsAboveZero};

use digit_floats::Float;

/// A float above zero: the significand times 2 to the exponent, over 2 ^ 1074.
#[derive(Clone, Copy)]
pub struct Parts {
    pub significand: u64,
    pub exponent: u64,
    /// Whether it is a power of two, below which the gap to the next float is half as wide.
    pub edge: bool,
}

/// Whether a float is a power of two above the least scale, by the fields of its bits.
#[inline(always)]
fn is_edge(digits: u64, field: u64) -> bool
    ensures yes { result ≡ true → (digits ≡ 0) × (1 < field) }
    ensures no { result ≡ false → 1 < field → 0 < digits }
{
    digits == 0 && field > 1
}

/// The parts of the float of these bits. `hidden` is the weight of the exponent's field, and the
/// type's least float is 2 to `first`, over 2 ^ 1074.
#[inline(always)]
fn parts_of(bits: u64, hidden: u64, first: u64) -> Parts
    requires hidden { (2 ^ 23 ≤ hidden) × (hidden ≤ 2 ^ 52) }
    requires first { first < 2 ^ 32 }
    ensures { (f : Format) → hid f ≡ hidden → 1074 - low f ≡ first
        → IsAboveZero (from_bits f bits) → IsParts f (from_bits f bits) result }
{
    let digits = bits % hidden;
    let field = bits / hidden;
    if field == 0 {
        return Parts {
            significand: digits,
            exponent: first,
            edge: false,
        };
    }
    let edge = is_edge(digits, field);
    Parts {
        significand: hidden + digits,
        exponent: first + (field - 1),
        edge,
    }
}

/// A type of floats that are written, `f64` and `f32`: the half of [`AnyFloat`](crate::AnyFloat)
/// for floats that are finite.
pub trait WrittenFloat: Float {
    /// Whether a float is above zero, and not the infinity.
    fn is_above_zero(self) -> bool
        ensures yes { result ≡ true → IsAboveZero (Self.value self) }
        ensures no { result ≡ false → IsAboveZero (Self.value self) → ⊥ };

    /// The parts of a float above zero.
    fn parts(self) -> Parts
        requires { IsAboveZero (Self.value self) }
        ensures { IsParts Self.format (Self.value self) result };
}

impl WrittenFloat for f64 {
    #[inline(always)]
    #[tactic(auto, using(crate::proofs::Fields::above_yes, crate::proofs::Fields::above_no))]
    fn is_above_zero(self) -> bool {
        if self > 0.0 {
            return self.is_finite();
        }
        false
    }

    #[inline(always)]
    fn parts(self) -> Parts {
        parts_of(self.to_bits(), 1 << 52, 0)
    }
}

impl WrittenFloat for f32 {
    #[inline(always)]
    #[tactic(auto, using(crate::proofs::Fields::above_yes, crate::proofs::Fields::above_no))]
    fn is_above_zero(self) -> bool {
        if self > 0.0 {
            return self.is_finite();
        }
        false
    }

    #[inline(always)]
    fn parts(self) -> Parts {
        parts_of(u64::from(self.to_bits()), 1 << 23, 925)
    }
}

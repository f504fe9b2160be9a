//! A float as a whole number and a power of two, and its exact decimal digits.

ghost use Rattle.std.specs.Prelude.{◌≡◌, ◌+◌, ◌-◌, ◌*◌, ◌/◌, ◌^◌, ◌<◌, ◌≤◌, ℕ, IsTrue, length, take, slice_index};
ghost use Rattle.std.specs.Float.{float_is_finite};
ghost use lib.Ieee.Exact.{HasValue};
ghost use Rattle.decimal_writers.specs.Big.{value_of, IsBig};

use super::big::{put_carry, scale};

/// The least float above 0 is 2 to minus this.
const LEAST: usize = 1074;

/// A float: `significand` times two to the power `shift`, in units of the least float above 0.
#[derive(Clone, Copy)]
pub struct Binary {
    pub negative: bool,
    pub significand: u64,
    pub shift: usize,
}

/// The parts of a finite float.
#[tactic(auto)]
pub fn binary_of(x: f64) -> Binary
    requires { IsTrue (float_is_finite x) }
    ensures value { HasValue x result.negative (result.significand * 2 ^ result.shift) (2 ^ 1074) }
    ensures small { result.significand < 2 ^ 53 }
    ensures few { result.shift ≤ 2045 }
{
    let bits = x.to_bits();
    let negative = bits >= 1 << 63;
    let field = bits % (1 << 63) / (1 << 52);
    let rest = bits % (1 << 52);
    if field == 0 {
        return Binary {
            negative,
            significand: rest,
            shift: 0,
        };
    }
    Binary {
        negative,
        significand: (1 << 52) + rest,
        shift: field as usize - 1,
    }
}

/// The exact decimal of a float: `len` digits, of which the last `places` follow the point.
#[derive(Clone, Copy)]
pub struct Exact {
    pub len: usize,
    pub places: usize,
}

/// Writes the digits of a float from the last one on.
#[tactic(auto, using(crate::proofs::ExactDigits::exacts))]
pub fn exact_digits(binary: Binary, digits: &mut [u8]) -> Exact
    requires zeros { (k : ℕ) → slice_index digits.old k < 10 }
    requires room { length digits.old ≡ 800 }
    requires small { binary.significand < 2 ^ 53 }
    requires few { binary.shift ≤ 2045 }
    ensures big { IsBig digits.new result.len (value_of (take result.len digits.new)) }
    ensures value { binary.significand * 2 ^ binary.shift * 10 ^ result.places
        ≡ value_of (take result.len digits.new) * 2 ^ 1074 }
    ensures few { (result.len ≤ 792) × (result.places ≤ 1074) }
{
    let len = put_carry(digits, 0, binary.significand);
    if binary.shift < LEAST {
        let places = LEAST - binary.shift;
        return Exact {
            len: scale(digits, len, 5, places),
            places,
        };
    }
    Exact {
        len: scale(digits, len, 2, binary.shift - LEAST),
        places: 0,
    }
}

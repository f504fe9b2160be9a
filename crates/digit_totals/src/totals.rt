//! The totals of the numbers so far.

ghost use Rattle.std.specs.Prelude.{◌≡◌, ◌^◌, ◌<◌, ◌≤◌, ◌+◌, true, IfOk};
ghost use Rattle.digit_totals.specs.Floats as floats;
ghost use Rattle.digit_totals.specs.Sums.{IsFar, IsNear, no_sums, with_one, joined};
ghost use Rattle.digit_totals.specs.Totals.{no_numbers, with_number};

use super::fault::LineFault;

/// How many numbers there are, their sum, and the least and the greatest of them.
#[derive(Clone, Copy, Debug, PartialEq, Eq)]
pub struct Totals {
    pub count: u128,
    pub sum: i128,
    /// The least number, or `i128::MAX`.
    pub least: i128,
    /// The greatest number, or `i128::MIN`.
    pub greatest: i128,
}

impl Totals {
    /// Of no number.
    pub fn new() -> Totals
        ensures { result ≡ no_numbers }
    {
        Totals {
            count: 0,
            sum: 0,
            least: i128::MAX,
            greatest: i128::MIN,
        }
    }

    /// With the number of the next line. It fails if the sum leaves 128 bits.
    #[inline(always)]
    #[tactic(auto, using(crate::proofs::Bits::bits))]
    pub fn plus(self, value: i128) -> Result<Totals, LineFault>
        requires { self.count < 2 ^ 127 }
        ensures is { result ≡ with_number self value }
        ensures count { IfOk result (λ t. t.count ≡ self.count + 1) }
    {
        let count = self.count + 1;
        let Some(sum) = self.sum.checked_add(value) else {
            return Err(LineFault::Sum(count));
        };
        Ok(Totals {
            count,
            sum,
            least: self.least.min(value),
            greatest: self.greatest.max(value),
        })
    }
}

/// So far from the ends of 128 bits is a sum to which [`Sums`] are added.
const FAR: i128 = 1 << 126;

/// The sums of some numbers of 64 bits.
#[derive(Clone, Copy, Debug, PartialEq, Eq)]
pub struct Sums {
    pub count: usize,
    pub sum: i128,
    /// The least number, or `i64::MAX`.
    pub least: i64,
    /// The greatest number, or `i64::MIN`.
    pub greatest: i64,
}

impl Sums {
    /// Of no number.
    pub fn new() -> Sums
        ensures { result ≡ no_sums }
    {
        Sums {
            count: 0,
            sum: 0,
            least: i64::MAX,
            greatest: i64::MIN,
        }
    }

    /// With one number more.
    #[inline(always)]
    pub fn plus(self, value: i64) -> Sums
        requires few { self.count < 65536 }
        requires near { IsNear self.count self.sum }
        ensures is { result ≡ with_one self value }
        ensures count { result.count ≡ self.count + 1 }
        ensures near { IsNear result.count result.sum }
    {
        Sums {
            count: self.count + 1,
            sum: self.sum + i128::from(value),
            least: self.least.min(value),
            greatest: self.greatest.max(value),
        }
    }
}

impl Totals {
    /// Whether the sum is far from the ends of 128 bits.
    pub fn is_far(self) -> bool
        ensures { result ≡ true → IsFar self }
    {
        -FAR <= self.sum && self.sum <= FAR
    }

    /// With the numbers of some sums.
    pub fn with_sums(self, sums: Sums) -> Totals
        requires far { IsFar self }
        requires room { self.count ≤ 2 ^ 127 }
        requires few { sums.count ≤ 65536 }
        requires near { IsNear sums.count sums.sum }
        ensures { result ≡ joined self sums }
    {
        if sums.count == 0 {
            return self;
        }
        Totals {
            count: self.count + sums.count as u128,
            sum: self.sum + sums.sum,
            least: self.least.min(i128::from(sums.least)),
            greatest: self.greatest.max(i128::from(sums.greatest)),
        }
    }
}

/// How many floats there are, their sum, and the least and the greatest of them.
#[derive(Clone, Copy, Debug, PartialEq)]
pub struct FloatTotals {
    pub count: u128,
    /// The sum, rounded after each addition.
    pub sum: f64,
    /// The least float; of none 0.
    pub least: f64,
    /// The greatest float; of none 0.
    pub greatest: f64,
}

impl FloatTotals {
    /// Of no float.
    pub fn new() -> FloatTotals
        ensures { result ≡ floats.no_floats }
    {
        FloatTotals {
            count: 0,
            sum: 0.0,
            least: 0.0,
            greatest: 0.0,
        }
    }

    /// With the float of the next line.
    pub fn plus(self, value: f64) -> FloatTotals
        requires { self.count < 2 ^ 127 }
        ensures { result ≡ floats.plus self value }
    {
        let is_first = self.count == 0;
        let least = if is_first || value < self.least {
            value
        } else {
            self.least
        };
        let greatest = if is_first || self.greatest < value {
            value
        } else {
            self.greatest
        };
        FloatTotals {
            count: self.count + 1,
            sum: self.sum + value,
            least,
            greatest,
        }
    }
}

//! What came of the numbers that were read.

use digits::Number;
use std::fmt;

/// A number that is an integer without a minus.
const POSITIVE: usize = 1;

/// A number that is an integer with one.
const NEGATIVE: usize = 2;

/// A number that is a float: this bit is folded with its end. No text is so long.
const FLOAT: usize = 1 << 22;

/// A list that filled its slice.
const FULL: u64 = 65;

/// A list that is over.
const OVER: u64 = 66;

/// How much was read, and a digest of all results.
#[derive(Clone, Copy)]
pub struct Tally {
    numbers: u64,
    refused: u64,
    bytes: u64,
    digest: u64,
}

impl Tally {
    /// Nothing was read.
    pub fn new() -> Tally {
        Tally {
            numbers: 0,
            refused: 0,
            bytes: 0,
            digest: 0,
        }
    }

    /// Counts the bytes of a text.
    pub fn text(&mut self, text: &[u8]) {
        self.bytes = self.bytes.wrapping_add(text.len() as u64);
    }

    /// Folds a number into the digest.
    #[inline(always)]
    pub fn fold(&mut self, x: u64) {
        self.digest = (self.digest ^ x)
            .wrapping_mul(0x9e37_79b9_7f4a_7c15)
            .rotate_left(29);
    }

    /// Folds a number, and a position or a count with it, into the digest.
    #[inline(always)]
    pub fn fold_with(&mut self, x: u64, count: usize) {
        self.fold(x ^ (count as u64).rotate_left(40));
    }

    /// Folds the word by which digits were read, and a kind or a position with it.
    #[inline(always)]
    pub fn word(&mut self, word: u128, with: usize) {
        let upper = (word >> 64) as u64;
        let lower = (word & 0xffff_ffff_ffff_ffff) as u64;
        self.fold_with(lower ^ upper.wrapping_mul(0xbf58_476d_1ce4_e5b9), with);
    }

    /// A number was read, with these bits, up to this position.
    #[inline(always)]
    pub fn read(&mut self, bits: u64, end: usize) {
        self.numbers = self.numbers.wrapping_add(1);
        self.fold_with(bits, end);
    }

    /// No number was read, by an error of this kind at this position.
    #[inline(always)]
    pub fn refuse(&mut self, kind: u64, at: usize) {
        self.refused = self.refused.wrapping_add(1);
        self.fold_with(kind, at);
    }

    /// A list filled its slice, and goes on at this position.
    #[inline(always)]
    pub fn full(&mut self, at: usize) {
        self.fold_with(FULL, at);
    }

    /// A list is over at this position.
    #[inline(always)]
    pub fn over(&mut self, at: usize) {
        self.fold_with(OVER, at);
    }

    /// A float was read.
    #[inline(always)]
    pub fn float(&mut self, x: f64, end: usize) {
        self.read(bits_of(x), end);
    }

    /// An `f32` was read.
    #[inline(always)]
    pub fn short_float(&mut self, x: f32, end: usize) {
        self.read(short_bits_of(x), end);
    }

    /// An integer of 128 bits was read.
    #[inline(always)]
    pub fn wide(&mut self, x: u128, end: usize) {
        self.fold((x >> 64) as u64);
        self.read((x & 0xffff_ffff_ffff_ffff) as u64, end);
    }

    /// A number was read: its kind, sign and other parts.
    #[inline(always)]
    pub fn number(&mut self, number: Number<f64>, end: usize) {
        match number {
            Number::Integer {
                negative,
                magnitude,
                word,
            } => {
                self.word(word, if negative { NEGATIVE } else { POSITIVE });
                self.wide(magnitude, end);
            }
            Number::Float(x) => self.float(x, end | FLOAT),
        }
    }
}

/// The bits of a float; all values that are no number have the same.
#[inline(always)]
fn bits_of(x: f64) -> u64 {
    if x.is_nan() {
        0x7ff8_0000_0000_0000
    } else {
        x.to_bits()
    }
}

/// The bits of an `f32`; all values that are no number have the same.
#[inline(always)]
fn short_bits_of(x: f32) -> u64 {
    if x.is_nan() {
        0x7fc0_0000
    } else {
        u64::from(x.to_bits())
    }
}

impl fmt::Display for Tally {
    fn fmt<W: fmt::Write>(&self, f: &mut fmt::Formatter<W>) -> fmt::Result {
        write!(f, "numbers={} refused={} ", self.numbers, self.refused)?;
        write!(f, "bytes={} digest={:016x}", self.bytes, self.digest)
    }
}

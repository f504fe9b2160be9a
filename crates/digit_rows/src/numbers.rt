//! Numbers that stand at a position, by a constant word.

ghost use Rattle.std.specs.Prelude.{◌≤◌, length};

use super::work::{Step, Told, Work, none, run};
use digit_amounts::read_scaled_from;
use digit_floats::{read_decimal_from, read_exponent, read_float_from, read_mantissa};
use digit_languages::languages::RUST;
use digit_languages::read_literal;
use digit_literals::{Integer, read_first_digits_from, read_number_from};
use lexical_digits::skip::Component;
use lexical_format::STANDARD;
use lexical_format::words::PYTHON_LITERAL;
use std::num::f64_to_bits_with_nan;

/// Radix 16, and no separator.
const HEXADECIMAL: u128 = 16 << 104;

/// An integer as a value of a [`Step`].
pub trait Bits: Integer {
    /// Its lowest 64 bits.
    fn bits(self) -> u64;
}

impl Bits for u8 {
    #[inline(always)]
    fn bits(self) -> u64 {
        u64::from(self)
    }
}

impl Bits for i8 {
    #[inline(always)]
    fn bits(self) -> u64 {
        i64::from(self).cast_unsigned()
    }
}

impl Bits for u32 {
    #[inline(always)]
    fn bits(self) -> u64 {
        u64::from(self)
    }
}

impl Bits for u64 {
    #[inline(always)]
    fn bits(self) -> u64 {
        self
    }
}

impl Bits for i32 {
    #[inline(always)]
    fn bits(self) -> u64 {
        i64::from(self).cast_unsigned()
    }
}

impl Bits for i64 {
    #[inline(always)]
    fn bits(self) -> u64 {
        self.cast_unsigned()
    }
}

/// The first digits at a position, up to 19.
#[derive(Clone, Copy)]
struct FirstDigits;

impl Work for FirstDigits {
    #[inline(always)]
    fn step(self, text: &[u8], at: usize) -> Step {
        let (read, end) = read_first_digits_from(
            text,
            STANDARD,
            Component::Integer,
            at,
            0,
            9_999_999_999_999_999_999,
        );
        Step::read(read.value, text, end)
    }
}

#[derive(Clone, Copy)]
struct Mantissa;

impl Work for Mantissa {
    #[inline(always)]
    fn step(self, text: &[u8], at: usize) -> Step {
        let read = read_mantissa(text, STANDARD, at, b'.');
        Step::read(read.value, text, read.end)
    }
}

#[derive(Clone, Copy)]
struct DecimalNumber;

impl Work for DecimalNumber {
    #[inline(always)]
    fn step(self, text: &[u8], at: usize) -> Step {
        match read_decimal_from(text, STANDARD, at) {
            Ok((read, end)) => Step::read(read.value, text, end),
            Err(_) => Step::none(text, at),
        }
    }
}

/// A decimal number of two places, as an `i64`.
#[derive(Clone, Copy)]
struct Scaled;

impl Work for Scaled {
    #[inline(always)]
    fn step(self, text: &[u8], at: usize) -> Step {
        match read_scaled_from::<i64>(text, STANDARD, at, b'.', 2) {
            Ok((read, end)) => Step::read(read.cast_unsigned(), text, end),
            Err(_) => Step::none(text, at),
        }
    }
}

#[derive(Clone, Copy)]
struct Exponent;

impl Work for Exponent {
    #[inline(always)]
    fn step(self, text: &[u8], at: usize) -> Step {
        match read_exponent(text, STANDARD, at, b'e') {
            Ok(read) => Step::read(read.value, text, read.end),
            Err(_) => Step::none(text, at),
        }
    }
}

/// An integer of a type without separators.
#[derive(Clone, Copy)]
struct Plain<T>(T);

impl<T: Bits> Work for Plain<T> {
    #[inline(always)]
    fn step(self, text: &[u8], at: usize) -> Step {
        match read_number_from::<T>(text, STANDARD, at) {
            Ok((read, end)) => Step::read(read.bits(), text, end),
            Err(_) => Step::none(text, at),
        }
    }
}

/// An integer of a type, in which one `_` may be between two digits.
#[derive(Clone, Copy)]
struct Grouped<T>(T);

impl<T: Bits> Work for Grouped<T> {
    #[inline(always)]
    fn step(self, text: &[u8], at: usize) -> Step {
        match read_number_from::<T>(text, PYTHON_LITERAL, at) {
            Ok((read, end)) => Step::read(read.bits(), text, end),
            Err(_) => Step::none(text, at),
        }
    }
}

#[derive(Clone, Copy)]
struct Hexadecimal;

impl Work for Hexadecimal {
    #[inline(always)]
    fn step(self, text: &[u8], at: usize) -> Step {
        match read_number_from::<u64>(text, HEXADECIMAL, at) {
            Ok((read, end)) => Step::read(read, text, end),
            Err(_) => Step::none(text, at),
        }
    }
}

/// An `f64` without separators.
#[derive(Clone, Copy)]
struct Float;

impl Work for Float {
    #[inline(always)]
    fn step(self, text: &[u8], at: usize) -> Step {
        match read_float_from::<f64>(text, STANDARD, at) {
            Ok((read, end)) => Step::read(f64_to_bits_with_nan(read), text, end),
            Err(_) => Step::none(text, at),
        }
    }
}

/// An `f64`, in which one `_` may be between two digits.
#[derive(Clone, Copy)]
struct GroupedFloat;

impl Work for GroupedFloat {
    #[inline(always)]
    fn step(self, text: &[u8], at: usize) -> Step {
        match read_float_from::<f64>(text, PYTHON_LITERAL, at) {
            Ok((read, end)) => Step::read(f64_to_bits_with_nan(read), text, end),
            Err(_) => Step::none(text, at),
        }
    }
}

/// A literal of Rust; the bytes up to a comma are its suffix.
#[derive(Clone, Copy)]
struct RustLiteral;

impl Work for RustLiteral {
    #[inline(always)]
    fn step(self, text: &[u8], at: usize) -> Step {
        match read_literal(text, at, RUST, 0xffff_ffff_ffff_ffff) {
            Ok(read) => Step::read(read.value as u64, text, past_field(text, read.end)),
            Err(_) => Step::none(text, at),
        }
    }
}

/// The first comma from a position on, or the end of the text.
#[inline(always)]
pub fn past_field(text: &[u8], start: usize) -> usize
    ensures onward { start ≤ length text.now → start ≤ result }
    ensures within { result ≤ length text.now }
{
    for at in start..text.len() {
        if text[at] == b',' {
            return at;
        }
    }
    text.len()
}

/// Makes a call of this file.
pub fn run_call(call: u64, text: &[u8]) -> Told {
    match call {
        0 => run(FirstDigits, text),
        1 => run(Mantissa, text),
        2 => run(DecimalNumber, text),
        3 => run(Scaled, text),
        4 => run(Exponent, text),
        5 => run(Plain(0u8), text),
        6 => run(Plain(0u32), text),
        7 => run(Plain(0u64), text),
        8 => run(Plain(0i32), text),
        9 => run(Plain(0i64), text),
        10 => run(Float, text),
        11 => run(GroupedFloat, text),
        12 => run(Grouped(0i64), text),
        13 => run(Hexadecimal, text),
        14 => run(RustLiteral, text),
        _ => none(),
    }
}

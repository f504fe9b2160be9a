//! Fields between commas, each of which is a number whole.

use super::forms::value_of;
use super::numbers::{Bits, past_field};
use super::work::{Step, Told, Work, none, run};
use digit_amounts::parse_scaled;
use digit_floats::parse_float;
use digit_literals::parse_number;
use digit_numbers::{forms, parse_number_of};
use lexical_format::STANDARD;
use lexical_format::words::PYTHON_LITERAL;
use std::num::f64_to_bits_with_nan;

/// An integer of a type without separators.
#[derive(Clone, Copy)]
struct Plain<T>(T);

impl<T: Bits> Work for Plain<T> {
    #[inline(always)]
    fn step(self, text: &[u8], at: usize) -> Step {
        let end = past_field(text, at);
        match parse_number::<T>(&text[at..end], STANDARD) {
            Ok(read) => Step::read(read.bits(), text, end),
            Err(_) => Step::read(1, text, end),
        }
    }
}

/// An integer of a type, in which one `_` may be between two digits.
#[derive(Clone, Copy)]
struct Grouped<T>(T);

impl<T: Bits> Work for Grouped<T> {
    #[inline(always)]
    fn step(self, text: &[u8], at: usize) -> Step {
        let end = past_field(text, at);
        match parse_number::<T>(&text[at..end], PYTHON_LITERAL) {
            Ok(read) => Step::read(read.bits(), text, end),
            Err(_) => Step::read(1, text, end),
        }
    }
}

/// An `f64` without separators.
#[derive(Clone, Copy)]
struct Float;

impl Work for Float {
    #[inline(always)]
    fn step(self, text: &[u8], at: usize) -> Step {
        let end = past_field(text, at);
        match parse_float::<f64>(&text[at..end], STANDARD) {
            Ok(read) => Step::read(f64_to_bits_with_nan(read), text, end),
            Err(_) => Step::read(1, text, end),
        }
    }
}

/// A decimal number of two places, as an `i64`.
#[derive(Clone, Copy)]
struct Scaled;

impl Work for Scaled {
    #[inline(always)]
    fn step(self, text: &[u8], at: usize) -> Step {
        let end = past_field(text, at);
        match parse_scaled::<i64>(&text[at..end], STANDARD, b'.', 2) {
            Ok(read) => Step::read(read.cast_unsigned(), text, end),
            Err(_) => Step::read(1, text, end),
        }
    }
}

/// A number of JSON.
#[derive(Clone, Copy)]
struct Json;

impl Work for Json {
    #[inline(always)]
    fn step(self, text: &[u8], at: usize) -> Step {
        let end = past_field(text, at);
        match parse_number_of::<f64>(&text[at..end], forms::JSON) {
            Ok(read) => Step::read(value_of(read), text, end),
            Err(_) => Step::read(1, text, end),
        }
    }
}

/// Makes a call of this file.
pub fn run_call(call: u64, text: &[u8]) -> Told {
    match call {
        40 => run(Plain(0u8), text),
        41 => run(Plain(0i8), text),
        42 => run(Plain(0u32), text),
        43 => run(Plain(0u64), text),
        44 => run(Plain(0i32), text),
        45 => run(Plain(0i64), text),
        46 => run(Grouped(0u32), text),
        47 => run(Grouped(0i64), text),
        48 => run(Float, text),
        49 => run(Scaled, text),
        50 => run(Json, text),
        _ => none(),
    }
}

//! Numbers of each integer type by `digit_literals`, and floats by `digit_floats`.

use super::Outcome;
use super::format::Format;
use super::work::{Task, Work, run_each};
use digit_floats::parse_float;
use digit_literals::{Integer, parse_number, read_number};
use lexical_format::NumberFormat;

/// A number as the value of an [`Outcome`].
trait Told: Integer {
    /// Its lowest 64 bits, and the others added to them.
    fn told(self) -> u64;
}

impl Told for u8 {
    #[inline(always)]
    fn told(self) -> u64 {
        u64::from(self)
    }
}

impl Told for u16 {
    #[inline(always)]
    fn told(self) -> u64 {
        u64::from(self)
    }
}

impl Told for u32 {
    #[inline(always)]
    fn told(self) -> u64 {
        u64::from(self)
    }
}

impl Told for u64 {
    #[inline(always)]
    fn told(self) -> u64 {
        self
    }
}

impl Told for u128 {
    #[inline(always)]
    fn told(self) -> u64 {
        let low = (self & 0xffff_ffff_ffff_ffff) as u64;
        low.wrapping_add((self >> 64) as u64)
    }
}

impl Told for i32 {
    #[inline(always)]
    fn told(self) -> u64 {
        i64::from(self).cast_unsigned()
    }
}

impl Told for i64 {
    #[inline(always)]
    fn told(self) -> u64 {
        self.cast_unsigned()
    }
}

/// Parses a text as a number of a type. The outcome is nothing if it is none.
struct Parsed<T>(T);

impl<T: Told> Work for Parsed<T> {
    #[inline(always)]
    fn on<F: Format>(text: &[u8], format: F) -> Outcome {
        match parse_number::<T>(text, format.word()) {
            Ok(number) => Outcome::of(number.told(), 0),
            Err(_) => Outcome::nothing(),
        }
    }
}

/// Reads the number of a type that a text begins with. The count is where it ends; nothing if
/// there is none.
struct Read<T>(T);

impl<T: Told> Work for Read<T> {
    #[inline(always)]
    fn on<F: Format>(text: &[u8], format: F) -> Outcome {
        match read_number::<T>(text, format.word()) {
            Ok((number, end)) => Outcome::of(number.told(), end as u64),
            Err(_) => Outcome::nothing(),
        }
    }
}

/// Parses a text as the nearest `f64`. The value is its bits. Nothing where it is none, or the
/// word's mantissa or exponent isn't decimal.
struct Nearest;

impl Work for Nearest {
    #[inline(always)]
    fn on<F: Format>(text: &[u8], format: F) -> Outcome {
        let word = format.word();
        let format = NumberFormat::new(word);
        if format.mantissa_radix() != 10 || format.exponent_radix() != 10 {
            return Outcome::nothing();
        }
        match parse_float::<f64>(text, word) {
            Ok(float) => Outcome::of(float.to_bits(), 0),
            Err(_) => Outcome::nothing(),
        }
    }
}

/// Parses a text as the nearest `f32`, as [`Nearest`] does.
struct NearestF32;

impl Work for NearestF32 {
    #[inline(always)]
    fn on<F: Format>(text: &[u8], format: F) -> Outcome {
        let word = format.word();
        let format = NumberFormat::new(word);
        if format.mantissa_radix() != 10 || format.exponent_radix() != 10 {
            return Outcome::nothing();
        }
        match parse_float::<f32>(text, word) {
            Ok(float) => Outcome::of(u64::from(float.to_bits()), 0),
            Err(_) => Outcome::nothing(),
        }
    }
}

#[unsafe(no_mangle)]
pub extern "C" fn digit_bench_parsed_u8(task: &Task, outcome: &mut Outcome) {
    *outcome = run_each::<Parsed<u8>>(task);
}

#[unsafe(no_mangle)]
pub extern "C" fn digit_bench_parsed_u16(task: &Task, outcome: &mut Outcome) {
    *outcome = run_each::<Parsed<u16>>(task);
}

#[unsafe(no_mangle)]
pub extern "C" fn digit_bench_parsed_u32(task: &Task, outcome: &mut Outcome) {
    *outcome = run_each::<Parsed<u32>>(task);
}

#[unsafe(no_mangle)]
pub extern "C" fn digit_bench_parsed_u64(task: &Task, outcome: &mut Outcome) {
    *outcome = run_each::<Parsed<u64>>(task);
}

#[unsafe(no_mangle)]
pub extern "C" fn digit_bench_parsed_i32(task: &Task, outcome: &mut Outcome) {
    *outcome = run_each::<Parsed<i32>>(task);
}

#[unsafe(no_mangle)]
pub extern "C" fn digit_bench_parsed_i64(task: &Task, outcome: &mut Outcome) {
    *outcome = run_each::<Parsed<i64>>(task);
}

#[unsafe(no_mangle)]
pub extern "C" fn digit_bench_parsed_u128(task: &Task, outcome: &mut Outcome) {
    *outcome = run_each::<Parsed<u128>>(task);
}

#[unsafe(no_mangle)]
pub extern "C" fn digit_bench_read_u8(task: &Task, outcome: &mut Outcome) {
    *outcome = run_each::<Read<u8>>(task);
}

#[unsafe(no_mangle)]
pub extern "C" fn digit_bench_read_u16(task: &Task, outcome: &mut Outcome) {
    *outcome = run_each::<Read<u16>>(task);
}

#[unsafe(no_mangle)]
pub extern "C" fn digit_bench_read_i32(task: &Task, outcome: &mut Outcome) {
    *outcome = run_each::<Read<i32>>(task);
}

#[unsafe(no_mangle)]
pub extern "C" fn digit_bench_read_u32(task: &Task, outcome: &mut Outcome) {
    *outcome = run_each::<Read<u32>>(task);
}

#[unsafe(no_mangle)]
pub extern "C" fn digit_bench_read_u64(task: &Task, outcome: &mut Outcome) {
    *outcome = run_each::<Read<u64>>(task);
}

#[unsafe(no_mangle)]
pub extern "C" fn digit_bench_read_i64(task: &Task, outcome: &mut Outcome) {
    *outcome = run_each::<Read<i64>>(task);
}

#[unsafe(no_mangle)]
pub extern "C" fn digit_bench_read_u128(task: &Task, outcome: &mut Outcome) {
    *outcome = run_each::<Read<u128>>(task);
}

#[unsafe(no_mangle)]
pub extern "C" fn digit_bench_nearest(task: &Task, outcome: &mut Outcome) {
    *outcome = run_each::<Nearest>(task);
}

#[unsafe(no_mangle)]
pub extern "C" fn digit_bench_nearest_f32(task: &Task, outcome: &mut Outcome) {
    *outcome = run_each::<NearestF32>(task);
}

//! Lists, in slices of a few places and of many.

ghost use Rattle.std.specs.Prelude.{◌≤◌, length, IsTrue};
ghost use Rattle.lexical_format.specs.Word.{is_supported};

use super::numbers::Bits;
use super::work::{Step, Told, Work, none, run};
use digit_lists::read_float_list;
use digit_literals::{COMMAS, Gap, ListEnd, WHITESPACE, read_list};
use lexical_format::STANDARD;
use lexical_format::words::PYTHON_LITERAL;
use std::num::f64_to_bits_with_nan;

/// A list from a position on. The next one begins after it, or after the byte that is in no number.
#[inline(always)]
fn list_into<T: Bits>(text: &[u8], at: usize, word: u128, gap: Gap, out: &mut [T]) -> Step
    requires within { at ≤ length text.now }
    requires supported { IsTrue (is_supported word) }
{
    let read = read_list(text, at, word, gap, out);
    let value = match out.first() {
        Some(number) => number.bits(),
        None => 0,
    };
    match read.end {
        ListEnd::Full(next) => Step { value, at: next },
        ListEnd::Over(end) => Step::read(value, text, end),
        ListEnd::Fault(error) => Step::read(value.wrapping_add(1), text, error.position()),
    }
}

/// `u64` with commas, in three places.
#[derive(Clone, Copy)]
struct Three;

impl Work for Three {
    #[inline(always)]
    fn step(self, text: &[u8], at: usize) -> Step {
        let mut out = [0u64; 3];
        list_into(text, at, STANDARD, COMMAS, &mut out)
    }
}

/// The same in eight places.
#[derive(Clone, Copy)]
struct Eight;

impl Work for Eight {
    #[inline(always)]
    fn step(self, text: &[u8], at: usize) -> Step {
        let mut out = [0u64; 8];
        list_into(text, at, STANDARD, COMMAS, &mut out)
    }
}

/// The same in 64 places.
#[derive(Clone, Copy)]
struct Many;

impl Work for Many {
    #[inline(always)]
    fn step(self, text: &[u8], at: usize) -> Step {
        let mut out = [0u64; 64];
        list_into(text, at, STANDARD, COMMAS, &mut out)
    }
}

/// `i64` with commas, in three places.
#[derive(Clone, Copy)]
struct ThreeSigned;

impl Work for ThreeSigned {
    #[inline(always)]
    fn step(self, text: &[u8], at: usize) -> Step {
        let mut out = [0i64; 3];
        list_into(text, at, STANDARD, COMMAS, &mut out)
    }
}

/// The same in eight places.
#[derive(Clone, Copy)]
struct EightSigned;

impl Work for EightSigned {
    #[inline(always)]
    fn step(self, text: &[u8], at: usize) -> Step {
        let mut out = [0i64; 8];
        list_into(text, at, STANDARD, COMMAS, &mut out)
    }
}

/// The same in 64 places.
#[derive(Clone, Copy)]
struct ManySigned;

impl Work for ManySigned {
    #[inline(always)]
    fn step(self, text: &[u8], at: usize) -> Step {
        let mut out = [0i64; 64];
        list_into(text, at, STANDARD, COMMAS, &mut out)
    }
}

/// The same, and one `_` may be between two digits.
#[derive(Clone, Copy)]
struct ManyGrouped;

impl Work for ManyGrouped {
    #[inline(always)]
    fn step(self, text: &[u8], at: usize) -> Step {
        let mut out = [0i64; 64];
        list_into(text, at, PYTHON_LITERAL, COMMAS, &mut out)
    }
}

/// `u64` with blanks, in 64 places.
#[derive(Clone, Copy)]
struct Blanks;

impl Work for Blanks {
    #[inline(always)]
    fn step(self, text: &[u8], at: usize) -> Step {
        let mut out = [0u64; 64];
        list_into(text, at, STANDARD, WHITESPACE, &mut out)
    }
}

/// `i64` with blanks, in 64 places.
#[derive(Clone, Copy)]
struct BlanksSigned;

impl Work for BlanksSigned {
    #[inline(always)]
    fn step(self, text: &[u8], at: usize) -> Step {
        let mut out = [0i64; 64];
        list_into(text, at, STANDARD, WHITESPACE, &mut out)
    }
}

/// `i32` with commas, in 64 places.
#[derive(Clone, Copy)]
struct ManyShort;

impl Work for ManyShort {
    #[inline(always)]
    fn step(self, text: &[u8], at: usize) -> Step {
        let mut out = [0i32; 64];
        list_into(text, at, STANDARD, COMMAS, &mut out)
    }
}

/// Floats with commas, in 64 places.
#[derive(Clone, Copy)]
struct Floats;

impl Work for Floats {
    #[inline(always)]
    fn step(self, text: &[u8], at: usize) -> Step {
        let mut out = [0.0; 64];
        let read = read_float_list(text, at, STANDARD, COMMAS, &mut out);
        let value = f64_to_bits_with_nan(out[0]);
        match read.end {
            ListEnd::Full(next) => Step { value, at: next },
            ListEnd::Over(end) => Step::read(value, text, end),
            ListEnd::Fault(error) => Step::read(value, text, error.position()),
        }
    }
}

/// Makes a call of this file.
pub fn run_call(call: u64, text: &[u8]) -> Told {
    match call {
        20 => run(Three, text),
        21 => run(Eight, text),
        22 => run(Many, text),
        23 => run(ThreeSigned, text),
        24 => run(EightSigned, text),
        25 => run(ManySigned, text),
        26 => run(ManyGrouped, text),
        27 => run(Blanks, text),
        28 => run(BlanksSigned, text),
        29 => run(Floats, text),
        30 => run(ManyShort, text),
        _ => none(),
    }
}

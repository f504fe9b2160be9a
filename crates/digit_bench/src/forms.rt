//! The number of a form that a text begins with, for `bench/forms`.

ghost use Rattle.digit_numbers.specs.Forms.{IsForm};

use digit_numbers::{Form, Number, NumberError, form_of, read_number_of};
use std::num::f64_to_bits_with_nan;

/// A text, where the number begins, and the number of a form.
#[repr(C)]
pub struct Asked<'a> {
    pub text: &'a [u8],
    pub start: usize,
    pub form: usize,
}

/// What a text begins with.
#[repr(C)]
#[derive(Clone, Copy)]
pub struct Told {
    /// 0: nothing; 1: an integer; 2: an integer with a minus; 3: a float; 4: an integer above 128
    /// bits.
    pub kind: u64,
    /// The lower half of the integer, or the bits of the float.
    pub low: u64,
    /// The upper half of the integer.
    pub high: u64,
    /// Where the number ends.
    pub end: u64,
}

impl Told {
    fn of(kind: u64, value: u128, end: usize) -> Told {
        Told {
            kind,
            low: (value & 0xffff_ffff_ffff_ffff) as u64,
            high: (value >> 64) as u64,
            end: end as u64,
        }
    }
}

/// The number of a form that begins at a position.
fn number(text: &[u8], start: usize, form: Form) -> Told
    requires { IsForm form }
{
    if start > text.len() {
        return Told::of(0, 0, 0);
    }
    match read_number_of::<f64>(text, start, form) {
        Ok((number, end)) => match number {
            Number::Integer {
                negative,
                magnitude,
                word: _,
            } => Told::of(if negative { 2 } else { 1 }, magnitude, end),
            Number::Float(x) => Told::of(3, f64_to_bits_with_nan(x) as u128, end),
        },
        Err(NumberError::Overflow(at)) => Told::of(4, 0, at),
        Err(_) => Told::of(0, 0, 0),
    }
}

/// Reads the number that begins at a position, by the form with a number.
#[unsafe(no_mangle)]
pub extern "C" fn digit_bench_form(asked: &Asked, told: &mut Told) {
    if let Some(form) = form_of(asked.form) {
        *told = number(asked.text, asked.start, form);
    }
}

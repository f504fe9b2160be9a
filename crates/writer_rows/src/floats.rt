//! Floats, written one after another.

use super::each::{WritesOne, write_each};
use decimal_writers::{ExponentText, write_fixed, write_scientific};
use float_writers::{AnyFloat, FloatLayout, write_float};
use std::marker::PhantomData;

/// The shortest texts of the floats of a type, in a layout.
#[derive(Clone, Copy)]
struct Shortest<F: AnyFloat> {
    layout: FloatLayout,
    of: PhantomData<F>,
}

impl<F: AnyFloat> WritesOne for Shortest<F> {
    type Number = F;

    #[inline(always)]
    fn write_one(self, value: F, out: &mut [u8]) -> usize {
        write_float(value, self.layout, out).unwrap_or(0)
    }
}

/// Floats with so many places, as C's `%.*f`.
#[derive(Clone, Copy)]
struct Fixed {
    places: u32,
}

impl WritesOne for Fixed {
    type Number = f64;

    #[inline(always)]
    fn write_one(self, value: f64, out: &mut [u8]) -> usize {
        if !value.is_finite() {
            return 0;
        }
        write_fixed(value, self.places, out).unwrap_or(0)
    }
}

/// The same with an exponent, as C's `%.*e`.
#[derive(Clone, Copy)]
struct Scientific {
    places: u32,
}

impl WritesOne for Scientific {
    type Number = f64;

    #[inline(always)]
    fn write_one(self, value: f64, out: &mut [u8]) -> usize {
        if !value.is_finite() {
            return 0;
        }
        write_scientific(value, self.places, ExponentText::Signed, out).unwrap_or(0)
    }
}

/// Writes the shortest texts of floats in a layout.
#[inline(always)]
fn write_all<F: AnyFloat>(values: &[F], layout: FloatLayout, out: &mut [u8]) -> usize {
    let how = Shortest::<F> {
        layout,
        of: PhantomData,
    };
    write_each(how, values, out)
}

/// Writes the shortest texts of floats, as JSON has them. One that isn't finite has no text.
#[unsafe(no_mangle)]
pub extern "C" fn writer_f64s(values: &[f64], out: &mut [u8]) -> usize {
    write_all(values, FloatLayout::Usual, out)
}

/// The same.
#[unsafe(no_mangle)]
pub extern "C" fn writer_f32s(values: &[f32], out: &mut [u8]) -> usize {
    write_all(values, FloatLayout::Usual, out)
}

/// The same without an exponent.
#[unsafe(no_mangle)]
pub extern "C" fn writer_f64s_plain(values: &[f64], out: &mut [u8]) -> usize {
    write_all(values, FloatLayout::Plain, out)
}

/// The same with an exponent.
#[unsafe(no_mangle)]
pub extern "C" fn writer_f64s_exponent(values: &[f64], out: &mut [u8]) -> usize {
    write_all(values, FloatLayout::Exponent, out)
}

/// The same.
#[unsafe(no_mangle)]
pub extern "C" fn writer_f32s_exponent(values: &[f32], out: &mut [u8]) -> usize {
    write_all(values, FloatLayout::Exponent, out)
}

/// Writes floats with two places, as C's `%.2f`. One that isn't finite has no text.
#[unsafe(no_mangle)]
pub extern "C" fn writer_f64s_fixed(values: &[f64], out: &mut [u8]) -> usize {
    write_each(Fixed { places: 2 }, values, out)
}

/// Writes floats with six places and an exponent, as C's `%.6e`.
#[unsafe(no_mangle)]
pub extern "C" fn writer_f64s_scientific(values: &[f64], out: &mut [u8]) -> usize {
    write_each(Scientific { places: 6 }, values, out)
}

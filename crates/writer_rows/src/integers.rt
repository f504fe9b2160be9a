//! Integers and amounts, written one after another.

use super::each::{WritesOne, write_each};
use digit_writers::{Layout, Written, write_number, write_number_by, write_price, write_scaled};
use std::marker::PhantomData;

/// The integers of a type, in decimal.
#[derive(Clone, Copy)]
struct Decimal<T: Written>(PhantomData<T>);

impl<T: Written> WritesOne for Decimal<T> {
    type Number = T;

    #[inline(always)]
    fn write_one(self, value: T, out: &mut [u8]) -> usize {
        if out.len() < T::ROOM {
            return 0;
        }
        write_number(value, out)
    }
}

/// An integer of 128 bits, as C passes it on.
#[derive(Clone, Copy)]
#[repr(C)]
pub struct Halves {
    pub low: u64,
    pub high: u64,
}

impl Halves {
    #[inline(always)]
    fn whole(self) -> u128 {
        (u128::from(self.high) << 64) | u128::from(self.low)
    }
}

/// The integers of 128 bits, in decimal.
#[derive(Clone, Copy)]
struct Wide {
    is_signed: bool,
}

impl WritesOne for Wide {
    type Number = Halves;

    #[inline(always)]
    fn write_one(self, value: Halves, out: &mut [u8]) -> usize {
        if self.is_signed {
            return Decimal::<i128>(PhantomData).write_one(value.whole().cast_signed(), out);
        }
        Decimal::<u128>(PhantomData).write_one(value.whole(), out)
    }
}

/// Integers in a layout.
#[derive(Clone, Copy)]
struct By<T: Written> {
    layout: Layout,
    of: PhantomData<T>,
}

impl<T: Written> WritesOne for By<T> {
    type Number = T;

    #[inline(always)]
    fn write_one(self, value: T, out: &mut [u8]) -> usize {
        write_number_by(value, self.layout, out).unwrap_or(0)
    }
}

/// Amounts with so many places.
#[derive(Clone, Copy)]
struct Scaled {
    places: usize,
}

impl WritesOne for Scaled {
    type Number = i64;

    #[inline(always)]
    fn write_one(self, value: i64, out: &mut [u8]) -> usize {
        if self.places > 38 {
            return 0;
        }
        write_scaled(value, b'.', self.places, out).unwrap_or(0)
    }
}

/// The same in groups of three digits.
#[derive(Clone, Copy)]
struct Price {
    places: usize,
}

impl WritesOne for Price {
    type Number = i64;

    #[inline(always)]
    fn write_one(self, value: i64, out: &mut [u8]) -> usize {
        if self.places > 38 {
            return 0;
        }
        write_price(value, b'.', self.places, b',', out).unwrap_or(0)
    }
}

/// Writes the integers of a type.
#[inline(always)]
fn write_all<T: Written>(values: &[T], out: &mut [u8]) -> usize {
    write_each(Decimal::<T>(PhantomData), values, out)
}

/// Writes integers in decimal.
#[unsafe(no_mangle)]
pub extern "C" fn writer_u8s(values: &[u8], out: &mut [u8]) -> usize {
    write_all(values, out)
}

/// The same.
#[unsafe(no_mangle)]
pub extern "C" fn writer_u16s(values: &[u16], out: &mut [u8]) -> usize {
    write_all(values, out)
}

/// The same.
#[unsafe(no_mangle)]
pub extern "C" fn writer_u32s(values: &[u32], out: &mut [u8]) -> usize {
    write_all(values, out)
}

/// The same.
#[unsafe(no_mangle)]
pub extern "C" fn writer_u64s(values: &[u64], out: &mut [u8]) -> usize {
    write_all(values, out)
}

/// The same.
#[unsafe(no_mangle)]
pub extern "C" fn writer_u128s(values: &[Halves], out: &mut [u8]) -> usize {
    write_each(Wide { is_signed: false }, values, out)
}

/// The same.
#[unsafe(no_mangle)]
pub extern "C" fn writer_usizes(values: &[usize], out: &mut [u8]) -> usize {
    write_all(values, out)
}

/// The same.
#[unsafe(no_mangle)]
pub extern "C" fn writer_i8s(values: &[i8], out: &mut [u8]) -> usize {
    write_all(values, out)
}

/// The same.
#[unsafe(no_mangle)]
pub extern "C" fn writer_i16s(values: &[i16], out: &mut [u8]) -> usize {
    write_all(values, out)
}

/// The same.
#[unsafe(no_mangle)]
pub extern "C" fn writer_i32s(values: &[i32], out: &mut [u8]) -> usize {
    write_all(values, out)
}

/// The same.
#[unsafe(no_mangle)]
pub extern "C" fn writer_i64s(values: &[i64], out: &mut [u8]) -> usize {
    write_all(values, out)
}

/// The same.
#[unsafe(no_mangle)]
pub extern "C" fn writer_i128s(values: &[Halves], out: &mut [u8]) -> usize {
    write_each(Wide { is_signed: true }, values, out)
}

/// The same.
#[unsafe(no_mangle)]
pub extern "C" fn writer_isizes(values: &[isize], out: &mut [u8]) -> usize {
    write_all(values, out)
}

/// Writes integers in groups of three digits, with `_` between them.
#[unsafe(no_mangle)]
pub extern "C" fn writer_u64s_grouped(values: &[u64], out: &mut [u8]) -> usize {
    match Layout::decimal().grouped(b'_', 3) {
        Some(layout) => {
            let by = By::<u64> {
                layout,
                of: PhantomData,
            };
            write_each(by, values, out)
        }
        None => 0,
    }
}

/// Writes amounts with a point before so many places.
#[unsafe(no_mangle)]
pub extern "C" fn writer_scaled(values: &[i64], places: usize, out: &mut [u8]) -> usize {
    write_each(Scaled { places }, values, out)
}

/// The same with `,` between groups of three digits.
#[unsafe(no_mangle)]
pub extern "C" fn writer_prices(values: &[i64], places: usize, out: &mut [u8]) -> usize {
    write_each(Price { places }, values, out)
}

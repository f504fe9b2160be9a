//! The blocks of the page WRITING.md, in its order. `.ci/pages` compares the two.
#![tactic(auto, unfolding(digits::proofs::Literals::lexical_on_literals))]

use digits::{FloatLayout, MOST_ROOM, write_float, write_number, write_price};

/// Each call returns how many bytes its text has.
pub fn first_texts() {
    let mut out = [0; MOST_ROOM];
    let height = write_number(-128i8, &mut out); // 4: `&out[..4]` is `-128`
    let rate = write_float(0.1, FloatLayout::Usual, &mut out); // Ok(3): `0.1`
    let price = write_price(123450i64, b'.', 2, b',', &mut out); // Ok(8): `1,234.50`
}

use digits::write_fixed;

/// Writes a float with two decimal places: 2.5 gives `2.50`, and -0.001 `-0.00`. `None`: `x` is
/// infinite or NaN, or `out` is too short.
pub fn write_two_places(x: f64, out: &mut [u8]) -> Option<usize> {
    if !x.is_finite() {
        return None;
    }
    write_fixed(x, 2, out).ok()
}

use std::io::Write;

/// Writes a number and a line feed.
pub fn put_line<W: Write>(number: i64, to: &mut W) -> std::io::Result<()> {
    let mut out = [0; MOST_ROOM];
    let end = write_number(number, &mut out);
    to.write_all(&out[..end])?;
    to.write_all(b"\n")
}

/// Writes a line of CSV, such as `17,"1,234.50",0.1`. `false`: the rate is infinite or NaN, and
/// nothing was written.
pub fn put_row<W: Write>(id: u32, cents: i64, rate: f64, to: &mut W) -> std::io::Result<bool> {
    if !rate.is_finite() {
        return Ok(false);
    }
    // 40 bytes, enough for each of the three: an id needs 10, a price 26, a float 24
    let mut out = [0; MOST_ROOM];
    let end = write_number(id, &mut out);
    to.write_all(&out[..end])?;
    to.write_all(b",\"")?;
    let end = write_price(cents, b'.', 2, b',', &mut out).unwrap_or(0);
    to.write_all(&out[..end])?;
    to.write_all(b"\",")?;
    let end = write_float(rate, FloatLayout::Usual, &mut out).unwrap_or(0);
    to.write_all(&out[..end])?;
    to.write_all(b"\n")?;
    Ok(true)
}

use digits::{forms, write_float_of};

/// Writes floats as a JSON array: `[1.5,2.0]`. `false`: one is infinite or NaN, and nothing was
/// written.
pub fn put_array<W: Write>(values: &[f64], to: &mut W) -> std::io::Result<bool> {
    if !values.iter().all(|value| value.is_finite()) {
        return Ok(false);
    }
    let mut out = [0; 328];
    to.write_all(b"[")?;
    for (value, number) in values.iter().zip(1usize..) {
        if number > 1 {
            to.write_all(b",")?;
        }
        let end = write_float_of(*value, forms::JSON, &mut out).unwrap_or(0);
        to.write_all(&out[..end])?;
    }
    to.write_all(b"]")?;
    Ok(true)
}

/// Writes floats as a JSON array, and returns its length: `[1.5,2.0]` has 9 bytes. `None`: `out` is
/// too short, or a float is infinite or NaN.
pub fn write_array(values: &[f64], out: &mut [u8]) -> Option<usize> {
    let mut at = 0usize;
    for value in values {
        *out.get_mut(at)? = if at == 0 { b'[' } else { b',' };
        at = at.checked_add(1)?;
        let count = write_float_of(*value, forms::JSON, out.get_mut(at..)?).ok()?;
        at = at.checked_add(count)?;
    }
    if at == 0 {
        *out.get_mut(at)? = b'[';
        at = at.checked_add(1)?;
    }
    *out.get_mut(at)? = b']';
    at.checked_add(1)
}

/// Writes cents as a price, at the right end of a column of 12 bytes.
pub fn put_price<W: Write>(cents: i64, to: &mut W) -> std::io::Result<()> {
    // 12 blanks, and 26 bytes: enough for every `i64` with two places, so this is never an error
    let mut out = [b' '; 38];
    let count = write_price(cents, b'.', 2, b',', &mut out[12..]).unwrap_or(26);
    to.write_all(&out[count.min(12)..12 + count])
}

/// Writes a float with two places, at the right end of a column of 12 bytes: of an infinite one or
/// a NaN a `-`.
pub fn put_float<W: Write>(x: f64, to: &mut W) -> std::io::Result<()> {
    if !x.is_finite() {
        return to.write_all(b"           -");
    }
    // 12 blanks, and 313 bytes: enough for every `f64` with two places
    let mut out = [b' '; 325];
    let count = write_fixed(x, 2, &mut out[12..]).unwrap_or(313);
    to.write_all(&out[count.min(12)..12 + count])
}

use digits::{Layout, NoRoom, write_number_by};

/// Writes a number with `,` between groups of three digits: `-1,234,567`.
pub fn write_grouped(number: i64, out: &mut [u8]) -> Result<usize, NoRoom> {
    let Some(layout) = Layout::decimal().grouped(b',', 3) else {
        unreachable!()
    };
    write_number_by(number, layout, out)
}

/// Writes the bits of a number as 16 hexadecimal digits: -1 gives `ffffffffffffffff`.
pub fn write_bits(number: i64, out: &mut [u8]) -> Result<usize, NoRoom> {
    let Some(hexadecimal) = Layout::of_radix(16) else {
        unreachable!()
    };
    let bits = u64::from_le_bytes(number.to_le_bytes());
    write_number_by(bits, hexadecimal.with_digits(16), out)
}

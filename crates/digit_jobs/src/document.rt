//! JSON: map data and measurements.

ghost use Rattle.std.specs.Prelude.{◌≤◌, ◌<◌, length};

use super::page::Page;
use super::tally::Tally;
use super::work::Work;
use digits::{
    BLANKS, COMMAS, ListEnd, Number, NumberError, byte_at, expect_byte, forms, past_bytes,
    read_list_of, read_number_of,
};
use std::alloc::{AllocError, Global};

/// How many bytes a document has, about.
const SIZE: usize = 393_216;

/// In a revision an integer of one digit becomes one of these: a zero as often as before.
const ONE_DIGIT: [u8; 16] = *b"0012345678912345";

/// The bytes of a fault that a revision replaces by others of these.
const FAULTY: [u8; 16] = *b"-xNabcdfghijkmno";

/// Documents of JSON.
pub struct Document;

impl Work for Document {
    fn write(page: &mut Page) -> Result<(), AllocError> {
        page.bytes(b"{\"type\":\"FeatureCollection\",\"features\":[\n")?;
        for _ in 0..SIZE {
            if page.len() >= SIZE {
                break;
            }
            write_feature(page)?;
        }
        page.bytes(b"]}\n")
    }

    fn read(_alloc: Global, text: &[u8], tally: &mut Tally) -> Result<(), AllocError> {
        let mut out = [Number::Float(0.0); 64];
        let mut key = 0u8;
        let mut at = 0;
        let mut steps = 0u64;
        for _ in 0..text.len() {
            if at >= text.len() {
                break;
            }
            (at, key) = read_token(text, at, key, &mut out, tally);
            steps = steps.wrapping_add(1);
        }
        tally.fold_with(steps, at);
        Ok(())
    }
}

/// Adds one of the faults that are found in place of a number.
fn write_fault(page: &mut Page) -> Result<(), AllocError> {
    let start = page.len();
    page.one_of(&["017", ".5", "1.", "-", "+1", "1e", "NaN", "1.5e+", "-x"])?;
    page.free(start, FAULTY)
}

/// Adds an integer of up to `most` digits, in some cases a negative one, or a fault.
fn write_integer(page: &mut Page, most: u64) -> Result<(), AllocError> {
    if page.random.one_in(200) {
        return write_fault(page);
    }
    let start = page.len();
    if page.random.one_in(40) {
        page.byte(b'0')?;
    } else {
        page.maybe(b'-', 6)?;
        page.some_digits(1, most)?;
    }
    if page.len().saturating_sub(start) == 1 {
        page.free(start, ONE_DIGIT)?;
    }
    Ok(())
}

/// Adds an exponent.
fn write_exponent(page: &mut Page) -> Result<(), AllocError> {
    page.one_of(&["e", "e-", "E", "e+", "E-", "e"])?;
    page.some_digits(1, 2)
}

/// Adds what was measured, or a fault.
fn write_measurement(page: &mut Page) -> Result<(), AllocError> {
    if page.random.one_in(200) {
        return write_fault(page);
    }
    page.maybe(b'-', 8)?;
    match page.random.below(20) {
        0 => {
            page.digits(1)?;
            page.places(15, 16)
        }
        1 => {
            page.some_digits(1, 2)?;
            page.places(1, 6)?;
            write_exponent(page)
        }
        2 => {
            page.byte(b'0')?;
            page.places(2, 5)
        }
        _ => {
            page.some_digits(1, 3)?;
            page.places(1, 4)
        }
    }
}

/// Adds a key, and what separates it from its value.
fn write_key(page: &mut Page, key: &str) -> Result<(), AllocError> {
    page.byte(b'"')?;
    page.bytes(key.as_bytes())?;
    page.bytes(b"\":")?;
    page.maybe(b' ', 2)
}

/// Adds a comma, with a blank in some cases.
fn write_comma(page: &mut Page) -> Result<(), AllocError> {
    page.byte(b',')?;
    page.maybe(b' ', 3)
}

/// Adds a degree of a place.
fn write_degree(page: &mut Page, most: u64) -> Result<(), AllocError> {
    if page.random.one_in(300) {
        return write_fault(page);
    }
    page.maybe(b'-', 2)?;
    page.some_digits(1, most)?;
    match page.random.below(10) {
        0 => page.places(1, 3),
        1 => page.places(8, 12),
        2 => page.places(13, 15),
        _ => page.places(4, 7),
    }
}

/// Adds a place: its longitude and its latitude.
fn write_place(page: &mut Page) -> Result<(), AllocError> {
    page.byte(b'[')?;
    write_degree(page, 3)?;
    write_comma(page)?;
    write_degree(page, 2)?;
    page.byte(b']')
}

/// Adds the outline of a feature.
fn write_geometry(page: &mut Page) -> Result<(), AllocError> {
    page.bytes(b"{\"type\":\"Polygon\",\"coordinates\":[[")?;
    let count = page.random.between(3, 24);
    for _ in 0..count {
        write_place(page)?;
        write_comma(page)?;
    }
    write_place(page)?;
    page.bytes(b"]]}")
}

/// Adds a flat list.
fn write_values(page: &mut Page) -> Result<(), AllocError> {
    page.byte(b'[')?;
    let count = page.random.between(4, 59);
    let whole = page.random.one_in(3);
    for _ in 0..count {
        if whole {
            write_integer(page, 5)?;
        } else {
            write_measurement(page)?;
        }
        write_comma(page)?;
    }
    page.some_digits(1, 3)?;
    page.byte(b']')
}

/// Adds the properties of a feature.
fn write_properties(page: &mut Page) -> Result<(), AllocError> {
    page.byte(b'{')?;
    let count = page.random.between(2, 7);
    for _ in 0..count {
        let key = ["level", "count", "ref", "lanes"][page.random.below(4) as usize];
        write_key(page, key)?;
        write_integer(page, 6)?;
        write_comma(page)?;
        let key = ["height", "width", "ele", "ratio"][page.random.below(4) as usize];
        write_key(page, key)?;
        write_measurement(page)?;
        write_comma(page)?;
    }
    write_key(page, "name")?;
    page.one_of(&[
        "\"Main Street\"",
        "\"\"",
        "\"b7\"",
        "\"Am Markt 12\"",
        "\"A 61\"",
    ])?;
    write_comma(page)?;
    write_key(page, "time")?;
    let digits = if page.random.one_in(2) { 10 } else { 13 };
    page.digits(digits)?;
    page.byte(b'}')
}

/// Adds a feature.
fn write_feature(page: &mut Page) -> Result<(), AllocError> {
    page.bytes(b"  {\"type\":\"Feature\",")?;
    write_key(page, "id")?;
    page.some_digits(1, 8)?;
    page.bytes(b",\n    \"properties\":")?;
    write_properties(page)?;
    page.bytes(b",\n    ")?;
    write_key(page, "values")?;
    write_values(page)?;
    page.bytes(b",\n    ")?;
    write_key(page, "geometry")?;
    write_geometry(page)?;
    page.bytes(b"\n  },\n")
}

/// Folds an error, and answers where it is.
#[inline(always)]
fn fold_error(error: NumberError, tally: &mut Tally) -> usize {
    let (kind, at) = match error {
        NumberError::Empty(at) => (1, at),
        NumberError::Overflow(at) => (2, at),
        NumberError::Invalid(at) => (3, at),
    };
    tally.refuse(kind, at);
    at
}

/// The end of the string whose first byte after the quote is at `start`.
#[inline(always)]
fn string_end(text: &[u8], start: usize) -> usize
    requires { start ≤ length text.now }
    ensures { result ≤ length text.now }
{
    match text[start..].iter().position(|byte| *byte == b'"') {
        Some(count) => start + count + 1,
        None => text.len(),
    }
}

/// The position after a byte that may be here, past blanks.
#[inline(always)]
fn past_byte(text: &[u8], at: usize, byte: u8) -> usize
    requires { at ≤ length text.now }
    ensures { result ≤ length text.now }
{
    let at = past_bytes(text, at, BLANKS);
    match expect_byte(text, at, byte) {
        Ok(next) => next,
        Err(at) => at,
    }
}

/// Reads the number here. Answers the position after it and a comma, or the next one after an
/// error.
#[inline(always)]
fn read_number(text: &[u8], at: usize, tally: &mut Tally) -> usize
    requires { at < length text.now }
    ensures { result ≤ length text.now }
{
    match read_number_of::<f64>(text, at, forms::JSON) {
        Ok((number, end)) => {
            tally.number(number, end);
            past_byte(text, end, b',')
        }
        Err(error) => {
            fold_error(error, tally);
            at + 1
        }
    }
}

/// Reads the list that begins here. Answers where it ends.
fn read_values(text: &[u8], at: usize, out: &mut [Number<f64>], tally: &mut Tally) -> usize
    requires { at ≤ length text.now }
{
    let list = read_list_of::<f64>(text, at, forms::JSON, COMMAS, out);
    for number in &out[..list.count] {
        tally.number(*number, 0);
    }
    match list.end {
        ListEnd::Over(end) => {
            tally.over(end);
            end
        }
        ListEnd::Full(end) => {
            tally.full(end);
            end
        }
        ListEnd::Fault(error) => fold_error(error, tally).saturating_add(1),
    }
}

/// Reads what is here. Answers where it ends, and the first byte of the key before that.
fn read_token(
    text: &[u8],
    at: usize,
    key: u8,
    out: &mut [Number<f64>],
    tally: &mut Tally,
) -> (usize, u8)
    requires { at ≤ length text.now }
{
    let at = past_bytes(text, at, BLANKS);
    let Some(byte) = byte_at(text, at) else {
        return (at, key);
    };
    match byte {
        b'"' => {
            let end = string_end(text, at + 1);
            let next = past_byte(text, end, b':');
            (next, byte_at(text, at + 1).unwrap_or(0))
        }
        b'[' if key == b'v' => (read_values(text, at + 1, out, tally), 0),
        b'[' | b'{' | b',' => (at + 1, key),
        b']' | b'}' => (past_byte(text, at + 1, b','), key),
        _ => (read_number(text, at, tally), key),
    }
}

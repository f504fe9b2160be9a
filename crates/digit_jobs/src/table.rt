//! Lines of fields that commas separate: ids, dates, times, prices, counts, measurements and short
//! lists.

ghost use Rattle.std.specs.Prelude.{◌≤◌, length, IfOk};

use super::page::Page;
use super::tally::Tally;
use super::work::Work;
use digits::{
    FloatError, ListEnd, LiteralError, SPACES_IN_LINE, STANDARD, ScaledError, expect_byte,
    read_exactly, read_float_from, read_float_list, read_list, read_number_from, read_scaled_from,
};
use std::alloc::{AllocError, Global};

/// How many bytes a document has, about.
const SIZE: usize = 393_216;

/// In a revision a letter in place of a field becomes one of these.
const LETTERS: [u8; 16] = *b"xnabcdfghijklmop";

/// The decimal digits, some of them twice.
const DIGITS: [u8; 16] = *b"0123456789123456";

/// Documents of lines.
pub struct Table;

impl Work for Table {
    fn write(page: &mut Page) -> Result<(), AllocError> {
        for _ in 0..SIZE {
            if page.len() >= SIZE {
                break;
            }
            write_line(page)?;
        }
        Ok(())
    }

    fn read(_alloc: Global, text: &[u8], tally: &mut Tally) -> Result<(), AllocError> {
        let mut at = 0;
        let mut steps = 0u64;
        for _ in 0..text.len() {
            if at >= text.len() {
                break;
            }
            at = read_line(text, at, tally);
            steps = steps.wrapping_add(1);
        }
        tally.fold_with(steps, at);
        Ok(())
    }
}

/// Adds a letter in place of a field, or no byte at all, in some cases. Answers whether it did.
fn write_gap(page: &mut Page) -> Result<bool, AllocError> {
    let start = page.len();
    match page.random.below(400) {
        0 => page.byte(b'x')?,
        1 => page.bytes(b"n/a")?,
        2..12 => {}
        _ => return Ok(false),
    }
    page.free(start, LETTERS)?;
    Ok(true)
}

/// Adds an id, in some cases one that no `u64` holds.
fn write_id(page: &mut Page) -> Result<(), AllocError> {
    if page.random.one_in(200) {
        return page.digits(21);
    }
    page.some_digits(1, 19)
}

/// Adds digits after a mark.
fn write_part(page: &mut Page, mark: u8, part: &str) -> Result<(), AllocError> {
    page.byte(mark)?;
    page.bytes(part.as_bytes())
}

/// Lets each revision change the two zeros that the text may end with.
fn free_zeros(page: &mut Page) -> Result<(), AllocError> {
    let start = page.len().saturating_sub(2);
    if page.turned(start) == 0 {
        page.free(start, DIGITS)?;
    }
    Ok(())
}

/// Adds a date and a time.
fn write_moment(page: &mut Page) -> Result<(), AllocError> {
    page.one_of(&["2024", "2025", "2026", "1999", "2019"])?;
    let part = ["01", "02", "05", "11", "12"][page.random.below(5) as usize];
    write_part(page, b'-', part)?;
    let part = ["01", "09", "17", "28", "30"][page.random.below(5) as usize];
    write_part(page, b'-', part)?;
    page.byte(b',')?;
    page.one_of(&["00", "08", "13", "17", "23"])?;
    free_zeros(page)?;
    let part = if page.random.one_in(150) {
        "5x"
    } else {
        ["00", "15", "36", "48", "52"][page.random.below(5) as usize]
    };
    write_part(page, b':', part)?;
    free_zeros(page)?;
    let part = ["00", "09", "24", "37", "59"][page.random.below(5) as usize];
    write_part(page, b':', part)?;
    free_zeros(page)
}

/// Adds a price, in some cases with a place too many.
fn write_price(page: &mut Page) -> Result<(), AllocError> {
    if write_gap(page)? {
        return Ok(());
    }
    page.maybe(b'-', 5)?;
    page.some_digits(1, 5)?;
    let places = if page.random.one_in(200) { 3 } else { 2 };
    page.places(places, places)
}

/// Adds a count.
fn write_count(page: &mut Page) -> Result<(), AllocError> {
    if write_gap(page)? {
        return Ok(());
    }
    page.maybe(b'-', 4)?;
    page.some_digits(1, 9)
}

/// Adds what was measured.
fn write_measurement(page: &mut Page) -> Result<(), AllocError> {
    if write_gap(page)? {
        return Ok(());
    }
    page.maybe(b'-', 4)?;
    page.some_digits(1, 4)?;
    page.places(1, 6)?;
    if page.random.one_in(16) {
        page.one_of(&["e", "e-", "E+"])?;
        page.some_digits(1, 2)?;
    }
    Ok(())
}

/// Adds a few integers with a blank between each two.
fn write_integers(page: &mut Page) -> Result<(), AllocError> {
    let count = page.random.between(2, 7);
    for _ in 0..count {
        page.some_digits(1, 6)?;
        page.byte(b' ')?;
    }
    page.some_digits(1, 6)
}

/// Adds a few floats with a blank between each two.
fn write_floats(page: &mut Page) -> Result<(), AllocError> {
    let count = page.random.between(1, 4);
    for _ in 0..count {
        page.maybe(b'-', 4)?;
        page.some_digits(1, 3)?;
        page.places(1, 5)?;
        page.byte(b' ')?;
    }
    page.some_digits(1, 3)
}

/// Adds a line.
fn write_line(page: &mut Page) -> Result<(), AllocError> {
    write_id(page)?;
    page.byte(b',')?;
    write_moment(page)?;
    page.byte(b',')?;
    write_price(page)?;
    page.byte(b',')?;
    write_count(page)?;
    page.byte(b',')?;
    write_measurement(page)?;
    page.byte(b',')?;
    write_measurement(page)?;
    page.byte(b',')?;
    write_integers(page)?;
    page.byte(b',')?;
    write_floats(page)?;
    page.byte(b'\n')
}

/// Folds an error of an integer.
fn refuse(error: LiteralError, tally: &mut Tally) {
    match error {
        LiteralError::Empty(at) => tally.refuse(1, at),
        LiteralError::Overflow(at) => tally.refuse(2, at),
    }
}

/// Why there is no date or time.
#[derive(Clone, Copy, Debug, PartialEq, Eq)]
enum MomentError {
    /// One of its numbers isn't there.
    Number(LiteralError),
    /// The mark that would be at this position isn't there.
    Mark(usize),
}

/// Folds an error of a date or a time.
fn refuse_moment(error: MomentError, tally: &mut Tally) {
    match error {
        MomentError::Number(error) => refuse(error, tally),
        MomentError::Mark(at) => tally.refuse(10, at),
    }
}

/// Folds an error of a float.
fn refuse_float(error: FloatError, tally: &mut Tally) {
    match error {
        FloatError::Empty(at) => tally.refuse(3, at),
        FloatError::EmptyExponent(at) => tally.refuse(4, at),
        FloatError::Invalid(at) => tally.refuse(5, at),
    }
}

/// Folds an error of a price.
fn refuse_price(error: ScaledError, tally: &mut Tally) {
    match error {
        ScaledError::Empty(at) => tally.refuse(6, at),
        ScaledError::TooLarge(at) => tally.refuse(7, at),
        ScaledError::TooFine(at) => tally.refuse(8, at),
        ScaledError::Invalid(at) => tally.refuse(9, at),
    }
}

/// Where a line, or a field of it, ends at the latest: at the next comma or line feed.
#[inline(never)]
fn field_end(text: &[u8], start: usize) -> usize
    requires { start ≤ length text.now }
    ensures { result ≤ length text.now }
{
    match text[start..]
        .iter()
        .position(|byte| *byte == b',' || *byte == b'\n')
    {
        Some(count) => start + count,
        None => text.len(),
    }
}

/// Where the next field begins, after the comma here or the next one of the line.
#[inline(always)]
fn next_field(text: &[u8], at: usize) -> usize
    requires { at ≤ length text.now }
    ensures { result ≤ length text.now }
{
    if let Ok(next) = expect_byte(text, at, b',') {
        return next;
    }
    match expect_byte(text, field_end(text, at), b',') {
        Ok(next) => next,
        Err(_) => field_end(text, at),
    }
}

/// Reads an id. Answers where the next field begins.
#[inline(always)]
fn read_id(text: &[u8], at: usize, tally: &mut Tally) -> usize
    requires { at ≤ length text.now }
    ensures { result ≤ length text.now }
{
    match read_number_from::<u64>(text, STANDARD, at) {
        Ok((value, end)) => {
            tally.read(value, end);
            next_field(text, end)
        }
        Err(error) => {
            refuse(error, tally);
            next_field(text, at)
        }
    }
}

/// Reads three numbers with marks between them, the first of `first` digits. Answers where the last
/// ends.
#[inline(always)]
fn read_parts(text: &[u8], at: usize, first: usize, mark: u8) -> Result<(u64, usize), MomentError>
    requires { at ≤ length text.now }
    ensures { IfOk result (λ read. read.1 ≤ length text.now) }
{
    let (x, at) = read_exactly::<u32>(text, at, 10, first).map_err(MomentError::Number)?;
    let at = expect_byte(text, at, mark).map_err(MomentError::Mark)?;
    let (y, at) = read_exactly::<u16>(text, at, 10, 2).map_err(MomentError::Number)?;
    let at = expect_byte(text, at, mark).map_err(MomentError::Mark)?;
    let (z, at) = read_exactly::<u16>(text, at, 10, 2).map_err(MomentError::Number)?;
    let upper = u64::from(x) << 32;
    Ok((upper | (u64::from(y) << 16) | u64::from(z), at))
}

/// Reads a date or a time. Answers where the next field begins.
#[inline(always)]
fn read_moment(text: &[u8], at: usize, first: usize, mark: u8, tally: &mut Tally) -> usize
    requires { at ≤ length text.now }
    ensures { result ≤ length text.now }
{
    match read_parts(text, at, first, mark) {
        Ok((value, end)) => {
            tally.read(value, end);
            next_field(text, end)
        }
        Err(error) => {
            refuse_moment(error, tally);
            next_field(text, at)
        }
    }
}

/// Reads a price in hundredths. Answers where the next field begins.
#[inline(always)]
fn read_price(text: &[u8], at: usize, tally: &mut Tally) -> usize
    requires { at ≤ length text.now }
    ensures { result ≤ length text.now }
{
    match read_scaled_from::<i64>(text, STANDARD, at, b'.', 2) {
        Ok((value, end)) => {
            tally.read(value.cast_unsigned(), end);
            next_field(text, end)
        }
        Err(error) => {
            refuse_price(error, tally);
            next_field(text, at)
        }
    }
}

/// Reads a count. Answers where the next field begins.
#[inline(always)]
fn read_count(text: &[u8], at: usize, tally: &mut Tally) -> usize
    requires { at ≤ length text.now }
    ensures { result ≤ length text.now }
{
    match read_number_from::<i32>(text, STANDARD, at) {
        Ok((value, end)) => {
            tally.read(u64::from(value.cast_unsigned()), end);
            next_field(text, end)
        }
        Err(error) => {
            refuse(error, tally);
            next_field(text, at)
        }
    }
}

/// Reads what was measured, as `f64`. Answers where the next field begins.
#[inline(always)]
fn read_float(text: &[u8], at: usize, tally: &mut Tally) -> usize
    requires { at ≤ length text.now }
    ensures { result ≤ length text.now }
{
    match read_float_from::<f64>(text, STANDARD, at) {
        Ok((x, end)) => {
            tally.float(x, end);
            next_field(text, end)
        }
        Err(error) => {
            refuse_float(error, tally);
            next_field(text, at)
        }
    }
}

/// Reads what was measured, as `f32`. Answers where the next field begins.
#[inline(always)]
fn read_short_float(text: &[u8], at: usize, tally: &mut Tally) -> usize
    requires { at ≤ length text.now }
    ensures { result ≤ length text.now }
{
    match read_float_from::<f32>(text, STANDARD, at) {
        Ok((x, end)) => {
            tally.short_float(x, end);
            next_field(text, end)
        }
        Err(error) => {
            refuse_float(error, tally);
            next_field(text, at)
        }
    }
}

/// Reads a few integers. Answers where the next field begins.
#[inline(always)]
fn read_integers(text: &[u8], at: usize, tally: &mut Tally) -> usize
    requires { at ≤ length text.now }
    ensures { result ≤ length text.now }
{
    let mut out = [0u32; 8];
    let list = read_list::<u32>(text, at, STANDARD, SPACES_IN_LINE, &mut out);
    for value in &out[..list.count] {
        tally.read(u64::from(*value), 0);
    }
    match list.end {
        ListEnd::Over(end) => {
            tally.over(end);
            next_field(text, end)
        }
        ListEnd::Full(end) => {
            tally.full(end);
            next_field(text, end)
        }
        ListEnd::Fault(error) => {
            refuse(error, tally);
            next_field(text, at)
        }
    }
}

/// Reads a few floats. Answers where the next field begins, or the line ends.
#[inline(always)]
fn read_floats(text: &[u8], at: usize, tally: &mut Tally) -> usize
    requires { at ≤ length text.now }
    ensures { result ≤ length text.now }
{
    let mut out = [0.0f64; 8];
    let list = read_float_list::<f64>(text, at, STANDARD, SPACES_IN_LINE, &mut out);
    for x in &out[..list.count] {
        tally.float(*x, 0);
    }
    match list.end {
        ListEnd::Over(end) => {
            tally.over(end);
            next_field(text, end)
        }
        ListEnd::Full(end) => {
            tally.full(end);
            next_field(text, end)
        }
        ListEnd::Fault(error) => {
            refuse_float(error, tally);
            next_field(text, at)
        }
    }
}

/// Reads a line. Answers where the next one begins.
fn read_line(text: &[u8], at: usize, tally: &mut Tally) -> usize
    requires { at ≤ length text.now }
{
    let at = read_id(text, at, tally);
    let at = read_moment(text, at, 4, b'-', tally);
    let at = read_moment(text, at, 2, b':', tally);
    let at = read_price(text, at, tally);
    let at = read_count(text, at, tally);
    let at = read_float(text, at, tally);
    let at = read_short_float(text, at, tally);
    let at = read_integers(text, at, tally);
    let at = read_floats(text, at, tally);
    match expect_byte(text, at, b'\n') {
        Ok(next) => next,
        Err(at) => at.saturating_add(1),
    }
}

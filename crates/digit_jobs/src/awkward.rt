//! Numbers that are hard to read: long ones, exact middles between two floats, those above their
//! type, runs of separators, hexadecimal floats, many zeros and faults at the last byte.

ghost use Rattle.std.specs.Prelude.{◌≤◌, ◌+◌, length, IsTrue, IfOk};
ghost use Rattle.digits.specs.Words.{IsDecimal, IsForm, is_supported};

use super::page::Page;
use super::tally::Tally;
use super::work::Work;
use digits::words::{
    HEXADECIMAL_FLOAT, JAVA_LITERAL, PERL_LITERAL, PYTHON_LITERAL, RUST_LITERAL, SWIFT_LITERAL,
};
use digits::{
    FloatError, Form, LiteralError, Marks, Number, NumberError, ParseError, STANDARD, byte_at,
    expect_byte, form_of, forms, parse_float, parse_number, read_decimal_from, read_float_from,
    read_hex_float_from, read_number_from, read_number_of,
};
use std::alloc::{AllocError, Global};

/// How many bytes a document has, about.
const SIZE: usize = 262_144;

/// The kinds of numbers: each is made as often as its letter is here.
const KINDS: &[u8] = b"aaabbcccddeefffgghhiijjkklmmnno";

/// The least number of digits that a revision changes in a number, if it has as many.
const FEW: usize = 4;

/// The decimal digits, some of them twice.
const DIGITS: [u8; 16] = *b"0123456789123456";

/// Documents of lines: the kind of a number, its length in two letters, and the number. Digits from
/// 2 to 7 are changed, so that middles stay middles, and numbers above a `u64` stay above it; and
/// others where a number has few of those.
pub struct Awkward;

impl Work for Awkward {
    const REVISIONS: u32 = 7;

    const FIRST: u8 = b'2';

    const TURNED: u8 = 6;

    fn write(page: &mut Page) -> Result<(), AllocError> {
        for _ in 0..SIZE {
            if page.len() >= SIZE {
                break;
            }
            write_line(page)?;
        }
        Ok(())
    }

    fn read(_alloc: Global, text: &[u8], tally: &mut Tally) -> Result<(), AllocError> {
        let mut at = 0;
        for _ in 0..text.len() {
            if at >= text.len() {
                break;
            }
            at = read_line(text, at, tally);
        }
        Ok(())
    }
}

/// Adds a line.
fn write_line(page: &mut Page) -> Result<(), AllocError> {
    let place = page.random.below(KINDS.len() as u64) as usize;
    let kind = KINDS[place];
    page.bytes(&[kind, b'@', b'@'])?;
    let start = page.len();
    write_kind(page, kind)?;
    let length = page.len().saturating_sub(start);
    page.replace(start.saturating_sub(2), b'@' | ((length / 32) % 32) as u8);
    page.replace(start.saturating_sub(1), b'@' | (length % 32) as u8);
    page.byte(b'\n')
}

/// Adds a number of a kind.
fn write_kind(page: &mut Page, kind: u8) -> Result<(), AllocError> {
    match kind {
        b'b' => write_very_long(page),
        b'c' | b'o' => write_middle(page),
        b'd' => page.some_digits(20, 38),
        b'e' => {
            page.maybe(b'-', 2)?;
            page.some_digits(20, 39)
        }
        b'f' => {
            page.one_of(&["19", "80", "98", "89"])?;
            page.any_digits(18)
        }
        b'g' | b'h' => write_runs(page),
        b'i' => write_hexadecimal(page),
        b'j' => write_zeros(page),
        b'k' => write_grouped(page),
        b'l' => {
            page.some_digits(12, 40)?;
            page.one_of(&["x", "_", ".", "e", "-"])
        }
        _ => write_long(page),
    }
}

/// Lets each revision change all digits from a position on, if few of them are changed anyway.
fn free_few(page: &mut Page, from: usize) -> Result<(), AllocError> {
    if page.turned(from) < FEW {
        page.free(from, DIGITS)?;
    }
    Ok(())
}

/// Adds a float of 20 to 60 digits, with an exponent in some cases.
fn write_long(page: &mut Page) -> Result<(), AllocError> {
    page.some_digits(1, 12)?;
    page.places(19, 48)?;
    if page.random.one_in(3) {
        page.one_of(&["e", "e-", "E+"])?;
        page.some_digits(1, 3)?;
    }
    Ok(())
}

/// Adds a float of 100 to 800 digits in one case of four, or one of up to 100.
fn write_very_long(page: &mut Page) -> Result<(), AllocError> {
    page.some_digits(1, 20)?;
    if page.random.one_in(4) {
        page.places(100, 780)
    } else {
        page.places(40, 90)
    }
}

/// Adds an odd number between 2 to 53 and 2 to 54, which is halfway between two floats; what
/// follows the point keeps it there, or makes it more.
fn write_middle(page: &mut Page) -> Result<(), AllocError> {
    page.one_of(&["91", "98", "99", "100", "110", "180"])?;
    let start = page.len();
    page.any_digits(13)?;
    free_few(page, start)?;
    page.one_of(&["1", "9"])?;
    match page.random.below(3) {
        0 => page.bytes(b".000"),
        1 => {
            let zeros = page.random.between(5, 300);
            page.byte(b'.')?;
            page.zeros(zeros)?;
            page.byte(b'1')
        }
        _ => Ok(()),
    }
}

/// Adds digits with runs of separators.
fn write_runs(page: &mut Page) -> Result<(), AllocError> {
    let start = page.len();
    page.some_digits(1, 3)?;
    let groups = page.random.between(1, 4);
    for _ in 0..groups {
        let count = page.random.between(2, 40);
        page.separators(count)?;
        page.any_digits(3)?;
    }
    free_few(page, start)
}

/// Adds a hexadecimal float.
fn write_hexadecimal(page: &mut Page) -> Result<(), AllocError> {
    let start = page.len();
    page.one_of(&["0x1.", "0x0.", "0xF.ab", "0x1fc.", "0x123456789abcdef.0"])?;
    page.some_digits(1, 30)?;
    page.one_of(&["p", "p-", "p+"])?;
    page.some_digits(1, 4)?;
    free_few(page, start.saturating_add(2))
}

/// Adds a small number with many zeros before it, or zeros only. In each revision the last eight
/// digits are others: zeros only have an exponent for that.
fn write_zeros(page: &mut Page) -> Result<(), AllocError> {
    let zeros = page.random.between(10, 300);
    if page.random.one_in(4) {
        page.zeros(zeros.saturating_sub(9))?;
        return write_exponent(page);
    }
    let start = page.len();
    page.bytes(b"0.")?;
    page.zeros(zeros)?;
    page.some_digits(1, 18)?;
    if page.turned(start) < FEW {
        return free_last(page);
    }
    Ok(())
}

/// Lets each revision change the last eight digits.
fn free_last(page: &mut Page) -> Result<(), AllocError> {
    let from = page.len().saturating_sub(8);
    page.free(from, DIGITS)
}

/// Adds an exponent of eight digits, and leaves the chance of what follows as it was.
fn write_exponent(page: &mut Page) -> Result<(), AllocError> {
    page.byte(b'e')?;
    let random = page.random;
    page.any_digits(8)?;
    page.random = random;
    free_last(page)
}

/// Adds a float in groups of three.
fn write_grouped(page: &mut Page) -> Result<(), AllocError> {
    let start = page.len();
    page.some_digits(1, 3)?;
    let groups = page.random.between(1, 5);
    for _ in 0..groups {
        page.byte(b'_')?;
        page.any_digits(3)?;
    }
    page.byte(b'.')?;
    for _ in 0..groups {
        page.any_digits(3)?;
        page.byte(b'_')?;
    }
    page.any_digits(2)?;
    free_few(page, start)
}

/// A decimal word by a number, which no compiler knows.
#[inline(never)]
fn run_time_word(number: usize) -> u128
    ensures supported { IsTrue (is_supported result) }
    ensures decimal { IsDecimal result }
{
    match number {
        0 => STANDARD,
        1 => PYTHON_LITERAL,
        2 => JAVA_LITERAL,
        3 => RUST_LITERAL,
        4 => SWIFT_LITERAL,
        _ => PERL_LITERAL,
    }
}

/// A form by its number, which no compiler knows.
#[inline(never)]
fn run_time_form(number: usize) -> Form
    ensures { IsForm result }
{
    match form_of(number) {
        Some(form) => form,
        None => forms::STRTOD,
    }
}

/// Folds an error of a number by a form.
fn refuse_number(error: NumberError, tally: &mut Tally) {
    match error {
        NumberError::Empty(at) => tally.refuse(1, at),
        NumberError::Overflow(at) => tally.refuse(2, at),
        NumberError::Invalid(at) => tally.refuse(3, at),
    }
}

/// Folds an error of a float.
fn refuse_float(error: FloatError, tally: &mut Tally) {
    match error {
        FloatError::Empty(at) => tally.refuse(4, at),
        FloatError::EmptyExponent(at) => tally.refuse(5, at),
        FloatError::Invalid(at) => tally.refuse(6, at),
    }
}

/// Folds an error of an integer.
fn refuse_integer(error: LiteralError, tally: &mut Tally) {
    match error {
        LiteralError::Empty(at) => tally.refuse(7, at),
        LiteralError::Overflow(at) => tally.refuse(8, at),
    }
}

/// Folds what a field is as a float.
fn fold_float(read: Result<(f64, usize), FloatError>, tally: &mut Tally) {
    match read {
        Ok((x, end)) => tally.float(x, end),
        Err(error) => refuse_float(error, tally),
    }
}

/// Folds what a field is as a number.
fn fold_number(read: Result<(Number<f64>, usize), NumberError>, tally: &mut Tally) {
    match read {
        Ok((number, end)) => tally.number(number, end),
        Err(error) => refuse_number(error, tally),
    }
}

/// Reads a field as a float.
#[inline(always)]
fn parse_field(field: &[u8], tally: &mut Tally) {
    match parse_float::<f64>(field, STANDARD) {
        Ok(x) => tally.float(x, field.len()),
        Err(error) => refuse_float(error, tally),
    }
}

/// Reads a field as a float in groups.
#[inline(always)]
fn parse_grouped(field: &[u8], tally: &mut Tally) {
    match parse_float::<f64>(field, PYTHON_LITERAL) {
        Ok(x) => tally.float(x, field.len()),
        Err(error) => refuse_float(error, tally),
    }
}

/// Reads a field as a `u64`.
#[inline(always)]
fn parse_integer(field: &[u8], tally: &mut Tally) {
    match parse_number::<u64>(field, STANDARD) {
        Ok(value) => tally.read(value, field.len()),
        Err(ParseError::Empty(at)) => tally.refuse(9, at),
        Err(ParseError::Invalid(at)) => tally.refuse(10, at),
        Err(ParseError::Overflow(at)) => tally.refuse(11, at),
    }
}

/// Reads an `f32`.
#[inline(always)]
fn read_short(text: &[u8], at: usize, tally: &mut Tally)
    requires { at ≤ length text.now }
{
    match read_float_from::<f32>(text, STANDARD, at) {
        Ok((x, end)) => tally.short_float(x, end),
        Err(error) => refuse_float(error, tally),
    }
}

/// Reads a `u128`.
#[inline(always)]
fn read_wide(text: &[u8], at: usize, tally: &mut Tally)
    requires { at ≤ length text.now }
{
    match read_number_from::<u128>(text, STANDARD, at) {
        Ok((value, end)) => tally.wide(value, end),
        Err(error) => refuse_integer(error, tally),
    }
}

/// Reads an `i128`.
#[inline(always)]
fn read_signed(text: &[u8], at: usize, tally: &mut Tally)
    requires { at ≤ length text.now }
{
    match read_number_from::<i128>(text, STANDARD, at) {
        Ok((value, end)) => tally.wide(value.cast_unsigned(), end),
        Err(error) => refuse_integer(error, tally),
    }
}

/// Reads a `u64` with separators.
#[inline(always)]
fn read_grouped(text: &[u8], at: usize, word: u128, tally: &mut Tally)
    requires within { at ≤ length text.now }
    requires word { IsTrue (is_supported word) }
{
    match read_number_from::<u64>(text, word, at) {
        Ok((value, end)) => tally.read(value, end),
        Err(error) => refuse_integer(error, tally),
    }
}

/// Reads a number before rounding, by a word.
#[inline(always)]
fn read_decimal(text: &[u8], at: usize, word: u128, tally: &mut Tally)
    requires within { at ≤ length text.now }
    requires supported { IsTrue (is_supported word) }
    requires decimal { IsDecimal word }
{
    match read_decimal_from(text, word, at) {
        Ok((decimal, end)) => {
            tally.fold_with(u64::from(decimal.negative), decimal.dropped);
            tally.fold(decimal.value);
            tally.read(decimal.exponent.cast_unsigned(), end);
        }
        Err(error) => refuse_float(error, tally),
    }
}

/// The position after the prefix here, or where a byte of it is missing.
#[inline(always)]
fn past_prefix(text: &[u8], at: usize) -> Result<usize, usize>
    ensures { IfOk result (λ next. next ≤ length text.now) }
{
    let mark = expect_byte(text, at, b'0')?;
    expect_byte(text, mark, b'x')
}

/// Reads a hexadecimal float after its prefix.
#[inline(always)]
fn read_after_prefix(text: &[u8], at: usize, tally: &mut Tally)
    requires { at ≤ length text.now }
{
    let marks = Marks {
        point: b'.',
        exponent: b'p',
    };
    match past_prefix(text, at) {
        Ok(start) => {
            let read = read_hex_float_from::<f64>(text, HEXADECIMAL_FLOAT, marks, false, start);
            fold_float(read, tally);
        }
        Err(at) => tally.refuse(12, at),
    }
}

/// Reads a hexadecimal float, in one case of two by a form of which no compiler knows.
#[inline(always)]
fn read_hexadecimal(text: &[u8], at: usize, case: usize, tally: &mut Tally)
    requires { at ≤ length text.now }
{
    match case {
        0 => read_after_prefix(text, at, tally),
        1 => fold_number(read_number_of::<f64>(text, at, forms::C99), tally),
        2 => fold_number(read_number_of::<f64>(text, at, run_time_form(7)), tally),
        _ => fold_number(read_number_of::<f64>(text, at, run_time_form(49)), tally),
    }
}

/// Reads a number of a kind from the field that begins at a position.
fn read_kind(text: &[u8], at: usize, field: &[u8], kind: u8, tally: &mut Tally)
    requires { at ≤ length text.now }
{
    let size = field.len();
    match kind {
        b'a' => parse_field(field, tally),
        b'b' | b'c' => fold_float(read_float_from::<f64>(text, STANDARD, at), tally),
        b'd' => read_wide(text, at, tally),
        b'e' => read_signed(text, at, tally),
        b'f' => parse_integer(field, tally),
        b'g' => read_grouped(text, at, JAVA_LITERAL, tally),
        b'h' => read_grouped(text, at, run_time_word(size % 6), tally),
        b'i' => read_hexadecimal(text, at, size % 4, tally),
        b'j' => parse_field(field, tally),
        b'k' => parse_grouped(field, tally),
        b'l' => parse_field(field, tally),
        b'm' => read_short(text, at, tally),
        b'n' => read_decimal(text, at, run_time_word(size % 6), tally),
        b'o' => fold_number(read_number_of::<f64>(text, at, forms::JSON), tally),
        _ => fold_number(
            read_number_of::<f64>(text, at, run_time_form(49 + size % 7)),
            tally,
        ),
    }
}

/// Five bits of a length.
#[inline(always)]
fn length_bits(text: &[u8], at: usize) -> usize {
    usize::from(byte_at(text, at).unwrap_or(0) & 31)
}

/// Reads the line that begins here. Answers where it ends.
fn read_line(text: &[u8], at: usize, tally: &mut Tally) -> usize
    requires { at ≤ length text.now }
{
    let kind = byte_at(text, at).unwrap_or(0);
    let high = length_bits(text, at.saturating_add(1));
    let size = high.wrapping_mul(32) | length_bits(text, at.saturating_add(2));
    let start = at.saturating_add(3);
    let end = start.saturating_add(size);
    if start > end || end > text.len() {
        return text.len();
    }
    read_kind(text, start, &text[start..end], kind, tally);
    end.saturating_add(1)
}

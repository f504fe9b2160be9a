//! Lists of numbers, into places of the caller.

ghost use Rattle.std.specs.Prelude.{◌≡◌, ◌^◌, ◌-◌, length, pos, Some};
ghost use Rattle.std.specs.Float.{binary64};
ghost use Rattle.digits.specs.Words.{IsForm, form_of};
ghost use Rattle.digits_c.specs.Lists.{only, gap_of, end_of, integers_from, floats_from, Fills};
ghost use Rattle.digits_c.specs.Lists.{numbers_from, numbers_by};
ghost use Rattle.digits_c.specs.Outcomes.{literal_fault, float_fault, number_fault};

use super::numbers::NumberParts;
use super::outcome::{BAD_FORM, BAD_START, FULL, Outcome};
use super::parts::Parts;
use super::source::{FormSource, Json};
use digits::{
    ByteSet, COMMAS, Float, FloatError, Gap, Integer, LINES, ListEnd, LiteralError, NumberError,
    STANDARD, WHITESPACE, form_of, read_float_list, read_list, read_list_by,
};

/// The set of one byte.
#[inline(always)]
fn only(byte: u8) -> ByteSet
    ensures { result ≡ only byte }
{
    if byte < 128 {
        ByteSet {
            low: 1 << byte,
            high: 0,
        }
    } else {
        ByteSet {
            low: 0,
            high: 1 << (byte - 128),
        }
    }
}

/// What is between two numbers, by a byte: blanks, the end of a line, or that byte.
#[inline(always)]
pub(super) fn gap_of(byte: u8) -> Gap
    ensures { result ≡ gap_of byte }
{
    match byte {
        b' ' => WHITESPACE,
        b'\n' => LINES,
        _ => Gap {
            separators: only(byte),
            ..COMMAS
        },
    }
}

impl Outcome {
    /// Of a list of integers.
    #[inline(always)]
    pub(super) fn of_integers(end: ListEnd<LiteralError>) -> Outcome
        ensures { result ≡ end_of literal_fault end }
    {
        match end {
            ListEnd::Full(at) => Outcome::fault(FULL, at),
            ListEnd::Over(at) => Outcome::done(at),
            ListEnd::Fault(error) => Outcome::of_literal(error),
        }
    }

    /// Of a list of floats.
    #[inline(always)]
    pub(super) fn of_floats(end: ListEnd<FloatError>) -> Outcome
        ensures { result ≡ end_of float_fault end }
    {
        match end {
            ListEnd::Full(at) => Outcome::fault(FULL, at),
            ListEnd::Over(at) => Outcome::done(at),
            ListEnd::Fault(error) => Outcome::of_float(error),
        }
    }

    /// Of a list of numbers by a form.
    #[inline(always)]
    pub(super) fn of_numbers(end: ListEnd<NumberError>) -> Outcome
        ensures { result ≡ end_of number_fault end }
    {
        match end {
            ListEnd::Full(at) => Outcome::fault(FULL, at),
            ListEnd::Over(at) => Outcome::done(at),
            ListEnd::Fault(error) => Outcome::of_number(error),
        }
    }
}

/// The integers of a list that begins at a start, as many as there are places.
#[inline(always)]
fn read_integers<T: Integer>(
    text: &[u8],
    start: usize,
    between: u8,
    numbers: &mut [T],
    count: &mut usize,
) -> Outcome
    ensures { let room = length numbers.old in
        let list = integers_from text.now start between room T.MIN_MAGNITUDE T.MAX in
        Fills T.number list count.new numbers.old numbers.new result }
{
    *count = 0;
    if start > text.len() {
        return Outcome::fault(BAD_START, start);
    }
    let list = read_list::<T>(text, start, STANDARD, gap_of(between), numbers);
    *count = list.count;
    Outcome::of_integers(list.end)
}

/// The `i64` of a list that begins at a start, as many as there are places.
#[unsafe(no_mangle)]
pub extern "C" fn digits_read_i64_list(
    text: &[u8],
    start: usize,
    between: u8,
    numbers: &mut [i64],
    count: &mut usize,
) -> Outcome
    ensures { let room = length numbers.old in
        let list = integers_from text.now start between room (2 ^ 63) (2 ^ 63 - 1) in
        Fills (λ n. n) list count.new numbers.old numbers.new result }
{
    read_integers::<i64>(text, start, between, numbers, count)
}

/// The `u64` of a list that begins at a start, as many as there are places.
#[unsafe(no_mangle)]
pub extern "C" fn digits_read_u64_list(
    text: &[u8],
    start: usize,
    between: u8,
    numbers: &mut [u64],
    count: &mut usize,
) -> Outcome
    ensures { let room = length numbers.old in
        let list = integers_from text.now start between room 0 (2 ^ 64 - 1) in
        Fills pos list count.new numbers.old numbers.new result }
{
    read_integers::<u64>(text, start, between, numbers, count)
}

/// The floats of a list that begins at a start, as many as there are places.
#[inline(always)]
fn read_floats<F: Float>(
    text: &[u8],
    start: usize,
    between: u8,
    numbers: &mut [F],
    count: &mut usize,
) -> Outcome
    ensures { let room = length numbers.old in
        let list = floats_from text.now start between room F.format in
        Fills F.value list count.new numbers.old numbers.new result }
{
    *count = 0;
    if start > text.len() {
        return Outcome::fault(BAD_START, start);
    }
    let list = read_float_list::<F>(text, start, STANDARD, gap_of(between), numbers);
    *count = list.count;
    Outcome::of_floats(list.end)
}

/// The `f64` of a list that begins at a start, as many as there are places.
#[unsafe(no_mangle)]
pub extern "C" fn digits_read_f64_list(
    text: &[u8],
    start: usize,
    between: u8,
    numbers: &mut [f64],
    count: &mut usize,
) -> Outcome
    ensures { let room = length numbers.old in
        let list = floats_from text.now start between room binary64 in
        Fills (λ x. x) list count.new numbers.old numbers.new result }
{
    read_floats::<f64>(text, start, between, numbers, count)
}

/// The numbers of a list by a form, as many as there are places.
#[inline(always)]
fn read_numbers<S: FormSource>(
    text: &[u8],
    start: usize,
    source: S,
    between: u8,
    numbers: &mut [NumberParts],
    count: &mut usize,
) -> Outcome
    requires { IsForm (S.form source) }
    ensures { let room = length numbers.old in
        let list = numbers_from text.now start between room (S.form source) in
        Fills (λ n. n) list count.new numbers.old numbers.new result }
{
    *count = 0;
    if start > text.len() {
        return Outcome::fault(BAD_START, start);
    }
    let list = read_list_by(Parts { source }, text, start, gap_of(between), numbers);
    *count = list.count;
    Outcome::of_numbers(list.end)
}

/// The numbers of a list by a form with a number, by code for all forms.
#[inline(never)]
fn read_numbers_by(
    text: &[u8],
    start: usize,
    form: u32,
    between: u8,
    numbers: &mut [NumberParts],
    count: &mut usize,
) -> Outcome
    ensures { let room = length numbers.old in
        let list = numbers_by text.now start between room (form_of form) in
        Fills (λ n. n) list count.new numbers.old numbers.new result }
{
    match form_of(form as usize) {
        Some(form) => read_numbers(text, start, form, between, numbers, count),
        None => {
            *count = 0;
            Outcome::fault(BAD_FORM, start)
        }
    }
}

/// The numbers of a list by a form, as many as there are places. There is code of its own for JSON.
#[unsafe(no_mangle)]
#[tactic(auto, unfolding(crate::proofs::OnWords::on_forms))]
pub extern "C" fn digits_read_number_list(
    text: &[u8],
    start: usize,
    form: u32,
    between: u8,
    numbers: &mut [NumberParts],
    count: &mut usize,
) -> Outcome
    ensures { let room = length numbers.old in
        let list = numbers_by text.now start between room (form_of form) in
        Fills (λ n. n) list count.new numbers.old numbers.new result }
{
    match form {
        38 => read_numbers(text, start, Json, between, numbers, count),
        _ => read_numbers_by(text, start, form, between, numbers, count),
    }
}

//! What is written: the totals, or why there are none.

ghost use Rattle.std.specs.Prelude.{◌≡◌, ◌<◌, ◌≤◌, ◌++◌, ◌-◌, replicate, take, length, is_nan, IfOk, IsTrue, OnOk, string_bytes};
ghost use Rattle.std.specs.Float.{float_is_finite, float_is_infinite};
ghost use Rattle.float_writers.specs.declared.write.TheConstants.{PLAIN_ROOM};
ghost use Rattle.digit_totals.specs.Text as Text;
ghost use Rattle.digit_totals.specs.Value.{HasFewPlaces};

use super::error_kind::words_of;
use super::fault::{Fault, LineFault, NumberError};
use super::options::{Column, Kind};
use super::totals::{FloatTotals, Totals};
use digit_words::powers::wide_ten_to;
use float_writers::{FloatLayout, PLAIN_ROOM, write_float};
use std::alloc::{AllocError, Allocator};
use std::io::ErrorKind;

/// Adds `count` zeros to a text.
fn push_zeros<A: Allocator>(text: &mut String<A>, count: usize) -> Result<(), AllocError>
    ensures { OnOk result (string_bytes text.new ≡ string_bytes text.old ++ replicate count 48) }
{
    for _ in 0..count {
        text.push_str("0")?;
    }
    Ok(())
}

/// So many of the last place, with a point before the places.
#[tactic(auto, unfolding(crate::specs::Text::with_point))]
fn with_point<A: Allocator>(alloc: &A, places: usize, value: i128) -> Result<String<&A>, AllocError>
    requires { places ≤ 38 }
    ensures { IfOk result (λ text. string_bytes text ≡ Text.with_point places value) }
{
    let magnitude = value.unsigned_abs();
    let unit = wide_ten_to(places);
    let whole = magnitude / unit;
    let part = magnitude % unit;
    let sign = if value < 0 { "-" } else { "" };
    let digits = format!(in alloc; "{part}")?;
    let mut text = format!(in alloc; "{sign}{whole}.")?;
    push_zeros(&mut text, places.saturating_sub(digits.len()))?;
    text.push_str(digits.as_str())?;
    Ok(text)
}

/// The text of an integer, or of a decimal number, whose value is in units of its last place.
#[tactic(auto, unfolding(crate::specs::Text::amount))]
fn amount<A: Allocator>(alloc: &A, kind: Kind, value: i128) -> Result<String<&A>, AllocError>
    requires { HasFewPlaces kind }
    ensures { IfOk result (λ text. string_bytes text ≡ Text.amount kind value) }
{
    match kind {
        Kind::Places(places) if places > 0 => with_point(alloc, places, value),
        _ => format!(in alloc; "{value}"),
    }
}

/// The least or the greatest of some numbers; of none a `-`.
#[tactic(auto, unfolding(crate::specs::Text::amount_of_some))]
fn amount_of_some<A: Allocator>(
    alloc: &A,
    count: u128,
    kind: Kind,
    value: i128,
) -> Result<String<&A>, AllocError>
    requires { HasFewPlaces kind }
    ensures { IfOk result (λ text. string_bytes text ≡ Text.amount_of_some count kind value) }
{
    if count == 0 {
        String::from_str(alloc, "-")
    } else {
        amount(alloc, kind, value)
    }
}

/// A count and a sum, with their names.
#[tactic(auto, unfolding(crate::specs::Text::count_and_sum))]
pub fn count_and_sum<'a, A: Allocator>(
    alloc: &'a A,
    count: u128,
    sum: &[u8],
) -> Result<Vec<u8, &'a A>, AllocError>
    ensures { IfOk result (λ text. text.items ≡ Text.count_and_sum count sum.now) }
{
    let front = format!(in alloc; "count={count} sum=")?;
    let mut text = front.into_bytes();
    text.extend_from_slice(sum)?;
    Ok(text)
}

/// The least and the greatest amount, with their names, and the line feed.
#[tactic(auto, unfolding(crate::specs::Text::extremes))]
pub fn extremes<'a, A: Allocator>(
    alloc: &'a A,
    least: &[u8],
    greatest: &[u8],
) -> Result<Vec<u8, &'a A>, AllocError>
    ensures { IfOk result (λ text. text.items ≡ Text.extremes least.now greatest.now) }
{
    let mut text = Vec::new(alloc);
    text.extend_from_slice(b" min=")?;
    text.extend_from_slice(least)?;
    text.extend_from_slice(b" max=")?;
    text.extend_from_slice(greatest)?;
    text.extend_from_slice(b"\n")?;
    Ok(text)
}

/// The line of the totals without its end.
fn line_front<A: Allocator>(
    alloc: &A,
    kind: Kind,
    totals: Totals,
) -> Result<Vec<u8, &A>, AllocError>
    requires { HasFewPlaces kind }
    ensures { IfOk result (λ text.
        text.items ≡ Text.count_and_sum totals.count (Text.amount kind totals.sum)) }
{
    let sum = amount(alloc, kind, totals.sum)?;
    count_and_sum(alloc, totals.count, sum.as_bytes())
}

/// The end of the line of the totals.
fn line_end<A: Allocator>(alloc: &A, kind: Kind, totals: Totals) -> Result<Vec<u8, &A>, AllocError>
    requires { HasFewPlaces kind }
    ensures { IfOk result (λ text. text.items
        ≡ Text.extremes (Text.amount_of_some totals.count kind totals.least)
        (Text.amount_of_some totals.count kind totals.greatest)) }
{
    let least = amount_of_some(alloc, totals.count, kind, totals.least)?;
    let greatest = amount_of_some(alloc, totals.count, kind, totals.greatest)?;
    extremes(alloc, least.as_bytes(), greatest.as_bytes())
}

/// The line of the totals.
pub fn line_of<A: Allocator>(
    alloc: &A,
    kind: Kind,
    totals: Totals,
) -> Result<Vec<u8, &A>, AllocError>
    requires { HasFewPlaces kind }
    ensures { IfOk result (λ text. text.items ≡ Text.line_of kind totals) }
{
    let mut line = line_front(alloc, kind, totals)?;
    let end = line_end(alloc, kind, totals)?;
    line.extend_from_slice(end.as_slice())?;
    Ok(line)
}

/// The text of an infinity.
fn infinity_text(value: f64) -> &'static [u8]
    requires { IsTrue (float_is_infinite value) }
    ensures { Text.IsTextOf value result.now }
{
    if value.is_sign_negative() {
        b"-inf".as_slice()
    } else {
        b"inf".as_slice()
    }
}

/// The text of what is not a number.
fn nan_text(value: f64) -> &'static [u8]
    requires { IsTrue (is_nan value) }
    ensures { Text.IsTextOf value result.now }
{
    b"NaN".as_slice()
}

/// Writes the shortest text of a finite number to the front of a slice, and answers its length.
fn write_text(value: f64, out: &mut [u8]) -> usize
    requires finite { IsTrue (float_is_finite value) }
    requires room { PLAIN_ROOM ≤ length out.old }
    ensures text { Text.IsTextOf value (take result out.new) }
    ensures within { result ≤ length out.old }
{
    match write_float(value, FloatLayout::Plain, out) {
        Ok(len) => len,
        Err(_) => unreachable!(),
    }
}

/// The shortest text of a float.
#[tactic(auto, using(crate::proofs::FloatTexts::others_are_finite))]
fn float_text<A: Allocator>(alloc: &A, value: f64) -> Result<Vec<u8, &A>, AllocError>
    ensures { IfOk result (λ text. Text.IsTextOf value text.items) }
{
    if value.is_infinite() {
        return Vec::from_slice(alloc, infinity_text(value));
    }
    if value.is_nan() {
        return Vec::from_slice(alloc, nan_text(value));
    }
    let mut out = [0; PLAIN_ROOM];
    let len = write_text(value, &mut out);
    Vec::from_slice(alloc, &out[..len])
}

/// The least or the greatest of some floats; of none a `-`.
fn text_of_some<A: Allocator>(alloc: &A, count: u128, value: f64) -> Result<Vec<u8, &A>, AllocError>
    ensures { IfOk result (λ text. Text.IsTextOfSome count value text.items) }
{
    if count == 0 {
        Vec::from_slice(alloc, b"-")
    } else {
        float_text(alloc, value)
    }
}

/// The line of the totals.
pub fn float_line<A: Allocator>(alloc: &A, totals: FloatTotals) -> Result<Vec<u8, &A>, AllocError>
    ensures { IfOk result (λ line. Text.IsFloatLineOf totals line.items) }
{
    let sum = float_text(alloc, totals.sum)?;
    let least = text_of_some(alloc, totals.count, totals.least)?;
    let greatest = text_of_some(alloc, totals.count, totals.greatest)?;
    let mut line = count_and_sum(alloc, totals.count, sum.as_slice())?;
    let end = extremes(alloc, least.as_slice(), greatest.as_slice())?;
    line.extend_from_slice(end.as_slice())?;
    Ok(line)
}

/// What is wrong with a line.
fn message<A: Allocator>(alloc: &A, error: NumberError) -> Result<String<&A>, AllocError>
    ensures { IfOk result (λ text. string_bytes text ≡ Text.message error) }
{
    match error {
        NumberError::Missing => String::from_str(alloc, "there is no such column"),
        NumberError::Quoted(column) => {
            format!(in alloc; "column {column} begins with a quote, and no quotes are read")
        }
        NumberError::OpenQuotes => {
            String::from_str(
                alloc,
                "the line ends inside quotes, and no line feed is read there",
            )
        }
        NumberError::WrongQuote => String::from_str(
            alloc,
            "a quote neither begins nor ends a column, and is not doubled inside quotes",
        ),
        NumberError::Integer(error) => format!(in alloc; "{error}"),
        NumberError::Decimal(error) => format!(in alloc; "{error}"),
        NumberError::Float(error) => format!(in alloc; "{error}"),
    }
}

/// The place of a fault: its line and its column.
fn place<A: Allocator>(
    alloc: &A,
    column: Option<Column>,
    line: u128,
) -> Result<String<&A>, AllocError>
    ensures { IfOk result (λ text. string_bytes text ≡ Text.place column line) }
{
    match column {
        None => format!(in alloc; "error: line {line}: "),
        Some(column) => {
            let number = column.number;
            format!(in alloc; "error: line {line}, column {number}: ")
        }
    }
}

/// The place of a fault, and what is wrong.
fn told<'a, A: Allocator>(
    alloc: &'a A,
    column: Option<Column>,
    line: u128,
    what: &str,
) -> Result<String<&'a A>, AllocError>
    ensures { IfOk result (λ text. string_bytes text ≡ Text.told column line what.now) }
{
    let place = place(alloc, column, line)?;
    format!(in alloc; "{place}{what}\n")
}

/// The line that is written for a line without a number.
fn number_line<A: Allocator>(
    alloc: &A,
    column: Option<Column>,
    line: u128,
    error: NumberError,
) -> Result<String<&A>, AllocError>
    ensures { IfOk result (λ text. string_bytes text ≡ Text.told column line (Text.message error)) }
{
    let message = message(alloc, error)?;
    told(alloc, column, line, message.as_str())
}

/// The line that is written where a read or a write failed.
fn failed<'a, A: Allocator>(
    alloc: &'a A,
    call: &str,
    kind: ErrorKind,
) -> Result<String<&'a A>, AllocError>
    ensures { IfOk result (λ text. string_bytes text ≡ Text.failed call.now kind) }
{
    let words = words_of(kind);
    format!(in alloc; "error: {call} failed: {words}\n")
}

/// The line that is written for the fault of a line.
fn line_fault<A: Allocator>(
    alloc: &A,
    column: Option<Column>,
    fault: LineFault,
) -> Result<String<&A>, AllocError>
    ensures { IfOk result (λ text. string_bytes text ≡ Text.line_fault column fault) }
{
    match fault {
        LineFault::Number(line, error) => number_line(alloc, column, line, error),
        LineFault::Sum(line) => told(alloc, column, line, "the sum leaves 128 bits"),
        LineFault::LongLine(line) => told(alloc, column, line, "the line is too long"),
    }
}

/// The line that is written for a fault.
pub fn error_line<A: Allocator>(
    alloc: &A,
    column: Option<Column>,
    fault: Fault,
) -> Result<String<&A>, AllocError>
    ensures { IfOk result (λ text. string_bytes text ≡ Text.error_line column fault) }
{
    match fault {
        Fault::Line(fault) => line_fault(alloc, column, fault),
        Fault::Read(kind) => failed(alloc, "read", kind),
        Fault::Write(kind) => failed(alloc, "write", kind),
        Fault::Memory => String::from_str(alloc, "error: out of memory\n"),
    }
}

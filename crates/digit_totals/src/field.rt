//! The place of a column in a line.

ghost use Rattle.std.specs.Prelude.{◌≡◌, ◌+◌, ◌-◌, ◌<◌, ◌≤◌, ℕ, List, ◌∷◌, length, drop, slice_range, Some, Err, IfOk, MatchResult};
ghost use Rattle.digit_totals.specs.Field.{fields_of, first_quoted, is_quoted, nth_span, plain_span, span_in, unless_quoted};

use super::csv::find_csv;
use super::fault::NumberError;
use super::options::Column;
use super::search::find;
use digit_values::{BLANKS, has_byte, past_bytes};

/// Whether a field begins with a quote, after any blanks. Most begin with a later byte.
#[inline(always)]
#[tactic(auto, using(crate::proofs::InLine::no_quote))]
fn is_quoted(field: &[u8]) -> bool
    ensures { result ≡ is_quoted field.now }
{
    if !field.is_empty() && field[0] > b'"' {
        return false;
    }
    has_byte(field, past_bytes(field, 0, BLANKS), b'"')
}

/// The start of the field of a line that has `before` fields before it, of which none begins with a
/// quote.
#[tactic(auto, using(crate::proofs::Fields::spans))]
fn find_start(line: &[u8], separator: u8, before: usize) -> Result<usize, NumberError>
    ensures is { let fields = fields_of separator line.now in
        let read = unless_quoted (first_quoted 1 before fields) (nth_span 0 before fields) in
        MatchResult result
        (λ start. let rest = fields_of separator (drop start line.now) in
        read ≡ unless_quoted (first_quoted (before + 1) 0 rest) (nth_span start 0 rest))
        (λ error. read ≡ Err error) }
    ensures within { IfOk result (λ start. start ≤ length line.now) }
{
    let mut start = 0;
    for passed in 0..before {
        let rest = &line[start..];
        match find(rest, separator) {
            Some(count) => {
                if is_quoted(&rest[..count]) {
                    return Err(NumberError::Quoted(passed + 1));
                }
                start += count + 1;
            }
            None => {
                if is_quoted(rest) {
                    return Err(NumberError::Quoted(passed + 1));
                }
                return Err(NumberError::Missing);
            }
        }
    }
    Ok(start)
}

/// The end of the field that begins at `start`.
#[inline]
fn find_end(line: &[u8], separator: u8, start: usize) -> usize
    requires { start ≤ length line.now }
    ensures is { (others : List (List ℕ))
        × (fields_of separator (drop start line.now)
        ≡ slice_range line.now start result ∷ others) }
    ensures order { start ≤ result }
    ensures within { result ≤ length line.now }
{
    match find(&line[start..], separator) {
        Some(count) => start + count,
        None => line.len(),
    }
}

/// The start and the end of a column in a line without CSV, or why it isn't read.
#[tactic(auto, using(crate::proofs::Fields::spans))]
fn find_plain(column: Column, line: &[u8]) -> Result<(usize, usize), NumberError>
    ensures is { result ≡ plain_span column line.now }
    ensures within { IfOk result (λ span. (span.0 ≤ span.1) × (span.1 ≤ length line.now)) }
{
    let before = column.number.saturating_sub(1);
    let start = match find_start(line, column.separator, before) {
        Ok(start) => start,
        Err(error) => return Err(error),
    };
    let end = find_end(line, column.separator, start);
    if is_quoted(&line[start..end]) {
        return Err(NumberError::Quoted(before + 1));
    }
    Ok((start, end))
}

/// The start and the end of a column in a line, or why it isn't read. Without a column it is the
/// whole line.
#[inline(always)]
pub fn find_span(column: Option<Column>, line: &[u8]) -> Result<(usize, usize), NumberError>
    ensures is { result ≡ span_in column line.now }
    ensures within { IfOk result (λ span. (span.0 ≤ span.1) × (span.1 ≤ length line.now)) }
{
    match column {
        Some(column) => {
            if column.csv {
                find_csv(column, line)
            } else {
                find_plain(column, line)
            }
        }
        None => Ok((0, line.len())),
    }
}

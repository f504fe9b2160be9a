//! The place of a column in a line of CSV, as RFC 4180 says: a field may be in quotes, a separator
//! inside them parts nothing, and a quote inside them is doubled.

ghost use Rattle.std.specs.Prelude.{◌≡◌, ◌+◌, ◌<◌, ◌≤◌, ◌^◌, length, IfOk, IfSome};
ghost use Rattle.digit_totals.specs.declared.csv.Place.TheVariants.{Start};
ghost use Rattle.digit_totals.specs.CsvSearch as Csv;
ghost use Rattle.digit_totals.specs.Field as Field;

use super::fault::NumberError;
use super::options::Column;
use digit_values::has_byte;

/// Where a line is after some of its bytes.
#[derive(Clone, Copy)]
pub enum Place {
    /// Where a field begins.
    Start,
    /// In a field without quotes.
    Plain,
    /// Inside the quotes of a field.
    Quoted,
    /// After a quote inside them: it ends the field, or it is doubled.
    Closed,
    /// After a quote that is neither.
    Wrong,
}

/// A column that is looked for, after some bytes of a line.
#[derive(Clone, Copy)]
pub struct Sought {
    pub place: Place,
    /// How many fields are still before the column.
    pub left: usize,
    /// Where the field began that the line is in.
    pub start: usize,
    /// Where the column is, if it has ended.
    pub found: Option<(usize, usize)>,
}

impl Place {
    /// Where the line is after one byte more.
    #[inline(always)]
    fn after(self, separator: u8, byte: u8) -> Place
        ensures { result ≡ Field.after separator self byte }
    {
        match self {
            Place::Start => {
                if byte == b'"' {
                    Place::Quoted
                } else if byte == separator {
                    Place::Start
                } else {
                    Place::Plain
                }
            }
            Place::Plain => {
                if byte == b'"' {
                    Place::Wrong
                } else if byte == separator {
                    Place::Start
                } else {
                    Place::Plain
                }
            }
            Place::Quoted => {
                if byte == b'"' {
                    Place::Closed
                } else {
                    Place::Quoted
                }
            }
            Place::Closed => {
                if byte == b'"' {
                    Place::Quoted
                } else if byte == separator {
                    Place::Start
                } else {
                    Place::Wrong
                }
            }
            Place::Wrong => Place::Wrong,
        }
    }
}

impl Sought {
    /// At another place.
    #[inline(always)]
    fn at_place(self, place: Place) -> Sought
        ensures is { result ≡ Csv.at_place place self }
        ensures start { result.start ≡ self.start }
        ensures found { result.found ≡ self.found }
    {
        Sought {
            place,
            left: self.left,
            start: self.start,
            found: self.found,
        }
    }

    /// A field ends at a position, and another begins after the byte there.
    #[inline(always)]
    fn ended(self, at: usize) -> Sought
        requires more { at + 1 < 2 ^ 64 }
        requires order { self.start ≤ at }
        requires within { IfSome self.found (λ span. (span.0 ≤ span.1) × (span.1 ≤ at)) }
        ensures is { result ≡ Csv.ended self at }
        ensures order { result.start ≤ at + 1 }
        ensures within { IfSome result.found (λ span. (span.0 ≤ span.1) × (span.1 ≤ at + 1)) }
    {
        match self.found {
            Some(_) => self,
            None => {
                if self.left == 0 {
                    Sought {
                        place: self.place,
                        left: 0,
                        start: self.start,
                        found: Some((self.start, at)),
                    }
                } else {
                    Sought {
                        place: self.place,
                        left: self.left - 1,
                        start: at + 1,
                        found: None,
                    }
                }
            }
        }
    }

    /// After the byte at a position.
    #[inline(always)]
    fn with_byte(self, separator: u8, byte: u8, at: usize) -> Sought
        requires more { at + 1 < 2 ^ 64 }
        requires order { self.start ≤ at }
        requires within { IfSome self.found (λ span. (span.0 ≤ span.1) × (span.1 ≤ at)) }
        ensures is { result ≡ Csv.with_byte separator self byte at }
        ensures order { result.start ≤ at + 1 }
        ensures within { IfSome result.found (λ span. (span.0 ≤ span.1) × (span.1 ≤ at + 1)) }
    {
        match self.place.after(separator, byte) {
            Place::Start => self.at_place(Place::Start).ended(at),
            Place::Plain => self.at_place(Place::Plain),
            Place::Quoted => self.at_place(Place::Quoted),
            Place::Closed => self.at_place(Place::Closed),
            Place::Wrong => self.at_place(Place::Wrong),
        }
    }

    /// Where the column is, if the line ends at a position.
    fn end_span(self, end: usize) -> Option<(usize, usize)>
        requires order { self.start ≤ end }
        requires within { IfSome self.found (λ span. (span.0 ≤ span.1) × (span.1 ≤ end)) }
        ensures is { result ≡ Csv.end_span self end }
        ensures within { IfSome result (λ span. (span.0 ≤ span.1) × (span.1 ≤ end)) }
    {
        match self.found {
            Some(span) => Some(span),
            None => {
                if self.left == 0 {
                    Some((self.start, end))
                } else {
                    None
                }
            }
        }
    }
}

/// Looks for a column in a line, up to the end of the line.
fn look_for(line: &[u8], separator: u8, before: usize) -> Sought
    ensures place { result.place ≡ Field.end_of separator line.now }
    ensures span { Csv.end_span result (length line.now)
        ≡ Field.nth_span 0 before (Field.csv_fields separator Start line.now) }
    ensures order { result.start ≤ length line.now }
    ensures within { IfSome result.found (λ span.
        (span.0 ≤ span.1) × (span.1 ≤ length line.now)) }
{
    let mut sought = Sought {
        place: Place::Start,
        left: before,
        start: 0,
        found: None,
    };
    for at in 0..line.len() {
        sought = sought.with_byte(separator, line[at], at);
    }
    sought
}

/// A line without the carriage return before its line feed.
fn without_return(line: &[u8]) -> &[u8]
    ensures is { result.now ≡ Field.without_return line.now }
    ensures shorter { length result.now ≤ length line.now }
{
    let before = line.len().saturating_sub(1);
    if has_byte(line, before, b'\r') {
        &line[..before]
    } else {
        line
    }
}

/// What is between the quotes of a field. Without quotes it is the whole field.
fn between_quotes(line: &[u8], start: usize, end: usize) -> (usize, usize)
    requires order { start ≤ end }
    requires within { end ≤ length line.now }
    ensures is { result ≡ Field.between_quotes line.now (start, end) }
    ensures order { result.0 ≤ result.1 }
    ensures within { result.1 ≤ length line.now }
{
    if has_byte(line, start, b'"') {
        let first = start + 1;
        (first, first + (end - start).saturating_sub(2))
    } else {
        (start, end)
    }
}

/// Where a field is that is read, of a line with these quotes.
fn unless_wrong(
    line: &[u8],
    place: Place,
    span: Option<(usize, usize)>,
) -> Result<(usize, usize), NumberError>
    requires { IfSome span (λ span. (span.0 ≤ span.1) × (span.1 ≤ length line.now)) }
    ensures is { result ≡ Field.unless_wrong line.now place span }
    ensures within { IfOk result (λ span. (span.0 ≤ span.1) × (span.1 ≤ length line.now)) }
{
    match place {
        Place::Quoted => Err(NumberError::OpenQuotes),
        Place::Wrong => Err(NumberError::WrongQuote),
        Place::Start | Place::Plain | Place::Closed => match span {
            Some((start, end)) => Ok(between_quotes(line, start, end)),
            None => Err(NumberError::Missing),
        },
    }
}

/// The start and the end of a column in a line of CSV, or why it isn't read.
#[inline(never)]
pub fn find_csv(column: Column, line: &[u8]) -> Result<(usize, usize), NumberError>
    ensures is { result ≡ Field.csv_span column (Field.without_return line.now) }
    ensures within { IfOk result (λ span. (span.0 ≤ span.1) × (span.1 ≤ length line.now)) }
{
    let line = without_return(line);
    let sought = look_for(line, column.separator, column.number.saturating_sub(1));
    unless_wrong(line, sought.place, sought.end_span(line.len()))
}

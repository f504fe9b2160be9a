//! The blocks of the page CALLING.md, in its order. `.ci/pages` compares the two.
#![tactic(auto, unfolding(digits::proofs::Literals::lexical_on_literals))]

use digits::words::PYTHON_LITERAL;
use digits::{ParseError, parse_number};

/// Reads a text as a height: `-1_000` is -1000, and `1_000m` is `Invalid(5)`.
pub fn parse_height(text: &[u8]) -> Result<i32, ParseError> {
    parse_number::<i32>(text, PYTHON_LITERAL)
}

use digits::{LiteralError, expect_byte, read_number, read_number_from};

/// Why there is no size.
#[derive(Clone, Copy, Debug, PartialEq, Eq)]
pub enum SizeError {
    /// The width or the height is no number.
    Side(LiteralError),
    /// There is no `x` at this position.
    NoX(usize),
}

/// Reads the size at the front of a text, and returns where it ends: `1_920x1_080 px` gives
/// `(1920, 1080, 11)`.
pub fn read_size(text: &[u8]) -> Result<(u32, u32, usize), SizeError> {
    let number = read_number::<u32>(text, PYTHON_LITERAL);
    let (width, end) = number.map_err(SizeError::Side)?;
    let start = expect_byte(text, end, b'x').map_err(SizeError::NoX)?;
    let number = read_number_from::<u32>(text, PYTHON_LITERAL, start);
    let (height, end) = number.map_err(SizeError::Side)?;
    Ok((width, height, end))
}

ghost use Rattle.std.specs.Prelude.{◌≤◌, IfOk, length};

use digits::read_integer_from;

/// Why there is no percentage.
#[derive(Clone, Copy, Debug, PartialEq, Eq)]
pub enum PercentError {
    NoDigit(usize),
    Above100(usize),
}

/// Reads the percentage at `start`, and returns where it ends: `75%` gives `(75, 2)`.
pub fn read_percent(line: &[u8], start: usize) -> Result<(u8, usize), PercentError>
    requires { start ≤ length line.now }
    ensures { IfOk result (λ read. read.1 ≤ length line.now) }
{
    match read_integer_from(line, PYTHON_LITERAL, start, 100) {
        Ok((percent, end)) => Ok((percent as u8, end)),
        Err(LiteralError::Empty(at)) => Err(PercentError::NoDigit(at)),
        Err(LiteralError::Overflow(at)) => Err(PercentError::Above100(at)),
    }
}

use digits::{BLANKS, STANDARD, past_bytes};

/// Reads a text as a number, with any blanks around it: ` 12\r\n` is 12.
pub fn parse_trimmed(text: &[u8]) -> Result<i32, ParseError> {
    let start = past_bytes(text, 0, BLANKS);
    let (number, end) = read_number_from::<i32>(text, STANDARD, start)?;
    let rest = past_bytes(text, end, BLANKS);
    if rest < text.len() {
        return Err(ParseError::Invalid(rest));
    }
    Ok(number)
}

use digits::{NumberError, SPACES, forms, read_number_of};

/// Why a text is no length.
#[derive(Clone, Copy, Debug, PartialEq, Eq)]
pub enum LengthError {
    Value(NumberError),
    /// What begins at this position is no unit.
    Unit(usize),
}

/// Reads a text as a length in metres: `1.5m` is 1.5, `2 km` 2000.0, and `5µm` 0.000005. In `1.5`
/// the fault is `Unit(3)`.
pub fn parse_metres(text: &[u8]) -> Result<f64, LengthError> {
    let number = read_number_of::<f64>(text, 0, forms::FLOAT);
    let (number, end) = number.map_err(LengthError::Value)?;
    let unit = past_bytes(text, end, SPACES);
    let metres = number.to_float();
    match &text[unit..] {
        b"m" => Ok(metres),
        b"km" => Ok(metres * 1000.0),
        b"\xc2\xb5m" => Ok(metres / 1_000_000.0),
        _ => Err(LengthError::Unit(unit)),
    }
}

use digits::parse_number_from;

/// Reads a text as an address: where its host ends, and the port, which is 443 if there is none.
/// `[::]` isn't read: the host has no `:`. In `example.org:x` the fault is at 12.
pub fn parse_address(text: &[u8]) -> Result<(usize, u16), usize> {
    let Some(end) = text.iter().position(|byte| *byte == b':') else {
        return Ok((text.len(), 443));
    };
    let start = expect_byte(text, end, b':')?;
    let port = parse_number_from::<u16>(text, STANDARD, start).map_err(|error| error.position())?;
    if port == 0 {
        return Err(start);
    }
    Ok((end, port))
}

use digits::{expect_bytes, name_end};

/// Reads a line such as `timeout = 250 ms` as milliseconds, or returns the position of its first
/// fault: in `timeout = 250 h` that is 14.
pub fn parse_timeout(line: &[u8]) -> Result<u64, usize> {
    let at = past_bytes(line, 0, SPACES);
    let at = expect_bytes(line, at, b"timeout")?;
    let at = past_bytes(line, at, SPACES);
    let at = expect_byte(line, at, b'=')?;
    let start = past_bytes(line, at, SPACES);
    let number = read_number_from::<u64>(line, STANDARD, start);
    let (number, end) = number.map_err(|error| error.position())?;
    let unit = past_bytes(line, end, SPACES);
    let stop = name_end(line, unit);
    let factor = match &line[unit..stop] {
        b"ms" => 1,
        b"s" => 1000,
        _ => return Err(unit),
    };
    let rest = past_bytes(line, stop, SPACES);
    if rest < line.len() {
        return Err(rest);
    }
    number.checked_mul(factor).ok_or(start)
}

/// Adds up such lines, and skips empty ones. The error is the line and the column of the first
/// fault, both from 1: in `timeout = 1 s\ntimeout = 250 h\n` they are 2 and 15.
pub fn sum_timeouts(text: &[u8]) -> Result<u64, (usize, usize)> {
    let mut sum = 0u64;
    for (line, number) in text.split(|byte| *byte == b'\n').zip(1usize..) {
        let line = line.strip_suffix(b"\r").unwrap_or(line);
        if line.is_empty() {
            continue;
        }
        let time = parse_timeout(line).map_err(|at| (number, at.saturating_add(1)))?;
        sum = sum.checked_add(time).ok_or((number, 1))?;
    }
    Ok(sum)
}

use digits::read_exactly;

/// Reads the date at `start`, and returns where it ends: `2026-11-30,` gives
/// `((2026, 11, 30), 10)`. The error is the position of the fault. If there is no such month or
/// day, that is where it begins: 5 in `2026-13-01`, and 8 in `2026-02-29`.
pub fn read_date(text: &[u8], start: usize) -> Result<((u16, u8, u8), usize), usize> {
    let year = read_exactly::<u16>(text, start, 10, 4);
    let (year, at) = year.map_err(|error| error.position())?;
    let month_at = expect_byte(text, at, b'-')?;
    let month = read_exactly::<u8>(text, month_at, 10, 2);
    let (month, at) = month.map_err(|error| error.position())?;
    let day_at = expect_byte(text, at, b'-')?;
    let day = read_exactly::<u8>(text, day_at, 10, 2);
    let (day, end) = day.map_err(|error| error.position())?;
    let is_leap = year % 4 == 0 && (year % 100 != 0 || year % 400 == 0);
    let days = match month {
        1 | 3 | 5 | 7 | 8 | 10 | 12 => 31,
        4 | 6 | 9 | 11 => 30,
        2 if is_leap => 29,
        2 => 28,
        _ => return Err(month_at),
    };
    if day == 0 || day > days {
        return Err(day_at);
    }
    Ok(((year, month, day), end))
}

/// Reads two digits that are below a limit, and returns where they end.
fn read_below(text: &[u8], start: usize, limit: u8) -> Result<(u8, usize), usize> {
    let part = read_exactly::<u8>(text, start, 10, 2);
    let (part, end) = part.map_err(|error| error.position())?;
    if part >= limit {
        return Err(start);
    }
    Ok((part, end))
}

/// Reads the time at `start`, in seconds after midnight, and returns where it ends: `12:05:09`
/// gives `(43509, 8)`. In `12:60:00` the fault is at 3.
pub fn read_time(text: &[u8], start: usize) -> Result<(u32, usize), usize> {
    let (hour, at) = read_below(text, start, 24)?;
    let (minute, at) = read_below(text, expect_byte(text, at, b':')?, 60)?;
    let (second, end) = read_below(text, expect_byte(text, at, b':')?, 60)?;
    let minutes = u32::from(hour) * 60 + u32::from(minute);
    Ok((minutes * 60 + u32::from(second), end))
}

use digits::{Integers, has_byte, read_optional};

/// Reads a number with this unit, and returns where the unit ends; without such a part it returns 0
/// and `at`.
fn read_part(text: &[u8], at: usize, unit: u8) -> Result<(u32, usize), usize>
    requires { at ≤ length text.now }
    ensures { IfOk result (λ part. part.1 ≤ length text.now) }
{
    let number = read_optional(Integers::<u32>::new(STANDARD), text, at);
    match number.map_err(|error| error.position())? {
        Some((value, end)) if has_byte(text, end, unit) => Ok((value, end + 1)),
        _ => Ok((0, at)),
    }
}

/// Reads a text as seconds: `1h30m5s` is 5405, and `30m` 1800. In `1h5x` the fault is at 2, where
/// no part begins.
pub fn parse_span(text: &[u8]) -> Result<u64, usize> {
    let (hours, at) = read_part(text, 0, b'h')?;
    let (minutes, at) = read_part(text, at, b'm')?;
    let (seconds, end) = read_part(text, at, b's')?;
    if end == 0 || end < text.len() {
        return Err(end);
    }
    Ok(u64::from(hours) * 3600 + u64::from(minutes) * 60 + u64::from(seconds))
}

use digits::read_scaled_from;

/// Reads the rate at the front of a text, in thousandths, and returns where it ends:
/// `rate=12.5%;` gives `(125, 11)`. The error is the position of the fault: 9 in `rate=12.55%;`.
pub fn read_rate(text: &[u8]) -> Result<(u32, usize), usize> {
    let at = expect_bytes(text, 0, b"rate=")?;
    let rate = read_scaled_from::<u32>(text, STANDARD, at, b'.', 1);
    let (rate, at) = rate.map_err(|error| error.position())?;
    let end = expect_bytes(text, at, b"%;")?;
    Ok((rate, end))
}

/// Reads a text as a number of bytes, exactly: `512`, `4KiB`, `1.5MB`, which is 1500000. In `1.5B`
/// the fault is at 0: it is no whole number of bytes.
pub fn parse_size(text: &[u8]) -> Result<u64, usize> {
    // Nine places: any fraction of `MB` and `GB` is exact.
    let amount = read_scaled_from::<u128>(text, STANDARD, 0, b'.', 9);
    let (amount, end) = amount.map_err(|error| error.position())?;
    let unit = match &text[end..] {
        b"" | b"B" => 1u128,
        b"KiB" => 1024,
        b"MB" => 1_000_000,
        b"GB" => 1_000_000_000,
        _ => return Err(end),
    };
    let size = amount.checked_mul(unit).ok_or(0usize)?;
    if size % 1_000_000_000 != 0 {
        return Err(0);
    }
    u64::try_from(size / 1_000_000_000).map_err(|_| 0)
}

use digits::{
    INTEGER_INTERNAL_DIGIT_SEPARATOR, PriceError, ScaledError, parse_scaled, read_grouped_from,
    read_price_from,
};

/// Radix 10, and `,` between two digits: `1,234`.
pub const COMMA_DIGITS: u128 = (10 << 104)
    | ((b',' as u128) << 64)
    | INTEGER_INTERNAL_DIGIT_SEPARATOR;

/// Reads a text as a price, in cents: `1,234.50` is 123450.
pub fn parse_price(text: &[u8]) -> Result<i64, PriceError> {
    let (cents, end) = read_price_from::<i64>(text, COMMA_DIGITS, 0, b'.', 2)?;
    if end < text.len() {
        return Err(PriceError::Number(ScaledError::Invalid(end)));
    }
    Ok(cents)
}

/// Reads a text as an amount with groups of three or without groups, in cents: `1,234.5` and
/// `1234.5` are 123450, and `12,34.5` is none.
pub fn parse_either(text: &[u8]) -> Option<i64> {
    match read_grouped_from::<i64>(text, COMMA_DIGITS, 0, b'.', 2) {
        Ok((cents, end)) if end == text.len() => Some(cents),
        _ => parse_scaled::<i64>(text, STANDARD, b'.', 2).ok(),
    }
}

use digits::languages::RUST;
use digits::{LanguageError, read_literal_as};

/// Reads the Rust literal at the front of a text, and returns where its digits end.
pub fn read_mask(text: &[u8]) -> Result<(u16, usize), LanguageError> {
    read_literal_as::<u16>(text, 0, RUST)
}

use digits::read_literal;

/// Reads a text as a literal with a sign or without one: `-0x7f` is -127. The error is the position
/// of the fault: in `128` it is 2, since 128 is no `i8`, and `-128` is one.
pub fn parse_offset(text: &[u8]) -> Result<i8, usize> {
    let start = expect_byte(text, 0, b'-').unwrap_or(0);
    let most = if start == 0 { 127 } else { 128 };
    let literal = read_literal(text, start, RUST, most).map_err(|error| error.position())?;
    if literal.end < text.len() {
        return Err(literal.end);
    }
    let magnitude = i16::try_from(literal.value).map_err(|_| start)?;
    let value = if start == 0 { magnitude } else { 0 - magnitude };
    i8::try_from(value).map_err(|_| start)
}

use digits::Number;

/// A literal of a Rust-like language.
#[derive(Clone, Copy, Debug, PartialEq)]
pub enum Typed {
    Integer(u128),
    Byte(u8),
    Double(f64),
    Single(f32),
}

/// Reads the literal at `start`, with its suffix, and returns where it ends: `0x1F_u8` gives
/// `(Byte(31), 7)`. The error is the position of the fault.
pub fn read_suffixed(text: &[u8], start: usize) -> Result<(Typed, usize), usize>
    requires { start ≤ length text.now }
{
    let number = read_number_of::<f64>(text, start, forms::RUST);
    let (number, end) = number.map_err(|error| error.position())?;
    let stop = name_end(text, end);
    let value = match &text[end..stop] {
        b"" => match number {
            Number::Integer { magnitude, .. } => Typed::Integer(magnitude),
            Number::Float(x) => Typed::Double(x),
        },
        b"u8" => Typed::Byte(number.as_integer::<u8>().ok_or(start)?),
        b"f64" => Typed::Double(number.to_float()),
        b"f32" => {
            // An `f32` of the `f64` would be rounded twice.
            let single = read_number_of::<f32>(text, start, forms::RUST);
            let (single, _) = single.map_err(|error| error.position())?;
            Typed::Single(single.to_float())
        }
        _ => return Err(end),
    };
    Ok((value, stop))
}

use digits::{Form, is_form};

/// Reads the number at `start` by any form, and returns where it ends, and where its suffix ends:
/// `1_000u;` by `forms::RUST` gives 1000, 5 and 6. `None`: there is no number, or the form isn't
/// valid.
pub fn read_by_form(text: &[u8], start: usize, form: Form) -> Option<(Number<f64>, usize, usize)>
    requires { start ≤ length text.now }
{
    if !is_form(form) {
        return None;
    }
    let (number, end) = read_number_of::<f64>(text, start, form).ok()?;
    Some((number, end, name_end(text, end)))
}

/// What a field has. Each position is that of the fault.
#[derive(Clone, Copy, Debug, PartialEq, Eq)]
pub enum Field {
    Empty,
    NoNumber(usize),
    TooLarge(usize),
    Trailing(usize),
    Value(u8),
}

/// Says what a field has: `300` is `TooLarge(2)`, since a `u8` holds 30. `30x` is `Trailing(2)`.
pub fn field_of(text: &[u8]) -> Field {
    if text.is_empty() {
        return Field::Empty;
    }
    match read_number::<u8>(text, STANDARD) {
        Ok((number, end)) if end == text.len() => Field::Value(number),
        Ok((_, end)) => Field::Trailing(end),
        Err(LiteralError::Empty(at)) => Field::NoNumber(at),
        Err(LiteralError::Overflow(at)) => Field::TooLarge(at),
    }
}

/// The line and the column of a position, both from 1: in `1\n2x` the `x` at 3 has 2 and 2.
pub fn line_and_column(text: &[u8], at: usize) -> (usize, usize) {
    let before = text.get(..at).unwrap_or(text);
    let lines = before.iter().filter(|byte| **byte == b'\n').count();
    let columns = before
        .iter()
        .rev()
        .take_while(|byte| **byte != b'\n')
        .count();
    (lines + 1, columns + 1)
}

use digits::{COMMAS, ListError, parse_list};

/// Tests whether a text that lists at most 16 ports, such as `80, 443`, has this one.
pub fn has_port(text: &[u8], port: u16) -> Result<bool, ListError<LiteralError>> {
    let mut ports = [0; 16];
    let count = parse_list(Integers::<u16>::new(STANDARD), text, COMMAS, &mut ports)?;
    Ok(ports[..count].contains(&port))
}

use digits::{ListRead, read_list};

/// Reads the ports at the front of a text, such as `80, 443;`, into a slice. The result says how
/// many there are, and why there are no more.
pub fn read_ports(text: &[u8], ports: &mut [u16]) -> ListRead<LiteralError> {
    read_list::<u16>(text, 0, STANDARD, COMMAS, ports)
}

use digits::{Both, COMMAS_IN_LINE, ListEnd, NoNumber, read_list_by};

/// Reads a text as the ranges of a header, into the front of a slice, and returns how many there
/// are: `bytes=0-499,1000-1499` has two. The error is the position of the fault.
pub fn parse_ranges(text: &[u8], out: &mut [(u64, u64)]) -> Result<usize, usize> {
    let start = expect_bytes(text, 0, b"bytes=")?;
    let side = Integers::<u64>::new(STANDARD);
    let kind = Both {
        first: side,
        between: b'-',
        second: side,
    };
    let list = read_list_by(kind, text, start, COMMAS_IN_LINE, out);
    match list.end {
        ListEnd::Over(end) if end == text.len() => Ok(list.count),
        ListEnd::Over(end) | ListEnd::Full(end) => Err(end),
        ListEnd::Fault(error) => Err(error.fault_at()),
    }
}

use digits::{FloatError, Floats, FoldError, LINES, floats_are_apart, fold_stream};
use std::io::Read;

/// The mean of the floats of a stream, one in each line; `None` if it is empty. An empty line is a
/// fault.
pub fn mean_of<R: Read + Drop>(stream: R) -> Result<Option<f64>, FoldError<FloatError>> {
    floats_are_apart(STANDARD, LINES);
    let mut buffer = [0; 4096];
    let kind = Floats::<f64>::new(STANDARD);
    // The count is exact up to 2 to the power 53.
    let add = |(sum, count): (f64, f64), number: f64| Some((sum + number, count + 1.0));
    let (sum, count) = fold_stream(stream, &mut buffer, kind, LINES, (0.0, 0.0), add)?;
    if count == 0.0 {
        return Ok(None);
    }
    Ok(Some(sum / count))
}

use digits::{ByteSet, Gap};

/// One `;`, with any spaces and tabs around it: between the numbers of `12; 7;305`.
pub const SEMICOLONS: Gap = Gap {
    separators: ByteSet {
        low: 1 << b';',
        high: 0,
    },
    ..COMMAS_IN_LINE
};

use digits::parse_number_of;

/// Reads a text as a JSON number: `-1.5e3` is -1500.0, and `01` is `Invalid(1)`.
pub fn parse_amount(text: &[u8]) -> Result<f64, NumberError> {
    Ok(parse_number_of::<f64>(text, forms::JSON)?.to_float())
}

use digits::languages::JSON_NUMBER;

/// Reads a text as an id, a JSON integer from 1 to 2 to the power 53. In `01` the fault is at 0,
/// and in `1.0` at 1.
pub fn parse_id(text: &[u8]) -> Result<u64, usize> {
    let id = read_literal(text, 0, JSON_NUMBER, 1 << 53).map_err(|error| error.position())?;
    if id.end < text.len() {
        return Err(id.end);
    }
    if id.value == 0 {
        return Err(0);
    }
    Ok(id.value as u64)
}

/// Reads the JSON number at `start` as cents, and returns where it ends: `12.5,` gives
/// `(1250, 4)`. `1e2`, `12.505` and `.5` give `None`.
pub fn read_cents(text: &[u8], start: usize) -> Option<(i64, usize)>
    requires { start ≤ length text.now }
{
    let (_, end) = read_number_of::<f64>(text, start, forms::JSON).ok()?;
    let (cents, at) = read_scaled_from::<i64>(text, STANDARD, start, b'.', 2).ok()?;
    if at == end { Some((cents, end)) } else { None }
}

ghost use Rattle.std.specs.Prelude.{◌<◌};

use digits::byte_at;

/// Reads the JSON number at `start`, and returns where it ends: in `-1.5e3,` it is -1500.0, and
/// ends at 6. In `01` the fault is at 1.
pub fn read_token(text: &[u8], start: usize) -> Result<(Number<f64>, usize), NumberError>
    requires { start ≤ length text.now }
    ensures within { IfOk result (λ read. (start < read.1) × (read.1 ≤ length text.now)) }
{
    let (number, end) = read_number_of::<f64>(text, start, forms::JSON)?;
    match byte_at(text, end) {
        None | Some(b' ' | b'\t' | b'\n' | b'\r' | b',' | b']' | b'}') => Ok((number, end)),
        Some(_) => Err(NumberError::Invalid(end)),
    }
}

use digits::{EnclosedError, OfForm, read_enclosed};

/// Reads the JSON array at the front of a text into a slice, and returns how many numbers it has,
/// and where it ends: `[1, 2.5]` gives `(2, 8)`.
pub fn read_array(
    text: &[u8],
    out: &mut [Number<f64>],
) -> Result<(usize, usize), EnclosedError<NumberError>> {
    read_enclosed(
        OfForm::<f64>::new(forms::JSON),
        text,
        0,
        b'[',
        COMMAS,
        b']',
        out,
    )
}

/// Passes a byte, and the blanks around it.
fn pass(text: &[u8], at: usize, byte: u8) -> Result<usize, usize>
    requires { at ≤ length text.now }
    ensures { IfOk result (λ end. end ≤ length text.now) }
{
    let at = past_bytes(text, at, BLANKS);
    let at = expect_byte(text, at, byte)?;
    Ok(past_bytes(text, at, BLANKS))
}

/// Reads the point at `start`, and returns the position after it and the blanks there: `[1.5, 2] `
/// gives `([1.5, 2.0], 9)`.
pub fn read_point(text: &[u8], start: usize) -> Result<([f64; 2], usize), usize>
    requires { start ≤ length text.now }
    ensures { IfOk result (λ read. read.1 ≤ length text.now) }
{
    let at = pass(text, start, b'[')?;
    let x = read_number_of::<f64>(text, at, forms::JSON);
    let (x, at) = x.map_err(|error| error.position())?;
    let at = pass(text, at, b',')?;
    let y = read_number_of::<f64>(text, at, forms::JSON);
    let (y, at) = y.map_err(|error| error.position())?;
    Ok(([x.to_float(), y.to_float()], pass(text, at, b']')?))
}

/// Reads a text that is a JSON array of points, at least one, into the front of a slice, and
/// returns how many there are: `[[1.5, 2], [3, 4]]` has two. The error is the position of the
/// fault, or where the next point begins if the slice is full.
pub fn parse_path(text: &[u8], out: &mut [[f64; 2]]) -> Result<usize, usize> {
    let mut at = pass(text, 0, b'[')?;
    for (place, count) in out.iter_mut().zip(1usize..) {
        if at >= text.len() {
            return Err(at);
        }
        let (point, end) = read_point(text, at)?;
        *place = point;
        if byte_at(text, end) == Some(b']') {
            let end = pass(text, end, b']')?;
            if end < text.len() {
                return Err(end);
            }
            return Ok(count);
        }
        at = pass(text, end, b',')?;
    }
    Err(at)
}

/// What may come next in a text.
#[derive(Clone, Copy, PartialEq)]
enum Next {
    /// A number or a `[`.
    Value,
    /// The same, or a `]`, since a `[` is before it.
    ValueOrEnd,
    /// A `,` or a `]`, or the end of the text.
    Rest,
}

/// Adds up the numbers of a JSON text of nested arrays: `[[1, 2.5], [], 3]` gives 6.5. The error is
/// the position of the fault.
pub fn sum_nested(text: &[u8]) -> Result<f64, usize> {
    let (mut sum, mut depth, mut next) = (0.0, 0usize, Next::Value);
    let mut at = past_bytes(text, 0, BLANKS);
    for _ in text {
        if at >= text.len() {
            break;
        }
        let end = match next {
            Next::Value | Next::ValueOrEnd if has_byte(text, at, b'[') => {
                depth = depth.checked_add(1).ok_or(at)?;
                next = Next::ValueOrEnd;
                at + 1
            }
            Next::ValueOrEnd | Next::Rest if depth > 0 && has_byte(text, at, b']') => {
                depth -= 1;
                next = Next::Rest;
                at + 1
            }
            Next::Rest if depth > 0 && has_byte(text, at, b',') => {
                next = Next::Value;
                at + 1
            }
            Next::Rest => return Err(at),
            Next::Value | Next::ValueOrEnd => {
                let number = read_number_of::<f64>(text, at, forms::JSON);
                let (number, end) = number.map_err(|error| error.position())?;
                sum += number.to_float();
                next = Next::Rest;
                end
            }
        };
        at = past_bytes(text, end, BLANKS);
    }
    match next {
        Next::Rest if depth == 0 => Ok(sum),
        _ => Err(at),
    }
}

/// Adds up the lengths of a text, and skips their units: `10px 2.5em` gives 12.5.
pub fn sum_lengths(text: &[u8]) -> Result<f64, NumberError> {
    let mut sum = 0.0;
    let mut at = past_bytes(text, 0, BLANKS);
    for _ in text {
        if at >= text.len() {
            break;
        }
        let (number, end) = read_number_of::<f64>(text, at, forms::FLOAT)?;
        sum += number.to_float();
        let end = name_end(text, end);
        at = past_bytes(text, end, BLANKS);
        if at == end && at < text.len() {
            return Err(NumberError::Invalid(at));
        }
    }
    Ok(sum)
}

/// Reads a text that lists colours, such as `#ff8800, #00ff00`, into the front of a slice, and
/// returns how many there are. If the slice is too short, the error is where the next one begins.
pub fn parse_colors(text: &[u8], out: &mut [u32]) -> Result<usize, usize> {
    let mut at = past_bytes(text, 0, BLANKS);
    for (place, count) in out.iter_mut().zip(1usize..) {
        let start = expect_byte(text, at, b'#')?;
        let color = read_exactly::<u32>(text, start, 16, 6);
        let (color, end) = color.map_err(|error| error.position())?;
        *place = color;
        let end = past_bytes(text, end, BLANKS);
        if end == text.len() {
            return Ok(count);
        }
        let start = expect_byte(text, end, b',')?;
        at = past_bytes(text, start, BLANKS);
    }
    Err(at)
}

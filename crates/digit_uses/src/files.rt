//! The blocks of the page FILES.md, in its order. `.ci/pages` compares the two.
#![tactic(auto, unfolding(digits::proofs::Literals::lexical_on_literals))]

use digits::{FloatError, Floats, FoldError, LINES, STANDARD, floats_are_apart, fold_stream};
use std::io::Read;

/// Adds up the floats of a stream that has one float in each line.
pub fn sum_of<R: Read + Drop>(stream: R) -> Result<f64, FoldError<FloatError>> {
    floats_are_apart(STANDARD, LINES);
    let mut buffer = [0; 4096];
    let kind = Floats::<f64>::new(STANDARD);
    let add = |sum: f64, number: f64| Some(sum + number);
    fold_stream(stream, &mut buffer, kind, LINES, 0.0, add)
}

/// Prints the sum of a file that has one float in each line, or what is wrong with it.
pub fn print_sum(rt: HostRuntime, path: &str) -> std::io::Result<()> {
    let file = std::fs::open(&rt, path)?;
    match sum_of(file) {
        Ok(sum) => println!(rt; "{sum}"),
        Err(error) => println!(rt; "{path}: {error}"),
    }
}

use digits::{Both, BothError, Integers, LiteralError, both_are_apart, integers_are_apart};

/// Finds the greatest value of a stream that has a time and a value in each line: `1,2.5\n2,3.5\n`
/// gives 3.5.
pub fn greatest_of<R: Read + Drop>(
    stream: R,
) -> Result<f64, FoldError<BothError<LiteralError, FloatError>>> {
    let time = Integers::<u64>::new(STANDARD);
    let value = Floats::<f64>::new(STANDARD);
    integers_are_apart::<u64>(STANDARD, LINES);
    floats_are_apart(STANDARD, LINES);
    both_are_apart(time, b',', value, LINES);
    let kind = Both {
        first: time,
        between: b',',
        second: value,
    };
    let mut buffer = [0; 4096];
    let max = |most: f64, line: (u64, f64)| Some(if line.1 > most { line.1 } else { most });
    fold_stream(stream, &mut buffer, kind, LINES, f64::NEG_INFINITY, max)
}

use std::alloc::Global;

/// Reads all integers of a stream that has one in each line. `alloc` is `rt.alloc()`. Where memory
/// is refused, the error is `Stopped`.
pub fn read_all<R: Read + Drop>(
    stream: R,
    alloc: Global,
) -> Result<Vec<u32>, FoldError<LiteralError>> {
    integers_are_apart::<u32>(STANDARD, LINES);
    let mut buffer = [0; 4096];
    let kind = Integers::<u32>::new(STANDARD);
    let push = |mut all: Vec<u32>, number: u32| {
        all.push(number).ok()?;
        Some(all)
    };
    fold_stream(stream, &mut buffer, kind, LINES, Vec::new(alloc), push)
}

ghost use Rattle.std.specs.Prelude.{◌≤◌, length};

use digits::words::HEXADECIMAL;
use digits::{COMMAS, NumberReader};

/// Adds up the numbers that a text lists, however many there are: `80, 443` gives 523.
pub fn sum_text(text: &[u8]) -> Result<u64, FoldError<LiteralError>> {
    integers_are_apart::<u64>(STANDARD, COMMAS);
    let mut buffer = [0; 4096];
    let kind = Integers::<u64>::new(STANDARD);
    let add = |sum: u64, number: u64| sum.checked_add(number);
    fold_stream(text, &mut buffer, kind, COMMAS, 0, add)
}

/// Adds up the hexadecimal bytes of the list at `start`, and returns where the list ends: in
/// `x=de,ad;` at 2 the sum is 395, and the end 7.
pub fn sum_bytes(text: &[u8], start: usize) -> Result<(u64, u64), FoldError<LiteralError>>
    requires { start ≤ length text.now }
{
    integers_are_apart::<u8>(HEXADECIMAL, COMMAS);
    let mut buffer = [0; 4096];
    let kind = Integers::<u8>::new(HEXADECIMAL);
    let rest = &text[start..];
    let mut numbers = NumberReader::new_at(rest, &mut buffer, kind, COMMAS, start as u64);
    let add = |sum: u64, number: u8| sum.checked_add(u64::from(number));
    let sum = numbers.fold_numbers(0, add)?;
    Ok((sum, numbers.position()))
}

use digits::{StreamError, WHITESPACE};

/// Why a stream has no sum.
#[derive(Clone, Copy, Debug, PartialEq, Eq)]
pub enum SumError {
    Stream(StreamError<LiteralError>),
    /// With the number that begins here the sum is too large.
    TooLarge(u64),
}

/// Adds up the integers of a stream, which have blanks between them: `1 20\n` gives 21. For
/// `2147483647  1` the error is `TooLarge(12)`.
pub fn sum_words<R: Read + Drop>(stream: R) -> Result<i32, SumError> {
    integers_are_apart::<i32>(STANDARD, WHITESPACE);
    let mut buffer = [0; 4096];
    let kind = Integers::<i32>::new(STANDARD);
    let mut numbers = NumberReader::new(stream, &mut buffer, kind, WHITESPACE);
    let mut sum = 0i32;
    for _ in 0..u64::MAX {
        numbers.pass_blanks().map_err(SumError::Stream)?;
        let at = numbers.position();
        match numbers.next_number() {
            Some(number) => {
                let number = number.map_err(SumError::Stream)?;
                sum = sum.checked_add(number).ok_or(SumError::TooLarge(at))?;
            }
            None => break,
        }
    }
    numbers.finish().map_err(SumError::Stream)?;
    Ok(sum)
}

/// Finds the first float above a limit in a stream that has one float in each line.
pub fn first_above<R: Read + Drop>(
    stream: R,
    limit: f64,
) -> Result<Option<f64>, StreamError<FloatError>> {
    floats_are_apart(STANDARD, LINES);
    let mut buffer = [0; 4096];
    let mut numbers = NumberReader::new(stream, &mut buffer, Floats::<f64>::new(STANDARD), LINES);
    let mut found = None;
    for _ in 0..u64::MAX {
        match numbers.next_number() {
            Some(number) => {
                let number = number?;
                // Only now is the number before this one final.
                if found.is_some() {
                    return Ok(found);
                }
                if number > limit {
                    found = Some(number);
                }
            }
            None => break,
        }
    }
    numbers.finish()?;
    Ok(found)
}

use digits::{expect_byte, read_exactly, read_optional, read_scaled_from};
use std::io::{BufRead, BufReader};

/// A line of a CSV file.
#[derive(Clone, Copy, Debug, PartialEq, Eq)]
pub struct Entry {
    pub year: u16,
    pub month: u8,
    pub day: u8,
    pub cents: i64,
    /// Its field may be empty.
    pub count: Option<i32>,
}

/// Reads a line as an entry, or returns the position of its first fault: `2026-11-30,12.50,-3` has
/// 1250 cents, and in `2026-11-30,12.5x,-3` the fault is at 15.
pub fn parse_entry(line: &[u8]) -> Result<Entry, usize> {
    let (year, at) = read_exactly::<u16>(line, 0, 10, 4).map_err(|error| error.position())?;
    let at = expect_byte(line, at, b'-')?;
    let (month, at) = read_exactly::<u8>(line, at, 10, 2).map_err(|error| error.position())?;
    let at = expect_byte(line, at, b'-')?;
    let (day, at) = read_exactly::<u8>(line, at, 10, 2).map_err(|error| error.position())?;
    let at = expect_byte(line, at, b',')?;
    let amount = read_scaled_from::<i64>(line, STANDARD, at, b'.', 2);
    let (cents, at) = amount.map_err(|error| error.position())?;
    let at = expect_byte(line, at, b',')?;
    let number = read_optional(Integers::<i32>::new(STANDARD), line, at);
    let (count, end) = match number.map_err(|error| error.position())? {
        Some((count, end)) => (Some(count), end),
        None => (None, at),
    };
    if end < line.len() {
        return Err(end);
    }
    Ok(Entry {
        year,
        month,
        day,
        cents,
        count,
    })
}

/// Prints where the lines of a stream are no entries. The first line is a header.
pub fn check_entries<R: Read + Drop>(rt: HostRuntime, stream: R) -> std::io::Result<()> {
    let lines = BufReader::new(rt.alloc(), stream)?.lines(rt.alloc());
    for (line, number) in lines.zip(1usize..) {
        let line = line?;
        if number == 1 {
            continue;
        }
        if let Err(at) = parse_entry(line.as_bytes()) {
            println!(rt; "line {number}, byte {at}")?;
        }
    }
    Ok(())
}

ghost use Rattle.std.specs.Prelude.{IfOk};

use digits::{COMMAS_IN_LINE, ListError, parse_list};

/// Reads a line into the front of `row`, and returns how many numbers it has, or the first fault:
/// `12, 7,305` has three.
pub fn parse_row(line: &[u8], row: &mut [u32]) -> Result<usize, ListError<LiteralError>>
    ensures { IfOk result (λ count. count ≤ length row.old) }
{
    parse_list(Integers::<u32>::new(STANDARD), line, COMMAS_IN_LINE, row)
}

use digits::SPACES_IN_LINE;

/// Reads a stream that has three floats in each line, with blanks between them. `Ok(Err(line))`:
/// that line, counted from 1, has others. Where memory is refused, it is an error of `std::io`.
pub fn read_triples<R: Read + Drop>(
    rt: HostRuntime,
    stream: R,
) -> std::io::Result<Result<Vec<[f64; 3]>, usize>> {
    let mut points = Vec::new(rt.alloc());
    let lines = BufReader::new(rt.alloc(), stream)?.lines(rt.alloc());
    for (line, number) in lines.zip(1usize..) {
        let line = line?;
        let mut point = [0.0; 3];
        let kind = Floats::<f64>::new(STANDARD);
        match parse_list(kind, line.as_bytes(), SPACES_IN_LINE, &mut point) {
            Ok(3) => points.push(point)?,
            _ => return Ok(Err(number)),
        }
    }
    Ok(Ok(points))
}

use digits::parse_scaled;

/// The cents in a column, from 0, of a CSV line without quotes: in column 1 of `a,1.50,x` are 150.
pub fn cents_of(line: &[u8], column: usize) -> Option<i64> {
    let field = line.split(|byte| *byte == b',').nth(column)?;
    parse_scaled::<i64>(field, STANDARD, b'.', 2).ok()
}

/// Adds up the cents of a column of a CSV stream whose first line is a header. `Ok(Err(line))`:
/// that line, counted from 1, has no amount, or the sum is too large with it.
pub fn column_sum<R: Read + Drop>(
    rt: HostRuntime,
    stream: R,
    column: usize,
) -> std::io::Result<Result<i64, usize>> {
    let mut sum = 0i64;
    let lines = BufReader::new(rt.alloc(), stream)?.lines(rt.alloc());
    for (line, number) in lines.zip(1usize..) {
        let line = line?;
        if number == 1 || line.as_bytes().is_empty() {
            continue;
        }
        let cents = cents_of(line.as_bytes(), column);
        match cents.and_then(|cents| sum.checked_add(cents)) {
            Some(next) => sum = next,
            None => return Ok(Err(number)),
        }
    }
    Ok(Ok(sum))
}

/// Prints that sum, or the line.
pub fn print_column<R: Read + Drop>(
    rt: HostRuntime,
    stream: R,
    column: usize,
) -> std::io::Result<()> {
    match column_sum(rt, stream, column)? {
        Ok(sum) => println!(rt; "{sum} cents"),
        Err(line) => println!(rt; "line {line} has no amount, or the sum is too large"),
    }
}

/// Adds up the cents of a column, from 0, of a text whose lines are CSV, without quotes or
/// a header. The error is the number of a line, from 1: `a,1.50\nb,2\n` has 350 in column 1.
pub fn sum_column(text: &[u8], column: usize) -> Result<i64, usize> {
    let mut sum = 0i64;
    for (line, number) in text.split(|byte| *byte == b'\n').zip(1usize..) {
        let line = line.strip_suffix(b"\r").unwrap_or(line);
        if line.is_empty() {
            continue;
        }
        let cents = cents_of(line, column).ok_or(number)?;
        sum = sum.checked_add(cents).ok_or(number)?;
    }
    Ok(sum)
}

use digits::{EnclosedFoldError, Number, NumberError, OfForm, forms, numbers_are_apart};

/// Adds up a stream that is one JSON array, with any blanks around it: `[1, 2.5]` gives 3.5.
pub fn sum_array<R: Read + Drop>(stream: R) -> Result<f64, EnclosedFoldError<NumberError>> {
    numbers_are_apart(forms::JSON, COMMAS);
    let mut buffer = [0; 4096];
    let kind = OfForm::<f64>::new(forms::JSON);
    let mut numbers = NumberReader::new(stream, &mut buffer, kind, COMMAS);
    let add = |sum: f64, number: Number<f64>| Some(sum + number.to_float());
    let sum = numbers.fold_enclosed(b'[', b']', 0.0, add)?;
    numbers.pass_blanks()?;
    numbers.finish()?;
    Ok(sum)
}

/// Finds the first number above a limit in a JSON array, and where it begins: in `[1, 2.5, 3]` the
/// first one above 2 is 2.5, at 4.
pub fn first_in_array<R: Read + Drop>(
    stream: R,
    limit: f64,
) -> Result<Option<(f64, u64)>, EnclosedFoldError<NumberError>> {
    numbers_are_apart(forms::JSON, COMMAS);
    let mut buffer = [0; 4096];
    let kind = OfForm::<f64>::new(forms::JSON);
    let mut numbers = NumberReader::new(stream, &mut buffer, kind, COMMAS);
    if !numbers.pass_byte(b'[')? {
        return Err(EnclosedFoldError::NoOpening(numbers.position()));
    }
    if numbers.pass_byte(b']')? {
        return Ok(None);
    }
    let mut found = None;
    for _ in 0..u64::MAX {
        numbers.pass_blanks()?;
        let at = numbers.position();
        let Some(number) = numbers.next_number() else {
            break;
        };
        let number = number?.to_float();
        if found.is_some() {
            return Ok(found);
        }
        if number > limit {
            found = Some((number, at));
        }
    }
    if !numbers.pass_byte(b']')? {
        return Err(EnclosedFoldError::NoClosing(numbers.position()));
    }
    Ok(found)
}

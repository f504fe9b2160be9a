//! The blocks of the page docs/PROVING.md, in its order. `.ci/pages` compares the two.
#![tactic(auto, unfolding(digits::proofs::Literals::lexical_on_literals))]

ghost use Rattle.std.specs.Prelude.{◌≡◌, ◌-◌, ◌^◌};
ghost use Rattle.digits.specs.Words.{Integer, number_at, rule_of, to_end};

use digits::words::PYTHON_LITERAL;
use digits::{ParseError, parse_number};

/// Reads a text as a height: `-1_000` is -1000, and `1_000m` is `Invalid(5)`.
pub fn parse_height(text: &[u8]) -> Result<i32, ParseError>
    ensures { let r = rule_of PYTHON_LITERAL Integer in
        result ≡ to_end text.now (number_at (2 ^ 31) (2 ^ 31 - 1) r text.now 0) }
{
    parse_number::<i32>(text, PYTHON_LITERAL)
}

ghost use Rattle.std.specs.Prelude.{Ok, Err, MatchResult};
ghost use Rattle.digits.specs.Words.{binary64, parse_at, plain_marks};

use digits::{FloatError, parse_float};

/// The rate that a text is, as the nearest `f64`: `1_234.5e-1` gives 123.45.
pub fn parse_rate(text: &[u8]) -> Result<f64, FloatError>
    ensures { let parsed = parse_at PYTHON_LITERAL text.now plain_marks binary64 0 in
        MatchResult result (λ x. parsed ≡ Ok x) (λ error. parsed ≡ Err error) }
{
    parse_float::<f64>(text, PYTHON_LITERAL)
}

ghost use Rattle.std.specs.Prelude.{length, pos};
ghost use Rattle.digits.specs.Words.{Fills, list_at, literal_none_at};

use digits::{COMMAS, ListRead, LiteralError, STANDARD, read_list};

/// The ports that a text lists, `80, 443;`, in the front of a slice: how many they are, and why
/// there are no more.
pub fn read_ports(text: &[u8], ports: &mut [u16]) -> ListRead<LiteralError>
    ensures { let port_at = number_at 0 (2 ^ 16 - 1) (rule_of STANDARD Integer) text.now in
        let list = list_at port_at literal_none_at COMMAS text.now (length ports.old) 0 in
        Fills (λ port. pos port) list result ports.old ports.new }
{
    read_list::<u16>(text, 0, STANDARD, COMMAS, ports)
}

ghost use Rattle.digits.specs.Words.{Holds, full_list, parsed};

use digits::{COMMAS_IN_LINE, Integers, ListError, parse_list};

/// How many numbers a line has, which are in the front of `row` then, or the first fault:
/// `12, 7,305` has three.
pub fn parse_row(line: &[u8], row: &mut [u32]) -> Result<usize, ListError<LiteralError>>
    ensures is { let at = number_at 0 (2 ^ 32 - 1) (rule_of STANDARD Integer) line.now in
        let list = full_list at literal_none_at COMMAS_IN_LINE line.now (length row.old) 0 in
        result ≡ parsed line.now list }
    ensures numbers { let at = number_at 0 (2 ^ 32 - 1) (rule_of STANDARD Integer) line.now in
        let list = full_list at literal_none_at COMMAS_IN_LINE line.now (length row.old) 0 in
        Holds (λ number. pos number) list.0 row.old row.new }
{
    parse_list(Integers::<u32>::new(STANDARD), line, COMMAS_IN_LINE, row)
}

ghost use Rattle.std.specs.Prelude.{◌≤◌, IfOk};

use digits::{ListEnd, read_float_list};

/// The sum of the floats that a text lists from `start` on, `1.5, 2, -3]`, however many they are,
/// and where the list ends.
pub fn sum_list(text: &[u8], start: usize) -> Result<(f64, usize), FloatError>
    requires { start ≤ length text.now }
    ensures end { IfOk result (λ read. read.1 ≤ length text.now) }
{
    let mut part = [0.0; 64];
    let mut sum = 0.0;
    let mut at = start;
    for turn in 0..u64::MAX {
        let read = read_float_list::<f64>(text, at, STANDARD, COMMAS, &mut part);
        for number in &part[..read.count] {
            sum += *number;
        }
        match read.end {
            ListEnd::Full(next) => at = next,
            ListEnd::Over(end) => return Ok((sum, end)),
            ListEnd::Fault(error) => return Err(error),
        }
    }
    // no text has so many numbers
    Err(FloatError::Empty(at))
}

ghost use Rattle.std.specs.Prelude.{ℕ, IfErr};
ghost use Rattle.digits.specs.Words.{integer_at};

use digits::read_integer_from;

/// Why there is no percentage.
#[derive(Clone, Copy, Debug, PartialEq, Eq)]
pub enum PercentError {
    NoDigit(usize),
    Above100(usize),
}

/// The percentage that begins at `start`, and where it ends: `1_00%` gives `(100, 4)`.
pub fn read_percent(line: &[u8], start: usize) -> Result<(u8, usize), PercentError>
    requires { start ≤ length line.now }
    ensures ok { let r = rule_of PYTHON_LITERAL Integer in
        IfOk result (λ percent. integer_at r line.now start 100 ≡ Ok percent) }
    ensures none { let r = rule_of PYTHON_LITERAL Integer in IfErr result (λ _.
        (percent : ℕ × ℕ) → integer_at r line.now start 100 ≡ Ok percent → ⊥) }
{
    match read_integer_from(line, PYTHON_LITERAL, start, 100) {
        Ok((percent, end)) => Ok((percent as u8, end)),
        Err(LiteralError::Empty(at)) => Err(PercentError::NoDigit(at)),
        Err(LiteralError::Overflow(at)) => Err(PercentError::Above100(at)),
    }
}

ghost use Rattle.std.specs.Prelude.{IsTrue};
ghost use Rattle.digits.specs.Words.{digits_between, is_supported, stop};

use digits::{Component, Rule, stop_from};
use std::alloc::{AllocError, Global};

/// The digits of the integer that a text begins with, at any length, without its separators.
pub fn digits_of(alloc: Global, text: &[u8], word: u128) -> Result<Vec<u8>, AllocError>
    requires { IsTrue (is_supported word) }
    ensures { let r = rule_of word Integer in IfOk result (λ digits.
        digits.items ≡ digits_between r text.now 0 (stop r text.now 0 0)) }
{
    let rule = Rule::of(word, Component::Integer);
    let end = stop_from(text, word, Component::Integer, 0);
    text[..end]
        .iter()
        .copied()
        .filter(|byte| rule.is_digit(*byte))
        .collect(alloc)
}

ghost use Rattle.std.specs.Prelude.{◌+◌, true};
ghost use Rattle.digits.specs.Words.{has_byte};

use digits::{expect_byte, read_number, read_number_from};

/// Why a text begins with no size.
#[derive(Clone, Copy, Debug, PartialEq, Eq)]
pub enum SizeError {
    /// The width or the height is no number.
    Side(LiteralError),
    /// There is no `x` at this position.
    NoX(usize),
}

/// The size that a text begins with, and where it ends: `1_920x1_080 px` gives `(1920, 1080, 11)`.
pub fn read_size(text: &[u8]) -> Result<(u32, u32, usize), SizeError>
    ensures { let r = rule_of PYTHON_LITERAL Integer in IfOk result (λ size. (end : ℕ)
        × (integer_at r text.now 0 (2 ^ 32 - 1) ≡ Ok (size.0, end))
        × (has_byte text.now end 120 ≡ true)
        × (integer_at r text.now (end + 1) (2 ^ 32 - 1) ≡ Ok (size.1, size.2))) }
{
    let number = read_number::<u32>(text, PYTHON_LITERAL);
    let (width, end) = number.map_err(SizeError::Side)?;
    let start = expect_byte(text, end, b'x').map_err(SizeError::NoX)?;
    let number = read_number_from::<u32>(text, PYTHON_LITERAL, start);
    let (height, end) = number.map_err(SizeError::Side)?;
    Ok((width, height, end))
}

ghost use Rattle.std.specs.Prelude.{◌<◌};
ghost use Rattle.digits.specs.Words.{with_value};
ghost use Rattle.digit_uses.specs.Tokens.{token_at};

use digits::{Number, NumberError, byte_at, forms, read_number_of};

/// The token of a number of JSON at `start`, and where it ends: of `-1.5e3,` it is -1500.0, and
/// ends at 6. Of `01` the fault is at 1.
pub fn read_token(text: &[u8], start: usize) -> Result<(Number<f64>, usize), NumberError>
    requires { start ≤ length text.now }
    ensures token { let token = token_at text.now start in
        IfOk result (λ read. token ≡ Ok (with_value (λ x. x) read.0, read.1)) }
    ensures fault { IfErr result (λ error. token_at text.now start ≡ Err error) }
    ensures end { IfOk result (λ read. (start < read.1) × (read.1 ≤ length text.now)) }
{
    let (number, end) = read_number_of::<f64>(text, start, forms::JSON)?;
    match byte_at(text, end) {
        None | Some(b' ' | b'\t' | b'\n' | b'\r' | b',' | b']' | b'}') => Ok((number, end)),
        Some(_) => Err(NumberError::Invalid(end)),
    }
}

ghost use Rattle.std.specs.Float.{float_is_finite};

use digits::{FLOAT_ROOM, FloatLayout, write_float};

/// A float that was written and is read again: the same, bit by bit.
pub fn write_and_read(x: f64) -> f64
    requires { IsTrue (float_is_finite x) }
    ensures { result ≡ x }
{
    let mut out = [0; FLOAT_ROOM];
    match write_float(x, FloatLayout::Usual, &mut out) {
        Ok(len) => match parse_float::<f64>(&out[..len], STANDARD) {
            Ok(read) => read,
            Err(_) => unreachable!(),
        },
        Err(_) => unreachable!(),
    }
}

ghost use Rattle.std.specs.Prelude.{take};
ghost use Rattle.std.specs.Float.{Float};
ghost use Rattle.digits.specs.Words.{Number, fixed_text, float_in, number_of_at, number_to_end};

use digits::forms::JSON;
use digits::{NoRoom, parse_number_of, write_fixed};

/// Why a number wasn't rounded.
#[derive(Clone, Copy, Debug, PartialEq, Eq)]
pub enum RoundError {
    NoNumber(NumberError),
    TooLarge,
    NoRoom(NoRoom),
}

/// Writes the number of JSON that a text is, rounded to two places, and answers how many bytes that
/// takes: `-12e-3` gives `-0.01`.
pub fn round_json(text: &[u8], out: &mut [u8]) -> Result<usize, RoundError>
    ensures { let read = number_to_end text.now (number_of_at JSON text.now 0 binary64) in
        IfOk result (λ len. (number : Number Float)
        × (read ≡ Ok (with_value (λ x. x) number))
        × (take len out.new ≡ fixed_text (float_in binary64 (λ x. x) number) 2)) }
{
    let number = parse_number_of::<f64>(text, JSON).map_err(RoundError::NoNumber)?;
    let x = number.to_float();
    if !x.is_finite() {
        return Err(RoundError::TooLarge);
    }
    write_fixed(x, 2, out).map_err(RoundError::NoRoom)
}

//! The number that a line has.

ghost use Rattle.std.specs.Prelude.{◌≡◌, ◌+◌, ◌^◌, ◌<◌, ◌≤◌, length, IsTrue, IfErr, Ok, Err};
ghost use Rattle.lexical_format.specs.Word.{is_supported};
ghost use Rattle.digit_integers.specs.Errors as integers;
ghost use Rattle.digit_floats.specs.Float.{IsDecimal};
ghost use Rattle.digit_amounts.specs.Scaled as decimals;
ghost use Rattle.digit_floats.specs.Errors as marks;
ghost use Rattle.lexical_digits.specs.declared.skip.component.Component.{Component};
ghost use Rattle.lexical_digits.specs.State.{rule_of};
ghost use Rattle.digit_totals.specs.Errors.{of_field_at};
ghost use Rattle.digit_totals.specs.Quick.{HasNoLowByte};
ghost use Rattle.digit_totals.specs.Floats as floats;
ghost use Rattle.digit_totals.specs.Value as Value;
ghost use Rattle.digit_totals.specs.Value.{HasFewPlaces};

use super::fault::NumberError;
use super::field::find_span;
use super::options::{FloatOptions, Kind, Options};
use digit_amounts::{ScaledError, read_scaled_from};
use digit_floats::{FloatError, read_float_from};
use digit_integers::{ParseError, parse_number, read_number_from};
use digit_values::{BLANKS, LiteralError, past_bytes};
use lexical_format::STANDARD;
use lexical_format::words::PYTHON_LITERAL;

/// The integer that a text is, with any blanks around it.
#[inline]
fn parse_integer(text: &[u8], word: u128) -> Result<i128, ParseError>
    requires supported { IsTrue (is_supported word) }
    requires low { (k : Component) → HasNoLowByte (rule_of word k) }
    ensures is { result ≡ Value.integer_in word text.now }
    ensures within { IfErr result (λ error. integers.position error ≤ length text.now) }
{
    // the usual case, in which no blanks are there, and the number has 64 bits
    if let Ok(value) = parse_number::<i64>(text, word) {
        return Ok(i128::from(value));
    }
    parse_in_blanks(text, word)
}

/// [`parse_integer`], where the number isn't alone, or has more than 64 bits.
fn parse_in_blanks(text: &[u8], word: u128) -> Result<i128, ParseError>
    requires { IsTrue (is_supported word) }
    ensures is { result ≡ Value.integer_in word text.now }
    ensures within { IfErr result (λ error. integers.position error ≤ length text.now) }
{
    let begin = past_bytes(text, 0, BLANKS);
    match read_number_from::<i128>(text, word, begin) {
        Ok((value, end)) => {
            let rest = past_bytes(text, end, BLANKS);
            if rest == text.len() {
                Ok(value)
            } else {
                Err(ParseError::Invalid(rest))
            }
        }
        Err(LiteralError::Empty(at)) => {
            if at == text.len() {
                Err(ParseError::Empty(at))
            } else {
                Err(ParseError::Invalid(at))
            }
        }
        Err(LiteralError::Overflow(at)) => Err(ParseError::Overflow(at)),
    }
}

/// The decimal number that a text is, in units of its last place, with any blanks around it.
#[inline]
#[tactic(auto, using(crate::proofs::ErrorsWithin::scaled_within))]
fn parse_decimal(text: &[u8], word: u128, places: usize) -> Result<i128, ScaledError>
    requires supported { IsTrue (is_supported word) }
    requires decimal { IsDecimal word }
    requires places { places ≤ 38 }
    ensures is { result ≡ Value.decimal_in word text.now places }
    ensures within { IfErr result (λ error. decimals.position error ≤ length text.now) }
{
    let begin = past_bytes(text, 0, BLANKS);
    let (value, end) = read_scaled_from::<i128>(text, word, begin, b'.', places)?;
    let rest = past_bytes(text, end, BLANKS);
    if rest == text.len() {
        Ok(value)
    } else {
        Err(ScaledError::Invalid(rest))
    }
}

/// The number of a field that begins at `start` in its line, with any blanks around it.
#[inline]
fn parse_field(field: &[u8], word: u128, start: usize, kind: Kind) -> Result<i128, NumberError>
    requires supported { IsTrue (is_supported word) }
    requires decimal { IsDecimal word }
    requires low { (k : Component) → HasNoLowByte (rule_of word k) }
    requires within { start + length field.now < 2 ^ 64 }
    requires few { HasFewPlaces kind }
    ensures { result ≡ of_field_at start (Value.number_in word field.now kind) }
{
    match kind {
        Kind::Integers => match parse_integer(field, word) {
            Ok(value) => Ok(value),
            Err(error) => Err(NumberError::Integer(error).later(start)),
        },
        Kind::Places(places) => match parse_decimal(field, word, places) {
            Ok(value) => Ok(value),
            Err(error) => Err(NumberError::Decimal(error).later(start)),
        },
    }
}

/// The number in the column of a line, or why there is none. What is beside the field makes no
/// difference.
#[tactic(auto, using(crate::proofs::NumberLine::no_low_bytes), unfolding(lexical_format::proofs::OnLiterals::lexical_on_literals))]
pub fn value_of(options: Options, line: &[u8]) -> Result<i128, NumberError>
    requires { HasFewPlaces options.kind }
    ensures { result ≡ Value.value_of options line.now }
{
    let (start, end) = match find_span(options.column, line) {
        Ok(span) => span,
        Err(error) => return Err(error),
    };
    let field = &line[start..end];
    if options.underscores {
        parse_field(field, PYTHON_LITERAL, start, options.kind)
    } else {
        parse_field(field, STANDARD, start, options.kind)
    }
}

/// The float that a text is, with any blanks around it.
#[inline]
fn parse_float(text: &[u8], word: u128) -> Result<f64, FloatError>
    requires supported { IsTrue (is_supported word) }
    requires decimal { IsDecimal word }
    ensures is { result ≡ floats.float_in word text.now }
    ensures within { IfErr result (λ error. marks.position error ≤ length text.now) }
{
    let begin = past_bytes(text, 0, BLANKS);
    let (value, end) = match read_float_from::<f64>(text, word, begin) {
        Ok(read) => read,
        Err(error) => return Err(error),
    };
    let rest = past_bytes(text, end, BLANKS);
    if rest == text.len() {
        Ok(value)
    } else {
        Err(FloatError::Invalid(rest))
    }
}

/// The float that a field is, with any blanks around it.
#[inline]
#[tactic(auto, unfolding(lexical_format::proofs::OnLiterals::lexical_on_literals))]
fn parse_float_field(options: FloatOptions, field: &[u8]) -> Result<f64, FloatError>
    ensures is { result ≡ floats.float_in (floats.word_of options) field.now }
    ensures within { IfErr result (λ error. marks.position error ≤ length field.now) }
{
    if options.underscores {
        parse_float(field, PYTHON_LITERAL)
    } else {
        parse_float(field, STANDARD)
    }
}

/// The float in the column of a line, or why there is none. What is beside the field makes no
/// difference.
pub fn float_of(options: FloatOptions, line: &[u8]) -> Result<f64, NumberError>
    ensures { result ≡ floats.value_of options line.now }
{
    let (start, end) = match find_span(options.column, line) {
        Ok(span) => span,
        Err(error) => return Err(error),
    };
    match parse_float_field(options, &line[start..end]) {
        Ok(value) => Ok(value),
        Err(error) => Err(NumberError::Float(error).later(start)),
    }
}

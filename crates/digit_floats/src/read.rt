//! The float at a position of a text, or that a text is.

ghost use Rattle.std.specs.Prelude.{◌≡◌, ◌<◌, ◌≤◌, length, IsTrue, IfOk, Ok, Err, MatchResult};
ghost use Rattle.std.specs.Float.{NotNan};
ghost use Rattle.lexical_format.specs.Word.{is_supported};
ghost use Rattle.digit_floats.specs.Float.{IsDecimal, plain_marks, read_at, parse_at};
ghost use Rattle.digit_floats.specs.Reads.{ReadsFloat};

use super::error::FloatError;
use super::float::Float;
use super::parts::{Marks, Parts, read_last_sign, read_parts, read_short_parts, read_sign};
use super::round::{round_parts, round_short, round_unsigned};
use lexical_digits::skip::{Component, Rule};

/// [`read_float_from`], whatever the number is. In code of its own, so that the one of a short
/// number has all registers (the rows `x: f64`).
#[inline(never)]
#[tactic(auto, using(crate::proofs::Numbers::round_number))]
fn read_float_apart<F: Float>(
    text: &[u8],
    word: u128,
    start: usize,
) -> Result<(F, usize), FloatError>
    requires supported { IsTrue (is_supported word) }
    requires decimal { IsDecimal word }
    requires within { start ≤ length text.now }
    ensures { ReadsFloat F.format F.value word text.now start result }
{
    let parts = read_parts(text, word, Marks::PLAIN, start, true)?;
    let x = round_parts::<F>(text, parts.negative, parts.mantissa, parts.power);
    Ok((x, parts.power.end))
}

/// [`read_float_apart`] by a word that drops separators between digits, in code of its own: a group
/// seldom has eight digits.
#[inline(never)]
#[tactic(auto, using(crate::proofs::Numbers::round_number))]
fn read_float_in_groups<F: Float>(
    text: &[u8],
    word: u128,
    start: usize,
) -> Result<(F, usize), FloatError>
    requires supported { IsTrue (is_supported word) }
    requires decimal { IsDecimal word }
    requires within { start ≤ length text.now }
    ensures { ReadsFloat F.format F.value word text.now start result }
{
    let parts = read_parts(text, word, Marks::PLAIN, start, false)?;
    let x = round_parts::<F>(text, parts.negative, parts.mantissa, parts.power);
    Ok((x, parts.power.end))
}

/// Whether a word drops separators between digits of an integer or a fraction. Of a constant word a
/// compiler knows it.
#[inline(always)]
fn has_groups(word: u128) -> bool {
    Rule::of(word, Component::Integer).internal || Rule::of(word, Component::Fraction).internal
}

/// [`read_float_apart`] or [`read_float_in_groups`], by the word. Their answer in memory belongs to
/// this function, so it is set only where they are called.
#[inline(always)]
fn read_float_rest<F: Float>(
    text: &[u8],
    word: u128,
    start: usize,
) -> Result<(F, usize), FloatError>
    requires supported { IsTrue (is_supported word) }
    requires decimal { IsDecimal word }
    requires within { start ≤ length text.now }
    ensures { ReadsFloat F.format F.value word text.now start result }
{
    let read = if has_groups(word) {
        read_float_in_groups::<F>(text, word, start)
    } else {
        read_float_apart::<F>(text, word, start)
    };
    match read {
        Ok((x, end)) => Ok((x, end)),
        Err(error) => Err(error),
    }
}

/// Reads the float at `start`, and returns the position after it. Requires that the word is
/// supported, and that its mantissa and exponent are decimal.
///
/// It is `[+-]? (D+ (. D*)? | . D+) ([eE] [+-]? D+)?`, where `D` is a digit, and separators that
/// the word drops may be among them. The float is the one nearest to this number. What is too large
/// is infinite, and what is too small is 0. `inf` and `nan` are no digits, so they are refused as
/// `Empty`: a word says nothing about them.
///
/// ```text
/// by `STANDARD`: `x=1.5e3,` from 2: Ok((1500.0, 7)); `1.5.2` from 0: Ok((1.5, 3))
/// ```
#[inline(always)]
#[tactic(auto, using(crate::proofs::Numbers::round_number))]
pub fn read_float_from<F: Float>(
    text: &[u8],
    word: u128,
    start: usize,
) -> Result<(F, usize), FloatError>
    requires supported { IsTrue (is_supported word) }
    requires decimal { IsDecimal word }
    requires within { start ≤ length text.now }
    ensures reads { MatchResult result
        (λ r. read_at word text.now plain_marks F.format start ≡ Ok (F.value r.0, r.1))
        (λ error. read_at word text.now plain_marks F.format start ≡ Err error) }
    ensures no_nan { IfOk result (λ r. NotNan (F.value r.0)) }
    ensures onward { IfOk result (λ r. start < r.1) }
    ensures within { IfOk result (λ r. r.1 ≤ length text.now) }
{
    let sign = read_sign(text, start);
    if let Some(parts) = read_short_parts(text, word, Marks::PLAIN, start, sign) {
        let Parts {
            negative,
            mantissa,
            power,
        } = parts;
        if let Some(x) = round_short::<F>(text, negative, mantissa, power) {
            return Ok((x, power.end));
        }
    }
    read_float_rest::<F>(text, word, start)
}

/// [`read_float_from`] of a number after which none is read: no branch depends on its minus. Within
/// a text a sign that is guessed costs less: the place of the next number doesn't wait for it.
#[inline(always)]
#[tactic(auto, using(crate::proofs::Numbers::round_number))]
fn read_last_float<F: Float>(
    text: &[u8],
    word: u128,
    start: usize,
) -> Result<(F, usize), FloatError>
    requires supported { IsTrue (is_supported word) }
    requires decimal { IsDecimal word }
    requires within { start ≤ length text.now }
    ensures { ReadsFloat F.format F.value word text.now start result }
{
    let sign = read_last_sign(text, start);
    if let Some(parts) = read_short_parts(text, word, Marks::PLAIN, start, sign) {
        let Parts {
            negative,
            mantissa,
            power,
        } = parts;
        if let Some(x) = round_unsigned::<F>(text, negative, mantissa, power) {
            return Ok((x, power.end));
        }
    }
    read_float_rest::<F>(text, word, start)
}

/// Reads the float at the front of a text, and returns the position after it. An `e` without a
/// digit is a fault: to read the 1 of `1em`, take `read_number_of` with `forms::FLOAT`.
///
/// It is [`read_float_from`] from 0.
#[inline(always)]
pub fn read_float<F: Float>(text: &[u8], word: u128) -> Result<(F, usize), FloatError>
    requires supported { IsTrue (is_supported word) }
    requires decimal { IsDecimal word }
    ensures reads { MatchResult result
        (λ r. read_at word text.now plain_marks F.format 0 ≡ Ok (F.value r.0, r.1))
        (λ error. read_at word text.now plain_marks F.format 0 ≡ Err error) }
    ensures no_nan { IfOk result (λ r. NotNan (F.value r.0)) }
    ensures onward { IfOk result (λ r. 0 < r.1) }
    ensures within { IfOk result (λ r. r.1 ≤ length text.now) }
{
    read_float_from::<F>(text, word, 0)
}

/// Reads the text from `start` to its end as a float. The position of a fault counts from the start
/// of the whole text.
///
/// The float is as by [`read_float_from`]. Requires what that does.
#[inline(always)]
pub fn parse_float_from<F: Float>(text: &[u8], word: u128, start: usize) -> Result<F, FloatError>
    requires supported { IsTrue (is_supported word) }
    requires decimal { IsDecimal word }
    requires within { start ≤ length text.now }
    ensures parses { MatchResult result
        (λ x. parse_at word text.now plain_marks F.format start ≡ Ok (F.value x))
        (λ error. parse_at word text.now plain_marks F.format start ≡ Err error) }
    ensures no_nan { IfOk result (λ x. NotNan (F.value x)) }
{
    let (x, end) = read_last_float::<F>(text, word, start)?;
    if end < text.len() {
        return Err(FloatError::Invalid(end));
    }
    Ok(x)
}

/// Reads a whole text as a float. Requires that the word is supported, and that its mantissa and
/// exponent are decimal.
///
/// The text is `[+-]? (D+ (. D*)? | . D+) ([eE] [+-]? D+)?`, where `D` is a digit, and separators
/// that the word drops may be among them. The float is the one nearest to this number. What is too
/// large is infinite, what is too small is 0, and `inf` and `nan` are refused.
///
/// ```text
/// by `STANDARD`: `-1.5e3`: Ok(-1500.0); `.5`: Ok(0.5); `1e999`: Ok(inf)
/// `1.5x`: Err(Invalid(3)); `1e`: Err(EmptyExponent(2)); `.`: Err(Empty(1)); `inf`: Err(Empty(0))
/// ```
#[inline(always)]
pub fn parse_float<F: Float>(text: &[u8], word: u128) -> Result<F, FloatError>
    requires supported { IsTrue (is_supported word) }
    requires decimal { IsDecimal word }
    ensures parses { MatchResult result
        (λ x. parse_at word text.now plain_marks F.format 0 ≡ Ok (F.value x))
        (λ error. parse_at word text.now plain_marks F.format 0 ≡ Err error) }
    ensures no_nan { IfOk result (λ x. NotNan (F.value x)) }
{
    parse_float_from::<F>(text, word, 0)
}

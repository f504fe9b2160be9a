//! The integer or decimal float at a position, after any sign, whatever its digits are.

ghost use Rattle.std.specs.Prelude.{◌≡◌, ◌<◌, ◌≤◌, length, false, Ok, Err};
ghost use Rattle.digit_numbers.specs.declared.number.Number.TheVariants.{Integer};
ghost use Rattle.digit_numbers.specs.Forms.{IsForm, is_always_float};
ghost use Rattle.digit_numbers.specs.Numbers.{is_float, plain_at};
ghost use Rattle.digit_numbers.specs.Reads.{IsMantissaAt, IsSign, Reads};

use super::float::{has_more_zeros, read_float, read_large, round_whole, zero_alone};
use super::form::Form;
use super::integer::{integer_of_mantissa, is_zero, read_integer};
use super::number::{Number, NumberError};
use super::sign::{Sign, language_of};
use digit_floats::{Float, Mantissa, read_mantissa};
use digit_languages::{LanguageError, Literal};

/// The digits of a number at a position, after any sign.
#[inline(always)]
pub fn read_digits(text: &[u8], form: Form, at: usize) -> Mantissa
    requires form { IsForm form }
    requires within { at ≤ length text.now }
    ensures is { IsMantissaAt form text.now result }
    ensures start { result.start ≡ at }
{
    read_mantissa(text, form.integers.decimal, at, form.marks.point)
}

/// The number that digits are without a point and an exponent.
#[inline(always)]
#[tactic(auto, using(crate::proofs::Digits::wholes), unfolding(crate::specs::Numbers::plain_at))]
pub fn read_whole<F: Float>(
    text: &[u8],
    start: usize,
    form: Form,
    sign: Sign,
    mantissa: Mantissa,
) -> Result<(Number<F>, usize), NumberError>
    requires form { IsForm form }
    requires sign { IsSign form text.now start sign }
    requires digits { IsMantissaAt form text.now mantissa }
    requires start { mantissa.start ≡ sign.end }
    requires no_float { is_float form text.now sign.end ≡ false }
    ensures { Reads F.value text.now start (plain_at form text.now start F.format) result }
{
    if form.whole.is_float() {
        if has_more_zeros(text, form, mantissa) {
            let zero = zero_alone::<F>(sign.is_minus);
            return Ok((Number::Float(zero), sign.end + 1));
        }
        if mantissa.digits == mantissa.places {
            return Err(NumberError::Empty(sign.end));
        }
        let x = round_whole::<F>(text, form.integers.decimal, sign.is_minus, mantissa);
        return Ok((Number::Float(x), mantissa.whole_end));
    }
    // this language and the one below are two, so that this one need not be in memory
    if let Some(read) = integer_of_mantissa(text, language_of(form, sign.is_there), mantissa) {
        return Ok((integer_of(sign, read), read.end));
    }
    read_any_integer::<F>(text, start, form, sign)
}

/// An integer with a sign.
#[inline(always)]
pub fn integer_of<F: Float>(sign: Sign, read: Literal) -> Number<F>
    ensures { result ≡ Integer sign.is_minus read.value read.word }
{
    Number::Integer {
        negative: sign.is_minus,
        magnitude: read.value,
        word: read.word,
    }
}

/// The number that digits are without a point and an exponent, if they aren't always a float: any
/// integer of the language.
#[inline(always)]
#[tactic(auto, using(crate::proofs::Digits::wholes), unfolding(crate::specs::Numbers::plain_at))]
fn read_any_integer<F: Float>(
    text: &[u8],
    start: usize,
    form: Form,
    sign: Sign,
) -> Result<(Number<F>, usize), NumberError>
    requires form { IsForm form }
    requires sign { IsSign form text.now start sign }
    requires exact { is_always_float form.whole ≡ false }
    requires no_float { is_float form text.now sign.end ≡ false }
    ensures { Reads F.value text.now start (plain_at form text.now start F.format) result }
{
    let at = sign.end;
    match read_integer(text, language_of(form, sign.is_there), at) {
        Ok(read) => Ok((integer_of(sign, read), read.end)),
        Err(LanguageError::Overflow(over)) if form.whole.may_be_float() && !is_zero(text, at) => {
            let (x, end) = read_large::<F>(text, form.integers.decimal, sign.is_minus, at, over);
            Ok((Number::Float(x), end))
        }
        Err(LanguageError::Overflow(over)) => Err(NumberError::Overflow(over)),
        Err(LanguageError::Empty(_) | LanguageError::Zero(_)) if is_zero(text, at) => {
            let zero = Literal {
                value: 0,
                word: form.integers.decimal,
                digits: at,
                end: at + 1,
            };
            Ok((integer_of(sign, zero), zero.end))
        }
        Err(LanguageError::Empty(_) | LanguageError::Zero(_)) => Err(NumberError::Empty(at)),
    }
}

/// The integer or decimal float that begins at a start, and the position after it.
#[inline(always)]
#[tactic(auto, unfolding(crate::specs::Numbers::plain_at))]
pub fn read_plain<F: Float>(
    text: &[u8],
    start: usize,
    form: Form,
    sign: Sign,
) -> Result<(Number<F>, usize), NumberError>
    requires form { IsForm form }
    requires sign { IsSign form text.now start sign }
    ensures { Reads F.value text.now start (plain_at form text.now start F.format) result }
{
    let mantissa = read_digits(text, form, sign.end);
    if let Some((x, end)) = read_float::<F>(text, form, sign.is_minus, mantissa) {
        return Ok((Number::Float(x), end));
    }
    read_whole::<F>(text, start, form, sign, mantissa)
}

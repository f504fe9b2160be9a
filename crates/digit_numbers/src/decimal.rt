//! The decimal number at a position, by a form, before it is rounded.

ghost use Rattle.std.specs.Prelude.{◌≡◌, ◌+◌, ◌<◌, ◌≤◌, false, true, length, Ok, Err, IfOk, is_some, [], pos};
ghost use Rattle.std.specs.Float.{binary64};
ghost use Rattle.lexical_digits.specs.declared.skip.component.Component.TheVariants.{Integer};
ghost use Rattle.lexical_digits.specs.State.{rule_of};
ghost use Rattle.digit_values.specs.After.{digits_between};
ghost use Rattle.digit_values.specs.Bytes.{has_byte};
ghost use Rattle.digit_floats.specs.Decimals.{decimal_of};
ghost use Rattle.digit_languages.specs.Literals.{prefix_word};
ghost use Rattle.digit_numbers.specs.declared.number.NumberError.TheVariants.{Empty};
ghost use Rattle.digit_numbers.specs.Decimals.{decimal_end, decimal_of_at, decimal_of_parts, is_named, with_decimal};
ghost use Rattle.digit_numbers.specs.Forms.{IsForm};
ghost use Rattle.digit_numbers.specs.Numbers.{is_float, is_minus, language, parts, plain_at};
ghost use Rattle.digit_numbers.specs.Reads.{IsMantissaAt, IsPowerAt, IsSign};

use super::float::{float_power, whole_of};
use super::form::Form;
use super::integer::{has_separator, is_zero};
use super::number::{Number, NumberError};
use super::plain::{read_digits, read_whole};
use super::sign::{Sign, language_of, read_sign};
use super::special::special_of;
use digit_floats::{Decimal, Mantissa, Power, decimal_of};
use digit_languages::prefix_word;

/// Whether a special value or a prefix is after the sign.
fn is_named(text: &[u8], start: usize, form: Form, sign: Sign) -> bool
    requires form { IsForm form }
    requires sign { IsSign form text.now start sign }
    ensures { result ≡ is_named form text.now start }
{
    let special = special_of(text, form, sign.end, sign.is_there, sign.is_minus);
    special.is_some() || prefix_word(language_of(form, sign.is_there), text, sign.end).is_some()
}

/// Where the digits of a number end that has neither a point nor an exponent: where the number
/// does, if they are decimal, and of an integer above 128 bits where all do.
fn read_end(
    text: &[u8],
    start: usize,
    form: Form,
    sign: Sign,
    mantissa: Mantissa,
) -> Result<usize, NumberError>
    requires form { IsForm form }
    requires sign { IsSign form text.now start sign }
    requires digits { IsMantissaAt form text.now mantissa }
    requires start { mantissa.start ≡ sign.end }
    requires no_float { is_float form text.now sign.end ≡ false }
    requires no_prefix { let l = language form text.now start in
        is_some (prefix_word l text.now sign.end) ≡ false }
    ensures is { result ≡ decimal_end form text.now start (plain_at form text.now start binary64) }
    ensures all { IfOk result (λ end. (end ≡ mantissa.whole_end → ⊥) →
        (has_byte text.now sign.end 48 ≡ true) × (end ≡ sign.end + 1)) }
    ensures end { IfOk result (λ end. (start < end) × (end ≤ length text.now)) }
{
    match read_whole::<f64>(text, start, form, sign, mantissa) {
        Ok(
            (
                Number::Integer {
                    negative: _,
                    magnitude: _,
                    word,
                },
                end,
            ),
        ) => {
            if word == form.integers.decimal {
                Ok(end)
            } else {
                Err(NumberError::Empty(sign.end))
            }
        }
        Ok((Number::Float(_), end)) => Ok(end),
        Err(NumberError::Overflow(_)) if !is_zero(text, sign.end) => Ok(mantissa.whole_end),
        Err(error) => Err(error),
    }
}

/// The decimal number of the digits before a point that end at a position: all that a mantissa has,
/// or a lone `0`.
fn whole_to(text: &[u8], form: Form, negative: bool, mantissa: Mantissa, end: usize) -> Decimal
    requires form { IsForm form }
    requires is { IsMantissaAt form text.now mantissa }
    requires all { (end ≡ mantissa.whole_end → ⊥) →
        (has_byte text.now mantissa.start 48 ≡ true) × (end ≡ mantissa.start + 1) }
    ensures { let r = rule_of form.integers.decimal Integer in result
        ≡ decimal_of negative (digits_between r text.now mantissa.start end) [] (pos 0) }
{
    if end != mantissa.whole_end {
        return Decimal {
            negative,
            value: 0,
            dropped: 0,
            exponent: 0,
        };
    }
    let whole = whole_of(text, form.integers.decimal, mantissa);
    decimal_of(text, negative, whole, Power::none(end))
}

/// The decimal number of a float's mantissa and power.
fn of_float(text: &[u8], form: Form, negative: bool, mantissa: Mantissa, power: Power) -> Decimal
    requires is { IsMantissaAt form text.now mantissa }
    requires power { IsPowerAt form text.now mantissa.start power }
    ensures { result ≡ decimal_of_parts negative (parts form text.now mantissa.start) }
{
    decimal_of(text, negative, mantissa, power)
}

/// The decimal number that begins at a start, where no special value and no prefix is.
#[tactic(auto, unfolding(crate::specs::Numbers::plain_at))]
fn read_plain_decimal(
    text: &[u8],
    start: usize,
    form: Form,
    sign: Sign,
) -> Result<(Decimal, usize), NumberError>
    requires within { start ≤ length text.now }
    requires form { IsForm form }
    requires sign { IsSign form text.now start sign }
    requires no_name { is_named form text.now start ≡ false }
    ensures is { result ≡ with_decimal form text.now start
        (decimal_end form text.now start (plain_at form text.now start binary64)) }
    ensures end { IfOk result (λ r. (start < r.1) × (r.1 ≤ length text.now)) }
{
    let mantissa = read_digits(text, form, sign.end);
    if let Some(power) = float_power(text, form, mantissa) {
        let number = of_float(text, form, sign.is_minus, mantissa, power);
        return Ok((number, power.end));
    }
    let end = read_end(text, start, form, sign, mantissa)?;
    Ok((whole_to(text, form, sign.is_minus, mantissa, end), end))
}

/// Reads the number that [`read_number_of`](crate::read_number_of) rounds: its digits and a power
/// of ten. Only decimal numbers are read: one with a prefix, as `0x1f`, and a special value, as
/// `inf`, are `Empty`. Requires that `start` is within the text, and that the form is one
/// ([`is_form`](crate::is_form)).
///
/// It begins at `start`, and is as it is written, before it is rounded; the position after it is
/// returned too. It is the same for digits with a point or an exponent, and for those without; an
/// integer above 128 bits is one too, unless its first digit is 0. What has another radix is none,
/// too.
///
/// ```text
/// of MySQL, `12.50,`: 1250 times ten to -2, 5
/// of Rust, `1_000e-3f64`: 1000 times ten to -3, 8      `0x1f`: Err(Empty(0))
/// ```
#[tactic(auto, using(crate::proofs::Decimals::no_hex), unfolding(crate::proofs::Decimals::both))]
pub fn read_decimal_of(
    text: &[u8],
    start: usize,
    form: Form,
) -> Result<(Decimal, usize), NumberError>
    requires within { start ≤ length text.now }
    requires form { IsForm form }
    ensures is { result ≡ decimal_of_at form text.now start }
    ensures end { IfOk result (λ r. (start < r.1) × (r.1 ≤ length text.now)) }
{
    let sign = read_sign(text, form, start);
    if is_named(text, start, form, sign) || has_separator(text, form.integers.decimal, sign.end) {
        return Err(NumberError::Empty(sign.end));
    }
    read_plain_decimal(text, start, form, sign)
}

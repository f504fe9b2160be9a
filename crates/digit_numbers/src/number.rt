//! The number at a position.

ghost use Rattle.std.specs.Prelude.{◌≡◌, ◌<◌, ◌≤◌, true, Some, None, Ok, Err, length};
ghost use Rattle.std.specs.Prelude.{IfOk, MatchOption, MatchResult};
ghost use Rattle.std.specs.Float.{NotNan};
ghost use Rattle.digit_numbers.specs.Forms.{IsForm};
ghost use Rattle.digit_numbers.specs.Numbers.{hex_word_here, number_of_at, special_here, to_end};
ghost use Rattle.digit_numbers.specs.Reads.{IsSign, Reads};
ghost use Rattle.digit_numbers.specs.Values.{integer_in, float_in, with_value, IsNoNan, none_at, position, message};

use super::form::Form;
use super::hexadecimal::hex_of;
use super::integer::{has_separator, is_zero};
use super::plain::read_plain;
use super::short::read_short;
use super::sign::{Sign, language_of, read_sign};
use super::special::special_of;
use digit_floats::{Float, round_integer};
use digit_integers::Integer;
use std::error::Error;
use std::fmt;

/// A number of a form: an integer, with its sign and its magnitude, or a float.
#[derive(Clone, Copy, Debug, PartialEq)]
pub enum Number<F> {
    Integer {
        /// Whether a minus is before it: also of `-0`.
        negative: bool,
        magnitude: u128,
        /// The word by which its digits were read. It has their radix, so `0xff` and `255` are not
        /// equal by `==`: compare what `as_integer` returns. Of `0xg` only the `0` is a number,
        /// and its word is the decimal one.
        word: u128,
    },
    /// The nearest float. `-0.0` is the negative zero, and what is too large is infinite.
    Float(F),
}

impl<F: Float> Number<F> {
    /// The integer as a `T`, if the number is an integer and fits `T`. `-0` is 0. With most forms
    /// `1.0` is a float, so it returns `None`.
    ///
    /// ```text
    /// `as_integer::<i8>`: `-128` is Some(-128); `128` and `1.5` are None
    /// ```
    #[inline]
    pub fn as_integer<T: Integer>(self) -> Option<T>
        ensures { let integer = integer_in T.MIN_MAGNITUDE T.MAX self in
            MatchOption result (integer ≡ None) (λ value. integer ≡ Some (T.number value)) }
    {
        match self {
            Number::Integer {
                negative,
                magnitude,
                word: _,
            } => {
                let most = if negative { T::MIN_MAGNITUDE } else { T::MAX };
                if magnitude <= most {
                    Some(T::of_magnitude(negative, magnitude))
                } else {
                    None
                }
            }
            Number::Float(_) => None,
        }
    }

    /// The float, or the one nearest to the integer: `-0` is the negative zero.
    #[inline]
    pub fn to_float(self) -> F
        ensures value { F.value result ≡ float_in F.format F.value self }
        ensures no_nan { IsNoNan F.value self → NotNan (F.value result) }
    {
        match self {
            Number::Integer {
                negative,
                magnitude,
                word: _,
            } => round_integer::<F>(negative, magnitude),
            Number::Float(x) => x,
        }
    }
}

/// Why no number of a form was read. A position counts bytes from the start of the text, from 0.
#[derive(Clone, Copy, Debug, PartialEq, Eq)]
pub enum NumberError {
    /// No number begins at this position, which is after any sign: it has neither a digit nor a
    /// special value of the form. `read_decimal_of` also returns it where a prefix or a special
    /// value begins.
    Empty(usize),
    /// With the digit at this position the integer is above 128 bits.
    Overflow(usize),
    /// The byte at this position is no part of the number.
    Invalid(usize),
}

impl fmt::Display for NumberError {
    ghost output = { λ e. Some (message e) };

    fn fmt<W: fmt::Write>(&self, f: &mut fmt::Formatter<W>) -> fmt::Result {
        match *self {
            NumberError::Empty(at) => write!(f, "there is no number at {at}"),
            NumberError::Overflow(at) => {
                write!(f, "the number is too large with the digit at {at}")
            }
            NumberError::Invalid(at) => write!(f, "the byte at {at} is no part of the number"),
        }
    }
}

impl Error for NumberError {}

impl NumberError {
    /// The position of the fault.
    pub fn position(self) -> usize
        ensures { result ≡ position self }
    {
        match self {
            NumberError::Empty(at) | NumberError::Overflow(at) | NumberError::Invalid(at) => at,
        }
    }

    /// Whether it says that no number begins at `place`. Then there is neither a digit nor a
    /// special value of the form, nor a sign that the form has.
    pub fn is_none_at(self, place: usize) -> bool
        ensures { result ≡ none_at place self }
    {
        match self {
            NumberError::Empty(at) => at == place,
            NumberError::Overflow(_) | NumberError::Invalid(_) => false,
        }
    }
}

/// Whether no hexadecimal float is after the sign, as far as its first byte tells.
#[inline(always)]
#[tactic(auto, unfolding(crate::specs::Numbers::hex_word_at))]
fn has_no_hex(text: &[u8], start: usize, form: Form, sign: Sign) -> bool
    requires sign { IsSign form text.now start sign }
    ensures { result ≡ true → hex_word_here form text.now start ≡ None }
{
    !form.hex_floats.exist() || !is_zero(text, sign.end)
}

/// [`read_number_of`], whatever the number is, where no special value is. In code of its own.
#[inline(never)]
#[tactic(auto, unfolding(crate::specs::Numbers::number_of_at))]
fn read_long<F: Float>(
    text: &[u8],
    start: usize,
    form: Form,
) -> Result<(Number<F>, usize), NumberError>
    requires within { start ≤ length text.now }
    requires form { IsForm form }
    requires no_special { special_here form text.now start ≡ None }
    ensures { Reads F.value text.now start (number_of_at form text.now start F.format) result }
{
    let sign = read_sign(text, form, start);
    let language = language_of(form, sign.is_there);
    if let Some((x, end)) = hex_of::<F>(text, form, language, sign.is_minus, sign.end) {
        return Ok((Number::Float(x), end));
    }
    if has_separator(text, form.integers.decimal, sign.end) {
        return Err(NumberError::Empty(sign.end));
    }
    read_plain::<F>(text, start, form, sign)
}

/// [`read_long`]. What its call takes and answers in memory belongs to this function, so it is set
/// only where that is called.
#[inline(always)]
fn read_rest<F: Float>(
    text: &[u8],
    start: usize,
    form: Form,
) -> Result<(Number<F>, usize), NumberError>
    requires within { start ≤ length text.now }
    requires form { IsForm form }
    requires no_special { special_here form text.now start ≡ None }
    ensures { Reads F.value text.now start (number_of_at form text.now start F.format) result }
{
    match read_long::<F>(text, start, form) {
        Ok((number, end)) => Ok((number, end)),
        Err(error) => Err(error),
    }
}

/// Reads the longest number of the form at `start`, and returns the position after it. An integer
/// has up to 128 bits. A larger one is [`Overflow`](NumberError::Overflow), or by some forms, such
/// as `forms::JSON`, the nearest float. What follows the number is yours to look at. Requires that
/// `start` is within the text, and that the form is one ([`is_form`](crate::is_form)).
///
/// | By | At 0 is | You get | It ends at |
/// |---|---|---|---|
/// | JSON | `-1.5e3,` | the float -1500.0 | 6 |
/// | JSON | `12]` | the integer 12 | 2 |
/// | JSON | `01` | the integer 0 | 1 |
/// | JSON | `1.` | the integer 1 | 1 |
/// | JSON | `.5` | `Err(Empty(0))` | |
/// | TOML | `-inf,` | the float -∞ | 4 |
///
/// After any sign it is the form's special value there, if there is one, or a hexadecimal float, or
/// else the longest integer or decimal float. Of `1e` JSON reads the `1`. A form may forbid more
/// digits after a first `0`; then the number is that `0` alone: of `01` JSON reads it, and of `001`
/// Python the `0` at 0. A number never begins with a separator: in `0_7` of Python none begins at
/// 1. A large integer is the nearest float by a form with `Whole::LargeIsFloat`.
///
/// ```text
/// of JSON, `-1.5e3,`: Float(-1500.0), 6      `.5`: Err(Empty(0))
/// ```
#[inline(always)]
#[tactic(auto, unfolding(crate::specs::Numbers::number_of_at))]
pub fn read_number_of<F: Float>(
    text: &[u8],
    start: usize,
    form: Form,
) -> Result<(Number<F>, usize), NumberError>
    requires within { start ≤ length text.now }
    requires form { IsForm form }
    ensures is { MatchResult result
        (λ r. number_of_at form text.now start F.format ≡ Ok (with_value F.value r.0, r.1))
        (λ error. number_of_at form text.now start F.format ≡ Err error) }
    ensures no_nan { special_here form text.now start ≡ None →
        IfOk result (λ r. IsNoNan F.value r.0) }
    ensures end { IfOk result (λ r. (start < r.1) × (r.1 ≤ length text.now)) }
{
    let sign = read_sign(text, form, start);
    if let Some((special, end)) = special_of(text, form, sign.end, sign.is_there, sign.is_minus) {
        let x = special.value.float::<F>(sign.is_minus);
        return Ok((Number::Float(x), end));
    }
    if has_no_hex(text, start, form, sign) {
        if let Some((number, end)) = read_short::<F>(text, start, form, sign) {
            return Ok((number, end));
        }
    }
    read_rest::<F>(text, start, form)
}

/// Reads a whole text as a number of a form: an integer or a float.
///
/// The number is as by [`read_number_of`]. A byte after it is [`Invalid`](NumberError::Invalid).
/// Requires that the form is one ([`is_form`](crate::is_form)).
#[inline(always)]
pub fn parse_number_of<F: Float>(text: &[u8], form: Form) -> Result<Number<F>, NumberError>
    requires { IsForm form }
    ensures is { let read = to_end text.now (number_of_at form text.now 0 F.format) in
        MatchResult result (λ n. read ≡ Ok (with_value F.value n)) (λ error. read ≡ Err error) }
    ensures no_nan { special_here form text.now 0 ≡ None → IfOk result (IsNoNan F.value) }
{
    let (number, end) = read_number_of::<F>(text, 0, form)?;
    if end < text.len() {
        return Err(NumberError::Invalid(end));
    }
    Ok(number)
}

//! Sign, mantissa and exponent of a number, each component from where it begins.

ghost use Rattle.std.specs.Prelude.{◌≡◌, true, false, ◌+◌, ◌-◌, ◌^◌, ◌<◌, ◌≤◌, min, if◌then◌else◌, length, filter, slice_range, IsTrue, IfSome, IfOk, IfErr, OnOk, Ok, Err, MatchResult};
ghost use Rattle.std.specs.Char.{is_ascii_digit, is_ascii_hexdigit};
ghost use Rattle.std.specs.Str.Parse.{digits_value, digits_value_after};
ghost use Rattle.lexical_format.specs.Word.{exponent_radix, is_supported};
ghost use Rattle.lexical_digits.specs.State.{rule_of};
ghost use Rattle.lexical_digits.specs.declared.skip.component.Component.TheVariants.{Integer, Fraction, Exponent};
ghost use Rattle.digit_floats.specs.Bytes.{stands, is_minus, is_point, is_mark};
ghost use Rattle.digit_floats.specs.Float.{IsDecimal, past_sign, digits_from, digits_end, fraction_digits, mantissa_end, exponent_digits, exponent_end, exponent_negative};
ghost use Rattle.digit_floats.specs.Float.{end_at};
ghost use Rattle.digit_floats.specs.Parts.{integer_of, fraction_of, exponent_of, HasFraction, IsFew, IsMantissa, IsMantissaFrom, IsPart, IsParts, IsPower, IsPowerFrom, IsShort, IsWhole};

use super::eights::read_decimal_part;
use super::error::FloatError;
use digit_values::{
    FirstDigits, has_byte, read_few_digits_from, read_first_digits_from, read_some_digits_from,
    read_some_digits_here,
};
use lexical_digits::skip::Component;

/// The bytes that begin a fraction and an exponent.
#[derive(Clone, Copy, Debug, PartialEq, Eq)]
pub struct Marks {
    /// Between integer and fraction.
    pub point: u8,
    /// Before an exponent. If it is a lower-case letter, the upper-case one marks it, too.
    pub exponent: u8,
}

impl Marks {
    /// `.` and `e`.
    pub const PLAIN: Marks = Marks {
        point: b'.',
        exponent: b'e',
    };
}

/// A sign, if there is one: whether it is a minus, and the position after it.
#[inline]
pub fn read_sign(text: &[u8], at: usize) -> (bool, usize)
    requires { at ≤ length text.now }
    ensures minus { result.0 ≡ stands is_minus text.now at }
    ensures after { result.1 ≡ past_sign text.now at }
    ensures within { result.1 ≤ length text.now }
{
    match text.get(at) {
        Some(b'-') => (true, at + 1),
        Some(b'+') => (false, at + 1),
        _ => (false, at),
    }
}

/// [`read_sign`], by no branch that depends on a minus. It is only for speed, of a number after
/// which none is read (the peers' row of coordinates).
#[inline(always)]
pub fn read_last_sign(text: &[u8], at: usize) -> (bool, usize)
    requires { at ≤ length text.now }
    ensures minus { result.0 ≡ stands is_minus text.now at }
    ensures after { result.1 ≡ past_sign text.now at }
    ensures within { result.1 ≤ length text.now }
{
    let Some(byte) = text.get(at) else {
        return (false, at);
    };
    if *byte == b'+' {
        return (false, at + 1);
    }
    let is_minus = *byte == b'-';
    (is_minus, at + usize::from(is_minus))
}

/// Whether the mark of an exponent is at a position.
#[inline(always)]
pub fn has_mark(text: &[u8], at: usize, mark: u8) -> bool
    ensures is { result ≡ stands (is_mark mark) text.now at }
    ensures within { result ≡ true → at < length text.now }
{
    match text.get(at) {
        Some(byte) => *byte == mark || *byte == mark.to_ascii_uppercase(),
        None => false,
    }
}

/// The first digits of a component from a position on, as many as leave their value at most `most`,
/// and where all its digits end.
#[inline(always)]
#[tactic(auto, using(crate::proofs::Decimals::firsts), unfolding(crate::specs::Float::components))]
pub fn read_part(
    text: &[u8],
    word: u128,
    component: Component,
    at: usize,
    most: u64,
) -> (FirstDigits, usize)
    requires supported { IsTrue (is_supported word) }
    requires within { at ≤ length text.now }
    ensures count { result.0.count ≡ length (digits_from word text.now component at) }
    ensures whole { result.0.dropped ≡ 0
        → result.0.value ≡ digits_value_after (rule_of word component).radix 0
        (digits_from word text.now component at) }
    ensures over { 0 < result.0.dropped
        → most < digits_value_after (rule_of word component).radix 0
        (digits_from word text.now component at) }
    ensures bytes { (rule_of word component).radix ≡ 10
        → filter is_ascii_digit (slice_range text.now at result.1)
        ≡ digits_from word text.now component at }
    ensures hex_bytes { (rule_of word component).radix ≡ 16
        → filter is_ascii_hexdigit (slice_range text.now at result.1)
        ≡ digits_from word text.now component at }
    ensures end { result.1 ≡ digits_end word text.now component at }
    ensures onward { at + result.0.count ≤ result.1 }
    ensures within { result.1 ≤ length text.now }
{
    read_first_digits_from(text, word, component, at, 0, most)
}

/// The digits of integer and fraction, and where they are in their text.
#[derive(Clone, Copy, Debug, PartialEq, Eq)]
pub struct Mantissa {
    /// The first 19 significant ones as a number. The first that is no zero is the first
    /// significant one.
    pub value: u64,
    /// How many digits there are, including leading zeros.
    pub digits: usize,
    /// How many of them follow the point.
    pub places: usize,
    /// How many follow the first 19 significant ones.
    pub dropped: usize,
    /// Where the integer begins.
    pub start: usize,
    /// Where it ends: here a point is, if any.
    pub whole_end: usize,
    /// Where the fraction begins: after a point, if any.
    pub fraction_start: usize,
    /// Where the fraction ends.
    pub end: usize,
}

impl Mantissa {
    /// An integer alone, whose digits were read: its first ones, and where it ends.
    #[inline(always)]
    fn whole(text: &[u8], word: u128, at: usize, read: (FirstDigits, usize)) -> Mantissa
        requires { IsPart word text.now Integer at 0 read }
        ensures { IsWhole word text.now at read result }
    {
        let (digits, end) = read;
        Mantissa {
            value: digits.value,
            digits: digits.count,
            places: 0,
            dropped: digits.dropped,
            start: at,
            whole_end: end,
            fraction_start: end,
            end,
        }
    }

    /// An integer alone, and then a byte and a fraction, whose digits were read.
    #[inline(always)]
    fn with_fraction(self, text: &[u8], word: u128, read: (FirstDigits, usize)) -> Mantissa
        requires is { IsMantissa text.now self }
        requires places { self.places ≡ 0 }
        requires end { self.end ≡ self.whole_end }
        requires dropped { self.dropped ≤ self.digits }
        requires fraction { IsPart word text.now Fraction (self.whole_end + 1) self.value read }
        ensures { HasFraction text.now self read result }
    {
        let (digits, end) = read;
        Mantissa {
            value: digits.value,
            digits: self.digits + digits.count,
            places: digits.count,
            dropped: self.dropped + digits.dropped,
            fraction_start: self.whole_end + 1,
            end,
            ..self
        }
    }
}

/// [`read_mantissa`], where `by_eights` says whether each component is looked at for eight digits
/// at once first: that is faster of more than 19 digits.
#[inline(always)]
#[tactic(auto, unfolding(crate::specs::Float::mantissas))]
fn read_mantissa_by(text: &[u8], word: u128, at: usize, point: u8, by_eights: bool) -> Mantissa
    requires supported { IsTrue (is_supported word) }
    requires decimal { IsDecimal word }
    requires within { at ≤ length text.now }
    ensures is { IsMantissaFrom word point text.now at result }
    ensures fraction_start { let e = digits_end word text.now Integer at in result.fraction_start
        ≡ (if stands (is_point point) text.now e then e + 1 else e) }
{
    let integer = read_decimal_part(text, word, Component::Integer, at, 0, by_eights);
    let whole = Mantissa::whole(text, word, at, integer);
    if !has_byte(text, whole.whole_end, point) {
        return whole;
    }
    let at = whole.whole_end + 1;
    let fraction = read_decimal_part(text, word, Component::Fraction, at, whole.value, by_eights);
    whole.with_fraction(text, word, fraction)
}

/// Reads the digits of integer and fraction from a position on, without a sign. There may be none:
/// test `digits`.
#[inline(always)]
pub fn read_mantissa(text: &[u8], word: u128, at: usize, point: u8) -> Mantissa
    requires supported { IsTrue (is_supported word) }
    requires decimal { IsDecimal word }
    requires within { at ≤ length text.now }
    ensures is { IsMantissa text.now result }
    ensures integer { integer_of text.now result ≡ digits_from word text.now Integer at }
    ensures fraction { let e = digits_end word text.now Integer at in
        fraction_of text.now result ≡ fraction_digits word text.now point e }
    ensures start { result.start ≡ at }
    ensures whole_end { result.whole_end ≡ digits_end word text.now Integer at }
    ensures fraction_start { let e = digits_end word text.now Integer at in result.fraction_start
        ≡ (if stands (is_point point) text.now e then e + 1 else e) }
    ensures end { result.end ≡ mantissa_end word text.now point at }
{
    read_mantissa_by(text, word, at, point, false)
}

/// The first digits of a component where none was dropped: written as a 0, so that no caller asks.
#[inline(always)]
fn undropped(digits: FirstDigits) -> FirstDigits
    requires { digits.dropped ≡ 0 }
    ensures { result ≡ digits }
{
    FirstDigits {
        dropped: 0,
        ..digits
    }
}

/// The digits of a component, if there are 1 to 19, and no separator is met.
#[inline(always)]
#[tactic(auto, using(crate::proofs::Decimals::firsts), unfolding(crate::specs::Float::components))]
fn read_some_part(
    text: &[u8],
    word: u128,
    component: Component,
    at: usize,
) -> Option<(FirstDigits, usize)>
    requires supported { IsTrue (is_supported word) }
    requires decimal { (rule_of word component).radix ≡ 10 }
    requires within { at ≤ length text.now }
    ensures is { IfSome result (IsPart word text.now component at 0) }
    ensures few { IfSome result (IsFew 0) }
    ensures some { IfSome result (λ r. 0 < r.0.count) }
    ensures digit { IfSome result (λ _. stands is_ascii_digit text.now at ≡ true) }
{
    let (digits, end) = read_some_digits_from(text, word, component, at)?;
    Some((undropped(digits), end))
}

/// [`read_some_part`] in the place of its call.
#[inline(always)]
#[tactic(auto, using(crate::proofs::Decimals::firsts), unfolding(crate::specs::Float::components))]
fn read_some_part_here(
    text: &[u8],
    word: u128,
    component: Component,
    at: usize,
) -> Option<(FirstDigits, usize)>
    requires supported { IsTrue (is_supported word) }
    requires decimal { (rule_of word component).radix ≡ 10 }
    requires within { at ≤ length text.now }
    ensures is { IfSome result (IsPart word text.now component at 0) }
    ensures few { IfSome result (IsFew 0) }
    ensures some { IfSome result (λ r. 0 < r.0.count) }
{
    read_some_digits_here(text, word, component, at)
}

/// The digits of a fraction, after so many of an integer, if there are at most 19 in all, and no
/// separator is met.
#[inline(always)]
#[tactic(auto, using(crate::proofs::Decimals::firsts), unfolding(crate::specs::Float::components))]
fn read_few_part(
    text: &[u8],
    word: u128,
    at: usize,
    before: u64,
    counted: usize,
) -> Option<(FirstDigits, usize)>
    requires supported { IsTrue (is_supported word) }
    requires decimal { IsDecimal word }
    requires within { at ≤ length text.now }
    requires before { before < 10 ^ counted }
    requires counted { counted ≤ 19 }
    ensures is { IfSome result (IsPart word text.now Fraction at before) }
    ensures few { IfSome result (IsFew counted) }
{
    let (digits, end) = read_few_digits_from(text, word, Component::Fraction, at, before, counted)?;
    Some((undropped(digits), end))
}

/// The integer of a mantissa from a position on, where it has 1 to 19 digits, and no separator is
/// met. Otherwise it answers `None`, and [`read_mantissa`] reads it. It is small, and calls
/// nothing.
#[inline(always)]
pub fn read_short_whole(text: &[u8], word: u128, at: usize) -> Option<Mantissa>
    requires supported { IsTrue (is_supported word) }
    requires decimal { IsDecimal word }
    requires within { at ≤ length text.now }
    ensures is { IfSome result (IsShort word text.now) }
    ensures start { IfSome result (λ m. m.start ≡ at) }
    ensures some { IfSome result (λ m. 0 < m.digits) }
    ensures digit { IfSome result (λ _. stands is_ascii_digit text.now at ≡ true) }
{
    let read = read_some_part(text, word, Component::Integer, at)?;
    Some(Mantissa::whole(text, word, at, read))
}

/// The mantissa whose integer was read by [`read_short_whole`], where it has at most 19 digits, no
/// separator is met, and a byte follows any point. Otherwise it answers `None`, and
/// [`read_mantissa`] reads it.
#[inline(always)]
#[tactic(auto, unfolding(crate::specs::Float::mantissas))]
pub fn read_short_fraction(text: &[u8], word: u128, whole: Mantissa, point: u8) -> Option<Mantissa>
    requires supported { IsTrue (is_supported word) }
    requires decimal { IsDecimal word }
    requires is { IsShort word text.now whole }
    ensures is { IfSome result (IsMantissa text.now) }
    ensures integer { IfSome result (λ m.
        integer_of text.now m ≡ digits_from word text.now Integer whole.start) }
    ensures fraction { let e = digits_end word text.now Integer whole.start in
        IfSome result (λ m. fraction_of text.now m ≡ fraction_digits word text.now point e) }
    ensures start { IfSome result (λ m. m.start ≡ whole.start) }
    ensures whole_end { IfSome result (λ m. m.whole_end ≡ whole.whole_end) }
    ensures end { IfSome result (λ m. m.end ≡ mantissa_end word text.now point whole.start) }
    ensures digits { IfSome result (λ m. m.digits ≡ whole.digits + m.places) }
    ensures few { IfSome result (λ m. m.dropped ≡ 0) }
{
    if !has_byte(text, whole.whole_end, point) {
        return Some(whole);
    }
    let at = whole.whole_end + 1;
    // with a way for no byte of a fraction, the loop over its digits has two instructions more
    if at >= text.len() {
        return None;
    }
    let read = read_few_part(text, word, at, whole.value, whole.digits)?;
    Some(whole.with_fraction(text, word, read))
}

/// An exponent.
#[derive(Clone, Copy, Debug, PartialEq, Eq)]
pub struct Power {
    /// Whether it has a minus.
    pub negative: bool,
    /// Its value, or the greatest that fits.
    pub value: u64,
    /// Where its digits end.
    pub end: usize,
}

impl Power {
    /// The exponent of a number that has none and ends at a position: 0.
    #[inline(always)]
    pub const fn none(end: usize) -> Power
        ensures negative { result.negative ≡ false }
        ensures value { result.value ≡ 0 }
        ensures end { result.end ≡ end }
    {
        Power {
            negative: false,
            value: 0,
            end,
        }
    }
}

/// Reads an exponent if its mark is at this position; without a mark it is 0, and ends here. If no
/// digit follows the mark and its sign, the error is the position where it is missing: 2 in `1e;`.
/// Requires that the word is supported, and that its exponent is decimal.
#[inline(always)]
#[tactic(auto, unfolding(crate::specs::Float::exponents))]
pub fn read_exponent(text: &[u8], word: u128, at: usize, mark: u8) -> Result<Power, usize>
    requires supported { IsTrue (is_supported word) }
    requires decimal { exponent_radix word ≡ 10 }
    requires within { at ≤ length text.now }
    ensures is { IfOk result (IsPower text.now at) }
    ensures digits { IfOk result (λ p.
        exponent_of text.now at p ≡ exponent_digits word text.now mark at) }
    ensures value { IfOk result (λ p.
        p.value ≡ min (digits_value 10 (exponent_digits word text.now mark at)) (2 ^ 64 - 1)) }
    ensures negative { IfOk result (λ p. p.negative ≡ exponent_negative word text.now mark at) }
    ensures end { IfOk result (λ p. p.end ≡ exponent_end word text.now mark at) }
    ensures within { IfOk result (λ p. (at ≤ p.end) × (p.end ≤ length text.now)) }
    ensures some { OnOk result (stands (is_mark mark) text.now at ≡ true
        → 0 < length (exponent_digits word text.now mark at)) }
    ensures mark { IfErr result (λ _. stands (is_mark mark) text.now at ≡ true) }
    ensures none { IfErr result (λ _. length (exponent_digits word text.now mark at) ≡ 0) }
    ensures stops { IfErr result (λ stop. stop ≡ exponent_end word text.now mark at) }
{
    if !has_mark(text, at, mark) {
        return Ok(Power::none(at));
    }
    let (negative, start) = read_sign(text, at + 1);
    let (part, end) = read_part(text, word, Component::Exponent, start, u64::MAX);
    if part.count == 0 {
        return Err(end);
    }
    let value = if part.dropped > 0 {
        u64::MAX
    } else {
        part.value
    };
    Ok(Power {
        negative,
        value,
        end,
    })
}

/// [`read_exponent`] where its mark is at a position, if 1 to 19 digits follow, and no separator is
/// met. Otherwise it answers `None`.
#[inline(always)]
#[tactic(auto, unfolding(crate::specs::Float::exponents))]
pub fn read_short_exponent(text: &[u8], word: u128, at: usize, mark: u8) -> Option<Power>
    requires supported { IsTrue (is_supported word) }
    requires decimal { exponent_radix word ≡ 10 }
    requires mark { stands (is_mark mark) text.now at ≡ true }
    requires within { at < length text.now }
    ensures is { IfSome result (IsPowerFrom word mark text.now at) }
    ensures some { IfSome result (λ _. 0 < length (exponent_digits word text.now mark at)) }
{
    let (negative, start) = read_sign(text, at + 1);
    let (part, end) = read_some_part(text, word, Component::Exponent, start)?;
    Some(Power {
        negative,
        value: part.value,
        end,
    })
}

/// [`read_short_exponent`], whose digits are read in the place of its call. It is only for speed,
/// of numbers of a form with an exponent and no point (the peers' row of JSON).
#[inline(always)]
#[tactic(auto, unfolding(crate::specs::Float::exponents))]
pub fn read_short_exponent_here(text: &[u8], word: u128, at: usize, mark: u8) -> Option<Power>
    requires supported { IsTrue (is_supported word) }
    requires decimal { exponent_radix word ≡ 10 }
    requires mark { stands (is_mark mark) text.now at ≡ true }
    requires within { at < length text.now }
    ensures is { IfSome result (IsPowerFrom word mark text.now at) }
    ensures some { IfSome result (λ _. 0 < length (exponent_digits word text.now mark at)) }
{
    let (negative, start) = read_sign(text, at + 1);
    let (part, end) = read_some_part_here(text, word, Component::Exponent, start)?;
    Some(Power {
        negative,
        value: part.value,
        end,
    })
}

/// [`read_exponent`] where 1 to 19 digits follow any mark, and no separator is met. Otherwise it
/// answers `None`.
#[inline(always)]
#[tactic(auto, unfolding(crate::specs::Float::exponents))]
fn read_short_power(text: &[u8], word: u128, at: usize, mark: u8) -> Option<Power>
    requires supported { IsTrue (is_supported word) }
    requires decimal { exponent_radix word ≡ 10 }
    requires within { at ≤ length text.now }
    ensures is { IfSome result (IsPowerFrom word mark text.now at) }
    ensures some { IfSome result (λ _. stands (is_mark mark) text.now at ≡ true
        → 0 < length (exponent_digits word text.now mark at)) }
{
    if has_mark(text, at, mark) {
        return read_short_exponent(text, word, at, mark);
    }
    Some(Power::none(at))
}

/// The parts of a number.
#[derive(Clone, Copy)]
pub struct Parts {
    /// Whether it has a minus.
    pub negative: bool,
    pub mantissa: Mantissa,
    pub power: Power,
}

/// Reads a number from a position on, with its mantissa as by [`read_mantissa_by`].
#[inline(always)]
pub fn read_parts(
    text: &[u8],
    word: u128,
    marks: Marks,
    start: usize,
    by_eights: bool,
) -> Result<Parts, FloatError>
    requires supported { IsTrue (is_supported word) }
    requires decimal { IsDecimal word }
    requires within { start ≤ length text.now }
    ensures ends { MatchResult result
        (λ p. end_at word text.now marks start ≡ Ok p.power.end)
        (λ error. end_at word text.now marks start ≡ Err error) }
    ensures is { IfOk result (IsParts word text.now marks start) }
    ensures within { IfOk result (λ p. (start < p.power.end) × (p.power.end ≤ length text.now)) }
{
    let (negative, at) = read_sign(text, start);
    let mantissa = read_mantissa_by(text, word, at, marks.point, by_eights);
    if mantissa.digits == 0 {
        return Err(FloatError::Empty(mantissa.end));
    }
    match read_exponent(text, word, mantissa.end, marks.exponent) {
        Ok(power) => Ok(Parts {
            negative,
            mantissa,
            power,
        }),
        Err(stop) => Err(FloatError::EmptyExponent(stop)),
    }
}

/// [`read_parts`] of a number whose sign was read, and whose integer has a digit, where integer and
/// fraction have at most 19 digits, an exponent has 1 to 19, and no separator is met. Otherwise it
/// answers `None`. It is small, and calls nothing.
#[inline(always)]
pub fn read_short_parts(
    text: &[u8],
    word: u128,
    marks: Marks,
    start: usize,
    sign: (bool, usize),
) -> Option<Parts>
    requires supported { IsTrue (is_supported word) }
    requires decimal { IsDecimal word }
    requires within { start ≤ length text.now }
    requires minus { sign.0 ≡ stands is_minus text.now start }
    requires after { sign.1 ≡ past_sign text.now start }
    requires digits { sign.1 ≤ length text.now }
    ensures ends { IfSome result (λ p. end_at word text.now marks start ≡ Ok p.power.end) }
    ensures is { IfSome result (IsParts word text.now marks start) }
    ensures few { IfSome result (λ p. p.mantissa.dropped ≡ 0) }
    ensures within { IfSome result (λ p.
        (start < p.power.end) × (p.power.end ≤ length text.now)) }
{
    let (negative, at) = sign;
    let whole = read_short_whole(text, word, at)?;
    let mantissa = read_short_fraction(text, word, whole, marks.point)?;
    let power = read_short_power(text, word, mantissa.end, marks.exponent)?;
    Some(Parts {
        negative,
        mantissa,
        power,
    })
}

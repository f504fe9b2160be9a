//! The float at a position, by a form.

ghost use Rattle.std.specs.Prelude.{◌≡◌, Err, ◌+◌, ◌-◌, ◌*◌, ◌^◌, ◌++◌, ◌<◌, ◌≤◌, false, true, min, length, [], None, IfSome, IfOk, IfErr, OnOk, MatchOption, IsTrue};
ghost use Rattle.std.specs.Float.{NotNan};
ghost use Rattle.std.specs.Float.Ieee.{round};
ghost use Rattle.std.specs.Float.Numeral.{nearest_float};
ghost use Rattle.std.specs.Str.Parse.{digits_value};
ghost use Rattle.lexical_digits.specs.declared.skip.component.Component.TheVariants.{Integer};
ghost use Rattle.lexical_format.specs.Word.{is_supported, exponent_radix};
ghost use Rattle.lexical_digits.specs.State.{rule_of};
ghost use Rattle.digit_integers.specs.Integers.{integer_at};
ghost use Rattle.digit_values.specs.declared.LiteralError.TheVariants.{Overflow};
ghost use Rattle.digit_floats.specs.Bytes.{stands, is_point, is_mark};
ghost use Rattle.digit_floats.specs.Float.{IsDecimal, digits_from, digits_end, exponent_digits, exponent_negative, parts_at};
ghost use Rattle.digit_floats.specs.Parts.{integer_of, fraction_of, IsMantissa, IsPowerFrom, IsShort};
ghost use Rattle.digit_numbers.specs.Forms.{IsForm, is_barred};
ghost use Rattle.digit_numbers.specs.Numbers.{allows_point, digits_stop, exponent, fraction, has_exponent, has_more_zeros, is_float, mark_at, mark_or, parts, whole_end};
ghost use Rattle.digit_numbers.specs.Reads.{IsMantissaAt, IsExponentAt, IsFloatRead, IsPowerAt, IsWholeOf, whole_of};

use super::form::Form;
use super::integer::is_zero;
use digit_floats::{
    Float, Mantissa, Power, has_mark, read_exponent, read_mantissa, read_short_exponent,
    read_short_exponent_here, read_short_fraction, round_few, round_few_with, round_integer,
    round_parts,
};
use digit_values::has_byte;

/// Whether a byte is at a position that may not follow a point.
#[inline(always)]
pub(super) fn has_barred(text: &[u8], form: Form, at: usize) -> bool
    ensures is { result ≡ stands (is_barred form.after_point) text.now at }
{
    match text.get(at) {
        Some(byte) => form.after_point.is_barred(*byte),
        None => false,
    }
}

/// Whether a point that follows the integer counts.
#[inline(always)]
fn allows_point(text: &[u8], form: Form, mantissa: Mantissa) -> bool
    requires is { IsMantissaAt form text.now mantissa }
    ensures { result ≡ allows_point form text.now mantissa.start }
{
    if mantissa.digits == mantissa.places && form.needs_integer {
        return false;
    }
    mantissa.places > 0 || !(form.needs_fraction || has_barred(text, form, mantissa.whole_end + 1))
}

/// Whether more digits follow a first `0`, which the form refuses.
#[inline]
pub fn has_more_zeros(text: &[u8], form: Form, mantissa: Mantissa) -> bool
    requires { mantissa.whole_end ≡ whole_end form text.now mantissa.start }
    ensures { result ≡ has_more_zeros form text.now mantissa.start }
{
    !form.float_zeros && is_zero(text, mantissa.start) && mantissa.start + 1 < mantissa.whole_end
}

/// [`read_exponent`] in code of its own: with it more would be inlined than the compiler does.
#[inline(never)]
fn read_exponent_apart(text: &[u8], word: u128, at: usize, mark: u8) -> Result<Power, usize>
    requires supported { IsTrue (is_supported word) }
    requires decimal { exponent_radix word ≡ 10 }
    requires within { at ≤ length text.now }
    ensures is { IfOk result (IsPowerFrom word mark text.now at) }
    ensures some { OnOk result (stands (is_mark mark) text.now at ≡ true
        → 0 < length (exponent_digits word text.now mark at)) }
    ensures none { IfErr result (λ _. length (exponent_digits word text.now mark at) ≡ 0) }
{
    read_exponent(text, word, at, mark)
}

/// The mark of an exponent at a position: the form's other one, if it is there.
#[inline(always)]
fn mark_at(text: &[u8], form: Form, at: usize) -> u8
    ensures { result ≡ mark_or form text.now form.other_mark at }
{
    match form.other_mark {
        Some(other) if has_mark(text, at, other) => other,
        _ => form.marks.exponent,
    }
}

/// The exponent after a mantissa, if there is one.
#[inline(always)]
#[tactic(auto, unfolding(digit_floats::specs::Float::exponents))]
fn read_power(text: &[u8], form: Form, mantissa: Mantissa) -> Option<Power>
    requires form { IsForm form }
    requires is { IsMantissaAt form text.now mantissa }
    requires mark { mantissa.end ≡ mark_at form text.now mantissa.start }
    ensures is { MatchOption result (has_exponent form text.now mantissa.start ≡ false)
        (λ p. has_exponent form text.now mantissa.start ≡ true) }
    ensures value { IfSome result (λ p. p.value
        ≡ min (digits_value 10 (exponent form text.now mantissa.start)) (2 ^ 64 - 1)) }
    ensures negative { IfSome result (λ p. p.negative
        ≡ (parts form text.now mantissa.start).exponent_negative) }
    ensures end { IfSome result (λ p. p.end ≡ digits_stop form text.now mantissa.start) }
    ensures within { IfSome result (λ p. (mantissa.end ≤ p.end) × (p.end ≤ length text.now)) }
{
    let mark = mark_at(text, form, mantissa.end);
    if !form.exponents.allow(mantissa.places > 0) || !has_mark(text, mantissa.end, mark) {
        return None;
    }
    read_exponent_apart(text, form.integers.decimal, mantissa.end, mark).ok()
}

/// The exponent 0 of a float that has none.
#[inline(always)]
fn no_power(text: &[u8], form: Form, mantissa: Mantissa) -> Power
    requires is { IsMantissaAt form text.now mantissa }
    requires float { is_float form text.now mantissa.start ≡ true }
    requires mark { mantissa.end ≡ mark_at form text.now mantissa.start }
    requires fraction { fraction form text.now mantissa.start
        ≡ (parts form text.now mantissa.start).fraction }
    requires none { has_exponent form text.now mantissa.start ≡ false }
    ensures is { IsPowerAt form text.now mantissa.start result }
    ensures end { result.end ≡ mantissa.end }
{
    Power::none(mantissa.end)
}

/// The exponent of the float that a mantissa begins, or 0 if it has none. `None` if it begins no
/// float.
#[inline(always)]
#[tactic(auto, using(crate::proofs::Digits::floats))]
pub fn float_power(text: &[u8], form: Form, mantissa: Mantissa) -> Option<Power>
    requires form { IsForm form }
    requires is { IsMantissaAt form text.now mantissa }
    ensures is { MatchOption result (is_float form text.now mantissa.start ≡ false)
        (IsPowerAt form text.now mantissa.start) }
    ensures within { IfSome result (λ p. (mantissa.end ≤ p.end) × (p.end ≤ length text.now)) }
    ensures some { IfSome result (λ _. 0 < mantissa.digits) }
{
    if mantissa.digits == 0 || has_more_zeros(text, form, mantissa) {
        return None;
    }
    let is_pointed = has_byte(text, mantissa.whole_end, form.marks.point);
    if is_pointed && !allows_point(text, form, mantissa) {
        return None;
    }
    match read_power(text, form, mantissa) {
        Some(power) => Some(power),
        None if is_pointed => Some(no_power(text, form, mantissa)),
        None => None,
    }
}

/// The float of a mantissa that is at a position, and where it ends, if there is one.
#[inline(always)]
pub fn read_float<F: Float>(
    text: &[u8],
    form: Form,
    negative: bool,
    mantissa: Mantissa,
) -> Option<(F, usize)>
    requires form { IsForm form }
    requires is { IsMantissaAt form text.now mantissa }
    ensures { MatchOption result (is_float form text.now mantissa.start ≡ false)
        (IsFloatRead F.format F.value form text.now mantissa.start negative) }
{
    let power = float_power(text, form, mantissa)?;
    // the only place, so that rounding is inlined once
    let x = round_at::<F>(text, form, negative, mantissa, power);
    Some((x, power.end))
}

/// The float of a mantissa and its power.
#[inline(always)]
fn round_at<F: Float>(
    text: &[u8],
    form: Form,
    negative: bool,
    mantissa: Mantissa,
    power: Power,
) -> F
    requires is { IsMantissaAt form text.now mantissa }
    requires power { IsPowerAt form text.now mantissa.start power }
    ensures value { F.value result ≡ nearest_float F.format negative
        (parts form text.now mantissa.start) }
    ensures number { NotNan (F.value result) }
{
    round_parts::<F>(text, negative, mantissa, power)
}

/// The float of a mantissa and of the exponent after it, and where it ends, if the form has an
/// exponent here, and one operation or one product tells.
#[inline(always)]
fn round_marked<F: Float>(
    text: &[u8],
    form: Form,
    negative: bool,
    mantissa: Mantissa,
    power: Power,
) -> Option<(F, usize)>
    requires form { IsForm form }
    requires one_mark { form.other_mark ≡ None }
    requires is { IsMantissaAt form text.now mantissa }
    requires some { mantissa.places < mantissa.digits }
    requires zeros { has_more_zeros form text.now mantissa.start ≡ false }
    requires pointed { stands (is_point form.marks.point) text.now mantissa.whole_end ≡ true
        → 0 < mantissa.places }
    requires mark { stands (is_mark form.marks.exponent) text.now mantissa.end ≡ true }
    requires few { mantissa.dropped ≡ 0 }
    requires power { IsExponentAt form text.now mantissa power }
    ensures { IfSome result
        (IsFloatRead F.format F.value form text.now mantissa.start negative) }
{
    let has_fraction = mantissa.places > 0;
    if !form.exponents.allow(has_fraction) {
        return None;
    }
    match round_powered::<F>(text, form, negative, mantissa, power) {
        Some(x) => Some((x, power.end)),
        None => None,
    }
}

/// The float of a mantissa and of the exponent after it, if one operation or one product tells.
#[inline(always)]
fn round_powered<F: Float>(
    text: &[u8],
    form: Form,
    negative: bool,
    mantissa: Mantissa,
    power: Power,
) -> Option<F>
    requires is { IsMantissaAt form text.now mantissa }
    requires few { mantissa.dropped ≡ 0 }
    requires power { IsExponentAt form text.now mantissa power }
    ensures value { IfSome result (λ x. F.value x ≡ nearest_float F.format negative
        (parts_at form.integers.decimal text.now form.marks mantissa.start)) }
    ensures number { IfSome result (λ x. NotNan (F.value x)) }
{
    round_few_with::<F>(text, negative, mantissa, power)
}

/// The mantissa after its integer, if it is short.
#[inline(always)]
#[tactic(auto, using(crate::proofs::ShortNumbers::no_point_end))]
fn read_fraction(text: &[u8], form: Form, whole: Mantissa) -> Option<Mantissa>
    requires form { IsForm form }
    requires is { IsShort form.integers.decimal text.now whole }
    ensures is { IfSome result (IsMantissaAt form text.now) }
    ensures start { IfSome result (λ m. m.start ≡ whole.start) }
    ensures whole_end { IfSome result (λ m. m.whole_end ≡ whole.whole_end) }
    ensures digits { IfSome result (λ m. m.digits ≡ whole.digits + m.places) }
    ensures few { IfSome result (λ m. m.dropped ≡ 0) }
    ensures none { stands (is_point form.marks.point) text.now whole.whole_end ≡ false
        → IfSome result (λ m. m.end ≡ whole.whole_end) }
{
    read_short_fraction(text, form.integers.decimal, whole, form.marks.point)
}

/// The float of a mantissa that no mark of an exponent follows, if one division or one product
/// tells.
#[inline(always)]
fn round_unmarked<F: Float>(
    text: &[u8],
    form: Form,
    negative: bool,
    mantissa: Mantissa,
) -> Option<F>
    requires is { IsMantissaAt form text.now mantissa }
    requires few { mantissa.dropped ≡ 0 }
    requires none { stands (is_mark form.marks.exponent) text.now mantissa.end ≡ false }
    ensures value { IfSome result (λ x. F.value x ≡ nearest_float F.format negative
        (parts_at form.integers.decimal text.now form.marks mantissa.start)) }
    ensures number { IfSome result (λ x. NotNan (F.value x)) }
{
    match round_few::<F>(text, negative, mantissa) {
        Some(x) => Some(x),
        None => None,
    }
}

/// The float of the digits before a point that is there, if it is short: digits follow the point,
/// and any mark of an exponent, which the form has there, and it refuses no first `0`.
#[inline(always)]
pub fn read_short_pointed<F: Float>(
    text: &[u8],
    form: Form,
    negative: bool,
    whole: Mantissa,
) -> Option<(F, usize)>
    requires form { IsForm form }
    requires one_mark { form.other_mark ≡ None }
    requires is { IsShort form.integers.decimal text.now whole }
    requires some { 0 < whole.digits }
    requires point { stands (is_point form.marks.point) text.now whole.whole_end ≡ true }
    ensures { IfSome result (IsFloatRead F.format F.value form text.now whole.start negative) }
{
    if has_more_zeros(text, form, whole) {
        return None;
    }
    let mantissa = read_fraction(text, form, whole)?;
    if mantissa.places == 0 {
        return None;
    }
    let mark = form.marks.exponent;
    if has_mark(text, mantissa.end, mark) {
        let power = read_short_exponent(text, form.integers.decimal, mantissa.end, mark)?;
        return round_marked::<F>(text, form, negative, mantissa, power);
    }
    let x = round_unmarked::<F>(text, form, negative, mantissa)?;
    Some((x, mantissa.end))
}

/// The mantissa that the digits of an integer are where no point follows them.
#[inline(always)]
#[tactic(auto, unfolding(crate::proofs::ShortNumbers::mantissas))]
fn mantissa_of_whole(text: &[u8], form: Form, whole: Mantissa) -> Mantissa
    requires is { IsShort form.integers.decimal text.now whole }
    requires point { stands (is_point form.marks.point) text.now whole.whole_end ≡ false }
    ensures is { IsMantissaAt form text.now result }
    ensures same { result ≡ whole }
{
    whole
}

/// The float of the digits before the mark of an exponent that is there, if it is short: the form
/// has an exponent there, digits follow the mark, and it refuses no first `0`.
#[inline(always)]
pub fn read_short_marked<F: Float>(
    text: &[u8],
    form: Form,
    negative: bool,
    whole: Mantissa,
) -> Option<(F, usize)>
    requires form { IsForm form }
    requires one_mark { form.other_mark ≡ None }
    requires is { IsShort form.integers.decimal text.now whole }
    requires some { 0 < whole.digits }
    requires point { stands (is_point form.marks.point) text.now whole.whole_end ≡ false }
    requires mark { stands (is_mark form.marks.exponent) text.now whole.whole_end ≡ true }
    requires within { whole.whole_end < length text.now }
    ensures { IfSome result (IsFloatRead F.format F.value form text.now whole.start negative) }
{
    if has_more_zeros(text, form, whole) {
        return None;
    }
    let mantissa = mantissa_of_whole(text, form, whole);
    let mark = form.marks.exponent;
    let power = read_short_exponent_here(text, form.integers.decimal, mantissa.end, mark)?;
    round_marked::<F>(text, form, negative, mantissa, power)
}

/// The float that few digits are by themselves, if one division tells.
#[inline]
pub fn round_short_whole<F: Float>(
    text: &[u8],
    word: u128,
    negative: bool,
    whole: Mantissa,
) -> Option<F>
    requires is { IsShort word text.now whole }
    ensures value { IfSome result (λ x. F.value x ≡ nearest_float F.format negative
        (whole_of word text.now whole.start)) }
    ensures number { IfSome result (λ x. NotNan (F.value x)) }
{
    round_few::<F>(text, negative, whole)
}

/// The float of a mantissa without an exponent.
#[inline(always)]
fn round_alone<F: Float>(text: &[u8], negative: bool, mantissa: Mantissa) -> F
    requires is { IsMantissa text.now mantissa }
    ensures value { F.value result ≡ round F.format negative
        (digits_value 10 (integer_of text.now mantissa ++ fraction_of text.now mantissa))
        (10 ^ mantissa.places) }
{
    round_parts::<F>(text, negative, mantissa, Power::none(mantissa.end))
}

/// A byte that isn't at a position.
#[inline(always)]
fn other_byte(text: &[u8], at: usize) -> u8
    ensures { stands (is_point result) text.now at ≡ false }
{
    match text.get(at) {
        Some(0) => 1,
        _ => 0,
    }
}

/// The digits before a point.
#[inline(always)]
#[tactic(auto, using(crate::proofs::Alone::whole))]
pub fn whole_of(text: &[u8], word: u128, mantissa: Mantissa) -> Mantissa
    requires supported { IsTrue (is_supported word) }
    requires is { IsWholeOf word text.now mantissa }
    ensures is { IsMantissa text.now result }
    ensures integer { integer_of text.now result
        ≡ digits_from word text.now Integer mantissa.start }
    ensures fraction { fraction_of text.now result ≡ [] }
{
    if mantissa.places == 0 {
        return mantissa;
    }
    // no point is found
    let other = other_byte(text, mantissa.whole_end);
    read_mantissa(text, word, mantissa.start, other)
}

/// The zero that a first `0` is by itself.
#[cold]
pub fn zero_alone<F: Float>(negative: bool) -> F
    ensures value { F.value result ≡ round F.format negative 0 1 }
    ensures number { NotNan (F.value result) }
{
    round_integer::<F>(negative, 0)
}

/// The float that digits are by themselves, in code of its own.
#[inline(never)]
#[tactic(auto, using(digit_floats::proofs::Numbers::round_number, crate::proofs::Alone::alone))]
pub fn round_whole<F: Float>(text: &[u8], word: u128, negative: bool, mantissa: Mantissa) -> F
    requires supported { IsTrue (is_supported word) }
    requires is { IsWholeOf word text.now mantissa }
    ensures value { F.value result ≡ nearest_float F.format negative
        (whole_of word text.now mantissa.start) }
    ensures number { NotNan (F.value result) }
{
    let whole = whole_of(text, word, mantissa);
    round_alone::<F>(text, negative, whole)
}

/// The float that large digits are, and where it ends. They are read again, so that no mantissa of
/// the caller need be in memory.
#[cold]
#[inline(never)]
#[tactic(auto, using(crate::proofs::Large::large), unfolding(crate::proofs::Large::components))]
pub fn read_large<F: Float>(
    text: &[u8],
    word: u128,
    negative: bool,
    at: usize,
    over: usize,
) -> (F, usize)
    requires supported { IsTrue (is_supported word) }
    requires decimal { IsDecimal word }
    requires within { at ≤ length text.now }
    requires large { integer_at (rule_of word Integer) text.now at (2 ^ 128 - 1)
        ≡ Err (Overflow over) }
    ensures value { F.value result.0 ≡ nearest_float F.format negative (whole_of word text.now at) }
    ensures number { NotNan (F.value result.0) }
    ensures some { 0 < length (digits_from word text.now Integer at) }
    ensures ends { result.1 ≡ digits_end word text.now Integer at }
    ensures onward { at < result.1 }
    ensures within { result.1 ≤ length text.now }
{
    let mantissa = read_mantissa(text, word, at, b'.');
    let x = round_whole::<F>(text, word, negative, mantissa);
    (x, mantissa.whole_end)
}

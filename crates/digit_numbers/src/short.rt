//! The integer or decimal float at a position, after any sign, if it has few digits.

ghost use Rattle.std.specs.Prelude.{◌≡◌, ◌<◌, ◌≤◌, length, false, None, IfSome};
ghost use Rattle.lexical_format.specs.Word.{separator};
ghost use Rattle.lexical_digits.specs.Separators.{is_separator};
ghost use Rattle.digit_floats.specs.Bytes.{stands, is_point, is_mark};
ghost use Rattle.digit_floats.specs.Parts.{IsShort};
ghost use Rattle.digit_numbers.specs.Forms.{IsForm};
ghost use Rattle.digit_numbers.specs.Numbers.{plain_at};
ghost use Rattle.digit_numbers.specs.Reads.{IsRead, IsSign};

use super::float::{has_more_zeros, read_short_marked, read_short_pointed, round_short_whole};
use super::form::Form;
use super::integer::integer_of_mantissa;
use super::number::Number;
use super::plain::integer_of;
use super::sign::{Sign, language_of};
use digit_floats::{Float, Mantissa, has_mark, read_short_whole};
use digit_values::has_byte;

/// The digits of a number before a point, after any sign, if they are few.
#[inline(always)]
#[tactic(auto, using(crate::proofs::ShortNumbers::no_separator))]
fn read_short_digits(text: &[u8], form: Form, at: usize) -> Option<Mantissa>
    requires form { IsForm form }
    requires within { at ≤ length text.now }
    ensures is { IfSome result (IsShort form.integers.decimal text.now) }
    ensures start { IfSome result (λ m. m.start ≡ at) }
    ensures some { IfSome result (λ m. 0 < m.digits) }
    ensures no_separator { IfSome result (λ _.
        stands (is_separator (separator form.integers.decimal)) text.now at ≡ false) }
{
    read_short_whole(text, form.integers.decimal, at)
}

/// The number that few digits are without a point and an exponent, if nothing is rare about them.
#[inline(always)]
#[tactic(auto, using(crate::proofs::ShortNumbers::plain), unfolding(crate::specs::Numbers::plain_at))]
fn short_whole<F: Float>(
    text: &[u8],
    start: usize,
    form: Form,
    sign: Sign,
    whole: Mantissa,
) -> Option<(Number<F>, usize)>
    requires form { IsForm form }
    requires one_mark { form.other_mark ≡ None }
    requires sign { IsSign form text.now start sign }
    requires is { IsShort form.integers.decimal text.now whole }
    requires start { whole.start ≡ sign.end }
    requires some { 0 < whole.digits }
    requires point { stands (is_point form.marks.point) text.now whole.whole_end ≡ false }
    requires mark { stands (is_mark form.marks.exponent) text.now whole.whole_end ≡ false }
    ensures is { IfSome result
        (IsRead F.value text.now start (plain_at form text.now start F.format)) }
{
    if form.whole.is_float() {
        if has_more_zeros(text, form, whole) {
            return None;
        }
        let x = round_short_whole::<F>(text, form.integers.decimal, sign.is_minus, whole)?;
        return Some((Number::Float(x), whole.whole_end));
    }
    let read = integer_of_mantissa(text, language_of(form, sign.is_there), whole)?;
    Some((integer_of(sign, read), read.end))
}

/// The integer or decimal float that begins at a start, and the position after it, if it has few
/// digits, and nothing is rare about it. It is small, so that it is inlined where it is called;
/// what it leaves is read again.
#[inline(always)]
#[tactic(auto, unfolding(crate::specs::Numbers::plain_at))]
pub fn read_short<F: Float>(
    text: &[u8],
    start: usize,
    form: Form,
    sign: Sign,
) -> Option<(Number<F>, usize)>
    requires form { IsForm form }
    requires sign { IsSign form text.now start sign }
    ensures is { IfSome result
        (IsRead F.value text.now start (plain_at form text.now start F.format)) }
    ensures no_separator { IfSome result (λ _.
        stands (is_separator (separator form.integers.decimal)) text.now sign.end ≡ false) }
{
    if form.other_mark.is_some() {
        return None;
    }
    let whole = read_short_digits(text, form, sign.end)?;
    if has_byte(text, whole.whole_end, form.marks.point) {
        let (x, end) = read_short_pointed::<F>(text, form, sign.is_minus, whole)?;
        return Some((Number::Float(x), end));
    }
    if has_mark(text, whole.whole_end, form.marks.exponent) {
        let (x, end) = read_short_marked::<F>(text, form, sign.is_minus, whole)?;
        return Some((Number::Float(x), end));
    }
    short_whole::<F>(text, start, form, sign, whole)
}

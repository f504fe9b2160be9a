//! The special value at a position, by a form.

ghost use Rattle.std.specs.Prelude.{◌≡◌, ◌+◌, ◌<◌, ◌≤◌, ◌&&◌, ◌||◌, if◌then◌else◌, nat_lt};
ghost use Rattle.std.specs.Prelude.{Bool, false, true, length, Some, None, IsTrue, IfSome, MatchOption};
ghost use Rattle.std.specs.Prelude.{slice_index};
ghost use Rattle.std.specs.Float.{inf};
ghost use Rattle.lexical_format.specs.Word.{is_supported};
ghost use Rattle.lexical_digits.specs.declared.skip.component.Component.TheVariants as components;
ghost use Rattle.lexical_digits.specs.Separators.{place};
ghost use Rattle.lexical_digits.specs.State.{rule_of};
ghost use Rattle.digit_numbers.specs.Forms.{IsForm};
ghost use Rattle.digit_numbers.specs.Reads.{IsSpecialRead};
ghost use Rattle.digit_numbers.specs.Specials.{begins, bytes_of, end_of, is_here, name_end};
ghost use Rattle.digit_numbers.specs.Specials.{same_by, special_at, special_float};

use super::form::{Form, Special, SpecialValue, Specials};
use digit_floats::Float;
use lexical_digits::skip::{Component, Rule};

/// The infinity of a sign.
#[inline(always)]
fn infinity<F: Float>(is_negative: bool) -> F
    ensures { F.value result ≡ inf is_negative }
{
    if is_negative {
        F::infinity().negated()
    } else {
        F::infinity()
    }
}

impl SpecialValue {
    /// The float that a name stands for, after a minus or without one.
    #[inline(always)]
    pub(crate) fn float<F: Float>(self, is_negative: bool) -> F
        ensures { F.value result ≡ special_float self is_negative }
    {
        match self {
            SpecialValue::Infinity => infinity::<F>(is_negative),
            SpecialValue::NegativeInfinity => infinity::<F>(!is_negative),
            SpecialValue::NotANumber => F::not_a_number(),
        }
    }
}

/// The first position from `at` on whose byte the special component of a word keeps, or the length.
#[inline]
#[tactic(auto, using(crate::proofs::NamesAt::places))]
fn kept_from(text: &[u8], word: u128, at: usize) -> usize
    requires supported { IsTrue (is_supported word) }
    requires within { at ≤ length text.now }
    ensures { result ≡ place (rule_of word components.Special) text.now at 0 }
{
    let rule = Rule::of(word, Component::Special);
    for i in at..text.len() {
        if !(rule.internal && rule.is_separator(text[i])) {
            return i;
        }
    }
    text.len()
}

/// Whether a byte is at a position that is the same in a name.
#[inline(always)]
fn has_same(text: &[u8], specials: Option<Specials>, at: usize, wanted: u8) -> bool
    ensures { result
        ≡ (nat_lt at (length text.now) && same_by specials wanted (slice_index text.now at)) }
{
    match (text.get(at), specials) {
        (Some(byte), Some(specials)) if specials.any_case => wanted.eq_ignore_ascii_case(byte),
        (Some(byte), _) => *byte == wanted,
        (None, _) => false,
    }
}

/// The end of a name, if it is at this position. A name without bytes ends at the first byte that
/// is kept.
#[inline(always)]
fn end_of(text: &[u8], form: Form, at: usize, name: &[u8]) -> Option<usize>
    requires form { IsForm form }
    requires within { at ≤ length text.now }
    ensures is { MatchOption result (begins form text.now at name.now ≡ false)
        (λ end. begins form text.now at name.now ≡ true) }
    ensures end { IfSome result (λ end. end ≡ end_of form text.now at name.now) }
    ensures onward { IfSome result (λ end.
        nat_lt 0 (length (bytes_of name.now)) ≡ true → at < end) }
    ensures within { IfSome result (λ end. end ≤ length text.now) }
{
    let word = form.integers.decimal;
    let mut end = kept_from(text, word, at);
    for n in 0..name.len() {
        let wanted = name[n];
        if wanted == 0 {
            return Some(end);
        }
        if !has_same(text, form.specials, end, wanted) {
            return None;
        }
        end = kept_from(text, word, end + 1);
    }
    Some(end)
}

/// The end of a special value, if it is at this position, and its sign may be before it.
#[inline(always)]
#[tactic(auto, unfolding(crate::specs::Specials::is_here))]
fn special_end(
    text: &[u8],
    form: Form,
    at: usize,
    is_signed: bool,
    is_minus: bool,
    special: Special,
) -> Option<usize>
    requires form { IsForm form }
    requires within { at ≤ length text.now }
    ensures is { MatchOption result (is_here form text.now at is_signed is_minus special ≡ false)
        (λ end. is_here form text.now at is_signed is_minus special ≡ true) }
    ensures end { IfSome result (λ end. end ≡ name_end form text.now at special) }
    ensures within { IfSome result (λ end. (at < end) × (end ≤ length text.now)) }
{
    if !special.sign.takes(is_signed, is_minus) || special.name[0] == 0 {
        return None;
    }
    end_of(text, form, at, &special.name)
}

/// Of a special value and one that was found after it, the one that ends last.
#[inline(always)]
fn later(special: Special, end: usize, found: Option<(Special, usize)>) -> (Special, usize)
    ensures none { found ≡ None → result ≡ (special, end) }
    ensures some { IfSome found (λ other.
        result ≡ (if nat_lt end other.1 then other else (special, end))) }
{
    match found {
        Some((other, other_end)) if end < other_end => (other, other_end),
        _ => (special, end),
    }
}

/// Whether a special value may be at a position, as far as the first byte of its name tells. The
/// first byte there that the special component keeps is at `first`.
#[inline(always)]
fn may_be_here(text: &[u8], form: Form, at: usize, first: usize, special: Special) -> bool
    requires first { first
        ≡ place (rule_of form.integers.decimal components.Special) text.now at 0 }
    ensures { result ≡ false → (is_signed is_minus : Bool)
        → is_here form text.now at is_signed is_minus special ≡ false }
{
    has_same(text, form.specials, first, special.name[0])
}

/// Whether a special value of a form may be at a position, as far as first bytes tell. It is only
/// for speed, of forms with names: most numbers begin with a digit.
#[inline(always)]
fn may_begin(text: &[u8], form: Form, specials: Specials, at: usize) -> bool
    requires form { IsForm form }
    requires specials { form.specials ≡ Some specials }
    requires within { at ≤ length text.now }
    ensures { result ≡ false → (is_signed is_minus : Bool)
        → special_at form text.now at is_signed is_minus ≡ None }
{
    let first = kept_from(text, form.integers.decimal, at);
    for i in (0..8_usize).rev() {
        if may_be_here(text, form, at, first, specials.names[i]) {
            return true;
        }
    }
    false
}

/// The special value of a form at a position, and where it ends, if there is one. In code of its
/// own.
#[inline(never)]
#[tactic(auto, unfolding(crate::specs::Specials::special_at))]
fn read_special(
    text: &[u8],
    form: Form,
    at: usize,
    is_signed: bool,
    is_minus: bool,
) -> Option<(Special, usize)>
    requires form { IsForm form }
    requires within { at ≤ length text.now }
    ensures { MatchOption result (special_at form text.now at is_signed is_minus ≡ None)
        (IsSpecialRead form text.now at is_signed is_minus) }
{
    let Some(specials) = form.specials else {
        return None;
    };
    let mut found = None;
    for i in (0..8_usize).rev() {
        let special = specials.names[i];
        if let Some(end) = special_end(text, form, at, is_signed, is_minus, special) {
            found = Some(later(special, end, found));
        }
    }
    found
}

/// [`read_special`], whose form and answer in memory belong to this function.
#[inline(always)]
fn special_in(
    text: &[u8],
    form: Form,
    at: usize,
    is_signed: bool,
    is_minus: bool,
) -> Option<(Special, usize)>
    requires form { IsForm form }
    requires within { at ≤ length text.now }
    ensures { MatchOption result (special_at form text.now at is_signed is_minus ≡ None)
        (IsSpecialRead form text.now at is_signed is_minus) }
{
    match read_special(text, form, at, is_signed, is_minus) {
        Some((special, end)) => Some((special, end)),
        None => None,
    }
}

/// The special value of a form at a position, if the form has any.
#[inline(always)]
#[tactic(auto, unfolding(crate::specs::Specials::special_at))]
pub fn special_of(
    text: &[u8],
    form: Form,
    at: usize,
    is_signed: bool,
    is_minus: bool,
) -> Option<(Special, usize)>
    requires form { IsForm form }
    requires within { at ≤ length text.now }
    ensures { MatchOption result (special_at form text.now at is_signed is_minus ≡ None)
        (IsSpecialRead form text.now at is_signed is_minus) }
{
    match form.specials {
        Some(specials) if may_begin(text, form, specials, at) => {
            special_in(text, form, at, is_signed, is_minus)
        }
        _ => None,
    }
}

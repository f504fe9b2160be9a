//! The hexadecimal float at a position, by a form.

ghost use Rattle.std.specs.Prelude.{◌≡◌, ◌+◌, ◌-◌, ◌<◌, ◌≤◌, length, false, true, Some, None, IsTrue, IfSome, MatchOption};
ghost use Rattle.std.specs.Float.{NotNan};
ghost use Rattle.lexical_format.specs.Word.{is_supported};
ghost use Rattle.digit_floats.specs.Parts.{IsPower, exponent_of};
ghost use Rattle.digit_floats.specs.Hexadecimal.{IsHexadecimal};
ghost use Rattle.digit_languages.specs.Words.{IsLanguage};
ghost use Rattle.digit_languages.specs.Literals.{prefix_word};
ghost use Rattle.digit_numbers.specs.Forms.{IsForm, has_hex, hex_form, with_hex_only};
ghost use Rattle.digit_numbers.specs.Numbers.{allows_point, digits_stop, exponent, fraction, has_exponent, hex_value, hex_word_at, is_bare, is_hex_here, mark_at, parts};
ghost use Rattle.lexical_digits.specs.declared.skip.component.Component.TheVariants.{Integer};
ghost use Rattle.lexical_digits.specs.State.{rule_of};
ghost use Rattle.digit_numbers.specs.Reads.{IsHexAt, IsHexRead};

use super::float::has_barred;
use super::form::Form;
use digit_floats::{
    Float, HexMantissa, Power, has_mark, read_exponent, read_hex_mantissa, round_hex,
};
use digit_languages::{Language, prefix_word};
use digit_values::has_byte;
use lexical_digits::skip::{Component, Rule};

/// A language with no prefix but that of hexadecimal digits.
#[inline(always)]
fn with_hex_only(language: Language) -> Language
    requires { IsLanguage language }
    ensures is { result ≡ with_hex_only language }
    ensures serves { IsLanguage result }
{
    Language {
        binary: None,
        octal: None,
        ..language
    }
}

/// The word of hexadecimal digits, if their prefix is at a position.
#[inline(always)]
fn hex_word(text: &[u8], language: Language, at: usize) -> Option<u128>
    requires language { IsLanguage language }
    requires hexadecimal { IfSome language.hexadecimal IsHexadecimal }
    requires within { at ≤ length text.now }
    ensures is { result ≡ prefix_word (with_hex_only language) text.now at }
    ensures hexadecimal { IfSome result IsHexadecimal }
    ensures supported { IfSome result (λ word. IsTrue (is_supported word)) }
    ensures within { IfSome result (λ _. at + 2 ≤ length text.now) }
{
    prefix_word(with_hex_only(language), text, at)
}

/// Whether a point that follows the integer counts.
#[inline(always)]
fn allows_point(text: &[u8], form: Form, word: u128, mantissa: HexMantissa) -> bool
    requires is { IsHexAt form word text.now mantissa }
    ensures { result ≡ allows_point (hex_form form word) text.now mantissa.start }
{
    if mantissa.digits == mantissa.places && form.needs_integer {
        return false;
    }
    mantissa.places > 0 || !(form.needs_fraction || has_barred(text, form, mantissa.whole_end + 1))
}

/// Whether separators without a digit are before a point, and the word drops none after digits.
#[inline(always)]
fn is_bare(text: &[u8], form: Form, word: u128, mantissa: HexMantissa) -> bool
    requires is { IsHexAt form word text.now mantissa }
    ensures { result ≡ is_bare (hex_form form word) text.now mantissa.start }
{
    mantissa.digits == mantissa.places
        && mantissa.start < mantissa.whole_end
        && !drops_trailing(word)
}

/// Whether a word drops separators at the end of the integer's digits.
#[inline(always)]
fn drops_trailing(word: u128) -> bool
    ensures { result ≡ (rule_of word Integer).trailing }
{
    Rule::of(word, Component::Integer).trailing
}

/// The exponent after a mantissa, if there is one.
#[inline(always)]
#[tactic(auto, unfolding(digit_floats::specs::Float::exponents))]
fn read_power(text: &[u8], form: Form, word: u128, mantissa: HexMantissa) -> Option<Power>
    requires supported { IsTrue (is_supported word) }
    requires hexadecimal { IsHexadecimal word }
    requires is { IsHexAt form word text.now mantissa }
    requires mark { mantissa.end ≡ mark_at (hex_form form word) text.now mantissa.start }
    ensures is { MatchOption result
        (has_exponent (hex_form form word) text.now mantissa.start ≡ false)
        (λ p. has_exponent (hex_form form word) text.now mantissa.start ≡ true) }
    ensures power { IfSome result (IsPower text.now mantissa.end) }
    ensures digits { IfSome result (λ p. exponent_of text.now mantissa.end p
        ≡ exponent (hex_form form word) text.now mantissa.start) }
    ensures negative { IfSome result (λ p. p.negative
        ≡ (parts (hex_form form word) text.now mantissa.start).exponent_negative) }
    ensures end { IfSome result (λ p.
        p.end ≡ digits_stop (hex_form form word) text.now mantissa.start) }
    ensures within { IfSome result (λ p. (mantissa.end ≤ p.end) × (p.end ≤ length text.now)) }
{
    if !has_mark(text, mantissa.end, b'p') {
        return None;
    }
    read_exponent(text, word, mantissa.end, b'p').ok()
}

/// The float of a mantissa that no exponent follows.
#[inline(always)]
fn round_alone<F: Float>(
    text: &[u8],
    form: Form,
    word: u128,
    negative: bool,
    mantissa: HexMantissa,
) -> F
    requires is { IsHexAt form word text.now mantissa }
    requires none { has_exponent (hex_form form word) text.now mantissa.start ≡ false }
    requires fraction { let h = hex_form form word in fraction h text.now mantissa.start
        ≡ (parts h text.now mantissa.start).fraction }
    ensures value { F.value result
        ≡ hex_value (hex_form form word) text.now mantissa.start F.format negative }
    ensures number { NotNan (F.value result) }
{
    round_hex::<F>(text, negative, mantissa, Power::none(mantissa.end))
}

/// The float of hexadecimal digits at a position, after a prefix, and where it ends, if there is
/// one.
#[inline(always)]
#[tactic(auto, using(crate::proofs::Digits::hexes), unfolding(crate::specs::Numbers::is_hex_here))]
fn read_hex_digits<F: Float>(
    text: &[u8],
    form: Form,
    word: u128,
    negative: bool,
    at: usize,
) -> Option<(F, usize)>
    requires form { IsForm form }
    requires supported { IsTrue (is_supported word) }
    requires hexadecimal { IsHexadecimal word }
    requires within { at ≤ length text.now }
    ensures is { MatchOption result (is_hex_here (hex_form form word) text.now at ≡ false)
        (λ r. is_hex_here (hex_form form word) text.now at ≡ true) }
    ensures value { IfSome result (λ r.
        F.value r.0 ≡ hex_value (hex_form form word) text.now at F.format negative) }
    ensures ends { IfSome result (λ r. r.1 ≡ digits_stop (hex_form form word) text.now at) }
    ensures number { IfSome result (λ r. NotNan (F.value r.0)) }
    ensures within { IfSome result (λ r. (at < r.1) × (r.1 ≤ length text.now)) }
{
    let mantissa = read_hex_mantissa(text, word, at, form.marks.point);
    if is_bare(text, form, word, mantissa) || mantissa.digits == 0 {
        return None;
    }
    let is_pointed = has_byte(text, mantissa.whole_end, form.marks.point);
    if is_pointed && !allows_point(text, form, word, mantissa) {
        return None;
    }
    if let Some(power) = read_power(text, form, word, mantissa) {
        let x = round_hex::<F>(text, negative, mantissa, power);
        return Some((x, power.end));
    }
    if !form.hex_floats.take_no_exponent(is_pointed) {
        return None;
    }
    let x = round_alone::<F>(text, form, word, negative, mantissa);
    Some((x, mantissa.end))
}

/// The hexadecimal float at a position, after any sign, and where it ends, if there is one. In code
/// of its own.
#[inline(never)]
#[tactic(auto, unfolding(crate::specs::Numbers::hex_word_at))]
fn read_hex<F: Float>(
    text: &[u8],
    form: Form,
    language: Language,
    negative: bool,
    at: usize,
) -> Option<(F, usize)>
    requires form { IsForm form }
    requires language { IsLanguage language }
    requires hexadecimal { has_hex form.hex_floats ≡ true
        → IfSome language.hexadecimal IsHexadecimal }
    requires within { at ≤ length text.now }
    ensures { MatchOption result (hex_word_at form language text.now at ≡ None)
        (IsHexRead F.format F.value form language text.now at negative) }
{
    if !form.hex_floats.exist() {
        return None;
    }
    let word = hex_word(text, language, at)?;
    read_hex_digits::<F>(text, form, word, negative, at + 2)
}

/// The hexadecimal float at a position, if the form has any.
#[inline(always)]
#[tactic(auto, unfolding(crate::specs::Numbers::hex_word_at))]
pub fn hex_of<F: Float>(
    text: &[u8],
    form: Form,
    language: Language,
    negative: bool,
    at: usize,
) -> Option<(F, usize)>
    requires form { IsForm form }
    requires language { IsLanguage language }
    requires hexadecimal { has_hex form.hex_floats ≡ true
        → IfSome language.hexadecimal IsHexadecimal }
    requires within { at ≤ length text.now }
    ensures { MatchOption result (hex_word_at form language text.now at ≡ None)
        (IsHexRead F.format F.value form language text.now at negative) }
{
    if !form.hex_floats.exist() {
        return None;
    }
    read_hex::<F>(text, form, language, negative, at)
}

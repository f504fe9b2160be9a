//! The longest integer of a language at a position.

ghost use Rattle.std.specs.Prelude.{◌≡◌, Ok, ◌+◌, ◌-◌, ◌^◌, ◌≤◌, ◌<◌, true, length, IfOk, IfSome, slice_get};
ghost use Rattle.std.specs.Char.{is_ascii_alphabetic};
ghost use Rattle.lexical_format.specs.Word.{separator};
ghost use Rattle.lexical_digits.specs.Cursor.{holds_of};
ghost use Rattle.lexical_digits.specs.Separators.{is_separator};
ghost use Rattle.lexical_digits.specs.declared.skip.component.Component.TheVariants.{Integer};
ghost use Rattle.lexical_digits.specs.State.{rule_of};
ghost use Rattle.digit_integers.specs.Integers.{IsIntegerFrom};
ghost use Rattle.digit_floats.specs.Bytes.{stands};
ghost use Rattle.digit_values.specs.Bytes.{has_byte};
ghost use Rattle.digit_languages.specs.Words.{IsLanguage};
ghost use Rattle.digit_languages.specs.Literals.{literal_at};
ghost use Rattle.digit_numbers.specs.Forms.{unprefixed};
ghost use Rattle.digit_numbers.specs.Reads.{IsPlain, IsWholeOf};

use digit_floats::Mantissa;
use digit_languages::{FirstZero, Language, LanguageError, Literal, read_literal};
use digit_values::has_byte;
use lexical_format::NumberFormat;

/// A language without its prefixes.
#[inline(always)]
pub fn unprefixed(language: Language) -> Language
    requires { IsLanguage language }
    ensures is { result ≡ unprefixed language }
    ensures serves { IsLanguage result }
{
    Language {
        binary: None,
        octal: None,
        hexadecimal: None,
        ..language
    }
}

/// Whether a `0` is at a position.
#[inline(always)]
pub fn is_zero(text: &[u8], at: usize) -> bool
    ensures is { result ≡ has_byte text.now at 48 }
    ensures within { result ≡ true → at < length text.now }
{
    has_byte(text, at, b'0')
}

/// Whether a letter is at a position.
#[inline(always)]
fn has_letter(text: &[u8], at: usize) -> bool
    ensures { result ≡ holds_of is_ascii_alphabetic (slice_get text.now at) }
{
    match text.get(at) {
        Some(byte) => byte.is_ascii_alphabetic(),
        None => false,
    }
}

/// Whether the separator of a word is at a position.
#[inline(always)]
#[tactic(auto, unfolding(lexical_digits::specs::Separators::is_separator))]
pub fn has_separator(text: &[u8], word: u128, at: usize) -> bool
    ensures { result ≡ stands (is_separator (separator word)) text.now at }
{
    let separator = NumberFormat::new(word).digit_separator();
    match text.get(at) {
        Some(byte) => separator != 0 && *byte == separator,
        None => false,
    }
}

/// [`read_literal`] up to 128 bits. In code of its own.
#[inline(never)]
pub fn read_integer(text: &[u8], language: Language, at: usize) -> Result<Literal, LanguageError>
    requires language { IsLanguage language }
    requires within { at ≤ length text.now }
    ensures is { result ≡ literal_at language text.now at (2 ^ 128 - 1) }
    ensures end { IfOk result (λ read. (at < read.end) × (read.end ≤ length text.now)) }
{
    read_literal(text, at, language, u128::MAX)
}

/// Whether no prefix begins at a position, and no first `0` that says octal, or that more digits
/// follow, by the value and the end of the digits.
#[inline(always)]
#[tactic(auto, using(crate::proofs::Zeros::no_prefix))]
fn is_plain(text: &[u8], language: Language, at: usize, value: u128, end: usize) -> bool
    requires { at ≤ length text.now }
    ensures plain { result ≡ true → IsPlain language text.now at }
    ensures alone { result ≡ true → has_byte text.now at 48 ≡ true →
        (value ≡ 0) × (end ≤ at + 1) }
{
    if !is_zero(text, at) {
        return true;
    }
    if value > 0 || at + 1 < end {
        return false;
    }
    match language.first_zero {
        FirstZero::Octal(_) => false,
        FirstZero::Plain | FirstZero::Alone | FirstZero::Zeros => !has_letter(text, at + 1),
    }
}

/// The integer without a prefix whose digits were read as a mantissa, if it has all of them.
#[inline(always)]
fn value_of_mantissa(text: &[u8], word: u128, mantissa: Mantissa) -> Option<(u128, usize)>
    requires is { IsWholeOf word text.now mantissa }
    ensures is { let r = rule_of word Integer in IfSome result (λ read.
        IsIntegerFrom r text.now mantissa.start (2 ^ 128 - 1) read.0 read.1) }
    ensures end { IfSome result (λ r. (mantissa.start < r.1) × (r.1 ≤ length text.now)) }
{
    if mantissa.places > 0 || mantissa.dropped > 0 || mantissa.digits == 0 {
        return None;
    }
    Some((u128::from(mantissa.value), mantissa.whole_end))
}

/// The longest integer of a language whose decimal digits were read as a mantissa: if it has no
/// prefix, no more digits after a first `0`, and at most 19 significant ones.
#[inline(always)]
pub fn integer_of_mantissa(text: &[u8], language: Language, mantissa: Mantissa) -> Option<Literal>
    requires is { IsWholeOf language.decimal text.now mantissa }
    ensures is { IfSome result (λ read.
        literal_at language text.now mantissa.start (2 ^ 128 - 1) ≡ Ok read) }
    ensures end { IfSome result (λ read.
        (mantissa.start < read.end) × (read.end ≤ length text.now)) }
{
    let at = mantissa.start;
    let (value, end) = value_of_mantissa(text, language.decimal, mantissa)?;
    if !is_plain(text, language, at, value, end) {
        return None;
    }
    Some(Literal {
        value,
        word: language.decimal,
        digits: at,
        end,
    })
}

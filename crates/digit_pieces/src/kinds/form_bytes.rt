//! Which bytes a number by a form may have.

ghost use Rattle.std.specs.Prelude.{◌≡◌, ◌||◌, Some, false};
ghost use Rattle.std.specs.List.{list_any};
ghost use Rattle.digit_languages.specs.Follows.{separates, is_literal_byte};
ghost use Rattle.digit_languages.specs.Words.{octal_of};
ghost use Rattle.digit_numbers.specs.Follows.{is_name_byte, is_other_mark, is_number_byte};
ghost use Rattle.digit_numbers.specs.Forms.{begins_name, is_barred};
ghost use Rattle.digit_numbers.specs.Specials.{bytes_of, names_of, same_by};

use super::bytes::{is_mark, is_sign};
use digit_languages::{FirstZero, Language};
use digit_numbers::{AfterPoint, Form, Special, Specials};
use lexical_format::NumberFormat;

/// Whether a byte is the separator of a word, if there is one.
fn separates(word: Option<u128>, byte: u8) -> bool
    ensures { result ≡ separates word byte }
{
    let Some(word) = word else {
        return false;
    };
    let separator = NumberFormat::new(word).digit_separator();
    separator != 0 && byte == separator
}

/// The word that a first `0` says, if it says any.
fn octal_of(first_zero: FirstZero) -> Option<u128>
    ensures { result ≡ octal_of first_zero }
{
    match first_zero {
        FirstZero::Octal(word) => Some(word),
        FirstZero::Plain | FirstZero::Alone | FirstZero::Zeros => None,
    }
}

/// Whether a byte may be in a literal of a language: a letter, a digit or a separator.
pub(crate) fn is_literal_byte(language: Language, byte: u8) -> bool
    ensures { result ≡ is_literal_byte language byte }
{
    byte.is_ascii_alphanumeric()
        || separates(Some(language.decimal), byte)
        || separates(language.binary, byte)
        || separates(language.octal, byte)
        || separates(language.hexadecimal, byte)
        || separates(octal_of(language.first_zero), byte)
}

/// Whether a byte is another mark of an exponent, if there is one.
fn is_other_mark(mark: Option<u8>, byte: u8) -> bool
    ensures { result ≡ is_other_mark mark byte }
{
    match mark {
        Some(mark) => is_mark(mark, byte),
        None => false,
    }
}

/// Whether a byte may begin a name.
fn begins_name(byte: u8) -> bool
    ensures { result ≡ begins_name byte }
{
    byte == b'_' || byte.is_ascii_alphabetic() || byte >= 128
}

/// Whether a byte after a point says that it is none.
fn is_barred(after_point: AfterPoint, byte: u8) -> bool
    ensures { result ≡ is_barred after_point byte }
{
    match after_point {
        AfterPoint::Anything => false,
        AfterPoint::NoPoint => byte == b'.',
        AfterPoint::NoPointOrName => byte == b'.' || begins_name(byte),
        AfterPoint::NoOperator => matches!(byte, b'*' | b'/' | b'\\' | b'^' | b'\''),
    }
}

/// Whether two bytes are the same in a name.
fn are_same(specials: Specials, a: u8, b: u8) -> bool
    ensures { result ≡ same_by (Some specials) a b }
{
    if specials.any_case {
        a.eq_ignore_ascii_case(&b)
    } else {
        a == b
    }
}

/// Whether a name has a byte.
fn has_name_byte(specials: Specials, special: Special, byte: u8) -> bool
    ensures { result ≡ list_any (λ b. same_by (Some specials) b byte) (bytes_of special.name) }
{
    for n in 0..8_usize {
        let here = special.name[n];
        if here == 0 {
            return false;
        }
        if are_same(specials, here, byte) {
            return true;
        }
    }
    false
}

/// Whether a name of a form has a byte.
fn have_name_byte(form: Form, byte: u8) -> bool
    ensures { result ≡ list_any (is_name_byte form byte) (names_of form.specials) }
{
    let Some(specials) = form.specials else {
        return false;
    };
    for i in 0..8_usize {
        if has_name_byte(specials, specials.names[i], byte) {
            return true;
        }
    }
    false
}

/// Whether a byte may be in a number by a form, or say after a point that it is none.
pub(crate) fn is_number_byte(form: Form, byte: u8) -> bool
    ensures { result ≡ is_number_byte form byte }
{
    is_literal_byte(form.integers, byte)
        || is_sign(byte)
        || byte == form.marks.point
        || is_mark(form.marks.exponent, byte)
        || is_barred(form.after_point, byte)
        || have_name_byte(form, byte)
        || is_other_mark(form.other_mark, byte)
}

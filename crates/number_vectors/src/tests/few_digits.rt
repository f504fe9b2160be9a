//! Digits that two small readers read beside the one that reads any.

ghost use Rattle.std.specs.Prelude.{◌≡◌, IsTrue};
ghost use Rattle.lexical_format.specs.Word.{is_supported};
ghost use Rattle.lexical_digits.specs.State.{rule_of};
ghost use Rattle.lexical_digits.specs.declared.skip.component.Component.TheVariants.{Integer, Fraction};

use digit_literals::{
    FirstDigits, read_few_digits_from, read_first_digits_from, read_some_digits_from,
    read_some_digits_here,
};
use lexical_digits::skip::Component;
use lexical_format::STANDARD;
use lexical_format::words::PYTHON_LITERAL;
use std::process::Abort;

/// The greatest value of 19 digits.
const MOST: u64 = 9_999_999_999_999_999_999;

/// What a small reader answers: what the other does, if that is at least so many digits, and with
/// those before them at most 19, and no separator is met.
fn few_of(
    all: (FirstDigits, usize),
    least: usize,
    counted: usize,
    is_separated: bool,
) -> Option<(FirstDigits, usize)> {
    let count = all.0.count;
    if is_separated || count < least || count.saturating_add(counted) > 19 {
        return None;
    }
    Some(all)
}

/// The digits that a text begins with: of an integer, of a fraction, and of one after other digits.
fn assert_few(rt: &impl Abort, text: &[u8], word: u128, is_separated: bool)
    requires supported { IsTrue (is_supported word) }
    requires integer { (rule_of word Integer).radix ≡ 10 }
    requires fraction { (rule_of word Fraction).radix ≡ 10 }
{
    let all = read_first_digits_from(text, word, Component::Integer, 0, 0, MOST);
    let some = read_some_digits_from(text, word, Component::Integer, 0);
    assert!(rt; read_some_digits_here(text, word, Component::Integer, 0) == some);
    assert!(rt;
        some == few_of(all, 1, 0, is_separated),
        "{text:?}: {some:?}"
    );
    let all = read_first_digits_from(text, word, Component::Fraction, 0, 0, MOST);
    let few = read_few_digits_from(text, word, Component::Fraction, 0, 0, 0);
    assert!(rt; few == few_of(all, 0, 0, is_separated), "{text:?}: {few:?}");
    let all = read_first_digits_from(text, word, Component::Fraction, 0, 7, MOST);
    let few = read_few_digits_from(text, word, Component::Fraction, 0, 7, 1);
    assert!(rt;
        few == few_of(all, 0, 1, is_separated),
        "{text:?} after 7: {few:?}"
    );
    let all = read_first_digits_from(text, word, Component::Fraction, 0, 12345678901, MOST);
    let few = read_few_digits_from(text, word, Component::Fraction, 0, 12345678901, 11);
    assert!(rt;
        few == few_of(all, 0, 11, is_separated),
        "{text:?} after 11: {few:?}"
    );
}

/// Digits, of which one is replaced by another byte.
static DIGITS: [u8; 40] = *b"1203456789098765432101234567890987654321";

#[test]
#[tactic(auto, unfolding(lexical_format::proofs::OnLiterals::lexical_on_literals))]
fn few_digits_are_read_as_any_are(rt: HostRuntime) {
    for digits in 0..24 {
        for byte in [b',', b'_', b'/', b':', b'.', 0xb0] {
            let mut text = DIGITS;
            text[digits] = byte;
            for len in digits..34 {
                let is_separated = byte == b'_' && digits < len;
                let part = text.get(..len).unwrap_or(b"");
                assert_few(&rt, part, STANDARD, false);
                assert_few(&rt, part, PYTHON_LITERAL, is_separated);
            }
        }
    }
}

//! Of which kinds and gaps no byte between two numbers may be in one.
//!
//! A function over constants calls the law of its kind in its body, and has the premise of the
//! contracts of pieces and streams. A law asks that a test is true, over the bytes of the gap; of
//! constants the check computes it. The gaps with a name have commas, line feeds and blanks, which
//! are in no number by a word without such a separator.

ghost use Rattle.std.specs.Prelude.{◌≡◌, IsTrue, false};
ghost use Rattle.digit_floats.specs.Float.{plain_marks};
ghost use Rattle.digit_languages.specs.Follows.{is_literal_byte};
ghost use Rattle.digit_numbers.specs.Follows.{is_number_byte};
ghost use Rattle.digit_pieces.specs.Apart.{are_apart, is_between, is_pointed_byte, is_word_byte};
ghost use Rattle.digit_pieces.specs.Both.{is_byte_of_both};
ghost use Rattle.digit_pieces.specs.Cuts.{is_float_byte, is_integer_byte, is_scaled_byte};
ghost use Rattle.digit_pieces.specs.Texts.{IsApart};

use crate::kind::Kind;
use digit_integers::Integer;
use digit_languages::Language;
use digit_literals::Gap;
use digit_numbers::Form;

/// Any kind: no byte between two numbers may be in one.
pub fn any_are_apart<K: Kind>(kind: K, gap: Gap)
    requires { IsTrue (are_apart (K.has_byte kind) gap) }
    ensures { IsApart (K.has_byte kind) gap }
{}

/// [`Integers`](digit_literals::Integers) by a word: no byte between two is a letter, a digit, a
/// sign or the separator of the word.
pub fn integers_are_apart<T: Integer>(word: u128, gap: Gap)
    requires { IsTrue (are_apart (is_word_byte word) gap) }
    ensures { IsApart (is_integer_byte T.MIN_MAGNITUDE word) gap }
{}

/// [`Floats`](digit_pieces::Floats) by a word: no byte between two is a letter, a digit, a sign,
/// the separator of the word or a point.
pub fn floats_are_apart(word: u128, gap: Gap)
    requires { IsTrue (are_apart (is_pointed_byte word 46) gap) }
    ensures { IsApart (is_float_byte word plain_marks) gap }
{}

/// [`Scaled`](crate::Scaled) numbers by a word, with their own point, and prices: no byte between
/// two is a letter, a digit, a sign, the separator of the word or the point.
pub fn scaled_are_apart(word: u128, point: u8, gap: Gap)
    requires { IsTrue (are_apart (is_pointed_byte word point) gap) }
    ensures { IsApart (is_scaled_byte word point) gap }
{}

/// [`OfLanguage`](crate::OfLanguage): no byte between two literals is a letter, a digit or a
/// separator of the language.
pub fn literals_are_apart(language: Language, gap: Gap)
    requires { IsTrue (are_apart (is_literal_byte language) gap) }
    ensures { IsApart (is_literal_byte language) gap }
{}

/// [`OfForm`](digit_pieces::OfForm): no byte between two numbers may be in one by the form.
pub fn numbers_are_apart(form: Form, gap: Gap)
    requires { IsTrue (are_apart (is_number_byte form) gap) }
    ensures { IsApart (is_number_byte form) gap }
{}

/// [`Both`](crate::Both): what holds of the first and the second number, and of the byte between
/// them, holds of the pair.
pub fn both_are_apart<A: Kind, B: Kind>(first: A, between: u8, second: B, gap: Gap)
    requires first { IsApart (A.has_byte first) gap }
    requires between { is_between gap between ≡ false }
    requires second { IsApart (B.has_byte second) gap }
    ensures { IsApart (is_byte_of_both (A.has_byte first) between (B.has_byte second)) gap }
{}

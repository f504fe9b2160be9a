//! Lines of which a column is the number, in the usual case.

ghost use Rattle.std.specs.Prelude.{◌≡◌, ◌<◌, ◌≤◌, length, take, IfSome, IsTrue, Some, Ok};
ghost use Rattle.lexical_format.specs.Word.{is_supported};
ghost use Rattle.lexical_digits.specs.declared.skip.component.Component.{Component};
ghost use Rattle.lexical_digits.specs.declared.skip.component.Component.TheVariants.{Integer};
ghost use Rattle.lexical_digits.specs.State.{rule_of};
ghost use Rattle.digit_floats.specs.Float.{IsDecimal};
ghost use Rattle.digit_totals.specs.Lines.{EndsWith};
ghost use Rattle.digit_totals.specs.Quick.{FirstIs, HasNoLowByte};
ghost use Rattle.digit_totals.specs.Value.{integer_in, decimal_in, number_in, word_of};

use super::around::{sign_of, signed};
use super::decimal::short_decimal;
use super::field::find_span;
use super::options::{Column, Kind, Options};
use super::search::find;
use digit_integers::parse_number;
use digit_values::{BLANKS, past_bytes};
use digit_words::eight::front_at;

/// The integer that so many bytes of a text are, with any blanks around it, if it has up to eight
/// digits: a word tells where they end. More bytes of the text have to follow.
#[inline(always)]
fn short_integer(text: &[u8], count: usize, word: u128) -> Option<i64>
    requires decimal { IsDecimal word }
    requires low { HasNoLowByte (rule_of word Integer) }
    requires within { count ≤ length text.now }
    ensures { IfSome result (λ value. integer_in word (take count text.now) ≡ Ok value) }
{
    let field = &text[..count];
    let place = past_bytes(field, 0, BLANKS);
    let (is_negative, begin) = sign_of(field, place);
    if text.len() - begin < 8 {
        return None;
    }
    let front = front_at(text, begin);
    let end = begin + front.count;
    if front.count == 0 || end > count || past_bytes(field, end, BLANKS) != count {
        return None;
    }
    Some(signed(is_negative, front.value))
}

/// The integer that so many bytes of a text are, if it has 64 bits. Blanks around a long one are
/// not passed.
#[inline(always)]
fn integer_of(text: &[u8], count: usize, word: u128) -> Option<i64>
    requires supported { IsTrue (is_supported word) }
    requires decimal { IsDecimal word }
    requires low { HasNoLowByte (rule_of word Integer) }
    requires within { count ≤ length text.now }
    ensures { IfSome result (λ value. integer_in word (take count text.now) ≡ Ok value) }
{
    match short_integer(text, count, word) {
        Some(value) => Some(value),
        None => match parse_number::<i64>(&text[..count], word) {
            Ok(value) => Some(value),
            Err(_) => None,
        },
    }
}

/// The decimal number that a text is, with any blanks around it.
#[inline(always)]
fn decimal_of(text: &[u8], word: u128, places: usize) -> Option<i64>
    requires supported { IsTrue (is_supported word) }
    requires decimal { IsDecimal word }
    ensures { IfSome result (λ value. decimal_in word text.now places ≡ Ok value) }
{
    let place = past_bytes(text, 0, BLANKS);
    match short_decimal(text, word, place, places) {
        Some((value, end)) => {
            if past_bytes(text, end, BLANKS) == text.len() {
                Some(value)
            } else {
                None
            }
        }
        None => None,
    }
}

/// The number that so many bytes of a text are.
#[inline(always)]
fn number_of(text: &[u8], count: usize, word: u128, kind: Kind) -> Option<i64>
    requires supported { IsTrue (is_supported word) }
    requires decimal { IsDecimal word }
    requires low { HasNoLowByte (rule_of word Integer) }
    requires within { count ≤ length text.now }
    ensures { IfSome result (λ value. number_in word (take count text.now) kind ≡ Ok value) }
{
    match kind {
        Kind::Integers => integer_of(text, count, word),
        Kind::Places(places) => decimal_of(&text[..count], word, places),
    }
}

/// The number in a column of the first line of a text, and what follows its line feed.
#[inline(always)]
pub fn column_line(
    options: Options,
    text: &[u8],
    word: u128,
    column: Column,
) -> Option<(i64, &[u8])>
    requires supported { IsTrue (is_supported word) }
    requires decimal { IsDecimal word }
    requires low { (k : Component) → HasNoLowByte (rule_of word k) }
    requires word { word_of options ≡ word }
    requires column { options.column ≡ Some column }
    ensures is { IfSome result (λ read. FirstIs options text.now read.0 read.1.now) }
    ensures shorter { IfSome result (λ read. length read.1.now < length text.now) }
    ensures suffix { IfSome result (λ read. EndsWith text.now read.1.now) }
{
    let Some(feed) = find(text, b'\n') else {
        return None;
    };
    let Ok((start, end)) = find_span(Some(column), &text[..feed]) else {
        return None;
    };
    match number_of(&text[start..], end - start, word, options.kind) {
        Some(value) => Some((value, &text[feed + 1..])),
        None => None,
    }
}

//! Integers of radix 16 that go on to the end of a text: up to seven digits one by one, and more by
//! eights. No digit is tested for being too large, since sixteen fit.

ghost use Rattle.std.specs.Prelude.{◌≡◌, ◌+◌, ◌^◌, ◌<◌, ◌≤◌, true, length, IfSome};
ghost use Rattle.digit_integers.specs.Answered.{IsToEnd};
ghost use Rattle.digit_integers.specs.Hexadecimal.{AreHexadecimal};

use digit_words::eight::{NONE, Whole, word_at};
use digit_words::hexadecimal::{digits_of, sixteen_to, value_of};
use lexical_digits::skip::Rule;
use lexical_format::char_to_digit_const;

/// The number that a text is from `start` on, where the radix is 16 and at most seven bytes are
/// left, if all of them are digits.
#[inline(always)]
fn read_digits(text: &[u8], rule: Rule, start: usize) -> Option<u64>
    requires sixteen { rule.radix ≡ 16 }
    requires within { start ≤ length text.now }
    requires few { length text.now < start + 8 }
    ensures is { IfSome result (AreHexadecimal rule text.now start (length text.now)) }
{
    let mut value = 0;
    // a compiler writes a loop out whose turns are counted
    for count in 0..7 {
        let at = start + count;
        if at == text.len() {
            return Some(value);
        }
        let digit = char_to_digit_const(text[at], 16)?;
        value = value * 16 + u64::from(digit);
    }
    Some(value)
}

/// Whether a value of at most seven digits is at most `most`. A compiler leaves the test out for a
/// type of more than 28 bits.
#[inline(always)]
fn may_be(value: u64, most: u128) -> bool
    requires { value < 16 ^ 7 }
    ensures { result ≡ true → value ≤ most }
{
    most >= 0x0fff_ffff || u128::from(value) <= most
}

/// The value of the integer that a text is from `start` on to its end, where the radix is 16 and at
/// most seven bytes are left, if all of them are digits and their value is at most `most`.
#[inline(always)]
fn read_one_to_seven_from(text: &[u8], rule: Rule, start: usize, most: u128) -> Option<u64>
    requires sixteen { rule.radix ≡ 16 }
    requires within { start ≤ length text.now }
    requires few { length text.now < start + 8 }
    ensures is { IfSome result (IsToEnd rule text.now start) }
    ensures fits { IfSome result (λ value. value ≤ most) }
{
    if start == text.len() {
        return None;
    }
    let value = read_digits(text, rule, start)?;
    if may_be(value, most) {
        Some(value)
    } else {
        None
    }
}

/// The number that the eight bytes from a position on write, if they are digits of radix 16.
#[inline(always)]
fn eight_from(text: &[u8], rule: Rule, at: usize) -> Option<u64>
    requires sixteen { rule.radix ≡ 16 }
    requires within { at + 8 ≤ length text.now }
    ensures is { IfSome result (AreHexadecimal rule text.now at (at + 8)) }
{
    Some(value_of(digits_of(word_at(text, at))?))
}

/// The integer that a text of at least eight bytes is from `start` on, where the radix is 16, if it
/// is at most sixteen digits and nothing else. The last eight may be some of the first.
#[inline(never)]
fn read_long(text: &[u8], rule: Rule, start: usize) -> Whole
    requires sixteen { rule.radix ≡ 16 }
    requires eight { start + 8 ≤ length text.now }
    ensures { result.is_whole ≡ true
        → AreHexadecimal rule text.now start (length text.now) result.value }
{
    let bytes = text.len() - start;
    if bytes > 16 {
        return NONE;
    }
    let Some(first) = eight_from(text, rule, start) else {
        return NONE;
    };
    let Some(last) = eight_from(text, rule, text.len() - 8) else {
        return NONE;
    };
    let scale = sixteen_to(bytes - 8);
    Whole {
        value: first * scale + last % scale,
        is_whole: true,
    }
}

/// The value of the integer that a text is from `start` on to its end, where the radix is 16, if it
/// is at most `most` and nothing else is there than at most sixteen digits. Eight and more are read
/// in code of their own.
#[inline(always)]
pub(super) fn read_hexadecimal(text: &[u8], rule: Rule, start: usize, most: u128) -> Option<u64>
    requires sixteen { rule.radix ≡ 16 }
    requires within { start ≤ length text.now }
    ensures is { IfSome result (IsToEnd rule text.now start) }
    ensures fits { IfSome result (λ value. value ≤ most) }
{
    if text.len() - start < 8 {
        return read_one_to_seven_from(text, rule, start, most);
    }
    let whole = read_long(text, rule, start);
    if whole.is_whole && u128::from(whole.value) <= most {
        Some(whole.value)
    } else {
        None
    }
}

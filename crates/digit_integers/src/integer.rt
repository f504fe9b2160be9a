//! The integer that a text begins with. No `Bytes` is made where the slice is enough.

ghost use Rattle.std.specs.Prelude.{◌≡◌, ◌==◌, ◌+◌, ◌-◌, ◌^◌, ◌<◌, ◌≤◌, None, Some, Ok, true, false, length, IfSome, IfOk, IsTrue};
ghost use Rattle.lexical_format.specs.Word.{is_supported};
ghost use Rattle.lexical_digits.specs.declared.skip.component.Component.TheVariants.{Integer};
ghost use Rattle.lexical_digits.specs.Separators.{IsSupported};
ghost use Rattle.lexical_digits.specs.State.{rule_of};
ghost use Rattle.digit_integers.specs.Answered.{ReadsInteger, IsToEnd};
ghost use Rattle.digit_values.specs.Outcomes.{IfEmpty, IfOverflow};
ghost use Rattle.lexical_digits.specs.declared.skip.rule.Rule.{Rule};
ghost use Rattle.digit_integers.specs.Groups.{DropsLone};
ghost use Rattle.digit_words.specs.Eight.{IsWritten};
ghost use Rattle.digit_integers.specs.Integers.{integer_at};
ghost use Rattle.digit_values.specs.Reads.{IsFirst, integer_of};

use super::groups::read_grouped;
use digit_values::{LiteralError, ReadTo, first_digit, read_component_slice, read_fresh_bytes};
use digit_words::eight::{Whole, read_five_to_seven, read_one_to_seven, read_whole};
use lexical_digits::iterator::Iter;
use lexical_digits::skip::{Component, Rule};

/// The value of the integer that a text begins with, and where the integer ends. It ends at the
/// stop, the first kept byte that is no digit, or at the end of the text. Digits are those of the
/// mantissa radix. [`read_number`](crate::read_number) of a `u64` returns the same. Requires that
/// the word is supported.
///
/// The result is that of [`read_digits`](digit_values::read_digits) on the integer iterator of a
/// fresh `Bytes`, and on `Ok` the cursor. [`Empty`](LiteralError::Empty) holds the stop if no digit
/// is before it; [`Overflow`](LiteralError::Overflow) the first digit with which the value is above
/// `u64::MAX`.
///
/// ```text
/// `1_000` with internal separators: Ok((1000, 5))      `_1`: Err(Empty(0))
/// ```
#[inline(always)]
pub fn read_integer(text: &[u8], word: u128) -> Result<(u64, usize), LiteralError>
    requires { IsTrue (is_supported word) }
    ensures is { result ≡ integer_at (rule_of word Integer) text.now 0 (2 ^ 64 - 1) }
    ensures end { IfOk result (λ read. (0 < read.1) × (read.1 ≤ length text.now)) }
    ensures empty_at { IfEmpty result (λ at. at ≤ length text.now) }
    ensures overflow_at { IfOverflow result (λ at. at < length text.now) }
{
    read_integer_from(text, word, 0, u64::MAX)
}

/// Reads an integer without a sign, up to `most`, as a `u64`. Requires that `start` is within the
/// text and the word is supported.
///
/// It begins at `start`. Positions count from the start of the text. A separator at `start` is
/// judged with the byte before it. [`Overflow`](LiteralError::Overflow) holds the first digit with
/// which the value is above `most`.
///
/// ```text
/// `0x1_f` with internal `_` and radix 16, from 2: Ok((31, 5)); up to 9: Err(Overflow(4))
/// ```
#[inline(always)]
pub fn read_integer_from(
    text: &[u8],
    word: u128,
    start: usize,
    most: u64,
) -> Result<(u64, usize), LiteralError>
    requires supported { IsTrue (is_supported word) }
    requires within { start ≤ length text.now }
    ensures is { result ≡ integer_at (rule_of word Integer) text.now start most }
    ensures fits { IfOk result (λ read. read.0 ≤ most) }
    ensures end { let n = length text.now in
        IfOk result (λ read. (start < read.1) × (read.1 ≤ n)) }
    ensures empty_at { let n = length text.now in
        IfEmpty result (λ at. (start ≤ at) × (at ≤ n)) }
    ensures overflow_at { let n = length text.now in
        IfOverflow result (λ at. (start ≤ at) × (at < n)) }
{
    let rule = Rule::of(word, Component::Integer);
    // A compiler sees that without inner separators no digit follows a first byte that is none.
    match first_digit(text, rule, start, 0, u128::from(most)) {
        None if !rule.internal => read_integer_known(text, word, start, None, most),
        first => read_integer_known(text, word, start, first, most),
    }
}

/// [`read_integer_from`], where the digit at `start` may be known.
#[inline(always)]
pub(super) fn read_integer_known(
    text: &[u8],
    word: u128,
    start: usize,
    first: Option<u32>,
    most: u64,
) -> Result<(u64, usize), LiteralError>
    requires supported { IsTrue (is_supported word) }
    requires within { start ≤ length text.now }
    requires first { let r = rule_of word Integer in
        IfSome first (IsFirst r text.now start 0 (Some most)) }
    ensures { ReadsInteger (rule_of word Integer) text.now start most result }
{
    // not by `read_known`: a test where the two ways meet again costs more than the code twice
    match read_component_slice(text, word, Component::Integer, start, first, Some(most)) {
        Some(read) => integer_of(read, read.end == start),
        None => {
            let read = read_fresh_bytes(text, word, Component::Integer, start, Some(most));
            integer_of(read, read.count == 0)
        }
    }
}

/// Whether a value of at most seven digits is at most `most`. A compiler leaves the test out for a
/// type of more than 24 bits.
#[inline(always)]
fn may_be(value: u64, most: u128) -> bool
    requires { value < 10 ^ 7 }
    ensures { result ≡ true → value ≤ most }
{
    most >= 9_999_999 || u128::from(value) <= most
}

/// The value of the integer that a text is from `start` on to its end, where the radix is 10 and at
/// most seven bytes are left, if all of them are digits and their value is at most `most`. No digit
/// is tested for being too large.
#[inline(always)]
pub(super) fn read_one_to_seven_from(
    text: &[u8],
    rule: Rule,
    start: usize,
    most: u128,
) -> Option<u64>
    requires ten { rule.radix ≡ 10 }
    requires within { start ≤ length text.now }
    requires few { length text.now < start + 8 }
    ensures is { IfSome result (IsToEnd rule text.now start) }
    ensures fits { IfSome result (λ value. value ≤ most) }
{
    let value = read_one_to_seven(&text[start..])?;
    if may_be(value, most) {
        Some(value)
    } else {
        None
    }
}

/// The number that a text of at least five bytes is.
#[inline(always)]
fn read_all_digits(text: &[u8]) -> Whole
    requires { 5 ≤ length text.now }
    ensures { result.is_whole ≡ true → IsWritten text.now 0 (length text.now) result.value }
{
    if text.len() >= 8 {
        read_whole(text)
    } else {
        read_five_to_seven(text)
    }
}

/// The integer that a text is from `start` on to its end, where the radix is 10 and lone separators
/// between digits are dropped: in groups if one is before the last three bytes, and otherwise
/// without a separator. It takes the byte that separates, and no rule, which would be in memory.
#[inline(never)]
fn read_separated(text: &[u8], separator: u8, start: usize) -> Whole
    requires { start + 5 ≤ length text.now }
    ensures { (rule : Rule) → DropsLone rule separator → result.is_whole ≡ true
        → IsToEnd rule text.now start result.value }
{
    if separator != 0 && text[text.len() - 4] == separator {
        return read_grouped(text, separator, start);
    }
    read_all_digits(&text[start..])
}

/// The integer that a text is from `start` on to its end, where the radix is 10: by
/// [`read_separated`] if lone separators between digits are dropped. It is in place, so that a
/// constant word tells which.
#[inline(always)]
pub(super) fn read_long(text: &[u8], rule: Rule, start: usize) -> Whole
    requires supported { IsSupported rule }
    requires ten { rule.radix ≡ 10 }
    requires five { start + 5 ≤ length text.now }
    requires eight { rule.internal ≡ false → start + 8 ≤ length text.now }
    ensures { result.is_whole ≡ true → IsToEnd rule text.now start result.value }
{
    if !rule.internal {
        return read_whole(&text[start..]);
    }
    read_separated(text, rule.separator, start)
}

/// The value of the digits that were read and where they end, or why there is none. `is_empty` says
/// that no digit was read.
#[inline(always)]
pub(super) fn integer_of(read: ReadTo, is_empty: bool) -> Result<(u64, usize), LiteralError>
    ensures { result ≡ integer_of read is_empty }
{
    if read.is_too_large {
        Err(LiteralError::Overflow(read.end))
    } else if is_empty {
        Err(LiteralError::Empty(read.end))
    } else {
        Ok((read.value, read.end))
    }
}

//! Integers that may have more than 64 bits.

ghost use Rattle.std.specs.Prelude.{◌≡◌, ◌+◌, ◌-◌, ◌*◌, ◌^◌, ◌<◌, ◌≤◌, Some, Ok, Err, length, true, false, IfOk, IfErr, IfSome, IsTrue, SomeIff};
ghost use Rattle.std.specs.Str.Parse.{digits_value};
ghost use Rattle.lexical_format.specs.Word.{is_supported};
ghost use Rattle.lexical_digits.specs.declared.skip.component.Component.TheVariants.{Integer};
ghost use Rattle.lexical_digits.specs.State.{rule_of};
ghost use Rattle.lexical_digits.specs.Stop.{stop};
ghost use Rattle.digit_values.specs.After.{digits_between, ExceedsAt};
ghost use Rattle.digit_integers.specs.Answered.{ReadsInteger};
ghost use Rattle.digit_values.specs.Outcomes.{IfEmpty, IfOverflow};
ghost use Rattle.digit_integers.specs.Integers.{integer_at};
ghost use Rattle.digit_values.specs.Reads.{IsFirst};
ghost use Rattle.digit_values.specs.declared.LiteralError.TheVariants.{Empty, Overflow};

use super::integer::{integer_of, read_integer_known};
use digit_values::{LiteralError, ReadTo, read_known, read_slice_by_words, stop_from};
use digit_words::powers::ten_to;
use lexical_digits::skip::{Component, Rule};
use lexical_format::char_to_digit_const;

/// Reads an integer without a sign, up to `most`, as a `u128`. Up to 64 bits [`read_integer_from`]
/// is faster. Requires that `start` is within the text and the word is supported.
///
/// It begins at `start`. [`Overflow`](LiteralError::Overflow) holds the first digit with which the
/// value is above `most`.
///
/// ```text
/// `99999999999999999999`, up to 2 to the power 64: Err(Overflow(19))
/// ```
#[inline(always)]
pub fn read_wide_from(
    text: &[u8],
    word: u128,
    start: usize,
    most: u128,
) -> Result<(u128, usize), LiteralError>
    requires supported { IsTrue (is_supported word) }
    requires within { start ≤ length text.now }
    ensures is { result ≡ integer_at (rule_of word Integer) text.now start most }
    ensures fits { IfOk result (λ read. read.0 ≤ most) }
    ensures end { let n = length text.now in
        IfOk result (λ read. (start < read.1) × (read.1 ≤ n)) }
    ensures empty_at { let n = length text.now in
        IfEmpty result (λ at. (start ≤ at) × (at ≤ n)) }
    ensures overflow_at { let n = length text.now in
        IfOverflow result (λ at. (start ≤ at) × (at < n)) }
{
    read_wide_known(text, word, start, None, most)
}

/// [`read_wide_from`], where the digit at `start` may be known.
#[inline(always)]
pub(super) fn read_wide_known(
    text: &[u8],
    word: u128,
    start: usize,
    first: Option<u32>,
    most: u128,
) -> Result<(u128, usize), LiteralError>
    requires supported { IsTrue (is_supported word) }
    requires within { start ≤ length text.now }
    requires first { let r = rule_of word Integer in
        IfSome first (IsFirst r text.now start 0 (Some most)) }
    ensures { ReadsInteger (rule_of word Integer) text.now start most result }
{
    if most <= u128::from(u64::MAX) {
        let (value, end) = read_integer_known(text, word, start, first, most as u64)?;
        return Ok((u128::from(value), end));
    }
    let (read, is_empty) = read_known(text, word, Component::Integer, start, first, Some(u64::MAX));
    if read.is_too_large {
        let wide = read_beyond(text, word, start, read.end, read.value, most);
        if wide.is_too_large {
            return Err(LiteralError::Overflow(wide.end));
        }
        return Ok((wide.value, wide.end));
    }
    let (value, end) = integer_of(read, is_empty)?;
    Ok((u128::from(value), end))
}

/// An integer of more than 64 bits. A struct, and no `Result`: the place of its answer isn't set to
/// 0 before the call.
#[derive(Clone, Copy)]
struct Wide {
    /// The value, if it isn't too large.
    value: u128,
    /// Where the integer ends, or the first digit with which it is too large.
    end: usize,
    /// Whether the value is above the greatest.
    is_too_large: bool,
}

/// [`read_wide_from`], where with the digit at `at` the value is above `u64::MAX`, and `before` is
/// the value of the digits before it.
#[cold]
#[inline(never)]
#[tactic(auto, using(crate::proofs::Texts::outcomes))]
fn read_beyond(text: &[u8], word: u128, start: usize, at: usize, before: u64, most: u128) -> Wide
    requires supported { IsTrue (is_supported word) }
    requires within { start ≤ length text.now }
    requires beyond { ExceedsAt (rule_of word Integer) text.now start 0 0 (2 ^ 64 - 1) at }
    requires before { let r = rule_of word Integer in
        before ≡ digits_value r.radix (digits_between r text.now start at) }
    ensures ok { let r = rule_of word Integer in result.is_too_large ≡ false →
        integer_at r text.now start most ≡ Ok (result.value, result.end) }
    ensures overflow { let r = rule_of word Integer in result.is_too_large ≡ true →
        integer_at r text.now start most ≡ Err (Overflow result.end) }
    ensures fits { result.is_too_large ≡ false → result.value ≤ most }
    ensures onward { start ≤ result.end }
    ensures end { result.is_too_large ≡ false → start < result.end }
    ensures within { result.end ≤ length text.now }
    ensures overflow_at { result.is_too_large ≡ true → result.end < length text.now }
{
    if let Some((value, end)) = read_pieces(text, word, start, at, before) {
        if value <= most {
            return Wide {
                value,
                end,
                is_too_large: false,
            };
        }
    }
    let end = stop_from(text, word, Component::Integer, start);
    let rule = Rule::of(word, Component::Integer);
    match value_between(text, rule, start, end, most) {
        Ok(value) => Wide {
            value,
            end,
            is_too_large: false,
        },
        Err(over) => Wide {
            value: 0,
            end: over,
            is_too_large: true,
        },
    }
}

/// What [`read_again`] answers. A struct, and no `Result`, as [`Wide`].
#[derive(Clone, Copy)]
pub(super) struct Again {
    /// The value, if there is one.
    pub(super) value: u128,
    /// Where the integer ends, or the position of the fault.
    pub(super) end: usize,
    /// Whether there is no digit.
    pub(super) is_empty: bool,
    /// Whether the value is above the greatest.
    pub(super) is_too_large: bool,
}

/// [`read_wide_from`] in code of its own.
#[cold]
#[inline(never)]
pub(super) fn read_again(text: &[u8], word: u128, start: usize, most: u128) -> Again
    requires supported { IsTrue (is_supported word) }
    requires within { start ≤ length text.now }
    ensures ok { let r = rule_of word Integer in
        result.is_empty ≡ false → result.is_too_large ≡ false →
        integer_at r text.now start most ≡ Ok (result.value, result.end) }
    ensures fits { result.is_empty ≡ false → result.is_too_large ≡ false → result.value ≤ most }
    ensures empty { let r = rule_of word Integer in result.is_empty ≡ true →
        integer_at r text.now start most ≡ Err (Empty result.end) }
    ensures overflow { let r = rule_of word Integer in
        result.is_empty ≡ false → result.is_too_large ≡ true →
        integer_at r text.now start most ≡ Err (Overflow result.end) }
    ensures onward { start ≤ result.end }
    ensures within { result.end ≤ length text.now }
{
    match read_wide_from(text, word, start, most) {
        Ok((value, end)) => Again {
            value,
            end,
            is_empty: false,
            is_too_large: false,
        },
        Err(LiteralError::Empty(at)) => Again {
            value: 0,
            end: at,
            is_empty: true,
            is_too_large: false,
        },
        Err(LiteralError::Overflow(at)) => Again {
            value: 0,
            end: at,
            is_empty: false,
            is_too_large: true,
        },
    }
}

/// The radix to the power of a count, if that fits 64 bits.
#[inline(always)]
fn radix_to(radix: u32, count: usize) -> Option<u64>
    ensures { IfSome result (λ scale. scale ≡ radix ^ count) }
{
    if radix == 10 {
        return ten_to(count);
    }
    u64::from(radix).checked_pow(u32::try_from(count).ok()?)
}

/// A value followed by digits that were read, if that fits 128 bits.
#[inline(always)]
pub fn join(value: u128, radix: u32, read: ReadTo) -> Option<u128>
    ensures { IfSome result (λ more. more ≡ value * radix ^ read.count + read.value) }
{
    let scale = radix_to(radix, read.count)?;
    value
        .checked_mul(u128::from(scale))?
        .checked_add(u128::from(read.value))
}

/// The value of the integer from `start` on, and where it ends: `before` is that of the digits
/// before the digit at `from`. It goes on from there in pieces of 64 bits. `None` if the value, or
/// the scale of a piece, doesn't fit, or the slice isn't enough.
#[inline(always)]
fn read_pieces(
    text: &[u8],
    word: u128,
    start: usize,
    from: usize,
    before: u64,
) -> Option<(u128, usize)>
    requires supported { IsTrue (is_supported word) }
    requires within { start ≤ length text.now }
    requires beyond { ExceedsAt (rule_of word Integer) text.now start 0 0 (2 ^ 64 - 1) from }
    requires before { let r = rule_of word Integer in
        before ≡ digits_value r.radix (digits_between r text.now start from) }
    ensures ends { IfSome result (λ read. read.1 ≡ stop (rule_of word Integer) text.now start 0) }
    ensures is { let r = rule_of word Integer in IfSome result (λ read.
        read.0 ≡ digits_value r.radix (digits_between r text.now start read.1)) }
{
    let rule = Rule::of(word, Component::Integer);
    let mut value = u128::from(before);
    let mut at = from;
    while at < text.len() {
        let read = read_slice_by_words(text, rule, at, u64::MAX)?;
        value = join(value, rule.radix, read)?;
        if !read.is_too_large {
            return Some((value, read.end));
        }
        if read.end == at {
            return None;
        }
        at = read.end;
    }
    None
}

/// The value with one digit more, if it is at most `most`.
#[inline(always)]
pub(super) fn add_wide(value: u128, radix: u32, digit: u32, most: u128) -> Option<u128>
    ensures { SomeIff result (value * radix + digit ≤ most) (value * radix + digit) }
{
    let more = value
        .checked_mul(u128::from(radix))?
        .checked_add(u128::from(digit))?;
    if more <= most { Some(more) } else { None }
}

/// The value of the digits between two positions, or the position of the first with which it is
/// above `most`.
fn value_between(
    text: &[u8],
    rule: Rule,
    start: usize,
    end: usize,
    most: u128,
) -> Result<u128, usize>
    requires onward { start ≤ end }
    requires within { end ≤ length text.now }
    ensures is { IfOk result (λ v.
        v ≡ digits_value rule.radix (digits_between rule text.now start end)) }
    ensures fits { IfOk result (λ v. v ≤ most) }
    ensures at { IfErr result (λ at. (start ≤ at) × (at < end)) }
    ensures before { IfErr result (λ at.
        digits_value rule.radix (digits_between rule text.now start at) ≤ most) }
    ensures passes { IfErr result (λ at.
        most < digits_value rule.radix (digits_between rule text.now start (at + 1))) }
{
    let mut value = 0u128;
    for at in start..end {
        if let Some(digit) = char_to_digit_const(text[at], rule.radix) {
            match add_wide(value, rule.radix, digit, most) {
                Some(more) => value = more,
                None => return Err(at),
            }
        }
    }
    Ok(value)
}

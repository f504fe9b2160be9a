//! Decimal digits of a component. However many there are with no separator among them, the first
//! ones are read eight at a time, and the others only passed: only for speed, of long floats.

ghost use Rattle.std.specs.Prelude.{◌≡◌, ◌+◌, ◌-◌, ◌*◌, ◌^◌, ◌<◌, ◌≤◌, true, false, length, slice_index, IsTrue, IfSome};
ghost use Rattle.std.specs.Char.{is_ascii_digit};
ghost use Rattle.std.specs.Str.Parse.{digits_value_after};
ghost use Rattle.lexical_format.specs.Word.{is_supported};
ghost use Rattle.lexical_digits.specs.State.{rule_of};
ghost use Rattle.lexical_digits.specs.Separators.{is_digit, is_separator};
ghost use Rattle.lexical_digits.specs.Stop.{stop};
ghost use Rattle.digit_values.specs.After.{digits_between};
ghost use Rattle.digit_values.specs.First.{ReadsFirst};
ghost use Rattle.digit_floats.specs.Parts.{IsPart};
ghost use Rattle.digit_floats.specs.Eights.{AreDigits};

use digit_values::{FirstDigits, read_first_digits_from};
use lexical_digits::skip::{Component, Rule};

/// Whether the eight bytes from a position on are decimal digits.
#[inline(always)]
fn are_eight_digits(text: &[u8], rule: Rule, at: usize) -> bool
    requires radix { rule.radix ≡ 10 }
    requires within { at + 8 ≤ length text.now }
    ensures { result ≡ true → AreDigits rule text.now at (at + 8) }
{
    // `&`, so that a compiler compares all at once
    text[at].is_ascii_digit()
        & text[at + 1].is_ascii_digit()
        & text[at + 2].is_ascii_digit()
        & text[at + 3].is_ascii_digit()
        & text[at + 4].is_ascii_digit()
        & text[at + 5].is_ascii_digit()
        & text[at + 6].is_ascii_digit()
        & text[at + 7].is_ascii_digit()
}

/// Whether eight digits begin a component at a position.
#[inline(always)]
pub fn begins_long(text: &[u8], word: u128, component: Component, at: usize) -> bool
    requires decimal { (rule_of word component).radix ≡ 10 }
    requires within { at ≤ length text.now }
    ensures { result ≡ true → AreDigits (rule_of word component) text.now at (at + 8) }
{
    // where none begins it, the first byte tells
    text.len() - at >= 8
        && text[at].is_ascii_digit()
        && are_eight_digits(text, Rule::of(word, component), at)
}

/// A position after digits that begin at `start`, eight at a time.
#[inline(always)]
#[tactic(auto, using(crate::proofs::EightDigits::none_are, crate::proofs::EightDigits::both_are))]
fn pass_eights(text: &[u8], rule: Rule, start: usize) -> usize
    requires radix { rule.radix ≡ 10 }
    requires within { start ≤ length text.now }
    ensures onward { start ≤ result }
    ensures within { result ≤ length text.now }
    ensures digits { AreDigits rule text.now start result }
{
    let mut end = start;
    while text.len() - end >= 8 {
        if !are_eight_digits(text, rule, end) {
            break;
        }
        end += 8;
    }
    end
}

/// The first position from `start` on whose byte is no decimal digit, or the end of the text.
#[inline(always)]
#[tactic(auto, using(crate::proofs::EightDigits::ends))]
fn digits_end(text: &[u8], rule: Rule, start: usize) -> usize
    requires radix { rule.radix ≡ 10 }
    requires within { start ≤ length text.now }
    ensures onward { start ≤ result }
    ensures within { result ≤ length text.now }
    ensures digits { AreDigits rule text.now start result }
    ensures other { result < length text.now
        → is_digit rule (slice_index text.now result) ≡ false }
{
    let from = pass_eights(text, rule, start);
    for at in from..text.len() {
        if !text[at].is_ascii_digit() {
            return at;
        }
    }
    text.len()
}

/// Whether a separator is at a position.
#[inline(always)]
fn has_separator(text: &[u8], rule: Rule, at: usize) -> bool
    ensures { result ≡ false → at < length text.now
        → is_separator rule.separator (slice_index text.now at) ≡ false }
{
    if at >= text.len() {
        return false;
    }
    rule.is_separator(text[at])
}

/// The first digits that were read, and where they end.
#[derive(Clone, Copy)]
struct Front {
    value: u64,
    end: usize,
}

/// The value of a digit.
#[inline(always)]
fn digit_of(text: &[u8], at: usize) -> u64
    requires within { at < length text.now }
    requires digit { 48 ≤ slice_index text.now at }
    ensures { result ≡ slice_index text.now at - 48 }
{
    u64::from(text[at]) - 48
}

/// The value of two digits.
#[inline(always)]
#[tactic(auto, using(crate::proofs::EightDigits::ascii_of))]
fn two_of(text: &[u8], rule: Rule, at: usize) -> u64
    requires radix { rule.radix ≡ 10 }
    requires within { at + 2 ≤ length text.now }
    requires digits { AreDigits rule text.now at (at + 2) }
    ensures is { result
        ≡ (slice_index text.now at - 48) * 10 + (slice_index text.now (at + 1) - 48) }
    ensures few { result < 100 }
{
    digit_of(text, at) * 10 + digit_of(text, at + 1)
}

/// A value with eight digits after it.
#[inline(always)]
#[tactic(auto, using(crate::proofs::EightDigits::some_are))]
fn eight_more(text: &[u8], rule: Rule, start: usize, at: usize, before: u64, value: u64) -> u64
    requires radix { rule.radix ≡ 10 }
    requires onward { start ≤ at }
    requires within { at + 8 ≤ length text.now }
    requires digits { AreDigits rule text.now at (at + 8) }
    requires value { value ≡ digits_value_after rule.radix before
        (digits_between rule text.now start at) }
    requires few { value < 10 ^ 11 }
    ensures is { result ≡ digits_value_after rule.radix before
        (digits_between rule text.now start (at + 8)) }
    ensures fits { result ≤ 10 ^ 19 - 1 }
{
    let first = two_of(text, rule, at) * 100 + two_of(text, rule, at + 2);
    let second = two_of(text, rule, at + 4) * 100 + two_of(text, rule, at + 6);
    value * 100_000_000 + (first * 10_000 + second)
}

/// The digits between two positions after a value, eight at a time, as long as that is below 10 to
/// the power 11. Zeros that lead are passed so.
#[inline(always)]
#[tactic(auto, using(crate::proofs::EightDigits::eights))]
fn read_eights(text: &[u8], rule: Rule, start: usize, end: usize, before: u64) -> Front
    requires radix { rule.radix ≡ 10 }
    requires onward { start ≤ end }
    requires within { end ≤ length text.now }
    requires digits { AreDigits rule text.now start end }
    requires before { before ≤ 10 ^ 19 - 1 }
    ensures onward { start ≤ result.end }
    ensures within { result.end ≤ end }
    ensures is { result.value ≡ digits_value_after rule.radix before
        (digits_between rule text.now start result.end) }
    ensures fits { result.value ≤ 10 ^ 19 - 1 }
{
    let mut value = before;
    let mut at = start;
    while end - at >= 8 && value < 100_000_000_000 {
        value = eight_more(text, rule, start, at, before, value);
        at += 8;
    }
    Front { value, end: at }
}

/// The digits between two positions after a value, as many as leave it below 10 to the power 19.
#[inline(always)]
#[tactic(auto, using(crate::proofs::EightDigits::ones))]
fn read_front(text: &[u8], rule: Rule, start: usize, end: usize, before: u64) -> Front
    requires radix { rule.radix ≡ 10 }
    requires onward { start ≤ end }
    requires within { end ≤ length text.now }
    requires digits { AreDigits rule text.now start end }
    requires before { before ≤ 10 ^ 19 - 1 }
    ensures onward { start ≤ result.end }
    ensures within { result.end ≤ end }
    ensures is { result.value ≡ digits_value_after rule.radix before
        (digits_between rule text.now start result.end) }
    ensures fits { result.value ≤ 10 ^ 19 - 1 }
    ensures next { result.end < end → 10 ^ 19 - 1 < digits_value_after rule.radix before
        (digits_between rule text.now start (result.end + 1)) }
{
    let eights = read_eights(text, rule, start, end, before);
    let mut value = eights.value;
    for at in eights.end..end {
        if value >= 1_000_000_000_000_000_000 {
            return Front { value, end: at };
        }
        value = value * 10 + digit_of(text, at);
    }
    Front { value, end }
}

/// Reads the decimal digits of a component that begins at `start`, after a value, where no
/// separator is met: as many as leave the value below 10 to the power 19. The others are passed.
#[inline(never)]
pub fn read_long_part(
    text: &[u8],
    word: u128,
    component: Component,
    start: usize,
    before: u64,
) -> Option<(FirstDigits, usize)>
    requires supported { IsTrue (is_supported word) }
    requires decimal { (rule_of word component).radix ≡ 10 }
    requires within { start ≤ length text.now }
    requires before { before ≤ 10 ^ 19 - 1 }
    ensures first { let r = rule_of word component in
        let digits = digits_between r text.now start (stop r text.now start 0) in
        IfSome result (λ read. ReadsFirst r.radix (10 ^ 19 - 1) before digits read.0) }
    ensures stops { IfSome result (λ read.
        read.1 ≡ stop (rule_of word component) text.now start 0) }
    ensures onward { IfSome result (λ read. start + read.0.count ≤ read.1) }
    ensures end { IfSome result (λ read. read.1 ≤ length text.now) }
{
    let rule = Rule::of(word, component);
    let end = digits_end(text, rule, start);
    if has_separator(text, rule, end) {
        return None;
    }
    let front = read_front(text, rule, start, end, before);
    let read = FirstDigits {
        value: front.value,
        count: end - start,
        dropped: end - front.end,
    };
    Some((read, end))
}

/// The greatest value of 19 digits.
const MOST: u64 = 9_999_999_999_999_999_999;

/// The first digits of a component with radix 10 from a position on, after those of a number, as
/// many as leave the value below 10 to the power 19, and where all its digits end. `by_eights` says
/// whether eight digits are looked for at once: a literal, so that it costs no test.
#[inline(always)]
#[tactic(auto, using(crate::proofs::Decimals::firsts), unfolding(crate::specs::Float::components))]
pub fn read_decimal_part(
    text: &[u8],
    word: u128,
    component: Component,
    at: usize,
    before: u64,
    by_eights: bool,
) -> (FirstDigits, usize)
    requires supported { IsTrue (is_supported word) }
    requires decimal { (rule_of word component).radix ≡ 10 }
    requires within { at ≤ length text.now }
    requires before { before ≤ 10 ^ 19 - 1 }
    ensures { IsPart word text.now component at before result }
{
    if by_eights && begins_long(text, word, component, at) {
        if let Some(read) = read_long_part(text, word, component, at, before) {
            return read;
        }
    }
    read_first_digits_from(text, word, component, at, before, MOST)
}

//! The cursor, the byte at it, and what a contiguous part allows.

use super::steps::Part::{Integer, Special};
use super::steps::Step::{
    self, Buffer, Count, Cursor, First, FirstIs, FirstIsCased, FirstIsUncased, IsAtEnd, IsConsumed,
    IsContiguous, Length, MoveTo, Next, Peek, Rest, SizeHint, StepBy, StepOne,
};
use super::steps::{ITERATORS, PARTS, assert_goes, assert_part, assert_steps};
use super::{CONSECUTIVE, INTERNAL, LEADING, TRAILING, UNFLAGGED, bytes_of};
use lexical_digits::iterator::Iter;
use lexical_digits::skip::{
    Bytes, ExponentDigitsIterator, FractionDigitsIterator, IntegerDigitsIterator,
};
use lexical_format::{FRACTION_INTERNAL_DIGIT_SEPARATOR, SPECIAL_DIGIT_SEPARATOR, STANDARD};
use std::process::Abort;

#[test]
fn an_empty_buffer_has_no_byte(rt: HostRuntime) {
    let word = UNFLAGGED | INTERNAL | LEADING | TRAILING | CONSECUTIVE;
    let steps = [Peek(None), Next(None), IsConsumed(true)];
    assert_goes(&rt, word, b"", Integer, &steps);
}

/// Makes these calls on an iterator that `new` of its type makes.
fn assert_new_integer(rt: &impl Abort, bytes: &mut Bytes, steps: &[Step]) {
    assert_steps(rt, &mut IntegerDigitsIterator::new(bytes), steps);
}

fn assert_new_fraction(rt: &impl Abort, bytes: &mut Bytes, steps: &[Step]) {
    assert_steps(rt, &mut FractionDigitsIterator::new(bytes), steps);
}

fn assert_new_exponent(rt: &impl Abort, bytes: &mut Bytes, steps: &[Step]) {
    assert_steps(rt, &mut ExponentDigitsIterator::new(bytes), steps);
}

#[test]
fn the_iterators_of_one_buffer_share_its_cursor(rt: HostRuntime) {
    let mut bytes = bytes_of(&rt, b"1_.2", UNFLAGGED | TRAILING | SPECIAL_DIGIT_SEPARATOR);
    let steps = [Next(Some(b'1')), Peek(Some(b'.')), Cursor(2)];
    assert_new_integer(&rt, &mut bytes, &steps);
    assert_part(&rt, &mut bytes, Special, &[Next(Some(b'.')), Cursor(3)]);
    assert_new_fraction(&rt, &mut bytes, &[Next(Some(b'2'))]);
    assert_new_exponent(&rt, &mut bytes, &[Next(None)]);
}

#[test]
fn first_passes_nothing_over(rt: HostRuntime) {
    for word in [UNFLAGGED | INTERNAL, UNFLAGGED | LEADING] {
        let steps = [First(Some(b'_')), Rest(b"_5"), IsAtEnd(false), Cursor(0)];
        assert_goes(&rt, word, b"_5", Integer, &steps);
    }
}

#[test]
fn first_is_told_with_and_without_case(rt: HostRuntime) {
    let steps = [
        FirstIsCased(b'A', false),
        FirstIsUncased(b'A', true),
        MoveTo(1),
        First(None),
        FirstIs(b'a', true, false),
    ];
    assert_goes(&rt, UNFLAGGED | INTERNAL, b"a", Integer, &steps);
}

#[test]
fn only_is_consumed_passes_a_dropped_end(rt: HostRuntime) {
    let steps = [
        Next(Some(b'4')),
        IsAtEnd(false),
        IsConsumed(true),
        IsAtEnd(true),
        Cursor(2),
    ];
    assert_goes(&rt, UNFLAGGED | TRAILING, b"4_", Integer, &steps);
}

#[test]
fn each_component_has_both_signs(rt: HostRuntime) {
    let mut bytes = bytes_of(&rt, b"", UNFLAGGED | INTERNAL);
    for (byte, is_sign) in [(b'+', true), (b'-', true), (b'.', false), (b'_', false)] {
        assert!(rt; bytes.integer_iter().is_sign(byte) == is_sign);
        assert!(rt; bytes.fraction_iter().is_sign(byte) == is_sign);
        assert!(rt; bytes.exponent_iter().is_sign(byte) == is_sign);
        assert!(rt; bytes.special_iter().is_sign(byte) == is_sign);
    }
}

#[test]
fn a_separator_may_be_a_sign(rt: HostRuntime) {
    let mut bytes = bytes_of(&rt, b"+12", (10 << 104) | (0x2b << 64) | LEADING);
    let iter = bytes.integer_iter();
    for (byte, is_sign) in [(b'+', true), (b'-', true), (b'1', false)] {
        assert!(rt; iter.is_sign(byte) == is_sign);
    }
    for (byte, is_separator) in [(b'+', true), (b'-', false)] {
        assert!(rt; iter.is_digit_separator(byte) == is_separator);
    }
}

/// Each call that every part has, once, over `12aB` from the cursor 0.
static CURSOR_CALLS: [Step; 14] = [
    Buffer(b"12aB"),
    Rest(b"12aB"),
    Length(4),
    Cursor(0),
    Count(0),
    First(Some(b'1')),
    FirstIs(b'1', true, true),
    MoveTo(2),
    Rest(b"aB"),
    FirstIsCased(b'a', true),
    FirstIsUncased(b'A', true),
    FirstIs(b'A', true, false),
    MoveTo(4),
    IsAtEnd(true),
];

#[test]
fn every_part_has_the_calls_of_a_cursor(rt: HostRuntime) {
    for part in &PARTS {
        assert_goes(&rt, UNFLAGGED | INTERNAL, b"12aB", *part, &CURSOR_CALLS);
    }
}

#[test]
fn every_contiguous_part_steps_over_any_bytes(rt: HostRuntime) {
    let steps = [
        IsContiguous(true),
        Cursor(0),
        Length(5),
        StepBy(3),
        First(Some(b'4')),
        StepOne,
        First(Some(b'5')),
        Count(4),
    ];
    for part in &PARTS {
        assert_goes(&rt, STANDARD, b"12345", *part, &steps);
    }
}

/// Whether a `Bytes` and its integer iterator are contiguous, by the word of the table in RULES.md.
static CONTIGUOUS: [(u128, bool, bool); 5] = [
    (STANDARD, true, true),
    (UNFLAGGED | INTERNAL, false, false),
    (UNFLAGGED | FRACTION_INTERNAL_DIGIT_SEPARATOR, false, true),
    (UNFLAGGED | CONSECUTIVE, false, false),
    (
        STANDARD | INTERNAL | LEADING | TRAILING | CONSECUTIVE,
        true,
        false,
    ),
];

#[test]
fn a_bytes_and_its_iterator_can_differ_in_being_contiguous(rt: HostRuntime) {
    for (word, whole, integer) in &CONTIGUOUS {
        let mut bytes = bytes_of(&rt, b"1_2", *word);
        let is = (bytes.is_contiguous(), bytes.integer_iter().is_contiguous());
        assert!(rt; is == (*whole, *integer), "{word}: {is:?}");
    }
}

#[test]
fn a_size_hint_foretells_nothing(rt: HostRuntime) {
    for part in &ITERATORS {
        let steps = [SizeHint((0, None))];
        assert_goes(&rt, UNFLAGGED | INTERNAL, b"1_2", *part, &steps);
    }
}

//! Tests of the next byte, and reads of it, which count nothing.

use super::steps::Part::{Integer, Special};
use super::steps::Step::{
    self, Count, Cursor, Increment, IsConsumed, IsDigit, Next, Peek, PeekIs, PeekIsCased,
    PeekIsUncased, ReadIf, ReadIfCased, ReadIfEqual, ReadIfUncased, ReadIfValue, SkipZeros,
    TryRead,
};
use super::steps::{ITERATORS, assert_goes};
use super::{INTERNAL, LEADING, UNFLAGGED};
use lexical_format::{
    EXPONENT_INTERNAL_DIGIT_SEPARATOR, FRACTION_INTERNAL_DIGIT_SEPARATOR, SPECIAL_DIGIT_SEPARATOR,
};

#[test]
fn try_read_reads_a_refused_separator_and_counts_nothing(rt: HostRuntime) {
    let steps = [
        TryRead(Some(b'_')),
        TryRead(Some(b'5')),
        TryRead(None),
        Cursor(2),
        Count(0),
    ];
    assert_goes(&rt, UNFLAGGED | INTERNAL, b"_5", Integer, &steps);
}

#[test]
fn a_value_is_read_with_and_without_case(rt: HostRuntime) {
    let steps = [
        ReadIfUncased(b'A', Some(b'a')),
        Cursor(1),
        ReadIfCased(b'b', None),
        Cursor(1),
        ReadIfValue(b'b', false, Some(b'B')),
        Cursor(2),
        Count(0),
    ];
    assert_goes(&rt, UNFLAGGED | INTERNAL, b"aB", Integer, &steps);
}

#[test]
fn a_test_that_answers_true_is_called_once_and_reads(rt: HostRuntime) {
    let steps = [ReadIf(true, Some(97), Some(b'a')), Cursor(2)];
    assert_goes(&rt, UNFLAGGED | LEADING, b"_a", Integer, &steps);
}

#[test]
fn a_test_that_answers_false_is_called_once_and_leaves_the_byte(rt: HostRuntime) {
    let steps = [ReadIf(false, Some(97), None), Cursor(1), Peek(Some(b'a'))];
    assert_goes(&rt, UNFLAGGED | LEADING, b"_a", Integer, &steps);
}

#[test]
fn at_the_end_no_test_is_called(rt: HostRuntime) {
    let steps = [ReadIf(true, None, None), Cursor(1)];
    assert_goes(&rt, UNFLAGGED | LEADING, b"_", Integer, &steps);
}

#[test]
fn zeros_are_read_past_dropped_separators(rt: HostRuntime) {
    let steps = [SkipZeros(2), Cursor(4), Count(2)];
    assert_goes(&rt, UNFLAGGED | INTERNAL, b"0_0_5", Integer, &steps);
    let word = UNFLAGGED | SPECIAL_DIGIT_SEPARATOR;
    let steps = [SkipZeros(2), Cursor(3), Count(0)];
    assert_goes(&rt, word, b"0_05", Special, &steps);
}

/// Each call that an iterator has beside `next`, over `aB0_07.`, whose separator is dropped.
static READS: [Step; 16] = [
    Peek(Some(b'a')),
    PeekIsCased(b'a', true),
    PeekIsUncased(b'A', true),
    PeekIs(b'A', true, false),
    TryRead(Some(b'a')),
    ReadIfCased(b'b', None),
    ReadIfUncased(b'b', Some(b'B')),
    SkipZeros(2),
    IsDigit(b'7', true),
    IsDigit(b'a', false),
    ReadIfEqual(b'8', None),
    ReadIfValue(b'7', true, Some(b'7')),
    Increment,
    IsConsumed(false),
    Next(Some(b'.')),
    IsConsumed(true),
];

#[test]
fn every_iterator_has_the_calls_of_a_reader(rt: HostRuntime) {
    let word = UNFLAGGED
        | INTERNAL
        | FRACTION_INTERNAL_DIGIT_SEPARATOR
        | EXPONENT_INTERNAL_DIGIT_SEPARATOR
        | SPECIAL_DIGIT_SEPARATOR;
    for part in &ITERATORS {
        assert_goes(&rt, word, b"aB0_07.", *part, &READS);
    }
}

//! Which calls raise which count.

use super::steps::Part::{self, Exponent, Fraction, Integer, Special, Whole};
use super::steps::Step::{self, Count, Cursor, Increment, MoveTo, Next, Peek, SkipZeros, StepBy};
use super::steps::{assert_goes, assert_part, assert_steps, assert_turns};
use super::{CONSECUTIVE, INTERNAL, LEADING, TRAILING, UNFLAGGED, bytes_of};
use lexical_digits::iterator::{DigitsIter, Iter, IterBodies};
use lexical_digits::skip::{Bytes, Component, IntegerDigitsIterator};
use lexical_format::{
    EXPONENT_INTERNAL_DIGIT_SEPARATOR, FRACTION_INTERNAL_DIGIT_SEPARATOR,
    FRACTION_LEADING_DIGIT_SEPARATOR, SPECIAL_DIGIT_SEPARATOR, STANDARD,
};
use std::process::Abort;
use std::test::Fail;

const EVERYTHING: u128 = UNFLAGGED | INTERNAL | LEADING | TRAILING | CONSECUTIVE;

#[test]
fn next_counts_the_digits_that_it_yields(rt: HostRuntime) {
    let steps = [
        Next(Some(b'1')),
        Next(Some(b'2')),
        Next(Some(b'3')),
        Cursor(3),
        Count(3),
        Next(Some(b'4')),
        Cursor(5),
        Count(4),
        Next(Some(b'5')),
        Next(None),
    ];
    assert_goes(&rt, EVERYTHING, b"123_45", Integer, &steps);
}

/// Steps over the next digit of an integer.
fn step(rt: &impl Abort, iter: &mut IntegerDigitsIterator) {
    let at = iter.cursor();
    assert!(rt; at < iter.buffer_length());
    assert!(rt; !iter.is_digit_separator(iter.get_buffer()[at]));
    iter.step_unchecked();
}

#[test]
fn a_step_counts_nothing(rt: HostRuntime) {
    for word in [EVERYTHING, UNFLAGGED | INTERNAL] {
        let mut bytes = bytes_of(&rt, b"123_45", word);
        let mut iter = bytes.integer_iter();
        step(&rt, &mut iter);
        let steps = [Cursor(1), Count(0), Next(Some(b'2')), Cursor(2), Count(1)];
        assert_steps(&rt, &mut iter, &steps);
    }
}

#[test]
fn without_separators_the_cursor_is_the_count(rt: HostRuntime) {
    let steps = [
        StepBy(4),
        Cursor(4),
        Count(4),
        Peek(Some(b'5')),
        Next(Some(b'5')),
        Peek(None),
    ];
    assert_goes(&rt, STANDARD, b"12345", Integer, &steps);
}

#[test]
fn each_component_has_a_count_of_its_own(rt: HostRuntime) {
    let word = UNFLAGGED | INTERNAL | FRACTION_LEADING_DIGIT_SEPARATOR;
    let turns = [
        (Integer, Next(Some(b'4'))),
        (Whole, Cursor(1)),
        (Fraction, Next(Some(b'_'))),
        (Whole, Cursor(2)),
        (Fraction, Count(0)),
        (Integer, Next(Some(b'5'))),
        (Integer, Count(2)),
    ];
    assert_turns(&rt, word, b"4_5", &turns);
}

#[test]
fn an_iterator_that_makes_no_call_changes_nothing(rt: HostRuntime) {
    let turns: [(_, &[_]); 4] = [
        (Integer, &[Next(Some(b'1'))]),
        (Fraction, &[]),
        (Whole, &[Cursor(1)]),
        (Integer, &[Count(1)]),
    ];
    let mut bytes = bytes_of(&rt, b"12", UNFLAGGED | INTERNAL);
    for (part, steps) in turns {
        assert_part(&rt, &mut bytes, part, steps);
    }
}

#[test]
fn zeros_count_where_next_does_not(rt: HostRuntime) {
    let word = UNFLAGGED | FRACTION_INTERNAL_DIGIT_SEPARATOR;
    let steps = [
        SkipZeros(2),
        Cursor(2),
        Count(2),
        Next(Some(b'5')),
        Count(2),
    ];
    assert_goes(&rt, word, b"005", Integer, &steps);
}

/// Each component counts, and then each count is asked for.
static INCREMENTS: [(Part, Step); 11] = [
    (Integer, Increment),
    (Fraction, Increment),
    (Fraction, Increment),
    (Exponent, Increment),
    (Special, Increment),
    (Integer, Count(1)),
    (Fraction, Count(2)),
    (Exponent, Count(1)),
    (Special, Count(1)),
    (Whole, Count(4)),
    (Whole, Cursor(0)),
];

#[test]
fn a_bytes_with_a_separator_sums_the_counts(rt: HostRuntime) {
    let flags = FRACTION_INTERNAL_DIGIT_SEPARATOR
        | EXPONENT_INTERNAL_DIGIT_SEPARATOR
        | SPECIAL_DIGIT_SEPARATOR;
    assert_turns(&rt, UNFLAGGED | INTERNAL | flags, b"12", &INCREMENTS);
}

#[test]
fn a_clone_goes_on_from_the_same_state(rt: HostRuntime) -> Result<(), Fail> {
    let mut bytes = bytes_of(&rt, b"1__2", UNFLAGGED | INTERNAL | CONSECUTIVE);
    assert_part(
        &rt,
        &mut bytes,
        Integer,
        &[Next(Some(b'1')), Peek(Some(b'2'))],
    );
    let mut copy: Bytes = bytes.clone()?;
    assert!(rt; copy.looks() == bytes.looks());
    assert_part(&rt, &mut bytes, Whole, &[MoveTo(0)]);
    assert_part(
        &rt,
        &mut copy,
        Integer,
        &[Cursor(3), Count(1), Next(Some(b'2'))],
    );
    Ok(())
}

/// The start of a text, with a full count of the integer, and this count of the fraction.
fn full<'a>(rt: &impl Abort, text: &'a [u8], fraction: usize) -> Bytes<'a> {
    let mut bytes = bytes_of(rt, text, UNFLAGGED | INTERNAL);
    bytes.increment_count_of(Component::Integer, 1);
    bytes.increment_count_of(Component::Integer, usize::MAX);
    bytes.increment_count_of(Component::Fraction, fraction);
    bytes
}

#[test]
fn a_full_count_stays_full_through_a_drain(rt: HostRuntime) {
    let mut bytes = full(&rt, b"_5", 0);
    let steps = [Next(Some(b'5')), Next(None), Count(usize::MAX)];
    assert_steps(&rt, &mut bytes.integer_iter(), &steps);
}

#[test]
fn zeros_are_counted_apart_from_a_full_count(rt: HostRuntime) {
    let mut bytes = full(&rt, b"00", 0);
    assert_steps(
        &rt,
        &mut bytes.integer_iter(),
        &[SkipZeros(2), Count(usize::MAX)],
    );
}

#[test]
fn a_full_count_and_another_have_a_full_sum(rt: HostRuntime) {
    let bytes = full(&rt, b"", 1);
    assert_eq!(rt; bytes.current_count(), usize::MAX);
}

#[test]
fn eight_digits_that_are_read_at_once_are_counted_at_once(rt: HostRuntime) {
    let mut bytes = bytes_of(&rt, b"12345678_9", UNFLAGGED | INTERNAL);
    bytes.set_cursor(8);
    bytes.increment_count_of(Component::Integer, 8);
    bytes.increment_count_of(Component::Special, 8);
    let steps = [Count(8), Next(Some(b'9')), Cursor(10), Count(9)];
    assert_steps(&rt, &mut bytes.integer_iter(), &steps);
    assert_eq!(rt; bytes.current_count(), 9);
}

//! How many looks at a byte the reads take, and the run of separators that is remembered.

use super::steps::Part::{Fraction, Integer, Whole};
use super::steps::Step::{Cursor, Drains, Increment, MoveTo, Next, Peek};
use super::steps::{assert_goes, assert_part, assert_turns};
use super::{CONSECUTIVE, INTERNAL, LEADING, UNFLAGGED, bytes_of};
use lexical_digits::skip::{Bytes, Component};
use lexical_format::{FRACTION_CONSECUTIVE_DIGIT_SEPARATOR, FRACTION_LEADING_DIGIT_SEPARATOR};
use std::alloc::{AllocError, Global};
use std::process::Abort;
use std::test::Fail;

/// So many separators between two bytes.
fn separators_between(
    alloc: Global,
    first: u8,
    separators: usize,
    last: u8,
) -> Result<Vec<u8>, AllocError> {
    let mut text = Vec::new(alloc);
    text.push(first)?;
    for _ in 0..separators {
        text.push(b'_')?;
    }
    text.push(last)?;
    Ok(text)
}

/// The looks so far are no fewer than `least` and no more than `most`.
fn assert_looks(rt: &impl Abort, bytes: &Bytes, least: u64, most: u64) {
    let looks = bytes.looks();
    assert!(rt; least <= looks && looks <= most, "{looks}");
}

/// Flags, a text, and the looks that `next` of the integer takes up to its end. After a separator
/// that was judged, the next one is passed without a decision only if a digit is between them.
const LOOKS_TO_THE_END: [(u128, &[u8], u64); 4] = [
    (INTERNAL, b"1_2_3", 10),
    (INTERNAL, b"1__2_3", 12),
    (INTERNAL, b"12_.3_4", 16),
    (INTERNAL | CONSECUTIVE, b"1__2_3_4_5_6_7", 40),
];

#[test]
fn a_judged_separator_is_followed_by_as_many_looks(rt: HostRuntime) {
    for (flags, text, looks) in LOOKS_TO_THE_END {
        let mut bytes = bytes_of(&rt, text, UNFLAGGED | flags);
        for _ in text {
            bytes.next_of(Component::Integer);
        }
        assert_looks(&rt, &bytes, looks, looks);
    }
}

/// Flags, and the looks of all 729 texts of six bytes out of `1_.` together, each read by `peek`
/// and `next` of the integer by turns. The contracts say how many a call takes at most; these are
/// the numbers of version 0.1.0.
const LOOKS_OF_ALL: [(u128, u64); 6] = [
    (INTERNAL, 17_362),
    (LEADING, 16_492),
    (INTERNAL | LEADING, 16_000),
    (INTERNAL | CONSECUTIVE, 19_218),
    (LEADING | CONSECUTIVE, 17_069),
    (INTERNAL | LEADING | CONSECUTIVE, 15_839),
];

/// The text of six bytes out of `1_.` with a number.
fn text_of(number: usize) -> [u8; 6] {
    let mut text = [b'1'; 6];
    let mut rest = number;
    for at in 0..6 {
        text[at] = [b'1', b'_', b'.'][rest % 3];
        rest /= 3;
    }
    text
}

#[test]
fn all_short_texts_take_as_many_looks(rt: HostRuntime) {
    for (flags, looks) in LOOKS_OF_ALL {
        let mut sum = 0u64;
        for number in 0..729 {
            let text = text_of(number);
            let mut bytes = bytes_of(&rt, &text, UNFLAGGED | flags);
            for _ in 0..6 {
                bytes.peek_of(Component::Integer);
                bytes.next_of(Component::Integer);
            }
            sum = sum.wrapping_add(bytes.looks());
        }
        assert!(&rt; sum == looks, "{flags}: {sum}");
    }
}

#[test]
fn a_run_that_is_kept_is_scanned_once(rt: HostRuntime) -> Result<(), Fail> {
    let text = separators_between(rt.alloc(), b'1', 1_000, b'.')?;
    let mut bytes = bytes_of(&rt, &text, UNFLAGGED | INTERNAL | CONSECUTIVE);
    assert_part(&rt, &mut bytes, Integer, &[Drains(&text, 1)]);
    assert_looks(&rt, &bytes, 2_002, 7_018);
    assert_part(&rt, &mut bytes, Whole, &[MoveTo(0)]);
    assert_part(&rt, &mut bytes, Integer, &[Drains(&text, 2)]);
    assert_looks(&rt, &bytes, 0, 14_036);
    Ok(())
}

#[test]
fn a_long_run_is_dropped_by_one_scan(rt: HostRuntime) -> Result<(), Fail> {
    let text = separators_between(rt.alloc(), b'1', 100_000, b'2')?;
    let mut bytes = bytes_of(&rt, &text, UNFLAGGED | INTERNAL | CONSECUTIVE);
    let steps = [Drains(b"12", 2), Cursor(100_002)];
    assert_part(&rt, &mut bytes, Integer, &steps);
    assert_looks(&rt, &bytes, 0, 300_018);
    Ok(())
}

#[test]
fn without_consecutive_a_long_run_loses_its_last_separator(rt: HostRuntime) -> Result<(), Fail> {
    let text = separators_between(rt.alloc(), b'1', 100_000, b'2')?;
    let kept = separators_between(rt.alloc(), b'1', 99_999, b'2')?;
    let steps = [Drains(&kept, 2)];
    assert_goes(&rt, UNFLAGGED | INTERNAL, &text, Integer, &steps);
    Ok(())
}

#[test]
fn separators_alone_lead_only_as_a_run(rt: HostRuntime) -> Result<(), Fail> {
    let text = separators_between(rt.alloc(), b'_', 99_998, b'_')?;
    let steps = [Drains(&text, 0)];
    assert_goes(&rt, UNFLAGGED | LEADING, &text, Integer, &steps);
    let steps = [Drains(b"", 0), Cursor(100_000)];
    assert_goes(
        &rt,
        UNFLAGGED | LEADING | CONSECUTIVE,
        &text,
        Integer,
        &steps,
    );
    Ok(())
}

#[test]
fn a_run_is_judged_for_each_component(rt: HostRuntime) {
    let flags = FRACTION_LEADING_DIGIT_SEPARATOR | FRACTION_CONSECUTIVE_DIGIT_SEPARATOR;
    let turns = [
        (Integer, Next(Some(b'1'))),
        (Fraction, Peek(Some(b'_'))),
        (Whole, Cursor(1)),
        (Integer, Peek(Some(b'2'))),
        (Whole, Cursor(3)),
    ];
    let word = UNFLAGGED | INTERNAL | CONSECUTIVE | flags;
    assert_turns(&rt, word, b"1__2", &turns);
}

#[test]
fn a_run_is_judged_anew_when_the_count_has_risen(rt: HostRuntime) {
    let steps = [
        MoveTo(1),
        Peek(Some(b'_')),
        Cursor(1),
        Increment,
        Peek(Some(b'2')),
        Cursor(3),
    ];
    let word = UNFLAGGED | INTERNAL | CONSECUTIVE;
    assert_goes(&rt, word, b".__2", Integer, &steps);
}

#[test]
fn a_run_says_nothing_of_another(rt: HostRuntime) {
    let steps = [
        MoveTo(1),
        Peek(Some(b'2')),
        Cursor(3),
        MoveTo(5),
        Peek(Some(b'_')),
        Cursor(5),
    ];
    let word = UNFLAGGED | INTERNAL | CONSECUTIVE;
    assert_goes(&rt, word, b"1__2.__3", Integer, &steps);
}

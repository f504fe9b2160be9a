//! Which separators are dropped, by drains: the tables of the page RULES.md, each value by hand.

use super::steps::Part::{Fraction, Integer, Special, Whole};
use super::steps::Step::{Count, Cursor, Drains};
use super::steps::{assert_goes, assert_turns};
use super::{CONSECUTIVE, INTERNAL, LEADING, TRAILING, UNFLAGGED, bytes_of, move_to};
use lexical_digits::iterator::{DigitsIter, IterBodies};
use lexical_digits::skip::{Bytes, Component, Rule};
use lexical_format::words::{
    CXX14_LITERAL, HEXADECIMAL, JAVA_LITERAL, PYTHON_LITERAL, RUST_BINARY_LITERAL,
    RUST_HEX_LITERAL, RUST_LITERAL, RUST_OCTAL_LITERAL, TOML,
};
use lexical_format::{
    FRACTION_INTERNAL_DIGIT_SEPARATOR, FRACTION_LEADING_DIGIT_SEPARATOR, SPECIAL_DIGIT_SEPARATOR,
    STANDARD,
};
use std::alloc::Global;
use std::process::Abort;
use std::str::from_utf8;

/// All four flags of the integer.
const ALL: u128 = INTERNAL | LEADING | TRAILING | CONSECUTIVE;

/// What a drain of the integer yields: it has one byte for each turn but the last.
fn drain_of(rt: &impl Abort, alloc: Global, bytes: &mut Bytes) -> Vec<u8> {
    let mut drained = Vec::new(alloc);
    for _ in 0..=bytes.buffer_length() {
        if let Some(byte) = bytes.integer_iter().next() {
            drained.push(*byte).expect(rt, "memory");
        }
    }
    drained
}

/// The drain of the integer of a text, from a cursor and with a count of 0 or 1, yields these
/// bytes, and the count is this after it.
fn assert_drained(
    rt: &impl Abort,
    alloc: Global,
    word: u128,
    text: &[u8],
    (cursor, count): (usize, usize),
    (kept, count_after): (&[u8], usize),
) {
    let mut bytes = bytes_of(rt, text, word);
    move_to(rt, &mut bytes, cursor);
    bytes.increment_count_of(Component::Integer, count);
    let drained = drain_of(rt, alloc, &mut bytes);
    let counted = bytes.current_count_of(Component::Integer);
    let is = drained.as_slice() == kept && counted == count_after;
    let rule = Rule::of(word, Component::Integer);
    let (text, drained, kept) = (from_utf8(text), from_utf8(&drained), from_utf8(kept));
    assert!(rt;
        is,
        "{text:?} from {cursor}, {rule:?}: {drained:?}, {counted}, not {kept:?}, {count_after}"
    );
}

/// Eight texts, and the number of digits in each.
static TEXTS: [(&str, usize); 8] = [
    ("4_5", 2),
    ("4__5", 2),
    ("_45", 2),
    ("__45", 2),
    ("45_", 2),
    ("45__", 2),
    ("_", 0),
    ("__", 0),
];

/// The sixteen states of the flags: what the drain of each text yields.
static STATES: [(u128, [&str; 8]); 16] = [
    (0, ["4_5", "4__5", "_45", "__45", "45_", "45__", "_", "__"]),
    (
        INTERNAL,
        ["45", "4_5", "_45", "__45", "45_", "45__", "_", "__"],
    ),
    (
        LEADING,
        ["4_5", "4__5", "45", "__45", "45_", "45__", "", "__"],
    ),
    (
        TRAILING,
        ["4_5", "4__5", "_45", "__45", "45", "45_", "", "__"],
    ),
    (
        INTERNAL | LEADING,
        ["45", "4_5", "45", "__45", "45_", "45__", "", "__"],
    ),
    (
        INTERNAL | TRAILING,
        ["45", "4_5", "_45", "__45", "45", "45_", "", "__"],
    ),
    (
        LEADING | TRAILING,
        ["4_5", "4__5", "45", "__45", "45", "45_", "", "__"],
    ),
    (
        INTERNAL | LEADING | TRAILING,
        ["45", "4_5", "45", "__45", "45", "45_", "", "__"],
    ),
    (
        CONSECUTIVE,
        ["4_5", "4__5", "_45", "__45", "45_", "45__", "_", "__"],
    ),
    (
        INTERNAL | CONSECUTIVE,
        ["45", "45", "_45", "__45", "45_", "45__", "_", "__"],
    ),
    (
        LEADING | CONSECUTIVE,
        ["4_5", "4__5", "45", "45", "45_", "45__", "", ""],
    ),
    (
        TRAILING | CONSECUTIVE,
        ["4_5", "4__5", "_45", "__45", "45", "45", "", ""],
    ),
    (
        INTERNAL | LEADING | CONSECUTIVE,
        ["45", "45", "45", "45", "45_", "45__", "", ""],
    ),
    (
        INTERNAL | TRAILING | CONSECUTIVE,
        ["45", "45", "_45", "__45", "45", "45", "", ""],
    ),
    (
        LEADING | TRAILING | CONSECUTIVE,
        ["4_5", "4__5", "45", "45", "45", "45", "", ""],
    ),
    (ALL, ["45", "45", "45", "45", "45", "45", "", ""]),
];

#[test]
fn each_state_of_the_flags_drops_its_separators(rt: HostRuntime) {
    for (flags, kept) in &STATES {
        for ((text, digits), kept) in TEXTS.iter().zip(kept) {
            let count = if *flags == 0 { 0 } else { *digits };
            let (word, kept) = (UNFLAGGED | *flags, kept.as_bytes());
            assert_drained(
                &rt,
                rt.alloc(),
                word,
                text.as_bytes(),
                (0, 0),
                (kept, count),
            );
        }
    }
}

/// Flags, a text, the bytes that its drain yields, and the count after it.
static EXAMPLES: [(u128, &str, &str, usize); 26] = [
    (0, "1_2", "1_2", 0),
    (INTERNAL, "4_5", "45", 2),
    (INTERNAL, "4__5", "4_5", 2),
    (INTERNAL, "_45_5", "_455", 3),
    (LEADING, "_.45_5", ".45_5", 3),
    (LEADING, "__1", "__1", 1),
    (TRAILING, "4_5_.5", "4_5.5", 3),
    (TRAILING, "4__", "4_", 1),
    (INTERNAL | LEADING, "__45", "__45", 2),
    (INTERNAL | LEADING, "_4_5_.56", "45_.56", 4),
    (INTERNAL | TRAILING, "__.", "__.", 0),
    (INTERNAL | TRAILING, "_4_5_", "_45", 2),
    (LEADING | TRAILING, "_4_5_", "4_5", 2),
    (INTERNAL | LEADING | TRAILING, "_4__5_", "4_5", 2),
    (CONSECUTIVE, "1__2", "1__2", 2),
    (INTERNAL | CONSECUTIVE, "1__2", "12", 2),
    (INTERNAL | CONSECUTIVE, "1__.", "1__.", 1),
    (LEADING | CONSECUTIVE, "+__+1", "++1", 1),
    (LEADING | CONSECUTIVE, "__4__5", "4__5", 2),
    (TRAILING | CONSECUTIVE, "4__.5_6", "4.5_6", 3),
    (INTERNAL | LEADING | CONSECUTIVE, "4_", "4_", 1),
    (INTERNAL | LEADING | CONSECUTIVE, "__4__5__", "45__", 2),
    (INTERNAL | TRAILING | CONSECUTIVE, "+__1", "+__1", 1),
    (INTERNAL | TRAILING | CONSECUTIVE, "+1__23__", "+123", 3),
    (LEADING | TRAILING | CONSECUTIVE, "__4__5__", "4__5", 2),
    (ALL, "__4__5__", "45", 2),
];

#[test]
fn a_separator_is_dropped_by_its_sides_and_flags(rt: HostRuntime) {
    for (flags, text, kept, count) in &EXAMPLES {
        let (word, kept) = (UNFLAGGED | *flags, kept.as_bytes());
        assert_drained(
            &rt,
            rt.alloc(),
            word,
            text.as_bytes(),
            (0, 0),
            (kept, *count),
        );
    }
}

/// Flags, a text, the cursor and the count at the start, the bytes that the drain yields from
/// there, and the count after it.
static FROM_WITHIN: [(u128, &str, usize, usize, &str, usize); 11] = [
    (INTERNAL, "1_2", 1, 0, "2", 1),
    (LEADING | TRAILING, "1_2", 1, 0, "_2", 1),
    (INTERNAL | CONSECUTIVE, "1__2", 2, 0, "2", 1),
    (INTERNAL, "1__2", 2, 0, "_2", 1),
    (INTERNAL, "_5", 0, 0, "_5", 1),
    (INTERNAL, "_5", 0, 1, "5", 2),
    (LEADING, "_5", 0, 1, "_5", 2),
    (INTERNAL | CONSECUTIVE, ".__2", 1, 0, "__2", 1),
    (INTERNAL | CONSECUTIVE, ".__2", 1, 1, "2", 2),
    (TRAILING, "1__", 1, 1, "_", 1),
    (TRAILING, "1__", 1, 0, "__", 0),
];

#[test]
fn a_drain_from_within_a_text_sees_what_is_left_of_it(rt: HostRuntime) {
    for (flags, text, cursor, count, kept, count_after) in &FROM_WITHIN {
        let (word, text) = (UNFLAGGED | *flags, text.as_bytes());
        let (start, end) = ((*cursor, *count), (kept.as_bytes(), *count_after));
        assert_drained(&rt, rt.alloc(), word, text, start, end);
    }
}

/// Words of other separators and radixes: a text, the bytes that its drain yields, and the count.
static OTHER_WORDS: [(u128, &[u8], &[u8], usize); 20] = [
    ((16 << 104) | (0x5f << 64) | INTERNAL, b"a_F_g", b"aF_g", 2),
    ((2 << 104) | (0x39 << 64) | INTERNAL, b"1909", b"109", 2),
    ((16 << 104) | (0x67 << 64) | INTERNAL, b"1g2", b"12", 2),
    ((10 << 104) | (0x2b << 64) | LEADING, b"+12", b"12", 2),
    ((10 << 104) | (0xFF << 64) | INTERNAL, b"4\xFF5", b"45", 2),
    ((10 << 104) | ALL, b"1_2", b"1_2", 2),
    // the words with names
    (STANDARD, b"1_0", b"1_0", 3),
    (HEXADECIMAL, b"fF", b"fF", 2),
    (RUST_LITERAL, b"1_000__", b"1000", 4),
    (RUST_LITERAL, b"_1", b"_1", 1),
    (RUST_HEX_LITERAL, b"_ff__00_", b"ff00", 4),
    (RUST_OCTAL_LITERAL, b"_7_8", b"78", 1),
    (RUST_BINARY_LITERAL, b"__1_0", b"10", 2),
    (CXX14_LITERAL, b"1'000", b"1000", 4),
    (CXX14_LITERAL, b"1''0", b"1'0", 2),
    (PYTHON_LITERAL, b"1_000", b"1000", 4),
    (PYTHON_LITERAL, b"1__0_", b"1_0_", 2),
    (TOML, b"1_0", b"10", 2),
    (JAVA_LITERAL, b"1__0", b"10", 2),
    (JAVA_LITERAL, b"1_", b"1_", 1),
];

#[test]
fn a_word_has_its_own_separator_and_radix(rt: HostRuntime) {
    for (word, text, kept, count) in &OTHER_WORDS {
        assert_drained(&rt, rt.alloc(), *word, text, (0, 0), (*kept, *count));
    }
}

#[test]
fn a_separator_of_zero_is_none(rt: HostRuntime) {
    let turns = [(Integer, Drains(b"\x31\x00\x32", 2)), (Whole, Count(3))];
    assert_turns(&rt, (10 << 104) | ALL, b"\x31\x00\x32", &turns);
}

#[test]
fn the_fraction_has_flags_of_its_own(rt: HostRuntime) {
    let word = UNFLAGGED | FRACTION_INTERNAL_DIGIT_SEPARATOR | FRACTION_LEADING_DIGIT_SEPARATOR;
    assert_goes(&rt, word, b"_4_5_.56", Fraction, &[Drains(b"45_.56", 4)]);
    let word = UNFLAGGED | INTERNAL;
    assert_goes(&rt, word, b"1_2", Fraction, &[Drains(b"1_2", 0)]);
}

#[test]
fn a_special_value_loses_all_separators_or_none(rt: HostRuntime) {
    let word = UNFLAGGED | SPECIAL_DIGIT_SEPARATOR;
    let turns = [
        (Special, Drains(b"nan", 0)),
        (Whole, Cursor(6)),
        (Integer, Count(0)),
    ];
    assert_turns(&rt, word, b"n_a__n", &turns);
    assert_goes(&rt, UNFLAGGED, b"n_a", Special, &[Drains(b"n_a", 0)]);
}

//! Calls on a `Bytes` that take the component as an argument.

use self::Turn::{ClearCounts, Count, Cursor, IsDigit, MoveTo, Next, Peek};
use super::{INTERNAL, TRAILING, UNFLAGGED, bytes_of};
use lexical_digits::iterator::{Iter, IterBodies};
use lexical_digits::skip::Component::{self, Exponent, Fraction, Integer, Special};
use lexical_digits::skip::{Bytes, Rule};
use lexical_format::{
    EXPONENT_CONSECUTIVE_DIGIT_SEPARATOR, EXPONENT_INTERNAL_DIGIT_SEPARATOR,
    FRACTION_INTERNAL_DIGIT_SEPARATOR, FRACTION_LEADING_DIGIT_SEPARATOR, SPECIAL_DIGIT_SEPARATOR,
};
use std::process::Abort;

/// A call, with what it answers.
#[derive(Clone, Copy)]
enum Turn {
    Next(Option<u8>),
    Peek(Option<u8>),
    Count(usize),
    IsDigit(u8, bool),
    /// Of the `Bytes` itself: the component is ignored.
    Cursor(usize),
    MoveTo(usize),
    ClearCounts,
}

/// Makes a call: whether it answers so.
fn is_turn(bytes: &mut Bytes, component: Component, turn: Turn) -> bool {
    match turn {
        Next(byte) => bytes.next_of(component).copied() == byte,
        Peek(byte) => bytes.peek_of(component).copied() == byte,
        Count(count) => bytes.current_count_of(component) == count,
        IsDigit(value, is) => bytes.is_digit_of(component, value) == is,
        Cursor(cursor) => bytes.cursor() == cursor,
        MoveTo(index) => {
            let has = index <= bytes.buffer_length();
            if has {
                bytes.set_cursor(index);
            }
            has
        }
        ClearCounts => {
            bytes.clear_counts();
            true
        }
    }
}

/// Makes these calls in turn on the start of a text.
fn assert_calls(rt: &impl Abort, word: u128, text: &[u8], turns: &[(Component, Turn)]) {
    let mut bytes = bytes_of(rt, text, word);
    for (at, (component, turn)) in turns.iter().enumerate() {
        let is = is_turn(&mut bytes, *component, *turn);
        let (cursor, count) = (bytes.cursor(), bytes.current_count_of(*component));
        assert!(rt;
            is,
            "call {at}, {component:?} of {text:?}, leaves {cursor}, count {count}"
        );
    }
}

#[test]
fn each_component_reads_by_its_own_rule_and_count(rt: HostRuntime) {
    let turns = [
        (Integer, Next(Some(b'4'))),
        (Fraction, Peek(Some(b'_'))),
        (Fraction, Cursor(1)),
        (Integer, Peek(Some(b'5'))),
        (Integer, Cursor(2)),
        (Integer, Next(Some(b'5'))),
        (Integer, Next(None)),
        (Integer, Count(2)),
        (Fraction, Count(0)),
        (Special, Count(2)),
    ];
    let word = UNFLAGGED | INTERNAL | FRACTION_LEADING_DIGIT_SEPARATOR;
    assert_calls(&rt, word, b"4_5", &turns);
}

#[test]
fn a_digit_is_one_of_the_components_radix(rt: HostRuntime) {
    let turns = [
        (Integer, IsDigit(b'a', false)),
        (Fraction, IsDigit(b'9', true)),
        (Exponent, IsDigit(b'a', true)),
        (Exponent, IsDigit(b'g', false)),
        (Special, IsDigit(b'a', false)),
    ];
    assert_calls(&rt, UNFLAGGED | (16 << 120), b"", &turns);
}

#[test]
fn cleared_counts_let_the_next_number_be_judged_anew(rt: HostRuntime) {
    let turns = [
        (Integer, Next(Some(b'1'))),
        (Integer, Next(Some(b'.'))),
        (Integer, Peek(Some(b'5'))),
        (Integer, MoveTo(2)),
        (Integer, ClearCounts),
        (Integer, Cursor(2)),
        (Integer, Count(0)),
        (Integer, Peek(Some(b'_'))),
    ];
    assert_calls(&rt, UNFLAGGED | INTERNAL, b"1._5", &turns);
    let turns = [
        (Integer, Next(Some(b'1'))),
        (Fraction, Next(Some(b'2'))),
        (Exponent, Next(Some(b'3'))),
        (Exponent, Count(1)),
        (Exponent, ClearCounts),
        (Integer, Count(0)),
        (Fraction, Count(0)),
        (Exponent, Count(0)),
        (Exponent, Cursor(3)),
    ];
    let word = UNFLAGGED
        | INTERNAL
        | FRACTION_INTERNAL_DIGIT_SEPARATOR
        | EXPONENT_INTERNAL_DIGIT_SEPARATOR;
    assert_calls(&rt, word, b"123", &turns);
}

/// The rule of the separator `_` with these flags: internal, leading, trailing, consecutive.
fn rule_of(radix: u32, [internal, leading, trailing, consecutive]: [bool; 4]) -> Rule {
    Rule {
        separator: b'_',
        radix,
        internal,
        leading,
        trailing,
        consecutive,
    }
}

/// Whether a `Bytes` has these rules of integer, fraction, exponent and special.
fn has_rules(bytes: &Bytes, integer: Rule, fraction: Rule, exponent: Rule, special: Rule) -> bool {
    bytes.rule(Integer) == integer
        && bytes.rule(Fraction) == fraction
        && bytes.rule(Exponent) == exponent
        && bytes.rule(Special) == special
}

#[test]
fn a_component_has_the_rule_of_its_flags_and_radix(rt: HostRuntime) {
    let word = UNFLAGGED
        | (16 << 120)
        | INTERNAL
        | TRAILING
        | FRACTION_LEADING_DIGIT_SEPARATOR
        | EXPONENT_CONSECUTIVE_DIGIT_SEPARATOR
        | SPECIAL_DIGIT_SEPARATOR;
    let bytes = bytes_of(&rt, b"", word);
    let integer = rule_of(10, [true, false, true, false]);
    let fraction = rule_of(10, [false, true, false, false]);
    let exponent = rule_of(16, [false, false, false, true]);
    let special = rule_of(10, [true, true, true, true]);
    assert!(rt; has_rules(&bytes, integer, fraction, exponent, special));
}

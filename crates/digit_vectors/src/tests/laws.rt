//! The laws, each called once, with what it answers and leaves.

use super::steps::{Part, Step, assert_part};
use super::{CONSECUTIVE, INTERNAL, LEADING, TRAILING, UNFLAGGED, bytes_of};
use crate::slow::is_kept;
use digit_script::{Answer, Call, Op, same_answer, same_call, same_op, same_part};
use lexical_digits::iterator::DigitsIter;
use lexical_digits::laws::equality::{same_component, same_rule, same_run, same_sight};
use lexical_digits::laws::rows::{
    clear_counts_starts_again, digits_are_rows, increment_count_of_is_rows, next_of_is_row,
    peek_of_is_row, read_if_is_row,
};
use lexical_digits::laws::{
    Component, digits_agree, drain_counts, equality, grants_monotone, items_are_drain,
    items_unroll, next_after_peek, own_count_only, peek_settles, read_if_none, rest_is_left,
    special_drops_all, ungranted_keeps_all, zeros_unroll,
};
use lexical_digits::skip::{Bytes, Class, Rule, Run, Sight};
use lexical_digits::stop::{digits_end, more_flags_read_on, what_follows_changes_no_stop};
use lexical_format::laws::{constants_are, flags_are_bits, masks_are_flags, words_say};
use lexical_format::{
    EXPONENT_INTERNAL_DIGIT_SEPARATOR, FRACTION_INTERNAL_DIGIT_SEPARATOR, SPECIAL_DIGIT_SEPARATOR,
};
use std::process::Abort;

/// Both peeks find this byte.
pub fn is_settled<'a, D: DigitsIter<'a>>(iter: &mut D, byte: u8) -> bool {
    let (first, second) = peek_settles(iter);
    first.copied() == Some(byte) && second.copied() == Some(byte)
}

/// The peek and the `next` after it find this byte.
pub fn is_next_as_peeked<'a, D: DigitsIter<'a>>(iter: &mut D, byte: u8) -> bool {
    let (peeked, next) = next_after_peek(iter);
    peeked.copied() == Some(byte) && next.copied() == Some(byte)
}

/// `read_if` with a test for this byte reads `read`, and the peek after a `None` finds `peeked`.
fn is_read_if<'a, D: DigitsIter<'a>>(
    iter: &mut D,
    value: u8,
    read: Option<u8>,
    peeked: Option<u8>,
) -> bool {
    let (byte, next) = read_if_none(iter, |byte| byte == value);
    byte == read && next.copied() == peeked
}

/// Calls the laws over an iterator that yields `1`, and then `x`: whether they answer so.
pub fn has_laws<'a, D: DigitsIter<'a>>(iter: &mut D) -> bool {
    items_unroll(iter);
    zeros_unroll(iter);
    is_settled(iter, b'1')
        && is_next_as_peeked(iter, b'1')
        && is_read_if(iter, b'y', None, Some(b'x'))
        && is_read_if(iter, b'x', Some(b'x'), None)
}

/// Calls the laws over one iterator of a `Bytes`: whether they answer so.
fn has_laws_of(bytes: &mut Bytes, component: Component) -> bool {
    match component {
        Component::Integer => has_laws(&mut bytes.integer_iter()),
        Component::Fraction => has_laws(&mut bytes.fraction_iter()),
        Component::Exponent => has_laws(&mut bytes.exponent_iter()),
        Component::Special => has_laws(&mut bytes.special_iter()),
    }
}

#[test]
fn the_laws_hold_for_every_iterator(rt: HostRuntime) {
    for component in [
        Component::Integer,
        Component::Fraction,
        Component::Exponent,
        Component::Special,
    ] {
        let mut bytes = bytes_of(&rt, b"1x2", UNFLAGGED | INTERNAL);
        assert!(rt; has_laws_of(&mut bytes, component));
    }
}

/// A law left this cursor, and these counts of the integer, the fraction and the exponent.
fn assert_left(rt: &impl Abort, bytes: &mut Bytes, cursor: usize, counts: [usize; 3]) {
    let [integer, fraction, exponent] = counts;
    assert_part(rt, bytes, Part::Whole, &[Step::Cursor(cursor)]);
    assert_part(rt, bytes, Part::Integer, &[Step::Count(integer)]);
    assert_part(rt, bytes, Part::Fraction, &[Step::Count(fraction)]);
    assert_part(rt, bytes, Part::Exponent, &[Step::Count(exponent)]);
}

/// Internal separators of each component are dropped, so that each answers a count of its own.
const EACH: u128 = UNFLAGGED
    | INTERNAL
    | FRACTION_INTERNAL_DIGIT_SEPARATOR
    | EXPONENT_INTERNAL_DIGIT_SEPARATOR;

#[test]
fn a_drain_counts_its_digits(rt: HostRuntime) {
    for (component, counts) in [
        (Component::Integer, [2, 0, 0]),
        (Component::Fraction, [0, 2, 0]),
        (Component::Exponent, [0, 0, 2]),
    ] {
        let mut bytes = bytes_of(&rt, b"4_5", EACH);
        assert!(rt; drain_counts(&mut bytes, component) == 2);
        assert_left(&rt, &mut bytes, 3, counts);
    }
}

#[test]
fn a_drain_with_nothing_granted_keeps_every_byte(rt: HostRuntime) {
    let mut bytes = bytes_of(&rt, b"1__2", UNFLAGGED | CONSECUTIVE);
    assert!(rt; ungranted_keeps_all(&mut bytes, Component::Integer) == 4);
    assert_part(&rt, &mut bytes, Part::Whole, &[Step::Cursor(4)]);
    assert_part(&rt, &mut bytes, Part::Integer, &[Step::Count(2)]);
}

#[test]
fn a_drain_of_a_special_value_drops_every_separator(rt: HostRuntime) {
    let mut bytes = bytes_of(&rt, b"n_a__n", EACH | SPECIAL_DIGIT_SEPARATOR);
    assert!(rt; special_drops_all(&mut bytes) == 3);
    assert_left(&rt, &mut bytes, 6, [0, 0, 0]);
}

#[test]
fn the_calls_of_an_iterator_change_its_own_count(rt: HostRuntime) {
    for (component, counts) in [
        (Component::Integer, [4, 0, 0]),
        (Component::Fraction, [0, 4, 0]),
        (Component::Exponent, [0, 0, 4]),
        (Component::Special, [0, 0, 0]),
    ] {
        let mut bytes = bytes_of(&rt, b"1_2007", EACH | SPECIAL_DIGIT_SEPARATOR);
        own_count_only(&mut bytes, component);
        assert_left(&rt, &mut bytes, 5, counts);
    }
}

#[test]
fn digits_are_the_same_for_all_flags(rt: HostRuntime) {
    let some = UNFLAGGED | LEADING;
    let other = UNFLAGGED | INTERNAL | TRAILING | CONSECUTIVE;
    digits_agree(b"_4_5__6_", some, other, Component::Integer, 0, 0);
    for word in [some, other] {
        let mut bytes = bytes_of(&rt, b"_4_5__6_", word);
        drain_counts(&mut bytes, Component::Integer);
        assert_part(&rt, &mut bytes, Part::Integer, &[Step::Count(3)]);
    }
}

#[test]
fn more_flags_drop_at_least_as_much(rt: HostRuntime) {
    let some = UNFLAGGED | LEADING;
    let more = some | CONSECUTIVE;
    let all = more | INTERNAL | TRAILING;
    for position in 0..4 {
        grants_monotone(b"__45", some, more, Component::Integer, 0, 0, position);
        grants_monotone(b"__45", more, all, Component::Integer, 0, 0, position);
        for (word, first_kept) in [(some, 0), (more, 2), (all, 2)] {
            let rule = Rule::of(word, Component::Integer);
            let kept = is_kept(rule, b"__45", 0, 0, position);
            assert!(rt; kept == (position >= first_kept), "at {position}");
        }
    }
}

#[test]
fn the_items_of_each_iterator_are_its_drain(_rt: HostRuntime) {
    items_are_drain();
}

/// Whether a rule equals itself, and no rule that differs in one part.
fn rules_are_told_apart(rule: Rule) -> bool {
    same_rule(rule, rule)
        && !same_rule(
            rule,
            Rule {
                separator: b'-',
                ..rule
            },
        )
        && !same_rule(rule, Rule { radix: 16, ..rule })
        && !same_rule(
            rule,
            Rule {
                internal: !rule.internal,
                ..rule
            },
        )
        && !same_rule(
            rule,
            Rule {
                leading: !rule.leading,
                ..rule
            },
        )
        && !same_rule(
            rule,
            Rule {
                trailing: !rule.trailing,
                ..rule
            },
        )
        && !same_rule(
            rule,
            Rule {
                consecutive: !rule.consecutive,
                ..rule
            },
        )
}

/// The same of runs, sights and components.
fn small_values_are_told_apart(run: Run, sight: Sight) -> bool {
    same_run(run, run)
        && !same_run(run, Run { from: 0, ..run })
        && !same_run(run, Run { to: 9, ..run })
        && same_sight(sight, sight)
        && !same_sight(sight, Sight { place: 0, ..sight })
        && !same_sight(sight, Sight { run: None, ..sight })
        && same_component(Component::Integer, Component::Integer)
        && !same_component(Component::Integer, Component::Special)
}

#[test]
fn equal_values_have_equal_parts(rt: HostRuntime) {
    assert!(rt; rules_are_told_apart(Rule::of(UNFLAGGED | INTERNAL, Component::Integer)));
    let run = Run { from: 1, to: 3 };
    let sight = Sight {
        place: 3,
        run: Some(run),
    };
    assert!(rt; small_values_are_told_apart(run, sight));
}

#[test]
fn laws_over_definitions_may_be_called(_rt: HostRuntime) {
    digits_end();
    more_flags_read_on();
    what_follows_changes_no_stop();
    rest_is_left();
    digits_are_rows();
    flags_are_bits();
    masks_are_flags();
    constants_are();
    words_say();
}

/// Whether the clones of these values are the same.
fn clones_of_values_are_the_same(rule: Rule, run: Run, sight: Sight) -> bool {
    let component = Component::Special;
    let class = Class::Digit;
    equality::clones_are_same(rule, class, component, run, sight)
        == (rule, class, component, run, sight)
}

#[test]
fn clones_are_the_same(rt: HostRuntime) {
    let rule = Rule::of(UNFLAGGED | INTERNAL, Component::Integer);
    let run = Run { from: 1, to: 3 };
    let sight = Sight {
        place: 3,
        run: Some(run),
    };
    assert!(rt; clones_of_values_are_the_same(rule, run, sight));
    let call = Call {
        part: digit_script::Part::Fraction,
        op: Op::FirstIs(1, true),
    };
    let answer = Answer::View(Some((2, 1)));
    let calls = digit_script::clones_are_same(call.part, call.op, call, answer);
    assert!(rt; calls == (call.part, call.op, call, answer));
}

#[test]
fn calls_by_component_are_rows(rt: HostRuntime) {
    let mut bytes = bytes_of(&rt, b"4_5", EACH);
    assert!(rt; next_of_is_row(&mut bytes, Component::Integer) == Some(b'4'));
    assert!(rt; peek_of_is_row(&mut bytes, Component::Integer) == Some(b'5'));
    increment_count_of_is_rows(&mut bytes, Component::Fraction, 3);
    assert_left(&rt, &mut bytes, 2, [1, 3, 0]);
    clear_counts_starts_again(&mut bytes);
    assert_left(&rt, &mut bytes, 2, [0, 0, 0]);
}

/// A closure that counts its calls is called once by each `read_if`.
#[test]
fn a_closure_with_a_state_is_a_row(rt: HostRuntime) {
    let mut bytes = bytes_of(&rt, b"4_5", EACH);
    let mut calls = 0_u8;
    let mut read = [None; 3];
    for at in 0..3 {
        read[at] = read_if_is_row(&mut bytes, Component::Integer, |byte| {
            calls = calls.wrapping_add(1);
            byte != b'5'
        });
    }
    assert!(rt; read == [Some(b'4'), None, None] && calls == 3);
}

#[test]
fn calls_and_answers_are_told_apart(rt: HostRuntime) {
    let call = Call {
        part: digit_script::Part::Bytes,
        op: Op::StepBy(1),
    };
    assert!(rt; same_part(digit_script::Part::Bytes, call.part));
    assert!(rt; !same_part(digit_script::Part::Integer, call.part));
    assert!(rt; same_op(Op::StepBy(1), call.op) && !same_op(Op::StepBy(2), call.op));
    assert!(rt; same_call(call, call));
    assert!(rt; !same_answer(Answer::Done, Answer::Refused));
}

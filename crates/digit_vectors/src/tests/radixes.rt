//! Words whose exponent has a radix of its own.

use super::steps::Part::{Exponent, Fraction, Integer, Special, Whole};
use super::steps::Step::{Count, Cursor, Drains, IsDigit, MoveTo, Next, Peek};
use super::steps::{assert_goes, assert_turns};
use super::{CONSECUTIVE, INTERNAL, assert_kept};
use lexical_digits::laws::equal_radixes;
use lexical_digits::skip::{Component, Rule};
use lexical_format::{
    EXPONENT_CONSECUTIVE_DIGIT_SEPARATOR, EXPONENT_INTERNAL_DIGIT_SEPARATOR,
    SPECIAL_DIGIT_SEPARATOR, is_supported,
};

/// The mantissa radix 16, the exponent radix 10, the separator `_`, no flags.
const SIXTEEN_AND_TEN: u128 = (10 << 120) | (16 << 104) | (0x5f << 64);

/// The mantissa radix 10, the exponent radix 16, the separator `_`, no flags.
const TEN_AND_SIXTEEN: u128 = (16 << 120) | (10 << 104) | (0x5f << 64);

/// The internal flag of the exponent.
const EXPONENT_INTERNAL: u128 = EXPONENT_INTERNAL_DIGIT_SEPARATOR;

/// The internal and the consecutive flag of integer and exponent.
const RUNS: u128 = INTERNAL
    | CONSECUTIVE
    | EXPONENT_INTERNAL
    | EXPONENT_CONSECUTIVE_DIGIT_SEPARATOR;

#[test]
fn the_exponent_has_the_digits_of_its_own_radix(rt: HostRuntime) {
    let word = SIXTEEN_AND_TEN | EXPONENT_INTERNAL;
    assert_goes(&rt, word, b"1_a", Exponent, &[Drains(b"1_a", 1)]);
    let word = TEN_AND_SIXTEEN | EXPONENT_INTERNAL;
    assert_goes(&rt, word, b"a_b", Exponent, &[Drains(b"ab", 2)]);
}

#[test]
fn without_an_exponent_radix_the_mantissa_radix_serves(rt: HostRuntime) {
    let word = (10 << 104) | (0x5f << 64) | EXPONENT_INTERNAL;
    for word in [word, word | (10 << 120)] {
        assert_goes(&rt, word, b"1_2", Exponent, &[Drains(b"12", 2)]);
    }
}

#[test]
fn the_other_components_go_by_the_mantissa_radix(rt: HostRuntime) {
    assert_kept(&rt, SIXTEEN_AND_TEN | INTERNAL, b"1_a", b"1a", 2);
    assert_kept(&rt, TEN_AND_SIXTEEN | INTERNAL, b"1_a", b"1_a", 1);
    let word = SIXTEEN_AND_TEN | SPECIAL_DIGIT_SEPARATOR;
    assert_goes(&rt, word, b"a_1", Special, &[Drains(b"a1", 0), Cursor(3)]);
}

#[test]
fn each_iterator_tells_its_own_digits(rt: HostRuntime) {
    for (word, in_mantissa, in_exponent) in [
        (SIXTEEN_AND_TEN, true, false),
        (TEN_AND_SIXTEEN, false, true),
    ] {
        let turns = [
            (Integer, IsDigit(b'a', in_mantissa)),
            (Fraction, IsDigit(b'a', in_mantissa)),
            (Exponent, IsDigit(b'a', in_exponent)),
            (Special, IsDigit(b'a', in_mantissa)),
        ];
        assert_turns(&rt, word, b"", &turns);
        let is_sixteen = Rule::of(word, Component::Exponent).radix == 16;
        assert!(rt; is_sixteen == in_exponent);
    }
}

#[test]
fn each_component_judges_a_remembered_run_by_its_own_digits(rt: HostRuntime) {
    let turns = [
        (Integer, Next(Some(b'1'))),
        (Exponent, Peek(Some(b'_'))),
        (Whole, Cursor(1)),
        (Integer, Peek(Some(b'a'))),
        (Whole, Cursor(3)),
    ];
    assert_turns(&rt, SIXTEEN_AND_TEN | RUNS, b"1__a", &turns);
}

#[test]
fn a_run_that_the_exponent_drops_may_stay_in_the_integer(rt: HostRuntime) {
    let turns = [
        (Integer, Next(Some(b'1'))),
        (Exponent, Peek(Some(b'a'))),
        (Whole, Cursor(3)),
        (Whole, MoveTo(1)),
        (Integer, Peek(Some(b'_'))),
        (Whole, Cursor(1)),
        (Integer, Count(1)),
    ];
    assert_turns(&rt, TEN_AND_SIXTEEN | RUNS, b"1__a", &turns);
}

#[test]
fn a_separator_is_a_digit_of_neither_radix(rt: HostRuntime) {
    assert!(rt; is_supported(SIXTEEN_AND_TEN | RUNS));
    for (mantissa_radix, exponent_radix) in [(16, 10), (10, 16)] {
        let word = (exponent_radix << 120) | (mantissa_radix << 104) | (0x61 << 64);
        assert!(rt; !is_supported(word | INTERNAL));
    }
}

#[test]
fn with_equal_radixes_nothing_changed(rt: HostRuntime) {
    let word = (10 << 104) | (0x5f << 64) | EXPONENT_INTERNAL;
    equal_radixes(b"1_2", word);
    equal_radixes(b"1_2", word | (10 << 120));
    assert!(rt;
        Rule::of(word, Component::Exponent) == Rule::of(word | (10 << 120), Component::Exponent)
    );
}

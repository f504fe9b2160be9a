//! Literals, and runs of digits, read from every kind of iterator.

use self::Reading::{Reads, Takes};
use super::{INTERNAL, LEADING, TRAILING, UNFLAGGED, bytes_of, move_to};
use digit_literals::equality::{
    clones_are_same, same_digits, same_first_digits, same_literal_error, same_parse_error,
    same_too_large,
};
use digit_literals::{
    Digits, FirstDigits, LiteralError, ParseError, TooLarge, pass_digits, read_digits,
    read_digits_of, read_digits_up_to, read_integer, read_integer_from, stop_from, take_digits,
};
use digit_vectors::spaced::Spaced;
use lexical_digits::iterator::{DigitsIter, Iter, IterBodies};
use lexical_digits::skip::Bytes;
use lexical_digits::skip::Component::{self, Exponent, Fraction, Integer, Special};
use lexical_format::{
    EXPONENT_INTERNAL_DIGIT_SEPARATOR, FRACTION_INTERNAL_DIGIT_SEPARATOR, SPECIAL_DIGIT_SEPARATOR,
    STANDARD, is_supported,
};
use lexical_plain::noskip;
use std::process::Abort;

/// The integer of a text has this value and ends here, or there is none for this cause.
fn assert_integer(
    rt: &impl Abort,
    word: u128,
    text: &[u8],
    read: Result<(u64, usize), LiteralError>,
) {
    assert!(rt; is_supported(word));
    assert!(rt; read_integer(text, word) == read, "{text:?}");
}

/// The hexadecimal integer that begins at a position has this value and ends here, or there is none
/// up to `most` for this cause.
fn assert_integer_from(
    rt: &impl Abort,
    text: &[u8],
    start: usize,
    most: u64,
    read: Result<(u64, usize), LiteralError>,
) {
    let word = (16 << 104) | (0x5f << 64) | INTERNAL;
    assert!(rt; is_supported(word) && start <= text.len());
    assert!(rt;
        read_integer_from(text, word, start, most) == read,
        "{start} {most}"
    );
}

/// The digits of a component that begin at a position end here.
fn assert_stop(
    rt: &impl Abort,
    word: u128,
    text: &[u8],
    component: Component,
    start: usize,
    end: usize,
) {
    assert!(rt; is_supported(word) && start <= text.len());
    let answer = stop_from(text, word, component, start);
    assert!(rt; answer == end, "{text:?} from {start}: {answer}");
}

/// A call over the decimal digits of an iterator, with what it answers.
#[derive(Clone, Copy)]
enum Reading {
    /// `read_digits` answers this value, or that cause.
    Reads(Result<u64, LiteralError>),
    /// `take_digits` takes this many.
    Takes(usize),
}

/// Makes the call: whether it answers so.
fn is_reading<'a, D: DigitsIter<'a>>(iter: &mut D, reading: Reading) -> bool {
    match reading {
        Reads(read) => read_digits(iter, 10) == read,
        Takes(digits) => take_digits(iter) == digits,
    }
}

/// Makes the call on an iterator, and then its cursor and count are these.
fn assert_digits<'a, D: DigitsIter<'a>>(
    rt: &impl Abort,
    iter: &mut D,
    reading: Reading,
    cursor: usize,
    count: usize,
) {
    assert!(rt; is_reading(iter, reading));
    assert!(rt; iter.cursor() == cursor && iter.current_count() == count);
}

/// Makes the call on the iterator of a component: whether it answers so.
fn is_reading_of(bytes: &mut Bytes, component: Component, reading: Reading) -> bool {
    match component {
        Integer => is_reading(&mut bytes.integer_iter(), reading),
        Fraction => is_reading(&mut bytes.fraction_iter(), reading),
        Exponent => is_reading(&mut bytes.exponent_iter(), reading),
        Special => is_reading(&mut bytes.special_iter(), reading),
    }
}

/// Makes the call on the iterator of a component, and then its cursor and count are these.
fn assert_digits_of(
    rt: &impl Abort,
    word: u128,
    text: &[u8],
    component: Component,
    reading: Reading,
    cursor: usize,
    count: usize,
) {
    let mut bytes = bytes_of(rt, text, word);
    assert!(rt; is_reading_of(&mut bytes, component, reading));
    assert!(rt; bytes.cursor() == cursor && bytes.current_count_of(component) == count);
}

#[test]
fn an_integer_ends_at_the_first_kept_byte_that_is_no_digit(rt: HostRuntime) {
    assert_integer(&rt, UNFLAGGED | INTERNAL, b"1_000", Ok((1000, 5)));
    assert_integer(&rt, UNFLAGGED | LEADING, b"_12", Ok((12, 3)));
    assert_integer(&rt, UNFLAGGED, b"12x", Ok((12, 2)));
    let word = (16 << 104) | (0x5f << 64) | TRAILING;
    assert_integer(&rt, word, b"ff_", Ok((255, 3)));
    assert_integer(&rt, 36 << 104, b"zz", Ok((1295, 2)));
}

#[test]
fn an_integer_without_digits_is_empty_where_it_ends(rt: HostRuntime) {
    assert_integer(
        &rt,
        UNFLAGGED | INTERNAL,
        b"_1",
        Err(LiteralError::Empty(0)),
    );
    assert_integer(&rt, UNFLAGGED | LEADING, b"_", Err(LiteralError::Empty(1)));
    assert_integer(&rt, UNFLAGGED, b"", Err(LiteralError::Empty(0)));
}

#[test]
fn the_greatest_value_is_read_and_one_more_is_not(rt: HostRuntime) {
    let most = b"18446744073709551615";
    assert_integer(&rt, STANDARD, most, Ok((18446744073709551615, 20)));
    let more = b"18446744073709551616";
    assert_integer(&rt, STANDARD, more, Err(LiteralError::Overflow(19)));
    let parted = b"1844674407370955161_6";
    assert_integer(
        &rt,
        UNFLAGGED | INTERNAL,
        parted,
        Err(LiteralError::Overflow(20)),
    );
}

#[test]
fn an_integer_is_read_from_a_position_on_up_to_a_value(rt: HostRuntime) {
    for (start, most, read) in [
        (2, u64::MAX, Ok((31, 5))),
        (2, 31, Ok((31, 5))),
        (2, 9, Err(LiteralError::Overflow(4))),
        (1, 9, Err(LiteralError::Empty(1))),
        (5, 9, Err(LiteralError::Empty(5))),
    ] {
        assert_integer_from(&rt, b"0x1_f", start, most, read);
    }
}

#[test]
fn digits_of_a_component_end_from_a_position_on(rt: HostRuntime) {
    let word = UNFLAGGED | INTERNAL | FRACTION_INTERNAL_DIGIT_SEPARATOR;
    for (component, start, end) in [
        (Integer, 0, 3),
        // the byte before the start is the separator's left side
        (Integer, 1, 3),
        (Integer, 3, 3),
        (Fraction, 4, 7),
        (Exponent, 4, 5),
        (Exponent, 9, 9),
    ] {
        assert_stop(&rt, word, b"1_0.5_0e7", component, start, end);
    }
    assert_stop(&rt, word, b"1__0", Integer, 0, 1);
    assert_stop(&rt, UNFLAGGED | LEADING, b"__1_", Integer, 1, 1);
    let word = UNFLAGGED | SPECIAL_DIGIT_SEPARATOR;
    assert_stop(&rt, word, b"x_1__2_x", Special, 1, 7);
    let word = (16 << 104) | (10 << 120);
    assert_stop(&rt, word, b"0x1fp1f", Integer, 2, 4);
    assert_stop(&rt, word, b"0x1fp1f", Exponent, 5, 6);
}

#[test]
fn digits_are_read_from_each_iterator(rt: HostRuntime) {
    let word = UNFLAGGED
        | INTERNAL
        | FRACTION_INTERNAL_DIGIT_SEPARATOR
        | EXPONENT_INTERNAL_DIGIT_SEPARATOR
        | SPECIAL_DIGIT_SEPARATOR;
    for (component, count) in [(Integer, 2), (Fraction, 2), (Exponent, 2), (Special, 0)] {
        assert_digits_of(&rt, word, b"1_2x", component, Reads(Ok(12)), 3, count);
    }
    assert!(rt; is_supported(STANDARD));
    let mut plain = noskip::Bytes::new(b"1_2", STANDARD);
    assert_digits(&rt, &mut plain.integer_iter(), Reads(Ok(1)), 1, 1);
}

#[test]
fn the_cursor_is_past_the_separators_that_were_dropped(rt: HostRuntime) {
    let read = Reads(Ok(12));
    assert_digits_of(&rt, UNFLAGGED | TRAILING, b"12_x", Integer, read, 3, 2);
    let read = Reads(Err(LiteralError::Empty(1)));
    assert_digits_of(&rt, UNFLAGGED | TRAILING, b"_x", Integer, read, 1, 0);
    let parted = b"1844674407370955161_6";
    let read = Reads(Err(LiteralError::Overflow(20)));
    assert_digits_of(&rt, UNFLAGGED | INTERNAL, parted, Integer, read, 20, 19);
}

#[test]
fn digits_of_the_exponent_go_by_its_own_radix(rt: HostRuntime) {
    let word = (16 << 104) | (10 << 120) | (0x5f << 64) | EXPONENT_INTERNAL_DIGIT_SEPARATOR;
    assert_digits_of(&rt, word, b"1_a", Exponent, Reads(Ok(1)), 1, 1);
}

#[test]
fn digits_are_read_from_an_iterator_of_ones_own(rt: HostRuntime) {
    let none = Reads(Err(LiteralError::Empty(2)));
    for (text, reading, cursor, count) in [
        (b"1 2x".as_slice(), Reads(Ok(12)), 3, 2),
        (b"  ".as_slice(), none, 2, 0),
        (b"1 2x".as_slice(), Takes(2), 3, 2),
    ] {
        assert_digits(&rt, &mut Spaced::new(text), reading, cursor, count);
    }
}

#[test]
fn digits_are_taken_on_each_iterator(rt: HostRuntime) {
    let word = UNFLAGGED
        | TRAILING
        | FRACTION_INTERNAL_DIGIT_SEPARATOR
        | EXPONENT_INTERNAL_DIGIT_SEPARATOR
        | SPECIAL_DIGIT_SEPARATOR;
    for (text, component, cursor, count) in [
        (b"12_x".as_slice(), Integer, 3, 2),
        (b"1_2_x".as_slice(), Fraction, 3, 2),
        (b"1_2_x".as_slice(), Exponent, 3, 2),
        (b"1_2_x".as_slice(), Special, 4, 0),
    ] {
        assert_digits_of(&rt, word, text, component, Takes(2), cursor, count);
    }
    assert!(rt; is_supported(STANDARD));
    let mut plain = noskip::Bytes::new(b"x12", STANDARD);
    assert_digits(&rt, &mut plain.integer_iter(), Takes(0), 0, 0);
    move_to(&rt, &mut plain, 1);
    assert_digits(&rt, &mut plain.fraction_iter(), Takes(2), 3, 3);
}

#[test]
fn components_are_passed_one_after_another(rt: HostRuntime) {
    let word = UNFLAGGED | INTERNAL | FRACTION_INTERNAL_DIGIT_SEPARATOR;
    let mut bytes = bytes_of(&rt, b"1_2.5_0e", word);
    assert!(rt; pass_digits(&mut bytes, Integer) == 2);
    assert!(rt; bytes.cursor() == 3);
    move_to(&rt, &mut bytes, 4);
    assert!(rt; pass_digits(&mut bytes, Fraction) == 2);
    assert!(rt; bytes.cursor() == 7);
}

/// Reads the integer's digits after a value: whether this comes of it.
fn is_read_of(bytes: &mut Bytes, before: u64, read: Result<Digits, TooLarge>) -> bool {
    read_digits_of(bytes, Integer, before) == read
}

#[test]
fn digits_are_read_after_a_value(rt: HostRuntime) {
    let word = UNFLAGGED | INTERNAL;
    let mut bytes = bytes_of(&rt, b"12_5.", word);
    assert!(rt;
        is_read_of(
            &mut bytes,
            4,
            Ok(Digits {
                value: 4125,
                count: 3
            })
        )
    );
    assert!(rt; is_read_of(&mut bytes, 7, Ok(Digits { value: 7, count: 0 })));
    let mut bytes = bytes_of(&rt, b"0", word);
    let most = u64::MAX;
    let too_large = TooLarge {
        at: 0,
        value: most,
        count: 0,
    };
    assert!(rt; is_read_of(&mut bytes, most, Err(too_large)));
}

#[test]
fn digits_are_read_up_to_a_value(rt: HostRuntime) {
    let mut bytes = bytes_of(&rt, b"12_5.", UNFLAGGED | INTERNAL);
    let too_large = TooLarge {
        at: 3,
        value: 12,
        count: 2,
    };
    assert!(rt; read_digits_up_to(&mut bytes, Integer, 0, 99) == Err(too_large));
    assert!(rt; bytes.cursor() == 3);
    assert!(rt;
        read_digits_up_to(&mut bytes, Integer, 12, 125)
            == Ok(Digits {
                value: 125,
                count: 1
            })
    );
    let mut bytes = bytes_of(&rt, b"98_76", UNFLAGGED | INTERNAL);
    let too_large = TooLarge {
        at: 3,
        value: 98,
        count: 2,
    };
    assert!(rt; read_digits_up_to(&mut bytes, Integer, 0, 99) == Err(too_large));
}

#[test]
fn causes_are_told_apart(rt: HostRuntime) {
    let empty = LiteralError::Empty(3);
    assert!(rt; same_literal_error(empty, LiteralError::Empty(3)));
    assert!(rt; !same_literal_error(empty, LiteralError::Overflow(3)));
    assert!(rt; !same_literal_error(empty, LiteralError::Empty(4)));
    assert!(rt; !same_parse_error(ParseError::Empty(3), ParseError::Invalid(3)));
    let digits = Digits { value: 1, count: 1 };
    assert!(rt; same_digits(digits, digits) && !same_digits(digits, Digits { count: 2, ..digits }));
    let too_large = TooLarge {
        at: 1,
        value: 1,
        count: 1,
    };
    assert!(rt; !same_too_large(too_large, TooLarge { at: 2, ..too_large }));
    let first = FirstDigits {
        value: 1,
        count: 1,
        dropped: 0,
    };
    assert!(rt;
        !same_first_digits(
            first,
            FirstDigits {
                dropped: 1,
                ..first
            }
        )
    );
    let values = (empty, ParseError::Empty(3), digits, too_large, first);
    assert!(rt; clones_are_same(empty, ParseError::Empty(3), digits, too_large, first) == values);
}

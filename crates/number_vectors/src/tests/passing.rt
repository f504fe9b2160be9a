//! Digits of a component that are read or passed, and what the calls leave of the `Bytes`.

use super::{CONSECUTIVE, INTERNAL, LEADING, TRAILING, UNFLAGGED, bytes_of, move_to};
use digit_literals::{
    Digits, FirstDigits, LiteralError, TooLarge, count_digits, pass_digits, pass_zeros,
    read_digits_up_to, read_first_digits, read_first_digits_from, read_integer_from,
};
use lexical_digits::iterator::{Iter, IterBodies};
use lexical_digits::skip::Bytes;
use lexical_digits::skip::Component::{Fraction, Integer, Special};
use lexical_format::{FRACTION_INTERNAL_DIGIT_SEPARATOR, SPECIAL_DIGIT_SEPARATOR, is_supported};
use std::process::Abort;

/// Flags and a text, how many digits of the integer are passed, and then the cursor, the integer's
/// own count, and the looks.
type Passed = (u128, &'static [u8], usize, usize, usize, u64);

/// Two looks for each byte that is passed off the slice. Where a separator isn't a lone one between
/// two digits, each digit takes a `peek` and a `next`, and a separator asks the decision.
static PASSED: [Passed; 9] = [
    (INTERNAL, b"", 0, 0, 0, 0),
    (INTERNAL, b"x", 0, 0, 0, 0),
    (INTERNAL, b"1_2.5", 2, 3, 2, 6),
    (0, b"123", 3, 3, 0, 6),
    (INTERNAL, b"___", 0, 0, 0, 3),
    (LEADING, b"_1", 1, 2, 1, 5),
    (TRAILING, b"1_", 1, 2, 1, 4),
    (INTERNAL, b"1_", 1, 1, 1, 5),
    (INTERNAL, b"1__2", 1, 1, 1, 7),
];

/// The three of them after a call.
fn left_of(bytes: &Bytes) -> (usize, usize, u64) {
    (
        bytes.cursor(),
        bytes.current_count_of(Integer),
        bytes.looks(),
    )
}

#[test]
fn digits_that_are_passed_are_counted_and_looked_at(rt: HostRuntime) {
    for &(flags, text, digits, cursor, count, looks) in &PASSED {
        let mut bytes = bytes_of(&rt, text, UNFLAGGED | flags);
        let passed = pass_digits(&mut bytes, Integer);
        let left = left_of(&bytes);
        let is = passed == digits && left == (cursor, count, looks);
        assert!(rt; is, "{text:?}: {passed}, {left:?}");
    }
}

/// The greatest `u64` in radix 2, and with one digit more.
const ONES: &[u8] = b"1111111111111111111111111111111111111111111111111111111111111111";

const ONES_AND_ZERO: &[u8] = b"11111111111111111111111111111111111111111111111111111111111111110";

/// The same of zeros. They are counted without flags too. The separator between a zero and another
/// digit is passed.
static ZEROS: [Passed; 7] = [
    (INTERNAL, b"", 0, 0, 0, 0),
    (INTERNAL, b"1", 0, 0, 0, 0),
    (INTERNAL, b"0_0x", 2, 3, 2, 6),
    (INTERNAL, b"0_1", 1, 2, 1, 4),
    (0, b"00x", 2, 2, 2, 4),
    (INTERNAL, b"0_", 1, 1, 1, 3),
    (LEADING, b"_0", 1, 2, 1, 3),
];

#[test]
fn zeros_that_are_passed_are_counted_and_looked_at(rt: HostRuntime) {
    for &(flags, text, zeros, cursor, count, looks) in &ZEROS {
        let mut bytes = bytes_of(&rt, text, UNFLAGGED | flags);
        let passed = pass_zeros(&mut bytes, Integer);
        let left = left_of(&bytes);
        let is = passed == zeros && left == (cursor, count, looks);
        assert!(rt; is, "{text:?}: {passed}, {left:?}");
    }
}

/// Rows that read all digits: radix, text, greatest value, value and count.
static READ: [(u128, &[u8], u64, u64, usize); 6] = [
    (10, b"", 0, 0, 0),
    (10, b"0_0", 0, 0, 2),
    (10, b"1_2", 12, 12, 2),
    (10, b"18446744073709551615", u64::MAX, u64::MAX, 20),
    (2, ONES, u64::MAX, u64::MAX, 64),
    (36, b"3w5e11264sgsf", u64::MAX, u64::MAX, 13),
];

/// Rows with a digit that is too large: radix, text, greatest value, position, value and count.
static TOO_LARGE: [(u128, &[u8], u64, usize, u64, usize); 8] = [
    (10, b"12", 0, 0, 0, 0),
    (10, b"12", 1, 1, 1, 1),
    (10, b"1_2", 11, 2, 1, 1),
    (
        10,
        b"18446744073709551616",
        u64::MAX,
        19,
        1844674407370955161,
        19,
    ),
    (
        10,
        b"1844674407370955161_6",
        u64::MAX,
        20,
        1844674407370955161,
        19,
    ),
    (2, ONES_AND_ZERO, u64::MAX, 64, u64::MAX, 64),
    (36, b"3W5E11264SGSG", u64::MAX, 12, 512409557603043100, 12),
    (36, b"zz", 1294, 1, 35, 1),
];

/// Reads the integer's digits after 0 up to a greatest value, where `_` may be between digits. The
/// cursor is then here, after two looks at each byte.
fn assert_read(
    rt: &impl Abort,
    radix: u128,
    text: &[u8],
    most: u64,
    read: Result<Digits, TooLarge>,
    cursor: usize,
) {
    let mut bytes = bytes_of(rt, text, (radix << 104) | (0x5f << 64) | INTERNAL);
    let answer = read_digits_up_to(&mut bytes, Integer, 0, most);
    let (at, looks) = (bytes.cursor(), bytes.looks());
    let is = answer == read && at == cursor && looks == 2 * cursor as u64;
    assert!(rt; is, "{text:?}: {answer:?}, {at}, {looks}");
}

#[test]
fn digits_are_read_up_to_the_greatest_value_and_no_further(rt: HostRuntime) {
    for &(radix, text, most, value, count) in &READ {
        assert_read(
            &rt,
            radix,
            text,
            most,
            Ok(Digits { value, count }),
            text.len(),
        );
    }
    for &(radix, text, most, at, value, count) in &TOO_LARGE {
        assert_read(
            &rt,
            radix,
            text,
            most,
            Err(TooLarge { at, value, count }),
            at,
        );
    }
}

/// The greatest value of 19 digits.
const NINES: u64 = 9_999_999_999_999_999_999;

/// Radix, text, value before, greatest value; then the value, how many digits there are, and how
/// many of them were only passed.
type First = (u128, &'static [u8], u64, u64, u64, usize, usize);

static FIRST: [First; 16] = [
    (10, b"", 7, 9, 7, 0, 0),
    (10, b"___", 7, 9, 7, 0, 0),
    (10, b"00_1", 0, 0, 0, 3, 1),
    (10, b"12", 0, 0, 0, 2, 2),
    (10, b"98_76", 0, 99, 98, 4, 2),
    (10, b"12_3", 0, 123, 123, 3, 0),
    (10, b"12_3", 0, 122, 12, 3, 1),
    // after the first digit that is too large every digit is passed, a zero too
    (10, b"90_0", 0, 89, 9, 3, 2),
    (
        10,
        b"9_01",
        123456789012345678,
        NINES,
        1234567890123456789,
        3,
        2,
    ),
    (10, b"5", NINES, NINES, NINES, 1, 1),
    (
        10,
        b"12345678901234567890",
        0,
        NINES,
        1234567890123456789,
        20,
        1,
    ),
    (10, b"18446744073709551615", 0, u64::MAX, u64::MAX, 20, 0),
    (
        10,
        b"18446744073709551616",
        0,
        u64::MAX,
        1844674407370955161,
        20,
        1,
    ),
    (2, ONES_AND_ZERO, 0, u64::MAX, u64::MAX, 65, 1),
    (36, b"3w5e11264sgsf", 0, u64::MAX, u64::MAX, 13, 0),
    (36, b"3W5E11264SGSG", 0, u64::MAX, 512409557603043100, 13, 1),
];

#[test]
fn the_first_digits_are_read_and_the_others_passed(rt: HostRuntime) {
    for &(radix, text, before, most, value, count, dropped) in &FIRST {
        let mut bytes = bytes_of(&rt, text, (radix << 104) | (0x5f << 64) | INTERNAL);
        assert!(rt; before <= most);
        let first = FirstDigits {
            value,
            count,
            dropped,
        };
        let answer = read_first_digits(&mut bytes, Integer, before, most);
        let (at, counted) = (bytes.cursor(), bytes.current_count_of(Integer));
        let end = if count == 0 { 0 } else { text.len() };
        let is = answer == first && at == end && counted == count;
        assert!(rt; is, "{text:?}: {answer:?}, {at}, {counted}");
    }
}

/// The first three significant digits of an integer and a fraction.
#[test]
fn first_digits_of_two_components_are_one_number(rt: HostRuntime) {
    let mut bytes = bytes_of(&rt, b"01_2.3456", UNFLAGGED | INTERNAL);
    let integer = FirstDigits {
        value: 12,
        count: 3,
        dropped: 0,
    };
    assert!(rt; read_first_digits(&mut bytes, Integer, 0, 999) == integer);
    move_to(&rt, &mut bytes, 5);
    let fraction = FirstDigits {
        value: 123,
        count: 4,
        dropped: 3,
    };
    assert!(rt; read_first_digits(&mut bytes, Fraction, 12, 999) == fraction);
    assert!(rt; bytes.cursor() == 9);
}

/// The fraction from 2, up to 99: `7` and `6` are only passed.
#[test]
fn the_first_digits_of_a_text_have_an_end(rt: HostRuntime) {
    let word = UNFLAGGED | FRACTION_INTERNAL_DIGIT_SEPARATOR;
    assert!(rt; is_supported(word));
    let fraction = FirstDigits {
        value: 98,
        count: 4,
        dropped: 2,
    };
    let answer = read_first_digits_from(b"1.98_76e", word, Fraction, 2, 0, 99);
    assert!(rt; answer == (fraction, 7));
}

/// Three bytes with two digits take six looks. Then a copy reads on, and its state is taken over.
#[test]
fn what_was_read_is_passed(rt: HostRuntime) {
    let mut bytes = bytes_of(&rt, b"1_2_3", UNFLAGGED | INTERNAL);
    assert!(rt; bytes.cursor() <= 3 && bytes.buffer_length() == 5);
    bytes.pass_read(Integer, 3, 2);
    assert!(rt; bytes.cursor() == 3 && bytes.current_count_of(Integer) == 2);
    assert!(rt; bytes.looks() == 6);
    let mut copy = bytes.clone().unwrap();
    assert!(rt; pass_digits(&mut copy, Integer) == 1);
    bytes.go_on_from(copy);
    assert!(rt; bytes.cursor() == 5 && bytes.current_count_of(Integer) == 3);
}

#[test]
fn special_counts_no_digit(rt: HostRuntime) {
    let word = UNFLAGGED | INTERNAL | SPECIAL_DIGIT_SEPARATOR;
    for text in [b"1_2".as_slice(), b"_1__2_".as_slice()] {
        let mut bytes = bytes_of(&rt, text, word);
        let passed = pass_digits(&mut bytes, Special);
        let (at, counted) = (bytes.cursor(), bytes.current_count_of(Integer));
        let is = passed == 2 && at == text.len() && counted == 0;
        assert!(rt; is, "{text:?}: {passed}, {at}, {counted}");
    }
}

#[test]
fn a_count_stops_at_the_greatest_number(rt: HostRuntime) {
    for (flags, text) in [(INTERNAL, b"12".as_slice()), (INTERNAL, b"_12".as_slice())] {
        let mut bytes = bytes_of(&rt, text, UNFLAGGED | flags);
        bytes.increment_count_of(Integer, usize::MAX);
        let passed = pass_digits(&mut bytes, Integer);
        let (at, counted) = (bytes.cursor(), bytes.current_count_of(Integer));
        let is = passed == 2 && at == text.len() && counted == usize::MAX;
        assert!(rt; is, "{text:?}: {passed}, {at}, {counted}");
    }
}

/// A run of separators.
static RUN: [u8; 100_000] = [b'_'; 100_000];

#[test]
fn a_long_run_is_passed_at_once_or_ends_the_digits(rt: HostRuntime) {
    let all = INTERNAL | LEADING | TRAILING | CONSECUTIVE;
    for (flags, cursor, looks) in [(INTERNAL, 0, 3), (all, 100_000, 100_002)] {
        let mut bytes = bytes_of(&rt, &RUN, UNFLAGGED | flags);
        assert!(rt; pass_digits(&mut bytes, Integer) == 0);
        assert!(rt;
            bytes.cursor() == cursor && bytes.looks() <= looks,
            "{}",
            bytes.looks()
        );
    }
    assert!(rt; is_supported(UNFLAGGED | all));
    assert!(rt; count_digits(&RUN, UNFLAGGED | all) == Ok(0));
    let read = read_integer_from(&RUN, UNFLAGGED | all, 50_000, 0);
    assert!(rt; read == Err(LiteralError::Empty(100_000)));
}

/// Reads the integer that begins at a position, up to a greatest value, under `_` between digits.
fn assert_from(
    rt: &impl Abort,
    text: &[u8],
    start: usize,
    most: u64,
    read: Result<(u64, usize), LiteralError>,
) {
    assert!(rt; is_supported(UNFLAGGED | INTERNAL) && start <= text.len());
    let answer = read_integer_from(text, UNFLAGGED | INTERNAL, start, most);
    assert!(rt; answer == read, "{text:?}: {answer:?}");
}

#[test]
fn an_integer_from_a_position_has_an_answer_at_each_edge(rt: HostRuntime) {
    assert_from(&rt, b"", 0, 0, Err(LiteralError::Empty(0)));
    assert_from(&rt, b"12", 2, 0, Err(LiteralError::Empty(2)));
    assert_from(&rt, b"___", 1, 9, Err(LiteralError::Empty(1)));
    assert_from(&rt, b"x0_0_", 1, 0, Ok((0, 4)));
    assert_from(&rt, b"x1_2", 1, 0, Err(LiteralError::Overflow(1)));
    assert_from(&rt, b"x1_2", 1, 11, Err(LiteralError::Overflow(3)));
    assert_from(&rt, b"1__2", 0, 12, Ok((1, 1)));
}

//! Each use once. The expected values are worked out by hand.

use super::bytes_of;
use crate::calls::{make_calls, pass_number};
use crate::groups::{GroupsError, read_groups};
use crate::onward::{
    count_beyond, first_of_both, read_mantissa, read_number, read_past_zeros, read_range, read_wide,
};
use crate::remainder::remainder;
use crate::rest::number_end;
use digit_languages::{LanguageError, Literal};
use digit_literals::{ListEnd, LiteralError, TooLarge};
use digit_numbers::{Number, NumberError};
use digit_script::{Answer, Call, Op, Part};
use digit_uses::amounts::parse_amount;
use digit_uses::calling::{PercentError, read_percent};
use digit_uses::dates::parse_date;
use digit_uses::durations::{Cause, Fault as DurationFault, parse_duration};
use digit_uses::geometry::{Geometry, GeometryError, parse_geometry};
use digit_uses::lexer::{Lexeme, Token, next_token};
use digit_uses::literal::{LiteralFault, Suffix, parse_literal};
use digit_uses::loops::{count_yielded, yields};
use digit_uses::points::{Point, PointError, read_points};
use digit_uses::settings::{SettingError, read_setting};
use lexical_digits::iterator::Iter;
use lexical_digits::skip::{Bytes, Component};
use lexical_format::words::{
    RUST_BINARY_LITERAL, RUST_HEX_LITERAL, RUST_LITERAL, RUST_OCTAL_LITERAL,
};
use lexical_format::{
    EXPONENT_INTERNAL_DIGIT_SEPARATOR, FRACTION_TRAILING_DIGIT_SEPARATOR,
    INTEGER_INTERNAL_DIGIT_SEPARATOR, STANDARD, char_is_digit_const, is_supported,
};

/// Radix 10, with `_` between digits of integer and exponent, and after the fraction.
const WORD: u128 = (10 << 104)
    | (0x5f << 64)
    | INTEGER_INTERNAL_DIGIT_SEPARATOR
    | FRACTION_TRAILING_DIGIT_SEPARATOR
    | EXPONENT_INTERNAL_DIGIT_SEPARATOR;

/// A text, with the value, the word, the first digit and the end of its literal, and its type.
static LITERALS: [(&[u8], u128, u128, usize, usize, Suffix); 7] = [
    (b"0", 0, RUST_LITERAL, 0, 1, Suffix::Absent),
    (b"1_000_u16", 1000, RUST_LITERAL, 0, 6, Suffix::U16),
    (b"255u8", 255, RUST_LITERAL, 0, 3, Suffix::U8),
    (b"0xFF_ff_u32", 65535, RUST_HEX_LITERAL, 2, 8, Suffix::U32),
    (
        b"0b____1010",
        10,
        RUST_BINARY_LITERAL,
        2,
        10,
        Suffix::Absent,
    ),
    (
        b"18446744073709551615u64",
        18446744073709551615,
        RUST_LITERAL,
        0,
        20,
        Suffix::U64,
    ),
    (b"0o17u128", 15, RUST_OCTAL_LITERAL, 2, 4, Suffix::U128),
];

#[test]
fn literals_of_rust(rt: HostRuntime) {
    for (text, value, word, digits, end, suffix) in &LITERALS {
        let answer = parse_literal(text);
        let literal = Literal {
            value: *value,
            word: *word,
            digits: *digits,
            end: *end,
        };
        assert!(rt; answer == Ok((literal, *suffix)), "{text:?}: {answer:?}");
    }
}

/// The literal 1000, which ends at 6.
const THOUSAND: Literal = Literal {
    value: 1000,
    word: RUST_LITERAL,
    digits: 0,
    end: 6,
};

/// The literal 1 of radix 2, which ends at 3.
const ONE: Literal = Literal {
    value: 1,
    word: RUST_BINARY_LITERAL,
    digits: 2,
    end: 3,
};

/// A text, and why it is no literal.
static NO_LITERALS: [(&[u8], LiteralFault); 6] = [
    (b"_1", LiteralFault::Number(LanguageError::Empty(0))),
    (b"0x_g", LiteralFault::Number(LanguageError::Empty(3))),
    (
        b"340282366920938463463374607431768211456",
        LiteralFault::Number(LanguageError::Overflow(38)),
    ),
    (b"1_000_u8", LiteralFault::Range(THOUSAND, Suffix::U8)),
    (b"1_000_u9", LiteralFault::Name(THOUSAND)),
    (b"0b12", LiteralFault::Name(ONE)),
];

#[test]
fn faults_of_literals_of_rust(rt: HostRuntime) {
    for (text, fault) in &NO_LITERALS {
        let answer = parse_literal(text);
        assert!(rt; answer == Err(*fault), "{text:?}: {answer:?}");
    }
}

/// A text, a divisor, and the remainder of its integer.
static REMAINDERS: [(&[u8], u32, u64); 4] = [
    (b"1_000", 7, 6),
    (b"3214_2829_1234_5698_7654_3216_1182", 97, 1),
    (b"_5", 3, 0),
    (b"12x9", 10, 2),
];

#[test]
fn remainder_of_a_number_of_any_length(rt: HostRuntime) {
    assert!(rt; is_supported(WORD));
    for (text, by, rest) in &REMAINDERS {
        let answer = remainder(text, WORD, *by);
        assert!(rt; answer == *rest, "{text:?}: {answer}");
    }
}

#[test]
fn calls_that_go_on_from_another(rt: HostRuntime) {
    assert!(rt; is_supported(WORD));
    let mut bytes = Bytes::new(b"1_2.34x", WORD);
    assert_eq!(rt; read_mantissa(&mut bytes), Ok(1234));
    assert_eq!(rt; bytes.cursor(), 6);
    let mut bytes = Bytes::new(b"1_2.3_4x", WORD);
    assert_eq!(rt; read_number(&mut bytes.integer_iter(), 10), Ok(1234));
    assert_eq!(rt; bytes.cursor(), 7);
    let mut bytes = Bytes::new(b"1844674407370955161.6", WORD);
    let error = TooLarge {
        at: 20,
        value: 1844674407370955161,
        count: 0,
    };
    assert_eq!(rt; read_number(&mut bytes.integer_iter(), 10), Err(error));
    let mut bytes = Bytes::new(b"0_012_3x", WORD);
    assert_eq!(rt; read_past_zeros(&mut bytes), Ok((2, 123)));
    assert_eq!(rt; bytes.cursor(), 7);
    assert_eq!(rt; read_range(b"1_0-20x", WORD), Ok(((10, 3), (20, 6))));
    assert_eq!(rt; read_range(b"1_0", WORD), Err(LiteralError::Empty(3)));
}

#[test]
fn more_digits_than_a_value_holds(rt: HostRuntime) {
    let text = b"12_345678901234567890_12345x";
    let mut bytes = bytes_of(&rt, text, WORD);
    let wide = read_wide(&mut bytes, Component::Integer);
    assert_eq!(rt; wide, Some(1234567890123456789012345));
    assert_eq!(rt; bytes.cursor(), 27);
    let mut bytes = bytes_of(&rt, text, WORD);
    assert_eq!(rt; count_beyond(&mut bytes, Component::Integer, 999), 25);
    assert_eq!(rt; bytes.cursor(), 27);
    // 19 digits, and then 20 nines
    let mut bytes = bytes_of(&rt, b"123456789012345678999999999999999999999", WORD);
    assert_eq!(rt; read_wide(&mut bytes, Component::Integer), None);
}

#[test]
fn the_first_digits_of_integer_and_fraction(rt: HostRuntime) {
    // 0012 and 34567890123456789012: 19 from the 1 on, and then 012
    let mut bytes = bytes_of(&rt, b"0_012.34567890123456789012_x", WORD);
    let first = first_of_both(&mut bytes, Component::Integer, b'.', Component::Fraction);
    assert_eq!(rt; first, (1234567890123456789, 3, 27));
}

/// A text, the number of digits that is asked for, and the value of the groups.
static GROUPS: [(&[u8], usize, Result<u64, GroupsError>); 5] = [
    (b"aa:bb:cc", 6, Ok(0xaabbcc)),
    (b"FFFFFFFFFFFFFFFF", 16, Ok(u64::MAX)),
    (b"aa:bb", 6, Err(GroupsError::Count(4))),
    (b"aa::bb", 4, Err(GroupsError::Byte(2))),
    (b"aa:bg", 4, Err(GroupsError::Byte(4))),
];

#[test]
fn groups_of_hexadecimal_digits(rt: HostRuntime) {
    for (text, count, value) in &GROUPS {
        assert!(rt; 1 <= *count && *count <= 16);
        let answer = read_groups(text, *count);
        assert!(rt; answer == *value, "{text:?}: {answer:?}");
    }
}

/// Two reads of digits, and what they answer on `1_2`.
static TWO_READS: [Call; 2] = [
    Call {
        part: Part::Integer,
        op: Op::Next,
    },
    Call {
        part: Part::Integer,
        op: Op::Next,
    },
];

static ONE_TWO: [Answer; 2] = [Answer::Byte(Some(b'1')), Answer::Byte(Some(b'2'))];

#[test]
fn calls_of_a_list(rt: HostRuntime) {
    let mut bytes = bytes_of(&rt, b"1_2", WORD);
    let made = make_calls(rt.alloc(), &mut bytes, &TWO_READS).expect(&rt, "memory");
    assert_eq!(rt; made.as_slice(), ONE_TWO.as_slice());
}

#[test]
fn a_number_is_passed(rt: HostRuntime) {
    let mut bytes = bytes_of(&rt, b"1_2.5e3x", WORD);
    pass_number(&mut bytes);
    assert_eq!(rt; bytes.cursor(), 7);
}

#[test]
fn loops_of_a_callers_own(rt: HostRuntime) {
    assert!(rt; is_supported(WORD));
    assert_eq!(rt; count_yielded(b"1_2x3_", WORD, Component::Integer), 3);
    assert!(rt; !yields(&mut Bytes::new(b"1_2", WORD), b'_'));
    assert!(rt; yields(&mut Bytes::new(b"1__2", WORD), b'_'));
}

#[test]
#[tactic(auto, unfolding(lexical_digits::specs::Separators::is_digit))]
fn a_number_in_the_rest_of_a_text_ends(rt: HostRuntime) {
    assert!(rt; is_supported(STANDARD));
    assert!(rt; char_is_digit_const(b'1', 10) && char_is_digit_const(b'3', 10));
    assert_eq!(rt; number_end(b"[12,3]", STANDARD, 1), 3);
    assert_eq!(rt; number_end(b"[12,3]", STANDARD, 4), 5);
}

#[test]
fn lengths_of_time(rt: HostRuntime) {
    assert!(rt; parse_duration(b"") == Ok(0));
    assert!(rt; parse_duration(b"1h30m") == Ok(5_400_000));
    assert!(rt; parse_duration(b"1_500ms2s") == Ok(3500));
    assert!(rt; parse_duration(b"1h3") == Err(DurationFault::NoPart(2, Cause::NoUnit(3))));
    assert!(rt; parse_duration(b"1hx") == Err(DurationFault::NoPart(2, Cause::Empty(2))));
    let answer = parse_duration(b"1s4294967296s");
    assert!(rt; answer == Err(DurationFault::NoPart(2, Cause::TooLarge(11))));
}

/// The window of this size at this place.
const WINDOW: Geometry = Geometry {
    width: 1920,
    height: 1080,
    x: 0,
    y: 24,
};

/// A text, and the geometry that it is, or why it is none.
static GEOMETRIES: [(&[u8], Result<Geometry, GeometryError>); 8] = [
    (b"1920x1080+0+24", Ok(WINDOW)),
    (b"1920*1080+0+24", Err(GeometryError::Byte(4))),
    (b"1920x1080+0", Err(GeometryError::Byte(11))),
    (b"1920x1080+0+24 ", Err(GeometryError::Byte(14))),
    (b"x1080+0+24", Err(GeometryError::NoDigit(0))),
    (b"1x2+3+", Err(GeometryError::NoDigit(6))),
    (b"1x65536+0+0", Err(GeometryError::TooLarge(6))),
    (b"1x2+3+65536", Err(GeometryError::TooLarge(10))),
];

#[test]
fn a_geometry_is_four_fields(rt: HostRuntime) {
    for (text, wanted) in &GEOMETRIES {
        let geometry = parse_geometry(text);
        assert!(rt; geometry == *wanted, "{text:?}: {geometry:?}");
    }
}

#[test]
fn a_field_has_an_error_of_its_own(rt: HostRuntime) {
    assert!(rt; read_percent(b"1_00%", 0) == Ok((100, 4)));
    assert!(rt; read_percent(b"a101", 1) == Err(PercentError::Above100(3)));
    assert!(rt; read_percent(b"a%", 1) == Err(PercentError::NoDigit(1)));
}

#[test]
fn points_are_read_line_by_line(rt: HostRuntime) {
    let mut points = [Point { x: 0, y: 0 }; 3];
    let read = read_points(b"12:-5\n 3:4 \n5;6", &mut points);
    assert!(rt; read.count == 2);
    assert!(rt; read.end == ListEnd::Fault(PointError::NoColon(13)));
    assert!(rt; points[0] == Point { x: 12, y: -5 });
    assert!(rt; points[1] == Point { x: 3, y: 4 });
}

#[test]
fn a_setting_is_a_register_and_a_value(rt: HostRuntime) {
    assert!(rt; read_setting(b"0x1f = -1.5e3;") == Ok((31, -1500.0, 13)));
    assert!(rt; read_setting(b"0x1f : 1") == Err(SettingError::NoMark(5)));
}

/// A text, and the date that it is.
static DATES: [(&[u8], Option<(u16, u8, u8)>); 11] = [
    (b"2026-11-25", Some((2026, 11, 25))),
    (b"2024-02-29", Some((2024, 2, 29))),
    (b"2000-02-29", Some((2000, 2, 29))),
    (b"1900-02-29", None),
    (b"2023-02-29", None),
    (b"2026-04-31", None),
    (b"2026-13-01", None),
    (b"2026-00-01", None),
    (b"2026-1-25", None),
    (b"2026/11/25", None),
    (b"2026-11-25 ", None),
];

#[test]
fn a_date_is_a_day_of_its_year(rt: HostRuntime) {
    for (text, wanted) in &DATES {
        let date = parse_date(text).map(|date| (date.year, date.month, date.day));
        assert!(rt; date == *wanted, "{text:?}: {date:?}");
    }
}

#[test]
fn an_amount_has_a_comma(rt: HostRuntime) {
    assert!(rt; parse_amount(b"-1.234,56") == Ok(Number::Float(-1234.56)));
    let whole = parse_amount(b"1.234")
        .ok()
        .and_then(|number| number.as_integer::<u16>());
    assert!(rt; whole == Some(1234));
    assert!(rt; parse_amount(b"1..2") == Err(NumberError::Invalid(1)));
    assert!(rt; parse_amount(b"1,5e3") == Err(NumberError::Invalid(3)));
}

#[test]
fn an_expression_has_three_kinds_of_tokens(rt: HostRuntime) {
    let text = b" x_1*0x1f";
    let name = Lexeme {
        token: Token::Name,
        start: 1,
        end: 4,
    };
    let sign = Lexeme {
        token: Token::Sign(b'*'),
        start: 4,
        end: 5,
    };
    assert!(rt; next_token(text, 0) == Ok(Some(name)) && next_token(text, 4) == Ok(Some(sign)));
    match next_token(text, 5) {
        Ok(
            Some(
                Lexeme {
                    token: Token::Number(number),
                    start: 5,
                    end: 9,
                },
            ),
        ) => assert!(rt; number.as_integer::<u8>() == Some(31)),
        other => assert!(rt; false, "{other:?}"),
    }
    assert!(rt; next_token(text, 9) == Ok(None));
    let large = b"340282366920938463463374607431768211456";
    assert!(rt; next_token(large, 0) == Err(NumberError::Overflow(38)));
}

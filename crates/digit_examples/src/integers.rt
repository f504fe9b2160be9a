//! Integers of a type, and digits of an integer.

use digits::words::{PYTHON_LITERAL, TOML_HEX};
use digits::{
    Component, FirstDigits, LiteralError, ParseError, STANDARD, count_digits, parse_number,
    parse_number_from, read_at_most, read_exactly, read_first_digits_from, read_integer,
    read_integer_from, read_number, read_number_from, read_wide_from, stop_from,
};

/// Shows `parse_number`.
#[test]
fn a_whole_text(rt: HostRuntime) {
    assert_eq!(rt; parse_number::<i32>(b"-1_000", PYTHON_LITERAL), Ok(-1000));
    assert_eq!(rt; parse_number::<i8>(b"-1_28", PYTHON_LITERAL), Ok(-128));
    assert_eq!(rt;
        parse_number::<i8>(b"128", PYTHON_LITERAL),
        Err(ParseError::Overflow(2))
    );
    assert_eq!(rt;
        parse_number::<i8>(b"12 ", PYTHON_LITERAL),
        Err(ParseError::Invalid(2))
    );
    assert_eq!(rt;
        parse_number::<u32>(b"+1", STANDARD),
        Err(ParseError::Invalid(0))
    );
}

/// Shows `parse_number_from`.
#[test]
fn the_rest_of_a_text(rt: HostRuntime) {
    assert_eq!(rt; parse_number_from::<i8>(b"x=-12", STANDARD, 2), Ok(-12));
    assert_eq!(rt;
        parse_number_from::<i8>(b"x=-1_29", PYTHON_LITERAL, 2),
        Err(ParseError::Overflow(6))
    );
}

/// Shows `read_number`.
#[test]
fn the_start_of_a_text(rt: HostRuntime) {
    assert_eq!(rt;
        read_number::<i32>(b"-1_000 m", PYTHON_LITERAL),
        Ok((-1000, 6))
    );
    assert_eq!(rt;
        read_number::<u32>(b"-1", STANDARD),
        Err(LiteralError::Empty(0))
    );
}

/// Shows `read_number_from`.
#[test]
fn from_a_position_on(rt: HostRuntime) {
    assert_eq!(rt;
        read_number_from::<u16>(b"8080:443", STANDARD, 5),
        Ok((443, 8))
    );
    assert_eq!(rt;
        read_number_from::<u16>(b"8080:65536", STANDARD, 5),
        Err(LiteralError::Overflow(9))
    );
}

/// Shows `LiteralError::is_none_at`.
#[test]
fn a_missing_number(rt: HostRuntime) {
    // an empty field
    let missing = read_number_from::<i32>(b"1,,3", STANDARD, 2);
    assert_eq!(rt; missing, Err(LiteralError::Empty(2)));
    assert!(rt; LiteralError::Empty(2).is_none_at(2));
    // a minus without a digit
    let bad = read_number_from::<i32>(b"1,-,3", STANDARD, 2);
    assert_eq!(rt; bad, Err(LiteralError::Empty(3)));
    assert!(rt; !LiteralError::Empty(3).is_none_at(2));
}

/// Shows `read_exactly`.
#[test]
fn exactly_so_many_digits(rt: HostRuntime) {
    assert_eq!(rt; read_exactly::<u16>(b"2026-11-25", 0, 10, 4), Ok((2026, 4)));
    assert_eq!(rt; read_exactly::<u32>(b"\\u00e9", 2, 16, 4), Ok((233, 6)));
    assert_eq!(rt;
        read_exactly::<u8>(b"7:05", 0, 10, 2),
        Err(LiteralError::Empty(1))
    );
    assert_eq!(rt; read_exactly::<u8>(b"7", 5, 10, 0), Ok((0, 5)));
}

/// Shows `read_at_most`.
#[test]
fn at_most_so_many_digits(rt: HostRuntime) {
    assert_eq!(rt; read_at_most::<u8>(b"7:05", 0, 10, 2), Ok((7, 1)));
    assert_eq!(rt; read_at_most::<u8>(b"123", 0, 10, 2), Ok((12, 2)));
}

/// Shows `read_integer`.
#[test]
fn an_integer_without_a_sign(rt: HostRuntime) {
    assert_eq!(rt; read_integer(b"1_000", PYTHON_LITERAL), Ok((1000, 5)));
    assert_eq!(rt;
        read_integer(b"_1", PYTHON_LITERAL),
        Err(LiteralError::Empty(0))
    );
}

/// Shows `read_integer_from`.
#[test]
fn up_to_a_greatest_value(rt: HostRuntime) {
    assert_eq!(rt; read_integer_from(b"0x1_f", TOML_HEX, 2, 255), Ok((31, 5)));
    assert_eq!(rt;
        read_integer_from(b"0x1_f", TOML_HEX, 2, 9),
        Err(LiteralError::Overflow(4))
    );
}

/// Shows `read_wide_from`.
#[test]
fn an_integer_of_128_bits(rt: HostRuntime) {
    let text = b"99999999999999999999";
    assert_eq!(rt;
        read_wide_from(text, STANDARD, 0, u128::MAX),
        Ok((99999999999999999999, 20))
    );
    assert_eq!(rt;
        read_wide_from(text, STANDARD, 0, 1 << 64),
        Err(LiteralError::Overflow(19))
    );
}

/// Shows `count_digits`.
#[test]
fn how_many_digits(rt: HostRuntime) {
    assert_eq!(rt; count_digits(b"1_000", PYTHON_LITERAL), Ok(4));
    assert_eq!(rt; count_digits(b"1_", PYTHON_LITERAL), Err(1));
    assert_eq!(rt; count_digits(b"1x", PYTHON_LITERAL), Err(1));
}

/// Shows `stop_from`.
#[test]
fn where_digits_end(rt: HostRuntime) {
    assert_eq!(rt;
        stop_from(b"1.5_0e7", PYTHON_LITERAL, Component::Fraction, 2),
        5
    );
}

/// Shows `read_first_digits_from`.
#[test]
fn the_first_digits(rt: HostRuntime) {
    // of the four digits of the fraction two are read, up to 99, and two passed
    let first = FirstDigits {
        value: 98,
        count: 4,
        dropped: 2,
    };
    assert_eq!(rt;
        read_first_digits_from(b"1.98_76e", PYTHON_LITERAL, Component::Fraction, 2, 0, 99),
        (first, 7)
    );
}

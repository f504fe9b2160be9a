//! Format words.

use digits::words::{PYTHON_LITERAL, RUST_HEX_LITERAL, RUST_LITERAL};
use digits::{
    Component, DECIMAL, DigitSeparatorFlags, INTEGER_INTERNAL_DIGIT_SEPARATOR, NO_FLAGS,
    NumberFormat, NumberFormatBuilder, Rule, STANDARD, count_digits, is_supported, parse_number,
    words,
};

/// The radix 10, the byte `,`, and where it may be: between two digits of the integer.
const COMMA_DIGITS: u128 = (10 << 104) | ((b',' as u128) << 64) | INTEGER_INTERNAL_DIGIT_SEPARATOR;

/// Numbers by two words, as the reference shows them first.
#[test]
fn numbers_by_a_word(rt: HostRuntime) {
    assert_eq!(rt; parse_number::<u32>(b"ff", words::HEXADECIMAL), Ok(255));
    assert_eq!(rt; parse_number::<u64>(b"1,234", COMMA_DIGITS), Ok(1234));
    assert_eq!(rt; parse_number::<u64>(b"1,2,34", COMMA_DIGITS), Ok(1234));
}

/// Shows `DigitSeparatorFlags`.
#[test]
fn what_flags_drop(rt: HostRuntime) {
    // internal
    assert_eq!(rt; count_digits(b"1_0", PYTHON_LITERAL), Ok(2));
    assert_eq!(rt; count_digits(b"1__0", PYTHON_LITERAL), Err(1));
    // internal, trailing and consecutive
    assert_eq!(rt; count_digits(b"1__0", RUST_LITERAL), Ok(2));
    assert_eq!(rt; count_digits(b"1__", RUST_LITERAL), Ok(1));
    assert_eq!(rt; count_digits(b"_1", RUST_LITERAL), Err(0));
    // all four
    assert_eq!(rt; count_digits(b"__1", RUST_HEX_LITERAL), Ok(1));
}

/// Shows `is_supported`.
#[test]
fn a_word_that_can_be_read_by(rt: HostRuntime) {
    assert!(rt; is_supported(PYTHON_LITERAL));
    // no radix is 37, and no digit is a separator
    assert!(rt; !is_supported(37 << 104));
    assert!(rt; !is_supported(STANDARD | (0x37 << 64)));
}

/// Shows `NumberFormatBuilder::build`.
#[test]
fn a_word_of_its_parts(rt: HostRuntime) {
    let internal = DigitSeparatorFlags {
        internal: true,
        ..NO_FLAGS
    };
    let builder = NumberFormatBuilder {
        digit_separator: b'\'',
        integer: internal,
        ..DECIMAL
    };
    assert_eq!(rt;
        builder.build(),
        STANDARD | (0x27 << 64) | INTEGER_INTERNAL_DIGIT_SEPARATOR
    );
    assert_eq!(rt; DECIMAL.build(), STANDARD);
}

/// Shows `NumberFormat::new`, `NumberFormat::digit_separator`, `NumberFormat::mantissa_radix`.
#[test]
fn the_parts_of_a_word(rt: HostRuntime) {
    let format = NumberFormat::new(PYTHON_LITERAL);
    assert_eq!(rt; format.digit_separator(), b'_');
    assert_eq!(rt; format.mantissa_radix(), 10);
}

/// Shows `Rule::of`, `Rule::is_digit`, `Rule::is_separator`.
#[test]
fn the_rule_of_a_component(rt: HostRuntime) {
    let rule = Rule::of(PYTHON_LITERAL, Component::Integer);
    assert!(rt; rule.internal);
    assert!(rt; rule.is_digit(b'7'));
    assert!(rt; !rule.is_digit(b'_'));
    assert!(rt; rule.is_separator(b'_'));
}

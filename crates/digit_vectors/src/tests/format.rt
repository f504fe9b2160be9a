//! The format word, its builder, the words with names, and digits.

use lexical_format::{
    ALL_FLAGS, DECIMAL, DIGIT_SEPARATOR_FLAG_MASK, DigitSeparatorFlags,
    EXPONENT_DIGIT_SEPARATOR_FLAG_MASK, FRACTION_DIGIT_SEPARATOR_FLAG_MASK,
    FRACTION_TRAILING_DIGIT_SEPARATOR, INTEGER_DIGIT_SEPARATOR_FLAG_MASK,
    INTEGER_INTERNAL_DIGIT_SEPARATOR, NO_FLAGS, NumberFormat, NumberFormatBuilder,
    SPECIAL_DIGIT_SEPARATOR, STANDARD, char_is_digit_const, char_to_digit_const, is_supported,
    laws, words,
};
use std::process::Abort;

fn word_of(mantissa_radix: u8, separator: u8) -> u128 {
    (u128::from(mantissa_radix) << 104) | (u128::from(separator) << 64)
}

/// Separator, radixes of mantissa and exponent, flags, whether the special flag is among them, and
/// whether the word is supported.
type Fields = (u8, u32, u32, u128, bool, bool);

/// Words and their fields. A zero exponent radix stands for the mantissa radix. A word of ones has
/// every flag, and no bit beside them is one.
static FIELDS: [(u128, Fields); 4] = [
    (
        (10 << 104) | (0x5f << 64) | (1 << 32),
        (b'_', 10, 10, INTEGER_INTERNAL_DIGIT_SEPARATOR, false, true),
    ),
    (u128::MAX, (0xFF, 255, 255, 0x1FFF << 32, true, false)),
    ((16 << 104) | (0x5f << 64), (b'_', 16, 16, 0, false, true)),
    (
        (10 << 120) | (16 << 104) | (0x5f << 64),
        (b'_', 16, 10, 0, false, true),
    ),
];

fn fields_of(word: u128) -> Fields {
    let format = NumberFormat::new(word);
    (
        format.digit_separator(),
        format.mantissa_radix(),
        format.exponent_radix(),
        format.digit_separator_flags(),
        format.special_digit_separator(),
        is_supported(word),
    )
}

#[test]
fn a_word_is_read_field_by_field(rt: HostRuntime) {
    for (word, fields) in &FIELDS {
        let read = fields_of(*word);
        assert!(rt; read == *fields, "{word}: {read:?}");
    }
}

#[test]
fn a_radix_has_to_be_2_to_36(rt: HostRuntime) {
    for radix in 1..=u8::MAX {
        let expected = !matches!(radix, 1 | 37..=255);
        let mantissa = is_supported(word_of(radix, b'_'));
        let exponent = is_supported(word_of(10, b'_') | (u128::from(radix) << 120));
        let is = mantissa == expected && exponent == expected;
        assert!(rt; is, "radix {radix}: {mantissa}, {exponent}");
    }
}

/// Radixes of mantissa and exponent, a separator, and whether the word is supported, with flags or
/// without. A separator may be a digit of neither radix. A zero exponent radix is as good as the
/// mantissa radix.
static SUPPORTED: [(u8, u8, u8, bool); 17] = [
    (0, 0, b'_', false),
    (36, 0, b'_', true),
    (37, 0, b'_', false),
    (37, 10, b'_', false),
    (16, 0, b'a', false),
    (10, 0, b'9', false),
    (2, 0, b'9', true),
    (10, 0, b'+', true),
    (10, 0, 0xFF, true),
    (10, 0, 0, true),
    (10, 16, b'a', false),
    (16, 10, b'a', false),
    (16, 10, b'A', false),
    (2, 10, b'9', false),
    (10, 16, b'g', true),
    (2, 8, b'9', true),
    (16, 10, 0, true),
];

#[test]
fn a_separator_may_be_no_digit(rt: HostRuntime) {
    for (mantissa, exponent, separator, expected) in &SUPPORTED {
        let word = word_of(*mantissa, *separator) | (u128::from(*exponent) << 120);
        let plain = is_supported(word);
        let flagged = is_supported(word | DIGIT_SEPARATOR_FLAG_MASK);
        let is = plain == *expected && flagged == *expected;
        assert!(rt;
            is,
            "{separator} in {mantissa} and {exponent}: {plain}, {flagged}"
        );
    }
}

/// Bytes at the borders of digits and letters, and the value of each from radix 36 on.
static BORDERS: [(u8, Option<u32>); 14] = [
    (b'/', None),
    (b'0', Some(0)),
    (b'9', Some(9)),
    (b':', None),
    (b'@', None),
    (b'A', Some(10)),
    (b'Z', Some(35)),
    (b'[', None),
    (b'`', None),
    (b'a', Some(10)),
    (b'z', Some(35)),
    (b'{', None),
    (0x80, None),
    (0xFF, None),
];

/// A byte has this value in a radix, and is a digit exactly if it has one.
fn assert_value(rt: &impl Abort, byte: u8, radix: u32, expected: Option<u32>) {
    let value = char_to_digit_const(byte, radix);
    let is_digit = char_is_digit_const(byte, radix);
    let is = value == expected && is_digit == expected.is_some();
    assert!(rt; is, "{byte} in {radix}: {value:?}, {is_digit}");
}

#[test]
fn digits_end_at_their_borders(rt: HostRuntime) {
    for (byte, expected) in &BORDERS {
        for radix in [36, 37, u32::MAX] {
            assert_value(&rt, *byte, radix, *expected);
        }
        assert_value(&rt, *byte, 0, None);
    }
}

/// A radix, a byte, and its value.
static BELOW_RADIX: [(u32, u8, Option<u32>); 13] = [
    (1, b'0', Some(0)),
    (1, b'1', None),
    (2, b'1', Some(1)),
    (2, b'2', None),
    (10, b'9', Some(9)),
    (10, b'A', None),
    (10, b'a', None),
    (16, b'F', Some(15)),
    (16, b'G', None),
    (16, b'f', Some(15)),
    (16, b'g', None),
    (35, b'Z', None),
    (35, b'z', None),
];

#[test]
fn a_digit_is_below_its_radix(rt: HostRuntime) {
    for (radix, byte, expected) in &BELOW_RADIX {
        assert_value(&rt, *byte, *radix, *expected);
    }
}

#[test]
fn a_builder_makes_the_word_of_its_parts(rt: HostRuntime) {
    assert_eq!(rt; DECIMAL.build(), STANDARD);
    let internal = DigitSeparatorFlags {
        internal: true,
        ..NO_FLAGS
    };
    let word = NumberFormatBuilder {
        digit_separator: b'_',
        integer: internal,
        ..DECIMAL
    }
    .build();
    assert_eq!(rt; word, (10 << 104) | (0x5f << 64) | (1 << 32));
    let word = NumberFormatBuilder {
        mantissa_radix: 16,
        exponent_radix: 10,
        ..DECIMAL
    }
    .build();
    assert_eq!(rt; word, (10 << 120) | (16 << 104));
}

/// Which of integer, fraction and exponent have all flags, the special flag, and the bits.
static FLAG_BITS: [([bool; 3], bool, u128); 5] = [
    (
        [true, false, false],
        false,
        INTEGER_DIGIT_SEPARATOR_FLAG_MASK,
    ),
    (
        [false, true, false],
        false,
        FRACTION_DIGIT_SEPARATOR_FLAG_MASK,
    ),
    (
        [false, false, true],
        false,
        EXPONENT_DIGIT_SEPARATOR_FLAG_MASK,
    ),
    ([false, false, false], true, SPECIAL_DIGIT_SEPARATOR),
    ([true, true, true], true, DIGIT_SEPARATOR_FLAG_MASK),
];

fn all_if(has_flags: bool) -> DigitSeparatorFlags {
    if has_flags { ALL_FLAGS } else { NO_FLAGS }
}

#[test]
fn a_builder_puts_the_flags_of_a_component_in_their_places(rt: HostRuntime) {
    for ([integer, fraction, exponent], special, bits) in &FLAG_BITS {
        let builder = NumberFormatBuilder {
            integer: all_if(*integer),
            fraction: all_if(*fraction),
            exponent: all_if(*exponent),
            special: *special,
            ..DECIMAL
        };
        let word = builder.build();
        assert!(rt; word == STANDARD | *bits, "{builder:?} makes {word}");
    }
}

#[test]
fn a_builder_puts_a_flag_in_its_place(rt: HostRuntime) {
    let fraction = DigitSeparatorFlags {
        trailing: true,
        ..NO_FLAGS
    };
    let word = NumberFormatBuilder {
        fraction,
        ..DECIMAL
    }
    .build();
    assert_eq!(rt; word, STANDARD | FRACTION_TRAILING_DIGIT_SEPARATOR);
}

#[test]
fn equal_values_have_equal_parts(rt: HostRuntime) {
    let (standard, built) = (
        NumberFormat::new(STANDARD),
        NumberFormat::new(DECIMAL.build()),
    );
    assert!(rt; laws::same_format(standard, built));
    assert!(rt; standard == NumberFormat { word: STANDARD });
    assert!(rt; !laws::same_format(standard, NumberFormat::new(words::HEXADECIMAL)));
    let (standard, flags, decimal) = laws::clones_are_same(standard, ALL_FLAGS, DECIMAL);
    assert!(rt; standard == built && flags == ALL_FLAGS && decimal == DECIMAL);
}

/// Words with names, and their bits: internal is 7 << 32, consecutive 7 << 41, trailing of integer
/// and fraction 3 << 38, leading and trailing of the exponent 1 << 37 and 1 << 40.
static NAMED: [(u128, u128); 4] = [
    (
        words::RUST_LITERAL,
        (10 << 104) | (0x5f << 64) | (7 << 32) | (3 << 38) | (1 << 37) | (1 << 40) | (7 << 41),
    ),
    (
        words::RUST_HEX_LITERAL,
        (16 << 104) | (0x5f << 64) | (0x249 << 32),
    ),
    (
        words::CXX14_HEX_LITERAL,
        (10 << 120) | (16 << 104) | (0x27 << 64) | (7 << 32),
    ),
    (
        words::JAVA_LITERAL,
        (10 << 104) | (0x5f << 64) | (7 << 32) | (7 << 41),
    ),
];

#[test]
fn words_with_names_by_their_bits(rt: HostRuntime) {
    for (word, bits) in &NAMED {
        assert_eq!(rt; *word, *bits);
    }
}

//! Decimal numbers, by `read_decimal_from`. The word is Python's: one `_` between two digits of
//! each component.

use digit_floats::{Decimal, FloatError, read_decimal_from};
use lexical_format::words::PYTHON_LITERAL;
use lexical_format::{NumberFormat, is_supported};
use std::alloc::AllocError;
use std::process::Abort;

/// What a text begins with.
fn read(rt: &impl Abort, text: &[u8]) -> Result<(Decimal, usize), FloatError> {
    let word = PYTHON_LITERAL;
    let format = NumberFormat::new(word);
    assert!(rt; is_supported(word));
    assert!(rt; format.mantissa_radix() == 10 && format.exponent_radix() == 10);
    read_decimal_from(text, word, 0)
}

/// A text, with value, dropped digits, exponent and end of its number.
static FLOATS: [(&[u8], u64, usize, i64, usize); 33] = [
    (b"0", 0, 0, 0, 1),
    (b"+7", 7, 0, 0, 2),
    (b".5", 5, 0, -1, 2),
    (b"5.", 5, 0, 0, 2),
    (b"5._1", 5, 0, 0, 2),
    (b"1.x", 1, 0, 0, 2),
    (b"1e5", 1, 0, 5, 3),
    (b"1E-5x", 1, 0, -5, 4),
    (b"1_2_3.4_5_6e1_0", 123456, 0, 7, 15),
    (b"1__0", 1, 0, 0, 1),
    // zeros that lead, before and after the point, are no significant digits
    (b"00.00", 0, 0, -2, 5),
    (b"0001234567890123456789", 1234567890123456789, 0, 0, 22),
    (
        b"0.00012345678901234567891",
        1234567890123456789,
        1,
        -22,
        25,
    ),
    (b"0.0000000000000000000000000000001e5", 1, 0, -26, 35),
    // 19, 20 and 40 digits
    (b"1234567890123456789", 1234567890123456789, 0, 0, 19),
    (b"9999999999999999999", 9999999999999999999, 0, 0, 19),
    (b"9999999999999999999.9", 9999999999999999999, 1, 0, 21),
    (b"10000000000000000000", 1000000000000000000, 1, 1, 20),
    (b"12345678901234567890", 1234567890123456789, 1, 1, 20),
    (
        b"1_2_3_4_5_6_7_8_9_0_1_2_3_4_5_6_7_8_9_0",
        1234567890123456789,
        1,
        1,
        39,
    ),
    (b"12345678901234567.891e2", 1234567890123456789, 1, 0, 23),
    (
        b"1234567890123456789012345678901234567890",
        1234567890123456789,
        21,
        21,
        40,
    ),
    // 20 digits in the integer: those of the fraction are dropped too
    (b"12345678901234567890.12_3", 1234567890123456789, 4, 1, 25),
    (
        b"0.1000000000000000055511151231257827",
        1000000000000000055,
        15,
        -19,
        36,
    ),
    (
        b"1000000000000000000000000000000e-5",
        1000000000000000000,
        12,
        7,
        34,
    ),
    // beyond `i64`
    (b"1e99999999999999999999", 1, 0, i64::MAX, 22),
    (b"1e-99999999999999999999", 1, 0, i64::MIN, 23),
    (b"1e9223372036854775807", 1, 0, i64::MAX, 21),
    (b"0.1e9223372036854775808", 1, 0, i64::MAX, 23),
    (b"0.01e9223372036854775808", 1, 0, 9223372036854775806, 24),
    (
        b"10000000000000000000e-9223372036854775809",
        1000000000000000000,
        1,
        i64::MIN,
        41,
    ),
    (b"0.1e-9223372036854775807", 1, 0, i64::MIN, 24),
    (b"0e18446744073709551616", 0, 0, i64::MAX, 22),
];

#[test]
fn floats_are_taken_apart(rt: HostRuntime) {
    for (text, value, dropped, exponent, end) in &FLOATS {
        let number = Decimal {
            negative: false,
            value: *value,
            dropped: *dropped,
            exponent: *exponent,
        };
        let answer = read(&rt, text);
        assert!(rt; answer == Ok((number, *end)), "{text:?}: {answer:?}");
    }
}

#[test]
fn a_sign_is_told_of_zero_too(rt: HostRuntime) {
    let zero = Decimal {
        negative: true,
        value: 0,
        dropped: 0,
        exponent: -1,
    };
    assert_eq!(rt; read(&rt, b"-0.0"), Ok((zero, 4)));
}

static FAULTS: [(&[u8], FloatError); 11] = [
    (b"", FloatError::Empty(0)),
    (b".", FloatError::Empty(1)),
    (b"-", FloatError::Empty(1)),
    (b"e5", FloatError::Empty(0)),
    (b"_1", FloatError::Empty(0)),
    (b"-.e1", FloatError::Empty(2)),
    (b"1e", FloatError::EmptyExponent(2)),
    (b"1e+", FloatError::EmptyExponent(3)),
    (b"1e-_1", FloatError::EmptyExponent(3)),
    (b"12.e", FloatError::EmptyExponent(4)),
    (b"1234567890123456789012e", FloatError::EmptyExponent(23)),
];

#[test]
fn a_text_without_a_float_has_one_fault(rt: HostRuntime) {
    for (text, fault) in &FAULTS {
        let answer = read(&rt, text);
        assert!(rt; answer == Err(*fault), "{text:?}: {answer:?}");
    }
}

#[test]
fn a_number_is_read_from_a_position_on(rt: HostRuntime) {
    let word = PYTHON_LITERAL;
    let format = NumberFormat::new(word);
    assert!(rt; is_supported(word));
    assert!(rt; format.mantissa_radix() == 10 && format.exponent_radix() == 10);
    let number = Decimal {
        negative: true,
        value: 1205,
        dropped: 0,
        exponent: 1,
    };
    assert_eq!(rt;
        read_decimal_from(b"x=-1_2.05e3;", word, 2),
        Ok((number, 11))
    );
}

#[test]
fn an_error_of_floats_prints_its_position(rt: HostRuntime) -> Result<(), AllocError> {
    let rows: [(FloatError, &str, usize); 3] = [
        (FloatError::Empty(1), "there is no digit before 1", 1),
        (
            FloatError::EmptyExponent(22),
            "the exponent has no digit at 22",
            22,
        ),
        (
            FloatError::Invalid(3),
            "the byte at 3 is no part of a float",
            3,
        ),
    ];
    for (error, message, position) in rows {
        let printed = format!(in rt.alloc(); "{error}")?;
        assert!(rt; printed.as_str() == message);
        assert!(rt; error.position() == position);
    }
    Ok(())
}

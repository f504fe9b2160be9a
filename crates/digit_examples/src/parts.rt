//! A float by its parts: for another point, another mark, or a sign that you read.

use digits::words::CXX14_HEX_LITERAL;
use digits::{
    Decimal, Marks, Power, STANDARD, decimal_of, read_exponent, read_hex_float_from,
    read_hex_mantissa, read_mantissa, round_hex, round_parts,
};

/// Shows `read_mantissa`.
#[test]
fn digits_before_and_after_a_comma(rt: HostRuntime) {
    let mantissa = read_mantissa(b"1,25d2;", STANDARD, 0, b',');
    assert_eq!(rt;
        (mantissa.value, mantissa.places, mantissa.end),
        (125, 2, 4)
    );
}

/// Shows `read_exponent`.
#[test]
fn exponents(rt: HostRuntime) {
    let power = Power {
        negative: false,
        value: 2,
        end: 6,
    };
    assert_eq!(rt; read_exponent(b"1,25d2;", STANDARD, 4, b'd'), Ok(power));
    // without the mark the exponent is 0, and ends where it would begin
    let none = Power {
        negative: false,
        value: 0,
        end: 1,
    };
    assert_eq!(rt; read_exponent(b"1;", STANDARD, 1, b'e'), Ok(none));
    assert_eq!(rt; read_exponent(b"1e;", STANDARD, 1, b'e'), Err(2));
}

/// Shows `round_parts`.
#[test]
fn a_float_of_its_parts(rt: HostRuntime) {
    // a comma for the point, `d` for the mark, and a minus that was read before
    let text = b"1,25d2;";
    let mantissa = read_mantissa(text, STANDARD, 0, b',');
    let power = read_exponent(text, STANDARD, mantissa.end, b'd').expect(&rt, "a power");
    assert_eq!(rt; round_parts::<f64>(text, true, mantissa, power), -125.0);
}

/// Shows `decimal_of`.
#[test]
fn a_decimal_of_its_parts(rt: HostRuntime) {
    let text = b"1,25d2;";
    let mantissa = read_mantissa(text, STANDARD, 0, b',');
    let power = read_exponent(text, STANDARD, mantissa.end, b'd').expect(&rt, "a power");
    let decimal = Decimal {
        negative: true,
        value: 125,
        dropped: 0,
        exponent: 0,
    };
    assert_eq!(rt; decimal_of(text, true, mantissa, power), decimal);
}

/// Shows `read_hex_mantissa`.
#[test]
fn hexadecimal_digits(rt: HostRuntime) {
    // after the prefix
    let mantissa = read_hex_mantissa(b"0x1.8p3", CXX14_HEX_LITERAL, 2, b'.');
    assert_eq!(rt; (mantissa.digits, mantissa.places, mantissa.end), (2, 1, 5));
}

/// Shows `round_hex`.
#[test]
fn a_float_of_hexadecimal_parts(rt: HostRuntime) {
    // 24 / 16 times 2^3
    let text = b"0x1.8p3";
    let mantissa = read_hex_mantissa(text, CXX14_HEX_LITERAL, 2, b'.');
    let power = read_exponent(text, CXX14_HEX_LITERAL, mantissa.end, b'p').expect(&rt, "a power");
    assert_eq!(rt; round_hex::<f64>(text, false, mantissa, power), 12.0);
}

/// Shows `read_hex_float_from`.
#[test]
fn a_hexadecimal_float(rt: HostRuntime) {
    let marks = Marks {
        point: b'.',
        exponent: b'p',
    };
    assert_eq!(rt;
        read_hex_float_from::<f64>(b"-0x1.8p3", CXX14_HEX_LITERAL, marks, true, 3),
        Ok((-12.0, 8))
    );
}

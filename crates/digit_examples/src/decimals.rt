//! Decimal numbers, in units of their last place or before they are rounded.

use digits::words::PYTHON_LITERAL;
use digits::{
    Decimal, INTEGER_INTERNAL_DIGIT_SEPARATOR, NumberError, PriceError, STANDARD, ScaledError,
    forms, parse_scaled, read_decimal_from, read_decimal_of, read_exact_from, read_grouped_from,
    read_price_from, read_scaled_from, read_scaled_up_to, wrong_group,
};

/// Radix 10, and `,` between two digits of the integer.
const COMMA_DIGITS: u128 = (10 << 104) | ((b',' as u128) << 64) | INTEGER_INTERNAL_DIGIT_SEPARATOR;

/// Radix 10, and `.` between two digits of the integer.
const POINT_DIGITS: u128 = (10 << 104) | ((b'.' as u128) << 64) | INTEGER_INTERNAL_DIGIT_SEPARATOR;

/// Shows `parse_scaled`.
#[test]
fn a_whole_text(rt: HostRuntime) {
    assert_eq!(rt;
        parse_scaled::<i64>(b"1_234.5", PYTHON_LITERAL, b'.', 2),
        Ok(123450)
    );
    assert_eq!(rt;
        parse_scaled::<i64>(b"1.5x", PYTHON_LITERAL, b'.', 2),
        Err(ScaledError::Invalid(3))
    );
}

/// Shows `read_scaled_from`.
#[test]
fn an_amount(rt: HostRuntime) {
    assert_eq!(rt;
        read_scaled_from::<i64>(b"-1_234.5;", PYTHON_LITERAL, 0, b'.', 2),
        Ok((-123450, 8))
    );
    assert_eq!(rt;
        read_scaled_from::<i64>(b"12.", STANDARD, 0, b'.', 2),
        Ok((1200, 3))
    );
    assert_eq!(rt;
        read_scaled_from::<i64>(b".5", STANDARD, 0, b'.', 2),
        Ok((50, 2))
    );
    assert_eq!(rt;
        read_scaled_from::<i64>(b".", STANDARD, 0, b'.', 2),
        Err(ScaledError::Empty(1))
    );
    assert_eq!(rt;
        read_scaled_from::<i64>(b"0.1250", STANDARD, 0, b'.', 3),
        Ok((125, 6))
    );
    assert_eq!(rt;
        read_scaled_from::<i64>(b"0.125", STANDARD, 0, b'.', 2),
        Err(ScaledError::TooFine(4))
    );
}

/// Shows `read_scaled_up_to`.
#[test]
fn an_amount_up_to_a_greatest(rt: HostRuntime) {
    assert_eq!(rt;
        read_scaled_up_to(b"12.5", STANDARD, 0, b'.', 2, 9999),
        Ok((1250, 4))
    );
    assert_eq!(rt;
        read_scaled_up_to(b"123.5", STANDARD, 0, b'.', 2, 9999),
        Err(ScaledError::TooLarge(2))
    );
}

/// Shows `read_price_from`.
#[test]
fn a_price(rt: HostRuntime) {
    assert_eq!(rt;
        read_price_from::<i64>(b"1,234.50 EUR", COMMA_DIGITS, 0, b'.', 2),
        Ok((123450, 8))
    );
    assert_eq!(rt;
        read_price_from::<i64>(b"1,234.5", COMMA_DIGITS, 0, b'.', 2),
        Err(PriceError::Places(7))
    );
    assert_eq!(rt;
        read_price_from::<i64>(b"1.234,50", POINT_DIGITS, 0, b',', 2),
        Ok((123450, 8))
    );
}

/// Shows `read_grouped_from`.
#[test]
fn groups_of_three(rt: HostRuntime) {
    assert_eq!(rt;
        read_grouped_from::<i64>(b"1,234.5;", COMMA_DIGITS, 0, b'.', 2),
        Ok((123450, 7))
    );
    assert_eq!(rt;
        read_grouped_from::<i64>(b"12.50", COMMA_DIGITS, 0, b'.', 2),
        Ok((1250, 5))
    );
    assert_eq!(rt;
        read_grouped_from::<i64>(b"1,2,3.00", COMMA_DIGITS, 0, b'.', 2),
        Err(PriceError::Group(2))
    );
    assert_eq!(rt;
        read_grouped_from::<i64>(b"12,34", COMMA_DIGITS, 0, b'.', 2),
        Err(PriceError::Group(3))
    );
    assert_eq!(rt;
        read_grouped_from::<i64>(b"1234.50", COMMA_DIGITS, 0, b'.', 2),
        Err(PriceError::Group(0))
    );
}

/// Shows `read_exact_from`.
#[test]
fn so_many_places(rt: HostRuntime) {
    assert_eq!(rt;
        read_exact_from::<i64>(b"1.50;", STANDARD, 0, b'.', 2),
        Ok((150, 4))
    );
    assert_eq!(rt;
        read_exact_from::<i64>(b"1.5;", STANDARD, 0, b'.', 2),
        Err(PriceError::Places(3))
    );
    assert_eq!(rt;
        read_exact_from::<i64>(b"1.500", STANDARD, 0, b'.', 2),
        Err(PriceError::Places(5))
    );
    assert_eq!(rt;
        read_exact_from::<i64>(b"1.505", STANDARD, 0, b'.', 2),
        Err(PriceError::Number(ScaledError::TooFine(4)))
    );
}

/// Shows `wrong_group`.
#[test]
fn a_wrong_group(rt: HostRuntime) {
    assert_eq!(rt; wrong_group(b"1,234;", COMMA_DIGITS, 0), None);
    assert_eq!(rt; wrong_group(b"1,2,3", COMMA_DIGITS, 0), Some(2));
    assert_eq!(rt; wrong_group(b"12,34", COMMA_DIGITS, 0), Some(3));
    assert_eq!(rt; wrong_group(b"1234", COMMA_DIGITS, 0), Some(0));
}

/// Shows `read_decimal_from`.
#[test]
fn before_rounding(rt: HostRuntime) {
    let decimal = Decimal {
        negative: false,
        value: 1250,
        dropped: 0,
        exponent: -2,
    };
    assert_eq!(rt; read_decimal_from(b"12.50,", STANDARD, 0), Ok((decimal, 5)));
    // 34 places, of which 15 are dropped after the first 19 significant digits
    let decimal = Decimal {
        negative: true,
        value: 1000000000000000055,
        dropped: 15,
        exponent: 7 + 15 - 34,
    };
    assert_eq!(rt;
        read_decimal_from(b"-0.1000000000000000055511151231257827e+7x", STANDARD, 0),
        Ok((decimal, 40))
    );
}

/// Shows `read_decimal_of`.
#[test]
fn before_rounding_by_a_form(rt: HostRuntime) {
    let decimal = Decimal {
        negative: false,
        value: 1250,
        dropped: 0,
        exponent: -2,
    };
    assert_eq!(rt;
        read_decimal_of(b"12.50,", 0, forms::MYSQL),
        Ok((decimal, 5))
    );
    let decimal = Decimal {
        negative: false,
        value: 1000,
        dropped: 0,
        exponent: -3,
    };
    assert_eq!(rt;
        read_decimal_of(b"1_000e-3f64", 0, forms::RUST),
        Ok((decimal, 8))
    );
    assert_eq!(rt;
        read_decimal_of(b"0x1f", 0, forms::RUST),
        Err(NumberError::Empty(0))
    );
}

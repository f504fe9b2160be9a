//! Numbers that are written. Each call writes to the front of a slice.

use digit_uses::proving::{RoundError, round_json};
use digits::{
    ExponentText, FloatLayout, FloatTextError, FormTextError, Layout, MOST_ROOM, NoRoom, Number,
    NumberError, STANDARD, forms, write_exponent, write_fixed, write_float, write_float_of,
    write_integer_of, write_list, write_number, write_number_by, write_number_of, write_plain,
    write_price, write_scaled, write_scientific, write_usual,
};

/// Shows `write_number`.
#[test]
fn an_integer(rt: HostRuntime) {
    let mut out = [0; MOST_ROOM];
    assert_eq!(rt; write_number(-128i8, &mut out), 4);
    assert!(rt; out.starts_with(b"-128"));
}

/// Shows `write_number`.
#[test]
fn an_integer_behind_another(rt: HostRuntime) {
    // a second number behind the first
    let mut out = [0; 80];
    let end = write_number(80u16, &mut out);
    assert_eq!(rt; write_number(443u16, &mut out[end..]), 3);
    assert!(rt; out.starts_with(b"80443"));
}

/// Shows `write_number_by`, `Layout::decimal`, `Layout::grouped`.
#[test]
fn an_integer_in_groups(rt: HostRuntime) {
    let mut out = [0; 16];
    let thousands = Layout::decimal().grouped(b',', 3).expect(&rt, "a layout");
    assert_eq!(rt; write_number_by(-1234567, thousands, &mut out), Ok(10));
    assert!(rt; out.starts_with(b"-1,234,567"));
}

/// Shows `write_number_by`.
#[test]
fn no_room_for_a_number(rt: HostRuntime) {
    let mut few = [0; 2];
    assert_eq!(rt;
        write_number_by(123, Layout::decimal(), &mut few),
        Err(NoRoom { needed: 3 })
    );
}

/// Shows `Layout::of_radix`, `Layout::with_digits`, `Layout::in_upper_case`, `Layout::with_plus`.
#[test]
fn other_layouts(rt: HostRuntime) {
    let mut out = [0; 16];
    let hex = Layout::of_radix(16).expect(&rt, "a layout");
    let layout = hex.with_digits(4).in_upper_case();
    assert_eq!(rt; write_number_by(255, layout, &mut out), Ok(4));
    assert!(rt; out.starts_with(b"00FF"));
    assert_eq!(rt;
        write_number_by(5, Layout::decimal().with_plus(), &mut out),
        Ok(2)
    );
    assert!(rt; out.starts_with(b"+5"));
    assert_eq!(rt; Layout::of_radix(37), None);
}

/// Shows `write_list`.
#[test]
fn a_list_of_integers(rt: HostRuntime) {
    let mut out = [0; 16];
    assert_eq!(rt; write_list(&[80, -1, 443], b',', &mut out), Ok(9));
    assert!(rt; out.starts_with(b"80,-1,443"));
    let mut few = [0; 5];
    assert_eq!(rt;
        write_list(&[80, 443], b'\n', &mut few),
        Err(NoRoom { needed: 6 })
    );
    let mut out = [0; 16];
    let none: [i64; 0] = [];
    assert_eq!(rt; write_list(&none, b',', &mut out), Ok(0));
}

/// Shows `write_scaled`.
#[test]
fn an_amount(rt: HostRuntime) {
    let mut out = [0; 16];
    assert_eq!(rt; write_scaled(-1250i64, b'.', 2, &mut out), Ok(6));
    assert!(rt; out.starts_with(b"-12.50"));
    assert_eq!(rt; write_scaled(5i64, b'.', 2, &mut out), Ok(4));
    assert!(rt; out.starts_with(b"0.05"));
}

/// Shows `write_price`.
#[test]
fn a_price(rt: HostRuntime) {
    let mut out = [0; 16];
    assert_eq!(rt; write_price(123450i64, b'.', 2, b',', &mut out), Ok(8));
    assert!(rt; out.starts_with(b"1,234.50"));
}

/// Shows `write_float`.
#[test]
fn a_float(rt: HostRuntime) {
    let mut out = [0; 32];
    assert_eq!(rt; write_float(0.1, FloatLayout::Usual, &mut out), Ok(3));
    assert!(rt; out.starts_with(b"0.1"));
    assert_eq!(rt; write_float(-12000.0, FloatLayout::Plain, &mut out), Ok(6));
    assert!(rt; out.starts_with(b"-12000"));
    assert_eq!(rt;
        write_float(-12000.0, FloatLayout::Exponent, &mut out),
        Ok(6)
    );
    assert!(rt; out.starts_with(b"-1.2e4"));
    assert_eq!(rt; write_float(-12000.0, FloatLayout::Usual, &mut out), Ok(8));
    assert!(rt; out.starts_with(b"-12000.0"));
    assert_eq!(rt; write_float(-0.0, FloatLayout::Exponent, &mut out), Ok(4));
    assert!(rt; out.starts_with(b"-0e0"));
    assert_eq!(rt;
        write_float(f64::INFINITY, FloatLayout::Usual, &mut out),
        Err(FloatTextError::Infinite)
    );
}

/// Shows `write_fixed`.
#[test]
fn a_float_with_two_places(rt: HostRuntime) {
    let mut out = [0; 32];
    let x: f64 = 2.675;
    if x.is_finite() {
        // the float is a little below 2.675
        assert_eq!(rt; write_fixed(x, 2, &mut out), Ok(4));
    }
    assert!(rt; out.starts_with(b"2.67"));
}

/// Shows `write_scientific`.
#[test]
fn a_float_with_an_exponent(rt: HostRuntime) {
    let mut out = [0; 32];
    let x: f64 = 1234.5;
    if x.is_finite() {
        assert_eq!(rt;
            write_scientific(x, 2, ExponentText::Signed, &mut out),
            Ok(8)
        );
        assert!(rt; out.starts_with(b"1.23e+03"));
        assert_eq!(rt;
            write_scientific(x, 2, ExponentText::Short, &mut out),
            Ok(6)
        );
    }
    assert!(rt; out.starts_with(b"1.23e3"));
}

/// Shows `write_number_of`.
#[test]
fn a_number_of_a_form(rt: HostRuntime) {
    let mut out = [0; 32];
    assert_eq!(rt;
        write_number_of(Number::Float(0.5), forms::JSON, &mut out),
        Ok(3)
    );
    assert!(rt; out.starts_with(b"0.5"));
    assert_eq!(rt;
        write_number_of(Number::Float(f64::NAN), forms::JSON, &mut out),
        Err(FormTextError::NoNumber)
    );
    let debt: Number<f64> = Number::Integer {
        negative: true,
        magnitude: 3,
        word: STANDARD,
    };
    assert_eq!(rt; write_number_of(debt, forms::JSON, &mut out), Ok(2));
    assert!(rt; out.starts_with(b"-3"));
}

/// Shows `write_float_of`.
#[test]
fn a_float_of_a_form(rt: HostRuntime) {
    let mut out = [0; 32];
    assert_eq!(rt; write_float_of(2.0, forms::JSON, &mut out), Ok(3));
    assert!(rt; out.starts_with(b"2.0"));
    assert_eq!(rt; write_float_of(f64::INFINITY, forms::TOML, &mut out), Ok(3));
    assert!(rt; out.starts_with(b"inf"));
}

/// Shows `write_integer_of`.
#[test]
fn an_integer_of_a_form(rt: HostRuntime) {
    let mut out = [0; 32];
    assert_eq!(rt; write_integer_of(-3, forms::JSON, &mut out), Ok(2));
    assert!(rt; out.starts_with(b"-3"));
    // in Rust a minus is an operator
    assert_eq!(rt;
        write_integer_of(-3, forms::RUST, &mut out),
        Err(FormTextError::NoNumber)
    );
}

/// Shows `write_plain`.
#[test]
fn a_decimal_without_an_exponent(rt: HostRuntime) {
    // 12 times ten to the power of 3
    let mut out = [0; 16];
    assert_eq!(rt; write_plain(false, 12, 3, &mut out), Ok(5));
    assert!(rt; out.starts_with(b"12000"));
}

/// Shows `write_exponent`.
#[test]
fn a_decimal_with_an_exponent(rt: HostRuntime) {
    // 12 times ten to the power of 3
    let mut out = [0; 16];
    assert_eq!(rt; write_exponent(false, 12, 3, &mut out), Ok(5));
    assert!(rt; out.starts_with(b"1.2e4"));
}

/// Shows `write_usual`.
#[test]
fn a_decimal_as_usual(rt: HostRuntime) {
    // 12 times ten to the power of 3, and of 20
    let mut out = [0; 16];
    assert_eq!(rt; write_usual(false, 12, 3, &mut out), Ok(7));
    assert!(rt; out.starts_with(b"12000.0"));
    assert_eq!(rt; write_usual(false, 12, 20, &mut out), Ok(6));
    assert!(rt; out.starts_with(b"1.2e21"));
}

/// A block of PROVING.md.
#[test]
fn a_number_that_is_read_and_rounded(rt: HostRuntime) {
    let mut out = [0; 16];
    assert_eq!(rt; round_json(b"-12e-3", &mut out), Ok(5));
    assert!(rt; out.starts_with(b"-0.01"));
    // the float is a little below 1.005
    assert_eq!(rt; round_json(b"1.005", &mut out), Ok(4));
    assert!(rt; out.starts_with(b"1.00"));
    assert_eq!(rt; round_json(b"1e999", &mut out), Err(RoundError::TooLarge));
    assert_eq!(rt;
        round_json(b"01", &mut out),
        Err(RoundError::NoNumber(NumberError::Invalid(1)))
    );
    assert_eq!(rt;
        round_json(b"7", &mut out[..3]),
        Err(RoundError::NoRoom(NoRoom { needed: 4 }))
    );
}

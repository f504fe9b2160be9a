//! The shortest texts of floats, as rustc's `{}` and `{:e}` print them, and as Python's
//! `json.dumps` does where it has no exponent.

use float_writers::{AnyFloat, FloatLayout, FloatTextError, write_float};
use std::rt::HostRuntime;

/// What stands behind each text.
const BEHIND: u8 = b'#';

/// Whether a float has this text, after which nothing is touched, and whether a byte of room less
/// is refused.
fn writes<F: AnyFloat>(x: F, layout: FloatLayout, text: &[u8]) -> bool {
    let mut out = [BEHIND; 64];
    let Ok(len) = write_float(x, layout, &mut out) else {
        return false;
    };
    if len == 0 || len != text.len() || len > 63 || &out[..len] != text || out[len] != BEHIND {
        return false;
    }
    let mut short = [BEHIND; 64];
    write_float(x, layout, &mut short[..len - 1]) == Err(FloatTextError::NoRoom(len))
        && short == [BEHIND; 64]
}

/// Floats, and what `{}` and `{:e}` print.
static DOUBLES: [(f64, &[u8], &[u8]); 15] = [
    (0.0, b"0", b"0e0"),
    (-0.0, b"-0", b"-0e0"),
    (-1.5, b"-1.5", b"-1.5e0"),
    (0.1, b"0.1", b"1e-1"),
    (1e23, b"100000000000000000000000", b"1e23"),
    (8.41e21, b"8410000000000000000000", b"8.41e21"),
    (
        9007199254740993.0,
        b"9007199254740992",
        b"9.007199254740992e15",
    ),
    (
        9223372036854775807.0,
        b"9223372036854776000",
        b"9.223372036854776e18",
    ),
    (123456.789, b"123456.789", b"1.23456789e5"),
    (
        9999999999999998.0,
        b"9999999999999998",
        b"9.999999999999998e15",
    ),
    (0.00012, b"0.00012", b"1.2e-4"),
    (0.000009, b"0.000009", b"9e-6"),
    (-12000.0, b"-12000", b"-1.2e4"),
    (1e16, b"10000000000000000", b"1e16"),
    (1e-7, b"0.0000001", b"1e-7"),
];

#[test]
fn doubles_are_written(rt: HostRuntime) {
    for &(x, plain, exponent) in &DOUBLES {
        assert!(&rt; writes(x, FloatLayout::Plain, plain), "{x}");
        assert!(&rt; writes(x, FloatLayout::Exponent, exponent), "{x}");
    }
}

/// Floats, and what `{}` and `{:e}` print.
static SINGLES: [(f32, &[u8], &[u8]); 6] = [
    (-0.0, b"-0", b"-0e0"),
    (0.1, b"0.1", b"1e-1"),
    (16777216.0, b"16777216", b"1.6777216e7"),
    (33554432.0, b"33554432", b"3.3554432e7"),
    (
        3.4028235e38,
        b"340282350000000000000000000000000000000",
        b"3.4028235e38",
    ),
    (
        1e-45,
        b"0.000000000000000000000000000000000000000000001",
        b"1e-45",
    ),
];

#[test]
fn singles_are_written(rt: HostRuntime) {
    for &(x, plain, exponent) in &SINGLES {
        assert!(&rt; writes(x, FloatLayout::Plain, plain), "{x}");
        assert!(&rt; writes(x, FloatLayout::Exponent, exponent), "{x}");
    }
}

/// Floats at the ends of the range, as `{:e}` prints them.
static ENDS: [(f64, &[u8]); 3] = [
    (5e-324, b"5e-324"),
    (2.2250738585072014e-308, b"2.2250738585072014e-308"),
    (-1.7976931348623157e308, b"-1.7976931348623157e308"),
];

#[test]
fn ends_are_written(rt: HostRuntime) {
    for &(x, exponent) in &ENDS {
        assert!(&rt; writes(x, FloatLayout::Exponent, exponent), "{x}");
        assert!(&rt; writes(x, FloatLayout::Usual, exponent), "{x}");
    }
}

/// Floats as `json.dumps` prints them.
static USUAL: [(f64, &[u8]); 8] = [
    (0.0, b"0.0"),
    (-0.0, b"-0.0"),
    (1.0, b"1.0"),
    (0.1, b"0.1"),
    (1e15, b"1000000000000000.0"),
    (9999999999999998.0, b"9999999999999998.0"),
    (0.0001, b"0.0001"),
    (-12000.0, b"-12000.0"),
];

#[test]
fn usual_texts_are_written(rt: HostRuntime) {
    for &(x, text) in &USUAL {
        assert!(&rt; writes(x, FloatLayout::Usual, text), "{x}");
    }
}

#[test]
fn other_values_have_no_text(rt: HostRuntime) {
    let mut out = [BEHIND; 32];
    assert!(&rt;
        write_float(f64::INFINITY, FloatLayout::Plain, &mut out) == Err(FloatTextError::Infinite)
    );
    assert!(&rt;
        write_float(-f32::INFINITY, FloatLayout::Usual, &mut out) == Err(FloatTextError::Infinite)
    );
    assert!(&rt;
        write_float(f64::NAN, FloatLayout::Exponent, &mut out) == Err(FloatTextError::NaN)
    );
    assert!(&rt; out == [BEHIND; 32]);
}

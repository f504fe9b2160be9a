//! Integers, layouts, amounts and prices that are written, worked out by hand.

use decimal_writers::NoRoom;
use digit_writers::{Layout, Written, write_number, write_number_by, write_price, write_scaled};

/// Whether a number is written as this text, and nothing behind it.
fn is_written<T: Written>(value: T, wanted: &[u8]) -> bool {
    let mut out = [b'?'; 41];
    let end = write_number(value, &mut out);
    &out[..end] == wanted && out[end] == b'?'
}

#[test]
fn the_bounds_of_each_type(rt: HostRuntime) {
    assert!(rt; is_written(0u8, b"0") && is_written(u8::MAX, b"255"));
    assert!(rt; is_written(0u16, b"0") && is_written(u16::MAX, b"65535"));
    assert!(rt; is_written(0u32, b"0") && is_written(u32::MAX, b"4294967295"));
    assert!(rt; is_written(0u64, b"0") && is_written(u64::MAX, b"18446744073709551615"));
    assert!(rt; is_written(0usize, b"0") && is_written(usize::MAX, b"18446744073709551615"));
    assert!(rt; is_written(i8::MIN, b"-128") && is_written(i8::MAX, b"127"));
    assert!(rt; is_written(i16::MIN, b"-32768") && is_written(i16::MAX, b"32767"));
    assert!(rt; is_written(i32::MIN, b"-2147483648") && is_written(i32::MAX, b"2147483647"));
    assert!(rt; is_written(i64::MIN, b"-9223372036854775808"));
    assert!(rt; is_written(i64::MAX, b"9223372036854775807"));
    assert!(rt; is_written(isize::MIN, b"-9223372036854775808"));
    assert!(rt; is_written(u128::MAX, b"340282366920938463463374607431768211455"));
    assert!(rt; is_written(i128::MIN, b"-170141183460469231731687303715884105728"));
    assert!(rt; is_written(i128::MAX, b"170141183460469231731687303715884105727"));
}

/// A one and zeros.
static POWERS: &[u8; 39] = b"100000000000000000000000000000000000000";

static NINES: &[u8; 39] = b"999999999999999999999999999999999999999";

#[test]
fn each_power_of_ten(rt: HostRuntime) {
    let mut power = 1u128;
    for zeros in 0..39 {
        assert!(rt; is_written(power, &POWERS[..zeros + 1]), "{zeros}");
        assert!(rt;
            zeros == 0 || is_written(power.saturating_sub(1), &NINES[..zeros]),
            "{zeros}"
        );
        if let Ok(narrow) = u64::try_from(power) {
            assert!(rt; is_written(narrow, &POWERS[..zeros + 1]), "{zeros}");
        }
        let Some(more) = power.checked_mul(10) else {
            break;
        };
        power = more;
    }
}

/// Whether a number in a layout is written as this text.
fn is_laid_out<T: Written>(value: T, layout: Layout, wanted: &[u8]) -> bool {
    let mut out = [b'?'; 160];
    match write_number_by(value, layout, &mut out) {
        Ok(end) => &out[..end] == wanted,
        Err(_) => false,
    }
}

#[test]
fn a_row_of_each_layout(rt: HostRuntime) {
    let decimal = Layout::decimal();
    let thousands = decimal.grouped(b',', 3).expect(&rt, "a layout");
    assert!(rt; is_laid_out(0u8, thousands, b"0") && is_laid_out(999u32, thousands, b"999"));
    assert!(rt; is_laid_out(-1_000i32, thousands, b"-1,000"));
    assert!(rt; is_laid_out(-1234567i64, thousands, b"-1,234,567"));
    assert!(rt; is_laid_out(u64::MAX, thousands, b"18,446,744,073,709,551,615"));
    let most = b"340,282,366,920,938,463,463,374,607,431,768,211,455";
    assert!(rt; is_laid_out(u128::MAX, thousands, most));
    assert!(rt; is_laid_out(5i8, decimal.with_plus(), b"+5"));
    assert!(rt; is_laid_out(-5i8, decimal.with_plus(), b"-5"));
    assert!(rt; is_laid_out(42u8, decimal.with_digits(5), b"00042"));
    assert!(rt; is_laid_out(123456u32, decimal.with_digits(2), b"123456"));
    assert!(rt; is_laid_out(-7i8, thousands.with_digits(5), b"-00,007"));
    let hex = Layout::of_radix(16).expect(&rt, "a layout");
    assert!(rt; is_laid_out(255u8, hex.with_digits(4), b"00ff"));
    assert!(rt; is_laid_out(0xDEAD_BEEFu32, hex.in_upper_case(), b"DEADBEEF"));
    let bits = Layout::of_radix(2).expect(&rt, "a layout");
    let bits = bits.grouped(b'_', 4).expect(&rt, "a layout");
    assert!(rt; is_laid_out(0b1010_0101u8, bits, b"1010_0101"));
    let letters = Layout::of_radix(36).expect(&rt, "a layout");
    assert!(rt; is_laid_out(1295u16, letters, b"zz") && is_laid_out(36u8, letters, b"10"));
}

#[test]
fn no_such_layout(rt: HostRuntime) {
    for radix in [0, 1, 37, 255] {
        assert!(rt; Layout::of_radix(radix).is_none());
    }
    assert!(rt; Layout::decimal().grouped(b'7', 3).is_none());
    assert!(rt; Layout::decimal().grouped(0, 3).is_none());
    let hex = Layout::of_radix(16).expect(&rt, "a layout");
    assert!(rt; hex.grouped(b'F', 4).is_none() && hex.grouped(b'g', 4).is_some());
}

#[test]
fn no_room(rt: HostRuntime) {
    let thousands = Layout::decimal().grouped(b',', 3).expect(&rt, "a layout");
    let mut out = [b'?'; 5];
    let none = write_number_by(-1234i32, thousands, &mut out);
    assert!(rt; none == Err(NoRoom { needed: 6 }) && out == *b"?????");
    assert!(rt; write_number_by(1234i32, thousands, &mut out) == Ok(5) && out == *b"1,234");
    assert!(rt; write_scaled(-12345i32, b'.', 2, &mut out) == Err(NoRoom { needed: 7 }));
}

/// Whether an amount is written as this text.
fn is_scaled(value: i64, places: usize, wanted: &[u8]) -> bool {
    let mut out = [b'?'; 80];
    match write_scaled(value, b'.', places.min(38), &mut out) {
        Ok(end) => &out[..end] == wanted,
        Err(_) => false,
    }
}

/// Whether a price of two places is written as this text.
fn is_price(value: i64, wanted: &[u8]) -> bool {
    let mut out = [b'?'; 40];
    match write_price(value, b'.', 2, b',', &mut out) {
        Ok(end) => &out[..end] == wanted,
        Err(_) => false,
    }
}

#[test]
fn a_row_of_amounts(rt: HostRuntime) {
    assert!(rt; is_scaled(-1250, 2, b"-12.50") && is_scaled(5, 2, b"0.05"));
    assert!(rt; is_scaled(-5, 0, b"-5") && is_scaled(0, 3, b"0.000"));
    assert!(rt; is_scaled(i64::MIN, 20, b"-0.09223372036854775808"));
    assert!(rt; is_scaled(1, 38, b"0.00000000000000000000000000000000000001"));
    assert!(rt; is_price(123450, b"1,234.50") && is_price(-99999, b"-999.99"));
    assert!(rt; is_price(100000000, b"1,000,000.00") && is_price(7, b"0.07"));
}

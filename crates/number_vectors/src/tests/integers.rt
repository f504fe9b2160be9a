//! Numbers of every integer type. The values were worked out by hand.

use super::{INTERNAL, UNFLAGGED};
use digit_literals::{
    LiteralError, ParseError, parse_number, parse_number_from, read_number, read_number_from,
    read_wide_from,
};
use lexical_format::is_supported;
use std::test::Fail;

/// `_` may be between two digits of radix 10, 2, 16, 36.
const TEN: u128 = UNFLAGGED | INTERNAL;

const TWO: u128 = (2 << 104) | (0x5f << 64) | INTERNAL;

const SIXTEEN: u128 = (16 << 104) | (0x5f << 64) | INTERNAL;

const THIRTY_SIX: u128 = (36 << 104) | (0x5f << 64) | INTERNAL;

/// 2 to the power 128 less 1, and one digit more.
static ONES: [u8; 129] = [b'1'; 129];

static ZEROS: [u8; 100_000] = [b'0'; 100_000];

#[test]
fn types_without_a_sign_have_bounds_in_radix_2(rt: HostRuntime) {
    assert!(&rt; is_supported(TWO));
    assert!(&rt; parse_number::<u8>(b"1111_1111", TWO) == Ok(u8::MAX));
    assert!(&rt; parse_number::<u8>(b"1_0000_0000", TWO) == Err(ParseError::Overflow(10)));
    assert!(&rt; parse_number::<u16>(&ONES[..16], TWO) == Ok(u16::MAX));
    assert!(&rt; parse_number::<u16>(&ONES[..17], TWO) == Err(ParseError::Overflow(16)));
    assert!(&rt; parse_number::<u32>(&ONES[..32], TWO) == Ok(u32::MAX));
    assert!(&rt; parse_number::<u32>(&ONES[..33], TWO) == Err(ParseError::Overflow(32)));
    assert!(&rt; parse_number::<u64>(&ONES[..64], TWO) == Ok(u64::MAX));
    assert!(&rt; parse_number::<u64>(&ONES[..65], TWO) == Err(ParseError::Overflow(64)));
    assert!(&rt; parse_number::<usize>(&ONES[..65], TWO) == Err(ParseError::Overflow(64)));
    assert!(&rt; parse_number::<u128>(&ONES[..65], TWO) == Ok((1 << 65) - 1));
    assert!(&rt; parse_number::<u128>(&ONES[..128], TWO) == Ok(u128::MAX));
    assert!(&rt; parse_number::<u128>(&ONES, TWO) == Err(ParseError::Overflow(128)));
}

#[test]
fn types_with_a_sign_have_two_bounds(rt: HostRuntime) {
    assert!(&rt; is_supported(SIXTEEN));
    assert!(&rt; parse_number::<i8>(b"-8_0", SIXTEEN) == Ok(i8::MIN));
    assert!(&rt; parse_number::<i8>(b"-8_1", SIXTEEN) == Err(ParseError::Overflow(3)));
    assert!(&rt; parse_number::<i8>(b"80", SIXTEEN) == Err(ParseError::Overflow(1)));
    assert!(&rt; parse_number::<i16>(b"+7f_ff", SIXTEEN) == Ok(i16::MAX));
    assert!(&rt; parse_number::<i16>(b"-80_00", SIXTEEN) == Ok(i16::MIN));
    assert!(&rt; parse_number::<i32>(b"-8000_0000", SIXTEEN) == Ok(i32::MIN));
    assert!(&rt; parse_number::<i32>(b"8000_0000", SIXTEEN) == Err(ParseError::Overflow(8)));
    assert!(&rt; parse_number::<i64>(b"-8000000000000000", SIXTEEN) == Ok(i64::MIN));
    assert!(&rt;
        parse_number::<isize>(b"8000000000000000", SIXTEEN) == Err(ParseError::Overflow(15))
    );
    let least = b"-80000000000000000000000000000000";
    assert!(&rt; parse_number::<i128>(least, SIXTEEN) == Ok(i128::MIN));
    assert!(&rt; parse_number::<i128>(&least[1..], SIXTEEN) == Err(ParseError::Overflow(31)));
    assert!(&rt; parse_number::<u128>(&least[1..], SIXTEEN) == Ok(1 << 127));
}

#[test]
fn letters_are_digits_of_radix_36(rt: HostRuntime) {
    assert!(&rt; is_supported(THIRTY_SIX));
    assert!(&rt; parse_number::<u8>(b"73", THIRTY_SIX) == Ok(255));
    assert!(&rt; parse_number::<u8>(b"7_4", THIRTY_SIX) == Err(ParseError::Overflow(2)));
    assert!(&rt; parse_number::<i8>(b"3J", THIRTY_SIX) == Ok(127));
    assert!(&rt; parse_number::<i8>(b"-3k", THIRTY_SIX) == Ok(-128));
    assert!(&rt; parse_number::<i8>(b"-3l", THIRTY_SIX) == Err(ParseError::Overflow(2)));
    assert!(&rt; parse_number::<u64>(b"3w5e11264sgsf", THIRTY_SIX) == Ok(u64::MAX));
    assert!(&rt;
        parse_number::<u64>(b"3w5e11264sgsg", THIRTY_SIX) == Err(ParseError::Overflow(12))
    );
    let most = b"f5lxx1zz5pnorynqglhzmsp33";
    assert!(&rt; parse_number::<u128>(most, THIRTY_SIX) == Ok(u128::MAX));
    let over = b"f5lxx1zz5pnorynqglhzmsp34";
    assert!(&rt; parse_number::<u128>(over, THIRTY_SIX) == Err(ParseError::Overflow(24)));
}

#[test]
fn a_sign_is_one_byte_before_a_digit(rt: HostRuntime) {
    assert!(&rt; is_supported(TEN));
    assert!(&rt; parse_number::<i8>(b"", TEN) == Err(ParseError::Empty(0)));
    assert!(&rt; parse_number::<i8>(b"-", TEN) == Err(ParseError::Empty(1)));
    assert!(&rt; parse_number::<i128>(b"+", TEN) == Err(ParseError::Empty(1)));
    assert!(&rt; parse_number::<i8>(b"+-1", TEN) == Err(ParseError::Invalid(1)));
    assert!(&rt; parse_number::<i128>(b"--1", TEN) == Err(ParseError::Invalid(1)));
    assert!(&rt; parse_number::<i8>(b"-_1", TEN) == Err(ParseError::Invalid(1)));
    assert!(&rt; parse_number::<i8>(b"-0", TEN) == Ok(0));
    assert!(&rt; parse_number::<u8>(b"+1", TEN) == Err(ParseError::Invalid(0)));
    assert!(&rt; parse_number::<u128>(b"-1", TEN) == Err(ParseError::Invalid(0)));
}

#[test]
fn positions_are_those_of_the_whole_text(rt: HostRuntime) {
    assert!(&rt; is_supported(TEN));
    assert!(&rt; parse_number_from::<i8>(b"x=-1_28", TEN, 2) == Ok(-128));
    assert!(&rt; parse_number_from::<i8>(b"x=-1_29", TEN, 2) == Err(ParseError::Overflow(6)));
    assert!(&rt; parse_number_from::<u8>(b"x=1;", TEN, 2) == Err(ParseError::Invalid(3)));
    assert!(&rt; parse_number_from::<u8>(b"12", TEN, 2) == Err(ParseError::Empty(2)));
    assert!(&rt; read_number::<i32>(b"-1_000 m", TEN) == Ok((-1000, 6)));
    assert!(&rt; read_number_from::<u16>(b"8080:65536", TEN, 5) == Err(LiteralError::Overflow(9)));
    assert!(&rt; read_number_from::<i8>(b"a-b", TEN, 1) == Err(LiteralError::Empty(2)));
    assert!(&rt; read_number_from::<u128>(b"12", TEN, 2) == Err(LiteralError::Empty(2)));
}

#[test]
fn a_greatest_value_may_have_128_bits(rt: HostRuntime) {
    assert!(&rt; is_supported(TEN));
    let text = b"x18_446_744_073_709_551_616;";
    assert!(&rt; read_wide_from(text, TEN, 1, 1 << 64) == Ok((1 << 64, 27)));
    assert!(&rt; read_wide_from(text, TEN, 1, (1 << 64) - 1) == Err(LiteralError::Overflow(26)));
    let nines = b"99999999999999999999";
    assert!(&rt; read_wide_from(nines, TEN, 0, 1 << 64) == Err(LiteralError::Overflow(19)));
    assert!(&rt; read_wide_from(b"1x", TEN, 1, u128::MAX) == Err(LiteralError::Empty(1)));
}

#[test]
fn zeros_before_the_digits_are_no_overflow(rt: HostRuntime) -> Result<(), Fail> {
    let mut text = Vec::new(rt.alloc());
    for zero in &ZEROS {
        text.push(*zero)?;
    }
    for digit in b"300" {
        text.push(*digit)?;
    }
    assert!(&rt; is_supported(TEN));
    assert!(&rt; parse_number::<u128>(&text, TEN) == Ok(300));
    assert!(&rt; parse_number::<i16>(&text, TEN) == Ok(300));
    assert!(&rt; parse_number::<u8>(&text, TEN) == Err(ParseError::Overflow(100_002)));
    Ok(())
}

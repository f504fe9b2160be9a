//! Texts that are one integer throughout, and digits up to a greatest value.

use super::{INTERNAL, UNFLAGGED, bytes_of};
use digit_literals::{
    Digits, LiteralError, ParseError, TooLarge, count_digits, parse_number, parse_number_from,
    read_digits_after,
};
use lexical_digits::iterator::Iter;
use lexical_format::is_supported;
use std::alloc::Global;
use std::fmt::Display;
use std::process::Abort;
use std::str::from_utf8;

/// The whole text has this value, or this first fault; `_` may stand between two digits.
fn assert_whole(rt: &impl Abort, text: &[u8], read: Result<u64, ParseError>) {
    assert!(rt; is_supported(UNFLAGGED | INTERNAL));
    let (came, text) = (
        parse_number::<u64>(text, UNFLAGGED | INTERNAL),
        from_utf8(text),
    );
    assert!(rt; came == read, "{text:?}: {came:?}, not {read:?}");
}

/// The same with a sign.
fn assert_signed(rt: &impl Abort, text: &[u8], read: Result<i64, ParseError>) {
    assert!(rt; is_supported(UNFLAGGED | INTERNAL));
    let (came, text) = (
        parse_number::<i64>(text, UNFLAGGED | INTERNAL),
        from_utf8(text),
    );
    assert!(rt; came == read, "{text:?}: {came:?}, not {read:?}");
}

#[test]
fn the_first_fault_of_a_text_is_reported(rt: HostRuntime) {
    assert_whole(&rt, b"1_000", Ok(1000));
    assert_whole(&rt, b"18446744073709551615", Ok(u64::MAX));
    assert_whole(&rt, b"", Err(ParseError::Empty(0)));
    assert_whole(&rt, b"_1", Err(ParseError::Invalid(0)));
    assert_whole(&rt, b"1_", Err(ParseError::Invalid(1)));
    assert_whole(&rt, b"12x4", Err(ParseError::Invalid(2)));
    assert_whole(&rt, b"18446744073709551616x", Err(ParseError::Overflow(19)));
}

/// Texts with groups of three digits, their values and faults; `_` may stand between two digits.
static GROUPED: [(&[u8], Result<u64, ParseError>); 54] = [
    (b"1_234", Ok(1234)),
    (b"12_345", Ok(12345)),
    (b"123_456", Ok(123456)),
    (b"1_234_567", Ok(1234567)),
    (b"12_345_678", Ok(12345678)),
    (b"123_456_789", Ok(123456789)),
    (b"000_009_080", Ok(9080)),
    (b"18_446_744_073_709_551_615", Ok(u64::MAX)),
    (b"18_446_744_073_709_551_616", Err(ParseError::Overflow(25))),
    (b"19_000_000_000_000_000_000", Err(ParseError::Overflow(25))),
    (
        b"1_000_000_000_000_000_000_000",
        Err(ParseError::Overflow(27)),
    ),
    (b"000_018_446_744_073_709_551_615", Ok(u64::MAX)),
    (b"12_34", Ok(1234)),
    (b"1_0000", Ok(10000)),
    (b"1234_567", Ok(1234567)),
    (b"12_34_567", Ok(1234567)),
    (b"1_2_3_4_567", Ok(1234567)),
    (b"1__234", Err(ParseError::Invalid(1))),
    (b"1_234__567", Err(ParseError::Invalid(5))),
    (b"1_234_", Err(ParseError::Invalid(5))),
    (b"1_234_567_", Err(ParseError::Invalid(9))),
    (b"_123_456", Err(ParseError::Invalid(0))),
    (b"_1_234", Err(ParseError::Invalid(0))),
    (b":_234", Err(ParseError::Invalid(0))),
    (b"/_234", Err(ParseError::Invalid(0))),
    (b"1:_345", Err(ParseError::Invalid(1))),
    (b"/1_345", Err(ParseError::Invalid(0))),
    (b"12/_456", Err(ParseError::Invalid(2))),
    (b"1:3_456", Err(ParseError::Invalid(1))),
    (b":23_456", Err(ParseError::Invalid(0))),
    (b"1_:34", Err(ParseError::Invalid(1))),
    (b"1_/34", Err(ParseError::Invalid(1))),
    (b"1_2:4", Err(ParseError::Invalid(3))),
    (b"1_2/4", Err(ParseError::Invalid(3))),
    (b"1_23:", Err(ParseError::Invalid(4))),
    (b"1_23/", Err(ParseError::Invalid(4))),
    (b"1_23:_567", Err(ParseError::Invalid(4))),
    (b"1_23\xff_567", Err(ParseError::Invalid(4))),
    // next to `_` are `^`, the byte 96 and `a`
    (b"1^234_567", Err(ParseError::Invalid(1))),
    (b"1\x60234_567", Err(ParseError::Invalid(1))),
    (b"1a234_567", Err(ParseError::Invalid(1))),
    (b"1:234", Err(ParseError::Invalid(1))),
    (b"12345", Ok(12345)),
    (b"00000", Ok(0)),
    (b"654321", Ok(654321)),
    (b"9999999", Ok(9999999)),
    (b"/2345", Err(ParseError::Invalid(0))),
    (b"1234x", Err(ParseError::Invalid(4))),
    (b"1234:6", Err(ParseError::Invalid(4))),
    (b"123/567", Err(ParseError::Invalid(3))),
    (b"12345\xb07", Err(ParseError::Invalid(5))),
    (b"123456/", Err(ParseError::Invalid(6))),
    (b"1234567890123456789", Ok(1234567890123456789)),
    (b"100000000000000000000", Err(ParseError::Overflow(20))),
];

#[test]
fn groups_of_three_digits_are_read(rt: HostRuntime) {
    for (text, read) in &GROUPED {
        assert_whole(&rt, text, *read);
    }
    assert_signed(&rt, b"-1_234_567", Ok(-1234567));
    assert_signed(&rt, b"+12_345", Ok(12345));
    assert_signed(&rt, b"-9_223_372_036_854_775_808", Ok(i64::MIN));
    let overflow = Err(ParseError::Overflow(25));
    assert_signed(&rt, b"-9_223_372_036_854_775_809", overflow);
    // no byte is the separator 0
    let word = (10 << 104) | INTERNAL;
    assert!(&rt; is_supported(word));
    assert!(&rt; parse_number::<u64>(b"1\0234", word) == Err(ParseError::Invalid(1)));
    assert!(&rt; parse_number::<u64>(b"12345", word) == Ok(12345));
}

/// Digits of radix 16, with no separator among them and with `_` between two of them.
const SIXTEEN: u128 = (16 << 104) | (0x5f << 64);

const SIXTEEN_APART: u128 = SIXTEEN | INTERNAL;

/// Texts of radix 16, their values and faults; no separator is dropped.
static SIXTEENS: [(&[u8], Result<u64, ParseError>); 35] = [
    (b"0", Ok(0)),
    (b"9", Ok(9)),
    (b"a", Ok(10)),
    (b"f", Ok(15)),
    (b"A", Ok(10)),
    (b"F", Ok(15)),
    (b"10", Ok(16)),
    (b"00000000", Ok(0)),
    (b"1234567", Ok(19088743)),
    (b"fffffff", Ok(268435455)),
    (b"FFFFFFF", Ok(268435455)),
    (b"12345678", Ok(305419896)),
    (b"10000000", Ok(268435456)),
    (b"ffffffff", Ok(4294967295)),
    (b"aBcDeF09", Ok(2882400009)),
    (b"AbCdEf90", Ok(2882400144)),
    (b"100000000", Ok(4294967296)),
    (b"12345678f", Ok(4886718351)),
    (b"12345678F", Ok(4886718351)),
    (b"0000000a0B", Ok(2571)),
    (b"fffffffffff", Ok(17592186044415)),
    (b"1000000000000", Ok(281474976710656)),
    (b"800000000000000", Ok(576460752303423488)),
    (b"fffffffffffffff", Ok(1152921504606846975)),
    (b"0123456789abcdef", Ok(81985529216486895)),
    (b"0123456789ABCDEF", Ok(81985529216486895)),
    (b"8000000000000000", Ok(9223372036854775808)),
    (b"FFFFFFFFffffffff", Ok(u64::MAX)),
    (b"00000000000000001", Ok(1)),
    (b"0ffffffffffffffff", Ok(u64::MAX)),
    (b"10000000000000000", Err(ParseError::Overflow(16))),
    (b"", Err(ParseError::Empty(0))),
    (b"_1", Err(ParseError::Invalid(0))),
    (b"1_0", Err(ParseError::Invalid(1))),
    (b"12345678_9", Err(ParseError::Invalid(8))),
];

/// Bytes next to the digits, and bytes that are a digit but for one of their two highest bits.
static NO_DIGITS: [u8; 15] = [
    b'/', b':', b'@', b'G', b'`', b'g', 0x10, 0x19, 0x80, 0xb0, 0xb9, 0xc1, 0xe1, 0xe6, 0xff,
];

/// How many bytes there are, and which of them is no digit.
static PLACES: [(usize, usize); 16] = [
    (1, 0),
    (7, 0),
    (7, 6),
    (8, 0),
    (8, 7),
    (9, 0),
    (9, 7),
    (9, 8),
    (15, 0),
    (15, 7),
    (15, 8),
    (15, 14),
    (16, 0),
    (16, 7),
    (16, 8),
    (16, 15),
];

/// So many digits of radix 16 are no number where the one at a position is another byte.
fn assert_no_digit_at(rt: &impl Abort, length: usize, at: usize) {
    assert!(rt; is_supported(SIXTEEN));
    let mut text = *b"1234567890aBcDeF";
    assert!(rt; at < text.len());
    assert!(rt; length <= text.len());
    for byte in &NO_DIGITS {
        text[at] = *byte;
        let came = parse_number::<u64>(&text[..length], SIXTEEN);
        assert!(rt;
            came == Err(ParseError::Invalid(at)),
            "{byte} at {at}: {came:?}"
        );
    }
}

#[test]
fn digits_of_radix_16_are_read(rt: HostRuntime) {
    assert!(&rt; is_supported(SIXTEEN));
    for (text, read) in &SIXTEENS {
        let (came, text) = (parse_number::<u64>(text, SIXTEEN), from_utf8(text));
        assert!(&rt; came == *read, "{text:?}: {came:?}, not {read:?}");
    }
    for (length, at) in &PLACES {
        assert_no_digit_at(&rt, *length, *at);
    }
}

#[test]
fn types_have_bounds_in_radix_16(rt: HostRuntime) {
    assert!(&rt; is_supported(SIXTEEN));
    assert!(&rt; parse_number::<u8>(b"ff", SIXTEEN) == Ok(u8::MAX));
    assert!(&rt; parse_number::<u8>(b"100", SIXTEEN) == Err(ParseError::Overflow(2)));
    assert!(&rt; parse_number::<u8>(b"1ff", SIXTEEN) == Err(ParseError::Overflow(2)));
    assert!(&rt; parse_number::<u8>(b"00000ff", SIXTEEN) == Ok(u8::MAX));
    assert!(&rt; parse_number::<u8>(b"000000FF", SIXTEEN) == Ok(u8::MAX));
    assert!(&rt; parse_number::<u8>(b"00000100", SIXTEEN) == Err(ParseError::Overflow(7)));
    assert!(&rt; parse_number::<u16>(b"ffff", SIXTEEN) == Ok(u16::MAX));
    assert!(&rt; parse_number::<u16>(b"10000", SIXTEEN) == Err(ParseError::Overflow(4)));
    assert!(&rt; parse_number::<u16>(b"ffffffff", SIXTEEN) == Err(ParseError::Overflow(4)));
    assert!(&rt; parse_number::<u32>(b"ffffffff", SIXTEEN) == Ok(u32::MAX));
    assert!(&rt; parse_number::<u32>(b"0ffffffff", SIXTEEN) == Ok(u32::MAX));
    assert!(&rt; parse_number::<u32>(b"100000000", SIXTEEN) == Err(ParseError::Overflow(8)));
    assert!(&rt; parse_number::<u128>(b"ffffffffffffffff", SIXTEEN) == Ok((1 << 64) - 1));
    assert!(&rt; parse_number::<u128>(b"10000000000000000", SIXTEEN) == Ok(1 << 64));
    assert!(&rt; parse_number::<i8>(b"-80", SIXTEEN) == Ok(i8::MIN));
    assert!(&rt; parse_number::<i8>(b"80", SIXTEEN) == Err(ParseError::Overflow(1)));
    assert!(&rt; parse_number::<i64>(b"+7fffffffffffffff", SIXTEEN) == Ok(i64::MAX));
    let overflow = Err(ParseError::Overflow(15));
    assert!(&rt; parse_number::<i64>(b"8000000000000000", SIXTEEN) == overflow);
    assert!(&rt; parse_number::<i64>(b"-8000000000000000", SIXTEEN) == Ok(i64::MIN));
    let overflow = Err(ParseError::Overflow(16));
    assert!(&rt; parse_number::<i64>(b"-8000000000000001", SIXTEEN) == overflow);
    assert!(&rt; parse_number::<i64>(b"-", SIXTEEN) == Err(ParseError::Empty(1)));
    assert!(&rt; parse_number::<i64>(b"-g", SIXTEEN) == Err(ParseError::Invalid(1)));
    assert!(&rt; parse_number_from::<u64>(b"0xfF", SIXTEEN, 2) == Ok(255));
    assert!(&rt; parse_number_from::<u64>(b"0xfg", SIXTEEN, 2) == Err(ParseError::Invalid(3)));
}

#[test]
fn separators_of_radix_16_are_dropped(rt: HostRuntime) {
    assert!(&rt; is_supported(SIXTEEN_APART));
    assert!(&rt; parse_number::<u64>(b"f", SIXTEEN_APART) == Ok(15));
    assert!(&rt; parse_number::<u64>(b"1_0", SIXTEEN_APART) == Ok(16));
    assert!(&rt; parse_number::<u64>(b"dead_BEEF", SIXTEEN_APART) == Ok(3735928559));
    assert!(&rt; parse_number::<u64>(b"deadBEEF", SIXTEEN_APART) == Ok(3735928559));
    assert!(&rt; parse_number::<u64>(b"1__0", SIXTEEN_APART) == Err(ParseError::Invalid(1)));
}

#[test]
fn positions_count_the_sign(rt: HostRuntime) {
    assert_signed(&rt, b"-1_000", Ok(-1000));
    assert_signed(&rt, b"+7", Ok(7));
    assert_signed(&rt, b"9223372036854775807", Ok(i64::MAX));
    assert_signed(&rt, b"-9223372036854775808", Ok(i64::MIN));
    assert_signed(&rt, b"9223372036854775808", Err(ParseError::Overflow(18)));
    assert_signed(&rt, b"-9223372036854775809", Err(ParseError::Overflow(19)));
    assert_signed(&rt, b"-", Err(ParseError::Empty(1)));
    assert_signed(&rt, b"--1", Err(ParseError::Invalid(1)));
    assert_signed(&rt, b"-_1", Err(ParseError::Invalid(1)));
    assert_signed(&rt, b"-1x", Err(ParseError::Invalid(2)));
}

#[test]
fn a_greatest_value_is_not_passed(rt: HostRuntime) {
    let mut bytes = bytes_of(&rt, b"2_55", UNFLAGGED | INTERNAL);
    let read = read_digits_after(&mut bytes.integer_iter(), 10, 0, 255);
    assert!(rt;
        read == Ok(Digits {
            value: 255,
            count: 3
        })
    );
    let mut bytes = bytes_of(&rt, b"2_56", UNFLAGGED | INTERNAL);
    let read = read_digits_after(&mut bytes.integer_iter(), 10, 0, 255);
    let too_large = TooLarge {
        at: 3,
        value: 25,
        count: 2,
    };
    assert!(rt; read == Err(too_large));
    assert!(rt; bytes.cursor() == 3);
}

/// The whole text has that number of digits, or stops at that position; `_` may be between two
/// digits.
fn assert_digits(rt: &impl Abort, text: &[u8], digits: Result<usize, usize>) {
    assert!(rt; is_supported(UNFLAGGED | INTERNAL));
    let (came, text) = (count_digits(text, UNFLAGGED | INTERNAL), from_utf8(text));
    assert!(rt; came == digits, "{text:?}: {came:?}, not {digits:?}");
}

#[test]
fn the_digits_of_a_whole_text_are_counted(rt: HostRuntime) {
    assert_digits(&rt, b"1_000", Ok(4));
    assert_digits(&rt, b"", Ok(0));
    assert_digits(&rt, b"1_", Err(1));
    assert_digits(&rt, b"1x", Err(1));
}

/// An error is printed as this text.
fn assert_printed<E: Display>(rt: &impl Abort, alloc: Global, error: &E, wanted: &str) {
    let printed = format!(in alloc; "{error}").expect(rt, "memory");
    assert!(rt; printed.as_str() == wanted, "{printed}, not {wanted}");
}

#[test]
fn errors_say_what_and_where(rt: HostRuntime) {
    let overflow = "the number is too large with the digit at 20";
    let empty = "there is no digit at 3";
    let invalid = "the byte at 0 is no part of an integer";
    assert_printed(&rt, rt.alloc(), &LiteralError::Empty(3), empty);
    assert_printed(&rt, rt.alloc(), &LiteralError::Overflow(20), overflow);
    assert_printed(&rt, rt.alloc(), &ParseError::Empty(3), empty);
    assert_printed(&rt, rt.alloc(), &ParseError::Invalid(0), invalid);
    assert_printed(&rt, rt.alloc(), &ParseError::Overflow(20), overflow);
    assert!(rt; LiteralError::Empty(3).position() == 3);
    assert!(rt; LiteralError::Overflow(20).position() == 20);
    assert!(rt; ParseError::Empty(3).position() == 3);
    assert!(rt; ParseError::Invalid(0).position() == 0);
    assert!(rt; ParseError::Overflow(20).position() == 20);
    assert!(rt; ParseError::from(LiteralError::Empty(3)) == ParseError::Empty(3));
    assert!(rt; ParseError::from(LiteralError::Overflow(20)) == ParseError::Overflow(20));
    let (value, count) = (u64::MAX / 10, 19);
    let too_large = TooLarge {
        at: 20,
        value,
        count,
    };
    assert_printed(&rt, rt.alloc(), &too_large, overflow);
}

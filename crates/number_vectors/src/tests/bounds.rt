//! The bounds of each integer type.

use digit_literals::{
    Integer, LiteralError, ParseError, parse_number, read_integer_from, read_number,
};
use lexical_format::STANDARD;
use lexical_format::words::PYTHON_LITERAL;

/// The number that a text is, with `_` between two digits.
#[tactic(auto, unfolding(lexical_format::proofs::OnLiterals::lexical_on_literals))]
fn parse<T: Integer>(text: &[u8]) -> Result<T, ParseError> {
    parse_number::<T>(text, PYTHON_LITERAL)
}

#[test]
fn u8_bounds(rt: HostRuntime) {
    let rows: [(&[u8], Result<u8, ParseError>); 8] = [
        (b"255", Ok(u8::MAX)),
        (b"256", Err(ParseError::Overflow(2))),
        (b"0000255", Ok(u8::MAX)),
        (b"", Err(ParseError::Empty(0))),
        (b"1_", Err(ParseError::Invalid(1))),
        (b"2550", Err(ParseError::Overflow(3))),
        (b"-1", Err(ParseError::Invalid(0))),
        (b"+1", Err(ParseError::Invalid(0))),
    ];
    for (text, answer) in rows {
        assert!(&rt; parse::<u8>(text) == answer, "{}", text.len());
    }
}

#[test]
fn u16_bounds(rt: HostRuntime) {
    let rows: [(&[u8], Result<u16, ParseError>); 8] = [
        (b"65_535", Ok(u16::MAX)),
        (b"65536", Err(ParseError::Overflow(4))),
        (b"000065535", Ok(u16::MAX)),
        (b"", Err(ParseError::Empty(0))),
        (b"1_", Err(ParseError::Invalid(1))),
        (b"655350", Err(ParseError::Overflow(5))),
        (b"-1", Err(ParseError::Invalid(0))),
        (b"+1", Err(ParseError::Invalid(0))),
    ];
    for (text, answer) in rows {
        assert!(&rt; parse::<u16>(text) == answer, "{}", text.len());
    }
}

#[test]
fn u32_bounds(rt: HostRuntime) {
    let rows: [(&[u8], Result<u32, ParseError>); 8] = [
        (b"4_294_967_295", Ok(u32::MAX)),
        (b"4294967296", Err(ParseError::Overflow(9))),
        (b"00004294967295", Ok(u32::MAX)),
        (b"", Err(ParseError::Empty(0))),
        (b"1_", Err(ParseError::Invalid(1))),
        (b"42949672950", Err(ParseError::Overflow(10))),
        (b"-1", Err(ParseError::Invalid(0))),
        (b"+1", Err(ParseError::Invalid(0))),
    ];
    for (text, answer) in rows {
        assert!(&rt; parse::<u32>(text) == answer, "{}", text.len());
    }
}

#[test]
fn u64_bounds(rt: HostRuntime) {
    let rows: [(&[u8], Result<u64, ParseError>); 8] = [
        (b"18_446_744_073_709_551_615", Ok(u64::MAX)),
        (b"18446744073709551616", Err(ParseError::Overflow(19))),
        (b"000018446744073709551615", Ok(u64::MAX)),
        (b"", Err(ParseError::Empty(0))),
        (b"1_", Err(ParseError::Invalid(1))),
        (b"184467440737095516150", Err(ParseError::Overflow(20))),
        (b"-1", Err(ParseError::Invalid(0))),
        (b"+1", Err(ParseError::Invalid(0))),
    ];
    for (text, answer) in rows {
        assert!(&rt; parse::<u64>(text) == answer, "{}", text.len());
    }
}

#[test]
fn u128_bounds(rt: HostRuntime) {
    let rows: [(&[u8], Result<u128, ParseError>); 8] = [
        (
            b"340_282_366_920_938_463_463_374_607_431_768_211_455",
            Ok(u128::MAX),
        ),
        (
            b"340282366920938463463374607431768211456",
            Err(ParseError::Overflow(38)),
        ),
        (
            b"0000340282366920938463463374607431768211455",
            Ok(u128::MAX),
        ),
        (b"", Err(ParseError::Empty(0))),
        (b"1_", Err(ParseError::Invalid(1))),
        (
            b"3402823669209384634633746074317682114550",
            Err(ParseError::Overflow(39)),
        ),
        (b"-1", Err(ParseError::Invalid(0))),
        (b"+1", Err(ParseError::Invalid(0))),
    ];
    for (text, answer) in rows {
        assert!(&rt; parse::<u128>(text) == answer, "{}", text.len());
    }
}

#[test]
fn usize_bounds(rt: HostRuntime) {
    let rows: [(&[u8], Result<usize, ParseError>); 8] = [
        (b"18_446_744_073_709_551_615", Ok(usize::MAX)),
        (b"18446744073709551616", Err(ParseError::Overflow(19))),
        (b"000018446744073709551615", Ok(usize::MAX)),
        (b"", Err(ParseError::Empty(0))),
        (b"1_", Err(ParseError::Invalid(1))),
        (b"184467440737095516150", Err(ParseError::Overflow(20))),
        (b"-1", Err(ParseError::Invalid(0))),
        (b"+1", Err(ParseError::Invalid(0))),
    ];
    for (text, answer) in rows {
        assert!(&rt; parse::<usize>(text) == answer, "{}", text.len());
    }
}

#[test]
fn i8_bounds(rt: HostRuntime) {
    let rows: [(&[u8], Result<i8, ParseError>); 12] = [
        (b"127", Ok(i8::MAX)),
        (b"128", Err(ParseError::Overflow(2))),
        (b"0000127", Ok(i8::MAX)),
        (b"", Err(ParseError::Empty(0))),
        (b"1_", Err(ParseError::Invalid(1))),
        (b"1270", Err(ParseError::Overflow(3))),
        (b"-128", Ok(i8::MIN)),
        (b"-129", Err(ParseError::Overflow(3))),
        (b"+7", Ok(7)),
        (b"--1", Err(ParseError::Invalid(1))),
        (b"-", Err(ParseError::Empty(1))),
        (b"-0", Ok(0)),
    ];
    for (text, answer) in rows {
        assert!(&rt; parse::<i8>(text) == answer, "{}", text.len());
    }
}

#[test]
fn i16_bounds(rt: HostRuntime) {
    let rows: [(&[u8], Result<i16, ParseError>); 12] = [
        (b"32_767", Ok(i16::MAX)),
        (b"32768", Err(ParseError::Overflow(4))),
        (b"000032767", Ok(i16::MAX)),
        (b"", Err(ParseError::Empty(0))),
        (b"1_", Err(ParseError::Invalid(1))),
        (b"327670", Err(ParseError::Overflow(5))),
        (b"-32_768", Ok(i16::MIN)),
        (b"-32769", Err(ParseError::Overflow(5))),
        (b"+7", Ok(7)),
        (b"--1", Err(ParseError::Invalid(1))),
        (b"-", Err(ParseError::Empty(1))),
        (b"-0", Ok(0)),
    ];
    for (text, answer) in rows {
        assert!(&rt; parse::<i16>(text) == answer, "{}", text.len());
    }
}

#[test]
fn i32_bounds(rt: HostRuntime) {
    let rows: [(&[u8], Result<i32, ParseError>); 12] = [
        (b"2_147_483_647", Ok(i32::MAX)),
        (b"2147483648", Err(ParseError::Overflow(9))),
        (b"00002147483647", Ok(i32::MAX)),
        (b"", Err(ParseError::Empty(0))),
        (b"1_", Err(ParseError::Invalid(1))),
        (b"21474836470", Err(ParseError::Overflow(10))),
        (b"-2_147_483_648", Ok(i32::MIN)),
        (b"-2147483649", Err(ParseError::Overflow(10))),
        (b"+7", Ok(7)),
        (b"--1", Err(ParseError::Invalid(1))),
        (b"-", Err(ParseError::Empty(1))),
        (b"-0", Ok(0)),
    ];
    for (text, answer) in rows {
        assert!(&rt; parse::<i32>(text) == answer, "{}", text.len());
    }
}

#[test]
fn i64_bounds(rt: HostRuntime) {
    let rows: [(&[u8], Result<i64, ParseError>); 12] = [
        (b"9_223_372_036_854_775_807", Ok(i64::MAX)),
        (b"9223372036854775808", Err(ParseError::Overflow(18))),
        (b"00009223372036854775807", Ok(i64::MAX)),
        (b"", Err(ParseError::Empty(0))),
        (b"1_", Err(ParseError::Invalid(1))),
        (b"92233720368547758070", Err(ParseError::Overflow(19))),
        (b"-9_223_372_036_854_775_808", Ok(i64::MIN)),
        (b"-9223372036854775809", Err(ParseError::Overflow(19))),
        (b"+7", Ok(7)),
        (b"--1", Err(ParseError::Invalid(1))),
        (b"-", Err(ParseError::Empty(1))),
        (b"-0", Ok(0)),
    ];
    for (text, answer) in rows {
        assert!(&rt; parse::<i64>(text) == answer, "{}", text.len());
    }
}

#[test]
fn i128_bounds(rt: HostRuntime) {
    let rows: [(&[u8], Result<i128, ParseError>); 12] = [
        (
            b"170_141_183_460_469_231_731_687_303_715_884_105_727",
            Ok(i128::MAX),
        ),
        (
            b"170141183460469231731687303715884105728",
            Err(ParseError::Overflow(38)),
        ),
        (
            b"0000170141183460469231731687303715884105727",
            Ok(i128::MAX),
        ),
        (b"", Err(ParseError::Empty(0))),
        (b"1_", Err(ParseError::Invalid(1))),
        (
            b"1701411834604692317316873037158841057270",
            Err(ParseError::Overflow(39)),
        ),
        (
            b"-170_141_183_460_469_231_731_687_303_715_884_105_728",
            Ok(i128::MIN),
        ),
        (
            b"-170141183460469231731687303715884105729",
            Err(ParseError::Overflow(39)),
        ),
        (b"+7", Ok(7)),
        (b"--1", Err(ParseError::Invalid(1))),
        (b"-", Err(ParseError::Empty(1))),
        (b"-0", Ok(0)),
    ];
    for (text, answer) in rows {
        assert!(&rt; parse::<i128>(text) == answer, "{}", text.len());
    }
}

#[test]
fn isize_bounds(rt: HostRuntime) {
    let rows: [(&[u8], Result<isize, ParseError>); 12] = [
        (b"9_223_372_036_854_775_807", Ok(isize::MAX)),
        (b"9223372036854775808", Err(ParseError::Overflow(18))),
        (b"00009223372036854775807", Ok(isize::MAX)),
        (b"", Err(ParseError::Empty(0))),
        (b"1_", Err(ParseError::Invalid(1))),
        (b"92233720368547758070", Err(ParseError::Overflow(19))),
        (b"-9_223_372_036_854_775_808", Ok(isize::MIN)),
        (b"-9223372036854775809", Err(ParseError::Overflow(19))),
        (b"+7", Ok(7)),
        (b"--1", Err(ParseError::Invalid(1))),
        (b"-", Err(ParseError::Empty(1))),
        (b"-0", Ok(0)),
    ];
    for (text, answer) in rows {
        assert!(&rt; parse::<isize>(text) == answer, "{}", text.len());
    }
}

/// The number of a type that a text begins with, by a word without separators.
#[tactic(auto, unfolding(lexical_format::proofs::OnLiterals::lexical_on_literals))]
fn read<T: Integer>(text: &[u8]) -> Result<(T, usize), LiteralError> {
    read_number::<T>(text, STANDARD)
}

#[test]
fn the_last_digit_of_a_number_in_a_text_is_compared(rt: HostRuntime) {
    assert!(&rt; read::<u8>(b"255,") == Ok((u8::MAX, 3)));
    assert!(&rt; read::<u8>(b"256,") == Err(LiteralError::Overflow(2)));
    assert!(&rt; read::<u8>(b"260,") == Err(LiteralError::Overflow(2)));
    assert!(&rt; read::<u8>(b"255,1234") == Ok((u8::MAX, 3)));
    assert!(&rt; read::<u8>(b"256,1234") == Err(LiteralError::Overflow(2)));
    assert!(&rt; read::<i8>(b"-128,") == Ok((i8::MIN, 4)));
    assert!(&rt; read::<i8>(b"-129,") == Err(LiteralError::Overflow(3)));
    assert!(&rt; read::<u16>(b"65535,") == Ok((u16::MAX, 5)));
    assert!(&rt; read::<u16>(b"65536,") == Err(LiteralError::Overflow(4)));
    assert!(&rt; read::<u32>(b"4294967295,") == Ok((u32::MAX, 10)));
    assert!(&rt; read::<u32>(b"4294967296,") == Err(LiteralError::Overflow(9)));
    assert!(&rt; read::<u64>(b"18446744073709551615,") == Ok((u64::MAX, 20)));
    assert!(&rt; read::<u64>(b"18446744073709551616,") == Err(LiteralError::Overflow(19)));
}

/// The integer that a text begins with, up to a greatest value, by the same word.
#[tactic(auto, unfolding(lexical_format::proofs::OnLiterals::lexical_on_literals))]
fn read_up_to(text: &[u8], most: u64) -> Result<(u64, usize), LiteralError> {
    read_integer_from(text, STANDARD, 0, most)
}

#[test]
fn an_integer_up_to_a_small_value_is_compared_with_it(rt: HostRuntime) {
    assert!(&rt; read_up_to(b"0", 0) == Ok((0, 1)));
    assert!(&rt; read_up_to(b"1", 0) == Err(LiteralError::Overflow(0)));
    assert!(&rt; read_up_to(b"9", 9) == Ok((9, 1)));
    assert!(&rt; read_up_to(b"10", 9) == Err(LiteralError::Overflow(1)));
    assert!(&rt; read_up_to(b"12", 12) == Ok((12, 2)));
    assert!(&rt; read_up_to(b"13", 12) == Err(LiteralError::Overflow(1)));
    assert!(&rt; read_up_to(b"12,12345", 12) == Ok((12, 2)));
    assert!(&rt; read_up_to(b"13,12345", 12) == Err(LiteralError::Overflow(1)));
}

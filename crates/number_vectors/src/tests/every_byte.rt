//! Each byte in each radix, by each call that reads a digit. std says what is one.

ghost use Rattle.std.specs.Prelude.{◌≤◌};

use super::{INTERNAL, bytes_of};
use digit_literals::{
    count_digits, parse_number, pass_digits, read_digits_of, read_integer, read_number,
};
use lexical_digits::iterator::DigitsIter;
use lexical_digits::skip::{Component, Rule};
use lexical_format::{char_is_digit_const, char_to_digit_const, digit_value, is_supported};
use lexical_plain::noskip;
use std::process::Abort;

/// The byte as a digit, by `char::to_digit` of std.
fn digit_by_std(byte: u8, radix: u32) -> Option<u32>
    requires above { 2 ≤ radix }
    requires below { radix ≤ 36 }
{
    char::from(byte).to_digit(radix)
}

/// Whether the calls on a byte say that it is a digit of this value, or that it is none.
fn is_digit_by_byte(byte: u8, radix: u32, expected: Option<u32>) -> bool {
    let value = u32::from(digit_value(byte));
    let by_table = if value < radix { Some(value) } else { None };
    char_to_digit_const(byte, radix) == expected
        && char_is_digit_const(byte, radix) == expected.is_some()
        && by_table == expected
}

/// Whether the rule and the iterators say that the byte is a digit, or that it is none.
fn is_digit_by_iterators(rt: &impl Abort, byte: u8, word: u128, expected: bool) -> bool {
    let mut bytes = bytes_of(rt, b"", word);
    let mut plain = noskip::Bytes::new(b"", word);
    Rule::of(word, Component::Integer).is_digit(byte) == expected
        && bytes.is_digit_of(Component::Integer, byte) == expected
        && bytes.integer_iter().is_digit(byte) == expected
        && plain.integer_iter().is_digit(byte) == expected
}

/// Whether the calls on a text of one digit read this value, or find no digit.
fn is_read(rt: &impl Abort, text: &[u8], word: u128, expected: Option<u64>) -> bool {
    assert!(rt; is_supported(word));
    let digits = usize::from(expected.is_some());
    let passed = pass_digits(&mut bytes_of(rt, text, word), Component::Integer);
    let counted = count_digits(text, word).ok();
    let read = read_digits_of(&mut bytes_of(rt, text, word), Component::Integer, 0);
    let value = read.ok().map(|read| read.value);
    passed == digits
        && counted.is_some() == expected.is_some()
        && value == Some(expected.unwrap_or(0))
        && read_integer(text, word).ok() == expected.map(|value| (value, 1))
        && read_number::<u64>(text, word).ok() == expected.map(|value| (value, 1))
        && parse_number::<u64>(text, word).ok() == expected
        && parse_number::<u128>(text, word).ok() == expected.map(u128::from)
}

#[test]
fn every_byte_is_a_digit_of_every_radix_as_std_says(rt: HostRuntime) {
    for radix in 2..=36 {
        for byte in 0..=u8::MAX {
            let expected = digit_by_std(byte, radix);
            let value = expected.map(u64::from);
            assert!(rt;
                is_digit_by_byte(byte, radix, expected),
                "{byte} in {radix}"
            );
            for flags in [0, (0x5f << 64) | INTERNAL] {
                let word = (u128::from(radix) << 104) | flags;
                let by_iterators = is_digit_by_iterators(&rt, byte, word, expected.is_some());
                let is_read = is_read(&rt, &[byte], word, value);
                assert!(rt; by_iterators && is_read, "{byte} in {radix}, flags {flags}");
            }
        }
    }
}

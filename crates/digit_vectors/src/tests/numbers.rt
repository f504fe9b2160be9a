//! Several bytes as one number.

use super::steps::Part::{Exponent, Fraction, Integer, Special, Whole};
use super::steps::Step::{PeekU32, PeekU64};
use super::steps::{assert_goes, assert_turns};
use super::{UNFLAGGED, bytes_of};
use lexical_digits::iterator::IterBodies;
use lexical_format::{FRACTION_INTERNAL_DIGIT_SEPARATOR, STANDARD};

#[test]
fn the_first_byte_is_the_lowest(rt: HostRuntime) {
    for part in [Whole, Integer, Special] {
        let four = PeekU32(Some(0x3433_3231));
        let eight = PeekU64(Some(0x3837_3635_3433_3231));
        assert_goes(&rt, STANDARD, b"12345678", part, &[four, eight]);
    }
}

#[test]
fn there_is_no_number_of_fewer_bytes(rt: HostRuntime) {
    assert_goes(&rt, STANDARD, b"123", Integer, &[PeekU32(None)]);
    let mut bytes = bytes_of(&rt, b"12345", STANDARD);
    let mut iter = bytes.integer_iter();
    assert!(rt; iter.peek_u64() == None);
    assert!(rt; iter.nth(4).copied() == Some(b'5'));
}

#[test]
fn a_buffer_with_separators_gives_numbers_to_contiguous_iterators_alone(rt: HostRuntime) {
    let word = UNFLAGGED | FRACTION_INTERNAL_DIGIT_SEPARATOR;
    let turns = [
        (Whole, PeekU32(None)),
        (Integer, PeekU32(Some(0x3433_3231))),
        (Exponent, PeekU32(Some(0x3433_3231))),
        (Fraction, PeekU32(None)),
    ];
    assert_turns(&rt, word, b"12345", &turns);
}

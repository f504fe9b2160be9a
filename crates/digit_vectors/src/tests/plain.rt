//! Rows of the plain module.

use super::bytes_of;
use super::laws::{is_next_as_peeked, is_settled};
use super::steps::Step::{
    self, Count, Cursor, Drains, Increment, IsConsumed, IsContiguous, IsDigit, Next, Peek, PeekU32,
    ReadIfUncased, SizeHint, SkipZeros, StepBy,
};
use super::steps::{Part, assert_goes, assert_steps};
use lexical_digits::iterator::{DigitsIter, Iter, IterBodies};
use lexical_format::{
    INTEGER_CONSECUTIVE_DIGIT_SEPARATOR, INTEGER_INTERNAL_DIGIT_SEPARATOR,
    INTEGER_LEADING_DIGIT_SEPARATOR, INTEGER_TRAILING_DIGIT_SEPARATOR, STANDARD, is_supported,
};
use lexical_plain::noskip::{AsBytes, Bytes, DigitsIterator};
use std::process::Abort;

/// Radix 10 with the separator `_`, which an integer always drops.
const ALL_INTEGER_SEPARATORS: u128 = (10 << 104)
    + (0x5f << 64)
    + INTEGER_INTERNAL_DIGIT_SEPARATOR
    + INTEGER_LEADING_DIGIT_SEPARATOR
    + INTEGER_TRAILING_DIGIT_SEPARATOR
    + INTEGER_CONSECUTIVE_DIGIT_SEPARATOR;

/// A fresh `Bytes` over a text, by the word of plain decimal numbers.
pub fn plain_bytes<'a>(rt: &impl Abort, text: &'a [u8]) -> Bytes<'a> {
    assert!(rt; is_supported(STANDARD));
    Bytes::new(text, STANDARD)
}

#[test]
fn the_bytes_left_are_known_exactly(rt: HostRuntime) {
    let mut bytes = plain_bytes(&rt, b"12345");
    let mut iter = bytes.integer_iter();
    assert!(rt; iter.len() == 5);
    assert_steps(&rt, &mut iter, &[Next(Some(b'1'))]);
    assert!(rt; iter.len() == 4);
    assert_steps(&rt, &mut iter, &[SizeHint((4, Some(4)))]);
}

#[test]
fn every_byte_comes_whatever_the_flags(rt: HostRuntime) {
    assert!(rt; is_supported(ALL_INTEGER_SEPARATORS));
    let mut bytes = Bytes::new(b"1_23", ALL_INTEGER_SEPARATORS);
    let steps = [
        IsContiguous(true),
        PeekU32(Some(0x3332_5f31)),
        Drains(b"1_23", 4),
    ];
    assert_steps(&rt, &mut bytes.integer_iter(), &steps);
}

#[test]
fn the_count_is_the_cursor(rt: HostRuntime) {
    let mut bytes = plain_bytes(&rt, b"005");
    let steps = [SkipZeros(2), Count(2), Increment, Count(2), Cursor(2)];
    assert_steps(&rt, &mut bytes.fraction_iter(), &steps);
    assert!(rt; bytes.current_count() == 2);
}

#[test]
fn a_view_ends_with_the_buffer(rt: HostRuntime) {
    let mut bytes = plain_bytes(&rt, b"12345");
    let mut iter = DigitsIterator::new(&mut bytes);
    assert_steps(&rt, &mut iter, &[Next(Some(b'1'))]);
    let view = iter.take_n(usize::MAX).expect(&rt, "a view");
    assert!(rt; view.buffer_length() == 5);
    assert!(rt; view.cursor() == 1);
    assert_steps(&rt, &mut iter, &[Cursor(5)]);
}

/// A step by four over `12345`.
static STEP_BY_FOUR: [Step; 6] = [
    StepBy(4),
    Cursor(4),
    Count(4),
    Peek(Some(b'5')),
    Next(Some(b'5')),
    Peek(None),
];

#[test]
fn a_step_by_four_leaves_the_last_byte_in_both_modules(rt: HostRuntime) {
    assert_goes(&rt, STANDARD, b"12345", Part::Integer, &STEP_BY_FOUR);
    let mut plain = plain_bytes(&rt, b"12345");
    assert_steps(&rt, &mut plain.exponent_iter(), &STEP_BY_FOUR);
}

/// There are no eight bytes, and the fifth is `5`.
fn assert_fifth<'a, D: DigitsIter<'a>>(rt: &impl Abort, iter: &mut D) {
    assert!(rt; iter.peek_u64() == None);
    assert!(rt; iter.nth(4).copied() == Some(b'5'));
}

#[test]
fn five_bytes_are_no_eight_and_the_fifth_is_found_in_both_modules(rt: HostRuntime) {
    assert_fifth(&rt, &mut bytes_of(&rt, b"12345", STANDARD).integer_iter());
    assert_fifth(&rt, &mut plain_bytes(&rt, b"12345").special_iter());
}

#[test]
fn a_clone_keeps_the_cursor_and_its_own(rt: HostRuntime) {
    assert!(rt; is_supported(STANDARD));
    let mut bytes = b"07".as_slice().bytes(STANDARD);
    bytes.set_cursor(1);
    let mut copy = bytes.clone().expect(&rt, "a clone takes no memory");
    let steps = [IsDigit(b'9', true), IsDigit(b'a', false), Next(Some(b'7'))];
    assert_steps(&rt, &mut DigitsIterator { byte: &mut copy }, &steps);
    assert!(rt; copy.cursor() == 2);
    assert!(rt; bytes.cursor() == 1);
}

#[test]
fn a_digit_is_one_of_the_mantissa_radix(rt: HostRuntime) {
    let word = (10 << 120) | (16 << 104);
    assert!(rt; is_supported(word));
    let mut bytes = Bytes::new(b"", word);
    let steps = [
        IsDigit(b'9', true),
        IsDigit(b'F', true),
        IsDigit(b'g', false),
    ];
    assert_steps(&rt, &mut bytes.exponent_iter(), &steps);
}

/// The length of any iterator that knows it.
fn length_of<I: ExactSizeIterator>(iter: &I) -> usize {
    iter.len()
}

#[test]
fn generic_code_takes_the_plain_iterator(rt: HostRuntime) {
    let mut bytes = plain_bytes(&rt, b"_7");
    let mut iter = DigitsIterator { byte: &mut bytes };
    assert!(rt; length_of(&iter) == 2);
    assert!(rt; is_settled(&mut iter, b'_'));
    assert!(rt; is_next_as_peeked(&mut iter, b'_'));
    let steps = [ReadIfUncased(b'7', Some(b'7')), IsConsumed(true)];
    assert_steps(&rt, &mut iter, &steps);
    assert!(rt; bytes.cursor() == 2);
}

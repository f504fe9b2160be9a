//! How long bytes and iterators live.

use super::steps::Part::Whole;
use super::steps::Step::{Cursor, Peek};
use super::steps::{assert_part, assert_steps};
use super::{INTERNAL, TRAILING, UNFLAGGED, bytes_of};
use crate::example::{first_kept, next_digit, pass_sign};
use lexical_format::is_supported;
use std::process::Abort;

/// The second byte that is kept, which outlives the iterator and the `Bytes`.
fn second_kept<'a>(rt: &impl Abort, text: &'a [u8]) -> Option<&'a u8> {
    let mut bytes = bytes_of(rt, text, UNFLAGGED | INTERNAL);
    let mut iter = bytes.integer_iter();
    let _first = iter.next();
    iter.next()
}

#[test]
fn a_byte_outlives_its_iterator_and_its_buffer(rt: HostRuntime) {
    let text = [b'4', b'_', b'5'];
    let second = second_kept(&rt, &text);
    assert!(rt; second.copied() == Some(b'5'));
}

#[test]
fn iterators_borrow_one_buffer_in_turn(rt: HostRuntime) {
    let mut bytes = bytes_of(&rt, b"1_.25", UNFLAGGED | TRAILING);
    let one = {
        let mut integer = bytes.integer_iter();
        integer.next()
    };
    let point = bytes.integer_iter().next();
    let mut fraction = bytes.fraction_iter();
    let two = fraction.next();
    assert!(rt; one.copied() == Some(b'1'));
    assert!(rt; point.copied() == Some(b'.'));
    assert!(rt; two.copied() == Some(b'2'));
    assert_steps(&rt, &mut fraction, &[Peek(Some(b'5'))]);
    assert_part(&rt, &mut bytes, Whole, &[Cursor(4)]);
}

#[test]
fn a_caller_reads_a_signed_number(rt: HostRuntime) {
    let mut bytes = bytes_of(&rt, b"-1_2x", UNFLAGGED | INTERNAL);
    assert!(rt; pass_sign(&mut bytes));
    assert!(rt; !pass_sign(&mut bytes));
    for digit in [Some(b'1'), Some(b'2'), None] {
        assert!(rt; next_digit(&mut bytes) == digit);
    }
    assert_part(&rt, &mut bytes, Whole, &[Cursor(4)]);
    let word = UNFLAGGED | INTERNAL;
    assert!(rt; is_supported(word));
    assert!(rt; first_kept(b"4_5", word).copied() == Some(b'4'));
}

//! Rows of the plain call table, one call at a time, and the laws of the plain module.

use super::plain::plain_bytes;
use super::steps::Step::Next;
use super::steps::assert_steps;
use lexical_digits::iterator::{Iter, IterBodies};
use lexical_format::STANDARD;
use lexical_plain::laws::{items_are_rest, plain_agrees, rows, zeros_come_first};
use lexical_plain::noskip::{Bytes, DigitsIterator};
use std::process::Abort;

/// The rows of a `Bytes` over `a2345678`: whether each answers so.
fn bytes_rows(bytes: &Bytes) -> [(&'static str, bool); 13] {
    let all = b"a2345678".as_slice();
    [
        ("as_slice", rows::bytes::as_slice(bytes) == all),
        ("get_buffer", rows::bytes::get_buffer(bytes) == all),
        ("buffer_length", rows::bytes::buffer_length(bytes) == 8),
        ("is_buffer_empty", !rows::bytes::is_buffer_empty(bytes)),
        ("cursor", rows::bytes::cursor(bytes) == 0),
        ("current_count", rows::bytes::current_count(bytes) == 0),
        ("is_contiguous", rows::bytes::is_contiguous(bytes)),
        ("first", rows::bytes::first(bytes) == Some(b'a')),
        ("first_is_cased", !rows::bytes::first_is_cased(bytes, b'A')),
        (
            "first_is_uncased",
            rows::bytes::first_is_uncased(bytes, b'A'),
        ),
        ("first_is", !rows::bytes::first_is(bytes, b'A', true)),
        (
            "peek_u32",
            rows::bytes::peek_u32(bytes) == Some(0x3433_3261),
        ),
        (
            "peek_u64",
            rows::bytes::peek_u64(bytes) == Some(0x3837_3635_3433_3261),
        ),
    ]
}

/// The same rows of an iterator.
fn digits_rows(iter: &DigitsIterator) -> [(&'static str, bool); 13] {
    let all = b"a2345678".as_slice();
    [
        ("as_slice", rows::digits::as_slice(iter) == all),
        ("get_buffer", rows::digits::get_buffer(iter) == all),
        ("buffer_length", rows::digits::buffer_length(iter) == 8),
        ("is_buffer_empty", !rows::digits::is_buffer_empty(iter)),
        ("cursor", rows::digits::cursor(iter) == 0),
        ("current_count", rows::digits::current_count(iter) == 0),
        ("is_contiguous", rows::digits::is_contiguous(iter)),
        ("first", rows::digits::first(iter) == Some(b'a')),
        ("first_is_cased", !rows::digits::first_is_cased(iter, b'A')),
        (
            "first_is_uncased",
            rows::digits::first_is_uncased(iter, b'A'),
        ),
        ("first_is", !rows::digits::first_is(iter, b'A', true)),
        (
            "peek_u32",
            rows::digits::peek_u32(iter) == Some(0x3433_3261),
        ),
        (
            "peek_u64",
            rows::digits::peek_u64(iter) == Some(0x3837_3635_3433_3261),
        ),
    ]
}

/// Each row answered so.
fn assert_rows(rt: &impl Abort, rows: &[(&'static str, bool)]) {
    for (call, is) in rows {
        assert!(rt; *is, "{call} answered otherwise");
    }
}

#[test]
fn a_bytes_and_its_iterator_answer_alike(rt: HostRuntime) {
    let mut bytes = plain_bytes(&rt, b"a2345678");
    assert_rows(&rt, &bytes_rows(&bytes));
    assert_rows(&rt, &digits_rows(&DigitsIterator { byte: &mut bytes }));
}

/// Moves to 1, 2 and 3 on a `Bytes`.
fn move_on_bytes(rt: &impl Abort, bytes: &mut Bytes) {
    assert!(rt; bytes.buffer_length() == 3);
    rows::bytes::set_cursor(bytes, 1);
    rows::bytes::step_by_unchecked(bytes, 1);
    rows::bytes::step_unchecked(bytes);
}

/// Moves to 1, 2 and 3 on an iterator.
fn move_on_digits(rt: &impl Abort, iter: &mut DigitsIterator) {
    assert!(rt; iter.buffer_length() == 3);
    rows::digits::set_cursor(iter, 1);
    assert!(rt; iter.cursor() + 1 <= iter.buffer_length());
    rows::digits::step_by_unchecked(iter, 1);
    assert!(rt; iter.cursor() + 1 <= iter.buffer_length());
    rows::digits::step_unchecked(iter);
}

#[test]
fn moves_carry_the_count_along(rt: HostRuntime) {
    let mut bytes = plain_bytes(&rt, b"123");
    move_on_bytes(&rt, &mut bytes);
    assert!(rt; rows::bytes::current_count(&bytes) == 3);
    let mut bytes = plain_bytes(&rt, b"123");
    let mut iter = DigitsIterator { byte: &mut bytes };
    move_on_digits(&rt, &mut iter);
    assert!(rt; rows::digits::current_count(&iter) == 3);
    assert!(rt; rows::digits::is_buffer_empty(&iter));
}

/// The rows of an iterator over `00_aBcd9`, one after another: whether each answers so.
fn reading_rows(iter: &mut DigitsIterator) -> [(&'static str, bool); 8] {
    let before = !rows::digits::is_consumed(iter);
    let zeros = rows::digits::skip_zeros(iter) == 2;
    rows::digits::increment_count(iter);
    [
        ("is_consumed", before),
        ("skip_zeros", zeros),
        ("cursor", rows::digits::cursor(iter) == 2),
        ("peek", rows::digits::peek(iter) == Some(b'_')),
        ("try_read", rows::digits::try_read(iter) == Some(b'_')),
        ("next", rows::digits::next(iter) == Some(b'a')),
        ("peek_is_cased", !rows::digits::peek_is_cased(iter, b'b')),
        ("peek_is_uncased", rows::digits::peek_is_uncased(iter, b'b')),
    ]
}

/// The rows that follow, from the `B` on.
fn further_rows(iter: &mut DigitsIterator) -> [(&'static str, bool); 9] {
    [
        ("peek_is", rows::digits::peek_is(iter, b'b', false)),
        ("read_if_never", rows::digits::read_if_never(iter) == None),
        (
            "read_if_equal",
            rows::digits::read_if_equal(iter, b'B') == Some(b'B'),
        ),
        (
            "read_if_value_cased",
            rows::digits::read_if_value_cased(iter, b'c') == Some(b'c'),
        ),
        (
            "read_if_value_uncased",
            rows::digits::read_if_value_uncased(iter, b'D') == Some(b'd'),
        ),
        (
            "read_if_value",
            rows::digits::read_if_value(iter, b'8', true) == None,
        ),
        ("is_digit", rows::digits::is_digit(iter, b'9')),
        ("take_n", rows::digits::take_n(iter, 5) == Some((8, 7))),
        ("is_consumed", rows::digits::is_consumed(iter)),
    ]
}

#[test]
fn an_iterator_reads_by_its_rows(rt: HostRuntime) {
    let mut bytes = plain_bytes(&rt, b"00_aBcd9");
    let mut iter = DigitsIterator { byte: &mut bytes };
    assert_rows(&rt, &reading_rows(&mut iter));
    assert_rows(&rt, &further_rows(&mut iter));
}

#[test]
fn the_laws_of_the_plain_module(rt: HostRuntime) {
    plain_agrees(b"005", STANDARD);
    let mut bytes = plain_bytes(&rt, b"005");
    let mut iter = DigitsIterator { byte: &mut bytes };
    items_are_rest(&iter);
    assert!(rt; zeros_come_first(&mut iter) == 2);
    assert_steps(&rt, &mut iter, &[Next(Some(b'5'))]);
}

//! Views of the next bytes.

use super::steps::Part::{self, Exponent, Fraction, Integer, Whole};
use super::steps::Step::{Cursor, MoveTo, Next, Peek};
use super::steps::assert_part;
use super::{CONSECUTIVE, UNFLAGGED, bytes_of};
use lexical_digits::iterator::{AsBytes, Iter, IterBodies};
use lexical_digits::skip::Bytes;
use lexical_format::{
    FRACTION_CONSECUTIVE_DIGIT_SEPARATOR, FRACTION_INTERNAL_DIGIT_SEPARATOR,
    FRACTION_TRAILING_DIGIT_SEPARATOR, STANDARD, is_supported,
};
use std::process::Abort;

/// Calls `take_n` of a part that has it; the other parts answer `None`.
fn take<'a>(bytes: &mut Bytes<'a>, part: Part, n: usize) -> Option<Bytes<'a>> {
    match part {
        Integer => bytes.integer_iter().take_n(n),
        Fraction => bytes.fraction_iter().take_n(n),
        Exponent => bytes.exponent_iter().take_n(n),
        _ => None,
    }
}

/// The view of a part is there, with this length and cursor and no count.
fn assert_view(
    rt: &impl Abort,
    bytes: &mut Bytes,
    part: Part,
    n: usize,
    length: usize,
    cursor: usize,
) {
    let view = take(bytes, part, n).expect(rt, "a view");
    assert!(rt; view.buffer_length() == length);
    assert!(rt; view.cursor() == cursor);
    assert!(rt; view.looks() == 0);
}

#[test]
fn an_empty_buffer_has_an_empty_view(rt: HostRuntime) {
    let mut bytes = bytes_of(&rt, b"", STANDARD);
    assert_view(&rt, &mut bytes, Integer, 0, 0, 0);
}

#[test]
fn there_is_no_view_where_bytes_may_be_dropped(rt: HostRuntime) {
    let mut bytes = bytes_of(&rt, b"1__2", UNFLAGGED | CONSECUTIVE);
    assert!(rt; take(&mut bytes, Integer, 1).is_none());
    assert_part(&rt, &mut bytes, Whole, &[Cursor(0)]);
}

#[test]
fn a_view_ends_where_the_cursor_goes(rt: HostRuntime) {
    let mut bytes = bytes_of(&rt, b"12345", UNFLAGGED | FRACTION_INTERNAL_DIGIT_SEPARATOR);
    assert_view(&rt, &mut bytes, Integer, 2, 2, 0);
    assert_part(&rt, &mut bytes, Integer, &[Cursor(2)]);
    assert_view(&rt, &mut bytes, Exponent, 1, 3, 2);
    assert!(rt; take(&mut bytes, Fraction, 1).is_none());
    assert_part(&rt, &mut bytes, Whole, &[Cursor(3)]);
}

#[test]
fn a_view_is_no_longer_than_the_buffer(rt: HostRuntime) {
    let mut bytes = bytes_of(&rt, b"12345", STANDARD);
    assert_part(&rt, &mut bytes, Integer, &[Next(Some(b'1'))]);
    assert_view(&rt, &mut bytes, Integer, usize::MAX, 5, 1);
    assert_part(&rt, &mut bytes, Integer, &[Cursor(5)]);
}

#[test]
fn a_view_at_the_end_has_its_cursor_there(rt: HostRuntime) {
    assert!(rt; is_supported(STANDARD));
    let mut bytes = b"12345".as_slice().bytes(STANDARD);
    assert_part(&rt, &mut bytes, Integer, &[MoveTo(5)]);
    assert_view(&rt, &mut bytes, Integer, 3, 5, 5);
    assert_part(&rt, &mut bytes, Integer, &[Cursor(5)]);
}

#[test]
fn a_view_judges_its_runs_by_its_own_end(rt: HostRuntime) {
    let flags = FRACTION_INTERNAL_DIGIT_SEPARATOR
        | FRACTION_TRAILING_DIGIT_SEPARATOR
        | FRACTION_CONSECUTIVE_DIGIT_SEPARATOR;
    let mut bytes = bytes_of(&rt, b"1__2", UNFLAGGED | flags);
    assert_part(&rt, &mut bytes, Fraction, &[Next(Some(b'1'))]);
    assert_part(&rt, &mut bytes, Fraction, &[Peek(Some(b'2'))]);
    assert_part(&rt, &mut bytes, Whole, &[MoveTo(1)]);
    let mut view = take(&mut bytes, Integer, 1).expect(&rt, "a view");
    assert!(rt; view.buffer_length() == 2);
    assert_part(&rt, &mut view, Whole, &[Cursor(1)]);
    assert_part(&rt, &mut view, Fraction, &[Peek(None), Cursor(2)]);
}

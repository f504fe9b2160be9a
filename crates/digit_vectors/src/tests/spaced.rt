//! Tests of an iterator that is none of the library's own: it has every call that those have.

use super::laws::has_laws;
use super::steps::Step::{
    Buffer, Count, Cursor, First, FirstIs, FirstIsCased, FirstIsUncased, Increment, IsAtEnd,
    IsConsumed, IsContiguous, IsDigit, Length, MoveTo, Next, Peek, PeekIs, PeekIsCased,
    PeekIsUncased, PeekU32, PeekU64, ReadIf, ReadIfCased, ReadIfEqual, ReadIfUncased, ReadIfValue,
    Rest, SkipZeros, TryRead,
};
use super::steps::{Step, assert_steps};
use crate::spaced::{Spaced, items_are_kept, kept_count};
use lexical_digits::iterator::IterBodies;
use std::process::Abort;

/// Makes these calls on the start of a text.
fn assert_spaced(rt: &impl Abort, text: &[u8], steps: &[Step]) {
    assert_steps(rt, &mut Spaced::new(text), steps);
}

#[test]
fn spaced_zeros_are_read_past_spaces(rt: HostRuntime) {
    assert_spaced(&rt, b"0 0 5", &[SkipZeros(2), Cursor(4), Count(2)]);
}

#[test]
fn spaced_keeps_a_byte_that_a_test_refuses(rt: HostRuntime) {
    let steps = [ReadIf(false, Some(b'a'), None), Cursor(1)];
    assert_spaced(&rt, b" ab", &steps);
}

#[test]
fn spaced_calls_no_test_at_the_end(rt: HostRuntime) {
    let steps = [ReadIf(false, None, None), Cursor(2), IsConsumed(true)];
    assert_spaced(&rt, b"  ", &steps);
}

#[test]
fn spaced_peeks_at_what_comes_next(rt: HostRuntime) {
    let steps = [
        Peek(Some(b'1')),
        Peek(Some(b'1')),
        Next(Some(b'1')),
        Next(Some(b'2')),
        Next(None),
        Count(2),
        Cursor(3),
    ];
    assert_spaced(&rt, b"1 2", &steps);
}

#[test]
fn spaced_has_the_laws(rt: HostRuntime) {
    assert!(rt; has_laws(&mut Spaced::new(b" 1 x")));
}

#[test]
fn spaced_has_the_calls_of_a_cursor(rt: HostRuntime) {
    let steps = [
        Buffer(b"a 1 23"),
        Length(6),
        IsContiguous(false),
        PeekU32(None),
        PeekU64(None),
        FirstIsCased(b'a', true),
        FirstIsUncased(b'A', true),
        FirstIs(b'A', true, false),
    ];
    assert_spaced(&rt, b"a 1 23", &steps);
    let mut spaced = Spaced::new(b"a 1 23");
    spaced.step_unchecked();
    let steps = [
        Rest(b" 1 23"),
        First(Some(b' ')),
        MoveTo(6),
        IsAtEnd(true),
        First(None),
    ];
    assert_steps(&rt, &mut spaced, &steps);
}

#[test]
fn spaced_has_the_calls_of_a_reader(rt: HostRuntime) {
    let steps = [
        PeekIsCased(b'a', true),
        PeekIsUncased(b'A', true),
        PeekIs(b'A', true, false),
        TryRead(Some(b'a')),
        ReadIfCased(b'b', None),
        ReadIfUncased(b'b', Some(b'B')),
        Count(0),
        SkipZeros(1),
        IsDigit(b'7', true),
        IsDigit(b'a', false),
        ReadIfEqual(b'8', None),
        ReadIfValue(b'7', true, Some(b'7')),
        Count(1),
        Increment,
        Count(2),
        IsConsumed(false),
        Next(Some(b'.')),
        Count(2),
        IsConsumed(true),
    ];
    assert_spaced(&rt, b" a B 0 7 .", &steps);
}

#[test]
fn spaced_gives_the_bytes_that_are_no_spaces(rt: HostRuntime) {
    let mut spaced = Spaced::new(b" 1  x ");
    items_are_kept(&spaced);
    let steps = [Next(Some(b'1')), Next(Some(b'x')), Next(None), Count(1)];
    assert_steps(&rt, &mut spaced, &steps);
    assert!(rt; kept_count(b" 1  x ") == 2);
    assert!(rt; kept_count(b"   ") == 0);
}

//! Lists of calls, each with its answer.

use super::bytes_of;
use lexical_digits::iterator::{DigitsBodies, DigitsIter, Iter, IterBodies};
use lexical_digits::skip::Bytes;
use std::process::Abort;
use std::str::from_utf8;

/// What is called: the `Bytes` itself, or the iterator of a component.
#[derive(Clone, Copy)]
pub enum Part {
    Whole,
    Integer,
    Fraction,
    Exponent,
    Special,
}

pub static PARTS: [Part; 5] = [
    Part::Whole,
    Part::Integer,
    Part::Fraction,
    Part::Exponent,
    Part::Special,
];

/// The parts that are iterators.
pub static ITERATORS: [Part; 4] = [Part::Integer, Part::Fraction, Part::Exponent, Part::Special];

/// A call: its arguments, then its answer. `Cursor` and `Count` ask for the cursor and the count.
/// The calls up to `PeekU64` are those that every part has; the others are those of the iterators.
#[derive(Clone, Copy, Debug)]
pub enum Step<'s> {
    Cursor(usize),
    Count(usize),
    MoveTo(usize),
    /// `step_by_unchecked`, of a contiguous part.
    StepBy(usize),
    /// `step_unchecked`, of a contiguous part.
    StepOne,
    Buffer(&'s [u8]),
    Length(usize),
    Rest(&'s [u8]),
    IsAtEnd(bool),
    IsContiguous(bool),
    First(Option<u8>),
    FirstIsCased(u8, bool),
    FirstIsUncased(u8, bool),
    FirstIs(u8, bool, bool),
    PeekU32(Option<u32>),
    PeekU64(Option<u64>),
    Next(Option<u8>),
    Peek(Option<u8>),
    PeekIsCased(u8, bool),
    PeekIsUncased(u8, bool),
    PeekIs(u8, bool, bool),
    TryRead(Option<u8>),
    ReadIfCased(u8, Option<u8>),
    ReadIfUncased(u8, Option<u8>),
    ReadIfValue(u8, bool, Option<u8>),
    /// `read_if`, of a test that asks for this byte.
    ReadIfEqual(u8, Option<u8>),
    /// `read_if`, of a test that always answers so: the byte that it is called with, once, or
    /// `None` if it is not called, and what is read.
    ReadIf(bool, Option<u8>, Option<u8>),
    SkipZeros(usize),
    Increment,
    IsConsumed(bool),
    IsDigit(u8, bool),
    SizeHint((usize, Option<usize>)),
    /// `next` yields these bytes and no more, and then the count is this.
    Drains(&'s [u8], usize),
}

/// Sets the cursor, if the buffer has that position.
fn moves_to<'a, D: Iter<'a>>(iter: &mut D, index: usize) -> bool {
    let has = index <= iter.buffer_length();
    if has {
        iter.set_cursor(index);
    }
    has
}

/// Steps over this many bytes, if they are left and the part is contiguous.
fn steps_by<'a, D: Iter<'a>>(iter: &mut D, count: usize) -> bool {
    let may = iter.is_contiguous() && count <= iter.as_slice().len();
    if may {
        iter.step_by_unchecked(count);
    }
    may
}

/// Steps over one byte, if one is left and the part is contiguous.
fn steps_one<'a, D: Iter<'a>>(iter: &mut D) -> bool {
    let may = iter.is_contiguous() && !iter.is_buffer_empty();
    if may {
        iter.step_unchecked();
    }
    may
}

/// Makes a call that every part has: whether it answers so.
fn is_cursor_step<'a, D: Iter<'a>>(iter: &mut D, step: Step) -> bool {
    match step {
        Step::Cursor(cursor) => iter.cursor() == cursor,
        Step::Count(count) => iter.current_count() == count,
        Step::MoveTo(index) => moves_to(iter, index),
        Step::StepBy(count) => steps_by(iter, count),
        Step::StepOne => steps_one(iter),
        Step::Buffer(bytes) => iter.get_buffer() == bytes,
        Step::Length(length) => iter.buffer_length() == length,
        Step::Rest(bytes) => iter.as_slice() == bytes,
        Step::IsAtEnd(is) => iter.is_buffer_empty() == is,
        Step::IsContiguous(is) => iter.is_contiguous() == is,
        Step::First(byte) => iter.first().copied() == byte,
        Step::FirstIsCased(value, is) => iter.first_is_cased(value) == is,
        Step::FirstIsUncased(value, is) => iter.first_is_uncased(value) == is,
        Step::FirstIs(value, is_cased, is) => iter.first_is(value, is_cased) == is,
        Step::PeekU32(number) => iter.peek_u32() == number,
        Step::PeekU64(number) => iter.peek_u64() == number,
        _ => false,
    }
}

/// Calls `read_if` with a test that always answers so.
fn is_read_if<'a, D: DigitsIter<'a>>(
    iter: &mut D,
    answer: bool,
    asked: Option<u8>,
    read: Option<u8>,
) -> bool {
    let mut last = None;
    let mut calls = 0u32;
    let byte = iter.read_if(|byte| {
        last = Some(byte);
        calls = calls.saturating_add(1);
        answer
    });
    byte == read && last == asked && calls == u32::from(asked.is_some())
}

/// Counts one digit more.
fn increments<'a, D: DigitsIter<'a>>(iter: &mut D) -> bool {
    iter.increment_count();
    true
}

/// Calls `next`: whether it yields this byte.
fn is_next<'a, D: DigitsIter<'a>>(iter: &mut D, byte: Option<u8>) -> bool {
    iter.next().copied() == byte
}

/// Calls `next` until there is no byte: whether it yields these bytes, and then has this count.
fn is_drain<'a, D: DigitsIter<'a>>(iter: &mut D, bytes: &[u8], count: usize) -> bool {
    for byte in bytes {
        if !is_next(iter, Some(*byte)) {
            return false;
        }
    }
    is_next(iter, None) && iter.current_count() == count && iter.is_buffer_empty()
}

/// Makes a call: whether it answers so.
fn is_step<'a, D: DigitsIter<'a>>(iter: &mut D, step: Step) -> bool {
    match step {
        Step::Next(byte) => is_next(iter, byte),
        Step::Peek(byte) => iter.peek().copied() == byte,
        Step::PeekIsCased(value, is) => iter.peek_is_cased(value) == is,
        Step::PeekIsUncased(value, is) => iter.peek_is_uncased(value) == is,
        Step::PeekIs(value, is_cased, is) => iter.peek_is(value, is_cased) == is,
        Step::TryRead(byte) => iter.try_read().copied() == byte,
        Step::ReadIfCased(value, read) => iter.read_if_value_cased(value) == read,
        Step::ReadIfUncased(value, read) => iter.read_if_value_uncased(value) == read,
        Step::ReadIfValue(value, is_cased, read) => iter.read_if_value(value, is_cased) == read,
        Step::ReadIfEqual(value, read) => iter.read_if(|byte| byte == value) == read,
        Step::ReadIf(answer, asked, read) => is_read_if(iter, answer, asked, read),
        Step::SkipZeros(zeros) => iter.skip_zeros() == zeros,
        Step::Increment => increments(iter),
        Step::IsConsumed(is) => iter.is_consumed() == is,
        Step::IsDigit(value, is) => iter.is_digit(value) == is,
        Step::SizeHint(hint) => iter.size_hint() == hint,
        Step::Drains(bytes, count) => is_drain(iter, bytes, count),
        _ => is_cursor_step(iter, step),
    }
}

/// Makes these calls on an iterator, up to the first that answers otherwise: its index.
fn wrong_step<'a, D: DigitsIter<'a>>(iter: &mut D, steps: &[Step]) -> Option<usize> {
    for (at, step) in steps.iter().enumerate() {
        if !is_step(iter, *step) {
            return Some(at);
        }
    }
    None
}

/// The same on a part that is no iterator.
fn wrong_cursor_step<'a, D: Iter<'a>>(iter: &mut D, steps: &[Step]) -> Option<usize> {
    for (at, step) in steps.iter().enumerate() {
        if !is_cursor_step(iter, *step) {
            return Some(at);
        }
    }
    None
}

/// The same on one part of a `Bytes`.
fn wrong_step_of(bytes: &mut Bytes, part: Part, steps: &[Step]) -> Option<usize> {
    match part {
        Part::Whole => wrong_cursor_step(bytes, steps),
        Part::Integer => wrong_step(&mut bytes.integer_iter(), steps),
        Part::Fraction => wrong_step(&mut bytes.fraction_iter(), steps),
        Part::Exponent => wrong_step(&mut bytes.exponent_iter(), steps),
        Part::Special => wrong_step(&mut bytes.special_iter(), steps),
    }
}

/// Fails with the text, the number of a wrong step, what was wanted, and what it left.
fn assert_none<'a, I: Iter<'a>>(rt: &impl Abort, iter: &I, steps: &[Step], wrong: Option<usize>) {
    let Some(at) = wrong else {
        return;
    };
    let (text, cursor, count) = (iter.get_buffer(), iter.cursor(), iter.current_count());
    let (text, wanted) = (from_utf8(text), steps.get(at));
    assert!(rt;
        false,
        "{text:?}, step {at}: not {wanted:?}; cursor {cursor}, count {count}"
    );
}

/// Makes these calls on an iterator.
pub fn assert_steps<'a, D: DigitsIter<'a>>(rt: &impl Abort, iter: &mut D, steps: &[Step]) {
    let wrong = wrong_step(iter, steps);
    assert_none(rt, iter, steps, wrong);
}

/// Makes these calls on one part of a `Bytes`.
pub fn assert_part(rt: &impl Abort, bytes: &mut Bytes, part: Part, steps: &[Step]) {
    let wrong = wrong_step_of(bytes, part, steps);
    assert_none(rt, bytes, steps, wrong);
}

/// Makes these calls on one part of a text.
pub fn assert_goes(rt: &impl Abort, word: u128, text: &[u8], part: Part, steps: &[Step]) {
    let mut bytes = bytes_of(rt, text, word);
    let wrong = wrong_step_of(&mut bytes, part, steps);
    assert_none(rt, &bytes, steps, wrong);
}

/// Makes these calls in turn on the parts of a text, each on an iterator of its own.
pub fn assert_turns(rt: &impl Abort, word: u128, text: &[u8], turns: &[(Part, Step)]) {
    let mut bytes = bytes_of(rt, text, word);
    for (at, (part, step)) in turns.iter().enumerate() {
        let (is_wrong, text) = (
            wrong_step_of(&mut bytes, *part, &[*step]).is_some(),
            from_utf8(text),
        );
        let (cursor, count) = (bytes.cursor(), bytes.current_count());
        assert!(rt;
            !is_wrong,
            "{text:?}, turn {at}: not {step:?}; cursor {cursor}, count {count}"
        );
    }
}

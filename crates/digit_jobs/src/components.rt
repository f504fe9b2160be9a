//! A parser over `Bytes`: numbers of an integer, a fraction and an exponent, under words that are
//! known only at run time, read by iterators, by calls of a component and by lists of calls.

ghost use Rattle.std.specs.Prelude.{IsTrue};
ghost use Rattle.std.specs.Iterator.{IsFinite};
ghost use Rattle.lexical_format.specs.Word.{is_supported};

use super::page::Page;
use super::tally::Tally;
use super::work::Work;
use digit_literals::{
    pass_digits, pass_zeros, read_digits_of, read_digits_up_to, read_first_digits,
};
use digit_script::{Answer, Call, Op, Part, run};
use lexical_digits::iterator::{DigitsBodies, DigitsIter, Iter, IterBodies};
use lexical_digits::skip::{Bytes, Component};
use lexical_format::words::{
    JAVA_LITERAL, JULIA_LITERAL, OCAML_LITERAL, PERL_LITERAL, PYTHON_LITERAL, RUST_LITERAL,
    SWIFT_LITERAL,
};
use lexical_format::{
    ALL_FLAGS, DECIMAL, DigitSeparatorFlags, NO_FLAGS, NumberFormatBuilder, STANDARD, is_supported,
};
use std::alloc::{AllocError, Global};

/// How many bytes a document has, about.
const SIZE: usize = 262_144;

/// In a revision the byte after a number, which is no part of it, becomes one of these.
const OTHERS: [u8; 16] = *b"_-.x_-.xyz_-.xyz";

/// The calls of a list.
const CALLS: [Call; 12] = [
    Call {
        part: Part::Integer,
        op: Op::SkipZeros,
    },
    Call {
        part: Part::Integer,
        op: Op::Peek,
    },
    Call {
        part: Part::Integer,
        op: Op::Next,
    },
    Call {
        part: Part::Integer,
        op: Op::Next,
    },
    Call {
        part: Part::Bytes,
        op: Op::CurrentCount,
    },
    Call {
        part: Part::Integer,
        op: Op::ReadIfValueCased(b'.'),
    },
    Call {
        part: Part::Fraction,
        op: Op::Next,
    },
    Call {
        part: Part::Fraction,
        op: Op::Next,
    },
    Call {
        part: Part::Fraction,
        op: Op::PeekIsUncased(b'e'),
    },
    Call {
        part: Part::Exponent,
        op: Op::TryRead,
    },
    Call {
        part: Part::Exponent,
        op: Op::IsConsumed,
    },
    Call {
        part: Part::Bytes,
        op: Op::Cursor,
    },
];

/// Documents of numbers with separators, the words by turns.
pub struct Components;

impl Work for Components {
    const REVISIONS: u32 = 23;

    fn write(page: &mut Page) -> Result<(), AllocError> {
        let number = page.number % 12;
        page.byte(b'A' + number as u8)?;
        for _ in 0..SIZE {
            if page.len() >= SIZE {
                break;
            }
            write_number(page, number)?;
        }
        Ok(())
    }

    fn read(alloc: Global, text: &[u8], tally: &mut Tally) -> Result<(), AllocError> {
        let Some((first, rest)) = text.split_first() else {
            return Ok(());
        };
        let word = run_time_word(first.wrapping_sub(b'A'));
        read_fields(alloc, rest, word, tally)
    }
}

/// Adds separators: usually one, in some cases a run of them.
fn write_separators(page: &mut Page) -> Result<(), AllocError> {
    let count = if page.random.one_in(12) {
        page.random.between(2, 6)
    } else {
        1
    };
    page.separators(count)
}

/// Adds an integer in groups of three, if the word with a number has separators.
fn write_groups(page: &mut Page, number: u64) -> Result<(), AllocError> {
    page.some_digits(1, 3)?;
    let groups = page.random.between(1, 4);
    for _ in 0..groups {
        if number > 0 {
            write_separators(page)?;
        }
        page.any_digits(3)?;
    }
    Ok(())
}

/// Adds digits, with separators in some cases.
fn write_digits(page: &mut Page, number: u64) -> Result<(), AllocError> {
    if page.random.one_in(10) {
        let zeros = page.random.between(1, 5);
        page.zeros(zeros)?;
    }
    if page.random.one_in(3) {
        write_groups(page, number)
    } else {
        page.some_digits(1, 8)
    }
}

/// Adds a number, and what separates it from the next.
fn write_number(page: &mut Page, number: u64) -> Result<(), AllocError> {
    write_digits(page, number)?;
    if page.random.below(4) > 0 {
        page.byte(b'.')?;
        write_digits(page, number)?;
    }
    if page.random.below(3) > 0 {
        page.byte(b'e')?;
        page.maybe(b'-', 4)?;
        page.some_digits(1, 3)?;
    }
    if page.random.one_in(60) {
        let start = page.len();
        page.one_of(&["_", "x", "-", "..", "99999999999999999999999"])?;
        page.free(start, OTHERS)?;
    }
    page.one_of(&[",", " "])
}

/// The word in which each component has these flags.
fn word_of(flags: DigitSeparatorFlags) -> u128
    ensures { IsTrue (is_supported result) }
{
    let word = NumberFormatBuilder {
        digit_separator: b'_',
        integer: flags,
        fraction: flags,
        exponent: flags,
        ..DECIMAL
    }
    .build();
    if is_supported(word) { word } else { STANDARD }
}

/// A word made of flags, by its number.
fn made_word(number: u8) -> u128
    ensures { IsTrue (is_supported result) }
{
    word_of(DigitSeparatorFlags {
        internal: true,
        leading: number != 10,
        trailing: number != 9,
        ..NO_FLAGS
    })
}

/// A word by its number, which no compiler knows.
#[inline(never)]
fn run_time_word(number: u8) -> u128
    ensures { IsTrue (is_supported result) }
{
    match number {
        0 => STANDARD,
        1 => PYTHON_LITERAL,
        2 => JAVA_LITERAL,
        3 => RUST_LITERAL,
        4 => SWIFT_LITERAL,
        5 => PERL_LITERAL,
        6 => OCAML_LITERAL,
        7 => JULIA_LITERAL,
        8..=10 => made_word(number),
        _ => word_of(ALL_FLAGS),
    }
}

/// The bits of a byte, or of none.
#[inline(always)]
fn byte_bits(byte: Option<u8>) -> usize {
    match byte {
        Some(byte) => usize::from(byte),
        None => 256,
    }
}

/// Folds a number and the byte after it, if there is one. Answers that byte, or 0.
#[inline(always)]
fn fold_both(number: u64, byte: Option<u8>, tally: &mut Tally) -> u8 {
    tally.fold_with(number, byte_bits(byte));
    byte.unwrap_or(0)
}

/// Folds the three marks of a number, each of which may be missing.
#[inline(always)]
fn fold_marks(point: Option<u8>, mark: Option<u8>, sign: Option<u8>, tally: &mut Tally) {
    let upper = (byte_bits(point) as u64) << 16;
    tally.fold_with(upper ^ byte_bits(mark) as u64, byte_bits(sign));
}

/// The number with one byte more.
#[inline(always)]
fn with_byte(number: u64, byte: u8) -> u64 {
    number.wrapping_mul(10).wrapping_add(u64::from(byte))
}

/// The number with a byte more that was seen and then taken.
#[inline(always)]
fn with_both(number: u64, seen: u8, taken: Option<u8>) -> u64 {
    with_byte(number, seen).wrapping_add(u64::from(taken.unwrap_or(0)) << 8)
}

/// Folds the number of the digits that come next by an iterator, and the byte after them, which is
/// taken too. Answers that byte.
#[inline(always)]
fn leading<'a, I: DigitsIter<'a>>(iter: &mut I, tally: &mut Tally) -> u8
    requires ends { IsFinite (I.remaining iter.old) }
{
    let mut number = 0u64;
    while let Some(byte) = iter.next() {
        if !iter.is_digit(*byte) {
            return fold_both(number, Some(*byte), tally);
        }
        number = with_byte(number, *byte);
    }
    fold_both(number, None, tally)
}

/// Reads the number that a text begins with, each component by `next` of its iterator. Answers
/// where it ends, with the byte after it.
fn read_by_iterators(text: &[u8], word: u128, tally: &mut Tally) -> usize
    requires { IsTrue (is_supported word) }
{
    let mut bytes = Bytes::new(text, word);
    let mut last = leading(&mut bytes.integer_iter(), tally);
    if last == b'.' {
        last = leading(&mut bytes.fraction_iter(), tally);
    }
    if last == b'e' {
        last = leading(&mut bytes.exponent_iter(), tally);
    }
    if last == b'-' {
        leading(&mut bytes.exponent_iter(), tally);
    }
    tally.read(bytes.current_count() as u64, bytes.cursor());
    bytes.cursor()
}

/// Folds the number of the digits that come next of a component, and the byte after them, which is
/// taken too. Answers that byte.
#[inline(always)]
fn leading_of(bytes: &mut Bytes, component: Component, tally: &mut Tally) -> u8 {
    let mut number = 0u64;
    for _ in 0..bytes.buffer_length() {
        let Some(byte) = bytes.next_of(component) else {
            break;
        };
        if !bytes.is_digit_of(component, *byte) {
            return fold_both(number, Some(*byte), tally);
        }
        number = with_byte(number, *byte);
    }
    fold_both(number, None, tally)
}

/// The same as [`read_by_iterators`], by `next_of`.
fn read_by_next_of(text: &[u8], word: u128, tally: &mut Tally) -> usize
    requires { IsTrue (is_supported word) }
{
    let mut bytes = Bytes::new(text, word);
    let mut last = leading_of(&mut bytes, Component::Integer, tally);
    if last == b'.' {
        last = leading_of(&mut bytes, Component::Fraction, tally);
    }
    if last == b'e' {
        last = leading_of(&mut bytes, Component::Exponent, tally);
    }
    if last == b'-' {
        leading_of(&mut bytes, Component::Exponent, tally);
    }
    tally.read(bytes.current_count() as u64, bytes.cursor());
    bytes.cursor()
}

/// Folds how many zeros come next by an iterator, the number of the digits after them, and the byte
/// after those, which isn't taken.
#[inline(always)]
fn peeked<'a, I: DigitsIter<'a>>(iter: &mut I, tally: &mut Tally) {
    tally.fold(iter.skip_zeros() as u64);
    let mut number = 0u64;
    for _ in 0..iter.buffer_length() {
        let Some(byte) = iter.peek() else {
            break;
        };
        if !iter.is_digit(*byte) {
            fold_both(number, Some(*byte), tally);
            return;
        }
        number = with_both(number, *byte, iter.next().copied());
    }
    fold_both(number, None, tally);
}

/// Reads the number that a text begins with, each component by `skip_zeros`, `peek` and `next` of
/// its iterator, and the marks by `read_if_value`. Answers where it ends.
fn read_by_peeks(text: &[u8], word: u128, tally: &mut Tally) -> usize
    requires { IsTrue (is_supported word) }
{
    let mut bytes = Bytes::new(text, word);
    peeked(&mut bytes.integer_iter(), tally);
    let point = bytes.integer_iter().read_if_value_cased(b'.');
    if point.is_some() {
        peeked(&mut bytes.fraction_iter(), tally);
    }
    let mark = bytes.fraction_iter().read_if_value(b'e', false);
    let mut sign = None;
    if mark.is_some() {
        sign = bytes.exponent_iter().read_if_value_cased(b'-');
        peeked(&mut bytes.exponent_iter(), tally);
    }
    fold_marks(point, mark, sign, tally);
    tally.read(bytes.current_count() as u64, bytes.cursor());
    bytes.cursor()
}

/// Folds the number of the digits that come next of a component, by `peek_of`, and the byte after
/// them, which isn't taken.
#[inline(always)]
fn peeked_of(bytes: &mut Bytes, component: Component, tally: &mut Tally) {
    let mut number = 0u64;
    for _ in 0..bytes.buffer_length() {
        let Some(byte) = bytes.peek_of(component) else {
            break;
        };
        if !bytes.is_digit_of(component, *byte) {
            fold_both(number, Some(*byte), tally);
            return;
        }
        number = with_both(number, *byte, bytes.next_of(component).copied());
    }
    fold_both(number, None, tally);
}

/// Passes and folds a point, if it is here. Answers whether it was.
#[inline(always)]
fn pass_point(bytes: &mut Bytes, tally: &mut Tally) -> bool {
    if !bytes.first_is_cased(b'.') {
        return false;
    }
    let point = bytes.next_of(Component::Integer).copied();
    tally.fold(byte_bits(point) as u64);
    true
}

/// Passes and folds the mark of an exponent and a minus after it. Answers whether the mark was
/// there.
#[inline(always)]
fn pass_mark(bytes: &mut Bytes, tally: &mut Tally) -> bool {
    if !bytes.first_is_uncased(b'e') {
        return false;
    }
    let mark = bytes.next_of(Component::Fraction).copied();
    let mut sign = None;
    if bytes.first_is_cased(b'-') {
        sign = bytes.next_of(Component::Exponent).copied();
    }
    tally.fold_with(byte_bits(mark) as u64, byte_bits(sign));
    true
}

/// Reads the number that comes next, by `peek_of`.
#[inline(never)]
fn read_by_peek_of(bytes: &mut Bytes, tally: &mut Tally) {
    peeked_of(bytes, Component::Integer, tally);
    if pass_point(bytes, tally) {
        peeked_of(bytes, Component::Fraction, tally);
    }
    if pass_mark(bytes, tally) {
        peeked_of(bytes, Component::Exponent, tally);
    }
    tally.read(bytes.current_count() as u64, bytes.cursor());
}

/// The value of the digits of a component that come next, after the digits of a value, which is
/// folded with their count. Passes and folds those with which it is too large.
#[inline(always)]
fn value_of(bytes: &mut Bytes, component: Component, before: u64, tally: &mut Tally) -> u64 {
    match read_digits_of(bytes, component, before) {
        Ok(digits) => {
            tally.fold_with(digits.value, digits.count);
            digits.value
        }
        Err(error) => {
            tally.refuse(1, error.at);
            tally.fold_with(error.value, error.count);
            tally.fold(pass_digits(bytes, component) as u64);
            error.value
        }
    }
}

/// Reads the number that comes next, each component by `read_digits_of`.
#[inline(never)]
fn read_by_values(bytes: &mut Bytes, tally: &mut Tally) {
    let integer = value_of(bytes, Component::Integer, 0, tally);
    if pass_point(bytes, tally) {
        value_of(bytes, Component::Fraction, integer, tally);
    }
    if pass_mark(bytes, tally) {
        value_of(bytes, Component::Exponent, 0, tally);
    }
    tally.read(bytes.current_count() as u64, bytes.cursor());
}

/// Reads the number that comes next: its integer's first digits after zeros, how many digits the
/// fraction has, and the exponent up to 400.
#[inline(never)]
fn read_by_parts(bytes: &mut Bytes, tally: &mut Tally) {
    tally.fold(pass_zeros(bytes, Component::Integer) as u64);
    let first = read_first_digits(bytes, Component::Integer, 0, u64::MAX);
    tally.fold(first.value);
    tally.fold_with(first.count as u64, first.dropped);
    if pass_point(bytes, tally) {
        tally.fold(pass_digits(bytes, Component::Fraction) as u64);
    }
    if pass_mark(bytes, tally) {
        match read_digits_up_to(bytes, Component::Exponent, 0, 400) {
            Ok(digits) => tally.fold_with(digits.value, digits.count),
            Err(error) => {
                tally.refuse(2, error.at);
                tally.fold_with(error.value, error.count);
            }
        }
    }
    tally.read(bytes.current_count() as u64, bytes.cursor());
}

/// Folds the answer of a call: its kind, and all that it has.
fn fold_answer(answer: Answer, tally: &mut Tally) {
    let (kind, first, second) = match answer {
        Answer::Span(start, end) => (1, start as u64, end as u64),
        Answer::Count(count) => (2, count as u64, 0),
        Answer::Flag(flag) => (3, u64::from(flag), 0),
        Answer::Done => (4, 0, 0),
        Answer::Byte(Some(byte)) => (5, u64::from(byte), 0),
        Answer::Byte(None) => (6, 0, 0),
        Answer::Four(Some(number)) => (7, u64::from(number), 0),
        Answer::Four(None) => (8, 0, 0),
        Answer::Eight(Some(number)) => (9, number, 0),
        Answer::Eight(None) => (10, 0, 0),
        Answer::View(Some((length, cursor))) => (11, length as u64, cursor as u64),
        Answer::View(None) => (12, 0, 0),
        Answer::Refused => (13, 0, 0),
    };
    tally.fold(kind);
    tally.fold(first);
    tally.fold(second);
}

/// Makes the calls of a list.
#[inline(never)]
fn read_by_calls(alloc: Global, bytes: &mut Bytes, tally: &mut Tally) -> Result<(), AllocError> {
    let answers = run(alloc, bytes, &CALLS)?;
    for answer in &answers {
        fold_answer(*answer, tally);
    }
    tally.read(bytes.current_count() as u64, bytes.cursor());
    Ok(())
}

/// Reads the number at the cursor by a `Bytes` of its own, and moves the cursor past it.
#[inline(always)]
fn read_apart(bytes: &mut Bytes, word: u128, way: usize, tally: &mut Tally)
    requires { IsTrue (is_supported word) }
{
    let rest = bytes.as_slice();
    let count = match way {
        0 | 1 => read_by_iterators(rest, word, tally),
        2 => read_by_next_of(rest, word, tally),
        _ => read_by_peeks(rest, word, tally),
    };
    let end = bytes.cursor().saturating_add(count);
    bytes.set_cursor(end.min(bytes.buffer_length()));
}

/// Reads the number at the cursor in one of the ways, by its place among the numbers.
#[inline(always)]
fn read_field(
    alloc: Global,
    bytes: &mut Bytes,
    word: u128,
    place: usize,
    tally: &mut Tally,
) -> Result<(), AllocError>
    requires { IsTrue (is_supported word) }
{
    bytes.clear_counts();
    if place % 50 == 0 {
        return read_by_calls(alloc, bytes, tally);
    }
    match place % 8 {
        way @ 0..=3 => read_apart(bytes, word, way, tally),
        4 => read_by_peek_of(bytes, tally),
        5 | 6 => read_by_values(bytes, tally),
        _ => read_by_parts(bytes, tally),
    }
    Ok(())
}

/// Reads all numbers of a text.
fn read_fields(alloc: Global, text: &[u8], word: u128, tally: &mut Tally) -> Result<(), AllocError>
    requires { IsTrue (is_supported word) }
{
    let mut bytes = Bytes::new(text, word);
    for place in 0..text.len() {
        if bytes.is_buffer_empty() {
            break;
        }
        read_field(alloc, &mut bytes, word, place, tally)?;
        if bytes.first_is_cased(b',') || bytes.first_is_cased(b' ') {
            let comma = bytes.next_of(Component::Special).copied();
            tally.fold(byte_bits(comma) as u64);
        }
    }
    Ok(())
}

//! Random lists of calls over all five parts. Each answer, in a list and by itself, and each cursor
//! and count that a call leaves are compared with `table`, the call table as a slow program.

use super::bytes_of;
use super::scripts::PARTS;
use super::table::{Format, Table};
use digit_script::{Answer, ByteSet, Call, Op, Part, run};
use lexical_digits::iterator::Iter;
use lexical_digits::skip::{Bytes, Component};
use lexical_format::{
    EXPONENT_INTERNAL_DIGIT_SEPARATOR, EXPONENT_LEADING_DIGIT_SEPARATOR,
    FRACTION_CONSECUTIVE_DIGIT_SEPARATOR, FRACTION_LEADING_DIGIT_SEPARATOR,
    INTEGER_CONSECUTIVE_DIGIT_SEPARATOR, INTEGER_DIGIT_SEPARATOR_FLAG_MASK,
    INTEGER_INTERNAL_DIGIT_SEPARATOR, INTEGER_TRAILING_DIGIT_SEPARATOR, SPECIAL_DIGIT_SEPARATOR,
};
use std::alloc::{AllocError, Global};
use std::process::Abort;
use std::test::Fail;

/// Runs of separators, written `_`, with a digit, another byte or an end on either side.
const PATTERN: &[u8] = b"__1__00_._10__0___0_a__zZ_0__0_.__.+_1__";

/// Arguments of calls: digits, letters, signs and separators.
static VALUES: [u8; 10] = [b'0', b'1', b'a', b'A', b'Z', b'g', b'_', b'+', b'.', 0xff];

/// Integer internal, trailing and consecutive; fraction leading; exponent none; and special.
const MIXED: u128 = INTEGER_INTERNAL_DIGIT_SEPARATOR
    | INTEGER_TRAILING_DIGIT_SEPARATOR
    | INTEGER_CONSECUTIVE_DIGIT_SEPARATOR
    | FRACTION_LEADING_DIGIT_SEPARATOR
    | SPECIAL_DIGIT_SEPARATOR;

/// All of integer, fraction leading and consecutive, exponent internal and leading, no special.
const OTHERS: u128 = INTEGER_DIGIT_SEPARATOR_FLAG_MASK
    | FRACTION_LEADING_DIGIT_SEPARATOR
    | FRACTION_CONSECUTIVE_DIGIT_SEPARATOR
    | EXPONENT_INTERNAL_DIGIT_SEPARATOR
    | EXPONENT_LEADING_DIGIT_SEPARATOR;

/// How many calls a list has.
const CALLS: usize = 1000;

/// A sequence of numbers that a seed fixes.
#[derive(Drop)]
struct Numbers {
    last: u64,
}

impl Numbers {
    /// The next number, below 2^31.
    fn next(&mut self) -> usize {
        let mixed = self.last.wrapping_mul(6364136223846793005);
        self.last = mixed.wrapping_add(1442695040888963407);
        (self.last >> 33) as usize
    }

    fn value(&mut self) -> u8 {
        VALUES[self.next() % 10]
    }

    fn flag(&mut self) -> bool {
        self.next() % 2 == 1
    }

    /// 124 bits.
    fn bits(&mut self) -> u128 {
        let mut bits = 0;
        for _ in 0..4 {
            bits = (bits << 31) | self.next() as u128;
        }
        bits
    }

    fn set(&mut self) -> ByteSet {
        ByteSet {
            low: self.bits(),
            high: self.bits(),
        }
    }

    /// A call that every part has.
    fn shared_op(&mut self) -> Op {
        match self.next() % 17 {
            0 => Op::AsSlice,
            1 => Op::GetBuffer,
            2 => Op::BufferLength,
            3 => Op::Cursor,
            4 => Op::CurrentCount,
            5 => Op::IsBufferEmpty,
            6 => Op::IsContiguous,
            7 | 8 => Op::Step,
            9 => Op::StepBy(self.next() % 4),
            10 => Op::First,
            11 => Op::FirstIsCased(self.value()),
            12 => Op::FirstIsUncased(self.value()),
            13 => Op::FirstIs(self.value(), self.flag()),
            14 => Op::PeekU32,
            15 => Op::PeekU64,
            _ => Op::StepBy(usize::MAX),
        }
    }

    /// A call that only the iterators have.
    fn read_op(&mut self) -> Op {
        match self.next() % 21 {
            0 => Op::IsConsumed,
            1 => Op::IncrementCount,
            2 | 3 => Op::Peek,
            4 => Op::TryRead,
            5 | 6 => Op::Next,
            7 => Op::PeekIsCased(self.value()),
            8 => Op::PeekIsUncased(self.value()),
            9 => Op::PeekIs(self.value(), self.flag()),
            10 => Op::ReadIfEqual(self.value()),
            11 => Op::ReadIfNever,
            12 => Op::ReadIfValueCased(self.value()),
            13 => Op::ReadIfValueUncased(self.value()),
            14 => Op::ReadIfValue(self.value(), self.flag()),
            15 => Op::SkipZeros,
            16 => Op::IsDigit(self.value()),
            17 => Op::IsSign(self.value()),
            18 => Op::IsDigitSeparator(self.value()),
            19 => Op::ReadIf(self.set()),
            _ => Op::TakeN(self.next() % 6),
        }
    }

    /// A call; one in eight sets the cursor, to a position in the text, its end, or one past that.
    fn call(&mut self) -> Call {
        let part = PARTS[self.next() % 5];
        let op = match self.next() % 8 {
            0 => Op::SetCursor(self.next() % (PATTERN.len() + 2)),
            1 | 2 => self.shared_op(),
            _ => self.read_op(),
        };
        Call { part, op }
    }
}

/// A list of calls.
fn random_calls(alloc: Global, seed: u64) -> Result<Vec<Call>, AllocError> {
    let mut numbers = Numbers { last: seed };
    let mut calls = Vec::new(alloc);
    for _ in 0..CALLS {
        calls.push(numbers.call())?;
    }
    Ok(calls)
}

/// The pattern with this separator in place of its own.
fn text_of(alloc: Global, separator: u8) -> Result<Vec<u8>, AllocError> {
    let mut text = Vec::new(alloc);
    for byte in PATTERN {
        text.push(if *byte == b'_' { separator } else { *byte })?;
    }
    Ok(text)
}

/// The answer to a call by itself.
fn answer(alloc: Global, bytes: &mut Bytes, call: Call) -> Option<Answer> {
    let answers = run(alloc, bytes, &[call]).ok()?;
    answers.first().copied()
}

/// Whether the cursor and each count are the table's.
fn is_state(bytes: &Bytes, table: &Table) -> bool {
    bytes.cursor() == table.cursor
        && bytes.current_count() == table.current_count(Part::Bytes)
        && bytes.current_count_of(Component::Integer) == table.current_count(Part::Integer)
        && bytes.current_count_of(Component::Fraction) == table.current_count(Part::Fraction)
        && bytes.current_count_of(Component::Exponent) == table.current_count(Part::Exponent)
        && bytes.current_count_of(Component::Special) == table.current_count(Part::Special)
}

/// The first call that is answered, in its list or by itself, otherwise than by the table, or that
/// leaves another state: its number, from 0, the call, its answer in the list, and the table's.
fn wrong_call(
    alloc: Global,
    bytes: &mut Bytes,
    table: &mut Table,
    calls: &[Call],
    answers: &[Answer],
) -> Option<(usize, Call, Answer, Answer)> {
    for (at, (call, answered)) in calls.iter().zip(answers).enumerate() {
        let wanted = table.answer(*call);
        let is_same = *answered == wanted && answer(alloc, bytes, *call) == Some(wanted);
        if !is_same || !is_state(bytes, table) {
            return Some((at, *call, *answered, wanted));
        }
    }
    None
}

/// Runs a list over the pattern, and then its calls one by one.
fn assert_list(rt: &impl Abort, alloc: Global, format: Format, seed: u64) -> Result<(), Fail> {
    let text = text_of(alloc, format.separator)?;
    let calls = random_calls(alloc, seed)?;
    let answers = run(alloc, &mut bytes_of(rt, &text, format.word()), &calls)?;
    let mut bytes = bytes_of(rt, &text, format.word());
    let mut table = Table::new(&text, format);
    let wrong = wrong_call(alloc, &mut bytes, &mut table, &calls, &answers);
    assert!(rt;
        answers.len() == CALLS && wrong.is_none(),
        "number, call, answer, and what was wanted: {wrong:?}, which leaves {table:?}"
    );
    Ok(())
}

#[test]
fn a_thousand_calls_are_answered_by_the_table(rt: HostRuntime) -> Result<(), Fail> {
    let format = Format {
        radix: 10,
        exponent_radix: 0,
        separator: b'_',
        flags: MIXED,
    };
    assert_list(&rt, rt.alloc(), format, 1)?;
    assert_list(&rt, rt.alloc(), format, 2)
}

/// The radixes of integer and exponent and the separator of hostile words: a byte that is no text,
/// a sign, a letter just past the radix and one far from it, the least and the greatest radix, and
/// no separator at all.
static HOSTILE: [(u8, u8, u8); 9] = [
    (10, 0, 0xff),
    (10, 0, b'+'),
    (16, 0, b'g'),
    (2, 0, b'Z'),
    (2, 0, b'2'),
    (36, 0, b'_'),
    (10, 0, 0),
    (2, 36, b'_'),
    (36, 2, 0xff),
];

#[test]
fn hostile_words_are_answered_by_the_table(rt: HostRuntime) -> Result<(), Fail> {
    for (radix, exponent_radix, separator) in &HOSTILE {
        for flags in [MIXED, OTHERS] {
            let format = Format {
                radix: *radix,
                exponent_radix: *exponent_radix,
                separator: *separator,
                flags,
            };
            assert_list(&rt, rt.alloc(), format, 3)?;
        }
    }
    Ok(())
}

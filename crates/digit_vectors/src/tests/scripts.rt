//! Lists of calls whose answers are known.

use super::{INTERNAL, UNFLAGGED, bytes_of};
use digit_script::{Answer, ByteSet, Call, Op, Part, run};
use lexical_digits::iterator::Iter;
use lexical_digits::skip::Bytes;
use lexical_format::{
    EXPONENT_LEADING_DIGIT_SEPARATOR, FRACTION_TRAILING_DIGIT_SEPARATOR, SPECIAL_DIGIT_SEPARATOR,
};
use std::alloc::Global;
use std::process::Abort;

pub static PARTS: [Part; 5] = [
    Part::Bytes,
    Part::Integer,
    Part::Fraction,
    Part::Exponent,
    Part::Special,
];

/// A text that begins with a refused separator, and calls of which all but the third are refused.
static REFUSALS: [Call; 4] = [
    Call {
        part: Part::Integer,
        op: Op::Step,
    },
    Call {
        part: Part::Integer,
        op: Op::SetCursor(3),
    },
    Call {
        part: Part::Integer,
        op: Op::Next,
    },
    Call {
        part: Part::Bytes,
        op: Op::Peek,
    },
];

/// What those calls answer.
static REFUSED: [Answer; 4] = [
    Answer::Refused,
    Answer::Refused,
    Answer::Byte(Some(b'_')),
    Answer::Refused,
];

/// A list of calls answers this.
fn assert_answers(
    rt: &impl Abort,
    alloc: Global,
    bytes: &mut Bytes,
    calls: &[Call],
    expected: &[Answer],
) {
    let answers = run(alloc, bytes, calls).expect(rt, "memory");
    assert!(rt;
        answers.as_slice() == expected,
        "{calls:?} answer {answers:?}"
    );
}

#[test]
fn a_list_is_answered_call_by_call(rt: HostRuntime) {
    let mut bytes = bytes_of(&rt, b"_5", UNFLAGGED | INTERNAL);
    assert_answers(&rt, rt.alloc(), &mut bytes, &REFUSALS, &REFUSED);
    assert_eq!(rt; bytes.cursor(), 1);
}

#[test]
fn an_empty_list_has_an_empty_answer(rt: HostRuntime) {
    let mut bytes = bytes_of(&rt, b"_5", UNFLAGGED | INTERNAL);
    assert_answers(&rt, rt.alloc(), &mut bytes, &[], &[]);
    assert_eq!(rt; bytes.cursor(), 0);
}

/// Calls on `1_2._3`, what each answers, and the cursor after it. The word has the
/// integer's internal, the fraction's trailing and the special flag.
static STEPS: [(Part, Op, Answer, usize); 17] = [
    (Part::Integer, Op::Next, Answer::Byte(Some(b'1')), 1),
    (Part::Integer, Op::Peek, Answer::Byte(Some(b'2')), 2),
    (Part::Integer, Op::Next, Answer::Byte(Some(b'2')), 3),
    (Part::Bytes, Op::First, Answer::Byte(Some(b'.')), 3),
    (Part::Bytes, Op::Step, Answer::Done, 4),
    (Part::Fraction, Op::Peek, Answer::Byte(Some(b'_')), 4),
    (Part::Fraction, Op::Step, Answer::Refused, 4),
    (Part::Special, Op::Peek, Answer::Byte(Some(b'3')), 5),
    (Part::Special, Op::TakeN(1), Answer::Refused, 5),
    (Part::Fraction, Op::Next, Answer::Byte(Some(b'3')), 6),
    (Part::Fraction, Op::IsConsumed, Answer::Flag(true), 6),
    (Part::Bytes, Op::CurrentCount, Answer::Count(3), 6),
    (Part::Integer, Op::CurrentCount, Answer::Count(2), 6),
    (Part::Fraction, Op::CurrentCount, Answer::Count(1), 6),
    (Part::Integer, Op::StepBy(1), Answer::Refused, 6),
    (Part::Bytes, Op::SetCursor(4), Answer::Done, 4),
    (Part::Exponent, Op::StepBy(2), Answer::Done, 6),
];

const CURSOR: Call = Call {
    part: Part::Bytes,
    op: Op::Cursor,
};

#[test]
fn all_parts_share_one_cursor(rt: HostRuntime) {
    let flags = INTERNAL | FRACTION_TRAILING_DIGIT_SEPARATOR | SPECIAL_DIGIT_SEPARATOR;
    let mut bytes = bytes_of(&rt, b"1_2._3", UNFLAGGED | flags);
    for (part, op, answer, cursor) in &STEPS {
        let call = Call {
            part: *part,
            op: *op,
        };
        let expected = [*answer, Answer::Count(*cursor)];
        assert_answers(&rt, rt.alloc(), &mut bytes, &[call, CURSOR], &expected);
    }
}

/// A text on which the integer and the fraction keep the first separator, and the exponent and
/// special drop it: the integer has the internal flag, the fraction none, the exponent the leading
/// flag, and special its own.
const TEXT: &[u8] = b"_00_5aB1";

const GRANTS: u128 = UNFLAGGED
    | INTERNAL
    | EXPONENT_LEADING_DIGIT_SEPARATOR
    | SPECIAL_DIGIT_SEPARATOR;

const YES: Answer = Answer::Flag(true);

const NO: Answer = Answer::Flag(false);

const SEPARATOR: Answer = Answer::Byte(Some(b'_'));

const ZERO: Answer = Answer::Byte(Some(b'0'));

const NONE: Answer = Answer::Byte(None);

/// Makes one call on a fresh `Bytes` over that text: the answer, the cursor after it, and the
/// count.
fn call(rt: &impl Abort, alloc: Global, part: Part, op: Op) -> (Answer, usize, usize) {
    let mut bytes = bytes_of(rt, TEXT, GRANTS);
    let answers = run(alloc, &mut bytes, &[Call { part, op }]).expect(rt, "memory");
    assert!(rt; answers.len() == 1);
    (answers[0], bytes.cursor(), bytes.current_count())
}

/// A call on a part answers this, and leaves the cursor there.
fn assert_call(rt: &impl Abort, alloc: Global, part: Part, op: Op, answer: Answer, cursor: usize) {
    let (answered, left, _) = call(rt, alloc, part, op);
    let is = answered == answer && left == cursor;
    assert!(rt; is, "{op:?} on {part:?}: {answered:?}, {left}");
}

/// Calls that every part answers alike, and the cursor after them.
static ALIKE: [(Op, Answer, usize); 16] = [
    (Op::AsSlice, Answer::Span(0, 8), 0),
    (Op::GetBuffer, Answer::Span(0, 8), 0),
    (Op::BufferLength, Answer::Count(8), 0),
    (Op::Cursor, Answer::Count(0), 0),
    (Op::CurrentCount, Answer::Count(0), 0),
    (Op::IsBufferEmpty, NO, 0),
    (Op::SetCursor(3), Answer::Done, 3),
    (Op::SetCursor(8), Answer::Done, 8),
    (Op::SetCursor(9), Answer::Refused, 0),
    (Op::StepBy(0), Answer::Done, 0),
    (Op::StepBy(9), Answer::Refused, 0),
    (Op::First, SEPARATOR, 0),
    (Op::FirstIsCased(b'_'), YES, 0),
    (Op::FirstIsUncased(b'0'), NO, 0),
    (Op::FirstIs(b'_', true), YES, 0),
    (Op::FirstIs(b'0', false), NO, 0),
];

#[test]
fn every_part_has_the_calls_of_a_cursor(rt: HostRuntime) {
    for (op, answer, cursor) in &ALIKE {
        for part in &PARTS {
            assert_call(&rt, rt.alloc(), *part, *op, *answer, *cursor);
        }
    }
}

/// Calls that only the fraction, which is contiguous, answers in this way, and the cursor that each
/// leaves.
static CONTIGUOUS: [(Op, Answer, Answer, usize); 6] = [
    (Op::IsContiguous, NO, YES, 0),
    (Op::Step, Answer::Refused, Answer::Done, 1),
    (Op::StepBy(1), Answer::Refused, Answer::Done, 1),
    (Op::StepBy(2), Answer::Refused, Answer::Done, 2),
    (
        Op::PeekU32,
        Answer::Four(None),
        Answer::Four(Some(0x5f30_305f)),
        0,
    ),
    (
        Op::PeekU64,
        Answer::Eight(None),
        Answer::Eight(Some(0x3142_6135_5f30_305f)),
        0,
    ),
];

#[test]
fn a_contiguous_part_goes_over_separators(rt: HostRuntime) {
    for (op, answer, contiguous, cursor) in &CONTIGUOUS {
        for part in [Part::Bytes, Part::Integer, Part::Exponent, Part::Special] {
            assert_call(&rt, rt.alloc(), part, *op, *answer, 0);
        }
        assert_call(&rt, rt.alloc(), Part::Fraction, *op, *contiguous, *cursor);
    }
}

/// `0` to `9`.
const DIGITS: ByteSet = ByteSet {
    low: 0x3ff << 48,
    high: 0,
};

/// `_`, and the bytes 0xFE and 0xFF.
const PUNCTUATION: ByteSet = ByteSet {
    low: 1 << 95,
    high: 3 << 126,
};

/// Calls that only the iterators have: the answer and the cursor where the first separator is
/// kept, and where it is dropped.
static READS: [(Op, (Answer, usize), (Answer, usize)); 21] = [
    (Op::IsConsumed, (NO, 0), (NO, 1)),
    (Op::IncrementCount, (Answer::Done, 0), (Answer::Done, 0)),
    (Op::Peek, (SEPARATOR, 0), (ZERO, 1)),
    (Op::TryRead, (SEPARATOR, 1), (ZERO, 2)),
    (Op::Next, (SEPARATOR, 1), (ZERO, 2)),
    (Op::PeekIsCased(b'0'), (NO, 0), (YES, 1)),
    (Op::PeekIsUncased(b'_'), (YES, 0), (NO, 1)),
    (Op::PeekIs(b'0', false), (NO, 0), (YES, 1)),
    (Op::PeekIs(b'_', true), (YES, 0), (NO, 1)),
    (Op::ReadIfEqual(b'0'), (NONE, 0), (ZERO, 2)),
    (Op::ReadIfNever, (NONE, 0), (NONE, 1)),
    (Op::ReadIf(DIGITS), (NONE, 0), (ZERO, 2)),
    (Op::ReadIf(PUNCTUATION), (SEPARATOR, 1), (NONE, 1)),
    (Op::ReadIfValueCased(b'_'), (SEPARATOR, 1), (NONE, 1)),
    (Op::ReadIfValueUncased(b'0'), (NONE, 0), (ZERO, 2)),
    (Op::ReadIfValue(b'_', true), (SEPARATOR, 1), (NONE, 1)),
    (Op::ReadIfValue(b'0', false), (NONE, 0), (ZERO, 2)),
    (Op::IsDigit(b'7'), (YES, 0), (YES, 0)),
    (Op::IsDigit(b'a'), (NO, 0), (NO, 0)),
    (Op::IsSign(b'-'), (YES, 0), (YES, 0)),
    (Op::IsDigitSeparator(b'_'), (YES, 0), (YES, 0)),
];

#[test]
fn the_iterators_alone_read(rt: HostRuntime) {
    for (op, (kept, at_kept), (dropped, at_dropped)) in &READS {
        assert_call(&rt, rt.alloc(), Part::Bytes, *op, Answer::Refused, 0);
        for part in [Part::Integer, Part::Fraction] {
            assert_call(&rt, rt.alloc(), part, *op, *kept, *at_kept);
        }
        for part in [Part::Exponent, Part::Special] {
            assert_call(&rt, rt.alloc(), part, *op, *dropped, *at_dropped);
        }
    }
}

#[test]
fn a_closure_is_a_set_of_bytes(rt: HostRuntime) {
    assert!(rt; ByteSet::of(|byte| byte.is_ascii_digit()) == DIGITS);
    let wanted = b'_';
    assert!(rt; ByteSet::of(|byte| byte == wanted || byte > 0xfd) == PUNCTUATION);
}

/// What `skip_zeros` and `take_n` answer on each part, and the cursor that they leave.
static BY_PART: [(Part, Op, Answer, usize); 10] = [
    (Part::Bytes, Op::SkipZeros, Answer::Refused, 0),
    (Part::Integer, Op::SkipZeros, Answer::Count(0), 0),
    (Part::Fraction, Op::SkipZeros, Answer::Count(0), 0),
    (Part::Exponent, Op::SkipZeros, Answer::Count(2), 3),
    (Part::Special, Op::SkipZeros, Answer::Count(2), 4),
    (Part::Bytes, Op::TakeN(3), Answer::Refused, 0),
    (Part::Integer, Op::TakeN(3), Answer::View(None), 0),
    (Part::Fraction, Op::TakeN(3), Answer::View(Some((3, 0))), 3),
    (Part::Exponent, Op::TakeN(3), Answer::View(None), 0),
    (Part::Special, Op::TakeN(3), Answer::Refused, 0),
];

#[test]
fn zeros_and_views_go_by_the_part(rt: HostRuntime) {
    for (part, op, answer, cursor) in &BY_PART {
        assert_call(&rt, rt.alloc(), *part, *op, *answer, *cursor);
    }
}

/// How many a call counts on the five parts.
static COUNTED: [(Op, [usize; 5]); 4] = [
    (Op::Next, [0, 0, 0, 1, 0]),
    (Op::IncrementCount, [0, 1, 1, 1, 0]),
    (Op::SkipZeros, [0, 0, 0, 2, 0]),
    (Op::TryRead, [0, 0, 0, 0, 0]),
];

#[test]
fn a_call_counts_for_its_own_part(rt: HostRuntime) {
    for (op, expected) in &COUNTED {
        for (part, count) in PARTS.iter().zip(expected) {
            let (_, _, counted) = call(&rt, rt.alloc(), *part, *op);
            assert!(rt; counted == *count, "{op:?} on {part:?}: {counted}");
        }
    }
}

/// Calls on the integer of `aB`, one after another.
static CASES: [(Op, Answer); 9] = [
    (Op::FirstIsUncased(b'A'), YES),
    (Op::FirstIsCased(b'A'), NO),
    (Op::FirstIs(b'A', false), YES),
    (Op::FirstIs(b'A', true), NO),
    (Op::PeekIsUncased(b'A'), YES),
    (Op::PeekIs(b'A', true), NO),
    (Op::ReadIfValueUncased(b'A'), Answer::Byte(Some(b'a'))),
    (Op::ReadIfValueCased(b'b'), NONE),
    (Op::ReadIfValue(b'b', false), Answer::Byte(Some(b'B'))),
];

#[test]
fn case_counts_where_it_is_asked(rt: HostRuntime) {
    let mut bytes = bytes_of(&rt, b"aB", UNFLAGGED | INTERNAL);
    for (op, answer) in &CASES {
        let call = Call {
            part: Part::Integer,
            op: *op,
        };
        assert_answers(&rt, rt.alloc(), &mut bytes, &[call], &[*answer]);
    }
    assert_eq!(rt; bytes.cursor(), 2);
}

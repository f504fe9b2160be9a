//! Runs in which memory, the reader or the writer fails.

use super::limited::Limited;
use super::streams::{ScriptedReader, ScriptedWriter, Turn, Turns};
use super::{FIVE_ANSWERS, FIVE_LINES, UNSUPPORTED};
use digit_requests::engine::{Fault, run, run_in, serve, tell, tell_in};
use digit_requests::fault::{clone_of_fault, same_fault};
use digit_script::{Call, Op, Part};
use lexical_digits::iterator::Iter;
use lexical_digits::skip::Bytes;
use lexical_format::{INTEGER_INTERNAL_DIGIT_SEPARATOR, STANDARD, is_supported};
use std::alloc::Global;
use std::process::Abort;

static FAULTS: [(Fault, u8, &str); 6] = [
    (Fault::Line(7), 2, "error: line 7: not a request\n"),
    (Fault::Word(12), 3, "error: line 12: word not supported\n"),
    (Fault::TooLong, 4, "error: input longer than 65536 bytes\n"),
    (Fault::Read, 5, "error: read failed\n"),
    (Fault::Write, 6, "error: write failed\n"),
    (Fault::Memory, 7, "error: out of memory\n"),
];

/// More requests for memory than a run makes.
const REQUESTS: u64 = 100;

/// Passes all bytes.
const ALL: Turn = Turn::Pass(usize::MAX);

/// The length of the first two lines.
const TWO_LINES: usize = 41;

// ---- memory

/// Whether a run of the five lines with at most `requests` requests for memory answers this and
/// writes this.
fn runs_within(alloc: Global, requests: u64, answer: Result<(), Fault>, text: &str) -> bool {
    let limited = Limited::new(alloc, requests);
    let mut reader = FIVE_LINES.as_bytes();
    let mut writer = Vec::new(alloc);
    let answered = run_in(&limited, &mut reader, &mut writer);
    answered == answer && writer.as_slice() == text.as_bytes()
}

/// The number of requests for memory from which on a run succeeds. With fewer it answers so, and
/// writes nothing.
fn requests_of_run(alloc: Global) -> Option<u64> {
    for requests in 0..REQUESTS {
        if runs_within(alloc, requests, Ok(()), FIVE_ANSWERS) {
            return Some(requests);
        }
        if !runs_within(alloc, requests, Err(Fault::Memory), "") {
            return None;
        }
    }
    None
}

#[test]
fn refused_memory_leaves_nothing_written(rt: HostRuntime) {
    let requests = requests_of_run(rt.alloc()).unwrap_or(0);
    assert!(rt; requests > 5);
    assert!(rt; runs_within(rt.alloc(), REQUESTS, Ok(()), FIVE_ANSWERS));
}

/// Whether `tell` with at most `requests` requests for memory answers this and writes this.
fn tells_within(
    alloc: Global,
    requests: u64,
    fault: Fault,
    answer: Result<(), Fault>,
    text: &str,
) -> bool {
    let limited = Limited::new(alloc, requests);
    let mut writer = Vec::new(alloc);
    let answered = tell_in(&limited, &fault, &mut writer);
    answered == answer && writer.as_slice() == text.as_bytes()
}

/// The number of requests for memory from which on `tell` succeeds. With fewer it answers so, and
/// writes nothing.
fn requests_of_tell(alloc: Global, fault: Fault, line: &str) -> Option<u64> {
    for requests in 0..REQUESTS {
        if tells_within(alloc, requests, fault, Ok(()), line) {
            return Some(requests);
        }
        if !tells_within(alloc, requests, fault, Err(Fault::Memory), "") {
            return None;
        }
    }
    None
}

/// The first fault that is told with no request for memory, or never.
fn wrongly_told_within(alloc: Global) -> Option<Fault> {
    for (fault, _, line) in &FAULTS {
        let requests = requests_of_tell(alloc, *fault, line).unwrap_or(0);
        if requests == 0 || !tells_within(alloc, REQUESTS, *fault, Ok(()), line) {
            return Some(*fault);
        }
    }
    None
}

#[test]
fn a_fault_is_not_told_without_memory(rt: HostRuntime) {
    assert_eq!(rt; wrongly_told_within(rt.alloc()), None);
}

/// Two reads of digits.
static TWO_READS: [Call; 2] = [
    Call {
        part: Part::Integer,
        op: Op::Next,
    },
    Call {
        part: Part::Integer,
        op: Op::Next,
    },
];

/// Radix 10, and `_` between digits of the integer.
const GROUPED: u128 = STANDARD | (0x5f << 64) | INTEGER_INTERNAL_DIGIT_SEPARATOR;

/// Makes those calls on `12` with at most `requests` requests for memory: whether they are made,
/// and the cursor, the count and the looks after them.
fn calls_within(rt: &impl Abort, alloc: Global, requests: u64) -> (bool, usize, usize, u64) {
    assert!(rt; is_supported(GROUPED));
    let mut bytes = Bytes::new(b"12", GROUPED);
    let limited = Limited::new(alloc, requests);
    let is_made = digit_script::run_in(&limited, &mut bytes, &TWO_READS).is_ok();
    (
        is_made,
        bytes.cursor(),
        bytes.current_count(),
        bytes.looks(),
    )
}

#[test]
fn a_list_of_calls_takes_one_reservation(rt: HostRuntime) {
    assert_eq!(rt; calls_within(&rt, rt.alloc(), 0), (false, 0, 0, 0));
    assert_eq!(rt; calls_within(&rt, rt.alloc(), 1), (true, 2, 2, 4));
}

// ---- the reader

/// A reader of the five lines.
fn five_lines<'a>(first: &'a [Turn], then: Turn) -> ScriptedReader<'a> {
    ScriptedReader {
        rest: FIVE_LINES.as_bytes(),
        again: &[],
        turns: Turns { first, then },
    }
}

/// A reader that gives a text repeatedly.
fn endless<'a>(again: &'a [u8], first: &'a [Turn], then: Turn) -> ScriptedReader<'a> {
    ScriptedReader {
        rest: &[],
        again,
        turns: Turns { first, then },
    }
}

/// Whether a run with this reader answers this and writes this.
fn reads_so(
    alloc: Global,
    mut reader: ScriptedReader,
    answer: Result<(), Fault>,
    text: &str,
) -> bool {
    let mut writer = Vec::new(alloc);
    let answered = run(alloc, &mut reader, &mut writer);
    answered == answer && writer.as_slice() == text.as_bytes()
}

static FAILING_READERS: [(&[Turn], Turn); 7] = [
    (&[], Turn::Fail),
    (&[Turn::Pass(TWO_LINES)], Turn::Fail),
    (&[Turn::Pass(3), Turn::Pass(3)], Turn::Fail),
    (&[ALL], Turn::Fail),
    (&[Turn::Interrupt], ALL),
    (&[Turn::Pass(TWO_LINES), Turn::Interrupt], ALL),
    (&[ALL, Turn::Interrupt], ALL),
];

/// Whether a run with any of these readers leaves nothing written.
fn all_readers_fail(alloc: Global) -> bool {
    for (first, then) in &FAILING_READERS {
        if !reads_so(alloc, five_lines(first, *then), Err(Fault::Read), "") {
            return false;
        }
    }
    true
}

/// An interrupted read counts as failed, even if the reader could go on.
#[test]
fn a_failing_reader_leaves_nothing_written(rt: HostRuntime) {
    assert!(rt; all_readers_fail(rt.alloc()));
}

/// Whether a run with a reader of this turn at each call answers all five lines.
fn reads_all(alloc: Global, then: Turn) -> bool {
    reads_so(alloc, five_lines(&[], then), Ok(()), FIVE_ANSWERS)
}

#[test]
fn a_slow_reader_gives_the_whole_input(rt: HostRuntime) {
    assert!(rt; reads_all(rt.alloc(), Turn::Pass(1)));
    assert!(rt; reads_all(rt.alloc(), Turn::Pass(3)));
    assert!(rt; reads_all(rt.alloc(), ALL));
}

/// Whether a reader that gives a text repeatedly gives too much.
fn reads_too_much(alloc: Global, text: &str, then: Turn) -> bool {
    let reader = endless(text.as_bytes(), &[], then);
    reads_so(alloc, reader, Err(Fault::TooLong), "")
}

#[test]
fn a_reader_without_end_gives_too_much(rt: HostRuntime) {
    assert!(rt; reads_too_much(rt.alloc(), "1", Turn::Pass(1)));
    assert!(rt; reads_too_much(rt.alloc(), "1", Turn::Pass(1000)));
    assert!(rt; reads_too_much(rt.alloc(), "1", ALL));
    assert!(rt; reads_too_much(rt.alloc(), FIVE_LINES, Turn::Pass(1)));
    assert!(rt; reads_too_much(rt.alloc(), FIVE_LINES, Turn::Pass(1000)));
    assert!(rt; reads_too_much(rt.alloc(), FIVE_LINES, ALL));
}

#[test]
fn a_reader_without_end_is_told_so(rt: HostRuntime) {
    let mut reader = endless(b"1", &[], Turn::Pass(1));
    let mut writer = Vec::new(rt.alloc());
    let status = serve(rt.alloc(), &mut reader, &mut writer);
    let line = b"error: input longer than 65536 bytes\n".as_slice();
    assert!(rt; status == 4 && writer.as_slice() == line);
}

/// 65,536 bytes in sixteen reads, and then one more byte or none before the reader fails.
#[test]
fn the_first_byte_too_many_ends_the_reading(rt: HostRuntime) {
    let piece = [b'1'; 4096];
    let full = endless(&piece, &[ALL; 16], Turn::Fail);
    assert!(rt; reads_so(rt.alloc(), full, Err(Fault::Read), ""));
    let past = endless(&piece, &[ALL; 17], Turn::Fail);
    assert!(rt; reads_so(rt.alloc(), past, Err(Fault::TooLong), ""));
}

// ---- the writer

/// Whether a run with a writer of these turns answers this and writes this.
fn writes_so(
    alloc: Global,
    input: &str,
    turns: Turns,
    answer: Result<(), Fault>,
    text: &str,
) -> bool {
    let mut reader = input.as_bytes();
    let mut writer = ScriptedWriter {
        written: Vec::new(alloc),
        turns,
    };
    let answered = run(alloc, &mut reader, &mut writer);
    answered == answer && writer.written.as_slice() == text.as_bytes()
}

/// Whether a writer of this turn at each call gets all five answers.
fn writes_all(alloc: Global, then: Turn) -> bool {
    let turns = Turns { first: &[], then };
    writes_so(alloc, FIVE_LINES, turns, Ok(()), FIVE_ANSWERS)
}

#[test]
fn a_slow_writer_gets_the_whole_output(rt: HostRuntime) {
    assert!(rt; writes_all(rt.alloc(), Turn::Pass(1)));
    assert!(rt; writes_all(rt.alloc(), Turn::Pass(3)));
    assert!(rt; writes_all(rt.alloc(), ALL));
}

static FAILING_WRITERS: [(&str, &[Turn], Turn, &str); 8] = [
    (FIVE_LINES, &[Turn::Pass(3)], Turn::Fail, "45 "),
    (FIVE_LINES, &[], Turn::Pass(0), ""),
    (FIVE_LINES, &[Turn::Pass(3)], Turn::Pass(0), "45 "),
    (FIVE_LINES, &[Turn::Interrupt], ALL, ""),
    (FIVE_LINES, &[Turn::Pass(3), Turn::Interrupt], ALL, "45 "),
    (FIVE_LINES, &[Turn::Pass(3), Turn::Pass(0)], ALL, "45 "),
    (UNSUPPORTED, &[], Turn::Fail, ""),
    (UNSUPPORTED, &[Turn::Interrupt], ALL, ""),
];

/// Whether each of these writers gets its text.
fn all_writers_fail(alloc: Global) -> bool {
    for (input, first, then, text) in &FAILING_WRITERS {
        let turns = Turns { first, then: *then };
        if !writes_so(alloc, input, turns, Err(Fault::Write), text) {
            return false;
        }
    }
    true
}

/// An interrupted write, or one that takes nothing, counts as failed, even if the writer could go
/// on. The fault replaces that of a bad line.
#[test]
fn a_failing_writer_gets_a_prefix(rt: HostRuntime) {
    assert!(rt; all_writers_fail(rt.alloc()));
}

/// Whether a run of an input with an empty output answers this, and calls no writer.
fn writes_nothing(alloc: Global, input: &str, answer: Result<(), Fault>) -> bool {
    let turns = Turns {
        first: &[],
        then: Turn::Fail,
    };
    writes_so(alloc, input, turns, answer, "")
}

#[test]
fn a_writer_is_not_called_for_an_empty_output(rt: HostRuntime) {
    assert!(rt; writes_nothing(rt.alloc(), "", Ok(())));
    assert!(rt; writes_nothing(rt.alloc(), "\n", Err(Fault::Line(1))));
    let line = "integer 37 5f I 1";
    assert!(rt; writes_nothing(rt.alloc(), line, Err(Fault::Word(1))));
}

// ---- telling a fault

/// The first fault that has another line or status.
fn wrongly_told(alloc: Global) -> Option<Fault> {
    for (fault, status, line) in &FAULTS {
        let mut writer = Vec::new(alloc);
        let told = tell(alloc, fault, &mut writer) == Ok(());
        if !told || writer.as_slice() != line.as_bytes() || fault.status() != *status {
            return Some(*fault);
        }
    }
    None
}

#[test]
fn each_fault_has_its_line_and_status(rt: HostRuntime) {
    assert_eq!(rt; wrongly_told(rt.alloc()), None);
}

#[test]
fn faults_are_told_apart(rt: HostRuntime) {
    let fault = clone_of_fault(Fault::Line(7));
    assert!(rt; same_fault(fault, Fault::Line(7)) && !same_fault(fault, Fault::Line(8)));
    assert!(rt; !same_fault(fault, Fault::Word(7)));
}

/// Whether `tell` with a writer of these turns answers this and writes this.
fn tells_so(
    alloc: Global,
    fault: Fault,
    turns: Turns,
    answer: Result<(), Fault>,
    text: &str,
) -> bool {
    let mut writer = ScriptedWriter {
        written: Vec::new(alloc),
        turns,
    };
    let answered = tell(alloc, &fault, &mut writer);
    answered == answer && writer.written.as_slice() == text.as_bytes()
}

/// The first fault that a slow writer doesn't get.
fn wrongly_told_slowly(alloc: Global) -> Option<Fault> {
    for (fault, _, line) in &FAULTS {
        let turns = Turns {
            first: &[],
            then: Turn::Pass(3),
        };
        if !tells_so(alloc, *fault, turns, Ok(()), line) {
            return Some(*fault);
        }
    }
    None
}

#[test]
fn a_fault_is_told_to_a_slow_writer(rt: HostRuntime) {
    assert_eq!(rt; wrongly_told_slowly(rt.alloc()), None);
}

static FAILING_TELLS: [(&[Turn], Turn, &str); 5] = [
    (&[], Turn::Fail, ""),
    (&[Turn::Pass(3)], Turn::Fail, "err"),
    (&[], Turn::Pass(0), ""),
    (&[Turn::Interrupt], ALL, ""),
    (&[Turn::Pass(3), Turn::Interrupt], ALL, "err"),
];

/// Whether each of these writers gets its text of a fault.
fn all_tells_fail(alloc: Global, fault: Fault) -> bool {
    for (first, then, text) in &FAILING_TELLS {
        let turns = Turns { first, then: *then };
        if !tells_so(alloc, fault, turns, Err(Fault::Write), text) {
            return false;
        }
    }
    true
}

/// The first fault of which such a writer gets another text.
fn wrongly_cut(alloc: Global) -> Option<Fault> {
    for (fault, _, _) in &FAULTS {
        if !all_tells_fail(alloc, *fault) {
            return Some(*fault);
        }
    }
    None
}

#[test]
fn a_fault_is_not_told_to_a_failing_writer(rt: HostRuntime) {
    assert_eq!(rt; wrongly_cut(rt.alloc()), None);
}

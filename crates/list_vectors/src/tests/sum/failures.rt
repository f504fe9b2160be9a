//! Runs in which the reader or a writer fails, and long lines.

use super::streams::{ScriptedReader, ScriptedWriter, Turn, Turns};
use super::{run_of, run_over};
use digit_totals::engine::serve_arguments;
use std::alloc::{AllocError, Global};
use std::io::ErrorKind;
use std::test::Fail;

/// Passes all bytes.
const ALL: Turn = Turn::Pass(usize::MAX);

/// Ends with an error that isn't one of a signal.
const FAIL: Turn = Turn::Fail(ErrorKind::PermissionDenied);

const INTERRUPT: Turn = Turn::Fail(ErrorKind::Interrupted);

/// A reader of two lines.
fn two_lines<'a>(first: &'a [Turn], then: Turn) -> ScriptedReader<'a> {
    ScriptedReader {
        rest: b"12\n34\n",
        again: &[],
        turns: Turns { first, then },
    }
}

static FIRST_TURNS: [&[Turn]; 3] = [&[], &[Turn::Pass(1)], &[ALL]];

/// An interrupted read is tried again; one that fails ends the run.
#[test]
fn reads_are_tried_again(rt: HostRuntime) {
    let totals = b"count=2 sum=46 min=12 max=34\n";
    let mut reader = two_lines(&[INTERRUPT, Turn::Pass(1), INTERRUPT], ALL);
    assert!(rt; run_over(rt.alloc(), &[], &mut reader).is(totals, b"", 0));
    for first in &FIRST_TURNS {
        let told = b"error: read failed: permission denied\n";
        let mut reader = two_lines(first, FAIL);
        assert!(rt; run_over(rt.alloc(), &[], &mut reader).is(b"", told, 6));
        let mut reader = two_lines(first, FAIL);
        assert!(rt; run_over(rt.alloc(), &[b"--floats"], &mut reader).is(b"", told, 6));
    }
}

/// All kinds but that of an interrupted read.
static KINDS: [ErrorKind; 41] = [
    ErrorKind::NotFound,
    ErrorKind::PermissionDenied,
    ErrorKind::ConnectionRefused,
    ErrorKind::ConnectionReset,
    ErrorKind::HostUnreachable,
    ErrorKind::NetworkUnreachable,
    ErrorKind::ConnectionAborted,
    ErrorKind::NotConnected,
    ErrorKind::AddrInUse,
    ErrorKind::AddrNotAvailable,
    ErrorKind::NetworkDown,
    ErrorKind::BrokenPipe,
    ErrorKind::AlreadyExists,
    ErrorKind::WouldBlock,
    ErrorKind::NotADirectory,
    ErrorKind::IsADirectory,
    ErrorKind::DirectoryNotEmpty,
    ErrorKind::ReadOnlyFilesystem,
    ErrorKind::FilesystemLoop,
    ErrorKind::StaleNetworkFileHandle,
    ErrorKind::InvalidInput,
    ErrorKind::InvalidData,
    ErrorKind::TimedOut,
    ErrorKind::WriteZero,
    ErrorKind::StorageFull,
    ErrorKind::NotSeekable,
    ErrorKind::QuotaExceeded,
    ErrorKind::FileTooLarge,
    ErrorKind::ResourceBusy,
    ErrorKind::ExecutableFileBusy,
    ErrorKind::Deadlock,
    ErrorKind::CrossesDevices,
    ErrorKind::TooManyLinks,
    ErrorKind::InvalidFilename,
    ErrorKind::ArgumentListTooLong,
    ErrorKind::Unsupported,
    ErrorKind::UnexpectedEof,
    ErrorKind::OutOfMemory,
    ErrorKind::InProgress,
    ErrorKind::Other,
    ErrorKind::Uncategorized,
];

/// A kind is told in the words that std's `Display` writes.
#[test]
fn kinds_are_told_in_the_words_of_std(rt: HostRuntime) {
    for kind in &KINDS {
        let mut reader = two_lines(&[], Turn::Fail(*kind));
        let ended = run_over(rt.alloc(), &[], &mut reader);
        let told = format!(in rt.alloc(); "error: read failed: {kind}\n").expect(&rt, "memory");
        assert!(rt; ended.is(b"", told.as_bytes(), 6));
    }
}

/// The status of a run with these writers, and what they were given.
fn run_writing(alloc: Global, out: Turns, err: Turns) -> (u8, Vec<u8>, Vec<u8>) {
    let mut reader = b"12\n34\n".as_slice();
    let mut writer = ScriptedWriter {
        written: Vec::new(alloc),
        turns: out,
    };
    let mut errors = ScriptedWriter {
        written: Vec::new(alloc),
        turns: err,
    };
    let status = serve_arguments(alloc, &[], &mut reader, &mut writer, &mut errors);
    (status, writer.written, errors.written)
}

#[test]
fn writes_may_fail(rt: HostRuntime) {
    let all = Turns {
        first: &[],
        then: ALL,
    };
    let slow = Turns {
        first: &[],
        then: Turn::Pass(3),
    };
    let failing = Turns {
        first: &[Turn::Pass(3)],
        then: FAIL,
    };
    let (status, written, told) = run_writing(rt.alloc(), slow, all);
    assert!(rt; status == 0 && told.is_empty());
    assert!(rt; written.as_slice() == b"count=2 sum=46 min=12 max=34\n".as_slice());
    let (status, written, told) = run_writing(rt.alloc(), failing, all);
    assert!(rt; status == 7 && written.as_slice() == b"cou".as_slice());
    assert!(rt; told.as_slice() == b"error: write failed: permission denied\n".as_slice());
    let (status, _, told) = run_writing(rt.alloc(), failing, failing);
    assert!(rt; status == 7 && told.as_slice() == b"err".as_slice());
}

/// What is told where the first write is this turn.
fn told_of_a_write(alloc: Global, turn: Turn) -> Vec<u8> {
    let out = Turns {
        first: &[turn],
        then: ALL,
    };
    let err = Turns {
        first: &[],
        then: ALL,
    };
    let (_, _, told) = run_writing(alloc, out, err);
    told
}

/// An interrupted write isn't tried again, nor is one that takes nothing.
#[test]
fn writes_are_tried_once(rt: HostRuntime) {
    let told = told_of_a_write(rt.alloc(), INTERRUPT);
    assert!(rt; told.as_slice() == b"error: write failed: operation interrupted\n".as_slice());
    let told = told_of_a_write(rt.alloc(), Turn::Pass(0));
    assert!(rt; told.as_slice() == b"error: write failed: write zero\n".as_slice());
}

/// Whether a run over so many zeros, and then this end, writes and tells this.
fn adds_zeros(
    alloc: Global,
    zeros: usize,
    end: &[u8],
    ended: (&[u8], &[u8], u8),
) -> Result<bool, AllocError> {
    let mut text = vec![in alloc; b'0'; zeros]?;
    text.extend_from_slice(end)?;
    let mut reader = text.as_slice();
    let (written, told, status) = ended;
    Ok(run_over(alloc, &[], &mut reader).is(written, told, status))
}

#[test]
fn a_line_may_have_65535_bytes(rt: HostRuntime) {
    let two = (b"count=2 sum=1 min=0 max=1\n".as_slice(), b"".as_slice(), 0);
    assert!(rt; adds_zeros(rt.alloc(), 65535, b"\n1\n", two) == Ok(true));
    let one = (b"count=1 sum=1 min=1 max=1\n".as_slice(), b"".as_slice(), 0);
    assert!(rt; adds_zeros(rt.alloc(), 65534, b"1", one) == Ok(true));
    let long = (
        b"".as_slice(),
        b"error: line 1: the line is too long\n".as_slice(),
        5,
    );
    assert!(rt; adds_zeros(rt.alloc(), 65536, b"\n1\n", long) == Ok(true));
}

/// A header is read piece by piece, and the line after it is line 2.
#[test]
fn a_header_may_be_of_any_length(rt: HostRuntime) -> Result<(), Fail> {
    let mut text = vec![in rt.alloc(); b'0'; 200000]?;
    text.extend_from_slice(b"\n1\n")?;
    let ended = run_of(rt.alloc(), &[b"--header"], text.as_slice());
    assert!(rt; ended.is(b"count=1 sum=1 min=1 max=1\n", b"", 0));
    let mut text = Vec::new(rt.alloc());
    text.extend_from_slice(b"x\n")?;
    for _ in 0..65536 {
        text.push(b'0')?;
    }
    let ended = run_of(rt.alloc(), &[b"--header"], text.as_slice());
    assert!(rt; ended.is(b"", b"error: line 2: the line is too long\n", 5));
    Ok(())
}

//! What is written for floats, worked out by hand.

use super::streams::{ScriptedReader, Turn, Turns};
use super::totals::{SIXTY, SIXTY_TOTALS};
use super::{run_of, run_over};
use std::alloc::{AllocError, Global};

/// The arguments of rows, the text, and what is written.
static TOTALS: [(&[&[u8]], &[u8], &[u8]); 9] = [
    (&[b"--floats"], b"", b"count=0 sum=0 min=- max=-\n"),
    (
        &[b"--floats"],
        b"0.1\n0.2\n",
        b"count=2 sum=0.30000000000000004 min=0.1 max=0.2\n",
    ),
    (
        &[b"--floats"],
        b"1e16\n1\n-1e16\n",
        b"count=3 sum=0 min=-10000000000000000 max=10000000000000000\n",
    ),
    (
        &[b"--floats"],
        b"1e999\n-1e999\n2",
        b"count=3 sum=NaN min=-inf max=inf\n",
    ),
    (
        &[b"--floats"],
        b" -0.0\t\r\n",
        b"count=1 sum=0 min=-0 max=-0\n",
    ),
    (
        &[b"--floats"],
        b"2\n1\n1.5\n",
        b"count=3 sum=4.5 min=1 max=2\n",
    ),
    (
        &[b"--underscores", b"--floats"],
        b"1_000.5\n.5E1\n",
        b"count=2 sum=1005.5 min=5 max=1000.5\n",
    ),
    (
        &[b"--column", b"2", b"--floats"],
        b"a,1.5,b\nc, -2.5\n",
        b"count=2 sum=-1 min=-2.5 max=1.5\n",
    ),
    (
        &[b"--floats"],
        b"1e-7\n",
        b"count=1 sum=0.0000001 min=0.0000001 max=0.0000001\n",
    ),
];

#[test]
fn totals_are_written(rt: HostRuntime) {
    for (words, input, text) in &TOTALS {
        assert!(rt; run_of(rt.alloc(), words, input).is(text, b"", 0));
    }
}

/// The arguments of rows, the text, what is told, and the status.
static FAULTS: [(&[&[u8]], &[u8], &[u8], u8); 9] = [
    (
        &[b"--floats"],
        b"1\n2x\n",
        b"error: line 2: the byte at 1 is no part of a float\n",
        3,
    ),
    (
        &[b"--floats"],
        b"1.5 x\n",
        b"error: line 1: the byte at 4 is no part of a float\n",
        3,
    ),
    (
        &[b"--floats"],
        b"inf\n",
        b"error: line 1: there is no digit before 0\n",
        3,
    ),
    (
        &[b"--floats"],
        b"1e\n",
        b"error: line 1: the exponent has no digit at 2\n",
        3,
    ),
    (
        &[b"--floats"],
        b"1_0\n",
        b"error: line 1: the byte at 1 is no part of a float\n",
        3,
    ),
    (
        &[b"--floats", b"--column", b"2"],
        b"1,2\n3\n",
        b"error: line 2, column 2: there is no such column\n",
        3,
    ),
    (
        &[b"--floats", b"--column", b"2"],
        b"\"a,1.5\",2\n",
        b"error: line 1, column 2: column 1 begins with a quote, and no quotes are read\n",
        3,
    ),
    (
        &[b"--floats", b"--column", b"2"],
        b"a,1e\n",
        b"error: line 1, column 2: the exponent has no digit at 4\n",
        3,
    ),
    (
        &[
            b"--floats",
            b"--column",
            b"2",
            b"--separator",
            b"1",
            b"--underscores",
        ],
        b"1_5\n",
        b"error: line 1, column 2: there is no digit before 1\n",
        3,
    ),
];

#[test]
fn faults_are_told(rt: HostRuntime) {
    for (words, input, text, status) in &FAULTS {
        assert!(rt; run_of(rt.alloc(), words, input).is(b"", text, *status));
    }
}

#[test]
fn a_stream_may_break_anywhere(rt: HostRuntime) {
    for first in 1..SIXTY.len() {
        let mut reader = ScriptedReader {
            rest: SIXTY,
            again: &[],
            turns: Turns {
                first: &[Turn::Pass(first)],
                then: Turn::Pass(1),
            },
        };
        assert!(rt; run_over(rt.alloc(), &[b"--floats"], &mut reader).is(SIXTY_TOTALS, b"", 0));
    }
}

/// What is told of a line of so many zeros, and the status.
fn zeros_end(alloc: Global, zeros: usize, told: &[u8], status: u8) -> Result<bool, AllocError> {
    let text = vec![in alloc; b'0'; zeros]?;
    let mut reader = text.as_slice();
    let outcome = run_over(alloc, &[b"--floats"], &mut reader);
    Ok(outcome.told.as_slice() == told && outcome.status == status)
}

#[test]
fn a_line_may_have_65535_bytes(rt: HostRuntime) {
    assert!(rt; zeros_end(rt.alloc(), 65535, b"", 0) == Ok(true));
    let told = b"error: line 1: the line is too long\n";
    assert!(rt; zeros_end(rt.alloc(), 65536, told, 5) == Ok(true));
}

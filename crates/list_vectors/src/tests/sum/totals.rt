//! What is written for a text, worked out by hand.

use super::streams::{ScriptedReader, Turn, Turns};
use super::{Outcome, run_of, run_over};
use std::alloc::{AllocError, Global};
use std::test::Fail;

/// The arguments of rows, the text, and what is written.
static TOTALS: [(&[&[u8]], &[u8], &[u8]); 33] = [
    (&[], b"", b"count=0 sum=0 min=- max=-\n"),
    (&[], b"7", b"count=1 sum=7 min=7 max=7\n"),
    (&[], b"1\n-2\n+3\n", b"count=3 sum=2 min=-2 max=3\n"),
    (&[], b" 4\t\r\n5\r\n", b"count=2 sum=9 min=4 max=5\n"),
    (&[], b"007\n", b"count=1 sum=7 min=7 max=7\n"),
    (
        &[],
        b"170141183460469231731687303715884105727\n-1\n",
        b"count=2 sum=170141183460469231731687303715884105726 min=-1 max=170141183460469231731687303715884105727\n",
    ),
    (
        &[],
        b"9223372036854775807\n9223372036854775808\n",
        b"count=2 sum=18446744073709551615 min=9223372036854775807 max=9223372036854775808\n",
    ),
    (
        &[b"--underscores"],
        b"1_000\n2\n",
        b"count=2 sum=1002 min=2 max=1000\n",
    ),
    (
        &[b"--places", b"2"],
        b"1.5\n-.25\n3.\n",
        b"count=3 sum=4.25 min=-0.25 max=3.00\n",
    ),
    (
        &[b"--places", b"0"],
        b"12.0\n",
        b"count=1 sum=12 min=12 max=12\n",
    ),
    (&[b"--places", b"2"], b"", b"count=0 sum=0.00 min=- max=-\n"),
    (
        &[b"--places", b"3"],
        b"-0.007\n",
        b"count=1 sum=-0.007 min=-0.007 max=-0.007\n",
    ),
    (
        &[b"--column", b"2"],
        b"a, 3 ,b\nc,-5\n",
        b"count=2 sum=-2 min=-5 max=3\n",
    ),
    (
        &[b"--column", b"1"],
        b"8,\"x,y\"\n",
        b"count=1 sum=8 min=8 max=8\n",
    ),
    (
        &[b"--column", b"2"],
        b"5\",3\n",
        b"count=1 sum=3 min=3 max=3\n",
    ),
    (
        &[b"--column", b"1"],
        b"8,x\n",
        b"count=1 sum=8 min=8 max=8\n",
    ),
    (
        &[b"--separator", b"\t", b"--column", b"3"],
        b"a\tb\t6\n",
        b"count=1 sum=6 min=6 max=6\n",
    ),
    (
        &[b"--separator", b"\\t", b"--column=3"],
        b"a\tb\t6\n",
        b"count=1 sum=6 min=6 max=6\n",
    ),
    (
        &[b"--column=1", b"--separator=="],
        b"5=x\n",
        b"count=1 sum=5 min=5 max=5\n",
    ),
    (
        &[b"--places=2"],
        b" 1.25\r\n\t-2.50 \n",
        b"count=2 sum=-1.25 min=-2.50 max=1.25\n",
    ),
    (
        &[
            b"--column",
            b"2",
            b"--places",
            b"1",
            b"--underscores",
            b"--separator",
            b";",
        ],
        b"x;1_0.5\n",
        b"count=1 sum=10.5 min=10.5 max=10.5\n",
    ),
    (
        &[b"--header"],
        b"2026\n1\n2\n",
        b"count=2 sum=3 min=1 max=2\n",
    ),
    (&[b"--header"], b"", b"count=0 sum=0 min=- max=-\n"),
    (&[b"--header"], b"2026", b"count=0 sum=0 min=- max=-\n"),
    (&[b"--header"], b"\n7", b"count=1 sum=7 min=7 max=7\n"),
    (
        &[b"--header", b"--column=2", b"--places=2"],
        b"name,price\ntea,1.50\nmilk,2.25\n",
        b"count=2 sum=3.75 min=1.50 max=2.25\n",
    ),
    (
        &[b"--csv", b"--column", b"2"],
        b"\"a,3,b\",1\n",
        b"count=1 sum=1 min=1 max=1\n",
    ),
    (
        &[b"--csv", b"--column=2"],
        b"\"say \"\"hi, 5\"\"\",7\r\nplain,\"8\"\r\n",
        b"count=2 sum=15 min=7 max=8\n",
    ),
    (
        &[b"--csv", b"--column=1", b"--separator=;"],
        b"\" 4 \";x,\n5;\n",
        b"count=2 sum=9 min=4 max=5\n",
    ),
    (
        &[b"--csv", b"--column=3"],
        b"\"\",,9\n",
        b"count=1 sum=9 min=9 max=9\n",
    ),
    (
        &[b"--csv", b"--column=3"],
        b"\",\",\"\"\"\",\"-2\",\"x\"\n",
        b"count=1 sum=-2 min=-2 max=-2\n",
    ),
    (
        &[b"--header", b"--csv", b"--column=1", b"--places=1"],
        b"\"n\"\r\n\"2.5\"\r\n",
        b"count=1 sum=2.5 min=2.5 max=2.5\n",
    ),
    (
        &[b"--csv", b"--column=1", b"--floats"],
        b"\"0.5\",x\n",
        b"count=1 sum=0.5 min=0.5 max=0.5\n",
    ),
];

#[test]
fn totals_are_written(rt: HostRuntime) {
    for (words, input, text) in &TOTALS {
        assert!(rt; run_of(rt.alloc(), words, input).is(text, b"", 0));
    }
}

/// The arguments of rows, the text, what is told, and the status.
static FAULTS: [(&[&[u8]], &[u8], &[u8], u8); 30] = [
    (
        &[],
        b"1\n\n2\n",
        b"error: line 2: there is no digit at 0\n",
        3,
    ),
    (&[], b"\n", b"error: line 1: there is no digit at 0\n", 3),
    (
        &[],
        b"1\n 12x\n",
        b"error: line 2: the byte at 3 is no part of an integer\n",
        3,
    ),
    (
        &[],
        b"1 2\n",
        b"error: line 1: the byte at 2 is no part of an integer\n",
        3,
    ),
    (
        &[],
        b"1_0\n",
        b"error: line 1: the byte at 1 is no part of an integer\n",
        3,
    ),
    (
        &[],
        b"170141183460469231731687303715884105728",
        b"error: line 1: the number is too large with the digit at 38\n",
        3,
    ),
    (
        &[],
        b"170141183460469231731687303715884105727\n1\n",
        b"error: line 2: the sum leaves 128 bits\n",
        4,
    ),
    (
        &[b"--column", b"2"],
        b"1,2\n3\n",
        b"error: line 2, column 2: there is no such column\n",
        3,
    ),
    (
        &[b"--column", b"2"],
        b"1,x\n",
        b"error: line 1, column 2: the byte at 2 is no part of an integer\n",
        3,
    ),
    (
        &[b"--column", b"1"],
        b"\"3\",4\n",
        b"error: line 1, column 1: column 1 begins with a quote, and no quotes are read\n",
        3,
    ),
    (
        &[b"--column", b"2"],
        b"\"a,3,b\",1\n",
        b"error: line 1, column 2: column 1 begins with a quote, and no quotes are read\n",
        3,
    ),
    (
        &[b"--column", b"3"],
        b"1,2,3\nx, \"a,3\",4\n",
        b"error: line 2, column 3: column 2 begins with a quote, and no quotes are read\n",
        3,
    ),
    (
        &[b"--column", b"2"],
        b"\"a\n",
        b"error: line 1, column 2: column 1 begins with a quote, and no quotes are read\n",
        3,
    ),
    (
        &[],
        b"\"3\"\n",
        b"error: line 1: the byte at 0 is no part of an integer\n",
        3,
    ),
    (
        &[b"--column", b"2"],
        b"a,170141183460469231731687303715884105728\n",
        b"error: line 1, column 2: the number is too large with the digit at 40\n",
        3,
    ),
    (
        &[b"--column", b"1"],
        b"170141183460469231731687303715884105727,\n1,\n",
        b"error: line 2, column 1: the sum leaves 128 bits\n",
        4,
    ),
    (
        &[b"--column", b"2", b"--separator", b"1", b"--underscores"],
        b"1_5\n",
        b"error: line 1, column 2: the byte at 1 is no part of an integer\n",
        3,
    ),
    (
        &[
            b"--column",
            b"2",
            b"--separator",
            b"1",
            b"--underscores",
            b"--places",
            b"0",
        ],
        b"1_5\n",
        b"error: line 1, column 2: there is no digit before 1\n",
        3,
    ),
    (
        &[b"--column", b"2", b"--places", b"1"],
        b"ab,0.25\n",
        b"error: line 1, column 2: the digit at 6 is after the last place\n",
        3,
    ),
    (
        &[b"--places", b"2"],
        b"0.125\n",
        b"error: line 1: the digit at 4 is after the last place\n",
        3,
    ),
    (
        &[b"--header"],
        b"price\n1x\n",
        b"error: line 2: the byte at 1 is no part of an integer\n",
        3,
    ),
    (
        &[b"--header", b"--column", b"2"],
        b"name,price\ntea,1\nmilk\n",
        b"error: line 3, column 2: there is no such column\n",
        3,
    ),
    (
        &[b"--header"],
        b"x\n170141183460469231731687303715884105727\n1\n",
        b"error: line 3: the sum leaves 128 bits\n",
        4,
    ),
    (
        &[b"--csv", b"--column", b"2"],
        b"1,\"a\n",
        b"error: line 1, column 2: the line ends inside quotes, and no line feed is read there\n",
        3,
    ),
    (
        &[b"--csv", b"--column", b"1"],
        b"5,\"a\n6,b\"\n",
        b"error: line 1, column 1: the line ends inside quotes, and no line feed is read there\n",
        3,
    ),
    (
        &[b"--csv", b"--column", b"2"],
        b"5\",3\n",
        b"error: line 1, column 2: a quote neither begins nor ends a column, and is not doubled inside quotes\n",
        3,
    ),
    (
        &[b"--csv", b"--column", b"2"],
        b"1, \"2\"\n",
        b"error: line 1, column 2: a quote neither begins nor ends a column, and is not doubled inside quotes\n",
        3,
    ),
    (
        &[b"--csv", b"--column", b"1"],
        b"\"1\"2,3\n",
        b"error: line 1, column 1: a quote neither begins nor ends a column, and is not doubled inside quotes\n",
        3,
    ),
    (
        &[b"--csv", b"--column", b"2"],
        b"\"a\"\"b\",\"1\"\"2\"\n",
        b"error: line 1, column 2: the byte at 9 is no part of an integer\n",
        3,
    ),
    (
        &[b"--csv", b"--column", b"3"],
        b"\"a,b\",c\n",
        b"error: line 1, column 3: there is no such column\n",
        3,
    ),
];

#[test]
fn faults_are_told(rt: HostRuntime) {
    for (words, input, text, status) in &FAULTS {
        assert!(rt; run_of(rt.alloc(), words, input).is(b"", text, *status));
    }
}

/// What is allowed, which follows each fault of the arguments.
const USAGE: &[u8] =
    b"usage: digit_sum [--column N [--separator C] [--csv]] [--places N | --floats] [--underscores] [--header] [--help]\n";

/// The arguments of rows that ask for nothing, and what is told of them before [`USAGE`].
static NO_REQUESTS: [(&[&[u8]], &[u8]); 21] = [
    (
        &[b"--float"],
        b"error: argument 1, `--float`, is no option\n",
    ),
    (
        &[b"--floats", b"numbers.txt"],
        b"error: argument 2, `numbers.txt`, is no option\n",
    ),
    (&[b""], b"error: argument 1, ``, is no option\n"),
    (
        &[b"--col=1"],
        b"error: argument 1, `--col=1`, is no option\n",
    ),
    (
        &[b"--column"],
        b"error: argument 1, `--column`, has no value\n",
    ),
    (
        &[b"--column", b"0"],
        b"error: argument 2, `0`, is no such value\n",
    ),
    (
        &[b"--column=0"],
        b"error: argument 1, `--column=0`, is no such value\n",
    ),
    (
        &[b"--floats=1"],
        b"error: argument 1, `--floats=1`, is no such value\n",
    ),
    (
        &[b"--places", b"39"],
        b"error: argument 2, `39`, is no such value\n",
    ),
    (
        &[b"--separator", b"ab"],
        b"error: argument 2, `ab`, is no such value\n",
    ),
    (
        &[b"--separator", b"\n"],
        b"error: argument 2, `\n`, is no such value\n",
    ),
    (
        &[b"--underscores", b"--underscores"],
        b"error: argument 2, `--underscores`, was given before\n",
    ),
    (
        &[b"--column=2", b"--column", b"2"],
        b"error: argument 2, `--column`, was given before\n",
    ),
    (
        &[b"--separator", b";"],
        b"error: a separator without a column\n",
    ),
    (&[b"--csv"], b"error: csv without a column\n"),
    (
        &[b"--csv=1"],
        b"error: argument 1, `--csv=1`, is no such value\n",
    ),
    (
        &[b"--floats", b"--places", b"2"],
        b"error: floats with places\n",
    ),
    (
        &[b"--places", b"2", b"--floats"],
        b"error: floats with places\n",
    ),
    (
        &[b"--floats", b"--floats"],
        b"error: argument 2, `--floats`, was given before\n",
    ),
    (
        &[b"--header", b"--header"],
        b"error: argument 2, `--header`, was given before\n",
    ),
    (
        &[b"--header=1"],
        b"error: argument 1, `--header=1`, is no such value\n",
    ),
];

#[test]
fn an_unknown_argument_is_quoted(rt: HostRuntime) -> Result<(), Fail> {
    for (words, text) in &NO_REQUESTS {
        let mut told = Vec::new(rt.alloc());
        told.extend_from_slice(text)?;
        told.extend_from_slice(USAGE)?;
        assert!(rt; run_of(rt.alloc(), words, b"1\n").is(b"", told.as_slice(), 2));
    }
    Ok(())
}

#[test]
fn help_is_written(rt: HostRuntime) {
    let outcome = run_of(rt.alloc(), &[b"--column", b"2", b"--help"], b"x\n");
    assert!(rt; outcome.written.as_slice().starts_with(USAGE));
    assert!(rt; outcome.told.is_empty() && outcome.status == 0);
}

/// So many times a line, a line in the middle, and those again.
fn many_lines(alloc: Global, line: &[u8], middle: &[u8]) -> Result<Vec<u8>, AllocError> {
    let mut text = Vec::new(alloc);
    for _ in 0..3000 {
        text.extend_from_slice(line)?;
    }
    text.extend_from_slice(middle)?;
    for _ in 0..3000 {
        text.extend_from_slice(line)?;
    }
    Ok(text)
}

/// A line of many, the one in their middle, what is written or told, and the status.
static MANY: [(&[u8], &[u8], &[u8], &[u8], u8); 9] = [
    (
        b"1234567\n",
        b"",
        b"count=6000 sum=7407402000 min=1234567 max=1234567\n",
        b"",
        0,
    ),
    (
        b" -1234567\r\n",
        b"+5\n",
        b"count=6001 sum=-7407401995 min=-1234567 max=5\n",
        b"",
        0,
    ),
    (
        b"1\n",
        b"10000000000000000000\n",
        b"count=6001 sum=10000000000000006000 min=1 max=10000000000000000000\n",
        b"",
        0,
    ),
    (
        b"-9223372036854775808\n",
        b"9223372036854775807\n",
        b"count=6001 sum=-55331008849091800072193 min=-9223372036854775808 max=9223372036854775807\n",
        b"",
        0,
    ),
    (
        b"12\n",
        b"1x\n",
        b"",
        b"error: line 3001: the byte at 1 is no part of an integer\n",
        3,
    ),
    (
        b"12\n",
        b"\n",
        b"",
        b"error: line 3001: there is no digit at 0\n",
        3,
    ),
    (
        b"12\n",
        b"12",
        b"count=6000 sum=73200 min=12 max=1212\n",
        b"",
        0,
    ),
    (
        b"3\n",
        b"170141183460469231731687303715884096000\n",
        b"",
        b"error: line 3244: the sum leaves 128 bits\n",
        4,
    ),
    (
        b"1\r",
        b"",
        b"",
        b"error: line 1: the byte at 2 is no part of an integer\n",
        3,
    ),
];

#[test]
fn many_lines_are_added(rt: HostRuntime) -> Result<(), Fail> {
    for (line, middle, written, told, status) in &MANY {
        let text = many_lines(rt.alloc(), line, middle)?;
        assert!(rt; run_of(rt.alloc(), &[], text.as_slice()).is(written, told, *status));
    }
    Ok(())
}

/// Sixty bytes, of which the last line has no line feed.
pub const SIXTY: &[u8] =
    b"1\n22\n-333\n4444\n 55555\n666666\r\n7777777\n88888888\n9\n10\n11\n-1234";

pub const SIXTY_TOTALS: &[u8] = b"count=12 sum=97391816 min=-1234 max=88888888\n";

/// The same, where the first of their lines is a header.
const HEADED_TOTALS: &[u8] = b"count=11 sum=97391815 min=-1234 max=88888888\n";

/// Runs the program over the sixty bytes, of which `first` come at the first read.
fn run_cut(alloc: Global, words: &[&[u8]], first: usize, then: usize) -> Outcome {
    let mut reader = ScriptedReader {
        rest: SIXTY,
        again: &[],
        turns: Turns {
            first: &[Turn::Pass(first)],
            then: Turn::Pass(then),
        },
    };
    run_over(alloc, words, &mut reader)
}

#[test]
fn a_stream_may_break_anywhere(rt: HostRuntime) {
    for first in 1..SIXTY.len() {
        for then in [1, usize::MAX] {
            let header: [&[u8]; 1] = [b"--header"];
            assert!(rt; run_cut(rt.alloc(), &[], first, then).is(SIXTY_TOTALS, b"", 0));
            assert!(rt; run_cut(rt.alloc(), &header, first, then).is(HEADED_TOTALS, b"", 0));
        }
    }
}

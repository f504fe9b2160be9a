//! Numbers of a stream that comes in pieces, by worked rows.

use super::readers::{Pieces, Turn};
use digit_floats::FloatError;
use digit_literals::{COMMAS, Gap, LINES, WHITESPACE};
use digit_pieces::Floats;
use digit_streams::{NumberReader, StreamEnd, StreamError};
use lexical_format::STANDARD;
use std::io::ErrorKind;

/// A text, what is between its numbers, its floats, how many they are, and why no more.
type Row = (&'static [u8], Gap, [f64; 4], usize, StreamEnd<FloatError>);

static ROWS: [Row; 12] = [
    (b"", WHITESPACE, [0.0; 4], 0, StreamEnd::Over(0)),
    (b" \n\n ", WHITESPACE, [0.0; 4], 0, StreamEnd::Over(4)),
    (
        b"1.5,-2e3",
        COMMAS,
        [1.5, -2000.0, 0.0, 0.0],
        2,
        StreamEnd::Over(8),
    ),
    (
        b"1.,  -.5e-1]",
        COMMAS,
        [1.0, -0.05, 0.0, 0.0],
        2,
        StreamEnd::Over(11),
    ),
    (
        b"1\r\n-2\r\n3\r\n",
        LINES,
        [1.0, -2.0, 3.0, 0.0],
        3,
        StreamEnd::Over(10),
    ),
    (
        b"1\n\n2",
        LINES,
        [1.0, 0.0, 0.0, 0.0],
        1,
        StreamEnd::Over(2),
    ),
    (
        b"12 34\t\n56 ",
        WHITESPACE,
        [12.0, 34.0, 56.0, 0.0],
        3,
        StreamEnd::Over(10),
    ),
    (
        b"1,2,3,4",
        COMMAS,
        [1.0, 2.0, 3.0, 4.0],
        4,
        StreamEnd::Over(7),
    ),
    (
        b"1,2,x",
        COMMAS,
        [1.0, 2.0, 0.0, 0.0],
        2,
        StreamEnd::Fault(StreamError::Number(FloatError::Empty(4))),
    ),
    (
        b"1e5,2e",
        COMMAS,
        [100_000.0, 0.0, 0.0, 0.0],
        1,
        StreamEnd::Fault(StreamError::Number(FloatError::EmptyExponent(6))),
    ),
    (
        b"1,",
        COMMAS,
        [1.0, 0.0, 0.0, 0.0],
        1,
        StreamEnd::Fault(StreamError::Number(FloatError::Empty(2))),
    ),
    (
        b"0.25;1",
        COMMAS,
        [0.25, 0.0, 0.0, 0.0],
        1,
        StreamEnd::Over(4),
    ),
];

/// What was read of a stream: numbers, how many, and why no more.
#[derive(Clone, Copy, Debug, PartialEq)]
struct All {
    numbers: [f64; 4],
    count: usize,
    end: StreamEnd<FloatError>,
}

/// Whether the next call reads on.
fn reads_on(error: StreamError<FloatError>) -> bool {
    error == StreamError::Read(ErrorKind::WouldBlock)
        || error == StreamError::Read(ErrorKind::TimedOut)
}

/// Reads the floats of a stream, so many at a call.
#[tactic(auto, unfolding(lexical_format::proofs::OnLiterals::lexical_on_literals))]
fn read_by(reader: Pieces<'_>, buffer: &mut [u8], gap: Gap, places: usize) -> All {
    let mut reader = NumberReader::new(reader, buffer, Floats::<f64>::new(STANDARD), gap);
    let mut numbers = [0.0; 4];
    let mut count = 0;
    let mut end = StreamEnd::Full(0);
    for _ in 0..99 {
        if count >= 4 {
            break;
        }
        let room = (4 - count).min(places);
        let read = reader.read_into(&mut numbers[count..count + room]);
        count += read.count;
        end = read.end;
        match end {
            StreamEnd::Full(_) => {}
            StreamEnd::Over(_) => break,
            StreamEnd::Fault(error) => {
                if !reads_on(error) {
                    break;
                }
            }
        }
    }
    All {
        numbers,
        count,
        end,
    }
}

/// Reads the floats of a stream one by one.
#[tactic(auto, unfolding(lexical_format::proofs::OnLiterals::lexical_on_literals))]
fn read_singly(reader: Pieces<'_>, buffer: &mut [u8], gap: Gap) -> All {
    let mut reader = NumberReader::new(reader, buffer, Floats::<f64>::new(STANDARD), gap);
    let mut numbers = [0.0; 4];
    let mut end = StreamEnd::Full(0);
    let mut count = 0;
    for _ in 0..99 {
        match reader.next_number() {
            Some(Ok(x)) => {
                if count >= 4 {
                    break;
                }
                numbers[count] = x;
                count += 1;
            }
            Some(Err(error)) => {
                end = StreamEnd::Fault(error);
                if !reads_on(error) {
                    break;
                }
            }
            None => {
                end = StreamEnd::Over(reader.position());
                break;
            }
        }
    }
    All {
        numbers,
        count,
        end,
    }
}

/// The first row that is read otherwise in pieces of so many bytes.
fn wrongly_read(turns: &[Turn]) -> Option<All> {
    for (text, gap, numbers, count, end) in &ROWS {
        let all = All {
            numbers: *numbers,
            count: *count,
            end: *end,
        };
        for places in 1..5 {
            let read = read_by(Pieces::new(text, turns), &mut [0; 16], *gap, places);
            if read != all {
                return Some(read);
            }
        }
        let read = read_singly(Pieces::new(text, turns), &mut [0; 16], *gap);
        if read != all {
            return Some(read);
        }
        let read = read_singly(Pieces::new(text, turns), &mut [0; 64], *gap);
        if read != all {
            return Some(read);
        }
    }
    None
}

#[test]
fn texts_in_pieces(rt: HostRuntime) {
    for most in 1..10 {
        assert_eq!(rt; wrongly_read(&[Turn::Pass(most)]), None);
        assert_eq!(rt; wrongly_read(&[Turn::Interrupt, Turn::Pass(most)]), None);
        assert_eq!(rt; wrongly_read(&[Turn::Pass(most), Turn::Wait]), None);
        let turns = [
            Turn::TimeOut,
            Turn::Pass(most),
            Turn::Wait,
            Turn::Interrupt,
            Turn::Wait,
        ];
        assert_eq!(rt; wrongly_read(&turns), None);
    }
    assert_eq!(rt;
        wrongly_read(&[Turn::Pass(1), Turn::Pass(5), Turn::Pass(2)]),
        None
    );
}

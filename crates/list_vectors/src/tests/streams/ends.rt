//! Readers that fail, buffers that are too small, and what is answered again.

use super::readers::{Pieces, Turn};
use digit_literals::{COMMAS, LiteralError};
use digit_pieces::Integers;
use digit_streams::{FoldError, NumberReader, StreamEnd, StreamError};
use lexical_format::STANDARD;
use std::alloc::Global;
use std::io::{ErrorKind, Read};

/// The first numbers of a text, and why no more, at two calls.
type Twice = (
    usize,
    StreamEnd<LiteralError>,
    usize,
    StreamEnd<LiteralError>,
);

#[tactic(auto, unfolding(lexical_format::proofs::OnLiterals::lexical_on_literals))]
fn read_twice(text: &[u8], turns: &[Turn], buffer: &mut [u8]) -> Twice {
    let kind = Integers::<u64>::new(STANDARD);
    let mut reader = NumberReader::new(Pieces::new(text, turns), buffer, kind, COMMAS);
    let mut out = [0; 4];
    let first = reader.read_into(&mut out);
    let again = reader.read_into(&mut out);
    (first.count, first.end, again.count, again.end)
}

#[test]
fn a_reader_that_fails(rt: HostRuntime) {
    let failed = StreamEnd::Fault(StreamError::Read(ErrorKind::Other));
    let turns = [Turn::Pass(3), Turn::Fail];
    assert_eq!(rt;
        read_twice(b"1,2,3,4", &turns, &mut [0; 16]),
        (1, failed, 0, failed)
    );
    let turns = [Turn::Pass(4), Turn::Interrupt, Turn::Fail];
    assert_eq!(rt;
        read_twice(b"1,2,3,4", &turns, &mut [0; 16]),
        (2, failed, 0, failed)
    );
    assert_eq!(rt;
        read_twice(b"1,2,3,4", &[Turn::Fail], &mut [0; 16]),
        (0, failed, 0, failed)
    );
}

/// The numbers before the reader had to wait count, and the next call goes on after them.
#[test]
fn a_reader_that_waits(rt: HostRuntime) {
    let waits = StreamEnd::Fault(StreamError::Read(ErrorKind::WouldBlock));
    let late = StreamEnd::Fault(StreamError::Read(ErrorKind::TimedOut));
    let turns = [Turn::Pass(3), Turn::Wait];
    assert_eq!(rt;
        read_twice(b"1,2,3,4", &turns, &mut [0; 16]),
        (1, waits, 2, waits)
    );
    let turns = [Turn::TimeOut, Turn::Pass(9)];
    assert_eq!(rt;
        read_twice(b"1,2,3", &turns, &mut [0; 16]),
        (0, late, 2, late)
    );
    let turns = [Turn::Pass(4), Turn::Wait, Turn::Fail];
    let failed = StreamEnd::Fault(StreamError::Read(ErrorKind::Other));
    assert_eq!(rt;
        read_twice(b"1,2,3,4", &turns, &mut [0; 16]),
        (2, waits, 0, failed)
    );
}

/// Whether a stream is finished isn't known before the reader says so.
#[tactic(auto, unfolding(lexical_format::proofs::OnLiterals::lexical_on_literals))]
#[test]
fn an_end_that_waits(rt: HostRuntime) {
    let kind = Integers::<u64>::new(STANDARD);
    let waits = StreamError::Read(ErrorKind::WouldBlock);
    let turns = [Turn::Pass(2), Turn::Wait];
    let mut buffer = [0; 8];
    let mut numbers = NumberReader::new(Pieces::new(b"1,", &turns), &mut buffer, kind, COMMAS);
    assert_eq!(rt; numbers.next_number(), Some(Ok(1)));
    assert_eq!(rt; numbers.finish(), Err(waits));
    assert_eq!(rt; numbers.finish(), Ok(()));
}

#[test]
fn numbers_as_long_as_the_buffer(rt: HostRuntime) {
    let turns = [Turn::Pass(3)];
    let over = StreamEnd::Over(9);
    assert_eq!(rt;
        read_twice(b"1234,5678", &turns, &mut [0; 5]),
        (2, over, 0, over)
    );
    let no_room = StreamEnd::Fault(StreamError::NoRoom(0));
    assert_eq!(rt;
        read_twice(b"1234,5678", &turns, &mut [0; 4]),
        (0, no_room, 0, no_room)
    );
    let no_room = StreamEnd::Fault(StreamError::NoRoom(2));
    assert_eq!(rt;
        read_twice(b"1,2345", &turns, &mut [0; 4]),
        (1, no_room, 0, no_room)
    );
    let no_room = StreamEnd::Fault(StreamError::NoRoom(2));
    assert_eq!(rt;
        read_twice(b"1,2   ,3", &turns, &mut [0; 4]),
        (1, no_room, 0, no_room)
    );
    let no_room = StreamEnd::Fault(StreamError::NoRoom(0));
    assert_eq!(rt; read_twice(b"1", &turns, &mut []), (0, no_room, 0, no_room));
}

#[test]
fn an_end_stays(rt: HostRuntime) {
    let turns = [Turn::Pass(2)];
    let fault = StreamEnd::Fault(StreamError::Number(LiteralError::Empty(2)));
    assert_eq!(rt;
        read_twice(b"1,x", &turns, &mut [0; 8]),
        (1, fault, 0, fault)
    );
    let over = StreamEnd::Over(3);
    assert_eq!(rt;
        read_twice(b"1,2;3", &turns, &mut [0; 8]),
        (2, over, 0, over)
    );
    let (full, end) = (StreamEnd::Full(8), StreamEnd::Over(9));
    assert_eq!(rt;
        read_twice(b"1,2,3,4,5", &turns, &mut [0; 8]),
        (4, full, 1, end)
    );
}

/// What is left of a stream after its list.
#[tactic(auto, unfolding(lexical_format::proofs::OnLiterals::lexical_on_literals))]
#[test]
fn the_rest_of_a_stream(rt: HostRuntime) {
    let kind = Integers::<u64>::new(STANDARD);
    let mut buffer = [0; 8];
    let reader = Pieces::new(b"[1,2] and more", &[Turn::Pass(4)]);
    let mut numbers = NumberReader::new(reader, &mut buffer, kind, COMMAS);
    let fault = StreamError::Number(LiteralError::Empty(0));
    assert_eq!(rt; numbers.next_number(), Some(Err(fault)));
    assert_eq!(rt; numbers.next_number(), Some(Err(fault)));
    assert!(rt; numbers.position() == 0 && numbers.unread() == b"[1,2".as_slice());
}

/// After a list that is over the reader can be used again.
#[tactic(auto, unfolding(lexical_format::proofs::OnLiterals::lexical_on_literals))]
#[test]
fn a_reader_that_is_lent(rt: HostRuntime) {
    let kind = Integers::<u64>::new(STANDARD);
    let mut reader = Pieces::new(b"1,2;rest", &[Turn::Pass(2)]);
    let mut buffer = [0; 8];
    let mut numbers = NumberReader::new(&mut reader, &mut buffer, kind, COMMAS);
    let mut out = [0; 4];
    let read = numbers.read_into(&mut out);
    assert!(rt; read.count == 2 && read.end == StreamEnd::Over(3));
    assert!(rt; numbers.position() == 3 && numbers.unread() == b";".as_slice());
    let mut rest = [0; 9];
    let more = reader.read(&mut rest).unwrap_or(0);
    assert!(rt; more == 2 && rest.starts_with(b"re"));
}

/// The text of an error, or of memory that is refused.
fn told(alloc: Global, error: StreamError<LiteralError>) -> String {
    format!(in alloc; "{error}").unwrap_or(String::new(alloc))
}

#[test]
fn errors_are_told(rt: HostRuntime) {
    let alloc = rt.alloc();
    let number = told(alloc, StreamError::Number(LiteralError::Empty(7)));
    assert_eq!(rt; number.as_str(), "there is no digit at 7");
    let no_room = told(alloc, StreamError::NoRoom(7));
    assert_eq!(rt;
        no_room.as_str(),
        "the buffer has no room for the number at 7"
    );
    let failed = told(alloc, StreamError::Read(ErrorKind::NotFound));
    assert_eq!(rt; failed.as_str(), "the reader failed: entity not found");
    let more = told(alloc, StreamError::Trailing(7, None));
    assert_eq!(rt; more.as_str(), "the byte at 7 follows the numbers");
    let reason = told(
        alloc,
        StreamError::Trailing(7, Some(LiteralError::Empty(8))),
    );
    assert_eq!(rt;
        reason.as_str(),
        "the byte at 7 follows the numbers: there is no digit at 8"
    );
    let refused: FoldError<LiteralError> = FoldError::Stopped(8);
    let said = format!(in alloc; "{refused}").unwrap_or(String::new(alloc));
    assert_eq!(rt; said.as_str(), "the numbers before 8 have no value");
    let long = told(alloc, StreamError::TooLong);
    assert_eq!(rt; long.as_str(), "a position is above 18446744073709551615");
}

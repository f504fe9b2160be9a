//! Lists in brackets of a stream, and the sum of one, as digit_uses has it.

use super::readers::{Pieces, Turn};
use digit_literals::{COMMAS, Integers, LiteralError};
use digit_streams::{NumberReader, StreamError};
use digit_uses::arrays::{SumError, sum_of_array};
use lexical_format::STANDARD;
use std::io::ErrorKind;

/// What is answered of a text that comes by these turns.
fn sum(text: &[u8], turns: &[Turn], buffer: &mut [u8]) -> Result<i128, SumError> {
    sum_of_array(Pieces::new(text, turns), buffer)
}

#[test]
fn an_array_cut_anywhere(rt: HostRuntime) {
    let text = b" [12,\n-5 , 1000\t\n,\r\n+7\n] x";
    for n in 1..28 {
        assert_eq!(rt; sum(text, &[Turn::Pass(n)], &mut [0; 8]), Ok(1014));
        let turns = [Turn::Interrupt, Turn::Pass(n)];
        assert_eq!(rt; sum(text, &turns, &mut [0; 64]), Ok(1014));
    }
}

#[test]
fn an_array_without_numbers(rt: HostRuntime) {
    let turns = [Turn::Pass(1)];
    assert_eq!(rt; sum(b"[]", &turns, &mut [0; 1]), Ok(0));
    // more blanks than the buffer has bytes
    assert_eq!(rt; sum(b"\n [ \r\n\t ]", &turns, &mut [0; 1]), Ok(0));
}

#[test]
fn an_array_with_a_fault(rt: HostRuntime) {
    let turns = [Turn::Pass(2)];
    let faults = [
        (b"".as_slice(), SumError::NoOpening(0)),
        (b"  ".as_slice(), SumError::NoOpening(2)),
        (b" 1, 2]".as_slice(), SumError::NoOpening(1)),
        (b"[1, 2".as_slice(), SumError::NoClosing(5)),
        (b"[1, 2 ".as_slice(), SumError::NoClosing(6)),
        (b"[1 2]".as_slice(), SumError::NoClosing(3)),
        (
            b"[1, x]".as_slice(),
            SumError::Number(LiteralError::Empty(4)),
        ),
        (
            b"[1, ]".as_slice(),
            SumError::Number(LiteralError::Empty(4)),
        ),
        (b"[".as_slice(), SumError::Number(LiteralError::Empty(1))),
    ];
    for (text, fault) in faults {
        assert_eq!(rt; sum(text, &turns, &mut [0; 8]), Err(fault));
    }
    let no_room = SumError::Stream(StreamError::NoRoom(4));
    assert_eq!(rt; sum(b"[1, 2345]", &turns, &mut [0; 4]), Err(no_room));
    let failed = SumError::Stream(StreamError::Read(ErrorKind::Other));
    let turns = [Turn::Pass(3), Turn::Fail];
    assert_eq!(rt; sum(b"[1, 2]", &turns, &mut [0; 8]), Err(failed));
}

#[test]
#[tactic(auto, unfolding(lexical_format::proofs::OnLiterals::lexical_on_literals))]
fn two_arrays_and_what_follows(rt: HostRuntime) {
    let turns = [Turn::Pass(1), Turn::Wait];
    let mut buffer = [0; 4];
    let kind = Integers::<u64>::new(STANDARD);
    let stream = Pieces::new(b"[1] [ 2,3 ];", &turns);
    // the caller read 100 bytes before these
    let mut numbers = NumberReader::new_at(stream, &mut buffer, kind, COMMAS, 100);
    let wait = StreamError::Read(ErrorKind::WouldBlock);
    assert_eq!(rt; numbers.pass_byte(b'['), Ok(true));
    assert_eq!(rt; numbers.position(), 101);
    assert_eq!(rt; numbers.pass_byte(b']'), Err(wait));
    assert_eq!(rt; numbers.pass_byte(b']'), Ok(false));
    assert_eq!(rt; numbers.next_number(), Some(Err(wait)));
    assert_eq!(rt; numbers.next_number(), Some(Ok(1)));
    assert_eq!(rt; numbers.next_number(), None);
    assert_eq!(rt; numbers.pass_byte(b';'), Ok(false));
    assert_eq!(rt; numbers.next_number(), None);
    assert_eq!(rt; numbers.pass_byte(b']'), Ok(true));
    assert_eq!(rt; numbers.position(), 103);
    assert_eq!(rt; numbers.pass_byte(b'['), Err(wait));
    assert_eq!(rt; numbers.position(), 103);
    assert_eq!(rt; numbers.pass_byte(b'['), Err(wait));
    // the blank was used
    assert_eq!(rt; numbers.position(), 104);
    assert_eq!(rt; numbers.pass_byte(b'['), Ok(true));
    assert_eq!(rt; numbers.position(), 105);
}

#[test]
#[tactic(auto, unfolding(lexical_format::proofs::OnLiterals::lexical_on_literals))]
fn a_fault_stays(rt: HostRuntime) {
    let mut buffer = [0; 8];
    let kind = Integers::<u64>::new(STANDARD);
    let mut numbers = NumberReader::new(b"[x]".as_slice(), &mut buffer, kind, COMMAS);
    let fault = StreamError::Number(LiteralError::Empty(1));
    assert_eq!(rt; numbers.pass_byte(b'['), Ok(true));
    assert_eq!(rt; numbers.next_number(), Some(Err(fault)));
    assert_eq!(rt; numbers.pass_byte(b'x'), Err(fault));
    assert_eq!(rt; numbers.position(), 1);
}

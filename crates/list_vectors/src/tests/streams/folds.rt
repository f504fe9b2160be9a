//! What steps make of the numbers of a stream.

use super::readers::{Pieces, Turn};
use digit_literals::{COMMAS, LiteralError, WHITESPACE};
use digit_pieces::{BracketError, Integers};
use digit_streams::{EnclosedFoldError, FoldError, NumberReader, StreamError, fold_stream};
use digit_uses::quotes::sum_of_prices;
use lexical_format::STANDARD;
use std::io::ErrorKind;

/// What adding the integers of a text comes to, up to 999.
#[tactic(auto, unfolding(lexical_format::proofs::OnLiterals::lexical_on_literals))]
fn sum(text: &[u8], turns: &[Turn], buffer: &mut [u8]) -> Result<u32, FoldError<LiteralError>> {
    let kind = Integers::<u32>::new(STANDARD);
    fold_stream(Pieces::new(text, turns), buffer, kind, COMMAS, 0, add)
}

fn add(sum: u32, number: u32) -> Option<u32> {
    match sum.checked_add(number) {
        Some(sum) if sum < 1000 => Some(sum),
        _ => None,
    }
}

#[test]
fn a_fold_cut_anywhere(rt: HostRuntime) {
    for n in 1..14 {
        let turns = [Turn::Pass(n), Turn::Interrupt];
        assert_eq!(rt; sum(b"12, 5 ,100 ,0", &turns, &mut [0; 8]), Ok(117));
        assert_eq!(rt; sum(b"7", &turns, &mut [0; 8]), Ok(7));
        let stopped = Err(FoldError::Stopped(9));
        assert_eq!(rt; sum(b"1,998, 1,x", &turns, &mut [0; 8]), stopped);
        let stopped = Err(FoldError::Stopped(4));
        assert_eq!(rt; sum(b"1000", &turns, &mut [0; 8]), stopped);
    }
}

#[test]
fn a_fold_without_a_value(rt: HostRuntime) {
    let turns = [Turn::Pass(2)];
    let fault = |error| Err(FoldError::Stream(error));
    let empty = StreamError::Number(LiteralError::Empty(0));
    assert_eq!(rt; sum(b"", &turns, &mut [0; 8]), fault(empty));
    let empty = StreamError::Number(LiteralError::Empty(4));
    assert_eq!(rt; sum(b"1,2,x", &turns, &mut [0; 8]), fault(empty));
    assert_eq!(rt; sum(b"1,2,", &turns, &mut [0; 8]), fault(empty));
    let trailing = StreamError::Trailing(3, Some(LiteralError::Empty(3)));
    assert_eq!(rt; sum(b"1,2;", &turns, &mut [0; 8]), fault(trailing));
    assert_eq!(rt;
        sum(b"1,2345,", &turns, &mut [0; 4]),
        fault(StreamError::NoRoom(2))
    );
    let turns = [Turn::Pass(3), Turn::Fail];
    let failed = StreamError::Read(ErrorKind::Other);
    assert_eq!(rt; sum(b"1,2,3", &turns, &mut [0; 8]), fault(failed));
    assert_eq!(rt; sum(b"1", &[Turn::Fail], &mut [0; 8]), fault(failed));
}

/// A reader that had nothing yet goes on; a list that is over stays over.
#[test]
#[tactic(auto, unfolding(lexical_format::proofs::OnLiterals::lexical_on_literals))]
fn folds_in_a_row(rt: HostRuntime) {
    let kind = Integers::<u32>::new(STANDARD);
    let mut buffer = [0; 8];
    let turns = [Turn::Pass(4), Turn::Wait, Turn::Pass(9)];
    let stream = Pieces::new(b"1 2 30 4 x", &turns);
    let mut numbers = NumberReader::new(stream, &mut buffer, kind, WHITESPACE);
    let waits = FoldError::Stream(StreamError::Read(ErrorKind::WouldBlock));
    assert_eq!(rt; numbers.fold_numbers(0, add), Err(waits));
    assert_eq!(rt; numbers.position(), 4);
    assert_eq!(rt; numbers.fold_numbers(0, add), Ok(34));
    assert_eq!(rt; numbers.position(), 9);
    assert_eq!(rt; numbers.fold_numbers(0, add), Ok(0));
    let trailing = StreamError::Trailing(9, Some(LiteralError::Empty(9)));
    assert_eq!(rt; numbers.finish(), Err(trailing));
}

#[test]
#[tactic(auto, unfolding(lexical_format::proofs::OnLiterals::lexical_on_literals))]
fn a_fold_after_a_stop(rt: HostRuntime) {
    let kind = Integers::<u32>::new(STANDARD);
    let mut buffer = [0; 8];
    let stream = Pieces::new(b"999,1,2,3", &[Turn::Pass(2)]);
    let mut numbers = NumberReader::new(stream, &mut buffer, kind, COMMAS);
    assert_eq!(rt; numbers.fold_numbers(0, add), Err(FoldError::Stopped(6)));
    assert_eq!(rt; numbers.position(), 6);
    assert_eq!(rt; numbers.fold_numbers(0, add), Ok(5));
    assert_eq!(rt; numbers.finish(), Ok(()));
}

#[test]
#[tactic(auto, unfolding(lexical_format::proofs::OnLiterals::lexical_on_literals))]
fn folds_between_brackets(rt: HostRuntime) {
    let kind = Integers::<u32>::new(STANDARD);
    for n in 1..20 {
        let mut buffer = [0; 8];
        let turns = [Turn::Pass(n), Turn::Interrupt];
        let stream = Pieces::new(b" [1, 20] [ ][3 ,4]\n[5;", &turns);
        let mut numbers = NumberReader::new(stream, &mut buffer, kind, COMMAS);
        assert_eq!(rt; numbers.fold_enclosed(b'[', b']', 0, add), Ok(21));
        assert_eq!(rt; numbers.fold_enclosed(b'[', b']', 9, add), Ok(9));
        assert_eq!(rt; numbers.fold_enclosed(b'[', b']', 0, add), Ok(7));
        let open = EnclosedFoldError::NoClosing(21);
        assert_eq!(rt; numbers.fold_enclosed(b'[', b']', 0, add), Err(open));
        let none = EnclosedFoldError::NoOpening(21);
        assert_eq!(rt; numbers.fold_enclosed(b'[', b']', 0, add), Err(none));
    }
}

/// What adding the integers between two brackets comes to, byte by byte.
#[tactic(auto, unfolding(lexical_format::proofs::OnLiterals::lexical_on_literals))]
fn folded(text: &[u8]) -> Result<u32, EnclosedFoldError<LiteralError>> {
    let kind = Integers::<u32>::new(STANDARD);
    let mut buffer = [0; 8];
    let turns = [Turn::Pass(1)];
    let stream = Pieces::new(text, &turns);
    let mut numbers = NumberReader::new(stream, &mut buffer, kind, COMMAS);
    numbers.fold_enclosed(b'[', b']', 0, add)
}

#[test]
fn faults_between_brackets(rt: HostRuntime) {
    let number = |at| FoldError::Stream(StreamError::Number(LiteralError::Empty(at)));
    assert_eq!(rt; folded(b"[1,]"), Err(EnclosedFoldError::Fold(number(3))));
    assert_eq!(rt; folded(b"[x]"), Err(EnclosedFoldError::Fold(number(1))));
    let stopped = FoldError::Stopped(7);
    assert_eq!(rt; folded(b"[999, 1]"), Err(EnclosedFoldError::Fold(stopped)));
    assert_eq!(rt; folded(b""), Err(EnclosedFoldError::NoOpening(0)));
    assert_eq!(rt; folded(b"["), Err(EnclosedFoldError::Fold(number(1))));
}

/// The sum of prices in quotes, as digit_uses has it.
#[test]
fn prices_in_quotes(rt: HostRuntime) {
    for n in 1..18 {
        let turns = [Turn::Pass(n), Turn::Interrupt];
        let stream = Pieces::new(b"\"1.50\"\n\"-2.2\"\r\n\"1000\"\n", &turns);
        assert_eq!(rt; sum_of_prices(stream, &mut [0; 16]), Ok(99_930));
        let stream = Pieces::new(b"\"1.50\"\n2.25", &turns);
        let trailing = StreamError::Trailing(7, Some(BracketError::NoOpening(7)));
        assert_eq!(rt; sum_of_prices(stream, &mut [0; 16]), Err(trailing));
        let stream = Pieces::new(b"\"1.50", &turns);
        let open = StreamError::Number(BracketError::NoClosing(5));
        assert_eq!(rt; sum_of_prices(stream, &mut [0; 16]), Err(open));
    }
}

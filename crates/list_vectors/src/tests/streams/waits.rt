//! What is answered before a reader is asked again: here the second read fails.

use super::readers::{Pieces, Turn};
use digit_literals::{COMMAS, Gap, LINES, LiteralError, SPACES_IN_LINE, WHITESPACE};
use digit_pieces::Integers;
use digit_streams::{NumberReader, StreamEnd, StreamError};
use lexical_format::STANDARD;
use std::io::ErrorKind;

/// A comma or blanks, so that what follows a blank decides.
const COMMAS_OR_BLANKS: Gap = Gap {
    blanks_separate: true,
    ..COMMAS
};

/// What comes at the first read, what is between its numbers, and where its only number is used.
static ROWS: [(&[u8], Gap, u64); 7] = [
    (b"1\n", WHITESPACE, 2),
    (b"1\r\n", WHITESPACE, 2),
    (b" 1   ", WHITESPACE, 3),
    (b"1 ", SPACES_IN_LINE, 2),
    (b"1\n", LINES, 2),
    (b"1 \n", LINES, 3),
    (b"1 ,", COMMAS, 3),
];

#[test]
#[tactic(auto, unfolding(lexical_format::proofs::OnLiterals::lexical_on_literals))]
fn a_number_comes_before_the_next_read(rt: HostRuntime) {
    let kind = Integers::<u64>::new(STANDARD);
    for &(line, gap, used) in &ROWS {
        let turns = [Turn::Pass(line.len()), Turn::Fail];
        let mut buffer = [0; 8];
        let mut numbers = NumberReader::new(Pieces::new(line, &turns), &mut buffer, kind, gap);
        let number = numbers.next_number();
        assert!(rt; number == Some(Ok(1)), "{line:?}: {number:?}");
        assert_eq!(rt; numbers.position(), used);
        let mut buffer = [0; 8];
        let mut numbers = NumberReader::new(Pieces::new(line, &turns), &mut buffer, kind, gap);
        let read = numbers.read_into(&mut [0]);
        assert!(rt;
            read.count == 1 && read.end == StreamEnd::Full(used),
            "{line:?}: {read:?}"
        );
    }
}

#[test]
#[tactic(auto, unfolding(lexical_format::proofs::OnLiterals::lexical_on_literals))]
fn what_decides_is_read(rt: HostRuntime) {
    let kind = Integers::<u64>::new(STANDARD);
    let failed: Option<Result<u64, StreamError<LiteralError>>> = Some(Err(StreamError::Read(
        ErrorKind::Other,
    )));
    for (line, gap) in [
        (b"1 ", COMMAS_OR_BLANKS),
        (b"1 ", LINES),
        (b"12", WHITESPACE),
    ] {
        let mut buffer = [0; 8];
        let reader = Pieces::new(line, &[Turn::Pass(2), Turn::Fail]);
        let mut numbers = NumberReader::new(reader, &mut buffer, kind, gap);
        assert_eq!(rt; numbers.next_number(), failed);
    }
}

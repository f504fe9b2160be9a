//! Why no number begins where a stream goes on after its numbers.

use super::readers::{Pieces, Turn};
use digit_amounts::ScaledError;
use digit_literals::{COMMAS, Gap, LINES, LiteralError, WHITESPACE};
use digit_pieces::{BracketError, Enclosed, Integers, Scaled};
use digit_streams::{NumberReader, StreamError};
use lexical_format::STANDARD;

type PriceReason = BracketError<ScaledError>;

/// What `finish` answers after the integers of a text that comes in pieces of so many bytes.
#[tactic(auto, unfolding(lexical_format::proofs::OnLiterals::lexical_on_literals))]
fn after_integers(text: &[u8], gap: Gap, most: usize) -> Result<(), StreamError<LiteralError>> {
    let turns = [Turn::Pass(most)];
    let kind = Integers::<i64>::new(STANDARD);
    let mut buffer = [0; 24];
    let mut numbers = NumberReader::new(Pieces::new(text, &turns), &mut buffer, kind, gap);
    for _ in 0..9 {
        if numbers.next_number().is_none() {
            break;
        }
    }
    numbers.finish()
}

/// The same after prices in quotes, one in each line.
#[tactic(auto, unfolding(lexical_format::proofs::OnLiterals::lexical_on_literals))]
fn after_prices(text: &[u8], most: usize) -> Result<(), StreamError<PriceReason>> {
    let turns = [Turn::Pass(most)];
    let kind = Enclosed {
        opening: b'"',
        kind: Scaled::<i64>::new(STANDARD, b'.', 2),
        closing: b'"',
    };
    let mut buffer = [0; 8];
    let mut numbers = NumberReader::new(Pieces::new(text, &turns), &mut buffer, kind, LINES);
    for _ in 0..9 {
        if numbers.next_number().is_none() {
            break;
        }
    }
    numbers.finish()
}

/// The positions count bytes of the stream, however few the buffer holds.
#[test]
fn a_price_without_quotes(rt: HostRuntime) {
    for most in 1..9 {
        for (text, at) in [
            (b"1.50".as_slice(), 0),
            (b"1.50\n".as_slice(), 0),
            (b"\"1.50\"\n2.00\n".as_slice(), 7),
            (b"\"1.50\"\n\"2\"\n\"3\"\n4".as_slice(), 15),
        ] {
            let reason = BracketError::NoOpening(at);
            assert_eq!(rt;
                after_prices(text, most),
                Err(StreamError::Trailing(at as u64, Some(reason)))
            );
        }
    }
}

#[test]
fn no_number_begins(rt: HostRuntime) {
    for most in 1..9 {
        for (text, gap, at) in [
            (b"x".as_slice(), WHITESPACE, 0),
            (b"12 ]".as_slice(), WHITESPACE, 3),
            (b"12\n\n3".as_slice(), LINES, 3),
            (b"12 ;3".as_slice(), COMMAS, 3),
        ] {
            let reason = LiteralError::Empty(at);
            assert_eq!(rt;
                after_integers(text, gap, most),
                Err(StreamError::Trailing(at as u64, Some(reason)))
            );
        }
    }
    let reason = LiteralError::Empty(3);
    assert_eq!(rt;
        after_integers(b"1 -;", COMMAS, 4),
        Err(StreamError::Trailing(2, Some(reason)))
    );
    let large = Some(LiteralError::Overflow(20));
    assert_eq!(rt;
        after_integers(b"1 9223372036854775808;", COMMAS, 64),
        Err(StreamError::Trailing(2, large))
    );
}

/// Only a separator is missing; or a number may begin, and nothing says yet that none does.
#[test]
fn a_number_begins(rt: HostRuntime) {
    for most in 1..9 {
        assert_eq!(rt;
            after_integers(b"1 2", COMMAS, most),
            Err(StreamError::Trailing(2, None))
        );
        assert_eq!(rt;
            after_integers(b"1\n2 3\n", LINES, most),
            Err(StreamError::Trailing(4, None))
        );
    }
    for most in 1..4 {
        assert_eq!(rt;
            after_integers(b"1 -", COMMAS, most),
            Err(StreamError::Trailing(2, None))
        );
    }
}

/// Before the first number the blanks are no part of the reason.
#[test]
#[tactic(auto, unfolding(lexical_format::proofs::OnLiterals::lexical_on_literals))]
fn blanks_before_a_number(rt: HostRuntime) {
    let kind = Integers::<i64>::new(STANDARD);
    for (text, reason) in [
        (b"  7".as_slice(), None),
        (b"  ;".as_slice(), Some(LiteralError::Empty(2))),
    ] {
        let mut buffer = [0; 8];
        let mut numbers = NumberReader::new(text, &mut buffer, kind, WHITESPACE);
        assert_eq!(rt; numbers.finish(), Err(StreamError::Trailing(0, reason)));
    }
}

#[test]
fn a_reason_is_told(rt: HostRuntime) {
    let alloc = rt.alloc();
    let error = StreamError::Trailing(4, Some(PriceReason::NoOpening(4)));
    let text = format!(in alloc; "{error}").unwrap_or(String::new(alloc));
    assert_eq!(rt;
        text.as_str(),
        "the byte at 4 follows the numbers: there is no opening byte at 4"
    );
}

//! A caller of a reader of numbers.

ghost use Rattle.digit_pieces.specs.Texts.{IsApart};
ghost use Rattle.digit_streams.specs.Streams.{IsNext, stream_list};

use digit_lists::read_list_by;
use digit_literals::{COMMAS, Gap, LINES, ListEnd, LiteralError, WHITESPACE};
use digit_pieces::{Integers, Kind};
use digit_streams::laws::first_two;
use digit_streams::{NumberReader, StreamError};
use digit_uses::kinds::UpTo;
use lexical_format::STANDARD;
use std::io::Read;

/// The sum of the integers of a stream, at most `u64::MAX`.
#[tactic(auto, unfolding(lexical_format::proofs::OnLiterals::lexical_on_literals))]
pub fn sum_of<R: Read + Drop>(reader: R) -> Result<u64, StreamError<LiteralError>> {
    let mut buffer = [0; 4096];
    let kind = Integers::<u64>::new(STANDARD);
    let mut numbers = NumberReader::new(reader, &mut buffer, kind, WHITESPACE);
    let mut sum: u64 = 0;
    for _ in 0..u64::MAX {
        match numbers.next_number() {
            Some(Ok(number)) => sum = sum.saturating_add(number),
            Some(Err(error)) => return Err(error),
            None => break,
        }
    }
    numbers.finish()?;
    Ok(sum)
}

/// The first number of a text, by a buffer: what a caller knows of a stream whose bytes are known.
pub fn first_of<K: Kind>(
    text: &[u8],
    buffer: &mut [u8],
    kind: K,
    gap: Gap,
) -> Option<Result<K::Number, StreamError<K::Error>>>
    requires { K.valid kind }
    ensures { IsApart (K.has_byte kind) gap → IsNext K.meaning
        (stream_list (K.number_at kind) K.none_at K.error_later gap 0 text.now 1) result }
{
    NumberReader::new(text, buffer, kind, gap).next_number()
}

#[test]
#[tactic(auto, unfolding(lexical_format::proofs::OnLiterals::lexical_on_literals))]
fn a_sum(rt: HostRuntime) {
    assert_eq!(rt; sum_of(b"1 20\n300\r\n".as_slice()), Ok(321));
    assert_eq!(rt; sum_of(b"".as_slice()), Ok(0));
    let fault = StreamError::Number(LiteralError::Overflow(23));
    assert_eq!(rt; sum_of(b"12\n 18446744073709551616".as_slice()), Err(fault));
    assert_eq!(rt;
        sum_of(b"1 2 ] 3".as_slice()),
        Err(StreamError::Trailing(4, Some(LiteralError::Empty(4))))
    );
    let trailing = StreamError::Trailing(0, Some(LiteralError::Empty(0)));
    assert_eq!(rt; sum_of(b"x".as_slice()), Err(trailing));
    let first = first_of(
        b"12 3",
        &mut [0; 4],
        Integers::<u64>::new(STANDARD),
        WHITESPACE,
    );
    assert_eq!(rt; first, Some(Ok(12)));
    let two = first_two(
        b"12 3 4",
        &mut [0; 4],
        Integers::<u64>::new(STANDARD),
        WHITESPACE,
    );
    assert_eq!(rt; two, Some((12, 3)));
}

/// A kind of numbers of a caller's own, in a stream and in a list.
#[test]
#[tactic(auto, unfolding(lexical_format::proofs::OnLiterals::lexical_on_literals))]
fn a_kind_of_ones_own(rt: HostRuntime) {
    let percents = UpTo {
        word: STANDARD,
        most: 100,
    };
    let mut buffer = [0; 8];
    let stream = b"70\n100\n101\n".as_slice();
    let mut numbers = NumberReader::new(stream, &mut buffer, percents, LINES);
    assert_eq!(rt; numbers.next_number(), Some(Ok(70)));
    assert_eq!(rt; numbers.next_number(), Some(Ok(100)));
    let fault = StreamError::Number(LiteralError::Overflow(9));
    assert_eq!(rt; numbers.next_number(), Some(Err(fault)));
    let mut out = [0; 4];
    let read = read_list_by(percents, b"7, 100]", 0, COMMAS, &mut out);
    assert!(rt; out[..2] == [7, 100] && read.end == ListEnd::Over(6));
}

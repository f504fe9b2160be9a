//! The sum of an array of integers of a stream, such as a file or a socket, or where its fault is:
//! of the whole array, however it comes in pieces.
//!
//! Proof by hand: 14 lines, the answers of two goals.

ghost use Rattle.std.specs.Prelude.{◌≡◌};
ghost use Rattle.digits.specs.Words.{unstopped};
ghost use Rattle.digit_uses.specs.Arrays.{IsArraySum, fold_error};

use digits::{
    COMMAS, EnclosedFoldError, FoldError, Integers, LiteralError, NumberReader, STANDARD,
    StreamError, integers_are_apart,
};
use std::io::Read;

/// Why there is no sum of an array.
#[derive(Clone, Copy, Debug, PartialEq, Eq)]
pub enum SumError {
    /// There is no `[` at this position.
    NoOpening(u64),
    /// Why a number is missing where one has to be, or is refused.
    Number(LiteralError),
    /// There is neither a comma nor `]` at this position.
    NoClosing(u64),
    /// The buffer has no room for a number, or the reader failed.
    Stream(StreamError<LiteralError>),
}

/// The sum of the array of integers with which a stream begins: of `[1, -2]` it is -1, of `[ ]` 0,
/// and `[1, 2` gives `NoClosing(5)`. What follows the array doesn't matter. A buffer of 64 bytes is
/// enough, if no number with the blanks after it has more than 63.
#[tactic(auto, unfolding(digits::proofs::Literals::lexical_on_literals))]
pub fn sum_of_array<R: Read + Drop>(stream: R, buffer: &mut [u8]) -> Result<i128, SumError>
    ensures { IsArraySum (R.remaining stream) result }
{
    let kind = Integers::<i64>::new(STANDARD);
    integers_are_apart::<i64>(STANDARD, COMMAS);
    let mut numbers = NumberReader::new(stream, buffer, kind, COMMAS);
    let add = |sum: i128, number: i64| sum.checked_add(i128::from(number));
    match numbers.fold_enclosed(b'[', b']', 0, add) {
        Ok(sum) => Ok(sum),
        Err(error) => Err(why(error)),
    }
}

/// Why there is no sum. No sum of `i64` stops before the stream is too long.
fn why(error: EnclosedFoldError<LiteralError>) -> SumError
    ensures { fold_error result ≡ unstopped error }
{
    match error {
        EnclosedFoldError::NoOpening(at) => SumError::NoOpening(at),
        EnclosedFoldError::NoClosing(at) => SumError::NoClosing(at),
        EnclosedFoldError::Fold(FoldError::Stream(StreamError::Number(error))) => {
            SumError::Number(error)
        }
        EnclosedFoldError::Fold(error) => SumError::Stream(error.stream_error()),
    }
}

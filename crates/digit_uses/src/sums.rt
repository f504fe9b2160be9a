//! The sum of the integers of a stream, one in each line, such as a file or a socket: of the whole
//! text, however it comes in pieces. The contract of `fold_stream` says which numbers were added.
//! Also the sum of a list of any length, whose text is a stream, too.
//!
//! Proof by hand: 10 lines, the answers of two goals.

ghost use Rattle.std.specs.Prelude.{◌≤◌, length, IfSome};
ghost use Rattle.digit_uses.specs.Sums.{IsSum};

use digits::{
    COMMAS, FloatError, Floats, FoldError, Integers, LINES, LiteralError, NumberReader, STANDARD,
    StreamError, fold_stream, integers_are_apart,
};
use std::io::Read;

/// The sum of the integers of a stream, one in each line: of `1\n-2\n` it is -1, and `1\n2x` gives
/// `Trailing(3, Some(Empty(3)))`. A buffer of 64 bytes is enough, if no line has more than 63.
#[tactic(auto, unfolding(digits::proofs::Literals::lexical_on_literals))]
pub fn sum_of<R: Read + Drop>(
    stream: R,
    buffer: &mut [u8],
) -> Result<i128, StreamError<LiteralError>>
    ensures { IfSome (R.remaining stream) (λ text. IsSum text result) }
{
    integers_are_apart::<i64>(STANDARD, LINES);
    let kind = Integers::<i64>::new(STANDARD);
    let add = |sum: i128, number: i64| sum.checked_add(i128::from(number));
    match fold_stream(stream, buffer, kind, LINES, 0, add) {
        Ok(sum) => Ok(sum),
        Err(error) => Err(error.stream_error()),
    }
}

/// The sum of the floats that a text lists from `start` on, `1.5, 2, -3]`, however many they are,
/// and where the list ends.
#[tactic(auto, unfolding(digits::proofs::Literals::lexical_on_literals))]
pub fn sum_list(text: &[u8], start: usize) -> Result<(f64, u64), FoldError<FloatError>>
    requires { start ≤ length text.now }
{
    let mut buffer = [0; 512];
    let kind = Floats::<f64>::new(STANDARD);
    let rest = &text[start..];
    let mut numbers = NumberReader::new_at(rest, &mut buffer, kind, COMMAS, start as u64);
    let sum = numbers.fold_numbers(0.0, |sum: f64, number: f64| Some(sum + number))?;
    Ok((sum, numbers.position()))
}

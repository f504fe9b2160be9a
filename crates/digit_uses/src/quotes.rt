//! The sum of the prices of a stream, in quotes and one in each line, in cents: of the whole text,
//! however it comes in blocks. The kind of the prices is put together from two.
//!
//! Proof by hand: 14 lines, the answers of two goals.

ghost use Rattle.std.specs.Prelude.{IfSome};
ghost use Rattle.digit_uses.specs.Quotes.{IsPriceSum};

use digits::{
    BracketError, Enclosed, LINES, STANDARD, Scaled, ScaledError, StreamError, enclosed_are_apart,
    fold_stream, scaled_are_apart,
};
use std::io::Read;

/// The sum of the prices of a stream, in cents: of `"1.50"\n"2.25"\n` it is 375, and `"1.50"\n2.25`
/// gives `Trailing(7, Some(NoOpening(7)))`. A buffer of 64 bytes is enough, if no line has more
/// than 63.
#[tactic(auto, unfolding(digits::proofs::Literals::lexical_on_literals))]
pub fn sum_of_prices<R: Read + Drop>(
    stream: R,
    buffer: &mut [u8],
) -> Result<i128, StreamError<BracketError<ScaledError>>>
    ensures { IfSome (R.remaining stream) (λ text. IsPriceSum text result) }
{
    let cents = Scaled::<i64>::new(STANDARD, b'.', 2);
    scaled_are_apart(STANDARD, b'.', LINES);
    enclosed_are_apart(b'"', cents, b'"', LINES);
    let price = Enclosed {
        opening: b'"',
        kind: cents,
        closing: b'"',
    };
    let add = |sum: i128, cents: i64| sum.checked_add(i128::from(cents));
    match fold_stream(stream, buffer, price, LINES, 0, add) {
        Ok(sum) => Ok(sum),
        Err(error) => Err(error.stream_error()),
    }
}

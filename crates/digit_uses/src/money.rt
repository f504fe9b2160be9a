//! An amount of money in cents: `-1_234.5` is -123450. A digit after the hundredths is a zero, so
//! `0.125` is no amount, nor is `1e3`.
//!
//! Proof by hand: none.

ghost use Rattle.std.specs.Prelude.{◌≡◌, ◌≤◌, ◌-◌, ◌^◌, Ok, Err, IsTrue, MatchResult, length};
ghost use Rattle.digits.specs.Words.{IsDecimal, is_supported, read_scaled_at, whole_of};

use digits::{STANDARD, ScaledError, parse_scaled, read_scaled_from};

/// The cents that a text is.
pub fn parse_cents(text: &[u8], word: u128) -> Result<i64, ScaledError>
    requires supported { IsTrue (is_supported word) }
    requires decimal { IsDecimal word }
    ensures { let read =
        whole_of text.now (read_scaled_at word text.now 46 2 (2 ^ 63) (2 ^ 63 - 1) 0) in
        MatchResult result (λ cents. read ≡ Ok cents) (λ error. read ≡ Err error) }
{
    parse_scaled::<i64>(text, word, b'.', 2)
}

/// The cents of a field of a line, from `from` up to `to`: `12.5` is 1250, and `12.345` is a fault
/// at its `5`. Positions are those of the line.
#[tactic(auto, unfolding(digits::proofs::Literals::lexical_on_literals))]
pub fn cents_of_field(line: &[u8], from: usize, to: usize) -> Result<i64, ScaledError>
    requires order { from ≤ to }
    requires within { to ≤ length line.now }
{
    let (cents, end) = read_scaled_from::<i64>(&line[..to], STANDARD, from, b'.', 2)?;
    if end < to {
        return Err(ScaledError::Invalid(end));
    }
    Ok(cents)
}

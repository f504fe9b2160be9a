//! Numbers by a form in their parts, as a kind of numbers.

ghost use Rattle.std.specs.Prelude.{◌≡◌, ◌≤◌, length, Ok, Err, IfOk, MatchResult};
ghost use Rattle.digits.specs.Words.{IsForm};
ghost use Rattle.digits_c.specs.Numbers.{parts_at};

use super::numbers::NumberParts;
use super::source::FormSource;
use digit_pieces::{Kind, OfForm};
use digits::{NumberError, read_number_of};

/// The number of a form at a start, in its parts, and where it ends.
#[inline(always)]
#[tactic(auto, unfolding(crate::specs::Numbers::parts_at))]
fn read_one<S: FormSource>(
    text: &[u8],
    start: usize,
    source: S,
) -> Result<(NumberParts, usize), NumberError>
    requires within { start ≤ length text.now }
    requires form { IsForm (S.form source) }
    ensures is { let one = parts_at (S.form source) text.now start in
        MatchResult result (λ r. one ≡ Ok (r.0, r.1)) (λ error. one ≡ Err error) }
    ensures end { IfOk result (λ r. (start ≤ r.1) × (r.1 ≤ length text.now)) }
{
    match read_number_of::<f64>(text, start, source.form()) {
        Ok((number, end)) => Ok((NumberParts::of(number), end)),
        Err(error) => Err(error),
    }
}

/// Numbers by a form, in their parts.
#[derive(Clone, Copy)]
pub struct Parts<S: FormSource> {
    /// What gives the form.
    pub source: S,
}

impl<S: FormSource> Kind for Parts<S> {
    ghost use Rattle.std.proofs.Props.{props};
    ghost use Rattle.digit_numbers.specs.Follows.{is_number_byte};
    ghost use Rattle.digit_pieces.specs.Laws.OfForm.{number_later_at, number_later_more, number_none_later};
    ghost use Rattle.digit_numbers.specs.Moves.{number_later};
    ghost use Rattle.digits.specs.Words.{IsForm, number_none_at, position};
    ghost use Rattle.digits_c.specs.declared.numbers.NumberParts as Written;
    ghost use Rattle.digits_c.specs.Laws.Parts as laws;
    ghost use Rattle.digits_c.specs.Numbers.{parts_at};

    type Number = NumberParts;

    type Error = NumberError;

    ghost Meaning = { Written.NumberParts };

    ghost meaning = { λ n. n };

    ghost valid = { λ k. IsForm (S.form k.source) };

    ghost valid_once = { λ k. Prim.hlevel props };

    ghost number_at = { λ k text start. parts_at (S.form k.source) text start };

    ghost has_byte = { λ k byte. is_number_byte (S.form k.source) byte };

    ghost error_at = { position };

    ghost error_later = { number_later };

    ghost none_at = { number_none_at };

    #[inline(always)]
    fn read_number(self, text: &[u8], start: usize) -> Result<(NumberParts, usize), NumberError> {
        read_one(text, start, self.source)
    }

    fn has_byte(self, byte: u8) -> bool {
        OfForm::<f64>::new(self.source.form()).has_byte(byte)
    }

    #[inline(always)]
    fn error_at(error: NumberError) -> usize {
        error.position()
    }

    #[inline(always)]
    fn error_later(error: NumberError, by: usize) -> NumberError {
        OfForm::<f64>::error_later(error, by)
    }

    #[inline(always)]
    fn is_none_at(error: NumberError, place: usize) -> bool {
        error.is_none_at(place)
    }

    ghost follows = { λ k one other at start valid upto from.
        laws.follows (S.form k.source) one other at start upto from };

    ghost precedes = { λ k text from at valid within fresh.
        laws.precedes (S.form k.source) text from at within fresh };

    ghost ends = { λ k text start end x valid within is.
        laws.ends (S.form k.source) text start end x within is };

    ghost later_at = { number_later_at };

    ghost later_more = { number_later_more };

    ghost none_later = { number_none_later };
}

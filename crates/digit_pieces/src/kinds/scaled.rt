//! Decimal numbers in units of their last place, by a word.

ghost use Rattle.std.specs.Prelude.{◌≡◌};

use super::bytes::is_scaled_byte;
use crate::kind::Kind;
use digit_amounts::{ScaledError, read_scaled_from};
use digit_integers::Integer;
use std::marker::PhantomData;

/// Amounts of a type by a word, as [`read_scaled_from`](digit_amounts::read_scaled_from) reads
/// them: with 2 places `12.5` is 1250.
#[derive(Clone, Copy)]
pub struct Scaled<T: Integer> {
    /// The word.
    pub word: u128,
    /// The byte between integer and fraction.
    pub point: u8,
    /// How many places are read, at most 38.
    pub places: usize,
    of: PhantomData<T>,
}

impl<T: Integer> Scaled<T> {
    /// The numbers of at most `places` places by a word, with a point.
    #[inline(always)]
    pub const fn new(word: u128, point: u8, places: usize) -> Scaled<T>
        ensures word { result.word ≡ word }
        ensures point { result.point ≡ point }
        ensures places { result.places ≡ places }
    {
        Scaled {
            word,
            point,
            places,
            of: PhantomData,
        }
    }
}

impl<T: Integer> Kind for Scaled<T> {
    ghost use Rattle.std.proofs.Props.{props};
    ghost use Rattle.std.specs.Prelude.{◌≡◌, ◌+◌, ◌≤◌, ◌<◌, ℤ, IsTrue};
    ghost use Rattle.lexical_format.specs.Word.{is_supported};
    ghost use Rattle.digit_floats.specs.Float.{IsDecimal};
    ghost use Rattle.digit_amounts.specs.Scaled.{none_at as scaled_none_at, position, read_scaled_at};
    ghost use Rattle.digit_pieces.specs.Cuts.{is_scaled_byte};
    ghost use Rattle.digit_amounts.specs.Moves.{scaled_later};
    ghost use Rattle.digit_pieces.specs.Laws.OfKinds as laws;

    type Number = T;

    type Error = ScaledError;

    ghost Meaning = { ℤ };

    ghost meaning = { T.number };

    ghost valid = { λ k. IsTrue (is_supported k.word) × IsDecimal k.word × (k.places ≤ 38) };

    ghost valid_once = { λ k. Prim.hlevel props };

    ghost number_at = { λ k text start.
        read_scaled_at k.word text k.point k.places T.MIN_MAGNITUDE T.MAX start };

    ghost has_byte = { λ k byte. is_scaled_byte k.word k.point byte };

    ghost error_at = { position };

    ghost error_later = { scaled_later };

    ghost none_at = { scaled_none_at };

    #[inline(always)]
    fn read_number(self, text: &[u8], start: usize) -> Result<(T, usize), ScaledError> {
        read_scaled_from::<T>(text, self.word, start, self.point, self.places)
    }

    fn has_byte(self, byte: u8) -> bool {
        is_scaled_byte(self.word, self.point, byte)
    }

    #[inline(always)]
    fn error_at(error: ScaledError) -> usize {
        error.position()
    }

    #[inline(always)]
    fn error_later(error: ScaledError, by: usize) -> ScaledError {
        match error {
            ScaledError::Empty(at) => ScaledError::Empty(by + at),
            ScaledError::TooLarge(at) => ScaledError::TooLarge(by + at),
            ScaledError::TooFine(at) => ScaledError::TooFine(by + at),
            ScaledError::Invalid(at) => ScaledError::Invalid(by + at),
        }
    }

    #[inline(always)]
    fn is_none_at(error: ScaledError, place: usize) -> bool {
        error.is_none_at(place)
    }

    ghost follows = { λ k one other at start valid upto from.
        laws.scaled_follows k.word k.point k.places T.MIN_MAGNITUDE T.MAX valid.1 one other at
        start upto from };

    ghost precedes = { λ k text from at valid within fresh.
        laws.scaled_precedes k.word k.point k.places T.MIN_MAGNITUDE T.MAX text from at within
        fresh };

    ghost ends = { λ k text start end x valid within is.
        laws.scaled_ends k.word text k.point k.places T.MIN_MAGNITUDE T.MAX start end x within is };

    ghost later_at = { laws.scaled_later_at };

    ghost later_more = { laws.scaled_later_more };

    ghost none_later = { laws.scaled_none_later };
}

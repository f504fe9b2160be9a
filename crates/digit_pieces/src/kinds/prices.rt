//! Prices as a kind of numbers.

ghost use Rattle.std.specs.Prelude.{◌≡◌, true, false};

use super::scaled::Scaled;
use crate::kind::Kind;
use digit_amounts::{
    PriceError, read_exact_from, read_grouped_from, read_price_from, read_scaled_from,
};
use digit_integers::Integer;
use std::marker::PhantomData;

/// Amounts of a type by a word, with an exact number of places, with groups of three digits, or
/// with both.
#[derive(Clone, Copy)]
pub struct Prices<T: Integer> {
    /// The word.
    pub word: u128,
    /// The byte between integer and fraction.
    pub point: u8,
    /// How many places are read, at most 38.
    pub places: usize,
    /// Whether a number has to have exactly `places` places.
    pub is_exact: bool,
    /// Whether the digits have to be in groups of three.
    pub is_grouped: bool,
    of: PhantomData<T>,
}

impl<T: Integer> Prices<T> {
    /// The numbers of exactly `places` places, in groups of three digits, as
    /// [`read_price_from`](digit_amounts::read_price_from) reads them.
    #[inline(always)]
    pub const fn new(word: u128, point: u8, places: usize) -> Prices<T>
        ensures word { result.word ≡ word }
        ensures point { result.point ≡ point }
        ensures places { result.places ≡ places }
        ensures is_exact { result.is_exact ≡ true }
        ensures is_grouped { result.is_grouped ≡ true }
    {
        Prices {
            word,
            point,
            places,
            is_exact: true,
            is_grouped: true,
            of: PhantomData,
        }
    }

    /// The numbers of exactly `places` places, as
    /// [`read_exact_from`](digit_amounts::read_exact_from) reads them.
    #[inline(always)]
    pub const fn exact(word: u128, point: u8, places: usize) -> Prices<T>
        ensures word { result.word ≡ word }
        ensures point { result.point ≡ point }
        ensures places { result.places ≡ places }
        ensures is_exact { result.is_exact ≡ true }
        ensures is_grouped { result.is_grouped ≡ false }
    {
        Prices {
            word,
            point,
            places,
            is_exact: true,
            is_grouped: false,
            of: PhantomData,
        }
    }

    /// The numbers in groups of three digits, as
    /// [`read_grouped_from`](digit_amounts::read_grouped_from) reads them.
    #[inline(always)]
    pub const fn grouped(word: u128, point: u8, places: usize) -> Prices<T>
        ensures word { result.word ≡ word }
        ensures point { result.point ≡ point }
        ensures places { result.places ≡ places }
        ensures is_exact { result.is_exact ≡ false }
        ensures is_grouped { result.is_grouped ≡ true }
    {
        Prices {
            word,
            point,
            places,
            is_exact: false,
            is_grouped: true,
            of: PhantomData,
        }
    }
}

impl<T: Integer> Kind for Prices<T> {
    ghost use Rattle.std.proofs.Props.{props};
    ghost use Rattle.std.specs.Prelude.{◌≡◌, ◌+◌, ◌≤◌, ◌<◌, ℤ, IsTrue};
    ghost use Rattle.lexical_format.specs.Word.{is_supported};
    ghost use Rattle.digit_floats.specs.Float.{IsDecimal};
    ghost use Rattle.digit_pieces.specs.Cuts.{is_scaled_byte};
    ghost use Rattle.digit_amounts.specs.Prices.{price_by, price_later, price_none_at, price_position};
    ghost use Rattle.digit_pieces.specs.Laws.OfPrices as laws;

    type Number = T;

    type Error = PriceError;

    ghost Meaning = { ℤ };

    ghost meaning = { T.number };

    ghost valid = { λ k. IsTrue (is_supported k.word) × IsDecimal k.word × (k.places ≤ 38) };

    ghost valid_once = { λ k. Prim.hlevel props };

    ghost number_at = { λ k text start. price_by k.is_exact k.is_grouped k.word text k.point
        k.places T.MIN_MAGNITUDE T.MAX start };

    ghost has_byte = { λ k byte. is_scaled_byte k.word k.point byte };

    ghost error_at = { price_position };

    ghost error_later = { price_later };

    ghost none_at = { price_none_at };

    #[inline(always)]
    fn read_number(self, text: &[u8], start: usize) -> Result<(T, usize), PriceError> {
        if self.is_exact && self.is_grouped {
            return read_price_from::<T>(text, self.word, start, self.point, self.places);
        }
        if self.is_exact {
            return read_exact_from::<T>(text, self.word, start, self.point, self.places);
        }
        if self.is_grouped {
            return read_grouped_from::<T>(text, self.word, start, self.point, self.places);
        }
        match read_scaled_from::<T>(text, self.word, start, self.point, self.places) {
            Ok(read) => Ok(read),
            Err(error) => Err(PriceError::Number(error)),
        }
    }

    fn has_byte(self, byte: u8) -> bool {
        Kind::has_byte(Scaled::<T>::new(self.word, self.point, self.places), byte)
    }

    #[inline(always)]
    fn error_at(error: PriceError) -> usize {
        error.position()
    }

    #[inline(always)]
    fn error_later(error: PriceError, by: usize) -> PriceError {
        match error {
            PriceError::Number(none) => {
                PriceError::Number(<Scaled<T> as Kind>::error_later(none, by))
            }
            PriceError::Group(at) => PriceError::Group(by + at),
            PriceError::Places(at) => PriceError::Places(by + at),
        }
    }

    #[inline(always)]
    fn is_none_at(error: PriceError, place: usize) -> bool {
        error.is_none_at(place)
    }

    ghost follows = { λ k one other at start valid upto from.
        laws.price_follows k.is_exact k.is_grouped k.word k.point k.places T.MIN_MAGNITUDE T.MAX
        valid.1 one other at start upto from };

    ghost precedes = { λ k text from at valid within fresh.
        laws.price_precedes k.is_exact k.is_grouped k.word k.point k.places T.MIN_MAGNITUDE T.MAX
        text from at within fresh };

    ghost ends = { λ k text start end x valid within is.
        laws.price_ends k.is_exact k.is_grouped k.word text k.point k.places T.MIN_MAGNITUDE T.MAX
        start end x within is };

    ghost later_at = { laws.price_later_at };

    ghost later_more = { laws.price_later_more };

    ghost none_later = { laws.price_none_later };
}

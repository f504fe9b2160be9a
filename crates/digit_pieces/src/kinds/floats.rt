//! Floats of a type, by a word.

ghost use Rattle.std.specs.Prelude.{◌≡◌};

use super::bytes::{is_mark, is_of_component, is_scaled_byte};
use crate::kind::Kind;
use digit_floats::{Float, FloatError, read_float_from};
use digit_literals::ReadsOne;
use lexical_digits::skip::Component;
use std::marker::PhantomData;

/// The floats of a type by a word, as [`read_float_from`](digit_floats::read_float_from)
/// reads them: with the point `.` and the mark `e` or `E`.
#[derive(Clone, Copy)]
pub struct Floats<F: Float> {
    /// The word.
    pub word: u128,
    of: PhantomData<F>,
}

impl<F: Float> Floats<F> {
    /// The floats of a type by a word.
    #[inline(always)]
    pub const fn new(word: u128) -> Floats<F>
        ensures { result.word ≡ word }
    {
        Floats {
            word,
            of: PhantomData,
        }
    }
}

impl<F: Float> ReadsOne for Floats<F> {
    ghost use Rattle.std.specs.Prelude.{IsTrue};
    ghost use Rattle.std.specs.Float as Ieee;
    ghost use Rattle.lexical_format.specs.Word.{is_supported};
    ghost use Rattle.digit_floats.specs.Errors.{none_at as float_none_at};
    ghost use Rattle.digit_floats.specs.Float.{IsDecimal, plain_marks, read_at};

    type Number = F;

    type Error = FloatError;

    ghost Meaning = { Ieee.Float };

    ghost meaning = { F.value };

    ghost valid = { λ k. IsTrue (is_supported k.word) × IsDecimal k.word };

    ghost number_at = { λ k text start. read_at k.word text plain_marks F.format start };

    ghost none_at = { float_none_at };

    #[inline(always)]
    fn read_number(self, text: &[u8], start: usize) -> Result<(F, usize), FloatError> {
        read_float_from::<F>(text, self.word, start)
    }

    #[inline(always)]
    fn is_none_at(error: FloatError, place: usize) -> bool {
        error.is_none_at(place)
    }
}

impl<F: Float> Kind for Floats<F> {
    ghost use Rattle.std.proofs.Props.{props};
    ghost use Rattle.std.specs.Prelude.{◌+◌, ◌<◌, IsTrue};
    ghost use Rattle.std.specs.Float as Ieee;
    ghost use Rattle.lexical_format.specs.Word.{is_supported};
    ghost use Rattle.digit_floats.specs.Errors.{none_at as float_none_at, position};
    ghost use Rattle.digit_floats.specs.Float.{IsDecimal, plain_marks, read_at};
    ghost use Rattle.digit_pieces.specs.Cuts.{is_float_byte};
    ghost use Rattle.digit_floats.specs.Moves.{float_later};
    ghost use Rattle.digit_pieces.specs.Laws.OfKinds as laws;

    type Number = F;

    type Error = FloatError;

    ghost Meaning = { Ieee.Float };

    ghost meaning = { F.value };

    ghost valid = { λ k. IsTrue (is_supported k.word) × IsDecimal k.word };

    ghost valid_once = { λ k. Prim.hlevel props };

    ghost number_at = { λ k text start. read_at k.word text plain_marks F.format start };

    ghost has_byte = { λ k byte. is_float_byte k.word plain_marks byte };

    ghost error_at = { position };

    ghost error_later = { float_later };

    ghost none_at = { float_none_at };

    #[inline(always)]
    fn read_number(self, text: &[u8], start: usize) -> Result<(F, usize), FloatError> {
        ReadsOne::read_number(self, text, start)
    }

    fn has_byte(self, byte: u8) -> bool {
        is_scaled_byte(self.word, b'.', byte)
            || is_of_component(self.word, Component::Exponent, byte)
            || is_mark(b'e', byte)
    }

    #[inline(always)]
    fn error_at(error: FloatError) -> usize {
        error.position()
    }

    #[inline(always)]
    fn error_later(error: FloatError, by: usize) -> FloatError {
        match error {
            FloatError::Empty(at) => FloatError::Empty(by + at),
            FloatError::EmptyExponent(at) => FloatError::EmptyExponent(by + at),
            FloatError::Invalid(at) => FloatError::Invalid(by + at),
        }
    }

    #[inline(always)]
    fn is_none_at(error: FloatError, place: usize) -> bool {
        error.is_none_at(place)
    }

    ghost follows = { λ k one other at start valid upto from.
        laws.float_follows k.word plain_marks F.format one other at start upto from };

    ghost precedes = { λ k text from at valid within fresh.
        laws.float_precedes k.word plain_marks F.format text from at within fresh };

    ghost ends = { λ k text start end x valid within is.
        laws.float_ends k.word text plain_marks F.format start end x within is };

    ghost later_at = { laws.float_later_at };

    ghost later_more = { laws.float_later_more };

    ghost none_later = { laws.float_none_later };
}

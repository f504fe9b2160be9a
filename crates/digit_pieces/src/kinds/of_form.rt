//! The kind of numbers by a form.

ghost use Rattle.std.specs.Prelude.{◌≡◌};

use super::form_bytes::is_number_byte;
use crate::kind::Kind;
use digit_floats::Float;
use digit_literals::ReadsOne;
use digit_numbers::{Form, Number, NumberError, read_number_of};
use std::marker::PhantomData;

/// The numbers by a form, as [`read_number_of`](digit_numbers::read_number_of) reads them with
/// floats of a type. [`is_form`](digit_numbers::is_form) says which forms may be read by.
#[derive(Clone, Copy, Debug)]
pub struct OfForm<F: Float> {
    /// The form.
    pub form: Form,
    of: PhantomData<F>,
}

impl<F: Float> OfForm<F> {
    /// The numbers by a form.
    #[inline(always)]
    pub const fn new(form: Form) -> OfForm<F>
        ensures { result.form ≡ form }
    {
        OfForm {
            form,
            of: PhantomData,
        }
    }
}

impl<F: Float> ReadsOne for OfForm<F> {
    ghost use Rattle.std.specs.Float as Ieee;
    ghost use Rattle.digit_numbers.specs.declared.number.Number as Written;
    ghost use Rattle.digit_numbers.specs.Forms.{IsForm};
    ghost use Rattle.digit_numbers.specs.Numbers.{number_of_at};
    ghost use Rattle.digit_numbers.specs.Values.{none_at as number_none_at, with_value};

    type Number = Number<F>;

    type Error = NumberError;

    ghost Meaning = { Written.Number Ieee.Float };

    ghost meaning = { with_value F.value };

    ghost valid = { λ k. IsForm k.form };

    ghost number_at = { λ k text start. number_of_at k.form text start F.format };

    ghost none_at = { number_none_at };

    #[inline(always)]
    fn read_number(self, text: &[u8], start: usize) -> Result<(Number<F>, usize), NumberError> {
        read_number_of::<F>(text, start, self.form)
    }

    #[inline(always)]
    fn is_none_at(error: NumberError, place: usize) -> bool {
        error.is_none_at(place)
    }
}

impl<F: Float> Kind for OfForm<F> {
    ghost use Rattle.std.proofs.Props.{props};
    ghost use Rattle.std.specs.Float as Ieee;
    ghost use Rattle.digit_numbers.specs.declared.number.Number as Written;
    ghost use Rattle.digit_numbers.specs.Follows.{is_number_byte};
    ghost use Rattle.digit_numbers.specs.Forms.{IsForm};
    ghost use Rattle.digit_numbers.specs.Numbers.{number_of_at};
    ghost use Rattle.digit_numbers.specs.Values.{none_at as number_none_at, position, with_value};
    ghost use Rattle.digit_pieces.specs.Laws.OfForm.{number_ends, number_follows, number_later_at, number_later_more};
    ghost use Rattle.digit_pieces.specs.Laws.OfForm.{number_none_later, number_precedes};
    ghost use Rattle.digit_numbers.specs.Moves.{number_later};

    type Number = Number<F>;

    type Error = NumberError;

    ghost Meaning = { Written.Number Ieee.Float };

    ghost meaning = { with_value F.value };

    ghost valid = { λ k. IsForm k.form };

    ghost valid_once = { λ k. Prim.hlevel props };

    ghost number_at = { λ k text start. number_of_at k.form text start F.format };

    ghost has_byte = { λ k byte. is_number_byte k.form byte };

    ghost error_at = { position };

    ghost error_later = { number_later };

    ghost none_at = { number_none_at };

    #[inline(always)]
    fn read_number(self, text: &[u8], start: usize) -> Result<(Number<F>, usize), NumberError> {
        ReadsOne::read_number(self, text, start)
    }

    fn has_byte(self, byte: u8) -> bool {
        is_number_byte(self.form, byte)
    }

    #[inline(always)]
    fn error_at(error: NumberError) -> usize {
        error.position()
    }

    #[inline(always)]
    fn error_later(error: NumberError, by: usize) -> NumberError {
        match error {
            NumberError::Empty(at) => NumberError::Empty(by + at),
            NumberError::Overflow(at) => NumberError::Overflow(by + at),
            NumberError::Invalid(at) => NumberError::Invalid(by + at),
        }
    }

    #[inline(always)]
    fn is_none_at(error: NumberError, place: usize) -> bool {
        error.is_none_at(place)
    }

    ghost follows = { λ k one other at start valid upto from.
        number_follows k.form one other at start F.format upto from };

    ghost precedes = { λ k text from at valid within fresh.
        number_precedes k.form text from at F.format within fresh };

    ghost ends = { λ k text start end x valid within read.
        number_ends k.form text start F.format x end read };

    ghost later_at = { number_later_at };

    ghost later_more = { number_later_more };

    ghost none_later = { number_none_later };
}

//! Integers of a type, by a word.

use super::bytes::{is_of_component, is_sign};
use crate::kind::Kind;
use digit_integers::Integer;
pub use digit_literals::Integers;
use digit_literals::{Gap, ListRead, ReadsOne, is_list_by_ends, read_list};
use digit_values::LiteralError;
use lexical_digits::skip::Component;

impl<T: Integer> Kind for Integers<T> {
    ghost use Rattle.std.proofs.Props.{props};
    ghost use Rattle.std.specs.Prelude.{◌+◌, ◌<◌, ℤ, IsTrue};
    ghost use Rattle.lexical_format.specs.Word.{is_supported};
    ghost use Rattle.lexical_digits.specs.State.{rule_of};
    ghost use Rattle.lexical_digits.specs.declared.skip.component.Component.TheVariants as components;
    ghost use Rattle.digit_values.specs.Errors.{literal_none_at, literal_position};
    ghost use Rattle.digit_integers.specs.Numbers as numbers;
    ghost use Rattle.digit_pieces.specs.Cuts.{is_integer_byte};
    ghost use Rattle.digit_values.specs.Moves.{literal_later};
    ghost use Rattle.digit_pieces.specs.Laws.OfKinds as laws;

    type Number = T;

    type Error = LiteralError;

    ghost Meaning = { ℤ };

    ghost meaning = { T.number };

    ghost valid = { λ k. IsTrue (is_supported k.word) };

    ghost valid_once = { λ k. Prim.hlevel props };

    ghost number_at = { λ k text start.
        numbers.number_at T.MIN_MAGNITUDE T.MAX (rule_of k.word components.Integer) text start };

    ghost has_byte = { λ k byte. is_integer_byte T.MIN_MAGNITUDE k.word byte };

    ghost error_at = { literal_position };

    ghost error_later = { literal_later };

    ghost none_at = { literal_none_at };

    #[inline(always)]
    fn read_number(self, text: &[u8], start: usize) -> Result<(T, usize), LiteralError> {
        ReadsOne::read_number(self, text, start)
    }

    fn has_byte(self, byte: u8) -> bool {
        is_of_component(self.word, Component::Integer, byte)
            || (T::MIN_MAGNITUDE > 0 && is_sign(byte))
    }

    #[inline(always)]
    fn error_at(error: LiteralError) -> usize {
        error.position()
    }

    #[inline(always)]
    fn error_later(error: LiteralError, by: usize) -> LiteralError {
        match error {
            LiteralError::Empty(at) => LiteralError::Empty(by + at),
            LiteralError::Overflow(at) => LiteralError::Overflow(by + at),
        }
    }

    #[inline(always)]
    fn is_none_at(error: LiteralError, place: usize) -> bool {
        error.is_none_at(place)
    }

    #[inline(always)]
    fn is_list_faster(self, text: &[u8], start: usize, gap: Gap, room: usize) -> bool {
        is_list_by_ends(text, start, self.word, gap, room)
    }

    #[inline(always)]
    fn read_list(
        self,
        text: &[u8],
        start: usize,
        gap: Gap,
        out: &mut [T],
    ) -> Option<ListRead<LiteralError>> {
        Some(read_list::<T>(text, start, self.word, gap, out))
    }

    ghost follows = { λ k one other at start valid upto from.
        laws.integer_follows T.MIN_MAGNITUDE T.MAX k.word one other at start upto from };

    ghost precedes = { λ k text from at valid within fresh.
        laws.integer_precedes T.MIN_MAGNITUDE T.MAX k.word text from at within fresh };

    ghost ends = { λ k text start end x valid within is.
        let r = rule_of k.word components.Integer in
        laws.integer_ends T.MIN_MAGNITUDE T.MAX r text start end x within is };

    ghost later_at = { laws.literal_later_at };

    ghost later_more = { laws.literal_later_more };

    ghost none_later = { laws.literal_none_later };
}

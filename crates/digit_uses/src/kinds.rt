//! A kind of numbers of one's own: integers up to a greatest one, such as percentages up to 100.
//!
//! Proof by hand: none. Each law is that of integers.

use digits::{Integers, Kind, LiteralError, read_integer_from};

/// Integers from 0 to `most`, without a sign, by a word: of percentages it is 100.
#[derive(Clone, Copy, Debug)]
pub struct UpTo {
    pub word: u128,
    pub most: u64,
}

impl Kind for UpTo {
    ghost use Rattle.std.proofs.Props.{props};
    ghost use Rattle.std.specs.Prelude.{ℤ, pos, IsTrue};
    ghost use Rattle.digits.specs.KindLaws as laws;
    ghost use Rattle.digits.specs.Words.{Integer, is_integer_byte, is_supported, number_at, rule_of};
    ghost use Rattle.digits.specs.Words.{literal_later, literal_none_at, literal_position};

    type Number = u64;

    type Error = LiteralError;

    ghost Meaning = { ℤ };

    ghost meaning = { λ number. pos number };

    ghost valid = { λ k. IsTrue (is_supported k.word) };

    ghost valid_once = { λ k. Prim.hlevel props };

    ghost number_at = { λ k text start. number_at 0 k.most (rule_of k.word Integer) text start };

    ghost has_byte = { λ k byte. is_integer_byte 0 k.word byte };

    ghost error_at = { literal_position };

    ghost error_later = { literal_later };

    ghost none_at = { literal_none_at };

    fn read_number(self, text: &[u8], start: usize) -> Result<(u64, usize), LiteralError> {
        read_integer_from(text, self.word, start, self.most)
    }

    fn has_byte(self, byte: u8) -> bool {
        Integers::<u64>::new(self.word).has_byte(byte)
    }

    fn error_at(error: LiteralError) -> usize {
        Integers::<u64>::error_at(error)
    }

    fn error_later(error: LiteralError, by: usize) -> LiteralError {
        Integers::<u64>::error_later(error, by)
    }

    fn is_none_at(error: LiteralError, place: usize) -> bool {
        Integers::<u64>::is_none_at(error, place)
    }

    ghost follows = { λ k one other at start valid upto from.
        laws.integer_follows 0 k.most k.word one other at start upto from };

    ghost precedes = { λ k text from at valid within fresh.
        laws.integer_precedes 0 k.most k.word text from at within fresh };

    ghost ends = { λ k text start end x valid within is.
        laws.integer_ends 0 k.most (rule_of k.word Integer) text start end x within is };

    ghost later_at = { laws.literal_later_at };

    ghost later_more = { laws.literal_later_more };

    ghost none_later = { laws.literal_none_later };
}

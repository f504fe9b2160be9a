//! A number between two bytes.

use crate::kind::Kind;
use digit_values::has_byte;
use std::error::Error;
use std::fmt;

/// A number between an opening and a closing byte, such as the quotes of `"1.50"`. No blanks are
/// between the bytes and the number. Both bytes may be the same.
#[derive(Clone, Copy, Debug)]
pub struct Enclosed<K: Kind> {
    /// The byte before the number.
    pub opening: u8,
    /// The kind of the number.
    pub kind: K,
    /// The byte after it.
    pub closing: u8,
}

/// Why there is no number between two bytes. A position counts bytes from the start of the text,
/// from 0.
#[derive(Clone, Copy, Debug, PartialEq, Eq)]
pub enum BracketError<E> {
    /// The opening byte isn't at this position.
    NoOpening(usize),
    /// Why the number isn't there.
    Number(E),
    /// The closing byte isn't at this position, where the number ends.
    NoClosing(usize),
}

impl<E: fmt::Display> fmt::Display for BracketError<E> {
    ghost use Rattle.digit_pieces.specs.Enclosed.{bracket_message};

    ghost output = { λ e. bracket_message E.output e };

    fn fmt<W: fmt::Write>(&self, f: &mut fmt::Formatter<W>) -> fmt::Result {
        match self {
            BracketError::NoOpening(at) => write!(f, "there is no opening byte at {at}"),
            BracketError::Number(error) => fmt::Display::fmt(error, f),
            BracketError::NoClosing(at) => write!(f, "there is no closing byte at {at}"),
        }
    }
}

impl<E: Error> Error for BracketError<E> {}

impl<K: Kind> Kind for Enclosed<K> {
    ghost use Rattle.std.specs.Prelude.{◌+◌};
    ghost use Rattle.digit_pieces.specs.Enclosed.{bracket_later, bracket_none_at, bracket_position, enclosed_at, is_enclosed_byte};
    ghost use Rattle.digit_pieces.specs.Laws.OfEnclosed as laws;

    type Number = K::Number;

    type Error = BracketError<K::Error>;

    ghost Meaning = { K.Meaning };

    ghost meaning = { K.meaning };

    ghost valid = { λ k. K.valid k.kind };

    ghost valid_once = { λ k. K.valid_once k.kind };

    ghost number_at = { λ k text start.
        enclosed_at k.opening (K.number_at k.kind) k.closing text start };

    ghost has_byte = { λ k byte. is_enclosed_byte k.opening (K.has_byte k.kind) k.closing byte };

    ghost error_at = { bracket_position K.error_at };

    ghost error_later = { bracket_later K.error_later };

    ghost none_at = { bracket_none_at };

    #[inline(always)]
    fn read_number(
        self,
        text: &[u8],
        start: usize,
    ) -> Result<(K::Number, usize), BracketError<K::Error>> {
        if !has_byte(text, start, self.opening) {
            return Err(BracketError::NoOpening(start));
        }
        let (number, end) = match self.kind.read_number(text, start + 1) {
            Ok(read) => read,
            Err(error) => return Err(BracketError::Number(error)),
        };
        if has_byte(text, end, self.closing) {
            Ok((number, end + 1))
        } else {
            Err(BracketError::NoClosing(end))
        }
    }

    fn has_byte(self, byte: u8) -> bool {
        self.kind.has_byte(byte) || byte == self.opening || byte == self.closing
    }

    #[inline(always)]
    fn error_at(error: BracketError<K::Error>) -> usize {
        match error {
            BracketError::NoOpening(at) | BracketError::NoClosing(at) => at,
            BracketError::Number(error) => K::error_at(error),
        }
    }

    #[inline(always)]
    fn error_later(error: BracketError<K::Error>, by: usize) -> BracketError<K::Error> {
        match error {
            BracketError::NoOpening(at) => BracketError::NoOpening(by + at),
            BracketError::Number(error) => BracketError::Number(K::error_later(error, by)),
            BracketError::NoClosing(at) => BracketError::NoClosing(by + at),
        }
    }

    #[inline(always)]
    fn is_none_at(error: BracketError<K::Error>, place: usize) -> bool {
        match error {
            BracketError::NoOpening(at) => at == place,
            BracketError::Number(_) | BracketError::NoClosing(_) => false,
        }
    }

    ghost follows = { λ k one other at start valid upto from.
        laws.enclosed_follows k.opening (K.number_at k.kind) k.closing (K.has_byte k.kind)
        (λ t o a s u f. K.follows k.kind t o a s valid u f)
        (λ t s e x l i. K.ends k.kind t s e x valid l i) one other at upto start from };

    ghost precedes = { λ k text from at valid within fresh.
        laws.enclosed_precedes k.opening (K.number_at k.kind) k.closing (K.has_byte k.kind)
        K.error_later text from
        (λ i l. K.precedes k.kind text from i valid l
        (laws.number_fresh k.opening (K.number_at k.kind) k.closing (K.has_byte k.kind) text from
        fresh)) at within };

    ghost ends = { λ k text start end x valid within is.
        laws.enclosed_ends k.opening (K.number_at k.kind) k.closing (K.has_byte k.kind) text start
        end x is };

    ghost later_at = { laws.bracket_later_at K.error_at K.error_later K.later_at };

    ghost later_more = { laws.bracket_later_more K.error_later K.later_more };

    ghost none_later = { laws.bracket_none_later K.error_later };
}

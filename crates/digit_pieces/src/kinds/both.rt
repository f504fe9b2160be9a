//! Two numbers with a byte between them.

use crate::kind::Kind;
use digit_values::has_byte;

/// Two numbers with one byte between them, such as `3:4`: the number of the first kind, the byte,
/// and the number of the second kind. A number of this kind is a pair.
#[derive(Clone, Copy, Debug)]
pub struct Both<A: Kind, B: Kind> {
    /// The kind of the number before the byte.
    pub first: A,
    /// The byte.
    pub between: u8,
    /// The kind of the number after it.
    pub second: B,
}

/// Why there are no two numbers. A position counts bytes from the start of the text, from 0.
#[derive(Clone, Copy, Debug, PartialEq, Eq)]
pub enum BothError<D, E> {
    /// Why the first isn't there.
    First(D),
    /// The byte is not at this position, where the first ends.
    Between(usize),
    /// Why the second isn't there.
    Second(E),
}

impl<A: Kind, B: Kind> Kind for Both<A, B> {
    ghost use Rattle.std.specs.Prelude.{◌+◌, drop};
    ghost use Rattle.digit_pieces.specs.Both.{both_at, is_byte_of_both, both_error_at, both_later, both_none_at};
    ghost use Rattle.digit_pieces.specs.Laws.OfBoth as laws;

    type Number = (A::Number, B::Number);

    type Error = BothError<A::Error, B::Error>;

    ghost Meaning = { A.Meaning × B.Meaning };

    ghost meaning = { λ both. (A.meaning both.0, B.meaning both.1) };

    ghost valid = { λ k. A.valid k.first × B.valid k.second };

    ghost valid_once = { λ k. Prim.hlevel (A.valid_once k.first, B.valid_once k.second) };

    ghost number_at = { λ k text start.
        both_at (A.number_at k.first) k.between (B.number_at k.second) text start };

    ghost has_byte = { λ k byte.
        is_byte_of_both (A.has_byte k.first) k.between (B.has_byte k.second) byte };

    ghost error_at = { both_error_at A.error_at B.error_at };

    ghost error_later = { both_later A.error_later B.error_later };

    ghost none_at = { both_none_at A.none_at };

    #[inline(always)]
    fn read_number(
        self,
        text: &[u8],
        start: usize,
    ) -> Result<((A::Number, B::Number), usize), BothError<A::Error, B::Error>> {
        let (x, end) = match self.first.read_number(text, start) {
            Ok(read) => read,
            Err(error) => return Err(BothError::First(error)),
        };
        if !has_byte(text, end, self.between) {
            return Err(BothError::Between(end));
        }
        match self.second.read_number(text, end + 1) {
            Ok((y, end)) => Ok(((x, y), end)),
            Err(error) => Err(BothError::Second(error)),
        }
    }

    fn has_byte(self, byte: u8) -> bool {
        self.first.has_byte(byte) || byte == self.between || self.second.has_byte(byte)
    }

    #[inline(always)]
    fn error_at(error: BothError<A::Error, B::Error>) -> usize {
        match error {
            BothError::First(error) => A::error_at(error),
            BothError::Between(at) => at,
            BothError::Second(error) => B::error_at(error),
        }
    }

    #[inline(always)]
    fn error_later(
        error: BothError<A::Error, B::Error>,
        by: usize,
    ) -> BothError<A::Error, B::Error> {
        match error {
            BothError::First(error) => BothError::First(A::error_later(error, by)),
            BothError::Between(at) => BothError::Between(by + at),
            BothError::Second(error) => BothError::Second(B::error_later(error, by)),
        }
    }

    #[inline(always)]
    fn is_none_at(error: BothError<A::Error, B::Error>, place: usize) -> bool {
        match error {
            BothError::First(error) => A::is_none_at(error, place),
            BothError::Between(_) | BothError::Second(_) => false,
        }
    }

    ghost follows = { λ k one other at start valid upto from.
        laws.both_follows (A.number_at k.first) k.between (B.number_at k.second)
        (A.has_byte k.first) (B.has_byte k.second)
        (λ t o a s u f. A.follows k.first t o a s valid.0 u f)
        (λ t o a s u f. B.follows k.second t o a s valid.1 u f)
        (λ t s e x l i. A.ends k.first t s e x valid.0 l i)
        one other at upto start from };

    ghost precedes = { λ k text from at valid within fresh.
        laws.both_precedes (A.number_at k.first) k.between (B.number_at k.second)
        (A.has_byte k.first) (B.has_byte k.second) A.error_later B.error_later text from
        (λ i l. A.precedes k.first text from i valid.0 l
        (laws.first_fresh (A.has_byte k.first) k.between (B.has_byte k.second) text from fresh))
        (λ i l. B.precedes k.second text from i valid.1 l
        (laws.second_fresh (A.has_byte k.first) k.between (B.has_byte k.second) text from fresh))
        (λ s e x l i. A.ends k.first (drop from text) s e x valid.0 l i) at within };

    ghost ends = { λ k text start end x valid within is.
        laws.both_ends (A.number_at k.first) k.between (B.number_at k.second)
        (A.has_byte k.first) (B.has_byte k.second)
        (λ t s e y l i. B.ends k.second t s e y valid.1 l i) text start end x is };

    ghost later_at = { laws.later_at A.error_at B.error_at A.error_later B.error_later A.later_at
        B.later_at };

    ghost later_more = { laws.later_more A.error_later B.error_later A.later_more B.later_more };

    ghost none_later = { laws.none_later A.none_at A.error_later B.error_later A.none_later };
}

//! What steps make of the numbers between two bytes of a stream.

ghost use Rattle.std.specs.Prelude.{◌≡◌};
ghost use Rattle.digit_streams.specs.Errors.{enclosed_fault_at, enclosed_fold_message};

use super::fold::FoldError;
use super::reader::NumberReader;
use super::stream::StreamError;
use digit_lists::NoNumber;
use digit_pieces::Kind;
use std::error::Error;
use std::fmt;
use std::io::Read;

/// Why a fold of the numbers between two bytes has no value.
#[derive(Clone, Copy, Debug, PartialEq, Eq)]
pub enum EnclosedFoldError<E> {
    /// The opening byte isn't at this position.
    NoOpening(u64),
    /// Neither a separator nor the closing byte is at this position.
    NoClosing(u64),
    /// Why the numbers have no value, or the reader failed.
    Fold(FoldError<E>),
}

impl<E: NoNumber> EnclosedFoldError<E> {
    /// The position of the fault, as [`FoldError::position`] has it, or where a byte is missing.
    ///
    /// ```text
    /// `EnclosedFoldError::NoClosing(7)` by `LiteralError`: Some(7)
    /// ```
    pub fn position(self) -> Option<u64>
        ensures { result ≡ enclosed_fault_at E.fault_at self }
    {
        match self {
            EnclosedFoldError::NoOpening(at) | EnclosedFoldError::NoClosing(at) => Some(at),
            EnclosedFoldError::Fold(error) => error.position(),
        }
    }
}

impl<E> From<FoldError<E>> for EnclosedFoldError<E> {
    ghost use Rattle.digit_streams.specs.declared.enclosed.EnclosedFoldError.{EnclosedFoldError};

    ghost from_gives = { λ e r. r ≡ EnclosedFoldError.Fold e };

    fn from(e: FoldError<E>) -> EnclosedFoldError<E> {
        EnclosedFoldError::Fold(e)
    }
}

impl<E> From<StreamError<E>> for EnclosedFoldError<E> {
    ghost use Rattle.digit_streams.specs.declared.enclosed.EnclosedFoldError.{EnclosedFoldError};
    ghost use Rattle.digit_streams.specs.declared.fold.FoldError.{FoldError};

    ghost from_gives = { λ e r. r ≡ EnclosedFoldError.Fold (FoldError.Stream e) };

    fn from(e: StreamError<E>) -> EnclosedFoldError<E> {
        EnclosedFoldError::Fold(FoldError::Stream(e))
    }
}

impl<E: fmt::Display> fmt::Display for EnclosedFoldError<E> {
    ghost output = { λ e. enclosed_fold_message E.output e };

    fn fmt<W: fmt::Write>(&self, f: &mut fmt::Formatter<W>) -> fmt::Result {
        match self {
            EnclosedFoldError::NoOpening(at) => write!(f, "no list begins at {at}"),
            EnclosedFoldError::NoClosing(at) => write!(f, "the list isn't closed at {at}"),
            EnclosedFoldError::Fold(error) => fmt::Display::fmt(error, f),
        }
    }
}

impl<E: Error> Error for EnclosedFoldError<E> {}

impl<'b, K: Kind, R: Read> NumberReader<'b, K, R> {
    ghost use Rattle.std.specs.Prelude.{◌≡◌, ℕ, List, Option, IfSome};
    ghost use Rattle.digit_pieces.specs.Texts.{IsApart};
    ghost use Rattle.digit_streams.specs.Streams.{IfNoFault, UsesKnown, stream_list};
    ghost use Rattle.digit_streams.specs.Enclosed.{FoldsEnclosed};

    /// Combines the numbers between two bytes, such as the brackets of an array, into one value, as
    /// [`fold_numbers`](NumberReader::fold_numbers) does. For an empty list it returns `init`. It
    /// also skips the gap's blanks before each of the two bytes. Afterwards the next list may
    /// begin.
    ///
    /// ```text
    /// `[1, 2] x` by `Integers::<u8>` and `COMMAS`, 0, |sum, n| sum.checked_add(n): Ok(3)
    /// `[ ]`: Ok(0)    `1`: Err(NoOpening(0))    `[1 2]`: Err(NoClosing(3))
    /// ```
    pub fn fold_enclosed<A: Drop, F: Fn(A, K::Number) -> Option<A> + Drop>(
        &mut self,
        opening: u8,
        closing: u8,
        init: A,
        step: F,
    ) -> Result<A, EnclosedFoldError<K::Error>>
        requires step { F.IsAlwaysCallable step }
        ensures folded { (known : Option (List ℕ)) → IfNoFault self.old.ended
            (UsesKnown 0 self.old.position known self.old.bytes →
            IsApart (K.has_byte self.old.kind) self.old.gap → IfSome known (λ text.
            FoldsEnclosed (λ value number next. F.post step value number next) K.meaning init
            record {
              gap = self.old.gap;
              opening = opening;
              closing = closing;
              list = stream_list (K.number_at self.old.kind) K.none_at K.error_later self.old.gap;
            }
            text self.old.position self.new.position result)) }
        ensures uses { UsesKnown self.old.position self.new.position self.old.bytes
            self.new.bytes }
        ensures kind { self.new.kind ≡ self.old.kind }
        ensures gap { self.new.gap ≡ self.old.gap }
        ensures capacity { self.new.capacity ≡ self.old.capacity }
    {
        match self.pass_byte(opening) {
            Ok(true) => {}
            Ok(false) => return Err(EnclosedFoldError::NoOpening(self.position())),
            Err(error) => return Err(EnclosedFoldError::Fold(FoldError::Stream(error))),
        }
        match self.pass_byte(closing) {
            Ok(true) => return Ok(init),
            Ok(false) => {}
            Err(error) => return Err(EnclosedFoldError::Fold(FoldError::Stream(error))),
        }
        match self.fold_numbers(init, step) {
            Ok(value) => match self.pass_byte(closing) {
                Ok(true) => Ok(value),
                Ok(false) => Err(EnclosedFoldError::NoClosing(self.position())),
                Err(error) => Err(EnclosedFoldError::Fold(FoldError::Stream(error))),
            },
            Err(error) => Err(EnclosedFoldError::Fold(error)),
        }
    }
}

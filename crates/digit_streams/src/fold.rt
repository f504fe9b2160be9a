//! What steps make of the numbers of a stream, one after the other.

ghost use Rattle.std.specs.Prelude.{◌≡◌, IfSome};
ghost use Rattle.digit_pieces.specs.Texts.{IsApart};
ghost use Rattle.digit_streams.specs.Streams.{stream_list};
ghost use Rattle.digit_streams.specs.Errors.{fold_fault_at, fold_message};
ghost use Rattle.digit_streams.specs.Folds.{FoldsText, stream_error};

use super::reader::NumberReader;
use super::stream::{Ended, StreamError};
use digit_lists::NoNumber;
use digit_literals::Gap;
use digit_pieces::Kind;
use std::error::Error;
use std::fmt;
use std::io::Read;

/// Why a fold of the numbers of a stream has no value.
#[derive(Clone, Copy, Debug, PartialEq, Eq)]
pub enum FoldError<E> {
    /// The step returned `None`. The next number may begin at this position: after the number that
    /// the step was given, and after the separator that follows it.
    Stopped(u64),
    /// Why there is no number.
    Stream(StreamError<E>),
}

impl<E: Copy> FoldError<E> {
    /// Why there is no number. Use it if your step can't stop in practice, as a sum of `i64` in an
    /// `i128`: [`Stopped`](FoldError::Stopped) becomes [`TooLong`](StreamError::TooLong). If your
    /// step may stop, match `Stopped` first.
    pub fn stream_error(self) -> StreamError<E>
        ensures { result ≡ stream_error self }
    {
        match self {
            FoldError::Stopped(_) => StreamError::TooLong,
            FoldError::Stream(error) => error,
        }
    }
}

impl<E: NoNumber> FoldError<E> {
    /// The position of the fault, as [`StreamError::position`] has it, or the one that `Stopped`
    /// holds.
    ///
    /// ```text
    /// `FoldError::Stopped(8)` by `LiteralError`: Some(8)
    /// ```
    pub fn position(self) -> Option<u64>
        ensures { result ≡ fold_fault_at E.fault_at self }
    {
        match self {
            FoldError::Stopped(at) => Some(at),
            FoldError::Stream(error) => error.position(),
        }
    }
}

impl<E> From<StreamError<E>> for FoldError<E> {
    ghost use Rattle.digit_streams.specs.declared.fold.FoldError.{FoldError};

    ghost from_gives = { λ e r. r ≡ FoldError.Stream e };

    fn from(e: StreamError<E>) -> FoldError<E> {
        FoldError::Stream(e)
    }
}

impl<E: fmt::Display> fmt::Display for FoldError<E> {
    ghost output = { λ e. fold_message E.output e };

    fn fmt<W: fmt::Write>(&self, f: &mut fmt::Formatter<W>) -> fmt::Result {
        match self {
            FoldError::Stopped(at) => write!(f, "the numbers before {at} have no value"),
            FoldError::Stream(error) => fmt::Display::fmt(error, f),
        }
    }
}

impl<E: Error> Error for FoldError<E> {}

impl<'b, K: Kind, R: Read> NumberReader<'b, K, R> {
    ghost use Rattle.std.specs.Prelude.{◌≡◌, ℕ, Some, IfOk, IfErr};
    ghost use Rattle.digit_pieces.specs.Texts.{IsApart};
    ghost use Rattle.digit_streams.specs.Streams.{UsesKnown, stream_list};
    ghost use Rattle.digit_streams.specs.Folds.{Folded, IfStopped};

    /// Combines the numbers into one value, up to where the list ends. `step` gets the value so
    /// far, which is `init` at first, and the next number, and returns the next value. If it
    /// returns `None`, the fold stops, as `try_fold` of an iterator does.
    ///
    /// ```text
    /// `1\n20\nx` by `Integers::<u8>` and `LINES`, 0, |sum, n| sum.checked_add(n): Ok(21)
    /// `200\n100\n7` by the same: Err(Stopped(8))
    /// ```
    ///
    /// [`finish`](NumberReader::finish) says whether the stream is at its end. After `Stopped`, and
    /// after an error after which the next call of [`next_number`](NumberReader::next_number) goes
    /// on, the numbers that weren't given yet can be read; the value is lost. It is
    /// [`TooLong`](StreamError::TooLong), too, if the list has `u64::MAX` numbers.
    pub fn fold_numbers<A: Drop, F: Fn(A, K::Number) -> Option<A> + Drop>(
        &mut self,
        init: A,
        step: F,
    ) -> Result<A, FoldError<K::Error>>
        requires step { F.IsAlwaysCallable step }
        ensures folded { IsApart (K.has_byte self.old.kind) self.old.gap →
            Folded (λ value number next. F.post step value number next) K.meaning init
            (stream_list (K.number_at self.old.kind) K.none_at K.error_later self.old.gap)
            self.old self.new result }
        ensures stopped { IfErr result (λ error.
            IfStopped error (λ at. at ≡ self.new.position)) }
        ensures ended { IfOk result (λ value. (at : ℕ) × (self.new.ended ≡ Some (Ended.Over at))) }
        ensures uses { UsesKnown self.old.position self.new.position self.old.bytes
            self.new.bytes }
        ensures kind { self.new.kind ≡ self.old.kind }
        ensures gap { self.new.gap ≡ self.old.gap }
        ensures capacity { self.new.capacity ≡ self.old.capacity }
    {
        let mut value = init;
        for turn in 0..u64::MAX {
            match self.next_number() {
                Some(Ok(number)) => match step(value, number) {
                    Some(next) => value = next,
                    None => return Err(FoldError::Stopped(self.position())),
                },
                Some(Err(error)) => return Err(FoldError::Stream(error)),
                None => return Ok(value),
            }
        }
        Err(FoldError::Stream(StreamError::TooLong))
    }
}

/// Combines all numbers of a stream into one value. `step` gets the value so far, at first `init`,
/// and the next number. It returns the next value, or `None` to stop the call. Anything after the
/// numbers is an error. The buffer has to hold the longest number, the blanks up to the byte that
/// ends them, and one byte more. Requires that the kind is valid.
///
/// `step` returns the next value. If it returns `None`, the call ends with
/// [`Stopped`](FoldError::Stopped). If the stream goes on after the numbers, it is an error
/// ([`Trailing`](StreamError::Trailing)). Of an empty stream it is `init`, if a separator of the
/// gap may be last; otherwise a number has to be there.
///
/// ```text
/// `1\n20\n` by `Integers::<u8>` and `LINES`, 0, |sum, n| sum.checked_add(n): Ok(21)
/// `1\n2x`: Err(Stream(Trailing(3, Some(Empty(3)))))
/// ```
pub fn fold_stream<K: Kind, R: Read + Drop, A: Drop, F: Fn(A, K::Number) -> Option<A> + Drop>(
    reader: R,
    buffer: &mut [u8],
    kind: K,
    gap: Gap,
    init: A,
    step: F,
) -> Result<A, FoldError<K::Error>>
    requires valid { K.valid kind }
    requires step { F.IsAlwaysCallable step }
    ensures { IfSome (R.remaining reader) (λ text. IsApart (K.has_byte kind) gap →
        FoldsText (λ value number next. F.post step value number next) K.meaning init
        (stream_list (K.number_at kind) K.none_at K.error_later gap 0) text result) }
{
    let mut numbers = NumberReader::new(reader, buffer, kind, gap);
    match numbers.fold_numbers(init, step) {
        Ok(value) => match numbers.finish() {
            Ok(()) => Ok(value),
            Err(error) => Err(FoldError::Stream(error)),
        },
        Err(error) => Err(error),
    }
}

//! Why a reader of numbers gives no more.

ghost use Rattle.std.specs.Prelude.{◌≡◌};
ghost use Rattle.digit_streams.specs.Errors.{may_try_again, may_go_on, stream_fault_at, stream_message};
ghost use Rattle.digit_streams.specs.Streams.{ended_by, end_again, next_of};

use digit_lists::NoNumber;
use std::error::Error;
use std::fmt;
use std::io::ErrorKind;

/// Why a `NumberReader` gives no number.
#[derive(Clone, Copy, Debug, PartialEq, Eq)]
pub enum StreamError<E> {
    /// A number is missing where one has to be, or one begins and is refused. The error's position
    /// counts bytes of the stream.
    Number(E),
    /// A number that may begin at this position does not fit the buffer, with the blanks after it
    /// and the byte that ends them.
    NoRoom(u64),
    /// The reader failed so. After `WouldBlock` and `TimedOut`, which say that nothing has come
    /// yet, the next call reads on.
    Read(ErrorKind),
    /// A position is above `u64::MAX`, or may be: the stream has `u64::MAX` - 1 bytes or more.
    TooLong,
    /// The list has ended, and the stream goes on at this position. `Some(error)` says why no
    /// number begins there, after the blanks of the gap; its position counts from the start of the
    /// stream. `None` means that a number begins there without a separator before it, as in `1 2`
    /// by `COMMAS`. In two rare cases it is `None`, too: the buffer doesn't hold the whole number,
    /// or the position is above `u64::MAX`. Only `finish` and `fold_stream` return it.
    Trailing(u64, Option<E>),
}

impl<E: NoNumber> StreamError<E> {
    /// The position of the fault, in bytes of the stream. `Read` and `TooLong` have none.
    ///
    /// ```text
    /// `StreamError::Number(LiteralError::Empty(3))`: Some(3)
    /// `StreamError::Read(ErrorKind::WouldBlock)`: None
    /// ```
    pub fn position(self) -> Option<u64>
        ensures { result ≡ stream_fault_at E.fault_at self }
    {
        match self {
            StreamError::Number(error) => Some(error.fault_at() as u64),
            StreamError::NoRoom(at) | StreamError::Trailing(at, _) => Some(at),
            StreamError::Read(_) | StreamError::TooLong => None,
        }
    }
}

impl<E: fmt::Display> fmt::Display for StreamError<E> {
    ghost output = { λ e. stream_message E.output e };

    fn fmt<W: fmt::Write>(&self, f: &mut fmt::Formatter<W>) -> fmt::Result {
        match self {
            StreamError::Number(error) => fmt::Display::fmt(error, f),
            StreamError::NoRoom(at) => write!(f, "the buffer has no room for the number at {at}"),
            StreamError::Read(kind) => write!(f, "the reader failed: {kind}"),
            StreamError::TooLong => write!(f, "a position is above {}", u64::MAX),
            StreamError::Trailing(at, None) => write!(f, "the byte at {at} follows the numbers"),
            StreamError::Trailing(at, Some(error)) => {
                write!(f, "the byte at {at} follows the numbers: {error}")
            }
        }
    }
}

impl<E: Error> Error for StreamError<E> {}

/// Why a stream was read no further. Positions count bytes of the stream from 0.
#[derive(Clone, Copy, Debug, PartialEq, Eq)]
pub enum StreamEnd<E> {
    /// The slice is full. The next number may begin at this position: after a separator, after one
    /// blank where blanks alone separate, or where the call began if the slice has no place.
    Full(u64),
    /// The list is over. At this position, after the last number and its blanks, is no separator;
    /// or no number begins there, where none has to be.
    Over(u64),
    /// There is no number, for this reason.
    Fault(StreamError<E>),
}

/// How many numbers were read, and why no more.
#[derive(Clone, Copy, Debug, PartialEq, Eq)]
pub struct StreamRead<E> {
    /// How many numbers it wrote into the slice.
    pub count: usize,
    /// Why there are no more.
    pub end: StreamEnd<E>,
}

/// An end after which nothing else is answered.
#[derive(Clone, Copy, Debug, PartialEq, Eq)]
pub enum Ended<E> {
    Over(u64),
    Fault(StreamError<E>),
}

impl<E: Copy> Ended<E> {
    /// The end that is answered again.
    pub fn again(self) -> StreamEnd<E>
        ensures { result ≡ end_again self }
    {
        match self {
            Ended::Over(at) => StreamEnd::Over(at),
            Ended::Fault(error) => StreamEnd::Fault(error),
        }
    }
}

/// Whether a reader that failed so may be read again: nothing had come yet.
fn may_try_again(kind: ErrorKind) -> bool
    ensures { result ≡ may_try_again kind }
{
    match kind {
        ErrorKind::WouldBlock | ErrorKind::TimedOut => true,
        _ => false,
    }
}

/// Whether the next call goes on after an error.
fn may_go_on<E: Copy>(error: StreamError<E>) -> bool
    ensures { result ≡ may_go_on error }
{
    match error {
        StreamError::Read(kind) => may_try_again(kind),
        StreamError::Number(_)
        | StreamError::NoRoom(_)
        | StreamError::TooLong
        | StreamError::Trailing(_, _) => false,
    }
}

/// The end that is answered from then on, if the next call doesn't go on.
pub fn ended_by<E: Copy>(end: StreamEnd<E>) -> Option<Ended<E>>
    ensures { result ≡ ended_by end }
{
    match end {
        StreamEnd::Full(_) => None,
        StreamEnd::Over(at) => Some(Ended::Over(at)),
        StreamEnd::Fault(error) => {
            if may_go_on(error) {
                return None;
            }
            Some(Ended::Fault(error))
        }
    }
}

/// The next number, or why there is none; nothing, if the list is over.
pub fn next_of<N: Copy, E: Copy>(
    number: Option<N>,
    end: StreamEnd<E>,
) -> Option<Result<N, StreamError<E>>>
    ensures { result ≡ next_of number end }
{
    match number {
        Some(number) => Some(Ok(number)),
        None => match end {
            StreamEnd::Fault(error) => Some(Err(error)),
            StreamEnd::Full(_) | StreamEnd::Over(_) => None,
        },
    }
}

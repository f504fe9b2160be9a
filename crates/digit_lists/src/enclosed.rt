//! A list between an opening and a closing byte.

ghost use Rattle.std.specs.Prelude.{◌≡◌, ◌+◌, ◌<◌, ◌≤◌, true, false, length, map, take, IfOk};
ghost use Rattle.digit_literals.specs.Lists.{Fills, IfOver};
ghost use Rattle.digit_values.specs.Bytes.{has_byte};
ghost use Rattle.digit_lists.specs.Lists.{inside, enclosed, Holds};
ghost use Rattle.digit_lists.specs.Errors.{enclosed_position, enclosed_message};

use super::error::NoNumber;
use super::list::read_full_list;
use digit_literals::{Gap, ListEnd, ListRead};
use digit_pieces::Kind;
use digit_values::has_byte;
use std::error::Error;
use std::fmt;

/// Why there is no enclosed list. A position counts bytes from the start of the text, from 0.
#[derive(Clone, Copy, Debug, PartialEq, Eq)]
pub enum EnclosedError<E> {
    /// The opening byte isn't at this position.
    NoOpening(usize),
    /// A number is missing where one has to be, or one begins and is refused.
    Number(E),
    /// Neither a separator nor the closing byte is at this position.
    NoClosing(usize),
    /// The slice is full, and at this position is one number more.
    NoRoom(usize),
}

impl<E: NoNumber> EnclosedError<E> {
    /// The position of the fault.
    pub fn position(&self) -> usize
        ensures { result ≡ enclosed_position E.fault_at self.now }
    {
        match *self {
            EnclosedError::Number(error) => error.fault_at(),
            EnclosedError::NoOpening(at)
            | EnclosedError::NoClosing(at)
            | EnclosedError::NoRoom(at) => at,
        }
    }
}

impl<E: fmt::Display> fmt::Display for EnclosedError<E> {
    ghost output = { λ e. enclosed_message E.output e };

    fn fmt<W: fmt::Write>(&self, f: &mut fmt::Formatter<W>) -> fmt::Result {
        match self {
            EnclosedError::NoOpening(at) => write!(f, "no list begins at {at}"),
            EnclosedError::Number(error) => fmt::Display::fmt(error, f),
            EnclosedError::NoClosing(at) => write!(f, "the list isn't closed at {at}"),
            EnclosedError::NoRoom(at) => write!(f, "there is no room for the number at {at}"),
        }
    }
}

impl<E: Error> Error for EnclosedError<E> {}

/// The list after an opening byte: an empty one where the closing byte is the first after blanks.
#[inline(always)]
fn read_inside<K: Kind>(
    kind: K,
    text: &[u8],
    at: usize,
    gap: Gap,
    closing: u8,
    out: &mut [K::Number],
) -> ListRead<K::Error>
    requires valid { K.valid kind }
    requires within { at ≤ length text.now }
    ensures is { let list = inside (K.number_at kind text.now) K.none_at gap text.now closing
        (length out.old) at in
        Fills K.meaning list result out.old out.new }
    ensures count { result.count ≤ length out.old }
    ensures over { IfOver result.end (λ over. (at ≤ over) × (over ≤ length text.now)) }
{
    let first = gap.past_blanks(text, at);
    if has_byte(text, first, closing) {
        return ListRead {
            count: 0,
            end: ListEnd::Over(first),
        };
    }
    read_full_list(kind, text, at, gap, out)
}

/// Reads a list between two bytes, as `[1, 2]`, and returns how many numbers it has and the
/// position after the closing byte. The list may be empty. Requires that the kind is valid. Takes
/// no memory.
///
/// The opening byte is at `start`, which may be any position. Blanks of the gap may be after it and
/// before the closing byte. A list may be empty, whatever the gap is. Otherwise it is as by
/// [`parse_list`](crate::parse_list).
///
/// After an error the front of the slice has the numbers before the fault. Its rest isn't touched.
///
/// ```text
/// `[1, 2 ];` with COMMAS: Ok((2, 7))         `[ ]`: Ok((0, 3))
/// `[1 2]`: Err(NoClosing(3))                `[1,]`: Err(Number(Empty(3)))
/// ```
#[inline(always)]
#[tactic(auto, using(crate::proofs::Holding::fills_holds))]
pub fn read_enclosed<K: Kind>(
    kind: K,
    text: &[u8],
    start: usize,
    opening: u8,
    gap: Gap,
    closing: u8,
    out: &mut [K::Number],
) -> Result<(usize, usize), EnclosedError<K::Error>>
    requires valid { K.valid kind }
    ensures is { result ≡ enclosed (K.number_at kind text.now) K.none_at gap text.now opening
        closing (length out.old) start }
    ensures numbers { has_byte text.now start opening ≡ true →
        let list = inside (K.number_at kind text.now) K.none_at gap text.now closing
        (length out.old) (start + 1) in
        Holds K.meaning list.0 out.old out.new }
    ensures front { let list = inside (K.number_at kind text.now) K.none_at gap text.now closing
        (length out.old) (start + 1) in
        IfOk result (λ read. map K.meaning (take read.0 out.new) ≡ list.0) }
    ensures untouched { has_byte text.now start opening ≡ false → out.new ≡ out.old }
    ensures count { IfOk result (λ read. read.0 ≤ length out.old) }
    ensures end { IfOk result (λ read. (start + 1 < read.1) × (read.1 ≤ length text.now)) }
{
    if !has_byte(text, start, opening) {
        return Err(EnclosedError::NoOpening(start));
    }
    let read = read_inside(kind, text, start + 1, gap, closing, out);
    match read.end {
        ListEnd::Full(at) => Err(EnclosedError::NoRoom(at)),
        ListEnd::Fault(error) => Err(EnclosedError::Number(error)),
        ListEnd::Over(at) if has_byte(text, at, closing) => Ok((read.count, at + 1)),
        ListEnd::Over(at) => Err(EnclosedError::NoClosing(at)),
    }
}

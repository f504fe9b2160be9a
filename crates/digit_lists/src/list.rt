//! A whole text that is a list.

ghost use Rattle.std.specs.Prelude.{◌≡◌, ◌≤◌, length, map, take, IfOk};
ghost use Rattle.digit_literals.specs.Lists.{list_at, Fills, IfFull, IfOver};
ghost use Rattle.digit_lists.specs.Lists.{after_full, full_list, parsed, Holds};
ghost use Rattle.digit_lists.specs.Errors.{list_position, list_message};

use super::error::NoNumber;
use digit_literals::{Gap, ListEnd, ListRead, ReadsOne, read_list_with};
use digit_pieces::Kind;
use std::error::Error;
use std::fmt;

/// Why a text is no list. A position counts bytes from the start of the text, from 0.
#[derive(Clone, Copy, Debug, PartialEq, Eq)]
pub enum ListError<E> {
    /// A number is missing where one has to be, or one begins and is refused.
    Number(E),
    /// The byte at this position is no part of the list.
    Invalid(usize),
    /// The slice is full, and at this position is one number more.
    NoRoom(usize),
}

impl<E: NoNumber> ListError<E> {
    /// The position of the fault.
    pub fn position(&self) -> usize
        ensures { result ≡ list_position E.fault_at self.now }
    {
        match *self {
            ListError::Number(error) => error.fault_at(),
            ListError::Invalid(at) | ListError::NoRoom(at) => at,
        }
    }
}

impl<E: fmt::Display> fmt::Display for ListError<E> {
    ghost output = { λ e. list_message E.output e };

    fn fmt<W: fmt::Write>(&self, f: &mut fmt::Formatter<W>) -> fmt::Result {
        match self {
            ListError::Number(error) => fmt::Display::fmt(error, f),
            ListError::Invalid(at) => write!(f, "the byte at {at} is no part of the list"),
            ListError::NoRoom(at) => write!(f, "there is no room for the number at {at}"),
        }
    }
}

impl<E: Error> Error for ListError<E> {}

/// The numbers of a kind, as a list has them.
#[derive(Clone, Copy)]
pub(super) struct OfKind<K: Kind> {
    pub(super) kind: K,
}

impl<K: Kind> ReadsOne for OfKind<K> {
    type Number = K::Number;

    type Error = K::Error;

    ghost Meaning = { K.Meaning };

    ghost meaning = { K.meaning };

    ghost valid = { λ of. K.valid of.kind };

    ghost number_at = { λ of text start. K.number_at of.kind text start };

    ghost none_at = { K.none_at };

    #[inline(always)]
    fn read_number(self, text: &[u8], start: usize) -> Result<(K::Number, usize), K::Error> {
        self.kind.read_number(text, start)
    }

    #[inline(always)]
    fn is_none_at(error: K::Error, place: usize) -> bool {
        K::is_none_at(error, place)
    }
}

/// Reads numbers of any kind, as [`read_list`](digit_literals::read_list) reads integers. Requires
/// that the kind is valid and that `start` is within the text.
///
/// ```text
/// decimal numbers of 2 places, `1.5, 2 ,3]` with COMMAS, into 3 places: count 3, Over(9)
/// ```
#[inline(always)]
pub fn read_list_by<K: Kind>(
    kind: K,
    text: &[u8],
    start: usize,
    gap: Gap,
    out: &mut [K::Number],
) -> ListRead<K::Error>
    requires valid { K.valid kind }
    requires within { start ≤ length text.now }
    ensures is { let list = list_at (K.number_at kind text.now) K.none_at gap text.now
        (length out.old) start in
        Fills K.meaning list result out.old out.new }
    ensures count { result.count ≤ length out.old }
    ensures full { IfFull result.end (λ at. (start ≤ at) × (at ≤ length text.now)) }
    ensures over { IfOver result.end (λ at. (start ≤ at) × (at ≤ length text.now)) }
{
    read_list_with(OfKind { kind }, text, start, gap, out)
}

/// Why a list ends that has filled its slice, where the next number may be. It is for the crates
/// above this one. It is code of its own, since few lists fill their slice and go on.
#[inline(never)]
pub fn after_full<K: Kind>(kind: K, text: &[u8], gap: Gap, at: usize) -> ListEnd<K::Error>
    requires valid { K.valid kind }
    requires within { at ≤ length text.now }
    ensures is { result ≡ after_full K.none_at gap at (K.number_at kind text.now at) }
    ensures full { IfFull result (λ place. place ≡ at) }
    ensures over { IfOver result (λ place. place ≡ at) }
{
    match kind.read_number(text, at) {
        Ok(_) => ListEnd::Full(at),
        Err(error) => gap.no_number(at, K::is_none_at(error, at), error),
    }
}

/// [`read_list_by`], where [`Full`](ListEnd::Full) has the position of one number more.
#[inline(always)]
pub(super) fn read_full_list<K: Kind>(
    kind: K,
    text: &[u8],
    start: usize,
    gap: Gap,
    out: &mut [K::Number],
) -> ListRead<K::Error>
    requires valid { K.valid kind }
    requires within { start ≤ length text.now }
    ensures is { let list = full_list (K.number_at kind text.now) K.none_at gap text.now
        (length out.old) start in
        Fills K.meaning list result out.old out.new }
    ensures count { result.count ≤ length out.old }
    ensures full { IfFull result.end (λ at. (start ≤ at) × (at ≤ length text.now)) }
    ensures over { IfOver result.end (λ at. (start ≤ at) × (at ≤ length text.now)) }
{
    let read = read_list_by(kind, text, start, gap, out);
    match read.end {
        ListEnd::Full(at) => ListRead {
            count: read.count,
            end: after_full(kind, text, gap, gap.past_blanks(text, at)),
        },
        _ => read,
    }
}

/// Reads a whole text as a list, and returns how many numbers it has. Requires that the kind is
/// valid. Takes no memory.
///
/// Blanks may be before the first number and after the last one. A separator may be last only if
/// the gap says so by `may_trail`. An empty text, or one of blanks, is a list of no numbers if the
/// gap may trail; otherwise a number has to be there, and the error is that of the number at the
/// end of the text.
///
/// The error is the first fault. A text with more numbers than the slice has places is
/// [`NoRoom`](ListError::NoRoom). After an error the front of the slice has the numbers before the
/// fault. Its rest isn't touched.
///
/// ```text
/// `1, 2,3` with COMMAS: Ok(3); into 2 places: Err(NoRoom(5))    `1,2]`: Err(Invalid(3))
/// `1\n2\n` with LINES, into 2 places: Ok(2)                     `1,`: Err(Number(Empty(2)))
/// `` with WHITESPACE: Ok(0); with COMMAS: Err(Number(Empty(0)))
/// ```
#[inline(always)]
#[tactic(auto, using(crate::proofs::Holding::fills_holds))]
pub fn parse_list<K: Kind>(
    kind: K,
    text: &[u8],
    gap: Gap,
    out: &mut [K::Number],
) -> Result<usize, ListError<K::Error>>
    requires valid { K.valid kind }
    ensures is { let list = full_list (K.number_at kind text.now) K.none_at gap text.now
        (length out.old) 0 in
        result ≡ parsed text.now list }
    ensures numbers { let list = full_list (K.number_at kind text.now) K.none_at gap text.now
        (length out.old) 0 in
        Holds K.meaning list.0 out.old out.new }
    ensures front { let list = full_list (K.number_at kind text.now) K.none_at gap text.now
        (length out.old) 0 in
        IfOk result (λ count. map K.meaning (take count out.new) ≡ list.0) }
    ensures count { IfOk result (λ count. count ≤ length out.old) }
{
    let read = read_full_list(kind, text, 0, gap, out);
    match read.end {
        ListEnd::Full(at) => Err(ListError::NoRoom(at)),
        ListEnd::Fault(error) => Err(ListError::Number(error)),
        ListEnd::Over(at) if at == text.len() => Ok(read.count),
        ListEnd::Over(at) => Err(ListError::Invalid(at)),
    }
}

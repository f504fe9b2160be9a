//! Lists of numbers in a piece of a text, which are read into a slice.

ghost use Rattle.std.specs.Prelude.{◌≡◌, ℕ, Bool, List, ◌≤◌, length, false, IfSome, IfOk, IfErr};
ghost use Rattle.digit_pieces.specs.Cuts.{sure_end, PartsNumbers};
ghost use Rattle.digit_pieces.specs.Pieces.{is_sure, piece_at, FillsPiece, IfAt, SoFar};

use super::gaps::{is_parted, next_start, of_list};
use super::kind::Kind;
use super::sure::sure_end;
use digit_literals::{Gap, ListEnd};
use digit_values::accepts;

/// Why a piece was read no further.
#[derive(Clone, Copy, Debug, PartialEq, Eq)]
pub enum PieceEnd<E> {
    /// More of the text is needed: the bytes from this position on have to come again, with what
    /// follows them. A number may begin there.
    More(usize),
    /// The slice is full. The next number may begin at this position: after a separator, after one
    /// blank where blanks alone separate, or at `start` if the slice has no place.
    Full(usize),
    /// The list is over. At this position, after the last number and its blanks, is no separator;
    /// or no number begins there, where none has to be.
    Over(usize),
    /// A number is missing where one has to be, or one begins and is refused.
    Fault(E),
}

/// How many numbers were read, and why no more.
#[derive(Clone, Copy, Debug, PartialEq, Eq)]
pub struct PieceRead<E> {
    /// How many numbers were written into the slice.
    pub count: usize,
    /// Why there are no more.
    pub end: PieceEnd<E>,
}

/// Whether the outcome at a position is the same, whatever follows the piece.
#[inline(always)]
fn is_sure(is_last: bool, sure: usize, at: usize) -> bool
    ensures { result ≡ is_sure is_last sure at }
{
    is_last || at < sure
}

/// How many bytes are looked at for the last separator of a piece.
const NEAR: usize = 64;

/// The last separator of a piece that is in no number and follows one, if it is among the last
/// bytes before `sure`. From `start` on the numbers before it are the same, whatever follows it.
fn last_separator<K: Kind>(
    kind: K,
    text: &[u8],
    start: usize,
    sure: usize,
    gap: Gap,
) -> Option<usize>
    requires { sure ≤ length text.now }
    ensures { IfSome result (PartsNumbers (K.has_byte kind) gap text.now start) }
{
    let low = start.max(sure.saturating_sub(NEAR));
    let mut found = None;
    for at in (low..sure).rev() {
        let byte = text[at];
        if accepts(gap.separators, byte) {
            if kind.has_byte(byte) {
                return None;
            }
            found = Some(at);
        } else if !accepts(gap.blanks, byte) && found.is_some() {
            return found;
        }
    }
    None
}

/// How far a piece was read as a list.
#[derive(Clone, Copy)]
struct Went {
    /// How many numbers are in the slice.
    count: usize,
    /// Where the next one may be.
    at: usize,
}

/// Reads a piece as a list up to its last separator, if it has one: how many numbers are in the
/// slice, and where the next one may be; or why there are no more. It is code of its own, since
/// what is inlined must be small.
#[inline(never)]
fn read_front<K: Kind>(
    kind: K,
    text: &[u8],
    start: usize,
    sure: usize,
    gap: Gap,
    out: &mut [K::Number],
) -> Result<Went, PieceRead<K::Error>>
    requires valid { K.valid kind }
    requires within { start ≤ length text.now }
    requires sure { sure ≡ sure_end (K.has_byte kind) text.now }
    requires separators { gap.blanks_separate ≡ false }
    ensures so { (is_last : Bool) → IfOk result (λ went.
        SoFar K.meaning (K.number_at kind text.now) K.none_at gap text.now sure is_last start
        went.count went.at out.old out.new) }
    ensures fills { (is_last : Bool) → IfErr result (λ read.
        FillsPiece K.meaning (piece_at (K.number_at kind text.now) K.none_at gap text.now sure
        is_last (length out.old) start) read out.old out.new) }
    ensures onward { IfOk result (λ went. start ≤ went.at) }
    ensures within { IfOk result (λ went. went.at ≤ length text.now) }
    ensures room { IfOk result (λ went. went.count ≤ length out.old) }
    ensures count { IfErr result (λ read. read.count ≤ length out.old) }
    ensures at { IfErr result (λ read.
        IfAt read.end (λ at. (start ≤ at) × (at ≤ length text.now))) }
    ensures length { length out.new ≡ length out.old }
{
    let none = Went {
        count: 0,
        at: start,
    };
    let Some(cut) = last_separator(kind, text, start, sure, gap) else {
        return Ok(none);
    };
    let Some(read) = kind.read_list(&text[..cut], start, gap, out) else {
        return Ok(none);
    };
    let count = read.count;
    let end = match read.end {
        ListEnd::Over(at) if at == cut => return Ok(Went { count, at: cut + 1 }),
        ListEnd::Over(at) => PieceEnd::Over(at),
        ListEnd::Full(at) => PieceEnd::Full(at),
        ListEnd::Fault(error) => PieceEnd::Fault(error),
    };
    Err(PieceRead { count, end })
}

/// Reads the numbers of a piece from `begin` on one by one. `from` are in the slice.
#[inline(always)]
#[tactic(auto, using(crate::proofs::Turns::turns))]
fn read_rest<K: Kind>(
    kind: K,
    text: &[u8],
    begin: usize,
    sure: usize,
    gap: Gap,
    is_last: bool,
    out: &mut [K::Number],
    from: usize,
) -> PieceRead<K::Error>
    requires valid { K.valid kind }
    requires within { begin ≤ length text.now }
    requires room { from ≤ length out.old }
    ensures fills { (start : ℕ) (old : List K.Number)
        → SoFar K.meaning (K.number_at kind text.now) K.none_at gap text.now sure is_last start
        from begin old out.old
        → FillsPiece K.meaning (piece_at (K.number_at kind text.now) K.none_at gap text.now sure
        is_last (length old) start) result old out.new }
    ensures count { result.count ≤ length out.old }
    ensures at { IfAt result.end (λ at. (begin ≤ at) × (at ≤ length text.now)) }
    ensures length { length out.new ≡ length out.old }
{
    let mut at = begin;
    for count in from..out.len() {
        let place = gap.past_blanks(text, at);
        if !is_sure(is_last, sure, place) {
            let end = PieceEnd::More(place);
            return PieceRead { count, end };
        }
        let (number, end) = match kind.read_number(text, place) {
            Ok(read) => read,
            Err(error) => {
                let end = of_list(gap.no_number(place, K::is_none_at(error, place), error));
                return PieceRead { count, end };
            }
        };
        if !is_parted(gap, text, is_last, end) {
            let more = PieceEnd::More(place);
            return PieceRead { count, end: more };
        }
        out[count] = number;
        match next_start(gap, text, end) {
            Ok(next) => at = next,
            Err(over) => {
                return PieceRead {
                    count: count + 1,
                    end: PieceEnd::Over(over),
                };
            }
        }
    }
    PieceRead {
        count: out.len(),
        end: PieceEnd::Full(at),
    }
}

/// Reads a list in one piece of a text. If it returns `More(at)`, pass the bytes from `at` on
/// again, in front of the next piece. For the last piece set `is_last`. Requires that the kind is
/// valid and that `start` is within the text. Takes no memory.
///
/// If something may follow the piece, then a number that touches its end is left, with the blanks
/// after it, since what follows may go on with it: the end is [`More`](PieceEnd::More). A number is
/// given as soon as a byte follows it that no number may have and that is no blank
/// ([`a_number_is_given`](crate::laws::a_number_is_given)). Where blanks alone separate, one blank
/// after a number is enough, and [`Full`](PieceEnd::Full) is after it. Otherwise the piece is read
/// and ends as a list does ([`read_list`](digit_literals::read_list)).
///
/// So the numbers of a text can be read piece by piece, each piece after what was left of those
/// before it ([`pieces_give_the_list`](crate::laws::pieces_give_the_list)).
///
/// ```text
/// floats of `1.5,-2` with COMMAS: count 1, More(4); then of `-2e3`, the last: -2000, Over(4)
/// ```
#[inline(always)]
#[tactic(auto, using(crate::proofs::Turns::turns))]
pub fn read_piece<K: Kind>(
    kind: K,
    text: &[u8],
    start: usize,
    gap: Gap,
    is_last: bool,
    out: &mut [K::Number],
) -> PieceRead<K::Error>
    requires valid { K.valid kind }
    requires within { start ≤ length text.now }
    ensures is { let sure = sure_end (K.has_byte kind) text.now in
        let read = piece_at (K.number_at kind text.now) K.none_at gap text.now sure is_last
        (length out.old) start in
        FillsPiece K.meaning read result out.old out.new }
    ensures count { result.count ≤ length out.old }
    ensures at { IfAt result.end (λ at. (start ≤ at) × (at ≤ length text.now)) }
{
    let sure = sure_end(kind, text);
    let mut at = start;
    let mut from = 0;
    if !gap.blanks_separate && kind.is_list_faster(text, start, gap, out.len()) {
        // a copy, so that the gap goes to memory here alone
        match read_front(kind, text, start, sure, Gap { ..gap }, out) {
            Ok(went) => {
                at = went.at;
                from = went.count;
            }
            Err(read) => return read,
        }
    }
    read_rest(kind, text, at, sure, gap, is_last, out, from)
}

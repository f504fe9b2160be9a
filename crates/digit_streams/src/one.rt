//! The next number of a piece of a text.

ghost use Rattle.std.specs.Prelude.{◌≡◌, true, ℕ, None, ◌<◌, ◌≤◌, if◌then◌else◌, length, nat_lt, IsSome};
ghost use Rattle.std.specs.Result.{result_err};
ghost use Rattle.digit_literals.specs.Lists.{past_blanks};
ghost use Rattle.digit_pieces.specs.Cuts.{sure_end};
ghost use Rattle.digit_pieces.specs.Pieces.{IfAt, is_sure, piece_at};
ghost use Rattle.digit_streams.specs.Streams.{list_of_option};

use digit_literals::Gap;
use digit_pieces::{Kind, PieceEnd, is_parted, next_start, of_list};

/// The next number of a piece, if there is one, and why no more was read.
#[derive(Clone, Copy)]
pub struct OneRead<N, E> {
    pub number: Option<N>,
    pub end: PieceEnd<E>,
}

/// Whether a byte that ends every number is at a position or after it.
fn has_end<K: Kind>(kind: K, text: &[u8], start: usize) -> bool
    requires { start ≤ length text.now }
    ensures { result ≡ nat_lt start (sure_end (K.has_byte kind) text.now) }
{
    for at in start..text.len() {
        if !kind.has_byte(text[at]) {
            return true;
        }
    }
    false
}

/// Whether a byte that ends every number is at a position.
fn ends_at<K: Kind>(kind: K, text: &[u8], at: usize) -> bool
    ensures { result ≡ true → at < sure_end (K.has_byte kind) text.now }
{
    match text.get(at) {
        Some(byte) => !kind.has_byte(*byte),
        None => false,
    }
}

/// Whether the outcome at a place stays, whatever follows the piece. If it is a number, it ends at
/// `end`: in the usual case the byte there ends every number, and no other one is looked at.
fn is_sure<K: Kind>(kind: K, text: &[u8], is_last: bool, place: usize, end: usize) -> bool
    requires order { place ≤ end }
    requires within { end ≤ length text.now }
    ensures { result ≡ is_sure is_last (sure_end (K.has_byte kind) text.now) place }
{
    is_last || ends_at(kind, text, end) || has_end(kind, text, place)
}

/// Why no number begins in a piece, past its blanks. `None` if one begins there, or may.
pub fn error_in<K: Kind>(kind: K, gap: Gap, text: &[u8], is_last: bool) -> Option<K::Error>
    requires { K.valid kind }
    ensures { let place = past_blanks gap text.now 0 in
        result ≡ (if is_sure is_last (sure_end (K.has_byte kind) text.now) place
        then result_err (K.number_at kind text.now place) else None) }
{
    let place = gap.past_blanks(text, 0);
    match kind.read_number(text, place) {
        Ok(_) => None,
        Err(error) => is_sure(kind, text, is_last, place, place).then_some(error),
    }
}

/// The next number of a piece, as by [`read_piece`](digit_pieces::read_piece) into one place.
#[tactic(auto, unfolding(digit_pieces::specs::Pieces::piece_at))]
pub fn read_one<K: Kind>(
    kind: K,
    gap: Gap,
    text: &[u8],
    is_last: bool,
) -> OneRead<K::Number, K::Error>
    requires { K.valid kind }
    ensures is { piece_at (K.number_at kind text.now) K.none_at gap text.now
        (sure_end (K.has_byte kind) text.now) is_last 1 0
        ≡ (list_of_option K.meaning result.number, result.end) }
    ensures more { (at : ℕ) → result.end ≡ PieceEnd.More at → result.number ≡ None }
    ensures full { (at : ℕ) → result.end ≡ PieceEnd.Full at → IsSome result.number }
    ensures fault { (error : K.Error) → result.end ≡ PieceEnd.Fault error →
        result.number ≡ None }
    ensures at { IfAt result.end (λ at. at ≤ length text.now) }
{
    let place = gap.past_blanks(text, 0);
    match kind.read_number(text, place) {
        Ok((number, end)) => {
            if !is_sure(kind, text, is_last, place, end) || !is_parted(gap, text, is_last, end) {
                return OneRead {
                    number: None,
                    end: PieceEnd::More(place),
                };
            }
            let end = match next_start(gap, text, end) {
                Ok(next) => PieceEnd::Full(next),
                Err(over) => PieceEnd::Over(over),
            };
            let number = Some(number);
            OneRead { number, end }
        }
        Err(error) => {
            let end = if is_sure(kind, text, is_last, place, place) {
                of_list(gap.no_number(place, K::is_none_at(error, place), error))
            } else {
                PieceEnd::More(place)
            };
            OneRead { number: None, end }
        }
    }
}

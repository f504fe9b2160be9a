//! What a gap says between two numbers of a piece of a text. It is for the crates above this one,
//! which read pieces in ways of their own.

ghost use Rattle.std.specs.Prelude.{◌≡◌, ◌<◌, ◌≤◌, length, IfOk, IfErr};
ghost use Rattle.digit_pieces.specs.Pieces.{of_list, is_of_blanks, is_parted, next_start};

use super::piece::PieceEnd;
use digit_literals::{Gap, ListEnd};

/// The end of a list as that of a piece.
#[inline(always)]
pub fn of_list<E: Copy>(end: ListEnd<E>) -> PieceEnd<E>
    ensures { result ≡ of_list end }
{
    match end {
        ListEnd::Full(at) => PieceEnd::Full(at),
        ListEnd::Over(at) => PieceEnd::Over(at),
        ListEnd::Fault(error) => PieceEnd::Fault(error),
    }
}

/// Whether a gap has no separator but blanks.
#[inline(always)]
pub fn is_of_blanks(gap: Gap) -> bool
    ensures { result ≡ is_of_blanks gap }
{
    gap.blanks_separate && gap.separators.low == 0 && gap.separators.high == 0
}

/// Whether it is known what follows the number that ends at `end`: a separator, or the end of the
/// list.
#[inline(always)]
pub fn is_parted(gap: Gap, text: &[u8], is_last: bool, end: usize) -> bool
    requires { end ≤ length text.now }
    ensures { result ≡ is_parted gap text.now is_last end }
{
    is_last || is_of_blanks(gap) && end < text.len() || gap.past_blanks(text, end) < text.len()
}

/// Where the next number may be, after the number that ends at a position: as by
/// [`Gap::next_after`], but that one blank is enough where blanks alone separate. Requires that the
/// position is within the text.
#[inline(always)]
pub fn next_start(gap: Gap, text: &[u8], end: usize) -> Result<usize, usize>
    requires { end ≤ length text.now }
    ensures is { result ≡ next_start gap text.now end }
    ensures onward { IfOk result (λ next. end < next) }
    ensures within { IfOk result (λ next. next ≤ length text.now) }
    ensures over { IfErr result (λ over. (end ≤ over) × (over ≤ length text.now)) }
{
    if is_of_blanks(gap) && end < gap.past_blanks(text, end) {
        Ok(end + 1)
    } else {
        gap.next_after(text, end)
    }
}

//! How a block ends, in positions of the text.

ghost use Rattle.std.specs.Prelude.{◌≡◌, ◌≤◌, ◌+◌, ◌^◌, IfSome, IfNone};
ghost use Rattle.digit_blocks.specs.Blocks.{piece_later, reach};

use digit_pieces::{Kind, PieceEnd};

/// Turns the end of a block that begins at `offset` into an end of the whole text: it adds `offset`
/// to each position, also to that of a fault. It returns `None` if a position would be above
/// `usize::MAX`.
///
/// ```text
/// of a block at 100: Fault(Empty(3)) is Fault(Empty(103)), Over(4) is Over(104)
/// ```
pub fn end_in_text<K: Kind>(end: PieceEnd<K::Error>, offset: usize) -> Option<PieceEnd<K::Error>>
    ensures is { IfSome result (λ later. later ≡ piece_later K.error_later offset end) }
    ensures none { IfNone result (2 ^ 64 ≤ offset + reach K.error_at end) }
{
    match end {
        PieceEnd::More(at) => Some(PieceEnd::More(offset.checked_add(at)?)),
        PieceEnd::Full(at) => Some(PieceEnd::Full(offset.checked_add(at)?)),
        PieceEnd::Over(at) => Some(PieceEnd::Over(offset.checked_add(at)?)),
        PieceEnd::Fault(error) => {
            offset.checked_add(K::error_at(error))?;
            Some(PieceEnd::Fault(K::error_later(error, offset)))
        }
    }
}

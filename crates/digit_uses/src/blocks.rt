//! A text in blocks. Pairs of a block that comes by itself, and the numbers of a block that was cut
//! out of a text, which may be read in any order, by several threads or machines.
//!
//! Proof by hand: none.

ghost use Rattle.std.specs.Prelude.{◌≤◌, length, IfSome};

use digits::{
    Both, BothError, COMMAS, Integers, LINES, LiteralError, PieceRead, STANDARD, block_start,
    end_in_text, read_piece,
};

/// The points of a block, as `3:4, 5:6`, in the front of a slice: how many they are, and why there
/// are no more. `is_last` says that no block follows. Another block ends with `More(at)`: its bytes
/// from `at` on come again before the next one.
#[tactic(auto, unfolding(digits::proofs::Literals::lexical_on_literals))]
pub fn read_pairs(
    block: &[u8],
    is_last: bool,
    points: &mut [(u16, u16)],
) -> PieceRead<BothError<LiteralError, LiteralError>> {
    let side = Integers::<u16>::new(STANDARD);
    let point = Both {
        first: side,
        between: b':',
        second: side,
    };
    read_piece(point, block, 0, COMMAS, is_last, points)
}

/// The heights of a block of a text, one in each line, in the front of a slice: how many they are,
/// and why there are no more, by positions of the text. The block is cut at two positions, which
/// may be anywhere. `None` if a position would be above `usize::MAX`.
#[tactic(auto, unfolding(digits::proofs::Literals::lexical_on_literals))]
pub fn read_block(
    text: &[u8],
    from: usize,
    to: usize,
    heights: &mut [i32],
) -> Option<PieceRead<LiteralError>>
    requires order { from ≤ to }
    requires within { to ≤ length text.now }
    ensures { IfSome result (λ read. read.count ≤ length heights.old) }
{
    let start = block_start(text, from, LINES);
    let end = block_start(text, to.max(start), LINES);
    let kind = Integers::<i32>::new(STANDARD);
    let is_last = end == text.len();
    let read = read_piece(kind, &text[start..end], 0, LINES, is_last, heights);
    Some(PieceRead {
        count: read.count,
        end: end_in_text::<Integers<i32>>(read.end, start)?,
    })
}

//! Where a block begins.

ghost use Rattle.std.specs.Prelude.{◌≡◌, ◌≤◌, ◌<◌, ◌⊎◌, ℕ, length};
ghost use Rattle.digit_blocks.specs.Blocks.{IsStart, ends_of};

use digit_literals::Gap;
use digit_pieces::is_of_blanks;
use lexical_digits::ops::ByteSet;

/// The bytes with which a block may end: those that separate; where blanks alone separate, these.
fn ends_of(gap: Gap) -> ByteSet
    ensures { result ≡ ends_of gap }
{
    if is_of_blanks(gap) {
        gap.blanks
    } else {
        gap.separators
    }
}

/// Returns the first position from `at` on where a block may begin: where the text begins, after a
/// byte that separates, or where the text ends. A number that is cut belongs to the block that it
/// begins in. Requires that `at` is within the text.
///
/// Where blanks alone separate, a blank is such a byte. So a text may be cut anywhere. The block
/// that ends where the text ends is the last.
///
/// ```text
/// `12,345,6` with COMMAS: from 0 it is 0, from 1 to 3 it is 3, from 4 to 7 it is 7, from 8 it is 8
/// ```
pub fn block_start(text: &[u8], at: usize, gap: Gap) -> usize
    requires { at ≤ length text.now }
    ensures within { result ≤ length text.now }
    ensures onward { at ≤ result }
    ensures start { IsStart gap text.now result ⊎ (result ≡ length text.now) }
    ensures first { (other : ℕ) → at ≤ other → other < result → IsStart gap text.now other → ⊥ }
{
    if at == 0 {
        return 0;
    }
    let ends = ends_of(gap);
    for last in at - 1..text.len() {
        if ends.accepts(text[last]) {
            return last + 1;
        }
    }
    text.len()
}

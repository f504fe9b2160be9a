//! Where a block of a text begins that is read by itself.

ghost use Rattle.std.specs.Prelude.{◌≡◌, ◌≤◌, ◌<◌, ◌⊎◌, ℕ, length};
ghost use Rattle.digits.specs.Words.{IsStart};
ghost use Rattle.digits_c.specs.Lists.{gap_of};

use super::lists::gap_of;
use digits::block_start;

/// The first position from `at` on where a block of a list may begin, by the byte between two
/// numbers: where the text begins, or after such a byte. If there is none, or if `at` is after the
/// end of the text, it is the length.
#[unsafe(no_mangle)]
pub extern "C" fn digits_block_start(text: &[u8], at: usize, between: u8) -> usize
    ensures within { result ≤ length text.now }
    ensures onward { at ≤ length text.now → at ≤ result }
    ensures start { IsStart (gap_of between) text.now result ⊎ (result ≡ length text.now) }
    ensures first { (other : ℕ) → at ≤ other → other < result
        → IsStart (gap_of between) text.now other → ⊥ }
{
    if at > text.len() {
        return text.len();
    }
    block_start(text, at, gap_of(between))
}

//! Up to where a text is sure, whatever follows it.

ghost use Rattle.std.specs.Prelude.{◌≡◌, ℕ, ◌+◌, ◌<◌, ◌≤◌, true, false, List, ◌++◌, length, slice_index};
ghost use Rattle.digit_pieces.specs.Cuts.{sure_end};

use super::kind::Kind;

/// Returns the position up to which the numbers of a piece are final: what comes next can't change
/// a number before it. It is the position after the last byte that no number of the kind has, or 0
/// if there is none.
///
/// The outcome at each position before it stays, whatever follows the text. From it on every byte
/// may be in a number, so a number there may go on.
///
/// ```text
/// `1.5,-2` as floats: 4, after the comma      `12` : 0      `1 2 ` : 4
/// ```
#[inline]
pub fn sure_end<K: Kind>(kind: K, text: &[u8]) -> usize
    ensures is { result ≡ sure_end (K.has_byte kind) text.now }
    ensures within { result ≤ length text.now }
    ensures ends { (at : ℕ) → at + 1 ≡ result →
        K.has_byte kind (slice_index text.now at) ≡ false }
    ensures last { (at : ℕ) → result ≤ at → at < length text.now →
        K.has_byte kind (slice_index text.now at) ≡ true }
    ensures stays { (more : List ℕ) (start : ℕ) → K.valid kind → start < result →
        K.number_at kind (text.now ++ more) start ≡ K.number_at kind text.now start }
{
    for at in (0..text.len()).rev() {
        if !kind.has_byte(text[at]) {
            return at + 1;
        }
    }
    0
}

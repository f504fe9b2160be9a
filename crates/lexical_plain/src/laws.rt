//! Laws of the plain module. Each law is the contract of a function.

ghost use Rattle.std.specs.Prelude.{◌≡◌, ◌+◌, List};
ghost use Rattle.std.specs.List.{AllPass};
ghost use Rattle.lexical_digits.specs.CallTable.{Part};
ghost use Rattle.lexical_digits.specs.declared.ops.Op.{Op};
ghost use Rattle.lexical_digits.specs.Cursor.{items};
ghost use Rattle.lexical_digits.specs.CallTable as skip;
ghost use Rattle.lexical_digits.specs.State as skip_state;
ghost use Rattle.lexical_plain.specs.Plain.{start, with_cursor, rest, zeros, taken, run_of, both_have, without_counts, IsPlainWord};

pub mod rows;

use crate::noskip::DigitsIterator;
use lexical_digits::iterator::DigitsBodies;

/// [`noskip`](crate::noskip) can replace `skip` for a word with no separator, no flag and an
/// exponent radix that equals the mantissa radix. Take a new `Bytes` of each module over the same
/// buffer and word, and a list of calls that both modules have, on the `Bytes` and on its iterators
/// in any order: both give the same answers, and their cursors end at the same position.
#[tactic(auto, using(crate::proofs::AgreesWithSkip::fresh_agree))]
pub fn plain_agrees(buffer: &[u8], word: u128)
    ensures answers { IsPlainWord word → (calls : List (Part × Op)) → AllPass both_have calls →
        (skip.run_of (skip_state.start buffer.now word) calls).answers ≡
        (run_of (start buffer.now word) calls).answers }
    ensures states { IsPlainWord word → (calls : List (Part × Op)) → AllPass both_have calls →
        without_counts (skip.run_of (skip_state.start buffer.now word) calls).state ≡
        (run_of (start buffer.now word) calls).state }
{}

/// Calls `skip_zeros`, and answers how many zeros it read: the bytes `0` that come first from the
/// cursor on. The cursor ends after them.
#[tactic(auto, using(crate::proofs::ItemsAndZeros::first))]
pub fn zeros_come_first<'a, 'b>(iter: &mut DigitsIterator<'a, 'b>) -> usize
    ensures answers { result ≡ zeros iter.old.byte.now.state }
    ensures leaves { let s = iter.old.byte.now.state in
        iter.new.byte.now.state ≡ with_cursor s (s.cursor + zeros s) }
    ensures keeps_loan { iter.new.byte.ghost_name ≡ iter.old.byte.ghost_name }
{
    iter.skip_zeros()
}

/// The items of an iterator, the bytes that `next` answers before `None`, are all the bytes from
/// the cursor on.
#[tactic(auto, using(crate::proofs::ItemsAndZeros::items_rest))]
pub fn items_are_rest<'a, 'b>(iter: &DigitsIterator<'a, 'b>)
    ensures { let s = iter.now.byte.now.state in
        items (λ p. p.buffer) (λ p. p.cursor) (λ p. p.cursor) taken s ≡ rest s }
{}

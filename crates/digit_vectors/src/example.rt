//! Callers of the iterators. A call such as `integer_iter` makes an iterator whose answers a proof
//! knows. A literal makes the same iterator, and after it a proof also knows what the `Bytes`
//! holds.

ghost use Rattle.std.specs.Prelude.{◌≡◌, ◌+◌, IsTrue, if◌then◌else◌, is_some, option_copied, slice_get, pos, ◌≤ℤ◌, ◌+ℤ◌};
ghost use Rattle.lexical_format.specs.Word.{is_supported};
ghost use Rattle.lexical_digits.specs.Separators.{is_digit, place};
ghost use Rattle.lexical_digits.specs.State.{rule_of, rule, with_cursor};
ghost use Rattle.lexical_digits.specs.CallTable.{byte_at_place, settled, taken};
ghost use Rattle.lexical_digits.specs.Looks.{owed, NoLooks};
ghost use Rattle.lexical_digits.specs.Cursor.{byte_if, holds_of};
ghost use Rattle.digit_vectors.specs.Sign.{is_sign};
ghost use Rattle.lexical_digits.specs.declared.skip.component.Component.TheVariants.{Integer};

use lexical_digits::iterator::{DigitsIter, IterBodies};
use lexical_digits::skip::{Bytes, IntegerDigitsIterator};

/// Passes a sign at the cursor, and answers whether there was one. A separator is no sign. The call
/// reads nothing, so it counts no look.
pub fn pass_sign(bytes: &mut Bytes) -> bool
    ensures sign { let s = bytes.old.state in
        result ≡ holds_of (is_sign s) (slice_get s.buffer s.cursor) }
    ensures state { let s = bytes.old.state in
        bytes.new.state ≡ if result then with_cursor s (s.cursor + 1) else s }
    ensures no_looks { NoLooks bytes.old bytes.new }
{
    let mut digits = IntegerDigitsIterator { byte: bytes };
    let Some(byte) = digits.first() else {
        return false;
    };
    if !digits.is_sign(*byte) || digits.is_digit_separator(*byte) {
        return false;
    }
    digits.step_unchecked();
    true
}

/// The next byte that the integer keeps, if it is a digit. That digit is passed and counted. On
/// `None` the cursor is at the byte, or at the end.
#[tactic(auto, using(crate::proofs::Settled::taken_settled))]
pub fn next_digit(bytes: &mut Bytes) -> Option<u8>
    ensures digit { let s = bytes.old.state in
        result ≡ byte_if (is_digit (rule Integer s)) (byte_at_place Integer s) }
    ensures state { let s = bytes.old.state in
        bytes.new.state ≡ if is_some result then taken Integer s else settled Integer s }
    ensures owes { owed bytes.new ≤ℤ (owed bytes.old +ℤ pos 8) }
{
    let mut digits = IntegerDigitsIterator { byte: bytes };
    let byte = *digits.peek()?;
    if !digits.is_digit(byte) {
        return None;
    }
    let _ = digits.next();
    Some(byte)
}

/// The first byte of a text that the integer keeps; `None` if it keeps none. The byte is one of the
/// text, so it outlives the iterator and its `Bytes`. Requires that the word is supported.
#[tactic(auto, unfolding(lexical_digits::specs::CallTable::place_of))]
pub fn first_kept<'a>(text: &'a [u8], word: u128) -> Option<&'a u8>
    requires { IsTrue (is_supported word) }
    ensures { let at = place (rule_of word Integer) text.entry.now 0 0 in
        option_copied result ≡ slice_get text.entry.now at }
{
    let mut bytes = Bytes::new(text, word);
    bytes.integer_iter().next()
}

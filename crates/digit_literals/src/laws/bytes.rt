//! Which bytes are passed, and which byte follows them.

ghost use Rattle.std.specs.Prelude.{◌≡◌, ℕ, ◌<◌, ◌≤◌, true, false, List, slice_get};
ghost use Rattle.lexical_digits.specs.ByteSet.{accepts};
ghost use Rattle.lexical_digits.specs.Cursor.{holds_of};
ghost use Rattle.lexical_digits.specs.declared.ops.ByteSet.{ByteSet};
ghost use Rattle.digit_values.specs.Bytes.{is_name_byte, name_end, past_bytes};
ghost use Rattle.digit_literals.specs.declared.list.Gap.{Gap};
ghost use Rattle.digit_literals.specs.Lists.{has_blank, past_blanks};

/// [`past_bytes`](digit_values::past_bytes) passes each byte of its set, and after it none follows.
/// So does [`name_end`](digit_values::name_end) with the bytes of a name, and
/// [`past_blanks`](crate::Gap::past_blanks) with blanks. At the end of a text there is none.
#[tactic(auto, using(crate::proofs::PassedAll::passed_bytes))]
pub fn bytes_are_passed()
    ensures none_follows { (text : List ℕ) (at : ℕ) (set : ByteSet) →
        holds_of (accepts set) (slice_get text (past_bytes text at set)) ≡ false }
    ensures each { (text : List ℕ) (at i : ℕ) (set : ByteSet) →
        at ≤ i → i < past_bytes text at set → holds_of (accepts set) (slice_get text i) ≡ true }
    ensures no_name_follows { (text : List ℕ) (at : ℕ) →
        holds_of is_name_byte (slice_get text (name_end text at)) ≡ false }
    ensures each_of_name { (text : List ℕ) (at i : ℕ) →
        at ≤ i → i < name_end text at → holds_of is_name_byte (slice_get text i) ≡ true }
    ensures no_blank_follows { (text : List ℕ) (at : ℕ) (gap : Gap) →
        has_blank gap text (past_blanks gap text at) ≡ false }
    ensures each_blank { (text : List ℕ) (at i : ℕ) (gap : Gap) →
        at ≤ i → i < past_blanks gap text at → has_blank gap text i ≡ true }
{}

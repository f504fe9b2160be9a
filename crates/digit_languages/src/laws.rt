//! A law: what follows a literal makes no difference to it.

ghost use Rattle.std.specs.Prelude.{◌≡◌, ℕ, ◌+◌, ◌<◌, ◌≤◌, Bool, true, false, List, length, take, slice_get};
ghost use Rattle.lexical_digits.specs.Cursor.{holds_of};
ghost use Rattle.digit_values.specs.Bytes.{has_byte};
ghost use Rattle.digit_languages.specs.declared.language.Language.{Language};
ghost use Rattle.digit_languages.specs.Follows.{AreSameBefore, is_literal_byte};
ghost use Rattle.digit_languages.specs.Literals.{literal_at};

pub mod zeros;

/// What follows makes no difference. Where two texts have the same bytes up to a position, and each
/// ends there, or goes on with a byte that no literal of the language has, the literal from each
/// start up to there is the same, or the same fault.
pub fn what_follows_changes_no_literal()
    ensures literal { (l : Language) (one other : List ℕ) (at start most : ℕ) →
        AreSameBefore (is_literal_byte l) one other at → start ≤ at →
        literal_at l one start most ≡ literal_at l other start most }
    // a text is the same as itself cut before a byte that doesn't pass, and as one with that byte
    ensures cut { (p : ℕ → Bool) (text : List ℕ) (at : ℕ) →
        at ≤ length text → holds_of p (slice_get text at) ≡ false →
        AreSameBefore p (take at text) text at }
    ensures through { (p : ℕ → Bool) (one other : List ℕ) (at : ℕ) →
        at < length one → at < length other → take (at + 1) one ≡ take (at + 1) other →
        holds_of p (slice_get one at) ≡ false → AreSameBefore p one other at }
    // what to show of a byte there
    ensures byte { (p : ℕ → Bool) (text : List ℕ) (at byte : ℕ) →
        has_byte text at byte ≡ true → p byte ≡ false → holds_of p (slice_get text at) ≡ false }
{}

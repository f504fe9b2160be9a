//! What the constants say, byte by byte.

ghost use Rattle.std.specs.Prelude.{◌==◌, ◌||◌, true, false};
ghost use Rattle.digit_literals.specs.Gaps.{IsGap};

use crate::{COMMAS, COMMAS_IN_LINE, LINES, SPACES_IN_LINE, WHITESPACE};
pub use digit_values::laws::blanks_are;

/// What each gap says: the bytes that separate, those that may be around a separator, whether the
/// latter separate too, and whether a separator may be last.
#[tactic(auto, using(digit_values::proofs::EachByte::has_bytes))]
pub fn gaps_are()
    ensures commas { IsGap COMMAS (λ b. b == 44)
        (λ b. b == 9 || b == 10 || b == 13 || b == 32) false false }
    ensures commas_in_line { IsGap COMMAS_IN_LINE (λ b. b == 44)
        (λ b. b == 9 || b == 32) false false }
    ensures whitespace { IsGap WHITESPACE (λ _. false)
        (λ b. b == 9 || b == 10 || b == 13 || b == 32) true true }
    ensures spaces_in_line { IsGap SPACES_IN_LINE (λ _. false)
        (λ b. b == 9 || b == 32) true true }
    ensures lines { IsGap LINES (λ b. b == 10)
        (λ b. b == 9 || b == 10 || b == 13 || b == 32) false true }
{}

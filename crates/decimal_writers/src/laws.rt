//! Laws: how long the texts of floats are, and that those with a fixed number of places are read.

ghost use Rattle.std.specs.Prelude.{◌≡◌, ℕ, ℤ, ◌*◌, ◌^◌, ◌<◌, ◌≤◌, Bool, Ok, length, unsigned_abs};
ghost use Rattle.std.specs.Float.{Format, fin};
ghost use Rattle.std.specs.Float.Ieee.{round, up, down};
ghost use lib.Ieee.Nearest.{closest};
ghost use Rattle.lexical_format.specs.declared.TheConstants.{STANDARD};
ghost use Rattle.digit_floats.specs.Float.{plain_marks, parse_at};
ghost use Rattle.decimal_writers.specs.Fixed.{fixed_text};
ghost use Rattle.decimal_writers.specs.Text.{exponent_text, usual_text};

use super::room::FLOAT_ROOM;

/// Of at most 17 digits and a power of ten from -400 to 400 the texts with an exponent and the
/// usual
/// ones have at most [`FLOAT_ROOM`](crate::FLOAT_ROOM) bytes.
#[tactic(auto, using(crate::proofs::Lengths::fits))]
pub fn float_texts_fit()
    ensures exponent { (negative : Bool) (digits : ℕ) (power : ℤ) →
        digits < 10 ^ 17 → unsigned_abs power ≤ 400 →
        length (exponent_text negative digits power) ≤ FLOAT_ROOM }
    ensures usual { (negative : Bool) (digits : ℕ) (power : ℤ) →
        digits < 10 ^ 17 → unsigned_abs power ≤ 400 →
        length (usual_text negative digits power) ≤ FLOAT_ROOM }
{}

/// What [`write_fixed`](crate::write_fixed) writes is read as the float nearest to the number in
/// units
/// of the last place that stands there.
#[tactic(auto, using(crate::proofs::Reading::fixed_reads))]
pub fn fixed_texts_are_read()
    ensures { (f : Format) (negative : Bool) (significand : ℕ) (exponent : ℤ) (places : ℕ) →
        parse_at STANDARD (fixed_text (fin negative significand exponent) places) plain_marks f 0
        ≡ Ok (round f negative
        (closest (significand * up exponent * 10 ^ places) (down exponent)) (10 ^ places)) }
{}

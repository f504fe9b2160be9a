//! Laws of what is written by a form, for those who call. Each law is the contract of a function.

ghost use Rattle.std.specs.Prelude.{IsTrue};
ghost use Rattle.std.specs.Float.{Float, Format, float_is_finite};
ghost use Rattle.digit_numbers.specs.declared.number.Number.TheVariants as numbers;
ghost use Rattle.form_writers.specs.Numbers.{HasNone};

use digit_numbers::forms::JSON;

/// JSON has each finite float: `NoNumber` is answered only of an infinity and of what is not a
/// number.
#[tactic(auto, using(crate::proofs::Json::json_has))]
pub fn json_has_each_float()
    ensures { (f : Format) (x : Float) → IsTrue (float_is_finite x) →
        HasNone JSON f (numbers.Float x) → ⊥ }
{}

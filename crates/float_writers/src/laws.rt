//! Laws of what is written of floats, for those who call. Each law is the contract of a function.

ghost use Rattle.std.specs.Prelude.{◌≡◌, ℕ, ◌^◌, ◌<◌, List, Ok};
ghost use Rattle.std.specs.Float.{Float, Format};
ghost use Rattle.std.specs.Float.Numeral.{numeral_digits};
ghost use Rattle.digit_floats.specs.Float.{plain_marks, past_sign, parts_at, parse_at};
ghost use Rattle.decimal_writers.specs.Value.{IsOfFloats};
ghost use Rattle.float_writers.specs.Write.{IsTextOf};
ghost use Rattle.float_writers.specs.declared.write.FloatLayout.{FloatLayout};

/// What [`write_float`](crate::write_float) writes of a float in a layout is read as this float by
/// each word of floats (`read`). So two floats with one text are one, in whatever layouts (`one`).
/// A text that is read as the float has no fewer significant digits (`no_longer`): to write what
/// was read makes no more of them.
pub fn floats_are_read_back()
    ensures read { (f : Format) (x : Float) (layout : FloatLayout) (word : ℕ) (text : List ℕ) →
        IsOfFloats word → IsTextOf f x layout text →
        parse_at word text plain_marks f 0 ≡ Ok x }
    ensures one { (f : Format) (x y : Float) (layout other : FloatLayout) (text : List ℕ) →
        IsTextOf f x layout text → IsTextOf f y other text → x ≡ y }
    ensures no_longer { (f : Format) (x : Float) (layout : FloatLayout) (word : ℕ)
        (text other : List ℕ) (is : IsTextOf f x layout text) →
        parse_at word other plain_marks f 0 ≡ Ok x → (n : ℕ) →
        numeral_digits (parts_at word other plain_marks (past_sign other 0)) < 10 ^ n →
        is.written.digits < 10 ^ n }
{}

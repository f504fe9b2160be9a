//! What of a number doesn't depend on the float's format, and what its decimal number is.

ghost use Rattle.std.specs.Prelude.{◌≡◌, ℕ, Bool, List, Ok, Err, pos};
ghost use Rattle.std.specs.Float as Ieee;
ghost use Rattle.digit_numbers.specs.Alike.{AreAlike};
ghost use Rattle.digit_floats.specs.declared.decimal.Decimal.{Decimal};
ghost use Rattle.digit_numbers.specs.Decimals.{decimal_of_at};
ghost use Rattle.digit_numbers.specs.Forms.{IsForm};
ghost use Rattle.digit_numbers.specs.Numbers.{number_of_at};
ghost use Rattle.digit_numbers.specs.declared.form.Form.{Form};
ghost use Rattle.digit_numbers.specs.declared.number.Number.{Number};
ghost use Rattle.digit_numbers.specs.declared.number.Number.TheVariants.{Integer};
ghost use Rattle.digit_numbers.specs.declared.number.NumberError.{NumberError};

/// Which number is at a position doesn't depend on the float's format: with `f32` and `f64` it is
/// the same integer, or a float, and ends at one position; or the error is the same. Only how a
/// float is rounded depends on it.
pub fn formats_agree()
    ensures alike { (f : Form) (text : List ℕ) (start : ℕ) (one other : Ieee.Format) →
        AreAlike (number_of_at f text start one) (number_of_at f text start other) }
    ensures end { (f : Form) (text : List ℕ) (start : ℕ) (one other : Ieee.Format)
        (n m : Number Ieee.Float) (end stop : ℕ) →
        number_of_at f text start one ≡ Ok (n, end) →
        number_of_at f text start other ≡ Ok (m, stop) → end ≡ stop }
    ensures integer { (f : Form) (text : List ℕ) (start : ℕ) (one other : Ieee.Format)
        (negative : Bool) (magnitude word end : ℕ) →
        number_of_at f text start one ≡ Ok (Integer negative magnitude word, end) →
        number_of_at f text start other ≡ Ok (Integer negative magnitude word, end) }
    ensures error { (f : Form) (text : List ℕ) (start : ℕ) (one other : Ieee.Format)
        (error : NumberError) → number_of_at f text start one ≡ Err error →
        number_of_at f text start other ≡ Err error }
{}

/// A decimal number ends where the number ends, if both are there. That of an integer has its sign,
/// and is its magnitude, if no digit was dropped.
pub fn decimals_agree()
    ensures end { (f : Form) (text : List ℕ) (start : ℕ) (format : Ieee.Format)
        (n : Number Ieee.Float) (d : Decimal) (end stop : ℕ) →
        number_of_at f text start format ≡ Ok (n, end) →
        decimal_of_at f text start ≡ Ok (d, stop) → stop ≡ end }
    ensures sign { (f : Form) (text : List ℕ) (start : ℕ) (format : Ieee.Format)
        (negative : Bool) (magnitude word end stop : ℕ) (d : Decimal) →
        number_of_at f text start format ≡ Ok (Integer negative magnitude word, end) →
        decimal_of_at f text start ≡ Ok (d, stop) → d.negative ≡ negative }
    ensures magnitude { (f : Form) (text : List ℕ) (start : ℕ) (format : Ieee.Format)
        (negative : Bool) (magnitude word end stop : ℕ) (d : Decimal) → IsForm f →
        number_of_at f text start format ≡ Ok (Integer negative magnitude word, end) →
        decimal_of_at f text start ≡ Ok (d, stop) → d.dropped ≡ 0 →
        (d.value ≡ magnitude) × (d.exponent ≡ pos 0) }
{}

//! Laws: a number of JSON is that of RFC 8259.

ghost use Rattle.std.specs.Prelude.{◌≡◌, ℕ, Bool, false, ◌-◌, ◌^◌, ◌≤◌, length, Ok, Err};
ghost use Rattle.std.specs.Char.{is_ascii_digit};
ghost use Rattle.std.specs.Float as Ieee;
ghost use Rattle.lexical_digits.specs.State.{rule_of};
ghost use Rattle.lexical_digits.specs.declared.skip.component.Component.TheVariants as components;
ghost use Rattle.digit_integers.specs.Integers.{integer_at};
ghost use Rattle.digit_floats.specs.Bytes.{stands, is_minus};
ghost use Rattle.digit_floats.specs.Float.{plain_marks, read_at, parse_at};
ghost use Rattle.digit_numbers.specs.declared.number.Number.TheVariants.{Integer, Float};
ghost use Rattle.digit_numbers.specs.Json.{IsDelimited, IsJsonInteger, IsJsonNumber, IsLongest};
ghost use Rattle.digit_numbers.specs.Json.{past_minus};
ghost use Rattle.digit_numbers.specs.Numbers.{number_of_at, to_end};

pub mod alike;
pub mod follows;
pub mod names;
pub mod texts;

use super::forms::JSON;
use super::number::{Number, NumberError};
use digit_floats::Float;
use lexical_format::STANDARD;

/// What is read by [`JSON`] is the longest prefix of the rest that is a number of RFC 8259. An
/// integer has neither a fraction nor an exponent. Where there is an error, no prefix is a number.
pub fn json_is_rfc_8259<F: Float>(text: &[u8], start: usize)
    requires { start ≤ length text.now }
    ensures number { (n : Number Ieee.Float) (end : ℕ) →
        number_of_at JSON text.now start F.format ≡ Ok (n, end) →
        IsLongest text.now start end }
    ensures integer { (negative : Bool) (magnitude word end : ℕ) →
        number_of_at JSON text.now start F.format ≡ Ok (Integer negative magnitude word, end) →
        IsJsonInteger text.now start end }
    ensures none { (error : NumberError) (end : ℕ) →
        number_of_at JSON text.now start F.format ≡ Err error →
        IsJsonNumber text.now start end → ⊥ }
{}

/// A text is a number by [`JSON`] exactly if it is a number of RFC 8259. An integer is that of its
/// digits, and a float the nearest one, as [`parse_float`](digit_floats::parse_float) reads it.
pub fn json_texts_are_rfc_8259<F: Float>(text: &[u8])
    ensures number { (n : Number Ieee.Float) →
        to_end text.now (number_of_at JSON text.now 0 F.format) ≡ Ok n →
        IsJsonNumber text.now 0 (length text.now) }
    ensures none { (error : NumberError) →
        to_end text.now (number_of_at JSON text.now 0 F.format) ≡ Err error →
        IsJsonNumber text.now 0 (length text.now) → ⊥ }
    ensures sign { (negative : Bool) (magnitude word : ℕ) →
        to_end text.now (number_of_at JSON text.now 0 F.format)
        ≡ Ok (Integer negative magnitude word) → negative ≡ stands is_minus text.now 0 }
    ensures value { (negative : Bool) (magnitude word most : ℕ) →
        to_end text.now (number_of_at JSON text.now 0 F.format)
        ≡ Ok (Integer negative magnitude word) → magnitude ≤ most →
        integer_at (rule_of STANDARD components.Integer) text.now (past_minus text.now 0) most
        ≡ Ok (magnitude, length text.now) }
    ensures nearest { (x : Ieee.Float) →
        to_end text.now (number_of_at JSON text.now 0 F.format) ≡ Ok (Float x) →
        parse_at STANDARD text.now plain_marks F.format 0 ≡ Ok x }
{}

/// The converse: which number of [`JSON`] is an integer, which a float, and what it is. An integer
/// is that of its digits, if no further digit follows (`value`). A float is the nearest one, as
/// [`read_float_from`](digit_floats::read_float_from) reads it, if no byte goes on with it
/// (`nearest`). A number without a fraction and an exponent is an integer, if 128 bits hold it
/// (`fits`). Any other is a float (`rounds`).
pub fn json_numbers_are_read<F: Float>(text: &[u8], start: usize)
    requires { start ≤ length text.now }
    ensures sign { (negative : Bool) (magnitude word end : ℕ) →
        number_of_at JSON text.now start F.format ≡ Ok (Integer negative magnitude word, end) →
        negative ≡ stands is_minus text.now start }
    ensures value { (negative : Bool) (magnitude word end most : ℕ) →
        number_of_at JSON text.now start F.format ≡ Ok (Integer negative magnitude word, end) →
        stands is_ascii_digit text.now end ≡ false → magnitude ≤ most →
        integer_at (rule_of STANDARD components.Integer) text.now (past_minus text.now start) most
        ≡ Ok (magnitude, end) }
    ensures nearest { (x : Ieee.Float) (end : ℕ) →
        number_of_at JSON text.now start F.format ≡ Ok (Float x, end) →
        IsDelimited text.now end →
        read_at STANDARD text.now plain_marks F.format start ≡ Ok (x, end) }
    ensures fits { (magnitude end : ℕ) → IsLongest text.now start end →
        integer_at (rule_of STANDARD components.Integer) text.now (past_minus text.now start)
        (2 ^ 128 - 1) ≡ Ok (magnitude, end) →
        number_of_at JSON text.now start F.format
        ≡ Ok (Integer (stands is_minus text.now start) magnitude STANDARD, end) }
    ensures rounds { (x : Ieee.Float) (end : ℕ) →
        IsLongest text.now start end → IsDelimited text.now end →
        ((magnitude : ℕ) → integer_at (rule_of STANDARD components.Integer) text.now
        (past_minus text.now start) (2 ^ 128 - 1) ≡ Ok (magnitude, end) → ⊥) →
        read_at STANDARD text.now plain_marks F.format start ≡ Ok (x, end) →
        number_of_at JSON text.now start F.format ≡ Ok (Float x, end) }
{}

//! Whether a text is a number of a form, and which.

ghost use Rattle.std.specs.Prelude.{◌≡◌, true, false};
ghost use Rattle.digit_numbers.specs.Forms.{IsForm};
ghost use Rattle.digit_numbers.specs.Values.{with_value};
ghost use Rattle.form_writers.specs.Numbers.{IsSame, IsNumberOf};

use digit_floats::round_integer;
use digit_numbers::{Form, Number, parse_number_of};
use float_writers::AnyFloat;

/// Whether a number that was read is the one that was written.
fn is_same<F: AnyFloat>(number: Number<F>, read: Number<F>) -> bool
    ensures yes { result ≡ true →
        IsSame F.format (with_value F.value number) (with_value F.value read) }
    ensures no { result ≡ false →
        IsSame F.format (with_value F.value number) (with_value F.value read) → ⊥ }
{
    match (number, read) {
        (
            Number::Integer {
                negative,
                magnitude,
                word: _,
            },
            Number::Integer {
                negative: minus,
                magnitude: value,
                word: _,
            },
        ) => minus == negative && value == magnitude,
        (
            Number::Integer {
                negative,
                magnitude,
                word: _,
            },
            Number::Float(x),
        ) => x.is_same(round_integer::<F>(negative, magnitude)),
        (
            Number::Float(_),
            Number::Integer {
                negative: _,
                magnitude: _,
                word: _,
            },
        ) => false,
        (Number::Float(x), Number::Float(y)) => y.is_same(x),
    }
}

/// Whether a text is a number of a form, to its end, and this one.
pub fn is_number_of<F: AnyFloat>(text: &[u8], form: Form, number: Number<F>) -> bool
    requires { IsForm form }
    ensures yes { result ≡ true →
        IsNumberOf form F.format (with_value F.value number) text.now }
    ensures no { result ≡ false →
        IsNumberOf form F.format (with_value F.value number) text.now → ⊥ }
{
    match parse_number_of::<F>(text, form) {
        Ok(read) => is_same::<F>(number, read),
        Err(_) => false,
    }
}

//! What is written is read back.

ghost use Rattle.std.specs.Prelude.{◌≡◌, IsTrue};
ghost use Rattle.std.specs.Float.{float_is_finite};
ghost use Rattle.lexical_format.specs.Word.{is_supported};
ghost use Rattle.decimal_writers.specs.Value.{IsOfFloats};
ghost use Rattle.digit_writers.specs.Written.{IsOfRadix};

use decimal_writers::FLOAT_ROOM;
use digit_floats::parse_float;
use digit_literals::parse_number;
use digit_writers::{MOST_ROOM, Written, write_number};
use float_writers::{AnyFloat, FloatLayout, write_float};

/// Writes a number into forty bytes, and parses what was written: the same number, by each word of
/// radix 10.
pub fn write_and_parse<T: Written>(value: T, word: u128) -> T
    requires { IsOfRadix 10 word }
    ensures { T.number result ≡ T.number value }
{
    let mut out = [0; MOST_ROOM];
    let end = write_number(value, &mut out);
    match parse_number::<T>(&out[..end], word) {
        Ok(read) => read,
        Err(_) => unreachable!(),
    }
}

/// Writes a float into 24 bytes, and parses what was written: the same float, bit by bit, by each
/// word of floats.
pub fn write_and_parse_float<F: AnyFloat>(x: F, word: u128) -> F
    requires finite { IsTrue (float_is_finite (F.value x)) }
    requires supported { IsTrue (is_supported word) }
    requires word { IsOfFloats word }
    ensures { F.value result ≡ F.value x }
{
    let mut out = [0; FLOAT_ROOM];
    match write_float(x, FloatLayout::Usual, &mut out) {
        Ok(len) => match parse_float::<F>(&out[..len], word) {
            Ok(read) => read,
            Err(_) => unreachable!(),
        },
        Err(_) => unreachable!(),
    }
}

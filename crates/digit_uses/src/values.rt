//! A number of JSON: the integer if an `i64` has it, otherwise the nearest `f64`.
//!
//! Proof by hand: none.

ghost use Rattle.std.specs.Prelude.{◌≡◌, ◌<◌, ◌≤◌, length, Err, IfOk, IfErr};
ghost use Rattle.digits.specs.Words.{binary64, number_of_at};
ghost use Rattle.digit_uses.specs.Values.{IsValue};

use digits::forms::JSON;
use digits::{NumberError, read_number_of};

/// A number.
#[derive(Clone, Copy, Debug, PartialEq)]
pub enum Value {
    Integer(i64),
    Float(f64),
}

/// The number that begins at `start`, and where it ends.
#[tactic(auto, unfolding(digits::proofs::Literals::lexical_on_literals))]
pub fn read_value(text: &[u8], start: usize) -> Result<(Value, usize), NumberError>
    requires { start ≤ length text.now }
    ensures ok { IfOk result (λ read. IsValue text.now start read.0 read.1) }
    ensures end { IfOk result (λ read. (start < read.1) × (read.1 ≤ length text.now)) }
    ensures none { IfErr result (λ error. number_of_at JSON text.now start binary64 ≡ Err error) }
{
    let (number, end) = read_number_of::<f64>(text, start, JSON)?;
    let value = match number.as_integer::<i64>() {
        Some(integer) => Value::Integer(integer),
        None => Value::Float(number.to_float()),
    };
    Ok((value, end))
}

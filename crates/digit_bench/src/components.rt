//! Numbers of an integer, a fraction and an exponent over one `Bytes`: each component by an
//! iterator of its own, or by the calls that name the component.

use super::drains::drained;
use super::format::Format;
use super::work::{Task, Work, run_each};
use super::{Outcome, loops};
use digit_floats::read_decimal_from;
use digit_literals::read_digits_of;
use lexical_digits::iterator::Iter;
use lexical_digits::skip::{Bytes, Component};
use lexical_format::NumberFormat;

/// What the components of a number came to.
#[inline(always)]
fn read(integer: u64, fraction: u64, exponent: u64, bytes: &Bytes) -> Outcome {
    let mantissa = integer.wrapping_mul(31).wrapping_add(fraction);
    Outcome::of(
        mantissa.wrapping_mul(31).wrapping_add(exponent),
        bytes.current_count() as u64,
    )
}

/// Reads the components by an iterator each. The byte that ends a component is taken too.
struct Floats;

impl Work for Floats {
    #[inline(always)]
    fn on<F: Format>(text: &[u8], format: F) -> Outcome {
        let mut bytes = Bytes::new(text, format.word());
        let integer = loops::leading_number(&mut bytes.integer_iter(), format);
        let fraction = loops::leading_number(&mut bytes.fraction_iter(), format);
        let exponent = loops::leading_number(&mut bytes.exponent_iter(), format);
        read(integer, fraction, exponent, &bytes)
    }
}

/// Reads the components by `next_of`. The byte that ends a component is taken too.
struct FloatsOf;

/// The number that the digits of a component make which come next.
#[inline(always)]
fn leading_number_of<F: Format>(bytes: &mut Bytes, component: Component, _format: F) -> u64 {
    let mut number: u64 = 0;
    while let Some(byte) = bytes.next_of(component) {
        if !bytes.is_digit_of(component, *byte) {
            break;
        }
        number = loops::with_digit(number, *byte);
    }
    number
}

impl Work for FloatsOf {
    #[inline(always)]
    fn on<F: Format>(text: &[u8], format: F) -> Outcome {
        let mut bytes = Bytes::new(text, format.word());
        let integer = leading_number_of(&mut bytes, Component::Integer, format);
        let fraction = leading_number_of(&mut bytes, Component::Fraction, format);
        let exponent = leading_number_of(&mut bytes, Component::Exponent, format);
        read(integer, fraction, exponent, &bytes)
    }
}

/// Reads the components by `read_digits_of`, the fraction after the integer's value. The byte that
/// ends a component is passed by `next_of`.
struct Mantissas;

/// The value of the digits that come next, after a value; 0 where `u64` doesn't hold it.
#[inline(always)]
fn value_of(bytes: &mut Bytes, component: Component, before: u64) -> u64 {
    match read_digits_of(bytes, component, before) {
        Ok(digits) => digits.value,
        Err(_) => 0,
    }
}

impl Work for Mantissas {
    #[inline(always)]
    fn on<F: Format>(text: &[u8], format: F) -> Outcome {
        let mut bytes = Bytes::new(text, format.word());
        let integer = value_of(&mut bytes, Component::Integer, 0);
        bytes.next_of(Component::Integer);
        let mantissa = value_of(&mut bytes, Component::Fraction, integer);
        bytes.next_of(Component::Fraction);
        let exponent = value_of(&mut bytes, Component::Exponent, 0);
        read(0, mantissa, exponent, &bytes)
    }
}

/// Reads the digits of an integer by `read_digits_of`.
struct Values;

impl Work for Values {
    #[inline(always)]
    fn on<F: Format>(text: &[u8], format: F) -> Outcome {
        let mut bytes = Bytes::new(text, format.word());
        let value = value_of(&mut bytes, Component::Integer, 0);
        drained(value, &bytes)
    }
}

/// Takes a number apart into value and decimal exponent by `read_decimal_from`. The count is where
/// it ends. Nothing where there is no number, or a radix isn't 10.
struct Parts;

impl Work for Parts {
    const IS_APART: bool = true;

    #[inline(always)]
    fn on<F: Format>(text: &[u8], format: F) -> Outcome {
        let word = format.word();
        let format = NumberFormat::new(word);
        if format.mantissa_radix() != 10 || format.exponent_radix() != 10 {
            return Outcome::nothing();
        }
        match read_decimal_from(text, word, 0) {
            Ok((number, end)) => Outcome {
                value: number
                    .value
                    .wrapping_mul(31)
                    .wrapping_add(number.exponent.cast_unsigned()),
                count: end as u64,
                looks: 0,
            },
            Err(_) => Outcome::nothing(),
        }
    }
}

#[unsafe(no_mangle)]
pub extern "C" fn digit_bench_parts(task: &Task, outcome: &mut Outcome) {
    *outcome = run_each::<Parts>(task);
}

#[unsafe(no_mangle)]
pub extern "C" fn digit_bench_floats(task: &Task, outcome: &mut Outcome) {
    *outcome = run_each::<Floats>(task);
}

#[unsafe(no_mangle)]
pub extern "C" fn digit_bench_floats_of(task: &Task, outcome: &mut Outcome) {
    *outcome = run_each::<FloatsOf>(task);
}

#[unsafe(no_mangle)]
pub extern "C" fn digit_bench_values(task: &Task, outcome: &mut Outcome) {
    *outcome = run_each::<Values>(task);
}

#[unsafe(no_mangle)]
pub extern "C" fn digit_bench_mantissas(task: &Task, outcome: &mut Outcome) {
    *outcome = run_each::<Mantissas>(task);
}

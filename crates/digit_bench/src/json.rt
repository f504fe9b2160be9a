//! Numbers of JSON by `digit_numbers`, and the same texts by the calls that read only one kind.

ghost use Rattle.std.specs.Prelude.{◌≡◌, None, IsTrue};
ghost use Rattle.lexical_format.specs.Word.{is_supported};
ghost use Rattle.digit_floats.specs.Float.{IsDecimal};
ghost use Rattle.digit_languages.specs.Words.{IsLanguage};
ghost use Rattle.digit_numbers.specs.Values.{IsNoNan};

use super::Outcome;
use super::format::Format;
use super::work::{Task, Work, run_each};
use digit_floats::read_float;
use digit_languages::{Language, languages, read_literal};
use digit_numbers::{Form, Number, forms, is_form, parse_number_of, read_number_of};
use lexical_format::NumberFormat;

/// JSON's integers with another word.
#[inline(always)]
fn language_of(word: u128) -> Language
    requires { IsTrue (is_supported word) }
    ensures serves { IsLanguage result }
    ensures word { result.decimal ≡ word }
{
    Language {
        decimal: word,
        ..languages::JSON_NUMBER
    }
}

/// JSON with another word.
#[inline(always)]
fn form_of(word: u128) -> Form
    requires supported { IsTrue (is_supported word) }
    ensures word { result.integers.decimal ≡ word }
    ensures no_name { result.specials ≡ None }
{
    Form {
        integers: language_of(word),
        ..forms::JSON
    }
}

/// Whether a word's mantissa and exponent are decimal.
#[inline(always)]
fn is_decimal(word: u128) -> bool
    ensures { IsTrue result → IsDecimal word }
{
    let format = NumberFormat::new(word);
    format.mantissa_radix() == 10 && format.exponent_radix() == 10
}

/// The lowest 64 bits of an integer.
#[inline(always)]
fn low(magnitude: u128) -> u64 {
    (magnitude & 0xffff_ffff_ffff_ffff) as u64
}

/// A number, and where it ends.
#[inline(always)]
fn outcome_of(number: Number<f64>, end: usize) -> Outcome
    requires { IsNoNan (λ x. x) number }
{
    match number {
        Number::Integer {
            negative,
            magnitude,
            word: _,
        } => {
            let value = low(magnitude);
            let signed = if negative {
                value.wrapping_neg()
            } else {
                value
            };
            Outcome::of(signed, end as u64)
        }
        Number::Float(x) => Outcome::of(x.to_bits(), end as u64),
    }
}

/// Reads the number that a text begins with by `read_number_of`. The value is an integer's lowest
/// 64 bits or the bits of an `f64`, and the count is where it ends. Nothing where there is none.
struct Numbers;

impl Work for Numbers {
    #[inline(always)]
    #[tactic(auto, unfolding(digit_numbers::specs::Specials::special_at))]
    fn on<F: Format>(text: &[u8], format: F) -> Outcome {
        let word = format.word();
        let form = form_of(word);
        if !is_form(form) {
            return Outcome::nothing();
        }
        match read_number_of::<f64>(text, 0, form) {
            Ok((number, end)) => outcome_of(number, end),
            Err(_) => Outcome::nothing(),
        }
    }
}

/// Reads the number that a text is by `parse_number_of`, as [`Numbers`] does.
struct Parsed;

impl Work for Parsed {
    #[inline(always)]
    #[tactic(auto, unfolding(digit_numbers::specs::Specials::special_at))]
    fn on<F: Format>(text: &[u8], format: F) -> Outcome {
        let form = form_of(format.word());
        if !is_form(form) {
            return Outcome::nothing();
        }
        match parse_number_of::<f64>(text, form) {
            Ok(number) => outcome_of(number, text.len()),
            Err(_) => Outcome::nothing(),
        }
    }
}

/// Reads the integer that a text begins with by `read_literal`.
struct Integers;

impl Work for Integers {
    #[inline(always)]
    fn on<F: Format>(text: &[u8], format: F) -> Outcome {
        match read_literal(text, 0, language_of(format.word()), u128::MAX) {
            Ok(literal) => Outcome::of(low(literal.value), literal.end as u64),
            Err(_) => Outcome::nothing(),
        }
    }
}

/// Reads the float that a text begins with by `read_float`.
struct Floats;

impl Work for Floats {
    #[inline(always)]
    fn on<F: Format>(text: &[u8], format: F) -> Outcome {
        let word = format.word();
        if !is_decimal(word) {
            return Outcome::nothing();
        }
        match read_float::<f64>(text, word) {
            Ok((x, end)) => Outcome::of(x.to_bits(), end as u64),
            Err(_) => Outcome::nothing(),
        }
    }
}

#[unsafe(no_mangle)]
pub extern "C" fn digit_bench_json_numbers(task: &Task, outcome: &mut Outcome) {
    *outcome = run_each::<Numbers>(task);
}

#[unsafe(no_mangle)]
pub extern "C" fn digit_bench_json_parsed(task: &Task, outcome: &mut Outcome) {
    *outcome = run_each::<Parsed>(task);
}

#[unsafe(no_mangle)]
pub extern "C" fn digit_bench_json_integers(task: &Task, outcome: &mut Outcome) {
    *outcome = run_each::<Integers>(task);
}

#[unsafe(no_mangle)]
pub extern "C" fn digit_bench_json_floats(task: &Task, outcome: &mut Outcome) {
    *outcome = run_each::<Floats>(task);
}

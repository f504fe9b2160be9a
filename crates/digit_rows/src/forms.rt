//! Numbers by a form that is a constant, or that only run time knows.

ghost use Rattle.std.specs.Prelude.{◌≤◌, length};
ghost use Rattle.digit_numbers.specs.Forms.{IsForm};

use super::work::{Step, Told, Work, none, run};
use digit_numbers::{Form, Number, form_of, forms, read_number_of};
use std::num::f64_to_bits_with_nan;

/// A number as a value of a [`Step`].
#[inline(always)]
pub fn value_of(number: Number<f64>) -> u64 {
    match number {
        Number::Integer {
            negative: _,
            magnitude,
            word: _,
        } => (magnitude & 0xffff_ffff_ffff_ffff) as u64,
        Number::Float(x) => f64_to_bits_with_nan(x),
    }
}

/// The step by a form.
#[inline(always)]
fn by_form(text: &[u8], at: usize, form: Form) -> Step
    requires within { at ≤ length text.now }
    requires form { IsForm form }
{
    match read_number_of::<f64>(text, at, form) {
        Ok((number, end)) => Step::read(value_of(number), text, end),
        Err(_) => Step::none(text, at),
    }
}

#[derive(Clone, Copy)]
struct Json;

impl Work for Json {
    #[inline(always)]
    fn step(self, text: &[u8], at: usize) -> Step {
        by_form(text, at, forms::JSON)
    }
}

#[derive(Clone, Copy)]
struct Fortran;

impl Work for Fortran {
    #[inline(always)]
    fn step(self, text: &[u8], at: usize) -> Step {
        by_form(text, at, forms::FORTRAN)
    }
}

#[derive(Clone, Copy)]
struct C99;

impl Work for C99 {
    #[inline(always)]
    fn step(self, text: &[u8], at: usize) -> Step {
        by_form(text, at, forms::C99)
    }
}

#[derive(Clone, Copy)]
struct Java;

impl Work for Java {
    #[inline(always)]
    fn step(self, text: &[u8], at: usize) -> Step {
        by_form(text, at, forms::JAVA)
    }
}

/// All numbers by a form that only run time knows.
#[inline(never)]
fn run_form(text: &[u8], form: Form) -> Told
    requires form { IsForm form }
{
    let mut told = none();
    let mut at = 0;
    for _ in 0..text.len() {
        if at >= text.len() {
            break;
        }
        let step = by_form(text, at, form);
        told.value = told.value.wrapping_mul(31).wrapping_add(step.value);
        told.count = told.count.wrapping_add(1);
        at = step.at;
    }
    told
}

/// Makes a call of this file.
pub fn run_call(call: u64, text: &[u8], form: usize) -> Told {
    match call {
        60 => run(Json, text),
        61 => run(Fortran, text),
        62 => run(C99, text),
        63 => run(Java, text),
        64 => match form_of(form) {
            Some(form) => run_form(text, form),
            None => none(),
        },
        _ => none(),
    }
}

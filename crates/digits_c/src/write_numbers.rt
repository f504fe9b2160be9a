//! Numbers by a form, written into places of the caller.

ghost use Rattle.std.specs.Prelude.{int_lt, pos, unsigned_abs};
ghost use Rattle.digits.specs.Numbers as numbers;
ghost use Rattle.digits.specs.Words.{IsForm, form_of, with_value};
ghost use Rattle.digits_c.specs.Texts.{PutsNumber, PutsNumberBy};

use digit_lists::laws::no_number_at_the_end;
use digits::{Form, Number, STANDARD, form_of, write_number_of};

/// Writes a number by a form into places, and answers its length, or 0 where there is no room or
/// the form has no such number.
#[inline(always)]
fn write(out: &mut [u8], number: Number<f64>, form: Form) -> usize
    requires { IsForm form }
    ensures { PutsNumber form (with_value (λ x. x) number) out.old out.new result }
{
    // no text is empty, since no number is in an empty one
    no_number_at_the_end(&[], STANDARD);
    write_number_of::<f64>(number, form, out).unwrap_or(0)
}

/// The same by a form with a number.
#[inline(never)]
fn write_by(out: &mut [u8], number: Number<f64>, form: u32) -> usize
    ensures { PutsNumberBy (with_value (λ x. x) number) (form_of form) out.old out.new result }
{
    match form_of(form as usize) {
        Some(form) => write(out, number, form),
        None => 0,
    }
}

/// Writes an `f64` as a language or a data format has it: a text that is read by the form as this
/// float, to its end. Answers its length, or 0 where there is no room, the form has no such float,
/// or there is no such form. What is behind the text isn't touched.
#[unsafe(no_mangle)]
pub extern "C" fn digits_write_f64_of(out: &mut [u8], value: f64, form: u32) -> usize
    ensures { PutsNumberBy (numbers.Float value) (form_of form) out.old out.new result }
{
    write_by(out, Number::Float(value), form)
}

/// The same of an `i64`. A form of which each number is a float reads it as the nearest one.
#[unsafe(no_mangle)]
pub extern "C" fn digits_write_i64_of(out: &mut [u8], value: i64, form: u32) -> usize
    ensures { let number = numbers.Integer (int_lt value (pos 0)) (unsigned_abs value) STANDARD in
        PutsNumberBy number (form_of form) out.old out.new result }
{
    let number: Number<f64> = Number::Integer {
        negative: value < 0,
        magnitude: u128::from(value.unsigned_abs()),
        word: STANDARD,
    };
    write_by(out, number, form)
}

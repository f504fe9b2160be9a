//! Numbers by the grammar of a language or a data format.

ghost use Rattle.std.specs.Prelude.{◌≡◌, ◌-◌, ◌^◌, pos, MatchOption, Some, None};
ghost use Rattle.digits.specs.Forms.{JSON};
ghost use Rattle.digits.specs.Words.{IsForm, form_of, with_value};
ghost use Rattle.digits_c.specs.Numbers.{parts_of, no_parts, integer_of};
ghost use Rattle.digits_c.specs.Numbers.{number_from, whole_number, number_by, whole_number_by};
ghost use Rattle.digits_c.specs.Outcomes.{Answers, AnswersIf};

use super::outcome::{BAD_FORM, BAD_START, Outcome};
use digits::{Form, Integer, Number, STANDARD, form_of, forms, parse_number_of, read_number_of};

/// There is no number.
pub const NONE: u32 = 0;
/// The number is an integer.
pub const INTEGER: u32 = 1;
/// The number is a float.
pub const FLOAT: u32 = 2;

/// A number that was read.
#[repr(C)]
#[derive(Clone, Copy)]
pub struct NumberParts {
    /// The float, or the one nearest to the integer.
    pub value: f64,
    /// The lower half of an integer's magnitude.
    pub low: u64,
    /// The upper half.
    pub high: u64,
    /// [`INTEGER`], [`FLOAT`] or [`NONE`].
    pub kind: u32,
    /// Whether a minus is before an integer.
    pub is_negative: bool,
}

impl NumberParts {
    /// Of a number.
    #[inline(always)]
    pub(super) fn of(number: Number<f64>) -> NumberParts
        ensures { result ≡ parts_of (with_value (λ x. x) number) }
    {
        let value = number.to_float();
        match number {
            Number::Integer {
                negative,
                magnitude,
                word: _,
            } => NumberParts {
                value,
                low: (magnitude & 0xffff_ffff_ffff_ffff) as u64,
                high: (magnitude >> 64) as u64,
                kind: INTEGER,
                is_negative: negative,
            },
            Number::Float(_) => NumberParts {
                value,
                low: 0,
                high: 0,
                kind: FLOAT,
                is_negative: false,
            },
        }
    }

    /// Writes a number, field by field, so that nothing is written between the fields.
    #[inline(always)]
    fn write(&mut self, number: Number<f64>)
        ensures { self.new ≡ parts_of (with_value (λ x. x) number) }
    {
        match number {
            Number::Integer {
                negative,
                magnitude,
                word: _,
            } => {
                self.value = number.to_float();
                self.low = (magnitude & 0xffff_ffff_ffff_ffff) as u64;
                self.high = (magnitude >> 64) as u64;
                self.kind = INTEGER;
                self.is_negative = negative;
            }
            Number::Float(value) => {
                self.value = value;
                self.low = 0;
                self.high = 0;
                self.kind = FLOAT;
                self.is_negative = false;
            }
        }
    }

    /// Of none.
    #[inline(always)]
    fn none() -> NumberParts
        ensures { result ≡ no_parts }
    {
        NumberParts {
            value: 0.0,
            low: 0,
            high: 0,
            kind: NONE,
            is_negative: false,
        }
    }

    /// The integer that the number is, as a value of a type.
    #[inline(always)]
    fn as_integer<T: Integer>(self) -> Option<T>
        ensures { let integer = integer_of T.MIN_MAGNITUDE T.MAX self in
            MatchOption result (integer ≡ None) (λ value. integer ≡ Some (T.number value)) }
    {
        if self.kind != INTEGER {
            return None;
        }
        let integer = Number::<f64>::Integer {
            negative: self.is_negative,
            magnitude: u128::from(self.low) + (u128::from(self.high) << 64),
            word: STANDARD,
        };
        integer.as_integer::<T>()
    }

    /// Writes that integer, or 0, and answers whether there is one.
    #[inline(always)]
    fn write_integer<T: Integer>(self, value: &mut T) -> bool
        ensures { AnswersIf (integer_of T.MIN_MAGNITUDE T.MAX self) (T.number value.new) result }
    {
        match self.as_integer::<T>() {
            Some(integer) => {
                *value = integer;
                true
            }
            None => {
                *value = T::of_magnitude(false, 0);
                false
            }
        }
    }
}

/// The number of a form that begins at a start.
#[inline(always)]
fn read(text: &[u8], start: usize, form: Form, number: &mut NumberParts) -> Outcome
    requires { IsForm form }
    ensures { Answers no_parts (number_from form text.now start) number.new result }
{
    if start > text.len() {
        *number = NumberParts::none();
        return Outcome::fault(BAD_START, start);
    }
    match read_number_of::<f64>(text, start, form) {
        Ok((read, end)) => {
            number.write(read);
            Outcome::done(end)
        }
        Err(error) => {
            *number = NumberParts::none();
            Outcome::of_number(error)
        }
    }
}

/// The number of a form that a text is.
#[inline(always)]
fn parse(text: &[u8], form: Form, number: &mut NumberParts) -> Outcome
    requires { IsForm form }
    ensures { Answers no_parts (whole_number form text.now) number.new result }
{
    match parse_number_of::<f64>(text, form) {
        Ok(read) => {
            number.write(read);
            Outcome::done(text.len())
        }
        Err(error) => {
            *number = NumberParts::none();
            Outcome::of_number(error)
        }
    }
}

/// The number of JSON that begins at a start.
#[unsafe(no_mangle)]
pub extern "C" fn digits_read_json(text: &[u8], start: usize, number: &mut NumberParts) -> Outcome
    ensures { Answers no_parts (number_from JSON text.now start) number.new result }
{
    read(text, start, forms::JSON, number)
}

/// The number of JSON that a text is.
#[unsafe(no_mangle)]
pub extern "C" fn digits_parse_json(text: &[u8], number: &mut NumberParts) -> Outcome
    ensures { Answers no_parts (whole_number JSON text.now) number.new result }
{
    parse(text, forms::JSON, number)
}

/// [`read`] for code that is beside that of other forms. It writes the number whole: field by
/// field, the compiler would keep what was read in memory there.
#[inline(always)]
fn read_beside(text: &[u8], start: usize, form: Form, number: &mut NumberParts) -> Outcome
    requires { IsForm form }
    ensures { Answers no_parts (number_from form text.now start) number.new result }
{
    *number = NumberParts::none();
    if start > text.len() {
        return Outcome::fault(BAD_START, start);
    }
    match read_number_of::<f64>(text, start, form) {
        Ok((read, end)) => {
            *number = NumberParts::of(read);
            Outcome::done(end)
        }
        Err(error) => Outcome::of_number(error),
    }
}

/// The number of a form that begins at a start, where `code` is the form's number.
#[inline(always)]
fn read_as(text: &[u8], start: usize, code: u32, form: Form, number: &mut NumberParts) -> Outcome
    requires code { form_of code ≡ Some form }
    requires form { IsForm form }
    ensures { Answers no_parts (number_by text.now start (form_of code)) number.new result }
{
    read_beside(text, start, form, number)
}

/// The number of a form with a number, by code for all forms.
#[inline(never)]
fn read_by(text: &[u8], start: usize, form: u32, number: &mut NumberParts) -> Outcome
    ensures { Answers no_parts (number_by text.now start (form_of form)) number.new result }
{
    match form_of(form as usize) {
        Some(form) => read(text, start, form, number),
        None => {
            *number = NumberParts::none();
            Outcome::fault(BAD_FORM, start)
        }
    }
}

/// The number of a form that begins at a start. There is code of its own for each data format.
#[unsafe(no_mangle)]
#[tactic(auto, unfolding(crate::proofs::OnWords::on_forms))]
pub extern "C" fn digits_read_number(
    text: &[u8],
    start: usize,
    form: u32,
    number: &mut NumberParts,
) -> Outcome
    ensures { Answers no_parts (number_by text.now start (form_of form)) number.new result }
{
    match form {
        38 => read_as(text, start, form, forms::JSON, number),
        40 => read_as(text, start, form, forms::JSON5, number),
        41 => read_as(text, start, form, forms::YAML, number),
        42 => read_as(text, start, form, forms::TOML, number),
        _ => read_by(text, start, form, number),
    }
}

/// The number of a form that a text is.
#[unsafe(no_mangle)]
pub extern "C" fn digits_parse_number(text: &[u8], form: u32, number: &mut NumberParts) -> Outcome
    ensures { Answers no_parts (whole_number_by text.now (form_of form)) number.new result }
{
    match form_of(form as usize) {
        Some(form) => parse(text, form, number),
        None => {
            *number = NumberParts::none();
            Outcome::fault(BAD_FORM, 0)
        }
    }
}

/// The integer that a number is, as an `i64`.
#[unsafe(no_mangle)]
pub extern "C" fn digits_as_i64(number: &NumberParts, integer: &mut i64) -> bool
    ensures { AnswersIf (integer_of (2 ^ 63) (2 ^ 63 - 1) number.now) integer.new result }
{
    number.write_integer::<i64>(integer)
}

/// The integer that a number is, as a `u64`.
#[unsafe(no_mangle)]
pub extern "C" fn digits_as_u64(number: &NumberParts, integer: &mut u64) -> bool
    ensures { AnswersIf (integer_of 0 (2 ^ 64 - 1) number.now) (pos integer.new) result }
{
    number.write_integer::<u64>(integer)
}

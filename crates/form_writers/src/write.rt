//! Numbers by a form.

ghost use Rattle.std.specs.Prelude.{◌≡◌, ◌≤◌, ◌<◌, ◌++◌, int_lt, pos, unsigned_abs, length, take, drop, decimal, IfOk, IfErr, IfSome, IfNone};
ghost use Rattle.std.specs.Float.{binary64};
ghost use Rattle.std.specs.Fmt.{sign_text};
ghost use Rattle.digit_numbers.specs.Forms.{IsForm};
ghost use Rattle.digit_numbers.specs.Values.{with_value};
ghost use Rattle.digit_numbers.specs.declared.number.Number.TheVariants as numbers;
ghost use Rattle.form_writers.specs.Numbers.{IsNumberOf, HasNone, IsReason};
ghost use Rattle.form_writers.specs.declared.error.FormTextError.TheVariants.{NoRoom};

use super::error::FormTextError;
use super::float::put_float;
use super::integer::put_integer;
use super::judge::is_number_of;
use super::special::put_special;
use digit_numbers::{Form, Number};
use float_writers::AnyFloat;

/// The most bytes that the text of a number has: those of a float without an exponent.
const ROOM: usize = 328;

/// Writes an integer, if its text is this integer by a form.
fn put_integer_of<F: AnyFloat>(
    number: Number<F>,
    negative: bool,
    magnitude: u128,
    form: Form,
    text: &mut [u8],
) -> Option<usize>
    requires form { IsForm form }
    requires room { 328 ≤ length text.old }
    ensures reads { IfSome result (λ n.
        IsNumberOf form F.format (with_value F.value number) (take n text.new)) }
    ensures within { IfSome result (λ n. n ≤ length text.new) }
    ensures none { IfNone result (IsNumberOf form F.format (with_value F.value number)
        (sign_text negative ++ decimal magnitude) → ⊥) }
{
    let len = put_integer(negative, magnitude, text);
    if is_number_of::<F>(&text[..len], form, number) {
        Some(len)
    } else {
        None
    }
}

/// Writes a float, if a text of it is this float by a form.
fn put_float_of<F: AnyFloat>(x: F, form: Form, text: &mut [u8]) -> Option<usize>
    requires form { IsForm form }
    requires room { 328 ≤ length text.old }
    ensures reads { IfSome result (λ n.
        IsNumberOf form F.format (numbers.Float (F.value x)) (take n text.new)) }
    ensures within { IfSome result (λ n. n ≤ length text.new) }
    ensures none { IfNone result (HasNone form F.format (numbers.Float (F.value x))) }
{
    if x.is_not_a_number() {
        return put_special::<F>(x, form, text);
    }
    if x.is_without_end() {
        return put_special::<F>(x, form, text);
    }
    put_float::<F>(x, form, text)
}

/// Writes a number at the front of a slice that has room for any, and answers its length, if the
/// form has it.
fn put_number<F: AnyFloat>(number: Number<F>, form: Form, text: &mut [u8]) -> Option<usize>
    requires form { IsForm form }
    requires room { 328 ≤ length text.old }
    ensures reads { IfSome result (λ n.
        IsNumberOf form F.format (with_value F.value number) (take n text.new)) }
    ensures within { IfSome result (λ n. n ≤ length text.new) }
    ensures none { IfNone result (HasNone form F.format (with_value F.value number)) }
{
    match number {
        Number::Integer {
            negative,
            magnitude,
            word: _,
        } => put_integer_of::<F>(number, negative, magnitude, form, text),
        Number::Float(x) => put_float_of::<F>(x, form, text),
    }
}

/// Copies a text to the front of a slice, if there is room, and answers its length.
fn copy(text: &[u8], out: &mut [u8]) -> Result<usize, FormTextError>
    ensures written { IfOk result (λ n. take n out.new ≡ text.now) }
    ensures within { IfOk result (λ n. n ≤ length out.old) }
    ensures rest { IfOk result (λ n. drop n out.new ≡ drop n out.old) }
    ensures no_room { IfErr result (λ error.
        (error ≡ NoRoom (length text.now)) × (length out.old < length text.now)) }
    ensures unchanged { IfErr result (λ error. out.new ≡ out.old) }
{
    let len = text.len();
    if len > out.len() {
        return Err(FormTextError::NoRoom(len));
    }
    out[..len].copy_from_slice(text);
    Ok(len)
}

/// Writes a number of a form. [`parse_number_of`](digit_numbers::parse_number_of) reads it back: a
/// float as this float, `2.0`, and an integer as this integer, without its word. If all numbers of
/// the form are floats, it reads an integer back as the nearest float. An infinity and a NaN have
/// the first of the form's names, such as `inf` of TOML and `.inf` of YAML.
///
/// The call puts it at the front of a slice, and returns its length. A float is written by its
/// shortest decimal, so that it isn't read as an integer: `2.0`, `1e16`. The word of an integer
/// makes no difference: it is written in decimal. What follows the text in the slice stays as it
/// was. If there is no text, the slice stays as it was.
///
/// ```text
/// by JSON: Float(0.5): `0.5`; Integer -3: `-3`; Float(NaN): Err(NoNumber)
/// by RUST: Integer -3: Err(NoNumber), since a minus is an operator
/// ```
pub fn write_number_of<F: AnyFloat>(
    number: Number<F>,
    form: Form,
    out: &mut [u8],
) -> Result<usize, FormTextError>
    requires { IsForm form }
    ensures reads { IfOk result (λ n.
        IsNumberOf form F.format (with_value F.value number) (take n out.new)) }
    ensures within { IfOk result (λ n. n ≤ length out.old) }
    ensures rest { IfOk result (λ n. drop n out.new ≡ drop n out.old) }
    ensures none { IfErr result (λ error.
        IsReason form F.format (with_value F.value number) (length out.old) error) }
    ensures unchanged { IfErr result (λ error. out.new ≡ out.old) }
{
    let mut text = [0; ROOM];
    match put_number::<F>(number, form, &mut text) {
        Some(len) => copy(&text[..len], out),
        None => Err(FormTextError::NoNumber),
    }
}

/// Writes a float by a form, as [`write_number_of`] does.
pub fn write_float_of<F: AnyFloat>(x: F, form: Form, out: &mut [u8]) -> Result<usize, FormTextError>
    requires { IsForm form }
    ensures reads { IfOk result (λ n.
        IsNumberOf form F.format (numbers.Float (F.value x)) (take n out.new)) }
    ensures within { IfOk result (λ n. n ≤ length out.old) }
    ensures rest { IfOk result (λ n. drop n out.new ≡ drop n out.old) }
    ensures none { IfErr result (λ error.
        IsReason form F.format (numbers.Float (F.value x)) (length out.old) error) }
    ensures unchanged { IfErr result (λ error. out.new ≡ out.old) }
{
    write_number_of::<F>(Number::Float(x), form, out)
}

/// Writes an integer by a form, as [`write_number_of`] does, if the form has it.
pub fn write_integer_of(value: i128, form: Form, out: &mut [u8]) -> Result<usize, FormTextError>
    requires { IsForm form }
    ensures reads { IfOk result (λ n. IsNumberOf form binary64
        (numbers.Integer (int_lt value (pos 0)) (unsigned_abs value) form.integers.decimal)
        (take n out.new)) }
    ensures within { IfOk result (λ n. n ≤ length out.old) }
    ensures rest { IfOk result (λ n. drop n out.new ≡ drop n out.old) }
    ensures none { IfErr result (λ error. IsReason form binary64
        (numbers.Integer (int_lt value (pos 0)) (unsigned_abs value) form.integers.decimal)
        (length out.old) error) }
    ensures unchanged { IfErr result (λ error. out.new ≡ out.old) }
{
    let number: Number<f64> = Number::Integer {
        negative: value < 0,
        magnitude: value.unsigned_abs(),
        word: form.integers.decimal,
    };
    write_number_of::<f64>(number, form, out)
}

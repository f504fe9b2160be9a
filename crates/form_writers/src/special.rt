//! The text of a value that has a name by a form.

ghost use Rattle.std.specs.Prelude.{◌≡◌, ◌≤◌, length, take, IfSome};
ghost use Rattle.digit_numbers.specs.Forms.{IsForm};
ghost use Rattle.digit_numbers.specs.declared.number.Number.TheVariants as numbers;
ghost use Rattle.form_writers.specs.Numbers.{IsNumberOf};

use super::judge::is_number_of;
use digit_numbers::{Form, Number};
use float_writers::AnyFloat;

/// Writes the bytes of a name, those before the first 0, from a position on, and answers where they
/// end.
fn put_name(name: [u8; 8], start: usize, text: &mut [u8]) -> usize
    requires start { start ≤ 1 }
    requires room { 9 ≤ length text.old }
    ensures within { result ≤ 9 }
    ensures same { length text.new ≡ length text.old }
{
    for i in 0..8_usize {
        if name[i] == 0 {
            return start + i;
        }
        text[start + i] = name[i];
    }
    start + 8
}

/// Writes a name after no sign, a plus or a minus, and answers the length.
fn put_signed_name(name: [u8; 8], sign: usize, text: &mut [u8]) -> usize
    requires room { 9 ≤ length text.old }
    ensures within { result ≤ 9 }
    ensures same { length text.new ≡ length text.old }
{
    if sign == 0 {
        return put_name(name, 0, text);
    }
    text[0] = if sign == 1 { b'+' } else { b'-' };
    put_name(name, 1, text)
}

/// Writes the first name of a form that is read as a value, after a sign where it needs one.
pub fn put_special<F: AnyFloat>(x: F, form: Form, text: &mut [u8]) -> Option<usize>
    requires form { IsForm form }
    requires room { 9 ≤ length text.old }
    ensures reads { IfSome result (λ n.
        IsNumberOf form F.format (numbers.Float (F.value x)) (take n text.new)) }
    ensures within { IfSome result (λ n. n ≤ length text.new) }
{
    let Some(specials) = form.specials else {
        return None;
    };
    for i in 0..24_usize {
        let len = put_signed_name(specials.names[i / 3].name, i % 3, text);
        if is_number_of::<F>(&text[..len], form, Number::Float(x)) {
            return Some(len);
        }
    }
    None
}

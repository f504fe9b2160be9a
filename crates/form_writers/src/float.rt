//! The text of a finite float, by a form.

ghost use Rattle.std.specs.Prelude.{◌≡◌, ◌≤◌, ◌≤ℤ◌, ◌-ℤ◌, ◌*◌, ◌^◌, ◌<◌, ◌-◌, pos, negsuc, length, take, IfOk, IfSome, IfNone, IsTrue};
ghost use Rattle.std.specs.Float.{float_is_finite};
ghost use Rattle.digit_numbers.specs.Forms.{IsForm};
ghost use Rattle.digit_numbers.specs.declared.number.Number.TheVariants as numbers;
ghost use Rattle.decimal_writers.specs.Text.{plain_text, exponent_text, usual_text};
ghost use Rattle.form_writers.specs.Numbers.{IsNumberOf, HasNoText};

use super::judge::is_number_of;
use decimal_writers::{NoRoom, write_exponent, write_plain, write_usual};
use digit_numbers::{Form, Number};
use float_writers::{AnyFloat, Decimal, shortest_of};

/// The length of what was written, if it is this float by a form.
fn accepted<F: AnyFloat>(
    x: F,
    form: Form,
    written: Result<usize, NoRoom>,
    text: &[u8],
) -> Option<usize>
    requires form { IsForm form }
    requires written { IfOk written (λ n. n ≤ length text.now) }
    ensures reads { IfSome result (λ n.
        IsNumberOf form F.format (numbers.Float (F.value x)) (take n text.now)) }
    ensures within { IfSome result (λ n. n ≤ length text.now) }
    ensures none { IfNone result (IfOk written (λ n.
        IsNumberOf form F.format (numbers.Float (F.value x)) (take n text.now) → ⊥)) }
{
    match written {
        Ok(len) => {
            if is_number_of::<F>(&text[..len], form, Number::Float(x)) {
                Some(len)
            } else {
                None
            }
        }
        Err(_) => None,
    }
}

/// Writes a decimal as serde_json does, if that is this float by a form: `12000.0`, `1e16`.
fn try_usual<F: AnyFloat>(
    x: F,
    form: Form,
    negative: bool,
    decimal: Decimal,
    text: &mut [u8],
) -> Option<usize>
    requires form { IsForm form }
    requires room { 328 ≤ length text.old }
    requires few { decimal.digits < 10 ^ 17 }
    requires least { negsuc 323 ≤ℤ decimal.power }
    requires most { decimal.power ≤ℤ pos 309 }
    ensures reads { IfSome result (λ n.
        IsNumberOf form F.format (numbers.Float (F.value x)) (take n text.new)) }
    ensures within { IfSome result (λ n. n ≤ length text.new) }
    ensures same { length text.new ≡ length text.old }
    ensures none { IfNone result (IsNumberOf form F.format (numbers.Float (F.value x))
        (usual_text negative decimal.digits decimal.power) → ⊥) }
{
    let written = write_usual(negative, decimal.digits, decimal.power, text);
    accepted::<F>(x, form, written, text)
}

/// Writes a decimal with a point and an exponent, if that is this float by a form: `1.0e16`.
fn try_pointed<F: AnyFloat>(
    x: F,
    form: Form,
    negative: bool,
    decimal: Decimal,
    text: &mut [u8],
) -> Option<usize>
    requires form { IsForm form }
    requires room { 328 ≤ length text.old }
    requires few { decimal.digits < 10 ^ 17 }
    requires least { negsuc 323 ≤ℤ decimal.power }
    requires most { decimal.power ≤ℤ pos 309 }
    ensures reads { IfSome result (λ n.
        IsNumberOf form F.format (numbers.Float (F.value x)) (take n text.new)) }
    ensures within { IfSome result (λ n. n ≤ length text.new) }
    ensures same { length text.new ≡ length text.old }
    ensures none { IfNone result (IsNumberOf form F.format (numbers.Float (F.value x))
        (exponent_text negative (decimal.digits * 10) (decimal.power -ℤ pos 1)) → ⊥) }
{
    let written = write_exponent(negative, decimal.digits * 10, decimal.power - 1, text);
    accepted::<F>(x, form, written, text)
}

/// Writes a decimal without an exponent, if that is this float by a form: `12000`.
fn try_plain<F: AnyFloat>(
    x: F,
    form: Form,
    negative: bool,
    decimal: Decimal,
    text: &mut [u8],
) -> Option<usize>
    requires form { IsForm form }
    requires room { 328 ≤ length text.old }
    requires few { decimal.digits < 10 ^ 17 }
    requires least { negsuc 323 ≤ℤ decimal.power }
    requires most { decimal.power ≤ℤ pos 309 }
    ensures reads { IfSome result (λ n.
        IsNumberOf form F.format (numbers.Float (F.value x)) (take n text.new)) }
    ensures within { IfSome result (λ n. n ≤ length text.new) }
    ensures same { length text.new ≡ length text.old }
    ensures none { IfNone result (IsNumberOf form F.format (numbers.Float (F.value x))
        (plain_text negative decimal.digits decimal.power) → ⊥) }
{
    let written = write_plain(negative, decimal.digits, decimal.power, text);
    accepted::<F>(x, form, written, text)
}

/// Writes a decimal with an exponent and a point, or without an exponent, if that is this float by
/// a form.
fn try_others<F: AnyFloat>(
    x: F,
    form: Form,
    negative: bool,
    decimal: Decimal,
    text: &mut [u8],
) -> Option<usize>
    requires form { IsForm form }
    requires room { 328 ≤ length text.old }
    requires few { decimal.digits < 10 ^ 17 }
    requires least { negsuc 323 ≤ℤ decimal.power }
    requires most { decimal.power ≤ℤ pos 309 }
    ensures reads { IfSome result (λ n.
        IsNumberOf form F.format (numbers.Float (F.value x)) (take n text.new)) }
    ensures within { IfSome result (λ n. n ≤ length text.new) }
    ensures pointed { IfNone result (IsNumberOf form F.format (numbers.Float (F.value x))
        (exponent_text negative (decimal.digits * 10) (decimal.power -ℤ pos 1)) → ⊥) }
    ensures plain { IfNone result (IsNumberOf form F.format (numbers.Float (F.value x))
        (plain_text negative decimal.digits decimal.power) → ⊥) }
{
    match try_pointed::<F>(x, form, negative, decimal, text) {
        Some(len) => Some(len),
        None => try_plain::<F>(x, form, negative, decimal, text),
    }
}

/// Writes a finite float at the front of a slice, if a text of its shortest decimal is this float
/// by a form.
pub fn put_float<F: AnyFloat>(x: F, form: Form, text: &mut [u8]) -> Option<usize>
    requires form { IsForm form }
    requires finite { IsTrue (float_is_finite (F.value x)) }
    requires room { 328 ≤ length text.old }
    ensures reads { IfSome result (λ n.
        IsNumberOf form F.format (numbers.Float (F.value x)) (take n text.new)) }
    ensures within { IfSome result (λ n. n ≤ length text.new) }
    ensures none { IfNone result (HasNoText form F.format (F.value x)) }
{
    let (negative, decimal) = shortest_of(x);
    match try_usual::<F>(x, form, negative, decimal, text) {
        Some(len) => Some(len),
        None => try_others::<F>(x, form, negative, decimal, text),
    }
}

//! The exponent of a decimal, written before the end of a text.

ghost use Rattle.std.specs.Prelude.{◌≡◌, ◌+◌, ◌≤◌, ◌<◌, ◌∷◌, ◌++◌, length, drop};
ghost use Rattle.std.specs.Fmt.{signed_decimal};
ghost use Rattle.decimal_writers.specs.Scientific.{mark_text};
ghost use Rattle.decimal_writers.specs.declared.exponent.ExponentText.TheVariants.{Signed};

use super::digits::{count_digits, put_digits, put_number};

/// How an exponent is written.
#[derive(Clone, Copy, Debug, PartialEq, Eq)]
pub enum ExponentText {
    /// As Rust's `{:e}`: `e0`, `e-7`, `e308`.
    Short,
    /// As C's `%e`, with a sign and at least two digits: `e+00`, `e-07`, `e+308`.
    Signed,
}

/// How many bytes an exponent has, with its mark.
#[inline(always)]
#[tactic(auto, using(crate::proofs::Exponents::lengths))]
pub fn length_of_exponent(power: i64) -> usize
    ensures is { result ≡ length (101 ∷ signed_decimal power) }
    ensures few { result ≤ 22 }
{
    count_digits(power.unsigned_abs()) + (power < 0) as usize + 1
}

/// Writes an exponent with its mark before `end`, and answers where it begins: `e-7`.
#[inline(always)]
#[tactic(auto, using(crate::proofs::Exponents::exponents))]
pub fn put_exponent(power: i64, out: &mut [u8], end: usize) -> usize
    requires room { length (101 ∷ signed_decimal power) ≤ end }
    requires within { end ≤ length out.old }
    ensures start { result + length (101 ∷ signed_decimal power) ≡ end }
    ensures written { drop result out.new ≡ 101 ∷ signed_decimal power ++ drop end out.old }
{
    let digits = put_number(power.unsigned_abs(), out, end);
    if power < 0 {
        out[digits - 1] = b'-';
        out[digits - 2] = b'e';
        return digits - 2;
    }
    out[digits - 1] = b'e';
    digits - 1
}

/// How many bytes an exponent has, with its mark, in one of its two texts.
#[inline(always)]
#[tactic(auto, using(crate::proofs::Exponents::signed_marks))]
pub fn length_of_mark(power: i64, style: ExponentText) -> usize
    ensures is { result ≡ length (mark_text style power) }
    ensures few { result ≤ 22 }
{
    match style {
        ExponentText::Short => length_of_exponent(power),
        ExponentText::Signed => count_digits(power.unsigned_abs()).max(2) + 2,
    }
}

/// Writes an exponent with its mark, a sign and at least two digits before `end`, and answers where
/// it begins: `e-07`.
#[tactic(auto, using(crate::proofs::Exponents::signed_marks))]
fn put_signed(power: i64, out: &mut [u8], end: usize) -> usize
    requires room { length (mark_text Signed power) ≤ end }
    requires within { end ≤ length out.old }
    ensures start { result + length (mark_text Signed power) ≡ end }
    ensures written { drop result out.new ≡ mark_text Signed power ++ drop end out.old }
{
    let digits = power.unsigned_abs();
    let count = count_digits(digits).max(2);
    put_digits(digits, count, out, end);
    let sign = end - count - 1;
    if power < 0 {
        out[sign] = b'-';
        out[sign - 1] = b'e';
        return sign - 1;
    }
    out[sign] = b'+';
    out[sign - 1] = b'e';
    sign - 1
}

/// Writes an exponent with its mark before `end`, in one of its two texts, and answers where it
/// begins.
#[inline(always)]
pub fn put_mark(power: i64, style: ExponentText, out: &mut [u8], end: usize) -> usize
    requires room { length (mark_text style power) ≤ end }
    requires within { end ≤ length out.old }
    ensures start { result + length (mark_text style power) ≡ end }
    ensures written { drop result out.new ≡ mark_text style power ++ drop end out.old }
{
    match style {
        ExponentText::Short => put_exponent(power, out, end),
        ExponentText::Signed => put_signed(power, out, end),
    }
}

//! Digits with a point, and whole numbers of tens, written before the end of a text.

ghost use Rattle.std.specs.Prelude.{◌≡◌, ℕ, ◌+◌, ◌*◌, ◌^◌, ◌<◌, ◌≤◌, ◌++◌, length, drop};
ghost use Rattle.decimal_writers.specs.Text.{mantissa_text, number_text, with_point};

use super::digits::{count_digits, put_digits, put_number};

/// How many bytes the digits of a number have with a point before the last `places`.
#[inline(always)]
#[tactic(auto, using(crate::proofs::Points::lengths))]
pub fn length_with_point(digits: u64, places: usize) -> usize
    requires some { 0 < places }
    requires few { places ≤ 2 ^ 32 }
    ensures is { result ≡ length (with_point places digits) }
    ensures few { result ≤ places + 21 }
{
    count_digits(digits).max(places + 1) + 1
}

/// [`put_with_point`] of a number below 1, in code of its own: its digits, and zeros before them.
#[cold]
#[inline(never)]
#[tactic(auto, using(crate::proofs::Points::below_one))]
fn put_below_one(digits: u64, places: usize, out: &mut [u8], end: usize) -> usize
    requires some { 0 < places }
    requires below { digits < 10 ^ places }
    requires room { places + 2 ≤ end }
    requires within { end ≤ length out.old }
    ensures start { result + (places + 2) ≡ end }
    ensures written { drop result out.new ≡ with_point places digits ++ drop end out.old }
{
    let start = put_number(digits, out, end);
    put_digits(0, start - (end - places), out, start);
    let point = end - places - 1;
    out[point] = b'.';
    out[point - 1] = b'0';
    point - 1
}

/// Writes the digits of a number with a point before the last `places`, before `end`, and answers
/// where they begin.
#[inline(always)]
#[tactic(auto, using(crate::proofs::Points::points))]
pub fn put_with_point(digits: u64, places: usize, out: &mut [u8], end: usize) -> usize
    requires some { 0 < places }
    requires room { length (with_point places digits) ≤ end }
    requires within { end ≤ length out.old }
    ensures start { result + length (with_point places digits) ≡ end }
    ensures written { drop result out.new ≡ with_point places digits ++ drop end out.old }
{
    if places >= 20 {
        return put_below_one(digits, places, out, end);
    }
    let whole = put_digits(digits, places, out, end);
    let point = end - places - 1;
    out[point] = b'.';
    put_number(whole, out, point)
}

/// How many bytes the digits of a number have, by their count, with a point after the first if
/// there are more.
#[inline(always)]
#[tactic(auto, using(crate::proofs::Points::long_mantissa))]
pub fn length_of_mantissa(count: usize) -> usize
    requires some { 1 ≤ count }
    requires few { count ≤ 20 }
    ensures is { (digits : ℕ) → length (number_text digits) ≡ count →
        result ≡ length (mantissa_text digits) }
    ensures few { result ≤ 21 }
{
    count + (count > 1) as usize
}

/// Writes the digits of a number, with a point after the first if there are more, before `end`, and
/// answers where they begin.
#[inline(always)]
#[tactic(auto, using(crate::proofs::Points::mantissas))]
pub fn put_mantissa(digits: u64, out: &mut [u8], end: usize) -> usize
    requires room { length (mantissa_text digits) ≤ end }
    requires within { end ≤ length out.old }
    ensures start { result + length (mantissa_text digits) ≡ end }
    ensures written { drop result out.new ≡ mantissa_text digits ++ drop end out.old }
{
    let start = put_number(digits, out, end);
    if digits < 10 {
        return start;
    }
    let first = out[start];
    out[start] = b'.';
    out[start - 1] = first;
    start - 1
}

/// How many bytes a number has with so many zeros after it.
#[inline(always)]
#[tactic(auto, using(crate::proofs::Points::zeros))]
pub fn length_with_zeros(digits: u64, zeros: usize) -> usize
    requires few { zeros ≤ 2 ^ 32 }
    ensures is { result ≡ length (number_text (digits * 10 ^ zeros)) }
    ensures few { result ≤ zeros + 20 }
{
    if digits == 0 {
        return 1;
    }
    count_digits(digits) + zeros
}

/// Writes a number with so many zeros after it before `end`, and answers where it begins.
#[inline(always)]
#[tactic(auto, using(crate::proofs::Points::zeros))]
pub fn put_with_zeros(digits: u64, zeros: usize, out: &mut [u8], end: usize) -> usize
    requires room { length (number_text (digits * 10 ^ zeros)) ≤ end }
    requires within { end ≤ length out.old }
    ensures start { result + length (number_text (digits * 10 ^ zeros)) ≡ end }
    ensures written { drop result out.new
        ≡ number_text (digits * 10 ^ zeros) ++ drop end out.old }
{
    if digits == 0 {
        return put_number(0, out, end);
    }
    put_digits(0, zeros, out, end);
    put_number(digits, out, end - zeros)
}

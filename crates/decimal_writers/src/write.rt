//! The three layouts.

ghost use Rattle.std.specs.Prelude.{◌≡◌, ◌&&◌, int_le, int_lt, pos, negsuc, ◌+◌, ◌-◌, ◌+ℤ◌, ◌^◌, ◌≤◌, ◌++◌, length, take, drop, IfOk};
ghost use Rattle.std.specs.Fmt.{sign_text};
ghost use Rattle.decimal_writers.specs.Text.{number_text, with_point, places_of, units_of, plain_text, exponent_text, zero_place, usual_text};
ghost use Rattle.decimal_writers.specs.Room.{Writes};
ghost use Rattle.decimal_writers.specs.Value.{Reads};

use super::digits::count_digits;
use super::exponent::{length_of_exponent, put_exponent};
use super::point::{
    length_of_mantissa, length_with_point, length_with_zeros, put_mantissa, put_with_point,
    put_with_zeros,
};
use super::room::NoRoom;

/// Writes a minus to the front, if there is one.
#[inline(always)]
pub fn put_sign(negative: bool, out: &mut [u8])
    requires { length (sign_text negative) ≤ length out.old }
    ensures { out.new ≡ sign_text negative ++ drop (length (sign_text negative)) out.old }
{
    if negative {
        out[0] = b'-';
    }
}

/// How many bytes a decimal has without an exponent, from its digits on.
#[inline(always)]
#[tactic(auto, using(crate::proofs::Powers::powers))]
fn length_plain(digits: u64, power: i32) -> usize
    ensures is { result ≡ length (with_point (places_of power) (units_of digits power)) }
    ensures few { result ≤ 2 ^ 32 }
{
    if power < 0 {
        return length_with_point(digits, power.unsigned_abs() as usize);
    }
    length_with_zeros(digits, power as usize)
}

/// Writes a decimal without an exponent before `end`, from its digits on, and answers where they
/// begin.
#[inline(always)]
#[tactic(auto, using(crate::proofs::Powers::powers))]
fn put_plain(digits: u64, power: i32, out: &mut [u8], end: usize) -> usize
    requires room { length (with_point (places_of power) (units_of digits power)) ≤ end }
    requires within { end ≤ length out.old }
    ensures start { result + length (with_point (places_of power) (units_of digits power)) ≡ end }
    ensures written { drop result out.new
        ≡ with_point (places_of power) (units_of digits power) ++ drop end out.old }
{
    if power < 0 {
        return put_with_point(digits, power.unsigned_abs() as usize, out, end);
    }
    put_with_zeros(digits, power as usize, out, end)
}

/// [`write_plain`], before it is read.
#[inline(always)]
#[tactic(auto, using(crate::proofs::Texts::written))]
pub fn write_plain_text(
    negative: bool,
    digits: u64,
    power: i32,
    out: &mut [u8],
) -> Result<usize, NoRoom>
    ensures { Writes (plain_text negative digits power) out.old out.new result }
{
    let len = negative as usize + length_plain(digits, power);
    if len > out.len() {
        return Err(NoRoom { needed: len });
    }
    put_plain(digits, power, out, len);
    put_sign(negative, out);
    Ok(len)
}

/// The power of ten of the first of so many digits.
#[inline(always)]
fn first_power(count: usize, power: i32) -> i64
    requires some { 1 ≤ count }
    requires few { count ≤ 20 }
    ensures { result ≡ power +ℤ pos (count - 1) }
{
    i64::from(power) + (count - 1) as i64
}

/// [`write_exponent`], before it is read, by the count of the digits.
#[inline(always)]
fn write_exponent_text(
    negative: bool,
    digits: u64,
    count: usize,
    power: i32,
    out: &mut [u8],
) -> Result<usize, NoRoom>
    requires count { count ≡ length (number_text digits) }
    requires some { 1 ≤ count }
    requires few { count ≤ 20 }
    ensures { Writes (exponent_text negative digits power) out.old out.new result }
{
    let first = first_power(count, power);
    let len = negative as usize + length_of_mantissa(count) + length_of_exponent(first);
    if len > out.len() {
        return Err(NoRoom { needed: len });
    }
    let mark = put_exponent(first, out, len);
    put_mantissa(digits, out, mark);
    put_sign(negative, out);
    Ok(len)
}

/// How many bytes a whole number has for the place after its point, if it is one.
#[inline(always)]
fn length_of_place(power: i32) -> usize
    ensures is { result ≡ length (zero_place power) }
    ensures few { result ≤ 2 }
{
    if power < 0 { 0 } else { 2 }
}

/// Writes that place before `end`, and answers where it begins.
#[inline(always)]
fn put_place(power: i32, out: &mut [u8], end: usize) -> usize
    requires room { length (zero_place power) ≤ end }
    requires within { end ≤ length out.old }
    ensures start { result + length (zero_place power) ≡ end }
    ensures written { drop result out.new ≡ zero_place power ++ drop end out.old }
{
    if power < 0 {
        return end;
    }
    out[end - 1] = b'0';
    out[end - 2] = b'.';
    end - 2
}

/// Writes a decimal without an exponent and with one place at least.
#[inline(always)]
fn write_pointed(negative: bool, digits: u64, power: i32, out: &mut [u8]) -> Result<usize, NoRoom>
    ensures { Writes (plain_text negative digits power ++ zero_place power)
        out.old out.new result }
{
    let len = negative as usize + length_plain(digits, power) + length_of_place(power);
    if len > out.len() {
        return Err(NoRoom { needed: len });
    }
    let place = put_place(power, out, len);
    put_plain(digits, power, out, place);
    put_sign(negative, out);
    Ok(len)
}

/// Whether the first digit is from 1e-5 to below 1e16.
#[inline(always)]
fn is_plain(first: i64) -> bool
    ensures { result ≡ (int_le (negsuc 4) first && int_lt first (pos 16)) }
{
    -5 <= first && first < 16
}

/// [`write_usual`], before it is read.
#[inline(always)]
fn write_usual_text(
    negative: bool,
    digits: u64,
    power: i32,
    out: &mut [u8],
) -> Result<usize, NoRoom>
    ensures { Writes (usual_text negative digits power) out.old out.new result }
{
    let count = count_digits(digits);
    if is_plain(first_power(count, power)) {
        return write_pointed(negative, digits, power, out);
    }
    write_exponent_text(negative, digits, count, power, out)
}

/// Writes digits and a power of ten without an exponent: `-0.00012`, `1.5`, `12000`, `0`. Zeros at
/// the end of `digits` are written too: 120 with the power -2 is `1.20`.
///
/// The call puts the text at the front of a slice, and returns its length, or the room that it
/// needs. So Rust's `{}` writes a float, if the digits are its shortest. What follows the text in
/// the slice stays as it was.
#[inline]
#[tactic(auto, using(crate::proofs::Reading::reads))]
pub fn write_plain(negative: bool, digits: u64, power: i32, out: &mut [u8]) -> Result<usize, NoRoom>
    ensures writes { Writes (plain_text negative digits power) out.old out.new result }
    ensures reads { IfOk result (λ n. Reads negative digits power (take n out.new)) }
{
    write_plain_text(negative, digits, power, out)
}

/// Writes digits and a power of ten with one digit before the point and an exponent: `-1.2e-4`,
/// `1.5e0`, `1e23`.
///
/// The call puts the text at the front of a slice, and returns its length, or the room that it
/// needs. So Rust's `{:e}` writes a float.
#[inline]
#[tactic(auto, using(crate::proofs::Reading::reads))]
pub fn write_exponent(
    negative: bool,
    digits: u64,
    power: i32,
    out: &mut [u8],
) -> Result<usize, NoRoom>
    ensures writes { Writes (exponent_text negative digits power) out.old out.new result }
    ensures reads { IfOk result (λ n. Reads negative digits power (take n out.new)) }
{
    write_exponent_text(negative, digits, count_digits(digits), power, out)
}

/// Writes digits and a power of ten as serde_json writes an `f64`: `0.00012`, `12000.0`, `1e-7`,
/// `1e16`.
///
/// The call puts the text at the front of a slice, and returns its length, or the room that it
/// needs. It has an exponent below 1e-5 and from 1e16 on; in between it has a point, and at least
/// one place after it.
#[inline]
#[tactic(auto, using(crate::proofs::Reading::reads))]
pub fn write_usual(negative: bool, digits: u64, power: i32, out: &mut [u8]) -> Result<usize, NoRoom>
    ensures writes { Writes (usual_text negative digits power) out.old out.new result }
    ensures reads { IfOk result (λ n. Reads negative digits power (take n out.new)) }
{
    write_usual_text(negative, digits, power, out)
}

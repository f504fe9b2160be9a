//! Floats with one digit before the point, a fixed number of places, and an exponent.

ghost use Rattle.std.specs.Prelude.{◌≡◌, ℕ, ◌+◌, ◌^◌, ◌<◌, ◌≤◌, ◌++◌, IsTrue, length, take};
ghost use Rattle.std.specs.Float.{float_is_finite};
ghost use Rattle.std.specs.Fmt.{sign_text};
ghost use Rattle.decimal_writers.specs.Big.{value_of, IsBig};
ghost use Rattle.decimal_writers.specs.Places.{IsPlaces, number_of, places_text};
ghost use Rattle.decimal_writers.specs.Room.{Writes};
ghost use Rattle.decimal_writers.specs.Scientific.{mark_text, power_of, rounded, scientific_text};

use super::exact::{binary_of, exact_digits};
use super::exponent::{ExponentText, length_of_mark, put_mark};
use super::fixed::round_off;
use super::places::{Places, length_of_places, put_places, whole_of};
use super::room::NoRoom;
use super::write::put_sign;

/// Rounds a number of so many digits to one and so many places. Where all nines go up there is a
/// digit more, and one more is dropped.
fn round_to(digits: &mut [u8], len: usize, places: usize) -> Places
    requires big { IsBig digits.old len (value_of (take len digits.old)) }
    requires room { len < length digits.old }
    requires few { len < 2 ^ 32 }
    requires places { places < 2 ^ 32 }
    ensures is { IsPlaces digits.new result }
    ensures places { result.fraction + result.zeros ≡ places }
    ensures rounded { (down : ℕ) → rounded places (value_of (take len digits.old)) (10 ^ down)
        ≡ (number_of digits.new result, power_of result.len down) }
    ensures few { result.len ≤ len + 1 }
{
    let count = places + 1;
    if len <= count {
        let fraction = len.saturating_sub(1);
        return Places {
            len,
            dropped: 0,
            whole: whole_of(len, 0, fraction),
            fraction,
            zeros: places - fraction,
        };
    }
    let after = round_off(digits, len, len - count);
    let dropped = after - count;
    Places {
        len: after,
        dropped,
        whole: whole_of(after, dropped, places),
        fraction: places,
        zeros: 0,
    }
}

/// The power of ten of the first of so many digits, of which the last so many are places.
fn first_power(len: usize, places: usize) -> i64
    requires len { len < 2 ^ 32 }
    requires places { places < 2 ^ 32 }
    ensures { result ≡ power_of len places }
{
    if len == 0 {
        return 0;
    }
    len as i64 - (places + 1) as i64
}

/// Writes digits with their sign, a point and an exponent.
fn write_marked(
    negative: bool,
    digits: &[u8],
    p: Places,
    power: i64,
    style: ExponentText,
    out: &mut [u8],
) -> Result<usize, NoRoom>
    requires { IsPlaces digits.now p }
    ensures { Writes (sign_text negative ++ (places_text digits.now p ++ mark_text style power))
        out.old out.new result }
{
    let end = negative as usize + length_of_places(p) + length_of_mark(power, style);
    if end > out.len() {
        return Err(NoRoom { needed: end });
    }
    let mark = put_mark(power, style, out, end);
    put_places(digits, p, out, mark);
    put_sign(negative, out);
    Ok(end)
}

/// Writes a finite float with one digit before the point, `places` digits after it, and an
/// exponent, as C's `%.6e`. It is rounded once, from its exact value, at a tie to the even digit.
/// It needs at most 8 + `places` bytes. An `f32` is written by its exact `f64`, `f64::from(x)`.
///
/// The call puts the text at the front of a slice, and returns its length, or the room that it
/// needs; what follows the text in the slice stays as it was.
///
/// ```text
/// x, places    Signed          Short
/// 1.5, 6       1.500000e+00    1.500000e0
/// 2.5, 0       2e+00           2e0
/// 9.96, 1      1.0e+01         1.0e1
/// -0.0, 2      -0.00e+00       -0.00e0
/// 5e-324, 3    4.941e-324      4.941e-324
/// ```
pub fn write_scientific(
    x: f64,
    places: u32,
    style: ExponentText,
    out: &mut [u8],
) -> Result<usize, NoRoom>
    requires { IsTrue (float_is_finite x) }
    ensures { Writes (scientific_text x places style) out.old out.new result }
{
    let mut digits = [0u8; 800];
    let binary = binary_of(x);
    let exact = exact_digits(binary, &mut digits);
    let rounded = round_to(&mut digits, exact.len, places as usize);
    let power = first_power(rounded.len, exact.places);
    write_marked(binary.negative, &digits, rounded, power, style, out)
}

//! Floats with a fixed number of places.

ghost use Rattle.std.specs.Prelude.{◌≡◌, pos, neg_ℤ, ◌+◌, ◌-◌, ◌/◌, ◌^◌, ◌<◌, ◌≤◌, ◌++◌, IsTrue, length, take};
ghost use Rattle.std.specs.Float.{float_is_finite};
ghost use Rattle.std.specs.Fmt.{sign_text};
ghost use lib.Ieee.Nearest.{closest};
ghost use Rattle.decimal_writers.specs.Big.{value_of, IsBig};
ghost use Rattle.decimal_writers.specs.Fixed.{fixed_text};
ghost use Rattle.decimal_writers.specs.Places.{IsPlaces, places_text};
ghost use Rattle.decimal_writers.specs.Room.{Writes};

use super::big::{add_one, rounds_up};
use super::exact::{binary_of, exact_digits};
use super::places::{Places, length_of_places, put_places, whole_of};
use super::quick::quick_units;
use super::room::NoRoom;
use super::write::{put_sign, write_plain_text};

/// Rounds a number's last digits off, at a tie to the even digit, and answers how many it has then.
/// Those that are dropped stay where they are.
#[tactic(auto)]
pub fn round_off(digits: &mut [u8], len: usize, dropped: usize) -> usize
    requires big { IsBig digits.old len (value_of (take len digits.old)) }
    requires room { len < length digits.old }
    ensures big { IsBig digits.new result (value_of (take result digits.new)) }
    ensures value { value_of (take result digits.new) / 10 ^ dropped
        ≡ closest (value_of (take len digits.old)) (10 ^ dropped) }
    ensures few { result ≤ len + 1 }
    ensures least { len ≤ result }
{
    if rounds_up(digits, len, dropped) {
        return add_one(digits, len, dropped);
    }
    len
}

/// Writes digits with their sign and a point.
fn write_places(negative: bool, digits: &[u8], p: Places, out: &mut [u8]) -> Result<usize, NoRoom>
    requires { IsPlaces digits.now p }
    ensures { Writes (sign_text negative ++ places_text digits.now p) out.old out.new result }
{
    let end = negative as usize + length_of_places(p);
    if end > out.len() {
        return Err(NoRoom { needed: end });
    }
    put_places(digits, p, out, end);
    put_sign(negative, out);
    Ok(end)
}

/// [`write_fixed`] by the exact digits of the float.
#[inline(never)]
fn write_exact(x: f64, places: u32, out: &mut [u8]) -> Result<usize, NoRoom>
    requires { IsTrue (float_is_finite x) }
    ensures { Writes (fixed_text x places) out.old out.new result }
{
    let mut digits = [0u8; 800];
    let binary = binary_of(x);
    let exact = exact_digits(binary, &mut digits);
    let wanted = places as usize;
    if exact.places <= wanted {
        let written = Places {
            len: exact.len,
            dropped: 0,
            whole: whole_of(exact.len, 0, exact.places),
            fraction: exact.places,
            zeros: wanted - exact.places,
        };
        return write_places(binary.negative, &digits, written, out);
    }
    let dropped = exact.places - wanted;
    let len = round_off(&mut digits, exact.len, dropped);
    let written = Places {
        len,
        dropped,
        whole: whole_of(len, dropped, wanted),
        fraction: wanted,
        zeros: 0,
    };
    write_places(binary.negative, &digits, written, out)
}

/// The power of ten that is minus a number of places.
#[inline(always)]
fn power_of(places: u32) -> i32
    requires { places ≤ 19 }
    ensures { result ≡ neg_ℤ (pos places) }
{
    -(places as i32)
}

/// Writes a finite float with `places` decimal places, like C's `%.2f`. Its exact value is rounded
/// once. A tie goes to the even digit. It needs at most 311 + `places` bytes.
///
/// The call puts the text at the front of a slice, and returns its length, or the room that it
/// needs; what follows the text in the slice stays as it was.
#[tactic(auto)]
#[inline]
pub fn write_fixed(x: f64, places: u32, out: &mut [u8]) -> Result<usize, NoRoom>
    requires { IsTrue (float_is_finite x) }
    ensures { Writes (fixed_text x places) out.old out.new result }
{
    let binary = binary_of(x);
    if let Some(units) = quick_units(binary.significand, binary.shift, places) {
        return write_plain_text(binary.negative, units, power_of(places), out);
    }
    write_exact(x, places, out)
}

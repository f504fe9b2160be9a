//! Digits of a number, with a point among them and zeros after them, written before the end of a
//! text.

ghost use Rattle.std.specs.Prelude.{◌≡◌, ℕ, List, ◌+◌, ◌/◌, ◌^◌, ◌≤◌, nat_lt, ◌++◌, length, take, drop};
ghost use mir.Val.{bool_byte};
ghost use Rattle.decimal_writers.specs.Big.{value_of, IsBig};
ghost use Rattle.decimal_writers.specs.Fixed.{point_of};
ghost use Rattle.decimal_writers.specs.Places.{IsPlaces, places_text};
ghost use Rattle.decimal_writers.specs.Text.{number_text};

use super::big::put_big;
use super::digits::put_digits;

/// Which digits of a number are written: of the first `len`, without the last `dropped`, `whole`
/// before the point and `fraction` after it, and then so many zeros.
#[derive(Clone, Copy)]
pub struct Places {
    pub len: usize,
    pub dropped: usize,
    pub whole: usize,
    pub fraction: usize,
    pub zeros: usize,
}

/// How many digits a number of `len` digits has without the last `dropped` and `fraction` ones: one
/// at least.
#[tactic(auto, using(crate::proofs::Placed::whole_count))]
pub fn whole_of(len: usize, dropped: usize, fraction: usize) -> usize
    requires len { len ≤ 2 ^ 33 }
    requires few { dropped + fraction ≤ 2 ^ 33 }
    ensures is { (bytes : List ℕ) → IsBig bytes len (value_of (take len bytes)) →
        length (number_text (value_of (take len bytes) / 10 ^ (dropped + fraction))) ≡ result }
    ensures some { 1 ≤ result }
    ensures few { result ≤ 2 ^ 33 }
{
    len.saturating_sub(dropped + fraction).max(1)
}

/// How many bytes these digits take.
pub fn length_of_places(p: Places) -> usize
    requires whole { p.whole ≤ 2 ^ 33 }
    requires fraction { p.fraction ≤ 2 ^ 33 }
    requires zeros { p.zeros ≤ 2 ^ 33 }
    ensures is { result
        ≡ p.whole + bool_byte (nat_lt 0 (p.fraction + p.zeros)) + (p.fraction + p.zeros) }
    ensures few { result ≤ 2 ^ 36 }
{
    let places = p.fraction + p.zeros;
    p.whole + (places > 0) as usize + places
}

/// Writes a point before a position, if places follow it, and answers where it is.
fn put_point(places: usize, out: &mut [u8], end: usize) -> usize
    requires room { length (point_of places) ≤ end }
    requires within { end ≤ length out.old }
    ensures start { result + length (point_of places) ≡ end }
    ensures written { drop result out.new ≡ point_of places ++ drop end out.old }
{
    if places == 0 {
        return end;
    }
    out[end - 1] = b'.';
    end - 1
}

/// Writes these digits before `end`, and answers where they begin.
#[tactic(auto, using(crate::proofs::Placed::point_long))]
pub fn put_places(digits: &[u8], p: Places, out: &mut [u8], end: usize) -> usize
    requires is { IsPlaces digits.now p }
    requires room { p.whole + bool_byte (nat_lt 0 (p.fraction + p.zeros)) + (p.fraction + p.zeros)
        ≤ end }
    requires within { end ≤ length out.old }
    ensures start { result
        + (p.whole + bool_byte (nat_lt 0 (p.fraction + p.zeros)) + (p.fraction + p.zeros)) ≡ end }
    ensures written { drop result out.new ≡ places_text digits.now p ++ drop end out.old }
{
    let places = p.fraction + p.zeros;
    put_digits(0, p.zeros, out, end);
    put_big(digits, p.len, p.dropped, p.fraction, out, end - p.zeros);
    let point = put_point(places, out, end - places);
    put_big(digits, p.len, p.dropped + p.fraction, p.whole, out, point);
    point - p.whole
}

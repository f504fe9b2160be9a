//! Amounts in units of their last place, with a point before the places.

ghost use Rattle.std.specs.Prelude.{◌≡◌, ℕ, ◌+◌, ◌/◌, ◌^◌, ◌<◌, ◌≤◌, false, true, length, take, drop, decimal, Ok, IfOk, IfErr};
ghost use Rattle.std.specs.List.{splice};
ghost use Rattle.digit_amounts.specs.Scaled.{read_scaled_at};
ghost use Rattle.digit_amounts.specs.Prices.{price_at};
ghost use Rattle.digit_writers.specs.Amounts.{whole_text, fraction_text, magnitude_text, amount_text, ReadsAmounts, ReadsPrices};

use super::by::{count_signs, put_sign};
use super::groups::{count_digits, count_gaps, put_last};
use super::layout::Layout;
use super::thousands::put_thousands;
use super::types::Written;
use super::wide::put_number;
use decimal_writers::NoRoom;
use digit_words::powers::{small_ten_to, wide_ten_to};

/// A number without so many of its last digits.
#[inline(always)]
fn without_places(n: u128, places: usize) -> u128
    requires { places ≤ 38 }
    ensures { result ≡ n / 10 ^ places }
{
    if places <= 19 && n <= u64::MAX as u128 {
        return (n as u64 / small_ten_to(places)) as u128;
    }
    n / wide_ten_to(places)
}

/// How long an integer is, in groups of three digits or not.
#[inline(always)]
fn count_whole(n: u128, is_grouped: bool, separator: u8) -> usize
    ensures is { result ≡ length (whole_text is_grouped separator n) }
    ensures few { result ≤ 256 }
{
    let count = count_digits(n, 10);
    if is_grouped {
        return count + count_gaps(3, count);
    }
    count
}

/// Writes an integer, in groups of three digits or not, from a position on, and answers where it
/// ends.
#[inline(always)]
fn put_whole(n: u128, is_grouped: bool, separator: u8, out: &mut [u8], at: usize) -> usize
    requires room { at + length (whole_text is_grouped separator n) ≤ length out.old }
    ensures end { result ≡ at + length (whole_text is_grouped separator n) }
    ensures written { out.new ≡ splice out.old at result (whole_text is_grouped separator n) }
{
    if is_grouped {
        return put_thousands(n, separator, out, at);
    }
    put_number(n, out, at)
}

/// How long the point and the places are.
#[inline(always)]
fn count_fraction(n: u128, point: u8, places: usize) -> usize
    requires { places ≤ 38 }
    ensures is { result ≡ length (fraction_text point places n) }
    ensures few { result ≤ 39 }
{
    if places == 0 { 0 } else { places + 1 }
}

/// Writes the point and the places from a position on, and answers where they end.
#[inline(always)]
fn put_fraction(n: u128, point: u8, places: usize, out: &mut [u8], at: usize) -> usize
    requires places { places ≤ 38 }
    requires room { at + length (fraction_text point places n) ≤ length out.old }
    ensures end { result ≡ at + length (fraction_text point places n) }
    ensures written { out.new ≡ splice out.old at result (fraction_text point places n) }
{
    if places == 0 {
        return at;
    }
    out[at] = point;
    let _left = put_last(n, places, Layout::decimal(), out, at + 1);
    at + 1 + places
}

/// Writes a magnitude with its sign at the front of a slice, and answers its length.
#[inline(always)]
fn put_amount(
    is_negative: bool,
    magnitude: u128,
    is_grouped: bool,
    separator: u8,
    point: u8,
    places: usize,
    out: &mut [u8],
) -> Result<usize, NoRoom>
    requires { places ≤ 38 }
    ensures written { let laid = magnitude_text is_grouped separator point places in
        let text = laid is_negative magnitude in
        IfOk result (λ end. (end ≡ length text) × (end ≤ length out.old)
        × (out.new ≡ splice out.old 0 end text)) }
    ensures no_room { let laid = magnitude_text is_grouped separator point places in
        let text = laid is_negative magnitude in
        IfErr result (λ error. (error.needed ≡ length text) × (length out.old < error.needed)
        × (out.new ≡ out.old)) }
{
    let whole = without_places(magnitude, places);
    let needed = count_signs(false, is_negative)
        + count_whole(whole, is_grouped, separator)
        + count_fraction(magnitude, point, places);
    if needed > out.len() {
        return Err(NoRoom { needed });
    }
    let start = put_sign(false, is_negative, out);
    let middle = put_whole(whole, is_grouped, separator, out, start);
    Ok(put_fraction(magnitude, point, places, out, middle))
}

/// Writes an amount: -1250 with two places is `-12.50`. Requires that there are at most 38 places.
///
/// The call puts it at the front of a slice, with a point before the last `places` digits, and
/// returns how many bytes it takes. `read_scaled_from` reads the text back as the same number by
/// each word that reads such amounts (`ReadsAmounts`). The rest of the slice isn't changed. Without
/// room nothing is written, and the error has the room that is needed.
///
/// ```text
/// `write_scaled(-1250i64, b'.', 2, &mut out)`: Ok(6), and `out` begins with `-12.50`
/// ```
#[inline]
pub fn write_scaled<T: Written>(
    value: T,
    point: u8,
    places: usize,
    out: &mut [u8],
) -> Result<usize, NoRoom>
    requires { places ≤ 38 }
    ensures written { let text = amount_text false 0 point places (T.number value) in
        IfOk result (λ end. take end out.new ≡ text) }
    ensures rest { IfOk result (λ end. drop end out.new ≡ drop end out.old) }
    ensures within { IfOk result (λ end. end ≤ length out.old) }
    ensures reads { (word : ℕ) → ReadsAmounts word point → IfOk result (λ end.
        read_scaled_at word (take end out.new) point places T.MIN_MAGNITUDE T.MAX 0
        ≡ Ok (T.number value, end)) }
    ensures no_room { IfErr result (λ error. length out.old < error.needed) }
    ensures needed { let text = amount_text false 0 point places (T.number value) in
        IfErr result (λ error. error.needed ≡ length text) }
    ensures unchanged { IfErr result (λ _. out.new ≡ out.old) }
{
    let (is_negative, magnitude) = value.parts();
    put_amount(is_negative, magnitude, false, 0, point, places, out)
}

/// Writes an amount with a byte between groups of three digits: `1,234.50`. Requires that there are
/// at most 38 places.
///
/// It is written as by [`write_scaled`]. `read_price_from` reads the text back as the same number
/// by each word that reads such prices (`ReadsPrices`).
///
/// ```text
/// `write_price(123450i64, b'.', 2, b',', &mut out)`: Ok(8), and `out` begins with `1,234.50`
/// ```
#[inline]
pub fn write_price<T: Written>(
    value: T,
    point: u8,
    places: usize,
    separator: u8,
    out: &mut [u8],
) -> Result<usize, NoRoom>
    requires { places ≤ 38 }
    ensures written { let text = amount_text true separator point places (T.number value) in
        IfOk result (λ end. take end out.new ≡ text) }
    ensures rest { IfOk result (λ end. drop end out.new ≡ drop end out.old) }
    ensures within { IfOk result (λ end. end ≤ length out.old) }
    ensures reads { (word : ℕ) → ReadsPrices word point separator → IfOk result (λ end.
        price_at word (take end out.new) point places T.MIN_MAGNITUDE T.MAX 0
        ≡ Ok (T.number value, end)) }
    ensures no_room { IfErr result (λ error. length out.old < error.needed) }
    ensures needed { let text = amount_text true separator point places (T.number value) in
        IfErr result (λ error. error.needed ≡ length text) }
    ensures unchanged { IfErr result (λ _. out.new ≡ out.old) }
{
    let (is_negative, magnitude) = value.parts();
    put_amount(is_negative, magnitude, true, separator, point, places, out)
}

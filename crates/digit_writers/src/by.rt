//! The text of an integer in a layout.

ghost use Rattle.std.specs.Prelude.{◌≡◌, ℕ, ◌+◌, ◌<◌, ◌≤◌, ◌++◌, max, length, take, drop, IfOk, IfErr, decimal};
ghost use Rattle.std.specs.List.{splice};
ghost use Rattle.digit_writers.specs.Written.{Reads};
ghost use Rattle.digit_writers.specs.Layouts.{sign_of, digit_count, thousands, laid_out, IsLaidOut, HasNoRoom, IsReadBy};

use super::groups::{count_digits, count_gaps, put_groups};
use super::layout::Layout;
use super::thousands::put_thousands;
use super::types::Written;
use super::wide::put_number;
use decimal_writers::NoRoom;

/// How long the sign is.
#[inline(always)]
pub(crate) fn count_signs(has_plus: bool, is_negative: bool) -> usize
    ensures is { result ≡ length (sign_of has_plus is_negative) }
    ensures few { result ≤ 1 }
{
    if has_plus || is_negative { 1 } else { 0 }
}

/// How many digits are written.
#[inline(always)]
fn count_of(magnitude: u128, layout: Layout) -> usize
    ensures is { result ≡ max layout.digits (digit_count layout.radix magnitude) }
    ensures some { 0 < result }
    ensures few { result ≤ 255 }
{
    count_digits(magnitude, layout.radix).max(layout.digits as usize)
}

/// Writes a sign, if there is one, at the front of a slice, and answers its length.
#[inline(always)]
pub(crate) fn put_sign(has_plus: bool, is_negative: bool, out: &mut [u8]) -> usize
    requires room { length (sign_of has_plus is_negative) ≤ length out.old }
    ensures end { result ≡ length (sign_of has_plus is_negative) }
    ensures written { out.new ≡ splice out.old 0 result (sign_of has_plus is_negative) }
{
    if is_negative {
        out[0] = b'-';
        return 1;
    }
    if has_plus {
        out[0] = b'+';
        return 1;
    }
    0
}

/// Writes a decimal magnitude with its sign at the front of a slice, and answers its length.
#[inline(always)]
fn put_decimal(has_plus: bool, is_negative: bool, magnitude: u128, out: &mut [u8]) -> usize
    requires room { let signs = sign_of has_plus is_negative in
        length signs + length (decimal magnitude) ≤ length out.old }
    ensures end { result ≡ length (sign_of has_plus is_negative ++ decimal magnitude) }
    ensures written { out.new
        ≡ splice out.old 0 result (sign_of has_plus is_negative ++ decimal magnitude) }
{
    let start = put_sign(has_plus, is_negative, out);
    put_number(magnitude, out, start)
}

/// Writes a decimal magnitude with its sign, in groups of three digits, at the front of a slice,
/// and answers its length.
#[inline(always)]
fn put_in_thousands(
    has_plus: bool,
    is_negative: bool,
    magnitude: u128,
    separator: u8,
    out: &mut [u8],
) -> usize
    requires room { let signs = sign_of has_plus is_negative in
        length signs + length (thousands separator magnitude) ≤ length out.old }
    ensures end { result ≡ length (sign_of has_plus is_negative ++ thousands separator magnitude) }
    ensures written { out.new
        ≡ splice out.old 0 result (sign_of has_plus is_negative ++ thousands separator magnitude) }
{
    let start = put_sign(has_plus, is_negative, out);
    put_thousands(magnitude, separator, out, start)
}

/// Writes a magnitude with its sign in any layout at the front of a slice, and answers its length.
#[inline(never)]
fn put_any(
    is_negative: bool,
    magnitude: u128,
    layout: Layout,
    out: &mut [u8],
) -> Result<usize, NoRoom>
    ensures written { IfOk result (IsLaidOut layout is_negative magnitude out.old out.new) }
    ensures no_room { IfErr result (λ error.
        HasNoRoom layout is_negative magnitude out.old error.needed × (out.new ≡ out.old)) }
{
    let count = count_of(magnitude, layout);
    let signs = count_signs(layout.has_plus, is_negative);
    let end = signs + count + count_gaps(layout.every, count);
    if end > out.len() {
        return Err(NoRoom { needed: end });
    }
    let start = put_sign(layout.has_plus, is_negative, out);
    put_groups(magnitude, count, layout, out, start, end);
    Ok(end)
}

/// Writes a magnitude with its sign in a layout at the front of a slice, and answers its length.
/// The magnitude has at most `room` decimal digits.
#[inline(always)]
fn put_laid(
    is_negative: bool,
    magnitude: u128,
    room: usize,
    layout: Layout,
    out: &mut [u8],
) -> Result<usize, NoRoom>
    requires room { length (decimal magnitude) ≤ room }
    requires few { room ≤ 40 }
    ensures written { IfOk result (IsLaidOut layout is_negative magnitude out.old out.new) }
    ensures no_room { IfErr result (λ error.
        HasNoRoom layout is_negative magnitude out.old error.needed × (out.new ≡ out.old)) }
{
    if layout.radix == 10 && layout.digits <= 1 && out.len() > room + room / 3 {
        if layout.every == 0 {
            return Ok(put_decimal(layout.has_plus, is_negative, magnitude, out));
        }
        if layout.every == 3 {
            let separator = layout.separator;
            return Ok(put_in_thousands(layout.has_plus, is_negative, magnitude, separator, out));
        }
    }
    put_any(is_negative, magnitude, layout, out)
}

/// Writes an integer by a [`Layout`](crate::Layout): in groups, in a radix, with zeros or a plus.
///
/// The call puts it at the front of a slice, and returns how many bytes it takes. `parse_number`
/// reads the text back as the same number by each word that reads such a layout (`IsReadBy`): its
/// radix is that of the layout, and it drops the layout's separator between two digits of an
/// integer. A `+` is read only as a number of a type with a sign. The rest of the slice isn't
/// changed. Without room nothing is written, and the error has the room that is needed.
///
/// ```text
/// `-1234567` by `Layout::decimal().grouped(b',', 3)`: Ok(10), and `out` begins with `-1,234,567`
/// ```
#[inline]
pub fn write_number_by<T: Written>(
    value: T,
    layout: Layout,
    out: &mut [u8],
) -> Result<usize, NoRoom>
    ensures written { IfOk result (λ end. take end out.new ≡ laid_out layout (T.number value)) }
    ensures rest { IfOk result (λ end. drop end out.new ≡ drop end out.old) }
    ensures within { IfOk result (λ end. end ≤ length out.old) }
    ensures reads { (word : ℕ) → IsReadBy word layout T.MIN_MAGNITUDE → IfOk result
        (λ end. Reads word T.MIN_MAGNITUDE T.MAX (T.number value) (take end out.new)) }
    ensures no_room { IfErr result (λ error. length out.old < error.needed) }
    ensures needed { IfErr result
        (λ error. error.needed ≡ length (laid_out layout (T.number value))) }
    ensures unchanged { IfErr result (λ _. out.new ≡ out.old) }
{
    let (is_negative, magnitude) = value.parts();
    put_laid(is_negative, magnitude, T::ROOM, layout, out)
}

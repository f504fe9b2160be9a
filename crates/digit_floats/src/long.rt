//! The digits of a float, written as a text without separators: the first significant ones, one
//! digit for the others, and a power of ten.

ghost use Rattle.std.specs.Prelude.{◌≡◌, ◌≤◌, ◌<◌, ◌+◌, ◌-◌, ◌*◌, ◌^◌, ◌++◌, [], ◌∷◌, ℕ, min, true, false, if◌then◌else◌, take, filter, length};
ghost use Rattle.std.specs.Char.{is_ascii_digit, digit_value};
ghost use Rattle.std.specs.Float.Ieee.{round};
ghost use Rattle.std.specs.Float.Numeral.{text_of};
ghost use Rattle.std.specs.Str.Parse.{digits_value, digits_value_after};
ghost use Rattle.digit_floats.specs.Cut.{room, IsKept, four_digits, cut_parts};

use super::float::{Float, signed};
use super::parts::Power;
use std::str::from_utf8;

/// How many digits are kept. The middle between two floats has at most 1,075 places after the
/// point, and a number of 343 digits before it is above all floats; so 1,418 are enough.
const ROOM: usize = 1420;

/// The first significant digits of a number, at the front of a buffer.
#[derive(Clone, Copy)]
struct Kept {
    /// How many there are.
    len: usize,
    /// How many digits follow them in the number.
    cut: usize,
    /// Whether one of these isn't 0.
    more: bool,
}

/// Keeps one digit more, or cuts it.
#[inline(always)]
fn keep(bytes: &mut [u8], kept: Kept, byte: u8) -> Kept
    requires digit { is_ascii_digit byte ≡ true }
    requires room { room < length bytes.old }
    requires fits { kept.len ≤ room }
    requires few { kept.cut < 2 ^ 64 - 1 }
    ensures keeps { (number : ℕ) → IsKept bytes.old kept number
        → IsKept bytes.new result (number * 10 + digit_value byte) }
    ensures fits { result.len ≤ room }
    ensures few { result.cut ≤ kept.cut + 1 }
    ensures length { length bytes.new ≡ length bytes.old }
{
    if kept.len == ROOM {
        if byte == b'0' {
            return Kept {
                cut: kept.cut + 1,
                ..kept
            };
        }
        return Kept {
            len: kept.len,
            cut: kept.cut + 1,
            more: true,
        };
    }
    if kept.len == 0 {
        if byte == b'0' {
            return kept;
        }
    }
    bytes[kept.len] = byte;
    Kept {
        len: kept.len + 1,
        ..kept
    }
}

/// Keeps the digits of a text, or cuts them.
fn keep_digits(bytes: &mut [u8], kept: Kept, text: &[u8]) -> Kept
    requires room { room < length bytes.old }
    requires fits { kept.len ≤ room }
    requires few { kept.cut + length text.now < 2 ^ 64 }
    ensures keeps { (number : ℕ) → IsKept bytes.old kept number
        → IsKept bytes.new result (digits_value_after 10 number (filter is_ascii_digit text.now)) }
    ensures fits { result.len ≤ room }
    ensures few { result.cut ≤ kept.cut + length text.now }
    ensures length { length bytes.new ≡ length bytes.old }
{
    let mut now = kept;
    for byte in text {
        if byte.is_ascii_digit() {
            now = keep(bytes, now, *byte);
        }
    }
    now
}

/// Keeps the first significant digits of a text and one after it.
fn keep_both(bytes: &mut [u8], whole: &[u8], fraction: &[u8]) -> Kept
    requires room { room < length bytes.old }
    requires few { length whole.now + length fraction.now < 2 ^ 63 }
    ensures keeps { IsKept bytes.new result (digits_value 10
        (filter is_ascii_digit whole.now ++ filter is_ascii_digit fraction.now)) }
    ensures few { result.cut < 2 ^ 63 }
    ensures length { length bytes.new ≡ length bytes.old }
{
    let none = Kept {
        len: 0,
        cut: 0,
        more: false,
    };
    let kept = keep_digits(bytes, none, whole);
    keep_digits(bytes, kept, fraction)
}

/// A power of ten, up or down.
#[derive(Clone, Copy)]
struct Tens {
    up: u64,
    down: u64,
}

/// The power of ten after the kept digits and the one that stands for the others: `places` digits
/// of the number follow its point, and `cut` weren't kept. Beyond 400 and -3,000 it makes no
/// difference.
#[inline(always)]
fn tens_of(places: u64, cut: u64, down: bool, power: u64) -> Tens
    requires places { places < 2 ^ 63 }
    requires cut { cut < 2 ^ 63 }
    ensures most { (result.up ≤ 400) × (result.down ≤ 3000) }
    ensures one { 0 < result.down → result.up ≡ 0 }
    ensures up { (n : ℕ) → power ≡ min n (2 ^ 64 - 1) → result.up ≡ min
        ((if down then 0 else n) + cut - (places + (if down then n else 0) + 1)) 400 }
    ensures down { (n : ℕ) → power ≡ min n (2 ^ 64 - 1) → result.down ≡ min
        (places + (if down then n else 0) + 1 - ((if down then 0 else n) + cut)) 3000 }
{
    let above = if down {
        cut as u128
    } else {
        power as u128 + cut as u128
    };
    let below = places as u128 + 1 + if down { power as u128 } else { 0 };
    if below <= above {
        let up = above - below;
        Tens {
            up: if up < 400 { up as u64 } else { 400 },
            down: 0,
        }
    } else {
        let least = below - above;
        Tens {
            up: 0,
            down: if least < 3000 { least as u64 } else { 3000 },
        }
    }
}

/// Writes a byte after the first `len` bytes.
#[inline(always)]
fn push(bytes: &mut [u8], len: usize, byte: u8) -> usize
    requires { len < length bytes.old }
    ensures end { result ≡ len + 1 }
    ensures written { take result bytes.new ≡ take len bytes.old ++ byte ∷ [] }
    ensures length { length bytes.new ≡ length bytes.old }
{
    bytes[len] = byte;
    len + 1
}

/// Writes a number below 10,000 after the first `len` bytes.
fn push_four(bytes: &mut [u8], len: usize, n: u64) -> usize
    requires few { n < 10000 }
    requires room { len + 4 ≤ length bytes.old }
    ensures end { result ≡ len + 4 }
    ensures written { take result bytes.new ≡ take len bytes.old ++ four_digits n }
    ensures length { length bytes.new ≡ length bytes.old }
{
    let hundreds = n / 10 / 10;
    let len = push(bytes, len, b'0' + (hundreds / 10) as u8);
    let len = push(bytes, len, b'0' + (hundreds % 10) as u8);
    let len = push(bytes, len, b'0' + (n / 10 % 10) as u8);
    push(bytes, len, b'0' + (n % 10) as u8)
}

/// Writes what follows the kept digits.
fn push_tens(bytes: &mut [u8], kept: Kept, tens: Tens) -> usize
    requires most { (tens.up ≤ 400) × (tens.down ≤ 3000) }
    requires room { kept.len + 7 ≤ length bytes.old }
    ensures end { result ≤ length bytes.new }
    ensures written { take result bytes.new
        ≡ text_of (cut_parts (take kept.len bytes.old) kept.more tens.up tens.down) }
{
    let len = push(bytes, kept.len, if kept.more { b'1' } else { b'0' });
    let len = push(bytes, len, b'e');
    if tens.down > 0 {
        let len = push(bytes, len, b'-');
        push_four(bytes, len, tens.down)
    } else {
        push_four(bytes, len, tens.up)
    }
}

/// The float nearest to a number of any length: the digits of two texts, of which the last `places`
/// follow the point, times ten to a power. A text is written for std: the digits that are kept, and
/// a power of ten.
#[cold]
#[inline(never)]
pub fn round_digits<F: Float>(
    negative: bool,
    whole: &[u8],
    fraction: &[u8],
    places: u64,
    power: Power,
) -> F
    requires places { places < 2 ^ 63 }
    requires few { length whole.now + length fraction.now < 2 ^ 63 }
    ensures { (n : ℕ) → power.value ≡ min n (2 ^ 64 - 1) → F.value result ≡ round F.format negative
        (digits_value 10 (filter is_ascii_digit whole.now ++ filter is_ascii_digit fraction.now)
        * 10 ^ (if power.negative then 0 else n))
        (10 ^ (places + (if power.negative then n else 0))) }
{
    let mut bytes = [0u8; ROOM + 7];
    let kept = keep_both(&mut bytes, whole, fraction);
    let tens = tens_of(places, kept.cut as u64, power.negative, power.value);
    let n = push_tens(&mut bytes, kept, tens);
    let text = from_utf8(&bytes[..n]).unwrap();
    let x = F::of_text(text).unwrap();
    signed(negative, x)
}

//! Numbers of hexadecimal digits and a power of two, such as `1.8p3`, and the nearest float.

ghost use Rattle.std.specs.Prelude.{◌≡◌, ◌+◌, ◌-◌, ◌*◌, ◌^◌, ◌<◌, ◌≤◌, ◌++◌, ℕ, min, length, filter, if◌then◌else◌, IsTrue, IfOk, Ok, Err, MatchResult, true, false};
ghost use Rattle.std.specs.Char.{is_ascii_digit, is_ascii_hexdigit, digit_value};
ghost use Rattle.std.specs.Float.{NotNan};
ghost use Rattle.std.specs.Float.Ieee.{round};
ghost use Rattle.std.specs.Str.Parse.{digits_value, digits_value_after};
ghost use Rattle.lexical_format.specs.Word.{is_supported};
ghost use Rattle.lexical_digits.specs.declared.skip.component.Component.TheVariants.{Integer};
ghost use Rattle.digit_floats.specs.Bytes.{stands, is_point};
ghost use Rattle.digit_floats.specs.Float.{digits_from, digits_end, fraction_digits, mantissa_end};
ghost use Rattle.digit_floats.specs.Parts.{exponent_of, IsPower};
ghost use Rattle.digit_floats.specs.Hexadecimal.{IsHexadecimal, IsHexMantissa, IsHexKept, hex_integer_of, hex_fraction_of, nearest_hex, read_hex_at};

use super::binary::round_binary;
use super::error::FloatError;
use super::float::{Float, signed};
use super::parts::{Marks, Power, read_exponent, read_part, read_sign};
use digit_values::has_byte;
use lexical_digits::skip::Component;

/// The hexadecimal digits of integer and fraction, and where they are in their text.
#[derive(Clone, Copy, Debug, PartialEq, Eq)]
pub struct HexMantissa {
    /// How many digits there are, including leading zeros.
    pub digits: usize,
    /// How many of them follow the point.
    pub places: usize,
    /// Where the integer begins: after a sign and a prefix.
    pub start: usize,
    /// Where it ends: here a point is, if any.
    pub whole_end: usize,
    /// Where the fraction begins: after a point, if any.
    pub fraction_start: usize,
    /// Where the fraction ends.
    pub end: usize,
}

/// Reads the hexadecimal digits of integer and fraction from a position on, after a sign and a
/// prefix. There may be none: test `digits`. Requires that the word is supported, that its mantissa
/// is hexadecimal, and its exponent decimal.
#[inline(always)]
#[tactic(auto, unfolding(crate::specs::Float::mantissas))]
pub fn read_hex_mantissa(text: &[u8], word: u128, at: usize, point: u8) -> HexMantissa
    requires supported { IsTrue (is_supported word) }
    requires hexadecimal { IsHexadecimal word }
    requires within { at ≤ length text.now }
    ensures is { IsHexMantissa text.now result }
    ensures integer { hex_integer_of text.now result ≡ digits_from word text.now Integer at }
    ensures fraction { let e = digits_end word text.now Integer at in
        hex_fraction_of text.now result ≡ fraction_digits word text.now point e }
    ensures start { result.start ≡ at }
    ensures whole_end { result.whole_end ≡ digits_end word text.now Integer at }
    ensures fraction_start { let e = digits_end word text.now Integer at in result.fraction_start
        ≡ (if stands (is_point point) text.now e then e + 1 else e) }
    ensures end { result.end ≡ mantissa_end word text.now point at }
{
    let (integer, whole_end) = read_part(text, word, Component::Integer, at, 0);
    if !has_byte(text, whole_end, point) {
        return HexMantissa {
            digits: integer.count,
            places: 0,
            start: at,
            whole_end,
            fraction_start: whole_end,
            end: whole_end,
        };
    }
    let (fraction, end) = read_part(text, word, Component::Fraction, whole_end + 1, 0);
    HexMantissa {
        digits: integer.count + fraction.count,
        places: fraction.count,
        start: at,
        whole_end,
        fraction_start: whole_end + 1,
        end,
    }
}

/// The first digits of a number.
#[derive(Clone, Copy)]
struct HexKept {
    /// Their value: from 2^60 on if digits follow them.
    value: u64,
    /// How many digits follow them.
    cut: u64,
    /// Whether one of these isn't 0.
    more: bool,
}

/// The value of a hexadecimal digit.
fn hex_value(byte: u8) -> u64
    requires { is_ascii_hexdigit byte ≡ true }
    ensures value { result ≡ digit_value byte }
    ensures few { result < 16 }
{
    if byte <= b'9' {
        (byte - b'0') as u64
    } else if byte <= b'F' {
        (byte - b'A') as u64 + 10
    } else {
        (byte - b'a') as u64 + 10
    }
}

/// Keeps one digit more, or cuts it.
fn keep_hex(kept: HexKept, digit: u64) -> HexKept
    requires digit { digit < 16 }
    requires few { kept.cut < 2 ^ 64 - 1 }
    ensures keeps { (number : ℕ) → IsHexKept kept number
        → IsHexKept result (number * 16 + digit) }
    ensures few { result.cut ≤ kept.cut + 1 }
{
    if kept.value < 1 << 60 {
        return HexKept {
            value: kept.value * 16 + digit,
            ..kept
        };
    }
    if digit == 0 {
        return HexKept {
            cut: kept.cut + 1,
            ..kept
        };
    }
    HexKept {
        value: kept.value,
        cut: kept.cut + 1,
        more: true,
    }
}

/// Keeps the digits of a text, or cuts them.
fn keep_hex_digits(kept: HexKept, text: &[u8]) -> HexKept
    requires few { kept.cut + length text.now < 2 ^ 64 }
    ensures keeps { (number : ℕ) → IsHexKept kept number → IsHexKept result
        (digits_value_after 16 number (filter is_ascii_hexdigit text.now)) }
    ensures few { result.cut ≤ kept.cut + length text.now }
{
    let mut now = kept;
    for byte in text {
        if byte.is_ascii_hexdigit() {
            now = keep_hex(now, hex_value(*byte));
        }
    }
    now
}

/// Keeps the first digits of two texts.
fn keep_hex_both(whole: &[u8], fraction: &[u8]) -> HexKept
    requires few { length whole.now + length fraction.now < 2 ^ 63 }
    ensures keeps { IsHexKept result (digits_value 16
        (filter is_ascii_hexdigit whole.now ++ filter is_ascii_hexdigit fraction.now)) }
    ensures few { result.cut ≤ length whole.now + length fraction.now }
{
    let none = HexKept {
        value: 0,
        cut: 0,
        more: false,
    };
    let kept = keep_hex_digits(none, whole);
    keep_hex_digits(kept, fraction)
}

/// The float nearest to a number that is kept, of which the last `places` digits follow the point,
/// times two to `up` over two to `under`.
fn round_kept<F: Float>(kept: HexKept, places: u64, up: u128, under: u128) -> F
    requires powers { (up ≤ 2 ^ 70) × (under ≤ 2 ^ 70) }
    requires full { 0 < kept.cut → 2 ^ 60 ≤ kept.value }
    ensures { (number : ℕ) → IsHexKept kept number → F.value result ≡ round F.format false
        (number * 2 ^ up) (2 ^ (4 * places + under)) }
{
    if kept.value == 0 {
        return F::of_units(0, 0);
    }
    let above = F::least() as u128 + 4 * kept.cut as u128 + up;
    let below = 4 * places as u128 + under;
    if kept.cut == 0 {
        round_binary((kept.value as u128) << 53, false, above, below + 53)
    } else {
        round_binary(kept.value as u128, kept.more, above, below)
    }
}

/// The same times two to a power, of which 2^70 is as good as all greater ones.
fn round_power<F: Float>(kept: HexKept, places: u64, down: bool, power: u128) -> F
    requires power { power ≤ 2 ^ 70 }
    requires full { 0 < kept.cut → 2 ^ 60 ≤ kept.value }
    ensures { (n number : ℕ) → power ≡ min n (2 ^ 70) → IsHexKept kept number
        → F.value result ≡ round F.format false (number * 2 ^ (if down then 0 else n))
        (2 ^ (4 * places + (if down then n else 0))) }
{
    if down {
        round_kept(kept, places, 0, power)
    } else {
        round_kept(kept, places, power, 0)
    }
}

/// The value of the decimal digits of a text, or 2^70 for more.
fn wide_value(text: &[u8]) -> u128
    ensures { result ≡ min (digits_value 10 (filter is_ascii_digit text.now)) (2 ^ 70) }
{
    let mut value: u128 = 0;
    for byte in text {
        if byte.is_ascii_digit() {
            value = (value * 10 + hex_value(*byte) as u128).min(1 << 70);
        }
    }
    value
}

/// The value of an exponent, of which the mark is at a position, or 2^70 for more.
fn wide_power(text: &[u8], at: usize, power: Power) -> u128
    requires { IsPower text.now at power }
    ensures { result ≡ min (digits_value 10 (exponent_of text.now at power)) (2 ^ 70) }
{
    if power.value < u64::MAX {
        return power.value as u128;
    }
    let (_, start) = read_sign(text, at + 1);
    wide_value(&text[start..power.end])
}

/// The float nearest to the number that the hexadecimal digits of integer and fraction and a power
/// of two make, with a sign. `mantissa` and `power` are what [`read_hex_mantissa`] and, from the
/// mantissa's end on, [`read_exponent`](crate::read_exponent) returned of this text.
#[inline(never)]
pub fn round_hex<F: Float>(text: &[u8], negative: bool, mantissa: HexMantissa, power: Power) -> F
    requires mantissa { IsHexMantissa text.now mantissa }
    requires power { IsPower text.now mantissa.end power }
    ensures value { F.value result ≡ nearest_hex F.format negative
        (hex_integer_of text.now mantissa ++ hex_fraction_of text.now mantissa) mantissa.places
        power.negative (digits_value 10 (exponent_of text.now mantissa.end power)) }
    ensures no_nan { NotNan (F.value result) }
{
    let kept = keep_hex_both(
        &text[mantissa.start..mantissa.whole_end],
        &text[mantissa.fraction_start..mantissa.end],
    );
    let value = wide_power(text, mantissa.end, power);
    let x: F = round_power(kept, mantissa.places as u64, power.negative, value);
    signed(negative, x)
}

/// The float of hexadecimal digits that begins at a position of a text, and the position after it:
/// digits with a point before, among or after them, and a power of two in decimal after its mark.
/// `1.8p3` by the marks `.` and `p` is 12.0. A sign and a prefix such as `0x` are before this
/// position; `negative` is the sign. Requires that the word is supported, that its mantissa is
/// hexadecimal, and its exponent decimal.
pub fn read_hex_float_from<F: Float>(
    text: &[u8],
    word: u128,
    marks: Marks,
    negative: bool,
    start: usize,
) -> Result<(F, usize), FloatError>
    requires supported { IsTrue (is_supported word) }
    requires hexadecimal { IsHexadecimal word }
    requires within { start ≤ length text.now }
    ensures reads { MatchResult result
        (λ r. read_hex_at word text.now marks F.format negative start ≡ Ok (F.value r.0, r.1))
        (λ error. read_hex_at word text.now marks F.format negative start ≡ Err error) }
    ensures no_nan { IfOk result (λ r. NotNan (F.value r.0)) }
    ensures onward { IfOk result (λ r. start < r.1) }
    ensures within { IfOk result (λ r. r.1 ≤ length text.now) }
{
    let mantissa = read_hex_mantissa(text, word, start, marks.point);
    if mantissa.digits == 0 {
        return Err(FloatError::Empty(mantissa.end));
    }
    match read_exponent(text, word, mantissa.end, marks.exponent) {
        Ok(power) => {
            let x = round_hex::<F>(text, negative, mantissa, power);
            Ok((x, power.end))
        }
        Err(stop) => Err(FloatError::EmptyExponent(stop)),
    }
}

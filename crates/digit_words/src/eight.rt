//! Eight decimal digits at a time: one load, one test and three multiplications.

ghost use Rattle.std.specs.Prelude.{◌≡◌, ℕ, ◌+◌, ◌-◌, ◌*◌, ◌/◌, ◌^◌, ◌<◌, ◌≤◌, length, slice_index, true, None, Some, IfSome};
ghost use Rattle.std.specs.Int.{trailing_zeros, w64};
ghost use Rattle.digit_words.specs.Eight.{AreBelow, byte_of, padded, spelt, number_of, written, AreDecimal, AreDigits, IsWritten};

use super::powers::small_ten_to;

/// What of eight bytes, each less `0`, is no decimal digit: 0 if all are digits; otherwise its
/// lowest bit is in the first byte that is none.
#[inline(always)]
fn others_of(digits: u64) -> u64
    ensures none { result ≡ 0 → AreBelow 10 8 digits }
    ensures first { 0 < result → (i : ℕ) → i < trailing_zeros w64 result / 8
        → byte_of digits i < 10 }
{
    // no sum carries into the next byte, up to the first other byte
    let low = digits & 0x8080_8080_8080_8080;
    let high = digits.wrapping_add(0x7676_7676_7676_7676) & 0x8080_8080_8080_8080;
    low | high
}

/// The digits of eight bytes, the first in the lowest byte, if all are decimal.
#[inline(always)]
pub fn digits_of(word: u64) -> Option<u64>
    ensures below { IfSome result (AreBelow 10 8) }
    ensures is { IfSome result (λ digits. word ≡ digits + 0x3030_3030_3030_3030) }
{
    let digits = word.wrapping_sub(0x3030_3030_3030_3030);
    if others_of(digits) == 0 {
        Some(digits)
    } else {
        None
    }
}

/// The number that eight digits write, the first in the lowest byte.
#[inline(always)]
pub fn value_of(digits: u64) -> u64
    requires { AreBelow 10 8 digits }
    ensures is { result ≡ number_of (byte_of digits) }
    ensures below { result < 10 ^ 8 }
{
    let pairs = digits.wrapping_mul(10).wrapping_add(digits >> 8);
    let first = (pairs & 0x0000_00ff_0000_00ff).wrapping_mul(100 + (1_000_000 << 32));
    let second = ((pairs >> 16) & 0x0000_00ff_0000_00ff).wrapping_mul(1 + (10_000 << 32));
    first.wrapping_add(second) >> 32
}

/// The number that the last of eight digits write.
#[inline(always)]
fn last_of(digits: u64, count: u32) -> u64
    requires below { AreBelow 10 8 digits }
    requires some { 0 < count }
    requires few { count < 8 }
    ensures is { result ≡ written (λ i. byte_of digits (8 - count + i)) count }
    ensures below { result < 10 ^ 8 }
{
    let others = 64 - 8 * count;
    value_of((digits >> others) << others)
}

/// The eight bytes from a position on as a word, the first in the lowest byte.
#[inline(always)]
pub fn word_at(text: &[u8], at: usize) -> u64
    requires { at + 8 ≤ length text.now }
    ensures { result ≡ spelt 8 (λ i. slice_index text.now (at + i)) }
{
    // a compiler makes one load of these
    u64::from_le_bytes([
        text[at],
        text[at + 1],
        text[at + 2],
        text[at + 3],
        text[at + 4],
        text[at + 5],
        text[at + 6],
        text[at + 7],
    ])
}

/// The four bytes from a position on as a word, the first in the lowest byte.
#[inline(always)]
pub fn four_at(text: &[u8], at: usize) -> u32
    requires { at + 4 ≤ length text.now }
    ensures { result ≡ spelt 4 (λ i. slice_index text.now (at + i)) }
{
    // a compiler makes one load of these
    u32::from_le_bytes([text[at], text[at + 1], text[at + 2], text[at + 3]])
}

/// Eight bytes as a word, the first in the lowest byte: a text of five to seven, and a `0` for each
/// missing one before it. Two loads take the text, which have bytes in common.
#[inline(always)]
fn filled_word(text: &[u8]) -> u64
    requires some { 5 ≤ length text.now }
    requires few { length text.now < 8 }
    ensures { result ≡ spelt 8 (padded (8 - length text.now) (slice_index text.now)) }
{
    let bits_before = 64 - 8 * text.len();
    let first = (four_at(text, 0) << bits_before) + (0x0030_3030 >> (24 - bits_before));
    let last = four_at(text, text.len() - 4);
    u64::from(first) + (u64::from(last) << 32)
}

/// The digits of the eight bytes from a position on, if all are decimal.
#[inline(always)]
fn digits_at(text: &[u8], at: usize) -> Option<u64>
    requires { at + 8 ≤ length text.now }
    ensures { IfSome result (AreDigits text.now at) }
{
    digits_of(word_at(text, at))
}

/// The number that the eight bytes from a position on write, if they are digits.
#[inline(always)]
fn eight_from(text: &[u8], at: usize) -> Option<u64>
    requires { at + 8 ≤ length text.now }
    ensures is { IfSome result (IsWritten text.now at 8) }
    ensures few { IfSome result (λ value. value < 10 ^ 8) }
{
    Some(value_of(digits_at(text, at)?))
}

/// [`eight_from`], if eight bytes are there.
#[inline]
pub fn eight_at(text: &[u8], at: usize) -> Option<u64>
    requires { at ≤ length text.now }
    ensures { IfSome result (IsWritten text.now at 8) }
{
    if text.len() - at < 8 {
        return None;
    }
    eight_from(text, at)
}

/// The number that the first of eight digits write, whatever the others are.
#[inline(always)]
fn first_of(digits: u64, count: u32) -> u64
    requires few { count < 8 }
    requires below { (i : ℕ) → i < count → byte_of digits i < 10 }
    ensures is { result ≡ written (byte_of digits) count }
    ensures below { result < 10 ^ 8 }
{
    // a shift by 8 first, since there may be none
    value_of((digits << 8) << (56 - 8 * count))
}

/// The number that the first of eight digits write, whatever the others are. There is one at least.
#[inline(always)]
fn one_to_eight_of(digits: u64, count: u32) -> u64
    requires some { 0 < count }
    requires few { count ≤ 8 }
    requires below { (i : ℕ) → i < count → byte_of digits i < 10 }
    ensures is { result ≡ written (byte_of digits) count }
    ensures below { result < 10 ^ 8 }
{
    value_of(digits << (64 - 8 * count))
}

/// The number that so many decimal digits write, from 1 to 8.
#[inline(always)]
pub fn one_to_eight_at(text: &[u8], at: usize, count: usize) -> u64
    requires within { at + 8 ≤ length text.now }
    requires some { 0 < count }
    requires few { count ≤ 8 }
    requires digits { AreDecimal text.now at count }
    ensures is { IsWritten text.now at count result }
    ensures below { result < 10 ^ 8 }
{
    let digits = word_at(text, at).wrapping_sub(0x3030_3030_3030_3030);
    one_to_eight_of(digits, count as u32)
}

/// The decimal digits that eight bytes begin with.
#[derive(Clone, Copy)]
pub struct Front {
    /// The number that they write.
    pub value: u64,
    /// How many there are.
    pub count: usize,
}

/// The decimal digits that the eight bytes from a position on begin with. If one of the bytes is no
/// digit, no branch depends on how many digits are before it.
#[inline]
pub fn front_at(text: &[u8], at: usize) -> Front
    requires { at + 8 ≤ length text.now }
    ensures is { IsWritten text.now at result.count result.value }
    ensures few { result.count ≤ 8 }
    ensures below { result.value < 10 ^ 8 }
{
    let digits = word_at(text, at).wrapping_sub(0x3030_3030_3030_3030);
    let others = others_of(digits);
    if others == 0 {
        return Front {
            value: value_of(digits),
            count: 8,
        };
    }
    let count = others.trailing_zeros() / 8;
    Front {
        value: first_of(digits, count),
        count: count as usize,
    }
}

/// The number that a few digits and those after them write.
#[inline(always)]
pub fn join(value: u64, next: Front) -> u64
    requires first { value < 10 ^ 8 }
    requires few { next.count ≤ 8 }
    requires next { next.value < 10 ^ 8 }
    ensures is { result ≡ value * 10 ^ next.count + next.value }
    ensures below { result < 10 ^ 16 }
{
    value * small_ten_to(next.count) + next.value
}

/// The number that so many decimal digits write, from 9 to 16.
#[inline(always)]
fn nine_to_sixteen_at(text: &[u8], at: usize, count: usize) -> u64
    requires within { at + 16 ≤ length text.now }
    requires more { 8 < count }
    requires few { count ≤ 16 }
    requires digits { AreDecimal text.now at count }
    ensures is { IsWritten text.now at count result }
    ensures below { result < 10 ^ 16 }
{
    let first = one_to_eight_at(text, at, 8);
    let rest = count - 8;
    let value = one_to_eight_at(text, at + 8, rest);
    join(first, Front { value, count: rest })
}

/// The number that so many decimal digits write, from 1 to 19. No branch but those by eight and
/// sixteen depends on how many there are.
#[inline(always)]
pub fn value_at(text: &[u8], at: usize, count: usize) -> u64
    requires within { at + 24 ≤ length text.now }
    requires some { 0 < count }
    requires few { count ≤ 19 }
    requires digits { AreDecimal text.now at count }
    ensures is { IsWritten text.now at count result }
    ensures eight { count ≤ 8 → result < 10 ^ 8 }
    ensures sixteen { count ≤ 16 → result < 10 ^ 16 }
{
    if count <= 8 {
        return one_to_eight_at(text, at, count);
    }
    if count <= 16 {
        return nine_to_sixteen_at(text, at, count);
    }
    let first = nine_to_sixteen_at(text, at, 16);
    let rest = count - 16;
    first * small_ten_to(rest) + one_to_eight_at(text, at + 16, rest)
}

/// The number that a text of one to seven bytes is, if all are decimal digits. It is only for
/// speed, of `parse_number` (the rows `u: 1 to 4 digits`).
#[inline(always)]
pub fn read_one_to_seven(text: &[u8]) -> Option<u64>
    requires { length text.now < 8 }
    ensures some { IfSome result (λ _. 0 < length text.now) }
    ensures written { IfSome result (IsWritten text.now 0 (length text.now)) }
    ensures few { IfSome result (λ value. value < 10 ^ 7) }
{
    if text.is_empty() {
        return None;
    }
    let mut value = 0;
    // a compiler writes a loop out whose turns are counted
    for at in 0..7 {
        let digit = u64::from(text[at]).wrapping_sub(u64::from(b'0'));
        if digit > 9 {
            return None;
        }
        value = value * 10 + digit;
        if at + 1 == text.len() {
            return Some(value);
        }
    }
    None
}

/// A number that a text is from a position on to its end.
#[derive(Clone, Copy)]
pub struct Whole {
    /// The number, if there is one.
    pub value: u64,
    /// Whether there is one: all bytes are decimal digits, and it fits.
    pub is_whole: bool,
}

/// No number.
pub const NONE: Whole = Whole {
    value: 0,
    is_whole: false,
};

/// The number that a text is: `value`, and then the digits from `at` on.
#[inline(always)]
fn end_whole(text: &[u8], at: usize, value: u64) -> Whole
    requires some { 8 ≤ at }
    requires within { at ≤ length text.now }
    requires few { length text.now < at + 8 }
    requires below { at ≡ 8 → value < 10 ^ 8 }
    requires written { IsWritten text.now 0 at value }
    ensures { result.is_whole ≡ true → IsWritten text.now 0 (length text.now) result.value }
{
    let count = text.len() - at;
    if count == 0 {
        return Whole {
            value,
            is_whole: true,
        };
    }
    let Some(digits) = digits_at(text, text.len() - 8) else {
        return NONE;
    };
    let next = last_of(digits, count as u32);
    let scale = small_ten_to(count);
    // at most fifteen digits; the call says which it is, so no test is left
    if at == 8 {
        return Whole {
            value: value * scale + next,
            is_whole: true,
        };
    }
    // in 128 bits, since a compiler doesn't know how large a number of the table is
    let all = u128::from(value) * u128::from(scale) + u128::from(next);
    if all > u128::from(u64::MAX) {
        return NONE;
    }
    Whole {
        value: all as u64,
        is_whole: true,
    }
}

/// The number that a text of five to seven bytes is. No branch depends on how many there are.
#[inline(always)]
pub fn read_five_to_seven(text: &[u8]) -> Whole
    requires some { 5 ≤ length text.now }
    requires few { length text.now < 8 }
    ensures { result.is_whole ≡ true → IsWritten text.now 0 (length text.now) result.value }
{
    match digits_of(filled_word(text)) {
        Some(digits) => Whole {
            value: value_of(digits),
            is_whole: true,
        },
        None => NONE,
    }
}

/// The number that a text of at least 8 bytes is.
#[inline(never)]
pub fn read_whole(text: &[u8]) -> Whole
    requires { 8 ≤ length text.now }
    ensures { result.is_whole ≡ true → IsWritten text.now 0 (length text.now) result.value }
{
    let Some(first) = eight_from(text, 0) else {
        return NONE;
    };
    if text.len() < 16 {
        return end_whole(text, 8, first);
    }
    let Some(second) = eight_from(text, 8) else {
        return NONE;
    };
    let value = first * 100_000_000 + second;
    if text.len() == 16 {
        return Whole {
            value,
            is_whole: true,
        };
    }
    if text.len() > 20 {
        return NONE;
    }
    end_whole(text, 16, value)
}

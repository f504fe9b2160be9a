//! Bytes of a text: what a parser asks between two numbers.

ghost use Rattle.std.specs.Prelude.{◌≡◌, ◌+◌, ◌<◌, ◌≤◌, true, length, map, take_while, slice_get, IfOk, IfErr, IfSome};
ghost use Rattle.std.specs.List.{range_with_len};
ghost use Rattle.lexical_digits.specs.ByteSet.{accepts};
ghost use Rattle.lexical_digits.specs.Cursor.{holds_of};
ghost use Rattle.digit_values.specs.Bytes.{has_byte};
ghost use Rattle.digit_values.specs.Bytes.{expect_byte, expect_bytes, has_bytes, is_name_byte, name_end, past_bytes};

use lexical_digits::ops::ByteSet;

/// Space, tab, line feed and carriage return: the blanks of JSON. [`past_bytes`] passes them.
pub const BLANKS: ByteSet = ByteSet {
    low: (1 << 9) | (1 << 10) | (1 << 13) | (1 << 32),
    high: 0,
};

/// Returns the byte at a position, if the text has one there.
#[inline(always)]
pub fn byte_at(text: &[u8], at: usize) -> Option<u8>
    ensures is { result ≡ slice_get text.now at }
    ensures within { IfSome result (λ _. at < length text.now) }
{
    text.get(at).copied()
}

/// Tests whether a byte is at a position.
#[inline(always)]
pub fn has_byte(text: &[u8], at: usize, byte: u8) -> bool
    ensures is { result ≡ has_byte text.now at byte }
    ensures within { result ≡ true → at < length text.now }
{
    match text.get(at) {
        Some(there) => *there == byte,
        None => false,
    }
}

/// Returns the position after `byte`, if `byte` is at `at`. Otherwise the error is `at`: write
/// `expect_byte(text, at, b',').map_err(MyError::NoComma)?`.
#[inline(always)]
pub fn expect_byte(text: &[u8], at: usize, byte: u8) -> Result<usize, usize>
    ensures is { result ≡ expect_byte text.now at byte }
    ensures next { IfOk result (λ next. next ≡ at + 1) }
    ensures within { IfOk result (λ next. next ≤ length text.now) }
    ensures at { IfErr result (λ fault. fault ≡ at) }
{
    if has_byte(text, at, byte) {
        Ok(at + 1)
    } else {
        Err(at)
    }
}

/// Tests whether bytes begin at a position. Requires that the position is within the text.
///
/// ```text
/// `10 EUR`, `EUR` at 3: true
/// ```
#[inline(always)]
pub fn has_bytes(text: &[u8], at: usize, bytes: &[u8]) -> bool
    requires { at ≤ length text.now }
    ensures is { result ≡ has_bytes text.now at bytes.now }
    ensures within { result ≡ true → at + length bytes.now ≤ length text.now }
{
    text[at..].starts_with(bytes)
}

/// Returns the position after `bytes`, if they begin at `at`. Otherwise the error is `at`: write
/// `expect_bytes(text, at, b"id=").map_err(MyError::NoId)?`. Requires that the position is within
/// the text.
#[inline(always)]
pub fn expect_bytes(text: &[u8], at: usize, bytes: &[u8]) -> Result<usize, usize>
    requires { at ≤ length text.now }
    ensures is { result ≡ expect_bytes text.now at bytes.now }
    ensures next { IfOk result (λ next. next ≡ at + length bytes.now) }
    ensures within { IfOk result (λ next. next ≤ length text.now) }
    ensures at { IfErr result (λ fault. fault ≡ at) }
{
    if !has_bytes(text, at, bytes) {
        return Err(at);
    }
    Ok(at + bytes.len())
}

/// Whether a set has a byte. For one below 64, as digits, blanks and most marks are, 64 bits are
/// enough.
#[inline(always)]
#[tactic(auto, using(crate::proofs::Bits::low_bit))]
pub fn accepts(set: ByteSet, byte: u8) -> bool
    ensures { result ≡ accepts set byte }
{
    if byte < 64 {
        let low = (set.low % (1 << 64)) as u64;
        (low >> byte) % 2 == 1
    } else {
        set.accepts(byte)
    }
}

/// Whether a byte of a set is at a position.
#[inline(always)]
fn has_any(text: &[u8], at: usize, set: ByteSet) -> bool
    ensures is { result ≡ holds_of (accepts set) (slice_get text.now at) }
    ensures within { result ≡ true → at < length text.now }
{
    match text.get(at) {
        Some(byte) => accepts(set, *byte),
        None => false,
    }
}

/// How many bytes of a set a text begins with.
#[inline(always)]
fn count_bytes(text: &[u8], set: ByteSet) -> usize
    ensures is { result ≡ length (take_while (accepts set) text.now) }
    ensures within { result ≤ length text.now }
{
    text.iter().take_while(|byte| accepts(set, **byte)).count()
}

/// Returns the first position at or after `at` whose byte isn't in `set`, or the end of the text.
/// Requires that the position is within the text.
///
/// ```text
/// `1, \t2`, BLANKS from 2: 4
/// ```
#[inline(always)]
#[tactic(auto, using(crate::proofs::Passing::passing), unfolding(crate::specs::Bytes::past_bytes))]
pub fn past_bytes(text: &[u8], at: usize, set: ByteSet) -> usize
    requires { at ≤ length text.now }
    ensures is { result ≡ past_bytes text.now at set }
    ensures onward { at ≤ result }
    ensures within { result ≤ length text.now }
{
    // most often none is here, or one: neither takes a loop
    if !has_any(text, at, set) {
        return at;
    }
    let next = at + 1;
    if !has_any(text, next, set) {
        return next;
    }
    let rest = next + 1;
    rest + count_bytes(&text[rest..], set)
}

/// Whether each byte may be part of a name. A load takes no branch between letters, digits and
/// other bytes, which a processor could not predict.
#[rattlefmt::skip]
static NAME_BYTES: [bool; 256] = [
    false, false, false, false, false, false, false, false, // 0x00
    false, false, false, false, false, false, false, false, // 0x08
    false, false, false, false, false, false, false, false, // 0x10
    false, false, false, false, false, false, false, false, // 0x18
    false, false, false, false, false, false, false, false, // 0x20
    false, false, false, false, false, false, false, false, // 0x28
    true,  true,  true,  true,  true,  true,  true,  true, // 0x30
    true,  true,  false, false, false, false, false, false, // 0x38
    false, true,  true,  true,  true,  true,  true,  true, // 0x40
    true,  true,  true,  true,  true,  true,  true,  true, // 0x48
    true,  true,  true,  true,  true,  true,  true,  true, // 0x50
    true,  true,  true,  false, false, false, false, true, // 0x58
    false, true,  true,  true,  true,  true,  true,  true, // 0x60
    true,  true,  true,  true,  true,  true,  true,  true, // 0x68
    true,  true,  true,  true,  true,  true,  true,  true, // 0x70
    true,  true,  true,  false, false, false, false, false, // 0x78
    true,  true,  true,  true,  true,  true,  true,  true, // 0x80
    true,  true,  true,  true,  true,  true,  true,  true, // 0x88
    true,  true,  true,  true,  true,  true,  true,  true, // 0x90
    true,  true,  true,  true,  true,  true,  true,  true, // 0x98
    true,  true,  true,  true,  true,  true,  true,  true, // 0xa0
    true,  true,  true,  true,  true,  true,  true,  true, // 0xa8
    true,  true,  true,  true,  true,  true,  true,  true, // 0xb0
    true,  true,  true,  true,  true,  true,  true,  true, // 0xb8
    true,  true,  true,  true,  true,  true,  true,  true, // 0xc0
    true,  true,  true,  true,  true,  true,  true,  true, // 0xc8
    true,  true,  true,  true,  true,  true,  true,  true, // 0xd0
    true,  true,  true,  true,  true,  true,  true,  true, // 0xd8
    true,  true,  true,  true,  true,  true,  true,  true, // 0xe0
    true,  true,  true,  true,  true,  true,  true,  true, // 0xe8
    true,  true,  true,  true,  true,  true,  true,  true, // 0xf0
    true,  true,  true,  true,  true,  true,  true,  true, // 0xf8
];

/// The table of the bytes of names, with one entry for each byte.
#[inline(always)]
fn name_bytes() -> &'static [bool; 256]
    ensures { result.now ≡ map is_name_byte (range_with_len 0 256) }
{
    &NAME_BYTES
}

/// Whether a byte may be part of a name: an ASCII letter or digit, `_`, or a byte above ASCII.
#[inline(always)]
fn is_name_byte(byte: u8) -> bool
    ensures { result ≡ is_name_byte byte }
{
    name_bytes()[usize::from(byte)]
}

/// How many bytes of a name a text begins with.
#[inline(always)]
fn count_name_bytes(text: &[u8]) -> usize
    ensures is { result ≡ length (take_while is_name_byte text.now) }
    ensures within { result ≤ length text.now }
{
    text.iter().take_while(|byte| is_name_byte(**byte)).count()
}

/// Returns where the name at `at` ends: ASCII letters and digits, `_`, and bytes above ASCII. After
/// a number it is the suffix, `&text[end..name_end(text, end)]`. No name follows the number if
/// `name_end(text, end) == end`.
///
/// A position after the end of the text is returned itself.
///
/// ```text
/// `1.5f;` from 3: 4      `10px` from 2: 4      `10 px` from 2: 2
/// ```
#[inline(always)]
#[tactic(auto, unfolding(crate::specs::Bytes::name_end))]
pub fn name_end(text: &[u8], at: usize) -> usize
    ensures is { result ≡ name_end text.now at }
    ensures onward { at ≤ result }
    ensures within { at ≤ length text.now → result ≤ length text.now }
{
    if at < text.len() {
        at + count_name_bytes(&text[at..])
    } else {
        at
    }
}

//! The loops that are measured, over any iterator of digits. Each kind of word has its own code of
//! them, as the loops in a caller's own function have.

ghost use Rattle.std.specs.Iterator.{IsFinite};

use super::format::Format;
use lexical_digits::iterator::DigitsIter;

/// The sum of the bytes that `next` answers.
#[inline(always)]
pub fn sum<'a, F: Format, I: DigitsIter<'a>>(iter: &mut I, _format: F) -> u64
    requires ends { IsFinite (I.remaining iter.old) }
{
    let mut sum: u64 = 0;
    while let Some(byte) = iter.next() {
        sum = sum.wrapping_add(*byte as u64);
    }
    sum
}

/// The number with one digit more.
#[inline(always)]
pub fn with_digit(number: u64, byte: u8) -> u64 {
    number.wrapping_mul(10).wrapping_add(byte as u64)
}

/// The bytes that `next` answers as the digits of a number, the last one lowest: each step waits
/// for the one before.
#[inline(always)]
pub fn number<'a, F: Format, I: DigitsIter<'a>>(iter: &mut I, _format: F) -> u64
    requires ends { IsFinite (I.remaining iter.old) }
{
    let mut number: u64 = 0;
    while let Some(byte) = iter.next() {
        number = with_digit(number, *byte);
    }
    number
}

/// The same number, by `peek` and then `next` for each byte.
#[inline(always)]
pub fn peeked_number<'a, F: Format, I: DigitsIter<'a>>(iter: &mut I, _format: F) -> u64 {
    let mut number: u64 = 0;
    while let Some(byte) = iter.peek() {
        number = with_digit(number, *byte);
        iter.next();
    }
    number
}

/// The number that the digits make which come next, by `peek`, `is_digit` and `next`. The byte
/// that ends them is not taken.
#[inline(always)]
pub fn stopped_number<'a, F: Format, I: DigitsIter<'a>>(iter: &mut I, _format: F) -> u64 {
    let mut number: u64 = 0;
    while let Some(byte) = iter.peek() {
        if !iter.is_digit(*byte) {
            break;
        }
        number = with_digit(number, *byte);
        iter.next();
    }
    number
}

/// The number that the digits make which come next, by `next`. The byte that ends them is taken
/// too.
#[inline(always)]
pub fn leading_number<'a, F: Format, I: DigitsIter<'a>>(iter: &mut I, _format: F) -> u64
    requires ends { IsFinite (I.remaining iter.old) }
{
    let mut number: u64 = 0;
    while let Some(byte) = iter.next() {
        if !iter.is_digit(*byte) {
            break;
        }
        number = with_digit(number, *byte);
    }
    number
}

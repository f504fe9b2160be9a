//! Three decimal digits at a time: one load and one test.

ghost use Rattle.std.specs.Prelude.{◌≡◌, ◌+◌, ◌-◌, ◌/◌, ◌<◌, ◌≤◌, length, true, Some, IfSome};
ghost use Rattle.digit_words.specs.Eight.{byte_of, written, IsWritten};
ghost use Rattle.digit_words.specs.Three.{AreThree};

use super::eight::four_at;

/// Whether the lowest byte of a word is 0 and the three others are below ten.
#[inline(always)]
pub fn are_three(digits: u32) -> bool
    ensures { result ≡ true → AreThree digits }
{
    // no sum carries into the next byte, where the first test holds
    let low = digits & 0x8080_8080;
    let high = digits.wrapping_add(0x7676_767f) & 0x8080_8080;
    low | high == 0
}

/// The number that three digits write, the first in the second byte.
#[inline(always)]
pub fn value_of_three(digits: u32) -> u64
    requires { AreThree digits }
    ensures { result ≡ written (byte_of (digits / 256)) 3 }
{
    let pairs = digits.wrapping_mul(10).wrapping_add(digits >> 8);
    u64::from((pairs >> 8) % 256 * 10 + (digits >> 24))
}

/// The number that one to three bytes from a position on write, if they are digits. The load takes
/// the bytes after them too, and the shift drops these.
#[inline(always)]
pub fn head_at(text: &[u8], start: usize, count: usize) -> Option<u64>
    requires some { 0 < count }
    requires few { count < 4 }
    requires within { start + 4 ≤ length text.now }
    ensures { IfSome result (IsWritten text.now start count) }
{
    let others = 32 - 8 * count as u32;
    let digits = four_at(text, start).wrapping_sub(0x3030_3030) << others;
    if are_three(digits) {
        Some(value_of_three(digits))
    } else {
        None
    }
}

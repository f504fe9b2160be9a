//! Eight hexadecimal digits at a time: one test and three multiplications.

ghost use Rattle.std.specs.Prelude.{◌≡◌, ◌^◌, ◌<◌, ◌≤◌, IfSome};
ghost use Rattle.digit_words.specs.Eight.{AreBelow, byte_of};
ghost use Rattle.digit_words.specs.Hexadecimal.{AreSpelt, hexadecimal};

/// The digits of eight bytes, the first in the lowest byte, if all are of radix 16.
#[inline(always)]
pub fn digits_of(word: u64) -> Option<u64>
    ensures below { IfSome result (AreBelow 16 8) }
    ensures is { IfSome result (AreSpelt 8 word) }
{
    let letters = (word >> 6) & 0x0101_0101_0101_0101;
    let digits = word.wrapping_add(letters.wrapping_mul(9)) & 0x0f0f_0f0f_0f0f_0f0f;
    // the bytes that these digits have, in the case of the letters there
    let above_nine = (digits.wrapping_add(0x0606_0606_0606_0606) >> 4) & 0x0101_0101_0101_0101;
    let small = above_nine & (word >> 5);
    let bytes = digits
        .wrapping_add(0x3030_3030_3030_3030)
        .wrapping_add(above_nine.wrapping_mul(7))
        .wrapping_add(small.wrapping_mul(32));
    if bytes == word { Some(digits) } else { None }
}

/// The number that eight digits write, the first in the lowest byte.
#[inline(always)]
pub fn value_of(digits: u64) -> u64
    requires { AreBelow 16 8 digits }
    ensures { result ≡ hexadecimal (byte_of digits) 8 }
{
    let pairs = digits.wrapping_mul(16).wrapping_add(digits >> 8);
    let first = (pairs & 0x0000_00ff_0000_00ff).wrapping_mul(0x0100_0000_0000_0100);
    let second = ((pairs >> 16) & 0x0000_00ff_0000_00ff).wrapping_mul(0x0001_0000_0000_0001);
    first.wrapping_add(second) >> 32
}

/// 16 to the power of at most 8.
#[inline(always)]
pub fn sixteen_to(count: usize) -> u64
    requires { count ≤ 8 }
    ensures { result ≡ 16 ^ count }
{
    1 << (4 * count)
}

//! The bytes that are digits, and their values.

ghost use Rattle.std.specs.Prelude.{◌≡◌, map, unwrap_or};
ghost use Rattle.std.specs.List.{range_with_len};
ghost use Rattle.lexical_format.specs.Digits.{digit_value, digit_of_radix, is_digit_of_radix};

/// The value of each byte as a digit, and 36 where it has none. A load takes no branch between
/// figures and letters, which a processor could not predict.
#[rattlefmt::skip]
static VALUES: [u8; 256] = [
    36, 36, 36, 36, 36, 36, 36, 36, 36, 36, 36, 36, 36, 36, 36, 36, // 0x00
    36, 36, 36, 36, 36, 36, 36, 36, 36, 36, 36, 36, 36, 36, 36, 36, // 0x10
    36, 36, 36, 36, 36, 36, 36, 36, 36, 36, 36, 36, 36, 36, 36, 36, // 0x20
     0,  1,  2,  3,  4,  5,  6,  7,  8,  9, 36, 36, 36, 36, 36, 36, // 0x30: 0 to 9
    36, 10, 11, 12, 13, 14, 15, 16, 17, 18, 19, 20, 21, 22, 23, 24, // 0x40: A to O
    25, 26, 27, 28, 29, 30, 31, 32, 33, 34, 35, 36, 36, 36, 36, 36, // 0x50: P to Z
    36, 10, 11, 12, 13, 14, 15, 16, 17, 18, 19, 20, 21, 22, 23, 24, // 0x60: a to o
    25, 26, 27, 28, 29, 30, 31, 32, 33, 34, 35, 36, 36, 36, 36, 36, // 0x70: p to z
    36, 36, 36, 36, 36, 36, 36, 36, 36, 36, 36, 36, 36, 36, 36, 36, // 0x80
    36, 36, 36, 36, 36, 36, 36, 36, 36, 36, 36, 36, 36, 36, 36, 36, // 0x90
    36, 36, 36, 36, 36, 36, 36, 36, 36, 36, 36, 36, 36, 36, 36, 36, // 0xa0
    36, 36, 36, 36, 36, 36, 36, 36, 36, 36, 36, 36, 36, 36, 36, 36, // 0xb0
    36, 36, 36, 36, 36, 36, 36, 36, 36, 36, 36, 36, 36, 36, 36, 36, // 0xc0
    36, 36, 36, 36, 36, 36, 36, 36, 36, 36, 36, 36, 36, 36, 36, 36, // 0xd0
    36, 36, 36, 36, 36, 36, 36, 36, 36, 36, 36, 36, 36, 36, 36, 36, // 0xe0
    36, 36, 36, 36, 36, 36, 36, 36, 36, 36, 36, 36, 36, 36, 36, 36, // 0xf0
];

/// The table of values, with one entry for each byte.
#[inline(always)]
#[tactic(auto, unfolding(crate::specs::Digits::digit_value))]
fn values() -> &'static [u8; 256]
    ensures { result.now ≡ map (λ byte. unwrap_or (digit_value byte) 36) (range_with_len 0 256) }
{
    &VALUES
}

/// The value of the byte as a digit of any radix, and 36 where it has none.
///
/// `0` to `9` have the values 0 to 9, letters of either case 10 to 35. The byte is a digit of a
/// radix up to 36 if the answer is below that radix. lexical-util has no such call.
#[inline(always)]
pub fn digit_value(byte: u8) -> u8
    ensures { result ≡ unwrap_or (digit_value byte) 36 }
{
    values()[usize::from(byte)]
}

/// The value of the byte as a digit of that radix.
///
/// `0` to `9` have the values 0 to 9, letters of either case 10 to 35. The answer is `None` for
/// every other byte, and for a value that isn't below the radix. Every radix is allowed: 0 has no
/// digits, and one above 36 has the digits of 36.
#[inline(always)]
#[tactic(auto, unfolding(crate::specs::Digits::digit_value))]
pub fn char_to_digit_const(value: u8, radix: u32) -> Option<u32>
    ensures { result ≡ digit_of_radix radix value }
{
    // a figure of radix 10 takes no load
    let digit = if radix == 10 {
        value.wrapping_sub(b'0')
    } else {
        digit_value(value)
    };
    let digit = u32::from(digit);
    if digit < radix.min(36) {
        Some(digit)
    } else {
        None
    }
}

/// Whether [`char_to_digit_const`] answers a value.
#[inline(always)]
#[tactic(auto, unfolding(crate::specs::Digits::digit_value))]
pub fn char_is_digit_const(value: u8, radix: u32) -> bool
    ensures { result ≡ is_digit_of_radix radix value }
{
    u32::from(digit_value(value)) < radix.min(36)
}

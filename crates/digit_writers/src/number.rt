//! The shortest text of an integer.

ghost use Rattle.std.specs.Prelude.{◌≡◌, ℕ, ◌+◌, ◌≤◌, ◌<◌, ◌++◌, length, take, drop, decimal};
ghost use Rattle.std.specs.Fmt.{sign_text, signed_decimal};
ghost use Rattle.std.specs.List.{splice};
ghost use Rattle.digit_writers.specs.Written.{IsOfRadix, Reads, IsShortest};

use super::types::Written;
use super::wide::put_number;

/// Writes a number with its sign at the front of a slice, and answers its length.
#[inline(always)]
fn put_signed(is_negative: bool, magnitude: u128, out: &mut [u8]) -> usize
    requires room { length (sign_text is_negative ++ decimal magnitude) ≤ length out.old }
    ensures end { result ≡ length (sign_text is_negative ++ decimal magnitude) }
    ensures written { let text = sign_text is_negative ++ decimal magnitude in
        out.new ≡ splice out.old 0 result text }
{
    if is_negative {
        out[0] = b'-';
        return put_number(magnitude, out, 1);
    }
    put_number(magnitude, out, 0)
}

/// Writes an integer in decimal. `parse_number` reads it back. Requires room for any number of the
/// type.
///
/// It is the shortest text, at the front of a slice, which `parse_number` reads back as the same
/// number by each word of radix 10. The call returns how many bytes it takes. The rest of the slice
/// isn't changed.
///
/// ```text
/// `write_number(-128i8, &mut out)`: 4, and `out` begins with `-128`
/// ```
#[inline]
pub fn write_number<T: Written>(value: T, out: &mut [u8]) -> usize
    requires { T.ROOM ≤ length out.old }
    ensures written { take result out.new ≡ signed_decimal (T.number value) }
    ensures rest { drop result out.new ≡ drop result out.old }
    ensures within { result ≤ T.ROOM }
    ensures reads { (word : ℕ) → IsOfRadix 10 word
        → Reads word T.MIN_MAGNITUDE T.MAX (T.number value) (take result out.new) }
    ensures shortest { (word : ℕ) → IsOfRadix 10 word
        → IsShortest word T.MIN_MAGNITUDE T.MAX (T.number value) (take result out.new) }
{
    let (is_negative, magnitude) = value.parts();
    put_signed(is_negative, magnitude, out)
}

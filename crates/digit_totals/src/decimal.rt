//! Decimal numbers of the usual form.

ghost use Rattle.std.specs.Prelude.{◌≡◌, ℕ, ◌^◌, ◌<◌, ◌≤◌, ◌-◌, length, IfSome, IsTrue, Ok};
ghost use Rattle.lexical_format.specs.Word.{is_supported};
ghost use Rattle.digit_floats.specs.Float.{IsDecimal};
ghost use Rattle.digit_amounts.specs.Scaled.{scaled_at, read_scaled_at};

use super::around::{GREATEST, sign_of, signed};
use digit_floats::{read_short_fraction, read_short_whole};

/// The decimal number at a position, in units of its last place, and where it ends: in the usual
/// case, in which it has all places, at most 19 digits, and 63 bits.
#[inline(always)]
fn short_magnitude(text: &[u8], word: u128, begin: usize, places: usize) -> Option<(u64, usize)>
    requires supported { IsTrue (is_supported word) }
    requires decimal { IsDecimal word }
    requires within { begin ≤ length text.now }
    ensures is { IfSome result (λ read. (most : ℕ) → read.0 ≤ most
        → scaled_at word text.now 46 places most begin ≡ Ok (read.0, read.1)) }
    ensures below { IfSome result (λ read. read.0 < 2 ^ 63) }
    ensures some { IfSome result (λ read. begin < read.1) }
    ensures within { IfSome result (λ read. read.1 ≤ length text.now) }
{
    let whole = match read_short_whole(text, word, begin) {
        Some(whole) => whole,
        None => return None,
    };
    match read_short_fraction(text, word, whole, b'.') {
        Some(number) if number.places == places && number.value <= GREATEST => {
            Some((number.value, number.end))
        }
        _ => None,
    }
}

/// [`short_magnitude`] with a sign.
#[inline(always)]
pub fn short_decimal(text: &[u8], word: u128, place: usize, places: usize) -> Option<(i64, usize)>
    requires supported { IsTrue (is_supported word) }
    requires decimal { IsDecimal word }
    requires within { place ≤ length text.now }
    ensures is { IfSome result (λ read.
        read_scaled_at word text.now 46 places (2 ^ 127) (2 ^ 127 - 1) place
        ≡ Ok (read.0, read.1)) }
    ensures some { IfSome result (λ read. place < read.1) }
    ensures within { IfSome result (λ read. read.1 ≤ length text.now) }
{
    let (is_negative, begin) = sign_of(text, place);
    match short_magnitude(text, word, begin, places) {
        Some((magnitude, end)) => Some((signed(is_negative, magnitude), end)),
        None => None,
    }
}

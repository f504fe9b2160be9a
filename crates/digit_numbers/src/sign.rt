//! The sign of a number, and what may follow it.

ghost use Rattle.std.specs.Prelude.{◌≡◌, ◌≤◌, ◌&&◌, not, if◌then◌else◌, length, true, IfSome};
ghost use Rattle.digit_floats.specs.Hexadecimal.{IsHexadecimal};
ghost use Rattle.digit_languages.specs.Words.{IsLanguage};
ghost use Rattle.digit_numbers.specs.Forms.{IsForm, has_hex, unprefixed};
ghost use Rattle.digit_numbers.specs.Numbers.{past_sign};
ghost use Rattle.digit_numbers.specs.Reads.{IsSign};

use super::form::Form;
use super::integer::unprefixed;
use digit_languages::Language;

/// A sign.
#[derive(Clone, Copy)]
pub struct Sign {
    pub is_there: bool,
    pub is_minus: bool,
    /// The position after it.
    pub end: usize,
}

/// The sign at a start, if the form has one there.
#[inline(always)]
#[tactic(auto, unfolding(crate::specs::Numbers::past_sign))]
pub fn read_sign(text: &[u8], form: Form, start: usize) -> Sign
    requires { start ≤ length text.now }
    ensures { IsSign form text.now start result }
{
    let Some(byte) = text.get(start) else {
        return Sign {
            is_there: false,
            is_minus: false,
            end: start,
        };
    };
    let is_minus = form.signs.is_minus(*byte);
    let is_there = is_minus || form.signs.is_plus(*byte);
    let end = if is_there { start + 1 } else { start };
    Sign {
        is_there,
        is_minus,
        end,
    }
}

/// The form's integers after a sign, or without one.
#[inline(always)]
pub fn language_of(form: Form, is_signed: bool) -> Language
    requires { IsForm form }
    ensures is { result ≡ (if is_signed && not form.signed_prefix
        then unprefixed form.integers else form.integers) }
    ensures decimal { result.decimal ≡ form.integers.decimal }
    ensures hexadecimal { has_hex form.hex_floats ≡ true
        → IfSome result.hexadecimal IsHexadecimal }
    ensures serves { IsLanguage result }
{
    if is_signed && !form.signed_prefix {
        unprefixed(form.integers)
    } else {
        form.integers
    }
}

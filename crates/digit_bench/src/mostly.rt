//! A word that is known at run time only, and nearly always the same one: code in place for that
//! one, as for a constant word, and a call for the others.

ghost use Rattle.std.specs.Prelude.{◌≡◌, ◌-◌, ◌^◌, IsTrue};
ghost use Rattle.lexical_format.specs.Word.{is_supported};
ghost use Rattle.lexical_digits.specs.State.{rule_of};
ghost use Rattle.lexical_digits.specs.declared.skip.component.Component.TheVariants.{Integer};
ghost use Rattle.digit_literals.specs.Integers.{integer_at};

use digit_literals::{LiteralError, read_integer};
use lexical_format::STANDARD;

/// The same as [`read_integer`].
#[inline(always)]
pub fn read_mostly_standard(text: &[u8], word: u128) -> Result<(u64, usize), LiteralError>
    requires { IsTrue (is_supported word) }
    ensures { result ≡ integer_at (rule_of word Integer) text.now 0 (2 ^ 64 - 1) }
{
    if word == STANDARD {
        read_integer(text, STANDARD)
    } else {
        read_by(text, word)
    }
}

/// The same out of line: with two reads in place, [`read_mostly_standard`] is too large for that.
#[inline(never)]
fn read_by(text: &[u8], word: u128) -> Result<(u64, usize), LiteralError>
    requires { IsTrue (is_supported word) }
    ensures { result ≡ integer_at (rule_of word Integer) text.now 0 (2 ^ 64 - 1) }
{
    read_integer(text, word)
}

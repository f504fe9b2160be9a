//! Hexadecimal digits with `:` between them, of which a fixed number is wanted: the 6 of a colour,
//! or the 12 of an address.

ghost use Rattle.std.specs.Prelude.{◌≡◌, ◌≤◌, length, filter, IfOk, IfErr, IsTrue};
ghost use Rattle.std.specs.Str.Parse.{digits_value};
ghost use Rattle.lexical_format.specs.Word.{is_supported};
ghost use Rattle.lexical_digits.specs.State.{rule_of};
ghost use Rattle.lexical_digits.specs.Separators.{is_digit};
ghost use Rattle.lexical_digits.specs.Stop.{stop};
ghost use Rattle.lexical_digits.specs.declared.skip.component.Component.TheVariants.{Integer};
ghost use Rattle.number_vectors.specs.Groups.{colons, IsGroups, IsFault};

use digit_literals::{LiteralError, count_digits, read_integer};
use lexical_format::INTEGER_INTERNAL_DIGIT_SEPARATOR;

/// Why a text isn't such digits.
#[derive(Clone, Copy, Debug, PartialEq, Eq)]
pub enum GroupsError {
    /// The byte at this position is neither a digit nor a `:` between two digits.
    Byte(usize),
    /// The text has this many digits.
    Count(usize),
}

/// Radix 16, one `:` between two digits.
#[tactic(auto, unfolding(lexical_format::proofs::OnLiterals::lexical_on_literals))]
fn word() -> u128
    ensures supported { IsTrue (is_supported result) }
    ensures rule { rule_of result Integer ≡ colons }
{
    (16 << 104) | (0x3a << 64) | INTEGER_INTERNAL_DIGIT_SEPARATOR
}

/// The value of a text of hexadecimal digits that reach its end: 1 to 16 digits always fit.
#[tactic(auto, using(digit_literals::proofs::ForCallers::all_is))]
fn value_of(text: &[u8], word: u128) -> u64
    requires supported { IsTrue (is_supported word) }
    requires rule { rule_of word Integer ≡ colons }
    requires ends { stop colons text.now 0 0 ≡ length text.now }
    requires some { 1 ≤ length (filter (is_digit colons) text.now) }
    requires few { length (filter (is_digit colons) text.now) ≤ 16 }
    ensures { result ≡ digits_value 16 (filter (is_digit colons) text.now) }
{
    match read_integer(text, word) {
        Ok((value, _)) => value,
        Err(LiteralError::Empty(_)) => unreachable!(),
        Err(LiteralError::Overflow(_)) => unreachable!(),
    }
}

/// The value of a text of `count` hexadecimal digits, 1 to 16, with single `:` between them.
#[tactic(auto, using(digit_literals::proofs::ForCallers::all_is))]
pub fn read_groups(text: &[u8], count: usize) -> Result<u64, GroupsError>
    requires some { 1 ≤ count }
    requires few { count ≤ 16 }
    ensures ok { IfOk result (IsGroups text.now count) }
    ensures err { IfErr result (IsFault text.now count) }
{
    match count_digits(text, word()) {
        Ok(digits) if digits == count => Ok(value_of(text, word())),
        Ok(digits) => Err(GroupsError::Count(digits)),
        Err(at) => Err(GroupsError::Byte(at)),
    }
}

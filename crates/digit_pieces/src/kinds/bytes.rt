//! Which bytes a number of a kind may have.

ghost use Rattle.std.specs.Prelude.{◌≡◌};
ghost use Rattle.lexical_digits.specs.State.{rule_of};
ghost use Rattle.digit_floats.specs.Bytes.{is_sign, is_mark};
ghost use Rattle.digit_pieces.specs.Cuts.{is_of_rule, is_scaled_byte};

use lexical_digits::skip::{Component, Rule};

/// Whether a byte is a digit or the separator of a component.
pub(crate) fn is_of_component(word: u128, component: Component, byte: u8) -> bool
    ensures { result ≡ is_of_rule (rule_of word component) byte }
{
    let rule = Rule::of(word, component);
    rule.is_digit(byte) || rule.is_separator(byte)
}

/// Whether a byte is a `+` or a `-`.
pub(crate) fn is_sign(byte: u8) -> bool
    ensures { result ≡ is_sign byte }
{
    byte == b'+' || byte == b'-'
}

/// Whether a byte is the mark of an exponent: of a letter in lower case, the upper case too.
pub(crate) fn is_mark(mark: u8, byte: u8) -> bool
    ensures { result ≡ is_mark mark byte }
{
    byte == mark || byte == mark.to_ascii_uppercase()
}

/// Whether a byte may be in a scaled number.
pub(crate) fn is_scaled_byte(word: u128, point: u8, byte: u8) -> bool
    ensures { result ≡ is_scaled_byte word point byte }
{
    is_of_component(word, Component::Integer, byte)
        || is_of_component(word, Component::Fraction, byte)
        || is_sign(byte)
        || byte == point
}

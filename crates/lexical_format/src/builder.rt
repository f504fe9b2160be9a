//! A format word from its parts.

ghost use Rattle.std.specs.Prelude.{◌≡◌, ◌<◌, ◌≤◌};
ghost use Rattle.lexical_format.specs.Word.{is_supported};
ghost use Rattle.lexical_format.specs.Builder.{bit_if, flags_number, word_of, serves_for, Says};

/// The separators of a component that are skipped. Without a flag none is. docs/RULES.md has the
/// rule.
///
/// Not in lexical-util, where each flag has a method of the builder.
#[derive(Clone, Copy, Debug, PartialEq, Eq)]
pub struct DigitSeparatorFlags {
    /// Drops internal separators: a digit on both sides.
    pub internal: bool,
    /// Drops a separator before the first digit, such as the `_` of `_1`, if no other separator is
    /// beside it.
    pub leading: bool,
    /// Drops a separator at the end of the digits, such as the `_` of `1_`, if no other separator
    /// follows it. In a component without any digit a single `_` is skipped, and `__` isn't.
    pub trailing: bool,
    /// Judges a run of separators as one separator. By itself it skips nothing.
    pub consecutive: bool,
}

/// No flag: no separator is skipped, so each ends the number.
pub const NO_FLAGS: DigitSeparatorFlags = DigitSeparatorFlags {
    internal: false,
    leading: false,
    trailing: false,
    consecutive: false,
};

/// All four flags: every separator is skipped.
pub const ALL_FLAGS: DigitSeparatorFlags = DigitSeparatorFlags {
    internal: true,
    leading: true,
    trailing: true,
    consecutive: true,
};

/// The parts of a format word. Write one on top of [`DECIMAL`]:
/// `NumberFormatBuilder { digit_separator: b'_', integer: ALL_FLAGS, ..DECIMAL }`.
///
/// lexical-util's `NumberFormatBuilder` has a method for each field.
#[derive(Clone, Copy, Debug, PartialEq, Eq)]
pub struct NumberFormatBuilder {
    /// The mantissa radix.
    pub mantissa_radix: u8,
    /// The exponent radix; zero means the mantissa radix.
    pub exponent_radix: u8,
    /// The byte that separates digits; zero means that none does.
    pub digit_separator: u8,
    /// The integer's flags.
    pub integer: DigitSeparatorFlags,
    /// The fraction's flags.
    pub fraction: DigitSeparatorFlags,
    /// The exponent's flags.
    pub exponent: DigitSeparatorFlags,
    /// Drops every separator of a special value, such as `nan`.
    pub special: bool,
}

/// Radix 10, no separator, no flags: the builder of [`STANDARD`](crate::STANDARD).
pub const DECIMAL: NumberFormatBuilder = NumberFormatBuilder {
    mantissa_radix: 10,
    exponent_radix: 0,
    digit_separator: 0,
    integer: NO_FLAGS,
    fraction: NO_FLAGS,
    exponent: NO_FLAGS,
    special: false,
};

fn bit_if(is_set: bool, bit_index: u32) -> u128
    requires { bit_index ≤ 127 }
    ensures { result ≡ bit_if is_set bit_index }
{
    if is_set { 1 << bit_index } else { 0 }
}

/// Four flags three places apart, the internal one lowest.
fn flags_number(flags: DigitSeparatorFlags) -> u128
    ensures value { result ≡ flags_number flags }
    ensures fits { result ≤ 585 }
{
    bit_if(flags.internal, 0)
        + bit_if(flags.leading, 3)
        + bit_if(flags.trailing, 6)
        + bit_if(flags.consecutive, 9)
}

impl NumberFormatBuilder {
    /// The sum of the parts, each in its place.
    #[tactic(auto, unfolding(crate::specs::Builder::word_of))]
    fn sum(self) -> u128
        ensures value { result ≡ word_of self }
        ensures fits { self.exponent_radix < 256 × self.mantissa_radix < 256
            × self.digit_separator < 256 }
    {
        (u128::from(self.exponent_radix) << 120)
            + (u128::from(self.mantissa_radix) << 104)
            + (u128::from(self.digit_separator) << 64)
            + bit_if(self.special, 44)
            + (flags_number(self.exponent) << 34)
            + (flags_number(self.fraction) << 33)
            + (flags_number(self.integer) << 32)
    }

    /// The word with these parts; every other bit is zero. It is supported exactly if both radixes
    /// are 2 to 36 and the separator is a digit of neither; a zero exponent radix means the
    /// mantissa radix.
    ///
    /// lexical-util has this call, which refuses a word that isn't supported.
    pub fn build(self) -> u128
        ensures value { result ≡ word_of self }
        ensures says { Says result self }
        ensures supported { is_supported result ≡ serves_for self }
    {
        self.sum()
    }
}

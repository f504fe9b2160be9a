//! The format word: the radixes, the byte that separates digits, and the flags that say where a
//! separator is dropped.
//!
//! | Bits | Field |
//! |---|---|
//! | 32, 33, 34 | internal: integer, fraction, exponent |
//! | 35, 36, 37 | leading: integer, fraction, exponent |
//! | 38, 39, 40 | trailing: integer, fraction, exponent |
//! | 41, 42, 43 | consecutive: integer, fraction, exponent |
//! | 44 | special |
//! | 64 to 71 | separator, a byte; zero means none |
//! | 104 to 111 | mantissa radix |
//! | 120 to 127 | exponent radix; zero means the mantissa radix |
//!
//! Other bits are ignored. The names are those of lexical-util's number formats; the bits are this
//! crate's own. There are three ways to a word:
//!
//! - [`words`] has the words of languages by name, such as `RUST_LITERAL`.
//! - A constant: radix 10 with `_` between the digits of the integer is
//!   `(10 << 104) | (0x5f << 64) | INTEGER_INTERNAL_DIGIT_SEPARATOR`.
//! - [`NumberFormatBuilder`] makes a word of its parts, also of parts that are known only at run
//!   time.
//!
//! A proof sees that a constant word is supported if the function has
//! `#[tactic(auto, unfolding(lexical_format::proofs::OnLiterals::lexical_on_literals))]`.
#![tactic(auto)]

ghost use Rattle.std.specs.Prelude.{◌≡◌};
ghost use Rattle.lexical_format.specs.Word.{bit, separator, mantissa_radix, exponent_radix, separator_flags, serves, is_supported};

mod builder;
mod digit;
pub mod laws;
pub mod words;

pub use builder::{ALL_FLAGS, DECIMAL, DigitSeparatorFlags, NO_FLAGS, NumberFormatBuilder};
pub use digit::{char_is_digit_const, char_to_digit_const, digit_value};

/// Drops the integer's internal separators: a digit on both sides.
pub const INTEGER_INTERNAL_DIGIT_SEPARATOR: u128 = 1 << 32;
/// Drops the fraction's internal separators: a digit on both sides.
pub const FRACTION_INTERNAL_DIGIT_SEPARATOR: u128 = 1 << 33;
/// Drops the exponent's internal separators: a digit on both sides.
pub const EXPONENT_INTERNAL_DIGIT_SEPARATOR: u128 = 1 << 34;

/// Drops the integer's leading separators: no digit was read before, and no other separator is
/// beside it.
pub const INTEGER_LEADING_DIGIT_SEPARATOR: u128 = 1 << 35;
/// Drops the fraction's leading separators: no digit was read before, and no other separator
/// is beside it.
pub const FRACTION_LEADING_DIGIT_SEPARATOR: u128 = 1 << 36;
/// Drops the exponent's leading separators: no digit was read before, and no other separator
/// is beside it.
pub const EXPONENT_LEADING_DIGIT_SEPARATOR: u128 = 1 << 37;

/// Drops the integer's trailing separators: neither a digit nor another separator follows, and no
/// separator is before it unless a digit was read.
pub const INTEGER_TRAILING_DIGIT_SEPARATOR: u128 = 1 << 38;
/// Drops the fraction's trailing separators: neither a digit nor another separator follows, and no
/// separator is before it unless a digit was read.
pub const FRACTION_TRAILING_DIGIT_SEPARATOR: u128 = 1 << 39;
/// Drops the exponent's trailing separators: neither a digit nor another separator follows, and no
/// separator is before it unless a digit was read.
pub const EXPONENT_TRAILING_DIGIT_SEPARATOR: u128 = 1 << 40;

/// Judges a run of the integer's separators as one separator. By itself it skips nothing.
pub const INTEGER_CONSECUTIVE_DIGIT_SEPARATOR: u128 = 1 << 41;
/// Judges a run of the fraction's separators as one separator. By itself it skips nothing.
pub const FRACTION_CONSECUTIVE_DIGIT_SEPARATOR: u128 = 1 << 42;
/// Judges a run of the exponent's separators as one separator. By itself it skips nothing.
pub const EXPONENT_CONSECUTIVE_DIGIT_SEPARATOR: u128 = 1 << 43;

/// Drops every separator of a special value, such as `nan`.
pub const SPECIAL_DIGIT_SEPARATOR: u128 = 1 << 44;

/// The integer's four flags: bits 32, 35, 38 and 41.
pub const INTEGER_DIGIT_SEPARATOR_FLAG_MASK: u128 = INTEGER_INTERNAL_DIGIT_SEPARATOR
    | INTEGER_LEADING_DIGIT_SEPARATOR
    | INTEGER_TRAILING_DIGIT_SEPARATOR
    | INTEGER_CONSECUTIVE_DIGIT_SEPARATOR;
/// The fraction's four flags: bits 33, 36, 39 and 42.
pub const FRACTION_DIGIT_SEPARATOR_FLAG_MASK: u128 = FRACTION_INTERNAL_DIGIT_SEPARATOR
    | FRACTION_LEADING_DIGIT_SEPARATOR
    | FRACTION_TRAILING_DIGIT_SEPARATOR
    | FRACTION_CONSECUTIVE_DIGIT_SEPARATOR;
/// The exponent's four flags: bits 34, 37, 40 and 43.
pub const EXPONENT_DIGIT_SEPARATOR_FLAG_MASK: u128 = EXPONENT_INTERNAL_DIGIT_SEPARATOR
    | EXPONENT_LEADING_DIGIT_SEPARATOR
    | EXPONENT_TRAILING_DIGIT_SEPARATOR
    | EXPONENT_CONSECUTIVE_DIGIT_SEPARATOR;
/// All thirteen flags: bits 32 to 44.
pub const DIGIT_SEPARATOR_FLAG_MASK: u128 = 0x1FFF << 32;

/// The word of plain decimal numbers: radix 10, no separator, no flags.
pub const STANDARD: u128 = 10 << 104;

/// Reads the fields of a word. Any word is allowed; [`is_supported`] tells whether digits can be
/// read by it.
///
/// lexical-util's `NumberFormat` has the word as a const parameter; here it is a field.
#[derive(Clone, Copy, Debug, PartialEq, Eq)]
pub struct NumberFormat {
    /// The word, with all of its bits.
    pub word: u128,
}

impl NumberFormat {
    /// The format of a word.
    #[inline(always)]
    pub fn new(word: u128) -> NumberFormat
        ensures { result.word ≡ word }
    {
        NumberFormat { word }
    }

    /// The byte that separates digits: bits 64 to 71. Zero means that no byte does.
    #[inline(always)]
    pub fn digit_separator(&self) -> u8
        ensures { result ≡ separator self.now.word }
    {
        ((self.word >> 64) & 0xFF) as u8
    }

    /// The mantissa radix: bits 104 to 111.
    #[inline(always)]
    pub fn mantissa_radix(&self) -> u32
        ensures { result ≡ mantissa_radix self.now.word }
    {
        ((self.word >> 104) & 0xFF) as u32
    }

    /// The exponent radix: bits 120 to 127; if they are zero, the mantissa radix.
    #[inline(always)]
    pub fn exponent_radix(&self) -> u32
        ensures { result ≡ exponent_radix self.now.word }
    {
        let radix = ((self.word >> 120) & 0xFF) as u32;
        if radix == 0 {
            self.mantissa_radix()
        } else {
            radix
        }
    }

    /// The thirteen flags, each in its place: bits 32 to 44 of the word. Every other bit of the
    /// answer is zero.
    #[inline(always)]
    #[tactic(auto, using(crate::proofs::Flags::and_flags))]
    pub fn digit_separator_flags(&self) -> u128
        ensures { result ≡ separator_flags self.now.word }
    {
        self.word & DIGIT_SEPARATOR_FLAG_MASK
    }

    /// Whether separators of special values are skipped: bit 44.
    #[inline(always)]
    #[tactic(auto, using(crate::proofs::Flags::special_test))]
    pub fn special_digit_separator(&self) -> bool
        ensures { result ≡ bit self.now.word 44 }
    {
        self.word & SPECIAL_DIGIT_SEPARATOR != 0
    }
}

/// Whether a radix is 2 to 36 and the separator is no digit of it.
#[inline(always)]
fn serves(radix: u32, separator: u8) -> bool
    ensures { result ≡ serves radix separator }
{
    (2..=36).contains(&radix) && !char_is_digit_const(separator, radix)
}

/// Whether digits can be read by this word: its mantissa radix and its exponent radix are 2 to 36,
/// and its separator is a digit of neither. The exponent radix is what
/// [`NumberFormat::exponent_radix`] answers. A separator may be zero, a sign, or a byte from 128
/// on. Flags don't matter. Not in lexical-util: calls that read digits ask that it is true.
#[inline(always)]
pub fn is_supported(word: u128) -> bool
    ensures { result ≡ is_supported word }
{
    let format = NumberFormat::new(word);
    let separator = format.digit_separator();
    serves(format.mantissa_radix(), separator) && serves(format.exponent_radix(), separator)
}

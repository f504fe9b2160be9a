//! Format words as C has them: in two halves.

ghost use Rattle.std.specs.Prelude.{◌≡◌, ◌&&◌, ◌==◌};
ghost use Rattle.digits.specs.Words.{is_supported};
ghost use Rattle.digits_c.specs.Calls.{word_of, is_decimal};

use digits::{NumberFormat, is_supported};

/// A format word.
#[repr(C)]
#[derive(Clone, Copy)]
pub struct Word {
    /// Its lower half: the flags.
    pub low: u64,
    /// Its upper half: the separator and the radixes.
    pub high: u64,
}

impl Word {
    /// The word.
    #[inline(always)]
    pub fn whole(self) -> u128
        ensures { result ≡ word_of self }
    {
        u128::from(self.low) + (u128::from(self.high) << 64)
    }
}

/// Whether mantissa and exponent of a word are decimal.
#[inline(always)]
pub fn is_decimal(word: u128) -> bool
    ensures { result ≡ is_decimal word }
{
    let format = NumberFormat::new(word);
    format.mantissa_radix() == 10 && format.exponent_radix() == 10
}

/// Whether a word is supported: each radix is from 2 to 36, and the separator is none of its
/// digits.
#[unsafe(no_mangle)]
pub extern "C" fn digits_is_supported(word: Word) -> bool
    ensures { result ≡ is_supported (word_of word) }
{
    is_supported(word.whole())
}

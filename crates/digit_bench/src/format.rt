//! Where a format word comes from: handed in at run time, or written into the code.

ghost use Rattle.std.specs.Prelude.{IsTrue};
ghost use Rattle.lexical_format.specs.Word.{is_supported};

/// A kind of word. Code that is generic over it is made once for each kind.
pub trait Format: Copy {
    /// The word.
    fn word(self) -> u128
        ensures { IsTrue (is_supported result) };
}

/// A word that is known only at run time.
#[derive(Clone, Copy)]
pub struct AtRunTime {
    pub word: u128,
    ghost supported: { IsTrue (is_supported word) },
}

impl Format for AtRunTime {
    #[inline(always)]
    fn word(self) -> u128 {
        self.word
    }
}

/// Radix 10 and no separator.
#[derive(Clone, Copy)]
pub struct Decimal;

impl Format for Decimal {
    #[inline(always)]
    #[tactic(auto, unfolding(lexical_format::proofs::OnLiterals::lexical_on_literals))]
    fn word(self) -> u128 {
        0xa00000000000000000000000000
    }
}

/// Radix 10, and separators `_` between the digits of the integer.
#[derive(Clone, Copy)]
pub struct DecimalI;

impl Format for DecimalI {
    #[inline(always)]
    #[tactic(auto, unfolding(lexical_format::proofs::OnLiterals::lexical_on_literals))]
    fn word(self) -> u128 {
        0xa000000005f0000000100000000
    }
}

/// The same, with runs.
#[derive(Clone, Copy)]
pub struct DecimalIC;

impl Format for DecimalIC {
    #[inline(always)]
    #[tactic(auto, unfolding(lexical_format::proofs::OnLiterals::lexical_on_literals))]
    fn word(self) -> u128 {
        0xa000000005f0000020100000000
    }
}

/// Every separator of the integer.
#[derive(Clone, Copy)]
pub struct DecimalILTC;

impl Format for DecimalILTC {
    #[inline(always)]
    #[tactic(auto, unfolding(lexical_format::proofs::OnLiterals::lexical_on_literals))]
    fn word(self) -> u128 {
        0xa000000005f0000024900000000
    }
}

/// As [`DecimalI`], in the integer, the fraction and the exponent.
#[derive(Clone, Copy)]
pub struct DecimalAll;

impl Format for DecimalAll {
    #[inline(always)]
    #[tactic(auto, unfolding(lexical_format::proofs::OnLiterals::lexical_on_literals))]
    fn word(self) -> u128 {
        0xa000000005f0000000700000000
    }
}

/// As [`DecimalI`], in radix 16.
#[derive(Clone, Copy)]
pub struct HexI;

impl Format for HexI {
    #[inline(always)]
    #[tactic(auto, unfolding(lexical_format::proofs::OnLiterals::lexical_on_literals))]
    fn word(self) -> u128 {
        0x10000000005f0000000100000000
    }
}

/// As [`Decimal`], in radix 16.
#[derive(Clone, Copy)]
pub struct Hex;

impl Format for Hex {
    #[inline(always)]
    #[tactic(auto, unfolding(lexical_format::proofs::OnLiterals::lexical_on_literals))]
    fn word(self) -> u128 {
        0x1000000000000000000000000000
    }
}

/// As [`Decimal`], in radix 2.
#[derive(Clone, Copy)]
pub struct Binary;

impl Format for Binary {
    #[inline(always)]
    #[tactic(auto, unfolding(lexical_format::proofs::OnLiterals::lexical_on_literals))]
    fn word(self) -> u128 {
        0x200000000000000000000000000
    }
}

/// As [`DecimalI`], in radix 2.
#[derive(Clone, Copy)]
pub struct BinaryI;

impl Format for BinaryI {
    #[inline(always)]
    #[tactic(auto, unfolding(lexical_format::proofs::OnLiterals::lexical_on_literals))]
    fn word(self) -> u128 {
        0x2000000005f0000000100000000
    }
}

/// As [`Decimal`], in radix 36.
#[derive(Clone, Copy)]
pub struct Base36;

impl Format for Base36 {
    #[inline(always)]
    #[tactic(auto, unfolding(lexical_format::proofs::OnLiterals::lexical_on_literals))]
    fn word(self) -> u128 {
        0x2400000000000000000000000000
    }
}

//! What a language says of its integer literals.

ghost use Rattle.std.specs.Prelude.{◌≡◌, IsTrue, IfSome};
ghost use Rattle.digit_languages.specs.Words.{Serves, octal_of, IsLanguage};

use lexical_format::is_supported;

/// How a language writes integers. A prefix is `0` and a letter.
#[derive(Clone, Copy, Debug, PartialEq, Eq)]
pub struct Language {
    /// The word of a literal without a prefix.
    pub decimal: u128,
    /// The word of the digits after `0b`, if the language has that prefix.
    pub binary: Option<u128>,
    /// The word of the digits after `0o`.
    pub octal: Option<u128>,
    /// The word of the digits after `0x`.
    pub hexadecimal: Option<u128>,
    /// Whether the letter of a prefix may also be in upper case.
    pub upper: bool,
    /// What a first `0` says that begins no prefix.
    pub first_zero: FirstZero,
}

/// What a first `0` says.
#[derive(Clone, Copy, Debug, PartialEq, Eq)]
pub enum FirstZero {
    /// Nothing: it is a digit like any other. `017` is 17.
    Plain,
    /// The literal is octal. It is read by this word, from the `0` on: `017` is 15.
    Octal(u128),
    /// The `0` has to be the whole literal: `0` is 0; `00` and `017` are refused.
    Alone,
    /// Only zeros may follow it: `00` is 0; `017` is refused.
    Zeros,
}

impl FirstZero {
    /// By which word the literal is read, if not by the decimal one.
    #[inline(always)]
    pub(crate) fn octal(self) -> Option<u128>
        ensures { result ≡ octal_of self }
    {
        match self {
            FirstZero::Octal(word) => Some(word),
            FirstZero::Plain | FirstZero::Alone | FirstZero::Zeros => None,
        }
    }
}

/// Tests whether each word of a language is supported. Every language with a name passes.
///
/// [`read_literal`](super::read_literal) requires that.
#[inline(always)]
pub fn is_language(language: Language) -> bool
    ensures is { IsTrue result → IsLanguage language }
    ensures only { IsLanguage language → IsTrue result }
{
    is_supported(language.decimal)
        && serves(language.binary)
        && serves(language.octal)
        && serves(language.hexadecimal)
        && serves(language.first_zero.octal())
}

/// Whether a word is supported, if there is one.
#[inline(always)]
fn serves(word: Option<u128>) -> bool
    ensures is { IsTrue result → IfSome word Serves }
    ensures only { IfSome word Serves → IsTrue result }
{
    match word {
        Some(word) => is_supported(word),
        None => true,
    }
}

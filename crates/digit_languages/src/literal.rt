//! The integer literal at a position.

ghost use Rattle.std.specs.Prelude.{◌≡◌, ◌+◌, ◌-◌, ◌<◌, ◌≤◌, Some, Ok, Err, length, IfOk, IfErr, MatchResult, IsTrue, IfSome};
ghost use Rattle.lexical_format.specs.Word.{is_supported};
ghost use Rattle.digit_values.specs.Bytes.{has_byte};
ghost use Rattle.digit_languages.specs.Words.{IsLanguage};
ghost use Rattle.digit_languages.specs.Literals.{has_prefix, prefix_word, plain_word, refuses, literal_at, typed, language_error, none_at, position, message};

use super::language::{FirstZero, Language};
use digit_integers::{Integer, read_wide_from};
use digit_values::{LiteralError, has_byte};
use std::error::Error;
use std::fmt;

/// A literal that was read.
#[derive(Clone, Copy, Debug, PartialEq, Eq)]
pub struct Literal {
    pub value: u128,
    /// The word by which its digits were read.
    pub word: u128,
    /// Where its digits begin: after the prefix.
    pub digits: usize,
    /// Where they end. A suffix begins here.
    pub end: usize,
}

/// Why no literal was read. A position counts bytes from the start of the text, from 0.
#[derive(Clone, Copy, Debug, PartialEq, Eq)]
pub enum LanguageError {
    /// No digit is at this position, where one has to be.
    Empty(usize),
    /// With the digit at this position the value is outside of the type, or above `most`.
    Overflow(usize),
    /// The language refuses the first `0`, which is at this position.
    Zero(usize),
}

impl LanguageError {
    /// The position of the fault.
    #[inline(always)]
    pub fn position(&self) -> usize
        ensures { result ≡ position self.now }
    {
        match *self {
            LanguageError::Empty(at) | LanguageError::Overflow(at) | LanguageError::Zero(at) => at,
        }
    }

    /// Whether it says that no literal begins at `place`. Then no digit is there.
    #[inline(always)]
    pub fn is_none_at(&self, place: usize) -> bool
        ensures { result ≡ none_at place self.now }
    {
        match *self {
            LanguageError::Empty(at) => at == place,
            LanguageError::Overflow(_) | LanguageError::Zero(_) => false,
        }
    }
}

impl From<LiteralError> for LanguageError {
    ghost from_gives = { λ e r. r ≡ language_error e };

    #[inline(always)]
    fn from(e: LiteralError) -> LanguageError {
        match e {
            LiteralError::Empty(at) => LanguageError::Empty(at),
            LiteralError::Overflow(at) => LanguageError::Overflow(at),
        }
    }
}

impl fmt::Display for LanguageError {
    ghost output = { λ e. Some (message e) };

    fn fmt<W: fmt::Write>(&self, f: &mut fmt::Formatter<W>) -> fmt::Result {
        match *self {
            LanguageError::Empty(at) => write!(f, "there is no digit at {at}"),
            LanguageError::Overflow(at) => {
                write!(f, "the number is too large with the digit at {at}")
            }
            LanguageError::Zero(at) => write!(f, "the number has a first 0 at {at}"),
        }
    }
}

impl Error for LanguageError {}

/// Whether the letter of a prefix, in lower case, follows a `0` at the start.
#[inline(always)]
fn has_prefix(language: Language, text: &[u8], start: usize, letter: u8) -> bool
    requires within { start ≤ length text.now }
    requires lower { 32 ≤ letter }
    ensures is { result ≡ has_prefix language text.now start letter }
{
    has_byte(text, start, b'0')
        && (has_byte(text, start + 1, letter)
            || (language.upper && has_byte(text, start + 1, letter - 32)))
}

/// Returns the word of the digits after the prefix at `start`, or `None` if no prefix of the
/// language is there. Requires that the start is within the text and the language's words are
/// supported.
#[inline(always)]
pub fn prefix_word(language: Language, text: &[u8], start: usize) -> Option<u128>
    requires language { IsLanguage language }
    requires within { start ≤ length text.now }
    ensures is { result ≡ prefix_word language text.now start }
    ensures supported { IfSome result (λ word. IsTrue (is_supported word)) }
    ensures within { IfSome result (λ _. start + 2 ≤ length text.now) }
{
    if has_prefix(language, text, start, b'b') {
        language.binary
    } else if has_prefix(language, text, start, b'o') {
        language.octal
    } else if has_prefix(language, text, start, b'x') {
        language.hexadecimal
    } else {
        None
    }
}

/// The word of a literal without a prefix that begins at the start: a first `0` may say octal.
#[inline(always)]
fn plain_word(language: Language, text: &[u8], start: usize) -> u128
    requires { IsLanguage language }
    ensures is { result ≡ plain_word language text.now start }
    ensures supported { IsTrue (is_supported result) }
{
    if !has_byte(text, start, b'0') {
        return language.decimal;
    }
    match language.first_zero.octal() {
        Some(word) => word,
        None => language.decimal,
    }
}

/// Whether a language refuses a literal without a prefix for its first `0`, by whether more bytes
/// follow that, and a digit that isn't `0`.
#[inline(always)]
fn refuses(language: Language, text: &[u8], start: usize, has_more: bool, has_other: bool) -> bool
    ensures { result ≡ refuses language text.now start has_more has_other }
{
    has_byte(text, start, b'0')
        && match language.first_zero {
            FirstZero::Plain | FirstZero::Octal(_) => false,
            FirstZero::Alone => has_more,
            FirstZero::Zeros => has_other,
        }
}

/// Reads a literal whose value is at most `most`, and returns its value, its word and where its
/// digits are. Requires that `start` is within the text and the language's words are supported.
///
/// It begins at `start`: a prefix that the language has, and then digits as its word says. What
/// follows, such as a suffix, isn't read.
///
/// ```text
/// of Rust, `0xff_u8`: value 255, digits 2, end 5        `0b`: Err(Empty(2))
/// of Java, `017`: value 15                              of Zig: Err(Zero(0))
/// ```
#[inline(always)]
pub fn read_literal(
    text: &[u8],
    start: usize,
    language: Language,
    most: u128,
) -> Result<Literal, LanguageError>
    requires within { start ≤ length text.now }
    requires language { IsLanguage language }
    ensures is { result ≡ literal_at language text.now start most }
    ensures fits { IfOk result (λ read. read.value ≤ most) }
    ensures begins { IfOk result (λ read. (start ≤ read.digits) × (read.digits < read.end)) }
    ensures end { IfOk result (λ read. read.end ≤ length text.now) }
    ensures at { let n = length text.now in
        IfErr result (λ error. (start ≤ position error) × (position error ≤ n)) }
{
    let prefix = prefix_word(language, text, start);
    let (word, digits) = match prefix {
        Some(word) => (word, start + 2),
        None => (plain_word(language, text, start), start),
    };
    match read_wide_from(text, word, digits, most) {
        Ok((value, end)) => {
            if prefix.is_none() && refuses(language, text, start, start + 1 < end, value > 0) {
                return Err(LanguageError::Zero(start));
            }
            Ok(Literal {
                value,
                word,
                digits,
                end,
            })
        }
        // too large digits are more than a first `0`, and not all `0`
        Err(LiteralError::Overflow(_))
            if prefix.is_none() && refuses(language, text, start, true, true) => {
            Err(LanguageError::Zero(start))
        }
        Err(error) => Err(LanguageError::from(error)),
    }
}

/// Reads a literal at `start` as a number of a type, and returns the position after it. It reads
/// neither a `-` nor a suffix: read those yourself. Requires that `start` is within the text and
/// the language's words are supported.
///
/// It is [`read_literal`] up to the type's greatest number.
///
/// ```text
/// of Rust, `0xff_u8`, `read_literal_as::<u8>`: Ok((255, 5))      `0x1_00`: Err(Overflow(5))
/// ```
#[inline(always)]
pub fn read_literal_as<T: Integer>(
    text: &[u8],
    start: usize,
    language: Language,
) -> Result<(T, usize), LanguageError>
    requires within { start ≤ length text.now }
    requires language { IsLanguage language }
    ensures is { let read = typed (literal_at language text.now start T.MAX) in
        MatchResult result (λ r. read ≡ Ok (T.number r.0, r.1)) (λ error. read ≡ Err error) }
    ensures end { let n = length text.now in
        IfOk result (λ read. (start < read.1) × (read.1 ≤ n)) }
    ensures at { let n = length text.now in
        IfErr result (λ error. (start ≤ position error) × (position error ≤ n)) }
{
    let read = read_literal(text, start, language, T::MAX)?;
    Ok((T::of_magnitude(false, read.value), read.end))
}

//! Integer literals of a language.

ghost use Rattle.std.specs.Prelude.{◌≡◌, IfSome, pos};
ghost use Rattle.digits.specs.Words.{IsLanguage};
ghost use Rattle.digits_c.specs.Literals.{language_of, literal_from, u64_from, parts_of, no_parts};
ghost use Rattle.digits_c.specs.Outcomes.{Answers};

use super::outcome::{BAD_LANGUAGE, BAD_START, Outcome};
use digits::{Language, Literal, NumberFormat, languages, read_literal, read_literal_as};

/// A literal that was read.
#[repr(C)]
#[derive(Clone, Copy)]
pub struct LiteralParts {
    /// The lower half of its value.
    pub low: u64,
    /// The upper half.
    pub high: u64,
    /// Where its digits begin: after the prefix.
    pub digits: usize,
    /// Their radix.
    pub radix: u32,
}

impl LiteralParts {
    /// Of a literal.
    #[inline(always)]
    fn of(literal: Literal) -> LiteralParts
        ensures { result ≡ parts_of literal }
    {
        LiteralParts {
            low: (literal.value & 0xffff_ffff_ffff_ffff) as u64,
            high: (literal.value >> 64) as u64,
            digits: literal.digits,
            radix: NumberFormat::new(literal.word).mantissa_radix(),
        }
    }

    /// Of none.
    #[inline(always)]
    fn none() -> LiteralParts
        ensures { result ≡ no_parts }
    {
        LiteralParts {
            low: 0,
            high: 0,
            digits: 0,
            radix: 0,
        }
    }
}

/// The language with a number. `c/constants` reads the names here.
#[tactic(auto, unfolding(crate::proofs::OnWords::on_languages))]
fn language_of(number: u32) -> Option<Language>
    ensures is { result ≡ language_of number }
    ensures serves { IfSome result IsLanguage }
{
    Some(match number {
        0 => languages::RUST,
        1 => languages::CXX14,
        2 => languages::PYTHON,
        3 => languages::GO,
        4 => languages::JAVA,
        5 => languages::CSHARP,
        6 => languages::JAVASCRIPT,
        7 => languages::KOTLIN,
        8 => languages::SWIFT,
        9 => languages::RUBY,
        10 => languages::PERL,
        11 => languages::PHP,
        12 => languages::JULIA,
        13 => languages::OCAML,
        14 => languages::FSHARP,
        15 => languages::HASKELL,
        16 => languages::ZIG,
        17 => languages::ELIXIR,
        18 => languages::TOML,
        19 => languages::JSON_NUMBER,
        20 => languages::DIGITS,
        21 => languages::HEX_DIGITS,
        22 => languages::C,
        23 => languages::SCALA,
        24 => languages::ERLANG,
        25 => languages::D,
        _ => return None,
    })
}

/// The literal of a language that begins at a start, with up to 128 bits.
#[unsafe(no_mangle)]
pub extern "C" fn digits_read_literal(
    text: &[u8],
    start: usize,
    language: u32,
    literal: &mut LiteralParts,
) -> Outcome
    ensures { Answers no_parts (literal_from language text.now start) literal.new result }
{
    *literal = LiteralParts::none();
    let Some(language) = language_of(language) else {
        return Outcome::fault(BAD_LANGUAGE, start);
    };
    if start > text.len() {
        return Outcome::fault(BAD_START, start);
    }
    match read_literal(text, start, language, u128::MAX) {
        Ok(read) => {
            *literal = LiteralParts::of(read);
            Outcome::done(read.end)
        }
        Err(error) => Outcome::of_language(error),
    }
}

/// The literal of a language that begins at a start, as a `u64`.
#[unsafe(no_mangle)]
pub extern "C" fn digits_read_literal_u64(
    text: &[u8],
    start: usize,
    language: u32,
    value: &mut u64,
) -> Outcome
    ensures { Answers (pos 0) (u64_from language text.now start) (pos value.new) result }
{
    *value = 0;
    let Some(language) = language_of(language) else {
        return Outcome::fault(BAD_LANGUAGE, start);
    };
    if start > text.len() {
        return Outcome::fault(BAD_START, start);
    }
    match read_literal_as::<u64>(text, start, language) {
        Ok((number, end)) => {
            *value = number;
            Outcome::done(end)
        }
        Err(error) => Outcome::of_language(error),
    }
}

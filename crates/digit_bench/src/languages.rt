//! Integer literals of a language by `digit_languages`.

ghost use Rattle.digit_languages.specs.Words.{IsLanguage};

use super::Outcome;
use super::work::Task;
use digit_languages::{Language, is_language, languages, read_literal};

/// Languages that are chosen at run time.
static LANGUAGES: [Language; 2] = [languages::RUST, languages::PYTHON];

/// Rust, as a constant.
#[inline(always)]
#[tactic(auto, unfolding(lexical_format::proofs::OnLiterals::lexical_on_literals))]
fn rust() -> Language
    ensures { IsLanguage result }
{
    languages::RUST
}

/// Reads the literal that a text begins with. The count is where it ends; nothing where there is
/// none, or `u64` doesn't hold it.
#[inline(always)]
fn literal(text: &[u8], language: Language) -> Outcome
    requires { IsLanguage language }
{
    match read_literal(text, 0, language, u64::MAX as u128) {
        Ok(literal) => {
            let value = (literal.value & 0xffff_ffff_ffff_ffff) as u64;
            Outcome::of(value, literal.end as u64)
        }
        Err(_) => Outcome::nothing(),
    }
}

/// The literals of many texts, which follow one another and have these lengths.
#[inline(always)]
fn each(text: &[u8], lengths: &[u8], language: Language) -> Outcome
    requires { IsLanguage language }
{
    let mut total = Outcome::nothing();
    let mut rest = text;
    for length in lengths {
        let Some((first, others)) = rest.split_at_checked(*length as usize) else {
            break;
        };
        total = total.with(literal(first, language));
        rest = others;
    }
    total
}

/// Reads literals of Rust, or if `is_constant` is 0, of the language with the number `low`.
#[unsafe(no_mangle)]
pub extern "C" fn digit_bench_languages(task: &Task, outcome: &mut Outcome) {
    if task.is_constant != 0 {
        *outcome = each(task.text, task.lengths, rust());
        return;
    }
    let language = LANGUAGES[task.low as usize & 1];
    *outcome = if is_language(language) {
        each(task.text, task.lengths, language)
    } else {
        Outcome::nothing()
    };
}

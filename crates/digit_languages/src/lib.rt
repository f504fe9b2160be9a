//! Integer literals of languages: a prefix says the radix, and with it the format word.
#![tactic(auto)]

mod language;
pub mod languages;
pub mod laws;
mod literal;

pub use self::language::{FirstZero, Language, is_language};
pub use self::literal::{LanguageError, Literal, prefix_word, read_literal, read_literal_as};

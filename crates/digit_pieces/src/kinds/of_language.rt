//! The integer literals of a language.

ghost use Rattle.std.specs.Prelude.{◌≡◌};

use super::form_bytes::is_literal_byte;
use crate::kind::Kind;
use digit_integers::Integer;
use digit_languages::{Language, LanguageError, read_literal_as};
use std::marker::PhantomData;

/// The integer literals of a language, as [`read_literal_as`](digit_languages::read_literal_as)
/// reads them into one type. The language has to pass
/// [`is_language`](digit_languages::is_language).
#[derive(Clone, Copy)]
pub struct OfLanguage<T: Integer> {
    /// The language.
    pub language: Language,
    of: PhantomData<T>,
}

impl<T: Integer> OfLanguage<T> {
    /// The literals of a language.
    #[inline(always)]
    pub const fn new(language: Language) -> OfLanguage<T>
        ensures { result.language ≡ language }
    {
        OfLanguage {
            language,
            of: PhantomData,
        }
    }
}

impl<T: Integer> Kind for OfLanguage<T> {
    ghost use Rattle.std.proofs.Props.{props};
    ghost use Rattle.std.specs.Prelude.{ℤ};
    ghost use Rattle.digit_languages.specs.Follows.{is_literal_byte};
    ghost use Rattle.digit_languages.specs.Literals.{literal_at, none_at as language_none_at, position, typed};
    ghost use Rattle.digit_languages.specs.Words.{IsLanguage};
    ghost use Rattle.digit_languages.specs.Moves.{language_later};
    ghost use Rattle.digit_pieces.specs.Laws.OfLanguage as laws;

    type Number = T;

    type Error = LanguageError;

    ghost Meaning = { ℤ };

    ghost meaning = { T.number };

    ghost valid = { λ k. IsLanguage k.language };

    ghost valid_once = { λ k. Prim.hlevel props };

    ghost number_at = { λ k text start. typed (literal_at k.language text start T.MAX) };

    ghost has_byte = { λ k byte. is_literal_byte k.language byte };

    ghost error_at = { position };

    ghost error_later = { language_later };

    ghost none_at = { language_none_at };

    #[inline(always)]
    fn read_number(self, text: &[u8], start: usize) -> Result<(T, usize), LanguageError> {
        read_literal_as::<T>(text, start, self.language)
    }

    fn has_byte(self, byte: u8) -> bool {
        is_literal_byte(self.language, byte)
    }

    #[inline(always)]
    fn error_at(error: LanguageError) -> usize {
        error.position()
    }

    #[inline(always)]
    fn error_later(error: LanguageError, by: usize) -> LanguageError {
        match error {
            LanguageError::Empty(at) => LanguageError::Empty(by + at),
            LanguageError::Overflow(at) => LanguageError::Overflow(by + at),
            LanguageError::Zero(at) => LanguageError::Zero(by + at),
        }
    }

    #[inline(always)]
    fn is_none_at(error: LanguageError, place: usize) -> bool {
        error.is_none_at(place)
    }

    ghost follows = { λ k one other at start valid upto from.
        laws.literal_follows k.language T.MAX one other at start upto from };

    ghost precedes = { λ k text from at valid within fresh.
        laws.literal_precedes k.language T.MAX text from at within fresh };

    ghost ends = { λ k text start end x valid within is.
        laws.literal_ends k.language T.MAX text start end x is };

    ghost later_at = { laws.language_later_at };

    ghost later_more = { laws.language_later_more };

    ghost none_later = { laws.language_none_later };
}

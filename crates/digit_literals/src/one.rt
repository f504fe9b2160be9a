//! How one number of a list is read.

ghost use Rattle.std.specs.Prelude.{◌≡◌, ℕ, Bool, ◌≤◌, List, length, Result, Ok, Err, IfOk, MatchResult};

use digit_integers::{Integer, read_number_from};
use digit_values::LiteralError;
use std::marker::PhantomData;

/// How one number of a list is read. It is for the crates above this one, whose lists are all read
/// by one loop ([`read_list_with`](crate::read_list_with)). For numbers of your own write `Item` of
/// `digit_numbers`, or `Kind` of `digit_pieces`.
pub trait ReadsOne: Copy {
    /// A number.
    type Number: Copy;

    /// Why there is none.
    type Error: Copy;

    // What a number stands for.
    ghost Meaning: { Type 0 };

    ghost meaning: { Self.Number → Meaning };

    // What may be read by: a supported word, say.
    ghost valid: { Self → Type 0 };

    // The number at a position of a text, and where it ends, or why there is none.
    ghost number_at: { Self → List ℕ → ℕ → Result (Meaning × ℕ) Self.Error };

    // Whether an error says that no number begins at a position.
    ghost none_at: { ℕ → Self.Error → Bool };

    /// The number that begins at `start`, and the position after it.
    fn read_number(self, text: &[u8], start: usize) -> Result<(Self::Number, usize), Self::Error>
        requires valid { valid self }
        requires within { start ≤ length text.now }
        ensures is { let read = number_at self text.now start in
            MatchResult result (λ number. read ≡ Ok (meaning number.0, number.1))
            (λ error. read ≡ Err error) }
        ensures end { IfOk result (λ read. (start ≤ read.1) × (read.1 ≤ length text.now)) };

    /// Whether an error says that no number begins at a position: a list whose gap may trail is
    /// over there.
    fn is_none_at(error: Self::Error, place: usize) -> bool
        ensures { result ≡ none_at place error };
}

/// The integers of a type by a word, as
/// [`read_number_from`](digit_integers::read_number_from) reads them.
#[derive(Clone, Copy)]
pub struct Integers<T: Integer> {
    /// The word.
    pub word: u128,
    of: PhantomData<T>,
}

impl<T: Integer> Integers<T> {
    /// The integers of a type by a word.
    #[inline(always)]
    pub const fn new(word: u128) -> Integers<T>
        ensures { result.word ≡ word }
    {
        Integers {
            word,
            of: PhantomData,
        }
    }
}

impl<T: Integer> ReadsOne for Integers<T> {
    ghost use Rattle.std.specs.Prelude.{ℤ, IsTrue};
    ghost use Rattle.lexical_format.specs.Word.{is_supported};
    ghost use Rattle.lexical_digits.specs.State.{rule_of};
    ghost use Rattle.lexical_digits.specs.declared.skip.component.Component.TheVariants as components;
    ghost use Rattle.digit_values.specs.Errors.{literal_none_at};
    ghost use Rattle.digit_integers.specs.Numbers as numbers;

    type Number = T;

    type Error = LiteralError;

    ghost Meaning = { ℤ };

    ghost meaning = { T.number };

    ghost valid = { λ k. IsTrue (is_supported k.word) };

    ghost number_at = { λ k text start.
        numbers.number_at T.MIN_MAGNITUDE T.MAX (rule_of k.word components.Integer) text start };

    ghost none_at = { literal_none_at };

    #[inline(always)]
    fn read_number(self, text: &[u8], start: usize) -> Result<(T, usize), LiteralError> {
        read_number_from::<T>(text, self.word, start)
    }

    #[inline(always)]
    fn is_none_at(error: LiteralError, place: usize) -> bool {
        error.is_none_at(place)
    }
}

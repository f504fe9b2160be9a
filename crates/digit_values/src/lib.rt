//! Digits to a value, and tests of the bytes beside them. Digits come off an iterator, off a
//! `Bytes`, or off a text from a position on: `read_first_digits_from(text, word, component, start,
//! ..)`.
//!
//! Of the iterators these are the four of `lexical_digits`, that of `lexical_plain`, and any other
//! [`DigitsIter`](lexical_digits::iterator::DigitsIter), with separators that are dropped or
//! without. lexical-util leaves these loops to its callers.
//!
//! The digits that lead are those before the first item that is no digit. For the iterators over
//! `lexical_digits::skip::Bytes`, [`digits_end`](lexical_digits::stop::digits_end) says which these
//! are and where they end.
#![tactic(auto)]

ghost use Rattle.std.specs.Prelude.{◌≡◌, ℕ, ◌≤◌};
ghost use Rattle.digit_values.specs.Errors.{literal_none_at, literal_position};
ghost use Rattle.digit_values.specs.Outcomes.{ReadsAll, FindsNone, PassesMost};

mod bytes;
mod component;
pub mod equality;
mod first;
mod from;
pub mod laws;
mod plain;
mod reading;
mod slice;
mod zeros;

pub use self::bytes::{
    BLANKS, accepts, byte_at, expect_byte, expect_bytes, has_byte, has_bytes, name_end, past_bytes,
};
pub use self::component::{pass_digits, pass_zeros, read_digits_of, read_digits_up_to};
pub use self::first::{
    FirstDigits, read_few_digits_from, read_first_digits, read_first_digits_from,
    read_some_digits_from, read_some_digits_here,
};
pub use self::from::{count_digits, read_component_slice, read_fresh_bytes, read_known, stop_from};
pub use self::reading::{Digits, TooLarge, add_digit, read_digits, read_digits_after, take_digits};
pub use self::slice::{ReadTo, first_digit, read_slice_by_words};
use lexical_digits::iterator::DigitsIter;
use std::error::Error;
use std::fmt;

/// Why no integer was read. `?` makes a `ParseError` or a `LanguageError` of it. A position counts
/// bytes from the start of the buffer, from 0.
#[derive(Clone, Copy, Debug, PartialEq, Eq)]
pub enum LiteralError {
    /// No digit is at this position, where one has to be.
    Empty(usize),
    /// With the digit at this position the value is outside of the type, or above `most`.
    Overflow(usize),
}

impl LiteralError {
    /// The position of the fault.
    #[inline(always)]
    pub fn position(&self) -> usize
        ensures { result ≡ literal_position self.now }
    {
        match *self {
            LiteralError::Empty(at) | LiteralError::Overflow(at) => at,
        }
    }

    /// Whether the error says that no number begins at `place`. For `-1` as a `u32` it does: an
    /// unsigned type has no sign. If a number begins but is malformed or too large, this is
    /// `false`: for `-;` as an `i32`.
    #[inline(always)]
    pub fn is_none_at(&self, place: usize) -> bool
        ensures { result ≡ literal_none_at place self.now }
    {
        match *self {
            LiteralError::Empty(at) => at == place,
            LiteralError::Overflow(_) => false,
        }
    }
}

impl fmt::Display for LiteralError {
    ghost use Rattle.std.specs.Prelude.{Some};
    ghost use Rattle.digit_values.specs.Errors.{literal_message};

    ghost output = { λ e. Some (literal_message e) };

    fn fmt<W: fmt::Write>(&self, f: &mut fmt::Formatter<W>) -> fmt::Result {
        match *self {
            LiteralError::Empty(at) => write!(f, "there is no digit at {at}"),
            LiteralError::Overflow(at) => {
                write!(f, "the number is too large with the digit at {at}")
            }
        }
    }
}

impl Error for LiteralError {}

/// No two of the three outcomes of [`read_digits`] can be had from one iterator, whatever they
/// answer and leave: so none may stand for another. Requires that the radix is at least 1.
pub fn outcomes_differ<'a, I: DigitsIter<'a>>(iter: &I, radix: u32)
    requires { 1 ≤ radix }
    ensures read_or_none { (value at : ℕ) (left other : I.Meaning) → let m = I.meaning iter.now in
        ReadsAll I.buffer I.cursor I.place I.taken I.settled radix m value left →
        FindsNone I.buffer I.cursor I.place I.taken I.settled radix m at other → ⊥ }
    ensures read_or_most { (value at : ℕ) (left other : I.Meaning) → let m = I.meaning iter.now in
        ReadsAll I.buffer I.cursor I.place I.taken I.settled radix m value left →
        PassesMost I.buffer I.cursor I.place I.taken I.settled radix m at other → ⊥ }
    ensures none_or_most { (at over : ℕ) (left other : I.Meaning) → let m = I.meaning iter.now in
        FindsNone I.buffer I.cursor I.place I.taken I.settled radix m at left →
        PassesMost I.buffer I.cursor I.place I.taken I.settled radix m over other → ⊥ }
{}

//! What a call answers: where the number ends, or what is at fault.

ghost use Rattle.std.specs.Prelude.{◌≡◌};
ghost use Rattle.digits_c.specs.Outcomes.{done, fault, literal_fault, parse_fault, float_fault, scaled_fault, price_fault, language_fault, number_fault};

use digits::{
    FloatError, LanguageError, LiteralError, NumberError, ParseError, PriceError, ScaledError,
};

/// Where a number ends, or what is at fault.
#[repr(C)]
#[derive(Clone, Copy)]
pub struct Outcome {
    /// The position after the number, or that of the fault, counted from the start of the text.
    pub at: usize,
    /// [`OK`], or the kind of the fault.
    pub status: u32,
}

/// The number was read.
pub const OK: u32 = 0;
/// There is no digit, or no number.
pub const EMPTY: u32 = 1;
/// The number is too large.
pub const OVERFLOW: u32 = 2;
/// The byte is no part of the number before it.
pub const INVALID: u32 = 3;
/// No digit follows the mark of an exponent.
pub const EMPTY_EXPONENT: u32 = 4;
/// The language refuses the first `0`.
pub const FIRST_ZERO: u32 = 5;
/// A digit after the last place is no zero.
pub const TOO_FINE: u32 = 6;
/// The start is after the end of the text.
pub const BAD_START: u32 = 7;
/// The word isn't supported, or its floats aren't decimal.
pub const BAD_WORD: u32 = 8;
/// No language has this number.
pub const BAD_LANGUAGE: u32 = 9;
/// No form has this number.
pub const BAD_FORM: u32 = 10;
/// There are more than 38 places.
pub const BAD_PLACES: u32 = 11;
/// The list goes on, and there is no more room for its numbers.
pub const FULL: u32 = 12;
/// More of the text is needed, from this position on.
pub const MORE: u32 = 13;
/// Another byte is there, or the text ends.
pub const OTHER_BYTE: u32 = 14;
/// The list has no number, and ends here.
pub const CLOSED: u32 = 15;
/// A number is too long for the room of the text.
pub const TOO_LONG: u32 = 16;
/// The group of digits at this position isn't of three.
pub const GROUP: u32 = 17;
/// The number that ends at this position has fewer or more places.
pub const PLACES: u32 = 18;

impl Outcome {
    /// Of a number that ends here.
    #[inline(always)]
    pub fn done(at: usize) -> Outcome
        ensures { result ≡ done at }
    {
        Outcome { at, status: OK }
    }

    /// Of a fault at a position.
    #[inline(always)]
    pub fn fault(status: u32, at: usize) -> Outcome
        ensures { result ≡ fault status at }
    {
        Outcome { at, status }
    }

    /// Of an integer that wasn't read.
    #[inline(always)]
    pub fn of_literal(error: LiteralError) -> Outcome
        ensures { result ≡ literal_fault error }
    {
        match error {
            LiteralError::Empty(at) => Outcome::fault(EMPTY, at),
            LiteralError::Overflow(at) => Outcome::fault(OVERFLOW, at),
        }
    }

    /// Of a text that is no integer.
    #[inline(always)]
    pub fn of_parse(error: ParseError) -> Outcome
        ensures { result ≡ parse_fault error }
    {
        match error {
            ParseError::Empty(at) => Outcome::fault(EMPTY, at),
            ParseError::Overflow(at) => Outcome::fault(OVERFLOW, at),
            ParseError::Invalid(at) => Outcome::fault(INVALID, at),
        }
    }

    /// Of a float that wasn't read.
    #[inline(always)]
    pub fn of_float(error: FloatError) -> Outcome
        ensures { result ≡ float_fault error }
    {
        match error {
            FloatError::Empty(at) => Outcome::fault(EMPTY, at),
            FloatError::EmptyExponent(at) => Outcome::fault(EMPTY_EXPONENT, at),
            FloatError::Invalid(at) => Outcome::fault(INVALID, at),
        }
    }

    /// Of a scaled number that wasn't read.
    #[inline(always)]
    pub fn of_scaled(error: ScaledError) -> Outcome
        ensures { result ≡ scaled_fault error }
    {
        match error {
            ScaledError::Empty(at) => Outcome::fault(EMPTY, at),
            ScaledError::TooLarge(at) => Outcome::fault(OVERFLOW, at),
            ScaledError::TooFine(at) => Outcome::fault(TOO_FINE, at),
            ScaledError::Invalid(at) => Outcome::fault(INVALID, at),
        }
    }

    /// Of a price that wasn't read.
    #[inline(always)]
    pub fn of_price(error: PriceError) -> Outcome
        ensures { result ≡ price_fault error }
    {
        match error {
            PriceError::Number(none) => Outcome::of_scaled(none),
            PriceError::Group(at) => Outcome::fault(GROUP, at),
            PriceError::Places(at) => Outcome::fault(PLACES, at),
        }
    }

    /// Of a literal that wasn't read.
    #[inline(always)]
    pub fn of_language(error: LanguageError) -> Outcome
        ensures { result ≡ language_fault error }
    {
        match error {
            LanguageError::Empty(at) => Outcome::fault(EMPTY, at),
            LanguageError::Overflow(at) => Outcome::fault(OVERFLOW, at),
            LanguageError::Zero(at) => Outcome::fault(FIRST_ZERO, at),
        }
    }

    /// Of a number of a form that wasn't read.
    #[inline(always)]
    pub fn of_number(error: NumberError) -> Outcome
        ensures { result ≡ number_fault error }
    {
        match error {
            NumberError::Empty(at) => Outcome::fault(EMPTY, at),
            NumberError::Overflow(at) => Outcome::fault(OVERFLOW, at),
            NumberError::Invalid(at) => Outcome::fault(INVALID, at),
        }
    }
}

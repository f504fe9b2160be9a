//! Why a text is no number throughout.

ghost use Rattle.std.specs.Prelude.{◌≡◌, Some};
ghost use Rattle.digit_integers.specs.Errors.{position, message, parse_error};

use digit_values::LiteralError;
use std::error::Error;
use std::fmt;

/// Why a whole text is no integer. A position counts bytes from 0.
#[derive(Clone, Copy, Debug, PartialEq, Eq)]
pub enum ParseError {
    /// The text ends at this position, where a digit has to be. If it was converted from a
    /// [`LiteralError`], another byte may be there.
    Empty(usize),
    /// The byte at this position is no part of the number.
    Invalid(usize),
    /// With the digit at this position the value is outside of the type.
    Overflow(usize),
}

impl ParseError {
    /// The position of the fault.
    #[inline(always)]
    pub fn position(&self) -> usize
        ensures { result ≡ position self.now }
    {
        match *self {
            ParseError::Empty(at) | ParseError::Invalid(at) | ParseError::Overflow(at) => at,
        }
    }
}

impl From<LiteralError> for ParseError {
    ghost from_gives = { λ e r. r ≡ parse_error e };

    #[inline(always)]
    fn from(e: LiteralError) -> ParseError {
        match e {
            LiteralError::Empty(at) => ParseError::Empty(at),
            LiteralError::Overflow(at) => ParseError::Overflow(at),
        }
    }
}

impl fmt::Display for ParseError {
    ghost output = { λ e. Some (message e) };

    fn fmt<W: fmt::Write>(&self, f: &mut fmt::Formatter<W>) -> fmt::Result {
        match *self {
            ParseError::Empty(at) => write!(f, "there is no digit at {at}"),
            ParseError::Invalid(at) => write!(f, "the byte at {at} is no part of an integer"),
            ParseError::Overflow(at) => {
                write!(f, "the number is too large with the digit at {at}")
            }
        }
    }
}

impl Error for ParseError {}

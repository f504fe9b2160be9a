//! Why a text has no float.

ghost use Rattle.std.specs.Prelude.{◌≡◌, Some};
ghost use Rattle.digit_floats.specs.Errors as errors;
ghost use Rattle.digit_floats.specs.Errors.{message};

use std::error::Error;
use std::fmt;

/// Why no float was read. A position counts bytes from the start of the text, from 0.
#[derive(Clone, Copy, Debug, PartialEq, Eq)]
pub enum FloatError {
    /// There is no digit on either side of the point. The position is after the sign and the point,
    /// if they are there: in `-.` it is 2.
    Empty(usize),
    /// An exponent has no digit. One has to be at this position, after its mark and its sign.
    EmptyExponent(usize),
    /// The byte at this position is no part of the float.
    Invalid(usize),
}

impl FloatError {
    /// The position of the fault.
    pub fn position(&self) -> usize
        ensures { result ≡ errors.position self.now }
    {
        match *self {
            FloatError::Empty(at) | FloatError::EmptyExponent(at) | FloatError::Invalid(at) => at,
        }
    }

    /// Whether the error says that no float begins at `place`: no digit, no sign and no point.
    pub fn is_none_at(&self, place: usize) -> bool
        ensures { result ≡ errors.none_at place self.now }
    {
        match *self {
            FloatError::Empty(at) => at == place,
            FloatError::EmptyExponent(_) | FloatError::Invalid(_) => false,
        }
    }
}

impl fmt::Display for FloatError {
    ghost output = { λ e. Some (message e) };

    fn fmt<W: fmt::Write>(&self, f: &mut fmt::Formatter<W>) -> fmt::Result {
        match *self {
            FloatError::Empty(at) => write!(f, "there is no digit before {at}"),
            FloatError::EmptyExponent(at) => write!(f, "the exponent has no digit at {at}"),
            FloatError::Invalid(at) => write!(f, "the byte at {at} is no part of a float"),
        }
    }
}

impl Error for FloatError {}

//! The reasons for which a run ends early.

ghost use Rattle.std.specs.Prelude.{◌≡◌, ◌+◌, ◌^◌, ◌<◌, ◌≤◌};
ghost use Rattle.digit_totals.specs.Errors as Errors;
ghost use Rattle.digit_totals.specs.declared.fault.Fault.TheVariants.{Memory};

use digit_amounts::ScaledError;
use digit_floats::FloatError;
use digit_integers::ParseError;
use std::alloc::AllocError;
use std::io::ErrorKind;

/// Why a line has no number. Positions count the line's bytes, from 0.
#[derive(Clone, Copy, Debug, PartialEq, Eq)]
pub enum NumberError {
    /// The line has no such column.
    Missing,
    /// This column, or one before it, begins with a quote: a separator may be in quotes.
    Quoted(usize),
    /// The line of CSV ends inside quotes: a line feed may be in them, and none is read.
    OpenQuotes,
    /// A quote of the line of CSV neither begins nor ends a field, and isn't doubled in quotes.
    WrongQuote,
    /// It is no integer of 128 bits.
    Integer(ParseError),
    /// It is no decimal number of 128 bits with the places of the run.
    Decimal(ScaledError),
    /// It is no float.
    Float(FloatError),
}

impl NumberError {
    /// With its position so much later: of a line, if this is of a field that begins there.
    #[cold]
    pub fn later(self, by: usize) -> NumberError
        requires { by + Errors.position self < 2 ^ 64 }
        ensures { result ≡ Errors.later by self }
    {
        match self {
            NumberError::Missing
            | NumberError::Quoted(_)
            | NumberError::OpenQuotes
            | NumberError::WrongQuote => self,
            NumberError::Integer(error) => NumberError::Integer(match error {
                ParseError::Empty(at) => ParseError::Empty(by + at),
                ParseError::Invalid(at) => ParseError::Invalid(by + at),
                ParseError::Overflow(at) => ParseError::Overflow(by + at),
            }),
            NumberError::Decimal(error) => NumberError::Decimal(match error {
                ScaledError::Empty(at) => ScaledError::Empty(by + at),
                ScaledError::TooLarge(at) => ScaledError::TooLarge(by + at),
                ScaledError::TooFine(at) => ScaledError::TooFine(by + at),
                ScaledError::Invalid(at) => ScaledError::Invalid(by + at),
            }),
            NumberError::Float(error) => NumberError::Float(match error {
                FloatError::Empty(at) => FloatError::Empty(by + at),
                FloatError::EmptyExponent(at) => FloatError::EmptyExponent(by + at),
                FloatError::Invalid(at) => FloatError::Invalid(by + at),
            }),
        }
    }
}

/// Why a line ended a run. Lines count from 1.
#[derive(Clone, Copy, Debug, PartialEq, Eq)]
pub enum LineFault {
    /// This line has no number.
    Number(u128, NumberError),
    /// With the number of this line the sum leaves 128 bits.
    Sum(u128),
    /// This line is longer than 65,535 bytes.
    LongLine(u128),
}

impl LineFault {
    ghost use Rattle.digit_totals.specs.Report.{later, line_of};

    /// The same fault of a line that is after a header.
    pub fn later(self) -> LineFault
        requires { line_of self ≤ 2 ^ 127 }
        ensures { result ≡ later self }
    {
        match self {
            LineFault::Number(line, error) => LineFault::Number(line + 1, error),
            LineFault::Sum(line) => LineFault::Sum(line + 1),
            LineFault::LongLine(line) => LineFault::LongLine(line + 1),
        }
    }
}

/// Why a run ended early. The fault of a line is of a type of its own, which has no [`ErrorKind`]:
/// the loops over lines are quicker by it.
#[derive(Clone, Copy, Debug, PartialEq, Eq)]
pub enum Fault {
    /// A line ended it.
    Line(LineFault),
    /// A read failed with an error of this kind. An interrupted one is tried again.
    Read(ErrorKind),
    /// A write failed with an error of this kind. [`ErrorKind::WriteZero`]: it wrote nothing, and
    /// bytes were left.
    Write(ErrorKind),
    /// The allocator refused memory.
    Memory,
}

impl Fault {
    ghost use Rattle.digit_totals.specs.Text.{status_of};

    /// The exit status of the program for this fault: 3 to 8 in the order of the variants.
    pub fn status(&self) -> u8
        ensures { result ≡ status_of self.now }
    {
        match self {
            Fault::Line(LineFault::Number(_, _)) => 3,
            Fault::Line(LineFault::Sum(_)) => 4,
            Fault::Line(LineFault::LongLine(_)) => 5,
            Fault::Read(_) => 6,
            Fault::Write(_) => 7,
            Fault::Memory => 8,
        }
    }
}

impl From<AllocError> for Fault {
    ghost from_gives = { λ _ fault. fault ≡ Memory };

    fn from(_error: AllocError) -> Fault {
        Fault::Memory
    }
}

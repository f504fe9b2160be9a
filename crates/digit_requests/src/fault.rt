//! The reasons for which a run ends early.

ghost use Rattle.std.specs.Prelude.{◌≡◌, true};
ghost use Rattle.digit_requests.specs.declared.fault.Fault.TheVariants.{Memory};

use std::alloc::{AllocError, AllocFailed};

/// Why a run ended early. Lines count from 1.
#[derive(Clone, Copy, Debug, PartialEq, Eq)]
pub enum Fault {
    /// The line with this number is not a request.
    Line(usize),
    /// The format word of the line with this number is not supported.
    Word(usize),
    /// More than 65,536 bytes were read.
    TooLong,
    /// A read failed or was interrupted, or 131,072 reads did not reach the end of the input.
    Read,
    /// A write failed, was interrupted, or wrote nothing although bytes were left.
    Write,
    /// The allocator refused memory.
    Memory,
}

impl Fault {
    ghost use Rattle.digit_requests.specs.Outcome.{status_of};

    /// The exit status of the program for this fault: 2 to 7 in the order of the variants.
    pub fn status(&self) -> u8
        ensures { result ≡ status_of self.now }
    {
        match self {
            Fault::Line(_) => 2,
            Fault::Word(_) => 3,
            Fault::TooLong => 4,
            Fault::Read => 5,
            Fault::Write => 6,
            Fault::Memory => 7,
        }
    }
}

impl From<AllocError> for Fault {
    ghost from_gives = { λ _ fault. fault ≡ Memory };

    fn from(_error: AllocError) -> Fault {
        Fault::Memory
    }
}

impl<T: Drop> From<AllocFailed<T>> for Fault {
    ghost from_gives = { λ _ fault. fault ≡ Memory };

    fn from(_error: AllocFailed<T>) -> Fault {
        Fault::Memory
    }
}

/// Whether two faults are equal: exactly if they are the same variant with the same line number.
pub fn same_fault(a: Fault, b: Fault) -> bool
    ensures same { result ≡ true → a ≡ b }
    ensures equal { a ≡ b → result ≡ true }
{
    a == b
}

/// A clone of a fault is the same.
pub fn clone_of_fault(fault: Fault) -> Fault
    ensures { result ≡ fault }
{
    fault.clone().unwrap()
}

//! Why a number has no text.

ghost use Rattle.std.specs.Prelude.{Some};
ghost use Rattle.form_writers.specs.Numbers.{message};

use std::error::Error;
use std::fmt;

/// Why a number has no text by a form.
#[derive(Clone, Copy, Debug, PartialEq, Eq)]
pub enum FormTextError {
    /// The text needs this many bytes, and the slice has fewer. Nothing was written.
    NoRoom(usize),
    /// The form has no number of this value.
    NoNumber,
}

impl fmt::Display for FormTextError {
    ghost output = { λ e. Some (message e) };

    fn fmt<W: fmt::Write>(&self, f: &mut fmt::Formatter<W>) -> fmt::Result {
        match *self {
            FormTextError::NoRoom(needed) => write!(f, "the text needs {needed} bytes"),
            FormTextError::NoNumber => write!(f, "the form has no such number"),
        }
    }
}

impl Error for FormTextError {}

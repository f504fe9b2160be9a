//! Why nothing is written.

ghost use Rattle.std.specs.Prelude.{Some};
ghost use Rattle.decimal_writers.specs.Room.{message};

use std::error::Error;
use std::fmt;

/// A slice of so many bytes has room for the shortest decimal of any float by
/// [`write_usual`](crate::write_usual) and [`write_exponent`](crate::write_exponent), and so by
/// `write_float` in `Usual` and `Exponent`.
pub const FLOAT_ROOM: usize = 24;

/// The slice is shorter than the text, and nothing was written.
#[derive(Clone, Copy, Debug, PartialEq, Eq)]
pub struct NoRoom {
    /// How many bytes the text needs.
    pub needed: usize,
}

impl fmt::Display for NoRoom {
    ghost output = { λ e. Some (message e) };

    fn fmt<W: fmt::Write>(&self, f: &mut fmt::Formatter<W>) -> fmt::Result {
        write!(f, "the text needs {} bytes", self.needed)
    }
}

impl Error for NoRoom {}

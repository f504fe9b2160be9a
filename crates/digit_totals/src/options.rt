//! What a run adds up.

/// A column of each line. Columns count from 1.
#[derive(Clone, Copy, Debug, PartialEq, Eq)]
pub struct Column {
    pub number: usize,
    /// The byte between two columns.
    pub separator: u8,
    /// Whether quotes are read, as in RFC 4180.
    pub csv: bool,
}

/// The kind of the numbers.
#[derive(Clone, Copy, Debug, PartialEq, Eq)]
pub enum Kind {
    /// Integers.
    Integers,
    /// Decimal numbers, in units of the last of these places after the point.
    Places(usize),
}

/// What a run adds up, exactly.
#[derive(Clone, Copy, Debug, PartialEq, Eq)]
pub struct Options {
    /// The column that has the number. `None`: it is the whole line.
    pub column: Option<Column>,
    pub kind: Kind,
    /// Whether one `_` may be between two digits.
    pub underscores: bool,
    /// Whether the first line is a header, which has no number.
    pub header: bool,
}

/// What a run adds up as floats.
#[derive(Clone, Copy, Debug, PartialEq, Eq)]
pub struct FloatOptions {
    /// As in [`Options`].
    pub column: Option<Column>,
    /// As in [`Options`].
    pub underscores: bool,
    /// As in [`Options`].
    pub header: bool,
}

/// What the arguments ask for.
#[derive(Clone, Copy, Debug, PartialEq, Eq)]
pub enum Request {
    /// An exact sum.
    Exact(Options),
    /// A sum of floats.
    Floats(FloatOptions),
    /// No sum, but what may be asked for.
    Help,
}

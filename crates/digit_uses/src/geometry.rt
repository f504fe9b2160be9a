//! A window's size and place, as `1920x1080+0+24`: a parser of several fields, with an error of its
//! own. What it answers is a function of the text, written as the fields follow one another. So
//! each error is true, and no text that is a geometry is refused.
//!
//! Proof by hand: none.

ghost use Rattle.std.specs.Prelude.{◌≡◌, ◌≤◌, length, IfOk};
ghost use Rattle.digit_uses.specs.Geometry.{no_number, no_last, field_at, geometry_of};

use digits::{LiteralError, ParseError, STANDARD, parse_number_from, read_number_from};

/// A size and a place.
#[derive(Clone, Copy, Debug, PartialEq, Eq)]
pub struct Geometry {
    pub width: u16,
    pub height: u16,
    pub x: u16,
    pub y: u16,
}

/// Why a text is no geometry. A position counts bytes from 0.
#[derive(Clone, Copy, Debug, PartialEq, Eq)]
pub enum GeometryError {
    /// No digit is here.
    NoDigit(usize),
    /// With the digit here the number is above 65535.
    TooLarge(usize),
    /// The byte here isn't the one that separates two fields, or it follows the last one.
    Byte(usize),
}

impl From<LiteralError> for GeometryError {
    ghost from_gives = { λ e r. r ≡ no_number e };

    fn from(e: LiteralError) -> GeometryError {
        match e {
            LiteralError::Empty(at) => GeometryError::NoDigit(at),
            LiteralError::Overflow(at) => GeometryError::TooLarge(at),
        }
    }
}

impl From<ParseError> for GeometryError {
    ghost from_gives = { λ e r. r ≡ no_last e };

    fn from(e: ParseError) -> GeometryError {
        match e {
            ParseError::Empty(at) => GeometryError::NoDigit(at),
            ParseError::Invalid(at) => GeometryError::Byte(at),
            ParseError::Overflow(at) => GeometryError::TooLarge(at),
        }
    }
}

/// The field that begins at `start`, and the position after the byte that is to follow it.
#[tactic(auto, unfolding(digits::proofs::Literals::lexical_on_literals, crate::specs::Geometry::field_at))]
fn read_field(text: &[u8], start: usize, mark: u8) -> Result<(u16, usize), GeometryError>
    requires { start ≤ length text.now }
    ensures is { result ≡ field_at text.now start mark }
    ensures within { IfOk result (λ read. read.1 ≤ length text.now) }
{
    let (value, end) = read_number_from::<u16>(text, STANDARD, start)?;
    if end < text.len() && text[end] == mark {
        Ok((value, end + 1))
    } else {
        Err(GeometryError::Byte(end))
    }
}

/// The geometry that a text is.
#[tactic(auto, unfolding(digits::proofs::Literals::lexical_on_literals))]
pub fn parse_geometry(text: &[u8]) -> Result<Geometry, GeometryError>
    ensures { result ≡ geometry_of text.now }
{
    let (width, at) = read_field(text, 0, b'x')?;
    let (height, at) = read_field(text, at, b'+')?;
    let (x, at) = read_field(text, at, b'+')?;
    let y = parse_number_from::<u16>(text, STANDARD, at)?;
    Ok(Geometry {
        width,
        height,
        x,
        y,
    })
}

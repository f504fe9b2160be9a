//! Points, as `12:-5`, one in each line: a list of values of one's own, as OWN.md says.
//!
//! Proof by hand: none.
#![tactic(auto, unfolding(digits::proofs::Literals::lexical_on_literals))]

ghost use Rattle.std.specs.Prelude.{length};
ghost use Rattle.digits.specs.Words.{Fills, list_at};
ghost use Rattle.digit_uses.specs.Points.{column_of, no_point_at, point_at};

use digits::{
    Item, LINES, ListRead, LiteralError, STANDARD, expect_byte, read_items, read_number_from,
};

/// A point, such as `12:-5`.
#[derive(Clone, Copy, Debug, PartialEq, Eq)]
pub struct Point {
    pub x: i32,
    pub y: i32,
}

/// Why there is no point.
#[derive(Clone, Copy, Debug, PartialEq, Eq)]
pub enum PointError {
    Coordinate(LiteralError),
    NoColon(usize),
}

impl Item for Point {
    type Error = PointError;

    ghost item_at = { point_at };

    ghost error_at = { column_of };

    ghost none_at = { no_point_at };

    fn read_item(text: &[u8], start: usize) -> Result<(Point, usize), PointError> {
        let coordinate = read_number_from::<i32>(text, STANDARD, start);
        let (x, end) = coordinate.map_err(PointError::Coordinate)?;
        let at = expect_byte(text, end, b':').map_err(PointError::NoColon)?;
        let coordinate = read_number_from::<i32>(text, STANDARD, at);
        let (y, end) = coordinate.map_err(PointError::Coordinate)?;
        Ok((Point { x, y }, end))
    }

    fn error_at(error: PointError) -> usize {
        match error {
            PointError::Coordinate(error) => error.position(),
            PointError::NoColon(at) => at,
        }
    }

    fn is_none_at(error: PointError, place: usize) -> bool {
        match error {
            PointError::Coordinate(error) => error.is_none_at(place),
            PointError::NoColon(_) => false,
        }
    }
}

/// The points of a text, one in each line, in the front of a slice.
pub fn read_points(text: &[u8], points: &mut [Point]) -> ListRead<PointError>
    ensures { let list = list_at (point_at text.now) no_point_at LINES text.now
        (length points.old) 0 in
        Fills (λ point. point) list result points.old points.new }
{
    read_items(text, 0, LINES, points)
}

//! What a run adds up: the numbers of lines, and how they are added.

ghost use Rattle.std.specs.Prelude.{◌≡◌, ◌+◌, ◌^◌, ◌<◌, ◌≤◌, List, ℕ, Option, length, IfOk, IfErr};
ghost use Rattle.digit_totals.specs.declared.options.Column.{Column};
ghost use Rattle.digit_totals.specs.Report.{Adding, most_bytes, with_value, Leaves, EndsIn};

use super::fault::LineFault;
use super::options::Column;
use std::alloc::{AllocError, Allocator};

/// Totals, and the text of which no line is among them.
#[derive(Clone, Copy)]
pub struct Added<'a, T: Copy> {
    pub totals: T,
    pub rest: &'a [u8],
}

/// What a run adds up: which number a line has, and how numbers are added. All that reads an input
/// is written once, over this.
pub trait Adds: Copy {
    /// How many numbers there are, their sum, and the least and the greatest of them.
    type Totals: Copy;

    // A number.
    ghost Value: { Type 0 };

    // What may be added: not too many places, say.
    ghost valid: { Self → Type 0 };

    // The numbers of lines, and how they are added.
    ghost adding: { Self → Adding Self.Totals Value };

    // The column that has the number.
    ghost column_of: { Self → Option Column };

    // The line that is written of totals.
    ghost IsLine: { Self → Self.Totals → List ℕ → Type 0 };

    /// The column that has the number. `None`: it is the whole line.
    fn column(self) -> Option<Column>
        ensures { result ≡ column_of self };

    /// Whether the first line of an input is a header, which has no number.
    fn has_header(self) -> bool
        ensures { result ≡ (adding self).header };

    /// The totals of no number.
    fn none(self) -> Self::Totals
        ensures is { result ≡ (adding self).none }
        ensures count { (adding self).count_of result ≡ 0 };

    /// Of how many numbers some totals are.
    fn count_of(self, totals: Self::Totals) -> u128
        ensures { result ≡ (adding self).count_of totals };

    /// With the number of a line; or the fault of that line.
    fn add_line(self, totals: Self::Totals, line: &[u8]) -> Result<Self::Totals, LineFault>
        requires valid { valid self }
        requires room { (adding self).count_of totals < 2 ^ 127 }
        ensures is { result ≡ with_value (adding self) totals ((adding self).value_of line.now) }
        ensures count { IfOk result (λ more.
            (adding self).count_of more ≡ (adding self).count_of totals + 1) };

    /// With the numbers of many usual lines at the front of a long text, as far as these go.
    fn add_many<'a>(self, totals: Self::Totals, text: &'a [u8]) -> Added<'a, Self::Totals>
        requires valid { valid self }
        requires short { length text.now ≤ most_bytes + 1 }
        requires room { (adding self).count_of totals + length text.now ≤ 2 ^ 127 }
        ensures { Leaves (adding self) totals text.now result.totals result.rest.now };

    /// With the numbers of usual lines at the front of a text, one after the other.
    fn add_quick<'a>(
        self,
        totals: Self::Totals,
        text: &'a [u8],
    ) -> Result<Added<'a, Self::Totals>, LineFault>
        requires valid { valid self }
        requires short { length text.now ≤ most_bytes + 1 }
        requires room { (adding self).count_of totals + length text.now ≤ 2 ^ 127 }
        ensures rest { IfOk result (λ added.
            Leaves (adding self) totals text.now added.totals added.rest.now) }
        ensures fault { IfErr result (EndsIn (adding self) totals text.now) };

    /// The line of the totals.
    fn line_of<A: Allocator>(
        self,
        alloc: &A,
        totals: Self::Totals,
    ) -> Result<Vec<u8, &A>, AllocError>
        requires { valid self }
        ensures { IfOk result (λ line. IsLine self totals line.items) };

    // Totals count their numbers.
    ghost counts: { (k : Self) (t : Self.Totals) (value : Value)
        → (adding k).count_of ((adding k).plus t value) ≡ (adding k).count_of t + 1 };
}

//! A sum of floats, as what a run adds up.

use super::adds::{Added, Adds};
use super::fault::LineFault;
use super::options::{Column, FloatOptions};
use super::text::float_line;
use super::totals::FloatTotals;
use super::value::float_of;
use std::alloc::{AllocError, Allocator};

impl Adds for FloatOptions {
    ghost use Rattle.std.proofs.Common.{refl};
    ghost use Rattle.std.specs.Prelude.{⊤};
    ghost use Rattle.std.specs.Float.Ieee.{Float};
    ghost use Rattle.digit_totals.specs.Floats as sums;
    ghost use Rattle.digit_totals.specs.Text as Text;

    type Totals = FloatTotals;

    ghost Value = { Float };

    ghost valid = { λ options. ⊤ };

    ghost adding = { sums.adding };

    ghost column_of = { λ options. options.column };

    ghost IsLine = { λ options. Text.IsFloatLineOf };

    fn column(self) -> Option<Column> {
        self.column
    }

    fn has_header(self) -> bool {
        self.header
    }

    fn none(self) -> FloatTotals {
        FloatTotals::new()
    }

    fn count_of(self, totals: FloatTotals) -> u128 {
        totals.count
    }

    fn add_line(self, totals: FloatTotals, line: &[u8]) -> Result<FloatTotals, LineFault> {
        match float_of(self, line) {
            Ok(value) => Ok(totals.plus(value)),
            Err(error) => Err(LineFault::Number(totals.count + 1, error)),
        }
    }

    /// None is read so.
    #[inline(always)]
    fn add_many<'a>(self, totals: FloatTotals, text: &'a [u8]) -> Added<'a, FloatTotals> {
        Added { totals, rest: text }
    }

    /// None is read so.
    #[inline(always)]
    fn add_quick<'a>(
        self,
        totals: FloatTotals,
        text: &'a [u8],
    ) -> Result<Added<'a, FloatTotals>, LineFault> {
        Ok(Added { totals, rest: text })
    }

    fn line_of<A: Allocator>(
        self,
        alloc: &A,
        totals: FloatTotals,
    ) -> Result<Vec<u8, &A>, AllocError> {
        float_line(alloc, totals)
    }

    ghost counts = { λ options t value. refl };
}

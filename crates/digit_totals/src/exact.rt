//! An exact sum, as what a run adds up.

use super::adds::{Added, Adds};
use super::fault::LineFault;
use super::many::add_many;
use super::options::{Column, Options};
use super::quick::add_quick;
use super::text::line_of;
use super::totals::Totals;
use super::value::value_of;
use std::alloc::{AllocError, Allocator};

impl Adds for Options {
    ghost use Rattle.std.proofs.Common.{refl};
    ghost use Rattle.std.specs.Prelude.{ℤ};
    ghost use Rattle.digit_totals.specs.Text as Text;
    ghost use Rattle.digit_totals.specs.Totals as sums;
    ghost use Rattle.digit_totals.specs.Value.{HasFewPlaces};

    type Totals = Totals;

    ghost Value = { ℤ };

    ghost valid = { λ options. HasFewPlaces options.kind };

    ghost adding = { sums.adding };

    ghost column_of = { λ options. options.column };

    ghost IsLine = { λ options. Text.IsLineOf options.kind };

    fn column(self) -> Option<Column> {
        self.column
    }

    fn has_header(self) -> bool {
        self.header
    }

    fn none(self) -> Totals {
        Totals::new()
    }

    fn count_of(self, totals: Totals) -> u128 {
        totals.count
    }

    fn add_line(self, totals: Totals, line: &[u8]) -> Result<Totals, LineFault> {
        match value_of(self, line) {
            Ok(value) => totals.plus(value),
            Err(error) => Err(LineFault::Number(totals.count + 1, error)),
        }
    }

    #[inline(always)]
    fn add_many<'a>(self, totals: Totals, text: &'a [u8]) -> Added<'a, Totals> {
        add_many(self, totals, text)
    }

    #[inline(always)]
    fn add_quick<'a>(self, totals: Totals, text: &'a [u8]) -> Result<Added<'a, Totals>, LineFault> {
        add_quick(self, totals, text)
    }

    fn line_of<A: Allocator>(self, alloc: &A, totals: Totals) -> Result<Vec<u8, &A>, AllocError> {
        line_of(alloc, self.kind, totals)
    }

    ghost counts = { λ options t value. refl };
}

//! Dates of ISO 8601, such as `2026-11-25`: fields of two or four digits, and whether the year has
//! that day. A text that has no date is none.
//!
//! Proof by hand: none.

ghost use Rattle.std.specs.Prelude.{◌≡◌, IfSome, IfNone};
ghost use Rattle.digit_uses.specs.Dates.{HasFields, IsDate, days_of, has_day, is_leap};

use digits::{expect_byte, read_exactly};

/// A date.
#[derive(Clone, Copy, Debug, PartialEq, Eq)]
pub struct Date {
    pub year: u16,
    /// From 1 on.
    pub month: u8,
    /// From 1 on.
    pub day: u8,
}

/// Whether a year has a 29th of February.
fn is_leap(year: u16) -> bool
    ensures { result ≡ is_leap year }
{
    year % 4 == 0 && (year % 100 != 0 || year % 400 == 0)
}

/// How many days a month has, of a year.
fn days_of(year: u16, month: u8) -> u8
    ensures { result ≡ days_of year month }
{
    match month {
        2 if is_leap(year) => 29,
        2 => 28,
        4 | 6 | 9 | 11 => 30,
        _ => 31,
    }
}

/// Whether a year has a day of a month.
fn has_day(year: u16, month: u8, day: u8) -> bool
    ensures { result ≡ has_day year month day }
{
    1 <= month && month <= 12 && 1 <= day && day <= days_of(year, month)
}

/// The fields that a text begins with.
fn read_fields(text: &[u8]) -> Option<Date>
    ensures fields { IfSome result (HasFields text.now) }
    ensures none { IfNone result ((date : Date) → HasFields text.now date → ⊥) }
{
    let (year, at) = read_exactly::<u16>(text, 0, 10, 4).ok()?;
    let at = expect_byte(text, at, b'-').ok()?;
    let (month, at) = read_exactly::<u8>(text, at, 10, 2).ok()?;
    let at = expect_byte(text, at, b'-').ok()?;
    let (day, _) = read_exactly::<u8>(text, at, 10, 2).ok()?;
    Some(Date { year, month, day })
}

/// The date that a text is, if it is one.
pub fn parse_date(text: &[u8]) -> Option<Date>
    ensures date { IfSome result (IsDate text.now) }
    ensures none { IfNone result ((date : Date) → IsDate text.now date → ⊥) }
{
    let date = read_fields(text)?;
    if text.len() == 10 && has_day(date.year, date.month, date.day) {
        Some(date)
    } else {
        None
    }
}

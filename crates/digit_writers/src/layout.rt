//! How a number is laid out: radix, case, groups, zeros before it, and plus.

ghost use Rattle.std.specs.Prelude.{◌≡◌, IsTrue};
ghost use Rattle.digit_writers.specs.Valid.{is_layout};

use lexical_format::char_is_digit_const;

/// How [`write_number_by`](crate::write_number_by) lays a number out. Begin with
/// [`Layout::decimal`] or [`Layout::of_radix`].
#[derive(Clone, Copy, Debug, PartialEq, Eq)]
pub struct Layout {
    /// The radix, 2 to 36.
    pub radix: u8,
    /// Whether the digits from 10 on are `A` to `Z`, and not `a` to `z`.
    pub is_upper: bool,
    /// The byte between two groups of digits.
    pub separator: u8,
    /// How many digits a group has, counted from the last one. 0 means that there are no groups.
    pub every: u8,
    /// The least number of digits: a shorter number gets leading zeros. Signs and separators don't
    /// count.
    pub digits: u8,
    /// Whether a number of 0 or more gets a `+`.
    pub has_plus: bool,
    ghost valid: { IsTrue (is_layout radix separator every) },
}

/// Whether a radix has digits, and a byte is none of them, nor 0; if there are no groups, any byte
/// serves.
fn is_layout(radix: u8, separator: u8, every: u8) -> bool
    ensures { result ≡ is_layout radix separator every }
{
    if radix < 2 || radix > 36 {
        return false;
    }
    every == 0 || (separator > 0 && !char_is_digit_const(separator, u32::from(radix)))
}

impl Layout {
    ghost use Rattle.std.specs.Prelude.{◌≡◌, ◌&&◌, ◌||◌, ◌==◌, true, false, MatchOption};
    ghost use Rattle.digit_writers.specs.Valid.{is_layout};
    ghost use Rattle.digit_writers.specs.Layouts.{HasParts};

    /// Decimal digits, without groups, zeros or plus: what [`write_number`](crate::write_number)
    /// writes.
    pub fn decimal() -> Layout
        ensures { HasParts 10 false 0 0 1 false result }
    {
        Layout {
            radix: 10,
            is_upper: false,
            separator: 0,
            every: 0,
            digits: 1,
            has_plus: false,
        }
    }

    /// Digits of a radix, in lower case, without groups, leading zeros or plus. It returns `None`
    /// if the radix isn't 2 to 36.
    pub fn of_radix(radix: u8) -> Option<Layout>
        ensures { MatchOption result (is_layout radix 0 0 ≡ false)
            (HasParts radix false 0 0 1 false) }
    {
        if !is_layout(radix, 0, 0) {
            return None;
        }
        Some(Layout {
            radix,
            is_upper: false,
            separator: 0,
            every: 0,
            digits: 1,
            has_plus: false,
        })
    }

    /// The same layout with `separator` between groups of `every` digits, counted from the last
    /// digit. If `every` is 0, there are no groups. It returns `None` if there are groups, and the
    /// separator is 0 or a digit of the radix.
    pub fn grouped(self, separator: u8, every: u8) -> Option<Layout>
        ensures { MatchOption result (is_layout self.radix separator every ≡ false)
            (HasParts self.radix self.is_upper separator every self.digits self.has_plus) }
    {
        if !is_layout(self.radix, separator, every) {
            return None;
        }
        Some(Layout {
            radix: self.radix,
            is_upper: self.is_upper,
            separator,
            every,
            digits: self.digits,
            has_plus: self.has_plus,
        })
    }

    /// The same with zeros before a number that has fewer digits than these.
    pub fn with_digits(self, digits: u8) -> Layout
        ensures { HasParts self.radix self.is_upper self.separator self.every digits self.has_plus
            result }
    {
        Layout {
            radix: self.radix,
            is_upper: self.is_upper,
            separator: self.separator,
            every: self.every,
            digits,
            has_plus: self.has_plus,
        }
    }

    /// The same with a `+` before a number that is not below 0.
    pub fn with_plus(self) -> Layout
        ensures { HasParts self.radix self.is_upper self.separator self.every self.digits true
            result }
    {
        Layout {
            radix: self.radix,
            is_upper: self.is_upper,
            separator: self.separator,
            every: self.every,
            digits: self.digits,
            has_plus: true,
        }
    }

    /// The same with `A` to `Z` for the digits from 10 on.
    pub fn in_upper_case(self) -> Layout
        ensures { HasParts self.radix true self.separator self.every self.digits self.has_plus
            result }
    {
        Layout {
            radix: self.radix,
            is_upper: true,
            separator: self.separator,
            every: self.every,
            digits: self.digits,
            has_plus: self.has_plus,
        }
    }
}

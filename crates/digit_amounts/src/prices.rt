//! Decimal numbers with an exact number of places, and with groups of three digits, as prices have.

ghost use Rattle.std.specs.Prelude.{◌≡◌, ◌<◌, ◌≤◌, Some, Ok, Err, length, IfOk, IsTrue, MatchResult};
ghost use Rattle.lexical_format.specs.Word.{is_supported};
ghost use Rattle.digit_integers.specs.Numbers.{digits_from};
ghost use Rattle.digit_floats.specs.Float.{IsDecimal};
ghost use Rattle.digit_amounts.specs.Groups.{groups_at, AreGroups};
ghost use Rattle.digit_amounts.specs.Prices.{places_at, exact_at, grouped_at, price_at, price_none_at, price_position, price_message};

use super::groups::wrong_group;
use super::scaled::{ScaledError, read_scaled_from, sign_of};
use digit_floats::read_mantissa;
use digit_integers::Integer;
use std::error::Error;
use std::fmt;

/// Why no amount with these places, or in groups of three digits, was read. A position counts bytes
/// from the start of the text, from 0.
#[derive(Clone, Copy, Debug, PartialEq, Eq)]
pub enum PriceError {
    /// Why no amount was read.
    Number(ScaledError),
    /// The group of digits that begins at this position has a wrong length. The first group of an
    /// integer has one to three digits, and each other one three.
    Group(usize),
    /// The number that ends at this position has too few or too many decimal places.
    Places(usize),
}

impl PriceError {
    /// The position of the fault.
    pub fn position(&self) -> usize
        ensures { result ≡ price_position self.now }
    {
        match *self {
            PriceError::Number(error) => error.position(),
            PriceError::Group(at) | PriceError::Places(at) => at,
        }
    }

    /// Whether the error says that no number begins at `place`: no digit, no point, and no sign
    /// that the type has.
    pub fn is_none_at(&self, place: usize) -> bool
        ensures { result ≡ price_none_at place self.now }
    {
        match *self {
            PriceError::Number(error) => error.is_none_at(place),
            PriceError::Group(_) | PriceError::Places(_) => false,
        }
    }
}

impl fmt::Display for PriceError {
    ghost output = { λ e. Some (price_message e) };

    fn fmt<W: fmt::Write>(&self, f: &mut fmt::Formatter<W>) -> fmt::Result {
        match self {
            PriceError::Number(error) => fmt::Display::fmt(error, f),
            PriceError::Group(at) => write!(f, "the digits at {at} are no group of three"),
            PriceError::Places(at) => {
                write!(f, "the number that ends at {at} has fewer or more places")
            }
        }
    }
}

impl Error for PriceError {}

impl From<ScaledError> for PriceError {
    ghost use Rattle.std.specs.Prelude.{◌≡◌};
    ghost use Rattle.digit_amounts.specs.declared.prices.PriceError.TheVariants.{Number};

    ghost from_gives = { λ error price. price ≡ Number error };

    fn from(error: ScaledError) -> PriceError {
        PriceError::Number(error)
    }
}

/// How many digits the fraction of the number at a position has.
#[inline(always)]
fn count_places(text: &[u8], word: u128, at: usize, point: u8) -> usize
    requires supported { IsTrue (is_supported word) }
    requires decimal { IsDecimal word }
    requires within { at ≤ length text.now }
    ensures { result ≡ places_at word text.now point at }
{
    read_mantissa(text, word, at, point).places
}

/// Reads an amount with exactly `places` places: `12.50`, and not `12.5`. Requires that `start` is
/// within the text, that the word is supported and decimal, and that there are at most 38 places.
///
/// It is [`read_scaled_from`](crate::read_scaled_from), where the fraction has to have `places`
/// digits. So a zero at its end is no longer optional.
///
/// ```text
/// of 2 places: `1.50;` Ok((150, 4)); `1.5;` Err(Places(3)); `1.500` Err(Places(5))
/// `1.505` Err(Number(TooFine(4)))
/// ```
#[inline]
pub fn read_exact_from<T: Integer>(
    text: &[u8],
    word: u128,
    start: usize,
    point: u8,
    places: usize,
) -> Result<(T, usize), PriceError>
    requires supported { IsTrue (is_supported word) }
    requires decimal { IsDecimal word }
    requires within { start ≤ length text.now }
    requires places { places ≤ 38 }
    ensures is { let read = exact_at word text.now point places T.MIN_MAGNITUDE T.MAX start in
        MatchResult result (λ r. read ≡ Ok (T.number r.0, r.1)) (λ error. read ≡ Err error) }
    ensures places { let at = digits_from T.MIN_MAGNITUDE text.now start in
        IfOk result (λ _. places_at word text.now point at ≡ places) }
    ensures end { IfOk result (λ r. (start < r.1) × (r.1 ≤ length text.now)) }
{
    let (value, end) = read_scaled_from::<T>(text, word, start, point, places)?;
    if count_places(text, word, sign_of::<T>(text, start).1, point) == places {
        Ok((value, end))
    } else {
        Err(PriceError::Places(end))
    }
}

/// Reads an amount in groups of three digits: `1,234.5`.
///
/// It is [`read_scaled_from`](crate::read_scaled_from), where the whole digits between two
/// separators have to be three, and those before the first one to three
/// ([`wrong_group`](crate::wrong_group)). Requires what that does.
///
/// ```text
/// of 2 places, with `,` between digits: `1,234.5;` Ok((123450, 7)); `12.50` Ok((1250, 5))
/// `1,2,3.00` Err(Group(2)); `12,34` Err(Group(3)); `1234.50` Err(Group(0))
/// ```
#[inline]
pub fn read_grouped_from<T: Integer>(
    text: &[u8],
    word: u128,
    start: usize,
    point: u8,
    places: usize,
) -> Result<(T, usize), PriceError>
    requires supported { IsTrue (is_supported word) }
    requires decimal { IsDecimal word }
    requires within { start ≤ length text.now }
    requires places { places ≤ 38 }
    ensures is { let read = grouped_at word text.now point places T.MIN_MAGNITUDE T.MAX start in
        MatchResult result (λ r. read ≡ Ok (T.number r.0, r.1)) (λ error. read ≡ Err error) }
    ensures groups { let at = digits_from T.MIN_MAGNITUDE text.now start in
        IfOk result (λ _. AreGroups (groups_at word text.now at)) }
    ensures end { IfOk result (λ r. (start < r.1) × (r.1 ≤ length text.now)) }
{
    let (value, end) = read_scaled_from::<T>(text, word, start, point, places)?;
    match wrong_group(text, word, sign_of::<T>(text, start).1) {
        None => Ok((value, end)),
        Some(wrong) => Err(PriceError::Group(wrong)),
    }
}

/// Reads an amount with groups of three and exactly `places` places: `1,234.50`.
///
/// The groups are as by [`read_grouped_from`], and the places as by [`read_exact_from`]. Requires
/// what these do.
///
/// ```text
/// of 2 places, with `,` between digits: `1,234.50 EUR` Ok((123450, 8)); `1,234.5` Err(Places(7))
/// ```
#[inline]
pub fn read_price_from<T: Integer>(
    text: &[u8],
    word: u128,
    start: usize,
    point: u8,
    places: usize,
) -> Result<(T, usize), PriceError>
    requires supported { IsTrue (is_supported word) }
    requires decimal { IsDecimal word }
    requires within { start ≤ length text.now }
    requires places { places ≤ 38 }
    ensures is { let read = price_at word text.now point places T.MIN_MAGNITUDE T.MAX start in
        MatchResult result (λ r. read ≡ Ok (T.number r.0, r.1)) (λ error. read ≡ Err error) }
    ensures places { let at = digits_from T.MIN_MAGNITUDE text.now start in
        IfOk result (λ _. places_at word text.now point at ≡ places) }
    ensures groups { let at = digits_from T.MIN_MAGNITUDE text.now start in
        IfOk result (λ _. AreGroups (groups_at word text.now at)) }
    ensures end { IfOk result (λ r. (start < r.1) × (r.1 ≤ length text.now)) }
{
    let (value, end) = read_grouped_from::<T>(text, word, start, point, places)?;
    if count_places(text, word, sign_of::<T>(text, start).1, point) == places {
        Ok((value, end))
    } else {
        Err(PriceError::Places(end))
    }
}

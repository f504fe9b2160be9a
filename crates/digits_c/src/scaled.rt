//! Decimal numbers as integers, exactly.

ghost use Rattle.std.specs.Prelude.{◌^◌, ◌-◌, pos};
ghost use Rattle.digits.specs.Words.{STANDARD};
ghost use Rattle.digits_c.specs.Calls.{scaled_from, whole_scaled, word_of};
ghost use Rattle.digits_c.specs.Outcomes.{Answers};

use super::outcome::{BAD_PLACES, BAD_START, BAD_WORD, Outcome};
use super::word::{Word, is_decimal};
use digits::{Integer, STANDARD, is_supported, parse_scaled, read_scaled_from};

/// The decimal number that begins at a start, times ten to the power `places`.
#[inline(always)]
fn read<T: Integer>(
    text: &[u8],
    start: usize,
    word: u128,
    point: u8,
    places: usize,
    value: &mut T,
) -> Outcome
    ensures { Answers (pos 0)
        (scaled_from T.MIN_MAGNITUDE T.MAX word text.now point places start)
        (T.number value.new) result }
{
    *value = T::of_magnitude(false, 0);
    if !is_supported(word) || !is_decimal(word) {
        return Outcome::fault(BAD_WORD, start);
    }
    if places > 38 {
        return Outcome::fault(BAD_PLACES, start);
    }
    if start > text.len() {
        return Outcome::fault(BAD_START, start);
    }
    match read_scaled_from::<T>(text, word, start, point, places) {
        Ok((number, end)) => {
            *value = number;
            Outcome::done(end)
        }
        Err(error) => Outcome::of_scaled(error),
    }
}

/// The decimal number that a text is, times ten to the power `places`.
#[inline(always)]
fn parse<T: Integer>(text: &[u8], word: u128, point: u8, places: usize, value: &mut T) -> Outcome
    ensures { Answers (pos 0)
        (whole_scaled T.MIN_MAGNITUDE T.MAX word text.now point places)
        (T.number value.new) result }
{
    *value = T::of_magnitude(false, 0);
    if !is_supported(word) || !is_decimal(word) {
        return Outcome::fault(BAD_WORD, 0);
    }
    if places > 38 {
        return Outcome::fault(BAD_PLACES, 0);
    }
    match parse_scaled::<T>(text, word, point, places) {
        Ok(number) => {
            *value = number;
            Outcome::done(text.len())
        }
        Err(error) => Outcome::of_scaled(error),
    }
}

/// The decimal number that begins at a start, times ten to the power `places`. The point is `.`.
#[unsafe(no_mangle)]
pub extern "C" fn digits_read_scaled_i64(
    text: &[u8],
    start: usize,
    places: usize,
    value: &mut i64,
) -> Outcome
    ensures { Answers (pos 0)
        (scaled_from (2 ^ 63) (2 ^ 63 - 1) STANDARD text.now 46 places start)
        value.new result }
{
    read::<i64>(text, start, STANDARD, b'.', places, value)
}

/// The same by a word, and with another point.
#[unsafe(no_mangle)]
pub extern "C" fn digits_read_scaled_i64_by(
    text: &[u8],
    start: usize,
    places: usize,
    word: Word,
    point: u8,
    value: &mut i64,
) -> Outcome
    ensures { Answers (pos 0)
        (scaled_from (2 ^ 63) (2 ^ 63 - 1) (word_of word) text.now point places start)
        value.new result }
{
    read::<i64>(text, start, word.whole(), point, places, value)
}

/// The decimal number that a text is, times ten to the power `places`. The point is `.`.
#[unsafe(no_mangle)]
pub extern "C" fn digits_parse_scaled_i64(text: &[u8], places: usize, value: &mut i64) -> Outcome
    ensures { Answers (pos 0)
        (whole_scaled (2 ^ 63) (2 ^ 63 - 1) STANDARD text.now 46 places)
        value.new result }
{
    parse::<i64>(text, STANDARD, b'.', places, value)
}

/// The same by a word, and with another point.
#[unsafe(no_mangle)]
pub extern "C" fn digits_parse_scaled_i64_by(
    text: &[u8],
    places: usize,
    word: Word,
    point: u8,
    value: &mut i64,
) -> Outcome
    ensures { Answers (pos 0)
        (whole_scaled (2 ^ 63) (2 ^ 63 - 1) (word_of word) text.now point places)
        value.new result }
{
    parse::<i64>(text, word.whole(), point, places, value)
}

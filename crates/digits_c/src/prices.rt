//! Prices: decimal numbers as integers, with exactly so many places, and in groups of three digits.

ghost use Rattle.std.specs.Prelude.{◌≡◌, ◌≤◌, ◌^◌, ◌-◌, nat_lt, true, length, pos, Ok, Err, IsTrue, MatchResult};
ghost use Rattle.digit_amounts.specs.Prices.{price_by};
ghost use Rattle.digits.specs.Words.{IsDecimal, is_supported};
ghost use Rattle.digits_c.specs.Calls.{groups_word, price_from, whole_price, word_of};
ghost use Rattle.digits_c.specs.Outcomes.{Answers};

use super::outcome::{BAD_PLACES, BAD_START, BAD_WORD, INVALID, Outcome};
use super::word::{Word, is_decimal};
use digits::{
    INTEGER_INTERNAL_DIGIT_SEPARATOR, Integer, PriceError, STANDARD, is_supported, read_exact_from,
    read_price_from,
};

/// The word by which a price has its groups: decimal, and a separator between two digits of an
/// integer is dropped.
#[inline(always)]
pub fn groups_word(separator: u8) -> u128
    ensures { result ≡ groups_word separator }
{
    STANDARD + INTEGER_INTERNAL_DIGIT_SEPARATOR + (u128::from(separator) << 64)
}

/// The number that begins at a start, with exactly so many places, and maybe in groups of three
/// digits.
#[inline(always)]
fn exactly<T: Integer>(
    text: &[u8],
    start: usize,
    is_grouped: bool,
    word: u128,
    point: u8,
    places: usize,
) -> Result<(T, usize), PriceError>
    requires supported { IsTrue (is_supported word) }
    requires decimal { IsDecimal word }
    requires within { start ≤ length text.now }
    requires places { places ≤ 38 }
    ensures { let read = price_by true is_grouped word text.now point places T.MIN_MAGNITUDE
        T.MAX start in
        MatchResult result (λ r. read ≡ Ok (T.number r.0, r.1)) (λ error. read ≡ Err error) }
{
    if is_grouped {
        read_price_from::<T>(text, word, start, point, places)
    } else {
        read_exact_from::<T>(text, word, start, point, places)
    }
}

/// The same of any arguments: where one is at fault, its outcome.
#[inline(never)]
fn price<T: Integer>(
    text: &[u8],
    start: usize,
    is_grouped: bool,
    word: u128,
    point: u8,
    places: usize,
) -> Result<(T, usize), Outcome>
    ensures { let read = price_from is_grouped T.MIN_MAGNITUDE T.MAX word text.now point places
        start in
        MatchResult result (λ r. read ≡ Ok (T.number r.0, r.1)) (λ fault. read ≡ Err fault) }
{
    if !is_supported(word) || !is_decimal(word) {
        return Err(Outcome::fault(BAD_WORD, start));
    }
    if places > 38 {
        return Err(Outcome::fault(BAD_PLACES, start));
    }
    if start > text.len() {
        return Err(Outcome::fault(BAD_START, start));
    }
    match exactly::<T>(text, start, is_grouped, word, point, places) {
        Ok(price) => Ok(price),
        Err(error) => Err(Outcome::of_price(error)),
    }
}

/// The price that begins at a start, times ten to the power `places`.
#[inline(always)]
fn read<T: Integer>(
    text: &[u8],
    start: usize,
    is_grouped: bool,
    word: u128,
    point: u8,
    places: usize,
    value: &mut T,
) -> Outcome
    ensures { Answers (pos 0)
        (price_from is_grouped T.MIN_MAGNITUDE T.MAX word text.now point places start)
        (T.number value.new) result }
{
    *value = T::of_magnitude(false, 0);
    match price::<T>(text, start, is_grouped, word, point, places) {
        Ok((number, end)) => {
            *value = number;
            Outcome::done(end)
        }
        Err(fault) => fault,
    }
}

/// The price that a text is, times ten to the power `places`.
#[inline(always)]
fn parse<T: Integer>(
    text: &[u8],
    is_grouped: bool,
    word: u128,
    point: u8,
    places: usize,
    value: &mut T,
) -> Outcome
    ensures { Answers (pos 0)
        (whole_price is_grouped T.MIN_MAGNITUDE T.MAX word text.now point places)
        (T.number value.new) result }
{
    *value = T::of_magnitude(false, 0);
    match price::<T>(text, 0, is_grouped, word, point, places) {
        Ok((number, end)) => {
            if end == text.len() {
                *value = number;
                Outcome::done(end)
            } else {
                Outcome::fault(INVALID, end)
            }
        }
        Err(fault) => fault,
    }
}

/// The price that begins at a start, times ten to the power `places`, as [`digits_write_price_i64`]
/// writes it: with a separator between groups of three digits of the integer, or with 0 and no
/// groups, and with a point before exactly so many places.
///
/// [`digits_write_price_i64`]: super::write::digits_write_price_i64
#[unsafe(no_mangle)]
pub extern "C" fn digits_read_price_i64(
    text: &[u8],
    start: usize,
    places: usize,
    separator: u8,
    point: u8,
    value: &mut i64,
) -> Outcome
    ensures { Answers (pos 0)
        (price_from (nat_lt 0 separator) (2 ^ 63) (2 ^ 63 - 1) (groups_word separator) text.now
        point places start) value.new result }
{
    let word = groups_word(separator);
    read::<i64>(text, start, separator > 0, word, point, places, value)
}

/// The same by a word, in groups of three digits by whatever separator the word drops.
#[unsafe(no_mangle)]
pub extern "C" fn digits_read_price_i64_by(
    text: &[u8],
    start: usize,
    places: usize,
    word: Word,
    point: u8,
    value: &mut i64,
) -> Outcome
    ensures { Answers (pos 0)
        (price_from true (2 ^ 63) (2 ^ 63 - 1) (word_of word) text.now point places start)
        value.new result }
{
    read::<i64>(text, start, true, word.whole(), point, places, value)
}

/// The price that a text is, times ten to the power `places`, by a separator or by 0.
#[unsafe(no_mangle)]
pub extern "C" fn digits_parse_price_i64(
    text: &[u8],
    places: usize,
    separator: u8,
    point: u8,
    value: &mut i64,
) -> Outcome
    ensures { Answers (pos 0)
        (whole_price (nat_lt 0 separator) (2 ^ 63) (2 ^ 63 - 1) (groups_word separator) text.now
        point places) value.new result }
{
    let word = groups_word(separator);
    parse::<i64>(text, separator > 0, word, point, places, value)
}

/// The same by a word.
#[unsafe(no_mangle)]
pub extern "C" fn digits_parse_price_i64_by(
    text: &[u8],
    places: usize,
    word: Word,
    point: u8,
    value: &mut i64,
) -> Outcome
    ensures { Answers (pos 0)
        (whole_price true (2 ^ 63) (2 ^ 63 - 1) (word_of word) text.now point places)
        value.new result }
{
    parse::<i64>(text, true, word.whole(), point, places, value)
}

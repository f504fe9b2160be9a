//! Integers of a type.

ghost use Rattle.std.specs.Prelude.{◌^◌, ◌-◌, pos};
ghost use Rattle.digits.specs.Words.{STANDARD};
ghost use Rattle.digits_c.specs.Calls.{integer_from, whole_integer, word_of};
ghost use Rattle.digits_c.specs.Outcomes.{Answers};

use super::outcome::{BAD_START, BAD_WORD, Outcome};
use super::word::Word;
use digits::{Integer, STANDARD, is_supported, parse_number, read_number_from};

/// The integer of a type that begins at a start.
#[inline(always)]
fn read<T: Integer>(text: &[u8], start: usize, word: u128, value: &mut T) -> Outcome
    ensures { Answers (pos 0) (integer_from T.MIN_MAGNITUDE T.MAX word text.now start)
        (T.number value.new) result }
{
    *value = T::of_magnitude(false, 0);
    if !is_supported(word) {
        return Outcome::fault(BAD_WORD, start);
    }
    if start > text.len() {
        return Outcome::fault(BAD_START, start);
    }
    match read_number_from::<T>(text, word, start) {
        Ok((number, end)) => {
            *value = number;
            Outcome::done(end)
        }
        Err(error) => Outcome::of_literal(error),
    }
}

/// The integer of a type that a text is.
#[inline(always)]
fn parse<T: Integer>(text: &[u8], word: u128, value: &mut T) -> Outcome
    ensures { Answers (pos 0) (whole_integer T.MIN_MAGNITUDE T.MAX word text.now)
        (T.number value.new) result }
{
    *value = T::of_magnitude(false, 0);
    if !is_supported(word) {
        return Outcome::fault(BAD_WORD, 0);
    }
    match parse_number::<T>(text, word) {
        Ok(number) => {
            *value = number;
            Outcome::done(text.len())
        }
        Err(error) => Outcome::of_parse(error),
    }
}

/// The `i64` that begins at a start.
#[unsafe(no_mangle)]
pub extern "C" fn digits_read_i64(text: &[u8], start: usize, value: &mut i64) -> Outcome
    ensures { Answers (pos 0) (integer_from (2 ^ 63) (2 ^ 63 - 1) STANDARD text.now start)
        value.new result }
{
    read::<i64>(text, start, STANDARD, value)
}

/// The `u64` that begins at a start.
#[unsafe(no_mangle)]
pub extern "C" fn digits_read_u64(text: &[u8], start: usize, value: &mut u64) -> Outcome
    ensures { Answers (pos 0) (integer_from 0 (2 ^ 64 - 1) STANDARD text.now start)
        (pos value.new) result }
{
    read::<u64>(text, start, STANDARD, value)
}

/// The `i32` that begins at a start.
#[unsafe(no_mangle)]
pub extern "C" fn digits_read_i32(text: &[u8], start: usize, value: &mut i32) -> Outcome
    ensures { Answers (pos 0) (integer_from (2 ^ 31) (2 ^ 31 - 1) STANDARD text.now start)
        value.new result }
{
    read::<i32>(text, start, STANDARD, value)
}

/// The `u32` that begins at a start.
#[unsafe(no_mangle)]
pub extern "C" fn digits_read_u32(text: &[u8], start: usize, value: &mut u32) -> Outcome
    ensures { Answers (pos 0) (integer_from 0 (2 ^ 32 - 1) STANDARD text.now start)
        (pos value.new) result }
{
    read::<u32>(text, start, STANDARD, value)
}

/// The `i64` that begins at a start, by a word.
#[unsafe(no_mangle)]
pub extern "C" fn digits_read_i64_by(
    text: &[u8],
    start: usize,
    word: Word,
    value: &mut i64,
) -> Outcome
    ensures { Answers (pos 0) (integer_from (2 ^ 63) (2 ^ 63 - 1) (word_of word) text.now start)
        value.new result }
{
    read::<i64>(text, start, word.whole(), value)
}

/// The `u64` that begins at a start, by a word.
#[unsafe(no_mangle)]
pub extern "C" fn digits_read_u64_by(
    text: &[u8],
    start: usize,
    word: Word,
    value: &mut u64,
) -> Outcome
    ensures { Answers (pos 0) (integer_from 0 (2 ^ 64 - 1) (word_of word) text.now start)
        (pos value.new) result }
{
    read::<u64>(text, start, word.whole(), value)
}

/// The `i32` that begins at a start, by a word.
#[unsafe(no_mangle)]
pub extern "C" fn digits_read_i32_by(
    text: &[u8],
    start: usize,
    word: Word,
    value: &mut i32,
) -> Outcome
    ensures { Answers (pos 0) (integer_from (2 ^ 31) (2 ^ 31 - 1) (word_of word) text.now start)
        value.new result }
{
    read::<i32>(text, start, word.whole(), value)
}

/// The `u32` that begins at a start, by a word.
#[unsafe(no_mangle)]
pub extern "C" fn digits_read_u32_by(
    text: &[u8],
    start: usize,
    word: Word,
    value: &mut u32,
) -> Outcome
    ensures { Answers (pos 0) (integer_from 0 (2 ^ 32 - 1) (word_of word) text.now start)
        (pos value.new) result }
{
    read::<u32>(text, start, word.whole(), value)
}

/// The `i64` that a text is.
#[unsafe(no_mangle)]
pub extern "C" fn digits_parse_i64(text: &[u8], value: &mut i64) -> Outcome
    ensures { Answers (pos 0) (whole_integer (2 ^ 63) (2 ^ 63 - 1) STANDARD text.now)
        value.new result }
{
    parse::<i64>(text, STANDARD, value)
}

/// The `u64` that a text is.
#[unsafe(no_mangle)]
pub extern "C" fn digits_parse_u64(text: &[u8], value: &mut u64) -> Outcome
    ensures { Answers (pos 0) (whole_integer 0 (2 ^ 64 - 1) STANDARD text.now)
        (pos value.new) result }
{
    parse::<u64>(text, STANDARD, value)
}

/// The `i32` that a text is.
#[unsafe(no_mangle)]
pub extern "C" fn digits_parse_i32(text: &[u8], value: &mut i32) -> Outcome
    ensures { Answers (pos 0) (whole_integer (2 ^ 31) (2 ^ 31 - 1) STANDARD text.now)
        value.new result }
{
    parse::<i32>(text, STANDARD, value)
}

/// The `u32` that a text is.
#[unsafe(no_mangle)]
pub extern "C" fn digits_parse_u32(text: &[u8], value: &mut u32) -> Outcome
    ensures { Answers (pos 0) (whole_integer 0 (2 ^ 32 - 1) STANDARD text.now)
        (pos value.new) result }
{
    parse::<u32>(text, STANDARD, value)
}

/// The `i64` that a text is, by a word.
#[unsafe(no_mangle)]
pub extern "C" fn digits_parse_i64_by(text: &[u8], word: Word, value: &mut i64) -> Outcome
    ensures { Answers (pos 0) (whole_integer (2 ^ 63) (2 ^ 63 - 1) (word_of word) text.now)
        value.new result }
{
    parse::<i64>(text, word.whole(), value)
}

/// The `u64` that a text is, by a word.
#[unsafe(no_mangle)]
pub extern "C" fn digits_parse_u64_by(text: &[u8], word: Word, value: &mut u64) -> Outcome
    ensures { Answers (pos 0) (whole_integer 0 (2 ^ 64 - 1) (word_of word) text.now)
        (pos value.new) result }
{
    parse::<u64>(text, word.whole(), value)
}

/// The `i32` that a text is, by a word.
#[unsafe(no_mangle)]
pub extern "C" fn digits_parse_i32_by(text: &[u8], word: Word, value: &mut i32) -> Outcome
    ensures { Answers (pos 0) (whole_integer (2 ^ 31) (2 ^ 31 - 1) (word_of word) text.now)
        value.new result }
{
    parse::<i32>(text, word.whole(), value)
}

/// The `u32` that a text is, by a word.
#[unsafe(no_mangle)]
pub extern "C" fn digits_parse_u32_by(text: &[u8], word: Word, value: &mut u32) -> Outcome
    ensures { Answers (pos 0) (whole_integer 0 (2 ^ 32 - 1) (word_of word) text.now)
        (pos value.new) result }
{
    parse::<u32>(text, word.whole(), value)
}

//! The digits that lead what an iterator yields: their value, their number, or both.

ghost use Rattle.std.specs.Prelude.{◌≡◌, ℕ, Bool, ◌+◌, ◌*◌, ◌-◌, ◌<◌, ◌≤◌, length, pos, ◌≤ℤ◌, ◌+ℤ◌, slice_get, is_some, option_and_then, MatchOption, IfOk, IfErr};
ghost use Rattle.lexical_format.specs.Digits.{digit_of_radix, is_digit_of_radix};
ghost use Rattle.lexical_digits.specs.Stop.{leading, after_leading};
ghost use Rattle.digit_values.specs.After.{digits_read};
ghost use Rattle.digit_values.specs.Peeks.{Peeks};
ghost use Rattle.digit_values.specs.Outcomes.{digits, ReadsAfter, StopsAt, ReadsAll, FindsNone, PassesMost, OverflowsAt, IfEmpty, IfOverflow};
ghost use Rattle.digit_values.specs.declared.LiteralError.TheVariants.{Overflow};

use super::LiteralError;
use lexical_digits::iterator::DigitsIter;
use lexical_format::char_to_digit_const;
use std::error::Error;
use std::fmt;

/// Digits that were read after a value.
#[derive(Clone, Copy, Debug, PartialEq, Eq)]
pub struct Digits {
    /// The value of the digits before them and of these, as one number.
    pub value: u64,
    /// How many digits were read, without those before.
    pub count: usize,
}

/// A value is above the greatest one that was asked for.
#[derive(Clone, Copy, Debug, PartialEq, Eq)]
pub struct TooLarge {
    /// The position of the first digit with which it is, in bytes from 0.
    pub at: usize,
    /// The value of the digits before, with those that were read before that position.
    pub value: u64,
    /// How many digits were read before that position.
    pub count: usize,
}

impl fmt::Display for TooLarge {
    ghost use Rattle.std.specs.Prelude.{◌++◌, Some, codes, decimal};

    ghost output = { λ e.
        Some (codes "the number is too large with the digit at " ++ decimal e.at) };

    fn fmt<W: fmt::Write>(&self, f: &mut fmt::Formatter<W>) -> fmt::Result {
        write!(f, "the number is too large with the digit at {}", self.at)
    }
}

impl Error for TooLarge {}

impl From<TooLarge> for LiteralError {
    ghost from_gives = { λ e r. r ≡ Overflow e.at };

    fn from(e: TooLarge) -> LiteralError {
        LiteralError::Overflow(e.at)
    }
}

/// The value of the byte at the place, if it is a digit.
#[inline(always)]
fn peek_digit<'a, I: DigitsIter<'a>>(iter: &mut I, radix: u32) -> Option<u32>
    ensures peeks { Peeks I.buffer I.cursor I.place I.taken I.settled (is_digit_of_radix radix)
        (I.meaning iter.old) (I.meaning iter.new) (is_some result) }
    ensures digit { let m = I.meaning iter.old in
        result ≡ option_and_then (digit_of_radix radix) (slice_get (I.buffer m) (I.place m)) }
    ensures owes { I.owed iter.new ≤ℤ (I.owed iter.old +ℤ pos 4) }
    ensures keeps_loan { I.loan iter.new ≡ I.loan iter.old }
{
    char_to_digit_const(*iter.peek()?, radix)
}

/// The value with one more digit, if that is at most `most`.
#[inline(always)]
pub fn add_digit(value: u64, radix: u32, digit: u32, most: u64) -> Option<u64>
    ensures { let more = value * radix + digit in
        MatchOption result (most < more) (λ v. (v ≡ more) × (v ≤ most)) }
{
    // the usual case: one comparison shows that the value fits
    if radix == 10 && digit < 10 && value < most / 10 {
        return Some(value * 10 + u64::from(digit));
    }
    let more = value
        .checked_mul(u64::from(radix))?
        .checked_add(u64::from(digit))?;
    if more > most {
        return None;
    }
    Some(more)
}

/// Takes the byte at the place.
#[inline(always)]
fn take_byte<'a, I: DigitsIter<'a>>(iter: &mut I)
    ensures takes { I.meaning iter.new ≡ I.taken (I.meaning iter.old) }
    ensures owes { I.owed iter.new ≤ℤ (I.owed iter.old +ℤ pos 4) }
    ensures keeps_loan { I.loan iter.new ≡ I.loan iter.old }
{
    iter.next();
}

/// Reads the digits of a radix that lead what an iterator yields, after the digits of a value:
/// answers the value of all of them, and how many digits were read. `next` takes each of them, and
/// so an iterator that counts has counted them. The cursor ends at the first item after them, past
/// any separators before that item, or at the end. No digit is no error: the value is `before`.
///
/// [`TooLarge`] holds the position of the first digit with which the value is above `most`. The
/// digits before it were taken, and the cursor is on it: their value and count are in the error.
///
/// Requires that `before` is at most `most`. Radix and digits are as in [`read_digits`]. Takes no
/// memory.
#[inline]
pub fn read_digits_after<'a, I: DigitsIter<'a>>(
    iter: &mut I,
    radix: u32,
    before: u64,
    most: u64,
) -> Result<Digits, TooLarge>
    requires { before ≤ most }
    ensures ok { IfOk result (λ read. ReadsAfter I.buffer I.cursor I.place I.taken I.settled radix
        before most (I.meaning iter.old) read (I.meaning iter.new)) }
    ensures too_large { IfErr result (λ error. StopsAt I.buffer I.cursor I.place I.taken
        I.settled radix before most (I.meaning iter.old) error (I.meaning iter.new)) }
    ensures owes { I.owed iter.new ≤ℤ (I.owed iter.old +ℤ pos (8 * digits_read result + 4)) }
    ensures keeps_loan { I.loan iter.new ≡ I.loan iter.old }
{
    let mut value = before;
    let mut count = 0;
    while let Some(digit) = peek_digit(iter, radix) {
        let Some(more) = add_digit(value, radix, digit, most) else {
            return Err(TooLarge {
                at: iter.cursor(),
                value,
                count,
            });
        };
        value = more;
        // at least `count` bytes are before this one
        prove!(count <= iter.cursor());
        take_byte(iter);
        count += 1;
    }
    Ok(Digits { value, count })
}

/// The value of the digits of a radix that lead what an iterator yields, if it is at most
/// `u64::MAX`. `next` takes each of them, and so an iterator that counts has counted them. The
/// cursor ends at the first item after them, past any separators before that item, or at the end.
///
/// [`Empty`](LiteralError::Empty) if the first item is no digit, or there is none: the cursor ends
/// at the position that it holds. [`Overflow`](LiteralError::Overflow) at the first digit with
/// which the value is above `u64::MAX`: the digits before it were taken, and the cursor is on it.
///
/// Digits are those of [`char_to_digit_const`](lexical_format::char_to_digit_const), letters in
/// either case, in any radix. Usually the radix is that of the iterator's own `is_digit`. Takes no
/// memory.
#[inline]
pub fn read_digits<'a, I: DigitsIter<'a>>(iter: &mut I, radix: u32) -> Result<u64, LiteralError>
    ensures ok { IfOk result (λ value.
        ReadsAll I.buffer I.cursor I.place I.taken I.settled radix (I.meaning iter.old)
        value (I.meaning iter.new)) }
    ensures empty { IfEmpty result (λ at.
        FindsNone I.buffer I.cursor I.place I.taken I.settled radix (I.meaning iter.old)
        at (I.meaning iter.new)) }
    ensures overflow { IfOverflow result (λ at.
        PassesMost I.buffer I.cursor I.place I.taken I.settled radix (I.meaning iter.old)
        at (I.meaning iter.new)) }
    ensures owes { let m = I.meaning iter.old in
        let read = length (digits I.buffer I.cursor I.place I.taken I.settled radix m) in
        I.owed iter.new ≤ℤ (I.owed iter.old +ℤ pos (8 * read + 4)) }
    ensures overflow_owes { IfOverflow result (λ at.
        OverflowsAt I.buffer I.cursor I.place I.taken I.settled radix (I.meaning iter.old)
        (I.owed iter.old) at (I.meaning iter.new) (I.owed iter.new)) }
    ensures keeps_loan { I.loan iter.new ≡ I.loan iter.old }
{
    let read = read_digits_after(iter, radix, 0, u64::MAX)?;
    if read.count == 0 {
        return Err(LiteralError::Empty(iter.cursor()));
    }
    Ok(read.value)
}

/// Whether the byte at the place is a digit: also by each test that tells bytes alike.
#[inline(always)]
fn peek_is_digit<'a, I: DigitsIter<'a>>(iter: &mut I) -> bool
    ensures peeks { let m = I.meaning iter.old in
        (p : ℕ → Bool) → ((byte : ℕ) → byte < 256 → p byte ≡ I.digit m byte)
        → Peeks I.buffer I.cursor I.place I.taken I.settled p m (I.meaning iter.new) result }
    ensures same { let m = I.meaning iter.old in
        (byte : ℕ) → byte < 256 → I.digit (I.taken m) byte ≡ I.digit m byte }
    ensures owes { I.owed iter.new ≤ℤ (I.owed iter.old +ℤ pos 4) }
    ensures keeps_loan { I.loan iter.new ≡ I.loan iter.old }
{
    match iter.peek() {
        Some(byte) => iter.is_digit(*byte),
        None => false,
    }
}

/// Takes the digits that lead what an iterator yields, and answers how many: a digit is a byte for
/// which the iterator's `is_digit` answers `true`. `next` takes each of them, and so an iterator
/// that counts has counted them. The cursor ends at the first item after them, past any separators
/// before that item, or at the end. Takes no memory.
#[inline]
pub fn take_digits<'a, I: DigitsIter<'a>>(iter: &mut I) -> usize
    ensures digits { let m = I.meaning iter.old in
        result ≡ length (leading I.buffer I.cursor I.place I.taken (I.digit m) m) }
    ensures leaves { let m = I.meaning iter.old in
        I.meaning iter.new
        ≡ after_leading I.buffer I.cursor I.place I.taken I.settled (I.digit m) m }
    ensures owes { I.owed iter.new ≤ℤ (I.owed iter.old +ℤ pos (8 * result + 4)) }
    ensures keeps_loan { I.loan iter.new ≡ I.loan iter.old }
{
    let mut digits = 0;
    while peek_is_digit(iter) {
        // at least `digits` bytes are before this one
        prove!(digits <= iter.cursor());
        take_byte(iter);
        digits += 1;
    }
    digits
}

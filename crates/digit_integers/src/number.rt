//! Numbers of any integer type.

ghost use Rattle.std.specs.Prelude.{◌≡◌, ◌+◌, ◌-◌, ◌<◌, ◌≤◌, if◌then◌else◌, Some, Ok, Err, length, false, IfSome, IfOk, IfErr, MatchResult, IsTrue, true};
ghost use Rattle.lexical_format.specs.Word.{is_supported};
ghost use Rattle.lexical_digits.specs.declared.skip.component.Component.TheVariants.{Integer};
ghost use Rattle.lexical_digits.specs.Separators.{IsSupported};
ghost use Rattle.lexical_digits.specs.State.{rule_of};
ghost use Rattle.digit_integers.specs.Answered.{ReadsInteger, IsToEnd, ParsesFrom};
ghost use Rattle.digit_values.specs.Outcomes.{IfEmpty, IfOverflow};
ghost use Rattle.digit_integers.specs.Errors.{position};
ghost use Rattle.digit_integers.specs.Numbers.{number_at, to_end, digits_from, is_negative_from, most_from};
ghost use Rattle.digit_values.specs.Reads.{IsFirst};

use super::ParseError;
use super::hexadecimal::read_hexadecimal;
use super::integer::{read_long, read_one_to_seven_from};
pub use super::types::Integer;
use super::wide::{read_again, read_wide_known};
use digit_values::{LiteralError, first_digit};
use lexical_digits::skip::{Component, Rule};
use lexical_format::NumberFormat;

/// What a number begins with.
#[derive(Clone, Copy)]
struct Head {
    /// Whether it has a `-`.
    is_negative: bool,
    /// Where its digits begin.
    begin: usize,
    /// The digit there, if it was tested.
    first: Option<u32>,
}

/// The greatest magnitude of a type, with or without a `-`.
#[inline(always)]
pub fn greatest<T: Integer>(has_minus: bool) -> u128
    ensures { result ≡ (if has_minus then T.MIN_MAGNITUDE else T.MAX) }
{
    if has_minus { T::MIN_MAGNITUDE } else { T::MAX }
}

/// The greatest magnitude that a type has both with a `-` and without, or of a type without a sign
/// its greatest one.
#[inline(always)]
pub fn greatest_of_both<T: Integer>() -> u128
    ensures positive { result ≤ T.MAX }
    ensures negative { 0 < T.MIN_MAGNITUDE → result ≤ T.MIN_MAGNITUDE }
{
    if T::MIN_MAGNITUDE == 0 || T::MAX < T::MIN_MAGNITUDE {
        T::MAX
    } else {
        T::MIN_MAGNITUDE
    }
}

/// What a number begins with at a position.
#[inline(always)]
fn read_head<T: Integer>(text: &[u8], rule: Rule, start: usize) -> Head
    requires { start ≤ length text.now }
    ensures negative { result.is_negative ≡ is_negative_from T.MIN_MAGNITUDE text.now start }
    ensures begins { result.begin ≡ digits_from T.MIN_MAGNITUDE text.now start }
    ensures first { IfSome result.first (IsFirst rule text.now result.begin 0 (Some T.MAX)) }
    ensures positive { IfSome result.first (λ _. result.is_negative ≡ false) }
    ensures onward { start ≤ result.begin }
    ensures within { result.begin ≤ length text.now }
{
    let mut head = Head {
        is_negative: false,
        begin: start,
        first: None,
    };
    if T::MIN_MAGNITUDE == 0 {
        return head;
    }
    head.first = first_digit(text, rule, start, 0, T::MAX);
    if head.first.is_some() {
        return head;
    }
    match text.get(start) {
        Some(b'-') => {
            head.is_negative = true;
            head.begin = start + 1;
        }
        Some(b'+') => head.begin = start + 1,
        _ => {}
    }
    head
}

/// Reads the integer at `start`, and returns the position after it. Requires that `start` is within
/// the text and the word is supported.
///
/// A `+` or a `-` may be first if the type has a sign. [`Empty(at)`](LiteralError::Empty) says that
/// no digit is at `at`, after the sign if there is one: the text ends, or another byte is there,
/// such as a separator that the word doesn't drop. [`Overflow`](LiteralError::Overflow) holds the
/// position of the first digit with which the type has no such number.
///
/// ```text
/// `8080:65536`, `read_number_from::<u16>` from 5: Err(Overflow(9))
/// ```
#[inline(always)]
pub fn read_number_from<T: Integer>(
    text: &[u8],
    word: u128,
    start: usize,
) -> Result<(T, usize), LiteralError>
    requires supported { IsTrue (is_supported word) }
    requires within { start ≤ length text.now }
    ensures is { let r = rule_of word Integer in MatchResult result
        (λ read. number_at T.MIN_MAGNITUDE T.MAX r text.now start ≡ Ok (T.number read.0, read.1))
        (λ error. number_at T.MIN_MAGNITUDE T.MAX r text.now start ≡ Err error) }
    ensures end { let n = length text.now in
        IfOk result (λ read. (start < read.1) × (read.1 ≤ n)) }
    ensures empty_at { let n = length text.now in
        IfEmpty result (λ at. (start ≤ at) × (at ≤ n)) }
    ensures overflow_at { let n = length text.now in
        IfOverflow result (λ at. (start ≤ at) × (at < n)) }
{
    let head = read_head::<T>(text, Rule::of(word, Component::Integer), start);
    let most = greatest::<T>(head.is_negative);
    let (magnitude, end) = read_wide_known(text, word, head.begin, head.first, most)?;
    Ok((T::of_magnitude(head.is_negative, magnitude), end))
}

/// Whether a number has a `-`, and where its digits begin, as [`read_head`] says: by no branch that
/// depends on which byte is there. It is only for speed, of `parse_number` of a type with a sign
/// (the rows `u: i32` and `u: i64`).
#[inline(always)]
fn pass_sign<T: Integer>(text: &[u8], start: usize) -> (bool, usize)
    requires { start ≤ length text.now }
    ensures negative { result.0 ≡ is_negative_from T.MIN_MAGNITUDE text.now start }
    ensures begins { result.1 ≡ digits_from T.MIN_MAGNITUDE text.now start }
    ensures onward { start ≤ result.1 }
    ensures within { result.1 ≤ length text.now }
{
    if T::MIN_MAGNITUDE == 0 || start == text.len() {
        return (false, start);
    }
    let byte = text[start];
    let has_sign = matches!(byte, b'+' | b'-');
    (byte == b'-', start + usize::from(has_sign))
}

/// Whether a number of so many bytes is read by words: the radix is 10, and there are at most 20
/// bytes if the type has numbers of more.
#[inline(always)]
fn is_by_words<T: Integer>(word: u128, bytes: usize) -> bool
    ensures { result ≡ true → (rule_of word Integer).radix ≡ 10 }
{
    NumberFormat::new(word).mantissa_radix() == 10
        && (T::MAX <= u128::from(u64::MAX) || bytes <= 20)
}

/// The value of the integer that a text is from `start` on to its end, where the radix is 10, if it
/// is at most `most` and nothing else is there than digits, or digits in groups if lone separators
/// between them are dropped. Few bytes are read one by one, and none is tested for being too large;
/// more are read in code of their own.
#[inline(always)]
fn read_to_end(text: &[u8], rule: Rule, start: usize, most: u128) -> Option<u64>
    requires supported { IsSupported rule }
    requires ten { rule.radix ≡ 10 }
    requires within { start ≤ length text.now }
    ensures is { IfSome result (IsToEnd rule text.now start) }
    ensures fits { IfSome result (λ value. value ≤ most) }
{
    // at most seven, so the compiler writes the loop over them out
    let few = if rule.internal { 4 } else { 7 };
    if text.len() - start <= few {
        return read_one_to_seven_from(text, rule, start, most);
    }
    let whole = read_long(text, rule, start);
    if whole.is_whole && u128::from(whole.value) <= most {
        Some(whole.value)
    } else {
        None
    }
}

/// [`parse_number_from`], by code of its own.
#[cold]
#[inline(never)]
fn parse_again<T: Integer>(text: &[u8], word: u128, start: usize) -> Result<T, ParseError>
    requires supported { IsTrue (is_supported word) }
    requires within { start ≤ length text.now }
    ensures { let r = rule_of word Integer in
        ParsesFrom r text.now start T.number T.MIN_MAGNITUDE T.MAX result }
{
    let (is_negative, begin) = pass_sign::<T>(text, start);
    let read = read_again(text, word, begin, greatest::<T>(is_negative));
    if read.is_empty {
        if read.end == text.len() {
            return Err(ParseError::Empty(read.end));
        }
        return Err(ParseError::Invalid(read.end));
    }
    if read.is_too_large {
        return Err(ParseError::Overflow(read.end));
    }
    if read.end == text.len() {
        Ok(T::of_magnitude(is_negative, read.value))
    } else {
        Err(ParseError::Invalid(read.end))
    }
}

/// [`parse_again`], alone: the place of its answer isn't set to 0 before it is needed.
#[inline(always)]
fn parse_the_rest<T: Integer>(text: &[u8], word: u128, start: usize) -> Result<T, ParseError>
    requires supported { IsTrue (is_supported word) }
    requires within { start ≤ length text.now }
    ensures { let r = rule_of word Integer in
        ParsesFrom r text.now start T.number T.MIN_MAGNITUDE T.MAX result }
{
    parse_again::<T>(text, word, start)
}

/// [`parse_number_from`], where it is by words. What isn't read to the end is read again. So is a
/// type's least number: the bound is that of both signs, and no branch depends on the sign. The
/// rule is decoded here and no sooner, or a word that only run time knows would cost more.
#[inline(always)]
fn parse_by_words<T: Integer>(text: &[u8], word: u128, start: usize) -> Result<T, ParseError>
    requires supported { IsTrue (is_supported word) }
    requires within { start ≤ length text.now }
    requires ten { (rule_of word Integer).radix ≡ 10 }
    ensures { let r = rule_of word Integer in
        ParsesFrom r text.now start T.number T.MIN_MAGNITUDE T.MAX result }
{
    let rule = Rule::of(word, Component::Integer);
    let (is_negative, begin) = pass_sign::<T>(text, start);
    if let Some(value) = read_to_end(text, rule, begin, greatest_of_both::<T>()) {
        return Ok(T::of_magnitude(is_negative, u128::from(value)));
    }
    parse_the_rest::<T>(text, word, start)
}

/// Whether a number of so many bytes is read by [`read_hexadecimal`]: the radix is 16, no separator
/// between digits is dropped, and there are at most 16 bytes if the type has numbers of more.
#[inline(always)]
fn is_hexadecimal<T: Integer>(word: u128, bytes: usize) -> bool
    ensures { result ≡ true → (rule_of word Integer).radix ≡ 16 }
{
    let rule = Rule::of(word, Component::Integer);
    rule.radix == 16 && !rule.internal && (T::MAX <= u128::from(u64::MAX) || bytes <= 16)
}

/// [`parse_number_from`], where the radix is 16. What isn't read to the end is read again.
#[inline]
fn parse_hexadecimal<T: Integer>(text: &[u8], word: u128, start: usize) -> Result<T, ParseError>
    requires supported { IsTrue (is_supported word) }
    requires within { start ≤ length text.now }
    requires sixteen { (rule_of word Integer).radix ≡ 16 }
    ensures { let r = rule_of word Integer in
        ParsesFrom r text.now start T.number T.MIN_MAGNITUDE T.MAX result }
{
    let (is_negative, begin) = pass_sign::<T>(text, start);
    let rule = Rule::of(word, Component::Integer);
    if let Some(value) = read_hexadecimal(text, rule, begin, greatest::<T>(is_negative)) {
        return Ok(T::of_magnitude(is_negative, u128::from(value)));
    }
    parse_the_rest::<T>(text, word, start)
}

/// What [`parse_number_from`] answers, by the integer that was read after the sign of the number
/// that begins at `start`.
#[inline(always)]
fn to_the_end<T: Integer>(
    text: &[u8],
    word: u128,
    start: usize,
    is_negative: bool,
    read: Result<(u128, usize), LiteralError>,
) -> Result<T, ParseError>
    requires negative { is_negative ≡ is_negative_from T.MIN_MAGNITUDE text.now start }
    requires read { let begin = digits_from T.MIN_MAGNITUDE text.now start in
        let most = most_from T.MIN_MAGNITUDE T.MAX (rule_of word Integer) text.now start in
        ReadsInteger (rule_of word Integer) text.now begin most read }
    ensures { let r = rule_of word Integer in
        ParsesFrom r text.now start T.number T.MIN_MAGNITUDE T.MAX result }
{
    match read {
        Ok((magnitude, stop)) => {
            if stop == text.len() {
                Ok(T::of_magnitude(is_negative, magnitude))
            } else {
                Err(ParseError::Invalid(stop))
            }
        }
        Err(LiteralError::Empty(at)) => {
            if at == text.len() {
                Err(ParseError::Empty(at))
            } else {
                Err(ParseError::Invalid(at))
            }
        }
        Err(LiteralError::Overflow(at)) => Err(ParseError::Overflow(at)),
    }
}

/// Reads the text from `start` to its end as an integer. The position of a fault counts from the
/// start of the whole text. Requires that `start` is within the text and the word is supported.
///
/// ```text
/// `x=-1_29` with internal `_`, `parse_number_from::<i8>` from 2: Err(Overflow(6))
/// ```
#[inline(always)]
pub fn parse_number_from<T: Integer>(text: &[u8], word: u128, start: usize) -> Result<T, ParseError>
    requires supported { IsTrue (is_supported word) }
    requires within { start ≤ length text.now }
    ensures is { let r = rule_of word Integer in
        let read = to_end text.now (number_at T.MIN_MAGNITUDE T.MAX r text.now start) in
        MatchResult result (λ value. read ≡ Ok (T.number value)) (λ error. read ≡ Err error) }
    ensures fault_at { let n = length text.now in
        IfErr result (λ error. (start ≤ position error) × (position error ≤ n)) }
{
    if is_by_words::<T>(word, text.len() - start) {
        return parse_by_words::<T>(text, word, start);
    }
    if is_hexadecimal::<T>(word, text.len() - start) {
        return parse_hexadecimal::<T>(text, word, start);
    }
    let head = read_head::<T>(text, Rule::of(word, Component::Integer), start);
    let most = greatest::<T>(head.is_negative);
    let read = read_wide_known(text, word, head.begin, head.first, most);
    to_the_end::<T>(text, word, start, head.is_negative, read)
}

/// Reads a whole text as an integer, or returns its first fault. Requires that the word is
/// supported.
///
/// A `+` or a `-` may be first if the type has a sign. The types are `u8` to `u128`, `i8` to
/// `i128`, `usize` and `isize`.
///
/// ```text
/// with internal `_`, `parse_number::<i8>`: `-1_28` is Ok(-128), `128` is Err(Overflow(2))
/// ```
#[inline(always)]
pub fn parse_number<T: Integer>(text: &[u8], word: u128) -> Result<T, ParseError>
    requires { IsTrue (is_supported word) }
    ensures is { let r = rule_of word Integer in
        let read = to_end text.now (number_at T.MIN_MAGNITUDE T.MAX r text.now 0) in
        MatchResult result (λ value. read ≡ Ok (T.number value)) (λ error. read ≡ Err error) }
    ensures fault_at { let n = length text.now in IfErr result (λ error. position error ≤ n) }
{
    parse_number_from::<T>(text, word, 0)
}

/// Reads the integer at the front of a text, and returns the position after it. Requires that the
/// word is supported.
///
/// It is [`read_number_from`] from 0.
///
/// ```text
/// `-1_000 m` with internal `_`, `read_number::<i32>`: Ok((-1000, 6))
/// ```
#[inline(always)]
pub fn read_number<T: Integer>(text: &[u8], word: u128) -> Result<(T, usize), LiteralError>
    requires { IsTrue (is_supported word) }
    ensures is { let r = rule_of word Integer in MatchResult result
        (λ read. number_at T.MIN_MAGNITUDE T.MAX r text.now 0 ≡ Ok (T.number read.0, read.1))
        (λ error. number_at T.MIN_MAGNITUDE T.MAX r text.now 0 ≡ Err error) }
    ensures end { IfOk result (λ read. (0 < read.1) × (read.1 ≤ length text.now)) }
    ensures empty_at { IfEmpty result (λ at. at ≤ length text.now) }
    ensures overflow_at { IfOverflow result (λ at. at < length text.now) }
{
    read_number_from::<T>(text, word, 0)
}

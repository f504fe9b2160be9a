//! The first digits of a number, where it may have more than a `u64` holds.

ghost use Rattle.std.specs.Prelude.{◌≡◌, Some, None, ◌+◌, ◌*◌, ◌^◌, ◌-◌, ◌<◌, ◌≤◌, min, true, false, length, slice_get, pos, ◌≤ℤ◌, ◌+ℤ◌, IfSome, IfNone, IsTrue};
ghost use Rattle.std.specs.Char.{is_ascii_digit};
ghost use Rattle.lexical_format.specs.Word.{is_supported};
ghost use Rattle.lexical_digits.specs.Cursor.{holds_of};
ghost use Rattle.lexical_digits.specs.State.{rule, rule_of};
ghost use Rattle.lexical_digits.specs.Separators.{IsSupported};
ghost use Rattle.lexical_digits.specs.Looks.{owed, needs_run};
ghost use Rattle.lexical_digits.specs.Stop.{stop, leading_digits_of, past_digits_of};
ghost use Rattle.digit_values.specs.After.{digits_between};
ghost use Rattle.digit_values.specs.First.{ReadsFirst, ReadsFirstFrom};
ghost use Rattle.digit_values.specs.Reads.{ArePlain, IsFirst, IsOffSlice, PassesAll};

use super::component::{pass_digits, read_digits_up_to};
use super::plain::{Plain, read_eights};
use super::reading::Digits;
use super::slice::{ReadTo, begin, first_digit, read_bare, read_on, read_radix};
use digit_words::powers::small_ten_to;
use lexical_digits::iterator::Iter;
use lexical_digits::skip::{Bytes, Component, Rule};
use lexical_format::char_to_digit_const;

/// What [`read_first_digits_from`] returns: the value of the digits that were read, how many digits
/// there are, and how many of them were only passed.
#[derive(Clone, Copy, Debug, PartialEq, Eq)]
pub struct FirstDigits {
    /// The value of the digits before them and of those that were read, as one number.
    pub value: u64,
    /// How many digits there are, without those before.
    pub count: usize,
    /// How many of them were only passed.
    pub dropped: usize,
}

impl FirstDigits {
    /// Digits all of which were read.
    #[inline(always)]
    fn all(value: u64, count: usize) -> FirstDigits
        ensures { result ≡ record { value = value; count = count; dropped = 0 } }
    {
        FirstDigits {
            value,
            count,
            dropped: 0,
        }
    }
}

/// Reads the digits of a component that lead from the cursor on, after the digits of a value, as
/// long as the value is at most `most`, and passes the others. All are counted as by
/// [`pass_digits`]. The cursor is then at the stop. Requires that `before` is at most `most`.
///
/// With a power of the radix less 1 as `most`, the value is that of the first significant digits:
/// with `10^19 - 1` of the first 19. A mantissa takes two calls, as by
/// [`read_digits_of`](crate::read_digits_of).
///
/// ```text
/// `98_76` with internal `_`, up to 99: FirstDigits { value: 98, count: 4, dropped: 2 }
/// ```
#[inline(always)]
#[tactic(auto, using(crate::proofs::Firsts::bounds))]
pub fn read_first_digits(
    bytes: &mut Bytes,
    component: Component,
    before: u64,
    most: u64,
) -> FirstDigits
    requires { before ≤ most }
    ensures first { let s = bytes.old.state in
        ReadsFirst (rule component s).radix most before (leading_digits_of component s) result }
    ensures within_buffer { result.count ≤ length bytes.old.state.buffer }
    ensures within { bytes.old.state.cursor + result.count ≤ bytes.new.state.cursor }
    ensures state { bytes.new.state ≡ past_digits_of component bytes.old.state }
    ensures remembers { needs_run component bytes.new ≡ false }
    ensures owes { owed bytes.new ≤ℤ (owed bytes.old +ℤ pos (8 * result.count + 8)) }
    ensures at_least { min (bytes.old.looks + 2 * result.count) (2 ^ 64 - 1) ≤ bytes.new.looks }
{
    if let Some(read) = read_first_slice(bytes, component, before, most) {
        return FirstDigits::all(read.value, read.count);
    }
    // on a copy, so that `bytes` may stay in registers
    let mut copy = bytes.clone().unwrap();
    let read = read_first_bytes(&mut copy, component, before, most);
    bytes.go_on_from(copy);
    read
}

/// Reads the first digits of the component at `start`, as long as the value is at most `most`,
/// counts the others, and returns where they end. The value continues from `before`: 0, or a value
/// of at most `most` that an earlier call read. Requires that `start` is within the text, the word
/// is supported, and `before` is at most `most`.
///
/// They are read by [`read_first_digits`]. Positions count from the start of the text. A separator
/// at `start` is judged with the byte before it.
///
/// ```text
/// `1.98_76e` with internal `_`, the fraction from 2, up to 99: 98 of 4 digits, of which 2 are
/// dropped, and 7
/// ```
#[inline(always)]
pub fn read_first_digits_from(
    text: &[u8],
    word: u128,
    component: Component,
    start: usize,
    before: u64,
    most: u64,
) -> (FirstDigits, usize)
    requires supported { IsTrue (is_supported word) }
    requires within { start ≤ length text.now }
    requires fits { before ≤ most }
    ensures first { let r = rule_of word component in
        let digits = digits_between r text.now start (stop r text.now start 0) in
        ReadsFirst r.radix most before digits result.0 }
    ensures stops { result.1 ≡ stop (rule_of word component) text.now start 0 }
    ensures onward { start + result.0.count ≤ result.1 }
    ensures end { result.1 ≤ length text.now }
{
    let rule = Rule::of(word, component);
    if let Some(read) = decimals_slice(text, rule, start, before, most, is_long(component)) {
        let all = FirstDigits {
            value: read.value,
            count: read.count,
            dropped: 0,
        };
        return (all, read.end);
    }
    read_first_rest(text, word, component, start, before, most)
}

/// [`read_first_again`], whose answer in memory belongs to this function, so it is set only where
/// that is called.
#[inline(always)]
fn read_first_rest(
    text: &[u8],
    word: u128,
    component: Component,
    start: usize,
    before: u64,
    most: u64,
) -> (FirstDigits, usize)
    requires supported { IsTrue (is_supported word) }
    requires within { start ≤ length text.now }
    requires fits { before ≤ most }
    ensures { let r = rule_of word component in
        ReadsFirstFrom r text.now start before most result.0 result.1 }
{
    let read = read_first_again(text, word, component, start, before, most);
    (read.digits, read.end)
}

/// The first digits of a component, and where its digits end.
#[derive(Clone, Copy)]
struct FirstRead {
    digits: FirstDigits,
    end: usize,
}

/// [`read_first_digits_from`] again, where a digit may be too large: the others are counted.
#[cold]
#[inline(never)]
fn read_first_again(
    text: &[u8],
    word: u128,
    component: Component,
    start: usize,
    before: u64,
    most: u64,
) -> FirstRead
    requires supported { IsTrue (is_supported word) }
    requires within { start ≤ length text.now }
    requires fits { before ≤ most }
    ensures { let r = rule_of word component in
        ReadsFirstFrom r text.now start before most result.digits result.end }
{
    let rule = Rule::of(word, component);
    if rule.radix == 10 {
        let first = first_digit(text, rule, start, before, u128::from(most));
        if let Some(read) = read_radix(text, rule, 10, start, before, first, Some(most)) {
            if !read.is_too_large {
                return FirstRead {
                    digits: FirstDigits::all(read.value, read.count),
                    end: read.end,
                };
            }
            if let Some(rest) = count_rest(text, rule, read.end) {
                return FirstRead {
                    digits: FirstDigits {
                        value: read.value,
                        count: read.count + rest.count,
                        dropped: rest.count,
                    },
                    end: rest.end,
                };
            }
        }
    }
    read_first_fresh_bytes(text, word, component, start, before, most)
}

/// [`read_first_digits_from`] by a `Bytes`, whatever separators are met and however many digits
/// there are.
#[cold]
#[inline(never)]
fn read_first_fresh_bytes(
    text: &[u8],
    word: u128,
    component: Component,
    start: usize,
    before: u64,
    most: u64,
) -> FirstRead
    requires supported { IsTrue (is_supported word) }
    requires within { start ≤ length text.now }
    requires fits { before ≤ most }
    ensures { let r = rule_of word component in
        ReadsFirstFrom r text.now start before most result.digits result.end }
{
    let mut bytes = Bytes::new(text, word);
    bytes.set_cursor(start);
    // the slice from here on was tried before
    let digits = read_first_bytes(&mut bytes, component, before, most);
    FirstRead {
        digits,
        end: bytes.cursor(),
    }
}

/// Counts the digits of a rule with radix 10 from `start` on, where the slice is enough.
#[inline(always)]
fn count_rest(text: &[u8], rule: Rule, start: usize) -> Option<ReadTo>
    requires supported { IsSupported rule }
    requires radix { rule.radix ≡ 10 }
    requires within { start ≤ length text.now }
    ensures { IfSome result (IsOffSlice rule text.now start 0 None) }
{
    read_radix(text, rule, 10, start, 0, None, None)
}

/// The greatest value of 19 digits.
const MOST_OF_19: u64 = 9_999_999_999_999_999_999;

/// Whether a value is below 10 to the power 19, less by so many.
#[inline]
fn is_below(before: u64, count: usize) -> bool
    requires { count ≤ 19 }
    ensures { result ≡ true → (before + 1) * 10 ^ count ≤ 10 ^ 19 }
{
    before < small_ten_to(19 - count)
}

/// Whether so many decimal digits after a value are worth less than 10 to the power 19.
#[inline(always)]
fn are_few(before: u64, count: usize) -> bool
    ensures { result ≡ true → (before + 1) * 10 ^ count ≤ 10 ^ 19 }
{
    if count > 19 {
        return false;
    }
    before == 0 || is_below(before, count)
}

/// Whether a component of a float often has eight digits or more.
#[inline(always)]
fn is_long(component: Component) -> bool {
    component == Component::Fraction
}

/// The digits that are read before the loop: by eights, or the first, if it is known.
#[inline(always)]
fn read_plain(text: &[u8], rule: Rule, start: usize, before: u64, by_eights: bool) -> Plain
    requires radix { rule.radix ≡ 10 }
    requires within { start ≤ length text.now }
    ensures { ArePlain rule text.now start before None result.end result.value }
{
    // where separators are dropped between digits, few numbers have eight in a row
    if by_eights && !rule.internal {
        read_eights(text, rule, start, before)
    } else {
        let first = first_digit(text, rule, start, before, u128::from(u64::MAX));
        begin(text, rule, 10, start, before, first, None)
    }
}

/// The decimal digit at a position, if one is there.
#[inline(always)]
#[tactic(auto, using(std::proofs::lemmas::Option::gets), unfolding(crate::proofs::Firsts::worth))]
fn decimal_at(text: &[u8], rule: Rule, at: usize) -> Option<u32>
    requires radix { rule.radix ≡ 10 }
    ensures first { IfSome result (IsFirst rule text.now at 0 None) }
    ensures digit { IfSome result (λ _. holds_of is_ascii_digit (slice_get text.now at) ≡ true) }
{
    char_to_digit_const(*text.get(at)?, 10)
}

/// Reads the decimal digits of a component that begins at `start`, where there are 1 to 19, and no
/// separator is met. Otherwise it answers `None`, and [`read_first_digits_from`] reads them. It is
/// small, and calls nothing.
#[inline]
pub fn read_some_digits_from(
    text: &[u8],
    word: u128,
    component: Component,
    start: usize,
) -> Option<(FirstDigits, usize)>
    requires supported { IsTrue (is_supported word) }
    requires decimal { (rule_of word component).radix ≡ 10 }
    requires within { start ≤ length text.now }
    ensures first { let r = rule_of word component in
        let digits = digits_between r text.now start (stop r text.now start 0) in
        IfSome result (λ read. ReadsFirst r.radix (10 ^ 19 - 1) 0 digits read.0) }
    ensures stops { IfSome result (λ read.
        read.1 ≡ stop (rule_of word component) text.now start 0) }
    ensures all { IfSome result (λ read. read.0.dropped ≡ 0) }
    ensures few { IfSome result (λ read. read.0.count ≤ 19) }
    ensures below { IfSome result (λ read. read.0.value < 10 ^ read.0.count) }
    ensures onward { IfSome result (λ read. start + read.0.count ≤ read.1) }
    ensures end { IfSome result (λ read. read.1 ≤ length text.now) }
    ensures some { IfSome result (λ read. 0 < read.0.count) }
    ensures digit { IfSome result (λ _. holds_of is_ascii_digit (slice_get text.now start) ≡ true) }
{
    read_some_digits_here(text, word, component, start)
}

/// [`read_some_digits_from`] in the place of its call.
#[inline(always)]
pub fn read_some_digits_here(
    text: &[u8],
    word: u128,
    component: Component,
    start: usize,
) -> Option<(FirstDigits, usize)>
    requires supported { IsTrue (is_supported word) }
    requires decimal { (rule_of word component).radix ≡ 10 }
    requires within { start ≤ length text.now }
    ensures first { let r = rule_of word component in
        let digits = digits_between r text.now start (stop r text.now start 0) in
        IfSome result (λ read. ReadsFirst r.radix (10 ^ 19 - 1) 0 digits read.0) }
    ensures stops { IfSome result (λ read.
        read.1 ≡ stop (rule_of word component) text.now start 0) }
    ensures all { IfSome result (λ read. read.0.dropped ≡ 0) }
    ensures few { IfSome result (λ read. read.0.count ≤ 19) }
    ensures below { IfSome result (λ read. read.0.value < 10 ^ read.0.count) }
    ensures onward { IfSome result (λ read. start + read.0.count ≤ read.1) }
    ensures end { IfSome result (λ read. read.1 ≤ length text.now) }
    ensures some { IfSome result (λ read. 0 < read.0.count) }
    ensures digit { IfSome result (λ _. holds_of is_ascii_digit (slice_get text.now start) ≡ true) }
{
    let rule = Rule::of(word, component);
    let first = decimal_at(text, rule, start)?;
    let plain = begin(text, rule, 10, start, 0, Some(first), None);
    few_from(text, word, component, rule, start, 0, 0, plain)
}

/// Reads the decimal digits of a component that begins at `start`, after a value of so many digits,
/// where there are at most 19 in all, and no separator is met. Otherwise it answers `None`, and
/// [`read_first_digits_from`] reads them.
#[inline(always)]
pub fn read_few_digits_from(
    text: &[u8],
    word: u128,
    component: Component,
    start: usize,
    before: u64,
    counted: usize,
) -> Option<(FirstDigits, usize)>
    requires supported { IsTrue (is_supported word) }
    requires decimal { (rule_of word component).radix ≡ 10 }
    requires within { start ≤ length text.now }
    requires before { before < 10 ^ counted }
    requires counted { counted ≤ 19 }
    ensures first { let r = rule_of word component in
        let digits = digits_between r text.now start (stop r text.now start 0) in
        IfSome result (λ read. ReadsFirst r.radix (10 ^ 19 - 1) before digits read.0) }
    ensures stops { IfSome result (λ read.
        read.1 ≡ stop (rule_of word component) text.now start 0) }
    ensures all { IfSome result (λ read. read.0.dropped ≡ 0) }
    ensures few { IfSome result (λ read. counted + read.0.count ≤ 19) }
    ensures below { IfSome result (λ read. read.0.value < 10 ^ (counted + read.0.count)) }
    ensures onward { IfSome result (λ read. start + read.0.count ≤ read.1) }
    ensures end { IfSome result (λ read. read.1 ≤ length text.now) }
{
    let rule = Rule::of(word, component);
    let plain = read_plain(text, rule, start, before, true);
    few_from(text, word, component, rule, start, before, counted, plain)
}

/// [`read_few_digits_from`], where some of the digits were read.
#[inline(always)]
fn few_from(
    text: &[u8],
    word: u128,
    component: Component,
    rule: Rule,
    start: usize,
    before: u64,
    counted: usize,
    plain: Plain,
) -> Option<(FirstDigits, usize)>
    requires supported { IsTrue (is_supported word) }
    requires rule { rule ≡ rule_of word component }
    requires decimal { rule.radix ≡ 10 }
    requires within { start ≤ length text.now }
    requires before { before < 10 ^ counted }
    requires counted { counted ≤ 19 }
    requires plain { ArePlain rule text.now start before None plain.end plain.value }
    ensures reads { let r = rule_of word component in IfSome result (λ read.
        ReadsFirstFrom r text.now start before (10 ^ 19 - 1) read.0 read.1) }
    ensures all { IfSome result (λ read. read.0.dropped ≡ 0) }
    ensures few { IfSome result (λ read. counted + read.0.count ≤ 19) }
    ensures below { IfSome result (λ read. read.0.value < 10 ^ (counted + read.0.count)) }
    ensures some { IfSome result (λ read. plain.end ≤ start + read.0.count) }
{
    let read = few_slice(text, rule, start, before, counted, plain)?;
    Some((FirstDigits::all(read.value, read.count), read.end))
}

/// Reads the digits of a rule with radix 10 from `start` on, where no separator is met, and with
/// those before at most 19 are there. Some of them were read.
#[inline(always)]
fn few_slice(
    text: &[u8],
    rule: Rule,
    start: usize,
    before: u64,
    counted: usize,
    plain: Plain,
) -> Option<ReadTo>
    requires supported { IsSupported rule }
    requires radix { rule.radix ≡ 10 }
    requires before { before < 10 ^ counted }
    requires counted { counted ≤ 19 }
    requires plain { ArePlain rule text.now start before None plain.end plain.value }
    ensures reads { IfSome result (IsOffSlice rule text.now start before (Some (10 ^ 19 - 1))) }
    ensures all { IfSome result (λ read. read.is_too_large ≡ false) }
    ensures few { IfSome result (λ read. counted + read.count ≤ 19) }
    ensures below { IfSome result (λ read. read.value < 10 ^ (counted + read.count)) }
    ensures onward { IfSome result (λ read. plain.end ≤ start + read.count) }
{
    let read = read_bare(text, rule, start, before, plain)?;
    if read.count > 19 - counted {
        return None;
    }
    Some(read)
}

/// Reads the digits of a rule with radix 10 from `start` on, where the slice is enough, and 19
/// digits fit and no more are there.
#[inline(always)]
fn decimals_slice(
    text: &[u8],
    rule: Rule,
    start: usize,
    before: u64,
    most: u64,
    by_eights: bool,
) -> Option<ReadTo>
    requires supported { IsSupported rule }
    requires within { start ≤ length text.now }
    requires fits { before ≤ most }
    ensures reads { IfSome result (IsOffSlice rule text.now start before (Some most)) }
    ensures all { IfSome result (λ read. read.is_too_large ≡ false) }
{
    if rule.radix != 10 || most < MOST_OF_19 {
        return None;
    }
    // no digit is tested for being too large: 19 never are
    let plain = read_plain(text, rule, start, before, by_eights);
    let read = read_on(text, rule, 10, start, before, plain, None)?;
    if are_few(before, read.count) {
        Some(read)
    } else {
        None
    }
}

/// Reads and passes the digits of a component with radix 10, where the slice is enough and no digit
/// is too large. Otherwise it leaves all.
#[inline(always)]
fn read_first_slice(
    bytes: &mut Bytes,
    component: Component,
    before: u64,
    most: u64,
) -> Option<Digits>
    requires { before ≤ most }
    ensures reads { IfSome result (PassesAll component before most bytes.old bytes.new) }
    ensures leaves { IfNone result (bytes.new ≡ bytes.old) }
{
    let rule = bytes.rule(component);
    let read = decimals_slice(
        bytes.get_buffer(),
        rule,
        bytes.cursor(),
        before,
        most,
        is_long(component),
    )?;
    bytes.pass_read(component, read.end, read.count);
    Some(Digits {
        value: read.value,
        count: read.count,
    })
}

/// [`read_first_digits`] in code of its own, whatever separators are met and however many digits
/// there are.
#[cold]
#[inline(never)]
#[tactic(auto, using(crate::proofs::Firsts::bounds))]
fn read_first_bytes(bytes: &mut Bytes, component: Component, before: u64, most: u64) -> FirstDigits
    requires { before ≤ most }
    ensures first { let s = bytes.old.state in
        ReadsFirst (rule component s).radix most before (leading_digits_of component s) result }
    ensures within { bytes.old.state.cursor + result.count ≤ bytes.new.state.cursor }
    ensures state { bytes.new.state ≡ past_digits_of component bytes.old.state }
    ensures remembers { needs_run component bytes.new ≡ false }
    ensures owes { owed bytes.new ≤ℤ (owed bytes.old +ℤ pos (8 * result.count + 8)) }
    ensures at_least { min (bytes.old.looks + 2 * result.count) (2 ^ 64 - 1) ≤ bytes.new.looks }
{
    match read_digits_up_to(bytes, component, before, most) {
        Ok(read) => FirstDigits::all(read.value, read.count),
        Err(error) => {
            let dropped = pass_digits(bytes, component);
            FirstDigits {
                value: error.value,
                count: error.count + dropped,
                dropped,
            }
        }
    }
}

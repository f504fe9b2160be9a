//! The numbers of a list by their ends: 64 bytes tell at once which of them are no digits. So where
//! a number ends is known before it is read, and none waits for the digits of the one before.

ghost use Rattle.std.specs.Prelude.{◌≡◌, ℕ, ◌+◌, ◌^◌, ◌<◌, ◌≤◌, length, slice_index, if◌then◌else◌, true, false, Ok, IfSome, IfOk, IfErr};
ghost use Rattle.std.specs.Int.{trailing_zeros, w64};
ghost use Rattle.lexical_digits.specs.declared.skip.component.Component.TheVariants.{Integer};
ghost use Rattle.lexical_digits.specs.ByteSet.{accepts};
ghost use Rattle.lexical_digits.specs.Separators.{is_separator};
ghost use Rattle.lexical_digits.specs.State.{rule_of};
ghost use Rattle.digit_words.specs.Eight.{IsWritten};
ghost use Rattle.digit_literals.specs.Ends.{AreByEnds, AreOthers, EachIsMarked, IsPlaceAfter, IsOverAfter};
ghost use Rattle.digit_values.specs.Errors.{literal_none_at};
ghost use Rattle.digit_integers.specs.Integers.{integer_at};
ghost use Rattle.digit_literals.specs.Lists.{SoFar, Fills, IfFull, IfOver, is_blank, list_at, next_after, past_blanks};
ghost use Rattle.digit_integers.specs.Numbers.{number_at, is_negative_from, digits_from, signed};

use super::list::{Gap, ListEnd, ListRead};
use super::others::{BLOCK, WORDS, others_at, pass};
use digit_integers::{Integer, greatest, greatest_of_both};
use digit_values::{LiteralError, accepts};
use digit_words::eight::{one_to_eight_at, value_at};
use lexical_digits::skip::{Component, Rule};
use std::simd::prelude::*;

/// [`others_at`] if the text is long enough, and otherwise nothing: no byte is marked.
#[inline(always)]
fn others_from(text: &[u8], at: usize) -> u64
    requires { at ≤ length text.now }
    ensures others { AreOthers text.now at result }
    ensures each { at + 88 ≤ length text.now → EachIsMarked text.now at 64 result }
{
    if text.len() - at < BLOCK + WORDS {
        return 0;
    }
    others_at(text, at)
}

/// Whether the numbers of a block are rather read one by one: half of the bytes are no digits, or
/// nearly all numbers have one form of up to three digits, so that the next number begins as far
/// from this one as this one from the one before. A processor guesses where these end. It is only
/// for speed.
#[inline(always)]
fn are_short(others: u64) -> bool {
    if others.count_ones() >= 32 {
        return true;
    }
    let first = others >> (others % 2);
    let digits = first.trailing_zeros();
    if digits == 0 || digits > 3 {
        return false;
    }
    let form = digits + (!(first >> digits)).trailing_zeros();
    if form > 8 {
        return false;
    }
    let differ = (first ^ (first >> form)) << form;
    differ.count_ones() <= 4
}

/// Whether the separator of a rule also separates two numbers.
#[inline(always)]
#[tactic(auto, unfolding(lexical_digits::specs::Separators::is_separator))]
fn is_shared(rule: Rule, gap: Gap) -> bool
    ensures { result ≡ false → (byte : ℕ) → accepts gap.separators byte ≡ true
        → is_separator rule.separator byte ≡ false }
{
    rule.separator != 0 && accepts(gap.separators, rule.separator)
}

/// Which of 16 bytes are no digits, the first by the lowest bit, in lists that are rather read one
/// by one: numbers of two digits each.
const TWO: u64 = 0b0100_1001_0010_0100;

/// The same of three digits each.
const THREE: u64 = 0b1000_1000_1000_1000;

/// The same of three digits, and then two other bytes, as a comma and a blank.
const THREE_APART: u64 = 0b0110_0011_0001_1000;

/// The same after a blank, where the list goes on.
const BLANK_AND_THREE: u64 = 0b1100_0110_0011_0001;

/// Whether the numbers of a list are read by their ends from its first one on: the radix is 10, no
/// digit is a blank, no separator of the word is between two numbers, the text is long enough, and
/// 16 bytes have no separator of the word, are no digits in less than half, and have none of the
/// forms above.
#[inline(always)]
pub(super) fn is_by_ends(text: &[u8], word: u128, gap: Gap, at: usize) -> bool
    requires { at ≤ length text.now }
    ensures { result ≡ true → AreByEnds (rule_of word Integer) gap }
{
    let rule = Rule::of(word, Component::Integer);
    if rule.radix != 10 || gap.has_digits() || text.len() - at < BLOCK + WORDS {
        return false;
    }
    if is_shared(rule, gap) {
        return false;
    }
    let bytes = u8x16::from_slice(&text[at..]);
    let separators = bytes.simd_eq(u8x16::splat(rule.separator)).to_bitmask();
    if rule.separator != 0 && separators != 0 {
        return false;
    }
    let others = (bytes - u8x16::splat(b'0'))
        .simd_ge(u8x16::splat(10))
        .to_bitmask();
    let is_short = others == TWO
        || others == THREE
        || others == THREE_APART
        || others == BLANK_AND_THREE;
    others.count_ones() < 8 && !is_short
}

/// What is known before the digits of a number are read.
#[derive(Clone, Copy)]
struct Head {
    /// Whether it has a `-`.
    is_negative: bool,
    /// Where its digits begin.
    begin: usize,
    /// Which bytes from there on are no digits.
    others: u64,
    /// Whether it has a sign.
    has_sign: bool,
}

/// The number after its blanks at a place. Its sign is no branch, and its digits begin where the
/// first bit says, so that their end waits for no byte.
#[inline(always)]
#[tactic(auto, using(crate::proofs::ByEnds::inside))]
fn pass_sign<T: Integer>(text: &[u8], place: usize, others: u64) -> Option<Head>
    requires others { AreOthers text.now place others }
    requires some { 1 < others }
    ensures negative { IfSome result (λ head.
        head.is_negative ≡ is_negative_from T.MIN_MAGNITUDE text.now place) }
    ensures begins { IfSome result (λ head.
        head.begin ≡ digits_from T.MIN_MAGNITUDE text.now place) }
    ensures onward { IfSome result (λ head. place ≤ head.begin) }
    ensures others { IfSome result (λ head. AreOthers text.now head.begin head.others) }
    ensures some { IfSome result (λ head. 0 < head.others) }
{
    if T::MIN_MAGNITUDE == 0 {
        return Some(Head {
            is_negative: false,
            begin: place,
            others,
            has_sign: false,
        });
    }
    let byte = text[place];
    let is_negative = byte == b'-';
    let has_sign = is_negative | (byte == b'+');
    let sign = others % 2;
    if u64::from(has_sign) != sign {
        return None;
    }
    Some(Head {
        is_negative,
        begin: place + sign as usize,
        others: others >> sign,
        has_sign,
    })
}

/// The next number, whatever is before its digits.
#[inline(always)]
#[tactic(auto, using(crate::proofs::ByEnds::usual_number, crate::proofs::ByEnds::begins_at_once))]
fn any_head<T: Integer>(text: &[u8], gap: Gap, at: usize, rest: u64) -> Option<Head>
    requires within { at ≤ length text.now }
    requires rest { AreOthers text.now at rest }
    requires digits { (byte : ℕ) → 48 ≤ byte → byte < 58 → is_blank gap byte ≡ false }
    ensures negative { IfSome result (λ head. head.is_negative
        ≡ is_negative_from T.MIN_MAGNITUDE text.now (past_blanks gap text.now at)) }
    ensures begins { IfSome result (λ head. head.begin
        ≡ digits_from T.MIN_MAGNITUDE text.now (past_blanks gap text.now at)) }
    ensures onward { IfSome result (λ head. at ≤ head.begin) }
    ensures others { IfSome result (λ head. AreOthers text.now head.begin head.others) }
    ensures some { IfSome result (λ head. 0 < head.others) }
{
    // of a type without a sign the usual number, which begins with its first digit
    let digits = rest.trailing_zeros();
    if T::MIN_MAGNITUDE == 0 && digits > 0 && digits < 64 {
        return Some(Head {
            is_negative: false,
            begin: at,
            others: rest,
            has_sign: false,
        });
    }
    let place = gap.past_few_blanks(text, at);
    let others = pass(rest, place - at);
    if others > 1 {
        return pass_sign::<T>(text, place, others);
    }
    let others = others_from(text, place);
    if others <= 1 || are_short(others) {
        return None;
    }
    pass_sign::<T>(text, place, others)
}

/// Whether a type has a number of so many digits, with a `-` or without. Where it has each of so
/// many digits, a compiler leaves the test out.
#[inline(always)]
fn fits<T: Integer>(value: u64, count: usize, is_negative: bool) -> bool
    requires eight { count ≤ 8 → value < 10 ^ 8 }
    requires sixteen { count ≤ 16 → value < 10 ^ 16 }
    requires sign { is_negative ≡ true → 0 < T.MIN_MAGNITUDE }
    ensures { result ≡ true → value ≤ (if is_negative then T.MIN_MAGNITUDE else T.MAX) }
{
    (count <= 8 && greatest_of_both::<T>() >= 99_999_999)
        || (count <= 16 && greatest_of_both::<T>() >= 9_999_999_999_999_999)
        || u128::from(value) <= greatest::<T>(is_negative)
}

/// Where the next number of a list may be.
#[derive(Clone, Copy)]
struct Place {
    /// Where.
    at: usize,
    /// Which bytes from there on are no digits.
    rest: u64,
}

/// [`Gap::next_after`], where a blank follows the number: one takes no loop.
#[inline(always)]
fn next_past_blanks(text: &[u8], gap: Gap, end: usize) -> Result<usize, usize>
    requires { end ≤ length text.now }
    ensures is { result ≡ next_after gap text.now end }
    ensures onward { IfOk result (λ next. end < next) }
    ensures within { IfOk result (λ next. next ≤ length text.now) }
    ensures over { IfErr result (λ over. (end ≤ over) × (over ≤ length text.now)) }
{
    let at = gap.past_few_blanks(text, end);
    if gap.has_separator(text, at) {
        Ok(at + 1)
    } else if gap.blanks_separate && at > end {
        Ok(at)
    } else {
        Err(at)
    }
}

/// Where the next number may be, if a separator follows the `count` digits from a position on;
/// otherwise the error is the first position without a blank. `None` if the byte after them is the
/// word's separator, which more digits of the number may follow.
#[inline(always)]
fn next_after_digits(
    text: &[u8],
    word: u128,
    gap: Gap,
    begin: usize,
    others: u64,
    count: usize,
) -> Option<Result<Place, usize>>
    requires list { AreByEnds (rule_of word Integer) gap }
    requires within { begin + count < length text.now }
    requires others { AreOthers text.now begin others }
    ensures all { IfSome result (λ _. is_separator (rule_of word Integer).separator
        (slice_index text.now (begin + count)) ≡ false) }
    ensures place { IfSome result (λ next.
        IfOk next (IsPlaceAfter gap text.now (begin + count))) }
    ensures over { IfSome result (λ next.
        IfErr next (IsOverAfter gap text.now (begin + count))) }
{
    let end = begin + count;
    let byte = text[end];
    // the usual case: the bits are moved past one separator
    if accepts(gap.separators, byte) {
        return Some(Ok(Place {
            at: end + 1,
            rest: pass(others, count + 1),
        }));
    }
    if Rule::of(word, Component::Integer).is_separator(byte) {
        return None;
    }
    match next_past_blanks(text, gap, end) {
        Ok(at) => Some(Ok(Place {
            at,
            rest: pass(others, at - begin),
        })),
        Err(over) => Some(Err(over)),
    }
}

/// A number of a list that was read by its end.
#[derive(Clone, Copy)]
struct Read<T> {
    /// The number.
    value: T,
    /// Where it ends.
    end: usize,
    /// Where the next one may be; otherwise the first position after it without a blank.
    next: Result<Place, usize>,
    /// Whether this number has a sign, or one before it.
    may_be_signed: bool,
}

/// The number of `count` digits and of what is before them, if the type has it, and the word's
/// separator doesn't follow them.
#[inline(always)]
fn number_of<T: Integer>(
    text: &[u8],
    word: u128,
    gap: Gap,
    head: Head,
    count: u32,
    value: u64,
) -> Option<Read<T>>
    requires list { AreByEnds (rule_of word Integer) gap }
    requires others { AreOthers text.now head.begin head.others }
    requires some { 0 < head.others }
    requires more { 0 < count }
    requires count { count ≡ trailing_zeros w64 head.others }
    requires written { IsWritten text.now head.begin count value }
    requires eight { count ≤ 8 → value < 10 ^ 8 }
    requires sixteen { count ≤ 16 → value < 10 ^ 16 }
    requires sign { head.is_negative ≡ true → 0 < T.MIN_MAGNITUDE }
    ensures integer { let r = rule_of word Integer in
        let most = if head.is_negative then T.MIN_MAGNITUDE else T.MAX in
        IfSome result (λ read. integer_at r text.now head.begin most ≡ Ok (value, read.end)) }
    ensures is { IfSome result (λ read. T.number read.value ≡ signed head.is_negative value) }
    ensures onward { IfSome result (λ read. head.begin < read.end) }
    ensures place { IfSome result (λ read.
        IfOk read.next (IsPlaceAfter gap text.now read.end)) }
    ensures over { IfSome result (λ read.
        IfErr read.next (IsOverAfter gap text.now read.end)) }
{
    let digits = count as usize;
    if !fits::<T>(value, digits, head.is_negative) {
        return None;
    }
    let next = next_after_digits(text, word, gap, head.begin, head.others, digits)?;
    Some(Read {
        value: T::of_magnitude(head.is_negative, u128::from(value)),
        end: head.begin + digits,
        next,
        may_be_signed: head.has_sign,
    })
}

/// The number that begins with its first digit at a position, if it has no sign, and up to eight
/// digits, whose end is known: the usual one.
#[inline(always)]
#[tactic(auto, using(crate::proofs::ByEnds::usual_number))]
fn usual_number<T: Integer>(
    text: &[u8],
    word: u128,
    gap: Gap,
    at: usize,
    rest: u64,
    count: u32,
) -> Option<Read<T>>
    requires list { AreByEnds (rule_of word Integer) gap }
    requires within { at ≤ length text.now }
    requires rest { AreOthers text.now at rest }
    requires count { count ≡ trailing_zeros w64 rest }
    requires some { 0 < count }
    requires few { count ≤ 8 }
    ensures is { let r = rule_of word Integer in IfSome result (λ read.
        number_at T.MIN_MAGNITUDE T.MAX r text.now (past_blanks gap text.now at)
        ≡ Ok (T.number read.value, read.end)) }
    ensures onward { IfSome result (λ read. at < read.end) }
    ensures place { IfSome result (λ read.
        IfOk read.next (IsPlaceAfter gap text.now read.end)) }
    ensures over { IfSome result (λ read.
        IfErr read.next (IsOverAfter gap text.now read.end)) }
{
    let head = Head {
        is_negative: false,
        begin: at,
        others: rest,
        has_sign: false,
    };
    let value = one_to_eight_at(text, at, count as usize);
    let read = number_of::<T>(text, word, gap, head, count, value)?;
    Some(read)
}

/// The number after the blanks at a position, whatever is before its digits, if its end is known
/// and it has 1 to 19 digits.
#[inline(always)]
fn any_number<T: Integer>(
    text: &[u8],
    word: u128,
    gap: Gap,
    at: usize,
    rest: u64,
) -> Option<Read<T>>
    requires list { AreByEnds (rule_of word Integer) gap }
    requires within { at ≤ length text.now }
    requires rest { AreOthers text.now at rest }
    ensures is { let r = rule_of word Integer in IfSome result (λ read.
        number_at T.MIN_MAGNITUDE T.MAX r text.now (past_blanks gap text.now at)
        ≡ Ok (T.number read.value, read.end)) }
    ensures onward { IfSome result (λ read. at < read.end) }
    ensures place { IfSome result (λ read.
        IfOk read.next (IsPlaceAfter gap text.now read.end)) }
    ensures over { IfSome result (λ read.
        IfErr read.next (IsOverAfter gap text.now read.end)) }
{
    let head = any_head::<T>(text, gap, at, rest)?;
    let count = head.others.trailing_zeros();
    if count == 0 || count > 19 {
        return None;
    }
    let value = value_at(text, head.begin, count as usize);
    number_of::<T>(text, word, gap, head, count, value)
}

/// [`any_number`], or at once the usual one, where no number before had a sign.
#[inline(always)]
fn number_by_end<T: Integer>(
    text: &[u8],
    word: u128,
    gap: Gap,
    place: Place,
    may_be_signed: bool,
) -> Option<Read<T>>
    requires list { AreByEnds (rule_of word Integer) gap }
    requires within { place.at ≤ length text.now }
    requires rest { AreOthers text.now place.at place.rest }
    ensures is { let r = rule_of word Integer in IfSome result (λ read.
        number_at T.MIN_MAGNITUDE T.MAX r text.now (past_blanks gap text.now place.at)
        ≡ Ok (T.number read.value, read.end)) }
    ensures onward { IfSome result (λ read. place.at < read.end) }
    ensures place { IfSome result (λ read.
        IfOk read.next (IsPlaceAfter gap text.now read.end)) }
    ensures over { IfSome result (λ read.
        IfErr read.next (IsOverAfter gap text.now read.end)) }
{
    let count = place.rest.trailing_zeros();
    if count > 0 && count <= 8 && !may_be_signed {
        return usual_number::<T>(text, word, gap, place.at, place.rest, count);
    }
    let mut read = any_number::<T>(text, word, gap, place.at, place.rest)?;
    read.may_be_signed = read.may_be_signed | may_be_signed;
    Some(read)
}

/// How far a list was read by ends.
#[derive(Clone, Copy)]
pub(super) struct Went {
    /// How many numbers are in the slice.
    pub(super) count: usize,
    /// Where the next one may be.
    pub(super) at: usize,
}

/// Reads the numbers of a list from `start` on by their ends, as long as they are plain and not
/// short: how many are in the slice, and where the next one may be; or why there are no more. It is
/// code of its own, since what is inlined must be small.
#[inline(never)]
#[tactic(auto, using(crate::proofs::Lists::turns))]
pub(super) fn read_by_ends<T: Integer>(
    text: &[u8],
    start: usize,
    word: u128,
    gap: Gap,
    out: &mut [T],
) -> Result<Went, ListRead<LiteralError>>
    requires list { AreByEnds (rule_of word Integer) gap }
    requires within { start ≤ length text.now }
    ensures so { let one = number_at T.MIN_MAGNITUDE T.MAX (rule_of word Integer) text.now in
        IfOk result (λ went. SoFar T.number one literal_none_at gap text.now start went.count
        went.at out.old out.new) }
    ensures fills { let one = number_at T.MIN_MAGNITUDE T.MAX (rule_of word Integer) text.now in
        IfErr result (λ read. Fills T.number (list_at one literal_none_at gap text.now
        (length out.old) start) read out.old out.new) }
    ensures onward { IfOk result (λ went. start ≤ went.at) }
    ensures within { IfOk result (λ went. went.at ≤ length text.now) }
    ensures room { IfOk result (λ went. went.count ≤ length out.old) }
    ensures count { IfErr result (λ read. read.count ≤ length out.old) }
    ensures full { IfErr result (λ read.
        IfFull read.end (λ at. (start ≤ at) × (at ≤ length text.now))) }
    ensures over { IfErr result (λ read.
        IfOver read.end (λ at. (start ≤ at) × (at ≤ length text.now))) }
    ensures length { length out.new ≡ length out.old }
{
    let mut place = Place { at: start, rest: 0 };
    let mut may_be_signed = false;
    for count in 0..out.len() {
        let Some(read) = number_by_end::<T>(text, word, gap, place, may_be_signed) else {
            return Ok(Went {
                count,
                at: place.at,
            });
        };
        out[count] = read.value;
        match read.next {
            Ok(next) => place = next,
            Err(over) => {
                return Err(ListRead {
                    count: count + 1,
                    end: ListEnd::Over(over),
                });
            }
        }
        may_be_signed = read.may_be_signed;
    }
    Ok(Went {
        count: out.len(),
        at: place.at,
    })
}

//! Lines that are only integers, by their ends: 64 bytes tell at once which of them are no digits.
//! So no line waits for the digits of the one before.

ghost use Rattle.std.specs.Prelude.{◌≡◌, ◌^◌, ◌-◌, ◌<◌, ◌+◌, ◌≤◌, ℕ, length, IfSome, None, Ok};
ghost use Rattle.lexical_digits.specs.declared.skip.rule.Rule.{Rule};
ghost use Rattle.digit_integers.specs.Integers.{integer_at};
ghost use Rattle.digit_integers.specs.Numbers.{is_negative_from, digits_from, with_sign};
ghost use Rattle.digit_literals.specs.Ends.{AreOthers};
ghost use Rattle.digit_literals.specs.Lists.{past_blanks, next_after};
ghost use Rattle.digit_literals.specs.declared.list.TheConstants.{LINES};
ghost use Rattle.digit_totals.specs.declared.options.Kind.TheVariants.{Integers};
ghost use Rattle.digit_totals.specs.Quick.{HasNoLowByte, IsLineAt};
ghost use Rattle.digit_totals.specs.Report.{most_bytes, Leaves};
ghost use Rattle.digit_totals.specs.Sums.{IsFar};
ghost use Rattle.digit_totals.specs.Totals.{adding};
ghost use Rattle.digit_totals.specs.Value.{HasFewPlaces};

use super::adds::Added;
use super::around::{GREATEST, after_feed, begin_at, sign_of, signed};
use super::options::{Kind, Options};
use super::totals::{Sums, Totals};
use digit_literals::others::{BLOCK, WORDS, others_at, pass};
use digit_words::eight::value_at;

/// What is known before the digits of a number are read.
#[derive(Clone, Copy)]
struct Head {
    /// Whether it has a `-`.
    is_negative: bool,
    /// Where its digits begin.
    begin: usize,
    /// Which bytes from there on are no digits.
    others: u64,
}

/// The number of the line that begins at a position. Most begin with a digit, or with one blank
/// before it.
#[inline(always)]
#[tactic(auto, using(digit_literals::proofs::ByEnds::inside))]
fn head_of(text: &[u8], at: usize, others: u64) -> Head
    requires within { at ≤ length text.now }
    requires others { AreOthers text.now at others }
    ensures negative { result.is_negative
        ≡ is_negative_from (2 ^ 63) text.now (past_blanks LINES text.now at) }
    ensures begins { result.begin
        ≡ digits_from (2 ^ 63) text.now (past_blanks LINES text.now at) }
    ensures others { AreOthers text.now result.begin result.others }
{
    let digits = others.trailing_zeros();
    if digits > 0 && digits < 64 {
        return Head {
            is_negative: false,
            begin: at,
            others,
        };
    }
    if others > 1 && others % 4 == 1 && text[at] == b' ' {
        return Head {
            is_negative: false,
            begin: at + 1,
            others: others >> 1,
        };
    }
    let place = begin_at(text, at);
    let (is_negative, begin) = sign_of(text, place);
    Head {
        is_negative,
        begin,
        others: pass(others, begin - at),
    }
}

/// A line that was read by its end.
#[derive(Clone, Copy)]
struct Line {
    /// Its number.
    value: i64,
    /// Where the number ends.
    end: usize,
    /// Where the next line begins.
    next: usize,
    /// Which bytes from there on are no digits.
    others: u64,
}

/// A line from the digits of its number on, if it is known where they end, and they have 63 bits.
#[inline(always)]
fn line_of(text: &[u8], head: Head) -> Option<Line>
    requires others { AreOthers text.now head.begin head.others }
    ensures is { IfSome result (λ line. (rule : Rule) (most : ℕ) → rule.radix ≡ 10
        → HasNoLowByte rule → 2 ^ 63 - 1 ≤ most
        → with_sign head.is_negative (integer_at rule text.now head.begin most)
        ≡ Ok (line.value, line.end)) }
    ensures some { IfSome result (λ line. head.begin < line.end) }
    ensures next { IfSome result (λ line. next_after LINES text.now line.end ≡ Ok line.next) }
    ensures within { IfSome result (λ line. line.next ≤ length text.now) }
    ensures others { IfSome result (λ line. AreOthers text.now line.next line.others) }
{
    let count = head.others.trailing_zeros() as usize;
    if count == 0 || count > 19 {
        return None;
    }
    let magnitude = value_at(text, head.begin, count);
    if count > 16 && magnitude > GREATEST {
        return None;
    }
    let end = head.begin + count;
    match after_feed(text, end) {
        Some(next) => Some(Line {
            value: signed(head.is_negative, magnitude),
            end,
            next,
            others: pass(head.others, next - head.begin),
        }),
        None => None,
    }
}

/// The line that begins at a position, by the bits of the bytes from there on.
#[inline(always)]
fn line_by_end(text: &[u8], at: usize, others: u64) -> Option<Line>
    requires within { at ≤ length text.now }
    requires others { AreOthers text.now at others }
    ensures { IfSome result (IsLineAt text.now at) }
{
    line_of(text, head_of(text, at, others))
}

/// The same, by other bits.
#[inline(always)]
fn line_by_new_end(text: &[u8], at: usize) -> Option<Line>
    requires within { at ≤ length text.now }
    ensures { IfSome result (IsLineAt text.now at) }
{
    if text.len() - at < BLOCK + WORDS {
        return None;
    }
    line_by_end(text, at, others_at(text, at))
}

/// The line that begins at a position, by these bits or by others.
#[inline(always)]
fn next_line(text: &[u8], at: usize, others: u64) -> Option<Line>
    requires within { at ≤ length text.now }
    requires others { AreOthers text.now at others }
    ensures { IfSome result (IsLineAt text.now at) }
{
    match line_by_end(text, at, others) {
        Some(line) => Some(line),
        None => line_by_new_end(text, at),
    }
}

/// Adds the integers of lines by their ends, as long as these are known.
#[inline(always)]
fn add_by_ends<'a>(options: Options, totals: Totals, text: &'a [u8]) -> Added<'a, Totals>
    requires kind { options.kind ≡ Integers }
    requires column { options.column ≡ None }
    requires far { IsFar totals }
    requires short { length text.now ≤ most_bytes + 1 }
    requires room { totals.count + length text.now ≤ 2 ^ 127 }
    ensures { Leaves (adding options) totals text.now result.totals result.rest.now }
{
    let mut sums = Sums::new();
    let mut at = 0;
    let mut others = 0;
    while let Some(line) = next_line(text, at, others) {
        sums = sums.plus(line.value);
        at = line.next;
        others = line.others;
    }
    Added {
        totals: totals.with_sums(sums),
        rest: &text[at..],
    }
}

/// Adds many lines at the front of a text that are only integers.
#[inline(never)]
pub fn add_many<'a>(options: Options, totals: Totals, text: &'a [u8]) -> Added<'a, Totals>
    requires few { HasFewPlaces options.kind }
    requires short { length text.now ≤ most_bytes + 1 }
    requires room { totals.count + length text.now ≤ 2 ^ 127 }
    ensures { Leaves (adding options) totals text.now result.totals result.rest.now }
{
    if options.column.is_some() || options.kind != Kind::Integers || !totals.is_far() {
        return Added { totals, rest: text };
    }
    add_by_ends(options, totals, text)
}

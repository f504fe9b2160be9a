//! Digits that are read off a slice. Where another separator than a lone one between two digits is
//! met, a `Bytes` reads them.

ghost use Rattle.std.specs.Prelude.{◌≡◌, ◌*◌, ◌+◌, ◌-◌, ◌%◌, ◌^◌, ◌<◌, ◌≤◌, length, slice_index, true, false, Some, None, option_and_then, IfSome, IfNone, MatchOption};
ghost use Rattle.lexical_format.specs.Digits.{digit_of_radix};
ghost use Rattle.lexical_digits.specs.Separators.{is_digit, IsSupported};
ghost use Rattle.lexical_digits.specs.CallTable.{byte_at_place, settled};
ghost use Rattle.lexical_digits.specs.Looks.{Costs};
ghost use Rattle.digit_values.specs.Bytes.{has_byte};
ghost use Rattle.digit_values.specs.Reads.{IsMore, IsFirst, IsOffSlice, ArePlain, Passes, outcome};

use super::plain::{Plain, read_words_up_to};
use super::reading::{Digits, TooLarge, add_digit};
use lexical_digits::iterator::Iter;
use lexical_digits::skip::{Bytes, Component, Rule};
use lexical_format::{char_is_digit_const, char_to_digit_const};

/// Digits that were read from a start on.
#[derive(Clone, Copy)]
pub struct ReadTo {
    /// The value of the digits before them and of these, as one number; its lowest 64 bits, if no
    /// greatest value was asked for.
    pub value: u64,
    /// How many digits were read.
    pub count: usize,
    /// The position of the first byte after them that is kept, or the end.
    pub end: usize,
    /// Whether that byte is a digit with which the value is above the greatest.
    pub is_too_large: bool,
}

impl ReadTo {
    /// Digits that end where no other one follows.
    #[inline(always)]
    fn at(value: u64, count: usize, end: usize) -> ReadTo
        ensures { result ≡ record {
          value = value;
          count = count;
          end = end;
          is_too_large = false;
        } }
    {
        ReadTo {
            value,
            count,
            end,
            is_too_large: false,
        }
    }

    /// What a reader of digits answers.
    #[inline(always)]
    pub fn outcome(self) -> Result<Digits, TooLarge>
        ensures { result ≡ outcome self }
    {
        if self.is_too_large {
            Err(TooLarge {
                at: self.end,
                value: self.value,
                count: self.count,
            })
        } else {
            Ok(Digits {
                value: self.value,
                count: self.count,
            })
        }
    }
}

/// The value with one more digit, if that is at most `most`; without `most` its lowest 64 bits.
#[inline(always)]
fn add_if(value: u64, radix: u32, digit: u32, most: Option<u64>) -> Option<u64>
    ensures is { MatchOption result (MatchOption most ⊥ (λ m. m < value * radix + digit))
        (λ more. IfSome most (IsMore radix value digit more)) }
    ensures wraps { IfSome result (λ more.
        IfNone most (more ≡ (value * radix + digit) % 2 ^ 64)) }
{
    match most {
        Some(most) => add_digit(value, radix, digit, most),
        None => Some(
            value
                .wrapping_mul(u64::from(radix))
                .wrapping_add(u64::from(digit)),
        ),
    }
}

/// Whether a digit is after a position, and separators between digits are dropped.
#[inline]
#[tactic(auto, unfolding(lexical_digits::specs::Separators::is_digit))]
pub(super) fn is_inner(text: &[u8], rule: Rule, radix: u32, at: usize) -> bool
    requires within { at < length text.now }
    requires radix { radix ≡ rule.radix }
    ensures internal { result ≡ true → rule.internal ≡ true }
    ensures within { result ≡ true → at + 1 < length text.now }
    ensures digit { result ≡ true → is_digit rule (slice_index text.now (at + 1)) ≡ true }
{
    rule.internal && at + 1 < text.len() && char_is_digit_const(text[at + 1], radix)
}

/// The digit at a position, if one is there, it is at most `most`, and no value is before it.
/// A digit is no sign.
#[inline]
#[tactic(auto, using(std::proofs::lemmas::Option::gets), unfolding(crate::proofs::Firsts::worth))]
pub fn first_digit(text: &[u8], rule: Rule, at: usize, before: u64, most: u128) -> Option<u32>
    ensures is { IfSome result (IsFirst rule text.now at before (Some most)) }
    ensures any { IfSome result (IsFirst rule text.now at before None) }
    ensures minus { IfSome result (λ _. has_byte text.now at 45 ≡ false) }
    ensures plus { IfSome result (λ _. has_byte text.now at 43 ≡ false) }
{
    if before > 0 {
        return None;
    }
    let digit = char_to_digit_const(*text.get(at)?, rule.radix)?;
    if u128::from(digit) <= most {
        Some(digit)
    } else {
        None
    }
}

/// Reads the digits of a rule from `start` on, after the value `before`, up to where they end, or
/// up to the first with which the value is above `most`. `None` where a separator is met that isn't
/// a lone one between two digits. Without `most` the value is its lowest 64 bits. The digit at
/// `start` may be known: it isn't tested again.
#[inline(always)]
pub(super) fn read_slice(
    text: &[u8],
    rule: Rule,
    start: usize,
    before: u64,
    first: Option<u32>,
    most: Option<u64>,
) -> Option<ReadTo>
    requires supported { IsSupported rule }
    requires within { start ≤ length text.now }
    requires fits { IfSome most (λ m. before ≤ m) }
    requires first { IfSome first (IsFirst rule text.now start before most) }
    ensures { IfSome result (IsOffSlice rule text.now start before most) }
{
    // A compiler makes code of its own for a radix that is written out.
    if rule.radix == 10 {
        read_radix(text, rule, 10, start, before, first, most)
    } else {
        read_radix(text, rule, rule.radix, start, before, first, most)
    }
}

/// `read_slice` of the digits of a `u128` after those that fit 64 bits, with no value before
/// them: up to 16 decimal ones are read by words of eight, and the others one by one.
#[inline(always)]
pub fn read_slice_by_words(text: &[u8], rule: Rule, start: usize, most: u64) -> Option<ReadTo>
    requires supported { IsSupported rule }
    requires within { start ≤ length text.now }
    requires large { 10 ^ 19 - 1 ≤ most }
    ensures { IfSome result (IsOffSlice rule text.now start 0 (Some most)) }
{
    if rule.radix == 10 {
        let plain = begin_by_words(text, rule, start, most);
        read_on(text, rule, 10, start, 0, plain, Some(most))
    } else {
        let radix = rule.radix;
        read_radix(text, rule, radix, start, 0, None, Some(most))
    }
}

/// The first digit, if it is known, or none.
#[inline(always)]
#[tactic(auto, using(crate::proofs::PlainDigits::none_plain))]
pub(super) fn begin(
    text: &[u8],
    rule: Rule,
    radix: u32,
    start: usize,
    before: u64,
    first: Option<u32>,
    most: Option<u64>,
) -> Plain
    requires radix { radix ≡ rule.radix }
    requires within { start ≤ length text.now }
    requires fits { IfSome most (λ m. before ≤ m) }
    requires first { IfSome first (IsFirst rule text.now start before most) }
    ensures plain { ArePlain rule text.now start before most result.end result.value }
    ensures some { IfSome first (λ _. start < result.end) }
{
    match first {
        Some(digit) => Plain {
            value: before * u64::from(radix) + u64::from(digit),
            end: start + 1,
        },
        None => Plain {
            value: before,
            end: start,
        },
    }
}

/// The digits that are read before the loop, in radix 10: by words, if eight bytes are there.
#[inline(always)]
fn begin_by_words(text: &[u8], rule: Rule, start: usize, most: u64) -> Plain
    requires radix { rule.radix ≡ 10 }
    requires within { start ≤ length text.now }
    requires large { 10 ^ 19 - 1 ≤ most }
    ensures { ArePlain rule text.now start 0 (Some most) result.end result.value }
{
    if text.len() - start < 8 {
        return begin(text, rule, 10, start, 0, None, Some(most));
    }
    read_words_up_to(text, rule, start, most)
}

/// [`read_slice`], where `radix` is the rule's.
#[inline(always)]
pub(super) fn read_radix(
    text: &[u8],
    rule: Rule,
    radix: u32,
    start: usize,
    before: u64,
    first: Option<u32>,
    most: Option<u64>,
) -> Option<ReadTo>
    requires supported { IsSupported rule }
    requires radix { radix ≡ rule.radix }
    requires within { start ≤ length text.now }
    requires fits { IfSome most (λ m. before ≤ m) }
    requires first { IfSome first (IsFirst rule text.now start before most) }
    ensures { IfSome result (IsOffSlice rule text.now start before most) }
{
    let plain = begin(text, rule, radix, start, before, first, most);
    read_on(text, rule, radix, start, before, plain, most)
}

/// [`read_radix`] after the digits that were read before.
#[inline(always)]
#[tactic(auto, using(crate::proofs::Passed::reading))]
pub(super) fn read_on(
    text: &[u8],
    rule: Rule,
    radix: u32,
    start: usize,
    before: u64,
    plain: Plain,
    most: Option<u64>,
) -> Option<ReadTo>
    requires supported { IsSupported rule }
    requires radix { radix ≡ rule.radix }
    requires within { start ≤ length text.now }
    requires plain { ArePlain rule text.now start before most plain.end plain.value }
    ensures { IfSome result (IsOffSlice rule text.now start before most) }
{
    let mut value = plain.value;
    let mut separators = 0;
    for at in plain.end..text.len() {
        let byte = text[at];
        if let Some(digit) = char_to_digit_const(byte, radix) {
            let Some(more) = add_if(value, radix, digit, most) else {
                return Some(ReadTo {
                    value,
                    count: at - start - separators,
                    end: at,
                    is_too_large: true,
                });
            };
            value = more;
            continue;
        }
        if !rule.is_separator(byte) {
            // written out, as below: a call more here makes what inlines this too large
            return Some(ReadTo {
                value,
                count: at - start - separators,
                end: at,
                is_too_large: false,
            });
        }
        if at == start || !is_inner(text, rule, radix, at) {
            return None;
        }
        separators += 1;
    }
    Some(ReadTo {
        value,
        count: text.len() - start - separators,
        end: text.len(),
        is_too_large: false,
    })
}

/// [`read_on`] in radix 10, where no separator is met. It is small, as what is inlined in many
/// places must be.
#[inline(always)]
#[tactic(auto, using(crate::proofs::Passed::reading))]
pub(super) fn read_bare(
    text: &[u8],
    rule: Rule,
    start: usize,
    before: u64,
    plain: Plain,
) -> Option<ReadTo>
    requires supported { IsSupported rule }
    requires radix { rule.radix ≡ 10 }
    requires plain { ArePlain rule text.now start before None plain.end plain.value }
    ensures reads { IfSome result (IsOffSlice rule text.now start before None) }
    ensures all { IfSome result (λ read. read.is_too_large ≡ false) }
    ensures onward { IfSome result (λ read. plain.end ≤ start + read.count) }
{
    let mut value = plain.value;
    for at in plain.end..text.len() {
        let byte = text[at];
        let Some(digit) = char_to_digit_const(byte, 10) else {
            if rule.is_separator(byte) {
                return None;
            }
            return Some(ReadTo {
                value,
                count: at - start,
                end: at,
                is_too_large: false,
            });
        };
        value = value.wrapping_mul(10).wrapping_add(u64::from(digit));
    }
    let end = text.len();
    Some(ReadTo {
        value,
        count: end - start,
        end,
        is_too_large: false,
    })
}

/// The digit at the place of a component, if one is there.
#[inline(always)]
fn peek_digit_of(bytes: &mut Bytes, component: Component, radix: u32) -> Option<u32>
    ensures digit { result
        ≡ option_and_then (digit_of_radix radix) (byte_at_place component bytes.old.state) }
    ensures settles { bytes.new.state ≡ settled component bytes.old.state }
    ensures costs { Costs component bytes.old bytes.new }
{
    char_to_digit_const(*bytes.peek_of(component)?, radix)
}

/// Reads the digits of a component from the cursor on as [`read_slice`] does, whatever separators
/// are met. `next_of` takes each of them.
#[cold]
#[inline(never)]
#[tactic(auto, using(lexical_digits::specs::Laws::Table::place_from))]
pub(super) fn read_bytes(
    bytes: &mut Bytes,
    component: Component,
    before: u64,
    most: Option<u64>,
) -> ReadTo
    requires { IfSome most (λ m. before ≤ m) }
    ensures { Passes component before most bytes.old bytes.new result }
{
    let radix = bytes.rule(component).radix;
    let mut value = before;
    let mut count = 0;
    while let Some(digit) = peek_digit_of(bytes, component, radix) {
        let end = bytes.cursor();
        let Some(more) = add_if(value, radix, digit, most) else {
            return ReadTo {
                value,
                count,
                end,
                is_too_large: true,
            };
        };
        value = more;
        // at least `count` bytes are before this one
        prove!(count <= end);
        bytes.next_of(component);
        count += 1;
    }
    ReadTo::at(value, count, bytes.cursor())
}

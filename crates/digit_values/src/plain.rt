//! Digits with no separator among them, read by words of eight.

ghost use Rattle.std.specs.Prelude.{◌≡◌, ◌+◌, ◌-◌, ◌^◌, ◌<◌, ◌≤◌, length, None, Some};
ghost use Rattle.digit_values.specs.Reads.{ArePlain};

use digit_words::eight::{eight_at, front_at, join};
use lexical_digits::skip::Rule;

/// Digits with no separator among them.
#[derive(Clone, Copy)]
pub struct Plain {
    /// The value of the digits before them and of these; its lowest 64 bits, if no greatest value
    /// was asked for.
    pub value: u64,
    /// The position after them.
    pub end: usize,
}

/// Digits from `start` on by eights, after the value `before`, as long as eight are there. All
/// others are left.
#[inline(always)]
pub(super) fn read_eights(text: &[u8], rule: Rule, start: usize, before: u64) -> Plain
    requires radix { rule.radix ≡ 10 }
    requires within { start ≤ length text.now }
    ensures { ArePlain rule text.now start before None result.end result.value }
{
    let mut value = before;
    let mut end = start;
    while let Some(next) = eight_at(text, end) {
        value = value.wrapping_mul(100_000_000).wrapping_add(next);
        end += 8;
    }
    Plain { value, end }
}

/// Digits from `start` on whose value is at most `most`, by a word, and by a second one if eight
/// bytes more are there: 16 digits are never too large.
#[inline(always)]
pub(super) fn read_words_up_to(text: &[u8], rule: Rule, start: usize, most: u64) -> Plain
    requires radix { rule.radix ≡ 10 }
    requires within { start + 8 ≤ length text.now }
    requires large { 10 ^ 19 - 1 ≤ most }
    ensures { ArePlain rule text.now start 0 (Some most) result.end result.value }
{
    let first = front_at(text, start);
    let end = start + first.count;
    if first.count < 8 || text.len() - end < 8 {
        return Plain {
            value: first.value,
            end,
        };
    }
    let second = front_at(text, end);
    Plain {
        value: join(first.value, second),
        end: end + second.count,
    }
}

//! Numbers in groups, as `1_234_567`: one to three decimal digits, and then a separator and three
//! digits, as often as they are there. Each group is read by one load and one test. It is only for
//! speed, of `parse_number` where the word drops lone separators between digits (the rows
//! `u: I, grouped`).

ghost use Rattle.std.specs.Prelude.{◌≡◌, ◌+◌, ◌-◌, ◌<◌, ◌≤◌, length, true, Some, IfSome};
ghost use Rattle.lexical_digits.specs.declared.skip.rule.Rule.{Rule};
ghost use Rattle.digit_integers.specs.Groups.{DropsLone, IsGroup};
ghost use Rattle.digit_integers.specs.Answered.{IsToEnd};

use digit_words::eight::{NONE, Whole, four_at};
use digit_words::three::{are_three, head_at, value_of_three};

/// The number that the three digits after a separator write, if the four bytes from a position on
/// are these.
#[inline(always)]
fn group_at(text: &[u8], separator: u8, at: usize) -> Option<u64>
    requires separates { 0 < separator }
    requires within { at + 4 ≤ length text.now }
    ensures { IfSome result (IsGroup separator text.now at) }
{
    let zeros = 0x3030_3000 + u32::from(separator);
    let digits = four_at(text, at).wrapping_sub(zeros);
    if are_three(digits) {
        Some(value_of_three(digits))
    } else {
        None
    }
}

/// The value of the groups that a text is from `start` on to its end, if it has nothing else there
/// and the value fits 64 bits.
#[inline(always)]
fn read_groups(text: &[u8], separator: u8, start: usize) -> Option<u64>
    requires separates { 0 < separator }
    requires within { start + 4 ≤ length text.now }
    ensures { (rule : Rule) → DropsLone rule separator
        → IfSome result (IsToEnd rule text.now start) }
{
    let count = (text.len() - start) % 4;
    if count == 0 {
        return None;
    }
    let mut value = head_at(text, start, count)?;
    let mut end = start + count;
    while end < text.len() {
        let group = group_at(text, separator, end)?;
        value = value.checked_mul(1000)?.checked_add(group)?;
        end += 4;
    }
    Some(value)
}

/// The integer that a text is from `start` on to its end, in groups, where the radix is 10 and lone
/// separators between digits are dropped.
#[inline(never)]
pub(super) fn read_grouped(text: &[u8], separator: u8, start: usize) -> Whole
    requires separates { 0 < separator }
    requires within { start + 4 ≤ length text.now }
    ensures { (rule : Rule) → DropsLone rule separator → result.is_whole ≡ true
        → IsToEnd rule text.now start result.value }
{
    match read_groups(text, separator, start) {
        Some(value) => Whole {
            value,
            is_whole: true,
        },
        None => NONE,
    }
}

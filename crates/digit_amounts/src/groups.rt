//! The digits of an integer between its separators.

ghost use Rattle.std.specs.Prelude.{◌≡◌, ◌+◌, ◌≤◌, length, IfNone, IfSome, IsTrue};
ghost use Rattle.lexical_format.specs.Word.{is_supported};
ghost use Rattle.digit_amounts.specs.Groups.{is_group, groups_at, wrong_at, AreGroups};

use digit_values::stop_from;
use lexical_digits::skip::{Component, Rule};

/// Whether a group may have `count` digits: one to three if it is the first one, otherwise three.
#[inline(always)]
fn is_group(is_first: bool, count: usize) -> bool
    ensures { result ≡ is_group is_first count }
{
    if is_first {
        count > 0 && count <= 3
    } else {
        count == 3
    }
}

/// [`wrong_group`], as its definition says it.
#[inline(always)]
fn find_wrong(text: &[u8], word: u128, at: usize) -> Option<usize>
    requires supported { IsTrue (is_supported word) }
    requires within { at ≤ length text.now }
    ensures is { result ≡ wrong_at word text.now at }
    ensures within { IfSome result (λ wrong. (at ≤ wrong) × (wrong ≤ length text.now)) }
{
    let rule = Rule::of(word, Component::Integer);
    let end = stop_from(text, word, Component::Integer, at);
    let mut begin = at;
    for place in at..end {
        if rule.is_separator(text[place]) {
            if !is_group(begin == at, place - begin) {
                return Some(begin);
            }
            begin = place + 1;
        }
    }
    if is_group(begin == at, end - begin) {
        None
    } else {
        Some(begin)
    }
}

/// The position of the first group of digits with a wrong number of them, of the integer at a
/// position: each has three, the first one to three. The digits between separators are a group, and
/// so are those before the first separator and after the last one. `None` says that the integer is
/// in groups of three, as `1,234,567` and `12` are. Only separators that the word drops are passed,
/// and no sign. Requires that the position is within the text and that the word is supported.
///
/// ```text
/// with `,` between digits: `1,234;` None; `1,2,3` Some(2); `12,34` Some(3); `1234` Some(0)
/// ```
#[inline]
#[tactic(auto, using(crate::proofs::Grouping::groups))]
pub fn wrong_group(text: &[u8], word: u128, at: usize) -> Option<usize>
    requires supported { IsTrue (is_supported word) }
    requires within { at ≤ length text.now }
    ensures is { result ≡ wrong_at word text.now at }
    ensures none { IfNone result (AreGroups (groups_at word text.now at)) }
    ensures some { IfSome result (λ _. AreGroups (groups_at word text.now at) → ⊥) }
    ensures within { IfSome result (λ wrong. (at ≤ wrong) × (wrong ≤ length text.now)) }
{
    find_wrong(text, word, at)
}

//! The digits of a component that lead from a position on: how many, and where they end.

ghost use Rattle.std.specs.Prelude.{◌≡◌, ◌==◌, ◌-◌, ◌<◌, ◌≤◌, None, Some, Ok, length, filter, IfSome, IfOk, IfErr, IsTrue};
ghost use Rattle.lexical_format.specs.Word.{is_supported};
ghost use Rattle.lexical_digits.specs.declared.skip.component.Component.TheVariants.{Integer};
ghost use Rattle.lexical_digits.specs.Separators.{is_digit};
ghost use Rattle.lexical_digits.specs.State.{rule_of};
ghost use Rattle.lexical_digits.specs.Stop.{stop};
ghost use Rattle.lexical_digits.specs.declared.skip.rule.Rule.{Rule};
ghost use Rattle.digit_values.specs.Reads.{ReadsTo, IsFirst};

use super::slice::{ReadTo, read_bytes, read_slice};
use lexical_digits::iterator::Iter;
use lexical_digits::skip::{Bytes, Component, Rule};

/// Counts the digits of a text. Separators that the word allows don't count. If another byte is
/// there, the error is its position. Requires that the word is supported.
///
/// Digits are those of the mantissa radix, and separators are dropped as in an integer. The
/// position is that of the first byte that is neither. The empty text has 0 digits.
///
/// ```text
/// with internal `_`: `1_000` is Ok(4), `1_` and `1x` are Err(1)
/// ```
#[inline(always)]
#[tactic(auto, using(crate::proofs::ForCallers::all_is))]
pub fn count_digits(text: &[u8], word: u128) -> Result<usize, usize>
    requires { IsTrue (is_supported word) }
    ensures digits { let r = rule_of word Integer in
        IfOk result (λ n. n ≡ length (filter (is_digit r) text.now)) }
    ensures whole { IfOk result (λ _. stop (rule_of word Integer) text.now 0 0 ≡ length text.now) }
    ensures stops { IfErr result (λ at. at ≡ stop (rule_of word Integer) text.now 0 0) }
    ensures within { IfErr result (λ at. at < length text.now) }
{
    let read = read_component(text, word, Component::Integer, 0, None);
    if read.end == text.len() {
        Ok(read.count)
    } else {
        Err(read.end)
    }
}

/// Returns where the digits of the component at `start` end: at the first byte that is neither a
/// digit nor a separator that the word allows there, or at the end of the text. Requires that
/// `start` is within the text and the word is supported.
///
/// A separator at `start` is judged with the byte before it: in `1_0` the `_` at 1 has a digit on
/// its left.
///
/// ```text
/// `1.5_0e7` with internal `_` in the fraction: the fraction from 2 ends at 5
/// ```
#[inline(always)]
#[tactic(auto, using(crate::proofs::ForCallers::stops))]
pub fn stop_from(text: &[u8], word: u128, component: Component, start: usize) -> usize
    requires supported { IsTrue (is_supported word) }
    requires within { start ≤ length text.now }
    ensures stops { result ≡ stop (rule_of word component) text.now start 0 }
    ensures onward { start ≤ result }
    ensures within { result ≤ length text.now }
{
    read_component(text, word, component, start, None).end
}

/// The digits of a component that lead from `start` on, and whether there are none: up to a
/// greatest value if one is asked for. The digit at `start` may be known.
#[inline(always)]
pub fn read_known(
    text: &[u8],
    word: u128,
    component: Component,
    start: usize,
    first: Option<u32>,
    most: Option<u64>,
) -> (ReadTo, bool)
    requires supported { IsTrue (is_supported word) }
    requires within { start ≤ length text.now }
    requires first { let r = rule_of word component in
        IfSome first (IsFirst r text.now start 0 most) }
    ensures reads { ReadsTo (rule_of word component) text.now start 0 most result.0 0 }
    ensures empty { result.1 ≡ (result.0.count == 0) }
{
    match read_component_slice(text, word, component, start, first, most) {
        Some(read) => (read, read.end == start),
        None => {
            let read = read_fresh_bytes(text, word, component, start, most);
            (read, read.count == 0)
        }
    }
}

/// The digits of a component that lead from `start` on: up to a greatest value if one is asked for.
#[inline(always)]
pub fn read_component(
    text: &[u8],
    word: u128,
    component: Component,
    start: usize,
    most: Option<u64>,
) -> ReadTo
    requires supported { IsTrue (is_supported word) }
    requires within { start ≤ length text.now }
    ensures { ReadsTo (rule_of word component) text.now start 0 most result 0 }
{
    read_known(text, word, component, start, None, most).0
}

/// Reads the digits of a component from `start` on, where the slice is enough: up to a greatest
/// value if one is asked for. There is no digit exactly if no byte was passed. The digit at `start`
/// may be known.
#[inline(always)]
pub fn read_component_slice(
    text: &[u8],
    word: u128,
    component: Component,
    start: usize,
    first: Option<u32>,
    most: Option<u64>,
) -> Option<ReadTo>
    requires supported { IsTrue (is_supported word) }
    requires within { start ≤ length text.now }
    requires first { let r = rule_of word component in
        IfSome first (IsFirst r text.now start 0 most) }
    ensures reads { let r = rule_of word component in
        IfSome result (λ read. ReadsTo r text.now start 0 most read 0) }
    ensures empty { IfSome result (λ read. (read.end == start) ≡ (read.count == 0)) }
{
    read_slice(text, Rule::of(word, component), start, 0, first, most)
}

/// Reads the digits of a component from `start` on by a `Bytes`, whatever separators are met: up to
/// a greatest value if one is asked for.
#[cold]
#[inline(never)]
pub fn read_fresh_bytes(
    text: &[u8],
    word: u128,
    component: Component,
    start: usize,
    most: Option<u64>,
) -> ReadTo
    requires supported { IsTrue (is_supported word) }
    requires within { start ≤ length text.now }
    ensures { ReadsTo (rule_of word component) text.now start 0 most result 0 }
{
    let mut bytes = Bytes::new(text, word);
    bytes.set_cursor(start);
    read_bytes(&mut bytes, component, 0, most)
}

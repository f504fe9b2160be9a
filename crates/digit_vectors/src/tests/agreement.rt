//! The reads by component, which the iterators make, agree with the slow program: over every short
//! text, from every cursor and count, in every state of the flags.

ghost use Rattle.std.specs.Prelude.{◌<◌, length};

use super::{CONSECUTIVE, INTERNAL, LEADING, TRAILING, UNFLAGGED};
use crate::slow::{is_kept, place, seen};
use lexical_digits::iterator::{DigitsIter, Iter, IterBodies};
use lexical_digits::skip::{Bytes, Component, Rule};
use lexical_format::{SPECIAL_DIGIT_SEPARATOR, is_supported};
use std::process::Abort;

/// A component, with what its reads are compared with: its rule, and whether `next` counts digits.
#[derive(Clone, Copy)]
struct Slow {
    component: Component,
    rule: Rule,
    is_counting: bool,
}

/// The rule that the word gives a component. All components but special count, if they have a flag.
fn slow_of(word: u128, component: Component) -> Slow {
    let rule = Rule::of(word, component);
    let has_flags = rule.internal || rule.leading || rule.trailing || rule.consecutive;
    Slow {
        component,
        rule,
        is_counting: has_flags && component != Component::Special,
    }
}

/// The integer's flags in one of sixteen states.
fn flags_of(state: u32) -> u128 {
    let mut flags = 0;
    for (place, flag) in [INTERNAL, LEADING, TRAILING, CONSECUTIVE]
        .into_iter()
        .enumerate()
    {
        if (state >> place) & 1 == 1 {
            flags |= flag;
        }
    }
    flags
}

/// Writes the text of a number, if texts over that alphabet are numbered.
fn spell(text: &mut [u8], alphabet: &[u8], number: usize)
    requires { 0 < length alphabet.now }
{
    let mut rest = number;
    for byte in text {
        *byte = alphabet[rest % alphabet.len()];
        rest /= alphabet.len();
    }
}

/// Raises the count by which a component is judged; special is judged by the integer's.
fn raise(bytes: &mut Bytes, component: Component) {
    match component {
        Component::Integer | Component::Special => bytes.integer_iter().increment_count(),
        Component::Fraction => bytes.fraction_iter().increment_count(),
        Component::Exponent => bytes.exponent_iter().increment_count(),
    }
}

/// Raises the count of a component this many times, and sets the cursor: whether it can.
fn is_put(bytes: &mut Bytes, component: Component, cursor: usize, count: usize) -> bool {
    for _ in 0..count {
        raise(bytes, component);
    }
    let has = cursor <= bytes.buffer_length();
    if has {
        bytes.set_cursor(cursor);
    }
    has
}

/// `next` yields this byte, and leaves this cursor and this count.
fn is_taken(bytes: &mut Bytes, component: Component, byte: u8, cursor: usize, count: u128) -> bool {
    bytes.next_of(component).copied() == Some(byte)
        && bytes.cursor() == cursor
        && bytes.current_count_of(component) as u128 == count
}

/// From this cursor and count, a drain yields what the slow program keeps, and counts as it does.
fn drain_agrees(bytes: &mut Bytes, text: &[u8], slow: Slow, start: usize, count: usize) -> bool {
    for position in start..text.len() {
        if is_kept(slow.rule, text, start, count, position) {
            let counted = if slow.is_counting {
                seen(slow.rule, text, start, count, position + 1)
            } else {
                count as u128
            };
            if !is_taken(bytes, slow.component, text[position], position + 1, counted) {
                return false;
            }
        }
    }
    bytes.next_of(slow.component).is_none() && bytes.cursor() == text.len()
}

/// The drain of a component from this cursor and count.
fn drain_agrees_from(text: &[u8], word: u128, slow: Slow, start: usize, count: usize) -> bool {
    if !is_supported(word) {
        return false;
    }
    let mut bytes = Bytes::new(text, word);
    is_put(&mut bytes, slow.component, start, count)
        && drain_agrees(&mut bytes, text, slow, start, count)
}

/// A peek and then a `next` find this byte, and the peek leaves the cursor here.
fn is_found(bytes: &mut Bytes, component: Component, byte: Option<u8>, at: usize) -> bool {
    bytes.peek_of(component).copied() == byte
        && bytes.cursor() == at
        && bytes.next_of(component).copied() == byte
}

/// A peek and then a `next` find what is at the place of the slow program. Answers the count after
/// that, or `None` if they don't.
fn step_agrees(bytes: &mut Bytes, text: &[u8], slow: Slow, count: usize) -> Option<usize> {
    let start = bytes.cursor();
    if start > text.len() {
        return None;
    }
    let at = place(slow.rule, text, start, count);
    let byte = text.get(at).copied();
    if !is_found(bytes, slow.component, byte, at) {
        return None;
    }
    let counted = match byte {
        Some(byte) if slow.is_counting && slow.rule.is_digit(byte) => count.saturating_add(1),
        _ => count,
    };
    (bytes.current_count_of(slow.component) == counted).then_some(counted)
}

/// Steps from this count to the end of a text.
fn rest_agrees(bytes: &mut Bytes, text: &[u8], slow: Slow, from: usize, count: usize) -> bool {
    let mut count = count;
    for _ in from..=text.len() {
        match step_agrees(bytes, text, slow, count) {
            Some(counted) => count = counted,
            None => return false,
        }
    }
    true
}

/// A step there, a step at another cursor, and then from that cursor, with the count raised by one,
/// all steps to the end.
fn steps_agree(text: &[u8], word: u128, slow: Slow, from: usize, to: usize) -> bool {
    if !is_supported(word) {
        return false;
    }
    let mut bytes = Bytes::new(text, word);
    if !is_put(&mut bytes, slow.component, from, 0) {
        return false;
    }
    let Some(count) = step_agrees(&mut bytes, text, slow, 0) else {
        return false;
    };
    if !is_put(&mut bytes, slow.component, to, 0) {
        return false;
    }
    let Some(count) = step_agrees(&mut bytes, text, slow, count) else {
        return false;
    };
    is_put(&mut bytes, slow.component, to, 1)
        && rest_agrees(&mut bytes, text, slow, to, count.saturating_add(1))
}

/// The drains of a component from each cursor with each small count.
fn drains_agree(text: &[u8], word: u128, component: Component) -> bool {
    let slow = slow_of(word, component);
    for from in 0..=text.len() {
        for count in 0..2 {
            if !drain_agrees_from(text, word, slow, from, count) {
                return false;
            }
        }
    }
    true
}

/// The steps of the integer from each cursor, and from each other cursor.
fn all_steps_agree(text: &[u8], word: u128) -> bool {
    let slow = slow_of(word, Component::Integer);
    for from in 0..=text.len() {
        for to in 0..=text.len() {
            if !steps_agree(text, word, slow, from, to) {
                return false;
            }
        }
    }
    true
}

/// Integer, fraction and exponent, by the same flags. The bits of the fraction are one above the
/// integer's, and those of the exponent two.
fn components_agree(text: &[u8], state: u32) -> bool {
    let flags = flags_of(state);
    drains_agree(text, UNFLAGGED | flags, Component::Integer)
        && all_steps_agree(text, UNFLAGGED | flags)
        && drains_agree(text, UNFLAGGED | (flags << 1), Component::Fraction)
        && drains_agree(text, UNFLAGGED | (flags << 2), Component::Exponent)
}

/// The reads of one text in every state of the flags, and the drains of a special value with its
/// flag and without.
fn text_agrees(text: &[u8]) -> bool {
    for state in 0..16 {
        if !components_agree(text, state) {
            return false;
        }
    }
    let special = Component::Special;
    drains_agree(text, UNFLAGGED, special)
        && drains_agree(text, UNFLAGGED | SPECIAL_DIGIT_SEPARATOR, special)
}

/// Every text of this length over an alphabet.
fn assert_texts_agree(rt: &impl Abort, alphabet: &[u8], letters: u32) {
    let mut text = [0; 5];
    assert!(rt; letters <= 5 && !alphabet.is_empty());
    let text = &mut text[..letters as usize];
    for number in 0..alphabet.len().saturating_pow(letters) {
        spell(text, alphabet, number);
        assert!(rt; text_agrees(text), "{text:?}");
    }
}

#[test]
fn reads_of_digits_and_separators_are_those_of_the_slow_program(rt: HostRuntime) {
    for letters in 0..=5 {
        assert_texts_agree(&rt, b"1_", letters);
    }
}

#[test]
fn reads_with_letters_too_are_those_of_the_slow_program(rt: HostRuntime) {
    for letters in 0..=3 {
        assert_texts_agree(&rt, b"1_.a", letters);
    }
}

#[test]
fn reads_of_four_bytes_with_letters_too_are_those_of_the_slow_program(rt: HostRuntime) {
    assert_texts_agree(&rt, b"1_.a", 4);
}

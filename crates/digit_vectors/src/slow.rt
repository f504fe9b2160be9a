//! The role rule as a slow program, which the tests compare the iterators with. For each position
//! it looks at the whole buffer. It has no cursor and no state. Positions count bytes from 0.

ghost use Rattle.std.specs.Prelude.{◌≡◌, ◌+◌, ◌<◌, ◌≤◌, not, length, reverse, Option};
ghost use Rattle.std.specs.List.{list_any, find};
ghost use Rattle.lexical_digits.specs.Separators.{class, is_separator, neighbour, left_side, right_side, roles, grants, digits_seen, is_kept, place};

use lexical_digits::skip::{Class, Rule};

/// The class of a byte by the rule; `None` is a position outside of the buffer.
fn side_of(rule: Rule, byte: Option<u8>) -> Class
    ensures { result ≡ class rule byte }
{
    match byte {
        Some(byte) if rule.is_digit(byte) => Class::Digit,
        Some(byte) if rule.is_separator(byte) => Class::Separator,
        _ => Class::Other,
    }
}

/// The first of these bytes that is no separator.
fn first_other(rule: Rule, bytes: &[u8]) -> Option<u8>
    ensures { result ≡ find (λ byte. not (is_separator rule.separator byte)) bytes.now }
{
    bytes.iter().copied().find(|byte| !rule.is_separator(*byte))
}

/// The last of these bytes that is no separator.
fn last_other(rule: Rule, bytes: &[u8]) -> Option<u8>
    ensures { result ≡ find (λ byte. not (is_separator rule.separator byte)) (reverse bytes.now) }
{
    let mut backwards = bytes.iter().rev().copied();
    backwards.find(|byte| !rule.is_separator(*byte))
}

/// The byte that gives a separator its right side, of the bytes after it.
#[tactic(auto, unfolding(lexical_digits::specs::Separators::neighbour))]
fn right_neighbour(rule: Rule, after: &[u8]) -> Option<u8>
    ensures { result ≡ neighbour rule after.now }
{
    if rule.consecutive {
        first_other(rule, after)
    } else {
        after.first().copied()
    }
}

/// The byte that gives a separator its left side, of the bytes before it.
#[tactic(auto, unfolding(lexical_digits::specs::Separators::neighbour))]
fn left_neighbour(rule: Rule, before: &[u8]) -> Option<u8>
    ensures { result ≡ neighbour rule (reverse before.now) }
{
    if rule.consecutive {
        last_other(rule, before)
    } else {
        before.iter().rev().copied().next()
    }
}

/// The right side of the separator at a position.
fn right_side(rule: Rule, buffer: &[u8], position: usize) -> Class
    requires { position < length buffer.now }
    ensures { result ≡ right_side rule buffer.now position }
{
    side_of(rule, right_neighbour(rule, &buffer[position + 1..]))
}

/// The left side of the separator at a position. Once a digit was seen, the side is a digit.
fn left_side(rule: Rule, buffer: &[u8], digit_seen: bool, position: usize) -> Class
    requires { position ≤ length buffer.now }
    ensures { result ≡ left_side rule buffer.now digit_seen position }
{
    if digit_seen {
        Class::Digit
    } else {
        side_of(rule, left_neighbour(rule, &buffer[..position]))
    }
}

/// Whether the rule grants a role of a separator that has these sides.
fn is_granted(rule: Rule, left: Class, right: Class) -> bool
    ensures { result ≡ list_any (grants rule) (roles left right) }
{
    match (left, right) {
        (Class::Digit, Class::Digit) => rule.internal,
        (Class::Other, Class::Digit) => rule.leading,
        (Class::Digit, Class::Other) => rule.trailing,
        (Class::Other, Class::Other) => rule.leading || rule.trailing,
        (Class::Separator, _) | (_, Class::Separator) => false,
    }
}

/// The count at the start plus the number of digits from there up to the position.
#[tactic(auto, unfolding(lexical_digits::specs::Separators::digits_seen))]
pub fn seen(rule: Rule, buffer: &[u8], start: usize, count: usize, position: usize) -> u128
    requires low { start ≤ position }
    requires high { position ≤ length buffer.now }
    ensures { result ≡ digits_seen rule buffer.now start count position }
{
    let passed = &buffer[start..position];
    let digits = passed.iter().filter(|byte| rule.is_digit(**byte)).count();
    count as u128 + digits as u128
}

/// Whether the rule keeps the byte at a position, for a read that starts at `start` with that
/// count.
#[tactic(auto, unfolding(crate::proofs::Unfolded::keeping))]
pub fn is_kept(rule: Rule, buffer: &[u8], start: usize, count: usize, position: usize) -> bool
    requires low { start ≤ position }
    requires high { position < length buffer.now }
    ensures { result ≡ is_kept rule buffer.now start count position }
{
    if side_of(rule, Some(buffer[position])) != Class::Separator {
        return true;
    }
    let digit_seen = seen(rule, buffer, start, count, position) > 0;
    let left = left_side(rule, buffer, digit_seen, position);
    let right = right_side(rule, buffer, position);
    !is_granted(rule, left, right)
}

/// The first kept position from `start` on, or the length if there is none.
pub fn place(rule: Rule, buffer: &[u8], start: usize, count: usize) -> usize
    requires { start ≤ length buffer.now }
    ensures { result ≡ place rule buffer.now start count }
{
    for position in start..buffer.len() {
        if is_kept(rule, buffer, start, count, position) {
            return position;
        }
    }
    buffer.len()
}

//! What is around the digits of a line's number: blanks, a sign, and the line feed.

ghost use Rattle.std.specs.Prelude.{◌≡◌, ◌^◌, ◌<◌, ◌≤◌, length, IfSome, Ok};
ghost use Rattle.digit_literals.specs.Lists.{past_blanks, next_after};
ghost use Rattle.digit_integers.specs.Numbers.{is_negative_from, digits_from, signed};

use digit_literals::LINES;

/// Where the number of the line that begins at a position begins: after any blanks. Most lines
/// begin with none, or with one.
#[inline(always)]
#[tactic(auto, using(crate::proofs::InLine::begins))]
pub fn begin_at(text: &[u8], at: usize) -> usize
    requires { at ≤ length text.now }
    ensures is { result ≡ past_blanks LINES text.now at }
    ensures onward { at ≤ result }
    ensures within { result ≤ length text.now }
{
    if at < text.len() && text[at] > b' ' {
        return at;
    }
    if text.len() - at > 1 && text[at] == b' ' && text[at + 1] > b' ' {
        return at + 1;
    }
    LINES.past_blanks(text, at)
}

/// What follows the line feed after a number that ends at a position, with any blanks between them.
/// Most lines have none, or a carriage return.
#[inline(always)]
#[tactic(auto, using(crate::proofs::InLine::feeds))]
pub fn after_feed(text: &[u8], end: usize) -> Option<usize>
    requires { end ≤ length text.now }
    ensures is { IfSome result (λ next. next_after LINES text.now end ≡ Ok next) }
    ensures onward { IfSome result (λ next. end < next) }
    ensures within { IfSome result (λ next. next ≤ length text.now) }
{
    if end < text.len() && text[end] == b'\n' {
        return Some(end + 1);
    }
    if text.len() - end > 1 && text[end] == b'\r' && text[end + 1] == b'\n' {
        return Some(end + 2);
    }
    match LINES.next_after(text, end) {
        Ok(next) => Some(next),
        Err(_) => None,
    }
}

/// The sign of a number: whether it is a minus, and the position after it.
#[inline(always)]
pub fn sign_of(text: &[u8], place: usize) -> (bool, usize)
    requires { place ≤ length text.now }
    ensures negative { result.0 ≡ is_negative_from (2 ^ 127) text.now place }
    ensures begins { result.1 ≡ digits_from (2 ^ 127) text.now place }
    ensures onward { place ≤ result.1 }
    ensures within { result.1 ≤ length text.now }
{
    match text.get(place) {
        Some(b'-') => (true, place + 1),
        Some(b'+') => (false, place + 1),
        _ => (false, place),
    }
}

/// A magnitude with its sign.
#[inline(always)]
pub fn signed(is_negative: bool, magnitude: u64) -> i64
    requires { magnitude < 2 ^ 63 }
    ensures { result ≡ signed is_negative magnitude }
{
    let value = magnitude as i64;
    if is_negative { -value } else { value }
}

/// The greatest magnitude of 63 bits.
pub const GREATEST: u64 = 9_223_372_036_854_775_807;

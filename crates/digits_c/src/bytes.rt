//! Blanks, and bytes around a list.

ghost use Rattle.std.specs.Prelude.{◌≡◌, ◌≤◌, length};
ghost use Rattle.digits_c.specs.Bytes.{byte_from, inside, list_from, past_blanks};

use super::outcome::{BAD_START, CLOSED, OTHER_BYTE, Outcome};
use digits::{BLANKS, expect_byte, past_bytes};

/// The first position from a start on without a blank, or the end of the text. A start after the
/// end stays.
#[unsafe(no_mangle)]
pub extern "C" fn digits_past_blanks(text: &[u8], start: usize) -> usize
    ensures { result ≡ past_blanks text.now start }
{
    if start > text.len() {
        start
    } else {
        past_bytes(text, start, BLANKS)
    }
}

/// The position after a byte, which blanks may be before.
#[unsafe(no_mangle)]
pub extern "C" fn digits_expect_byte(text: &[u8], start: usize, byte: u8) -> Outcome
    ensures { result ≡ byte_from text.now start byte }
{
    if start > text.len() {
        return Outcome::fault(BAD_START, start);
    }
    match expect_byte(text, past_bytes(text, start, BLANKS), byte) {
        Ok(end) => Outcome::done(end),
        Err(at) => Outcome::fault(OTHER_BYTE, at),
    }
}

/// What follows the byte that opens a list.
#[inline(always)]
fn inside(text: &[u8], at: usize, closing: u8) -> Outcome
    requires { at ≤ length text.now }
    ensures { result ≡ inside text.now at closing }
{
    match expect_byte(text, past_bytes(text, at, BLANKS), closing) {
        Ok(end) => Outcome::fault(CLOSED, end),
        Err(first) => Outcome::done(first),
    }
}

/// The position of the first number of a list that a byte opens; or that another byte closes it.
#[unsafe(no_mangle)]
pub extern "C" fn digits_open_list(text: &[u8], start: usize, opening: u8, closing: u8) -> Outcome
    ensures { result ≡ list_from text.now start opening closing }
{
    if start > text.len() {
        return Outcome::fault(BAD_START, start);
    }
    match expect_byte(text, past_bytes(text, start, BLANKS), opening) {
        Ok(at) => inside(text, at, closing),
        Err(at) => Outcome::fault(OTHER_BYTE, at),
    }
}

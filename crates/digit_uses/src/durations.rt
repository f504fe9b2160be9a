//! A length of time in parts: `1h30m`, `1_500ms`. It is a loop over many numbers: what was read so
//! far is a `data` type, and the attributes name its constructors.
//!
//! Proof by hand: 4 lines, an invariant and a measure.

ghost use Rattle.std.specs.Prelude.{◌≡◌, ◌<◌, ◌≤◌, length, IfOk, IfErr, IfSome};
ghost use Rattle.digit_uses.specs.Durations.{unit_at, IsPart, Sums, IsCause, IsFault};

use digits::words::PYTHON_LITERAL;
use digits::{LiteralError, has_byte, read_number_from};

/// Why a text is no length of time. It has where the part at fault begins.
#[derive(Clone, Copy, Debug, PartialEq, Eq)]
pub enum Fault {
    NoPart(usize, Cause),
    /// With this part the sum is too large.
    TooLong(usize),
}

/// Why there is no part.
#[derive(Clone, Copy, Debug, PartialEq, Eq)]
pub enum Cause {
    /// No digit is here.
    Empty(usize),
    /// With the digit here the number of a part is too large.
    TooLarge(usize),
    /// No unit is here.
    NoUnit(usize),
}

/// The milliseconds of the unit here, and where it ends.
fn unit_at(text: &[u8], at: usize) -> Option<(u64, usize)>
    requires { at ≤ length text.now }
    ensures is { result ≡ unit_at text.now at }
    ensures onward { IfSome result (λ unit. at < unit.1) }
    ensures within { IfSome result (λ unit. unit.1 ≤ length text.now) }
    ensures few { IfSome result (λ unit. unit.0 ≤ 3_600_000) }
{
    if has_byte(text, at, b'h') {
        Some((3_600_000, at + 1))
    } else if has_byte(text, at, b'm') {
        if has_byte(text, at + 1, b's') {
            Some((1, at + 2))
        } else {
            Some((60_000, at + 1))
        }
    } else if has_byte(text, at, b's') {
        Some((1000, at + 1))
    } else {
        None
    }
}

/// The value of the part that begins here, and where it ends.
#[tactic(auto, unfolding(digits::proofs::Literals::lexical_on_literals))]
fn read_part(text: &[u8], start: usize) -> Result<(u64, usize), Cause>
    requires { start ≤ length text.now }
    ensures part { IfOk result (λ part. IsPart text.now start part.0 part.1) }
    ensures onward { IfOk result (λ part. start < part.1) }
    ensures within { IfOk result (λ part. part.1 ≤ length text.now) }
    ensures cause { IfErr result (IsCause text.now start) }
{
    let (value, end) = match read_number_from::<u32>(text, PYTHON_LITERAL, start) {
        Ok(read) => read,
        Err(LiteralError::Empty(at)) => return Err(Cause::Empty(at)),
        Err(LiteralError::Overflow(at)) => return Err(Cause::TooLarge(at)),
    };
    match unit_at(text, end) {
        Some((factor, next)) => Ok((u64::from(value) * factor, next)),
        None => Err(Cause::NoUnit(end)),
    }
}

/// The sum with the part that begins here, and where it ends.
#[tactic(auto, using(crate::specs::Durations::more))]
fn add_part(text: &[u8], start: usize, sum: u64) -> Result<(u64, usize), Fault>
    requires within { start ≤ length text.now }
    requires before { Sums text.now start sum }
    ensures sums { IfOk result (λ read. Sums text.now read.1 read.0) }
    ensures onward { IfOk result (λ read. start < read.1) }
    ensures within { IfOk result (λ read. read.1 ≤ length text.now) }
    ensures fault { IfErr result (IsFault text.now) }
{
    match read_part(text, start) {
        Ok((worth, end)) => match sum.checked_add(worth) {
            Some(more) => Ok((more, end)),
            None => Err(Fault::TooLong(start)),
        },
        Err(cause) => Err(Fault::NoPart(start, cause)),
    }
}

/// The milliseconds of a length of time.
#[tactic(auto, using(crate::specs::Durations::none))]
pub fn parse_duration(text: &[u8]) -> Result<u64, Fault>
    ensures ok { IfOk result (λ sum. Sums text.now (length text.now) sum) }
    ensures fault { IfErr result (IsFault text.now) }
{
    let mut sum = 0u64;
    let mut at = 0;
    while at < text.len() {
        (sum, at) = add_part(text, at, sum)?;
    }
    Ok(sum)
}

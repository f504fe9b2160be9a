//! The decimal digits of a `u64`, written from the last on, eight at a step.

ghost use Rattle.std.specs.Prelude.{◌≡◌, ◌+◌, ◌-◌, ◌/◌, ◌^◌, ◌≤◌, ◌++◌, length, drop};
ghost use Rattle.decimal_writers.specs.Text.{number_text, last_digits};

use super::pairs::{put_eight, put_first_eight, put_two};

/// Ten to each power below 2^64, and 0 for the first.
static POWERS: [u64; 20] = [
    0,
    10,
    100,
    1_000,
    10_000,
    100_000,
    1_000_000,
    10_000_000,
    100_000_000,
    1_000_000_000,
    10_000_000_000,
    100_000_000_000,
    1_000_000_000_000,
    10_000_000_000_000,
    100_000_000_000_000,
    1_000_000_000_000_000,
    10_000_000_000_000_000,
    100_000_000_000_000_000,
    1_000_000_000_000_000_000,
    10_000_000_000_000_000_000,
];

/// How many decimal digits a number has: those of the power of two below it, or one more.
#[inline(always)]
#[tactic(auto, using(crate::proofs::Counting::counts))]
pub fn count_digits(n: u64) -> usize
    ensures is { result ≡ length (number_text n) }
    ensures few { result ≤ 20 }
    ensures some { 1 ≤ result }
{
    let log = n.max(1).ilog2() as usize;
    let few = (log + 1) * 1233 / 4096;
    few + (n >= POWERS[few]) as usize
}

/// [`put_digits`], two at a step.
#[inline(always)]
#[tactic(auto, using(crate::proofs::Numerals::puts))]
fn put_pairs(n: u64, count: usize, out: &mut [u8], end: usize) -> u64
    requires room { count ≤ end }
    requires within { end ≤ length out.old }
    ensures left { result ≡ n / 10 ^ count }
    ensures written { drop (end - count) out.new ≡ last_digits count n ++ drop end out.old }
{
    let start = end - count;
    let mut left = n;
    let mut at = end;
    while at - start >= 2 {
        put_two((left % 100) as u32, out, at);
        left /= 100;
        at -= 2;
    }
    if at > start {
        out[start] = b'0' + (left % 10) as u8;
        return left / 10;
    }
    left
}

/// Writes the last `count` digits of a number before `end`, with zeros where it has fewer, and
/// answers the number without them.
#[inline(always)]
#[tactic(auto, using(crate::proofs::Numerals::puts))]
pub fn put_digits(n: u64, count: usize, out: &mut [u8], end: usize) -> u64
    requires room { count ≤ end }
    requires within { end ≤ length out.old }
    ensures left { result ≡ n / 10 ^ count }
    ensures written { drop (end - count) out.new ≡ last_digits count n ++ drop end out.old }
{
    let start = end - count;
    let mut left = n;
    let mut at = end;
    while at - start >= 8 {
        put_eight((left % 100_000_000) as u32, out, at);
        left /= 100_000_000;
        at -= 8;
    }
    put_pairs(left, at - start, out, at)
}

/// Writes all digits of a number before `end`, and answers where they begin.
#[inline(always)]
pub fn put_number(n: u64, out: &mut [u8], end: usize) -> usize
    requires room { length (number_text n) ≤ end }
    requires within { end ≤ length out.old }
    ensures start { result + length (number_text n) ≡ end }
    ensures written { drop result out.new ≡ number_text n ++ drop end out.old }
{
    let mut left = n;
    let mut at = end;
    while left >= 100_000_000 {
        put_eight((left % 100_000_000) as u32, out, at);
        left /= 100_000_000;
        at -= 8;
    }
    put_first_eight(left as u32, out, at)
}

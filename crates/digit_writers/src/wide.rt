//! The decimal digits of a number of up to 128 bits, sixteen at a step past 64 bits.

ghost use Rattle.std.specs.Prelude.{◌≡◌, ◌+◌, ◌/◌, ◌%◌, ◌^◌, ◌<◌, ◌≤◌, length, decimal};
ghost use Rattle.std.specs.List.{splice};

use super::digits::{put_sixteen, put_u64};

/// 10 to the power of 16.
const TEN_TO_16: u128 = 10_000_000_000_000_000;

/// A number without its last sixteen digits, and these.
#[inline(always)]
fn split_sixteen(n: u128) -> (u128, u64)
    ensures high { result.0 ≡ n / 10 ^ 16 }
    ensures low { result.1 ≡ n % 10 ^ 16 }
{
    let high = n / TEN_TO_16;
    (high, (n - high * TEN_TO_16) as u64)
}

/// Writes a number from a position on, and answers where it ends.
#[inline(always)]
fn put_high(n: u128, out: &mut [u8], at: usize) -> usize
    requires below { n < 10 ^ 23 }
    requires room { at + length (decimal n) ≤ length out.old }
    ensures end { result ≡ at + length (decimal n) }
    ensures written { out.new ≡ splice out.old at result (decimal n) }
{
    if n <= u64::MAX as u128 {
        return put_u64(n as u64, out, at);
    }
    let (high, low) = split_sixteen(n);
    let next = put_u64(high as u64, out, at);
    put_sixteen(low, out, next);
    next + 16
}

/// Writes a number from a position on, and answers where it ends.
#[inline(never)]
fn put_wide(n: u128, out: &mut [u8], at: usize) -> usize
    requires above { 2 ^ 64 ≤ n }
    requires room { at + length (decimal n) ≤ length out.old }
    ensures end { result ≡ at + length (decimal n) }
    ensures written { out.new ≡ splice out.old at result (decimal n) }
{
    let (high, low) = split_sixteen(n);
    let next = put_high(high, out, at);
    put_sixteen(low, out, next);
    next + 16
}

/// Writes a number from a position on, and answers where it ends.
#[inline(always)]
pub(crate) fn put_number(n: u128, out: &mut [u8], at: usize) -> usize
    requires room { at + length (decimal n) ≤ length out.old }
    ensures end { result ≡ at + length (decimal n) }
    ensures written { out.new ≡ splice out.old at result (decimal n) }
{
    if n <= u64::MAX as u128 {
        return put_u64(n as u64, out, at);
    }
    put_wide(n, out, at)
}

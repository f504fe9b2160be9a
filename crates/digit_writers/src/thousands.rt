//! Decimal digits in groups of three, from the first one on.

ghost use Rattle.std.specs.Prelude.{◌≡◌, ◌+◌, ◌/◌, ◌%◌, ◌^◌, ◌<◌, ◌≤◌, length};
ghost use Rattle.std.specs.List.{splice};
ghost use Rattle.digit_writers.specs.Layouts.{thousands, thousands_after};

use super::digits::put_first_two;
use super::triples::put_three;

/// 10 to the power of 18.
const TEN_TO_18: u128 = 1_000_000_000_000_000_000;

/// Writes a separator and three digits after it from a position on.
#[inline(always)]
fn put_group(n: u32, separator: u8, out: &mut [u8], at: usize)
    requires below { n < 1000 }
    requires room { at + 4 ≤ length out.old }
    ensures { out.new ≡ splice out.old at (at + 4) (thousands_after separator 3 n) }
{
    out[at] = separator;
    put_three(n, out, at + 1);
}

/// Writes two groups, each with a separator before it, from a position on.
#[inline(always)]
fn put_two_groups(n: u32, separator: u8, out: &mut [u8], at: usize)
    requires below { n < 1000000 }
    requires room { at + 8 ≤ length out.old }
    ensures { out.new ≡ splice out.old at (at + 8) (thousands_after separator 6 n) }
{
    put_group(n / 1_000, separator, out, at);
    put_group(n % 1_000, separator, out, at + 4);
}

/// Writes four groups, each with a separator before it, from a position on.
#[inline(always)]
fn put_four_groups(n: u64, separator: u8, out: &mut [u8], at: usize)
    requires below { n < 10 ^ 12 }
    requires room { at + 16 ≤ length out.old }
    ensures { out.new ≡ splice out.old at (at + 16) (thousands_after separator 12 n) }
{
    put_two_groups((n / 1_000_000) as u32, separator, out, at);
    put_two_groups((n % 1_000_000) as u32, separator, out, at + 8);
}

/// Writes six groups, each with a separator before it, from a position on.
#[inline(always)]
fn put_six_groups(n: u64, separator: u8, out: &mut [u8], at: usize)
    requires below { n < 10 ^ 18 }
    requires room { at + 24 ≤ length out.old }
    ensures { out.new ≡ splice out.old at (at + 24) (thousands_after separator 18 n) }
{
    put_two_groups((n / 1_000_000_000_000) as u32, separator, out, at);
    put_four_groups(n % 1_000_000_000_000, separator, out, at + 8);
}

/// Writes a number from a position on, and answers where it ends.
#[inline(always)]
fn put_first_three(n: u32, separator: u8, out: &mut [u8], at: usize) -> usize
    requires below { n < 1000 }
    requires room { at + length (thousands separator n) ≤ length out.old }
    ensures end { result ≡ at + length (thousands separator n) }
    ensures written { out.new ≡ splice out.old at result (thousands separator n) }
{
    if n < 100 {
        return put_first_two(n, out, at);
    }
    put_three(n, out, at);
    at + 3
}

/// Writes a number from a position on, and answers where it ends.
#[inline(always)]
fn put_first_six(n: u32, separator: u8, out: &mut [u8], at: usize) -> usize
    requires below { n < 1000000 }
    requires room { at + length (thousands separator n) ≤ length out.old }
    ensures end { result ≡ at + length (thousands separator n) }
    ensures written { out.new ≡ splice out.old at result (thousands separator n) }
{
    if n < 1_000 {
        return put_first_three(n, separator, out, at);
    }
    let next = put_first_three(n / 1_000, separator, out, at);
    put_group(n % 1_000, separator, out, next);
    next + 4
}

/// Writes a number from a position on, and answers where it ends.
#[inline(always)]
fn put_first_twelve(n: u64, separator: u8, out: &mut [u8], at: usize) -> usize
    requires below { n < 10 ^ 12 }
    requires room { at + length (thousands separator n) ≤ length out.old }
    ensures end { result ≡ at + length (thousands separator n) }
    ensures written { out.new ≡ splice out.old at result (thousands separator n) }
{
    if n < 1_000_000 {
        return put_first_six(n as u32, separator, out, at);
    }
    let next = put_first_six((n / 1_000_000) as u32, separator, out, at);
    put_two_groups((n % 1_000_000) as u32, separator, out, next);
    next + 8
}

/// Writes a number from a position on, and answers where it ends.
#[inline(always)]
fn put_narrow(n: u64, separator: u8, out: &mut [u8], at: usize) -> usize
    requires room { at + length (thousands separator n) ≤ length out.old }
    ensures end { result ≡ at + length (thousands separator n) }
    ensures written { out.new ≡ splice out.old at result (thousands separator n) }
{
    if n < 1_000_000_000_000 {
        return put_first_twelve(n, separator, out, at);
    }
    let next = put_first_twelve(n / 1_000_000_000_000, separator, out, at);
    put_four_groups(n % 1_000_000_000_000, separator, out, next);
    next + 16
}

/// A number without its last eighteen digits, and these.
#[inline(always)]
fn split_eighteen(n: u128) -> (u128, u64)
    ensures high { result.0 ≡ n / 10 ^ 18 }
    ensures low { result.1 ≡ n % 10 ^ 18 }
{
    let high = n / TEN_TO_18;
    (high, (n - high * TEN_TO_18) as u64)
}

/// Writes a number from a position on, and answers where it ends.
#[inline(always)]
fn put_high(n: u128, separator: u8, out: &mut [u8], at: usize) -> usize
    requires below { n < 10 ^ 21 }
    requires room { at + length (thousands separator n) ≤ length out.old }
    ensures end { result ≡ at + length (thousands separator n) }
    ensures written { out.new ≡ splice out.old at result (thousands separator n) }
{
    if n <= u64::MAX as u128 {
        return put_narrow(n as u64, separator, out, at);
    }
    let (high, low) = split_eighteen(n);
    let next = put_first_three(high as u32, separator, out, at);
    put_six_groups(low, separator, out, next);
    next + 24
}

/// Writes a number from a position on, and answers where it ends.
#[inline(never)]
fn put_wide(n: u128, separator: u8, out: &mut [u8], at: usize) -> usize
    requires above { 2 ^ 64 ≤ n }
    requires room { at + length (thousands separator n) ≤ length out.old }
    ensures end { result ≡ at + length (thousands separator n) }
    ensures written { out.new ≡ splice out.old at result (thousands separator n) }
{
    let (high, low) = split_eighteen(n);
    let next = put_high(high, separator, out, at);
    put_six_groups(low, separator, out, next);
    next + 24
}

/// Writes a number in groups of three digits from a position on, and answers where it ends.
#[inline(always)]
pub(crate) fn put_thousands(n: u128, separator: u8, out: &mut [u8], at: usize) -> usize
    requires room { at + length (thousands separator n) ≤ length out.old }
    ensures end { result ≡ at + length (thousands separator n) }
    ensures written { out.new ≡ splice out.old at result (thousands separator n) }
{
    if n <= u64::MAX as u128 {
        return put_narrow(n as u64, separator, out, at);
    }
    put_wide(n, separator, out, at)
}

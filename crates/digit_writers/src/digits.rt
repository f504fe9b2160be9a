//! The decimal digits of a number, from the first one on, two at a step.

ghost use Rattle.std.specs.Prelude.{◌≡◌, ◌+◌, ◌*◌, ◌^◌, ◌<◌, ◌≤◌, length, decimal};
ghost use Rattle.std.specs.List.{splice};
ghost use Rattle.digit_writers.specs.Digits.{last_decimals};

use decimal_writers::PAIRS;

/// Writes two digits from a position on.
#[inline(always)]
pub(crate) fn put_two(n: u32, out: &mut [u8], at: usize)
    requires below { n < 100 }
    requires room { at + 2 ≤ length out.old }
    ensures { out.new ≡ splice out.old at (at + 2) (last_decimals 2 n) }
{
    let from = n as usize * 2;
    let (tens, ones) = (PAIRS[from], PAIRS[from + 1]);
    out[at] = tens;
    out[at + 1] = ones;
}

/// Writes four digits from a position on.
#[inline(always)]
fn put_four(n: u32, out: &mut [u8], at: usize)
    requires below { n < 10000 }
    requires room { at + 4 ≤ length out.old }
    ensures { out.new ≡ splice out.old at (at + 4) (last_decimals 4 n) }
{
    put_two(n / 100, out, at);
    put_two(n % 100, out, at + 2);
}

/// Writes eight digits from a position on.
#[inline(always)]
pub(crate) fn put_eight(n: u32, out: &mut [u8], at: usize)
    requires below { n < 100000000 }
    requires room { at + 8 ≤ length out.old }
    ensures { out.new ≡ splice out.old at (at + 8) (last_decimals 8 n) }
{
    put_four(n / 10_000, out, at);
    put_four(n % 10_000, out, at + 4);
}

/// Writes sixteen digits from a position on.
#[inline(always)]
pub(crate) fn put_sixteen(n: u64, out: &mut [u8], at: usize)
    requires below { n < 10 ^ 16 }
    requires room { at + 16 ≤ length out.old }
    ensures { out.new ≡ splice out.old at (at + 16) (last_decimals 16 n) }
{
    put_eight((n / 100_000_000) as u32, out, at);
    put_eight((n % 100_000_000) as u32, out, at + 8);
}

/// Writes a number from a position on, and answers where it ends.
#[inline(always)]
pub(crate) fn put_first_two(n: u32, out: &mut [u8], at: usize) -> usize
    requires below { n < 100 }
    requires room { at + length (decimal n) ≤ length out.old }
    ensures end { result ≡ at + length (decimal n) }
    ensures written { out.new ≡ splice out.old at result (decimal n) }
{
    if n < 10 {
        out[at] = b'0' + n as u8;
        return at + 1;
    }
    put_two(n, out, at);
    at + 2
}

/// Writes a number from a position on, and answers where it ends.
#[inline(always)]
fn put_first_four(n: u32, out: &mut [u8], at: usize) -> usize
    requires below { n < 10000 }
    requires room { at + length (decimal n) ≤ length out.old }
    ensures end { result ≡ at + length (decimal n) }
    ensures written { out.new ≡ splice out.old at result (decimal n) }
{
    if n < 100 {
        return put_first_two(n, out, at);
    }
    let next = put_first_two(n / 100, out, at);
    put_two(n % 100, out, next);
    next + 2
}

/// Writes a number from a position on, and answers where it ends.
#[inline(always)]
fn put_first_eight(n: u32, out: &mut [u8], at: usize) -> usize
    requires below { n < 100000000 }
    requires room { at + length (decimal n) ≤ length out.old }
    ensures end { result ≡ at + length (decimal n) }
    ensures written { out.new ≡ splice out.old at result (decimal n) }
{
    if n < 10_000 {
        return put_first_four(n, out, at);
    }
    let next = put_first_four(n / 10_000, out, at);
    put_four(n % 10_000, out, next);
    next + 4
}

/// Writes a number from a position on, and answers where it ends.
#[inline(always)]
fn put_first_twelve(n: u64, out: &mut [u8], at: usize) -> usize
    requires below { n < 10 ^ 12 }
    requires room { at + length (decimal n) ≤ length out.old }
    ensures end { result ≡ at + length (decimal n) }
    ensures written { out.new ≡ splice out.old at result (decimal n) }
{
    if n < 100_000_000 {
        return put_first_eight(n as u32, out, at);
    }
    let next = put_first_four((n / 100_000_000) as u32, out, at);
    put_eight((n % 100_000_000) as u32, out, next);
    next + 8
}

/// Writes a number from a position on, and answers where it ends.
#[inline(always)]
pub(crate) fn put_u64(n: u64, out: &mut [u8], at: usize) -> usize
    requires room { at + length (decimal n) ≤ length out.old }
    ensures end { result ≡ at + length (decimal n) }
    ensures written { out.new ≡ splice out.old at result (decimal n) }
{
    if n < 100_000_000 {
        return put_first_eight(n as u32, out, at);
    }
    let next = put_first_twelve(n / 100_000_000, out, at);
    put_eight((n % 100_000_000) as u32, out, next);
    next + 8
}

//! Writes the digits of a number in a layout, its last digit first.

ghost use Rattle.std.specs.Prelude.{◌≡◌, ◌+◌, ◌/◌, ◌^◌, ◌<◌, ◌≤◌, length};
ghost use Rattle.std.specs.List.{splice};
ghost use Rattle.std.specs.Fmt.{digit_glyph};
ghost use Rattle.digit_writers.specs.Digits.{last_digits};
ghost use Rattle.digit_writers.specs.Layouts.{digit_count, gaps, grouped};

use super::layout::Layout;

/// The digit of a value below 36.
#[inline(always)]
fn glyph_of(value: u8, is_upper: bool) -> u8
    requires { value < 36 }
    ensures { result ≡ digit_glyph is_upper value }
{
    if value < 10 {
        b'0' + value
    } else if is_upper {
        b'A' - 10 + value
    } else {
        b'a' - 10 + value
    }
}

/// How many digits a number of 64 bits has, and `counted` more.
#[inline(always)]
fn count_narrow(n: u64, radix: u64, counted: usize) -> usize
    requires low { 2 ≤ radix }
    requires few { counted + digit_count radix n ≤ 128 }
    ensures { result ≡ counted + digit_count radix n }
{
    let mut left = n;
    let mut count = counted + 1;
    while left >= radix {
        left /= radix;
        count += 1;
    }
    count
}

/// How many digits a number has.
#[inline(always)]
pub(crate) fn count_digits(n: u128, radix: u8) -> usize
    requires low { 2 ≤ radix }
    ensures is { result ≡ digit_count radix n }
    ensures few { result ≤ 128 }
{
    let mut left = n;
    let mut count = 0;
    while left > u64::MAX as u128 {
        left /= u128::from(radix);
        count += 1;
    }
    count_narrow(left as u64, u64::from(radix), count)
}

/// Writes the last `count` digits of a number of 64 bits from `at` on, and answers the number
/// without them.
#[inline(always)]
fn put_last_narrow(n: u64, count: usize, layout: Layout, out: &mut [u8], at: usize) -> u64
    requires room { at + count ≤ length out.old }
    ensures written { let digits = last_digits layout.radix layout.is_upper count n in
        out.new ≡ splice out.old at (at + count) digits }
    ensures left { result ≡ n / layout.radix ^ count }
{
    let radix = u64::from(layout.radix);
    let mut left = n;
    for done in 0..count {
        out[at + (count - 1 - done)] = glyph_of((left % radix) as u8, layout.is_upper);
        left /= radix;
    }
    left
}

/// Writes the last `count` digits of a number from `at` on, and answers the number without them.
#[inline(never)]
fn put_last_wide(n: u128, count: usize, layout: Layout, out: &mut [u8], at: usize) -> u128
    requires room { at + count ≤ length out.old }
    ensures written { let digits = last_digits layout.radix layout.is_upper count n in
        out.new ≡ splice out.old at (at + count) digits }
    ensures left { result ≡ n / layout.radix ^ count }
{
    let radix = u128::from(layout.radix);
    let mut left = n;
    for done in 0..count {
        out[at + (count - 1 - done)] = glyph_of((left % radix) as u8, layout.is_upper);
        left /= radix;
    }
    left
}

/// Writes the last `count` digits of a number from `at` on, and answers the number without them.
#[inline(always)]
pub(crate) fn put_last(n: u128, count: usize, layout: Layout, out: &mut [u8], at: usize) -> u128
    requires room { at + count ≤ length out.old }
    ensures written { let digits = last_digits layout.radix layout.is_upper count n in
        out.new ≡ splice out.old at (at + count) digits }
    ensures left { result ≡ n / layout.radix ^ count }
{
    if n <= u64::MAX as u128 {
        return u128::from(put_last_narrow(n as u64, count, layout, out, at));
    }
    put_last_wide(n, count, layout, out, at)
}

/// How many separators `count` digits have, one after each `every` digits.
#[inline(always)]
pub(crate) fn count_gaps(every: u8, count: usize) -> usize
    ensures is { result ≡ gaps every count }
    ensures few { result ≤ count }
{
    if every == 0 || count == 0 {
        return 0;
    }
    (count - 1) / every as usize
}

/// How many digits a whole group has; all of them where there are no groups.
#[inline(always)]
fn group_size(every: u8, count: usize) -> usize
    requires { 0 < count }
    ensures grouped { 0 < every → result ≡ every }
    ensures ungrouped { every ≡ 0 → result ≡ count }
    ensures some { 0 < result }
{
    if every == 0 { count } else { every as usize }
}

/// Writes the last `count` digits of a number in groups, from `start` to `end`.
#[inline(always)]
pub(crate) fn put_groups(
    n: u128,
    count: usize,
    layout: Layout,
    out: &mut [u8],
    start: usize,
    end: usize,
)
    requires some { 0 < count }
    requires room { start + count + gaps layout.every count ≡ end }
    requires within { end ≤ length out.old }
    ensures { let digits = last_digits layout.radix layout.is_upper count n in
        out.new ≡ splice out.old start end (grouped layout.separator layout.every digits) }
{
    let size = group_size(layout.every, count);
    let mut left = n;
    let mut at = end;
    let mut more = count;
    while more > size {
        at -= size;
        left = put_last(left, size, layout, out, at);
        at -= 1;
        out[at] = layout.separator;
        more -= size;
    }
    let _left = put_last(left, more, layout, out, start);
}

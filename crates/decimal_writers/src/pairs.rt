//! Up to eight decimal digits, written before the end of a text, two at a step.

ghost use Rattle.std.specs.Prelude.{◌≡◌, ◌+◌, ◌-◌, ◌/◌, ◌^◌, ◌<◌, ◌≤◌, ◌++◌, length, drop};
ghost use Rattle.decimal_writers.specs.Text.{number_text, last_digits};

/// The two digits of each number below 100: those of `n` at `2 * n` and after it.
pub static PAIRS: [u8; 200] = *b"00010203040506070809\
    10111213141516171819\
    20212223242526272829\
    30313233343536373839\
    40414243444546474849\
    50515253545556575859\
    60616263646566676869\
    70717273747576777879\
    80818283848586878889\
    90919293949596979899";

/// Writes two digits.
#[inline(always)]
#[tactic(auto, using(crate::proofs::TwoDigits::two_put))]
pub fn put_two(n: u32, out: &mut [u8], end: usize)
    requires below { n < 100 }
    requires room { 2 ≤ end }
    requires within { end ≤ length out.old }
    ensures { drop (end - 2) out.new ≡ last_digits 2 n ++ drop end out.old }
{
    let from = n as usize * 2;
    let (tens, ones) = (PAIRS[from], PAIRS[from + 1]);
    out[end - 1] = ones;
    out[end - 2] = tens;
}

/// The first two of four digits, by a product that is cheaper than a division.
#[inline(always)]
fn first_two(n: u32) -> u32
    requires { n < 10 ^ 4 }
    ensures { result ≡ n / 10 ^ 2 }
{
    (n * 5243) >> 19
}

/// The first four of eight digits.
#[inline(always)]
fn first_four(n: u32) -> u32
    requires { n < 10 ^ 8 }
    ensures { result ≡ n / 10 ^ 4 }
{
    ((n as u64 * 109_951_163) >> 40) as u32
}

/// Writes four digits.
#[inline(always)]
fn put_four(n: u32, out: &mut [u8], end: usize)
    requires below { n < 10 ^ 4 }
    requires room { 4 ≤ end }
    requires within { end ≤ length out.old }
    ensures { drop (end - 4) out.new ≡ last_digits 4 n ++ drop end out.old }
{
    let high = first_two(n);
    put_two(n - high * 100, out, end);
    put_two(high, out, end - 2);
}

/// Writes eight digits.
#[inline(always)]
pub fn put_eight(n: u32, out: &mut [u8], end: usize)
    requires below { n < 10 ^ 8 }
    requires room { 8 ≤ end }
    requires within { end ≤ length out.old }
    ensures { drop (end - 8) out.new ≡ last_digits 8 n ++ drop end out.old }
{
    let high = first_four(n);
    put_four(n - high * 10_000, out, end);
    put_four(high, out, end - 4);
}

/// Writes a number of at most two digits, and answers where it begins.
#[inline(always)]
#[tactic(auto, using(crate::proofs::TwoDigits::firsts))]
fn put_first_two(n: u32, out: &mut [u8], end: usize) -> usize
    requires below { n < 100 }
    requires room { length (number_text n) ≤ end }
    requires within { end ≤ length out.old }
    ensures start { result + length (number_text n) ≡ end }
    ensures written { drop result out.new ≡ number_text n ++ drop end out.old }
{
    if n < 10 {
        out[end - 1] = b'0' + n as u8;
        return end - 1;
    }
    put_two(n, out, end);
    end - 2
}

/// Writes the last two digits of a number, if it has more, and answers what is left, and where.
#[inline(always)]
fn put_last_two(n: u32, out: &mut [u8], end: usize) -> (u32, usize)
    requires below { n < 10 ^ 4 }
    requires room { length (number_text n) ≤ end }
    requires within { end ≤ length out.old }
    ensures below { result.0 < 100 }
    ensures start { result.1 + length (number_text n) ≡ end + length (number_text result.0) }
    ensures written { number_text result.0 ++ drop result.1 out.new
        ≡ number_text n ++ drop end out.old }
{
    if n < 100 {
        return (n, end);
    }
    let high = first_two(n);
    put_two(n - high * 100, out, end);
    (high, end - 2)
}

/// Writes the last four digits of a number, if it has more, and answers what is left, and where.
#[inline(always)]
fn put_last_four(n: u32, out: &mut [u8], end: usize) -> (u32, usize)
    requires below { n < 10 ^ 8 }
    requires room { length (number_text n) ≤ end }
    requires within { end ≤ length out.old }
    ensures below { result.0 < 10 ^ 4 }
    ensures start { result.1 + length (number_text n) ≡ end + length (number_text result.0) }
    ensures written { number_text result.0 ++ drop result.1 out.new
        ≡ number_text n ++ drop end out.old }
{
    if n < 10_000 {
        return (n, end);
    }
    let high = first_four(n);
    put_four(n - high * 10_000, out, end);
    (high, end - 4)
}

/// Writes a number of at most eight digits, and answers where it begins.
#[inline(always)]
pub fn put_first_eight(n: u32, out: &mut [u8], end: usize) -> usize
    requires below { n < 10 ^ 8 }
    requires room { length (number_text n) ≤ end }
    requires within { end ≤ length out.old }
    ensures start { result + length (number_text n) ≡ end }
    ensures written { drop result out.new ≡ number_text n ++ drop end out.old }
{
    let (few, middle) = put_last_four(n, out, end);
    let (fewer, start) = put_last_two(few, out, middle);
    put_first_two(fewer, out, start)
}

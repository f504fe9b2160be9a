//! The text of an integer.

ghost use Rattle.std.specs.Prelude.{◌≡◌, ◌+◌, ◌-◌, ◌/◌, ◌≤◌, ◌++◌, length, take, drop, decimal};
ghost use Rattle.std.specs.Fmt.{sign_text};
ghost use Rattle.decimal_writers.specs.Text.{number_text, last_digits};

/// How many decimal digits a number has.
#[tactic(auto, using(crate::proofs::Integers::counts))]
fn count_digits(n: u128) -> usize
    ensures is { result ≡ length (number_text n) }
    ensures few { result ≤ 39 }
    ensures some { 1 ≤ result }
{
    let mut left = n;
    let mut count = 1;
    while left >= 10 {
        left /= 10;
        count += 1;
    }
    count
}

/// Writes the last `count` digits of a number before `end`.
#[tactic(auto, using(decimal_writers::proofs::Numerals::puts))]
fn put_digits(n: u128, count: usize, out: &mut [u8], end: usize)
    requires room { count ≤ end }
    requires within { end ≤ length out.old }
    ensures { drop (end - count) out.new ≡ last_digits count n ++ drop end out.old }
{
    let mut left = n;
    let mut at = end;
    while at > end - count {
        at -= 1;
        out[at] = b'0' + (left % 10) as u8;
        left /= 10;
    }
}

/// Writes a sign and the digits of an integer at the front of a slice, and answers their length.
pub fn put_integer(negative: bool, magnitude: u128, text: &mut [u8]) -> usize
    requires room { 40 ≤ length text.old }
    ensures written { take result text.new ≡ sign_text negative ++ decimal magnitude }
    ensures within { result ≤ 40 }
    ensures same { length text.new ≡ length text.old }
{
    let count = count_digits(magnitude);
    if negative {
        put_digits(magnitude, count, text, count + 1);
        text[0] = b'-';
        return count + 1;
    }
    put_digits(magnitude, count, text, count);
    count
}

//! Whole numbers that no type has, as a slice of decimal digits. Position 0 has the last digit, the
//! one with the value 1, so that a number grows at the end of its slice.

ghost use Rattle.std.specs.Prelude.{◌≡◌, ℕ, true, false, ◌+◌, ◌-◌, ◌*◌, ◌/◌, ◌%◌, ◌^◌, ◌<◌, ◌≤◌, ◌++◌, length, take, drop, slice_index};
ghost use Rattle.decimal_writers.specs.Big.{value_of, IsBig};
ghost use Rattle.decimal_writers.specs.Text.{last_digits};
ghost use lib.Ieee.Nearest.{closest};
ghost use mir.Val.{bool_byte};

/// Multiplies a number by a factor in place, and answers the carry: what its digits have no room
/// for.
#[tactic(auto, using(crate::proofs::Bigs::turns))]
pub fn times(digits: &mut [u8], factor: u64) -> u64
    requires digits { (k : ℕ) → slice_index digits.old k < 10 }
    requires factor { (0 < factor) × (factor ≤ 2 ^ 59) }
    ensures value { value_of digits.new + result * 10 ^ length digits.old
        ≡ factor * value_of digits.old }
    ensures digits { (k : ℕ) → slice_index digits.new k < 10 }
    ensures few { result < factor }
{
    let mut carry = 0;
    for i in 0..digits.len() {
        let all = digits[i] as u64 * factor + carry;
        digits[i] = (all % 10) as u8;
        carry = all / 10;
    }
    carry
}

/// Writes the digits of a carry from `start` on, and answers the position after them: how many
/// digits the number has then.
#[tactic(auto, using(crate::proofs::Bigs::carries))]
pub fn put_carry(digits: &mut [u8], start: usize, carry: u64) -> usize
    requires digits { (k : ℕ) → slice_index digits.old k < 10 }
    requires small { carry < 10 ^ 18 }
    requires room { start + 18 ≤ length digits.old }
    ensures value { value_of (take result digits.new)
        ≡ value_of (take start digits.old) + carry * 10 ^ start }
    ensures digits { (k : ℕ) → slice_index digits.new k < 10 }
    ensures few { (start ≤ result) × (result ≤ start + 18) }
    ensures none { carry ≡ 0 → result ≡ start }
    ensures least { 0 < carry → 10 ^ (result - 1) ≤ value_of (take result digits.new) }
{
    let mut left = carry;
    let mut at = start;
    while left > 0 {
        digits[at] = (left % 10) as u8;
        left /= 10;
        at += 1;
    }
    at
}

/// Multiplies a number of `len` digits by a factor, and answers how many digits the product has.
#[tactic(auto, using(crate::proofs::Bigs::products))]
pub fn multiply(digits: &mut [u8], len: usize, factor: u64) -> usize
    requires big { IsBig digits.old len (value_of (take len digits.old)) }
    requires factor { (0 < factor) × (factor ≤ 2 ^ 59) }
    requires room { len + 18 ≤ length digits.old }
    ensures big { IsBig digits.new result (value_of (take len digits.old) * factor) }
    ensures few { result ≤ len + 18 }
{
    let carry = times(&mut digits[..len], factor);
    put_carry(digits, len, carry)
}

/// Multiplies a number of `len` digits by `base` to the power `exponent`, and answers how many
/// digits the product has.
#[tactic(auto, using(crate::proofs::Bigs::scales))]
pub fn scale(digits: &mut [u8], len: usize, base: u64, exponent: usize) -> usize
    requires big { IsBig digits.old len (value_of (take len digits.old)) }
    requires base { (0 < base) × (base ≤ 5) }
    requires few { exponent < 2 ^ 32 }
    requires room { len + 18 * ((exponent + 24) / 25) ≤ length digits.old }
    ensures big { IsBig digits.new result (value_of (take len digits.old) * base ^ exponent) }
    ensures few { result ≤ len + 18 * ((exponent + 24) / 25) }
{
    let mut after = len;
    let mut left = exponent;
    while left > 0 {
        let step = left.min(25);
        after = multiply(digits, after, base.pow(step as u32));
        left -= step;
    }
    after
}

/// The digit at a position of a number of `len` digits: 0 from `len` on.
#[tactic(auto, using(crate::proofs::Bigs::positions))]
pub fn digit_at(digits: &[u8], len: usize, at: usize) -> u8
    requires big { IsBig digits.now len (value_of (take len digits.now)) }
    ensures is { result ≡ value_of (take len digits.now) / 10 ^ at % 10 }
    ensures few { result < 10 }
{
    if at < len { digits[at] } else { 0 }
}

/// Writes `count` digits of a number as text, those from position `from` on, right before `end`.
#[tactic(auto, using(crate::proofs::Bigs::put_at))]
pub fn put_big(digits: &[u8], len: usize, from: usize, count: usize, out: &mut [u8], end: usize)
    requires big { IsBig digits.now len (value_of (take len digits.now)) }
    requires few { from + count < 2 ^ 64 }
    requires room { count ≤ end }
    requires within { end ≤ length out.old }
    ensures { drop (end - count) out.new
        ≡ last_digits count (value_of (take len digits.now) / 10 ^ from) ++ drop end out.old }
{
    for i in 0..count {
        out[end - 1 - i] = b'0' + digit_at(digits, len, from + i);
    }
}

/// Whether all digits are 0.
#[tactic(auto, using(crate::proofs::Rounding::tests))]
pub fn are_zeros(digits: &[u8]) -> bool
    ensures yes { result ≡ true → value_of digits.now ≡ 0 }
    ensures no { result ≡ false → 0 < value_of digits.now }
{
    for i in 0..digits.len() {
        if digits[i] != 0 {
            return false;
        }
    }
    true
}

/// Whether a number is rounded up where its last `dropped` digits are left out. At a tie it is
/// rounded to the even digit.
#[tactic(auto, using(crate::proofs::Rounding::rounds))]
pub fn rounds_up(digits: &[u8], len: usize, dropped: usize) -> bool
    requires big { IsBig digits.now len (value_of (take len digits.now)) }
    ensures is { closest (value_of (take len digits.now)) (10 ^ dropped)
        ≡ value_of (take len digits.now) / 10 ^ dropped + bool_byte result }
    ensures within { result ≡ true → dropped ≤ len }
{
    if dropped == 0 || dropped > len {
        return false;
    }
    let first = digits[dropped - 1];
    if first < 5 {
        return false;
    }
    if first > 5 {
        return true;
    }
    if !are_zeros(&digits[..dropped - 1]) {
        return true;
    }
    digit_at(digits, len, dropped) % 2 == 1
}

/// Adds ten to the power `place` to a number of `len` digits, and answers how many digits the sum
/// has.
#[tactic(auto, using(crate::proofs::Rounding::adds))]
pub fn add_one(digits: &mut [u8], len: usize, place: usize) -> usize
    requires big { IsBig digits.old len (value_of (take len digits.old)) }
    requires within { place ≤ len }
    requires room { len < length digits.old }
    ensures big { IsBig digits.new result (value_of (take len digits.old) + 10 ^ place) }
    ensures few { result ≤ len + 1 }
    ensures least { len ≤ result }
{
    let mut at = place;
    while at < len && digits[at] == 9 {
        digits[at] = 0;
        at += 1;
    }
    if at < len {
        digits[at] += 1;
        return len;
    }
    digits[len] = 1;
    len + 1
}

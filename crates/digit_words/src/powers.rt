//! The powers of ten that fit 64 bits, and those that fit 128.

ghost use Rattle.std.specs.Prelude.{◌≡◌, ◌^◌, ◌<◌, ◌≤◌, IfSome};

/// 10 to the power of at most 19. The compiler makes a table of it for each caller, by what the
/// caller counts, such as `19 - count`.
#[inline(always)]
pub fn small_ten_to(n: usize) -> u64
    requires { n ≤ 19 }
    ensures is { result ≡ 10 ^ n }
    ensures some { 0 < result }
    ensures eight { n ≤ 8 → result ≤ 10 ^ 8 }
{
    match n {
        0 => 1,
        1 => 10,
        2 => 100,
        3 => 1000,
        4 => 10000,
        5 => 100_000,
        6 => 1_000_000,
        7 => 10_000_000,
        8 => 100_000_000,
        9 => 1_000_000_000,
        10 => 10_000_000_000,
        11 => 100_000_000_000,
        12 => 1_000_000_000_000,
        13 => 10_000_000_000_000,
        14 => 100_000_000_000_000,
        15 => 1_000_000_000_000_000,
        16 => 10_000_000_000_000_000,
        17 => 100_000_000_000_000_000,
        18 => 1_000_000_000_000_000_000,
        19 => 10_000_000_000_000_000_000,
        _ => unreachable!(),
    }
}

/// 10 to the power of `n`, if that fits 64 bits.
#[inline(always)]
pub fn ten_to(n: usize) -> Option<u64>
    ensures { IfSome result (λ power. power ≡ 10 ^ n) }
{
    if n <= 19 { Some(small_ten_to(n)) } else { None }
}

/// 10 to a power that 128 bits hold.
#[inline]
pub fn wide_ten_to(n: usize) -> u128
    requires { n ≤ 38 }
    ensures is { result ≡ 10 ^ n }
    ensures some { 0 < result }
{
    10u128.pow(n as u32)
}

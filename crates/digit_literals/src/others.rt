//! Which bytes of a text are no decimal digits, 64 at once. It is public only for `digit_totals`.

ghost use Rattle.std.specs.Prelude.{ℕ, List, ◌+◌, ◌≤◌, length};
ghost use Rattle.digit_literals.specs.Ends.{AreOthers, EachIsMarked};

use std::simd::prelude::*;

/// How many bytes are compared at once.
pub const BLOCK: usize = 64;

/// How many bytes a number that begins in a block may need from its first digit on: three words.
pub const WORDS: usize = 24;

/// Which of the 64 bytes from a position on are no decimal digits.
#[inline(always)]
pub fn others_at(text: &[u8], at: usize) -> u64
    requires { at + 88 ≤ length text.now }
    ensures others { AreOthers text.now at result }
    ensures each { EachIsMarked text.now at 64 result }
{
    let digits = u8x64::from_slice(&text[at..]) - u8x64::splat(b'0');
    digits.simd_ge(u8x64::splat(10)).to_bitmask()
}

/// The bits of the bytes after the first `count`. What was known of them is still known.
#[inline(always)]
pub fn pass(others: u64, count: usize) -> u64
    ensures others { (text : List ℕ) (at : ℕ) → AreOthers text at others
        → AreOthers text (at + count) result }
    ensures each { (text : List ℕ) (at left : ℕ) → count + left ≤ 64
        → EachIsMarked text at (count + left) others
        → EachIsMarked text (at + count) left result }
{
    if count < BLOCK { others >> count } else { 0 }
}

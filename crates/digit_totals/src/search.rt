//! The first of a byte: of the end of a line, or of a column.

ghost use Rattle.std.specs.Prelude.{◌≡◌, ◌+◌, ◌==◌, ◌≤◌, length, take, drop, position};
ghost use Rattle.std.specs.List.{position_or_len};

use std::simd::prelude::*;

/// How many bytes are compared at once.
const BLOCK: usize = 16;

/// How many of the 16 bytes from a position on are before the first of a byte: 16 if none is it.
#[inline(always)]
fn before_mark(bytes: &[u8], at: usize, mark: u8) -> usize
    requires { at + 16 ≤ length bytes.now }
    ensures { result ≡ position_or_len (λ byte. byte == mark) (take 16 (drop at bytes.now)) }
{
    let block = u8x16::from_slice(&bytes[at..]);
    let marks = block.simd_eq(u8x16::splat(mark)).to_bitmask();
    if marks == 0 {
        BLOCK
    } else {
        marks.trailing_zeros() as usize
    }
}

/// [`find`], byte by byte.
#[inline(always)]
fn find_in_few(bytes: &[u8], mark: u8) -> Option<usize>
    ensures { result ≡ position (λ byte. byte == mark) bytes.now }
{
    bytes.iter().position(|byte| *byte == mark)
}

/// The position of the first of a byte.
#[inline]
#[tactic(auto, using(crate::proofs::Blocks::steps))]
pub fn find(bytes: &[u8], mark: u8) -> Option<usize>
    ensures { result ≡ position (λ byte. byte == mark) bytes.now }
{
    let mut at = 0;
    while bytes.len() - at >= BLOCK {
        let before = before_mark(bytes, at, mark);
        if before < BLOCK {
            return Some(at + before);
        }
        at += BLOCK;
    }
    match find_in_few(&bytes[at..], mark) {
        Some(count) => Some(at + count),
        None => None,
    }
}

//! Chains of std's iterators over the bytes that a component keeps. Each contract names the drain,
//! which is a filter over the whole buffer. Every call asks that the word is supported. One by
//! `count` is in `drained.rt`.

ghost use Rattle.std.specs.Prelude.{◌≡◌, IsTrue, IfOk, None, slice_get, fold, ◌+◌, ◌%◌};
ghost use Rattle.std.specs.List.{last_or};
ghost use Rattle.lexical_format.specs.Word.{is_supported};
ghost use Rattle.lexical_digits.specs.Separators.{drain};
ghost use Rattle.lexical_digits.specs.State.{rule_of};
ghost use Rattle.lexical_digits.specs.declared.skip.component.Component.TheVariants.{Integer, Fraction, Exponent, Special};

use lexical_digits::skip::Bytes;
use std::alloc::{AllocError, Global};

/// The bytes that the fraction of a text keeps, by `collect`. Refuses if memory is refused.
pub fn kept_bytes(alloc: Global, text: &[u8], word: u128) -> Result<Vec<u8>, AllocError>
    requires { IsTrue (is_supported word) }
    ensures { IfOk result (λ v. v.items ≡ drain (rule_of word Fraction) text.now 0 0) }
{
    let mut bytes = Bytes::new(text, word);
    bytes.fraction_iter().copied().collect(alloc)
}

/// The bytes that the exponent of a text keeps, by a `for`. Refuses if memory is refused.
pub fn kept_by_for(alloc: Global, text: &[u8], word: u128) -> Result<Vec<u8>, AllocError>
    requires { IsTrue (is_supported word) }
    ensures { IfOk result (λ v. v.items ≡ drain (rule_of word Exponent) text.now 0 0) }
{
    let mut bytes = Bytes::new(text, word);
    let mut kept = Vec::new(alloc);
    for byte in bytes.exponent_iter() {
        kept.push(*byte)?;
    }
    Ok(kept)
}

/// The byte with that index, from 0, among those that the special iterator keeps, by `nth`.
pub fn kept_at(text: &[u8], word: u128, index: usize) -> Option<u8>
    requires { IsTrue (is_supported word) }
    ensures { result ≡ slice_get (drain (rule_of word Special) text.now 0 0) index }
{
    let mut bytes = Bytes::new(text, word);
    bytes.special_iter().nth(index).copied()
}

/// The last byte that the integer of a text keeps, by `last`.
pub fn last_kept(text: &[u8], word: u128) -> Option<u8>
    requires { IsTrue (is_supported word) }
    ensures { result ≡ last_or None (drain (rule_of word Integer) text.now 0 0) }
{
    let mut bytes = Bytes::new(text, word);
    bytes.integer_iter().last().copied()
}

/// The sum, modulo 256, of the bytes that the integer of a text keeps, by `fold`.
pub fn checksum(text: &[u8], word: u128) -> u8
    requires { IsTrue (is_supported word) }
    ensures { let kept = drain (rule_of word Integer) text.now 0 0 in
        result ≡ fold (λ sum byte. (sum + byte) % 256) 0 kept }
{
    let mut bytes = Bytes::new(text, word);
    bytes
        .integer_iter()
        .fold(0u8, |sum, byte| sum.wrapping_add(*byte))
}

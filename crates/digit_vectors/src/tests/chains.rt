//! Tests of std's chains over the digits.

use super::{INTERNAL, UNFLAGGED};
use crate::chains::{checksum, kept_at, kept_by_for, kept_bytes, last_kept};
use crate::drained::{length_without_separators, without_separators};
use lexical_format::{
    EXPONENT_INTERNAL_DIGIT_SEPARATOR, FRACTION_INTERNAL_DIGIT_SEPARATOR,
    FRACTION_LEADING_DIGIT_SEPARATOR, SPECIAL_DIGIT_SEPARATOR, is_supported,
};
use std::process::Abort;
use std::test::Fail;

/// The integer of a text keeps this number of bytes, and this one last.
fn assert_integer(rt: &impl Abort, word: u128, text: &[u8], count: usize, last: Option<u8>) {
    assert!(rt; is_supported(word));
    assert!(rt; length_without_separators(text, word) == count);
    assert!(rt; last_kept(text, word) == last);
}

#[test]
fn a_chain_over_the_integer_gives_what_is_kept(rt: HostRuntime) {
    let word = UNFLAGGED | INTERNAL;
    for (text, count, last) in [
        (b"4_5".as_slice(), 2, Some(b'5')),
        (b"4__5".as_slice(), 3, Some(b'5')),
        (b"".as_slice(), 0, None),
    ] {
        assert_integer(&rt, word, text, count, last);
    }
    assert!(rt; is_supported(word));
    assert!(rt; checksum(b"4_5", word) == 52 + 53);
}

#[test]
fn kept_bytes_are_collected(rt: HostRuntime) -> Result<(), Fail> {
    let word = UNFLAGGED | FRACTION_INTERNAL_DIGIT_SEPARATOR | FRACTION_LEADING_DIGIT_SEPARATOR;
    assert!(rt; is_supported(word));
    let kept = kept_bytes(rt.alloc(), b"_4_5_.56", word)?;
    assert!(rt; kept.as_slice() == b"45_.56".as_slice());
    let word = UNFLAGGED | EXPONENT_INTERNAL_DIGIT_SEPARATOR;
    assert!(rt; is_supported(word));
    let kept = kept_by_for(rt.alloc(), b"4_5", word)?;
    assert!(rt; kept.as_slice() == b"45".as_slice());
    Ok(())
}

#[test]
fn a_kept_byte_is_found_by_its_index(rt: HostRuntime) {
    let word = UNFLAGGED | SPECIAL_DIGIT_SEPARATOR;
    assert!(rt; is_supported(word));
    for (index, byte) in [(1, Some(b'a')), (2, Some(b'n')), (3, None)] {
        assert!(rt; kept_at(b"n_a__n", word, index) == byte);
    }
}

#[test]
fn a_text_without_its_separators(rt: HostRuntime) -> Result<(), Fail> {
    assert!(rt; is_supported(UNFLAGGED | INTERNAL));
    let bytes = without_separators(rt.alloc(), b"1_000_", UNFLAGGED | INTERNAL)?;
    assert_eq!(rt; bytes.as_slice(), b"1000_".as_slice());
    Ok(())
}

#[test]
fn the_length_of_a_text_without_its_separators(rt: HostRuntime) {
    assert!(rt; is_supported(UNFLAGGED | INTERNAL));
    assert_eq!(rt;
        length_without_separators(b"1_000_", UNFLAGGED | INTERNAL),
        5
    );
}

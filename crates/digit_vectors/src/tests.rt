//! Tests over the public calls of the crates below. Unless a test says otherwise the separator is
//! `_`, the radix 10, the component the integer, and the `Bytes` fresh.

ghost use Rattle.std.specs.Prelude.{◌≡◌};
ghost use Rattle.lexical_digits.specs.State.{start};

mod agreement;
mod chains;
mod components;
mod counts;
mod cursors;
mod decision;
mod ends;
mod format;
mod laws;
mod lists;
mod loans;
mod looks;
mod numbers;
mod plain;
mod plain_rows;
mod radixes;
mod reads;
mod requests;
mod rules;
mod scripts;
mod spaced;
mod steps;
mod table;
mod views;

use self::steps::{Part, Step, assert_goes};
use lexical_digits::iterator::{Iter, IterBodies};
use lexical_digits::skip::Bytes;
use lexical_format::{
    INTEGER_CONSECUTIVE_DIGIT_SEPARATOR, INTEGER_INTERNAL_DIGIT_SEPARATOR,
    INTEGER_LEADING_DIGIT_SEPARATOR, INTEGER_TRAILING_DIGIT_SEPARATOR, is_supported,
};
use std::process::Abort;

/// Radix 10, separator `_`, no flags.
const UNFLAGGED: u128 = (10 << 104) | (0x5f << 64);

/// The integer's flags.
const INTERNAL: u128 = INTEGER_INTERNAL_DIGIT_SEPARATOR;

const LEADING: u128 = INTEGER_LEADING_DIGIT_SEPARATOR;

const TRAILING: u128 = INTEGER_TRAILING_DIGIT_SEPARATOR;

const CONSECUTIVE: u128 = INTEGER_CONSECUTIVE_DIGIT_SEPARATOR;

/// A fresh `Bytes` over a text, by a word that is supported.
fn bytes_of<'a>(rt: &impl Abort, text: &'a [u8], word: u128) -> Bytes<'a>
    ensures { result.state ≡ start text.entry.now word }
{
    assert!(rt; is_supported(word));
    Bytes::new(text, word)
}

/// Sets the cursor to a position of the buffer.
fn move_to<'a, D: Iter<'a>>(rt: &impl Abort, iter: &mut D, index: usize) {
    assert!(rt; index <= iter.buffer_length());
    iter.set_cursor(index);
}

/// Drains the integer of a text: it keeps these bytes, and then has this count.
fn assert_kept(rt: &impl Abort, word: u128, text: &[u8], kept: &[u8], count: usize) {
    assert_goes(rt, word, text, Part::Integer, &[Step::Drains(kept, count)]);
}

//! Tests over the public calls of the crates that read numbers. Unless a test says otherwise the
//! separator is `_`, the radix 10, the component the integer, and a `Bytes` fresh.

ghost use Rattle.std.specs.Prelude.{◌≡◌};
ghost use Rattle.lexical_digits.specs.State.{start};

mod bounds;
mod calling;
mod decimals;
mod ends;
mod every_byte;
mod few_digits;
mod floats;
mod forms;
mod hex_floats;
mod integers;
mod items;
mod json;
mod json_ends;
mod language_literals;
mod languages;
mod laws;
mod lists;
mod literals;
mod money;
mod nearest;
mod own_forms;
mod parsing;
mod passing;
mod readme;
mod stops;
mod uses;
mod values;
mod written;

use lexical_digits::iterator::{Iter, IterBodies};
use lexical_digits::skip::Bytes;
use lexical_format::{
    INTEGER_CONSECUTIVE_DIGIT_SEPARATOR, INTEGER_INTERNAL_DIGIT_SEPARATOR,
    INTEGER_LEADING_DIGIT_SEPARATOR, INTEGER_TRAILING_DIGIT_SEPARATOR, is_supported,
};
use std::process::Abort;

/// Radix 10, separator `_`, no flags.
const UNFLAGGED: u128 = (10 << 104) | (0x5f << 64);

/// The integer's flags.
const INTERNAL: u128 = INTEGER_INTERNAL_DIGIT_SEPARATOR;

const LEADING: u128 = INTEGER_LEADING_DIGIT_SEPARATOR;

const TRAILING: u128 = INTEGER_TRAILING_DIGIT_SEPARATOR;

const CONSECUTIVE: u128 = INTEGER_CONSECUTIVE_DIGIT_SEPARATOR;

/// A fresh `Bytes` over a text, by a word that is supported.
fn bytes_of<'a>(rt: &impl Abort, text: &'a [u8], word: u128) -> Bytes<'a>
    ensures { result.state ≡ start text.entry.now word }
{
    assert!(rt; is_supported(word));
    Bytes::new(text, word)
}

/// Sets the cursor to a position of the buffer.
fn move_to<'a, D: Iter<'a>>(rt: &impl Abort, iter: &mut D, index: usize) {
    assert!(rt; index <= iter.buffer_length());
    iter.set_cursor(index);
}

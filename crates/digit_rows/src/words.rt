//! Numbers and lists by a word that only run time knows.

ghost use Rattle.std.specs.Prelude.{IsTrue};
ghost use Rattle.lexical_format.specs.Word.{is_supported};

use super::numbers::past_field;
use super::work::{Step, Told, Work, none, run};
use digit_literals::{COMMAS, Gap, ListEnd, WHITESPACE, parse_number, read_list, read_number_from};
use lexical_format::is_supported;

/// A word that is supported.
#[derive(Clone, Copy)]
struct Word {
    word: u128,
    ghost supported: { IsTrue (is_supported word) },
}

/// An `i64` at a position.
#[derive(Clone, Copy)]
struct Integer(Word);

impl Work for Integer {
    #[inline(always)]
    fn step(self, text: &[u8], at: usize) -> Step {
        match read_number_from::<i64>(text, self.0.word, at) {
            Ok((read, end)) => Step::read(read.cast_unsigned(), text, end),
            Err(_) => Step::none(text, at),
        }
    }
}

/// A field that is a `u64`.
#[derive(Clone, Copy)]
struct Field(Word);

impl Work for Field {
    #[inline(always)]
    fn step(self, text: &[u8], at: usize) -> Step {
        let end = past_field(text, at);
        match parse_number::<u64>(&text[at..end], self.0.word) {
            Ok(read) => Step::read(read, text, end),
            Err(_) => Step::read(1, text, end),
        }
    }
}

/// A list of `u64` in 64 places.
#[derive(Clone, Copy)]
struct List {
    word: Word,
    gap: Gap,
}

impl Work for List {
    #[inline(always)]
    fn step(self, text: &[u8], at: usize) -> Step {
        let mut out = [0; 64];
        let read = read_list::<u64>(text, at, self.word.word, self.gap, &mut out);
        match read.end {
            ListEnd::Full(at) => Step { value: out[0], at },
            ListEnd::Over(at) => Step::read(out[0], text, at),
            ListEnd::Fault(error) => Step::read(1, text, error.position()),
        }
    }
}

/// Makes a call of this file.
pub fn run_call(call: u64, text: &[u8], low: u64, high: u64) -> Told {
    let word = (u128::from(high) << 64) | u128::from(low);
    if !is_supported(word) {
        return none();
    }
    let word = Word { word };
    match call {
        80 => run(Integer(word), text),
        81 => run(Field(word), text),
        82 => run(List { word, gap: COMMAS }, text),
        83 => run(
            List {
                word,
                gap: WHITESPACE,
            },
            text,
        ),
        _ => none(),
    }
}

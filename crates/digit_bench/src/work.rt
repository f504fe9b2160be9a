//! How a piece of work runs: on one text or on each of many, and under a word that comes at run
//! time or is a constant.

use super::Outcome;
use super::format::{
    AtRunTime, Base36, Binary, BinaryI, Decimal, DecimalAll, DecimalI, DecimalIC, DecimalILTC,
    Format, Hex, HexI,
};
use lexical_format::is_supported;

/// What is done with a text. There is code of its own for each kind of word.
pub trait Work {
    /// Whether the loop over many texts is a function of its own for each kind of word, which then
    /// has all registers.
    const IS_APART: bool = false;

    /// Does it.
    fn on<F: Format>(text: &[u8], format: F) -> Outcome;
}

/// A piece of work.
#[repr(C)]
pub struct Task<'a> {
    /// The text, or many that follow one another.
    pub text: &'a [u8],
    /// The lengths of many texts.
    pub lengths: &'a [u8],
    /// The lower half of the format word.
    pub low: u64,
    /// Its upper half.
    pub high: u64,
    /// If this is not 0, the work runs by code of its own for the word, as if a caller writes a
    /// constant. There is such code for the words of the cases.
    pub is_constant: u32,
}

impl Task<'_> {
    /// The format word.
    #[inline(always)]
    fn word(&self) -> u128 {
        ((self.high as u128) << 64) | (self.low as u128)
    }
}

/// The work on each of many texts, which follow one another and have these lengths. Stops
/// where the bytes don't suffice for a length.
#[inline(always)]
fn each<W: Work, F: Format>(text: &[u8], lengths: &[u8], format: F) -> Outcome {
    let mut total = Outcome::nothing();
    let mut rest = text;
    for length in lengths {
        let Some((first, others)) = rest.split_at_checked(*length as usize) else {
            break;
        };
        total = total.with(W::on(first, format));
        rest = others;
    }
    total
}

/// [`each`] in a function of its own.
#[inline(never)]
fn each_apart<W: Work, F: Format>(text: &[u8], lengths: &[u8], format: F) -> Outcome {
    each::<W, F>(text, lengths, format)
}

/// The work on a text, or, where there are lengths, on each of many.
#[inline(always)]
fn once_or_each<W: Work, F: Format>(text: &[u8], lengths: Option<&[u8]>, format: F) -> Outcome {
    match lengths {
        None => W::on(text, format),
        Some(lengths) if W::IS_APART => each_apart::<W, F>(text, lengths, format),
        Some(lengths) => each::<W, F>(text, lengths, format),
    }
}

/// The work under the word of a task.
#[inline(always)]
fn run_all<W: Work>(task: &Task, lengths: Option<&[u8]>) -> Outcome {
    let text = task.text;
    let word = task.word();
    if task.is_constant == 0 {
        if is_supported(word) {
            once_or_each::<W, AtRunTime>(text, lengths, AtRunTime { word })
        } else {
            Outcome::nothing()
        }
    } else if word == Decimal.word() {
        once_or_each::<W, Decimal>(text, lengths, Decimal)
    } else if word == DecimalI.word() {
        once_or_each::<W, DecimalI>(text, lengths, DecimalI)
    } else if word == DecimalIC.word() {
        once_or_each::<W, DecimalIC>(text, lengths, DecimalIC)
    } else if word == DecimalILTC.word() {
        once_or_each::<W, DecimalILTC>(text, lengths, DecimalILTC)
    } else if word == DecimalAll.word() {
        once_or_each::<W, DecimalAll>(text, lengths, DecimalAll)
    } else if word == HexI.word() {
        once_or_each::<W, HexI>(text, lengths, HexI)
    } else if word == Hex.word() {
        once_or_each::<W, Hex>(text, lengths, Hex)
    } else if word == Binary.word() {
        once_or_each::<W, Binary>(text, lengths, Binary)
    } else if word == BinaryI.word() {
        once_or_each::<W, BinaryI>(text, lengths, BinaryI)
    } else if word == Base36.word() {
        once_or_each::<W, Base36>(text, lengths, Base36)
    } else {
        Outcome::nothing()
    }
}

/// The work on a text.
#[inline(always)]
pub fn run<W: Work>(task: &Task) -> Outcome {
    run_all::<W>(task, None)
}

/// The work on each of many texts.
#[inline(always)]
pub fn run_each<W: Work>(task: &Task) -> Outcome {
    run_all::<W>(task, Some(task.lengths))
}

//! The calls that `bench/rows` times, as a C library. Each reads a text of numbers from its start
//! to its end, with one byte or more between two of them.
#![tactic(auto, unfolding(lexical_format::proofs::OnLiterals::lexical_on_literals))]

mod forms;
mod lists;
mod numbers;
mod parsed;
mod words;
mod work;

use work::Told;

/// A text, the number of the call, and for a call that has them the number of a form, and the two
/// halves of a format word.
#[repr(C)]
pub struct Asked<'a> {
    pub text: &'a [u8],
    pub call: u64,
    pub form: usize,
    pub low: u64,
    pub high: u64,
}

/// Makes a call all over a text. `bench/rows/calls.txt` has the names of the calls.
#[unsafe(no_mangle)]
pub extern "C" fn digit_rows(asked: &Asked<'_>, told: &mut Told) {
    let text = asked.text;
    *told = match asked.call {
        0..20 => numbers::run_call(asked.call, text),
        20..40 => lists::run_call(asked.call, text),
        40..60 => parsed::run_call(asked.call, text),
        60..80 => forms::run_call(asked.call, text, asked.form),
        _ => words::run_call(asked.call, text, asked.low, asked.high),
    };
}

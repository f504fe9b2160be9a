//! The calls of `digits` that read a number or write one, for C. `c/digits.h` declares them, and
//! says what a caller in C has to know.
//!
//! No call requires anything of its arguments: a start after the end of the text, a word that isn't
//! supported and a number that names no language or form have a status of their own. What a
//! reference or a slice asks of C is in the header.
#![tactic(auto, unfolding(digits::proofs::Literals::lexical_on_literals))]

ghost use Rattle.std.specs.Prelude.{◌≡◌};

mod blocks;
mod bytes;
mod floats;
mod integers;
mod keep;
mod laws;
mod lists;
mod literals;
mod numbers;
mod outcome;
mod parts;
mod pieces;
mod prices;
mod scaled;
mod source;
mod whole_lists;
mod word;
mod write;
mod write_floats;
mod write_numbers;

pub use laws::{
    kinds_say, read_then_as_i64, reads_stay, reads_stay_by, reads_stay_of, statuses_say,
};
pub use outcome::Outcome;
pub use word::Word;

/// The version of this library: 10,000 for each major one, 100 for each minor one.
const VERSION: u32 = 100;

/// The version of the library that is linked. A header has its own.
#[unsafe(no_mangle)]
pub extern "C" fn digits_version() -> u32
    ensures { result ≡ 100 }
{
    VERSION
}

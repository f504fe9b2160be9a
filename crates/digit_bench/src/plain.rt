//! Drains by `lexical_plain`, which drops nothing. No looks are counted.

use super::format::Format;
use super::work::{Task, Work, run};
use super::{Outcome, loops};
use lexical_digits::iterator::Iter;
use lexical_plain::noskip::Bytes;

/// What a drain came to.
#[inline(always)]
fn drained(value: u64, bytes: &Bytes) -> Outcome {
    Outcome::of(value, bytes.current_count() as u64)
}

/// Sums the bytes, by `next`.
struct Sum;

impl Work for Sum {
    #[inline(always)]
    fn on<F: Format>(text: &[u8], format: F) -> Outcome {
        let mut bytes = Bytes::new(text, format.word());
        let sum = loops::sum(&mut bytes.integer_iter(), format);
        drained(sum, &bytes)
    }
}

/// Makes a number of the bytes, by `next`.
struct Number;

impl Work for Number {
    #[inline(always)]
    fn on<F: Format>(text: &[u8], format: F) -> Outcome {
        let mut bytes = Bytes::new(text, format.word());
        let number = loops::number(&mut bytes.integer_iter(), format);
        drained(number, &bytes)
    }
}

/// Makes the number by `peek` and then `next`.
struct Peeked;

impl Work for Peeked {
    #[inline(always)]
    fn on<F: Format>(text: &[u8], format: F) -> Outcome {
        let mut bytes = Bytes::new(text, format.word());
        let number = loops::peeked_number(&mut bytes.integer_iter(), format);
        drained(number, &bytes)
    }
}

#[unsafe(no_mangle)]
pub extern "C" fn digit_bench_plain_sum(task: &Task, outcome: &mut Outcome) {
    *outcome = run::<Sum>(task);
}

#[unsafe(no_mangle)]
pub extern "C" fn digit_bench_plain_number(task: &Task, outcome: &mut Outcome) {
    *outcome = run::<Number>(task);
}

#[unsafe(no_mangle)]
pub extern "C" fn digit_bench_plain_peeked(task: &Task, outcome: &mut Outcome) {
    *outcome = run::<Peeked>(task);
}

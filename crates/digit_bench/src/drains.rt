//! Drains of the integer by `lexical_digits`.

use super::format::Format;
use super::work::{Task, Work, run, run_each};
use super::{Outcome, loops};
use lexical_digits::iterator::{Iter, IterBodies};
use lexical_digits::skip::{Bytes, Component};

/// What a drain of the integer came to. The looks aren't asked.
#[inline(always)]
pub fn drained(value: u64, bytes: &Bytes) -> Outcome {
    Outcome::of(value, bytes.current_count_of(Component::Integer) as u64)
}

/// The same, and the looks that were counted.
#[inline(always)]
fn drained_with_looks(value: u64, bytes: &Bytes) -> Outcome {
    Outcome {
        looks: bytes.looks(),
        ..drained(value, bytes)
    }
}

/// Sums the bytes, by `next`.
struct Sum;

impl Work for Sum {
    #[inline(always)]
    fn on<F: Format>(text: &[u8], format: F) -> Outcome {
        let mut bytes = Bytes::new(text, format.word());
        let sum = loops::sum(&mut bytes.integer_iter(), format);
        drained(sum, &bytes)
    }
}

/// Makes a number of the bytes, by `next`.
struct Number;

impl Work for Number {
    #[inline(always)]
    fn on<F: Format>(text: &[u8], format: F) -> Outcome {
        let mut bytes = Bytes::new(text, format.word());
        let number = loops::number(&mut bytes.integer_iter(), format);
        drained(number, &bytes)
    }
}

/// Makes the number of each of many texts. `on` of [`Number`] would have two callers for each word,
/// and then a compiler doesn't inline it.
struct Numbers;

impl Work for Numbers {
    #[inline(always)]
    fn on<F: Format>(text: &[u8], format: F) -> Outcome {
        let mut bytes = Bytes::new(text, format.word());
        let number = loops::number(&mut bytes.integer_iter(), format);
        drained(number, &bytes)
    }
}

/// The work of [`Number`], with the looks.
struct Looks;

impl Work for Looks {
    #[inline(always)]
    fn on<F: Format>(text: &[u8], format: F) -> Outcome {
        let mut bytes = Bytes::new(text, format.word());
        let number = loops::number(&mut bytes.integer_iter(), format);
        drained_with_looks(number, &bytes)
    }
}

/// The work of [`Numbers`], with the looks of each text.
struct Asked;

impl Work for Asked {
    #[inline(always)]
    fn on<F: Format>(text: &[u8], format: F) -> Outcome {
        let mut bytes = Bytes::new(text, format.word());
        let number = loops::number(&mut bytes.integer_iter(), format);
        drained_with_looks(number, &bytes)
    }
}

/// Makes the number by `peek` and then `next`.
struct Peeked;

impl Work for Peeked {
    #[inline(always)]
    fn on<F: Format>(text: &[u8], format: F) -> Outcome {
        let mut bytes = Bytes::new(text, format.word());
        let number = loops::peeked_number(&mut bytes.integer_iter(), format);
        drained(number, &bytes)
    }
}

/// Makes the number in a function that isn't inlined and gets the `Bytes`.
struct Handed;

/// The number that the bytes make which a `Bytes` still has.
#[inline(never)]
fn number_of<F: Format>(bytes: &mut Bytes, format: F) -> u64 {
    loops::number(&mut bytes.integer_iter(), format)
}

impl Work for Handed {
    #[inline(always)]
    fn on<F: Format>(text: &[u8], format: F) -> Outcome {
        let mut bytes = Bytes::new(text, format.word());
        let number = number_of(&mut bytes, format);
        drained(number, &bytes)
    }
}

/// Makes a number of the digits that come first, by `peek`, `is_digit` and `next`.
struct Stopped;

impl Work for Stopped {
    #[inline(always)]
    fn on<F: Format>(text: &[u8], format: F) -> Outcome {
        let mut bytes = Bytes::new(text, format.word());
        let number = loops::stopped_number(&mut bytes.integer_iter(), format);
        drained(number, &bytes)
    }
}

/// Makes a number of eight bytes at a time, by `peek_u64`. The digits are counted by
/// `increment_count_of`.
struct Eights;

impl Work for Eights {
    #[inline(always)]
    fn on<F: Format>(text: &[u8], format: F) -> Outcome {
        let mut bytes = Bytes::new(text, format.word());
        let mut number: u64 = 0;
        while let Some(eight) = bytes.peek_u64() {
            number = number.wrapping_mul(31).wrapping_add(eight);
            bytes.step_by_unchecked(8);
            bytes.increment_count_of(Component::Integer, 8);
        }
        drained(number, &bytes)
    }
}

/// Reads the numbers of a text by one `Bytes`, and clears its counts after each. The byte that ends
/// a number is taken too. The count is where the last one ends.
struct Cleared;

impl Work for Cleared {
    #[inline(always)]
    fn on<F: Format>(text: &[u8], format: F) -> Outcome {
        let mut bytes = Bytes::new(text, format.word());
        let mut total: u64 = 0;
        for _ in 0..text.len() {
            if bytes.is_buffer_empty() {
                break;
            }
            let number = loops::leading_number(&mut bytes.integer_iter(), format);
            total = total.wrapping_add(number);
            bytes.clear_counts();
        }
        Outcome::of(total, bytes.cursor() as u64)
    }
}

#[unsafe(no_mangle)]
pub extern "C" fn digit_bench_sum(task: &Task, outcome: &mut Outcome) {
    *outcome = run::<Sum>(task);
}

#[unsafe(no_mangle)]
pub extern "C" fn digit_bench_number(task: &Task, outcome: &mut Outcome) {
    *outcome = run::<Number>(task);
}

#[unsafe(no_mangle)]
pub extern "C" fn digit_bench_looks(task: &Task, outcome: &mut Outcome) {
    *outcome = run::<Looks>(task);
}

#[unsafe(no_mangle)]
pub extern "C" fn digit_bench_peeked(task: &Task, outcome: &mut Outcome) {
    *outcome = run::<Peeked>(task);
}

#[unsafe(no_mangle)]
pub extern "C" fn digit_bench_handed(task: &Task, outcome: &mut Outcome) {
    *outcome = run::<Handed>(task);
}

#[unsafe(no_mangle)]
pub extern "C" fn digit_bench_eights(task: &Task, outcome: &mut Outcome) {
    *outcome = run::<Eights>(task);
}

#[unsafe(no_mangle)]
pub extern "C" fn digit_bench_cleared(task: &Task, outcome: &mut Outcome) {
    *outcome = run::<Cleared>(task);
}

#[unsafe(no_mangle)]
pub extern "C" fn digit_bench_numbers(task: &Task, outcome: &mut Outcome) {
    *outcome = run_each::<Numbers>(task);
}

#[unsafe(no_mangle)]
pub extern "C" fn digit_bench_asked(task: &Task, outcome: &mut Outcome) {
    *outcome = run_each::<Asked>(task);
}

#[unsafe(no_mangle)]
pub extern "C" fn digit_bench_stopped(task: &Task, outcome: &mut Outcome) {
    *outcome = run_each::<Stopped>(task);
}

/// How many bytes of memory a `Bytes` takes.
#[unsafe(no_mangle)]
pub extern "C" fn digit_bench_size() -> usize {
    size_of::<Bytes<'static>>()
}

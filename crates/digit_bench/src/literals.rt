//! Integer literals, digits and zeros by `digit_literals`.

use super::Outcome;
use super::drains::drained;
use super::format::Format;
use super::mostly::read_mostly_standard;
use super::work::{Task, Work, run, run_each};
use digit_literals::{count_digits, pass_digits, pass_zeros, read_integer, read_integer_from};
use lexical_digits::skip::{Bytes, Component};

/// Reads a literal by `read_integer`. The count is where it ends; nothing where there is none.
struct Literals;

impl Work for Literals {
    #[inline(always)]
    fn on<F: Format>(text: &[u8], format: F) -> Outcome {
        match read_integer(text, format.word()) {
            Ok((value, end)) => Outcome::of(value, end as u64),
            Err(_) => Outcome::nothing(),
        }
    }
}

/// The same by `read_mostly_standard`.
struct Mostly;

impl Work for Mostly {
    #[inline(always)]
    fn on<F: Format>(text: &[u8], format: F) -> Outcome {
        match read_mostly_standard(text, format.word()) {
            Ok((value, end)) => Outcome::of(value, end as u64),
            Err(_) => Outcome::nothing(),
        }
    }
}

/// Reads the number of each line by `read_integer_from`, and adds them up. The count is where the
/// last line ends.
struct Lines;

impl Work for Lines {
    #[inline(always)]
    fn on<F: Format>(text: &[u8], format: F) -> Outcome {
        lines_sum(text, format)
    }
}

/// The numbers of the lines, up to the first line that begins with none.
#[inline(always)]
fn lines_sum<F: Format>(text: &[u8], format: F) -> Outcome {
    let mut total: u64 = 0;
    let mut start = 0;
    while start < text.len() {
        let Ok((value, end)) = read_integer_from(text, format.word(), start, u64::MAX) else {
            break;
        };
        total = total.wrapping_add(value);
        start = end + 1;
    }
    Outcome::of(total, start as u64)
}

/// Counts the digits of a text by `count_digits`.
struct Counted;

impl Work for Counted {
    #[inline(always)]
    fn on<F: Format>(text: &[u8], format: F) -> Outcome {
        match count_digits(text, format.word()) {
            Ok(digits) => Outcome::of(digits as u64, 0),
            Err(_) => Outcome::nothing(),
        }
    }
}

/// Passes the digits that come first. The value is how many there are.
struct Digits;

impl Work for Digits {
    #[inline(always)]
    fn on<F: Format>(text: &[u8], format: F) -> Outcome {
        let mut bytes = Bytes::new(text, format.word());
        let digits = pass_digits(&mut bytes, Component::Integer);
        drained(digits as u64, &bytes)
    }
}

/// Passes the zeros that come first. The value is how many there are.
struct Zeros;

impl Work for Zeros {
    #[inline(always)]
    fn on<F: Format>(text: &[u8], format: F) -> Outcome {
        let mut bytes = Bytes::new(text, format.word());
        let zeros = pass_zeros(&mut bytes, Component::Integer);
        drained(zeros as u64, &bytes)
    }
}

#[unsafe(no_mangle)]
pub extern "C" fn digit_bench_literals(task: &Task, outcome: &mut Outcome) {
    *outcome = run_each::<Literals>(task);
}

#[unsafe(no_mangle)]
pub extern "C" fn digit_bench_mostly(task: &Task, outcome: &mut Outcome) {
    *outcome = run_each::<Mostly>(task);
}

#[unsafe(no_mangle)]
pub extern "C" fn digit_bench_lines(task: &Task, outcome: &mut Outcome) {
    *outcome = run::<Lines>(task);
}

#[unsafe(no_mangle)]
pub extern "C" fn digit_bench_digits(task: &Task, outcome: &mut Outcome) {
    *outcome = run_each::<Digits>(task);
}

#[unsafe(no_mangle)]
pub extern "C" fn digit_bench_zeros(task: &Task, outcome: &mut Outcome) {
    *outcome = run_each::<Zeros>(task);
}

#[unsafe(no_mangle)]
pub extern "C" fn digit_bench_counted(task: &Task, outcome: &mut Outcome) {
    *outcome = run_each::<Counted>(task);
}

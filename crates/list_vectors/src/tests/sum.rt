//! The program's totals, and its runs under failure.

mod failures;
mod floats;
mod streams;
mod totals;

use digit_totals::engine::serve_arguments;
use digit_totals::laws::{float_reports_say, headers_say, reports_say};
use std::alloc::Global;
use std::io::Read;

/// What a run writes and tells, and its status.
#[derive(Drop)]
struct Outcome {
    written: Vec<u8>,
    told: Vec<u8>,
    status: u8,
}

impl Outcome {
    /// Whether it is this one.
    fn is(&self, written: &[u8], told: &[u8], status: u8) -> bool {
        self.written.as_slice() == written && self.told.as_slice() == told && self.status == status
    }
}

/// Runs the program over a reader.
fn run_over<R: Read>(alloc: Global, words: &[&[u8]], reader: &mut R) -> Outcome {
    reports_say();
    float_reports_say();
    headers_say();
    let mut written = Vec::new(alloc);
    let mut told = Vec::new(alloc);
    let status = serve_arguments(alloc, words, reader, &mut written, &mut told);
    Outcome {
        written,
        told,
        status,
    }
}

/// Runs the program over a text.
fn run_of(alloc: Global, words: &[&[u8]], input: &[u8]) -> Outcome {
    let mut reader = input;
    run_over(alloc, words, &mut reader)
}

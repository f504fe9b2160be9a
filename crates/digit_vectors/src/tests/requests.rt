//! The program's lines, and its runs under failure.
//!
//! What is tried, and where:
//!
//! - the five lines; each further line; bad lines through `run`, `tell` and `status`; each prefix
//!   of a line; a carriage return; 65,536 bytes and 65,537: `lines`
//! - memory refused at each request in turn, to a run: `refused_memory_leaves_nothing_written`; to
//!   `tell`: `a_fault_is_not_told_without_memory`; to a list of calls:
//!   `a_list_of_calls_takes_one_reservation`
//! - a reader that fails or is interrupted at the start, in the middle or at the end:
//!   `a_failing_reader_leaves_nothing_written`; one byte at a turn, with an end and without:
//!   `a_slow_reader_gives_the_whole_input`, `a_reader_without_end_gives_too_much`; one that fails
//!   after the longest input, and after one byte more:
//!   `the_first_byte_too_many_ends_the_reading`
//! - a writer that takes three bytes a call: `a_slow_writer_gets_the_whole_output`; one that fails,
//!   is interrupted or takes nothing, at the start and after three bytes, with and without a bad
//!   line: `a_failing_writer_gets_a_prefix`
//! - each fault's line and status: `each_fault_has_its_line_and_status`; told to such writers:
//!   `a_fault_is_told_to_a_slow_writer`, `a_fault_is_not_told_to_a_failing_writer`

mod failures;
mod limited;
mod lines;
mod streams;

use digit_requests::engine::serve;
use std::alloc::Global;

/// Five lines with their line feeds.
const FIVE_LINES: &str = "integer 10 5f I 4_5
integer 10 5f I 4__5
integer 10 5f IL __45
integer 10 00 - 12345
integer 10 5f T 
";

const FIVE_ANSWERS: &str = "45 count=2 cursor=3
4_5 count=2 cursor=4
__45 count=2 cursor=4
12345 count=5 cursor=5
 count=0 cursor=0
";

/// A line, and one whose separator is a digit.
const UNSUPPORTED: &str = "integer 10 5f I 4_5\ninteger 16 61 I a1";

/// What the program writes for an input, and its exit status.
fn answer(alloc: Global, input: &[u8]) -> (Vec<u8>, u8) {
    let mut reader = input;
    let mut writer = Vec::new(alloc);
    let status = serve(alloc, &mut reader, &mut writer);
    (writer, status)
}

//! Makes the output for an input: the answer to each line, up to the first bad line.

ghost use Rattle.std.specs.Prelude.{◌≡◌, ◌<◌, ◌∷◌, ◌++◌, length, IfOk, IsTrue, OnOk, MatchResult};
ghost use Rattle.lexical_format.specs.Word.{is_supported};
ghost use Rattle.lexical_digits.specs.Separators.{drain};
ghost use Rattle.lexical_digits.specs.State.{rule_of, current_count};
ghost use Rattle.lexical_digits.specs.CallTable.{drain_of, after_drain};
ghost use Rattle.digit_requests.specs.Line.{asked_by, word_of};
ghost use Rattle.digit_requests.specs.Report.{lines_of, request_at, count_of, answer_to, report_of, AddsDrain};

use super::line::{Request, cut, read_request};
use lexical_digits::iterator::Iter;
use lexical_digits::skip::{Bytes, Component};
use lexical_format::is_supported;
use std::alloc::{AllocError, Allocator};

/// A line that ends a report. Lines count from 1.
#[derive(Clone, Copy, Debug, PartialEq, Eq)]
pub enum BadLine {
    /// The line with this number does not have the form of a request.
    NotARequest(usize),
    /// The format word of the line with this number is not supported.
    NotSupported(usize),
}

/// The first line of an input, and the bytes after its line feed.
#[tactic(auto, using(crate::proofs::FirstLine::lines))]
fn first_line(input: &[u8]) -> (&[u8], &[u8])
    requires { 0 < length input.now }
    ensures lines { lines_of input.now ≡ result.0.now ∷ lines_of result.1.now }
    ensures shorter { length result.1.now < length input.now }
{
    match cut(input, b'\n') {
        Some((line, rest)) => (line, rest),
        None => (input, &[]),
    }
}

/// The request of a line and its format word, if the line is a request and the word is supported.
fn supported_request(number: usize, line: &[u8]) -> Result<(Request<'_>, u128), BadLine>
    ensures { MatchResult result
        (λ good. (request_at number line.now ≡ Ok (asked_by good.0))
        × (good.1 ≡ word_of (asked_by good.0)) × IsTrue (is_supported good.1))
        (λ bad_line. request_at number line.now ≡ Err bad_line) }
{
    let Some(request) = read_request(line) else {
        return Err(BadLine::NotARequest(number));
    };
    let word = request.format.build();
    if is_supported(word) {
        Ok((request, word))
    } else {
        Err(BadLine::NotSupported(number))
    }
}

/// The output for an input, and the bad line that ended it, if there is one.
#[derive(Drop)]
pub struct Report<A: Allocator> {
    pub output: Vec<u8, A>,
    pub fault: Option<BadLine>,
}

/// The count and the cursor after a drain.
#[derive(Clone, Copy)]
struct Drained {
    count: usize,
    cursor: usize,
}

/// Drains a component by `next_of`, and adds the bytes that it yields to the output. The contract
/// of its iterator's `next` is the same.
fn push_component<A: Allocator>(
    output: &mut Vec<u8, A>,
    bytes: &mut Bytes<'_>,
    component: Component,
) -> Result<Drained, AllocError>
    ensures { let s = bytes.old.state in let end = after_drain component s in
        AddsDrain output.old.items output.new.items (drain_of component s)
        (current_count component end) end.cursor result }
{
    while let Some(byte) = bytes.next_of(component) {
        output.push(*byte)?;
    }
    Ok(Drained {
        count: bytes.current_count_of(component),
        cursor: bytes.cursor(),
    })
}

/// Drains the text of a request, and adds the bytes that its component yields to the output.
fn push_text<A: Allocator>(
    output: &mut Vec<u8, A>,
    request: &Request<'_>,
    word: u128,
) -> Result<Drained, AllocError>
    requires word { word ≡ word_of (asked_by request.now) }
    requires supported { IsTrue (is_supported word) }
    ensures { let asked = asked_by request.now in
        let bytes = drain (rule_of (word_of asked) asked.component) asked.text 0 0 in
        AddsDrain output.old.items output.new.items bytes
        (count_of asked) (length asked.text) result }
{
    let mut bytes = Bytes::new(request.text, word);
    push_component(output, &mut bytes, request.component)
}

/// Adds the answer to a request to the output.
#[tactic(auto, unfolding(crate::specs::Report::answer_to))]
fn push_answer<A: Allocator>(
    alloc: &A,
    output: &mut Vec<u8, &A>,
    request: &Request<'_>,
    word: u128,
) -> Result<(), AllocError>
    requires word { word ≡ word_of (asked_by request.now) }
    requires supported { IsTrue (is_supported word) }
    ensures { OnOk result
        (output.new.items ≡ output.old.items ++ answer_to (asked_by request.now)) }
{
    let Drained { count, cursor } = push_text(output, request, word)?;
    let numbers = format!(in alloc; " count={count} cursor={cursor}\n")?;
    output.extend_from_slice(numbers.as_bytes())
}

/// Makes the answers to the lines before the first bad line, and names that line. It fails only if
/// memory is refused.
pub fn make_report<'a, A: Allocator>(
    alloc: &'a A,
    input: &[u8],
) -> Result<Report<&'a A>, AllocError>
    ensures output { IfOk result (λ report.
        report.output.items ≡ (report_of input.now).output) }
    ensures fault { IfOk result (λ report. report.fault ≡ (report_of input.now).fault) }
{
    let mut output = Vec::new(alloc);
    let mut rest = input;
    let mut number = 1;
    while !rest.is_empty() {
        let (line, after) = first_line(rest);
        match supported_request(number, line) {
            Ok((request, word)) => push_answer(alloc, &mut output, &request, word)?,
            Err(bad_line) => {
                return Ok(Report {
                    output,
                    fault: Some(bad_line),
                });
            }
        }
        rest = after;
        number += 1;
    }
    Ok(Report {
        output,
        fault: None,
    })
}

//! Runs the program over any reader and writer: input, output and status.

ghost use Rattle.std.specs.Prelude.{◌≡◌, ◌++◌, IfOk, codes, decimal, string_bytes};
ghost use Rattle.digit_requests.specs.Outcome.{Runs, Tells, Serves, line_of};

pub use super::fault::Fault;
use super::input::read_input;
use super::output::write_output;
use super::report::{BadLine, make_report};
use std::alloc::{AllocError, Allocator, Global};
use std::io::{Read, Write};

/// Answers each line of an input: reads the input to its end, makes the whole output, and then
/// writes it.
///
/// The first bad line ends the run: the answers to the lines before it are written, and the line's
/// fault is the answer. Reading can end with [`Fault::Read`], [`Fault::TooLong`] or
/// [`Fault::Memory`], and making the output with [`Fault::Memory`]; then nothing was written. On
/// [`Fault::Write`] a prefix of the output was written, never the whole. A failed write replaces
/// the fault of a bad line.
pub fn run<R: Read, W: Write>(alloc: Global, reader: &mut R, writer: &mut W) -> Result<(), Fault>
    ensures { Runs (record {
      input = R.remaining reader.old;
      rest = R.remaining reader.new;
      had = W.contents writer.old;
      has = W.contents writer.new;
    }) result }
{
    run_in(&alloc, reader, writer)
}

/// As [`run`], with any allocator.
pub fn run_in<A: Allocator, R: Read, W: Write>(
    alloc: &A,
    reader: &mut R,
    writer: &mut W,
) -> Result<(), Fault>
    ensures { Runs (record {
      input = R.remaining reader.old;
      rest = R.remaining reader.new;
      had = W.contents writer.old;
      has = W.contents writer.new;
    }) result }
{
    let input = read_input(alloc, reader)?;
    let report = make_report(alloc, &input)?;
    write_output(writer, &report.output)?;
    match report.fault {
        None => Ok(()),
        Some(BadLine::NotARequest(number)) => Err(Fault::Line(number)),
        Some(BadLine::NotSupported(number)) => Err(Fault::Word(number)),
    }
}

/// The error line of a bad line with this number, which ends so.
fn line_with<A: Allocator>(alloc: A, number: usize, end: &str) -> Result<String<A>, AllocError>
    ensures { IfOk result (λ line. string_bytes line ≡
        codes "error: line " ++ decimal number ++ end.now) }
{
    format!(in alloc; "error: line {number}{end}")
}

/// The error line of a fault, with its line feed.
fn line_for<A: Allocator>(alloc: A, fault: &Fault) -> Result<String<A>, AllocError>
    ensures { IfOk result (λ line. string_bytes line ≡ line_of fault.now) }
{
    match *fault {
        Fault::Line(n) => line_with(alloc, n, ": not a request\n"),
        Fault::Word(n) => line_with(alloc, n, ": word not supported\n"),
        Fault::TooLong => String::from_str(alloc, "error: input longer than 65536 bytes\n"),
        Fault::Read => String::from_str(alloc, "error: read failed\n"),
        Fault::Write => String::from_str(alloc, "error: write failed\n"),
        Fault::Memory => String::from_str(alloc, "error: out of memory\n"),
    }
}

/// Writes the error line of a fault, with its line feed.
///
/// It can answer only two faults: on [`Fault::Write`] a prefix of the line was written, never the
/// whole, and on [`Fault::Memory`] nothing was written.
pub fn tell<W: Write>(alloc: Global, fault: &Fault, writer: &mut W) -> Result<(), Fault>
    ensures { Tells (W.contents writer.old) (W.contents writer.new) fault.now result }
{
    tell_in(alloc, fault, writer)
}

/// As [`tell`], with any allocator.
pub fn tell_in<A: Allocator, W: Write>(alloc: A, fault: &Fault, writer: &mut W) -> Result<(), Fault>
    ensures { Tells (W.contents writer.old) (W.contents writer.new) fault.now result }
{
    let line = line_for(alloc, fault)?;
    write_output(writer, line.as_bytes())
}

/// Runs the whole program: answers each line of an input by [`run`], and writes the error line of a
/// fault to the same writer by [`tell`]. The answer is the exit status: 0, or the status of the
/// fault, even if its error line could not be written.
pub fn serve<R: Read, W: Write>(alloc: Global, reader: &mut R, writer: &mut W) -> u8
    ensures { Serves (R.remaining reader.old) (R.remaining reader.new)
        (W.contents writer.old) (W.contents writer.new) result }
{
    match run(alloc, reader, writer) {
        Ok(()) => 0,
        Err(fault) => {
            // A failed `tell` does not change the status.
            let _ = tell(alloc, &fault, writer);
            fault.status()
        }
    }
}

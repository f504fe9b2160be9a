//! Runs the program over any reader and writers: input, output and status.

ghost use Rattle.std.specs.Prelude.{map, List, ℕ, Option};
ghost use Rattle.digit_totals.specs.Arguments as Arguments;
ghost use Rattle.digit_totals.specs.Outcome.{RunsBy, RunsFloats, Tells, ServesBy, ServesFloats, ServesHelp};
ghost use Rattle.digit_totals.specs.Program.{ServesArguments};
ghost use Rattle.digit_totals.specs.Text as Text;

use super::adds::Adds;
use super::arguments::{UsageError, help, read_arguments, usage_line};
pub use super::fault::Fault;
use super::input::sum_input;
use super::options::{Column, FloatOptions, Request};
use super::output::write_output;
use super::text::error_line;
use std::alloc::{Allocator, Global};
use std::io::{Read, Write};

/// Adds up an input, and writes the line of its totals.
///
/// The first line with a fault ends the run, and nothing is written. On [`Fault::Write`] a prefix
/// of the line was written, never the whole. On all other faults nothing was written.
pub fn run<K: Adds, A: Allocator, R: Read, W: Write>(
    alloc: &A,
    options: K,
    reader: &mut R,
    writer: &mut W,
) -> Result<(), Fault>
    requires { K.valid options }
    ensures { RunsBy (K.adding options) (K.IsLine options) (record {
      input = R.remaining reader.old;
      rest = R.remaining reader.new;
      had = W.contents writer.old;
      has = W.contents writer.new;
    }) result }
{
    let totals = match sum_input(options, reader) {
        Ok(totals) => totals,
        Err(fault) => return Err(fault),
    };
    let line = options.line_of(alloc, totals)?;
    write_output(writer, line.as_slice())
}

/// [`run`] of floats.
pub fn run_floats<A: Allocator, R: Read, W: Write>(
    alloc: &A,
    options: FloatOptions,
    reader: &mut R,
    writer: &mut W,
) -> Result<(), Fault>
    ensures { RunsFloats options (record {
      input = R.remaining reader.old;
      rest = R.remaining reader.new;
      had = W.contents writer.old;
      has = W.contents writer.new;
    }) result }
{
    run(alloc, options, reader, writer)
}

/// Writes the line of a fault.
///
/// It can answer only two faults: on [`Fault::Write`] a prefix of the line was written, never the
/// whole, and on [`Fault::Memory`] nothing was written.
pub fn tell<A: Allocator, W: Write>(
    alloc: &A,
    column: Option<Column>,
    fault: Fault,
    writer: &mut W,
) -> Result<(), Fault>
    ensures { Tells (W.contents writer.old) (W.contents writer.new)
        (Text.error_line column fault) result }
{
    let line = error_line(alloc, column, fault)?;
    write_output(writer, line.as_bytes())
}

/// Writes the lines of a fault of the arguments; it ends as [`tell`].
fn tell_usage<A: Allocator, W: Write>(
    alloc: &A,
    words: &[&[u8]],
    error: UsageError,
    writer: &mut W,
) -> Result<(), Fault>
    ensures { Tells (W.contents writer.old) (W.contents writer.new)
        (Arguments.usage_line (map (λ word. word.now) words.now) error) result }
{
    let lines = usage_line(alloc, words, error)?;
    write_output(writer, lines.as_slice())
}

/// Writes what may be asked for, or to another writer the line of a fault.
fn serve_help<W: Write, E: Write>(alloc: Global, writer: &mut W, errors: &mut E) -> u8
    ensures { (input : Option (List ℕ)) → ServesHelp Arguments.help (record {
      input = input;
      rest = input;
      had = W.contents writer.old;
      has = W.contents writer.new;
    }) (E.contents errors.old) (E.contents errors.new) result }
{
    match write_output(writer, help().as_bytes()) {
        Ok(()) => 0,
        Err(fault) => {
            // A failed `tell` does not change the status.
            let _ = tell(&alloc, None, fault, errors);
            fault.status()
        }
    }
}

/// Runs the program by its options: adds up an input by [`run`], and writes the line of a fault to
/// another writer by [`tell`]. The answer is the exit status: 0, or the status of the fault, even
/// if its line could not be written.
pub fn serve<K: Adds, R: Read, W: Write, E: Write>(
    alloc: Global,
    options: K,
    reader: &mut R,
    writer: &mut W,
    errors: &mut E,
) -> u8
    requires { K.valid options }
    ensures { ServesBy (K.adding options) (K.IsLine options) (K.column_of options)
        (record {
          input = R.remaining reader.old;
          rest = R.remaining reader.new;
          had = W.contents writer.old;
          has = W.contents writer.new;
        }) (E.contents errors.old) (E.contents errors.new) result }
{
    match run(&alloc, options, reader, writer) {
        Ok(()) => 0,
        Err(fault) => {
            // A failed `tell` does not change the status.
            let _ = tell(&alloc, options.column(), fault, errors);
            fault.status()
        }
    }
}

/// [`serve`] of floats, in code of its own, so that the loops of exact sums have all registers.
#[inline(never)]
pub fn serve_floats<R: Read, W: Write, E: Write>(
    alloc: Global,
    options: FloatOptions,
    reader: &mut R,
    writer: &mut W,
    errors: &mut E,
) -> u8
    ensures { ServesFloats options (record {
      input = R.remaining reader.old;
      rest = R.remaining reader.new;
      had = W.contents writer.old;
      has = W.contents writer.new;
    }) (E.contents errors.old) (E.contents errors.new) result }
{
    serve(alloc, options, reader, writer, errors)
}

/// The whole program, by its arguments: [`serve`] or [`serve_floats`], what may be asked for, or
/// the
/// lines of a fault of the arguments and the status 2.
pub fn serve_arguments<R: Read, W: Write, E: Write>(
    alloc: Global,
    words: &[&[u8]],
    reader: &mut R,
    writer: &mut W,
    errors: &mut E,
) -> u8
    ensures { ServesArguments (map (λ word. word.now) words.now) (record {
      input = R.remaining reader.old;
      rest = R.remaining reader.new;
      had = W.contents writer.old;
      has = W.contents writer.new;
    }) (E.contents errors.old) (E.contents errors.new) result }
{
    match read_arguments(words) {
        Ok(Request::Exact(options)) => serve(alloc, options, reader, writer, errors),
        Ok(Request::Floats(options)) => serve_floats(alloc, options, reader, writer, errors),
        Ok(Request::Help) => serve_help(alloc, writer, errors),
        Err(error) => {
            // A failed `tell_usage` does not change the status.
            let _ = tell_usage(&alloc, words, error, errors);
            2
        }
    }
}

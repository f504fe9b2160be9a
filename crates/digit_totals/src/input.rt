//! Reads the input piece by piece, and adds its lines.

ghost use Rattle.std.specs.Prelude.{◌≡◌, ◌≢◌, ◌<◌, ◌≤◌, ◌+◌, ◌-◌, All, ◌^◌, Ok, Err, length, take, drop, slice_range, IfOk, IfErr, OnOk};
ghost use Rattle.std.specs.Io.KnownBytes.{Consumes, IsAtEnd};
ghost use Rattle.std.specs.declared.io.ErrorKind.TheVariants.{Interrupted};
ghost use Rattle.digit_totals.specs.Lines.{lines_of};
ghost use Rattle.digit_totals.specs.Outcome.{Sums, SumsLines, PassesLine, MayBeLater, with_front, of_lines, sum_later};
ghost use Rattle.digit_totals.specs.Report.{most_bytes, with_lines, LeavesRest, EndsIn};

use super::adds::Adds;
use super::fault::{Fault, LineFault};
use super::lines::add_lines;
use super::search::find;
use std::io::{ErrorKind, Read};

/// The length of the buffer: a line has fewer bytes.
pub const SIZE: usize = 65536;

/// Reads once into the buffer, after its first `filled` bytes. An interrupted read is tried again.
pub fn fill<R: Read>(reader: &mut R, buffer: &mut [u8], filled: usize) -> Result<usize, ErrorKind>
    requires { filled < length buffer.old }
    ensures read { IfOk result (λ n. Consumes (R.remaining reader.old) (R.remaining reader.new)
        (take n (drop filled buffer.new))) }
    ensures end { result ≡ Ok 0 → IsAtEnd (R.remaining reader.new) }
    ensures kept { take filled buffer.new ≡ take filled buffer.old }
    ensures length { length buffer.new ≡ length buffer.old }
    ensures within { IfOk result (λ n. filled + n ≤ length buffer.new) }
    ensures retried { IfErr result (λ kind. kind ≢ Interrupted) }
{
    for _ in 0..u64::MAX {
        match reader.read(&mut buffer[filled..]) {
            Ok(n) => return Ok(n),
            Err(error) => {
                let kind = error.kind();
                if kind != ErrorKind::Interrupted {
                    return Err(kind);
                }
            }
        }
    }
    Err(ErrorKind::TimedOut)
}

/// Moves a part of the buffer to its front.
pub fn keep(buffer: &mut [u8], start: usize, end: usize)
    requires order { start ≤ end }
    requires within { end ≤ length buffer.old }
    ensures length { length buffer.new ≡ length buffer.old }
    ensures front { take (end - start) buffer.new ≡ slice_range buffer.old start end }
{
    buffer.copy_within(start..end, 0);
}

/// Adds the last line, which has no line feed, if there is one.
fn add_last<K: Adds>(options: K, totals: K::Totals, text: &[u8]) -> Result<K::Totals, LineFault>
    requires valid { K.valid options }
    requires short { length text.now ≤ most_bytes }
    requires whole { All (λ byte. byte ≢ 10) text.now }
    requires room { (K.adding options).count_of totals < 2 ^ 127 }
    ensures { result ≡ with_lines (K.adding options) totals (lines_of text.now) }
{
    if text.is_empty() {
        Ok(totals)
    } else {
        options.add_line(totals, text)
    }
}

/// Totals, and how many bytes at the front of the buffer are of no line among them.
#[derive(Clone, Copy)]
struct Kept<T: Copy> {
    totals: T,
    filled: usize,
}

/// Adds the whole lines of the first `end` bytes of the buffer, of which the first `filled` have no
/// line feed, and moves the others to its front. A line that comes in many pieces is not read again
/// at each of them.
fn add_piece<K: Adds>(
    options: K,
    totals: K::Totals,
    buffer: &mut [u8],
    filled: usize,
    end: usize,
) -> Result<Kept<K::Totals>, LineFault>
    requires valid { K.valid options }
    requires order { filled ≤ end }
    requires within { end ≤ length buffer.old }
    requires short { length buffer.old ≤ most_bytes + 1 }
    requires room { (K.adding options).count_of totals + end ≤ 2 ^ 127 }
    requires whole { All (λ byte. byte ≢ 10) (take filled buffer.old) }
    ensures rest { IfOk result (λ kept. LeavesRest (K.adding options) totals
        (take end buffer.old) kept.totals (take kept.filled buffer.new)) }
    ensures whole { IfOk result (λ kept.
        All (λ byte. byte ≢ 10) (take kept.filled buffer.new)) }
    ensures within { IfOk result (λ kept. kept.filled ≤ end) }
    ensures room { IfOk result (λ kept. (K.adding options).count_of kept.totals + kept.filled
        ≤ (K.adding options).count_of totals + end) }
    ensures length { length buffer.new ≡ length buffer.old }
    ensures fault { IfErr result (EndsIn (K.adding options) totals (take end buffer.old)) }
{
    if find(&buffer[filled..end], b'\n').is_none() {
        return Ok(Kept {
            totals,
            filled: end,
        });
    }
    let added = match add_lines(options, totals, &buffer[..end]) {
        Ok(added) => added,
        Err(fault) => return Err(fault),
    };
    let kept = Kept {
        totals: added.totals,
        filled: added.rest.len(),
    };
    keep(buffer, end - kept.filled, end);
    Ok(kept)
}

/// The answer of lines as that of a run.
fn of_lines<T: Copy>(added: Result<T, LineFault>) -> Result<T, Fault>
    ensures { result ≡ of_lines added }
{
    match added {
        Ok(totals) => Ok(totals),
        Err(fault) => Err(Fault::Line(fault)),
    }
}

/// The totals of the numbers of lines, a piece at a time. The first `start` bytes of the buffer are
/// the first piece.
#[inline(never)]
fn sum_lines<K: Adds, R: Read>(
    options: K,
    reader: &mut R,
    buffer: &mut [u8],
    start: usize,
) -> Result<K::Totals, Fault>
    requires valid { K.valid options }
    requires size { length buffer.old ≡ 65536 }
    requires within { start ≤ 65536 }
    ensures is { SumsLines (K.adding options)
        (with_front (take start buffer.old) (R.remaining reader.old)) result }
    ensures end { OnOk result (IsAtEnd (R.remaining reader.new)) }
    ensures line { IfErr result MayBeLater }
{
    let mut totals = options.none();
    let mut filled = 0;
    let mut end = start;
    for _ in 0..u64::MAX {
        match add_piece(options, totals, buffer, filled, end) {
            Ok(kept) => {
                totals = kept.totals;
                filled = kept.filled;
            }
            Err(fault) => return Err(Fault::Line(fault)),
        }
        if filled == SIZE {
            return Err(Fault::Line(LineFault::LongLine(options.count_of(totals) + 1)));
        }
        let count = match fill(reader, buffer, filled) {
            Ok(count) => count,
            Err(kind) => return Err(Fault::Read(kind)),
        };
        if count == 0 {
            return of_lines(add_last(options, totals, &buffer[..filled]));
        }
        end = filled + count;
    }
    Err(Fault::Read(ErrorKind::TimedOut))
}

/// Reads the first line of an input, of any length. The answer is how many bytes after it are in
/// the buffer then, at its front.
fn pass_line<R: Read>(reader: &mut R, buffer: &mut [u8]) -> Result<usize, ErrorKind>
    requires { 0 < length buffer.old }
    ensures passed { IfOk result (λ count. PassesLine (R.remaining reader.old)
        (R.remaining reader.new) (take count buffer.new)) }
    ensures within { IfOk result (λ count. count ≤ length buffer.new) }
    ensures length { length buffer.new ≡ length buffer.old }
    ensures retried { IfErr result (λ kind. kind ≢ Interrupted) }
{
    for _ in 0..u64::MAX {
        let count = match fill(reader, buffer, 0) {
            Ok(count) => count,
            Err(kind) => return Err(kind),
        };
        if count == 0 {
            return Ok(0);
        }
        match find(&buffer[..count], b'\n') {
            Some(end) => {
                keep(buffer, end + 1, count);
                return Ok(count - (end + 1));
            }
            None => {}
        }
    }
    Err(ErrorKind::TimedOut)
}

/// What a run answers, if its lines follow a header.
fn later<T: Copy>(sum: Result<T, Fault>) -> Result<T, Fault>
    requires { IfErr sum MayBeLater }
    ensures { result ≡ sum_later sum }
{
    match sum {
        Err(Fault::Line(fault)) => Err(Fault::Line(fault.later())),
        _ => sum,
    }
}

/// The totals of the numbers of an input, a piece at a time.
pub fn sum_input<K: Adds, R: Read>(options: K, reader: &mut R) -> Result<K::Totals, Fault>
    requires { K.valid options }
    ensures is { Sums (K.adding options) (R.remaining reader.old) result }
    ensures end { OnOk result (IsAtEnd (R.remaining reader.new)) }
{
    let mut buffer = [0; SIZE];
    if options.has_header() {
        return match pass_line(reader, &mut buffer) {
            Ok(count) => later(sum_lines(options, reader, &mut buffer, count)),
            Err(kind) => Err(Fault::Read(kind)),
        };
    }
    sum_lines(options, reader, &mut buffer, 0)
}

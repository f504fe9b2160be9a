//! Writes a line, by a loop over `write`.

ghost use Rattle.std.specs.Prelude.{IfErr, OnErr, OnOk};
ghost use Rattle.std.specs.Io.KnownBytes.{Appends};
ghost use Rattle.digit_totals.specs.Outcome.{AppendsPart, IsWriteFault};

use super::fault::Fault;
use std::io::{ErrorKind, Write};

/// Writes all the bytes. It answers [`Fault::Write`] if a write failed, was interrupted, or wrote
/// nothing although bytes were left; then a prefix of the bytes was written, never the whole.
pub fn write_output<W: Write>(writer: &mut W, bytes: &[u8]) -> Result<(), Fault>
    ensures ok { OnOk result (Appends (W.contents writer.old) (W.contents writer.new) bytes.now) }
    ensures part { OnErr result
        (AppendsPart (W.contents writer.old) (W.contents writer.new) bytes.now) }
    ensures fault { IfErr result IsWriteFault }
{
    let mut rest = bytes;
    while !rest.is_empty() {
        match writer.write(rest) {
            Ok(0) => return Err(Fault::Write(ErrorKind::WriteZero)),
            Ok(n) => rest = &rest[n..],
            Err(error) => return Err(Fault::Write(error.kind())),
        }
    }
    Ok(())
}

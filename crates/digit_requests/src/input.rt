//! Reads the input to its end, within bounds.

ghost use Rattle.std.specs.Prelude.{◌≡◌, ◌⊎◌, ◌<◌, ◌≤◌, length, IfErr, IfOk, IfSome};
ghost use Rattle.std.specs.Io.KnownBytes.{IsAtEnd};
ghost use Rattle.digit_requests.specs.Outcome.{ReadsPast, most_bytes};

use super::fault::Fault;
use std::alloc::Allocator;
use std::io::Read;

/// The greatest length of an input, in bytes.
pub const LIMIT: usize = 65536;

/// The most calls of `read` in a run. It is a guard: a reader that gives at least one byte each
/// time reaches [`LIMIT`] first.
pub const READS: u32 = 131072;

/// Reads all the bytes that a reader has left. It answers [`Fault::TooLong`] at the first byte
/// after [`LIMIT`] bytes, and reads none after that one. It answers [`Fault::Read`] if a read
/// failed or was interrupted, or if [`READS`] reads did not reach the end.
pub fn read_input<A: Allocator, R: Read>(alloc: A, reader: &mut R) -> Result<Vec<u8, A>, Fault>
    ensures short { IfOk result (λ input. length input.items ≤ most_bytes) }
    ensures all { IfOk result (λ input.
        IfSome (R.remaining reader.old) (λ bytes. input.items ≡ bytes)) }
    ensures end { IfOk result (λ input. IsAtEnd (R.remaining reader.new)) }
    ensures too_long { result ≡ Err Fault.TooLong →
        ReadsPast (R.remaining reader.old) (R.remaining reader.new) }
    ensures faults { IfErr result (λ fault.
        (fault ≡ Fault.TooLong) ⊎ (fault ≡ Fault.Read) ⊎ (fault ≡ Fault.Memory)) }
{
    let mut input = Vec::new(alloc);
    let mut piece = [0; 4096];
    for _ in 0..READS {
        // room for one byte more than may come: the first one too many, and none after it
        let room = piece.len().min(LIMIT - input.len() + 1);
        match reader.read(&mut piece[..room]) {
            Ok(0) => return Ok(input),
            Ok(n) => {
                if n > LIMIT - input.len() {
                    return Err(Fault::TooLong);
                }
                input.extend_from_slice(&piece[..n])?;
            }
            Err(_) => return Err(Fault::Read),
        }
    }
    Err(Fault::Read)
}

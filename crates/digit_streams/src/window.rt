//! The bytes that were read of a reader and not yet used, in a buffer that is lent.

ghost use Rattle.std.specs.Prelude.{◌≡◌, ◌≢◌, true, false, [], ◌+◌, ◌^◌, ◌<◌, ◌≤◌, length, take, drop, IfOk, IfErr, MatchResult};
ghost use Rattle.std.specs.Io.KnownBytes.{Consumes, Keeps, IsAtEnd, prepend_known};
ghost use Rattle.digit_streams.specs.Windows.{unread};

use std::io::{ErrorKind, Read};

/// One read. It reads again after one that was interrupted; after `u64::MAX` of these it answers
/// `TimedOut`.
fn read_once<R: Read>(reader: &mut R, buffer: &mut [u8]) -> Result<usize, ErrorKind>
    ensures within { IfOk result (λ count. count ≤ length buffer.new) }
    ensures bytes { MatchResult result
        (λ count. Consumes (R.remaining reader.old) (R.remaining reader.new)
        (take count buffer.new))
        (λ error. Keeps (R.remaining reader.old) (R.remaining reader.new)) }
    ensures end { IfOk result (λ count. count ≡ 0 → 0 < length buffer.old →
        IsAtEnd (R.remaining reader.new)) }
    ensures retried { IfErr result (λ kind. kind ≢ ErrorKind.Interrupted) }
{
    for _ in 0..u64::MAX {
        match reader.read(buffer) {
            Ok(count) => return Ok(count),
            Err(error) => {
                let kind = error.kind();
                if kind != ErrorKind::Interrupted {
                    return Err(kind);
                }
            }
        }
    }
    Err(ErrorKind::TimedOut)
}

/// One read into the part of a buffer that begins at `to`.
fn read_after<R: Read>(reader: &mut R, buffer: &mut [u8], to: usize) -> Result<usize, ErrorKind>
    requires { to ≤ length buffer.old }
    ensures within { IfOk result (λ count. to + count ≤ length buffer.new) }
    ensures front { take to buffer.new ≡ take to buffer.old }
    ensures bytes { MatchResult result
        (λ count. Consumes (R.remaining reader.old) (R.remaining reader.new)
        (take count (drop to buffer.new)))
        (λ error. Keeps (R.remaining reader.old) (R.remaining reader.new)) }
    ensures end { IfOk result (λ count. count ≡ 0 → to < length buffer.old →
        IsAtEnd (R.remaining reader.new)) }
    ensures retried { IfErr result (λ kind. kind ≢ ErrorKind.Interrupted) }
{
    read_once(reader, &mut buffer[to..])
}

/// A buffer, whose part from `from` to `to` was read and not yet used. That part begins at a
/// position of the stream.
#[derive(Drop)]
pub struct Window<'b> {
    buffer: &'b mut [u8],
    from: usize,
    to: usize,
    position: u64,
}

impl<'b> Window<'b> {
    /// A buffer of which nothing was read, at a position of the stream.
    pub fn new(buffer: &'b mut [u8], position: u64) -> Window<'b>
        ensures unread { unread result ≡ [] }
        ensures position { result.position ≡ position }
        ensures capacity { length result.buffer.now ≡ length buffer.old }
    {
        Window {
            buffer,
            from: 0,
            to: 0,
            position,
        }
    }

    /// The bytes that were read and not yet used.
    pub fn unread(&self) -> &[u8]
        ensures { result.now ≡ unread self.now }
    {
        let buffer = &*self.buffer;
        let read = &buffer[..self.to.min(buffer.len())];
        &read[self.from.min(read.len())..]
    }

    /// The position of the first byte that was not yet used.
    pub fn position(&self) -> u64
        ensures { result ≡ self.now.position }
    {
        self.position
    }

    /// Uses `count` bytes, if the position after them is at most `u64::MAX`.
    pub fn pass(&mut self, count: usize) -> bool
        requires { count ≤ length (unread self.old) }
        ensures passed { result ≡ true → self.new.position ≡ self.old.position + count }
        ensures unread { result ≡ true → unread self.new ≡ drop count (unread self.old) }
        ensures none { result ≡ false → self.new ≡ self.old }
        ensures past { result ≡ false → 2 ^ 64 ≤ self.old.position + count }
        ensures capacity { length self.new.buffer.now ≡ length self.old.buffer.now }
    {
        match self.position.checked_add(count as u64) {
            Some(position) => {
                self.from += count;
                self.position = position;
                true
            }
            None => false,
        }
    }

    /// Whether each byte of the buffer was read and not yet used.
    pub fn is_full(&self) -> bool
        ensures room { result ≡ false → length (unread self.now) < length self.now.buffer.now }
        ensures full { result ≡ true → length self.now.buffer.now ≤ length (unread self.now) }
    {
        self.unread().len() >= self.buffer.len()
    }

    /// Moves the unread bytes to the front of the buffer.
    fn move_to_front(&mut self)
        ensures same { unread self.new ≡ unread self.old }
        ensures front { self.new.from ≡ 0 }
        ensures to { self.new.to ≡ length (unread self.old) }
        ensures room { length self.new.buffer.now ≡ length self.old.buffer.now }
        ensures position { self.new.position ≡ self.old.position }
    {
        let (from, to) = (self.from, self.to);
        let buffer = &mut *self.buffer;
        let to = to.min(buffer.len());
        let from = from.min(to);
        if from > 0 {
            buffer.copy_within(from..to, 0);
        }
        self.from = 0;
        self.to = to - from;
    }

    /// Reads once, after the unread bytes. Where none came although there was room, the reader is
    /// at its end.
    pub fn fill<R: Read>(&mut self, reader: &mut R) -> Result<usize, ErrorKind>
        ensures more { IfOk result (λ count.
            length (unread self.new) ≡ length (unread self.old) + count) }
        ensures text { Keeps (prepend_known (unread self.old) (R.remaining reader.old))
            (prepend_known (unread self.new) (R.remaining reader.new)) }
        ensures end { IfOk result (λ count. count ≡ 0 →
            length (unread self.old) < length self.old.buffer.now →
            IsAtEnd (R.remaining reader.new)) }
        ensures none { IfErr result (λ kind. unread self.new ≡ unread self.old) }
        ensures retried { IfErr result (λ kind. kind ≢ ErrorKind.Interrupted) }
        ensures position { self.new.position ≡ self.old.position }
        ensures capacity { length self.new.buffer.now ≡ length self.old.buffer.now }
    {
        self.move_to_front();
        let to = self.to;
        let count = read_after(reader, self.buffer, to)?;
        self.to = to + count;
        Ok(count)
    }
}

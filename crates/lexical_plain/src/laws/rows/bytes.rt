//! The calls on a `Bytes`.

ghost use Rattle.std.specs.Prelude.{◌≡◌, ◌+◌, ◌≤◌, length};
ghost use Rattle.lexical_digits.specs.CallTable.{OnBytes};
ghost use Rattle.lexical_digits.specs.declared.ops.Answer.TheVariants.{Span, Count, Flag, Done, Byte, Four, Eight};
ghost use Rattle.lexical_digits.specs.declared.ops.Op.TheVariants as call;
ghost use Rattle.lexical_plain.specs.Plain.{rest, Makes, Answers};

use crate::noskip::Bytes;
use lexical_digits::iterator::{Iter, IterBodies};

/// The row of `as_slice`.
pub fn as_slice<'a>(bytes: &Bytes<'a>) -> &'a [u8]
    ensures row { let s = bytes.now.state in
        Answers OnBytes call.AsSlice s (Span s.cursor (s.cursor + length result.now)) }
    ensures bytes { result.now ≡ rest bytes.now.state }
{
    bytes.as_slice()
}

/// The row of `get_buffer`.
pub fn get_buffer<'a>(bytes: &Bytes<'a>) -> &'a [u8]
    ensures row { Answers OnBytes call.GetBuffer bytes.now.state (Span 0 (length result.now)) }
    ensures bytes { result.now ≡ bytes.now.state.buffer }
{
    bytes.get_buffer()
}

/// The row of `buffer_length`.
pub fn buffer_length(bytes: &Bytes) -> usize
    ensures { Answers OnBytes call.BufferLength bytes.now.state (Count result) }
{
    bytes.buffer_length()
}

/// The row of `is_buffer_empty`.
pub fn is_buffer_empty(bytes: &Bytes) -> bool
    ensures { Answers OnBytes call.IsBufferEmpty bytes.now.state (Flag result) }
{
    bytes.is_buffer_empty()
}

/// The row of `cursor`.
pub fn cursor(bytes: &Bytes) -> usize
    ensures { Answers OnBytes call.Cursor bytes.now.state (Count result) }
{
    bytes.cursor()
}

/// The row of `current_count`.
pub fn current_count(bytes: &Bytes) -> usize
    ensures { Answers OnBytes call.CurrentCount bytes.now.state (Count result) }
{
    bytes.current_count()
}

/// The row of `is_contiguous`.
pub fn is_contiguous(bytes: &Bytes) -> bool
    ensures { Answers OnBytes call.IsContiguous bytes.now.state (Flag result) }
{
    bytes.is_contiguous()
}

/// The row of `first`.
pub fn first(bytes: &Bytes) -> Option<u8>
    ensures { Answers OnBytes call.First bytes.now.state (Byte result) }
{
    bytes.first().copied()
}

/// The row of `first_is_cased`.
pub fn first_is_cased(bytes: &Bytes, value: u8) -> bool
    ensures { Answers OnBytes (call.FirstIsCased value) bytes.now.state (Flag result) }
{
    bytes.first_is_cased(value)
}

/// The row of `first_is_uncased`.
pub fn first_is_uncased(bytes: &Bytes, value: u8) -> bool
    ensures { Answers OnBytes (call.FirstIsUncased value) bytes.now.state (Flag result) }
{
    bytes.first_is_uncased(value)
}

/// The row of `first_is`.
pub fn first_is(bytes: &Bytes, value: u8, is_cased: bool) -> bool
    ensures { Answers OnBytes (call.FirstIs value is_cased) bytes.now.state (Flag result) }
{
    bytes.first_is(value, is_cased)
}

/// The row of `peek_u32`.
pub fn peek_u32(bytes: &Bytes) -> Option<u32>
    ensures { Answers OnBytes call.PeekU32 bytes.now.state (Four result) }
{
    bytes.peek_u32()
}

/// The row of `peek_u64`.
pub fn peek_u64(bytes: &Bytes) -> Option<u64>
    ensures { Answers OnBytes call.PeekU64 bytes.now.state (Eight result) }
{
    bytes.peek_u64()
}

/// The row of `set_cursor`. Requires that `index` is at most the length of the buffer.
pub fn set_cursor(bytes: &mut Bytes, index: usize)
    requires { index ≤ length bytes.old.state.buffer }
    ensures { Makes OnBytes (call.SetCursor index) bytes.old.state bytes.new.state Done }
{
    bytes.set_cursor(index);
}

/// The row of `step_by_unchecked`. Requires that `count` bytes are left.
pub fn step_by_unchecked(bytes: &mut Bytes, count: usize)
    requires { bytes.old.state.cursor + count ≤ length bytes.old.state.buffer }
    ensures { Makes OnBytes (call.StepBy count) bytes.old.state bytes.new.state Done }
{
    bytes.step_by_unchecked(count);
}

/// The row of `step_unchecked`. Requires that a byte is left.
pub fn step_unchecked(bytes: &mut Bytes)
    requires { bytes.old.state.cursor + 1 ≤ length bytes.old.state.buffer }
    ensures { Makes OnBytes call.Step bytes.old.state bytes.new.state Done }
{
    bytes.step_unchecked();
}

//! The calls on the iterator of any component.

ghost use Rattle.std.specs.Prelude.{◌≡◌, ◌+◌, ◌≤◌, length};
ghost use Rattle.lexical_digits.specs.declared.ops.Answer.TheVariants.{Span, Count, Flag, Done, Byte, Four, Eight, View};
ghost use Rattle.lexical_digits.specs.declared.ops.Op.TheVariants as call;
ghost use Rattle.lexical_plain.specs.Plain.{rest, MakesOnDigits, AnswersOnDigits};

use crate::noskip::{Bytes, DigitsIterator};
use lexical_digits::iterator::{DigitsBodies, DigitsIter, Iter, IterBodies};
use lexical_digits::ops::ByteSet;

// ---- the calls that a `Bytes` has too

/// The row of `as_slice`.
pub fn as_slice<'a, 'b>(iter: &DigitsIterator<'a, 'b>) -> &'a [u8]
    ensures row { let s = iter.now.byte.now.state in
        AnswersOnDigits call.AsSlice s (Span s.cursor (s.cursor + length result.now)) }
    ensures bytes { result.now ≡ rest iter.now.byte.now.state }
{
    iter.as_slice()
}

/// The row of `get_buffer`.
pub fn get_buffer<'a, 'b>(iter: &DigitsIterator<'a, 'b>) -> &'a [u8]
    ensures row { let answer = Span 0 (length result.now) in
        AnswersOnDigits call.GetBuffer iter.now.byte.now.state answer }
    ensures bytes { result.now ≡ iter.now.byte.now.state.buffer }
{
    iter.get_buffer()
}

/// The row of `buffer_length`.
pub fn buffer_length(iter: &DigitsIterator) -> usize
    ensures { AnswersOnDigits call.BufferLength iter.now.byte.now.state (Count result) }
{
    iter.buffer_length()
}

/// The row of `is_buffer_empty`.
pub fn is_buffer_empty(iter: &DigitsIterator) -> bool
    ensures { AnswersOnDigits call.IsBufferEmpty iter.now.byte.now.state (Flag result) }
{
    iter.is_buffer_empty()
}

/// The row of `cursor`.
pub fn cursor(iter: &DigitsIterator) -> usize
    ensures { AnswersOnDigits call.Cursor iter.now.byte.now.state (Count result) }
{
    iter.cursor()
}

/// The row of `current_count`.
pub fn current_count(iter: &DigitsIterator) -> usize
    ensures { AnswersOnDigits call.CurrentCount iter.now.byte.now.state (Count result) }
{
    iter.current_count()
}

/// The row of `is_contiguous`.
pub fn is_contiguous(iter: &DigitsIterator) -> bool
    ensures { AnswersOnDigits call.IsContiguous iter.now.byte.now.state (Flag result) }
{
    iter.is_contiguous()
}

/// The row of `first`.
pub fn first(iter: &DigitsIterator) -> Option<u8>
    ensures { AnswersOnDigits call.First iter.now.byte.now.state (Byte result) }
{
    iter.first().copied()
}

/// The row of `first_is_cased`.
pub fn first_is_cased(iter: &DigitsIterator, value: u8) -> bool
    ensures { AnswersOnDigits (call.FirstIsCased value) iter.now.byte.now.state (Flag result) }
{
    iter.first_is_cased(value)
}

/// The row of `first_is_uncased`.
pub fn first_is_uncased(iter: &DigitsIterator, value: u8) -> bool
    ensures { AnswersOnDigits (call.FirstIsUncased value) iter.now.byte.now.state (Flag result) }
{
    iter.first_is_uncased(value)
}

/// The row of `first_is`.
pub fn first_is(iter: &DigitsIterator, value: u8, is_cased: bool) -> bool
    ensures { AnswersOnDigits (call.FirstIs value is_cased) iter.now.byte.now.state (Flag result) }
{
    iter.first_is(value, is_cased)
}

/// The row of `peek_u32`.
pub fn peek_u32(iter: &DigitsIterator) -> Option<u32>
    ensures { AnswersOnDigits call.PeekU32 iter.now.byte.now.state (Four result) }
{
    iter.peek_u32()
}

/// The row of `peek_u64`.
pub fn peek_u64(iter: &DigitsIterator) -> Option<u64>
    ensures { AnswersOnDigits call.PeekU64 iter.now.byte.now.state (Eight result) }
{
    iter.peek_u64()
}

/// The row of `set_cursor`. Requires that `index` is at most the length of the buffer.
pub fn set_cursor(iter: &mut DigitsIterator, index: usize)
    requires { index ≤ length iter.old.byte.now.state.buffer }
    ensures { let s = iter.old.byte.now.state in let t = iter.new.byte.now.state in
        MakesOnDigits (call.SetCursor index) s t Done }
{
    iter.set_cursor(index);
}

/// The row of `step_by_unchecked`. Requires that `count` bytes are left.
pub fn step_by_unchecked(iter: &mut DigitsIterator, count: usize)
    requires { let s = iter.old.byte.now.state in s.cursor + count ≤ length s.buffer }
    ensures { let s = iter.old.byte.now.state in let t = iter.new.byte.now.state in
        MakesOnDigits (call.StepBy count) s t Done }
{
    iter.step_by_unchecked(count);
}

/// The row of `step_unchecked`. Requires that a byte is left.
pub fn step_unchecked(iter: &mut DigitsIterator)
    requires { let s = iter.old.byte.now.state in s.cursor + 1 ≤ length s.buffer }
    ensures { let s = iter.old.byte.now.state in let t = iter.new.byte.now.state in
        MakesOnDigits call.Step s t Done }
{
    iter.step_unchecked();
}

// ---- the calls that only the iterators have

/// The row of `is_consumed`.
pub fn is_consumed(iter: &mut DigitsIterator) -> bool
    ensures { let s = iter.old.byte.now.state in let t = iter.new.byte.now.state in
        MakesOnDigits call.IsConsumed s t (Flag result) }
{
    iter.is_consumed()
}

/// The row of `increment_count`.
pub fn increment_count(iter: &mut DigitsIterator)
    ensures { let s = iter.old.byte.now.state in let t = iter.new.byte.now.state in
        MakesOnDigits call.IncrementCount s t Done }
{
    iter.increment_count();
}

/// The row of `peek`.
pub fn peek(iter: &mut DigitsIterator) -> Option<u8>
    ensures { let s = iter.old.byte.now.state in let t = iter.new.byte.now.state in
        MakesOnDigits call.Peek s t (Byte result) }
{
    iter.peek().copied()
}

/// The row of `try_read`.
pub fn try_read(iter: &mut DigitsIterator) -> Option<u8>
    ensures { let s = iter.old.byte.now.state in let t = iter.new.byte.now.state in
        MakesOnDigits call.TryRead s t (Byte result) }
{
    iter.try_read().copied()
}

/// The row of `next`.
pub fn next(iter: &mut DigitsIterator) -> Option<u8>
    ensures { let s = iter.old.byte.now.state in let t = iter.new.byte.now.state in
        MakesOnDigits call.Next s t (Byte result) }
{
    iter.next().copied()
}

/// The row of `peek_is_cased`.
pub fn peek_is_cased(iter: &mut DigitsIterator, value: u8) -> bool
    ensures { let s = iter.old.byte.now.state in let t = iter.new.byte.now.state in
        MakesOnDigits (call.PeekIsCased value) s t (Flag result) }
{
    iter.peek_is_cased(value)
}

/// The row of `peek_is_uncased`.
pub fn peek_is_uncased(iter: &mut DigitsIterator, value: u8) -> bool
    ensures { let s = iter.old.byte.now.state in let t = iter.new.byte.now.state in
        MakesOnDigits (call.PeekIsUncased value) s t (Flag result) }
{
    iter.peek_is_uncased(value)
}

/// The row of `peek_is`.
pub fn peek_is(iter: &mut DigitsIterator, value: u8, is_cased: bool) -> bool
    ensures { let s = iter.old.byte.now.state in let t = iter.new.byte.now.state in
        MakesOnDigits (call.PeekIs value is_cased) s t (Flag result) }
{
    iter.peek_is(value, is_cased)
}

/// The row of `read_if` with the test whether the byte is `value`.
pub fn read_if_equal(iter: &mut DigitsIterator, value: u8) -> Option<u8>
    ensures { let s = iter.old.byte.now.state in let t = iter.new.byte.now.state in
        MakesOnDigits (call.ReadIfEqual value) s t (Byte result) }
{
    iter.read_if(|byte| byte == value)
}

/// The row of `read_if` with a test that answers `false`.
pub fn read_if_never(iter: &mut DigitsIterator) -> Option<u8>
    ensures { let s = iter.old.byte.now.state in let t = iter.new.byte.now.state in
        MakesOnDigits call.ReadIfNever s t (Byte result) }
{
    iter.read_if(|_| false)
}

/// The row of `read_if` with the test whether the byte is in a set.
pub fn read_if_in(iter: &mut DigitsIterator, set: ByteSet) -> Option<u8>
    ensures { let s = iter.old.byte.now.state in let t = iter.new.byte.now.state in
        MakesOnDigits (call.ReadIf set) s t (Byte result) }
{
    iter.read_if(|byte| set.accepts(byte))
}

/// The row of `read_if_value_cased`.
pub fn read_if_value_cased(iter: &mut DigitsIterator, value: u8) -> Option<u8>
    ensures { let s = iter.old.byte.now.state in let t = iter.new.byte.now.state in
        MakesOnDigits (call.ReadIfValueCased value) s t (Byte result) }
{
    iter.read_if_value_cased(value)
}

/// The row of `read_if_value_uncased`.
pub fn read_if_value_uncased(iter: &mut DigitsIterator, value: u8) -> Option<u8>
    ensures { let s = iter.old.byte.now.state in let t = iter.new.byte.now.state in
        MakesOnDigits (call.ReadIfValueUncased value) s t (Byte result) }
{
    iter.read_if_value_uncased(value)
}

/// The row of `read_if_value`.
pub fn read_if_value(iter: &mut DigitsIterator, value: u8, is_cased: bool) -> Option<u8>
    ensures { let s = iter.old.byte.now.state in let t = iter.new.byte.now.state in
        MakesOnDigits (call.ReadIfValue value is_cased) s t (Byte result) }
{
    iter.read_if_value(value, is_cased)
}

/// The row of `skip_zeros`.
#[tactic(auto, using(crate::proofs::ItemsAndZeros::first))]
pub fn skip_zeros(iter: &mut DigitsIterator) -> usize
    ensures { let s = iter.old.byte.now.state in let t = iter.new.byte.now.state in
        MakesOnDigits call.SkipZeros s t (Count result) }
{
    iter.skip_zeros()
}

/// The row of `is_digit`.
pub fn is_digit(iter: &DigitsIterator, value: u8) -> bool
    ensures { AnswersOnDigits (call.IsDigit value) iter.now.byte.now.state (Flag result) }
{
    iter.is_digit(value)
}

/// The row of `take_n`. The answer is the view's length and cursor.
pub fn take_n(iter: &mut DigitsIterator, n: usize) -> Option<(usize, usize)>
    ensures { let s = iter.old.byte.now.state in let t = iter.new.byte.now.state in
        MakesOnDigits (call.TakeN n) s t (View result) }
{
    let view = iter.take_n(n)?;
    Some((view.buffer_length(), view.cursor()))
}

// ---- what an iterator leaves in its `Bytes`

/// The row of `next`, on an iterator that then ends: the `Bytes` holds the cursor that the iterator
/// reached.
pub fn next_and_end(bytes: &mut Bytes) -> Option<u8>
    ensures { MakesOnDigits call.Next bytes.old.state bytes.new.state (Byte result) }
{
    DigitsIterator { byte: bytes }.next().copied()
}

//! One call, on the part that it names.
//!
//! The calls that every part has and that change nothing are made by `ask`, those of any iterator
//! by `read`. What a component has beyond its traits is made on the iterator of that component.

ghost use Rattle.std.specs.Prelude.{◌≡◌, ◌*◌, ◌≤◌, pos, ◌≤ℤ◌, ◌+ℤ◌, length, true, false, slice_get, option_map, ◌+◌};
ghost use Rattle.lexical_format.specs.Word.{separator};
ghost use Rattle.lexical_digits.specs.declared.skip.component.Component.{Component};
ghost use Rattle.lexical_digits.specs.Separators.{is_separator};
ghost use Rattle.lexical_digits.specs.State.{State, with_cursor};
ghost use Rattle.lexical_digits.specs.Cursor.{CanStep, can_step, holds_of};
ghost use Rattle.lexical_digits.specs.CallTable as table;
ghost use Rattle.lexical_digits.specs.CallTable.{shared_row, row_of, first, view_answer, zeros_of, past_zeros_of};
ghost use Rattle.lexical_digits.specs.Looks.{owed};
ghost use Rattle.digit_script.specs.Script.{part_of, Shows, IsOn, asks, goes_by_part, Obeys, Makes};

use super::{Answer, Call, Op, Part};
use lexical_digits::iterator::{DigitsBodies, DigitsIter, Iter, IterBodies};
use lexical_digits::on_iterator;
use lexical_digits::skip::{
    Bytes, Component, ExponentDigitsIterator, FractionDigitsIterator, IntegerDigitsIterator,
    SpecialDigitsIterator,
};

/// Makes a call that every part has and that changes nothing. Refuses any other call.
fn ask<'a, I: Iter<'a>>(iter: &I, op: Op) -> Answer
    ensures asked { let m = I.meaning iter.now in (part : table.Part) (s : State) →
        Shows part s (I.buffer m) (I.cursor m) (I.current_count m) (I.contiguous m) →
        asks op ≡ true → result ≡ (shared_row part op s).answer }
    ensures refused { asks op ≡ false → result ≡ Answer.Refused }
{
    match op {
        Op::AsSlice => {
            let from = iter.cursor();
            let length = iter.buffer_length();
            prove!(from <= length);
            Answer::Span(from, from + iter.as_slice().len())
        }
        Op::GetBuffer => Answer::Span(0, iter.get_buffer().len()),
        Op::BufferLength => Answer::Count(iter.buffer_length()),
        Op::Cursor => Answer::Count(iter.cursor()),
        Op::CurrentCount => Answer::Count(iter.current_count()),
        Op::IsBufferEmpty => Answer::Flag(iter.is_buffer_empty()),
        Op::IsContiguous => Answer::Flag(iter.is_contiguous()),
        Op::First => Answer::Byte(iter.first().copied()),
        Op::FirstIsCased(value) => Answer::Flag(iter.first_is_cased(value)),
        Op::FirstIsUncased(value) => Answer::Flag(iter.first_is_uncased(value)),
        Op::FirstIs(value, is_cased) => Answer::Flag(iter.first_is(value, is_cased)),
        Op::PeekU32 => Answer::Four(iter.peek_u32()),
        Op::PeekU64 => Answer::Eight(iter.peek_u64()),
        _ => Answer::Refused,
    }
}

/// Whether the byte at the cursor is a separator.
fn is_at_separator(bytes: &mut Bytes) -> bool
    ensures value { let s = bytes.old.state in
        result ≡ holds_of (is_separator (separator s.word)) (first s) }
    ensures same { bytes.new ≡ bytes.old }
{
    let iter = IntegerDigitsIterator { byte: bytes };
    match iter.first() {
        Some(byte) => iter.is_digit_separator(*byte),
        None => false,
    }
}

/// Whether a step by `count` bytes is allowed. `at_separator` says whether the byte at the cursor
/// is a separator.
fn may_step<'a, I: Iter<'a>>(iter: &I, count: usize, at_separator: bool) -> bool
    requires { let m = I.meaning iter.now in
        at_separator ≡ holds_of (I.separates m) (slice_get (I.buffer m) (I.cursor m)) }
    ensures value { let m = I.meaning iter.now in
        result ≡ can_step (I.buffer m) (I.cursor m) (I.contiguous m) (I.separates m) count }
    ensures can { let m = I.meaning iter.now in result ≡ true →
        CanStep (I.buffer m) (I.cursor m) (I.contiguous m) (I.separates m) count }
{
    if count > iter.as_slice().len() {
        return false;
    }
    iter.is_contiguous() || count == 0 || (count == 1 && !at_separator)
}

/// Makes a call on a `Bytes` itself.
fn on_bytes(bytes: &mut Bytes, op: Op) -> Answer
    ensures { Makes table.OnBytes op bytes.old bytes.new result }
{
    let at_separator = is_at_separator(bytes);
    match op {
        Op::SetCursor(index) if index <= bytes.buffer_length() => {
            bytes.set_cursor(index);
            Answer::Done
        }
        Op::StepBy(count) if may_step(bytes, count, at_separator) => {
            bytes.step_by_unchecked(count);
            Answer::Done
        }
        Op::Step if may_step(bytes, 1, at_separator) => {
            bytes.step_unchecked();
            Answer::Done
        }
        Op::SetCursor(_) | Op::StepBy(_) | Op::Step => Answer::Refused,
        _ => ask(bytes, op),
    }
}

/// Makes a call that every iterator has by its traits. `at_separator` says whether the byte at the
/// cursor is a separator.
fn read<'a, I: DigitsIter<'a>>(iter: &mut I, op: Op, at_separator: bool) -> Answer
    requires at_separator { let m = I.meaning iter.old in
        at_separator ≡ holds_of (I.separates m) (slice_get (I.buffer m) (I.cursor m)) }
    requires by_traits { goes_by_part op ≡ false }
    ensures makes { let m = I.meaning iter.old in (k : Component) (state : I.Meaning → State) →
        IsOn k state I.buffer I.cursor I.current_count I.contiguous I.separates I.moved
        I.place I.digit I.settled I.counted I.taken m →
        Obeys (table.On k) op (state m) (state (I.meaning iter.new))
        (I.owed iter.old) (I.owed iter.new) result }
    ensures keeps_loan { I.loan iter.new ≡ I.loan iter.old }
{
    match op {
        Op::StepBy(count) if may_step(iter, count, at_separator) => {
            iter.step_by_unchecked(count);
            Answer::Done
        }
        Op::Step if may_step(iter, 1, at_separator) => {
            iter.step_unchecked();
            Answer::Done
        }
        Op::StepBy(_) | Op::Step => Answer::Refused,
        Op::IsConsumed => Answer::Flag(iter.is_consumed()),
        Op::IncrementCount => {
            iter.increment_count();
            Answer::Done
        }
        Op::Peek => Answer::Byte(iter.peek().copied()),
        Op::TryRead => Answer::Byte(iter.try_read().copied()),
        Op::Next => Answer::Byte(iter.next().copied()),
        Op::PeekIsCased(value) => Answer::Flag(iter.peek_is_cased(value)),
        Op::PeekIsUncased(value) => Answer::Flag(iter.peek_is_uncased(value)),
        Op::PeekIs(value, is_cased) => Answer::Flag(iter.peek_is(value, is_cased)),
        Op::ReadIfEqual(value) => Answer::Byte(iter.read_if(|byte| byte == value)),
        Op::ReadIfNever => Answer::Byte(iter.read_if(|_| false)),
        Op::ReadIf(set) => Answer::Byte(iter.read_if(|byte| set.accepts(byte))),
        Op::ReadIfValueCased(value) => Answer::Byte(iter.read_if_value_cased(value)),
        Op::ReadIfValueUncased(value) => Answer::Byte(iter.read_if_value_uncased(value)),
        Op::ReadIfValue(value, is_cased) => Answer::Byte(iter.read_if_value(value, is_cased)),
        Op::IsDigit(value) => Answer::Flag(iter.is_digit(value)),
        _ => ask(iter, op),
    }
}

/// Makes a call that every iterator has by its traits on the iterator of a component. It is inlined
/// for speed: a caller that names the component needs no branch on it.
#[inline(always)]
fn read_on(bytes: &mut Bytes, component: Component, op: Op) -> Answer
    requires { goes_by_part op ≡ false }
    ensures { Makes (table.On component) op bytes.old bytes.new result }
{
    let at_separator = is_at_separator(bytes);
    match component {
        Component::Integer => read(&mut IntegerDigitsIterator { byte: bytes }, op, at_separator),
        Component::Fraction => read(
            &mut FractionDigitsIterator { byte: bytes },
            op,
            at_separator,
        ),
        Component::Exponent => read(
            &mut ExponentDigitsIterator { byte: bytes },
            op,
            at_separator,
        ),
        Component::Special => read(&mut SpecialDigitsIterator { byte: bytes }, op, at_separator),
    }
}

/// Moves the cursor by `set_cursor` of the iterator of a component.
fn move_to(bytes: &mut Bytes, component: Component, index: usize)
    requires { index ≤ length bytes.old.state.buffer }
    ensures moves { bytes.new.state ≡ with_cursor bytes.old.state index }
    ensures owes { bytes.old.state.cursor ≤ index → owed bytes.new ≤ℤ owed bytes.old }
    ensures owes_back { let n = length bytes.old.state.buffer in
        owed bytes.new ≤ℤ (owed bytes.old +ℤ pos (3 * n)) }
{
    on_iterator!(bytes, component, iter => iter.set_cursor(index))
}

/// Sets the cursor by the iterator of a component. Refuses a position after the end.
fn set_cursor(bytes: &mut Bytes, component: Component, index: usize) -> Answer
    ensures { Makes (table.On component) (Op.SetCursor index) bytes.old bytes.new result }
{
    if index > bytes.buffer_length() {
        return Answer::Refused;
    }
    move_to(bytes, component, index);
    Answer::Done
}

/// Reads and counts leading zeros by the iterator of a component, and answers how many there were.
#[tactic(auto, using(crate::proofs::Scripts::leading_zeros))]
fn pass_zeros(bytes: &mut Bytes, component: Component) -> usize
    ensures zeros { result ≡ zeros_of component bytes.old.state }
    ensures state { bytes.new.state ≡ past_zeros_of component bytes.old.state }
    ensures owes { owed bytes.new ≤ℤ (owed bytes.old +ℤ pos (4 * (result + 1))) }
{
    on_iterator!(bytes, component, iter => iter.skip_zeros())
}

/// Asks the iterator of a component whether a byte is a sign.
fn is_sign(bytes: &mut Bytes, component: Component, value: u8) -> Answer
    ensures { Makes (table.On component) (Op.IsSign value) bytes.old bytes.new result }
{
    on_iterator!(bytes, component, iter => Answer::Flag(iter.is_sign(value)))
}

/// Asks the iterator of a component whether a byte is a separator.
fn is_digit_separator(bytes: &mut Bytes, component: Component, value: u8) -> Answer
    ensures { Makes (table.On component) (Op.IsDigitSeparator value) bytes.old bytes.new result }
{
    on_iterator!(bytes, component, iter => Answer::Flag(iter.is_digit_separator(value)))
}

/// The length and the cursor of a view.
fn answer_view(view: Option<Bytes>) -> Answer
    ensures { result ≡ Answer.View (view_answer (option_map (λ v. v.state) view.entry)) }
{
    match view {
        Some(view) => Answer::View(Some((view.buffer_length(), view.cursor()))),
        None => Answer::View(None),
    }
}

/// Takes a view from the iterator of a component. The special iterator gives none.
fn take_n(bytes: &mut Bytes, component: Component, n: usize) -> Answer
    ensures answers { let row = row_of (table.On component) (Op.TakeN n) bytes.old.state in
        result ≡ row.answer }
    ensures state { let row = row_of (table.On component) (Op.TakeN n) bytes.old.state in
        bytes.new.state ≡ row.state }
    ensures owes { owed bytes.new ≤ℤ owed bytes.old }
{
    match component {
        Component::Integer => answer_view(IntegerDigitsIterator { byte: bytes }.take_n(n)),
        Component::Fraction => answer_view(FractionDigitsIterator { byte: bytes }.take_n(n)),
        Component::Exponent => answer_view(ExponentDigitsIterator { byte: bytes }.take_n(n)),
        Component::Special => Answer::Refused,
    }
}

/// Makes a call on the iterator of a component. It is inlined for speed: a caller that names the
/// component needs no branch on it in [`read_on`].
#[inline(always)]
fn on_component(bytes: &mut Bytes, component: Component, op: Op) -> Answer
    ensures { Makes (table.On component) op bytes.old bytes.new result }
{
    match op {
        Op::SetCursor(index) => set_cursor(bytes, component, index),
        Op::SkipZeros => Answer::Count(pass_zeros(bytes, component)),
        Op::IsSign(value) => is_sign(bytes, component, value),
        Op::IsDigitSeparator(value) => is_digit_separator(bytes, component, value),
        Op::TakeN(n) => take_n(bytes, component, n),
        _ => read_on(bytes, component, op),
    }
}

/// Makes a call on the part that it names.
pub fn make(bytes: &mut Bytes, call: Call) -> Answer
    ensures { Makes (part_of call.part) call.op bytes.old bytes.new result }
{
    match call.part {
        Part::Bytes => on_bytes(bytes, call.op),
        Part::Integer => on_component(bytes, Component::Integer, call.op),
        Part::Fraction => on_component(bytes, Component::Fraction, call.op),
        Part::Exponent => on_component(bytes, Component::Exponent, call.op),
        Part::Special => on_component(bytes, Component::Special, call.op),
    }
}

//! The digits, or the zeros, of one component of a number, read or passed over a `Bytes`. The next
//! call goes on from the cursor.

ghost use Rattle.std.specs.Prelude.{◌≡◌, ◌+◌, ◌*◌, ◌-◌, ◌^◌, ◌≤◌, min, false, None, length, pos, ◌≤ℤ◌, ◌+ℤ◌, IfSome, IfOk, IfErr, OnOk};
ghost use Rattle.lexical_digits.specs.State.{rule, own};
ghost use Rattle.lexical_digits.specs.CallTable.{zeros_of, past_zeros_of};
ghost use Rattle.lexical_digits.specs.Looks.{owed, needs_run};
ghost use Rattle.lexical_digits.specs.Stop.{leading_digits_of, past_digits_of};
ghost use Rattle.digit_values.specs.After.{past_digits_to, digits_read, IsDigits, IsReadTo, ExceedsAt, PassesAt};
ghost use Rattle.digit_values.specs.Reads.{ReadsOn};

use super::reading::{Digits, TooLarge};
use super::slice::{first_digit, read_bytes, read_slice};
use super::zeros::{pass_zeros_bytes, read_zeros};
use lexical_digits::iterator::Iter;
use lexical_digits::skip::{Bytes, Component};

/// Passes the digits of a component that lead from the cursor on, and answers how many there are.
/// The cursor is then at the stop: the first byte that the component keeps and that is no digit, or
/// else the end. By the law [`digits_end`](lexical_digits::stop::digits_end) the digits that lead
/// are those of the buffer between the cursor and the stop.
#[inline(always)]
pub fn pass_digits(bytes: &mut Bytes, component: Component) -> usize
    ensures digits { result ≡ length (leading_digits_of component bytes.old.state) }
    ensures within_buffer { result ≤ length bytes.old.state.buffer }
    ensures within { bytes.old.state.cursor + result ≤ bytes.new.state.cursor }
    ensures state { bytes.new.state ≡ past_digits_of component bytes.old.state }
    ensures remembers { needs_run component bytes.new ≡ false }
    ensures owes { owed bytes.new ≤ℤ (owed bytes.old +ℤ pos (8 * result + 4)) }
    ensures at_least { min (bytes.old.looks + 2 * result) (2 ^ 64 - 1) ≤ bytes.new.looks }
{
    // no digit is too large where no value is asked for
    read_leading(bytes, component, 0, None).unwrap().count
}

/// Reads the digits of a component that lead from the cursor on, after the digits of a value:
/// answers the value of all of them, and how many digits were read. They are passed and counted as
/// by [`pass_digits`]. A mantissa takes two calls: one for the integer after 0, and one for the
/// fraction after the integer's value.
///
/// No digit is no error, since many formats allow `1.` and `.5`: the value is then `before`, and
/// the count is 0. [`TooLarge`] holds the position of the first digit with which the value is above
/// `u64::MAX`: the digits before it were passed, and the cursor is on it. Their value and number
/// are in the error too.
///
/// ```text
/// `12_5` with internal `_`, after 4: Ok(Digits { value: 4125, count: 3 })
/// ```
#[inline(always)]
#[tactic(auto, using(crate::proofs::States::by_state))]
pub fn read_digits_of(
    bytes: &mut Bytes,
    component: Component,
    before: u64,
) -> Result<Digits, TooLarge>
    ensures ok { IfOk result (IsDigits component bytes.old.state before) }
    ensures passed { OnOk result (bytes.new.state ≡ past_digits_of component bytes.old.state) }
    ensures too_large { let s = bytes.old.state in
        IfErr result (λ error.
        PassesAt (rule component s) s.buffer s.cursor (own component s) before error.at) }
    ensures so_far { IfErr result (IsReadTo component bytes.old.state before) }
    ensures stays { let s = bytes.old.state in
        IfErr result (λ error. bytes.new.state ≡ past_digits_to component s error.at) }
    ensures remembers { needs_run component bytes.new ≡ false }
    ensures few { digits_read result ≤ length (leading_digits_of component bytes.old.state) }
    ensures within_buffer { digits_read result ≤ length bytes.old.state.buffer }
    ensures within { bytes.old.state.cursor + digits_read result ≤ bytes.new.state.cursor }
    ensures owes { owed bytes.new ≤ℤ (owed bytes.old +ℤ pos (8 * digits_read result + 4)) }
    ensures at_least { let digits = digits_read result in
        min (bytes.old.looks + 2 * digits) (2 ^ 64 - 1) ≤ bytes.new.looks }
{
    read_digits_up_to(bytes, component, before, u64::MAX)
}

/// [`read_digits_of`] up to a greatest value: [`TooLarge`] holds the position of the first digit
/// with which the value is above `most`. Requires that `before` is at most `most`.
///
/// ```text
/// `98_76` with internal `_`, after 0, up to 99: Err(TooLarge { at: 3, value: 98, count: 2 })
/// ```
#[inline(always)]
pub fn read_digits_up_to(
    bytes: &mut Bytes,
    component: Component,
    before: u64,
    most: u64,
) -> Result<Digits, TooLarge>
    requires { before ≤ most }
    ensures ok { IfOk result (IsDigits component bytes.old.state before) }
    ensures fits { IfOk result (λ read. read.value ≤ most) }
    ensures passed { OnOk result (bytes.new.state ≡ past_digits_of component bytes.old.state) }
    ensures too_large { let s = bytes.old.state in
        IfErr result (λ error.
        ExceedsAt (rule component s) s.buffer s.cursor (own component s) before most error.at) }
    ensures so_far { IfErr result (IsReadTo component bytes.old.state before) }
    ensures stays { let s = bytes.old.state in
        IfErr result (λ error. bytes.new.state ≡ past_digits_to component s error.at) }
    ensures remembers { needs_run component bytes.new ≡ false }
    ensures few { digits_read result ≤ length (leading_digits_of component bytes.old.state) }
    ensures within_buffer { digits_read result ≤ length bytes.old.state.buffer }
    ensures within { bytes.old.state.cursor + digits_read result ≤ bytes.new.state.cursor }
    ensures owes { owed bytes.new ≤ℤ (owed bytes.old +ℤ pos (8 * digits_read result + 4)) }
    ensures at_least { let digits = digits_read result in
        min (bytes.old.looks + 2 * digits) (2 ^ 64 - 1) ≤ bytes.new.looks }
{
    read_leading(bytes, component, before, Some(most))
}

/// Reads the digits of a component that lead from the cursor on, after the value `before`, and
/// passes them. [`TooLarge`] is answered only if `most` is given, and otherwise the value means
/// nothing.
#[inline(always)]
fn read_leading(
    bytes: &mut Bytes,
    component: Component,
    before: u64,
    most: Option<u64>,
) -> Result<Digits, TooLarge>
    requires { IfSome most (λ greatest. before ≤ greatest) }
    ensures { ReadsOn component before most bytes.old bytes.new result }
{
    let rule = bytes.rule(component);
    let text = bytes.get_buffer();
    let at = bytes.cursor();
    let first = most.and_then(|most| first_digit(text, rule, at, before, u128::from(most)));
    if let Some(read) = read_slice(text, rule, at, before, first, most) {
        bytes.pass_read(component, read.end, read.count);
        return read.outcome();
    }
    // on a copy, so that `bytes` may stay in registers
    let mut copy = bytes.clone().unwrap();
    let read = read_bytes(&mut copy, component, before, most);
    bytes.go_on_from(copy);
    read.outcome()
}

/// Passes the bytes `0` of a component that lead from the cursor on, and answers how many there
/// are. Each is counted, also where `next` counts none; special has no count. The cursor is then at
/// the next byte that the component keeps, or else at the end.
#[inline(always)]
pub fn pass_zeros(bytes: &mut Bytes, component: Component) -> usize
    ensures zeros { result ≡ zeros_of component bytes.old.state }
    ensures state { bytes.new.state ≡ past_zeros_of component bytes.old.state }
    ensures remembers { needs_run component bytes.new ≡ false }
    ensures within { bytes.old.state.cursor + result ≤ bytes.new.state.cursor }
    ensures owes { owed bytes.new ≤ℤ (owed bytes.old +ℤ pos (4 * (result + 1))) }
    ensures at_least { min (bytes.old.looks + result) (2 ^ 64 - 1) ≤ bytes.new.looks }
{
    let rule = bytes.rule(component);
    let text = bytes.get_buffer();
    if let Some(read) = read_zeros(text, rule, bytes.cursor()) {
        bytes.pass_read(component, read.end, 0);
        bytes.increment_count_of(component, read.count);
        return read.count;
    }
    // on a copy, as in `read_leading`
    let mut copy = bytes.clone().unwrap();
    let zeros = pass_zeros_bytes(&mut copy, component);
    bytes.go_on_from(copy);
    zeros
}

//! The calls that name a component are rows of the call table. So a list that mixes them with the
//! calls of lexical-util has the answers and the state of a list of that table. Each law is the
//! contract of a function, which makes the call.

ghost use Rattle.std.specs.Prelude.{◌≡◌, ◌<◌, ◌++◌, [], ◌∷◌, length, replicate, pos, ◌≤ℤ◌, ◌+ℤ◌, IfSome};
ghost use Rattle.lexical_digits.specs.State.{State, IsState, start};
ghost use Rattle.lexical_digits.specs.Cursor.{ReadsIf};
ghost use Rattle.lexical_digits.specs.CallTable.{On, OnBytes, Peek, Next, IncrementCount, SetCursor, Byte, row_of, read_as, run_of, byte_at_place, settled, past_place};
ghost use Rattle.lexical_digits.specs.Looks.{owed};
ghost use Rattle.lexical_digits.specs.Stop.{leading_digits_of, past_digits_of};
ghost use Rattle.lexical_digits.specs.declared.skip.component.Component.{Component};

use crate::iterator::DigitsBodies;
use crate::on_iterator;
use crate::skip::{Bytes, Component};

/// `peek_of` is the row `Peek` of the component's iterator.
pub fn peek_of_is_row(bytes: &mut Bytes, component: Component) -> Option<u8>
    ensures answers { Byte result ≡ (row_of (On component) Peek bytes.old.state).answer }
    ensures state { bytes.new.state ≡ (row_of (On component) Peek bytes.old.state).state }
    ensures owes { owed bytes.new ≤ℤ (owed bytes.old +ℤ pos 4) }
{
    bytes.peek_of(component).copied()
}

/// `next_of` is the row `Next` of the component's iterator.
pub fn next_of_is_row(bytes: &mut Bytes, component: Component) -> Option<u8>
    ensures answers { Byte result ≡ (row_of (On component) Next bytes.old.state).answer }
    ensures state { bytes.new.state ≡ (row_of (On component) Next bytes.old.state).state }
    ensures owes { owed bytes.new ≤ℤ (owed bytes.old +ℤ pos 4) }
{
    bytes.next_of(component).copied()
}

/// `read_if` with any closure, also one that changes something outside of itself, is a row of the
/// component's iterator: `ReadIfEqual` of the byte that it read, or `ReadIfNever` if it read none.
/// `reads` says what the closure answered. So a list whose closures share a state has the answers
/// and the state of a list of the call table.
pub fn read_if_is_row<Pred: FnOnce(u8) -> bool + Drop>(
    bytes: &mut Bytes,
    component: Component,
    pred: Pred,
) -> Option<u8>
    requires { IfSome (byte_at_place component bytes.old.state) (λ b. b < 256 → Pred.pre pred b) }
    ensures reads { let s = bytes.old.state in
        ReadsIf (Pred.post pred) (byte_at_place component s) (settled component s)
        (past_place component s) result bytes.new.state }
    ensures answers { let s = bytes.old.state in
        Byte result ≡ (row_of (On component) (read_as result) s).answer }
    ensures state { let s = bytes.old.state in
        bytes.new.state ≡ (row_of (On component) (read_as result) s).state }
    ensures owes { owed bytes.new ≤ℤ (owed bytes.old +ℤ pos 4) }
{
    on_iterator!(bytes, component, iter => iter.read_if(pred))
}

/// `increment_count_of` with `digits` is that many rows `IncrementCount` of the component's
/// iterator.
#[tactic(auto, using(crate::proofs::Calls::Rows::counts_are_rows))]
pub fn increment_count_of_is_rows(bytes: &mut Bytes, component: Component, digits: usize)
    ensures state { let calls = replicate digits (On component, IncrementCount) in
        bytes.new.state ≡ (run_of bytes.old.state calls).state }
    ensures owes { owed bytes.new ≤ℤ owed bytes.old }
{
    bytes.increment_count_of(component, digits);
}

/// `clear_counts` has no row. It leaves the state of a new `Bytes` of the same buffer and word
/// whose cursor was set to where it is.
pub fn clear_counts_starts_again(bytes: &mut Bytes)
    ensures state { let s = bytes.old.state in let calls = (OnBytes, SetCursor s.cursor) ∷ [] in
        bytes.new.state ≡ (run_of (start s.buffer s.word) calls).state }
    ensures owes { owed bytes.new ≤ℤ owed bytes.old }
{
    bytes.clear_counts();
}

/// The state after the digits that lead is left by as many rows `Next` of the component's iterator,
/// and then its row `Peek`.
#[tactic(auto, using(crate::proofs::Calls::Rows::digits_are_rows))]
pub fn digits_are_rows()
    ensures { (k : Component) (s : State) → IsState s →
        let nexts = replicate (length (leading_digits_of k s)) (On k, Next) in
        past_digits_of k s ≡ (run_of s (nexts ++ ((On k, Peek) ∷ []))).state }
{}

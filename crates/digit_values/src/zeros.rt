//! The bytes `0` that lead, read off a slice. Where another separator than a lone one between a
//! zero and a digit is met, a `Bytes` reads them.

ghost use Rattle.std.specs.Prelude.{◌≡◌, ◌+◌, ◌*◌, ◌-◌, ◌^◌, ◌≤◌, ◌==◌, min, false, length, pos, ◌≤ℤ◌, ◌+ℤ◌, IfSome};
ghost use Rattle.lexical_digits.specs.Separators.{IsSupported};
ghost use Rattle.lexical_digits.specs.Cursor.{holds_of};
ghost use Rattle.lexical_digits.specs.CallTable.{byte_at_place, settled, zeros_of, past_zeros_of};
ghost use Rattle.lexical_digits.specs.Looks.{one_if, owed, needs_run};
ghost use Rattle.digit_values.specs.Reads.{AreZeros};

use super::slice::is_inner;
use lexical_digits::iterator::Iter;
use lexical_digits::skip::{Bytes, Component, Rule};

/// Zeros that were read from a start on.
#[derive(Clone, Copy)]
pub(super) struct ZerosTo {
    /// How many there are.
    pub(super) count: usize,
    /// The position of the first byte after them that is kept, or the end.
    pub(super) end: usize,
}

/// Passes the bytes `0` of a rule from `start` on, up to the next byte that is kept. `None` where a
/// separator is met that isn't a lone one between a zero and a digit.
#[inline(always)]
#[tactic(auto, using(crate::proofs::LeadingZeros::passing))]
pub(super) fn read_zeros(text: &[u8], rule: Rule, start: usize) -> Option<ZerosTo>
    requires supported { IsSupported rule }
    requires within { start ≤ length text.now }
    ensures { IfSome result (AreZeros rule text.now start) }
{
    let mut separators = 0;
    for at in start..text.len() {
        let byte = text[at];
        if byte == b'0' {
            continue;
        }
        if !rule.is_separator(byte) {
            return Some(ZerosTo {
                count: at - start - separators,
                end: at,
            });
        }
        if at == start || !is_inner(text, rule, rule.radix, at) {
            return None;
        }
        separators += 1;
    }
    Some(ZerosTo {
        count: text.len() - start - separators,
        end: text.len(),
    })
}

/// Whether a byte `0` is at the place of a component.
#[inline(always)]
#[tactic(auto, using(lexical_digits::proofs::Looks::Needed::arrived))]
fn peek_is_zero(bytes: &mut Bytes, component: Component) -> bool
    ensures zero { result
        ≡ holds_of (λ byte. byte == 48) (byte_at_place component bytes.old.state) }
    ensures settles { bytes.new.state ≡ settled component bytes.old.state }
    ensures remembers { needs_run component bytes.new ≡ false }
    ensures owes { owed bytes.new ≤ℤ (owed bytes.old +ℤ pos 4) }
    ensures at_least { min (bytes.old.looks + one_if result) (2 ^ 64 - 1) ≤ bytes.new.looks }
{
    bytes.peek_of(component) == Some(&b'0')
}

/// Passes the zeros of a component that lead from the cursor on, whatever separators are met, and
/// answers how many there are.
#[cold]
#[inline(never)]
#[tactic(auto, using(crate::proofs::PassedZeros::counting))]
pub(super) fn pass_zeros_bytes(bytes: &mut Bytes, component: Component) -> usize
    ensures zeros { result ≡ zeros_of component bytes.old.state }
    ensures state { bytes.new.state ≡ past_zeros_of component bytes.old.state }
    ensures remembers { needs_run component bytes.new ≡ false }
    ensures owes { owed bytes.new ≤ℤ (owed bytes.old +ℤ pos (4 * (result + 1))) }
    ensures at_least { min (bytes.old.looks + result) (2 ^ 64 - 1) ≤ bytes.new.looks }
{
    let mut zeros = 0;
    while peek_is_zero(bytes, component) {
        let at = bytes.cursor();
        bytes.set_cursor(at + 1);
        bytes.increment_count_of(component, 1);
        zeros += 1;
    }
    zeros
}

//! The one iterator, which serves every component.

ghost use Rattle.std.specs.Prelude.{◌≡◌, Some, option_map};
ghost use Rattle.lexical_plain.specs.Plain.{with_cursor, cut_end, view};

use super::bytes::{Bytes, Meaning};
use lexical_digits::iterator::{DigitsIter, Iter};

/// The iterator of every component of a `Bytes`: it yields each byte from the cursor on. It is
/// lexical-util's `noskip::DigitsIterator`. It holds only the borrowed `Bytes`, takes no memory,
/// and leaves its cursor in that `Bytes`. A proved caller that uses the `Bytes` afterwards writes
/// the literal `DigitsIterator { byte: &mut bytes }` instead of a call.
#[derive(Drop)]
pub struct DigitsIterator<'a: 'b, 'b> {
    /// The `Bytes` that is read.
    pub byte: &'b mut Bytes<'a>,
}

impl<'a> Bytes<'a> {
    /// The iterator of the integer over this `Bytes`.
    pub fn integer_iter<'b>(&'b mut self) -> DigitsIterator<'a, 'b>
        ensures same_loan { result.byte.ghost_name ≡ self.entry.ghost_name }
        ensures state { result.byte.now.state ≡ self.old.state }
    {
        DigitsIterator { byte: self }
    }

    /// The iterator of the fraction over this `Bytes`.
    pub fn fraction_iter<'b>(&'b mut self) -> DigitsIterator<'a, 'b>
        ensures same_loan { result.byte.ghost_name ≡ self.entry.ghost_name }
        ensures state { result.byte.now.state ≡ self.old.state }
    {
        DigitsIterator { byte: self }
    }

    /// The iterator of the exponent over this `Bytes`.
    pub fn exponent_iter<'b>(&'b mut self) -> DigitsIterator<'a, 'b>
        ensures same_loan { result.byte.ghost_name ≡ self.entry.ghost_name }
        ensures state { result.byte.now.state ≡ self.old.state }
    {
        DigitsIterator { byte: self }
    }

    /// The special iterator over this `Bytes`.
    pub fn special_iter<'b>(&'b mut self) -> DigitsIterator<'a, 'b>
        ensures same_loan { result.byte.ghost_name ≡ self.entry.ghost_name }
        ensures state { result.byte.now.state ≡ self.old.state }
    {
        DigitsIterator { byte: self }
    }
}

impl<'a: 'b, 'b> DigitsIterator<'a, 'b> {
    /// The iterator over this `Bytes`.
    pub fn new(byte: &'b mut Bytes<'a>) -> Self
        ensures same_loan { result.byte.ghost_name ≡ byte.entry.ghost_name }
        ensures state { result.byte.now.state ≡ byte.old.state }
    {
        DigitsIterator { byte }
    }

    /// A view of the next `n` bytes, or of the rest if fewer are left: always `Some`. The view has
    /// the buffer up to the end of those bytes, and the same cursor and word. The iterator's cursor
    /// moves to that end. Its counterpart in lexical-util is `take_n`.
    pub fn take_n(&mut self, n: usize) -> Option<Bytes<'a>>
        ensures view { option_map (λ b. b.state) result ≡ Some (view self.old.byte.now.state n) }
        ensures state { let s = self.old.byte.now.state in
            self.new.byte.now.state ≡ with_cursor s (cut_end s n) }
        ensures keeps_loan { self.new.byte.ghost_name ≡ self.old.byte.ghost_name }
    {
        Some(self.byte.cut(n))
    }
}

impl<'a: 'b, 'b> Iter<'a> for DigitsIterator<'a, 'b> {
    ghost use base.Fml.{GName};
    ghost use Rattle.std.specs.Prelude.{true, false};
    ghost use Rattle.lexical_plain.specs.Plain.{IsPlain, with_cursor};
    ghost use Rattle.lexical_plain.specs.Laws.{iter_laws};

    type Meaning = Meaning;

    ghost meaning = { λ it. it.byte.now.state };

    ghost valid = { IsPlain };

    ghost Loan = { GName };

    ghost loan = { λ it. it.byte.ghost_name };

    ghost buffer = { λ m. m.buffer };

    ghost cursor = { λ m. m.cursor };

    ghost current_count = { λ m. m.cursor };

    ghost contiguous = { λ _. true };

    ghost separates = { λ _ _. false };

    ghost moved = { with_cursor };

    #[inline(always)]
    fn get_buffer(&self) -> &'a [u8] {
        self.byte.get_buffer()
    }

    #[inline(always)]
    fn cursor(&self) -> usize {
        self.byte.cursor()
    }

    #[inline(always)]
    fn set_cursor(&mut self, index: usize) {
        self.byte.set_cursor(index);
    }

    #[inline(always)]
    fn current_count(&self) -> usize {
        self.byte.current_count()
    }

    #[inline(always)]
    fn is_contiguous(&self) -> bool {
        self.byte.is_contiguous()
    }

    #[inline(always)]
    fn step_by_unchecked(&mut self, count: usize) {
        self.byte.step_by_unchecked(count);
    }

    ghost valid_now = { λ it. it.byte.now.holds };

    ghost laws = { iter_laws };
}

impl<'a: 'b, 'b> Iterator for DigitsIterator<'a, 'b> {
    ghost use Rattle.std.specs.Prelude.{◌≡◌, IfSome, Some};
    ghost use Rattle.std.specs.Iterator.{at_most, UpTo};
    ghost use Rattle.std.specs.Iterator.SizeHint.{IsWithinCount};
    ghost use Rattle.lexical_plain.specs.Plain.{bytes_left, Nexts};

    type Item = &'a u8;

    ghost next_gives = { λ s r t.
        Nexts s.byte.now.state t.byte.now.state s.byte.ghost_name t.byte.ghost_name r };

    ghost remaining = { λ s. at_most (bytes_left s.byte.now.state) };

    #[tactic(auto, using(crate::proofs::NextTakesFirst::fewer_left))]
    #[inline(always)]
    fn next(&mut self) -> Option<&'a u8> {
        self.byte.take()
    }

    /// How many bytes are left from the cursor on, exactly.
    #[inline(always)]
    fn size_hint(&self) -> (usize, Option<usize>)
        ensures exact { let n = bytes_left self.now.byte.now.state in result ≡ (n, Some n) }
        ensures lower { IsWithinCount result.0 (at_most (bytes_left self.now.byte.now.state)) }
        ensures upper { IfSome result.1 (UpTo (at_most (bytes_left self.now.byte.now.state))) }
    {
        let left = self.len();
        (left, Some(left))
    }
}

impl<'a: 'b, 'b> ExactSizeIterator for DigitsIterator<'a, 'b> {
    /// How many bytes are left.
    #[inline(always)]
    fn len(&self) -> usize {
        self.byte.bytes_left()
    }
}

impl<'a: 'b, 'b> DigitsIter<'a> for DigitsIterator<'a, 'b> {
    ghost use Rattle.std.proofs.Common.{rules};
    ghost use Rattle.lexical_plain.specs.Plain.{is_digit, taken};
    ghost use Rattle.lexical_plain.specs.Laws.{digit_laws};

    ghost place = { λ m. m.cursor };

    ghost digit = { is_digit };

    ghost settled = { λ m. m };

    ghost counted = { λ m. m };

    ghost taken = { taken };

    /// Changes nothing: the count is the cursor.
    #[inline(always)]
    fn increment_count(&mut self) {}

    #[inline(always)]
    fn peek(&mut self) -> Option<&'a u8> {
        self.byte.peek()
    }

    #[inline(always)]
    fn is_digit(&self, value: u8) -> bool {
        self.byte.is_digit(value)
    }

    ghost can_next_law = { λ s. tt };

    ghost next_byte = { λ s t r h. h.takes.byte };

    ghost next_takes = { λ s t r h. h.takes.takes };

    ghost next_owes = { λ s t r h. Prim.search rules };

    ghost next_keeps_loan = { λ s t r h. h.keeps_loan };

    ghost digit_laws = { digit_laws };
}

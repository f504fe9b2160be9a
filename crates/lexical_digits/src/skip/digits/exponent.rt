//! The iterator of the exponent.

ghost use Rattle.std.specs.Prelude.{◌≡◌, ◌≤◌, ◌||◌, ◌==◌, length};
ghost use Rattle.lexical_format.specs.Word.{separator};
ghost use Rattle.lexical_digits.specs.Separators.{is_separator};
ghost use Rattle.lexical_digits.specs.Iterators.{CanStepOn, Makes, Moves, Steps, Counts, Cuts, Peeks};
ghost use Rattle.lexical_digits.specs.declared.skip.component.Component.TheVariants.{Exponent};

use crate::iterator::{DigitsIter, Iter};
use crate::skip::bytes::{Bytes, Meaning};
use crate::skip::component::Component;

/// The digits of the exponent in a `Bytes`: lexical-util's `ExponentDigitsIterator`.
#[derive(Drop)]
pub struct ExponentDigitsIterator<'a: 'b, 'b> {
    /// The `Bytes` that the iterator reads.
    pub byte: &'b mut Bytes<'a>,
}

impl<'a: 'b, 'b> ExponentDigitsIterator<'a, 'b> {
    /// The same as [`Bytes::exponent_iter`].
    pub fn new(byte: &'b mut Bytes<'a>) -> Self
        ensures { Makes byte.entry result.byte }
    {
        byte.exponent_iter()
    }

    /// A view of the next `n` bytes, if the iterator is contiguous. Otherwise the answer is `None`
    /// and the cursor stays. The view is a `Bytes` over the buffer up to the end of those bytes,
    /// with this cursor, the same word, and no counts. The iterator's cursor moves to that end,
    /// which is at most the length.
    #[tactic(auto, unfolding(crate::specs::CallTable::view, crate::specs::CallTable::after_view))]
    pub fn take_n(&mut self, n: usize) -> Option<Bytes<'a>>
        ensures { Cuts Exponent self.old.byte self.new.byte n result }
    {
        if self.is_contiguous() {
            Some(self.byte.cut(n))
        } else {
            None
        }
    }

    /// Whether a byte is a sign, `+` or `-`.
    pub fn is_sign(&self, value: u8) -> bool
        ensures { result ≡ ((value == 43) || (value == 45)) }
    {
        value == b'+' || value == b'-'
    }

    /// Whether a byte is the separator. A separator of zero means that no byte is one.
    pub fn is_digit_separator(&self, value: u8) -> bool
        ensures { result ≡ is_separator (separator self.now.byte.now.state.word) value }
    {
        self.byte.is_separator(value)
    }
}

impl<'a: 'b, 'b> Iter<'a> for ExponentDigitsIterator<'a, 'b> {
    ghost use base.Fml.{GName};
    ghost use Rattle.lexical_format.specs.Word.{separator};
    ghost use Rattle.lexical_digits.specs.Separators.{is_separator};
    ghost use Rattle.lexical_digits.specs.State.{IsState, with_cursor, is_contiguous, current_count};
    ghost use Rattle.lexical_digits.specs.Looks.{owed, NoLooks};
    ghost use Rattle.lexical_digits.specs.Laws.Table.{iter_laws};
    ghost use Rattle.lexical_digits.specs.declared.skip.component.Component.TheVariants.{Exponent};

    type Meaning = Meaning;

    ghost meaning = { λ it. it.byte.now.state };

    ghost valid = { IsState };

    ghost Loan = { GName };

    ghost loan = { λ it. it.byte.ghost_name };

    ghost owed = { λ it. owed it.byte.now };

    ghost NoLooks = { λ s t. NoLooks s.byte.now t.byte.now };

    ghost buffer = { λ m. m.buffer };

    ghost cursor = { λ m. m.cursor };

    ghost current_count = { current_count Exponent };

    ghost contiguous = { λ m. is_contiguous Exponent m.word };

    ghost separates = { λ m b. is_separator (separator m.word) b };

    ghost moved = { with_cursor };

    #[inline(always)]
    fn get_buffer(&self) -> &'a [u8] {
        self.byte.get_buffer()
    }

    #[inline(always)]
    fn cursor(&self) -> usize {
        self.byte.cursor()
    }

    #[inline(always)]
    fn set_cursor(&mut self, index: usize)
        requires { index ≤ length self.old.byte.now.state.buffer }
        ensures { Moves self.old.byte self.new.byte index }
    {
        self.byte.move_to(index);
    }

    #[inline(always)]
    fn current_count(&self) -> usize {
        self.byte.current_count_of(Component::Exponent)
    }

    #[inline(always)]
    fn is_contiguous(&self) -> bool {
        self.byte.is_contiguous_for(Component::Exponent)
    }

    #[inline(always)]
    fn step_by_unchecked(&mut self, count: usize)
        requires { CanStepOn Exponent self.old.byte.now.state count }
        ensures { Steps self.old.byte self.new.byte count }
    {
        self.byte.advance(count);
    }

    ghost valid_now = { λ it. it.byte.now.holds };

    ghost laws = { iter_laws Exponent };
}

impl<'a: 'b, 'b> Iterator for ExponentDigitsIterator<'a, 'b> {
    ghost use Rattle.std.specs.Prelude.{◌≡◌, IfSome, None};
    ghost use Rattle.std.specs.Iterator.{UpTo};
    ghost use Rattle.std.specs.Iterator.SizeHint.{IsWithinCount};
    ghost use Rattle.lexical_digits.specs.Iterators.{Nexts, bytes_left};
    ghost use Rattle.lexical_digits.specs.declared.skip.component.Component.TheVariants.{Exponent};

    type Item = &'a u8;

    // The bytes that `next` answers until `None` are the drain, the filter over the whole buffer:
    // that is the field `takes.drains` of `Nexts` (specs/Iterators.antt, specs/CallTable.antt).
    ghost next_gives = { λ s r t. Nexts Exponent s.byte t.byte r };

    ghost remaining = { λ s. bytes_left Exponent s.byte.now.state };

    #[inline(always)]
    fn next(&mut self) -> Option<&'a u8> {
        self.byte.next_of(Component::Exponent)
    }

    /// The size hint of lexical-util's iterators: `(0, None)`.
    fn size_hint(&self) -> (usize, Option<usize>)
        ensures value { result ≡ (0, None) }
        ensures lower { IsWithinCount result.0 (bytes_left Exponent self.now.byte.now.state) }
        ensures upper { IfSome result.1 (UpTo (bytes_left Exponent self.now.byte.now.state)) }
    {
        (0, None)
    }
}

impl<'a: 'b, 'b> DigitsIter<'a> for ExponentDigitsIterator<'a, 'b> {
    ghost use Rattle.lexical_digits.specs.Separators.{is_digit};
    ghost use Rattle.lexical_digits.specs.State.{rule};
    ghost use Rattle.lexical_digits.specs.CallTable.{place_of, settled, counted, taken};
    ghost use Rattle.lexical_digits.specs.Laws.Table.{digit_laws};
    ghost use Rattle.lexical_digits.specs.declared.skip.component.Component.TheVariants.{Exponent};

    ghost place = { place_of Exponent };

    ghost digit = { λ m b. is_digit (rule Exponent m) b };

    ghost settled = { settled Exponent };

    ghost counted = { counted Exponent };

    ghost taken = { taken Exponent };

    #[inline(always)]
    fn increment_count(&mut self)
        ensures { Counts Exponent self.old.byte self.new.byte }
    {
        self.byte.increment_count_of(Component::Exponent, 1);
    }

    #[inline(always)]
    fn peek(&mut self) -> Option<&'a u8>
        ensures { Peeks Exponent self.old.byte self.new.byte result }
    {
        self.byte.peek_of(Component::Exponent)
    }

    #[inline(always)]
    fn is_digit(&self, value: u8) -> bool {
        self.byte.is_digit_of(Component::Exponent, value)
    }

    ghost can_next_law = { λ s. tt };

    ghost next_byte = { λ s t r h. h.takes.byte };

    ghost next_takes = { λ s t r h. h.takes.takes };

    ghost next_owes = { λ s t r h. h.costs.owes };

    ghost next_keeps_loan = { λ s t r h. h.keeps_loan };

    ghost digit_laws = { digit_laws Exponent };
}

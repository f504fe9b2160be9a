//! An iterator of one's own. It isn't one of `lexical_digits`, and the traits give it all their
//! calls. The page `IMPLEMENTING.md` explains it.

ghost use Rattle.std.specs.Prelude.{◌≡◌, ◌≤◌, length};
ghost use Rattle.std.specs.List.{prefix_len};
ghost use Rattle.digit_vectors.specs.Spaced.{start, is_space, kept, items_of};

use lexical_digits::iterator::{DigitsIter, Iter};
use std::convert::Infallible;
use std::marker::Model;

/// The type whose view is the meaning of a [`Spaced`]. It has no value.
pub struct Meaning {
    _none: Infallible,
}

impl Model for Meaning {
    ghost use Rattle.std.specs.Prelude.{[]};
    ghost use Rattle.digit_vectors.specs.Spaced as spaced;

    ghost Value = { spaced.Meaning };

    ghost view = { λ _. spaced.start [] };
}

/// A cursor over a text that passes over spaces, and a count of the digits taken. The cursor counts
/// bytes from 0; the count stops at `usize::MAX`.
#[derive(Drop)]
pub struct Spaced<'a> {
    text: &'a [u8],
    index: usize,
    digits: usize,
    ghost within: { index ≤ length text.now },
}

impl<'a> Model for Spaced<'a> {
    ghost use Rattle.digit_vectors.specs.Spaced.{Held};

    ghost Value = { Held };

    ghost view = { λ s. record {
      state = record { buffer = s.text.now; cursor = s.index; count = s.digits };
      holds = s.within;
    } };
}

impl<'a> Spaced<'a> {
    /// The cursor and the count are 0.
    pub fn new(text: &'a [u8]) -> Self
        ensures { result.state ≡ start text.now }
    {
        Spaced {
            text,
            index: 0,
            digits: 0,
        }
    }
}

/// The number of spaces that a text begins with.
fn spaces(text: &[u8]) -> usize
    ensures value { result ≡ prefix_len is_space text.now }
    ensures within { result ≤ length text.now }
{
    text.iter().take_while(|byte| **byte == b' ').count()
}

impl<'a> Iter<'a> for Spaced<'a> {
    ghost use Rattle.std.specs.Prelude.{false};
    ghost use Rattle.digit_vectors.specs.Spaced.{IsWithin, is_space, moved};
    ghost use Rattle.digit_vectors.specs.Spaced.Laws.{iter_laws};

    type Meaning = Meaning;

    ghost meaning = { λ s. s.state };

    ghost valid = { IsWithin };

    ghost Loan = { Unit {0} };

    ghost loan = { λ _. tt };

    ghost buffer = { λ m. m.buffer };

    ghost cursor = { λ m. m.cursor };

    ghost current_count = { λ m. m.count };

    ghost contiguous = { λ _. false };

    ghost separates = { λ _ b. is_space b };

    ghost moved = { moved };

    fn get_buffer(&self) -> &'a [u8] {
        self.text
    }

    fn cursor(&self) -> usize {
        self.index
    }

    fn set_cursor(&mut self, index: usize) {
        self.index = index;
    }

    fn current_count(&self) -> usize {
        self.digits
    }

    fn is_contiguous(&self) -> bool {
        false
    }

    fn step_by_unchecked(&mut self, count: usize) {
        prove!(self.index <= self.text.len());
        self.index += count;
    }

    ghost valid_now = { λ s. s.holds };

    ghost laws = { iter_laws };
}

impl<'a> Iterator for Spaced<'a> {
    ghost use Rattle.std.specs.Prelude.{◌-◌, length, option_copied};
    ghost use Rattle.std.specs.Iterator.{at_most};
    ghost use Rattle.digit_vectors.specs.Spaced.{Nexts};

    type Item = &'a u8;

    ghost next_gives = { λ s r t. Nexts s.state (option_copied r) t.state };

    ghost remaining = { λ s. at_most (length s.state.buffer - s.state.cursor) };

    fn next(&mut self) -> Option<&'a u8> {
        let byte = self.peek()?;
        self.index += 1;
        if self.is_digit(*byte) {
            self.increment_count();
        }
        Some(byte)
    }
}

impl<'a> DigitsIter<'a> for Spaced<'a> {
    ghost use Rattle.digit_vectors.specs.Spaced.{place, is_digit, settled, counted, taken};
    ghost use Rattle.digit_vectors.specs.Spaced.Laws.{digit_laws, owes_nothing};
    ghost use Rattle.std.proofs.Common.{refl};

    ghost place = { place };

    ghost digit = { λ _ b. is_digit b };

    ghost settled = { settled };

    ghost counted = { counted };

    ghost taken = { taken };

    fn increment_count(&mut self) {
        self.digits = self.digits.saturating_add(1);
    }

    fn peek(&mut self) -> Option<&'a u8> {
        self.index += spaces(&self.text[self.index..]);
        self.text.get(self.index)
    }

    fn is_digit(&self, value: u8) -> bool {
        value.is_ascii_digit()
    }

    ghost can_next_law = { λ s. tt };

    ghost next_byte = { λ s t r h. h.byte };

    ghost next_takes = { λ s t r h. h.takes };

    ghost next_owes = { λ s t r h. owes_nothing };

    ghost next_keeps_loan = { λ s t r h. refl };

    ghost digit_laws = { digit_laws };
}

/// A law: the bytes that `next` answers until `None` are those from the cursor on that are no
/// spaces.
#[tactic(auto, using(crate::proofs::Kept::items_are_kept))]
pub fn items_are_kept(spaced: &Spaced)
    ensures { items_of spaced.now.state ≡ kept spaced.now.state }
{}

/// The number of bytes of a text that are no spaces, by std's `count` over the iterator.
pub fn kept_count(text: &[u8]) -> usize
    ensures { result ≡ length (kept (start text.now)) }
{
    Spaced::new(text).count()
}

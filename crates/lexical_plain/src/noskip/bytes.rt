//! A buffer with a cursor that drops no byte.

ghost use Rattle.std.specs.Prelude.{◌≡◌, ℕ, ◌+◌, List, option_copied, IsTrue};
ghost use Rattle.lexical_format.specs.Word.{is_supported};
ghost use Rattle.lexical_plain.specs.Plain.{IsPlain, with_cursor, start, first, bytes_left, is_digit, cut_end, view, Takes};

use lexical_digits::iterator::Iter;
use lexical_format::{NumberFormat, char_is_digit_const};
use std::alloc::AllocError;
use std::convert::Infallible;
use std::marker::Model;

/// The type of a `Bytes`' state in the logic. It has no value.
pub struct Meaning {
    _none: Infallible,
}

impl Model for Meaning {
    ghost use Rattle.std.specs.Prelude.{[]};
    ghost use Rattle.lexical_plain.specs.Plain.{Plain, start};

    ghost Value = { Plain };

    ghost view = { λ _. start [] 0 };
}

/// A buffer with a format word and a cursor: lexical-util's `noskip::Bytes`, which has no field for
/// the word. Only the word's mantissa radix is used, as the radix of
/// [`is_digit`](lexical_digits::iterator::DigitsIter::is_digit); its separator and its flags are
/// ignored. Positions count bytes from 0.
#[derive(Drop)]
pub struct Bytes<'a> {
    slc: &'a [u8],
    format: u128,
    index: usize,
    ghost holds: { IsPlain (record { buffer = slc.now; word = format; cursor = index }) },
}

impl<'a> Model for Bytes<'a> {
    ghost use Rattle.lexical_plain.specs.Plain.{Held};

    ghost Value = { Held };

    ghost view = { λ b. record {
      state = record { buffer = b.slc.now; word = b.format; cursor = b.index };
      holds = b.holds;
    } };
}

impl<'a> Bytes<'a> {
    /// A `Bytes` over `slc` with its cursor at 0. Requires a supported word. Its counterpart in
    /// lexical-util is `Bytes::new`, where the word is a type parameter.
    pub fn new(slc: &'a [u8], format: u128) -> Self
        requires { IsTrue (is_supported format) }
        ensures { result.state ≡ start slc.now format }
    {
        Bytes {
            slc,
            format,
            index: 0,
        }
    }

    /// Whether `value` is a digit of the mantissa radix.
    #[inline(always)]
    pub(crate) fn is_digit(&self, value: u8) -> bool
        ensures { result ≡ is_digit self.now.state value }
    {
        char_is_digit_const(value, NumberFormat::new(self.format).mantissa_radix())
    }

    /// How many bytes are left from the cursor on.
    #[inline(always)]
    pub(crate) fn bytes_left(&self) -> usize
        ensures { result ≡ bytes_left self.now.state }
    {
        self.slc.len() - self.index
    }

    /// The byte at the cursor, or `None` at the end.
    #[inline(always)]
    pub(crate) fn peek(&self) -> Option<&'a u8>
        ensures { option_copied result ≡ first self.now.state }
    {
        self.slc.get(self.index)
    }

    /// Answers the byte at the cursor, and moves the cursor past it. At the end it answers `None`.
    #[tactic(auto, using(crate::proofs::NextTakesFirst::takes))]
    #[inline(always)]
    pub(crate) fn take(&mut self) -> Option<&'a u8>
        ensures { Takes self.old.state self.new.state result }
    {
        match self.peek() {
            Some(byte) => {
                self.index += 1;
                Some(byte)
            }
            None => None,
        }
    }

    /// A copy whose buffer ends `n` bytes after the cursor, or where this buffer ends. The cursor
    /// of this `Bytes` moves to that end.
    pub(crate) fn cut(&mut self, n: usize) -> Bytes<'a>
        ensures view { result.state ≡ view self.old.state n }
        ensures state { self.new.state ≡ with_cursor self.old.state (cut_end self.old.state n) }
    {
        let cursor = self.index;
        let end = cursor.saturating_add(n).min(self.slc.len());
        self.index = end;
        Bytes {
            slc: &self.slc[..end],
            format: self.format,
            index: cursor,
        }
    }
}

impl<'a> Clone for Bytes<'a> {
    ghost is_clone = { λ a b. b.state ≡ a.state };

    ghost is_infallible = { λ _. Unit {0} };

    fn clone(&self) -> Result<Bytes<'a>, AllocError> {
        Ok(Bytes {
            slc: self.slc,
            format: self.format,
            index: self.index,
        })
    }
}

impl<'a> Iter<'a> for Bytes<'a> {
    ghost use Rattle.std.specs.Prelude.{true, false};
    ghost use Rattle.lexical_plain.specs.Plain.{IsPlain, with_cursor};
    ghost use Rattle.lexical_plain.specs.Laws.{iter_laws};

    type Meaning = Meaning;

    ghost meaning = { λ b. b.state };

    ghost valid = { IsPlain };

    ghost Loan = { Unit {0} };

    ghost loan = { λ _. tt };

    ghost buffer = { λ m. m.buffer };

    ghost cursor = { λ m. m.cursor };

    ghost current_count = { λ m. m.cursor };

    ghost contiguous = { λ _. true };

    ghost separates = { λ _ _. false };

    ghost moved = { with_cursor };

    #[inline(always)]
    fn get_buffer(&self) -> &'a [u8] {
        self.slc
    }

    #[inline(always)]
    fn cursor(&self) -> usize {
        self.index
    }

    #[inline(always)]
    fn set_cursor(&mut self, index: usize) {
        self.index = index;
    }

    #[inline(always)]
    fn current_count(&self) -> usize {
        self.index
    }

    #[inline(always)]
    fn is_contiguous(&self) -> bool {
        true
    }

    #[inline(always)]
    fn step_by_unchecked(&mut self, count: usize) {
        prove!(self.index <= self.slc.len());
        self.index += count;
    }

    ghost valid_now = { λ b. b.holds };

    ghost laws = { iter_laws };
}

/// Values that a [`Bytes`] can be made over: lexical-util's `AsBytes`.
pub trait AsBytes<'a> {
    // The bytes that the value has.
    ghost bytes_of: { Self → List ℕ };

    /// [`Bytes::new`] over the value's bytes. Requires a supported word.
    fn bytes(&self, format: u128) -> Bytes<'a>
        requires { IsTrue (is_supported format) }
        ensures { result.state ≡ start (bytes_of self.now) format };
}

impl<'a> AsBytes<'a> for &'a [u8] {
    ghost bytes_of = { λ slc. slc.now };

    fn bytes(&self, format: u128) -> Bytes<'a> {
        Bytes::new(self, format)
    }
}

//! The traits of digit iterators that share one cursor: lexical-util's `iterator.rs`. The calls
//! with a default body are in [`IterBodies`] and [`DigitsBodies`]; a caller imports all four
//! traits.

ghost use Rattle.std.specs.Prelude.{◌≡◌, ⊤, ℤ, pos, ◌≤ℤ◌, ◌+ℤ◌, ℕ, ◌+◌, ◌<◌, ◌≤◌, List, length, slice_get, option_copied, Option, Bool};
ghost use Rattle.std.specs.Borrow.{Bor};
ghost use Rattle.lexical_digits.specs.Cursor.{IterLaws, DigitLaws, CanStep};

mod bodies;

pub use self::bodies::{DigitsBodies, IterBodies};
pub use crate::skip::{AsBytes, Bytes};

/// A cursor over a buffer of bytes: lexical-util's `Iter`. Positions count bytes from 0, and the
/// cursor is at most the length of the buffer. The laws say nothing of stored counts; in the types
/// of [`skip`](crate::skip) only `next`, `increment_count` and `skip_zeros` change them, and the
/// calls of a `Bytes` by component. More calls: [`IterBodies`].
pub trait Iter<'a> {
    /// The type of a value's meaning: what the value stands for in the logic. Every contract speaks
    /// of meanings.
    type Meaning;

    // The meaning of a value.
    ghost meaning: { Self → Self.Meaning };

    // The meanings that values have.
    ghost valid: { Self.Meaning → Type 0 };

    // The ghost name of the `&mut` that the value holds, or `tt` if it holds none. No call changes
    // it.
    ghost Loan: { Type 0 };

    ghost loan: { Self → Loan };

    // What a value owes for the looks of its reads: always 0 where looks are not counted.
    ghost owed: { Self → ℤ } = { λ _. pos 0 };

    // What a call that looks at no byte preserves, besides the meaning.
    ghost NoLooks: { Self → Self → Type 0 } = { λ _ _. ⊤ };

    // The whole buffer.
    ghost buffer: { Self.Meaning → List ℕ };

    // The position of the cursor.
    ghost cursor: { Self.Meaning → ℕ };

    // What `current_count` answers.
    ghost current_count: { Self.Meaning → ℕ };

    // What `is_contiguous` answers.
    ghost contiguous: { Self.Meaning → Bool };

    // Which bytes are separators. No step may pass one unless the value is contiguous.
    ghost separates: { Self.Meaning → ℕ → Bool };

    // The meaning that `set_cursor` leaves, for each position.
    ghost moved: { Self.Meaning → ℕ → Self.Meaning };

    /// The whole buffer, from its start.
    fn get_buffer(&self) -> &'a [u8]
        ensures { result.now ≡ buffer (meaning self.now) };

    /// The position of the cursor, at most the length of the buffer.
    fn cursor(&self) -> usize
        ensures value { result ≡ cursor (meaning self.now) }
        ensures below_max { result < usize.MAX };

    /// Moves the cursor to `index`, forwards or back: lexical-util's `set_cursor`, which is unsafe.
    /// Requires that `index` is at most the length of the buffer.
    fn set_cursor(&mut self, index: usize)
        requires { index ≤ length (buffer (meaning self.old)) }
        ensures moves { meaning self.new ≡ moved (meaning self.old) index }
        ensures no_looks { NoLooks self.old self.new }
        ensures owes { cursor (meaning self.old) ≤ index → owed self.new ≤ℤ owed self.old }
        ensures keeps_loan { loan self.new ≡ loan self.old };

    /// The count of this value. Each type says what it counts: usually the digits that `next` has
    /// taken, or the cursor where no byte is dropped.
    fn current_count(&self) -> usize
        ensures { result ≡ current_count (meaning self.now) };

    /// Whether no byte is ever dropped as a separator: lexical-util's `is_contiguous`, which is a
    /// constant there. If so, several bytes may be read and passed at a time.
    fn is_contiguous(&self) -> bool
        ensures { result ≡ contiguous (meaning self.now) };

    /// Moves the cursor `count` bytes on: lexical-util's `step_by_unchecked`, which is unsafe.
    /// Requires that `count` bytes are left. Unless the value is contiguous, it also requires that
    /// `count` is at most 1 and the byte passed is no separator.
    fn step_by_unchecked(&mut self, count: usize)
        requires { let m = meaning self.old in
            CanStep (buffer m) (cursor m) (contiguous m) (separates m) count }
        ensures moves { let m = meaning self.old in meaning self.new ≡ moved m (cursor m + count) }
        ensures no_looks { NoLooks self.old self.new }
        ensures owes { owed self.new ≤ℤ owed self.old }
        ensures keeps_loan { loan self.new ≡ loan self.old };

    ghost valid_now: { (s : Self) → valid (meaning s) };

    ghost laws: { IterLaws valid buffer cursor contiguous separates moved };
}

/// An iterator over the kept bytes: lexical-util's `DigitsIter`. The place is the first kept
/// position from the cursor on, or the length of the buffer if there is none; `next` answers the
/// byte there. More calls: [`DigitsBodies`].
pub trait DigitsIter<'a>: Iterator<Item = &'a u8> + Iter<'a> {
    // The first kept position from the cursor on, or the length of the buffer.
    ghost place: { Self.Meaning → ℕ };

    // Which bytes are digits.
    ghost digit: { Self.Meaning → ℕ → Bool };

    // The meaning that `peek` leaves.
    ghost settled: { Self.Meaning → Self.Meaning };

    // The meaning that `increment_count` leaves.
    ghost counted: { Self.Meaning → Self.Meaning };

    // The meaning that `next` leaves.
    ghost taken: { Self.Meaning → Self.Meaning };

    /// Adds 1 to the stored count of this value, if it has one. The cursor does not move.
    fn increment_count(&mut self)
        ensures counts { Self.meaning self.new ≡ counted (Self.meaning self.old) }
        ensures no_looks { Self.NoLooks self.old self.new }
        ensures owes { Self.owed self.new ≤ℤ Self.owed self.old }
        ensures keeps_loan { Self.loan self.new ≡ Self.loan self.old };

    /// The byte at the place, or `None` at the end. The cursor moves to the place.
    fn peek(&mut self) -> Option<&'a u8>
        ensures byte { let m = Self.meaning self.old in
            option_copied result ≡ slice_get (Self.buffer m) (place m) }
        ensures settles { Self.meaning self.new ≡ settled (Self.meaning self.old) }
        ensures owes { Self.owed self.new ≤ℤ (Self.owed self.old +ℤ pos 4) }
        ensures keeps_loan { Self.loan self.new ≡ Self.loan self.old };

    /// Whether `value` is a digit of this value's radix.
    fn is_digit(&self, value: u8) -> bool
        ensures { result ≡ digit (Self.meaning self.now) value };

    // `next` may always be called. It answers the byte at the place, or `None` at the end, and
    // leaves `taken`.
    ghost can_next_law: { (s : Self) → Self.can_next s };

    ghost next_byte: { (s t : Self) (r : Option (Bor ℕ)) → Self.next_gives s r t
        → option_copied r ≡ slice_get (Self.buffer (Self.meaning s)) (place (Self.meaning s)) };

    ghost next_takes: { (s t : Self) (r : Option (Bor ℕ)) → Self.next_gives s r t
        → Self.meaning t ≡ taken (Self.meaning s) };

    ghost next_owes: { (s t : Self) (r : Option (Bor ℕ)) → Self.next_gives s r t
        → Self.owed t ≤ℤ (Self.owed s +ℤ pos 4) };

    ghost next_keeps_loan: { (s t : Self) (r : Option (Bor ℕ)) → Self.next_gives s r t
        → Self.loan t ≡ Self.loan s };

    ghost digit_laws: { DigitLaws Self.valid Self.buffer Self.cursor Self.current_count
        Self.contiguous Self.separates Self.moved place digit settled counted taken };
}

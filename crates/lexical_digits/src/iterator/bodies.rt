//! The calls with a default body: one body for every implementer of the traits. The bodies and
//! their contracts use only the meaning of a value.

ghost use Rattle.std.specs.Prelude.{◌≡◌, IfSome, ℤ, pos, ◌≤ℤ◌, ◌+ℤ◌, ◌*◌, ◌+◌, ◌<◌, ◌≤◌, length, drop, slice_get, option_copied, Option, IsTrue, ◌↔◌, if◌then◌else◌, ◌==◌, is_some};
ghost use Rattle.std.specs.Int.{w32, w64};
ghost use Rattle.std.specs.Char.{eq_ignore_ascii_case};
ghost use Rattle.lexical_digits.specs.Cursor.{CanStep, ReadsIf, holds_of, byte_if, is_value, next_number, zeros, after_zeros};

use super::{DigitsIter, Iter};

/// The calls of lexical-util's `Iter` that have a default body there, under the same names. Every
/// implementer of [`Iter`] has them; a caller imports both traits.
pub trait IterBodies<'a>: Iter<'a> {
    /// The bytes from the cursor on.
    fn as_slice(&self) -> &'a [u8]
        ensures { let m = Self.meaning self.now in
            result.now ≡ drop (Self.cursor m) (Self.buffer m) };

    /// The length of the whole buffer.
    fn buffer_length(&self) -> usize
        ensures { result ≡ length (Self.buffer (Self.meaning self.now)) };

    /// Whether the cursor is at the end of the buffer. Separators are not dropped: see
    /// [`DigitsBodies::is_consumed`].
    fn is_buffer_empty(&self) -> bool
        ensures { let m = Self.meaning self.now in
            IsTrue result ↔ (Self.cursor m ≡ length (Self.buffer m)) };

    /// The byte at the cursor, or `None` at the end. Separators are not dropped: see
    /// [`DigitsIter::peek`].
    fn first(&self) -> Option<&'a u8>
        ensures { let m = Self.meaning self.now in
            option_copied result ≡ slice_get (Self.buffer m) (Self.cursor m) };

    /// Whether the byte at the cursor is `value`; `false` at the end.
    fn first_is_cased(&self, value: u8) -> bool
        ensures { let m = Self.meaning self.now in
            let byte = slice_get (Self.buffer m) (Self.cursor m) in
            result ≡ holds_of (λ b. b == value) byte };

    /// Whether the byte at the cursor equals `value` by `eq_ignore_ascii_case`; `false` at the end.
    fn first_is_uncased(&self, value: u8) -> bool
        ensures { let m = Self.meaning self.now in
            let byte = slice_get (Self.buffer m) (Self.cursor m) in
            result ≡ holds_of (λ b. eq_ignore_ascii_case b value) byte };

    /// [`first_is_cased`](Self::first_is_cased) if `is_cased`, and
    /// [`first_is_uncased`](Self::first_is_uncased) otherwise.
    fn first_is(&self, value: u8, is_cased: bool) -> bool
        ensures { let m = Self.meaning self.now in
            let byte = slice_get (Self.buffer m) (Self.cursor m) in
            result ≡ holds_of (is_value value is_cased) byte };

    /// The four bytes from the cursor on as a number, with the first byte lowest on every machine.
    /// `None` if fewer are left or the value is not contiguous.
    fn peek_u32(&self) -> Option<u32>
        ensures { let m = Self.meaning self.now in
            result ≡ next_number w32 (Self.contiguous m) (drop (Self.cursor m) (Self.buffer m)) };

    /// The eight bytes from the cursor on as a number, with the first byte lowest on every machine.
    /// `None` if fewer are left or the value is not contiguous.
    fn peek_u64(&self) -> Option<u64>
        ensures { let m = Self.meaning self.now in
            result ≡ next_number w64 (Self.contiguous m) (drop (Self.cursor m) (Self.buffer m)) };

    /// Moves the cursor one byte on. Requires that a byte is left and, unless the value is
    /// contiguous, that it is no separator.
    fn step_unchecked(&mut self)
        requires { let m = Self.meaning self.old in
            CanStep (Self.buffer m) (Self.cursor m) (Self.contiguous m) (Self.separates m) 1 }
        ensures moves { let m = Self.meaning self.old in
            Self.meaning self.new ≡ Self.moved m (Self.cursor m + 1) }
        ensures no_looks { Self.NoLooks self.old self.new }
        ensures owes { Self.owed self.new ≤ℤ Self.owed self.old }
        ensures keeps_loan { Self.loan self.new ≡ Self.loan self.old };
}

impl<'a, I: Iter<'a>> IterBodies<'a> for I {
    fn as_slice(&self) -> &'a [u8] {
        let from = self.cursor();
        &self.get_buffer()[from..]
    }

    fn buffer_length(&self) -> usize {
        self.get_buffer().len()
    }

    fn is_buffer_empty(&self) -> bool {
        self.cursor() == self.buffer_length()
    }

    fn first(&self) -> Option<&'a u8> {
        self.get_buffer().get(self.cursor())
    }

    fn first_is_cased(&self, value: u8) -> bool {
        match self.first() {
            Some(byte) => *byte == value,
            None => false,
        }
    }

    fn first_is_uncased(&self, value: u8) -> bool {
        match self.first() {
            Some(byte) => byte.eq_ignore_ascii_case(&value),
            None => false,
        }
    }

    fn first_is(&self, value: u8, is_cased: bool) -> bool {
        if is_cased {
            self.first_is_cased(value)
        } else {
            self.first_is_uncased(value)
        }
    }

    fn peek_u32(&self) -> Option<u32> {
        if !self.is_contiguous() {
            return None;
        }
        let rest = self.as_slice();
        if rest.len() < 4 {
            return None;
        }
        Some(u32::from_le_bytes([rest[0], rest[1], rest[2], rest[3]]))
    }

    fn peek_u64(&self) -> Option<u64> {
        if !self.is_contiguous() {
            return None;
        }
        let rest = self.as_slice();
        if rest.len() < 8 {
            return None;
        }
        Some(u64::from_le_bytes([
            rest[0], rest[1], rest[2], rest[3], rest[4], rest[5], rest[6], rest[7],
        ]))
    }

    fn step_unchecked(&mut self) {
        self.step_by_unchecked(1);
    }
}

/// The calls of lexical-util's `DigitsIter` that have a default body there, under the same names.
/// Every implementer of [`DigitsIter`] has them; a caller imports both traits. The bodies call only
/// `cursor`, `peek`, `set_cursor` and `increment_count`.
pub trait DigitsBodies<'a>: DigitsIter<'a> {
    /// Whether no kept byte is left. The cursor moves to the place.
    fn is_consumed(&mut self) -> bool
        ensures answers { let m = Self.meaning self.old in
            IsTrue result ↔ (Self.place m ≡ length (Self.buffer m)) }
        ensures settles { Self.meaning self.new ≡ Self.settled (Self.meaning self.old) }
        ensures owes { Self.owed self.new ≤ℤ (Self.owed self.old +ℤ pos 4) }
        ensures keeps_loan { Self.loan self.new ≡ Self.loan self.old };

    /// The byte at the place, or `None` at the end. The cursor moves past the place, or to the end.
    /// Unlike `next`, it does not count a digit.
    fn try_read(&mut self) -> Option<&'a u8>
        ensures byte { let m = Self.meaning self.old in
            option_copied result ≡ slice_get (Self.buffer m) (Self.place m) }
        ensures leaves { let m = Self.meaning self.old in
            let byte = slice_get (Self.buffer m) (Self.place m) in
            Self.meaning self.new ≡ if is_some byte
            then Self.moved (Self.settled m) (Self.place m + 1) else Self.settled m }
        ensures owes { Self.owed self.new ≤ℤ (Self.owed self.old +ℤ pos 4) }
        ensures keeps_loan { Self.loan self.new ≡ Self.loan self.old };

    /// Whether the byte at the place is `value`; `false` at the end. The cursor moves to the place.
    fn peek_is_cased(&mut self, value: u8) -> bool
        ensures answers { let m = Self.meaning self.old in
            let byte = slice_get (Self.buffer m) (Self.place m) in
            result ≡ holds_of (λ b. b == value) byte }
        ensures settles { Self.meaning self.new ≡ Self.settled (Self.meaning self.old) }
        ensures owes { Self.owed self.new ≤ℤ (Self.owed self.old +ℤ pos 4) }
        ensures keeps_loan { Self.loan self.new ≡ Self.loan self.old };

    /// Whether the byte at the place equals `value` by `eq_ignore_ascii_case`; `false` at the end.
    /// The cursor moves to the place.
    fn peek_is_uncased(&mut self, value: u8) -> bool
        ensures answers { let m = Self.meaning self.old in
            let byte = slice_get (Self.buffer m) (Self.place m) in
            result ≡ holds_of (λ b. eq_ignore_ascii_case b value) byte }
        ensures settles { Self.meaning self.new ≡ Self.settled (Self.meaning self.old) }
        ensures owes { Self.owed self.new ≤ℤ (Self.owed self.old +ℤ pos 4) }
        ensures keeps_loan { Self.loan self.new ≡ Self.loan self.old };

    /// [`peek_is_cased`](Self::peek_is_cased) if `is_cased`, and
    /// [`peek_is_uncased`](Self::peek_is_uncased) otherwise.
    fn peek_is(&mut self, value: u8, is_cased: bool) -> bool
        ensures answers { let m = Self.meaning self.old in
            let byte = slice_get (Self.buffer m) (Self.place m) in
            result ≡ holds_of (is_value value is_cased) byte }
        ensures settles { Self.meaning self.new ≡ Self.settled (Self.meaning self.old) }
        ensures owes { Self.owed self.new ≤ℤ (Self.owed self.old +ℤ pos 4) }
        ensures keeps_loan { Self.loan self.new ≡ Self.loan self.old };

    /// Reads the byte at the place if `pred` answers `true` for it: then the answer is that byte,
    /// and the cursor moves past the place. Otherwise the answer is `None`, and the cursor moves to
    /// the place, so that the byte can be read again. `pred` is called once, on the byte at the
    /// place; at the end it is not called. Requires that `pred` may be called on that byte.
    fn read_if<Pred: FnOnce(u8) -> bool + Drop>(&mut self, pred: Pred) -> Option<u8>
        requires { let m = Self.meaning self.old in
            IfSome (slice_get (Self.buffer m) (Self.place m)) (λ b. b < 256 → Pred.pre pred b) }
        ensures leaves { let m = Self.meaning self.old in
            let byte = slice_get (Self.buffer m) (Self.place m) in
            let past = Self.moved (Self.settled m) (Self.place m + 1) in
            ReadsIf (Pred.post pred) byte (Self.settled m) past result (Self.meaning self.new) }
        ensures owes { Self.owed self.new ≤ℤ (Self.owed self.old +ℤ pos 4) }
        ensures keeps_loan { Self.loan self.new ≡ Self.loan self.old };

    /// Reads the byte at the place if it is `value`, as [`read_if`](Self::read_if) does.
    fn read_if_value_cased(&mut self, value: u8) -> Option<u8>
        ensures answers { let m = Self.meaning self.old in
            let byte = slice_get (Self.buffer m) (Self.place m) in
            result ≡ byte_if (λ b. b == value) byte }
        ensures leaves { let m = Self.meaning self.old in
            let byte = slice_get (Self.buffer m) (Self.place m) in
            Self.meaning self.new ≡ if holds_of (λ b. b == value) byte
            then Self.moved (Self.settled m) (Self.place m + 1) else Self.settled m }
        ensures owes { Self.owed self.new ≤ℤ (Self.owed self.old +ℤ pos 4) }
        ensures keeps_loan { Self.loan self.new ≡ Self.loan self.old };

    /// Reads the byte at the place if it equals `value` by `eq_ignore_ascii_case`, as
    /// [`read_if`](Self::read_if) does. The answer is the byte of the buffer, in its own case.
    fn read_if_value_uncased(&mut self, value: u8) -> Option<u8>
        ensures answers { let m = Self.meaning self.old in
            let byte = slice_get (Self.buffer m) (Self.place m) in
            result ≡ byte_if (λ b. eq_ignore_ascii_case b value) byte }
        ensures leaves { let m = Self.meaning self.old in
            let byte = slice_get (Self.buffer m) (Self.place m) in
            Self.meaning self.new ≡ if holds_of (λ b. eq_ignore_ascii_case b value) byte
            then Self.moved (Self.settled m) (Self.place m + 1) else Self.settled m }
        ensures owes { Self.owed self.new ≤ℤ (Self.owed self.old +ℤ pos 4) }
        ensures keeps_loan { Self.loan self.new ≡ Self.loan self.old };

    /// [`read_if_value_cased`](Self::read_if_value_cased) if `is_cased`, and
    /// [`read_if_value_uncased`](Self::read_if_value_uncased) otherwise.
    fn read_if_value(&mut self, value: u8, is_cased: bool) -> Option<u8>
        ensures answers { let m = Self.meaning self.old in
            let byte = slice_get (Self.buffer m) (Self.place m) in
            result ≡ byte_if (is_value value is_cased) byte }
        ensures leaves { let m = Self.meaning self.old in
            let byte = slice_get (Self.buffer m) (Self.place m) in
            Self.meaning self.new ≡ if holds_of (is_value value is_cased) byte
            then Self.moved (Self.settled m) (Self.place m + 1) else Self.settled m }
        ensures owes { Self.owed self.new ≤ℤ (Self.owed self.old +ℤ pos 4) }
        ensures keeps_loan { Self.loan self.new ≡ Self.loan self.old };

    /// Reads bytes `0` as long as one is at the place, and answers how many there were. Each is
    /// counted by `increment_count`. The cursor moves to the next kept byte after them, or to the
    /// end.
    fn skip_zeros(&mut self) -> usize
        ensures answers { let m = Self.meaning self.old in
            result ≡
            zeros Self.buffer Self.cursor Self.place Self.moved Self.settled Self.counted m }
        ensures leaves { let m = Self.meaning self.old in
            Self.meaning self.new ≡
            after_zeros Self.buffer Self.cursor Self.place Self.moved Self.settled Self.counted m }
        ensures owes { Self.owed self.new ≤ℤ (Self.owed self.old +ℤ pos (4 * (result + 1))) }
        ensures keeps_loan { Self.loan self.new ≡ Self.loan self.old };
}

impl<'a, I: DigitsIter<'a>> DigitsBodies<'a> for I {
    fn is_consumed(&mut self) -> bool {
        self.peek().is_none()
    }

    fn try_read(&mut self) -> Option<&'a u8> {
        let byte = self.peek()?;
        let at = self.cursor();
        self.set_cursor(at + 1);
        Some(byte)
    }

    fn peek_is_cased(&mut self, value: u8) -> bool {
        match self.peek() {
            Some(byte) => *byte == value,
            None => false,
        }
    }

    fn peek_is_uncased(&mut self, value: u8) -> bool {
        match self.peek() {
            Some(byte) => byte.eq_ignore_ascii_case(&value),
            None => false,
        }
    }

    fn peek_is(&mut self, value: u8, is_cased: bool) -> bool {
        if is_cased {
            self.peek_is_cased(value)
        } else {
            self.peek_is_uncased(value)
        }
    }

    fn read_if<Pred: FnOnce(u8) -> bool + Drop>(&mut self, pred: Pred) -> Option<u8> {
        let byte = *self.peek()?;
        if !pred(byte) {
            return None;
        }
        let at = self.cursor();
        self.set_cursor(at + 1);
        Some(byte)
    }

    fn read_if_value_cased(&mut self, value: u8) -> Option<u8> {
        self.read_if(|byte| byte == value)
    }

    fn read_if_value_uncased(&mut self, value: u8) -> Option<u8> {
        self.read_if(|byte| byte.eq_ignore_ascii_case(&value))
    }

    fn read_if_value(&mut self, value: u8, is_cased: bool) -> Option<u8> {
        if is_cased {
            self.read_if_value_cased(value)
        } else {
            self.read_if_value_uncased(value)
        }
    }

    fn skip_zeros(&mut self) -> usize {
        let mut zeros = 0;
        while self.peek_is_cased(b'0') {
            let at = self.cursor();
            self.set_cursor(at + 1);
            self.increment_count();
            zeros += 1;
        }
        zeros
    }
}

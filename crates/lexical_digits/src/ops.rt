//! The calls of lexical-util by their names, and what a call answers. No function of this crate
//! takes them: they are the rows of the call table, and the crate `digit_script` makes lists of
//! them.

ghost use Rattle.std.specs.Prelude.{◌≡◌, ℕ, ◌+◌, ◌<◌, ◌≤◌};
ghost use Rattle.lexical_format.specs.Word.{bit};
ghost use Rattle.lexical_digits.specs.ByteSet.{accepts};

/// A set of bytes.
#[derive(Clone, Copy, Debug, PartialEq, Eq)]
pub struct ByteSet {
    /// Those below 128. Byte b is bit b.
    pub low: u128,
    /// Those from 128 on. Byte b is bit b - 128.
    pub high: u128,
}

impl ByteSet {
    /// The bytes that a closure accepts. Requires that the closure may be called on every byte.
    pub fn of<F: Fn(u8) -> bool + Drop>(test: F) -> ByteSet
        requires { (b : ℕ) → b < 256 → F.pre test b }
        ensures { (b : ℕ) → b < 256 → F.post test b (accepts result b) }
    {
        ByteSet {
            low: accepted(&test, 0),
            high: accepted(&test, 128),
        }
    }

    /// Whether a byte is in the set.
    pub fn accepts(self, byte: u8) -> bool
        ensures { result ≡ accepts self byte }
    {
        if byte < 128 {
            (self.low >> byte) & 1 == 1
        } else {
            (self.high >> (byte - 128)) & 1 == 1
        }
    }
}

/// Which of the 128 bytes from `start` on a closure accepts. Byte `start + i` is bit i.
fn accepted<F: Fn(u8) -> bool>(test: &F, start: u8) -> u128
    requires low { start ≤ 128 }
    requires test { (b : ℕ) → b < 256 → F.pre test.now b }
    ensures { (i : ℕ) → i < 128 → F.post test.now (start + i) (bit result i) }
{
    let mut bits = 0;
    for i in (0..128).rev() {
        bits = bits * 2 + u128::from(test(start + i));
    }
    bits
}

/// A call of lexical-util by its name, with its arguments. The doc of each variant begins with the
/// lexical-util call that the variant makes.
#[derive(Clone, Copy, Debug, PartialEq, Eq)]
pub enum Op {
    /// `as_slice`: answers the span from the cursor to the end.
    AsSlice,
    /// `get_buffer`: answers the span of the whole buffer.
    GetBuffer,
    /// `buffer_length`: answers a count.
    BufferLength,
    /// `cursor`: answers a count.
    Cursor,
    /// `current_count`: answers a count.
    CurrentCount,
    /// `is_buffer_empty`: answers a flag.
    IsBufferEmpty,
    /// `is_contiguous`: answers a flag.
    IsContiguous,
    /// `set_cursor` to a position. It is refused if the position is after the end of the buffer.
    SetCursor(usize),
    /// `step_by_unchecked` by a number of bytes. It is refused if fewer bytes are left, or if it
    /// could cross a separator.
    StepBy(usize),
    /// `step_unchecked`. It is refused at the end and at a separator that it must not cross.
    Step,
    /// `first`: answers the byte at the cursor.
    First,
    /// `first_is_cased`: whether the byte at the cursor is this byte.
    FirstIsCased(u8),
    /// `first_is_uncased`: whether the byte at the cursor is this byte in either case.
    FirstIsUncased(u8),
    /// `first_is`: `FirstIsCased` if the flag is set, else `FirstIsUncased`.
    FirstIs(u8, bool),
    /// `peek_u32`: answers the next four bytes as a number, the first byte lowest.
    PeekU32,
    /// `peek_u64`: answers the next eight bytes as a number, the first byte lowest.
    PeekU64,
    /// `is_consumed`: whether the iterator keeps no further byte.
    IsConsumed,
    /// `increment_count`.
    IncrementCount,
    /// `peek`: answers the next kept byte.
    Peek,
    /// `try_read`: answers the next kept byte and moves the cursor past it.
    TryRead,
    /// `next`: answers the next kept byte, moves the cursor past it, and counts it if it is a
    /// digit.
    Next,
    /// `peek_is_cased`: whether the next kept byte is this byte.
    PeekIsCased(u8),
    /// `peek_is_uncased`: whether the next kept byte is this byte in either case.
    PeekIsUncased(u8),
    /// `peek_is`: `PeekIsCased` if the flag is set, else `PeekIsUncased`.
    PeekIs(u8, bool),
    /// `read_if` with a closure that accepts only this byte.
    ReadIfEqual(u8),
    /// `read_if` with a closure that accepts no byte.
    ReadIfNever,
    /// `read_if` with a closure that accepts the bytes of this set.
    ReadIf(ByteSet),
    /// `read_if_value_cased`: reads the next kept byte if it is this byte.
    ReadIfValueCased(u8),
    /// `read_if_value_uncased`: reads the next kept byte if it is this byte in either case.
    ReadIfValueUncased(u8),
    /// `read_if_value`: `ReadIfValueCased` if the flag is set, else `ReadIfValueUncased`.
    ReadIfValue(u8, bool),
    /// `skip_zeros`: reads and counts leading zeros, and answers how many there were.
    SkipZeros,
    /// `is_digit`: whether this byte is a digit of the component's radix.
    IsDigit(u8),
    /// `is_sign`: whether this byte is `+` or `-`.
    IsSign(u8),
    /// `is_digit_separator`: whether this byte is the separator.
    IsDigitSeparator(u8),
    /// `take_n`: answers a view of at most this many of the next bytes. The special iterator
    /// refuses it.
    TakeN(usize),
}

/// What a call answered. Positions count bytes from 0, the start of the buffer.
#[derive(Clone, Copy, Debug, PartialEq, Eq)]
pub enum Answer {
    /// Bytes of the buffer, by the position of the first and the position after the last.
    Span(usize, usize),
    /// A length, a position, or a number of bytes that were counted or read.
    Count(usize),
    /// Yes or no.
    Flag(bool),
    /// The call was made; it has no answer.
    Done,
    /// A byte, or `None` where there is none.
    Byte(Option<u8>),
    /// The number of four bytes, or `None` where lexical-util answers `None`.
    Four(Option<u32>),
    /// The number of eight bytes, or `None` where lexical-util answers `None`.
    Eight(Option<u64>),
    /// A view, by its length and its cursor, or `None` where the iterator gives no view.
    View(Option<(usize, usize)>),
    /// The call was not made, and nothing changed: its condition did not hold, or the part does not
    /// have it.
    Refused,
}

//! The call table a second time, as a slow program: what each call answers and leaves, by a filter
//! over the whole buffer that looks at every byte again. It uses neither the library's reads nor
//! their definitions, and nothing is proved of it but that it is safe.

ghost use Rattle.std.specs.Prelude.{◌<◌, ◌≤◌, length};

use digit_script::{Answer, ByteSet, Call, Op, Part};

/// A format word by its parts.
#[derive(Clone, Copy, Debug)]
pub struct Format {
    pub radix: u8,
    /// Zero means `radix`.
    pub exponent_radix: u8,
    /// Zero where there is none.
    pub separator: u8,
    /// The bits 32 to 44 of the word, in their places.
    pub flags: u128,
}

impl Format {
    pub fn word(&self) -> u128 {
        let radixes = (u128::from(self.exponent_radix) << 120) | (u128::from(self.radix) << 104);
        radixes | (u128::from(self.separator) << 64) | self.flags
    }
}

/// The separator and the radix that class the bytes of a component.
#[derive(Clone, Copy)]
struct Alphabet {
    radix: u8,
    separator: u8,
}

/// What a component grants.
#[derive(Clone, Copy)]
struct Flags {
    internal: bool,
    leading: bool,
    trailing: bool,
    consecutive: bool,
}

/// The four flags of a component, the internal one of which is this bit.
fn flags_at(flags: u128, internal: u128) -> Flags {
    Flags {
        internal: flags & internal != 0,
        leading: flags & (internal << 3) != 0,
        trailing: flags & (internal << 6) != 0,
        consecutive: flags & (internal << 9) != 0,
    }
}

/// What is on one side of a separator.
#[derive(Clone, Copy, Debug, PartialEq, Eq)]
enum Class {
    Digit,
    Separator,
    Other,
}

/// From 0 for `0` to 35 for `Z` and `z`, and 36 for a byte that is no digit of any radix.
fn digit_value(byte: u8) -> u8 {
    match byte {
        b'0'..=b'9' => byte - b'0',
        b'A'..=b'Z' => byte - b'A' + 10,
        b'a'..=b'z' => byte - b'a' + 10,
        _ => 36,
    }
}

fn is_digit(alphabet: Alphabet, byte: u8) -> bool {
    digit_value(byte) < alphabet.radix
}

fn is_separator(alphabet: Alphabet, byte: u8) -> bool {
    alphabet.separator != 0 && byte == alphabet.separator
}

/// Beyond either end of the buffer the class is `Other`.
fn class_of(alphabet: Alphabet, byte: Option<u8>) -> Class {
    match byte {
        None => Class::Other,
        Some(byte) if is_digit(alphabet, byte) => Class::Digit,
        Some(byte) if is_separator(alphabet, byte) => Class::Separator,
        Some(_) => Class::Other,
    }
}

/// The class of the right side of a separator, from the bytes after it.
fn right_side(alphabet: Alphabet, flags: Flags, after: &[u8]) -> Class {
    for byte in after {
        if !flags.consecutive || !is_separator(alphabet, *byte) {
            return class_of(alphabet, Some(*byte));
        }
    }
    Class::Other
}

/// The class of the left side of a separator, from the bytes before it.
fn left_side(alphabet: Alphabet, flags: Flags, before: &[u8]) -> Class {
    for byte in before.iter().rev() {
        if !flags.consecutive || !is_separator(alphabet, *byte) {
            return class_of(alphabet, Some(*byte));
        }
    }
    Class::Other
}

fn has_digit(alphabet: Alphabet, bytes: &[u8]) -> bool {
    for byte in bytes {
        if is_digit(alphabet, *byte) {
            return true;
        }
    }
    false
}

/// Whether the byte at a position is kept by the filter that starts at `start`.
fn is_kept(
    alphabet: Alphabet,
    flags: Flags,
    text: &[u8],
    start: usize,
    count: usize,
    at: usize,
) -> bool
    requires from { start ≤ at }
    requires within { at < length text.now }
{
    if !is_separator(alphabet, text[at]) {
        return true;
    }
    let left = if count > 0 || has_digit(alphabet, &text[start..at]) {
        Class::Digit
    } else {
        left_side(alphabet, flags, &text[..at])
    };
    !match (left, right_side(alphabet, flags, &text[at + 1..])) {
        (Class::Separator, _) | (_, Class::Separator) => false,
        (Class::Digit, Class::Digit) => flags.internal,
        (Class::Other, Class::Digit) => flags.leading,
        (Class::Digit, Class::Other) => flags.trailing,
        (Class::Other, Class::Other) => flags.leading || flags.trailing,
    }
}

/// Whether a byte is this value; `is_cased` says whether case matters.
fn is_value(byte: Option<u8>, value: u8, is_cased: bool) -> bool {
    match byte {
        None => false,
        Some(byte) if is_cased => byte == value,
        Some(byte) => byte.to_ascii_lowercase() == value.to_ascii_lowercase(),
    }
}

/// Whether a byte is in a set, by halving.
fn is_in(set: ByteSet, byte: u8) -> bool {
    let mut bits = if byte < 128 { set.low } else { set.high };
    for _ in 0..byte % 128 {
        bits /= 2;
    }
    bits % 2 == 1
}

/// The number of the first four bytes, the first of them lowest.
fn four_bytes(bytes: &[u8]) -> Option<u32> {
    match bytes {
        [a, b, c, d, ..] => Some(
            u32::from(*a) | (u32::from(*b) << 8) | (u32::from(*c) << 16) | (u32::from(*d) << 24),
        ),
        _ => None,
    }
}

/// The number of the first eight bytes, the first of them lowest.
fn eight_bytes(bytes: &[u8]) -> Option<u64> {
    if bytes.len() < 8 {
        return None;
    }
    let low = four_bytes(bytes)?;
    let high = four_bytes(&bytes[4..])?;
    Some(u64::from(low) | (u64::from(high) << 32))
}

/// What a `Bytes` is by the table: its text and word, the cursor and the three counts.
#[derive(Clone, Copy, Debug)]
pub struct Table<'a> {
    pub text: &'a [u8],
    pub format: Format,
    pub cursor: usize,
    pub integer: usize,
    pub fraction: usize,
    pub exponent: usize,
}

impl Table<'_> {
    pub fn new(text: &[u8], format: Format) -> Table<'_> {
        Table {
            text,
            format,
            cursor: 0,
            integer: 0,
            fraction: 0,
            exponent: 0,
        }
    }

    fn alphabet(&self, part: Part) -> Alphabet {
        let Format {
            radix,
            exponent_radix,
            separator,
            flags: _,
        } = self.format;
        let has_its_own = part == Part::Exponent && exponent_radix != 0;
        Alphabet {
            radix: if has_its_own { exponent_radix } else { radix },
            separator,
        }
    }

    fn flags(&self, part: Part) -> Flags {
        let flags = self.format.flags;
        match part {
            Part::Bytes => flags_at(0, 0),
            Part::Integer => flags_at(flags, 1 << 32),
            Part::Fraction => flags_at(flags, 1 << 33),
            Part::Exponent => flags_at(flags, 1 << 34),
            Part::Special => {
                let is_set = flags & (1 << 44) != 0;
                Flags {
                    internal: is_set,
                    leading: is_set,
                    trailing: is_set,
                    consecutive: is_set,
                }
            }
        }
    }

    fn is_contiguous(&self, part: Part) -> bool {
        if part == Part::Bytes {
            return self.format.separator == 0;
        }
        let flags = self.flags(part);
        !(flags.internal || flags.leading || flags.trailing || flags.consecutive)
    }

    /// The count that a part is judged by.
    fn own_count(&self, part: Part) -> usize {
        match part {
            Part::Bytes => 0,
            Part::Integer | Part::Special => self.integer,
            Part::Fraction => self.fraction,
            Part::Exponent => self.exponent,
        }
    }

    fn raise(&mut self, part: Part, n: usize) {
        match part {
            Part::Bytes | Part::Special => {}
            Part::Integer => self.integer = self.integer.saturating_add(n),
            Part::Fraction => self.fraction = self.fraction.saturating_add(n),
            Part::Exponent => self.exponent = self.exponent.saturating_add(n),
        }
    }

    pub fn current_count(&self, part: Part) -> usize {
        if part != Part::Bytes && !self.is_contiguous(part) {
            self.own_count(part)
        } else if self.format.separator == 0 {
            self.cursor
        } else {
            self.integer
                .saturating_add(self.fraction)
                .saturating_add(self.exponent)
        }
    }

    /// The bytes from the cursor on.
    fn rest(&self) -> &[u8] {
        &self.text[self.cursor.min(self.text.len())..]
    }

    fn byte_at(&self, at: usize) -> Option<u8> {
        self.text.get(at).copied()
    }

    /// The least position from the cursor on that the filter keeps, or else the length.
    fn place(&self, part: Part) -> usize {
        let alphabet = self.alphabet(part);
        let flags = self.flags(part);
        let count = self.own_count(part);
        for at in self.cursor..self.text.len() {
            if is_kept(alphabet, flags, self.text, self.cursor, count, at) {
                return at;
            }
        }
        self.text.len()
    }

    /// How many bytes `0` the filter yields first, and the position that it keeps next.
    fn zeros(&self, part: Part) -> (usize, usize) {
        let alphabet = self.alphabet(part);
        let flags = self.flags(part);
        let count = self.own_count(part);
        let mut zeros = 0usize;
        for at in self.cursor..self.text.len() {
            if is_kept(alphabet, flags, self.text, self.cursor, count, at) {
                if self.text[at] != b'0' {
                    return (zeros, at);
                }
                zeros = zeros.saturating_add(1);
            }
        }
        (zeros, self.text.len())
    }

    fn may_step(&self, part: Part, count: usize) -> bool {
        if count > self.rest().len() {
            return false;
        }
        match (self.is_contiguous(part), count) {
            (true, _) | (false, 0) => true,
            (false, 1) => class_of(self.alphabet(part), self.byte_at(self.cursor))
                != Class::Separator,
            (false, _) => false,
        }
    }

    fn step(&mut self, part: Part, count: usize) -> Answer {
        if !self.may_step(part, count) {
            return Answer::Refused;
        }
        self.cursor = self.cursor.saturating_add(count);
        Answer::Done
    }

    /// Reads the byte at the place if it passes.
    fn read_if(&mut self, place: usize, passes: bool) -> Answer {
        if place >= self.text.len() || !passes {
            self.cursor = place;
            return Answer::Byte(None);
        }
        self.cursor = place.saturating_add(1);
        Answer::Byte(self.byte_at(place))
    }

    fn take_n(&mut self, part: Part, n: usize) -> Answer {
        if part == Part::Special {
            return Answer::Refused;
        }
        if !self.is_contiguous(part) {
            return Answer::View(None);
        }
        let from = self.cursor;
        self.cursor = from.saturating_add(n).min(self.text.len());
        Answer::View(Some((self.cursor, from)))
    }

    /// The row of a call that only the iterators have.
    fn read(&mut self, part: Part, op: Op) -> Answer {
        let alphabet = self.alphabet(part);
        let place = self.place(part);
        let byte = self.byte_at(place);
        match op {
            Op::IncrementCount => {
                self.raise(part, 1);
                return Answer::Done;
            }
            Op::SkipZeros => {
                let (zeros, next) = self.zeros(part);
                self.cursor = next;
                self.raise(part, zeros);
                return Answer::Count(zeros);
            }
            Op::IsDigit(value) => return Answer::Flag(is_digit(alphabet, value)),
            Op::IsSign(value) => return Answer::Flag(value == b'+' || value == b'-'),
            Op::IsDigitSeparator(value) => {
                return Answer::Flag(is_separator(alphabet, value));
            }
            Op::TakeN(n) => return self.take_n(part, n),
            Op::TryRead => return self.read_if(place, true),
            Op::Next => {
                let counts = part != Part::Special && !self.is_contiguous(part);
                if counts && class_of(alphabet, byte) == Class::Digit {
                    self.raise(part, 1);
                }
                return self.read_if(place, true);
            }
            Op::ReadIfEqual(value) | Op::ReadIfValueCased(value) => {
                return self.read_if(place, is_value(byte, value, true));
            }
            Op::ReadIfNever => return self.read_if(place, false),
            Op::ReadIf(set) => {
                return self.read_if(place, byte.is_some_and(|byte| is_in(set, byte)));
            }
            Op::ReadIfValueUncased(value) => {
                return self.read_if(place, is_value(byte, value, false));
            }
            Op::ReadIfValue(value, is_cased) => {
                return self.read_if(place, is_value(byte, value, is_cased));
            }
            _ => {}
        }
        self.cursor = place;
        match op {
            Op::Peek => Answer::Byte(byte),
            Op::IsConsumed => Answer::Flag(byte.is_none()),
            Op::PeekIsCased(value) => Answer::Flag(is_value(byte, value, true)),
            Op::PeekIsUncased(value) => Answer::Flag(is_value(byte, value, false)),
            Op::PeekIs(value, is_cased) => Answer::Flag(is_value(byte, value, is_cased)),
            _ => Answer::Refused,
        }
    }

    /// Makes a call: answers as the call table does, and leaves its state.
    pub fn answer(&mut self, call: Call) -> Answer {
        let Call { part, op } = call;
        let first = self.byte_at(self.cursor);
        let length = self.text.len();
        match op {
            Op::AsSlice => Answer::Span(self.cursor, length),
            Op::GetBuffer => Answer::Span(0, length),
            Op::BufferLength => Answer::Count(length),
            Op::Cursor => Answer::Count(self.cursor),
            Op::CurrentCount => Answer::Count(self.current_count(part)),
            Op::IsBufferEmpty => Answer::Flag(self.cursor == length),
            Op::IsContiguous => Answer::Flag(self.is_contiguous(part)),
            Op::SetCursor(index) if index <= length => {
                self.cursor = index;
                Answer::Done
            }
            Op::SetCursor(_) => Answer::Refused,
            Op::StepBy(count) => self.step(part, count),
            Op::Step => self.step(part, 1),
            Op::First => Answer::Byte(first),
            Op::FirstIsCased(value) => Answer::Flag(is_value(first, value, true)),
            Op::FirstIsUncased(value) => Answer::Flag(is_value(first, value, false)),
            Op::FirstIs(value, is_cased) => Answer::Flag(is_value(first, value, is_cased)),
            Op::PeekU32 if self.is_contiguous(part) => Answer::Four(four_bytes(self.rest())),
            Op::PeekU32 => Answer::Four(None),
            Op::PeekU64 if self.is_contiguous(part) => Answer::Eight(eight_bytes(self.rest())),
            Op::PeekU64 => Answer::Eight(None),
            _ if part == Part::Bytes => Answer::Refused,
            _ => self.read(part, op),
        }
    }
}

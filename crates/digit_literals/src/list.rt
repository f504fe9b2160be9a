//! Lists of numbers, which are read into a slice.

ghost use Rattle.std.specs.Prelude.{◌≡◌, ℕ, List, ◌+◌, ◌-◌, ◌<◌, ◌≤◌, length, take_while, true, false, IfOk, IfErr, IsTrue};
ghost use Rattle.lexical_format.specs.Word.{is_supported};
ghost use Rattle.lexical_digits.specs.declared.skip.component.Component.TheVariants.{Integer};
ghost use Rattle.lexical_digits.specs.ByteSet.{accepts};
ghost use Rattle.lexical_digits.specs.State.{rule_of};
ghost use Rattle.digit_values.specs.Errors.{literal_none_at};
ghost use Rattle.digit_literals.specs.Lists.{is_blank, has_blank, has_separator, past_blanks, next_after, no_number, list_at, SoFar, Fills, IfFull, IfOver};
ghost use Rattle.digit_integers.specs.Numbers.{number_at};

use super::ends::{is_by_ends, read_by_ends};
use super::one::ReadsOne;
use digit_integers::{Integer, read_number_from};
use digit_values::{BLANKS, LiteralError, accepts};
use lexical_digits::ops::ByteSet;

/// What is between two numbers of a list: one separator, with any blanks around it.
#[derive(Clone, Copy, Debug, PartialEq, Eq)]
pub struct Gap {
    /// The bytes that separate: one of them is between two numbers.
    pub separators: ByteSet,
    /// The bytes that may be around a separator, before the first number, and after the last one. A
    /// byte of `separators` isn't a blank, even if it is here, too.
    pub blanks: ByteSet,
    /// Whether a run of blanks, without a separator among them, is itself a separator.
    pub blanks_separate: bool,
    /// If `true`, a separator may be last, and the list may be empty: where no number begins, the
    /// list is over. If `false`, a number has to come first, and after each separator.
    pub may_trail: bool,
}

/// Space and tab: the blanks within a line.
pub const SPACES: ByteSet = ByteSet {
    low: (1 << 9) | (1 << 32),
    high: 0,
};

/// One comma, with any [`BLANKS`](digit_values::BLANKS) around it: between the numbers of a JSON
/// array.
pub const COMMAS: Gap = Gap {
    separators: ByteSet {
        low: 1 << 44,
        high: 0,
    },
    blanks: BLANKS,
    blanks_separate: false,
    may_trail: false,
};

/// One comma, with any spaces and tabs around it: between the numbers of a line of CSV.
pub const COMMAS_IN_LINE: Gap = Gap {
    blanks: SPACES,
    ..COMMAS
};

/// Spaces, tabs, and ends of lines: between the numbers of a matrix, or of a file. They may follow
/// the last number.
pub const WHITESPACE: Gap = Gap {
    separators: ByteSet { low: 0, high: 0 },
    blanks: BLANKS,
    blanks_separate: true,
    may_trail: true,
};

/// Spaces and tabs: between the numbers of a row, or of a line of a log. They may follow the last
/// number.
pub const SPACES_IN_LINE: Gap = Gap {
    blanks: SPACES,
    ..WHITESPACE
};

/// One line feed, with any spaces, tabs and carriage returns around it: between the numbers of a
/// column. The last line may have one too; an empty line is no number.
pub const LINES: Gap = Gap {
    separators: ByteSet {
        low: 1 << 10,
        high: 0,
    },
    blanks: BLANKS,
    blanks_separate: false,
    may_trail: true,
};

/// Why a list was read no further.
#[derive(Clone, Copy, Debug, PartialEq, Eq)]
pub enum ListEnd<E> {
    /// The slice is full. The next number may begin at this position: after a separator, or at
    /// `start` if the slice has no place.
    Full(usize),
    /// The list has ended without a fault: this is the first byte after the last number and its
    /// blanks, or the end of the text. If the gap may trail, it may also be after a last separator.
    Over(usize),
    /// A number is missing where one has to be, or one begins and is refused, such as one too
    /// large, or of a signed type a `-` without a digit.
    Fault(E),
}

/// How many numbers were read, and why no more.
#[derive(Clone, Copy, Debug, PartialEq, Eq)]
pub struct ListRead<E> {
    /// How many numbers were written into the slice.
    pub count: usize,
    /// Why there are no more.
    pub end: ListEnd<E>,
}

impl Gap {
    /// Whether a byte may be around a separator.
    #[inline(always)]
    fn is_blank(self, byte: u8) -> bool
        ensures { result ≡ is_blank self byte }
    {
        accepts(self.blanks, byte) && !accepts(self.separators, byte)
    }

    /// Whether a digit may be a blank.
    #[inline(always)]
    #[tactic(auto, using(crate::proofs::Lists::no_digit_is))]
    pub(super) fn has_digits(self) -> bool
        ensures { result ≡ false → (byte : ℕ) → 48 ≤ byte → byte < 58
            → is_blank self byte ≡ false }
    {
        (self.blanks.low >> 48) % 1024 != 0
    }

    /// How many blanks a text begins with.
    #[inline(always)]
    fn count_blanks(self, text: &[u8]) -> usize
        ensures is { result ≡ length (take_while (is_blank self) text.now) }
        ensures within { result ≤ length text.now }
    {
        text.iter().take_while(|byte| self.is_blank(**byte)).count()
    }

    /// Whether a blank is at a position.
    #[inline(always)]
    fn has_blank(self, text: &[u8], at: usize) -> bool
        ensures is { result ≡ has_blank self text.now at }
        ensures within { result ≡ true → at < length text.now }
    {
        match text.get(at) {
            Some(byte) => self.is_blank(*byte),
            None => false,
        }
    }

    /// The first position from this one on without a blank, or the end of the text. Requires that
    /// the position is within the text.
    #[inline(always)]
    #[tactic(auto, using(crate::proofs::Lists::no_blank), unfolding(crate::specs::Lists::past_blanks))]
    pub fn past_blanks(self, text: &[u8], at: usize) -> usize
        requires { at ≤ length text.now }
        ensures is { result ≡ past_blanks self text.now at }
        ensures onward { at ≤ result }
        ensures within { result ≤ length text.now }
    {
        // the usual case, in which none is counted
        if self.has_blank(text, at) {
            at + self.count_blanks(&text[at..])
        } else {
            at
        }
    }

    /// [`past_blanks`](Gap::past_blanks), where a blank is expected: one takes no loop.
    #[inline(always)]
    #[tactic(auto, using(digit_values::proofs::Passing::passing), unfolding(crate::specs::Lists::past_blanks))]
    pub(super) fn past_few_blanks(self, text: &[u8], at: usize) -> usize
        requires { at ≤ length text.now }
        ensures is { result ≡ past_blanks self text.now at }
        ensures onward { at ≤ result }
        ensures within { result ≤ length text.now }
    {
        if !self.has_blank(text, at) {
            return at;
        }
        let next = at + 1;
        if !self.has_blank(text, next) {
            return next;
        }
        let rest = next + 1;
        rest + self.count_blanks(&text[rest..])
    }

    /// Where the next number may be, if a separator follows the number that ends at a position.
    /// Otherwise the error is the first position without a blank. Requires that the position is
    /// within the text.
    #[inline(always)]
    #[tactic(auto, using(crate::proofs::Lists::separator_is_no_blank))]
    pub fn next_after(self, text: &[u8], end: usize) -> Result<usize, usize>
        requires { end ≤ length text.now }
        ensures is { result ≡ next_after self text.now end }
        ensures onward { IfOk result (λ next. end < next) }
        ensures within { IfOk result (λ next. next ≤ length text.now) }
        ensures over { IfErr result (λ over. (end ≤ over) × (over ≤ length text.now)) }
    {
        // the usual case, in which no blank is looked for
        if self.has_separator(text, end) {
            return Ok(end + 1);
        }
        let at = self.past_blanks(text, end);
        if self.has_separator(text, at) {
            Ok(at + 1)
        } else if self.blanks_separate && at > end {
            Ok(at)
        } else {
            Err(at)
        }
    }

    /// Whether a separator is at a position.
    #[inline(always)]
    pub(super) fn has_separator(self, text: &[u8], at: usize) -> bool
        ensures is { result ≡ has_separator self text.now at }
        ensures within { result ≡ true → at < length text.now }
    {
        match text.get(at) {
            Some(byte) => accepts(self.separators, *byte),
            None => false,
        }
    }

    /// Why a list ends where a number may be, if there is none but an error. `is_none` is whether
    /// the error says that no number begins there.
    #[inline(always)]
    pub fn no_number<E: Copy>(self, place: usize, is_none: bool, error: E) -> ListEnd<E>
        ensures { result ≡ no_number self place is_none error }
    {
        if self.may_trail && is_none {
            ListEnd::Over(place)
        } else {
            ListEnd::Fault(error)
        }
    }
}

/// How many places a slice has at least, if numbers are read by their ends: a call, which fewer
/// don't pay for.
const MANY: usize = 64;

/// Reads the integers of a list from `begin` on one by one. `from` are in the slice. It has the
/// loop of [`read_list_with`] once more, only for speed: over [`Integers`](crate::Integers) that
/// takes some 5 instructions more a number, and 88 a call.
#[inline(always)]
#[tactic(auto, using(crate::proofs::Lists::turns))]
fn read_rest<T: Integer>(
    text: &[u8],
    begin: usize,
    word: u128,
    gap: Gap,
    out: &mut [T],
    from: usize,
) -> ListRead<LiteralError>
    requires supported { IsTrue (is_supported word) }
    requires within { begin ≤ length text.now }
    requires room { from ≤ length out.old }
    ensures fills { let one = number_at T.MIN_MAGNITUDE T.MAX (rule_of word Integer) text.now in
        (start : ℕ) (old : List T)
        → SoFar T.number one literal_none_at gap text.now start from begin old out.old
        → Fills T.number (list_at one literal_none_at gap text.now (length old) start) result old
        out.new }
    ensures count { result.count ≤ length out.old }
    ensures full { IfFull result.end (λ at. (begin ≤ at) × (at ≤ length text.now)) }
    ensures over { IfOver result.end (λ at. (begin ≤ at) × (at ≤ length text.now)) }
    ensures length { length out.new ≡ length out.old }
{
    let mut at = begin;
    for count in from..out.len() {
        let place = gap.past_blanks(text, at);
        let (value, end) = match read_number_from::<T>(text, word, place) {
            Ok(read) => read,
            Err(error) => {
                let end = gap.no_number(place, error.is_none_at(place), error);
                return ListRead { count, end };
            }
        };
        out[count] = value;
        match gap.next_after(text, end) {
            Ok(next) => at = next,
            Err(over) => {
                return ListRead {
                    count: count + 1,
                    end: ListEnd::Over(over),
                };
            }
        }
    }
    ListRead {
        count: out.len(),
        end: ListEnd::Full(at),
    }
}

/// The numbers from `start` on, read into a slice: each as `reads` reads it, with what `gap` says
/// between two of them. A list over a slice is a call of it, but for [`read_list`] and the
/// `read_list` of a `Kind` of `digit_pieces`, which end as it does. It is for the crates above this
/// one. Requires that `reads` is valid and `start` is within the text.
#[inline(always)]
#[tactic(auto, using(crate::proofs::Lists::turns))]
pub fn read_list_with<R: ReadsOne>(
    reads: R,
    text: &[u8],
    start: usize,
    gap: Gap,
    out: &mut [R::Number],
) -> ListRead<R::Error>
    requires valid { R.valid reads }
    requires within { start ≤ length text.now }
    ensures is { let list = list_at (R.number_at reads text.now) R.none_at gap text.now
        (length out.old) start in
        Fills R.meaning list result out.old out.new }
    ensures count { result.count ≤ length out.old }
    ensures full { IfFull result.end (λ at. (start ≤ at) × (at ≤ length text.now)) }
    ensures over { IfOver result.end (λ at. (start ≤ at) × (at ≤ length text.now)) }
{
    let mut at = start;
    for count in 0..out.len() {
        let place = gap.past_blanks(text, at);
        let (number, end) = match reads.read_number(text, place) {
            Ok(read) => read,
            Err(error) => {
                let end = gap.no_number(place, R::is_none_at(error, place), error);
                return ListRead { count, end };
            }
        };
        out[count] = number;
        match gap.next_after(text, end) {
            Ok(next) => at = next,
            Err(over) => {
                return ListRead {
                    count: count + 1,
                    end: ListEnd::Over(over),
                };
            }
        }
    }
    ListRead {
        count: out.len(),
        end: ListEnd::Full(at),
    }
}

/// Reads integers from `start` on. Takes no memory. Requires that `start` is within the text and
/// the word is supported.
///
/// Each is read as by [`read_number_from`](digit_integers::read_number_from), with what `gap` says
/// between two of them. It reads until the slice is full, the list is over, or there is a fault.
/// The front of the slice has the numbers that were read, its rest isn't touched.
///
/// [`Full(at)`](ListEnd::Full) says that the slice is full: the next call goes on from `at`, and
/// the two read what one would ([`a_list_goes_on`](crate::laws::lists::a_list_goes_on)).
/// [`Over(at)`](ListEnd::Over) says that the list ended well: `at` is the first byte after it. A
/// list that just fills the slice, and has no separator after its last number, ends so too.
/// [`Fault(error)`](ListEnd::Fault) says that a number is missing where one has to be, as after a
/// comma, or that one begins and is refused. A list without numbers is a fault, too, unless the gap
/// is one that `may_trail`. Blanks before the first number are passed.
///
/// ```text
/// `1, 2 ,3]` with COMMAS, into 3 places: count 3, Over(7)
/// `1,2,3`, into 2 places: count 2, Full(4)      `1, x`: count 1, Fault(Empty(3))
/// `1\n2\n` with LINES: count 2, Over(4)         `]` with COMMAS: count 0, Fault(Empty(0))
/// ```
#[inline(always)]
#[tactic(auto, using(crate::proofs::Lists::turns))]
pub fn read_list<T: Integer>(
    text: &[u8],
    start: usize,
    word: u128,
    gap: Gap,
    out: &mut [T],
) -> ListRead<LiteralError>
    requires supported { IsTrue (is_supported word) }
    requires within { start ≤ length text.now }
    ensures is { let r = rule_of word Integer in
        let list = list_at (number_at T.MIN_MAGNITUDE T.MAX r text.now) literal_none_at gap
        text.now (length out.old) start in
        Fills T.number list result out.old out.new }
    ensures count { result.count ≤ length out.old }
    ensures full { IfFull result.end (λ at. (start ≤ at) × (at ≤ length text.now)) }
    ensures over { IfOver result.end (λ at. (start ≤ at) × (at ≤ length text.now)) }
{
    let mut at = start;
    let mut from = 0;
    if out.len() >= MANY && is_by_ends(text, word, gap, start) {
        // a copy, so that the gap goes to memory here alone
        match read_by_ends(text, start, word, Gap { ..gap }, out) {
            Ok(went) => {
                at = went.at;
                from = went.count;
            }
            Err(read) => return read,
        }
    }
    read_rest(text, at, word, gap, out, from)
}

/// Whether [`read_list`] begins to read a list by its ends, into a slice of so many places. That is
/// about twice as fast as one number after the other. No answer depends on it: it is for the crates
/// above this one, which choose a way by it. Requires that `start` is within the text.
#[inline(always)]
pub fn is_list_by_ends(text: &[u8], start: usize, word: u128, gap: Gap, room: usize) -> bool
    requires { start ≤ length text.now }
{
    room >= MANY && is_by_ends(text, word, gap, start)
}

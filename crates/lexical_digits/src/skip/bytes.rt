//! A `Bytes`: its fields, its word, its counts and its cursor. The module `reading` has the reads.

ghost use Rattle.std.specs.Prelude.{◌≡◌, ℕ, ◌+◌, ◌-◌, ◌*◌, ◌^◌, ◌<◌, ◌≤◌, min, if◌then◌else◌, length, List, None, IsTrue, pos, ◌≤ℤ◌, ◌+ℤ◌};
ghost use Rattle.lexical_format.specs.Word.{separator, is_supported};
ghost use Rattle.lexical_digits.specs.Separators.{is_digit, is_separator, IsSupported};
ghost use Rattle.lexical_digits.specs.State.{IsState, with_cursor, with_no_counts, start, rule, own, with_own, counts, saturating, is_contiguous, has_no_separator, count_of_all, current_count, cut, cut_end};
ghost use Rattle.lexical_digits.specs.CallTable.{counted_by};
ghost use Rattle.lexical_digits.specs.Cursor.{CanStep};
ghost use Rattle.lexical_digits.specs.Looks.{owed, NoLooks, IsCopy, Remembers};
ghost use Rattle.lexical_digits.specs.Fields.Tally.{state_of};
ghost use Rattle.lexical_digits.specs.Fields.Bytes.{IsReading, has_no_flags as has_no_flags_of};

mod reading;
mod tally;

use self::tally::Tally;
use super::component::Component;
use super::decision::Run;
use super::rule::{Rule, Shortcuts};
use crate::iterator::Iter;
use std::alloc::AllocError;
use std::convert::Infallible;
use std::marker::Model;

/// A buffer with a format word, a cursor, and the counts of three components: lexical-util's
/// `skip::Bytes`. Positions count bytes from 0.
#[derive(Drop)]
pub struct Bytes<'a> {
    /// The whole buffer.
    slc: &'a [u8],
    /// The format word.
    format: u128,
    /// Whether no component of the word has a flag.
    has_no_flags: bool,
    /// The rule of the component that reads.
    rule: Rule,
    /// The direct bytes of the component that reads.
    shortcuts: Shortcuts,
    /// The cursor, the counts, the looks, and the component that reads.
    tally: Tally,
    /// The run of separators that is remembered.
    run: Option<Run>,
    // The cursor is within the buffer, the word is supported, and the counts fit.
    ghost holds: { IsState (state_of slc.now format tally) },
    // `has_no_flags` is of the word.
    ghost flags: { has_no_flags ≡ has_no_flags_of format },
    // `rule`, `shortcuts` and `is_counting` are those of the component that reads.
    ghost reading: { IsReading format tally.reader tally.is_counting rule shortcuts },
    // `run` is a maximal run of this buffer, or none.
    ghost remembers: { Remembers (separator format) slc.now run },
}

impl<'a> Model for Bytes<'a> {
    ghost use Rattle.lexical_digits.specs.Looks.{Held};
    ghost use Rattle.lexical_digits.specs.Fields.Bytes.{held_of};

    ghost Value = { Held };

    ghost view = { λ b. held_of b.slc.now b.format b.tally b.run b.holds b.remembers };
}

/// The type whose model is the state of a `Bytes`. It has no value.
pub struct Meaning {
    _none: Infallible,
}

impl Model for Meaning {
    ghost use Rattle.std.specs.Prelude.{[]};
    ghost use Rattle.lexical_digits.specs.State.{State, start};

    ghost Value = { State };

    ghost view = { λ _. start [] 0 };
}

/// Whether no component has a flag.
#[inline(always)]
fn has_no_flags(word: u128) -> bool
    ensures { result ≡ has_no_flags_of word }
{
    !Rule::of(word, Component::Integer).has_flags()
        && !Rule::of(word, Component::Fraction).has_flags()
        && !Rule::of(word, Component::Exponent).has_flags()
        && !Rule::of(word, Component::Special).has_flags()
}

impl<'a> Bytes<'a> {
    /// A `Bytes` with the cursor and all counts at 0, no remembered run, and no look counted.
    /// Requires that the word is supported.
    pub fn new(slc: &'a [u8], format: u128) -> Self
        requires { IsTrue (is_supported format) }
        ensures state { result.state ≡ start slc.now format }
        ensures run { result.run ≡ None }
        ensures looks { result.looks ≡ 0 }
    {
        let rule = Rule::of(format, Component::Integer);
        let is_counting = rule.has_flags();
        Bytes {
            slc,
            format,
            has_no_flags: has_no_flags(format),
            rule,
            shortcuts: Shortcuts::of(rule, is_counting),
            tally: Tally::new(0, Component::Integer, is_counting),
            run: None,
        }
    }

    /// How many looks at a byte the reads on this `Bytes` counted. The counter stops at `u64::MAX`.
    pub fn looks(&self) -> u64
        ensures { result ≡ self.now.looks }
    {
        self.tally.looks()
    }

    /// Whether a byte is the separator. A separator of zero means that no byte is one.
    #[inline(always)]
    pub(crate) fn is_separator(&self, value: u8) -> bool
        ensures { result ≡ is_separator (separator self.now.state.word) value }
    {
        self.rule.is_separator(value)
    }

    /// The rule of a component by the word.
    #[inline(always)]
    pub fn rule(&self, component: Component) -> Rule
        ensures value { result ≡ rule component self.now.state }
        ensures supported { IsSupported result }
    {
        Rule::of(self.format, component)
    }

    /// Whether a byte is a digit of a component's radix. This is `is_digit` of the component's
    /// iterator.
    #[inline(always)]
    pub fn is_digit_of(&self, component: Component, value: u8) -> bool
        ensures { result ≡ is_digit (rule component self.now.state) value }
    {
        self.rule(component).is_digit(value)
    }

    /// Whether a component has none of its flags.
    #[inline(always)]
    pub(crate) fn is_contiguous_for(&self, component: Component) -> bool
        ensures { result ≡ is_contiguous component self.now.state.word }
    {
        !self.rule(component).has_flags()
    }

    /// The count of a component; where the component has no flags, the sum of the counts. This is
    /// `current_count` of the component's iterator.
    #[inline(always)]
    pub fn current_count_of(&self, component: Component) -> usize
        ensures { result ≡ current_count component self.now.state }
    {
        if self.is_contiguous_for(component) {
            self.count_of_all()
        } else {
            self.tally.count(component)
        }
    }

    /// The sum of the counts, or the cursor where no byte is a separator.
    #[inline(always)]
    fn count_of_all(&self) -> usize
        ensures { result ≡ count_of_all self.now.state }
    {
        if self.is_contiguous() {
            self.tally.index
        } else {
            let integer = self.tally.count(Component::Integer);
            integer
                .saturating_add(self.tally.count(Component::Fraction))
                .saturating_add(self.tally.count(Component::Exponent))
        }
    }

    /// Adds that many digits to the count of a component: as many calls of `increment_count` of the
    /// component's iterator. The count stops at `usize::MAX`, and special has none. It is for
    /// digits that a caller reads in another way, such as eight at once by `peek_u64`. Where an
    /// iterator's `peek_u64` answers, its own `next` counts nothing, so count either all digits of
    /// a component by this call or none.
    #[tactic(auto, using(crate::proofs::Looks::Owed::owed_onward))]
    #[inline(always)]
    pub fn increment_count_of(&mut self, component: Component, digits: usize)
        ensures state { self.new.state ≡ counted_by digits component self.old.state }
        ensures no_looks { NoLooks self.old self.new }
        ensures owes { owed self.new ≤ℤ owed self.old }
    {
        self.tally.add_digits(component, digits);
    }

    /// Passes the bytes up to `end`, which a caller read by itself: moves the cursor there, and
    /// counts two looks for each of these bytes, as `next` does, and that many digits if `next` of
    /// the component counts digits. The remembered run stays. Requires that `end` is from the
    /// cursor on and within the buffer.
    #[inline(always)]
    pub fn pass_read(&mut self, component: Component, end: usize, digits: usize)
        requires onward { self.old.state.cursor ≤ end }
        requires within { end ≤ length self.old.state.buffer }
        ensures state { let s = self.old.state in
            let count =
            if counts component s.word
            then saturating (own component s) digits
            else own component s in
            self.new.state ≡ with_cursor (with_own component s count) end }
        ensures run { self.new.run ≡ self.old.run }
        ensures looks { let passed = end - self.old.state.cursor in
            self.new.looks ≡ saturating self.old.looks (2 * passed) }
        ensures owes { let passed = end - self.old.state.cursor in
            owed self.new ≤ℤ (owed self.old +ℤ pos (2 * passed)) }
    {
        let counted = self.rule(component).counted(component, digits);
        self.tally.pass_to(component, end, counted);
    }

    /// Goes on from where a copy of this `Bytes` is: takes its cursor, counts, looks and remembered
    /// run. The component that read still reads. Requires that the copy has the same buffer and
    /// word, and no fewer looks: no look is taken back.
    #[inline(always)]
    pub fn go_on_from(&mut self, copy: Bytes<'a>)
        requires buffer { copy.state.buffer ≡ self.old.state.buffer }
        requires word { copy.state.word ≡ self.old.state.word }
        requires looks { min self.old.looks (2 ^ 64 - 1) ≤ copy.looks }
        ensures { IsCopy copy.entry self.new }
    {
        self.tally.go_on_from(copy.tally);
        self.run = copy.run;
    }

    /// Sets the three counts to 0, for a number that begins at the cursor. Its separators are then
    /// judged as in a fresh `Bytes` at this cursor. The cursor, the looks and the remembered run
    /// stay.
    #[tactic(auto, using(crate::proofs::Looks::Owed::owed_onward))]
    #[inline]
    pub fn clear_counts(&mut self)
        ensures state { self.new.state ≡ with_no_counts self.old.state }
        ensures no_looks { NoLooks self.old self.new }
        ensures owes { owed self.new ≤ℤ owed self.old }
    {
        self.tally.clear();
    }

    /// Moves the cursor to any position of the buffer. Counts no look.
    #[tactic(auto, using(crate::proofs::Looks::Owed::owed_by_moves))]
    #[inline(always)]
    pub(crate) fn move_to(&mut self, index: usize)
        requires { index ≤ length self.old.state.buffer }
        ensures state { self.new.state ≡ with_cursor self.old.state index }
        ensures no_looks { NoLooks self.old self.new }
        ensures owes { self.old.state.cursor ≤ index → owed self.new ≤ℤ owed self.old }
        ensures owes_back { let n = length self.old.state.buffer in
            owed self.new ≤ℤ (owed self.old +ℤ pos (3 * n)) }
    {
        self.tally.move_to(index);
    }

    /// Moves the cursor onward by that many bytes. Counts no look. It asks for no position before
    /// the cursor, as `move_to` has to: that would store the counts in each step of a loop.
    #[tactic(auto, using(crate::proofs::Looks::Owed::owed_onward))]
    #[inline(always)]
    pub(crate) fn advance(&mut self, count: usize)
        requires { self.old.state.cursor + count ≤ length self.old.state.buffer }
        ensures state { let index = self.old.state.cursor + count in
            self.new.state ≡ with_cursor self.old.state index }
        ensures no_looks { NoLooks self.old self.new }
        ensures owes { owed self.new ≤ℤ owed self.old }
    {
        prove!(self.tally.index <= self.slc.len());
        let index = self.tally.index + count;
        self.tally.move_onward(index);
    }

    /// A view: the buffer up to `n` bytes after the cursor, with this cursor and no counts. The
    /// cursor of this `Bytes` moves to the end of the view.
    #[tactic(auto, using(crate::proofs::Looks::Owed::owed_onward))]
    pub(crate) fn cut(&mut self, n: usize) -> Bytes<'a>
        ensures view { result.state ≡ cut self.old.state (cut_end self.old.state n) }
        ensures view_run { result.run ≡ None }
        ensures view_looks { result.looks ≡ 0 }
        ensures state { self.new.state ≡ with_cursor self.old.state (cut_end self.old.state n) }
        ensures no_looks { NoLooks self.old self.new }
        ensures owes { owed self.new ≤ℤ owed self.old }
    {
        let end = self.tally.index.saturating_add(n).min(self.slc.len());
        let view = Bytes {
            slc: &self.slc[..end],
            format: self.format,
            has_no_flags: self.has_no_flags,
            rule: self.rule,
            shortcuts: self.shortcuts,
            tally: Tally::new(self.tally.index, self.tally.reader, self.tally.is_counting),
            run: None, // a view remembers no run
        };
        self.move_to(end);
        view
    }
}

impl<'a> Clone for Bytes<'a> {
    ghost use Rattle.lexical_digits.specs.Looks.{IsCopy};

    ghost is_clone = { IsCopy };

    ghost is_infallible = { λ _. Unit {0} };

    fn clone(&self) -> Result<Bytes<'a>, AllocError> {
        Ok(Bytes {
            slc: self.slc,
            format: self.format,
            has_no_flags: self.has_no_flags,
            rule: self.rule,
            shortcuts: self.shortcuts,
            tally: self.tally,
            run: self.run,
        })
    }
}

impl<'a> Iter<'a> for Bytes<'a> {
    ghost use Rattle.lexical_format.specs.Word.{separator};
    ghost use Rattle.lexical_digits.specs.Separators.{is_separator};
    ghost use Rattle.lexical_digits.specs.State.{IsState, with_cursor, count_of_all, has_no_separator};
    ghost use Rattle.lexical_digits.specs.Looks.{owed, NoLooks};
    ghost use Rattle.lexical_digits.specs.Laws.Table.{bytes_laws};

    type Meaning = Meaning;

    ghost meaning = { λ b. b.state };

    ghost valid = { IsState };

    ghost Loan = { Unit {0} };

    ghost loan = { λ _. tt };

    ghost owed = { owed };

    ghost NoLooks = { NoLooks };

    ghost buffer = { λ m. m.buffer };

    ghost cursor = { λ m. m.cursor };

    ghost current_count = { count_of_all };

    ghost contiguous = { λ m. has_no_separator m.word };

    ghost separates = { λ m b. is_separator (separator m.word) b };

    ghost moved = { with_cursor };

    #[inline(always)]
    fn get_buffer(&self) -> &'a [u8] {
        self.slc
    }

    #[inline(always)]
    fn cursor(&self) -> usize {
        prove!(self.tally.index <= self.slc.len());
        self.tally.index
    }

    #[inline(always)]
    fn set_cursor(&mut self, index: usize)
        requires { index ≤ length self.old.state.buffer }
        ensures moves { self.new.state ≡ with_cursor self.old.state index }
        ensures no_looks { NoLooks self.old self.new }
        ensures owes { self.old.state.cursor ≤ index → owed self.new ≤ℤ owed self.old }
        ensures owes_back { let n = length self.old.state.buffer in
            owed self.new ≤ℤ (owed self.old +ℤ pos (3 * n)) }
    {
        self.move_to(index);
    }

    #[inline(always)]
    fn current_count(&self) -> usize {
        self.count_of_all()
    }

    #[inline(always)]
    fn is_contiguous(&self) -> bool {
        self.rule.separator == 0
    }

    #[inline(always)]
    fn step_by_unchecked(&mut self, count: usize)
        requires { let s = self.old.state in
            let separates = λ (b : ℕ). is_separator (separator s.word) b in
            CanStep s.buffer s.cursor (has_no_separator s.word) separates count }
        ensures moves { let index = self.old.state.cursor + count in
            self.new.state ≡ with_cursor self.old.state index }
        ensures no_looks { NoLooks self.old self.new }
        ensures owes { owed self.new ≤ℤ owed self.old }
    {
        self.advance(count);
    }

    ghost valid_now = { λ b. b.holds };

    ghost laws = { bytes_laws };
}

/// Makes a [`Bytes`] of a value: lexical-util's `AsBytes`.
pub trait AsBytes<'a> {
    // The bytes that the value has.
    ghost bytes_of: { Self → List ℕ };

    /// The same as [`Bytes::new`]. Requires that the word is supported.
    fn bytes(&self, format: u128) -> Bytes<'a>
        requires { IsTrue (is_supported format) }
        ensures state { result.state ≡ start (bytes_of self.now) format }
        ensures run { result.run ≡ None }
        ensures looks { result.looks ≡ 0 };
}

impl<'a> AsBytes<'a> for &'a [u8] {
    ghost bytes_of = { λ slc. slc.now };

    fn bytes(&self, format: u128) -> Bytes<'a> {
        Bytes::new(self, format)
    }
}

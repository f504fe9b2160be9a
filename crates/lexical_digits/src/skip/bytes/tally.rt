//! The cursor, and the counts and looks that it carries. No buffer and no word.

ghost use Rattle.std.specs.Prelude.{◌≡◌, ℕ, ◌+◌, ◌*◌, ◌-◌, ◌<◌, ◌≤◌, true, List, if◌then◌else◌};
ghost use Rattle.lexical_digits.specs.State.{State, start, with_cursor, with_no_counts};
ghost use Rattle.lexical_digits.specs.CallTable.{counted, counted_by};

use crate::skip::component::Component;

/// A cursor, and what was counted on the way to it.
///
/// While one component reads, a digit changes only the cursor. Each byte from `counted_from` to the
/// cursor counts for the reader, if the reader counts. Each byte from `looked_from` to the cursor
/// took two looks. A call that asks for a count or for the looks adds them; a call that moves the
/// cursor in another way stores them.
#[derive(Clone, Copy)]
pub(super) struct Tally {
    /// The cursor.
    pub(super) index: usize,
    /// The bytes from here to the cursor count for the reader, if it counts.
    pub(super) counted_from: usize,
    /// The bytes from here to the cursor took two looks each.
    pub(super) looked_from: usize,
    /// How many looks can still be counted, without those. It is `u64::MAX` less the other looks,
    /// since a processor stops at zero in fewer steps than at the greatest number.
    pub(super) looks_left: u64,
    /// The integer's count, without the bytes from `counted_from` on; the same of the next two.
    pub(super) integer: usize,
    pub(super) fraction: usize,
    pub(super) exponent: usize,
    /// The component that reads.
    pub(super) reader: Component,
    /// Whether `next` counts the reader's digits.
    pub(super) is_counting: bool,
    ghost counted_before: { counted_from ≤ index },
    ghost looked_before: { looked_from ≤ index },
}

#[tactic(auto, unfolding(crate::specs::Fields::Tally::all_of))]
impl Tally {
    ghost use Rattle.lexical_digits.specs.State.{saturating};
    ghost use Rattle.lexical_digits.specs.Fields.Tally.{count_of, state_of, looks_of, passed_by, Leaves};

    /// A cursor before anything was counted.
    #[inline(always)]
    pub(super) fn new(index: usize, reader: Component, is_counting: bool) -> Tally
        ensures state { (buffer : List ℕ) → (word : ℕ) →
            state_of buffer word result ≡ with_cursor (start buffer word) index }
        ensures looks { looks_of result ≡ 0 }
        ensures reader { result.reader ≡ reader }
        ensures is_counting { result.is_counting ≡ is_counting }
    {
        Tally {
            index,
            counted_from: index,
            looked_from: index,
            looks_left: u64::MAX,
            integer: 0,
            fraction: 0,
            exponent: 0,
            reader,
            is_counting,
        }
    }

    /// Whether that component reads.
    #[inline(always)]
    pub(super) fn is_reader(self, component: Component) -> bool
        ensures { result ≡ true → self.reader ≡ component }
    {
        self.reader == component
    }

    /// The count by which the separators of a component are judged: special has the integer's.
    #[inline(always)]
    pub(super) fn count(self, component: Component) -> usize
        ensures { result ≡ count_of component self }
    {
        let since = self.index - self.counted_from;
        match (component, self.reader) {
            (Component::Integer | Component::Special, Component::Integer) if self.is_counting => {
                self.integer.saturating_add(since)
            }
            (Component::Fraction, Component::Fraction) if self.is_counting => {
                self.fraction.saturating_add(since)
            }
            (Component::Exponent, Component::Exponent) if self.is_counting => {
                self.exponent.saturating_add(since)
            }
            (Component::Integer | Component::Special, _) => self.integer,
            (Component::Fraction, _) => self.fraction,
            (Component::Exponent, _) => self.exponent,
        }
    }

    /// The looks, stopping at `u64::MAX`.
    #[inline(always)]
    pub(super) fn looks(self) -> u64
        ensures { result ≡ looks_of self }
    {
        let since = (self.index - self.looked_from) as u64;
        u64::MAX - self.looks_left.saturating_sub(since).saturating_sub(since)
    }

    /// Makes a component the reader, from the cursor on, and stores the counts. Counts no digit and
    /// no look.
    #[inline(always)]
    pub(super) fn set_reader(&mut self, reader: Component, is_counting: bool)
        ensures state { (buffer : List ℕ) → (word : ℕ) →
            state_of buffer word self.new ≡ state_of buffer word self.old }
        ensures index { self.new.index ≡ self.old.index }
        ensures looks { looks_of self.new ≡ looks_of self.old }
        ensures reader { self.new.reader ≡ reader }
        ensures is_counting { self.new.is_counting ≡ is_counting }
    {
        self.integer = self.count(Component::Integer);
        self.fraction = self.count(Component::Fraction);
        self.exponent = self.count(Component::Exponent);
        self.counted_from = self.index;
        self.reader = reader;
        self.is_counting = is_counting;
    }

    /// Goes on from where another one is: takes its cursor, counts and looks. The reader stays.
    #[inline(always)]
    pub(super) fn go_on_from(&mut self, other: Tally)
        ensures state { (buffer : List ℕ) → (word : ℕ) →
            state_of buffer word self.new ≡ state_of buffer word other }
        ensures looks { looks_of self.new ≡ looks_of other }
        ensures reader { self.new.reader ≡ self.old.reader }
        ensures is_counting { self.new.is_counting ≡ self.old.is_counting }
    {
        let (reader, is_counting) = (self.reader, self.is_counting);
        *self = other;
        self.set_reader(reader, is_counting);
    }

    /// Moves the cursor to any position. Counts no digit and no look.
    #[inline(always)]
    pub(super) fn move_to(&mut self, index: usize)
        ensures { Leaves self.old self.new (λ s. with_cursor s index) index (looks_of self.old) }
    {
        if index < self.index {
            self.move_found(index, 0);
        } else {
            self.move_onward(index);
        }
    }

    /// Moves the cursor onward. Counts no digit and no look.
    #[inline(always)]
    pub(super) fn move_onward(&mut self, index: usize)
        requires { self.old.index ≤ index }
        ensures { Leaves self.old self.new (λ s. with_cursor s index) index (looks_of self.old) }
    {
        let bytes = index - self.index;
        self.index = index;
        self.counted_from += bytes;
        self.looked_from += bytes;
    }

    /// Moves the cursor to a place that was found by that many looks. Counts no digit.
    #[inline(always)]
    pub(super) fn move_found(&mut self, place: usize, looks: u64)
        ensures { let looks = saturating (looks_of self.old) looks in
            Leaves self.old self.new (λ s. with_cursor s place) place looks }
    {
        let looks_left = u64::MAX - self.looks();
        *self = Tally {
            index: place,
            counted_from: place,
            looked_from: place,
            looks_left: looks_left.saturating_sub(looks),
            integer: self.count(Component::Integer),
            fraction: self.count(Component::Fraction),
            exponent: self.count(Component::Exponent),
            reader: self.reader,
            is_counting: self.is_counting,
        };
    }

    /// Counts that many digits for a component.
    #[inline(always)]
    pub(super) fn add_digits(&mut self, component: Component, digits: usize)
        ensures { let raised = counted_by digits component in
            Leaves self.old self.new raised self.old.index (looks_of self.old) }
    {
        match component {
            Component::Integer => self.integer = self.integer.saturating_add(digits),
            Component::Fraction => self.fraction = self.fraction.saturating_add(digits),
            Component::Exponent => self.exponent = self.exponent.saturating_add(digits),
            Component::Special => {}
        }
    }

    /// Sets the three counts to 0.
    #[inline]
    pub(super) fn clear(&mut self)
        ensures { Leaves self.old self.new with_no_counts self.old.index (looks_of self.old) }
    {
        self.counted_from = self.index; // so no byte before counts
        self.integer = 0;
        self.fraction = 0;
        self.exponent = 0;
    }

    /// Counts a look. The cursor stays.
    #[inline(always)]
    pub(super) fn look(&mut self)
        ensures { let looks = saturating (looks_of self.old) 1 in
            Leaves self.old self.new (λ s. s) self.old.index looks }
    {
        self.looks_left = self.looks_left.saturating_sub(1);
    }

    /// Passes one byte: counts two looks, and a digit if the reader counts.
    #[inline(always)]
    pub(super) fn pass_digit(&mut self)
        requires { self.old.index < usize.MAX }
        ensures { let next = self.old.index + 1 in
            let looks = saturating (looks_of self.old) 2 in
            Leaves self.old self.new (λ s. with_cursor (passed_by self.old s) next) next looks }
    {
        self.index += 1;
    }

    /// Passes one byte: counts two looks, and no digit.
    #[inline(always)]
    pub(super) fn pass_other(&mut self)
        requires { self.old.index < usize.MAX }
        ensures { let next = self.old.index + 1 in
            let looks = saturating (looks_of self.old) 2 in
            Leaves self.old self.new (λ s. with_cursor s next) next looks }
    {
        self.index += 1;
        self.counted_from += 1; // so the byte isn't counted
    }

    /// Passes the bytes up to `end`: counts two looks for each of them, and that many digits for a
    /// component.
    #[inline(always)]
    pub(super) fn pass_to(&mut self, component: Component, end: usize, digits: usize)
        requires { self.old.index ≤ end }
        ensures { let more = counted_by digits component in
            let looks = saturating (looks_of self.old) (2 * (end - self.old.index)) in
            Leaves self.old self.new (λ s. with_cursor (more s) end) end looks }
    {
        self.counted_from += end - self.index; // so only `digits` are counted
        self.index = end;
        self.add_digits(component, digits);
    }

    /// Passes one byte whose looks were counted before, and counts a digit for a component if
    /// `is_counted`. Counts no look.
    #[inline(always)]
    pub(super) fn pass_seen(&mut self, component: Component, is_counted: bool)
        requires { self.old.index < usize.MAX }
        ensures { let next = self.old.index + 1 in
            let left = λ (s : State). if is_counted then counted component s else s in
            Leaves self.old self.new (λ s. with_cursor (left s) next) next (looks_of self.old) }
    {
        self.index += 1;
        self.counted_from += 1;
        self.looked_from += 1;
        if is_counted {
            self.add_digits(component, 1);
        }
    }
}

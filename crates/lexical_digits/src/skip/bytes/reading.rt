//! How a `Bytes` reads: the one place where word, cursor, shortcuts, run and decision meet.
//!
//! A peek settles, and then looks at the byte at the cursor. To settle is to move the cursor to the
//! place, and only at a separator is there something to do. All ways of a peek end in that one
//! look, so a compiler knows in the `next` after it that the cursor is within the buffer, and the
//! byte.
//!
//! | At the cursor | a peek settles | a next |
//! |---|---|---|
//! | any byte, where no component has a flag | there | passes it: two looks |
//! | a direct byte: a digit, or any byte without flags | there | passes it: two looks |
//! | neither digit nor separator | there | passes it uncounted: two looks |
//! | a lone separator from a counted digit to a digit | after it: two looks | passes both: four |
//! | any other separator | by the decision | by the decision; after one look it passes the byte |
//!
//! `next_of` lets its component read first; a peek does so at a separator, and asks the decision.
//! The decision counts the looks that it takes, by its source. It has the only loop over bytes.
//! At the end of the buffer a read answers `None` and counts nothing.

ghost use Rattle.std.specs.Prelude.{◌≡◌, ℕ, ◌+◌, ◌<◌, ◌≤◌, length, Some, option_copied, nat_lt, not, true, IfSome, slice_get};
ghost use Rattle.lexical_digits.specs.Separators.{place, IsSupported};
ghost use Rattle.lexical_digits.specs.State.{rule_of};
ghost use Rattle.lexical_digits.specs.Looks.{IsRunOrNone, Finds, PeeksOf, NextsOf, SettlesOf, LooksHere, NoLooks, one_if};
ghost use Rattle.lexical_digits.specs.Fields.Bytes.{IsInnerAt, IsInnerDigit, FollowsDigit, has_no_flags};

use super::Bytes;
use super::tally::Tally;
use crate::skip::component::Component;
use crate::skip::decision::{ByteSource, Run, SliceSource, decide};
use crate::skip::rule::{Rule, Shortcuts};

/// The place that a decision found, the run that it leaves, and the looks that it took.
#[derive(Clone, Copy)]
struct Found {
    place: usize,
    run: Option<Run>,
    looks: u64,
}

/// The place from a position on, by the decision. The source counts each look; the look at the byte
/// of the place is left to the caller.
#[cold]
#[inline(never)]
fn find(slc: &[u8], rule: Rule, at: usize, counted: bool, run: Option<Run>) -> Found
    requires supported { IsSupported rule }
    requires within { at ≤ length slc.now }
    requires remembered { IsRunOrNone rule.separator slc.now run }
    ensures place { (count : ℕ) → counted ≡ nat_lt 0 count
        → result.place ≡ place rule slc.now at count }
    ensures finds { let most = 2 + one_if (not counted) in
        Finds most rule slc.now at run result.run result.looks }
{
    let mut src = SliceSource::new(slc);
    let sight = decide(&mut src, rule, at, counted, run);
    Found {
        place: sight.place,
        run: sight.run,
        looks: src.looks,
    }
}

/// The byte at a position, if there is one: `get`, with an answer of one fact.
#[inline(always)]
fn byte_at<'a>(slc: &'a [u8], index: usize) -> Option<&'a u8>
    ensures { option_copied result ≡ slice_get slc.now index }
{
    slc.get(index)
}

/// The byte at a position within the buffer. A caller that tests the position itself computes no
/// address before the test, as it does by `get`.
#[inline(always)]
fn byte_within<'a>(slc: &'a [u8], index: usize) -> &'a u8
    requires { index < length slc.now }
    ensures { Some result.now ≡ slice_get slc.now index }
{
    &slc[index]
}

/// The digit after the separator at the cursor, where that is dropped since a digit was counted
/// before it; and whether the next byte was looked at and is no digit.
#[inline(always)]
fn inner_digit<'a>(
    slc: &'a [u8],
    tally: Tally,
    shortcuts: Shortcuts,
    byte: u8,
) -> (Option<&'a u8>, bool)
    requires { Some byte ≡ slice_get slc.now tally.index }
    ensures digit { IfSome result.0 (λ next. IsInnerDigit slc.now tally shortcuts byte next.now) }
    ensures saw_next { result.1 ≡ true → IsInnerAt tally shortcuts byte }
{
    if !(shortcuts.inner_separator == byte as u16 && tally.counted_from < tally.index) {
        return (None, false);
    }
    match byte_at(slc, tally.index + 1) {
        Some(next) if shortcuts.is_direct(*next) => (Some(next), false),
        Some(_) => (None, true),
        None => (None, false),
    }
}

impl<'a> Bytes<'a> {
    /// The next byte that a component keeps. The cursor moves to that byte. This is `peek` of the
    /// component's iterator.
    #[inline(always)]
    pub fn peek_of(&mut self, component: Component) -> Option<&'a u8>
        ensures { PeeksOf component self.old self.new (option_copied result) }
    {
        if self.has_no_flags {
            return self.look();
        }
        let byte = byte_at(self.slc, self.tally.index)?;
        self.settle(component, *byte);
        self.look()
    }

    /// Moves the cursor from a byte to the place of a component. The look at the byte there is left
    /// to the caller.
    #[inline(always)]
    fn settle(&mut self, component: Component, byte: u8)
        requires { Some byte ≡ slice_get self.old.state.buffer self.old.state.cursor }
        ensures { SettlesOf component self.old self.new }
    {
        if byte != self.rule.separator {
            return;
        }
        if !self.tally.is_reader(component) {
            let rule = self.switch_reader(component);
            self.settle_decided(component, rule, false);
            return;
        }
        let (next, saw_next) = inner_digit(self.slc, self.tally, self.shortcuts, byte);
        if let Some(_) = next {
            self.tally.pass_other();
            return;
        }
        if self.shortcuts.is_direct(byte) {
            return;
        }
        let rule = self.rule;
        self.settle_decided(component, rule, saw_next);
    }

    /// The byte at the cursor, by one look.
    #[inline(always)]
    fn look(&mut self) -> Option<&'a u8>
        ensures { LooksHere self.old self.new (option_copied result) }
    {
        let byte = byte_at(self.slc, self.tally.index)?;
        self.tally.look();
        Some(byte)
    }

    /// The next byte that a component keeps. The cursor moves past that byte, and the component
    /// counts it if it is a digit. This is `next` of the component's iterator. A loop over
    /// `next_of` works on a `Bytes` that is a local variable or a field.
    #[inline(always)]
    #[tactic(auto, using(crate::proofs::Fields::AtTheCursor::after_switch))]
    pub fn next_of(&mut self, component: Component) -> Option<&'a u8>
        ensures { NextsOf component self.old self.new result }
    {
        if self.has_no_flags {
            return self.next_unflagged(component);
        }
        self.read_as(component);
        self.next_flagged(component)
    }

    /// The next byte that a component keeps, where any component may have a flag. The cursor moves
    /// past that byte, and the component counts it if it is a digit.
    /// `next_of` calls `read_as` before, so the component reads. The other case stores no rule,
    /// since a compiler keeps fields in registers only in a loop with few stores.
    #[inline(always)]
    fn next_flagged(&mut self, component: Component) -> Option<&'a u8>
        ensures { NextsOf component self.old self.new result }
    {
        if !self.tally.is_reader(component) {
            let rule = self.rule(component);
            return self.next_decided(component, rule, false);
        }
        if self.tally.index >= self.slc.len() {
            return None;
        }
        let byte = byte_within(self.slc, self.tally.index);
        if self.shortcuts.is_direct(*byte) {
            self.tally.pass_digit();
            return Some(byte);
        }
        let mut saw_next = false;
        if self.shortcuts.inner_separator == *byte as u16 {
            let (next, saw) = inner_digit(self.slc, self.tally, self.shortcuts, *byte);
            if let Some(next) = next {
                self.tally.pass_other();
                self.tally.pass_digit();
                return Some(next);
            }
            saw_next = saw;
        } else if *byte != self.rule.separator {
            self.tally.pass_other();
            return Some(byte);
        }
        let rule = self.rule;
        self.next_decided(component, rule, saw_next)
    }

    /// The byte at the cursor, which is passed, where no component has a flag.
    #[inline(always)]
    fn next_unflagged(&mut self, component: Component) -> Option<&'a u8>
        requires { has_no_flags self.old.state.word ≡ true }
        ensures { NextsOf component self.old self.new result }
    {
        let byte = byte_at(self.slc, self.tally.index)?;
        self.tally.pass_digit();
        Some(byte)
    }

    /// Lets a component read from the cursor on, if another one read before.
    #[inline(always)]
    pub(crate) fn read_as(&mut self, component: Component)
        ensures state { self.new.state ≡ self.old.state }
        ensures no_looks { NoLooks self.old self.new }
    {
        if !self.tally.is_reader(component) {
            self.switch_reader(component);
        }
    }

    /// Lets a component read from the cursor on: stores the count of the one that read before, and
    /// answers the rule of this one. Counts no digit and no look.
    #[inline(always)]
    fn switch_reader(&mut self, component: Component) -> Rule
        ensures rule { result ≡ rule_of self.old.state.word component }
        ensures state { self.new.state ≡ self.old.state }
        ensures no_looks { NoLooks self.old self.new }
    {
        let rule = Rule::of(self.format, component);
        let is_counting = rule.counts(component);
        self.tally.set_reader(component, is_counting);
        self.shortcuts = Shortcuts::of(rule, is_counting);
        self.rule = rule;
        rule
    }

    /// Moves the cursor to the place of a component, by the decision. The look at the byte there is
    /// left to the caller. `saw_next` says that the byte after the cursor was looked at before.
    #[inline(always)]
    fn settle_decided(&mut self, component: Component, rule: Rule, saw_next: bool)
        requires rule { rule ≡ rule_of self.old.state.word component }
        requires saw_next { saw_next ≡ true → FollowsDigit component self.old.state }
        ensures { SettlesOf component self.old self.new }
    {
        let counted = 0 < self.tally.count(component);
        let found = find(self.slc, rule, self.tally.index, counted, self.run);
        let looks = found.looks.saturating_add(saw_next as u64);
        self.tally.move_found(found.place, looks);
        self.run = found.run;
    }

    /// The byte at the place, by the decision. The cursor moves past that byte, and the component
    /// counts it if it is a digit. `saw_next` says that the byte after the cursor was looked at
    /// before.
    #[inline(always)]
    fn next_decided(&mut self, component: Component, rule: Rule, saw_next: bool) -> Option<&'a u8>
        requires rule { rule ≡ rule_of self.old.state.word component }
        requires saw_next { saw_next ≡ true → FollowsDigit component self.old.state }
        ensures { NextsOf component self.old self.new result }
    {
        self.settle_decided(component, rule, saw_next);
        let byte = self.look()?;
        let is_counted = rule.counts_byte(component, *byte);
        self.tally.pass_seen(component, is_counted);
        Some(byte)
    }
}

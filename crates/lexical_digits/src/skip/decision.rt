//! The decision: which byte comes next, and how many looks that takes. It knows a rule and a source
//! of bytes that counts each look, and no word, component or cursor.
//!
//! lexical-util has code of its own for each of fifteen rules. Here one function judges by any
//! rule.

ghost use Rattle.std.specs.Prelude.{◌≡◌, ℕ, ◌+◌, ◌-◌, ◌*◌, ◌<◌, ◌≤◌, ◌^◌, List, min, Some, if◌then◌else◌, length, slice_index, slice_get, nat_lt, not, true, false};
ghost use Rattle.lexical_digits.specs.Separators.{class, left_side, place, IsSupported};
ghost use Rattle.lexical_digits.specs.Looks.{separator_at, scans, run_holds, run_length, IsRun, IsRunOrNone, IsSpan, LooksBetween, one_if};

use super::rule::{Class, Rule};
use std::marker::Model;

/// A maximal run of separators, at the positions `from..to`. Positions count bytes from 0.
///
/// It says where separators are, and not which of them are dropped. So one run serves every rule
/// with the same separator.
#[derive(Clone, Copy, Debug, PartialEq, Eq)]
pub struct Run {
    /// The position of the first separator.
    pub from: usize,
    /// The position after the last separator.
    pub to: usize,
}

/// The answer of [`decide`].
#[derive(Clone, Copy, Debug, PartialEq, Eq)]
pub struct Sight {
    /// The position of the next kept byte, or the length where no byte is kept.
    pub place: usize,
    /// The run to remember: the next decision takes it.
    pub run: Option<Run>,
}

/// Answers the position of the next kept byte, from position `at` on, and the run to remember.
///
/// `counted` says that the count of digits is above zero: then the left side of every separator is
/// a digit. `run` is a run of this source that an earlier decision answered, under any rule with
/// the same separator, or `None`.
///
/// Where `at` holds no separator, the decision takes at most one look. It looks for a run only
/// under a consecutive rule, at a separator that `run` doesn't hold. A run of r separators then
/// takes r to 3 + 3r looks, and is answered. In all other cases there are at most 3 looks, and the
/// answer has the `run` that was passed. Where digits were counted, the upper bound is one look
/// less.
///
/// Requires that `at` is at most the length, that the rule's radix is 2 to 36 and its separator no
/// digit of it, and that `run` is `None` or a maximal run of this source.
#[tactic(auto, using(crate::proofs::Looks::Spans::judged))]
pub fn decide<S: ByteSource>(
    src: &mut S,
    rule: Rule,
    at: usize,
    counted: bool,
    run: Option<Run>,
) -> Sight
    requires supported { IsSupported rule }
    requires within { at ≤ length (S.content src.old) }
    requires remembered { IsRunOrNone rule.separator (S.content src.old) run }
    ensures place { (count : ℕ) → counted ≡ nat_lt 0 count
        → result.place ≡ place rule (S.content src.old) at count }
    ensures content { S.content src.new ≡ S.content src.old }
    ensures run { IsRunOrNone rule.separator (S.content src.old) result.run }

    // At a byte that is no separator, or at the end.
    ensures other_looks { separator_at rule.separator (S.content src.old) at ≡ false
        → LooksBetween (S.looks src.old) 0 1 (S.looks src.new) }

    // Where no run has to be looked for.
    ensures unscanned_run { scans rule (S.content src.old) at run ≡ false
        → result.run ≡ run }
    ensures unscanned_looks { scans rule (S.content src.old) at run ≡ false
        → LooksBetween (S.looks src.old) 0 (2 + one_if (not counted)) (S.looks src.new) }

    // Where a run has to be looked for.
    ensures scanned_run { scans rule (S.content src.old) at run ≡ true
        → run_holds result.run at ≡ true }
    ensures scanned_looks { scans rule (S.content src.old) at run ≡ true
        → let r = run_length result.run in
        LooksBetween (S.looks src.old) r (2 + one_if (not counted) + 3 * r) (S.looks src.new) }
{
    if at == src.length() {
        return Sight { place: at, run };
    }
    let byte = src.at(at);
    if !rule.is_separator(byte) {
        return Sight { place: at, run };
    }
    let span = span_at(src, rule, at, run);
    let left = left_of(src, rule, at, counted, span);
    let right = class_at(src, rule, span.to);
    Sight {
        place: if rule.drops(left, right) { span.to } else { at },
        run: run_after(rule, span, run),
    }
}

/// The run to remember after a separator was judged by a span.
#[inline(always)]
fn run_after(rule: Rule, span: Run, run: Option<Run>) -> Option<Run>
    ensures { result ≡ if rule.consecutive then Some span else run }
{
    if rule.consecutive { Some(span) } else { run }
}

/// What is judged as one at a separator: under a consecutive rule the run that holds it, which is
/// remembered or scanned; under any other rule the separator by itself.
#[tactic(auto, using(crate::proofs::Looks::Spans::spans))]
fn span_at<S: ByteSource>(src: &mut S, rule: Rule, at: usize, run: Option<Run>) -> Run
    requires supported { IsSupported rule }
    requires within { at < length (S.content src.old) }
    requires separator { separator_at rule.separator (S.content src.old) at ≡ true }
    requires remembered { IsRunOrNone rule.separator (S.content src.old) run }
    ensures span { IsSpan rule (S.content src.old) at result.from result.to }
    ensures content { S.content src.new ≡ S.content src.old }
    ensures run { rule.consecutive ≡ true
        → IsRun rule.separator (S.content src.old) result.from result.to }
    ensures holds { rule.consecutive ≡ true → run_holds (Some result) at ≡ true }
    ensures known { rule.consecutive ≡ true → run_holds run at ≡ true → run ≡ Some result }
    ensures unscanned_looks { scans rule (S.content src.old) at run ≡ false
        → S.looks src.new ≡ S.looks src.old }
    ensures scanned_looks { scans rule (S.content src.old) at run ≡ true
        → LooksBetween (S.looks src.old)
        (result.to - result.from) (result.to - result.from + 2) (S.looks src.new) }
{
    if !rule.consecutive {
        let end = src.length();
        prove!(at < end);
        return Run {
            from: at,
            to: at + 1,
        };
    }
    if let Some(known) = run
        && known.from <= at
        && at < known.to
    {
        return known;
    }
    let from = run_start(src, rule, at);
    let to = run_end(src, rule, at);
    Run { from, to }
}

/// The left side of a separator: a digit where digits were counted, else the byte before the span.
#[inline(always)]
fn left_of<S: ByteSource>(src: &mut S, rule: Rule, at: usize, counted: bool, span: Run) -> Class
    requires { IsSpan rule (S.content src.old) at span.from span.to }
    ensures class { result ≡ left_side rule (S.content src.old) counted at }
    ensures content { S.content src.new ≡ S.content src.old }
    ensures looks { LooksBetween (S.looks src.old) 0 (one_if (not counted)) (S.looks src.new) }
{
    if counted {
        Class::Digit
    } else if span.from == 0 {
        Class::Other
    } else {
        rule.class_of(src.at(span.from - 1))
    }
}

/// The class of a position, which may be the length.
#[inline(always)]
fn class_at<S: ByteSource>(src: &mut S, rule: Rule, index: usize) -> Class
    ensures class { result ≡ class rule (slice_get (S.content src.old) index) }
    ensures content { S.content src.new ≡ S.content src.old }
    ensures looks { LooksBetween (S.looks src.old) 0 1 (S.looks src.new) }
{
    if index < src.length() {
        rule.class_of(src.at(index))
    } else {
        Class::Other
    }
}

/// The start of the separators right before a position.
#[tactic(auto, using(crate::proofs::Looks::WhereSeparatorsStand::separator_byte_at))]
fn run_start<S: ByteSource>(src: &mut S, rule: Rule, to: usize) -> usize
    requires { to ≤ length (S.content src.old) }
    ensures high { result ≤ to }
    ensures run { (k : ℕ) → result ≤ k → k < to
        → separator_at rule.separator (S.content src.old) k ≡ true }
    ensures before { (k : ℕ) → k + 1 ≡ result
        → separator_at rule.separator (S.content src.old) k ≡ false }
    ensures content { S.content src.new ≡ S.content src.old }
    ensures looks { LooksBetween (S.looks src.old)
        (to - result) (to - result + 1) (S.looks src.new) }
{
    for i in (0..to).rev() {
        let byte = src.at(i);
        if !rule.is_separator(byte) {
            return i + 1;
        }
    }
    0
}

/// The end of the separators from a position on.
#[tactic(auto, using(crate::proofs::Looks::WhereSeparatorsStand::separators))]
fn run_end<S: ByteSource>(src: &mut S, rule: Rule, from: usize) -> usize
    requires { from ≤ length (S.content src.old) }
    ensures low { from ≤ result }
    ensures high { result ≤ length (S.content src.old) }
    ensures run { (k : ℕ) → from ≤ k → k < result
        → separator_at rule.separator (S.content src.old) k ≡ true }
    ensures behind { separator_at rule.separator (S.content src.old) result ≡ false }
    ensures content { S.content src.new ≡ S.content src.old }
    ensures looks { LooksBetween (S.looks src.old)
        (result - from) (result - from + 1) (S.looks src.new) }
{
    let end = src.length();
    for i in from..end {
        let byte = src.at(i);
        if !rule.is_separator(byte) {
            return i;
        }
    }
    end
}

/// Bytes that are read one by one. Each look is counted. The bytes never change. Positions count
/// bytes from 0.
pub trait ByteSource {
    // The bytes.
    ghost content: { Self → List ℕ };

    // How many looks were counted.
    ghost looks: { Self → ℕ };

    /// How many bytes there are. Counts no look.
    fn length(&self) -> usize
        ensures { result ≡ length (content self.now) };

    /// The byte at a position. Counts one look. Requires that the position is below the length.
    fn at(&mut self, index: usize) -> u8
        requires { index < length (content self.old) }
        ensures byte { result ≡ slice_index (content self.old) index }
        ensures content { content self.new ≡ content self.old }
        ensures looks { looks self.new ≡ min (looks self.old + 1) (2 ^ 64 - 1) };

    /// How many looks were counted. The counter stops at `u64::MAX`.
    fn looks(&self) -> u64
        ensures { result ≡ looks self.now };
}

/// A source over a slice.
#[derive(Drop)]
pub struct SliceSource<'a> {
    pub(super) slc: &'a [u8],
    pub(super) looks: u64,
}

impl<'a> Model for SliceSource<'a> {
    ghost use Rattle.lexical_digits.specs.Looks.{Source};

    ghost Value = { Source };

    ghost view = { λ s. record { content = s.slc.now; looks = s.looks } };
}

impl<'a> SliceSource<'a> {
    /// A source over `slc` with no look counted.
    pub fn new(slc: &'a [u8]) -> SliceSource<'a>
        ensures content { result.content ≡ slc.now }
        ensures looks { result.looks ≡ 0 }
    {
        SliceSource { slc, looks: 0 }
    }
}

impl<'a> ByteSource for SliceSource<'a> {
    ghost content = { λ s. s.content };

    ghost looks = { λ s. s.looks };

    fn length(&self) -> usize {
        self.slc.len()
    }

    fn at(&mut self, index: usize) -> u8 {
        self.looks = self.looks.saturating_add(1);
        self.slc[index]
    }

    fn looks(&self) -> u64 {
        self.looks
    }
}

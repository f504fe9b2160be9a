//! Lines without a fault, one after the other. Where a line is only a number, as most are, it is
//! read without looking for the line feed first.

ghost use Rattle.std.specs.Prelude.{◌≡◌, ◌^◌, ◌<◌, ◌+◌, ◌≤◌, ◌-◌, length, IfSome, IfErr, IfOk, IsTrue, None, Some};
ghost use Rattle.lexical_format.specs.Word.{is_supported};
ghost use Rattle.lexical_digits.specs.declared.skip.component.Component.{Component};
ghost use Rattle.lexical_digits.specs.declared.skip.component.Component.TheVariants.{Integer};
ghost use Rattle.lexical_digits.specs.State.{rule_of};
ghost use Rattle.digit_floats.specs.Float.{IsDecimal};
ghost use Rattle.digit_totals.specs.declared.options.Kind.TheVariants.{Integers, Places};
ghost use Rattle.digit_totals.specs.Lines.{EndsWith};
ghost use Rattle.digit_totals.specs.Quick.{FirstIs, HasNoLowByte};
ghost use Rattle.digit_totals.specs.Report.{most_bytes, Leaves, EndsIn};
ghost use Rattle.digit_totals.specs.Totals.{adding};
ghost use Rattle.digit_totals.specs.Value.{HasFewPlaces, word_of};

use super::adds::Added;
use super::around::{after_feed, begin_at};
use super::column::column_line;
use super::decimal::short_decimal;
use super::fault::LineFault;
use super::many::add_many;
use super::options::{Column, Kind, Options};
use super::totals::{Sums, Totals};
use digit_integers::read_number_from;
use lexical_format::STANDARD;
use lexical_format::words::PYTHON_LITERAL;

/// The integer that is the first line of a text, with any blanks around it, and what follows its
/// line feed: in the usual case, in which the number has 64 bits. The line feed is not looked for
/// before.
#[inline(always)]
fn quick_integer(options: Options, text: &[u8], word: u128) -> Option<(i64, &[u8])>
    requires supported { IsTrue (is_supported word) }
    requires low { HasNoLowByte (rule_of word Integer) }
    requires word { word_of options ≡ word }
    requires column { options.column ≡ None }
    requires kind { options.kind ≡ Integers }
    ensures is { IfSome result (λ read. FirstIs options text.now read.0 read.1.now) }
    ensures shorter { IfSome result (λ read. length read.1.now < length text.now) }
    ensures suffix { IfSome result (λ read. EndsWith text.now read.1.now) }
{
    let place = begin_at(text, 0);
    match read_number_from::<i64>(text, word, place) {
        Ok((value, end)) => match after_feed(text, end) {
            Some(next) => Some((value, &text[next..])),
            None => None,
        },
        Err(_) => None,
    }
}

/// The decimal number that is the first line of a text, as [`quick_integer`].
#[inline(always)]
fn quick_decimal(options: Options, text: &[u8], word: u128, places: usize) -> Option<(i64, &[u8])>
    requires supported { IsTrue (is_supported word) }
    requires decimal { IsDecimal word }
    requires low { (k : Component) → HasNoLowByte (rule_of word k) }
    requires word { word_of options ≡ word }
    requires column { options.column ≡ None }
    requires kind { options.kind ≡ Places places }
    ensures is { IfSome result (λ read. FirstIs options text.now read.0 read.1.now) }
    ensures shorter { IfSome result (λ read. length read.1.now < length text.now) }
    ensures suffix { IfSome result (λ read. EndsWith text.now read.1.now) }
{
    let place = begin_at(text, 0);
    match short_decimal(text, word, place, places) {
        Some((value, end)) => match after_feed(text, end) {
            Some(next) => Some((value, &text[next..])),
            None => None,
        },
        None => None,
    }
}

/// After so many lines it is tried again whether the next ones are read by their ends.
const FEW: usize = 16;

/// No text of a piece has more lines.
const MOST: usize = 65536;

/// Adds a few lines of integers by [`quick_integer`].
#[inline(always)]
fn add_integer_lines<'a>(
    options: Options,
    totals: Totals,
    text: &'a [u8],
    word: u128,
) -> Added<'a, Totals>
    requires supported { IsTrue (is_supported word) }
    requires low { (k : Component) → HasNoLowByte (rule_of word k) }
    requires column { options.column ≡ None }
    requires kind { options.kind ≡ Integers }
    requires word { word_of options ≡ word }
    requires short { length text.now ≤ most_bytes + 1 }
    requires room { totals.count + length text.now ≤ 2 ^ 127 }
    ensures { Leaves (adding options) totals text.now result.totals result.rest.now }
{
    if !totals.is_far() {
        return Added { totals, rest: text };
    }
    let mut sums = Sums::new();
    let mut rest = text;
    while sums.count < FEW {
        match quick_integer(options, rest, word) {
            Some((value, after)) => {
                sums = sums.plus(value);
                rest = after;
            }
            None => break,
        }
    }
    Added {
        totals: totals.with_sums(sums),
        rest,
    }
}

/// Adds lines of decimal numbers by [`quick_decimal`].
#[inline(always)]
fn add_decimal_lines<'a>(
    options: Options,
    totals: Totals,
    text: &'a [u8],
    word: u128,
    places: usize,
) -> Added<'a, Totals>
    requires supported { IsTrue (is_supported word) }
    requires decimal { IsDecimal word }
    requires low { (k : Component) → HasNoLowByte (rule_of word k) }
    requires column { options.column ≡ None }
    requires kind { options.kind ≡ Places places }
    requires word { word_of options ≡ word }
    requires short { length text.now ≤ most_bytes + 1 }
    requires room { totals.count + length text.now ≤ 2 ^ 127 }
    ensures { Leaves (adding options) totals text.now result.totals result.rest.now }
{
    if !totals.is_far() {
        return Added { totals, rest: text };
    }
    let mut sums = Sums::new();
    let mut rest = text;
    while sums.count < MOST {
        match quick_decimal(options, rest, word, places) {
            Some((value, after)) => {
                sums = sums.plus(value);
                rest = after;
            }
            None => break,
        }
    }
    Added {
        totals: totals.with_sums(sums),
        rest,
    }
}

/// Adds lines of which a column is the number by [`column_line`].
#[inline(always)]
fn add_column_lines<'a>(
    options: Options,
    totals: Totals,
    text: &'a [u8],
    word: u128,
    column: Column,
) -> Added<'a, Totals>
    requires supported { IsTrue (is_supported word) }
    requires decimal { IsDecimal word }
    requires low { (k : Component) → HasNoLowByte (rule_of word k) }
    requires column { options.column ≡ Some column }
    requires word { word_of options ≡ word }
    requires short { length text.now ≤ most_bytes + 1 }
    requires room { totals.count + length text.now ≤ 2 ^ 127 }
    ensures { Leaves (adding options) totals text.now result.totals result.rest.now }
{
    if !totals.is_far() {
        return Added { totals, rest: text };
    }
    let mut sums = Sums::new();
    let mut rest = text;
    while sums.count < MOST {
        match column_line(options, rest, word, column) {
            Some((value, after)) => {
                sums = sums.plus(value);
                rest = after;
            }
            None => break,
        }
    }
    Added {
        totals: totals.with_sums(sums),
        rest,
    }
}

/// Adds a few lines of integers, in code of its own.
#[inline(never)]
#[tactic(auto, using(crate::proofs::NumberLine::no_low_bytes), unfolding(crate::proofs::OnWords::words))]
fn add_few<'a>(options: Options, totals: Totals, text: &'a [u8]) -> Added<'a, Totals>
    requires column { options.column ≡ None }
    requires kind { options.kind ≡ Integers }
    requires short { length text.now ≤ most_bytes + 1 }
    requires room { totals.count + length text.now ≤ 2 ^ 127 }
    ensures { Leaves (adding options) totals text.now result.totals result.rest.now }
{
    if options.underscores {
        add_integer_lines(options, totals, text, PYTHON_LITERAL)
    } else {
        add_integer_lines(options, totals, text, STANDARD)
    }
}

/// Adds lines of integers, by their ends where that goes.
fn add_integers<'a>(options: Options, totals: Totals, text: &'a [u8]) -> Added<'a, Totals>
    requires column { options.column ≡ None }
    requires kind { options.kind ≡ Integers }
    requires short { length text.now ≤ most_bytes + 1 }
    requires room { totals.count + length text.now ≤ 2 ^ 127 }
    ensures { Leaves (adding options) totals text.now result.totals result.rest.now }
{
    let mut added = add_few(options, totals, text);
    let mut left = text.len();
    while added.rest.len() < left {
        left = added.rest.len();
        let many = add_many(options, added.totals, added.rest);
        added = add_few(options, many.totals, many.rest);
    }
    added
}

/// Adds lines of decimal numbers, in code of its own.
#[inline(never)]
#[tactic(auto, using(crate::proofs::NumberLine::no_low_bytes), unfolding(crate::proofs::OnWords::words))]
fn add_decimals<'a>(
    options: Options,
    totals: Totals,
    text: &'a [u8],
    places: usize,
) -> Added<'a, Totals>
    requires column { options.column ≡ None }
    requires kind { options.kind ≡ Places places }
    requires short { length text.now ≤ most_bytes + 1 }
    requires room { totals.count + length text.now ≤ 2 ^ 127 }
    ensures { Leaves (adding options) totals text.now result.totals result.rest.now }
{
    if options.underscores {
        add_decimal_lines(options, totals, text, PYTHON_LITERAL, places)
    } else {
        add_decimal_lines(options, totals, text, STANDARD, places)
    }
}

/// Adds lines of which a column is the number, in code of its own.
#[inline(never)]
#[tactic(auto, using(crate::proofs::NumberLine::no_low_bytes), unfolding(crate::proofs::OnWords::words))]
fn add_columns<'a>(
    options: Options,
    totals: Totals,
    text: &'a [u8],
    column: Column,
) -> Added<'a, Totals>
    requires column { options.column ≡ Some column }
    requires short { length text.now ≤ most_bytes + 1 }
    requires room { totals.count + length text.now ≤ 2 ^ 127 }
    ensures { Leaves (adding options) totals text.now result.totals result.rest.now }
{
    if options.underscores {
        add_column_lines(options, totals, text, PYTHON_LITERAL, column)
    } else {
        add_column_lines(options, totals, text, STANDARD, column)
    }
}

/// Adds the lines at the front of a text that are read without a fault.
#[inline(always)]
pub fn add_quick<'a>(
    options: Options,
    totals: Totals,
    text: &'a [u8],
) -> Result<Added<'a, Totals>, LineFault>
    requires few { HasFewPlaces options.kind }
    requires short { length text.now ≤ most_bytes + 1 }
    requires room { totals.count + length text.now ≤ 2 ^ 127 }
    ensures rest { IfOk result (λ added.
        Leaves (adding options) totals text.now added.totals added.rest.now) }
    ensures fault { IfErr result (EndsIn (adding options) totals text.now) }
{
    match options.column {
        Some(column) => Ok(add_columns(options, totals, text, column)),
        None => match options.kind {
            Kind::Integers => Ok(add_integers(options, totals, text)),
            Kind::Places(places) => Ok(add_decimals(options, totals, text, places)),
        },
    }
}

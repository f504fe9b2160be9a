//! Lists that are the whole text, into places of the caller.

ghost use Rattle.std.specs.Prelude.{◌≡◌, ◌≤◌, ◌^◌, ◌-◌, length, pos};
ghost use Rattle.std.specs.Float.{binary64};
ghost use Rattle.digit_lists.specs.Lists.{full_end};
ghost use Rattle.digits.specs.Words.{IfFull, IsForm, form_of};
ghost use Rattle.digits_c.specs.Lists.{Fills, to_end};
ghost use Rattle.digits_c.specs.Lists.{whole_integers, whole_floats, whole_numbers, whole_numbers_by};

use super::lists::gap_of;
use super::numbers::NumberParts;
use super::outcome::{BAD_FORM, INVALID, OK, Outcome};
use super::parts::Parts;
use super::source::{FormSource, Json};
use digit_lists::after_full;
use digits::{
    Float, Floats, Gap, Integer, Integers, Kind, ListEnd, STANDARD, form_of, read_float_list,
    read_list, read_list_by,
};

impl Outcome {
    /// Of a list that is to be the whole text, of a length.
    #[inline(always)]
    fn to_end(self, length: usize) -> Outcome
        ensures { result ≡ to_end length self }
    {
        if self.status == OK && self.at < length {
            Outcome::fault(INVALID, self.at)
        } else {
            self
        }
    }
}

/// Why a list ends, with `Full` at one number more.
#[inline(always)]
fn full_end<K: Kind>(kind: K, text: &[u8], gap: Gap, end: ListEnd<K::Error>) -> ListEnd<K::Error>
    requires valid { K.valid kind }
    requires within { IfFull end (λ at. at ≤ length text.now) }
    ensures { result ≡ full_end (K.number_at kind text.now) K.none_at gap text.now end }
{
    match end {
        ListEnd::Full(at) => after_full(kind, text, gap, gap.past_blanks(text, at)),
        _ => end,
    }
}

/// The integers that a whole text lists, as many as there are places.
#[inline(always)]
fn parse_integers<T: Integer>(
    text: &[u8],
    between: u8,
    numbers: &mut [T],
    count: &mut usize,
) -> Outcome
    ensures { let room = length numbers.old in
        let list = whole_integers text.now between room T.MIN_MAGNITUDE T.MAX in
        Fills T.number list count.new numbers.old numbers.new result }
{
    let gap = gap_of(between);
    let list = read_list::<T>(text, 0, STANDARD, gap, numbers);
    *count = list.count;
    let end = full_end(Integers::<T>::new(STANDARD), text, gap, list.end);
    Outcome::of_integers(end).to_end(text.len())
}

/// The `i64` that a whole text lists, as many as there are places.
#[unsafe(no_mangle)]
pub extern "C" fn digits_parse_i64_list(
    text: &[u8],
    between: u8,
    numbers: &mut [i64],
    count: &mut usize,
) -> Outcome
    ensures { let room = length numbers.old in
        let list = whole_integers text.now between room (2 ^ 63) (2 ^ 63 - 1) in
        Fills (λ n. n) list count.new numbers.old numbers.new result }
{
    parse_integers::<i64>(text, between, numbers, count)
}

/// The `u64` that a whole text lists, as many as there are places.
#[unsafe(no_mangle)]
pub extern "C" fn digits_parse_u64_list(
    text: &[u8],
    between: u8,
    numbers: &mut [u64],
    count: &mut usize,
) -> Outcome
    ensures { let room = length numbers.old in
        let list = whole_integers text.now between room 0 (2 ^ 64 - 1) in
        Fills pos list count.new numbers.old numbers.new result }
{
    parse_integers::<u64>(text, between, numbers, count)
}

/// The floats that a whole text lists, as many as there are places.
#[inline(always)]
fn parse_floats<F: Float>(text: &[u8], between: u8, numbers: &mut [F], count: &mut usize) -> Outcome
    ensures { let room = length numbers.old in
        let list = whole_floats text.now between room F.format in
        Fills F.value list count.new numbers.old numbers.new result }
{
    let gap = gap_of(between);
    let list = read_float_list::<F>(text, 0, STANDARD, gap, numbers);
    *count = list.count;
    let end = full_end(Floats::<F>::new(STANDARD), text, gap, list.end);
    Outcome::of_floats(end).to_end(text.len())
}

/// The `f64` that a whole text lists, as many as there are places.
#[unsafe(no_mangle)]
pub extern "C" fn digits_parse_f64_list(
    text: &[u8],
    between: u8,
    numbers: &mut [f64],
    count: &mut usize,
) -> Outcome
    ensures { let room = length numbers.old in
        let list = whole_floats text.now between room binary64 in
        Fills (λ x. x) list count.new numbers.old numbers.new result }
{
    parse_floats::<f64>(text, between, numbers, count)
}

/// The numbers by a form that a whole text lists, as many as there are places.
#[inline(always)]
fn parse_numbers<S: FormSource>(
    text: &[u8],
    source: S,
    between: u8,
    numbers: &mut [NumberParts],
    count: &mut usize,
) -> Outcome
    requires { IsForm (S.form source) }
    ensures { let room = length numbers.old in
        let list = whole_numbers text.now between room (S.form source) in
        Fills (λ n. n) list count.new numbers.old numbers.new result }
{
    let (kind, gap) = (Parts { source }, gap_of(between));
    let list = read_list_by(kind, text, 0, gap, numbers);
    *count = list.count;
    Outcome::of_numbers(full_end(kind, text, gap, list.end)).to_end(text.len())
}

/// The numbers by a form with a number that a whole text lists, by code for all forms.
#[inline(never)]
fn parse_numbers_by(
    text: &[u8],
    form: u32,
    between: u8,
    numbers: &mut [NumberParts],
    count: &mut usize,
) -> Outcome
    ensures { let room = length numbers.old in
        let list = whole_numbers_by text.now between room (form_of form) in
        Fills (λ n. n) list count.new numbers.old numbers.new result }
{
    match form_of(form as usize) {
        Some(form) => parse_numbers(text, form, between, numbers, count),
        None => {
            *count = 0;
            Outcome::fault(BAD_FORM, 0)
        }
    }
}

/// The numbers by a form that a whole text lists, as many as there are places. There is code of its
/// own for JSON.
#[unsafe(no_mangle)]
#[tactic(auto, unfolding(crate::proofs::OnWords::on_forms))]
pub extern "C" fn digits_parse_number_list(
    text: &[u8],
    form: u32,
    between: u8,
    numbers: &mut [NumberParts],
    count: &mut usize,
) -> Outcome
    ensures { let room = length numbers.old in
        let list = whole_numbers_by text.now between room (form_of form) in
        Fills (λ n. n) list count.new numbers.old numbers.new result }
{
    match form {
        38 => parse_numbers(text, Json, between, numbers, count),
        _ => parse_numbers_by(text, form, between, numbers, count),
    }
}

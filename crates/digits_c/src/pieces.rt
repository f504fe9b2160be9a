//! Lists of numbers in a text that comes in pieces, into places of the caller.

ghost use Rattle.std.specs.Prelude.{◌≡◌, ◌^◌, ◌-◌, length, nat_lt, pos, true};
ghost use Rattle.std.specs.Float.{binary64};
ghost use Rattle.digit_pieces.specs.Cuts.{is_float_byte, sure_end};
ghost use Rattle.digits.specs.Words.{IsForm, STANDARD, form_of, plain_marks};
ghost use Rattle.digits_c.specs.Calls.{groups_word, word_of};
ghost use Rattle.digits_c.specs.Lists.{Fills};
ghost use Rattle.digits_c.specs.Pieces.{end_of, integers_in, floats_in, numbers_in, numbers_in_by};
ghost use Rattle.digits_c.specs.Pieces.{prices_in, scaled_in, sure_by, sure_of};
ghost use Rattle.digits_c.specs.Outcomes.{literal_fault, float_fault, number_fault};
ghost use Rattle.digits_c.specs.Outcomes.{price_fault, scaled_fault};

use super::lists::gap_of;
use super::numbers::NumberParts;
use super::outcome::{BAD_FORM, BAD_PLACES, BAD_START, BAD_WORD, FULL, MORE, Outcome};
use super::parts::Parts;
use super::prices::groups_word;
use super::source::{FormSource, Json};
use super::word::{Word, is_decimal};
use digit_pieces::{Floats, Integers, OfForm, PieceEnd, Prices, Scaled, read_piece, sure_end};
use digits::{
    Float, FloatError, Integer, LiteralError, NumberError, PriceError, STANDARD, ScaledError,
    form_of, is_supported,
};

impl Outcome {
    /// Of a piece of a list of integers.
    #[inline(always)]
    fn of_integer_piece(end: PieceEnd<LiteralError>) -> Outcome
        ensures { result ≡ end_of literal_fault end }
    {
        match end {
            PieceEnd::More(at) => Outcome::fault(MORE, at),
            PieceEnd::Full(at) => Outcome::fault(FULL, at),
            PieceEnd::Over(at) => Outcome::done(at),
            PieceEnd::Fault(error) => Outcome::of_literal(error),
        }
    }

    /// Of a piece of a list of floats.
    #[inline(always)]
    fn of_float_piece(end: PieceEnd<FloatError>) -> Outcome
        ensures { result ≡ end_of float_fault end }
    {
        match end {
            PieceEnd::More(at) => Outcome::fault(MORE, at),
            PieceEnd::Full(at) => Outcome::fault(FULL, at),
            PieceEnd::Over(at) => Outcome::done(at),
            PieceEnd::Fault(error) => Outcome::of_float(error),
        }
    }

    /// Of a piece of a list of scaled numbers.
    #[inline(always)]
    fn of_scaled_piece(end: PieceEnd<ScaledError>) -> Outcome
        ensures { result ≡ end_of scaled_fault end }
    {
        match end {
            PieceEnd::More(at) => Outcome::fault(MORE, at),
            PieceEnd::Full(at) => Outcome::fault(FULL, at),
            PieceEnd::Over(at) => Outcome::done(at),
            PieceEnd::Fault(error) => Outcome::of_scaled(error),
        }
    }

    /// Of a piece of a list of prices.
    #[inline(always)]
    fn of_price_piece(end: PieceEnd<PriceError>) -> Outcome
        ensures { result ≡ end_of price_fault end }
    {
        match end {
            PieceEnd::More(at) => Outcome::fault(MORE, at),
            PieceEnd::Full(at) => Outcome::fault(FULL, at),
            PieceEnd::Over(at) => Outcome::done(at),
            PieceEnd::Fault(error) => Outcome::of_price(error),
        }
    }

    /// Of a piece of a list of numbers by a form.
    #[inline(always)]
    fn of_number_piece(end: PieceEnd<NumberError>) -> Outcome
        ensures { result ≡ end_of number_fault end }
    {
        match end {
            PieceEnd::More(at) => Outcome::fault(MORE, at),
            PieceEnd::Full(at) => Outcome::fault(FULL, at),
            PieceEnd::Over(at) => Outcome::done(at),
            PieceEnd::Fault(error) => Outcome::of_number(error),
        }
    }
}

/// The integers of a list in a piece of a text, as many as there are places.
#[inline(always)]
fn read_integers<T: Integer>(
    text: &[u8],
    start: usize,
    between: u8,
    is_last: bool,
    numbers: &mut [T],
    count: &mut usize,
) -> Outcome
    ensures { let room = length numbers.old in
        let list = integers_in text.now start between is_last room T.MIN_MAGNITUDE T.MAX in
        Fills T.number list count.new numbers.old numbers.new result }
{
    *count = 0;
    if start > text.len() {
        return Outcome::fault(BAD_START, start);
    }
    let kind = Integers::<T>::new(STANDARD);
    let piece = read_piece(kind, text, start, gap_of(between), is_last, numbers);
    *count = piece.count;
    Outcome::of_integer_piece(piece.end)
}

/// The `i64` of a list in a piece of a text, as many as there are places.
#[unsafe(no_mangle)]
pub extern "C" fn digits_read_i64_piece(
    text: &[u8],
    start: usize,
    between: u8,
    is_last: bool,
    numbers: &mut [i64],
    count: &mut usize,
) -> Outcome
    ensures { let room = length numbers.old in
        let list = integers_in text.now start between is_last room (2 ^ 63) (2 ^ 63 - 1) in
        Fills (λ n. n) list count.new numbers.old numbers.new result }
{
    read_integers::<i64>(text, start, between, is_last, numbers, count)
}

/// The `u64` of a list in a piece of a text, as many as there are places.
#[unsafe(no_mangle)]
pub extern "C" fn digits_read_u64_piece(
    text: &[u8],
    start: usize,
    between: u8,
    is_last: bool,
    numbers: &mut [u64],
    count: &mut usize,
) -> Outcome
    ensures { let room = length numbers.old in
        let list = integers_in text.now start between is_last room 0 (2 ^ 64 - 1) in
        Fills pos list count.new numbers.old numbers.new result }
{
    read_integers::<u64>(text, start, between, is_last, numbers, count)
}

/// The floats of a list in a piece of a text, as many as there are places.
#[inline(always)]
fn read_floats<F: Float>(
    text: &[u8],
    start: usize,
    between: u8,
    is_last: bool,
    numbers: &mut [F],
    count: &mut usize,
) -> Outcome
    ensures { let room = length numbers.old in
        let list = floats_in text.now start between is_last room F.format in
        Fills F.value list count.new numbers.old numbers.new result }
{
    *count = 0;
    if start > text.len() {
        return Outcome::fault(BAD_START, start);
    }
    let kind = Floats::<F>::new(STANDARD);
    let piece = read_piece(kind, text, start, gap_of(between), is_last, numbers);
    *count = piece.count;
    Outcome::of_float_piece(piece.end)
}

/// The `f64` of a list in a piece of a text, as many as there are places.
#[unsafe(no_mangle)]
pub extern "C" fn digits_read_f64_piece(
    text: &[u8],
    start: usize,
    between: u8,
    is_last: bool,
    numbers: &mut [f64],
    count: &mut usize,
) -> Outcome
    ensures { let room = length numbers.old in
        let list = floats_in text.now start between is_last room binary64 in
        Fills (λ x. x) list count.new numbers.old numbers.new result }
{
    read_floats::<f64>(text, start, between, is_last, numbers, count)
}

/// The decimal numbers of a list in a piece of a text, each times ten to the power `places`, as
/// many as the slice has room for. The point is `.`.
#[unsafe(no_mangle)]
pub extern "C" fn digits_read_scaled_i64_piece(
    text: &[u8],
    start: usize,
    places: usize,
    between: u8,
    is_last: bool,
    numbers: &mut [i64],
    count: &mut usize,
) -> Outcome
    ensures { let room = length numbers.old in
        let list = scaled_in text.now start between is_last room (2 ^ 63) (2 ^ 63 - 1) places in
        Fills (λ n. n) list count.new numbers.old numbers.new result }
{
    *count = 0;
    if places > 38 {
        return Outcome::fault(BAD_PLACES, start);
    }
    if start > text.len() {
        return Outcome::fault(BAD_START, start);
    }
    let kind = Scaled::<i64>::new(STANDARD, b'.', places);
    let piece = read_piece(kind, text, start, gap_of(between), is_last, numbers);
    *count = piece.count;
    Outcome::of_scaled_piece(piece.end)
}

/// Prices by a separator, or by 0 without groups.
#[inline(always)]
fn prices_of<T: Integer>(separator: u8, point: u8, places: usize) -> Prices<T>
    ensures word { result.word ≡ groups_word separator }
    ensures point { result.point ≡ point }
    ensures places { result.places ≡ places }
    ensures is_exact { result.is_exact ≡ true }
    ensures is_grouped { result.is_grouped ≡ nat_lt 0 separator }
{
    if separator > 0 {
        Prices::<T>::new(groups_word(separator), point, places)
    } else {
        Prices::<T>::exact(groups_word(separator), point, places)
    }
}

/// The prices of a list in a piece of a text, each times ten to the power `places`, as many as the
/// slice has room for. They have a separator between groups of three digits, or with 0 no groups.
#[unsafe(no_mangle)]
pub extern "C" fn digits_read_price_i64_piece(
    text: &[u8],
    start: usize,
    places: usize,
    separator: u8,
    point: u8,
    between: u8,
    is_last: bool,
    numbers: &mut [i64],
    count: &mut usize,
) -> Outcome
    ensures { let room = length numbers.old in
        let list = prices_in text.now start between is_last room (2 ^ 63) (2 ^ 63 - 1) separator
        point places in
        Fills (λ n. n) list count.new numbers.old numbers.new result }
{
    *count = 0;
    let kind = prices_of::<i64>(separator, point, places);
    if !is_supported(kind.word) || !is_decimal(kind.word) {
        return Outcome::fault(BAD_WORD, start);
    }
    if places > 38 {
        return Outcome::fault(BAD_PLACES, start);
    }
    if start > text.len() {
        return Outcome::fault(BAD_START, start);
    }
    let piece = read_piece(kind, text, start, gap_of(between), is_last, numbers);
    *count = piece.count;
    Outcome::of_price_piece(piece.end)
}

/// The numbers of a list by a form in a piece of a text, as many as there are places.
#[inline(always)]
fn read_numbers<S: FormSource>(
    text: &[u8],
    start: usize,
    source: S,
    between: u8,
    is_last: bool,
    numbers: &mut [NumberParts],
    count: &mut usize,
) -> Outcome
    requires { IsForm (S.form source) }
    ensures { let room = length numbers.old in
        let list = numbers_in text.now start between is_last room (S.form source) in
        Fills (λ n. n) list count.new numbers.old numbers.new result }
{
    *count = 0;
    if start > text.len() {
        return Outcome::fault(BAD_START, start);
    }
    let parts = Parts { source };
    let piece = read_piece(parts, text, start, gap_of(between), is_last, numbers);
    *count = piece.count;
    Outcome::of_number_piece(piece.end)
}

/// The numbers of a list by a form with a number, by code for all forms.
#[inline(never)]
fn read_numbers_by(
    text: &[u8],
    start: usize,
    form: u32,
    between: u8,
    is_last: bool,
    numbers: &mut [NumberParts],
    count: &mut usize,
) -> Outcome
    ensures { let room = length numbers.old in
        let list = numbers_in_by text.now start between is_last room (form_of form) in
        Fills (λ n. n) list count.new numbers.old numbers.new result }
{
    match form_of(form as usize) {
        Some(form) => read_numbers(text, start, form, between, is_last, numbers, count),
        None => {
            *count = 0;
            Outcome::fault(BAD_FORM, start)
        }
    }
}

/// The numbers of a list by a form in a piece of a text, as many as there are places. There is code
/// of its own for JSON.
#[unsafe(no_mangle)]
#[tactic(auto, unfolding(crate::proofs::OnWords::on_forms))]
pub extern "C" fn digits_read_number_piece(
    text: &[u8],
    start: usize,
    form: u32,
    between: u8,
    is_last: bool,
    numbers: &mut [NumberParts],
    count: &mut usize,
) -> Outcome
    ensures { let room = length numbers.old in
        let list = numbers_in_by text.now start between is_last room (form_of form) in
        Fills (λ n. n) list count.new numbers.old numbers.new result }
{
    match form {
        38 => read_numbers(text, start, Json, between, is_last, numbers, count),
        _ => read_numbers_by(text, start, form, between, is_last, numbers, count),
    }
}

/// Up to where a text is sure, for a read without a word.
#[unsafe(no_mangle)]
pub extern "C" fn digits_sure_end(text: &[u8]) -> usize
    ensures { result ≡ sure_end (is_float_byte STANDARD plain_marks) text.now }
{
    sure_end(Floats::<f64>::new(STANDARD), text)
}

/// The same for a read by a form. It is 0 if no form has the number.
#[unsafe(no_mangle)]
pub extern "C" fn digits_sure_end_of(text: &[u8], form: u32) -> usize
    ensures { result ≡ sure_of text.now (form_of form) }
{
    match form_of(form as usize) {
        Some(form) => sure_end(OfForm::<f64>::new(form), text),
        None => 0,
    }
}

/// The same for a read by a word. It is 0 if the word isn't supported.
#[unsafe(no_mangle)]
pub extern "C" fn digits_sure_end_by(text: &[u8], word: Word) -> usize
    ensures { result ≡ sure_by text.now (word_of word) }
{
    let word = word.whole();
    if !is_supported(word) {
        0
    } else if is_decimal(word) {
        sure_end(Floats::<f64>::new(word), text)
    } else {
        sure_end(Integers::<i64>::new(word), text)
    }
}

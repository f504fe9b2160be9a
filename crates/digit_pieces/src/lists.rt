//! Lists in a piece of a text, of each kind by its word or form.

ghost use Rattle.std.specs.Prelude.{◌≤◌, length, IsTrue};
ghost use Rattle.lexical_format.specs.Word.{is_supported};
ghost use Rattle.lexical_digits.specs.State.{rule_of};
ghost use Rattle.lexical_digits.specs.declared.skip.component.Component.TheVariants.{Integer};
ghost use Rattle.digit_values.specs.Errors.{literal_none_at};
ghost use Rattle.digit_integers.specs.Numbers.{number_at};
ghost use Rattle.digit_floats.specs.Errors.{none_at as float_none_at};
ghost use Rattle.digit_floats.specs.Float.{IsDecimal, plain_marks, read_at};
ghost use Rattle.digit_amounts.specs.Scaled.{none_at as scaled_none_at, read_scaled_at};
ghost use Rattle.digit_numbers.specs.Follows.{is_number_byte};
ghost use Rattle.digit_numbers.specs.Forms.{IsForm};
ghost use Rattle.digit_numbers.specs.Numbers.{number_of_at};
ghost use Rattle.digit_numbers.specs.Values.{none_at, with_value};
ghost use Rattle.digit_pieces.specs.Cuts.{is_integer_byte, is_float_byte, is_scaled_byte, sure_end};
ghost use Rattle.digit_pieces.specs.Pieces.{piece_at, FillsPiece, IfAt};

use super::kinds::{Floats, Integers, OfForm, Scaled};
use super::piece::{PieceRead, read_piece};
use digit_amounts::ScaledError;
use digit_floats::{Float, FloatError};
use digit_integers::Integer;
use digit_literals::Gap;
use digit_numbers::{Form, Number, NumberError};
use digit_values::LiteralError;

/// [`read_list`](digit_literals::read_list) of a piece of a text: [`read_piece`] of integers by a
/// word. Requires that `start` is within the piece and the word is supported.
///
/// ```text
/// `1, 23` with COMMAS: count 1, More(3); if it is the last: count 2, Over(5)
/// ```
#[inline(always)]
pub fn read_list_piece<T: Integer>(
    text: &[u8],
    start: usize,
    word: u128,
    gap: Gap,
    is_last: bool,
    out: &mut [T],
) -> PieceRead<LiteralError>
    requires supported { IsTrue (is_supported word) }
    requires within { start ≤ length text.now }
    ensures is { let one = number_at T.MIN_MAGNITUDE T.MAX (rule_of word Integer) text.now in
        let sure = sure_end (is_integer_byte T.MIN_MAGNITUDE word) text.now in
        let room = length out.old in
        let read = piece_at one literal_none_at gap text.now sure is_last room start in
        FillsPiece T.number read result out.old out.new }
    ensures count { result.count ≤ length out.old }
    ensures at { IfAt result.end (λ at. (start ≤ at) × (at ≤ length text.now)) }
{
    read_piece(Integers::<T>::new(word), text, start, gap, is_last, out)
}

/// [`read_float_list`](digit_lists::read_float_list) of a piece of a text: [`read_piece`] of
/// floats by a word. Requires that `start` is within the piece, and that the word is supported and
/// decimal.
///
/// ```text
/// `1.5,-2` with COMMAS: count 1, More(4); `1.5,-` and `1.5,2e`: the same; `1.5,x`: a fault
/// ```
#[inline(always)]
pub fn read_float_list_piece<F: Float>(
    text: &[u8],
    start: usize,
    word: u128,
    gap: Gap,
    is_last: bool,
    out: &mut [F],
) -> PieceRead<FloatError>
    requires supported { IsTrue (is_supported word) }
    requires decimal { IsDecimal word }
    requires within { start ≤ length text.now }
    ensures is { let one = read_at word text.now plain_marks F.format in
        let sure = sure_end (is_float_byte word plain_marks) text.now in
        let room = length out.old in
        let read = piece_at one float_none_at gap text.now sure is_last room start in
        FillsPiece F.value read result out.old out.new }
    ensures count { result.count ≤ length out.old }
    ensures at { IfAt result.end (λ at. (start ≤ at) × (at ≤ length text.now)) }
{
    read_piece(Floats::<F>::new(word), text, start, gap, is_last, out)
}

/// [`read_list_of`](digit_lists::read_list_of) of a piece of a text: [`read_piece`] of numbers by
/// a form. Requires that `start` is within the piece, and that the form is one.
#[inline(always)]
pub fn read_list_piece_of<F: Float>(
    text: &[u8],
    start: usize,
    form: Form,
    gap: Gap,
    is_last: bool,
    out: &mut [Number<F>],
) -> PieceRead<NumberError>
    requires form { IsForm form }
    requires within { start ≤ length text.now }
    ensures is { let sure = sure_end (is_number_byte form) text.now in
        let room = length out.old in
        let read = piece_at (λ at. number_of_at form text.now at F.format) none_at gap text.now
        sure is_last room start in
        FillsPiece (with_value F.value) read result out.old out.new }
    ensures count { result.count ≤ length out.old }
    ensures at { IfAt result.end (λ at. (start ≤ at) × (at ≤ length text.now)) }
{
    read_piece(OfForm::<F>::new(form), text, start, gap, is_last, out)
}

/// The scaled numbers of a piece of a text: [`read_piece`] of decimal numbers in units of their
/// last place, each as by [`read_scaled_from`](digit_amounts::read_scaled_from). Requires that
/// `start` is within the piece, that the word is supported and decimal, and that there are at most
/// 38 places.
///
/// ```text
/// two places of `1.25, -3` with COMMAS: 125, count 1, More(6); if it is the last: 125, -300
/// ```
#[inline(always)]
pub fn read_scaled_list_piece<T: Integer>(
    text: &[u8],
    start: usize,
    kind: Scaled<T>,
    gap: Gap,
    is_last: bool,
    out: &mut [T],
) -> PieceRead<ScaledError>
    requires supported { IsTrue (is_supported kind.word) }
    requires decimal { IsDecimal kind.word }
    requires places { kind.places ≤ 38 }
    requires within { start ≤ length text.now }
    ensures is { let one = read_scaled_at kind.word text.now kind.point kind.places
        T.MIN_MAGNITUDE T.MAX in
        let sure = sure_end (is_scaled_byte kind.word kind.point) text.now in
        let room = length out.old in
        let read = piece_at one scaled_none_at gap text.now sure is_last room start in
        FillsPiece T.number read result out.old out.new }
    ensures count { result.count ≤ length out.old }
    ensures at { IfAt result.end (λ at. (start ≤ at) × (at ≤ length text.now)) }
{
    read_piece(kind, text, start, gap, is_last, out)
}

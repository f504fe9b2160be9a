//! What calls in a row answer, what stays of an answer if the text goes on, and what statuses and
//! kinds are by number: functions whose contract is a law. None is exported.

ghost use Rattle.std.specs.Prelude.{◌≡◌, ℕ, Bool, ◌^◌, ◌-◌, ◌<◌, List, ◌++◌};
ghost use Rattle.std.specs.Float.{Format};
ghost use Rattle.digit_pieces.specs.Cuts.{is_float_byte, sure_end};
ghost use Rattle.digits.specs.Words.{STANDARD, form_of, plain_marks};
ghost use Rattle.digits_c.specs.Calls.{float_from, integer_from, price_from, scaled_from, word_of};
ghost use Rattle.digits_c.specs.Numbers.{integer_by, no_parts, number_by};
ghost use Rattle.digits_c.specs.Outcomes.{Answers, AnswersIf};
ghost use Rattle.digits_c.specs.Pieces.{sure_by, sure_of};
ghost use Rattle.digits_c.specs.declared.numbers.TheConstants as kinds;
ghost use Rattle.digits_c.specs.declared.outcome.TheConstants as statuses;

use super::numbers::{NumberParts, digits_as_i64, digits_read_number};
use super::outcome::Outcome;
use super::pieces::{digits_sure_end, digits_sure_end_by, digits_sure_end_of};
use super::word::Word;

/// [`digits_as_i64`] after [`digits_read_number`]: what both answer is a function of the text.
#[tactic(auto, using(crate::proofs::Read::read_is))]
pub fn read_then_as_i64(
    text: &[u8],
    start: usize,
    form: u32,
    number: &mut NumberParts,
    integer: &mut i64,
) -> (Outcome, bool)
    ensures number { Answers no_parts (number_by text.now start (form_of form)) number.new
        result.0 }
    ensures integer { AnswersIf (integer_by (2 ^ 63) (2 ^ 63 - 1) text.now start (form_of form))
        integer.new result.1 }
{
    let outcome = digits_read_number(text, start, form, number);
    (outcome, digits_as_i64(number, integer))
}

/// What a read without a word answers at a start before [`digits_sure_end`] stays, whatever follows
/// the text.
#[tactic(auto, using(crate::proofs::Stays::stays))]
pub fn reads_stay(text: &[u8]) -> usize
    ensures is { result ≡ sure_end (is_float_byte STANDARD plain_marks) text.now }
    ensures floats { (f : Format) (more : List ℕ) (start : ℕ) → start < result →
        float_from f STANDARD (text.now ++ more) start ≡ float_from f STANDARD text.now start }
    ensures integers { (least most : ℕ) (more : List ℕ) (start : ℕ) → start < result →
        integer_from least most STANDARD (text.now ++ more) start
        ≡ integer_from least most STANDARD text.now start }
    ensures scaled { (least most places : ℕ) (more : List ℕ) (start : ℕ) → start < result →
        scaled_from least most STANDARD (text.now ++ more) 46 places start
        ≡ scaled_from least most STANDARD text.now 46 places start }
{
    digits_sure_end(text)
}

/// The same of a read by a word, before [`digits_sure_end_by`]. The point is `.`.
#[tactic(auto, using(crate::proofs::Stays::stays_by))]
pub fn reads_stay_by(text: &[u8], word: Word) -> usize
    ensures is { result ≡ sure_by text.now (word_of word) }
    ensures floats { (f : Format) (more : List ℕ) (start : ℕ) → start < result →
        float_from f (word_of word) (text.now ++ more) start
        ≡ float_from f (word_of word) text.now start }
    ensures integers { (least most : ℕ) (more : List ℕ) (start : ℕ) → start < result →
        integer_from least most (word_of word) (text.now ++ more) start
        ≡ integer_from least most (word_of word) text.now start }
    ensures scaled { (least most places : ℕ) (more : List ℕ) (start : ℕ) → start < result →
        scaled_from least most (word_of word) (text.now ++ more) 46 places start
        ≡ scaled_from least most (word_of word) text.now 46 places start }
    ensures prices { (is_grouped : Bool) (least most places : ℕ) (more : List ℕ) (start : ℕ) →
        start < result →
        price_from is_grouped least most (word_of word) (text.now ++ more) 46 places start
        ≡ price_from is_grouped least most (word_of word) text.now 46 places start }
{
    digits_sure_end_by(text, word)
}

/// The same of a read by a form, before [`digits_sure_end_of`].
#[tactic(auto, using(crate::proofs::Stays::number_stays))]
pub fn reads_stay_of(text: &[u8], form: u32) -> usize
    ensures is { result ≡ sure_of text.now (form_of form) }
    ensures numbers { (more : List ℕ) (start : ℕ) → start < result →
        number_by (text.now ++ more) start (form_of form)
        ≡ number_by text.now start (form_of form) }
{
    digits_sure_end_of(text, form)
}

/// The number of each status. It is never given to another status.
pub fn statuses_say()
    ensures ok { statuses.OK ≡ 0 }
    ensures empty { statuses.EMPTY ≡ 1 }
    ensures overflow { statuses.OVERFLOW ≡ 2 }
    ensures invalid { statuses.INVALID ≡ 3 }
    ensures empty_exponent { statuses.EMPTY_EXPONENT ≡ 4 }
    ensures first_zero { statuses.FIRST_ZERO ≡ 5 }
    ensures too_fine { statuses.TOO_FINE ≡ 6 }
    ensures bad_start { statuses.BAD_START ≡ 7 }
    ensures bad_word { statuses.BAD_WORD ≡ 8 }
    ensures bad_language { statuses.BAD_LANGUAGE ≡ 9 }
    ensures bad_form { statuses.BAD_FORM ≡ 10 }
    ensures bad_places { statuses.BAD_PLACES ≡ 11 }
    ensures full { statuses.FULL ≡ 12 }
    ensures more { statuses.MORE ≡ 13 }
    ensures other_byte { statuses.OTHER_BYTE ≡ 14 }
    ensures closed { statuses.CLOSED ≡ 15 }
    ensures too_long { statuses.TOO_LONG ≡ 16 }
    ensures group { statuses.GROUP ≡ 17 }
    ensures places { statuses.PLACES ≡ 18 }
{}

/// The number of each kind.
pub fn kinds_say()
    ensures none { kinds.NONE ≡ 0 }
    ensures integer { kinds.INTEGER ≡ 1 }
    ensures float { kinds.FLOAT ≡ 2 }
{}

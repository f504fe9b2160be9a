//! Laws of lists: functions that do nothing. Their contracts are the laws.

ghost use Rattle.std.specs.Prelude.{◌≡◌, ℕ, ◌+◌, true, false, List, length, Ok, Err};
ghost use Rattle.std.specs.Float.{Format};
ghost use Rattle.lexical_digits.specs.State.{rule_of};
ghost use Rattle.lexical_digits.specs.declared.skip.component.Component.TheVariants.{Integer};
ghost use Rattle.digit_literals.specs.ListEnds.{EndSays};
ghost use Rattle.digit_literals.specs.Lists.{past_blanks, list_at, and_then, Fills};
ghost use Rattle.digit_integers.specs.Numbers.{number_at};
ghost use Rattle.digit_values.specs.declared.LiteralError.TheVariants as integers;
ghost use Rattle.digit_literals.specs.declared.list.ListRead.{ListRead};
ghost use Rattle.digit_floats.specs.Float.{plain_marks, read_at};
ghost use Rattle.digit_amounts.specs.Scaled.{read_scaled_at};
ghost use Rattle.digit_floats.specs.declared.error.FloatError.TheVariants as floats;
ghost use Rattle.digit_amounts.specs.declared.scaled.ScaledError.TheVariants as scaled;
ghost use Rattle.digit_numbers.specs.Numbers.{number_of_at};
ghost use Rattle.digit_numbers.specs.declared.form.Form.{Form};
ghost use Rattle.digit_numbers.specs.declared.number.NumberError.TheVariants as numbers;
ghost use Rattle.digit_languages.specs.Literals.{literal_at, typed};
ghost use Rattle.digit_languages.specs.declared.language.Language.{Language};
ghost use Rattle.digit_languages.specs.declared.literal.LanguageError.TheVariants as languages;
ghost use Rattle.digit_pieces.specs.Both.{both_at};
ghost use Rattle.digit_pieces.specs.declared.kinds.both.BothError.TheVariants as pairs;
ghost use Rattle.digit_lists.specs.Lists.{full_list, parsed};
ghost use Rattle.digit_lists.specs.declared.list.ListError.TheVariants as lists;

use super::list::OfKind;
use digit_literals::Gap;
use digit_literals::laws::lists::{any_list_ends_say, any_list_goes_on};
use digit_pieces::{Both, Kind};

/// A list of any kind may be read by several calls:
/// [`any_list_goes_on`](digit_literals::laws::lists::any_list_goes_on) of its numbers.
pub fn a_list_by_goes_on<K: Kind>(kind: K, text: &[u8], gap: Gap)
    ensures { (n m start : ℕ) →
        let of = list_at (K.number_at kind text.now) K.none_at gap text.now in
        of (n + m) start ≡ and_then (of n start) (of m) }
{
    any_list_goes_on(OfKind { kind }, text, gap)
}

/// What the end of a list of any kind says:
/// [`any_list_ends_say`](digit_literals::laws::lists::any_list_ends_say) of its numbers.
pub fn list_by_ends_say<K: Kind>(kind: K, text: &[u8], gap: Gap)
    ensures { (start : ℕ) (read : ListRead K.Error) (old new : List K.Number) →
        let of = list_at (K.number_at kind text.now) K.none_at gap text.now in
        Fills K.meaning (of (length old) start) read old new →
        EndSays gap text.now (length old) read }
{
    any_list_ends_say(OfKind { kind }, text, gap)
}

/// A text of blanks, and so an empty one, is a list of no numbers if the gap may trail. Otherwise
/// it is none, and the error is that of the number at the end of the text. Requires that this
/// error says that no number begins there: [`no_number_at_the_end`] says so of each kind, and
/// [`no_pair_at_the_end`] of two numbers.
#[tactic(auto, using(crate::proofs::AtEnd::blanks))]
pub fn a_blank_text<K: Kind>(kind: K, text: &[u8], gap: Gap, error: K::Error)
    requires blank { past_blanks gap text.now 0 ≡ length text.now }
    requires none { K.number_at kind text.now (length text.now) ≡ Err error }
    requires there { K.none_at (length text.now) error ≡ true }
    ensures may_trail { (room : ℕ) → gap.may_trail ≡ true →
        let list = full_list (K.number_at kind text.now) K.none_at gap text.now room 0 in
        parsed text.now list ≡ Ok 0 }
    ensures no_trail { (room : ℕ) → gap.may_trail ≡ false →
        let list = full_list (K.number_at kind text.now) K.none_at gap text.now room 0 in
        parsed text.now list ≡ Err (lists.Number error) }
{}

/// At the end of a text no number begins: the error is that no digit is there, or by a form no
/// number.
#[tactic(auto, using(crate::proofs::AtEnd::ends, crate::proofs::FormEnd::form_ends))]
pub fn no_number_at_the_end(text: &[u8], word: u128)
    ensures integer { (least most : ℕ) →
        number_at least most (rule_of word Integer) text.now (length text.now)
        ≡ Err (integers.Empty (length text.now)) }
    ensures float { (f : Format) → read_at word text.now plain_marks f (length text.now)
        ≡ Err (floats.Empty (length text.now)) }
    ensures scaled { (point places least most : ℕ) →
        read_scaled_at word text.now point places least most (length text.now)
        ≡ Err (scaled.Empty (length text.now)) }
    ensures number { (form : Form) (f : Format) → number_of_at form text.now (length text.now) f
        ≡ Err (numbers.Empty (length text.now)) }
    ensures literal { (language : Language) (most : ℕ) →
        typed (literal_at language text.now (length text.now) most)
        ≡ Err (languages.Empty (length text.now)) }
{}

/// Where the first of two numbers doesn't begin at the end of a text, both don't.
pub fn no_pair_at_the_end<A: Kind, B: Kind>(kind: Both<A, B>, text: &[u8], error: A::Error)
    requires { A.number_at kind.first text.now (length text.now) ≡ Err error }
    ensures { both_at (A.number_at kind.first) kind.between (B.number_at kind.second) text.now
        (length text.now) ≡ Err (pairs.First error) }
{}

//! That what is before a number by a form makes no difference to it, nor to a literal of a
//! language.

ghost use Rattle.std.specs.Prelude.{◌≡◌, ℕ, ◌+◌, ◌≤◌, List, length, drop};
ghost use Rattle.std.specs.Float.{Format};
ghost use Rattle.digit_languages.specs.declared.language.Language.{Language};
ghost use Rattle.digit_languages.specs.Follows.{is_literal_byte};
ghost use Rattle.digit_languages.specs.Literals.{literal_at};
ghost use Rattle.digit_numbers.specs.Follows.{is_number_byte};
ghost use Rattle.digit_numbers.specs.Numbers.{number_of_at};
ghost use Rattle.digit_languages.specs.Moves.{read_later};
ghost use Rattle.lexical_digits.specs.Moves.{IsFresh, outcome_later};
ghost use Rattle.digit_numbers.specs.Moves.{number_later};

use digit_numbers::Form;

/// What is before a number makes no difference to it. Let a position be the start of a text, or
/// follow a byte that no number of the form has. The outcome from each start on that is not before
/// that position is the one of the text without the bytes before it, with positions that are so
/// much greater.
///
/// So a text that comes in pieces is read from such a position on, without what came before. The
/// same holds of a literal of a language, after a byte that no literal of it has.
pub fn what_precedes_changes_no_outcome()
    ensures number { (f : Form) (text : List ℕ) (from at : ℕ) (format : Format) →
        from + at ≤ length text → IsFresh (is_number_byte f) text from →
        number_of_at f text (from + at) format
        ≡ outcome_later number_later from (number_of_at f (drop from text) at format) }
    ensures literal { (l : Language) (text : List ℕ) (from at most : ℕ) →
        from + at ≤ length text → IsFresh (is_literal_byte l) text from →
        literal_at l text (from + at) most
        ≡ read_later from (literal_at l (drop from text) at most) }
{}

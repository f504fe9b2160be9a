//! That what is before a number makes no difference to it.

ghost use Rattle.std.specs.Prelude.{◌≡◌, ℕ, ◌+◌, ◌≤◌, List, length, drop};
ghost use Rattle.std.specs.Float.{Format};
ghost use Rattle.lexical_digits.specs.declared.skip.rule.Rule.{Rule};
ghost use Rattle.lexical_digits.specs.Stop.{stop};
ghost use Rattle.digit_values.specs.After.{digits_between};
ghost use Rattle.digit_integers.specs.Integers.{integer_at};
ghost use Rattle.digit_integers.specs.Numbers.{number_at};
ghost use Rattle.digit_floats.specs.declared.parts.Marks.{Marks};
ghost use Rattle.digit_floats.specs.Float.{read_at};
ghost use Rattle.digit_floats.specs.Decimals.{read_decimal_at};
ghost use Rattle.digit_amounts.specs.Scaled.{read_scaled_at};
ghost use Rattle.digit_pieces.specs.Cuts.{is_of_rule, is_float_byte, is_scaled_byte};
ghost use Rattle.lexical_digits.specs.Moves.{IsFresh, outcome_later};
ghost use Rattle.digit_values.specs.Moves.{literal_later};
ghost use Rattle.digit_floats.specs.Moves.{float_later};
ghost use Rattle.digit_amounts.specs.Moves.{scaled_later};

/// What is before a number makes no difference to it. Where the byte before a position, if there is
/// one, is in no number, reading from there on answers what the text that begins there is read as:
/// the same number, or the same fault, with each position later by that one.
///
/// Where a number may have that byte, it does make a difference. Take a word that drops `_` between
/// digits, and the text `1_2` from 1 on. Its `_` is between two digits, so 2 is read, which ends at
/// 3. The text `_2` has no digit before its `_`, which is kept. So no number begins it.
pub fn what_precedes_changes_no_number()
    // the digits up to each position, and where they end
    ensures between { (rule : Rule) (text : List ℕ) (from start end : ℕ) →
        digits_between rule text (from + start) (from + end)
        ≡ digits_between rule (drop from text) start end }
    ensures stop { (rule : Rule) (text : List ℕ) (from start count : ℕ) → from ≤ length text →
        IsFresh (is_of_rule rule) text from →
        stop rule text (from + start) count ≡ from + stop rule (drop from text) start count }
    // the integer, and the number of a type
    ensures integer { (rule : Rule) (text : List ℕ) (from start most : ℕ) → from ≤ length text →
        IsFresh (is_of_rule rule) text from →
        integer_at rule text (from + start) most
        ≡ outcome_later literal_later from (integer_at rule (drop from text) start most) }
    ensures number { (rule : Rule) (text : List ℕ) (from start least most : ℕ) →
        from ≤ length text → IsFresh (is_of_rule rule) text from →
        number_at least most rule text (from + start)
        ≡ outcome_later literal_later from (number_at least most rule (drop from text) start) }
    // the float, the decimal number, and the scaled number
    ensures float { (word : ℕ) (text : List ℕ) (marks : Marks) (f : Format) (from start : ℕ) →
        from ≤ length text → IsFresh (is_float_byte word marks) text from →
        read_at word text marks f (from + start)
        ≡ outcome_later float_later from (read_at word (drop from text) marks f start) }
    ensures decimal { (word : ℕ) (text : List ℕ) (marks : Marks) (from start : ℕ) →
        from ≤ length text → IsFresh (is_float_byte word marks) text from →
        read_decimal_at word text marks (from + start)
        ≡ outcome_later float_later from (read_decimal_at word (drop from text) marks start) }
    ensures scaled { (word : ℕ) (text : List ℕ) (from start point places least most : ℕ) →
        from ≤ length text → IsFresh (is_scaled_byte word point) text from →
        read_scaled_at word text point places least most (from + start)
        ≡ outcome_later scaled_later from
        (read_scaled_at word (drop from text) point places least most start) }
{}

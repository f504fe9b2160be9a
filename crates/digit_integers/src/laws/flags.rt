//! What a word with more flags reads.

ghost use Rattle.std.specs.Prelude.{◌≡◌, ℕ, ℤ, false, List, length, Ok};
ghost use Rattle.lexical_digits.specs.declared.skip.rule.Rule.{Rule};
ghost use Rattle.lexical_digits.specs.Separators.{IsSupported, GrantsAtLeast};
ghost use Rattle.lexical_digits.specs.Looks.{separator_at};
ghost use Rattle.lexical_digits.specs.Stop.{stop};
ghost use Rattle.digit_integers.specs.Integers.{integer_at};
ghost use Rattle.digit_integers.specs.Numbers.{digits_from, number_at, to_end};

/// More flags read the same. Where one rule grants at least what another grants, with the same
/// separator and radix, it reads what the lesser one reads: the same value and end, or the same
/// fault, up to any greatest value. This holds if the lesser one stops at a byte that isn't the
/// separator, or at the end of the text. It holds of numbers of any type too, so a text that is a
/// number by a word is the same number by each word with more flags (`whole`). If the lesser one
/// stops at a separator, the greater one may read on: `1__0` is 1 by internal, and 10 by internal
/// and consecutive.
pub fn more_flags_read_the_same()
    ensures same { (lesser greater : Rule) (text : List ℕ) (start most : ℕ) →
        IsSupported lesser → GrantsAtLeast lesser greater →
        separator_at lesser.separator text (stop lesser text start 0) ≡ false →
        integer_at greater text start most ≡ integer_at lesser text start most }
    ensures at_end { (lesser greater : Rule) (text : List ℕ) (start most value : ℕ) →
        IsSupported lesser → GrantsAtLeast lesser greater →
        integer_at lesser text start most ≡ Ok (value, length text) →
        integer_at greater text start most ≡ Ok (value, length text) }
    ensures number { (lesser greater : Rule) (text : List ℕ) (least most start : ℕ) →
        IsSupported lesser → GrantsAtLeast lesser greater →
        separator_at lesser.separator text (stop lesser text (digits_from least text start) 0)
        ≡ false →
        number_at least most greater text start ≡ number_at least most lesser text start }
    ensures whole { (lesser greater : Rule) (text : List ℕ) (least most start : ℕ) (value : ℤ) →
        IsSupported lesser → GrantsAtLeast lesser greater →
        to_end text (number_at least most lesser text start) ≡ Ok value →
        to_end text (number_at least most greater text start) ≡ Ok value }
{}

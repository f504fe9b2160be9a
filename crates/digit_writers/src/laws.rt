//! Laws of what is written, for those who call. Each law is the contract of a function.

ghost use Rattle.std.specs.Prelude.{◌≡◌, ℕ, ℤ, ◌<◌, ◌≤◌, All, List, ◌∷◌, Ok, length, true};
ghost use Rattle.std.specs.Fmt.{signed_decimal};
ghost use Rattle.lexical_digits.specs.declared.skip.component.Component.TheVariants.{Integer};
ghost use Rattle.lexical_digits.specs.State.{rule_of};
ghost use Rattle.digit_literals.specs.declared.list.Gap.{Gap};
ghost use Rattle.digit_literals.specs.declared.list.ListEnd.TheVariants.{Over};
ghost use Rattle.digit_values.specs.Errors.{literal_none_at};
ghost use Rattle.digit_literals.specs.Lists.{list_at};
ghost use Rattle.digit_integers.specs.Numbers.{number_at};
ghost use Rattle.digit_lists.specs.Lists.{full_list, parsed};
ghost use Rattle.digit_writers.specs.declared.layout.Layout.{Layout};
ghost use Rattle.digit_writers.specs.Layouts.{laid_out, IsReadBy};
ghost use Rattle.digit_writers.specs.Lists.{IsListReadBy, list_text};
ghost use Rattle.digit_writers.specs.Written.{IsOfRadix, IsOfType, Reads};

/// What [`write_number`](crate::write_number) writes of a number of a type, `signed_decimal`, is
/// read as this number by each word of radix 10 (`read`). A text that is read as the number is no
/// shorter (`no_longer`): to write what was read makes no text longer. Two numbers with one text
/// are one (`one`).
#[tactic(auto, using(crate::proofs::ReadBack::laws))]
pub fn numbers_are_read_back()
    ensures read { (word least most : ℕ) (z : ℤ) → IsOfRadix 10 word → IsOfType least most z →
        Reads word least most z (signed_decimal z) }
    ensures no_longer { (word least most : ℕ) (z : ℤ) (text : List ℕ) → IsOfRadix 10 word →
        IsOfType least most z → Reads word least most z text →
        length (signed_decimal z) ≤ length text }
    ensures one { (least most : ℕ) (y z : ℤ) → IsOfType least most y → IsOfType least most z →
        signed_decimal y ≡ signed_decimal z → y ≡ z }
{}

/// What [`write_number_by`](crate::write_number_by) writes of a number of a type is read as this
/// number by each word that reads the layout (`read`), so two numbers with one text are one
/// (`one`).
#[tactic(auto, using(crate::proofs::ReadBack::laws))]
pub fn layouts_are_read_back()
    ensures read { (word least most : ℕ) (layout : Layout) (z : ℤ) → IsReadBy word layout least →
        IsOfType least most z → Reads word least most z (laid_out layout z) }
    ensures one { (word least most : ℕ) (layout : Layout) (y z : ℤ) →
        IsReadBy word layout least → IsOfType least most y → IsOfType least most z →
        laid_out layout y ≡ laid_out layout z → y ≡ z }
{}

/// What [`write_list`](crate::write_list) writes of numbers of a type is read as these numbers, to
/// its end, by each word and gap that read such a list: by `read_list` of integers (`read`), and by
/// `parse_list`, which has as many (`whole`, `parsed`). There is a number, or the gap may trail.
pub fn lists_are_read_back()
    ensures read { (word least most separator room : ℕ) (gap : Gap) (z : ℤ) (others : List ℤ) →
        IsListReadBy word least separator gap → All (IsOfType least most) (z ∷ others) →
        length others < room → let text = list_text separator (z ∷ others) in
        list_at (number_at least most (rule_of word Integer) text) literal_none_at gap text room 0
        ≡ (z ∷ others, Over (length text)) }
    ensures whole { (word least most separator room : ℕ) (gap : Gap) (numbers : List ℤ) →
        IsListReadBy word least separator gap → All (IsOfType least most) numbers →
        length numbers ≤ room → (length numbers ≡ 0 → gap.may_trail ≡ true) →
        let text = list_text separator numbers in
        full_list (number_at least most (rule_of word Integer) text) literal_none_at gap text room 0
        ≡ (numbers, Over (length text)) }
    ensures parsed { (word least most separator room : ℕ) (gap : Gap) (numbers : List ℤ) →
        IsListReadBy word least separator gap → All (IsOfType least most) numbers →
        length numbers ≤ room → (length numbers ≡ 0 → gap.may_trail ≡ true) →
        let text = list_text separator numbers in
        parsed text
        (full_list (number_at least most (rule_of word Integer) text) literal_none_at gap text room
        0) ≡ Ok (length numbers) }
{}

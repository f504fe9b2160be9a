//! That a list may be read by several calls, and what its end says.

ghost use Rattle.std.specs.Prelude.{◌≡◌, ℕ, ◌+◌, List, length};
ghost use Rattle.lexical_digits.specs.declared.skip.component.Component.TheVariants.{Integer};
ghost use Rattle.lexical_digits.specs.State.{rule_of};
ghost use Rattle.digit_values.specs.Errors.{literal_none_at};
ghost use Rattle.digit_literals.specs.ListEnds.{EndSays};
ghost use Rattle.digit_literals.specs.Lists.{list_at, and_then, Fills};
ghost use Rattle.digit_values.specs.declared.LiteralError.{LiteralError};
ghost use Rattle.digit_literals.specs.declared.list.ListRead.{ListRead};
ghost use Rattle.digit_integers.specs.Numbers.{number_at};

use crate::{Gap, Integers, ReadsOne};
use digit_integers::Integer;

/// A list of any numbers may be read by several calls. With room for `n` numbers, and then, where
/// the slice was full, with room for `m`, they are the numbers with room for all; and the list ends
/// as that.
pub fn any_list_goes_on<R: ReadsOne>(reads: R, text: &[u8], gap: Gap)
    ensures { (n m start : ℕ) →
        let of = list_at (R.number_at reads text.now) R.none_at gap text.now in
        of (n + m) start ≡ and_then (of n start) (of m) }
{}

/// What the end of a list of any numbers says (`EndSays`): with [`Full`](crate::ListEnd::Full) each
/// place of the slice was written. With [`Over`](crate::ListEnd::Over) no blank is at its position;
/// and unless a separator may be last, no separator is there either, and a number was read.
pub fn any_list_ends_say<R: ReadsOne>(reads: R, text: &[u8], gap: Gap)
    ensures { (start : ℕ) (read : ListRead R.Error) (old new : List R.Number) →
        let of = list_at (R.number_at reads text.now) R.none_at gap text.now in
        Fills R.meaning (of (length old) start) read old new →
        EndSays gap text.now (length old) read }
{}

/// A list of integers may be read by several calls: [`any_list_goes_on`] of these.
pub fn a_list_goes_on<T: Integer>(text: &[u8], word: u128, gap: Gap)
    ensures { (n m start : ℕ) → let r = rule_of word Integer in
        let of = list_at (number_at T.MIN_MAGNITUDE T.MAX r text.now) literal_none_at gap
        text.now in
        of (n + m) start ≡ and_then (of n start) (of m) }
{
    any_list_goes_on(Integers::<T>::new(word), text, gap)
}

/// What the end of a list of integers says: [`any_list_ends_say`] of these.
pub fn list_ends_say<T: Integer>(text: &[u8], word: u128, gap: Gap)
    ensures { (start : ℕ) (read : ListRead LiteralError) (old new : List T) →
        let r = rule_of word Integer in
        let of = list_at (number_at T.MIN_MAGNITUDE T.MAX r text.now) literal_none_at gap
        text.now in
        Fills T.number (of (length old) start) read old new →
        EndSays gap text.now (length old) read }
{
    any_list_ends_say(Integers::<T>::new(word), text, gap)
}

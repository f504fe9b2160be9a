//! That what follows a number makes no difference to it.

ghost use Rattle.std.specs.Prelude.{◌≡◌, ℕ, ◌≤◌, List};
ghost use Rattle.lexical_digits.specs.declared.skip.rule.Rule.{Rule};
ghost use Rattle.lexical_digits.specs.Follows.{AreSameUpTo};
ghost use Rattle.digit_values.specs.After.{digits_between};
ghost use Rattle.digit_integers.specs.Integers.{integer_at};
ghost use Rattle.digit_integers.specs.Numbers.{digits_from, number_at};

/// What follows a number makes no difference to it. Where two texts have the same bytes up to a
/// position, and each ends there, or goes on with a byte that is neither a digit nor the separator,
/// the digits up to there are the same, and so is the integer from each start up to there: the same
/// value and end, or the same fault. So is a number of any type, where it has no sign at that
/// position.
#[tactic(auto, using(crate::proofs::WhatFollows::follows))]
pub fn what_follows_changes_no_number()
    ensures between { (rule : Rule) (one other : List ℕ) (at start end : ℕ) →
        AreSameUpTo rule one other at → end ≤ at →
        digits_between rule one start end ≡ digits_between rule other start end }
    ensures integer { (rule : Rule) (one other : List ℕ) (at start most : ℕ) →
        AreSameUpTo rule one other at → start ≤ at →
        integer_at rule one start most ≡ integer_at rule other start most }
    ensures number { (rule : Rule) (one other : List ℕ) (at least most start : ℕ) →
        AreSameUpTo rule one other at →
        digits_from least one start ≤ at → digits_from least other start ≤ at →
        number_at least most rule one start ≡ number_at least most rule other start }
{}

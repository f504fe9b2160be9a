//! A law: what follows a decimal number makes no difference to it.

ghost use Rattle.std.specs.Prelude.{◌≡◌, ℕ, ◌≤◌, List};
ghost use Rattle.digit_floats.specs.Decimals.{read_decimal_at};
ghost use Rattle.digit_floats.specs.Follows.{IsSameFloatUpTo};
ghost use Rattle.digit_floats.specs.declared.parts.Marks.{Marks};
ghost use Rattle.digit_amounts.specs.Scaled.{read_scaled_at};

/// What follows a decimal number makes no difference to it, nor to a scaled one, as of a float:
/// [`what_follows_changes_no_float`](digit_floats::laws::what_follows_changes_no_float).
pub fn what_follows_changes_no_decimal()
    ensures decimal { (word : ℕ) (marks : Marks) (one other : List ℕ) (at start : ℕ) →
        IsSameFloatUpTo word marks one other at → start ≤ at →
        read_decimal_at word one marks start ≡ read_decimal_at word other marks start }
    ensures scaled { (word : ℕ) (marks : Marks) (one other : List ℕ)
        (at places least most start : ℕ) →
        IsSameFloatUpTo word marks one other at → start ≤ at →
        read_scaled_at word one marks.point places least most start
        ≡ read_scaled_at word other marks.point places least most start }
{}

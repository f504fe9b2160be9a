//! That a number that was written is read.

ghost use Rattle.std.specs.Prelude.{◌≡◌, ℕ, ℤ, ◌+◌, ◌^◌, ◌<◌, ◌≤◌, ◌-◌, Bool, true, if◌then◌else◌, List, ◌++◌, length, Ok, decimal, FitsSigned};
ghost use Rattle.std.specs.Fmt.{sign_text, signed_decimal};
ghost use Rattle.std.specs.Int.{Width};
ghost use mir.Val.{hbits};
ghost use Rattle.std.specs.Str.Parse.{IsNumeral, digits_value};
ghost use Rattle.lexical_digits.specs.declared.skip.rule.Rule.{Rule};
ghost use Rattle.lexical_digits.specs.Follows.{Ends};
ghost use Rattle.digit_integers.specs.Integers.{integer_at};
ghost use Rattle.digit_integers.specs.Numbers.{number_at, signed};
ghost use Rattle.digit_integers.specs.Written.{IsWrittenAt};

/// A number that was written is read, whatever the separator and the flags. Digits without a sign
/// are read up to where they end, and their value is std's, up to radix 36. What std writes of an
/// integer by `{}` is read with radix 10 as this integer (`integer`; `signed`, where `hbits w` is
/// 31 for an `i32`). So is a minus before such digits, if the type has a sign (`number`). The last
/// three clauses say where a text was written: all of it, what it begins with, or what follows
/// other bytes. After it the text ends, or goes on with a byte that is neither a digit nor the
/// separator.
#[tactic(auto, using(crate::proofs::Written::written))]
pub fn written_numbers_are_read()
    ensures digits { (rule : Rule) (text : List ℕ) (start most : ℕ) (digits : List ℕ) →
        rule.radix ≤ 36 → IsNumeral rule.radix digits → digits_value rule.radix digits ≤ most →
        IsWrittenAt rule text start digits → integer_at rule text start most
        ≡ Ok (digits_value rule.radix digits, start + length digits) }
    ensures integer { (rule : Rule) (text : List ℕ) (start most n : ℕ) →
        rule.radix ≡ 10 → n < 10 ^ 64 → n ≤ most → IsWrittenAt rule text start (decimal n) →
        integer_at rule text start most ≡ Ok (n, start + length (decimal n)) }
    ensures number { (rule : Rule) (text : List ℕ) (start least most n : ℕ) (negative : Bool) →
        rule.radix ≡ 10 → n < 10 ^ 64 → n ≤ (if negative then least else most) →
        (negative ≡ true → 0 < least) →
        IsWrittenAt rule text start (sign_text negative ++ decimal n) →
        number_at least most rule text start
        ≡ Ok (signed negative n, start + length (sign_text negative ++ decimal n)) }
    ensures signed { (rule : Rule) (text : List ℕ) (start : ℕ) (w : Width) (z : ℤ) →
        rule.radix ≡ 10 → FitsSigned w z → IsWrittenAt rule text start (signed_decimal z) →
        number_at (2 ^ hbits w) (2 ^ hbits w - 1) rule text start
        ≡ Ok (z, start + length (signed_decimal z)) }
    ensures whole { (rule : Rule) (text : List ℕ) → IsWrittenAt rule text 0 text }
    ensures first { (rule : Rule) (written after : List ℕ) → Ends rule after 0 →
        IsWrittenAt rule (written ++ after) 0 written }
    ensures later { (rule : Rule) (before text written : List ℕ) (start : ℕ) →
        IsWrittenAt rule text start written →
        IsWrittenAt rule (before ++ text) (length before + start) written }
{}

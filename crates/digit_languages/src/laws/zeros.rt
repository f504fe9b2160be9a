//! What a first `0` says, as in `01`: by language, and what that means.

ghost use Rattle.std.specs.Prelude.{◌≡◌, ℕ, ◌+◌, ◌<◌, true, false, is_some, List, Ok, Err};
ghost use Rattle.lexical_digits.specs.declared.skip.component.Component.TheVariants.{Integer};
ghost use Rattle.lexical_digits.specs.State.{rule_of};
ghost use Rattle.digit_integers.specs.Integers.{integer_at};
ghost use Rattle.digit_values.specs.Bytes.{has_byte};
ghost use Rattle.digit_languages.specs.declared.language.FirstZero.TheVariants.{Plain, Octal, Alone, Zeros};
ghost use Rattle.digit_languages.specs.declared.language.Language.{Language};
ghost use Rattle.digit_languages.specs.declared.literal.LanguageError.TheVariants.{Zero};
ghost use Rattle.digit_languages.specs.Literals.{literal_at, prefix_word};
ghost use Rattle.digit_languages.specs.Zeros.{one_by, zero_one};

use crate::languages::*;
use lexical_format::words::{
    CXX14_OCTAL_LITERAL, GO_OCTAL_LITERAL, JAVA_OCTAL_LITERAL, OCTAL, PERL_OCTAL_LITERAL,
    PHP_OCTAL_LITERAL, RUBY_OCTAL_LITERAL, RUST_OCTAL_LITERAL,
};

/// What a first `0` says, by language: nothing (`Plain`), that the literal is octal by a word
/// (`Octal`), that no digit follows it (`Alone`), or that all digits are `0` (`Zeros`).
/// [`a_first_zero_says`] has what this means for `01`.
pub fn first_zeros_are()
    ensures rust { RUST.first_zero ≡ Plain }
    ensures cxx14 { CXX14.first_zero ≡ Octal CXX14_OCTAL_LITERAL }
    ensures python { PYTHON.first_zero ≡ Zeros }
    ensures go { GO.first_zero ≡ Octal GO_OCTAL_LITERAL }
    ensures java { JAVA.first_zero ≡ Octal JAVA_OCTAL_LITERAL }
    ensures csharp { CSHARP.first_zero ≡ Plain }
    ensures javascript { JAVASCRIPT.first_zero ≡ Alone }
    ensures kotlin { KOTLIN.first_zero ≡ Alone }
    ensures swift { SWIFT.first_zero ≡ Plain }
    ensures ruby { RUBY.first_zero ≡ Octal RUBY_OCTAL_LITERAL }
    ensures perl { PERL.first_zero ≡ Octal PERL_OCTAL_LITERAL }
    ensures php { PHP.first_zero ≡ Octal PHP_OCTAL_LITERAL }
    ensures julia { JULIA.first_zero ≡ Plain }
    ensures ocaml { OCAML.first_zero ≡ Plain }
    ensures fsharp { FSHARP.first_zero ≡ Plain }
    ensures haskell { HASKELL.first_zero ≡ Plain }
    ensures zig { ZIG.first_zero ≡ Alone }
    ensures elixir { ELIXIR.first_zero ≡ Plain }
    ensures toml { TOML.first_zero ≡ Alone }
    ensures json_number { JSON_NUMBER.first_zero ≡ Alone }
    ensures digits { DIGITS.first_zero ≡ Plain }
    ensures hex_digits { HEX_DIGITS.first_zero ≡ Plain }
    ensures c { C.first_zero ≡ Octal OCTAL }
    ensures scala { SCALA.first_zero ≡ Alone }
    ensures erlang { ERLANG.first_zero ≡ Plain }
    ensures d { D.first_zero ≡ Octal RUST_OCTAL_LITERAL }
{}

/// What is read where a `0` begins a literal without a prefix. `value` and `end` are those of its
/// digits, by the decimal word or the octal one. With `Plain` and `Octal` it is never refused for
/// that `0`, so `01` is 1. With `Alone` and `Zeros` it is refused: with `Alone` if more than the
/// `0` is read, with `Zeros` if its value isn't 0. So `01` is refused, and `00` with `Alone`.
pub fn a_first_zero_says()
    ensures plain { (l : Language) (text : List ℕ) (start most at : ℕ) →
        l.first_zero ≡ Plain → literal_at l text start most ≡ Err (Zero at) → ⊥ }
    ensures octal { (l : Language) (text : List ℕ) (start most word at : ℕ) →
        l.first_zero ≡ Octal word → literal_at l text start most ≡ Err (Zero at) → ⊥ }
    ensures octal_is { (l : Language) (text : List ℕ) (start most word value end : ℕ) →
        l.first_zero ≡ Octal word → has_byte text start 48 ≡ true →
        is_some (prefix_word l text start) ≡ false →
        integer_at (rule_of word Integer) text start most ≡ Ok (value, end) →
        literal_at l text start most
        ≡ Ok (record { value = value; word = word; digits = start; end = end }) }
    ensures alone { (l : Language) (text : List ℕ) (start most value end : ℕ) →
        l.first_zero ≡ Alone → has_byte text start 48 ≡ true →
        is_some (prefix_word l text start) ≡ false →
        integer_at (rule_of l.decimal Integer) text start most ≡ Ok (value, end) →
        start + 1 < end → literal_at l text start most ≡ Err (Zero start) }
    ensures zeros { (l : Language) (text : List ℕ) (start most value end : ℕ) →
        l.first_zero ≡ Zeros → has_byte text start 48 ≡ true →
        is_some (prefix_word l text start) ≡ false →
        integer_at (rule_of l.decimal Integer) text start most ≡ Ok (value, end) →
        0 < value → literal_at l text start most ≡ Err (Zero start) }
{}

/// What `01` is, by language, as a `u8`: 1 by its decimal word or by an octal one, or refused
/// because of its first `0`.
#[tactic(auto, unfolding(crate::proofs::FirstZeros::on_texts))]
pub fn zero_one_is()
    ensures rust { zero_one RUST ≡ one_by RUST.decimal }
    ensures cxx14 { zero_one CXX14 ≡ one_by CXX14_OCTAL_LITERAL }
    ensures python { zero_one PYTHON ≡ Err (Zero 0) }
    ensures go { zero_one GO ≡ one_by GO_OCTAL_LITERAL }
    ensures java { zero_one JAVA ≡ one_by JAVA_OCTAL_LITERAL }
    ensures csharp { zero_one CSHARP ≡ one_by CSHARP.decimal }
    ensures javascript { zero_one JAVASCRIPT ≡ Err (Zero 0) }
    ensures kotlin { zero_one KOTLIN ≡ Err (Zero 0) }
    ensures swift { zero_one SWIFT ≡ one_by SWIFT.decimal }
    ensures ruby { zero_one RUBY ≡ one_by RUBY_OCTAL_LITERAL }
    ensures perl { zero_one PERL ≡ one_by PERL_OCTAL_LITERAL }
    ensures php { zero_one PHP ≡ one_by PHP_OCTAL_LITERAL }
    ensures julia { zero_one JULIA ≡ one_by JULIA.decimal }
    ensures ocaml { zero_one OCAML ≡ one_by OCAML.decimal }
    ensures fsharp { zero_one FSHARP ≡ one_by FSHARP.decimal }
    ensures haskell { zero_one HASKELL ≡ one_by HASKELL.decimal }
    ensures zig { zero_one ZIG ≡ Err (Zero 0) }
    ensures elixir { zero_one ELIXIR ≡ one_by ELIXIR.decimal }
    ensures toml { zero_one TOML ≡ Err (Zero 0) }
    ensures json_number { zero_one JSON_NUMBER ≡ Err (Zero 0) }
    ensures digits { zero_one DIGITS ≡ one_by DIGITS.decimal }
    ensures hex_digits { zero_one HEX_DIGITS ≡ one_by HEX_DIGITS.decimal }
    ensures c { zero_one C ≡ one_by OCTAL }
    ensures scala { zero_one SCALA ≡ Err (Zero 0) }
    ensures erlang { zero_one ERLANG ≡ one_by ERLANG.decimal }
    ensures d { zero_one D ≡ one_by RUST_OCTAL_LITERAL }
{}

//! The values of the constants, and `==` and clones of values. Each law is the contract of a
//! function.

ghost use Rattle.std.specs.Prelude.{◌≡◌, ◌+◌, ◌*◌, ◌^◌, true};
ghost use Rattle.lexical_format.specs.Builder.{word_of};
ghost use Rattle.lexical_format.specs.Words.{nowhere, between_digits, in_runs_between_digits, before_digits, in_runs_before_digits, after_digits, everywhere, IsWord, IsDecimal, IsInteger, AreIntegers};

use crate::words::*;
use crate::*;

/// Each flag is one bit of the word.
pub fn flags_are_bits()
    ensures integer_internal { INTEGER_INTERNAL_DIGIT_SEPARATOR ≡ 2 ^ 32 }
    ensures fraction_internal { FRACTION_INTERNAL_DIGIT_SEPARATOR ≡ 2 ^ 33 }
    ensures exponent_internal { EXPONENT_INTERNAL_DIGIT_SEPARATOR ≡ 2 ^ 34 }
    ensures integer_leading { INTEGER_LEADING_DIGIT_SEPARATOR ≡ 2 ^ 35 }
    ensures fraction_leading { FRACTION_LEADING_DIGIT_SEPARATOR ≡ 2 ^ 36 }
    ensures exponent_leading { EXPONENT_LEADING_DIGIT_SEPARATOR ≡ 2 ^ 37 }
    ensures integer_trailing { INTEGER_TRAILING_DIGIT_SEPARATOR ≡ 2 ^ 38 }
    ensures fraction_trailing { FRACTION_TRAILING_DIGIT_SEPARATOR ≡ 2 ^ 39 }
    ensures exponent_trailing { EXPONENT_TRAILING_DIGIT_SEPARATOR ≡ 2 ^ 40 }
    ensures integer_consecutive { INTEGER_CONSECUTIVE_DIGIT_SEPARATOR ≡ 2 ^ 41 }
    ensures fraction_consecutive { FRACTION_CONSECUTIVE_DIGIT_SEPARATOR ≡ 2 ^ 42 }
    ensures exponent_consecutive { EXPONENT_CONSECUTIVE_DIGIT_SEPARATOR ≡ 2 ^ 43 }
    ensures special { SPECIAL_DIGIT_SEPARATOR ≡ 2 ^ 44 }
{}

/// Each mask has the bits of its flags.
pub fn masks_are_flags()
    ensures integer { INTEGER_DIGIT_SEPARATOR_FLAG_MASK ≡ 2 ^ 32 + 2 ^ 35 + 2 ^ 38 + 2 ^ 41 }
    ensures fraction { FRACTION_DIGIT_SEPARATOR_FLAG_MASK ≡ 2 ^ 33 + 2 ^ 36 + 2 ^ 39 + 2 ^ 42 }
    ensures exponent { EXPONENT_DIGIT_SEPARATOR_FLAG_MASK ≡ 2 ^ 34 + 2 ^ 37 + 2 ^ 40 + 2 ^ 43 }
    ensures all { DIGIT_SEPARATOR_FLAG_MASK ≡ INTEGER_DIGIT_SEPARATOR_FLAG_MASK
        + FRACTION_DIGIT_SEPARATOR_FLAG_MASK + EXPONENT_DIGIT_SEPARATOR_FLAG_MASK
        + SPECIAL_DIGIT_SEPARATOR }
{}

/// What the standard word and the builder's constants are.
#[tactic(auto, unfolding(crate::specs::Builder::word_of))]
pub fn constants_are()
    ensures standard { STANDARD ≡ 10 * 2 ^ 104 }
    ensures decimal { word_of DECIMAL ≡ STANDARD }
    ensures no_flags { NO_FLAGS ≡ nowhere }
    ensures all_flags { ALL_FLAGS ≡ everywhere }
{}

/// The parts of the words with names: the radixes of mantissa and exponent, the separator, and
/// where integer, fraction and exponent drop it. Each is supported.
#[tactic(auto, unfolding(crate::proofs::OnLiterals::lexical_on_literals))]
pub fn words_say()
    ensures standard { IsWord STANDARD 10 10 0 nowhere nowhere nowhere }
    ensures hexadecimal { IsWord HEXADECIMAL 16 16 0 nowhere nowhere nowhere }
    ensures hexadecimal_float { IsWord HEXADECIMAL_FLOAT 16 10 0 nowhere nowhere nowhere }
    ensures octal { IsWord OCTAL 8 8 0 nowhere nowhere nowhere }
    ensures binary { IsWord BINARY 2 2 0 nowhere nowhere nowhere }
    ensures rust { IsWord RUST_LITERAL 10 10 95 after_digits after_digits everywhere }
    ensures rust_hex { IsWord RUST_HEX_LITERAL 16 16 95 everywhere nowhere nowhere }
    ensures rust_octal { IsWord RUST_OCTAL_LITERAL 8 8 95 everywhere nowhere nowhere }
    ensures rust_binary { IsWord RUST_BINARY_LITERAL 2 2 95 everywhere nowhere nowhere }
    ensures cxx14 { IsWord CXX14_LITERAL 10 10 39 between_digits between_digits between_digits }
    ensures cxx14_hex { IsWord CXX14_HEX_LITERAL 16 10 39
        between_digits between_digits between_digits }
    ensures python { IsWord PYTHON_LITERAL 10 10 95 between_digits between_digits between_digits }
    ensures toml { IsWord TOML 10 10 95 between_digits between_digits between_digits }
    ensures toml_is { TOML ≡ PYTHON_LITERAL }
    ensures java { IsWord JAVA_LITERAL 10 10 95
        in_runs_between_digits in_runs_between_digits in_runs_between_digits }
    ensures cxx14_octal { IsWord CXX14_OCTAL_LITERAL 8 8 39 between_digits nowhere nowhere }
    ensures cxx14_binary { IsWord CXX14_BINARY_LITERAL 2 2 39 between_digits nowhere nowhere }
    ensures python_integers { AreIntegers
        PYTHON_HEX_LITERAL PYTHON_OCTAL_LITERAL PYTHON_BINARY_LITERAL before_digits }
    ensures toml_integers { AreIntegers TOML_HEX TOML_OCTAL TOML_BINARY between_digits }
    ensures java_hex { IsWord JAVA_HEX_LITERAL 16 10 95
        in_runs_between_digits in_runs_between_digits in_runs_between_digits }
    ensures java_octal { IsInteger JAVA_OCTAL_LITERAL 8 in_runs_between_digits }
    ensures java_binary { IsInteger JAVA_BINARY_LITERAL 2 in_runs_between_digits }
    ensures csharp { IsDecimal CSHARP_LITERAL in_runs_between_digits }
    ensures csharp_hex { IsInteger CSHARP_HEX_LITERAL 16 in_runs_before_digits }
    ensures csharp_binary { IsInteger CSHARP_BINARY_LITERAL 2 in_runs_before_digits }
    ensures go { IsDecimal GO_LITERAL between_digits }
    ensures go_hex { IsWord GO_HEX_LITERAL 16 10 95 before_digits between_digits between_digits }
    ensures go_octal { IsInteger GO_OCTAL_LITERAL 8 before_digits }
    ensures go_binary { IsInteger GO_BINARY_LITERAL 2 before_digits }
    ensures javascript { IsDecimal JAVASCRIPT_LITERAL between_digits }
    ensures javascript_integers { AreIntegers
        JAVASCRIPT_HEX_LITERAL JAVASCRIPT_OCTAL_LITERAL JAVASCRIPT_BINARY_LITERAL between_digits }
    ensures kotlin { IsDecimal KOTLIN_LITERAL in_runs_between_digits }
    ensures kotlin_hex { IsInteger KOTLIN_HEX_LITERAL 16 in_runs_between_digits }
    ensures kotlin_binary { IsInteger KOTLIN_BINARY_LITERAL 2 in_runs_between_digits }
    ensures swift { IsDecimal SWIFT_LITERAL after_digits }
    ensures swift_hex { IsWord SWIFT_HEX_LITERAL 16 10 95 after_digits after_digits after_digits }
    ensures swift_octal { IsInteger SWIFT_OCTAL_LITERAL 8 after_digits }
    ensures swift_binary { IsInteger SWIFT_BINARY_LITERAL 2 after_digits }
    ensures octave { IsDecimal OCTAVE_LITERAL after_digits }
    ensures octave_hex { IsInteger OCTAVE_HEX_LITERAL 16 after_digits }
    ensures octave_binary { IsInteger OCTAVE_BINARY_LITERAL 2 after_digits }
    ensures ruby { IsDecimal RUBY_LITERAL between_digits }
    ensures ruby_integers { AreIntegers
        RUBY_HEX_LITERAL RUBY_OCTAL_LITERAL RUBY_BINARY_LITERAL between_digits }
    ensures perl { IsWord PERL_LITERAL 10 10 95 after_digits everywhere everywhere }
    ensures perl_hex { IsWord PERL_HEX_LITERAL 16 10 95 everywhere after_digits after_digits }
    ensures perl_octal { IsWord PERL_OCTAL_LITERAL 8 10 95 everywhere after_digits after_digits }
    ensures perl_binary { IsWord PERL_BINARY_LITERAL 2 10 95 everywhere after_digits after_digits }
    ensures php { IsDecimal PHP_LITERAL between_digits }
    ensures php_integers { AreIntegers
        PHP_HEX_LITERAL PHP_OCTAL_LITERAL PHP_BINARY_LITERAL between_digits }
    ensures julia { IsWord JULIA_LITERAL 10 10 95 between_digits between_digits nowhere }
    ensures julia_hex { IsWord JULIA_HEX_LITERAL 16 10 95 between_digits between_digits nowhere }
    ensures julia_octal { IsInteger JULIA_OCTAL_LITERAL 8 between_digits }
    ensures julia_binary { IsInteger JULIA_BINARY_LITERAL 2 between_digits }
    ensures d { IsWord D_LITERAL 10 10 95 after_digits after_digits everywhere }
    ensures d_hex { IsWord D_HEX_LITERAL 16 10 95 everywhere after_digits everywhere }
    ensures d_binary { IsInteger D_BINARY_LITERAL 2 everywhere }
    ensures ocaml { IsWord OCAML_LITERAL 10 10 95 after_digits everywhere after_digits }
    ensures ocaml_hex { IsWord OCAML_HEX_LITERAL 16 10 95 after_digits everywhere after_digits }
    ensures ocaml_octal { IsInteger OCAML_OCTAL_LITERAL 8 after_digits }
    ensures ocaml_binary { IsInteger OCAML_BINARY_LITERAL 2 after_digits }
    ensures fsharp { IsDecimal FSHARP_LITERAL in_runs_between_digits }
    ensures fsharp_integers { AreIntegers
        FSHARP_HEX_LITERAL FSHARP_OCTAL_LITERAL FSHARP_BINARY_LITERAL in_runs_between_digits }
    ensures haskell { IsDecimal HASKELL_LITERAL in_runs_between_digits }
    ensures haskell_hex { IsWord HASKELL_HEX_LITERAL 16 10 95
        in_runs_before_digits in_runs_between_digits in_runs_between_digits }
    ensures haskell_octal { IsInteger HASKELL_OCTAL_LITERAL 8 in_runs_before_digits }
    ensures haskell_binary { IsInteger HASKELL_BINARY_LITERAL 2 in_runs_before_digits }
    ensures scala { IsDecimal SCALA_LITERAL in_runs_between_digits }
    ensures scala_hex { IsInteger SCALA_HEX_LITERAL 16 in_runs_between_digits }
    ensures zig { IsDecimal ZIG_LITERAL between_digits }
    ensures zig_hex { IsWord ZIG_HEX_LITERAL 16 10 95 between_digits between_digits between_digits }
    ensures zig_octal { IsInteger ZIG_OCTAL_LITERAL 8 between_digits }
    ensures zig_binary { IsInteger ZIG_BINARY_LITERAL 2 between_digits }
    ensures ada { IsDecimal ADA_LITERAL between_digits }
    ensures ada_hex { IsWord ADA_HEX_LITERAL 16 10 95 between_digits between_digits between_digits }
    ensures ada_octal { IsWord
        ADA_OCTAL_LITERAL 8 10 95 between_digits between_digits between_digits }
    ensures ada_binary { IsWord
        ADA_BINARY_LITERAL 2 10 95 between_digits between_digits between_digits }
    ensures elixir { IsDecimal ELIXIR_LITERAL between_digits }
    ensures elixir_integers { AreIntegers
        ELIXIR_HEX_LITERAL ELIXIR_OCTAL_LITERAL ELIXIR_BINARY_LITERAL between_digits }
    ensures erlang { IsDecimal ERLANG_LITERAL between_digits }
    ensures erlang_integers { AreIntegers
        ERLANG_HEX_LITERAL ERLANG_OCTAL_LITERAL ERLANG_BINARY_LITERAL between_digits }
{}

/// Two formats are equal exactly if their words are.
pub fn same_format(a: NumberFormat, b: NumberFormat) -> bool
    ensures same { result ≡ true → a.word ≡ b.word }
    ensures equal { a.word ≡ b.word → result ≡ true }
{
    a == b
}

/// A clone is the same value.
pub fn clones_are_same(
    format: NumberFormat,
    flags: DigitSeparatorFlags,
    builder: NumberFormatBuilder,
) -> (NumberFormat, DigitSeparatorFlags, NumberFormatBuilder)
    ensures { result ≡ (format, flags, builder) }
{
    let format = format.clone().unwrap();
    (format, flags.clone().unwrap(), builder.clone().unwrap())
}

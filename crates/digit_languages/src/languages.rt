//! Languages by name, such as `RUST`, `PYTHON`, `C`, `GO` and `JAVA`.

ghost use Rattle.digit_languages.specs.Words.{IsLanguage};

use super::language::{FirstZero, Language};
use lexical_format::words::{
    CSHARP_BINARY_LITERAL, CSHARP_HEX_LITERAL, CSHARP_LITERAL, CXX14_BINARY_LITERAL,
    CXX14_HEX_LITERAL, CXX14_LITERAL, CXX14_OCTAL_LITERAL, D_BINARY_LITERAL, D_HEX_LITERAL,
    D_LITERAL, ELIXIR_BINARY_LITERAL, ELIXIR_HEX_LITERAL, ELIXIR_LITERAL, ELIXIR_OCTAL_LITERAL,
    ERLANG_LITERAL, FSHARP_BINARY_LITERAL, FSHARP_HEX_LITERAL, FSHARP_LITERAL,
    FSHARP_OCTAL_LITERAL, GO_BINARY_LITERAL, GO_HEX_LITERAL, GO_LITERAL, GO_OCTAL_LITERAL,
    HASKELL_BINARY_LITERAL, HASKELL_HEX_LITERAL, HASKELL_LITERAL, HASKELL_OCTAL_LITERAL,
    HEXADECIMAL_FLOAT, JAVA_BINARY_LITERAL, JAVA_HEX_LITERAL, JAVA_LITERAL, JAVA_OCTAL_LITERAL,
    JAVASCRIPT_BINARY_LITERAL, JAVASCRIPT_HEX_LITERAL, JAVASCRIPT_LITERAL,
    JAVASCRIPT_OCTAL_LITERAL, JULIA_BINARY_LITERAL, JULIA_HEX_LITERAL, JULIA_LITERAL,
    JULIA_OCTAL_LITERAL, KOTLIN_BINARY_LITERAL, KOTLIN_HEX_LITERAL, KOTLIN_LITERAL,
    OCAML_BINARY_LITERAL, OCAML_HEX_LITERAL, OCAML_LITERAL, OCAML_OCTAL_LITERAL, OCTAL,
    PERL_BINARY_LITERAL, PERL_HEX_LITERAL, PERL_LITERAL, PERL_OCTAL_LITERAL, PHP_BINARY_LITERAL,
    PHP_HEX_LITERAL, PHP_LITERAL, PHP_OCTAL_LITERAL, PYTHON_BINARY_LITERAL, PYTHON_HEX_LITERAL,
    PYTHON_LITERAL, PYTHON_OCTAL_LITERAL, RUBY_BINARY_LITERAL, RUBY_HEX_LITERAL, RUBY_LITERAL,
    RUBY_OCTAL_LITERAL, RUST_BINARY_LITERAL, RUST_HEX_LITERAL, RUST_LITERAL, RUST_OCTAL_LITERAL,
    SCALA_HEX_LITERAL, SCALA_LITERAL, SWIFT_BINARY_LITERAL, SWIFT_HEX_LITERAL, SWIFT_LITERAL,
    SWIFT_OCTAL_LITERAL, TOML_BINARY, TOML_HEX, TOML_OCTAL, ZIG_BINARY_LITERAL, ZIG_HEX_LITERAL,
    ZIG_LITERAL, ZIG_OCTAL_LITERAL,
};
use lexical_format::{STANDARD, words};

/// Rust: `0b`, `0o`, `0x`.
pub const RUST: Language = Language {
    decimal: RUST_LITERAL,
    binary: Some(RUST_BINARY_LITERAL),
    octal: Some(RUST_OCTAL_LITERAL),
    hexadecimal: Some(RUST_HEX_LITERAL),
    upper: false,
    first_zero: FirstZero::Plain,
};

/// C++14 and C23: `0b`, `0x`, in either case. `017` is octal: 15.
pub const CXX14: Language = Language {
    decimal: CXX14_LITERAL,
    binary: Some(CXX14_BINARY_LITERAL),
    octal: None,
    hexadecimal: Some(CXX14_HEX_LITERAL),
    upper: true,
    first_zero: FirstZero::Octal(CXX14_OCTAL_LITERAL),
};

/// Python: `0b`, `0o`, `0x`, in either case. `017` is refused, and `00` is 0.
pub const PYTHON: Language = Language {
    decimal: PYTHON_LITERAL,
    binary: Some(PYTHON_BINARY_LITERAL),
    octal: Some(PYTHON_OCTAL_LITERAL),
    hexadecimal: Some(PYTHON_HEX_LITERAL),
    upper: true,
    first_zero: FirstZero::Zeros,
};

/// Go: `0b`, `0o`, `0x`, in either case. `017` is octal: 15.
pub const GO: Language = Language {
    decimal: GO_LITERAL,
    binary: Some(GO_BINARY_LITERAL),
    octal: Some(GO_OCTAL_LITERAL),
    hexadecimal: Some(GO_HEX_LITERAL),
    upper: true,
    first_zero: FirstZero::Octal(GO_OCTAL_LITERAL),
};

/// Java: `0b`, `0x`, in either case. `017` is octal: 15.
pub const JAVA: Language = Language {
    decimal: JAVA_LITERAL,
    binary: Some(JAVA_BINARY_LITERAL),
    octal: None,
    hexadecimal: Some(JAVA_HEX_LITERAL),
    upper: true,
    first_zero: FirstZero::Octal(JAVA_OCTAL_LITERAL),
};

/// C#: `0b`, `0x`, in either case.
pub const CSHARP: Language = Language {
    decimal: CSHARP_LITERAL,
    binary: Some(CSHARP_BINARY_LITERAL),
    octal: None,
    hexadecimal: Some(CSHARP_HEX_LITERAL),
    upper: true,
    first_zero: FirstZero::Plain,
};

/// JavaScript, in strict mode and in modules: `0b`, `0o`, `0x`, in either case. `017` is refused.
pub const JAVASCRIPT: Language = Language {
    decimal: JAVASCRIPT_LITERAL,
    binary: Some(JAVASCRIPT_BINARY_LITERAL),
    octal: Some(JAVASCRIPT_OCTAL_LITERAL),
    hexadecimal: Some(JAVASCRIPT_HEX_LITERAL),
    upper: true,
    first_zero: FirstZero::Alone,
};

/// Kotlin: `0b`, `0x`, in either case. `017` is refused.
pub const KOTLIN: Language = Language {
    decimal: KOTLIN_LITERAL,
    binary: Some(KOTLIN_BINARY_LITERAL),
    octal: None,
    hexadecimal: Some(KOTLIN_HEX_LITERAL),
    upper: true,
    first_zero: FirstZero::Alone,
};

/// Swift: `0b`, `0o`, `0x`.
pub const SWIFT: Language = Language {
    decimal: SWIFT_LITERAL,
    binary: Some(SWIFT_BINARY_LITERAL),
    octal: Some(SWIFT_OCTAL_LITERAL),
    hexadecimal: Some(SWIFT_HEX_LITERAL),
    upper: false,
    first_zero: FirstZero::Plain,
};

/// Ruby: `0b`, `0o`, `0x`, in either case. `017` is octal: 15.
pub const RUBY: Language = Language {
    decimal: RUBY_LITERAL,
    binary: Some(RUBY_BINARY_LITERAL),
    octal: Some(RUBY_OCTAL_LITERAL),
    hexadecimal: Some(RUBY_HEX_LITERAL),
    upper: true,
    first_zero: FirstZero::Octal(RUBY_OCTAL_LITERAL),
};

/// Perl: `0b`, `0o`, `0x`, in either case. `017` is octal: 15.
pub const PERL: Language = Language {
    decimal: PERL_LITERAL,
    binary: Some(PERL_BINARY_LITERAL),
    octal: Some(PERL_OCTAL_LITERAL),
    hexadecimal: Some(PERL_HEX_LITERAL),
    upper: true,
    first_zero: FirstZero::Octal(PERL_OCTAL_LITERAL),
};

/// PHP: `0b`, `0o`, `0x`, in either case. `017` is octal: 15.
pub const PHP: Language = Language {
    decimal: PHP_LITERAL,
    binary: Some(PHP_BINARY_LITERAL),
    octal: Some(PHP_OCTAL_LITERAL),
    hexadecimal: Some(PHP_HEX_LITERAL),
    upper: true,
    first_zero: FirstZero::Octal(PHP_OCTAL_LITERAL),
};

/// Julia: `0b`, `0o`, `0x`.
pub const JULIA: Language = Language {
    decimal: JULIA_LITERAL,
    binary: Some(JULIA_BINARY_LITERAL),
    octal: Some(JULIA_OCTAL_LITERAL),
    hexadecimal: Some(JULIA_HEX_LITERAL),
    upper: false,
    first_zero: FirstZero::Plain,
};

/// OCaml: `0b`, `0o`, `0x`, in either case.
pub const OCAML: Language = Language {
    decimal: OCAML_LITERAL,
    binary: Some(OCAML_BINARY_LITERAL),
    octal: Some(OCAML_OCTAL_LITERAL),
    hexadecimal: Some(OCAML_HEX_LITERAL),
    upper: true,
    first_zero: FirstZero::Plain,
};

/// F#: `0b`, `0o`, `0x`, in either case.
pub const FSHARP: Language = Language {
    decimal: FSHARP_LITERAL,
    binary: Some(FSHARP_BINARY_LITERAL),
    octal: Some(FSHARP_OCTAL_LITERAL),
    hexadecimal: Some(FSHARP_HEX_LITERAL),
    upper: true,
    first_zero: FirstZero::Plain,
};

/// Haskell: `0b`, `0o`, `0x`, in either case.
pub const HASKELL: Language = Language {
    decimal: HASKELL_LITERAL,
    binary: Some(HASKELL_BINARY_LITERAL),
    octal: Some(HASKELL_OCTAL_LITERAL),
    hexadecimal: Some(HASKELL_HEX_LITERAL),
    upper: true,
    first_zero: FirstZero::Plain,
};

/// Zig: `0b`, `0o`, `0x`. `017` is refused.
pub const ZIG: Language = Language {
    decimal: ZIG_LITERAL,
    binary: Some(ZIG_BINARY_LITERAL),
    octal: Some(ZIG_OCTAL_LITERAL),
    hexadecimal: Some(ZIG_HEX_LITERAL),
    upper: false,
    first_zero: FirstZero::Alone,
};

/// Elixir: `0b`, `0o`, `0x`.
pub const ELIXIR: Language = Language {
    decimal: ELIXIR_LITERAL,
    binary: Some(ELIXIR_BINARY_LITERAL),
    octal: Some(ELIXIR_OCTAL_LITERAL),
    hexadecimal: Some(ELIXIR_HEX_LITERAL),
    upper: false,
    first_zero: FirstZero::Plain,
};

/// TOML: `0b`, `0o`, `0x`. `017` is refused.
pub const TOML: Language = Language {
    decimal: words::TOML,
    binary: Some(TOML_BINARY),
    octal: Some(TOML_OCTAL),
    hexadecimal: Some(TOML_HEX),
    upper: false,
    first_zero: FirstZero::Alone,
};

/// JSON's integers without a sign: no prefix. `017` is refused.
pub const JSON_NUMBER: Language = Language {
    decimal: STANDARD,
    binary: None,
    octal: None,
    hexadecimal: None,
    upper: false,
    first_zero: FirstZero::Alone,
};

/// Decimal digits without separators: no prefix.
pub const DIGITS: Language = Language {
    decimal: STANDARD,
    binary: None,
    octal: None,
    hexadecimal: None,
    upper: false,
    first_zero: FirstZero::Plain,
};

/// Digits without separators: `0x`, in either case.
pub const HEX_DIGITS: Language = Language {
    decimal: STANDARD,
    binary: None,
    octal: None,
    hexadecimal: Some(HEXADECIMAL_FLOAT),
    upper: true,
    first_zero: FirstZero::Plain,
};

/// C before C23, and C++ before C++14: `0x`, in either case. `017` is octal: 15.
pub const C: Language = Language {
    decimal: STANDARD,
    binary: None,
    octal: None,
    hexadecimal: Some(HEXADECIMAL_FLOAT),
    upper: true,
    first_zero: FirstZero::Octal(OCTAL),
};

/// Scala: `0x`, in either case. `017` is refused.
pub const SCALA: Language = Language {
    decimal: SCALA_LITERAL,
    binary: None,
    octal: None,
    hexadecimal: Some(SCALA_HEX_LITERAL),
    upper: true,
    first_zero: FirstZero::Alone,
};

/// Erlang: no prefix. A radix and `#`, as in `16#ff`, are the caller's.
pub const ERLANG: Language = Language {
    decimal: ERLANG_LITERAL,
    binary: None,
    octal: None,
    hexadecimal: None,
    upper: false,
    first_zero: FirstZero::Plain,
};

/// D: `0b`, `0x`, in either case. `017` is read as octal, 15; D's own compiler refuses such a
/// literal from `010` on.
pub const D: Language = Language {
    decimal: D_LITERAL,
    binary: Some(D_BINARY_LITERAL),
    octal: None,
    hexadecimal: Some(D_HEX_LITERAL),
    upper: true,
    first_zero: FirstZero::Octal(RUST_OCTAL_LITERAL),
};

/// Each language of this file has supported words.
#[tactic(auto, unfolding(lexical_format::proofs::OnLiterals::lexical_on_literals))]
pub fn languages_serve()
    ensures rust { IsLanguage RUST }
    ensures cxx14 { IsLanguage CXX14 }
    ensures python { IsLanguage PYTHON }
    ensures go { IsLanguage GO }
    ensures java { IsLanguage JAVA }
    ensures csharp { IsLanguage CSHARP }
    ensures javascript { IsLanguage JAVASCRIPT }
    ensures kotlin { IsLanguage KOTLIN }
    ensures swift { IsLanguage SWIFT }
    ensures ruby { IsLanguage RUBY }
    ensures perl { IsLanguage PERL }
    ensures php { IsLanguage PHP }
    ensures julia { IsLanguage JULIA }
    ensures ocaml { IsLanguage OCAML }
    ensures fsharp { IsLanguage FSHARP }
    ensures haskell { IsLanguage HASKELL }
    ensures zig { IsLanguage ZIG }
    ensures elixir { IsLanguage ELIXIR }
    ensures toml { IsLanguage TOML }
    ensures json_number { IsLanguage JSON_NUMBER }
    ensures digits { IsLanguage DIGITS }
    ensures hex_digits { IsLanguage HEX_DIGITS }
    ensures c { IsLanguage C }
    ensures scala { IsLanguage SCALA }
    ensures erlang { IsLanguage ERLANG }
    ensures d { IsLanguage D }
{}

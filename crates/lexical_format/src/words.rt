//! Words with names: `HEXADECIMAL`, `OCTAL`, `BINARY`, and those of languages, such as
//! `PYTHON_LITERAL`, `RUST_LITERAL`, `RUST_HEX_LITERAL` and `TOML_HEX`: which separators a language
//! allows in its number literals.
//!
//! A word says nothing of signs, prefixes, suffixes or leading zeros, nor how many digits a
//! component needs: the reader asks for those. [`words_say`](crate::laws::words_say) has the parts
//! of each word. RULES.md, "Words with names", lists the texts on which a language differs from
//! its word. lexical's own formats have names like these; the words are this crate's own.

use crate::*;

/// Integer, fraction and exponent drop a separator between two digits.
const INTERNAL: u128 = INTEGER_INTERNAL_DIGIT_SEPARATOR
    | FRACTION_INTERNAL_DIGIT_SEPARATOR
    | EXPONENT_INTERNAL_DIGIT_SEPARATOR;

/// Integer, fraction and exponent judge a run of separators as one separator.
const CONSECUTIVE: u128 = INTEGER_CONSECUTIVE_DIGIT_SEPARATOR
    | FRACTION_CONSECUTIVE_DIGIT_SEPARATOR
    | EXPONENT_CONSECUTIVE_DIGIT_SEPARATOR;

/// The separator `_`.
const UNDERSCORE: u128 = 0x5f << 64;

/// The separator `'`.
const APOSTROPHE: u128 = 0x27 << 64;

/// One `_` between two digits of the integer.
const BETWEEN_DIGITS: u128 = UNDERSCORE | INTEGER_INTERNAL_DIGIT_SEPARATOR;

/// One `_` before a digit of the integer.
const BEFORE_DIGITS: u128 = BETWEEN_DIGITS | INTEGER_LEADING_DIGIT_SEPARATOR;

/// Any number of `_` between two digits of the integer.
const IN_RUNS_BETWEEN_DIGITS: u128 = BETWEEN_DIGITS | INTEGER_CONSECUTIVE_DIGIT_SEPARATOR;

/// Any number of `_` before a digit of the integer.
const IN_RUNS_BEFORE_DIGITS: u128 = BEFORE_DIGITS | INTEGER_CONSECUTIVE_DIGIT_SEPARATOR;

/// Any number of `_` after a digit of the integer.
const AFTER_DIGITS: u128 = IN_RUNS_BETWEEN_DIGITS | INTEGER_TRAILING_DIGIT_SEPARATOR;

/// Any number of `_` anywhere in the integer.
const EVERYWHERE: u128 = UNDERSCORE | INTEGER_DIGIT_SEPARATOR_FLAG_MASK;

/// Any number of `_` after a digit of integer, fraction and exponent.
const ALL_AFTER_DIGITS: u128 = UNDERSCORE
    | INTERNAL
    | INTEGER_TRAILING_DIGIT_SEPARATOR
    | FRACTION_TRAILING_DIGIT_SEPARATOR
    | EXPONENT_TRAILING_DIGIT_SEPARATOR
    | CONSECUTIVE;

/// Radix 10 for the exponent.
const DECIMAL_EXPONENT: u128 = 10 << 120;

/// Any number of `_` anywhere in the integer, and after a digit of fraction and exponent, which has
/// radix 10.
const PERL_FLOAT: u128 = DECIMAL_EXPONENT | ALL_AFTER_DIGITS | INTEGER_LEADING_DIGIT_SEPARATOR;

/// Radix 16 for every component, no separator. For the digits of a float after `0x`, whose exponent
/// follows `p`, use [`HEXADECIMAL_FLOAT`].
pub const HEXADECIMAL: u128 = 16 << 104;

/// Radix 16, and 10 for the exponent, no separator: the exponent of C's `0x1p10` is ten.
pub const HEXADECIMAL_FLOAT: u128 = DECIMAL_EXPONENT | HEXADECIMAL;

/// Radix 8 for every component, no separator.
pub const OCTAL: u128 = 8 << 104;

/// Radix 2 for every component, no separator.
pub const BINARY: u128 = 2 << 104;

/// Rust's decimal literals. In integer and fraction any number of `_` may follow the first digit,
/// in the exponent anywhere: `1_000.5__0_e+_1_0`.
pub const RUST_LITERAL: u128 = STANDARD | ALL_AFTER_DIGITS | EXPONENT_LEADING_DIGIT_SEPARATOR;

/// The digits of Rust's literals after `0x`: any number of `_` anywhere, as in `_ff__00_`.
pub const RUST_HEX_LITERAL: u128 = HEXADECIMAL | EVERYWHERE;

/// The digits of Rust's literals after `0o`: any number of `_` anywhere.
pub const RUST_OCTAL_LITERAL: u128 = OCTAL | EVERYWHERE;

/// The digits of Rust's literals after `0b`: any number of `_` anywhere.
pub const RUST_BINARY_LITERAL: u128 = BINARY | EVERYWHERE;

/// Decimal literals of C++14 and C23: one `'` between two digits, as in `1'000.5'0e1'0`.
pub const CXX14_LITERAL: u128 = STANDARD | APOSTROPHE | INTERNAL;

/// The digits of C++'s and C23's literals after `0x`: one `'` between two digits. The exponent,
/// after `p`, has radix 10.
pub const CXX14_HEX_LITERAL: u128 = HEXADECIMAL_FLOAT | APOSTROPHE | INTERNAL;

/// The digits of C++'s and C23's octal integers, with their first `0`: one `'` between two
/// digits, as in `0'17`.
pub const CXX14_OCTAL_LITERAL: u128 = OCTAL | APOSTROPHE | INTEGER_INTERNAL_DIGIT_SEPARATOR;

/// The digits of C++'s and C23's literals after `0b`: one `'` between two digits.
pub const CXX14_BINARY_LITERAL: u128 = BINARY | APOSTROPHE | INTEGER_INTERNAL_DIGIT_SEPARATOR;

/// Python's decimal literals, since 3.6: one `_` between two digits, as in `1_000.5_0e1_0`.
pub const PYTHON_LITERAL: u128 = STANDARD | UNDERSCORE | INTERNAL;

/// The digits of Python's literals after `0x`: one `_` before a digit, as in `_ff_00`.
pub const PYTHON_HEX_LITERAL: u128 = HEXADECIMAL | BEFORE_DIGITS;

/// The digits of Python's literals after `0o`: one `_` before a digit.
pub const PYTHON_OCTAL_LITERAL: u128 = OCTAL | BEFORE_DIGITS;

/// The digits of Python's literals after `0b`: one `_` before a digit.
pub const PYTHON_BINARY_LITERAL: u128 = BINARY | BEFORE_DIGITS;

/// TOML's decimal integers and floats: one `_` between two digits. This is [`PYTHON_LITERAL`].
pub const TOML: u128 = PYTHON_LITERAL;

/// The digits of TOML's integers after `0x`: one `_` between two digits.
pub const TOML_HEX: u128 = HEXADECIMAL | BETWEEN_DIGITS;

/// The digits of TOML's integers after `0o`: one `_` between two digits.
pub const TOML_OCTAL: u128 = OCTAL | BETWEEN_DIGITS;

/// The digits of TOML's integers after `0b`: one `_` between two digits.
pub const TOML_BINARY: u128 = BINARY | BETWEEN_DIGITS;

/// Java's decimal literals: any number of `_` between two digits, as in `1__000.5_0e1_0`.
pub const JAVA_LITERAL: u128 = STANDARD | UNDERSCORE | INTERNAL | CONSECUTIVE;

/// The digits of Java's literals after `0x`: any number of `_` between two digits. The exponent,
/// after `p`, has radix 10.
pub const JAVA_HEX_LITERAL: u128 = HEXADECIMAL_FLOAT | UNDERSCORE | INTERNAL | CONSECUTIVE;

/// The digits of Java's octal integers, with their first `0`: any number of `_` between two
/// digits, as in `0_17`.
pub const JAVA_OCTAL_LITERAL: u128 = OCTAL | IN_RUNS_BETWEEN_DIGITS;

/// The digits of Java's literals after `0b`: any number of `_` between two digits.
pub const JAVA_BINARY_LITERAL: u128 = BINARY | IN_RUNS_BETWEEN_DIGITS;

/// C#'s decimal literals, since 7.0: any number of `_` between two digits.
pub const CSHARP_LITERAL: u128 = JAVA_LITERAL;

/// The digits of C#'s literals after `0x`: any number of `_` before a digit, since 7.2.
pub const CSHARP_HEX_LITERAL: u128 = HEXADECIMAL | IN_RUNS_BEFORE_DIGITS;

/// The digits of C#'s literals after `0b`: any number of `_` before a digit, since 7.2.
pub const CSHARP_BINARY_LITERAL: u128 = BINARY | IN_RUNS_BEFORE_DIGITS;

/// Go's decimal literals, since 1.13: one `_` between two digits.
pub const GO_LITERAL: u128 = PYTHON_LITERAL;

/// The digits of Go's literals after `0x`: one `_` before a digit. In fraction and exponent only
/// between two digits; the exponent, after `p`, has radix 10.
pub const GO_HEX_LITERAL: u128 = HEXADECIMAL_FLOAT | UNDERSCORE | INTERNAL | BEFORE_DIGITS;

/// The digits of Go's literals after `0o`, or after an octal integer's first `0`: one `_` before a
/// digit.
pub const GO_OCTAL_LITERAL: u128 = OCTAL | BEFORE_DIGITS;

/// The digits of Go's literals after `0b`: one `_` before a digit.
pub const GO_BINARY_LITERAL: u128 = BINARY | BEFORE_DIGITS;

/// JavaScript's decimal literals, since 2021: one `_` between two digits. An integer with the first
/// digit 0 has none.
pub const JAVASCRIPT_LITERAL: u128 = PYTHON_LITERAL;

/// The digits of JavaScript's literals after `0x`: one `_` between two digits.
pub const JAVASCRIPT_HEX_LITERAL: u128 = HEXADECIMAL | BETWEEN_DIGITS;

/// The digits of JavaScript's literals after `0o`: one `_` between two digits.
pub const JAVASCRIPT_OCTAL_LITERAL: u128 = OCTAL | BETWEEN_DIGITS;

/// The digits of JavaScript's literals after `0b`: one `_` between two digits.
pub const JAVASCRIPT_BINARY_LITERAL: u128 = BINARY | BETWEEN_DIGITS;

/// Kotlin's decimal literals: any number of `_` between two digits.
pub const KOTLIN_LITERAL: u128 = JAVA_LITERAL;

/// The digits of Kotlin's literals after `0x`: any number of `_` between two digits.
pub const KOTLIN_HEX_LITERAL: u128 = HEXADECIMAL | IN_RUNS_BETWEEN_DIGITS;

/// The digits of Kotlin's literals after `0b`: any number of `_` between two digits.
pub const KOTLIN_BINARY_LITERAL: u128 = BINARY | IN_RUNS_BETWEEN_DIGITS;

/// Swift's decimal literals: any number of `_` after a digit, as in `1_000_.5__`.
pub const SWIFT_LITERAL: u128 = STANDARD | ALL_AFTER_DIGITS;

/// The digits of Swift's literals after `0x`: any number of `_` after a digit. The exponent, after
/// `p`, has radix 10.
pub const SWIFT_HEX_LITERAL: u128 = HEXADECIMAL_FLOAT | ALL_AFTER_DIGITS;

/// The digits of Swift's literals after `0o`: any number of `_` after a digit.
pub const SWIFT_OCTAL_LITERAL: u128 = OCTAL | AFTER_DIGITS;

/// The digits of Swift's literals after `0b`: any number of `_` after a digit.
pub const SWIFT_BINARY_LITERAL: u128 = BINARY | AFTER_DIGITS;

/// Octave's decimal literals: any number of `_` after a digit. This is [`SWIFT_LITERAL`].
pub const OCTAVE_LITERAL: u128 = SWIFT_LITERAL;

/// The digits of Octave's literals after `0x`: any number of `_` after a digit.
pub const OCTAVE_HEX_LITERAL: u128 = HEXADECIMAL | AFTER_DIGITS;

/// The digits of Octave's literals after `0b`: any number of `_` after a digit.
pub const OCTAVE_BINARY_LITERAL: u128 = BINARY | AFTER_DIGITS;

/// Ruby's decimal literals: one `_` between two digits.
pub const RUBY_LITERAL: u128 = PYTHON_LITERAL;

/// The digits of Ruby's literals after `0x`: one `_` between two digits.
pub const RUBY_HEX_LITERAL: u128 = HEXADECIMAL | BETWEEN_DIGITS;

/// The digits of Ruby's literals after `0o`, or with an octal integer's first `0`: one `_` between
/// two digits.
pub const RUBY_OCTAL_LITERAL: u128 = OCTAL | BETWEEN_DIGITS;

/// The digits of Ruby's literals after `0b`: one `_` between two digits.
pub const RUBY_BINARY_LITERAL: u128 = BINARY | BETWEEN_DIGITS;

/// Perl's decimal literals, as Perl reads them. In the integer any number of `_` may follow the
/// first digit, in fraction and exponent they may be anywhere. Perl can warn unless it is one
/// between two digits.
pub const PERL_LITERAL: u128 = RUST_LITERAL | FRACTION_LEADING_DIGIT_SEPARATOR;

/// The digits of Perl's literals after `0x`: any number of `_` anywhere. In fraction and exponent
/// only after a digit; the exponent, after `p`, has radix 10.
pub const PERL_HEX_LITERAL: u128 = HEXADECIMAL | PERL_FLOAT;

/// The digits of Perl's literals after `0o`, or after an octal integer's first `0`, with `_` as in
/// [`PERL_HEX_LITERAL`].
pub const PERL_OCTAL_LITERAL: u128 = OCTAL | PERL_FLOAT;

/// The digits of Perl's literals after `0b`, with `_` as in [`PERL_HEX_LITERAL`].
pub const PERL_BINARY_LITERAL: u128 = BINARY | PERL_FLOAT;

/// PHP's decimal literals, since 7.4: one `_` between two digits.
pub const PHP_LITERAL: u128 = PYTHON_LITERAL;

/// The digits of PHP's literals after `0x`: one `_` between two digits.
pub const PHP_HEX_LITERAL: u128 = HEXADECIMAL | BETWEEN_DIGITS;

/// The digits of PHP's literals after `0o`, or with an octal integer's first `0`: one `_` between
/// two digits.
pub const PHP_OCTAL_LITERAL: u128 = OCTAL | BETWEEN_DIGITS;

/// The digits of PHP's literals after `0b`: one `_` between two digits.
pub const PHP_BINARY_LITERAL: u128 = BINARY | BETWEEN_DIGITS;

/// Julia's decimal literals: one `_` between two digits of integer and fraction, none in the
/// exponent.
pub const JULIA_LITERAL: u128 = STANDARD | BETWEEN_DIGITS | FRACTION_INTERNAL_DIGIT_SEPARATOR;

/// The digits of Julia's literals after `0x`: one `_` between two digits of integer and fraction.
/// The exponent, after `p`, has radix 10 and no `_`.
pub const JULIA_HEX_LITERAL: u128 = HEXADECIMAL_FLOAT
    | BETWEEN_DIGITS
    | FRACTION_INTERNAL_DIGIT_SEPARATOR;

/// The digits of Julia's literals after `0o`: one `_` between two digits.
pub const JULIA_OCTAL_LITERAL: u128 = OCTAL | BETWEEN_DIGITS;

/// The digits of Julia's literals after `0b`: one `_` between two digits.
pub const JULIA_BINARY_LITERAL: u128 = BINARY | BETWEEN_DIGITS;

/// D's decimal literals. In integer and fraction any number of `_` may follow the first digit, in
/// the exponent anywhere. This is [`RUST_LITERAL`].
pub const D_LITERAL: u128 = RUST_LITERAL;

/// The digits of D's literals after `0x`: any number of `_` anywhere, in the fraction after a
/// digit. The exponent, after `p`, has radix 10.
pub const D_HEX_LITERAL: u128 = HEXADECIMAL_FLOAT
    | ALL_AFTER_DIGITS
    | INTEGER_LEADING_DIGIT_SEPARATOR
    | EXPONENT_LEADING_DIGIT_SEPARATOR;

/// The digits of D's literals after `0b`: any number of `_` anywhere.
pub const D_BINARY_LITERAL: u128 = BINARY | EVERYWHERE;

/// OCaml's decimal literals. In integer and exponent any number of `_` may follow the first digit,
/// in the fraction anywhere: `1_0.__5_e1_`.
pub const OCAML_LITERAL: u128 = STANDARD | ALL_AFTER_DIGITS | FRACTION_LEADING_DIGIT_SEPARATOR;

/// The digits of OCaml's literals after `0x`, with `_` as in [`OCAML_LITERAL`]. The exponent, after
/// `p`, has radix 10.
pub const OCAML_HEX_LITERAL: u128 = HEXADECIMAL_FLOAT
    | ALL_AFTER_DIGITS
    | FRACTION_LEADING_DIGIT_SEPARATOR;

/// The digits of OCaml's literals after `0o`: any number of `_` after a digit.
pub const OCAML_OCTAL_LITERAL: u128 = OCTAL | AFTER_DIGITS;

/// The digits of OCaml's literals after `0b`: any number of `_` after a digit.
pub const OCAML_BINARY_LITERAL: u128 = BINARY | AFTER_DIGITS;

/// F#'s decimal literals, since 4.1: any number of `_` between two digits.
pub const FSHARP_LITERAL: u128 = JAVA_LITERAL;

/// The digits of F#'s literals after `0x`: any number of `_` between two digits.
pub const FSHARP_HEX_LITERAL: u128 = HEXADECIMAL | IN_RUNS_BETWEEN_DIGITS;

/// The digits of F#'s literals after `0o`: any number of `_` between two digits.
pub const FSHARP_OCTAL_LITERAL: u128 = OCTAL | IN_RUNS_BETWEEN_DIGITS;

/// The digits of F#'s literals after `0b`: any number of `_` between two digits.
pub const FSHARP_BINARY_LITERAL: u128 = BINARY | IN_RUNS_BETWEEN_DIGITS;

/// Haskell's decimal literals, with `NumericUnderscores`: any number of `_` between two digits.
/// Haskell reads them before the exponent's `e` too.
pub const HASKELL_LITERAL: u128 = JAVA_LITERAL;

/// The digits of Haskell's literals after `0x`: any number of `_` before a digit. In fraction and
/// exponent only between two digits; the exponent, after `p`, has radix 10.
pub const HASKELL_HEX_LITERAL: u128 = HEXADECIMAL_FLOAT
    | UNDERSCORE
    | INTERNAL
    | CONSECUTIVE
    | INTEGER_LEADING_DIGIT_SEPARATOR;

/// The digits of Haskell's literals after `0o`: any number of `_` before a digit.
pub const HASKELL_OCTAL_LITERAL: u128 = OCTAL | IN_RUNS_BEFORE_DIGITS;

/// The digits of Haskell's literals after `0b`: any number of `_` before a digit.
pub const HASKELL_BINARY_LITERAL: u128 = BINARY | IN_RUNS_BEFORE_DIGITS;

/// Scala's decimal literals, since 2.13: any number of `_` between two digits.
pub const SCALA_LITERAL: u128 = JAVA_LITERAL;

/// The digits of Scala's literals after `0x`: any number of `_` between two digits.
pub const SCALA_HEX_LITERAL: u128 = HEXADECIMAL | IN_RUNS_BETWEEN_DIGITS;

/// Zig's decimal literals: one `_` between two digits. An integer with the first digit 0 has no
/// other digit.
pub const ZIG_LITERAL: u128 = PYTHON_LITERAL;

/// The digits of Zig's literals after `0x`: one `_` between two digits. The exponent, after `p`,
/// has radix 10.
pub const ZIG_HEX_LITERAL: u128 = HEXADECIMAL_FLOAT | UNDERSCORE | INTERNAL;

/// The digits of Zig's literals after `0o`: one `_` between two digits.
pub const ZIG_OCTAL_LITERAL: u128 = OCTAL | BETWEEN_DIGITS;

/// The digits of Zig's literals after `0b`: one `_` between two digits.
pub const ZIG_BINARY_LITERAL: u128 = BINARY | BETWEEN_DIGITS;

/// Ada's decimal literals: one `_` between two digits.
pub const ADA_LITERAL: u128 = PYTHON_LITERAL;

/// The digits of Ada's literals after `16#`: one `_` between two digits. The exponent, after the
/// second `#`, has radix 10.
pub const ADA_HEX_LITERAL: u128 = HEXADECIMAL_FLOAT | UNDERSCORE | INTERNAL;

/// The digits of Ada's literals after `8#`: one `_` between two digits. The exponent, after the
/// second `#`, has radix 10.
pub const ADA_OCTAL_LITERAL: u128 = DECIMAL_EXPONENT | OCTAL | UNDERSCORE | INTERNAL;

/// The digits of Ada's literals after `2#`: one `_` between two digits. The exponent, after the
/// second `#`, has radix 10.
pub const ADA_BINARY_LITERAL: u128 = DECIMAL_EXPONENT | BINARY | UNDERSCORE | INTERNAL;

/// Elixir's decimal literals: one `_` between two digits.
pub const ELIXIR_LITERAL: u128 = PYTHON_LITERAL;

/// The digits of Elixir's literals after `0x`: one `_` between two digits.
pub const ELIXIR_HEX_LITERAL: u128 = HEXADECIMAL | BETWEEN_DIGITS;

/// The digits of Elixir's literals after `0o`: one `_` between two digits.
pub const ELIXIR_OCTAL_LITERAL: u128 = OCTAL | BETWEEN_DIGITS;

/// The digits of Elixir's literals after `0b`: one `_` between two digits.
pub const ELIXIR_BINARY_LITERAL: u128 = BINARY | BETWEEN_DIGITS;

/// Erlang's decimal literals, since OTP 23: one `_` between two digits.
pub const ERLANG_LITERAL: u128 = PYTHON_LITERAL;

/// The digits of Erlang's literals after `16#`: one `_` between two digits.
pub const ERLANG_HEX_LITERAL: u128 = HEXADECIMAL | BETWEEN_DIGITS;

/// The digits of Erlang's literals after `8#`: one `_` between two digits.
pub const ERLANG_OCTAL_LITERAL: u128 = OCTAL | BETWEEN_DIGITS;

/// The digits of Erlang's literals after `2#`: one `_` between two digits.
pub const ERLANG_BINARY_LITERAL: u128 = BINARY | BETWEEN_DIGITS;

//! The words of languages: which texts are one integer, as each language itself says. Prefixes
//! are taken off. The values are worked out by hand.

use super::bytes_of;
use digit_literals::{parse_number, read_digits_of};
use lexical_digits::iterator::IterBodies;
use lexical_digits::skip::Bytes;
use lexical_digits::skip::Component::{self, Exponent, Fraction};
use lexical_format::words::*;
use lexical_format::{STANDARD, is_supported};
use std::process::Abort;

/// A word, a text with its value, and a text that is no integer of the language.
type Row = (u128, &'static str, u64, &'static str);

/// Words of radix 10.
static DECIMAL_ROWS: [Row; 27] = [
    (STANDARD, "10", 10, "1_0"),
    (RUST_LITERAL, "1_000__", 1000, "_1"),
    (CXX14_LITERAL, "1'000", 1000, "1''0"),
    (PYTHON_LITERAL, "1_0", 10, "_1"),
    (TOML, "1_0", 10, "1_"),
    (JAVA_LITERAL, "1__0", 10, "1_"),
    (CSHARP_LITERAL, "1__0", 10, "1_"),
    (CSHARP_LITERAL, "1__0", 10, "_1"),
    (GO_LITERAL, "1_0", 10, "1__0"),
    (JAVASCRIPT_LITERAL, "1_0", 10, "1__0"),
    (KOTLIN_LITERAL, "1__0", 10, "1_"),
    (SWIFT_LITERAL, "1__0_", 10, "_1"),
    (OCTAVE_LITERAL, "1__0_", 10, "_1"),
    (RUBY_LITERAL, "1_00", 100, "1_"),
    (PERL_LITERAL, "1__0_", 10, "_1"),
    (PHP_LITERAL, "10_0", 100, "1__0"),
    (JULIA_LITERAL, "1_0", 10, "1__0"),
    (D_LITERAL, "1__0_", 10, "_1"),
    (OCAML_LITERAL, "1__0_", 10, "_1"),
    (FSHARP_LITERAL, "1__0", 10, "1__"),
    (HASKELL_LITERAL, "1__0", 10, "1_"),
    (SCALA_LITERAL, "1__0", 10, "1_"),
    (SCALA_LITERAL, "1__0", 10, "_1"),
    (ZIG_LITERAL, "1_0", 10, "1_"),
    (ADA_LITERAL, "1_0", 10, "1__0"),
    (ELIXIR_LITERAL, "1_0", 10, "_1"),
    (ERLANG_LITERAL, "1_0", 10, "1__0"),
];

/// Words of radix 16.
static HEXADECIMAL_ROWS: [Row; 26] = [
    (HEXADECIMAL, "fF", 255, "f_f"),
    (HEXADECIMAL_FLOAT, "1f", 31, "f_f"),
    (RUST_HEX_LITERAL, "_ff__00_", 65280, "_g"),
    (CXX14_HEX_LITERAL, "f'F", 255, "'f"),
    (PYTHON_HEX_LITERAL, "_f_f", 255, "f__f"),
    (TOML_HEX, "f_f", 255, "_f"),
    (JAVA_HEX_LITERAL, "f__f", 255, "_f"),
    (CSHARP_HEX_LITERAL, "__f_f", 255, "f_"),
    (GO_HEX_LITERAL, "_f", 15, "__f"),
    (JAVASCRIPT_HEX_LITERAL, "f_f", 255, "_f"),
    (KOTLIN_HEX_LITERAL, "f__f", 255, "_f"),
    (SWIFT_HEX_LITERAL, "f__f_", 255, "_f"),
    (OCTAVE_HEX_LITERAL, "f__F_", 255, "_f"),
    (RUBY_HEX_LITERAL, "f_f", 255, "_f"),
    (PERL_HEX_LITERAL, "__f_", 15, "_g"),
    (PHP_HEX_LITERAL, "f_f", 255, "_f"),
    (JULIA_HEX_LITERAL, "f_f", 255, "_f"),
    (D_HEX_LITERAL, "_f__", 15, "__"),
    (OCAML_HEX_LITERAL, "f_", 15, "_f"),
    (FSHARP_HEX_LITERAL, "f__f", 255, "_f"),
    (HASKELL_HEX_LITERAL, "__f", 15, "f_"),
    (SCALA_HEX_LITERAL, "f__F", 255, "_f"),
    (ZIG_HEX_LITERAL, "f_f", 255, "_f"),
    (ADA_HEX_LITERAL, "F_f", 255, "_f"),
    (ELIXIR_HEX_LITERAL, "f_f", 255, "_f"),
    (ERLANG_HEX_LITERAL, "f_F", 255, "_f"),
];

/// Words of radix 8.
static OCTAL_ROWS: [Row; 20] = [
    (OCTAL, "17", 15, "8"),
    (RUST_OCTAL_LITERAL, "_7_", 7, "_7_8"),
    (CXX14_OCTAL_LITERAL, "0'17", 15, "0''7"),
    (PYTHON_OCTAL_LITERAL, "_1_7", 15, "__7"),
    (TOML_OCTAL, "1_7", 15, "_7"),
    (JAVA_OCTAL_LITERAL, "0__17", 15, "_7"),
    (GO_OCTAL_LITERAL, "_1_7", 15, "_"),
    (JAVASCRIPT_OCTAL_LITERAL, "1_7", 15, "_7"),
    (SWIFT_OCTAL_LITERAL, "1_7__", 15, "_7"),
    (RUBY_OCTAL_LITERAL, "0_17", 15, "_7"),
    (PERL_OCTAL_LITERAL, "_1_7_", 15, "_8"),
    (PHP_OCTAL_LITERAL, "0_17", 15, "_7"),
    (JULIA_OCTAL_LITERAL, "1_7", 15, "_7"),
    (OCAML_OCTAL_LITERAL, "1__7_", 15, "_7"),
    (FSHARP_OCTAL_LITERAL, "1_7", 15, "_7"),
    (HASKELL_OCTAL_LITERAL, "__1_7", 15, "7_"),
    (ZIG_OCTAL_LITERAL, "1_7", 15, "_7"),
    (ADA_OCTAL_LITERAL, "1_7", 15, "_7"),
    (ELIXIR_OCTAL_LITERAL, "1_7", 15, "_7"),
    (ERLANG_OCTAL_LITERAL, "1_7", 15, "_7"),
];

/// Words of radix 2.
static BINARY_ROWS: [Row; 24] = [
    (BINARY, "101", 5, "1_0"),
    (RUST_BINARY_LITERAL, "__1_0", 2, "1_2"),
    (CXX14_BINARY_LITERAL, "1'01", 5, "'1"),
    (PYTHON_BINARY_LITERAL, "_1_01", 5, "_1_"),
    (TOML_BINARY, "1_01", 5, "1_"),
    (JAVA_BINARY_LITERAL, "1__01", 5, "_1"),
    (CSHARP_BINARY_LITERAL, "__1_01", 5, "_1_"),
    (GO_BINARY_LITERAL, "_1_01", 5, "1_"),
    (JAVASCRIPT_BINARY_LITERAL, "1_01", 5, "1_"),
    (KOTLIN_BINARY_LITERAL, "1___1", 3, "_1"),
    (SWIFT_BINARY_LITERAL, "1__01_", 5, "_"),
    (OCTAVE_BINARY_LITERAL, "1_0_1__", 5, "_1"),
    (RUBY_BINARY_LITERAL, "1_01", 5, "1__0"),
    (PERL_BINARY_LITERAL, "1__1", 3, "1_2"),
    (PHP_BINARY_LITERAL, "1_0_1", 5, "1_"),
    (JULIA_BINARY_LITERAL, "1_01", 5, "1_"),
    (D_BINARY_LITERAL, "__1_1", 3, "1_2"),
    (OCAML_BINARY_LITERAL, "1__1", 3, "_1"),
    (FSHARP_BINARY_LITERAL, "1__1", 3, "_1"),
    (HASKELL_BINARY_LITERAL, "_1__1", 3, "1_"),
    (ZIG_BINARY_LITERAL, "1_01", 5, "1__0"),
    (ADA_BINARY_LITERAL, "1_01", 5, "1_"),
    (ELIXIR_BINARY_LITERAL, "1_01", 5, "1__0"),
    (ERLANG_BINARY_LITERAL, "1_01", 5, "1_"),
];

/// A text is read so, by this row of a table.
fn assert_read(rt: &impl Abort, row: (&str, usize), word: u128, text: &str, wanted: Option<u64>) {
    assert!(rt; is_supported(word));
    let read = parse_number::<u64>(text.as_bytes(), word);
    let (table, at) = row;
    assert!(rt;
        read.ok() == wanted,
        "{text} by row {at}, {table}, is {read:?}, not {wanted:?}"
    );
}

/// The first text of each row is its number, and the second none.
fn assert_words(rt: &impl Abort, table: &str, rows: &[Row]) {
    for (at, (word, text, value, refused)) in rows.iter().enumerate() {
        assert_read(rt, (table, at), *word, text, Some(*value));
        assert_read(rt, (table, at), *word, refused, None);
    }
}

#[test]
fn a_language_reads_its_integers_and_no_others(rt: HostRuntime) {
    assert_words(&rt, "decimal", &DECIMAL_ROWS);
    assert_words(&rt, "hexadecimal", &HEXADECIMAL_ROWS);
}

#[test]
fn a_language_reads_its_octal_and_binary_integers(rt: HostRuntime) {
    assert_words(&rt, "octal", &OCTAL_ROWS);
    assert_words(&rt, "binary", &BINARY_ROWS);
}

/// Fractions and exponents where a language has another rule or radix than for its integers: a
/// word, a component, and a text with its value if it is digits of that component.
static OTHER_COMPONENTS: [(u128, Component, &'static str, Option<u64>); 38] = [
    (HEXADECIMAL, Exponent, "10", Some(16)),
    (HEXADECIMAL_FLOAT, Exponent, "10", Some(10)),
    (HEXADECIMAL_FLOAT, Fraction, "8", Some(8)),
    (HEXADECIMAL_FLOAT, Exponent, "1_0", None),
    (CXX14_HEX_LITERAL, Exponent, "1'0", Some(10)),
    (JAVA_HEX_LITERAL, Exponent, "1__0", Some(10)),
    (GO_HEX_LITERAL, Fraction, "_f", None),
    (GO_HEX_LITERAL, Fraction, "f_f", Some(255)),
    (GO_HEX_LITERAL, Exponent, "1_f", None),
    (SWIFT_LITERAL, Exponent, "5__", Some(5)),
    (SWIFT_HEX_LITERAL, Exponent, "1_0_", Some(10)),
    (OCTAVE_LITERAL, Fraction, "5__0_", Some(50)),
    (PERL_LITERAL, Fraction, "_5", Some(5)),
    (PERL_LITERAL, Exponent, "__5_", Some(5)),
    (PERL_HEX_LITERAL, Fraction, "_f_", None),
    (PERL_HEX_LITERAL, Fraction, "f_0", Some(240)),
    (PERL_HEX_LITERAL, Exponent, "1_0", Some(10)),
    (PERL_OCTAL_LITERAL, Fraction, "4_4", Some(36)),
    (PERL_OCTAL_LITERAL, Exponent, "1__9", Some(19)),
    (PERL_BINARY_LITERAL, Fraction, "1_2", None),
    (JULIA_LITERAL, Fraction, "1_0", Some(10)),
    (JULIA_LITERAL, Exponent, "1_0", None),
    (JULIA_HEX_LITERAL, Fraction, "f_f", Some(255)),
    (JULIA_HEX_LITERAL, Exponent, "10", Some(10)),
    (D_LITERAL, Fraction, "_5_", None),
    (D_LITERAL, Exponent, "_5_", Some(5)),
    (D_HEX_LITERAL, Fraction, "_f_", None),
    (D_HEX_LITERAL, Exponent, "_1_0", Some(10)),
    (OCAML_LITERAL, Fraction, "__5_", Some(5)),
    (OCAML_LITERAL, Exponent, "_5", None),
    (OCAML_HEX_LITERAL, Fraction, "_f", Some(15)),
    (HASKELL_HEX_LITERAL, Fraction, "_f__f", None),
    (HASKELL_HEX_LITERAL, Fraction, "f__f", Some(255)),
    (ZIG_HEX_LITERAL, Exponent, "1_0", Some(10)),
    (ADA_HEX_LITERAL, Exponent, "1_0", Some(10)),
    (ADA_OCTAL_LITERAL, Fraction, "4_4", Some(36)),
    (ADA_OCTAL_LITERAL, Exponent, "1_9", Some(19)),
    (ADA_BINARY_LITERAL, Exponent, "1_0", Some(10)),
];

/// The value of a text that is only digits of a component.
fn value_of(bytes: &mut Bytes, component: Component) -> Option<u64> {
    let digits = read_digits_of(bytes, component, 0).ok()?;
    (digits.count > 0 && bytes.is_buffer_empty()).then_some(digits.value)
}

#[test]
fn fractions_and_exponents_have_rules_of_their_own(rt: HostRuntime) {
    for (at, (word, component, text, wanted)) in OTHER_COMPONENTS.iter().enumerate() {
        let mut bytes = bytes_of(&rt, text.as_bytes(), *word);
        let value = value_of(&mut bytes, *component);
        assert!(rt;
            value == *wanted,
            "{text}, {component:?} by row {at}, is {value:?}, not {wanted:?}"
        );
    }
}

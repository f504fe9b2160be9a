//! Integer literals as the languages' own tools read them: rustc 1.95.0, Elixir 1.14.0, ghc 9.0.2,
//! ocaml 4.13.1, CPython 3.11.7 and its tomllib, node 20.20.2 in strict mode, go 1.19.8, ruby
//! 3.1.7, PHP 8.2.36, perl 5.36.0, javac 17.0.15, and g++ 12.2.0. Positions are worked out by hand.

use digit_languages::languages::{
    CXX14, ELIXIR, GO, HASKELL, JAVA, JAVASCRIPT, JSON_NUMBER, OCAML, PERL, PHP, PYTHON, RUBY,
    RUST, TOML, ZIG,
};
use digit_languages::{
    FirstZero, Language, LanguageError, Literal, is_language, read_literal, read_literal_as,
};
use digit_literals::LiteralError;
use lexical_format::STANDARD;
use lexical_format::words::{
    JAVA_OCTAL_LITERAL, RUST_BINARY_LITERAL, RUST_HEX_LITERAL, RUST_LITERAL,
};
use std::process::Abort;

/// No value: the text is no literal.
const NO: u128 = u128::MAX;

/// The languages of the columns.
static LANGUAGES: [Language; 12] = [
    RUST, ELIXIR, HASKELL, OCAML, PYTHON, JAVASCRIPT, TOML, GO, RUBY, PHP, PERL, JAVA,
];

/// A text, and its value in each language.
static VALUES: [(&[u8], [u128; 12]); 31] = [
    (b"0", [0, 0, 0, 0, 0, 0, 0, 0, 0, 0, 0, 0]),
    (b"00", [0, 0, 0, 0, 0, NO, NO, 0, 0, 0, 0, 0]),
    (b"0_0", [0, 0, 0, 0, 0, NO, NO, 0, 0, 0, 0, 0]),
    (b"0_", [0, NO, NO, 0, NO, NO, NO, NO, NO, NO, 0, NO]),
    (b"007", [7, 7, 7, 7, NO, NO, NO, 7, 7, 7, 7, 7]),
    (b"017", [17, 17, 17, 17, NO, NO, NO, 15, 15, 15, 15, 15]),
    (b"08", [8, 8, 8, 8, NO, NO, NO, NO, NO, NO, NO, NO]),
    (b"0_7", [7, 7, 7, 7, NO, NO, NO, 7, 7, 7, 7, 7]),
    (b"0_8", [8, 8, 8, 8, NO, NO, NO, NO, NO, NO, NO, NO]),
    (
        b"1_000",
        [
            1000, 1000, 1000, 1000, 1000, 1000, 1000, 1000, 1000, 1000, 1000, 1000,
        ],
    ),
    (b"1__0", [10, NO, 10, 10, NO, NO, NO, NO, NO, NO, 10, 10]),
    (b"1_", [1, NO, NO, 1, NO, NO, NO, NO, NO, NO, 1, NO]),
    (b"_1", [NO, NO, NO, NO, NO, NO, NO, NO, NO, NO, NO, NO]),
    (b"0b1_0", [2, 2, 2, 2, 2, 2, 2, 2, 2, 2, 2, 2]),
    (b"0B1", [NO, NO, 1, 1, 1, 1, NO, 1, 1, 1, 1, 1]),
    (b"0b102", [NO, NO, NO, NO, NO, NO, NO, NO, NO, NO, NO, NO]),
    (b"0b", [NO, NO, NO, NO, NO, NO, NO, NO, NO, NO, NO, NO]),
    (b"0b_1", [1, NO, 1, NO, 1, NO, NO, 1, NO, NO, 1, NO]),
    (b"0b1_", [1, NO, NO, 1, NO, NO, NO, NO, NO, NO, 1, NO]),
    (b"0o1_7", [15, 15, 15, 15, 15, 15, 15, 15, 15, 15, 15, NO]),
    (b"0O7", [NO, NO, 7, 7, 7, 7, NO, 7, 7, 7, 7, NO]),
    (b"0o18", [NO, NO, NO, NO, NO, NO, NO, NO, NO, NO, NO, NO]),
    (b"0o", [NO, NO, NO, NO, NO, NO, NO, NO, NO, NO, NO, NO]),
    (b"0o_7", [7, NO, 7, NO, 7, NO, NO, 7, NO, NO, 7, NO]),
    (b"0x1_f", [31, 31, 31, 31, 31, 31, 31, 31, 31, 31, 31, 31]),
    (b"0X1F", [NO, NO, 31, 31, 31, 31, NO, 31, 31, 31, 31, 31]),
    (b"0x", [NO, NO, NO, NO, NO, NO, NO, NO, NO, NO, NO, NO]),
    (b"0x_1", [1, NO, 1, NO, 1, NO, NO, 1, NO, NO, 1, NO]),
    (b"0x1__f", [31, NO, 31, 31, NO, NO, NO, NO, NO, NO, 31, 31]),
    (b"0x1_", [1, NO, NO, 1, NO, NO, NO, NO, NO, NO, 1, NO]),
    (b"0xg", [NO, NO, NO, NO, NO, NO, NO, NO, NO, NO, NO, NO]),
];

/// A text, and its value in C++.
static VALUES_IN_CXX: [(&[u8], u128); 21] = [
    (b"0", 0),
    (b"00", 0),
    (b"0'0", 0),
    (b"0'", NO),
    (b"007", 7),
    (b"017", 15),
    (b"08", NO),
    (b"0'7", 7),
    (b"0'8", NO),
    (b"1'000", 1000),
    (b"1''0", NO),
    (b"1'", NO),
    (b"0b1'0", 2),
    (b"0B1", 1),
    (b"0b102", NO),
    (b"0b'1", NO),
    (b"0o7", NO),
    (b"0x1'f", 31),
    (b"0X1F", 31),
    (b"0x", NO),
    (b"0x'1", NO),
];

/// The value of a text that is one literal of a language, or `NO`.
fn value_of(rt: &impl Abort, text: &[u8], language: Language) -> u128 {
    assert!(rt; is_language(language));
    match read_literal(text, 0, language, u128::MAX) {
        Ok(read) => {
            if read.end == text.len() {
                read.value
            } else {
                NO
            }
        }
        Err(_) => NO,
    }
}

#[test]
fn literals_are_those_of_the_tools(rt: HostRuntime) {
    for (text, values) in &VALUES {
        for at in 0..LANGUAGES.len() {
            let value = value_of(&rt, text, LANGUAGES[at]);
            assert!(rt; value == values[at], "{text:?}, column {at}: {value}");
        }
    }
}

#[test]
fn literals_are_those_of_cxx(rt: HostRuntime) {
    for (text, expected) in &VALUES_IN_CXX {
        let value = value_of(&rt, text, CXX14);
        assert!(rt; value == *expected, "{text:?}: {value}");
    }
}

/// A language, a text, a start and a greatest value; and of the literal there its value, its word,
/// where its digits begin, and where they end.
type Row = (
    Language,
    &'static [u8],
    usize,
    u128,
    u128,
    u128,
    usize,
    usize,
);

static LITERALS: [Row; 6] = [
    (RUST, b"x=0xff_u8", 2, 255, 255, RUST_HEX_LITERAL, 4, 7),
    (RUST, b"0B1", 0, 9, 0, RUST_LITERAL, 0, 1),
    (RUST, b"0b12", 0, 9, 1, RUST_BINARY_LITERAL, 2, 3),
    (JAVA, b"09", 0, 9, 0, JAVA_OCTAL_LITERAL, 0, 1),
    (JAVA, b"-017", 1, 15, 15, JAVA_OCTAL_LITERAL, 1, 4),
    (JSON_NUMBER, b"0x1", 0, 0, 0, STANDARD, 0, 1),
];

#[test]
fn literals_say_where_they_are(rt: HostRuntime) {
    for (language, text, start, most, value, word, digits, end) in &LITERALS {
        assert!(rt; is_language(*language) && *start <= text.len());
        let answer = read_literal(text, *start, *language, *most);
        let literal = Literal {
            value: *value,
            word: *word,
            digits: *digits,
            end: *end,
        };
        assert!(rt; answer == Ok(literal), "{text:?}: {answer:?}");
    }
}

/// A language, a text, a start, a greatest value, and why there is no literal.
static FAULTS: [(Language, &[u8], usize, u128, LanguageError); 11] = [
    (RUST, b"", 0, 9, LanguageError::Empty(0)),
    (RUST, b"12", 2, 9, LanguageError::Empty(2)),
    (RUST, b"_1", 0, 9, LanguageError::Empty(0)),
    (RUST, b"0x_g", 0, 9, LanguageError::Empty(3)),
    (GO, b"+0b", 1, 9, LanguageError::Empty(3)),
    (RUST, b"0xff", 0, 254, LanguageError::Overflow(3)),
    (GO, b"0_17", 0, 14, LanguageError::Overflow(3)),
    (PYTHON, b"007", 0, 9, LanguageError::Zero(0)),
    (ZIG, b"a01", 1, 9, LanguageError::Zero(1)),
    (ZIG, b"0179", 0, 127, LanguageError::Zero(0)),
    (PYTHON, b"0179", 0, 127, LanguageError::Zero(0)),
];

#[test]
fn faults_of_literals_say_where_they_are(rt: HostRuntime) {
    for (language, text, start, most, fault) in &FAULTS {
        assert!(rt; is_language(*language) && *start <= text.len());
        let answer = read_literal(text, *start, *language, *most);
        assert!(rt; answer == Err(*fault), "{text:?}: {answer:?}");
    }
}

#[test]
fn a_literal_is_a_number_of_its_type(rt: HostRuntime) {
    assert!(rt; is_language(RUST) && is_language(JAVA) && is_language(PYTHON));
    assert!(rt; read_literal_as::<u8>(b"0xff_u8", 0, RUST) == Ok((255, 5)));
    assert!(rt; read_literal_as::<u8>(b"0x1_00", 0, RUST) == Err(LanguageError::Overflow(5)));
    assert!(rt; read_literal_as::<i8>(b"127", 0, RUST) == Ok((127, 3)));
    assert!(rt; read_literal_as::<i8>(b"128", 0, RUST) == Err(LanguageError::Overflow(2)));
    assert!(rt; read_literal_as::<i64>(b"=017;", 1, JAVA) == Ok((15, 4)));
    assert!(rt; read_literal_as::<u64>(b"007", 0, PYTHON) == Err(LanguageError::Zero(0)));
    assert!(rt; read_literal_as::<usize>(b"-1", 0, RUST) == Err(LanguageError::Empty(0)));
}

#[test]
fn errors_of_literals_hold_positions(rt: HostRuntime) {
    assert!(rt; LanguageError::Empty(3).position() == 3);
    assert!(rt; LanguageError::Overflow(20).position() == 20);
    assert!(rt; LanguageError::Zero(1).position() == 1);
    assert!(rt; LanguageError::from(LiteralError::Empty(3)) == LanguageError::Empty(3));
    assert!(rt; LanguageError::from(LiteralError::Overflow(20)) == LanguageError::Overflow(20));
}

#[test]
fn a_language_has_supported_words(rt: HostRuntime) {
    let unsupported = 1 << 104; // radix 1
    assert!(rt; is_language(RUST));
    assert!(rt;
        !is_language(Language {
            decimal: unsupported,
            ..RUST
        })
    );
    assert!(rt;
        !is_language(Language {
            binary: Some(unsupported),
            ..RUST
        })
    );
    assert!(rt;
        !is_language(Language {
            octal: Some(unsupported),
            ..RUST
        })
    );
    assert!(rt;
        !is_language(Language {
            hexadecimal: Some(unsupported),
            ..RUST
        })
    );
    assert!(rt;
        !is_language(Language {
            first_zero: FirstZero::Octal(unsupported),
            ..RUST
        })
    );
}

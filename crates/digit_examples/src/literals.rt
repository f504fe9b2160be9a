//! Integer literals of a language.

use digits::languages::{JAVA, RUST, ZIG};
use digits::words::{JAVA_OCTAL_LITERAL, RUST_HEX_LITERAL};
use digits::{
    Language, LanguageError, Literal, is_language, prefix_word, read_literal, read_literal_as,
};

/// Shows `read_literal`.
#[test]
fn a_literal(rt: HostRuntime) {
    let mask = Literal {
        value: 255,
        word: RUST_HEX_LITERAL,
        digits: 2, // where its digits begin, after `0x`
        end: 5,
    };
    assert_eq!(rt; read_literal(b"0xff_u8", 0, RUST, 255), Ok(mask));
    assert_eq!(rt;
        read_literal(b"0b", 0, RUST, 255),
        Err(LanguageError::Empty(2))
    );
    assert_eq!(rt;
        read_literal(b"256", 0, RUST, 255),
        Err(LanguageError::Overflow(2))
    );
    let octal = Literal {
        value: 15,
        word: JAVA_OCTAL_LITERAL,
        digits: 0,
        end: 3,
    };
    assert_eq!(rt; read_literal(b"017", 0, JAVA, 255), Ok(octal));
    assert_eq!(rt;
        read_literal(b"017", 0, ZIG, 255),
        Err(LanguageError::Zero(0))
    );
}

/// Shows `read_literal_as`.
#[test]
fn a_literal_of_a_type(rt: HostRuntime) {
    assert_eq!(rt; read_literal_as::<u8>(b"0xff_u8", 0, RUST), Ok((255, 5)));
    assert_eq!(rt;
        read_literal_as::<u8>(b"0x1_00", 0, RUST),
        Err(LanguageError::Overflow(5))
    );
}

/// Shows `is_language`.
#[test]
fn a_language(rt: HostRuntime) {
    assert!(rt; is_language(RUST));
    // no radix is 0
    assert!(rt; !is_language(Language { decimal: 0, ..RUST }));
}

/// Shows `prefix_word`.
#[test]
fn a_prefix(rt: HostRuntime) {
    assert_eq!(rt; prefix_word(RUST, b"0xff", 0), Some(RUST_HEX_LITERAL));
    assert_eq!(rt; prefix_word(RUST, b"255", 0), None);
}

//! Tests of loops that end early.

use super::{INTERNAL, UNFLAGGED, bytes_of};
use crate::ends::{Parser, component_end, take_through};
use lexical_digits::iterator::Iter;
use lexical_digits::skip::Component;
use lexical_format::{FRACTION_TRAILING_DIGIT_SEPARATOR, is_supported};

/// `_` between digits of the integer, and after the fraction.
const WORD: u128 = UNFLAGGED | INTERNAL | FRACTION_TRAILING_DIGIT_SEPARATOR;

/// A text, where its integer ends, and whether a point is there.
static INTEGER_ENDS: [(&[u8], usize, bool); 2] = [(b"1_000.5", 5, true), (b"12_", 2, false)];

#[test]
fn the_end_of_an_integer(rt: HostRuntime) {
    assert!(rt; is_supported(WORD));
    for (text, end, is_point) in &INTEGER_ENDS {
        let answer = component_end(text, WORD, Component::Integer);
        assert!(rt; answer == (*end, *is_point), "{text:?}: {answer:?}");
    }
}

#[test]
fn a_parser_of_a_callers_own(rt: HostRuntime) {
    let mut parser = Parser {
        bytes: bytes_of(&rt, b"12x3_", WORD),
        radix: 10,
    };
    assert_eq!(rt; parser.sum_digits(), 6);
    assert_eq!(rt; parser.bytes.cursor(), 5);
}

#[test]
fn a_wanted_byte_is_read_too(rt: HostRuntime) {
    let mut bytes = bytes_of(&rt, b"12.5", WORD);
    assert!(rt; take_through(&mut bytes, b'.'));
    assert_eq!(rt; bytes.cursor(), 3);
    assert!(rt; !take_through(&mut bytes, b'.'));
}

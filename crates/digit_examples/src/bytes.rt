//! Bytes between numbers.

use digits::{
    BLANKS, ByteSet, byte_at, expect_byte, expect_bytes, has_byte, has_bytes, name_end, past_bytes,
};

/// Shows `byte_at`.
#[test]
fn a_byte(rt: HostRuntime) {
    assert_eq!(rt; byte_at(b"1,2", 1), Some(b','));
    assert_eq!(rt; byte_at(b"1,2", 3), None);
}

/// Shows `has_byte`.
#[test]
fn whether_a_byte_is_there(rt: HostRuntime) {
    assert!(rt; has_byte(b"1,2", 1, b','));
    assert!(rt; !has_byte(b"1,2", 3, b','));
}

/// Shows `expect_byte`.
#[test]
fn past_a_byte(rt: HostRuntime) {
    assert_eq!(rt; expect_byte(b"1,2", 1, b','), Ok(2));
    assert_eq!(rt; expect_byte(b"1;2", 1, b','), Err(1));
}

/// Shows `has_bytes`.
#[test]
fn whether_bytes_are_there(rt: HostRuntime) {
    assert!(rt; has_bytes(b"10 EUR", 3, b"EUR"));
    assert!(rt; !has_bytes(b"10 EU", 3, b"EUR"));
}

/// Shows `expect_bytes`.
#[test]
fn past_a_word(rt: HostRuntime) {
    assert_eq!(rt; expect_bytes(b"id=7", 0, b"id="), Ok(3));
    assert_eq!(rt; expect_bytes(b"no=7", 0, b"id="), Err(0));
}

/// Shows `past_bytes`.
#[test]
fn past_blanks(rt: HostRuntime) {
    assert_eq!(rt; past_bytes(b"1, \t2", 2, BLANKS), 4);
}

/// Shows `name_end`.
#[test]
fn where_a_suffix_ends(rt: HostRuntime) {
    assert_eq!(rt; name_end(b"10px", 2), 4);
    assert_eq!(rt; name_end(b"1.5f;", 3), 4);
    assert_eq!(rt; name_end(b"10 px", 2), 2);
}

/// Shows `ByteSet::of`, `ByteSet::accepts`.
#[test]
fn a_set_of_bytes(rt: HostRuntime) {
    let letters = ByteSet::of(|byte| byte.is_ascii_alphabetic());
    assert!(rt; letters.accepts(b'x'));
    assert!(rt; !letters.accepts(b'7'));
}

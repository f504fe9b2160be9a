//! Decimal numbers by a form, by `read_decimal_of`. Values are worked out by hand, and compared
//! with those of CPython's `decimal`.

use digit_numbers::forms::{CXX17, JSON, JSON_FLOATS, MYSQL, PYTHON, RUST, TOML};
use digit_numbers::{Form, NumberError, read_decimal_of};

/// Value, dropped digits and exponent of a number, and where it ends.
type Read = Result<(u64, usize, i64, usize), NumberError>;

/// What a text begins with, and whether it has a minus.
#[tactic(auto, unfolding(lexical_format::proofs::OnLiterals::lexical_on_literals))]
fn read(text: &[u8], form: &Form) -> (Read, bool) {
    if !digit_numbers::is_form(*form) {
        return (Err(NumberError::Invalid(0)), false);
    }
    match read_decimal_of(text, 0, *form) {
        Ok((n, end)) => (Ok((n.value, n.dropped, n.exponent, end)), n.negative),
        Err(error) => (Err(error), false),
    }
}

#[test]
fn a_decimal_number_is_read_by_a_form(rt: HostRuntime) {
    let rows: [(&[u8], Form, Read); 24] = [
        (b"12.50,", MYSQL, Ok((1250, 0, -2, 5))),
        (b"1e3]", JSON, Ok((1, 0, 3, 3))),
        (b"1E-05", JSON, Ok((1, 0, -5, 5))),
        (b"5.", MYSQL, Ok((5, 0, 0, 2))),
        (b"5.", JSON, Ok((5, 0, 0, 1))),
        (b".5", MYSQL, Ok((5, 0, -1, 2))),
        (b".5", JSON, Err(NumberError::Empty(0))),
        (b"1_000e-3f64", RUST, Ok((1000, 0, -3, 8))),
        (b"1..2", RUST, Ok((1, 0, 0, 1))),
        // more digits than an integer of 64 and of 128 bits has
        (
            b"0.30000000000000000004",
            JSON,
            Ok((3000000000000000000, 1, -19, 22)),
        ),
        (
            b"123456789012345678901234567890",
            JSON,
            Ok((1234567890123456789, 11, 11, 30)),
        ),
        (
            b"340282366920938463463374607431768211456",
            JSON,
            Ok((3402823669209384634, 20, 20, 39)),
        ),
        (
            b"340282366920938463463374607431768211456",
            RUST,
            Ok((3402823669209384634, 20, 20, 39)),
        ),
        (b"1e99999999999999999999", JSON, Ok((1, 0, i64::MAX, 22))),
        // a first 0
        (b"01", JSON, Ok((0, 0, 0, 1))),
        (b"01", JSON_FLOATS, Ok((0, 0, 0, 1))),
        (b"012", PYTHON, Ok((0, 0, 0, 1))),
        (b"01.5", PYTHON, Ok((15, 0, -1, 4))),
        (b"012.5", CXX17, Ok((125, 0, -1, 5))),
        // no decimal number
        (b"017", CXX17, Err(NumberError::Empty(0))),
        (b"0x1f", RUST, Err(NumberError::Empty(0))),
        (b"0x1.8p3", CXX17, Err(NumberError::Empty(0))),
        (b"inf", TOML, Err(NumberError::Empty(0))),
        (b"_1", RUST, Err(NumberError::Empty(0))),
    ];
    for (text, form, expected) in rows {
        let (number, negative) = read(text, &form);
        assert!(rt; number == expected && !negative);
    }
}

#[test]
fn a_decimal_number_of_a_form_has_a_sign(rt: HostRuntime) {
    let rows: [(&[u8], Form, Read, bool); 5] = [
        (b"-0", JSON, Ok((0, 0, 0, 2)), true),
        (b"-0.0", JSON_FLOATS, Ok((0, 0, -1, 4)), true),
        (b"-1.5", JSON, Ok((15, 0, -1, 4)), true),
        (b"+1.5", JSON, Err(NumberError::Empty(0)), false),
        (b"-inf", TOML, Err(NumberError::Empty(1)), false),
    ];
    for (text, form, expected, is_negative) in rows {
        let (number, negative) = read(text, &form);
        assert!(rt; number == expected && negative == is_negative);
    }
}

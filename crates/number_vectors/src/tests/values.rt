//! What a number is as an integer of a type and as a float; the bytes between numbers; arrays.

use digit_floats::round_integer;
use digit_literals::{BLANKS, byte_at, expect_byte, past_bytes};
use digit_numbers::{Number, expect_bytes, forms, has_bytes, parse_number_of};
use digit_uses::lists::{ArrayError, parse_array};

/// The number of JSON that a text is: as an `i64`, and as a float.
#[tactic(auto, unfolding(lexical_format::proofs::OnLiterals::lexical_on_literals))]
fn values(text: &[u8]) -> Option<(Option<i64>, f64)> {
    match parse_number_of::<f64>(text, forms::JSON) {
        Ok(number) => Some((number.as_integer::<i64>(), number.to_float())),
        Err(_) => None,
    }
}

#[test]
fn a_number_is_an_integer_if_the_type_has_it(rt: HostRuntime) {
    let rows: [(&[u8], Option<i64>, f64); 8] = [
        (b"0", Some(0), 0.0),
        (b"-1", Some(-1), -1.0),
        (
            b"9223372036854775807",
            Some(i64::MAX),
            9223372036854775808.0,
        ),
        (b"9223372036854775808", None, 9223372036854775808.0),
        (
            b"-9223372036854775808",
            Some(i64::MIN),
            -9223372036854775808.0,
        ),
        (
            b"9007199254740993",
            Some(9007199254740993),
            9007199254740992.0,
        ),
        (b"1.0", None, 1.0),
        (b"1e3", None, 1000.0),
    ];
    for (text, integer, float) in rows {
        let answer = values(text);
        assert!(rt; answer == Some((integer, float)), "{text:?}: {answer:?}");
    }
}

#[test]
fn integers_of_128_bits_are_rounded_once(rt: HostRuntime) {
    let rows: [(u128, u64); 8] = [
        (0, 0),
        (1, 0x3ff0_0000_0000_0000),
        ((1 << 53) + 1, 0x4340_0000_0000_0000),
        ((1 << 53) + 3, 0x4340_0000_0000_0002),
        ((1 << 118) + (1 << 65), 0x4750_0000_0000_0000),
        ((1 << 127) + (1 << 74), 0x47e0_0000_0000_0000),
        ((1 << 127) + (1 << 74) + 1, 0x47e0_0000_0000_0001),
        (u128::MAX, 0x47f0_0000_0000_0000),
    ];
    for (magnitude, bits) in rows {
        let answer = round_integer::<f64>(false, magnitude);
        assert!(rt; answer.to_bits() == bits, "{magnitude}: {answer}");
        let other = round_integer::<f64>(true, magnitude);
        assert!(rt;
            other.to_bits() == bits + (1 << 63),
            "-{magnitude}: {other}"
        );
    }
    assert!(rt; round_integer::<f32>(false, u128::MAX) == f32::INFINITY);
}

#[test]
fn bytes_between_numbers(rt: HostRuntime) {
    let text = b"[ \t\r\n1";
    assert!(rt; byte_at(text, 0) == Some(b'[') && byte_at(text, 6) == None);
    assert!(rt; expect_byte(text, 0, b'[') == Ok(1) && expect_byte(text, 6, b'1') == Err(6));
    assert!(rt; past_bytes(text, 1, BLANKS) == 5 && past_bytes(text, 6, BLANKS) == 6);
}

#[test]
fn an_array_has_numbers_and_commas(rt: HostRuntime) {
    let mut numbers = [Number::Float(0.5); 4];
    assert!(rt; parse_array(b" [1, -2.5 ,3e1]\n", &mut numbers) == Ok(3));
    assert!(rt; numbers[2] == Number::Float(30.0) && numbers[3] == Number::Float(0.5));
    assert!(rt; parse_array(b"[ ]", &mut numbers) == Ok(0));
    assert!(rt; parse_array(b"[1,2,3,4]", &mut numbers) == Ok(4));
    assert!(rt; parse_array(b"[1,2,3,4,5]", &mut numbers) == Err(ArrayError::Full(9)));
    let rows: [(&[u8], usize); 8] = [
        (b"", 0),
        (b"1", 0),
        (b"[", 1),
        (b"[1", 2),
        (b"[1 2]", 3),
        (b"[1,]", 3),
        (b"[] x", 3),
        (b"[-]", 2),
    ];
    for (text, at) in rows {
        let answer = parse_array(text, &mut numbers);
        assert!(rt;
            answer == Err(ArrayError::Fault(at)),
            "{text:?}: {answer:?}"
        );
    }
}

#[test]
fn several_bytes_are_at_a_position(rt: HostRuntime) {
    let text: &[u8] = b"10 EUR";
    assert!(rt; has_bytes(text, 3, b"EUR") && has_bytes(text, 3, b"EU"));
    assert!(rt; !has_bytes(text, 3, b"EURO") && !has_bytes(text, 2, b"EUR"));
    assert!(rt; !has_bytes(text, 3, b"eur") && has_bytes(text, 6, b""));
    assert!(rt; expect_bytes(text, 3, b"EUR") == Ok(6));
    assert!(rt; expect_bytes(text, 4, b"EUR") == Err(4));
}

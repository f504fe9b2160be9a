//! Forms of one's own: with names of one's own, and JSON's grammar with one field changed.

use super::forms::Value::{Fault, Int, Nan, Real};
use super::forms::{INFINITE, Value, assert_ends};
use digit_floats::Marks;
use digit_languages::Language;
use digit_numbers::forms::{JSON, RUST, TOML};
use digit_numbers::names::{ANY_CASE, LOWER_CASE};
use digit_numbers::{
    AfterPoint, Exponents, Form, NameSign, Number, NumberError, Special, SpecialValue, Specials,
    Whole, is_form, read_number_of,
};
use lexical_format::SPECIAL_DIGIT_SEPARATOR;
use lexical_format::words::PYTHON_LITERAL;

/// A name of one's own.
fn special(name: [u8; 8], value: SpecialValue, sign: NameSign) -> Special {
    Special { name, value, sign }
}

/// TOML with names of one's own: the longer one of two is last, and the last two are the same.
fn own_names() -> Form {
    let inf = special(*b"inf\0\0\0\0\0", SpecialValue::Infinity, NameSign::Either);
    let infinite = special(*b"infinite", SpecialValue::Infinity, NameSign::Either);
    let sign = special(
        *b"\xe2\x88\x9e\0\0\0\0\0",
        SpecialValue::Infinity,
        NameSign::Absent,
    );
    let none = special(
        *b"n/a\0\0\0\0\0",
        SpecialValue::NotANumber,
        NameSign::Absent,
    );
    let first = special(*b"same\0\0\0\0", SpecialValue::NotANumber, NameSign::Either);
    let second = special(*b"same\0\0\0\0", SpecialValue::Infinity, NameSign::Either);
    let no = Special::ABSENT;
    Form {
        specials: Some(Specials {
            names: [inf, infinite, sign, none, first, second, no, no],
            any_case: false,
        }),
        ..TOML
    }
}

#[test]
fn names_of_ones_own_are_read(rt: HostRuntime) {
    let rows: [(&[u8], Value, usize); 9] = [
        (b"-inf", Real(-INFINITE), 4),
        (b"infinit", Real(INFINITE), 3),
        (b"infinite", Real(INFINITE), 8),
        (b"\xe2\x88\x9e", Real(INFINITE), 3),
        (b"-\xe2\x88\x9e", Fault(NumberError::Empty(1)), 0),
        (b"n/a", Nan, 3),
        (b"+n/a", Fault(NumberError::Empty(1)), 0),
        (b"same", Nan, 4),
        (b"nan", Fault(NumberError::Empty(0)), 0),
    ];
    assert_ends(&rt, own_names(), &rows);
}

/// Names as XML Schema 1.0, Scheme and EDN have them.
fn signed_names() -> Form {
    let minus = special(*b"INF\0\0\0\0\0", SpecialValue::Infinity, NameSign::Minus);
    let required = special(*b"inf.0\0\0\0", SpecialValue::Infinity, NameSign::Required);
    let absent = special(
        *b"##-Inf\0\0",
        SpecialValue::NegativeInfinity,
        NameSign::Absent,
    );
    let no = Special::ABSENT;
    Form {
        specials: Some(Specials {
            names: [minus, required, absent, no, no, no, no, no],
            any_case: false,
        }),
        ..TOML
    }
}

#[test]
fn a_name_says_which_sign_is_before_it(rt: HostRuntime) {
    let rows: [(&[u8], Value, usize); 8] = [
        (b"INF", Real(INFINITE), 3),
        (b"-INF", Real(-INFINITE), 4),
        (b"+INF", Fault(NumberError::Empty(1)), 0),
        (b"inf.0", Fault(NumberError::Empty(0)), 0),
        (b"+inf.0", Real(INFINITE), 6),
        (b"-inf.0", Real(-INFINITE), 6),
        (b"##-Inf", Real(-INFINITE), 6),
        (b"-##-Inf", Fault(NumberError::Empty(1)), 0),
    ];
    assert_ends(&rt, signed_names(), &rows);
}

#[test]
fn separators_in_a_name_are_those_of_the_special_flag(rt: HostRuntime) {
    let word = PYTHON_LITERAL | SPECIAL_DIGIT_SEPARATOR;
    let plain = Form {
        specials: Some(ANY_CASE),
        ..TOML
    };
    let flagged = Form {
        integers: Language {
            decimal: word,
            ..TOML.integers
        },
        specials: Some(LOWER_CASE),
        ..TOML
    };
    let without: [(&[u8], Value, usize); 2] = [
        (b"in_f", Fault(NumberError::Empty(0)), 0),
        (b"INFINITY_", Real(INFINITE), 8),
    ];
    assert_ends(&rt, plain, &without);
    let with: [(&[u8], Value, usize); 5] = [
        (b"in_f", Real(INFINITE), 4),
        (b"-__i_n__f_;", Real(-INFINITE), 10),
        (b"INF", Fault(NumberError::Empty(0)), 0),
        (b"1_000", Int(false, 1000), 5),
        (b"1_", Int(false, 1), 1),
    ];
    assert_ends(&rt, flagged, &with);
}

/// The same of JSON's grammar where each number is a float.
static JSON_FLOAT_ENDS: [(&[u8], Value, usize); 9] = [
    (b"0", Real(0.0), 1),
    (b"10", Real(10.0), 2),
    (b"0.5", Real(0.5), 3),
    (b"00", Real(0.0), 1),
    (b"007", Real(0.0), 1),
    (b"-01", Real(-0.0), 2),
    (b"00.5", Real(0.0), 1),
    (b"01e5", Real(0.0), 1),
    (b"-", Fault(NumberError::Empty(1)), 0),
];

#[test]
#[tactic(auto, unfolding(lexical_format::proofs::OnLiterals::lexical_on_literals))]
fn a_first_zero_is_alone_of_floats_too(rt: HostRuntime) {
    let form = Form {
        whole: Whole::Float,
        ..JSON
    };
    assert_ends(&rt, form, &JSON_FLOAT_ENDS);
    let read = read_number_of::<f64>(b"-01", 0, form);
    assert!(&rt; matches!(read, Ok((Number::Float(x), 2)) if 1.0 / x == -INFINITE));
}

/// The same of JSON's grammar where an exponent needs a fraction, and where there is none.
static AFTER_FRACTION_ENDS: [(&[u8], Value, usize); 3] = [
    (b"1e5", Int(false, 1), 1),
    (b"1.0e5", Real(100000.0), 5),
    (b"1.e5", Int(false, 1), 1),
];

static NO_EXPONENT_ENDS: [(&[u8], Value, usize); 3] = [
    (b"1e5", Int(false, 1), 1),
    (b"1.5e5", Real(1.5), 3),
    (b"-0.25", Real(-0.25), 5),
];

#[test]
fn exponents_are_where_the_form_has_them(rt: HostRuntime) {
    let exponents = Exponents::AfterFraction;
    assert_ends(&rt, Form { exponents, ..JSON }, &AFTER_FRACTION_ENDS);
    let exponents = Exponents::Absent;
    assert_ends(&rt, Form { exponents, ..JSON }, &NO_EXPONENT_ENDS);
}

/// The same of JSON's grammar where a point needs no fraction, and is none before an operator.
static NO_OPERATOR_ENDS: [(&[u8], Value, usize); 5] = [
    (b"1./x", Int(false, 1), 1),
    (b"1.'", Int(false, 1), 1),
    (b"1.;", Real(1.0), 2),
    (b"1.5/x", Real(1.5), 3),
    (b"1.e2*x", Real(100.0), 4),
];

#[test]
fn a_point_before_an_operator_is_none(rt: HostRuntime) {
    let form = Form {
        needs_fraction: false,
        after_point: AfterPoint::NoOperator,
        ..JSON
    };
    assert_ends(&rt, form, &NO_OPERATOR_ENDS);
}

/// The same of JSON's grammar where a `d` may mark an exponent too.
static OTHER_MARK_ENDS: [(&[u8], Value, usize); 14] = [
    (b"1d5", Real(100000.0), 3),
    (b"25D-2", Real(0.25), 5),
    (b"1.5d1;", Real(15.0), 5),
    (b"1.5d", Real(1.5), 3),
    (b"1.5ed2", Real(1.5), 3),
    (b"1.d5", Int(false, 1), 1),
    (b"-1d400,", Real(-INFINITE), 6),
    (b"0d5 and", Real(0.0), 3),
    (b"2E1", Real(20.0), 3),
    (b"1d", Int(false, 1), 1),
    (b"1ed5", Int(false, 1), 1),
    (b"17", Int(false, 17), 2),
    // more than 19 digits, of the number and of its exponent
    (b"12345678901234567890d1", Real(123456789012345678900.0), 22),
    (b"1d00000000000000000001", Real(10.0), 22),
];

#[test]
fn an_exponent_may_have_another_mark(rt: HostRuntime) {
    let form = Form {
        other_mark: Some(b'd'),
        ..JSON
    };
    assert_ends(&rt, form, &OTHER_MARK_ENDS);
    let wrong = Form {
        other_mark: Some(b'x'),
        ..RUST
    };
    assert!(&rt; !is_form(wrong));
}

#[test]
fn marks_are_no_other_part_of_a_number(rt: HostRuntime) {
    for (point, exponent) in [
        (b'.', b'0'),
        (b'.', b'-'),
        (b'5', b'e'),
        (b'e', b'e'),
        (b'E', b'e'),
    ] {
        let marks = Marks { point, exponent };
        assert!(&rt; !is_form(Form { marks, ..JSON }), "{marks:?}");
    }
    let marks = Marks {
        point: b'_',
        exponent: b'e',
    };
    assert!(&rt; is_form(Form { marks, ..JSON }));
    assert!(&rt; !is_form(Form { marks, ..RUST }));
    let marks = Marks {
        point: b'.',
        exponent: b'X',
    };
    assert!(&rt; is_form(Form { marks, ..JSON }));
    assert!(&rt; !is_form(Form { marks, ..RUST }));
}

//! Numbers as RFC 8259 and the grammars of languages have them. Values are worked out by hand, and
//! of whole literals by g++ 12.2.0 and CPython 3.11.7. What a function takes as a float is from
//! that function: of rustc 1.95.0, CPython 3.11.7, OpenJDK 17.0.15, Go 1.19.8 and glibc 2.36;
//! TOML's values are from CPython's tomllib. Those of JSON5 and YAML are worked out by hand from
//! their pages.

use digit_numbers::forms::{
    CXX17, GO_PARSE_FLOAT, JAVA_PARSE_DOUBLE, JSON, JSON5, LITERAL, OCAML, PERL, PYTHON,
    PYTHON_FLOAT, RUST, RUST_PARSE, STRTOD, SWIFT, TOML, YAML,
};
use digit_numbers::names::CAPITALIZED;
use digit_numbers::{
    AfterPoint, Form, Number, NumberError, Signs, Specials, is_form, parse_number_of,
    read_number_of,
};
use std::process::Abort;

/// An integer's sign and magnitude, or a float.
#[derive(Clone, Copy, Debug, PartialEq)]
pub(super) enum Value {
    Int(bool, u128),
    Real(f64),
    Nan,
    Fault(NumberError),
}

use Value::{Fault, Int, Nan, Real};

pub(super) const INFINITE: f64 = f64::INFINITY;

/// A text, and the number of JSON that it begins with and its end.
static JSON_ENDS: [(&[u8], Value, usize); 18] = [
    (b"0", Int(false, 0), 1),
    (b"-0", Int(true, 0), 2),
    (b"-0.0", Real(-0.0), 4),
    (b"-122.4194155,", Real(-122.4194155), 12),
    (b"1e3", Real(1000.0), 3),
    (b"1E+3]", Real(1000.0), 4),
    (b"01", Int(false, 0), 1),
    (b"00.5", Int(false, 0), 1),
    (b"0.5", Real(0.5), 3),
    (b"1.", Int(false, 1), 1),
    (b"1.e1", Int(false, 1), 1),
    (b"1e", Int(false, 1), 1),
    (b"1.5e+", Real(1.5), 3),
    (b".5", Fault(NumberError::Empty(0)), 0),
    (b"+1", Fault(NumberError::Empty(0)), 0),
    (b"-", Fault(NumberError::Empty(1)), 0),
    (b"inf", Fault(NumberError::Empty(0)), 0),
    (b"-NaN", Fault(NumberError::Empty(1)), 0),
];

/// The same of Rust's source code.
static RUST_ENDS: [(&[u8], Value, usize); 4] = [
    (b"1..2", Int(false, 1), 1),
    (b"1.max(2)", Int(false, 1), 1),
    (b"1.;", Real(1.0), 2),
    (b"0xff.5", Int(false, 255), 4),
];

/// The same of Python's source code.
static PYTHON_ENDS: [(&[u8], Value, usize); 4] = [
    (b"01.5", Real(1.5), 4),
    (b"012", Int(false, 0), 1),
    (b"0x", Int(false, 0), 1),
    (b".5j", Real(0.5), 2),
];

/// The same of hexadecimal digits in C++'s source code: values by g++.
static CXX_HEX_ENDS: [(&[u8], Value, usize); 8] = [
    (b"0x1.8p3", Real(12.0), 7),
    (b"0x.8p1;", Real(1.0), 6),
    (b"0X1.P3", Real(8.0), 6),
    (b"0x1'8p-1'0", Real(0.0234375), 10),
    (b"0x1.8", Int(false, 1), 3),
    (b"0x1p", Int(false, 1), 3),
    (b"0x.p1", Int(false, 0), 1),
    (b"0x1e2", Int(false, 482), 5),
];

/// The same of OCaml's, with the values of its compiler.
static OCAML_HEX_ENDS: [(&[u8], Value, usize); 4] = [
    (b"0x1.", Real(1.0), 4),
    (b"0x1.8", Real(1.5), 5),
    (b"0x1p3", Real(8.0), 5),
    (b"0x18", Int(false, 24), 4),
];

/// The same of Swift's, by its grammar.
static SWIFT_HEX_ENDS: [(&[u8], Value, usize); 3] = [
    (b"0x1.8p3", Real(12.0), 7),
    (b"0x1.p3", Int(false, 1), 3),
    (b"0x.8p3", Int(false, 0), 1),
];

/// The same of `strtod`, from glibc.
static STRTOD_ENDS: [(&[u8], Value, usize); 12] = [
    (b"0x1F", Real(31.0), 4),
    (b"-0x.8", Real(-0.5), 5),
    (b"0x", Real(0.0), 1),
    (b"0x1.", Real(1.0), 4),
    (b"0x1p", Real(1.0), 3),
    (b"+0x1.8P-3x", Real(0.1875), 9),
    (b"infinit", Real(INFINITE), 3),
    (b"infinite", Real(INFINITE), 3),
    (b"nan(", Nan, 3),
    (b"1_0", Real(1.0), 1),
    (b"1e+", Real(1.0), 1),
    (b"1..2", Real(1.0), 2),
];

/// The same of JSON5.
static JSON5_ENDS: [(&[u8], Value, usize); 10] = [
    (b"Infinity,", Real(INFINITE), 8),
    (b"-Infinity", Real(-INFINITE), 9),
    (b"-NaN", Nan, 4),
    (b"infinity", Fault(NumberError::Empty(0)), 0),
    (b"-0xFf", Int(true, 255), 5),
    (b"+0XA]", Int(false, 10), 4),
    (b"-.5", Real(-0.5), 3),
    (b"5.}", Real(5.0), 2),
    (b"08.5", Int(false, 0), 1),
    (b"0b1", Int(false, 0), 1),
];

/// The same of YAML.
static YAML_ENDS: [(&[u8], Value, usize); 20] = [
    (b".inf", Real(INFINITE), 4),
    (b"-.Inf", Real(-INFINITE), 5),
    (b"+.INF", Real(INFINITE), 5),
    (b".iNF", Fault(NumberError::Empty(0)), 0),
    (b".nan", Nan, 4),
    (b".NaN", Nan, 4),
    (b".NAN", Nan, 4),
    (b".nAN", Fault(NumberError::Empty(0)), 0),
    (b"-.nan", Fault(NumberError::Empty(1)), 0),
    (b".5", Real(0.5), 2),
    (b"5.", Real(5.0), 2),
    (b".", Fault(NumberError::Empty(0)), 0),
    (b"1.e3", Real(1000.0), 4),
    (b"010", Int(false, 10), 3),
    (b"0o17", Int(false, 15), 4),
    (b"0x1F", Int(false, 31), 4),
    (b"0X1F", Int(false, 0), 1),
    (b"-0x1F", Int(true, 0), 2),
    (b"0b1", Int(false, 0), 1),
    (b"1_000", Int(false, 1), 1),
];

/// The same of TOML.
static TOML_ENDS: [(&[u8], Value, usize); 4] = [
    (b"inf_", Real(INFINITE), 3),
    (b"-0x1F", Int(true, 0), 2),
    (b"-0x1F, and more text after it", Int(true, 0), 2),
    (b"0x1F, and more text after it", Int(false, 31), 4),
];

/// A literal of C++, and its value by g++.
static OF_CXX: [(&[u8], Value); 26] = [
    (b"0", Int(false, 0)),
    (b"00", Int(false, 0)),
    (b"017", Int(false, 15)),
    (b"0x1F", Int(false, 31)),
    (b"0X1'F", Int(false, 31)),
    (b"0b1'01", Int(false, 5)),
    (b"0B1", Int(false, 1)),
    (b"1'000", Int(false, 1000)),
    (b"0'7", Int(false, 7)),
    (b"18446744073709551615", Int(false, 18446744073709551615)),
    (b"017.5", Real(17.5)),
    (b"017e1", Real(170.0)),
    (b"08.5", Real(8.5)),
    (b"09e0", Real(9.0)),
    (b"1'000.5'0", Real(1000.5)),
    (b"1e3", Real(1000.0)),
    (b"1E+3", Real(1000.0)),
    (b"1'0e-1'0", Real(1e-09)),
    (b".5", Real(0.5)),
    (b"5.", Real(5.0)),
    (b"5.e1", Real(50.0)),
    (b"0.1", Real(0.1)),
    (b"0e0", Real(0.0)),
    (b"00.5", Real(0.5)),
    (b"9007199254740993.", Real(9007199254740992.0)),
    (b"1.7976931348623157e308", Real(1.7976931348623157e308)),
];

/// A literal of Python, and its value by CPython.
static OF_PYTHON: [(&[u8], Value); 23] = [
    (b"0", Int(false, 0)),
    (b"00", Int(false, 0)),
    (b"0_0", Int(false, 0)),
    (b"1_000", Int(false, 1000)),
    (b"0x1F", Int(false, 31)),
    (b"0X_1f", Int(false, 31)),
    (b"0b1_01", Int(false, 5)),
    (b"0O17", Int(false, 15)),
    (
        b"340282366920938463463374607431768211455",
        Int(false, 340282366920938463463374607431768211455),
    ),
    (b"1.5", Real(1.5)),
    (b"1e3", Real(1000.0)),
    (b"1_0.5_0e1_0", Real(105000000000.0)),
    (b"017.5", Real(17.5)),
    (b"0_0.5", Real(0.5)),
    (b"09e0", Real(9.0)),
    (b"0777e-2", Real(7.77)),
    (b".5", Real(0.5)),
    (b"5.", Real(5.0)),
    (b"5.e1", Real(50.0)),
    (
        b"340282366920938463463374607431768211456.",
        Real(3.402823669209385e38),
    ),
    (b"1E-400", Real(0.0)),
    (b"1e400", Real(f64::INFINITY)),
    (b"123_456.789_012", Real(123456.789012)),
];

/// What Rust's `parse` takes, and its value.
static RUST_PARSE_TAKES: [(&[u8], Value); 12] = [
    (b"inf", Real(INFINITE)),
    (b"Infinity", Real(INFINITE)),
    (b"+INF", Real(INFINITE)),
    (b"-inf", Real(-INFINITE)),
    (b"nAn", Nan),
    (b"-nan", Nan),
    (b"+nan", Nan),
    (b"1.e5", Real(100000.0)),
    (b"+.5", Real(0.5)),
    (b"5.", Real(5.0)),
    (b"01.5", Real(1.5)),
    (b"1e400", Real(INFINITE)),
];

/// What Rust's `parse` refuses.
static RUST_PARSE_REFUSES: [&[u8]; 5] = [b"infinit", b"1_0", b".", b".e5", b"1e"];

/// What Python's `float` takes, and its value.
static PYTHON_FLOAT_TAKES: [(&[u8], Value); 9] = [
    (b"inf", Real(INFINITE)),
    (b"Infinity", Real(INFINITE)),
    (b"+INF", Real(INFINITE)),
    (b"-nan", Nan),
    (b"nAn", Nan),
    (b"1_0.5_0e1_0", Real(105000000000.0)),
    (b"1.e5", Real(100000.0)),
    (b".5", Real(0.5)),
    (b"01.5", Real(1.5)),
];

/// What Python's `float` refuses.
static PYTHON_FLOAT_REFUSES: [&[u8]; 8] = [
    b"infinit", b".", b"1_", b"1__0", b"_1", b"in_f", b"1._5", b"1e",
];

/// What Java's `parseDouble` takes, and its value.
static JAVA_PARSE_DOUBLE_TAKES: [(&[u8], Value); 9] = [
    (b"-0x1p3", Real(-8.0)),
    (b"0x1.8p-1", Real(0.75)),
    (b"Infinity", Real(INFINITE)),
    (b"+Infinity", Real(INFINITE)),
    (b"-Infinity", Real(-INFINITE)),
    (b"NaN", Nan),
    (b"-NaN", Nan),
    (b"1.e5", Real(100000.0)),
    (b"5.", Real(5.0)),
];

/// What Java's `parseDouble` refuses.
static JAVA_PARSE_DOUBLE_REFUSES: [&[u8]; 6] = [b"0x1.8", b"inf", b"INFINITY", b"1_0", b".", b"1e"];

/// What Go's `ParseFloat` takes, and its value.
static GO_PARSE_FLOAT_TAKES: [(&[u8], Value); 12] = [
    (b"0x_1.8p1", Real(3.0)),
    (b"-0X1P-2", Real(-0.25)),
    (b"inf", Real(INFINITE)),
    (b"Infinity", Real(INFINITE)),
    (b"+INF", Real(INFINITE)),
    (b"-inf", Real(-INFINITE)),
    (b"NaN", Nan),
    (b"nAn", Nan),
    (b"1_0.5_0e1_0", Real(105000000000.0)),
    (b"1_000", Real(1000.0)),
    (b".5", Real(0.5)),
    (b"01.5", Real(1.5)),
];

/// What Go's `ParseFloat` refuses.
static GO_PARSE_FLOAT_REFUSES: [&[u8]; 12] = [
    b"0x_.8p1",
    b"-nan",
    b"+NaN",
    b"infinit",
    b"infinityx",
    b".",
    b"1_",
    b"1__0",
    b"_1",
    b"in_f",
    b"1._5",
    b"1e",
];

/// What `strtod` takes, and its value.
static STRTOD_TAKES: [(&[u8], Value); 3] = [
    (b"Infinity", Real(INFINITE)),
    (b"-inf", Real(-INFINITE)),
    (b"-nan", Nan),
];

/// What `strtod` refuses.
static STRTOD_REFUSES: [&[u8]; 1] = [b"."];

/// What tomllib takes, and its value.
static TOML_TAKES: [(&[u8], Value); 6] = [
    (b"inf", Real(INFINITE)),
    (b"+inf", Real(INFINITE)),
    (b"-inf", Real(-INFINITE)),
    (b"nan", Nan),
    (b"-nan", Nan),
    (b"+nan", Nan),
];

/// What tomllib refuses.
static TOML_REFUSES: [&[u8]; 4] = [b"Inf", b"NAN", b"infinity", b"in_f"];

fn value_of(read: Result<(Number<f64>, usize), NumberError>) -> (Value, usize) {
    match read {
        Ok(
            (
                Number::Integer {
                    negative,
                    magnitude,
                    word: _,
                },
                end,
            ),
        ) => (Int(negative, magnitude), end),
        Ok((Number::Float(x), end)) if x.is_nan() => (Nan, end),
        Ok((Number::Float(x), end)) => (Real(x), end),
        Err(error) => (Fault(error), 0),
    }
}

#[test]
#[tactic(auto, unfolding(lexical_format::proofs::OnLiterals::lexical_on_literals))]
fn a_number_ends_where_its_form_says(rt: HostRuntime) {
    assert_ends(&rt, JSON, &JSON_ENDS);
    assert_ends(&rt, RUST, &RUST_ENDS);
    assert_ends(&rt, PYTHON, &PYTHON_ENDS);
    assert_ends(&rt, STRTOD, &STRTOD_ENDS);
    assert_ends(&rt, JSON5, &JSON5_ENDS);
    assert_ends(&rt, YAML, &YAML_ENDS);
    assert_ends(&rt, TOML, &TOML_ENDS);
}

#[test]
#[tactic(auto, unfolding(lexical_format::proofs::OnLiterals::lexical_on_literals))]
fn hexadecimal_digits_are_floats_as_their_form_says(rt: HostRuntime) {
    assert_ends(&rt, CXX17, &CXX_HEX_ENDS);
    assert_ends(&rt, OCAML, &OCAML_HEX_ENDS);
    assert_ends(&rt, SWIFT, &SWIFT_HEX_ENDS);
}

/// Each text begins with that number of the form, which ends there.
pub(super) fn assert_ends(rt: &impl Abort, form: Form, rows: &[(&[u8], Value, usize)]) {
    assert!(rt; is_form(form));
    for (text, value, end) in rows {
        let read = value_of(read_number_of::<f64>(text, 0, form));
        assert!(rt; read == (*value, *end), "{text:?}: {read:?}");
    }
}

/// Each text is a number of the form, with that value.
fn assert_values(rt: &impl Abort, form: Form, rows: &[(&[u8], Value)]) {
    assert!(rt; is_form(form));
    for (text, value) in rows {
        let read = value_of(read_number_of::<f64>(text, 0, form));
        assert!(rt; read == (*value, text.len()), "{text:?}: {read:?}");
    }
}

/// What a text is by a form.
pub(super) fn parse_by(
    rt: &impl Abort,
    form: Form,
    text: &[u8],
) -> Result<Number<f64>, NumberError> {
    assert!(rt; is_form(form));
    parse_number_of::<f64>(text, form)
}

/// Texts of Rust that are a number: 30 and 31 bits after their prefix, and a text of 34 bytes with
/// separators.
static LONG_RUST: [(&[u8], Value); 3] = [
    (b"0b111111111111111111111111111111", Int(false, 1073741823)),
    (b"0b1111111111111111111111111111111", Int(false, 2147483647)),
    (b"0x0000_0000_0000_0000_0000_0000_FF", Int(false, 255)),
];

#[test]
fn a_prefix_is_parsed_in_a_long_text(rt: HostRuntime) {
    assert_values(&rt, RUST, &LONG_RUST);
    for (text, value) in LONG_RUST {
        let read = parse_by(&rt, RUST, text);
        let (parsed, _) = value_of(read.map(|number| (number, text.len())));
        assert!(&rt; parsed == value, "{text:?}: {parsed:?}");
    }
}

#[test]
fn literals_have_the_values_of_their_tools(rt: HostRuntime) {
    assert_values(&rt, CXX17, &OF_CXX);
    assert_values(&rt, PYTHON, &OF_PYTHON);
}

/// No text is a number of the form.
fn assert_refused(rt: &impl Abort, form: Form, texts: &[&[u8]]) {
    assert!(rt; is_form(form));
    for text in texts {
        let read = parse_number_of::<f64>(text, form);
        assert!(rt; read.is_err(), "{text:?}");
    }
}

#[test]
fn strings_are_floats_as_their_functions_take_them(rt: HostRuntime) {
    assert_values(&rt, RUST_PARSE, &RUST_PARSE_TAKES);
    assert_refused(&rt, RUST_PARSE, &RUST_PARSE_REFUSES);
    assert_values(&rt, PYTHON_FLOAT, &PYTHON_FLOAT_TAKES);
    assert_refused(&rt, PYTHON_FLOAT, &PYTHON_FLOAT_REFUSES);
    assert_values(&rt, JAVA_PARSE_DOUBLE, &JAVA_PARSE_DOUBLE_TAKES);
    assert_refused(&rt, JAVA_PARSE_DOUBLE, &JAVA_PARSE_DOUBLE_REFUSES);
    assert_values(&rt, GO_PARSE_FLOAT, &GO_PARSE_FLOAT_TAKES);
    assert_refused(&rt, GO_PARSE_FLOAT, &GO_PARSE_FLOAT_REFUSES);
    assert_values(&rt, STRTOD, &STRTOD_TAKES);
    assert_refused(&rt, STRTOD, &STRTOD_REFUSES);
    assert_values(&rt, TOML, &TOML_TAKES);
    assert_refused(&rt, TOML, &TOML_REFUSES);
}

/// A text, a start, and the number of Python that begins there, and its end.
static PYTHON_STARTS: [(&[u8], usize, Value, usize); 4] = [
    (b"0_7", 0, Int(false, 0), 1),
    (b"0_7", 1, Fault(NumberError::Empty(1)), 0),
    (b"0_7", 2, Int(false, 7), 3),
    (b"9_.5", 1, Fault(NumberError::Empty(1)), 0),
];

#[test]
#[tactic(auto, unfolding(lexical_format::proofs::OnLiterals::lexical_on_literals))]
fn a_number_begins_with_no_separator(rt: HostRuntime) {
    for (text, start, value, end) in &PYTHON_STARTS {
        let read = value_of(read_number_of::<f64>(text, *start, PYTHON));
        assert!(&rt; read == (*value, *end), "{text:?} {start}: {read:?}");
    }
    let read = read_number_of::<f64>(b"_.5", 0, PERL);
    assert!(&rt; read == Err(NumberError::Empty(0)));
    let read = read_number_of::<f64>(b"0x_.8p1", 0, PERL);
    assert!(&rt; read == Ok((Number::Float(1.0), 7)));
}

/// The source code of Delphi, as Free Pascal 3.2.2 reads it with `-Mdelphi`.
const DELPHI: Form = Form {
    needs_integer: true,
    after_point: AfterPoint::NoPoint,
    ..LITERAL
};

/// Constants of Cassandra, by its documentation.
const CASSANDRA: Form = Form {
    signs: Signs::Minus,
    needs_integer: true,
    specials: Some(Specials {
        any_case: true,
        ..CAPITALIZED
    }),
    ..LITERAL
};

/// A text, and the number of Delphi that it begins with and its end.
static DELPHI_ENDS: [(&[u8], Value, usize); 6] = [
    (b"5.", Real(5.0), 2),
    (b"5.e3", Real(5000.0), 4),
    (b"007", Int(false, 7), 3),
    (b"1..2", Int(false, 1), 1),
    (b"1_000", Int(false, 1), 1),
    (b".5", Fault(NumberError::Empty(0)), 0),
];

/// The same of Cassandra.
static CASSANDRA_ENDS: [(&[u8], Value, usize); 6] = [
    (b"-5.", Real(-5.0), 3),
    (b"-1e+3", Real(-1000.0), 5),
    (b"-infinity", Real(-INFINITE), 9),
    (b"NaN", Nan, 3),
    (b"inf", Fault(NumberError::Empty(0)), 0),
    (b"+1", Fault(NumberError::Empty(0)), 0),
];

#[test]
fn two_more_formats_take_a_form_of_ones_own(rt: HostRuntime) {
    assert_ends(&rt, DELPHI, &DELPHI_ENDS);
    assert_ends(&rt, CASSANDRA, &CASSANDRA_ENDS);
}

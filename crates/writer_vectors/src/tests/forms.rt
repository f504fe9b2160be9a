//! Numbers by forms, worked out by hand from their grammars.

use digit_numbers::{Form, Number, forms, is_form};
use form_writers::{FormTextError, write_float_of, write_integer_of, write_number_of};
use lexical_format::STANDARD;
use std::rt::HostRuntime;

/// What stands behind each text.
const BEHIND: u8 = b'#';

/// Whether a float has this text by a form, after which nothing is touched.
fn writes(x: f64, form: Form, text: &[u8]) -> bool {
    if !is_form(form) {
        return false;
    }
    let mut out = [BEHIND; 400];
    match write_float_of(x, form, &mut out) {
        Ok(len) => len < 400 && &out[..len] == text && out[len] == BEHIND,
        Err(_) => false,
    }
}

/// Whether a form has no such float.
fn has_none(x: f64, form: Form) -> bool {
    if !is_form(form) {
        return false;
    }
    let mut out = [BEHIND; 40];
    write_float_of(x, form, &mut out) == Err(FormTextError::NoNumber) && out == [BEHIND; 40]
}

#[test]
fn json_has_finite_numbers(rt: HostRuntime) {
    assert!(&rt; writes(0.5, forms::JSON, b"0.5") && writes(-2.0, forms::JSON, b"-2.0"));
    assert!(&rt; writes(1e16, forms::JSON, b"1e16") && writes(-0.0, forms::JSON, b"-0.0"));
    assert!(&rt; writes(5e-324, forms::JSON, b"5e-324"));
    assert!(&rt; has_none(f64::NAN, forms::JSON) && has_none(f64::INFINITY, forms::JSON));
    assert!(&rt; has_none(-f64::INFINITY, forms::JSON_FLOATS));
}

#[test]
fn names_of_toml(rt: HostRuntime) {
    let inf = f64::INFINITY;
    assert!(&rt; writes(inf, forms::TOML, b"inf") && writes(-inf, forms::TOML, b"-inf"));
    assert!(&rt; writes(f64::NAN, forms::TOML, b"nan"));
}

#[test]
fn names_of_yaml(rt: HostRuntime) {
    let inf = f64::INFINITY;
    assert!(&rt; writes(inf, forms::YAML, b".inf") && writes(-inf, forms::YAML, b"-.inf"));
    assert!(&rt; writes(f64::NAN, forms::YAML, b".nan"));
}

#[test]
fn names_of_json5(rt: HostRuntime) {
    let inf = f64::INFINITY;
    assert!(&rt; writes(inf, forms::JSON5, b"Infinity") && writes(f64::NAN, forms::JSON5, b"NaN"));
}

#[test]
fn names_of_xml(rt: HostRuntime) {
    let inf = f64::INFINITY;
    assert!(&rt;
        writes(inf, forms::XML_DOUBLE, b"INF") && writes(-inf, forms::XML_DOUBLE, b"-INF")
    );
}

#[test]
fn names_have_signs_and_marks_of_the_form(rt: HostRuntime) {
    let inf = f64::INFINITY;
    assert!(&rt; writes(inf, forms::EDN, b"##Inf") && writes(-inf, forms::EDN, b"##-Inf"));
    assert!(&rt; writes(f64::NAN, forms::EDN, b"##NaN"));
    assert!(&rt; writes(inf, forms::SCHEME, b"+inf.0") && writes(-inf, forms::SCHEME, b"-inf.0"));
    assert!(&rt; writes(f64::NAN, forms::SCHEME, b"+nan.0"));
}

#[test]
fn a_form_may_have_one_name_and_no_other(rt: HostRuntime) {
    let inf = f64::INFINITY;
    assert!(&rt; writes(inf, forms::R, b"Inf") && has_none(-inf, forms::R));
    assert!(&rt; writes(f64::NAN, forms::CSHARP_PARSE, b"NaN"));
    assert!(&rt; writes(inf, forms::PYTHON_FLOAT, b"inf"));
    assert!(&rt; has_none(f64::NAN, forms::JAVASCRIPT_NUMBER) && has_none(inf, forms::RUST));
}

#[test]
fn floats_are_laid_out_as_the_form_wants_them(rt: HostRuntime) {
    assert!(&rt; writes(2.0, forms::RUST, b"2.0") && has_none(-2.0, forms::RUST));
    assert!(&rt;
        writes(1e16, forms::ERLANG, b"1.0e16") && writes(1.5e16, forms::ERLANG, b"1.5e16")
    );
    assert!(&rt; writes(5e-324, forms::ERLANG, b"5.0e-324"));
    assert!(&rt; writes(-1e300, forms::COBOL, b"-1.0e300"));
    assert!(&rt; writes(1e16, forms::DECIMAL, b"10000000000000000"));
    assert!(&rt; writes(1e-7, forms::DECIMAL, b"0.0000001"));
    assert!(&rt; writes(-12000.0, forms::DECIMAL, b"-12000.0"));
    assert!(&rt; writes(1e16, forms::HASKELL, b"1e16") && writes(0.1, forms::FORTRAN, b"0.1"));
}

/// Writes an integer by a form; what is no form has no number.
fn write_integer(value: i128, form: Form, out: &mut [u8]) -> Result<usize, FormTextError> {
    if !is_form(form) {
        return Err(FormTextError::NoNumber);
    }
    write_integer_of(value, form, out)
}

/// Writes a number by a form; what is no form has no number.
fn write_number(number: Number<f32>, form: Form, out: &mut [u8]) -> Result<usize, FormTextError> {
    if !is_form(form) {
        return Err(FormTextError::NoNumber);
    }
    write_number_of(number, form, out)
}

/// Whether an integer has this text by a form.
fn has_text(value: i64, form: Form, text: &[u8]) -> bool {
    let mut out = [BEHIND; 40];
    match write_integer(i128::from(value), form, &mut out) {
        Ok(len) => len < 40 && &out[..len] == text && out[len] == BEHIND,
        Err(_) => false,
    }
}

#[test]
fn integers_have_no_sign_in_source_code(rt: HostRuntime) {
    assert!(&rt; has_text(0, forms::JSON, b"0") && has_text(-7, forms::JSON, b"-7"));
    assert!(&rt; has_text(i64::MIN, forms::TOML, b"-9223372036854775808"));
    assert!(&rt; has_text(7, forms::C99, b"7") && has_text(10, forms::JSON_FLOATS, b"10"));
    let mut out = [BEHIND; 8];
    assert!(&rt; write_integer(-7, forms::C99, &mut out) == Err(FormTextError::NoNumber));
    assert!(&rt; write_integer(-7, forms::YAML, &mut out[..1]) == Err(FormTextError::NoRoom(2)));
    assert!(&rt; out == [BEHIND; 8]);
}

#[test]
fn an_integer_may_be_minus_zero(rt: HostRuntime) {
    let number: Number<f32> = Number::Integer {
        negative: true,
        magnitude: 0,
        word: STANDARD,
    };
    let mut out = [BEHIND; 8];
    assert!(&rt; write_number(number, forms::JSON, &mut out) == Ok(2) && out == *b"-0######");
    let half: Number<f32> = Number::Float(0.5);
    assert!(&rt; write_number(half, forms::JSON, &mut out) == Ok(3) && out == *b"0.5#####");
}

//! The nearest floats.

use digits::words::PYTHON_LITERAL;
use digits::{
    FloatError, STANDARD, parse_float, parse_float_from, read_float, read_float_from, round_integer,
};

/// Shows `parse_float`.
#[test]
fn a_whole_text(rt: HostRuntime) {
    assert_eq!(rt; parse_float::<f64>(b"-1.5e3", STANDARD), Ok(-1500.0));
    assert_eq!(rt; parse_float::<f64>(b"1_234.5", PYTHON_LITERAL), Ok(1234.5));
    assert_eq!(rt; parse_float::<f64>(b".5", STANDARD), Ok(0.5));
    assert_eq!(rt; parse_float::<f64>(b"1e999", STANDARD), Ok(f64::INFINITY));
    assert_eq!(rt;
        parse_float::<f64>(b"1.5x", STANDARD),
        Err(FloatError::Invalid(3))
    );
    assert_eq!(rt;
        parse_float::<f64>(b"1e", STANDARD),
        Err(FloatError::EmptyExponent(2))
    );
    assert_eq!(rt;
        parse_float::<f64>(b".", STANDARD),
        Err(FloatError::Empty(1))
    );
    assert_eq!(rt;
        parse_float::<f64>(b"inf", STANDARD),
        Err(FloatError::Empty(0))
    );
}

/// Shows `parse_float_from`.
#[test]
fn the_rest_of_a_text(rt: HostRuntime) {
    assert_eq!(rt; parse_float_from::<f64>(b"x=1.5", STANDARD, 2), Ok(1.5));
}

/// Shows `read_float`.
#[test]
fn the_start_of_a_text(rt: HostRuntime) {
    assert_eq!(rt; read_float::<f64>(b"1.5 m", STANDARD), Ok((1.5, 3)));
    assert_eq!(rt;
        read_float::<f64>(b"1em", STANDARD),
        Err(FloatError::EmptyExponent(2))
    );
}

/// Shows `read_float_from`.
#[test]
fn from_a_position_on(rt: HostRuntime) {
    assert_eq!(rt;
        read_float_from::<f64>(b"x=1.5e3,", STANDARD, 2),
        Ok((1500.0, 7))
    );
    assert_eq!(rt; read_float_from::<f64>(b"1.5.2", STANDARD, 0), Ok((1.5, 3)));
}

/// Shows `round_integer`.
#[test]
fn an_integer_as_a_float(rt: HostRuntime) {
    assert_eq!(rt; round_integer::<f64>(true, 3), -3.0);
    // 2^53 + 1 is in the middle of two floats
    assert_eq!(rt;
        round_integer::<f64>(false, 9007199254740993),
        9007199254740992.0
    );
}

//! Numbers by a form.

use digits::words::RUST_HEX_LITERAL;
use digits::{
    COMMAS, Form, ListEnd, Marks, Number, NumberError, OfForm, STANDARD, form_of, forms, is_form,
    parse_list, parse_number_of, read_list_of, read_number_of,
};

/// Shows `parse_number_of`.
#[test]
fn a_whole_text(rt: HostRuntime) {
    assert_eq!(rt;
        parse_number_of::<f64>(b"-1.5e3", forms::JSON),
        Ok(Number::Float(-1500.0))
    );
    assert_eq!(rt;
        parse_number_of::<f64>(b"01", forms::JSON),
        Err(NumberError::Invalid(1))
    );
    let twelve = parse_number_of::<f64>(b"12", forms::JSON);
    assert_eq!(rt;
        twelve.map(|number| number.as_integer::<i64>()),
        Ok(Some(12))
    );
    assert_eq!(rt; twelve.map(|number| number.to_float()), Ok(12.0));
}

/// Shows `read_number_of`.
#[test]
fn from_a_position_on(rt: HostRuntime) {
    assert_eq!(rt;
        read_number_of::<f64>(b"-1.5e3,", 0, forms::JSON),
        Ok((Number::Float(-1500.0), 6))
    );
    assert_eq!(rt;
        read_number_of::<f64>(b".5", 0, forms::JSON),
        Err(NumberError::Empty(0))
    );
}

/// The other rows of the table in the doc comment of that call.
#[test]
fn numbers_before_other_bytes(rt: HostRuntime) {
    let twelve = Number::Integer {
        negative: false,
        magnitude: 12,
        word: STANDARD,
    };
    assert_eq!(rt;
        read_number_of::<f64>(b"12]", 0, forms::JSON),
        Ok((twelve, 2))
    );
    let zero = Number::Integer {
        negative: false,
        magnitude: 0,
        word: STANDARD,
    };
    assert_eq!(rt; read_number_of::<f64>(b"01", 0, forms::JSON), Ok((zero, 1)));
    let one = Number::Integer {
        negative: false,
        magnitude: 1,
        word: STANDARD,
    };
    assert_eq!(rt; read_number_of::<f64>(b"1.", 0, forms::JSON), Ok((one, 1)));
    assert_eq!(rt;
        read_number_of::<f64>(b"-inf,", 0, forms::TOML),
        Ok((Number::Float(-f64::INFINITY), 4))
    );
}

/// Shows `Number::as_integer`, `Number::to_float`.
#[test]
fn the_value_of_a_number(rt: HostRuntime) {
    let mask: Number<f64> = Number::Integer {
        negative: false,
        magnitude: 255,
        word: RUST_HEX_LITERAL,
    };
    assert_eq!(rt; mask.as_integer::<u8>(), Some(255));
    assert_eq!(rt; mask.as_integer::<i8>(), None);
    assert_eq!(rt; mask.to_float(), 255.0);
    assert_eq!(rt; Number::Float(1.0).as_integer::<u8>(), None);
}

/// Shows `form_of`.
#[test]
fn a_form_by_its_number(rt: HostRuntime) {
    assert_eq!(rt; form_of(2), Some(forms::RUST));
    assert_eq!(rt; form_of(1000), None);
}

/// Shows `is_form`.
#[test]
fn a_form(rt: HostRuntime) {
    assert!(rt; is_form(forms::JSON));
    // a point that is a digit
    let marks = Marks {
        point: b'1',
        exponent: b'e',
    };
    assert!(rt;
        !is_form(Form {
            marks,
            ..forms::JSON
        })
    );
}

/// Shows `Form`.
#[test]
fn a_form_of_ones_own(rt: HostRuntime) {
    // a comma in place of the point
    let marks = Marks {
        point: b',',
        exponent: b'e',
    };
    let comma = Form {
        marks,
        ..forms::FLOAT
    };
    assert_eq!(rt;
        parse_number_of::<f64>(b"1,5e3", comma),
        Ok(Number::Float(1500.0))
    );
    assert_eq!(rt;
        read_number_of::<f64>(b"-2,5;", 0, comma),
        Ok((Number::Float(-2.5), 4))
    );
    assert_eq!(rt;
        parse_number_of::<f64>(b"1.5", comma),
        Err(NumberError::Invalid(1))
    );
}

/// Shows `OfForm`.
#[test]
fn the_kind_of_a_form(rt: HostRuntime) {
    let mut numbers = [Number::Float(0.0); 2];
    let kind = OfForm::<f64>::new(forms::JSON);
    assert_eq!(rt; parse_list(kind, b"1.5, 2e3", COMMAS, &mut numbers), Ok(2));
    assert_eq!(rt; numbers, [Number::Float(1.5), Number::Float(2000.0)]);
}

/// Shows `read_list_of`.
#[test]
fn a_list_by_a_form(rt: HostRuntime) {
    let mut numbers = [Number::Float(0.0); 3];
    let read = read_list_of::<f64>(b"1, -2.5e3 ]", 0, forms::JSON, COMMAS, &mut numbers);
    assert_eq!(rt; read.count, 2);
    assert_eq!(rt; read.end, ListEnd::Over(10));
    assert_eq!(rt; numbers[0].as_integer::<u8>(), Some(1));
    assert_eq!(rt; numbers[1], Number::Float(-2500.0));
}

//! The functions of the pages for callers that read a number, a token of JSON, a row of CSV
//! and a float with a comma, and write a number. The expected values are worked out by hand.

use digit_amounts::ScaledError;
use digit_floats::{FloatError, read_float};
use digit_lists::ListError;
use digit_literals::{
    LINES, ListEnd, LiteralError, ParseError, parse_number, parse_number_from, read_list,
    read_number,
};
use digit_numbers::{Number, NumberError, forms, parse_number_of, read_number_of};
use digit_uses::calling::{
    LengthError, SizeError, parse_amount, parse_height, parse_id, parse_metres, parse_trimmed,
    read_mask, read_ports, read_size, read_token,
};
use digit_uses::files::parse_row;
use digit_uses::money::cents_of_field;
use digit_uses::own::{parse_comma_float, parse_count};
use digit_uses::writing::write_grouped;
use lexical_format::STANDARD;
use lexical_format::words::PYTHON_LITERAL;

#[test]
fn a_height_is_a_whole_text(rt: HostRuntime) {
    let rows: [(&[u8], Result<i32, ParseError>); 7] = [
        (b"-1_000", Ok(-1000)),
        (b"+7", Ok(7)),
        (b"2_147_483_648", Err(ParseError::Overflow(12))),
        (b"1_000m", Err(ParseError::Invalid(5))),
        (b" 1", Err(ParseError::Invalid(0))),
        (b"1__0", Err(ParseError::Invalid(1))),
        (b"", Err(ParseError::Empty(0))),
    ];
    for (text, expected) in rows {
        let answer = parse_height(text);
        assert!(rt; answer == expected, "{text:?}: {answer:?}");
    }
}

#[test]
fn a_size_is_two_numbers(rt: HostRuntime) {
    assert!(rt; read_size(b"1_920x1_080 px") == Ok((1920, 1080, 11)));
    assert!(rt; read_size(b"1_920,1_080") == Err(SizeError::NoX(5)));
    assert!(rt; read_size(b"1x") == Err(SizeError::Side(LiteralError::Empty(2))));
    assert!(rt; read_mask(b"0xff_u8") == Ok((255, 5)));
    assert!(rt; parse_trimmed(b" 12\r\n") == Ok(12));
    assert!(rt; parse_trimmed(b"12 x") == Err(ParseError::Invalid(3)));
    assert!(rt; parse_amount(b"-1.5e3") == Ok(-1500.0));
    assert!(rt; parse_amount(b"01") == Err(NumberError::Invalid(1)));
}

#[test]
fn a_length_has_its_unit(rt: HostRuntime) {
    assert!(rt; parse_metres(b"1.5m") == Ok(1.5));
    assert!(rt; parse_metres(b"2 km") == Ok(2000.0));
    assert!(rt; parse_metres(b"2\t km") == Ok(2000.0));
    assert!(rt; parse_metres(b"5\xc2\xb5m") == Ok(0.000005));
    assert!(rt; parse_metres(b"5\xb5m") == Err(LengthError::Unit(1)));
    assert!(rt; parse_metres(b"5 ") == Err(LengthError::Unit(2)));
    assert!(rt; parse_metres(b"2km") == Ok(2000.0));
    assert!(rt; parse_metres(b"1.5") == Err(LengthError::Unit(3)));
    assert!(rt; parse_metres(b"1.5mm") == Err(LengthError::Unit(3)));
    assert!(rt; parse_metres(b"1em") == Err(LengthError::Unit(1)));
    let none = LengthError::Value(NumberError::Empty(0));
    assert!(rt; parse_metres(b"m") == Err(none));
}

#[test]
fn an_id_is_an_integer_of_json(rt: HostRuntime) {
    assert!(rt; parse_id(b"7") == Ok(7));
    assert!(rt; parse_id(b"9007199254740992") == Ok(9007199254740992));
    assert!(rt; parse_id(b"9007199254740993") == Err(15));
    assert!(rt; parse_id(b"1.0") == Err(1));
    assert!(rt; parse_id(b"01") == Err(0));
    assert!(rt; parse_id(b"0") == Err(0));
    assert!(rt; parse_id(b"-7") == Err(0));
    assert!(rt; parse_id(b"") == Err(0));
}

/// The integer of a number of JSON, if it is one and fits.
#[tactic(auto, unfolding(lexical_format::proofs::OnLiterals::lexical_on_literals))]
fn signed_id(text: &[u8]) -> Option<i64> {
    parse_number_of::<f64>(text, forms::JSON)
        .ok()?
        .as_integer::<i64>()
}

#[test]
fn a_signed_id_is_an_integer_of_json(rt: HostRuntime) {
    assert!(rt; signed_id(b"-7") == Some(-7));
    assert!(rt; signed_id(b"9223372036854775807") == Some(9223372036854775807));
    assert!(rt; signed_id(b"9223372036854775808").is_none());
    assert!(rt; signed_id(b"1.0").is_none());
    assert!(rt; signed_id(b"1e3").is_none());
    assert!(rt; signed_id(b"01").is_none());
}

#[test]
#[tactic(auto, unfolding(lexical_format::proofs::OnLiterals::lexical_on_literals))]
fn a_call_stops_at_a_separator_that_is_refused(rt: HostRuntime) {
    assert!(rt; read_number::<u32>(b"1__0", PYTHON_LITERAL) == Ok((1, 1)));
    assert!(rt; parse_number::<u32>(b"1__0", PYTHON_LITERAL) == Err(ParseError::Invalid(1)));
    assert!(rt; parse_number_from::<u32>(b"1_000", PYTHON_LITERAL, 1) == Ok(0));
    assert!(rt; parse_number::<u32>(b"_000", PYTHON_LITERAL) == Err(ParseError::Invalid(0)));
}

/// The token that begins a text: as an `i64`, as a float, and where it ends.
fn token(text: &[u8]) -> Result<(Option<i64>, f64, usize), NumberError> {
    let (number, end) = read_token(text, 0)?;
    Ok((number.as_integer::<i64>(), number.to_float(), end))
}

#[test]
fn a_token_of_json_ends_where_one_may_end(rt: HostRuntime) {
    let rows: [(&[u8], i64, f64, usize); 8] = [
        (b"12]", 12, 12.0, 2),
        (b"0", 0, 0.0, 1),
        (b"-7,", -7, -7.0, 2),
        (b"5 ", 5, 5.0, 1),
        (b"5\t", 5, 5.0, 1),
        (b"5\n", 5, 5.0, 1),
        (b"5\r\n", 5, 5.0, 1),
        (b"5}", 5, 5.0, 1),
    ];
    for (text, integer, float, end) in rows {
        let answer = token(text);
        assert!(rt;
            answer == Ok((Some(integer), float, end)),
            "{text:?}: {answer:?}"
        );
    }
}

#[test]
fn a_token_of_json_may_be_a_float(rt: HostRuntime) {
    let rows: [(&[u8], f64, usize); 4] = [
        (b"-1.5e3,", -1500.0, 6),
        (b"1.0", 1.0, 3),
        (b"9223372036854775808", 9223372036854775808.0, 19),
        (b"1e999", f64::INFINITY, 5),
    ];
    for (text, float, end) in rows {
        let answer = token(text);
        assert!(rt; answer == Ok((None, float, end)), "{text:?}: {answer:?}");
    }
}

#[test]
fn what_is_no_token_of_json(rt: HostRuntime) {
    let rows: [(&[u8], NumberError); 9] = [
        (b"01", NumberError::Invalid(1)),
        (b"1.", NumberError::Invalid(1)),
        (b"1.e3", NumberError::Invalid(1)),
        (b"1e", NumberError::Invalid(1)),
        (b"12x", NumberError::Invalid(2)),
        (b"1[", NumberError::Invalid(1)),
        (b".5", NumberError::Empty(0)),
        (b"+1", NumberError::Empty(0)),
        (b"-", NumberError::Empty(1)),
    ];
    for (text, error) in rows {
        let answer = token(text);
        assert!(rt; answer == Err(error), "{text:?}: {answer:?}");
    }
}

#[test]
fn a_row_is_a_line_of_numbers(rt: HostRuntime) {
    let mut row = [0; 3];
    assert!(rt; parse_row(b"12, 7,305", &mut row) == Ok(3));
    assert!(rt; row == [12, 7, 305]);
    assert!(rt; parse_row(b" 1\t, 2 ", &mut row) == Ok(2));
    assert!(rt; row == [1, 2, 305]);
}

/// Why a line is no row of at most three numbers.
static NO_ROWS: [(&[u8], ListError<LiteralError>); 8] = [
    (b"12,,7", ListError::Number(LiteralError::Empty(3))),
    (b"12,7,", ListError::Number(LiteralError::Empty(5))),
    (b"", ListError::Number(LiteralError::Empty(0))),
    (b"12,-7", ListError::Number(LiteralError::Empty(3))),
    (
        b"12,4294967296",
        ListError::Number(LiteralError::Overflow(12)),
    ),
    (b"12, 7,305\r", ListError::Invalid(9)),
    (b"12;7", ListError::Invalid(2)),
    (b"1,2, 3, 4", ListError::NoRoom(8)),
];

#[test]
fn what_is_no_row(rt: HostRuntime) {
    for (text, error) in &NO_ROWS {
        let mut row = [0; 3];
        let answer = parse_row(text, &mut row);
        assert!(rt; answer == Err(*error), "{text:?}: {answer:?}");
    }
}

#[test]
fn a_field_has_cents(rt: HostRuntime) {
    assert!(rt; cents_of_field(b"id,12.5,x", 3, 7) == Ok(1250));
    assert!(rt; cents_of_field(b"id,12.345,x", 3, 9) == Err(ScaledError::TooFine(8)));
    assert!(rt; cents_of_field(b"id,12.5x,y", 3, 8) == Err(ScaledError::Invalid(7)));
}

#[test]
fn a_form_of_ones_own_has_a_comma(rt: HostRuntime) {
    assert!(rt; parse_comma_float(b"1,5e3") == Ok(1500.0));
    assert!(rt; parse_comma_float(b"1,5e3;") == Err(NumberError::Invalid(5)));
    assert!(rt; parse_comma_float(b"-,5") == Ok(-0.5));
    assert!(rt; parse_comma_float(b"1.5") == Err(NumberError::Invalid(1)));
    assert!(rt; parse_comma_float(b"em") == Err(NumberError::Empty(0)));
}

#[test]
fn a_word_of_ones_own_has_points(rt: HostRuntime) {
    assert!(rt; parse_count(b"1.234") == Ok(1234));
    assert!(rt; parse_count(b"1.2.3") == Ok(123));
    assert!(rt; parse_count(b"1.234.") == Err(ParseError::Invalid(5)));
}

#[test]
fn a_number_is_written_in_groups(rt: HostRuntime) {
    let mut out = [0; 10];
    assert!(rt; write_grouped(-1234567, &mut out) == Ok(10));
    assert!(rt; out == *b"-1,234,567");
    assert!(rt; write_grouped(-12345678, &mut out).map_err(|error| error.needed) == Err(11));
}

#[test]
#[tactic(auto, unfolding(lexical_format::proofs::OnLiterals::lexical_on_literals))]
fn an_exponent_without_a_digit(rt: HostRuntime) {
    assert!(rt; read_float::<f64>(b"1em", STANDARD) == Err(FloatError::EmptyExponent(2)));
    assert!(rt; read_number_of::<f64>(b"1em", 0, forms::CSS) == Ok((Number::Float(1.0), 1)));
    assert!(rt; read_number_of::<f64>(b"1em", 0, forms::FLOAT) == Ok((Number::Float(1.0), 1)));
}

#[test]
fn why_a_list_has_no_more_numbers(rt: HostRuntime) {
    let mut four = [0; 4];
    let read = read_ports(b"80, 443;", &mut four);
    assert!(rt; read.count == 2 && read.end == ListEnd::Over(7));
    assert!(rt; four == [80, 443, 0, 0]);
    let read = read_ports(b"80, x", &mut four);
    assert!(rt; read.count == 1 && read.end == ListEnd::Fault(LiteralError::Empty(4)));
    let mut one = [0; 1];
    let read = read_ports(b"80, 443;", &mut one);
    assert!(rt; read.count == 1 && read.end == ListEnd::Full(3));
}

#[test]
#[tactic(auto, unfolding(lexical_format::proofs::OnLiterals::lexical_on_literals))]
fn why_a_column_has_no_more_numbers(rt: HostRuntime) {
    let mut four = [0u16; 4];
    let read = read_list(b"80\n443\n", 0, STANDARD, LINES, &mut four);
    assert!(rt; read.count == 2 && read.end == ListEnd::Over(7));
    let read = read_list(b"80\n\n443\n", 0, STANDARD, LINES, &mut four);
    assert!(rt; read.count == 1 && read.end == ListEnd::Over(3));
}

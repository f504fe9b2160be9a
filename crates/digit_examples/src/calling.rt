//! What CALLING.md says that its functions answer, and a stream.

use digit_uses::calling::{
    COMMA_DIGITS, Field, SEMICOLONS, Typed, field_of, has_port, line_and_column, mean_of,
    parse_address, parse_colors, parse_either, parse_offset, parse_path, parse_price, parse_ranges,
    parse_size, parse_span, parse_timeout, read_array, read_by_form, read_cents, read_date,
    read_point, read_rate, read_suffixed, read_time, sum_lengths, sum_nested, sum_timeouts,
};
use digit_uses::own::{read_color, read_masks};
use digit_uses::proving;
use digit_uses::readme::parse_order;
use digit_uses::sums::sum_list;
use digits::languages::{CXX14, RUST, TOML};
use digits::words::PYTHON_LITERAL;
use digits::{
    Both, BothError, COMMAS, FloatError, FoldError, Form, Integers, LINES, LanguageError, ListEnd,
    ListError, LiteralError, Marks, NoRoom, Number, NumberError, NumberReader, ParseError,
    PriceError, SPACES_IN_LINE, STANDARD, ScaledError, StreamError, forms, parse_float, parse_list,
    parse_number, parse_number_from, parse_number_of, parse_scaled, read_decimal_from,
    read_decimal_of, read_exact_from, read_float, read_float_from, read_grouped_from, read_list_by,
    read_literal_as, read_number, read_number_of, read_optional, read_price_from, read_scaled_from,
    read_scaled_up_to,
};

/// 65 numbers, and so a second turn.
static MANY: &[u8] = b"1,1,1,1,1,1,1,1,1,1,1,1,1,1,1,1,1,1,1,1,1,1,1,1,1,1,1,1,1,1,1,1,1,\
    1,1,1,1,1,1,1,1,1,1,1,1,1,1,1,1,1,1,1,1,1,1,1,1,1,1,1,1,1,1,1,2";

/// A list of any length, through a buffer.
#[test]
fn a_list(rt: HostRuntime) {
    assert!(rt; sum_list(b"1.5, 2, -3]", 0) == Ok((0.5, 10)));
    let error = StreamError::Number(FloatError::Empty(1));
    assert!(rt; sum_list(b"[]", 1) == Err(FoldError::Stream(error)));
    assert!(rt; sum_list(MANY, 0) == Ok((66.0, 129)));
}

/// The same through an array.
#[test]
fn a_list_in_an_array(rt: HostRuntime) {
    assert!(rt; proving::sum_list(b"1.5, 2, -3]", 0) == Ok((0.5, 10)));
    assert!(rt; proving::sum_list(b"[]", 1) == Err(FloatError::Empty(1)));
    assert!(rt; proving::sum_list(MANY, 0) == Ok((66.0, 129)));
}

/// Separators of a line.
#[test]
fn separators(rt: HostRuntime) {
    let kind = Integers::<u32>::new(STANDARD);
    let mut row = [0; 3];
    assert!(rt; parse_list(kind, b"12; 7;305", SEMICOLONS, &mut row) == Ok(3));
    assert!(rt; parse_list(kind, b"12, 7,305\r", COMMAS, &mut row) == Ok(3));
    let line = b"12\r".as_slice();
    let line = line.strip_suffix(b"\r").unwrap_or(line);
    assert!(rt; parse_number::<u32>(line, STANDARD) == Ok(12));
}

/// A stream with a line that is no number.
#[test]
fn a_bad_line(rt: HostRuntime) {
    let mut buffer = [0; 64];
    let kind = Integers::<i64>::new(STANDARD);
    let stream = b"1\n2x\n3\n".as_slice();
    let mut numbers = NumberReader::new(stream, &mut buffer, kind, LINES);
    assert!(rt; numbers.next_number() == Some(Ok(1)));
    assert!(rt; numbers.next_number() == Some(Ok(2)));
    assert!(rt; numbers.next_number() == None);
    assert!(rt; numbers.finish() == Err(StreamError::Trailing(3, Some(LiteralError::Empty(3)))));

    let mut buffer = [0; 64];
    let stream = b"1\n-\n".as_slice();
    let mut numbers = NumberReader::new(stream, &mut buffer, kind, LINES);
    assert!(rt; numbers.next_number() == Some(Ok(1)));
    let fault = StreamError::Number(LiteralError::Empty(3));
    assert!(rt; numbers.next_number() == Some(Err(fault)));
    assert!(rt; numbers.position() == 2);
}

/// The float that a text is by a form.
#[tactic(auto, unfolding(digits::proofs::Literals::lexical_on_literals))]
fn json(text: &[u8]) -> Result<f64, NumberError> {
    Ok(parse_number_of::<f64>(text, forms::JSON)?.to_float())
}

/// The float that a text is by another form.
#[tactic(auto, unfolding(digits::proofs::Literals::lexical_on_literals))]
fn rust(text: &[u8]) -> Result<f64, NumberError> {
    Ok(parse_number_of::<f64>(text, forms::RUST_PARSE)?.to_float())
}

/// What four calls make of a text.
type Row = (
    &'static [u8],
    Result<i32, ParseError>,
    Result<f64, FloatError>,
    Result<f64, NumberError>,
    Result<f64, NumberError>,
);

/// Texts of which the calls make other numbers.
static SURPRISES: [Row; 8] = [
    (b"01", Ok(1), Ok(1.0), Err(NumberError::Invalid(1)), Ok(1.0)),
    (b"+1", Ok(1), Ok(1.0), Err(NumberError::Empty(0)), Ok(1.0)),
    (
        b".5",
        Err(ParseError::Invalid(0)),
        Ok(0.5),
        Err(NumberError::Empty(0)),
        Ok(0.5),
    ),
    (
        b"5.",
        Err(ParseError::Invalid(1)),
        Ok(5.0),
        Err(NumberError::Invalid(1)),
        Ok(5.0),
    ),
    (
        b"1e5",
        Err(ParseError::Invalid(1)),
        Ok(1e5),
        Ok(1e5),
        Ok(1e5),
    ),
    (
        b"1e999",
        Err(ParseError::Invalid(1)),
        Ok(f64::INFINITY),
        Ok(f64::INFINITY),
        Ok(f64::INFINITY),
    ),
    (
        b"1e-999",
        Err(ParseError::Invalid(1)),
        Ok(0.0),
        Ok(0.0),
        Ok(0.0),
    ),
    (
        b"inf",
        Err(ParseError::Invalid(0)),
        Err(FloatError::Empty(0)),
        Err(NumberError::Empty(0)),
        Ok(f64::INFINITY),
    ),
];

/// The table of surprises.
#[test]
fn surprises(rt: HostRuntime) {
    for (text, integer, float, of_json, of_rust) in &SURPRISES {
        assert!(rt; parse_number::<i32>(text, STANDARD) == *integer, "{text:?}");
        assert!(rt; parse_float::<f64>(text, STANDARD) == *float, "{text:?}");
        assert!(rt; json(text) == *of_json, "{text:?}");
        assert!(rt; rust(text) == *of_rust, "{text:?}");
    }
    assert!(rt; read_float::<f64>(b"1em", STANDARD) == Err(FloatError::EmptyExponent(2)));
    let read = read_number_of::<f64>(b"1em", 0, forms::FLOAT);
    assert!(rt; read.map(|(number, end)| (number.to_float(), end)) == Ok((1.0, 1)));
}

/// What four calls make of a text that is no number.
type Faults = (
    &'static [u8],
    Result<i32, ParseError>,
    Result<(i32, usize), LiteralError>,
    Result<f64, FloatError>,
    Result<f64, NumberError>,
);

/// Texts that are no number.
static FAULTS: [Faults; 5] = [
    (
        b"",
        Err(ParseError::Empty(0)),
        Err(LiteralError::Empty(0)),
        Err(FloatError::Empty(0)),
        Err(NumberError::Empty(0)),
    ),
    (
        b"-",
        Err(ParseError::Empty(1)),
        Err(LiteralError::Empty(1)),
        Err(FloatError::Empty(1)),
        Err(NumberError::Empty(1)),
    ),
    (
        b"x",
        Err(ParseError::Invalid(0)),
        Err(LiteralError::Empty(0)),
        Err(FloatError::Empty(0)),
        Err(NumberError::Empty(0)),
    ),
    (
        b"-x",
        Err(ParseError::Invalid(1)),
        Err(LiteralError::Empty(1)),
        Err(FloatError::Empty(1)),
        Err(NumberError::Empty(1)),
    ),
    (
        b"1x",
        Err(ParseError::Invalid(1)),
        Ok((1, 1)),
        Err(FloatError::Invalid(1)),
        Err(NumberError::Invalid(1)),
    ),
];

/// The table of errors, which the reference has, too.
#[test]
fn errors_of_one_number(rt: HostRuntime) {
    assert!(rt; parse_number::<i32>(b"3000000000", STANDARD) == Err(ParseError::Overflow(9)));
    let read = read_number::<i32>(b"3000000000", STANDARD);
    assert!(rt; read == Err(LiteralError::Overflow(9)));
    for (text, whole, front, float, of_json) in &FAULTS {
        assert!(rt; parse_number::<i32>(text, STANDARD) == *whole, "{text:?}");
        assert!(rt; read_number::<i32>(text, STANDARD) == *front, "{text:?}");
        assert!(rt; parse_float::<f64>(text, STANDARD) == *float, "{text:?}");
        assert!(rt; json(text) == *of_json, "{text:?}");
    }
}

/// The float at the front of a text by a form, and where it ends.
#[tactic(auto, unfolding(digits::proofs::Literals::lexical_on_literals))]
fn json_front(text: &[u8]) -> Result<(f64, usize), NumberError> {
    let (number, end) = read_number_of::<f64>(text, 0, forms::JSON)?;
    Ok((number.to_float(), end))
}

/// What three more calls make of a text that is no number.
type MoreFaults = (
    &'static [u8],
    Result<(f64, usize), FloatError>,
    Result<(f64, usize), NumberError>,
    Result<i64, ScaledError>,
);

/// The same texts, by these calls.
static MORE_FAULTS: [MoreFaults; 5] = [
    (
        b"",
        Err(FloatError::Empty(0)),
        Err(NumberError::Empty(0)),
        Err(ScaledError::Empty(0)),
    ),
    (
        b"-",
        Err(FloatError::Empty(1)),
        Err(NumberError::Empty(1)),
        Err(ScaledError::Empty(1)),
    ),
    (
        b"x",
        Err(FloatError::Empty(0)),
        Err(NumberError::Empty(0)),
        Err(ScaledError::Empty(0)),
    ),
    (
        b"-x",
        Err(FloatError::Empty(1)),
        Err(NumberError::Empty(1)),
        Err(ScaledError::Empty(1)),
    ),
    (
        b"1x",
        Ok((1.0, 1)),
        Ok((1.0, 1)),
        Err(ScaledError::Invalid(1)),
    ),
];

/// The rest of that table.
#[test]
fn more_errors_of_one_number(rt: HostRuntime) {
    for (text, float, of_json, amount) in &MORE_FAULTS {
        assert!(rt; read_float::<f64>(text, STANDARD) == *float, "{text:?}");
        assert!(rt; json_front(text) == *of_json, "{text:?}");
        assert!(rt;
            parse_scaled::<i64>(text, STANDARD, b'.', 2) == *amount,
            "{text:?}"
        );
    }
}

/// A loop over a text.
#[test]
fn lengths(rt: HostRuntime) {
    assert!(rt; sum_lengths(b"10px 2.5em") == Ok(12.5));
    assert!(rt; sum_lengths(b" 1px\n2 3%") == Err(NumberError::Invalid(8)));
    assert!(rt; sum_lengths(b"") == Ok(0.0));
    assert!(rt; sum_lengths(b"1px x") == Err(NumberError::Empty(4)));
    assert!(rt; sum_lengths(b"10px2.5em") == Err(NumberError::Invalid(5)));
}

/// What an amount is by each call: the value, or the error.
#[tactic(auto, unfolding(digits::proofs::Literals::lexical_on_literals))]
fn amounts(text: &[u8]) -> [Result<i64, PriceError>; 4] {
    let scaled = read_scaled_from::<i64>(text, COMMA_DIGITS, 0, b'.', 2);
    let exact = read_exact_from::<i64>(text, COMMA_DIGITS, 0, b'.', 2);
    let grouped = read_grouped_from::<i64>(text, COMMA_DIGITS, 0, b'.', 2);
    let price = read_price_from::<i64>(text, COMMA_DIGITS, 0, b'.', 2);
    [
        scaled.map(|read| read.0).map_err(PriceError::Number),
        exact.map(|read| read.0),
        grouped.map(|read| read.0),
        price.map(|read| read.0),
    ]
}

/// The table of amounts.
#[test]
fn amounts_and_prices(rt: HostRuntime) {
    let places = |at: usize| Err(PriceError::Places(at));
    let group = Err(PriceError::Group(3));
    let fine = Err(PriceError::Number(ScaledError::TooFine(5)));
    let all = Ok(123450);
    assert!(rt; amounts(b"1,234.50") == [all, all, all, all]);
    assert!(rt; amounts(b"12.5") == [Ok(1250), places(4), Ok(1250), places(4)]);
    assert!(rt; amounts(b"12.500") == [Ok(1250), places(6), Ok(1250), places(6)]);
    assert!(rt; amounts(b"12,34.50") == [all, all, group, group]);
    let large = Err(PriceError::Group(0));
    assert!(rt; amounts(b"1234.50") == [all, all, large, large]);
    assert!(rt; amounts(b"1234.5") == [all, places(6), large, large]);
    assert!(rt; amounts(b"12.345") == [fine, fine, fine, fine]);
}

/// A whole price, and a list that is opened.
#[test]
fn a_price_and_a_port(rt: HostRuntime) {
    assert!(rt; parse_price(b"1,234.50") == Ok(123450));
    let other = ScaledError::Invalid(8);
    assert!(rt; parse_price(b"1,234.50x") == Err(PriceError::Number(other)));
    assert!(rt; has_port(b"80, 443", 443) == Ok(true));
    assert!(rt; has_port(b"80, 443", 22) == Ok(false));
    let missing = ListError::Number(LiteralError::Empty(4));
    assert!(rt; has_port(b"80, x", 80) == Err(missing));
    assert!(rt; has_port(b"80, 443;", 443) == Err(ListError::Invalid(7)));
    let ones = b"1,1,1,1,1,1,1,1,1,1,1,1,1,1,1,1,1";
    assert!(rt; has_port(ones, 443) == Err(ListError::NoRoom(32)));
}

/// The line and the column of a position.
#[test]
fn a_line_and_a_column(rt: HostRuntime) {
    assert_eq!(rt; line_and_column(b"1\n2x", 3), (2, 2));
    assert_eq!(rt; line_and_column(b"1\n2x", 0), (1, 1));
    assert_eq!(rt; line_and_column(b"1\n2x\n", 5), (3, 1));
}

/// The byte before a start is looked at.
#[test]
#[tactic(auto, unfolding(digits::proofs::Literals::lexical_on_literals))]
fn a_separator_at_a_start(rt: HostRuntime) {
    let from_1 = parse_number_from::<u64>(b"1_000", PYTHON_LITERAL, 1);
    assert!(rt; from_1 == Ok(0));
    let alone = parse_number::<u64>(b"_000", PYTHON_LITERAL);
    assert!(rt; alone == Err(ParseError::Invalid(0)));
}

/// An array into a slice.
#[test]
fn an_array_into_a_slice(rt: HostRuntime) {
    let mut out = [Number::Float(0.0); 3];
    assert!(rt; read_array(b"[1, 2.5], 3", &mut out) == Ok((2, 8)));
    assert!(rt; out[0].to_float() == 1.0 && out[1].to_float() == 2.5);
}

/// A rate, and the position of its fault.
#[test]
fn a_rate(rt: HostRuntime) {
    assert!(rt; read_rate(b"rate=12.5%;") == Ok((125, 11)));
    assert!(rt; read_rate(b"rate=12.55%;") == Err(9));
    assert!(rt; read_rate(b"rate=12.5;") == Err(9));
    assert!(rt; read_rate(b"race=12.5%;") == Err(0));
}

/// A language of one's own, and prefixes without a digit.
#[test]
fn prefixes(rt: HostRuntime) {
    assert!(rt; read_color(b"0xff_ff;") == Ok((65535, 7)));
    assert!(rt; read_color(b"0b1") == Ok((0, 1)));
    assert!(rt; read_color(b"0x") == Err(LanguageError::Empty(2)));
    assert!(rt; read_literal_as::<u8>(b"0xg", 0, RUST) == Err(LanguageError::Empty(2)));
    let read = read_number_of::<f64>(b"0xg", 0, forms::RUST);
    assert!(rt; read.map(|(number, end)| (number.as_integer::<u8>(), end)) == Ok((Some(0), 1)));
}

/// An amount that is a number of JSON.
#[test]
fn cents_of_json(rt: HostRuntime) {
    assert!(rt; read_cents(b"12.5,", 0) == Some((1250, 4)));
    assert!(rt; read_cents(b"[-0.05]", 1) == Some((-5, 6)));
    assert!(rt; read_cents(b"12.500", 0) == Some((1250, 6)));
    assert!(rt; read_cents(b"1_0", 0) == Some((100, 1)));
    for text in ["1e2", "12.505", ".5", "5.", "+1", ""] {
        assert!(rt; read_cents(text.as_bytes(), 0) == None, "{text}");
    }
}

/// Literals with a suffix, and without one.
#[test]
fn values(rt: HostRuntime) {
    for (text, value, end) in [
        ("1_000;", Typed::Integer(1000), 5),
        ("0xff+1", Typed::Integer(255), 4),
        ("1.5e3", Typed::Double(1500.0), 5),
        ("0x1F_u8", Typed::Byte(31), 7),
        ("1f64", Typed::Double(1.0), 4),
        ("1.5_f32)", Typed::Single(1.5), 7),
        ("1..2", Typed::Integer(1), 1),
        ("16777217f32", Typed::Single(16777216.0), 11),
    ] {
        assert!(rt;
            read_suffixed(text.as_bytes(), 0) == Ok((value, end)),
            "{text}"
        );
    }
    assert!(rt; read_suffixed(b"=7;", 1) == Ok((Typed::Integer(7), 2)));
    for (text, fault) in [
        ("1_u16", 2),
        ("256u8", 0),
        ("1.5u8", 0),
        ("12ab", 2),
        ("0b12", 3),
        ("0xfg", 3),
        ("x", 0),
        ("", 0),
    ] {
        assert!(rt; read_suffixed(text.as_bytes(), 0) == Err(fault), "{text}");
    }
}

/// A key, a number and a unit.
#[test]
fn a_line_with_a_unit(rt: HostRuntime) {
    assert!(rt; parse_timeout(b"timeout = 250 ms") == Ok(250));
    assert!(rt; parse_timeout(b" timeout=2s") == Ok(2000));
    assert!(rt; parse_timeout(b"timeout = 250 h") == Err(14));
    assert!(rt; parse_timeout(b"timeout = ms") == Err(10));
    assert!(rt; parse_timeout(b"timeout = 99999999999999999999 s") == Err(29));
    assert!(rt; parse_timeout(b"timeout = 9999999999999999999 s") == Err(10));
}

/// What a field has.
#[test]
fn a_field(rt: HostRuntime) {
    let rows: [(&[u8], Field); 7] = [
        (b"", Field::Empty),
        (b"x", Field::NoNumber(0)),
        (b"-1", Field::NoNumber(0)),
        (b"300", Field::TooLarge(2)),
        (b"300x", Field::TooLarge(2)),
        (b"30x", Field::Trailing(2)),
        (b"255", Field::Value(255)),
    ];
    for (text, expected) in rows {
        assert!(rt; field_of(text) == expected, "{text:?}");
    }
}

/// Amounts with groups and without them.
#[test]
fn either_amount(rt: HostRuntime) {
    for text in ["1,234.5", "1234.5", "1234.50"] {
        assert!(rt; parse_either(text.as_bytes()) == Some(123450), "{text}");
    }
    for text in ["12,34.5", "1234,5.0", "1234.5x", "1,234.505", ""] {
        assert!(rt; parse_either(text.as_bytes()) == None, "{text}");
    }
}

/// Parts of a duration, each of which may be missing.
#[test]
fn durations(rt: HostRuntime) {
    assert_eq!(rt; parse_span(b"1h30m5s"), Ok(5405));
    assert_eq!(rt; parse_span(b"30m"), Ok(1800));
    assert_eq!(rt; parse_span(b"4294967295h"), Ok(15461882262000));
    for (text, fault) in [
        ("", 0),
        ("x", 0),
        ("5", 0),
        ("1h5x", 2),
        ("5s1h", 2),
        ("4294967296s", 9),
    ] {
        assert!(rt; parse_span(text.as_bytes()) == Err(fault), "{text}");
    }
}

/// A host, and a port that may be missing.
#[test]
fn addresses(rt: HostRuntime) {
    assert_eq!(rt; parse_address(b"example.org:8080"), Ok((11, 8080)));
    assert_eq!(rt; parse_address(b"example.org"), Ok((11, 443)));
    assert_eq!(rt; parse_address(b""), Ok((0, 443)));
    for (text, fault) in [
        ("example.org:x", 12),
        ("example.org:", 12),
        ("a:0", 2),
        ("a:65536", 6),
        ("a:80/", 4),
        ("[::]", 2),
    ] {
        assert!(rt; parse_address(text.as_bytes()) == Err(fault), "{text}");
    }
}

/// Sizes with a unit and a fraction, which are exact.
#[test]
fn sizes(rt: HostRuntime) {
    for (text, size) in [
        ("512", 512),
        ("4KiB", 4096),
        ("1.5KiB", 1536),
        ("1.5MB", 1500000),
        ("0.000000001GB", 1),
        ("18446744073709551615B", u64::MAX),
    ] {
        assert!(rt; parse_size(text.as_bytes()) == Ok(size), "{text}");
    }
    for (text, fault) in [
        ("1.5B", 0),
        ("18446744073709551616", 0),
        ("1.5X", 3),
        ("1EB", 1),
        ("-1", 0),
        ("", 0),
    ] {
        assert!(rt; parse_size(text.as_bytes()) == Err(fault), "{text}");
    }
    assert!(rt; read_decimal_from(b"1EB", STANDARD, 0) == Err(FloatError::EmptyExponent(2)));
    assert!(rt; read_decimal_of(b"1EB", 0, forms::DECIMAL).is_ok_and(|read| read.1 == 1));
}

/// Colours, into a slice.
#[test]
fn colors(rt: HostRuntime) {
    let mut out = [0; 2];
    assert_eq!(rt; parse_colors(b" #ff8800, #00ff00\n", &mut out), Ok(2));
    assert_eq!(rt; out, [0xff8800, 0x00ff00]);
    assert_eq!(rt; parse_colors(b"#123456", &mut out), Ok(1));
    for (text, fault) in [
        ("", 0),
        ("ff8800", 0),
        ("#ff88", 5),
        ("#ff8800 #00ff00", 8),
        ("#ff8800,", 8),
        ("#000001, #000002, #000003", 18),
    ] {
        assert!(rt;
            parse_colors(text.as_bytes(), &mut out) == Err(fault),
            "{text}"
        );
    }
}

/// Ranges, which are pairs.
#[test]
fn ranges(rt: HostRuntime) {
    let mut out = [(0, 0); 2];
    assert_eq!(rt; parse_ranges(b"bytes=0-499,1000-1499", &mut out), Ok(2));
    assert_eq!(rt; out, [(0, 499), (1000, 1499)]);
    assert_eq!(rt; parse_ranges(b"bytes=1-2", &mut out), Ok(1));
    for (text, fault) in [
        ("", 0),
        ("byte=1-2", 0),
        ("bytes=1", 7),
        ("bytes=1-x", 8),
        ("bytes=1-2;", 9),
        ("bytes=1-2,", 10),
        ("bytes=1-2,3-4,5-6", 14),
    ] {
        assert!(rt;
            parse_ranges(text.as_bytes(), &mut out) == Err(fault),
            "{text}"
        );
    }
    let side = Integers::<u64>::new(STANDARD);
    let pairs = Both {
        first: side,
        between: b',',
        second: side,
    };
    let list = read_list_by(pairs, b"1,2,3,4", 0, COMMAS, &mut out);
    assert_eq!(rt; (list.count, list.end), (2, ListEnd::Over(7)));
    assert_eq!(rt; out, [(1, 2), (3, 4)]);
}

/// Literals of C++, whose separator is no byte of a name.
#[test]
#[tactic(auto, unfolding(digits::proofs::Literals::lexical_on_literals))]
fn literals_of_cxx(rt: HostRuntime) {
    for (text, value, end) in [
        ("1'000u", 1000, 5),
        ("017", 15, 3),
        ("08", 0, 1),
        ("0b1", 1, 3),
        ("1''0", 1, 1),
    ] {
        assert!(rt;
            read_literal_as::<u64>(text.as_bytes(), 0, CXX14) == Ok((value, end)),
            "{text}"
        );
    }
}

/// A list that fills its slice, and has a blank after it.
#[test]
fn a_full_row(rt: HostRuntime) {
    let mut out = [0; 2];
    let kind = Integers::<u8>::new(STANDARD);
    assert_eq!(rt; parse_list(kind, b"1 2 ", SPACES_IN_LINE, &mut out), Ok(2));
    assert_eq!(rt; parse_list(kind, b"1 2  ", SPACES_IN_LINE, &mut out), Ok(2));
    assert_eq!(rt;
        parse_list(kind, b"1 2 3", SPACES_IN_LINE, &mut out),
        Err(ListError::NoRoom(4))
    );
}

/// Lines with a key, a number and a unit.
#[test]
fn lines_of_timeouts(rt: HostRuntime) {
    assert_eq!(rt;
        sum_timeouts(b"timeout = 1 s\r\n\ntimeout = 250 ms\n"),
        Ok(1250)
    );
    assert_eq!(rt;
        sum_timeouts(b"timeout = 1 s\ntimeout = 250 h\n"),
        Err((2, 15))
    );
    assert_eq!(rt;
        sum_timeouts(b"timeout = 18446744073709551615ms\ntimeout=1ms"),
        Err((2, 1))
    );
    assert_eq!(rt; sum_timeouts(b""), Ok(0));
    assert!(rt; parse_timeout(b"timeout = 1 ms \t") == Ok(1));
    assert!(rt; parse_timeout(b"timeout = 1 ms,") == Err(14));
}

/// The mean of a stream.
#[test]
fn a_mean(rt: HostRuntime) {
    assert!(rt; mean_of(b"1\n2.5\n".as_slice()) == Ok(Some(1.75)));
    assert!(rt; mean_of(b"".as_slice()) == Ok(None));
    let fault = mean_of(b"1\n\n2\n".as_slice());
    assert!(rt; fault.is_err_and(|error| error.position() == Some(2)));
}

/// A line of README.
#[test]
fn a_row_of_the_readme(rt: HostRuntime) {
    assert!(rt; parse_order(b"17,12.50") == Ok((17, 1250)));
    for (text, fault) in [
        ("17,12.5x", 7),
        ("17;1", 2),
        ("x", 0),
        ("17,", 3),
        ("17,1.005", 7),
    ] {
        assert!(rt; parse_order(text.as_bytes()) == Err(fault), "{text}");
    }
}

/// Hexadecimal digits, with a prefix and without one.
#[test]
fn masks(rt: HostRuntime) {
    let mut out = [0; 4];
    let list = read_masks(b"ff, 0x1f, 1'000, 0b1;", &mut out);
    assert_eq!(rt; (list.count, list.end), (4, ListEnd::Over(20)));
    assert_eq!(rt; out, [255, 31, 4096, 0xb1]);
}

/// Literals with a sign.
#[test]
fn offsets(rt: HostRuntime) {
    for (text, value) in [
        ("127", 127),
        ("-128", -128),
        ("-0x7f", -127),
        ("0b1", 1),
        ("-0", 0),
    ] {
        assert!(rt; parse_offset(text.as_bytes()) == Ok(value), "{text}");
    }
    for (text, fault) in [
        ("128", 2),
        ("-129", 3),
        ("0xff", 3),
        ("--1", 1),
        ("-", 1),
        ("", 0),
        ("1_u8", 2),
    ] {
        assert!(rt; parse_offset(text.as_bytes()) == Err(fault), "{text}");
    }
}

/// Dates, and times.
#[test]
fn dates_and_times(rt: HostRuntime) {
    assert_eq!(rt; read_date(b"2026-11-30,", 0), Ok(((2026, 11, 30), 10)));
    assert_eq!(rt; read_date(b"on 2024-02-29", 3), Ok(((2024, 2, 29), 13)));
    assert_eq!(rt; read_date(b"2000-02-29", 0), Ok(((2000, 2, 29), 10)));
    for (text, fault) in [
        ("2026-13-01", 5),
        ("2026-00-01", 5),
        ("2026-02-29", 8),
        ("1900-02-29", 8),
        ("2026-04-31", 8),
        ("2026-01-00", 8),
        ("2026-1-01", 6),
        ("2026/01/01", 4),
        ("202", 3),
    ] {
        assert!(rt; read_date(text.as_bytes(), 0) == Err(fault), "{text}");
    }
    assert_eq!(rt; read_time(b"12:05:09", 0), Ok((43509, 8)));
    assert_eq!(rt; read_time(b"T23:59:59Z", 1), Ok((86399, 9)));
    for (text, fault) in [
        ("12:60:00", 3),
        ("24:00:00", 0),
        ("1:00:00", 1),
        ("12:00", 5),
    ] {
        assert!(rt; read_time(text.as_bytes(), 0) == Err(fault), "{text}");
    }
}

/// Arrays in arrays.
#[test]
fn nested_arrays(rt: HostRuntime) {
    for (text, sum) in [
        ("[[1, 2.5], [], 3]", 6.5),
        (" [ [ [1e1] ] ] \n", 10.0),
        ("[]", 0.0),
        ("7", 7.0),
    ] {
        assert!(rt; sum_nested(text.as_bytes()) == Ok(sum), "{text}");
    }
    for (text, fault) in [
        ("", 0),
        ("]", 0),
        ("[1,]", 3),
        ("[,1]", 1),
        ("[1 2]", 3),
        ("[[1]", 4),
        ("[1]]", 3),
        ("[1],2", 3),
        ("[01]", 2),
        ("[x]", 1),
    ] {
        assert!(rt; sum_nested(text.as_bytes()) == Err(fault), "{text}");
    }
}

/// A form that only run time knows.
#[test]
fn by_any_form(rt: HostRuntime) {
    let one = read_by_form(b"1_000u;", 0, forms::RUST);
    assert!(rt; one.is_some_and(|read| read.0.as_integer::<u16>() == Some(1000)));
    assert!(rt; one.is_some_and(|read| (read.1, read.2) == (5, 6)));
    assert!(rt; read_by_form(b"x", 0, forms::RUST).is_none());
    let no_form = Form {
        marks: Marks {
            point: b'1',
            exponent: b'e',
        },
        ..forms::RUST
    };
    assert!(rt; read_by_form(b"1", 0, no_form).is_none());
}

/// Points of a document.
#[test]
fn paths(rt: HostRuntime) {
    assert!(rt; read_point(b"[1.5, 2] ", 0) == Ok(([1.5, 2.0], 9)));
    let mut out = [[0.0; 2]; 2];
    assert!(rt; parse_path(b"[[1.5, 2], [3, 4]]", &mut out) == Ok(2));
    assert!(rt; out == [[1.5, 2.0], [3.0, 4.0]]);
    assert!(rt; parse_path(b" [ [-1e3 ,0.5 ] ]\n", &mut out) == Ok(1));
    assert!(rt; out == [[-1000.0, 0.5], [3.0, 4.0]]);
    for (text, fault) in [
        ("", 0),
        ("[]", 1),
        ("[[1,x]]", 4),
        ("[[1]]", 3),
        ("[[1,2,3]]", 5),
        ("[[1,2] [3,4]]", 7),
        ("[[1,2]] x", 8),
        ("[[1,2],[3,4],[5,6]]", 13),
        ("[[1,2]", 6),
        ("[[01,2]]", 3),
    ] {
        assert!(rt;
            parse_path(text.as_bytes(), &mut out) == Err(fault),
            "{text}"
        );
    }
}

/// What the reference says beside its examples.
#[test]
#[tactic(auto, unfolding(digits::proofs::Literals::lexical_on_literals))]
fn rare_texts(rt: HostRuntime) {
    assert!(rt; read_literal_as::<u8>(b"0_1", 0, TOML) == Err(LanguageError::Zero(0)));
    let toml = read_number_of::<f64>(b"-0x1f", 0, forms::TOML);
    assert!(rt; toml.is_ok_and(|read| read.0.as_integer::<i8>() == Some(0) && read.1 == 2));
    let side = Integers::<u64>::new(STANDARD);
    let pair = Both {
        first: side,
        between: b'x',
        second: side,
    };
    assert!(rt; read_optional(pair, b"640 x 480", 0) == Err(BothError::Between(3)));
    for (text, amount, end) in [("12.", 120, 3), (".5", 5, 2), ("1.50", 15, 4)] {
        let read = read_scaled_up_to(text.as_bytes(), STANDARD, 0, b'.', 1, 1000);
        assert!(rt; read == Ok((amount, end)), "{text}");
    }
    let signed = read_scaled_up_to(b"-1", STANDARD, 0, b'.', 1, 1000);
    assert!(rt; signed == Err(ScaledError::Empty(0)));
    let text = b"3.5.2";
    assert!(rt; read_float::<f64>(text, STANDARD) == Ok((3.5, 3)));
    assert!(rt; read_float_from::<f64>(text, STANDARD, 3) == Ok((0.2, 5)));
}

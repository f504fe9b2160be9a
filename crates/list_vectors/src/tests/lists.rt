//! Lists of every kind, a number or none, and prices, one and many, by worked rows.

use digit_amounts::{
    PriceError, ScaledError, read_exact_from, read_grouped_from, read_price_from, wrong_group,
};
use digit_floats::FloatError;
use digit_languages::LanguageError;
use digit_languages::languages::PYTHON;
use digit_lists::laws::a_list_by_goes_on;
use digit_lists::{
    EnclosedError, ListError, NoNumber, parse_list, read_enclosed, read_list_by, read_optional,
};
use digit_literals::{COMMAS, COMMAS_IN_LINE, Gap, LINES, ListEnd, LiteralError, WHITESPACE};
use digit_numbers::{Number, NumberError, forms};
use digit_pieces::{
    Both, BothError, BracketError, Enclosed, Floats, Integers, Kind, OfForm, OfLanguage, PieceEnd,
    Prices, Scaled, read_piece,
};
use digit_streams::{NumberReader, StreamError};
use lexical_format::words::PYTHON_LITERAL;
use lexical_format::{INTEGER_INTERNAL_DIGIT_SEPARATOR, STANDARD};

/// Radix 10, and `,` between digits of the integer.
const GROUPS: u128 = (10 << 104) | (0x2c << 64) | INTEGER_INTERNAL_DIGIT_SEPARATOR;

/// A text, what is between its numbers, and what it is as a list of up to three.
type Row = (&'static [u8], Gap, Result<usize, ListError<LiteralError>>);

static LISTS: [Row; 24] = [
    (b"1,2,3", COMMAS, Ok(3)),
    (b" 1 ,\n2 ", COMMAS, Ok(2)),
    (b"7", COMMAS, Ok(1)),
    (b"", COMMAS, Err(ListError::Number(LiteralError::Empty(0)))),
    (
        b"  ",
        COMMAS,
        Err(ListError::Number(LiteralError::Empty(2))),
    ),
    (
        b"1,",
        COMMAS,
        Err(ListError::Number(LiteralError::Empty(2))),
    ),
    (
        b"1,2,3,",
        COMMAS,
        Err(ListError::Number(LiteralError::Empty(6))),
    ),
    (
        b"1,2,3,x",
        COMMAS,
        Err(ListError::Number(LiteralError::Empty(6))),
    ),
    (b"1,2,3,4", COMMAS, Err(ListError::NoRoom(6))),
    (b"1,2,3, 4,x", COMMAS, Err(ListError::NoRoom(7))),
    (b"1,2]", COMMAS, Err(ListError::Invalid(3))),
    (b"1 2", COMMAS, Err(ListError::Invalid(2))),
    (
        b"1,300,x",
        COMMAS,
        Err(ListError::Number(LiteralError::Overflow(4))),
    ),
    (b"1\n2", COMMAS_IN_LINE, Err(ListError::Invalid(1))),
    (b"", LINES, Ok(0)),
    (b"1\n2\n3\n", LINES, Ok(3)),
    (b"1\r\n2", LINES, Ok(2)),
    (b"1\n\n2", LINES, Err(ListError::Invalid(2))),
    (b"1\n2\n3\n4\n", LINES, Err(ListError::NoRoom(6))),
    (b" \n\t", WHITESPACE, Ok(0)),
    (b"1 2\n3 \n", WHITESPACE, Ok(3)),
    (b"1 2 3 4", WHITESPACE, Err(ListError::NoRoom(6))),
    (b"1 2 3 ;", WHITESPACE, Err(ListError::Invalid(6))),
    (b"1 ;", WHITESPACE, Err(ListError::Invalid(2))),
];

#[test]
#[tactic(auto, unfolding(lexical_format::proofs::OnLiterals::lexical_on_literals))]
fn a_whole_text_is_a_list(rt: HostRuntime) {
    for &(text, gap, wanted) in &LISTS {
        let mut out = [0u8; 3];
        let read = parse_list(Integers::<u8>::new(STANDARD), text, gap, &mut out);
        assert!(rt; read == wanted, "{text:?}: {read:?}");
    }
}

#[test]
#[tactic(auto, unfolding(lexical_format::proofs::OnLiterals::lexical_on_literals))]
fn a_row_of_each_kind(rt: HostRuntime) {
    let mut heights = [9i32; 4];
    let row = parse_list(
        Integers::<i32>::new(PYTHON_LITERAL),
        b"-1_000, 20",
        COMMAS,
        &mut heights,
    );
    assert!(rt; row == Ok(2) && heights == [-1000, 20, 9, 9], "{row:?}");
    let mut rates = [0.0f64; 2];
    let row = parse_list(
        Floats::<f64>::new(STANDARD),
        b"1.5,-2e3",
        COMMAS,
        &mut rates,
    );
    assert!(rt; row == Ok(2) && rates == [1.5, -2000.0], "{row:?}");
    let mut cents = [0i64; 3];
    let row = parse_list(
        Scaled::<i64>::new(STANDARD, b'.', 2),
        b"1.5,2,0.25",
        COMMAS_IN_LINE,
        &mut cents,
    );
    assert!(rt; row == Ok(3) && cents == [150, 200, 25], "{row:?}");
    let mut numbers = [Number::Float(0.0f64); 2];
    let row = parse_list(OfForm::<f64>::new(forms::JSON), b"01", COMMAS, &mut numbers);
    assert!(rt; row == Err(ListError::Invalid(1)), "{row:?}");
    let mut none: [u8; 0] = [];
    let row = parse_list(Integers::<u8>::new(STANDARD), b"", LINES, &mut none);
    assert!(rt; row == Ok(0));
    let row = parse_list(Integers::<u8>::new(STANDARD), b" 1", LINES, &mut none);
    assert!(rt; row == Err(ListError::NoRoom(1)));
    let mut three = [0u8; 3];
    let read = read_list_by(
        Integers::<u8>::new(STANDARD),
        b"1, 2;",
        0,
        COMMAS,
        &mut three,
    );
    assert!(rt; read.count == 2 && read.end == ListEnd::Over(4) && three == [1, 2, 0]);
}

/// A list of a kind that is read by its ends, into 64 places.
#[test]
#[tactic(auto, unfolding(lexical_format::proofs::OnLiterals::lexical_on_literals))]
fn long_lists_of_a_kind(rt: HostRuntime) {
    let text =
        b"100000000000000001,200000000000000002,300000000000000003,400000000000000004,500000000000000005,6]";
    let kind = Integers::<i64>::new(STANDARD);
    let mut out = [0; 64];
    let read = read_list_by(kind, text, 0, COMMAS, &mut out);
    assert!(rt;
        read.count == 6 && read.end == ListEnd::Over(96),
        "{read:?}"
    );
    assert!(rt; out[0] == 100_000_000_000_000_001 && out[5] == 6 && out[6] == 0);
    let row = parse_list(kind, &text[..94], COMMAS, &mut out);
    assert!(rt;
        row == Ok(5) && out[4] == 500_000_000_000_000_005,
        "{row:?}"
    );
    let row = parse_list(kind, text, COMMAS, &mut out);
    assert!(rt; row == Err(ListError::Invalid(96)), "{row:?}");
}

/// A text, and its list by JSON's grammar from 1 on, of up to two numbers.
type Array = (
    &'static [u8],
    Result<(usize, usize), EnclosedError<NumberError>>,
);

static ARRAYS: [Array; 15] = [
    (b":[1, 2.5];", Ok((2, 9))),
    (b":[ 1\n]", Ok((1, 6))),
    (b":[]", Ok((0, 3))),
    (b":[ \n ]]", Ok((0, 6))),
    (b":", Err(EnclosedError::NoOpening(1))),
    (b": [1]", Err(EnclosedError::NoOpening(1))),
    (b":[1 2]", Err(EnclosedError::NoClosing(4))),
    (b":[1", Err(EnclosedError::NoClosing(3))),
    (b":[1}", Err(EnclosedError::NoClosing(3))),
    (b":[1,]", Err(EnclosedError::Number(NumberError::Empty(4)))),
    (b":[,1]", Err(EnclosedError::Number(NumberError::Empty(2)))),
    (b":[", Err(EnclosedError::Number(NumberError::Empty(2)))),
    (b":[x]", Err(EnclosedError::Number(NumberError::Empty(2)))),
    (b":[1,2,3]", Err(EnclosedError::NoRoom(6))),
    (
        b":[1,2,]",
        Err(EnclosedError::Number(NumberError::Empty(6))),
    ),
];

#[test]
#[tactic(auto, unfolding(lexical_format::proofs::OnLiterals::lexical_on_literals))]
fn an_array_of_json(rt: HostRuntime) {
    for &(text, wanted) in &ARRAYS {
        let mut out = [Number::Float(0.0f64); 2];
        let json = OfForm::<f64>::new(forms::JSON);
        let read = read_enclosed(json, text, 1, b'[', COMMAS, b']', &mut out);
        assert!(rt; read == wanted, "{text:?}: {read:?}");
    }
}

#[test]
#[tactic(auto, unfolding(lexical_format::proofs::OnLiterals::lexical_on_literals))]
fn a_vector_with_blanks_between(rt: HostRuntime) {
    let kind = Floats::<f64>::new(STANDARD);
    let mut out = [0.0; 2];
    let read = read_enclosed(kind, b"v=(1.5 -2 ) ", 2, b'(', WHITESPACE, b')', &mut out);
    assert!(rt; read == Ok((2, 11)) && out == [1.5, -2.0], "{read:?}");
    let read = read_enclosed(kind, b"( 1.5e )", 0, b'(', WHITESPACE, b')', &mut out);
    assert!(rt;
        read == Err(EnclosedError::Number(FloatError::EmptyExponent(6))),
        "{read:?}"
    );
    let read = read_enclosed(kind, b"()", 0, b'(', WHITESPACE, b')', &mut out);
    assert!(rt; read == Ok((0, 2)));
    let read = read_enclosed(kind, b"(", 9, b'(', WHITESPACE, b')', &mut out);
    assert!(rt; read == Err(EnclosedError::NoOpening(9)));
}

/// Prices in quotes: a whole text, a field that may be empty, and an array.
#[test]
#[tactic(auto, unfolding(lexical_format::proofs::OnLiterals::lexical_on_literals))]
fn prices_in_quotes(rt: HostRuntime) {
    let quoted = Enclosed {
        opening: b'"',
        kind: Scaled::<i64>::new(STANDARD, b'.', 2),
        closing: b'"',
    };
    let mut cents = [0; 2];
    let read = read_enclosed(
        quoted,
        b"[\"1.50\", \"2\"]",
        0,
        b'[',
        COMMAS,
        b']',
        &mut cents,
    );
    assert!(rt; read == Ok((2, 13)) && cents == [150, 200], "{read:?}");
    let read = parse_list(quoted, b"\"1.50\",\"2.x\"", COMMAS, &mut cents);
    let error = ListError::Number(BracketError::NoClosing(10));
    assert!(rt; read == Err(error) && error.position() == 10, "{read:?}");
    let error = BracketError::Number(ScaledError::TooFine(5));
    assert!(rt; read_optional(quoted, b"\"1.505\"", 0) == Err(error));
    assert!(rt; error.fault_at() == 5 && !error.is_empty());
    assert!(rt; read_optional(quoted, b",", 0) == Ok(None));
}

#[test]
#[tactic(auto, unfolding(lexical_format::proofs::OnLiterals::lexical_on_literals))]
fn a_number_that_is_too_large_ends_no_list(rt: HostRuntime) {
    // with two places 3 is 300
    let small = Scaled::<u8>::new(STANDARD, b'.', 2);
    let too_large = ScaledError::TooLarge(2);
    let text = b"1\n3\n2\n";
    let mut out = [0u8; 3];
    let read = read_list_by(small, text, 0, LINES, &mut out);
    assert!(rt;
        read.count == 1 && read.end == ListEnd::Fault(too_large),
        "{read:?}"
    );
    let read = read_piece(small, text, 0, LINES, true, &mut out);
    assert!(rt;
        read.count == 1 && read.end == PieceEnd::Fault(too_large),
        "{read:?}"
    );
    let row = parse_list(small, text, LINES, &mut out[..1]);
    assert!(rt; row == Err(ListError::Number(too_large)), "{row:?}");
    let mut buffer = [0; 8];
    let mut numbers = NumberReader::new(text.as_slice(), &mut buffer, small, LINES);
    assert!(rt; numbers.next_number() == Some(Ok(100)));
    assert!(rt; numbers.next_number() == Some(Err(StreamError::Number(too_large))));
    let both = Both {
        first: small,
        between: b':',
        second: small,
    };
    let read = read_list_by(both, b"1:1\n3:1\n", 0, LINES, &mut [(0, 0); 3]);
    let end = ListEnd::Fault(BothError::First(ScaledError::TooLarge(4)));
    assert!(rt; read.count == 1 && read.end == end, "{read:?}");
    // no number begins with a letter
    let read = read_list_by(small, b"1\nx", 0, LINES, &mut out);
    assert!(rt; read.count == 1 && read.end == ListEnd::Over(2), "{read:?}");
}

#[test]
#[tactic(auto, unfolding(lexical_format::proofs::OnLiterals::lexical_on_literals))]
fn a_number_that_is_refused_ends_no_list(rt: HostRuntime) {
    let literals = OfLanguage::<u8>::new(PYTHON);
    let mut out = [0u8; 3];
    let read = read_list_by(literals, b"5 01 7", 0, WHITESPACE, &mut out);
    let zero = ListEnd::Fault(LanguageError::Zero(2));
    assert!(rt; read.count == 1 && read.end == zero, "{read:?}");
    let read = read_list_by(literals, b"5 x", 0, WHITESPACE, &mut out);
    assert!(rt; read.count == 1 && read.end == ListEnd::Over(2), "{read:?}");
    let mut cents = [0i64; 3];
    let grouped = Prices::<i64>::grouped(GROUPS, b'.', 2);
    let row = parse_list(grouped, b"1,234\n1234\n", LINES, &mut cents);
    assert!(rt;
        row == Err(ListError::Number(PriceError::Group(6))),
        "{row:?}"
    );
}

#[test]
#[tactic(auto, unfolding(lexical_format::proofs::OnLiterals::lexical_on_literals))]
fn a_number_or_none(rt: HostRuntime) {
    let small = Integers::<i8>::new(STANDARD);
    assert!(rt; read_optional(small, b"x=-12;", 2) == Ok(Some((-12, 5))));
    assert!(rt; read_optional(small, b"x=-12;", 5) == Ok(None));
    assert!(rt; read_optional(small, b"", 0) == Ok(None));
    assert!(rt; read_optional(small, b" 1", 0) == Ok(None));
    assert!(rt; read_optional(small, b"-;", 0) == Err(LiteralError::Empty(1)));
    assert!(rt; read_optional(small, b"200", 0) == Err(LiteralError::Overflow(2)));
    let rate = Floats::<f64>::new(STANDARD);
    assert!(rt; read_optional(rate, b"rate=;", 5) == Ok(None));
    assert!(rt; read_optional(rate, b".5", 0) == Ok(Some((0.5, 2))));
    assert!(rt; read_optional(rate, b".", 0) == Err(FloatError::Empty(1)));
    let price = Scaled::<i8>::new(STANDARD, b'.', 2);
    assert!(rt; read_optional(price, b"5", 0) == Err(ScaledError::TooLarge(0)));
    assert!(rt; read_optional(price, b"EUR", 0) == Ok(None));
    let json = OfForm::<f64>::new(forms::JSON);
    assert!(rt; read_optional(json, b"null", 0) == Ok(None));
    assert!(rt; read_optional(json, b"1e2", 0) == Ok(Some((Number::Float(100.0), 3))));
}

#[test]
#[tactic(auto, unfolding(lexical_format::proofs::OnLiterals::lexical_on_literals))]
fn a_literal_or_a_pair_or_none(rt: HostRuntime) {
    let python = OfLanguage::<u8>::new(PYTHON);
    assert!(rt; read_optional(python, b"x", 0) == Ok(None));
    assert!(rt; read_optional(python, b"0x1f", 0) == Ok(Some((31, 4))));
    assert!(rt; read_optional(python, b"01", 0) == Err(LanguageError::Zero(0)));
    assert!(rt; read_optional(python, b"0x", 0) == Err(LanguageError::Empty(2)));
    let side = Integers::<u8>::new(STANDARD);
    let point = Both {
        first: side,
        between: b':',
        second: side,
    };
    assert!(rt; read_optional(point, b"3:4;", 0) == Ok(Some(((3, 4), 3))));
    assert!(rt; read_optional(point, b";", 0) == Ok(None));
    assert!(rt; read_optional(point, b"3;", 0) == Err(BothError::Between(1)));
    let none = BothError::Second(LiteralError::Empty(2));
    assert!(rt; read_optional(point, b"3:", 0) == Err(none));
    let mut points = [(0, 0); 2];
    let row = parse_list(point, b"1:2, 3:400", COMMAS, &mut points);
    let large = ListError::Number(BothError::Second(LiteralError::Overflow(9)));
    assert!(rt; row == Err(large) && large.position() == 9);
    assert!(rt; none.fault_at() == 2 && !none.is_empty());
    a_list_by_goes_on(point, b"1:2, 3:4", COMMAS);
}

#[test]
#[tactic(auto, unfolding(lexical_format::proofs::OnLiterals::lexical_on_literals))]
fn prices_with_exactly_two_places(rt: HostRuntime) {
    assert!(rt; read_exact_from::<i64>(b"1.50;", STANDARD, 0, b'.', 2) == Ok((150, 4)));
    assert!(rt; read_exact_from::<i64>(b"-0.05", STANDARD, 0, b'.', 2) == Ok((-5, 5)));
    assert!(rt; read_exact_from::<i64>(b"1.5", STANDARD, 0, b'.', 2) == Err(PriceError::Places(3)));
    assert!(rt; read_exact_from::<i64>(b"1", STANDARD, 0, b'.', 2) == Err(PriceError::Places(1)));
    assert!(rt;
        read_exact_from::<i64>(b"1.500", STANDARD, 0, b'.', 2) == Err(PriceError::Places(5))
    );
    assert!(rt; read_exact_from::<i64>(b"12", STANDARD, 0, b'.', 0) == Ok((12, 2)));
    let fine = Err(PriceError::Number(ScaledError::TooFine(4)));
    assert!(rt; read_exact_from::<i64>(b"1.501", STANDARD, 0, b'.', 2) == fine);
    let none = Err(PriceError::Number(ScaledError::Empty(2)));
    assert!(rt; read_exact_from::<i64>(b"-.", STANDARD, 0, b'.', 2) == none);
}

/// A text, and its first price of two places in groups of three digits.
type Price = (&'static [u8], Result<(i64, usize), PriceError>);

static PRICES: [Price; 14] = [
    (b"1,234.50 EUR", Ok((123_450, 8))),
    (b"-12,345,678.00", Ok((-1_234_567_800, 14))),
    (b"0.99", Ok((99, 4))),
    (b"123.00", Ok((12_300, 6))),
    (b"1,2,3.00", Err(PriceError::Group(2))),
    (b"12,34", Err(PriceError::Group(3))),
    (b"-12,34.00", Err(PriceError::Group(4))),
    (b"1234.50", Err(PriceError::Group(0))),
    (b"1,2345.00", Err(PriceError::Group(2))),
    (b"1,234567.00", Err(PriceError::Group(2))),
    (b"1234,567.00", Err(PriceError::Group(0))),
    (b".50", Err(PriceError::Group(0))),
    (b"1,234.5", Err(PriceError::Places(7))),
    (b"EUR", Err(PriceError::Number(ScaledError::Empty(0)))),
];

#[test]
#[tactic(auto, unfolding(lexical_format::proofs::OnLiterals::lexical_on_literals))]
fn prices_with_groups_of_three(rt: HostRuntime) {
    for &(text, wanted) in &PRICES {
        let read = read_price_from::<i64>(text, GROUPS, 0, b'.', 2);
        assert!(rt; read == wanted, "{text:?}: {read:?}");
    }
    assert!(rt; read_grouped_from::<i64>(b"1,234.5", GROUPS, 0, b'.', 2) == Ok((123_450, 7)));
    assert!(rt; read_grouped_from::<u64>(b"$1,234", GROUPS, 1, b'.', 2) == Ok((123_400, 6)));
    assert!(rt; wrong_group(b"1,234,567;", GROUPS, 0).is_none());
    assert!(rt; wrong_group(b"1,234,56;", GROUPS, 0) == Some(6));
    assert!(rt; wrong_group(b"x", GROUPS, 0) == Some(0));
}

#[test]
#[tactic(auto, unfolding(lexical_format::proofs::OnLiterals::lexical_on_literals))]
fn lists_of_prices(rt: HostRuntime) {
    let mut cents = [0i64; 3];
    let row = parse_list(
        Prices::<i64>::exact(STANDARD, b'.', 2),
        b"1.50,2.75,10.00",
        COMMAS_IN_LINE,
        &mut cents,
    );
    assert!(rt; row == Ok(3) && cents == [150, 275, 1000], "{row:?}");
    let row = parse_list(
        Prices::<i64>::exact(STANDARD, b'.', 2),
        b"1.50,2.7",
        COMMAS_IN_LINE,
        &mut cents,
    );
    assert!(rt;
        row == Err(ListError::Number(PriceError::Places(8))),
        "{row:?}"
    );
    let grouped = Prices::<i64>::grouped(GROUPS, b'.', 2);
    let row = parse_list(grouped, b"1,000 2.5 -3", WHITESPACE, &mut cents);
    assert!(rt; row == Ok(3) && cents == [100_000, 250, -300], "{row:?}");
    let both = Prices::<i64>::new(GROUPS, b'.', 2);
    let row = parse_list(both, b"1,000.00\n20,00.00\n", LINES, &mut cents);
    assert!(rt;
        row == Err(ListError::Number(PriceError::Group(12))),
        "{row:?}"
    );
    let mut any = both;
    any.is_exact = false;
    any.is_grouped = false;
    let row = parse_list(any, b"1,0.5", WHITESPACE, &mut cents);
    assert!(rt; row == Ok(1) && cents[0] == 1050, "{row:?}");
    let read = read_piece(both, b"1.00 2.0", 0, WHITESPACE, false, &mut cents);
    assert!(rt; read.count == 1 && read.end == PieceEnd::More(5));
    assert!(rt; read_optional(both, b"EUR", 0) == Ok(None));
    let later = <Prices<i64> as Kind>::error_later(PriceError::Group(2), 5);
    assert!(rt; later == PriceError::Group(7));
}

#[test]
fn errors_say_where(rt: HostRuntime) {
    let list: ListError<LiteralError> = ListError::Number(LiteralError::Overflow(4));
    assert!(rt; list.position() == 4);
    let list: ListError<FloatError> = ListError::NoRoom(7);
    assert!(rt; list.position() == 7 && FloatError::EmptyExponent(3).fault_at() == 3);
    let array: EnclosedError<NumberError> = EnclosedError::NoClosing(3);
    assert!(rt; array.position() == 3 && !NumberError::Overflow(0).is_empty());
    assert!(rt; PriceError::Number(ScaledError::TooFine(4)).position() == 4);
    let text = format!(in rt.alloc(); "{list}, {array}, {}", PriceError::Group(2));
    let said = "there is no room for the number at 7, the list isn't closed at 3, \
                the digits at 2 are no group of three";
    assert!(rt; text.is_ok_and(|text| text.as_str() == said));
}

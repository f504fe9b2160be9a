//! Lists, and a number that may be missing.

use digit_uses::points::{Point, PointError};
use digits::languages::RUST;
use digits::{
    BracketError, ByteSet, COMMAS, Enclosed, EnclosedError, Floats, Gap, Integers, LINES, ListEnd,
    ListError, LiteralError, OfLanguage, PriceError, Prices, STANDARD, Scaled, WHITESPACE,
    parse_list, read_enclosed, read_float_list, read_items, read_list, read_list_by, read_optional,
};

/// A list, as the reference shows it first.
#[test]
fn a_first_list(rt: HostRuntime) {
    let mut ports = [0u16; 4];
    let read = read_list(b"80, 443;", 0, STANDARD, COMMAS, &mut ports);
    assert_eq!(rt; (read.count, read.end), (2, ListEnd::Over(7)));
    assert_eq!(rt; ports, [80, 443, 0, 0]);
    let read = read_list(b"80, 44x", 0, STANDARD, COMMAS, &mut ports);
    assert_eq!(rt; (read.count, read.end), (2, ListEnd::Over(6)));
    assert_eq!(rt; ports, [80, 44, 0, 0]);
}

/// Texts that fill a slice, as the reference tells them.
#[test]
fn a_full_slice(rt: HostRuntime) {
    let mut two = [0u16; 2];
    let read = read_list(b"80, 443", 0, STANDARD, COMMAS, &mut two);
    assert_eq!(rt; (read.count, read.end), (2, ListEnd::Over(7)));
    let read = read_list(b"80, 443, 8", 0, STANDARD, COMMAS, &mut two);
    assert_eq!(rt; (read.count, read.end), (2, ListEnd::Full(8)));
    let read = read_list(b"80\n443\n", 0, STANDARD, LINES, &mut two);
    assert_eq!(rt; (read.count, read.end), (2, ListEnd::Full(7)));
    let read = read_list(b"80\n443\n", 7, STANDARD, LINES, &mut two);
    assert_eq!(rt; (read.count, read.end), (0, ListEnd::Over(7)));
    let kind = Integers::<u16>::new(STANDARD);
    assert_eq!(rt; parse_list(kind, b"80\n443\n", LINES, &mut two), Ok(2));
    let mut none: [u16; 0] = [];
    let read = read_list(b"80, 443", 0, STANDARD, COMMAS, &mut none);
    assert_eq!(rt; (read.count, read.end), (0, ListEnd::Full(0)));
}

/// What ends a list by `LINES`, as the reference tells it.
#[test]
fn over_or_a_fault(rt: HostRuntime) {
    let mut bytes = [0u8; 3];
    let read = read_list(b"x", 0, STANDARD, LINES, &mut bytes);
    assert_eq!(rt; (read.count, read.end), (0, ListEnd::Over(0)));
    let read = read_list(b"-", 0, STANDARD, LINES, &mut bytes);
    assert_eq!(rt; (read.count, read.end), (0, ListEnd::Over(0)));
    let mut signed = [0i8; 2];
    let read = read_list(b"-", 0, STANDARD, LINES, &mut signed);
    assert_eq!(rt;
        (read.count, read.end),
        (0, ListEnd::Fault(LiteralError::Empty(1)))
    );
    let read = read_list(b"1\r\n2\r\n", 0, STANDARD, LINES, &mut bytes);
    assert_eq!(rt; (read.count, read.end), (2, ListEnd::Over(6)));
    assert_eq!(rt; bytes, [1, 2, 0]);
}

/// Lines of which one is empty, as the reference tells them.
#[test]
fn an_empty_line(rt: HostRuntime) {
    let mut ports = [0u16; 4];
    let read = read_list(b"80\n\n443\n", 0, STANDARD, LINES, &mut ports);
    assert_eq!(rt; (read.count, read.end), (1, ListEnd::Over(3)));
    let read = read_list(b"80\n\n443\n", 0, STANDARD, WHITESPACE, &mut ports);
    assert_eq!(rt; (read.count, read.end), (2, ListEnd::Over(8)));
    assert_eq!(rt; ports, [80, 443, 0, 0]);
}

/// Shows `read_list`.
#[test]
fn integers(rt: HostRuntime) {
    let mut three = [0u8; 3];
    let read = read_list(b"1, 2 ,3]", 0, STANDARD, COMMAS, &mut three);
    assert_eq!(rt; (read.count, read.end), (3, ListEnd::Over(7)));
    assert_eq!(rt; three, [1, 2, 3]);
    let read = read_list(b"1, x", 0, STANDARD, COMMAS, &mut three);
    assert_eq!(rt;
        (read.count, read.end),
        (1, ListEnd::Fault(LiteralError::Empty(3)))
    );
    let read = read_list(b"1\n2\n", 0, STANDARD, LINES, &mut three);
    assert_eq!(rt; (read.count, read.end), (2, ListEnd::Over(4)));
    let read = read_list(b"]", 0, STANDARD, COMMAS, &mut three);
    assert_eq!(rt;
        (read.count, read.end),
        (0, ListEnd::Fault(LiteralError::Empty(0)))
    );
    // a number that is refused
    let read = read_list(b"1\n300\n", 0, STANDARD, LINES, &mut three);
    assert_eq!(rt;
        (read.count, read.end),
        (1, ListEnd::Fault(LiteralError::Overflow(4)))
    );
    // a full slice: the next call goes on at 4
    let mut two = [0u8; 2];
    let read = read_list(b"1,2,3", 0, STANDARD, COMMAS, &mut two);
    assert_eq!(rt; (read.count, read.end), (2, ListEnd::Full(4)));
}

/// Shows `read_float_list`.
#[test]
fn floats(rt: HostRuntime) {
    let mut out = [0.0; 3];
    let read = read_float_list::<f64>(b"1.5, -2e3]", 0, STANDARD, COMMAS, &mut out);
    assert_eq!(rt; (read.count, read.end), (2, ListEnd::Over(9)));
    assert_eq!(rt; out, [1.5, -2000.0, 0.0]);
    let read = read_float_list::<f64>(b"48.2 16.37\n", 0, STANDARD, WHITESPACE, &mut out);
    assert_eq!(rt; (read.count, read.end), (2, ListEnd::Over(11)));
}

/// Shows `read_list_by`, `Scaled`.
#[test]
fn numbers_of_a_kind(rt: HostRuntime) {
    let mut cents = [0u32; 3];
    let prices = Scaled::<u32>::new(STANDARD, b'.', 2);
    let read = read_list_by(prices, b"1.5, 2 ,3]", 0, COMMAS, &mut cents);
    assert_eq!(rt; (read.count, read.end), (3, ListEnd::Over(9)));
    assert_eq!(rt; cents, [150, 200, 300]);
}

/// Shows `Integers`.
#[test]
fn the_kind_of_integers(rt: HostRuntime) {
    let mut ports = [0; 2];
    let kind = Integers::<u16>::new(STANDARD);
    assert_eq!(rt; parse_list(kind, b"80, 443", COMMAS, &mut ports), Ok(2));
    assert_eq!(rt; ports, [80, 443]);
}

/// Shows `Floats`.
#[test]
fn the_kind_of_floats(rt: HostRuntime) {
    let mut row = [0.0; 2];
    let kind = Floats::<f64>::new(STANDARD);
    assert_eq!(rt; parse_list(kind, b"1.5 -2e3", WHITESPACE, &mut row), Ok(2));
    assert_eq!(rt; row, [1.5, -2000.0]);
}

/// Shows `OfLanguage`.
#[test]
fn the_kind_of_literals(rt: HostRuntime) {
    let mut bytes = [0; 2];
    let kind = OfLanguage::<u8>::new(RUST);
    assert_eq!(rt; parse_list(kind, b"0xff, 0b1_1", COMMAS, &mut bytes), Ok(2));
    assert_eq!(rt; bytes, [255, 3]);
}

/// Shows `Prices`.
#[test]
fn the_kind_of_prices(rt: HostRuntime) {
    // exactly two places
    let prices = Prices::<i64>::exact(STANDARD, b'.', 2);
    let mut cents = [0; 2];
    assert_eq!(rt;
        parse_list(prices, b"1.50 2.00", WHITESPACE, &mut cents),
        Ok(2)
    );
    assert_eq!(rt; cents, [150, 200]);
    assert_eq!(rt;
        parse_list(prices, b"1.5", WHITESPACE, &mut cents),
        Err(ListError::Number(PriceError::Places(3)))
    );
}

/// Shows `Enclosed`.
#[test]
fn numbers_in_quotes(rt: HostRuntime) {
    let quoted = Enclosed {
        opening: b'"',
        kind: Scaled::<i64>::new(STANDARD, b'.', 2),
        closing: b'"',
    };
    let mut cents = [0; 2];
    assert_eq!(rt;
        parse_list(quoted, b"\"1.50\", \"2\"", COMMAS, &mut cents),
        Ok(2)
    );
    assert_eq!(rt; cents, [150, 200]);
    assert_eq!(rt;
        parse_list(quoted, b"\"1.50", COMMAS, &mut cents),
        Err(ListError::Number(BracketError::NoClosing(5)))
    );
}

/// Shows `Gap`.
#[test]
fn a_gap_of_ones_own(rt: HostRuntime) {
    // one `;`, with any blanks around it
    let semicolons = Gap {
        separators: ByteSet {
            low: 1 << b';',
            high: 0,
        },
        ..COMMAS
    };
    let mut three = [0u8; 3];
    let read = read_list(b"1; 2 ;3]", 0, STANDARD, semicolons, &mut three);
    assert_eq!(rt; (read.count, read.end), (3, ListEnd::Over(7)));
    assert_eq!(rt; three, [1, 2, 3]);
    // line ends, also of empty lines, and no spaces
    let line_ends = Gap {
        blanks: ByteSet {
            low: (1 << b'\n') | (1 << b'\r'),
            high: 0,
        },
        ..WHITESPACE
    };
    let read = read_list(b"1\n\n2\r\n", 0, STANDARD, line_ends, &mut three);
    assert_eq!(rt; (read.count, read.end), (2, ListEnd::Over(6)));
    let read = read_list(b"1 2\n", 0, STANDARD, line_ends, &mut three);
    assert_eq!(rt; (read.count, read.end), (1, ListEnd::Over(1)));
}

/// Shows `read_items`.
#[test]
fn values_of_a_type_of_your_own(rt: HostRuntime) {
    // Point is a type of digit_uses, with an `impl Item`
    let mut points = [Point { x: 0, y: 0 }; 3];
    let read = read_items(b"12:-5\n3:4\n", 0, LINES, &mut points);
    assert_eq!(rt; (read.count, read.end), (2, ListEnd::Over(10)));
    assert_eq!(rt; points[0], Point { x: 12, y: -5 });
    let read = read_items(b"12;", 0, LINES, &mut points);
    assert_eq!(rt;
        (read.count, read.end),
        (0, ListEnd::Fault(PointError::NoColon(2)))
    );
}

/// Shows `parse_list`.
#[test]
fn a_whole_list(rt: HostRuntime) {
    let kind = Integers::<u8>::new(STANDARD);
    let mut three = [0; 3];
    assert_eq!(rt; parse_list(kind, b"1, 2,3", COMMAS, &mut three), Ok(3));
    assert_eq!(rt; three, [1, 2, 3]);
    assert_eq!(rt;
        parse_list(kind, b"1,2]", COMMAS, &mut three),
        Err(ListError::Invalid(3))
    );
    assert_eq!(rt;
        parse_list(kind, b"1,", COMMAS, &mut three),
        Err(ListError::Number(LiteralError::Empty(2)))
    );
    assert_eq!(rt; parse_list(kind, b"", WHITESPACE, &mut three), Ok(0));
    assert_eq!(rt;
        parse_list(kind, b"", COMMAS, &mut three),
        Err(ListError::Number(LiteralError::Empty(0)))
    );
    let mut two = [0; 2];
    assert_eq!(rt; parse_list(kind, b"1\n2\n", LINES, &mut two), Ok(2));
    assert_eq!(rt;
        parse_list(kind, b"1, 2,3", COMMAS, &mut two),
        Err(ListError::NoRoom(5))
    );
}

/// Shows `read_enclosed`.
#[test]
fn a_list_in_brackets(rt: HostRuntime) {
    let kind = Floats::<f64>::new(STANDARD);
    let mut three = [0.0; 3];
    assert_eq!(rt;
        read_enclosed(kind, b"[1, 2 ];", 0, b'[', COMMAS, b']', &mut three),
        Ok((2, 7))
    );
    assert_eq!(rt; three, [1.0, 2.0, 0.0]);
    assert_eq!(rt;
        read_enclosed(kind, b"[ ]", 0, b'[', COMMAS, b']', &mut three),
        Ok((0, 3))
    );
    assert_eq!(rt;
        read_enclosed(kind, b"[1 2]", 0, b'[', COMMAS, b']', &mut three),
        Err(EnclosedError::NoClosing(3))
    );
    let kind = Integers::<u8>::new(STANDARD);
    let mut three = [0; 3];
    assert_eq!(rt;
        read_enclosed(kind, b"[1,]", 0, b'[', COMMAS, b']', &mut three),
        Err(EnclosedError::Number(LiteralError::Empty(3)))
    );
}

/// Shows `read_optional`.
#[test]
fn a_number_that_may_be_missing(rt: HostRuntime) {
    let kind = Integers::<i8>::new(STANDARD);
    assert_eq!(rt; read_optional(kind, b"x=-12;", 2), Ok(Some((-12, 5))));
    assert_eq!(rt; read_optional(kind, b"x=-12;", 5), Ok(None));
    assert_eq!(rt; read_optional(kind, b"", 0), Ok(None));
    assert_eq!(rt; read_optional(kind, b"-;", 0), Err(LiteralError::Empty(1)));
    assert_eq!(rt;
        read_optional(kind, b"200", 0),
        Err(LiteralError::Overflow(2))
    );
    // an unsigned type has no sign
    let kind = Integers::<u32>::new(STANDARD);
    assert_eq!(rt; read_optional(kind, b"-1", 0), Ok(None));
    // a field in quotes: none, and one that is empty
    let quoted = Enclosed {
        opening: b'"',
        kind,
        closing: b'"',
    };
    assert_eq!(rt; read_optional(quoted, b",", 0), Ok(None));
    let empty = BracketError::Number(LiteralError::Empty(1));
    assert_eq!(rt; read_optional(quoted, b"\"\"", 0), Err(empty));
}

/// The ends of lists that the reference tells.
#[test]
fn ends_of_lists(rt: HostRuntime) {
    let mut two = [0u32; 2];
    let read = read_list(b"1\n-2\n", 0, STANDARD, LINES, &mut two);
    assert_eq!(rt; (read.count, read.end), (1, ListEnd::Over(2)));
    let text = b"80,443,";
    let read = read_list(text, 0, STANDARD, COMMAS, &mut two);
    assert_eq!(rt; (read.count, read.end), (2, ListEnd::Full(7)));
    let fault = ListEnd::Fault(LiteralError::Empty(7));
    let read = read_list(text, 7, STANDARD, COMMAS, &mut two);
    assert_eq!(rt; (read.count, read.end), (0, fault));
    let mut three = [0u32; 3];
    let read = read_list(text, 0, STANDARD, COMMAS, &mut three);
    assert_eq!(rt; (read.count, read.end), (2, fault));
    let read = read_list(text, 3, STANDARD, COMMAS, &mut two[..0]);
    assert_eq!(rt; (read.count, read.end), (0, ListEnd::Full(3)));
}

/// Shows `Gap::past_blanks`, `Gap::next_after`.
#[test]
fn between_two_numbers(rt: HostRuntime) {
    assert_eq!(rt; COMMAS.past_blanks(b"  1 , 2", 0), 2);
    assert_eq!(rt; COMMAS.next_after(b"1 , 2", 1), Ok(3));
    assert_eq!(rt; COMMAS.next_after(b"1 ; 2", 1), Err(2));
}

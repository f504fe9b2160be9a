//! What FILES.md says that its functions answer.

use digit_uses::files::{
    Entry, SumError, cents_of, check_entries, column_sum, first_above, first_in_array, greatest_of,
    parse_entry, print_column, read_all, read_triples, sum_array, sum_bytes, sum_column, sum_of,
    sum_text, sum_words,
};
use digits::{
    EnclosedFoldError, FloatError, Floats, FoldError, LiteralError, Number, STANDARD, StreamError,
    WHITESPACE, floats_are_apart, fold_stream,
};
use std::io::{BufRead, BufReader};

/// A line with fields of several kinds.
#[test]
fn a_line(rt: HostRuntime) {
    let entry = Entry {
        year: 2026,
        month: 11,
        day: 30,
        cents: 1250,
        count: Some(-3),
    };
    let none = Entry {
        count: None,
        ..entry
    };
    assert!(rt; parse_entry(b"2026-11-30,12.50,-3") == Ok(entry));
    assert!(rt; parse_entry(b"2026-11-30,12.50,") == Ok(none));
    assert!(rt; parse_entry(b"2026-11-3,12.50,-3") == Err(9));
    assert!(rt; parse_entry(b"2026-11-30,12.50") == Err(16));
    assert!(rt; parse_entry(b"2026-11-30,12.5x,-3") == Err(15));
    assert!(rt; parse_entry(b"2026-11-30,12.505,-3") == Err(16));
    assert!(rt; parse_entry(b"2026-11-30,12.50,-") == Err(18));
    assert!(rt; parse_entry(b"2026-11-30,12.50,x") == Err(17));
}

/// A stream, by a fold and by a loop.
#[test]
fn a_stream(rt: HostRuntime) {
    assert!(rt; sum_of(b"1.5\n-2\n".as_slice()) == Ok(-0.5));
    assert!(rt; first_above(b"1\n2.5\n3\nx".as_slice(), 2.0) == Ok(Some(2.5)));
    let sure = StreamError::Trailing(1, Some(FloatError::Empty(1)));
    assert!(rt; first_above(b"3x".as_slice(), 2.0) == Err(sure));
    assert!(rt; first_above(b"1\n2.5\n".as_slice(), 3.0) == Ok(None));
    let trailing = StreamError::Trailing(2, Some(FloatError::Empty(2)));
    assert!(rt; first_above(b"1\nx".as_slice(), 3.0) == Err(trailing));
}

/// A list of any length, without a slice for its numbers.
#[test]
fn a_sum_of_a_text(rt: HostRuntime) {
    assert!(rt; sum_text(b"80, 443") == Ok(523));
    let sum = sum_text(b"80, 443;");
    assert!(rt; matches!(sum, Err(FoldError::Stream(StreamError::Trailing(7, _)))));
    assert!(rt; sum_text(b"18446744073709551615,1") == Err(FoldError::Stopped(22)));
}

/// An array that is a whole stream.
#[test]
fn an_array_of_any_length(rt: HostRuntime) {
    assert!(rt; sum_array(b"[1, 2.5]\n".as_slice()) == Ok(3.5));
    assert!(rt; sum_array(b" [ ] ".as_slice()) == Ok(0.0));
    let open = EnclosedFoldError::NoClosing(7);
    assert!(rt; sum_array(b"[1, 2.5".as_slice()) == Err(open));
    let sum = sum_array(b"[1] x".as_slice());
    assert!(rt;
        matches!(
            sum,
            Err(EnclosedFoldError::Fold(FoldError::Stream(StreamError::Trailing(4, _))))
        )
    );
}

/// One column of a text, and the line of a fault.
#[test]
fn a_column(rt: HostRuntime) {
    assert!(rt; sum_column(b"a,1.50\nb,2\n", 1) == Ok(350));
    assert!(rt; sum_column(b"a,1.50\r\nb,2\r\n", 1) == Ok(350));
    assert!(rt; sum_column(b"a,1.50\n\nb,2x\n", 1) == Err(3));
    assert!(rt; sum_column(b"a,1.50\nb\n", 1) == Err(2));
    assert!(rt; sum_column(b"", 0) == Ok(0));
}

/// All numbers of a stream.
#[test]
fn all_numbers(rt: HostRuntime) {
    let all = read_all(b"1\n2\n".as_slice(), rt.alloc());
    assert!(rt; all.is_ok_and(|all| all.as_slice() == [1, 2].as_slice()));
    let fault = StreamError::Trailing(3, Some(LiteralError::Empty(3)));
    let all = read_all(b"1\n2x".as_slice(), rt.alloc());
    assert!(rt; all.is_err_and(|error| error == FoldError::Stream(fault)));
}

/// Lines that are no text.
#[test]
fn lines_of_a_file(rt: HostRuntime) {
    assert!(rt; check_entries(rt, b"date\n2026-11-30,12.50,-3\n".as_slice()).is_ok());
    assert!(rt; check_entries(rt, b"date\n\xff\n".as_slice()).is_err());
}

/// Lines of two numbers.
#[test]
fn two_columns(rt: HostRuntime) {
    assert!(rt; greatest_of(b"1,2.5\n2,3.5\n".as_slice()) == Ok(3.5));
    assert!(rt; greatest_of(b"1,2.5\n2\n".as_slice()).is_err());
}

/// Lines that are empty.
#[test]
fn empty_lines(rt: HostRuntime) {
    floats_are_apart(STANDARD, WHITESPACE);
    let mut buffer = [0; 64];
    let kind = Floats::<f64>::new(STANDARD);
    let add = |sum: f64, number: f64| Some(sum + number);
    let stream = b"\n1\n\n2 3\n".as_slice();
    let sum = fold_stream(stream, &mut buffer, kind, WHITESPACE, 0.0, add);
    assert!(rt; sum == Ok(6.0));
    let fault = StreamError::Trailing(2, Some(FloatError::Empty(2)));
    assert!(rt; sum_of(b"1\n\n2\n".as_slice()) == Err(FoldError::Stream(fault)));
}

/// The position of the error of an array, if there is one.
fn fault_of(stream: &[u8]) -> Option<u64> {
    match sum_array(stream) {
        Ok(_) => None,
        Err(error) => error.position(),
    }
}

/// A column of a stream.
#[test]
fn a_column_of_a_stream(rt: HostRuntime) {
    assert!(rt; cents_of(b"a,1.50,x", 1) == Some(150) && cents_of(b"a,1.50,x", 3) == None);
    assert!(rt; cents_of(b"a, 1.50", 1) == None);
    assert!(rt; print_column(rt, b"name,price\na,1.50\nb,2\n".as_slice(), 1).is_ok());
    let sum = column_sum(rt, b"name,price\na,1.50\n\nb,2\n".as_slice(), 1);
    assert!(rt; matches!(sum, Ok(Ok(350))));
    let fault = column_sum(rt, b"name,price\na,1.50\nb\n".as_slice(), 1);
    assert!(rt; matches!(fault, Ok(Err(3))));
    assert!(rt; print_column(rt, b"name,price\n\xff\n".as_slice(), 1).is_err());
    assert!(rt; first_line_is(&rt, b"1.50\r\n2\n", b"1.50").is_ok_and(|is| is));
}

/// A list in a text.
#[test]
fn a_list_within_a_text(rt: HostRuntime) {
    assert!(rt; sum_bytes(b"x=de,ad;", 2) == Ok((395, 7)));
    assert!(rt;
        sum_bytes(b"x=;", 2) == Err(FoldError::Stream(StreamError::Number(LiteralError::Empty(2))))
    );
    let fault = LiteralError::Overflow(4);
    let sum = sum_bytes(b"x=100,1", 2);
    assert!(rt; sum == Err(FoldError::Stream(StreamError::Number(fault))));
}

/// Lines of three floats, into a vector.
#[test]
fn points(rt: HostRuntime) {
    let read = read_triples(rt, b"1 2.5 3\n4\t5 6 \n".as_slice());
    let expected = [[1.0, 2.5, 3.0], [4.0, 5.0, 6.0]];
    let all = read.is_ok_and(|read| read.is_ok_and(|all| all.as_slice() == expected.as_slice()));
    assert!(rt; all);
    for (text, fault) in [
        ("1 2\n", 1),
        ("1 2 3\n\n", 2),
        ("1 2 3 4\n", 1),
        ("1 2 x\n", 1),
    ] {
        let read = read_triples(rt, text.as_bytes());
        assert!(rt;
            read.is_ok_and(|read| read.is_err_and(|line| line == fault)),
            "{text}"
        );
    }
    assert!(rt; read_triples(rt, b"\xff\n".as_slice()).is_err());
}

/// The first number of an array above a limit.
#[test]
fn the_first_in_an_array(rt: HostRuntime) {
    assert!(rt; first_in_array(b"[1, 2.5, 3]".as_slice(), 2.0) == Ok(Some((2.5, 4))));
    assert!(rt; first_in_array(b" [1, 2.5 ] x".as_slice(), 2.0) == Ok(Some((2.5, 5))));
    assert!(rt; first_in_array(b"[ ]".as_slice(), 2.0) == Ok(None));
    assert!(rt; first_in_array(b"[1]".as_slice(), 2.0) == Ok(None));
    for (text, fault) in [("1", 0), ("[1 2]", 3), ("[3x]", 2), ("[3, x]", 4), ("[", 1)] {
        let found = first_in_array(text.as_bytes(), 2.0);
        assert!(rt;
            found.is_err_and(|error| error.position() == Some(fault)),
            "{text}"
        );
    }
}

/// A sum, and which number makes it too large.
#[test]
fn a_sum_of_words(rt: HostRuntime) {
    assert_eq!(rt; sum_words(b" 1 20\n".as_slice()), Ok(21));
    assert_eq!(rt; sum_words(b"".as_slice()), Ok(0));
    assert_eq!(rt;
        sum_words(b"2147483647  1".as_slice()),
        Err(SumError::TooLarge(12))
    );
    let trailing = StreamError::Trailing(2, Some(LiteralError::Empty(2)));
    assert_eq!(rt;
        sum_words(b"1 x".as_slice()),
        Err(SumError::Stream(trailing))
    );
    let large = StreamError::Number(LiteralError::Overflow(11));
    assert_eq!(rt;
        sum_words(b"1 2147483648 ".as_slice()),
        Err(SumError::Stream(large))
    );
}

/// Whether std's `lines` gives this line first.
fn first_line_is(rt: &HostRuntime, stream: &[u8], expected: &[u8]) -> std::io::Result<bool> {
    let mut lines = BufReader::new(rt.alloc(), stream)?.lines(rt.alloc());
    match lines.next() {
        Some(line) => Ok(line?.as_bytes() == expected),
        None => Ok(false),
    }
}

/// Where the fault of an array is.
#[test]
fn a_fault_of_an_array(rt: HostRuntime) {
    assert!(rt; fault_of(b"[1, 2.5".as_slice()) == Some(7));
    assert!(rt; fault_of(b"[1, x]".as_slice()) == Some(4));
    assert!(rt; fault_of(b"1".as_slice()) == Some(0));
    assert!(rt; fault_of(b"[1] x".as_slice()) == Some(4));
    assert!(rt; fault_of(b"[1] \n".as_slice()).is_none());
}

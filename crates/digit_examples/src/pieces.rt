//! A text that comes in pieces, and a stream.

use digits::{
    Both, BothError, COMMAS, EnclosedFoldError, FloatError, Floats, FoldError,
    INTEGER_INTERNAL_DIGIT_SEPARATOR, Integers, LINES, ListError, LiteralError, Number,
    NumberReader, PieceEnd, STANDARD, Scaled, StreamEnd, StreamError, WHITESPACE, block_start,
    end_in_text, floats_are_apart, fold_stream, forms, integers_are_apart, is_apart, parse_list,
    read_float_list_piece, read_list_piece, read_list_piece_of, read_piece, read_scaled_list_piece,
    sure_end,
};
use std::io::ErrorKind;

/// Shows `read_list_piece`.
#[test]
fn integers(rt: HostRuntime) {
    let mut out = [0u8; 3];
    let read = read_list_piece(b"1, 23", 0, STANDARD, COMMAS, false, &mut out);
    assert_eq!(rt; (read.count, read.end), (1, PieceEnd::More(3)));
    // nothing follows, so 23 is whole
    let read = read_list_piece(b"1, 23", 0, STANDARD, COMMAS, true, &mut out);
    assert_eq!(rt; (read.count, read.end), (2, PieceEnd::Over(5)));
    assert_eq!(rt; out, [1, 23, 0]);
}

/// Shows `read_float_list_piece`.
#[test]
fn floats(rt: HostRuntime) {
    let mut out = [0.0; 3];
    let read = read_float_list_piece::<f64>(b"1.5,-2", 0, STANDARD, COMMAS, false, &mut out);
    assert_eq!(rt; (read.count, read.end), (1, PieceEnd::More(4)));
    let read = read_float_list_piece::<f64>(b"1.5,-", 0, STANDARD, COMMAS, false, &mut out);
    assert_eq!(rt; (read.count, read.end), (1, PieceEnd::More(4)));
    let read = read_float_list_piece::<f64>(b"1.5,2e", 0, STANDARD, COMMAS, false, &mut out);
    assert_eq!(rt; (read.count, read.end), (1, PieceEnd::More(4)));
    let read = read_float_list_piece::<f64>(b"1.5,x", 0, STANDARD, COMMAS, false, &mut out);
    assert_eq!(rt;
        (read.count, read.end),
        (1, PieceEnd::Fault(FloatError::Empty(4)))
    );
}

/// Shows `read_scaled_list_piece`.
#[test]
fn amounts(rt: HostRuntime) {
    let mut cents = [0i32; 2];
    let amounts = Scaled::<i32>::new(STANDARD, b'.', 2);
    let read = read_scaled_list_piece(b"1.25, -3", 0, amounts, COMMAS, false, &mut cents);
    assert_eq!(rt; (read.count, read.end), (1, PieceEnd::More(6)));
    let read = read_scaled_list_piece(b"1.25, -3", 0, amounts, COMMAS, true, &mut cents);
    assert_eq!(rt; (read.count, read.end), (2, PieceEnd::Over(8)));
    assert_eq!(rt; cents, [125, -300]);
}

/// Shows `read_list_piece_of`.
#[test]
fn numbers_by_a_form(rt: HostRuntime) {
    let mut out = [Number::Float(0.0); 3];
    let read = read_list_piece_of::<f64>(b"-2.5e3, 12", 0, forms::JSON, COMMAS, false, &mut out);
    assert_eq!(rt; (read.count, read.end), (1, PieceEnd::More(8)));
    assert_eq!(rt; out[0], Number::Float(-2500.0));
}

/// Shows `read_piece`.
#[test]
fn numbers_of_a_kind(rt: HostRuntime) {
    let kind = Floats::<f64>::new(STANDARD);
    let mut out = [0.0; 3];
    let read = read_piece(kind, b"1.5,-2", 0, COMMAS, false, &mut out);
    assert_eq!(rt; (read.count, read.end), (1, PieceEnd::More(4)));
    // the bytes from 4 on come again, before those of the next block
    let read = read_piece(kind, b"-2e3", 0, COMMAS, true, &mut out);
    assert_eq!(rt; (read.count, read.end), (1, PieceEnd::Over(4)));
    assert_eq!(rt; out[0], -2000.0);
}

/// Shows `sure_end`.
#[test]
fn what_no_later_byte_changes(rt: HostRuntime) {
    let kind = Floats::<f64>::new(STANDARD);
    assert_eq!(rt; sure_end(kind, b"1.5,-2"), 4);
    assert_eq!(rt; sure_end(kind, b"12"), 0);
    assert_eq!(rt; sure_end(kind, b"1 2 "), 4);
}

/// Shows `Both`.
#[test]
fn two_numbers_as_one(rt: HostRuntime) {
    let side = Integers::<u16>::new(STANDARD);
    let size = Both {
        first: side,
        between: b'x',
        second: side,
    };
    let mut sizes = [(0, 0); 2];
    assert_eq!(rt;
        parse_list(size, b"640x480, 800x600", COMMAS, &mut sizes),
        Ok(2)
    );
    assert_eq!(rt; sizes, [(640, 480), (800, 600)]);
    assert_eq!(rt;
        parse_list(size, b"640y480", COMMAS, &mut sizes),
        Err(ListError::Number(BothError::Between(3)))
    );
}

/// Shows `block_start`.
#[test]
fn where_a_text_may_be_cut(rt: HostRuntime) {
    // 1 is in the midst of 12, which belongs to the block before
    assert_eq!(rt; block_start(b"12,345,6", 1, COMMAS), 3);
    assert_eq!(rt; block_start(b"12,345,6", 3, COMMAS), 3);
    assert_eq!(rt; block_start(b"12,345,6", 7, COMMAS), 7);
    assert_eq!(rt; block_start(b"12,345,6", 8, COMMAS), 8);
}

/// Shows `end_in_text`.
#[test]
fn an_end_in_the_text(rt: HostRuntime) {
    // the block begins at 100
    let end = PieceEnd::Over(4);
    assert_eq!(rt;
        end_in_text::<Integers<u64>>(end, 100),
        Some(PieceEnd::Over(104))
    );
    let end = PieceEnd::Fault(LiteralError::Empty(3));
    let later = PieceEnd::Fault(LiteralError::Empty(103));
    assert_eq!(rt; end_in_text::<Integers<u64>>(end, 100), Some(later));
}

/// Shows `is_apart`.
#[test]
fn what_separates_is_in_no_number(rt: HostRuntime) {
    assert!(rt; is_apart(Integers::<u64>::new(STANDARD), COMMAS));
    // a word that reads `1,234` as one number
    let comma_digits = (10 << 104) | ((b',' as u128) << 64) | INTEGER_INTERNAL_DIGIT_SEPARATOR;
    assert!(rt; !is_apart(Integers::<u64>::new(comma_digits), COMMAS));
}

/// A sum of a stream, as the reference shows it first.
#[test]
fn a_sum(rt: HostRuntime) {
    integers_are_apart::<u64>(STANDARD, LINES);
    let mut buffer = [0; 64];
    let kind = Integers::<u64>::new(STANDARD);
    let stream = b"80\n443\n".as_slice();
    let add = |sum: u64, number: u64| sum.checked_add(number);
    let sum = fold_stream(stream, &mut buffer, kind, LINES, 0, add);
    assert_eq!(rt; sum, Ok(523));
}

/// A loop over a stream, as the reference shows it.
#[test]
fn a_loop(rt: HostRuntime) {
    integers_are_apart::<u64>(STANDARD, LINES);
    let mut buffer = [0; 64];
    let kind = Integers::<u64>::new(STANDARD);
    let stream = b"3\n 12\n5\n".as_slice();
    let mut numbers = NumberReader::new(stream, &mut buffer, kind, LINES);
    let mut greatest = (0u64, 0u64);
    for _ in 0..u64::MAX {
        numbers.pass_blanks().expect(&rt, "a stream");
        let at = numbers.position();
        match numbers.next_number() {
            Some(number) => greatest = greatest.max((number.expect(&rt, "a number"), at)),
            None => break,
        }
    }
    assert_eq!(rt; numbers.finish(), Ok(()));
    // the number 12, which begins at 3
    assert_eq!(rt; greatest, (12, 3));
}

/// Shows `NumberReader`, `NumberReader::next_number`.
#[test]
fn a_stream(rt: HostRuntime) {
    floats_are_apart(STANDARD, LINES);
    let mut buffer = [0; 64];
    let kind = Floats::<f64>::new(STANDARD);
    let stream = b"1.5\n-2e3\n".as_slice();
    let mut numbers = NumberReader::new(stream, &mut buffer, kind, LINES);
    assert_eq!(rt; numbers.next_number(), Some(Ok(1.5)));
    assert_eq!(rt; numbers.next_number(), Some(Ok(-2000.0)));
    assert_eq!(rt; numbers.next_number(), None);
    assert_eq!(rt; numbers.finish(), Ok(()));
}

/// A stream that ends with a blank, as the reference tells it, and one that goes on after a blank.
#[test]
fn blanks_at_the_end(rt: HostRuntime) {
    integers_are_apart::<u64>(STANDARD, COMMAS);
    let mut buffer = [0; 64];
    let kind = Integers::<u64>::new(STANDARD);
    let stream = b"1, 2\n".as_slice();
    let mut numbers = NumberReader::new(stream, &mut buffer, kind, COMMAS);
    assert_eq!(rt; numbers.next_number(), Some(Ok(1)));
    assert_eq!(rt; numbers.next_number(), Some(Ok(2)));
    assert_eq!(rt; numbers.next_number(), None);
    assert_eq!(rt; numbers.position(), 5);
    assert_eq!(rt; numbers.finish(), Ok(()));

    let mut buffer = [0; 64];
    let stream = b"1 ]".as_slice();
    let mut numbers = NumberReader::new(stream, &mut buffer, kind, COMMAS);
    assert_eq!(rt; numbers.next_number(), Some(Ok(1)));
    assert_eq!(rt; numbers.position(), 2);
    assert_eq!(rt; numbers.next_number(), None);
    assert_eq!(rt; numbers.position(), 2);
}

/// Shows `NumberReader`, `NumberReader::finish`.
#[test]
fn what_follows_a_stream(rt: HostRuntime) {
    integers_are_apart::<u64>(STANDARD, LINES);
    let mut buffer = [0; 64];
    let kind = Integers::<u64>::new(STANDARD);
    let stream = b"1\nx".as_slice();
    let mut numbers = NumberReader::new(stream, &mut buffer, kind, LINES);
    assert_eq!(rt; numbers.next_number(), Some(Ok(1)));
    assert_eq!(rt; numbers.next_number(), None);
    assert_eq!(rt;
        numbers.finish(),
        Err(StreamError::Trailing(2, Some(LiteralError::Empty(2))))
    );
}

/// Shows `NumberReader::read_into`, `NumberReader::position`, `NumberReader::unread`.
#[test]
fn a_stream_into_a_slice(rt: HostRuntime) {
    integers_are_apart::<u64>(STANDARD, COMMAS);
    let mut buffer = [0; 64];
    let kind = Integers::<u64>::new(STANDARD);
    let stream = b"1,2;3".as_slice();
    let mut numbers = NumberReader::new(stream, &mut buffer, kind, COMMAS);
    let mut out = [0; 4];
    let read = numbers.read_into(&mut out);
    assert_eq!(rt; (read.count, read.end), (2, StreamEnd::Over(3)));
    assert_eq!(rt; out, [1, 2, 0, 0]);
    assert_eq!(rt; numbers.position(), 3);
    assert_eq!(rt; numbers.unread(), b";3".as_slice());
}

/// Shows `NumberReader::pass_byte`, `NumberReader::new_at`.
#[test]
fn a_list_in_brackets(rt: HostRuntime) {
    integers_are_apart::<u64>(STANDARD, COMMAS);
    let mut buffer = [0; 64];
    let kind = Integers::<u64>::new(STANDARD);
    // 100 bytes of the stream were read before
    let stream = b"[1, 2] x".as_slice();
    let mut numbers = NumberReader::new_at(stream, &mut buffer, kind, COMMAS, 100);
    assert_eq!(rt; numbers.pass_byte(b'['), Ok(true));
    // an empty list would end here
    assert_eq!(rt; numbers.pass_byte(b']'), Ok(false));
    assert_eq!(rt; numbers.next_number(), Some(Ok(1)));
    assert_eq!(rt; numbers.next_number(), Some(Ok(2)));
    assert_eq!(rt; numbers.next_number(), None);
    assert_eq!(rt; numbers.pass_byte(b']'), Ok(true));
    assert_eq!(rt; numbers.position(), 106);
}

/// Shows `fold_stream`.
#[test]
fn the_sum_of_a_stream(rt: HostRuntime) {
    // a call consumes its closure, so the next one needs another
    integers_are_apart::<u8>(STANDARD, LINES);
    let mut buffer = [0; 64];
    let kind = Integers::<u8>::new(STANDARD);
    let add = |sum: u8, number: u8| sum.checked_add(number);
    let stream = b"1\n20\n".as_slice();
    assert_eq!(rt;
        fold_stream(stream, &mut buffer, kind, LINES, 0, add),
        Ok(21)
    );
    // 200 + 100 is no `u8`: the step returned `None` at the 100, and the next number may begin at 8
    let add = |sum: u8, number: u8| sum.checked_add(number);
    let stream = b"200\n100\n7\n".as_slice();
    let sum = fold_stream(stream, &mut buffer, kind, LINES, 0, add);
    assert_eq!(rt; sum, Err(FoldError::Stopped(8)));
    let add = |sum: u8, number: u8| sum.checked_add(number);
    let stream = b"1\n2x".as_slice();
    let fault = StreamError::Trailing(3, Some(LiteralError::Empty(3)));
    let sum = fold_stream(stream, &mut buffer, kind, LINES, 0, add);
    assert_eq!(rt; sum, Err(FoldError::Stream(fault)));
}

/// Shows `NumberReader::fold_numbers`.
#[test]
fn the_greatest_number_of_a_stream(rt: HostRuntime) {
    integers_are_apart::<u32>(STANDARD, COMMAS);
    let mut buffer = [0; 64];
    let kind = Integers::<u32>::new(STANDARD);
    let stream = b"3, 12, 5; x".as_slice();
    let mut numbers = NumberReader::new(stream, &mut buffer, kind, COMMAS);
    let greatest = numbers.fold_numbers(0, |most: u32, number: u32| Some(most.max(number)));
    assert_eq!(rt; greatest, Ok(12));
    assert_eq!(rt; numbers.pass_byte(b';'), Ok(true));
}

/// Shows `NumberReader::pass_blanks`.
#[test]
fn the_blanks_after_an_array(rt: HostRuntime) {
    integers_are_apart::<u32>(STANDARD, COMMAS);
    let mut buffer = [0; 64];
    let kind = Integers::<u32>::new(STANDARD);
    let stream = b"[1] \n".as_slice();
    let mut numbers = NumberReader::new(stream, &mut buffer, kind, COMMAS);
    let add = |sum: u32, number: u32| sum.checked_add(number);
    assert_eq!(rt; numbers.fold_enclosed(b'[', b']', 0, add), Ok(1));
    assert_eq!(rt; numbers.position(), 3);
    assert_eq!(rt; numbers.pass_blanks(), Ok(()));
    assert_eq!(rt; numbers.position(), 5);
    assert_eq!(rt; numbers.finish(), Ok(()));
}

/// Where the faults of a stream are.
#[test]
fn the_position_of_a_fault(rt: HostRuntime) {
    let number = StreamError::Number(LiteralError::Empty(3));
    assert_eq!(rt; number.position(), Some(3));
    let trailing = StreamError::Trailing(5, Some(LiteralError::Empty(6)));
    assert_eq!(rt; FoldError::from(trailing).position(), Some(5));
    assert_eq!(rt; EnclosedFoldError::from(trailing).position(), Some(5));
    let stopped: FoldError<LiteralError> = FoldError::Stopped(8);
    assert_eq!(rt; stopped.position(), Some(8));
    assert_eq!(rt; EnclosedFoldError::from(stopped).position(), Some(8));
    let open: EnclosedFoldError<LiteralError> = EnclosedFoldError::NoClosing(7);
    assert_eq!(rt; open.position(), Some(7));
    let failed: StreamError<LiteralError> = StreamError::Read(ErrorKind::NotFound);
    assert_eq!(rt; failed.position(), None);
    let long: StreamError<LiteralError> = StreamError::TooLong;
    assert_eq!(rt; long.position(), None);
    let full: StreamError<LiteralError> = StreamError::NoRoom(9);
    assert_eq!(rt; full.position(), Some(9));
}

/// Shows `NumberReader::fold_enclosed`.
#[test]
fn the_sums_of_arrays(rt: HostRuntime) {
    integers_are_apart::<u32>(STANDARD, COMMAS);
    let mut buffer = [0; 64];
    let kind = Integers::<u32>::new(STANDARD);
    let stream = b"[1, 2] [ ] [3;".as_slice();
    let mut numbers = NumberReader::new(stream, &mut buffer, kind, COMMAS);
    let add = |sum: u32, number: u32| sum.checked_add(number);
    assert_eq!(rt; numbers.fold_enclosed(b'[', b']', 0, add), Ok(3));
    let add = |sum: u32, number: u32| sum.checked_add(number);
    assert_eq!(rt; numbers.fold_enclosed(b'[', b']', 0, add), Ok(0));
    let add = |sum: u32, number: u32| sum.checked_add(number);
    let sum = numbers.fold_enclosed(b'[', b']', 0, add);
    assert_eq!(rt; sum, Err(EnclosedFoldError::NoClosing(13)));
}

/// A separator is used with the number before it.
#[test]
fn a_separator_is_used(rt: HostRuntime) {
    integers_are_apart::<u32>(STANDARD, COMMAS);
    let mut buffer = [0; 64];
    let kind = Integers::<u32>::new(STANDARD);
    let mut numbers = NumberReader::new(b"1, 20".as_slice(), &mut buffer, kind, COMMAS);
    assert_eq!(rt; numbers.next_number(), Some(Ok(1)));
    assert_eq!(rt; numbers.position(), 2);
    assert_eq!(rt; numbers.pass_blanks(), Ok(()));
    assert_eq!(rt; numbers.position(), 3);
    assert_eq!(rt; numbers.next_number(), Some(Ok(20)));
    let mut buffer = [0; 64];
    integers_are_apart::<u32>(STANDARD, WHITESPACE);
    let mut numbers = NumberReader::new(b"1  2".as_slice(), &mut buffer, kind, WHITESPACE);
    assert_eq!(rt; numbers.next_number(), Some(Ok(1)));
    assert_eq!(rt; numbers.position(), 2);
    assert_eq!(rt; numbers.pass_blanks(), Ok(()));
    assert_eq!(rt; numbers.position(), 3);
    assert_eq!(rt; numbers.next_number(), Some(Ok(2)));
}

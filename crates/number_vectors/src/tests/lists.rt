//! Lists of numbers, digits whose number is known, and the ends of names.

use digit_floats::FloatError;
use digit_lists::{read_float_list, read_list_of};
use digit_literals::laws::lists::a_list_goes_on;
use digit_literals::{
    COMMAS, COMMAS_IN_LINE, Gap, LINES, ListEnd, LiteralError, SPACES_IN_LINE, WHITESPACE,
    expect_byte, name_end, read_at_most, read_exactly, read_list,
};
use digit_numbers::{Number, forms};
use lexical_format::STANDARD;

/// The numbers of a text, in four places that hold 7: these, how many were read, and why no more.
#[tactic(auto, unfolding(lexical_format::proofs::OnLiterals::lexical_on_literals))]
fn four(text: &[u8], gap: Gap) -> ([u8; 4], usize, ListEnd<LiteralError>) {
    let mut out = [7; 4];
    let read = read_list::<u8>(text, 0, STANDARD, gap, &mut out);
    (out, read.count, read.end)
}

#[test]
fn a_list_ends_where_no_number_follows(rt: HostRuntime) {
    let rows: [(&[u8], Gap, [u8; 4], usize, ListEnd<LiteralError>); 12] = [
        (b"1, 2 ,3]", COMMAS, [1, 2, 3, 7], 3, ListEnd::Over(7)),
        (b" \n1 ]", COMMAS, [1, 7, 7, 7], 1, ListEnd::Over(4)),
        (b"1,2,3,4", COMMAS, [1, 2, 3, 4], 4, ListEnd::Over(7)),
        (b"1,2,3,4,5", COMMAS, [1, 2, 3, 4], 4, ListEnd::Full(8)),
        (
            b"1,]",
            COMMAS,
            [1, 7, 7, 7],
            1,
            ListEnd::Fault(LiteralError::Empty(2)),
        ),
        (
            b"]",
            COMMAS,
            [7; 4],
            0,
            ListEnd::Fault(LiteralError::Empty(0)),
        ),
        (
            b"1,256",
            COMMAS,
            [1, 7, 7, 7],
            1,
            ListEnd::Fault(LiteralError::Overflow(4)),
        ),
        (
            b"1 ,2\n3",
            COMMAS_IN_LINE,
            [1, 2, 7, 7],
            2,
            ListEnd::Over(4),
        ),
        (b"1 2\n 3 \n", WHITESPACE, [1, 2, 3, 7], 3, ListEnd::Over(8)),
        (b"1\t2 x", SPACES_IN_LINE, [1, 2, 7, 7], 2, ListEnd::Over(4)),
        (b"1\r\n2\n", LINES, [1, 2, 7, 7], 2, ListEnd::Over(5)),
        (b"1\n\n2", LINES, [1, 7, 7, 7], 1, ListEnd::Over(2)),
    ];
    for (text, gap, out, count, end) in rows {
        let answer = four(text, gap);
        assert!(rt; answer == (out, count, end), "{text:?}: {answer:?}");
    }
    assert!(rt; four(b"", WHITESPACE) == ([7; 4], 0, ListEnd::Over(0)));
    a_list_goes_on::<u8>(b"1,2", STANDARD, COMMAS);
}

/// The `i16` of a text, in 16 places that hold 7: these, how many were read, and why no more.
#[tactic(auto, unfolding(lexical_format::proofs::OnLiterals::lexical_on_literals))]
fn sixteen(text: &[u8]) -> ([i16; 16], usize, ListEnd<LiteralError>) {
    let mut out = [7; 16];
    let read = read_list::<i16>(text, 0, STANDARD, COMMAS, &mut out);
    (out, read.count, read.end)
}

#[test]
fn after_alike_numbers_any_number_may_follow(rt: HostRuntime) {
    let rows: [(&[u8], [i16; 16], usize, ListEnd<LiteralError>); 8] = [
        (
            b"1,2,3,4,5,6,7,8,9,0,1,2,3,4,5,6",
            [1, 2, 3, 4, 5, 6, 7, 8, 9, 0, 1, 2, 3, 4, 5, 6],
            16,
            ListEnd::Over(31),
        ),
        (
            b"1,2,3,4,5,6,7,8,90,10,11,12345,1]",
            [1, 2, 3, 4, 5, 6, 7, 8, 90, 10, 11, 12345, 1, 7, 7, 7],
            13,
            ListEnd::Over(32),
        ),
        (
            b"1,2,3,4,5,6,7,8,9,10, 32767,-32768",
            [1, 2, 3, 4, 5, 6, 7, 8, 9, 10, 32767, -32768, 7, 7, 7, 7],
            12,
            ListEnd::Over(34),
        ),
        (
            b"-1,-2,-3,-4,-5,-6,-7,-8,-9,-10,-1,2]",
            [-1, -2, -3, -4, -5, -6, -7, -8, -9, -10, -1, 2, 7, 7, 7, 7],
            12,
            ListEnd::Over(35),
        ),
        (
            b"10,11,12,13,14,15,16,17,18,19,1,200",
            [10, 11, 12, 13, 14, 15, 16, 17, 18, 19, 1, 200, 7, 7, 7, 7],
            12,
            ListEnd::Over(35),
        ),
        (
            b"1,2,3,4,5,6,7,8,9,0,x,1,2,3,4",
            [1, 2, 3, 4, 5, 6, 7, 8, 9, 0, 7, 7, 7, 7, 7, 7],
            10,
            ListEnd::Fault(LiteralError::Empty(20)),
        ),
        (
            b"1,2,3,4,5,6,7,8,9,0,32768,1,2,3,4",
            [1, 2, 3, 4, 5, 6, 7, 8, 9, 0, 7, 7, 7, 7, 7, 7],
            10,
            ListEnd::Fault(LiteralError::Overflow(24)),
        ),
        (
            b"1,2,3,4,5,6,7,8,9,0,-32769,1,2,3,4",
            [1, 2, 3, 4, 5, 6, 7, 8, 9, 0, 7, 7, 7, 7, 7, 7],
            10,
            ListEnd::Fault(LiteralError::Overflow(25)),
        ),
    ];
    for (text, out, count, end) in rows {
        let answer = sixteen(text);
        assert!(rt; answer == (out, count, end), "{text:?}: {answer:?}");
    }
}

#[test]
#[tactic(auto, unfolding(lexical_format::proofs::OnLiterals::lexical_on_literals))]
fn lists_of_floats_and_of_a_form(rt: HostRuntime) {
    let mut floats = [0.5; 3];
    let read = read_float_list::<f64>(b"[48.25 -1e2 .]", 1, STANDARD, WHITESPACE, &mut floats);
    assert!(rt; floats == [48.25, -100.0, 0.5] && read.count == 2);
    assert!(rt; read.end == ListEnd::Fault(FloatError::Empty(13)));
    let mut numbers = [Number::Float(0.5); 3];
    let read = read_list_of::<f64>(b"2.5, 1e1,.5", 0, forms::JSON, COMMAS, &mut numbers);
    assert!(rt; read.count == 2 && numbers[1] == Number::Float(10.0));
    assert!(rt; numbers[2] == Number::Float(0.5));
}

/// The minutes of a day at a time such as `07:05`. Two digits are below 100, so no sum is above the
/// greatest `u16`: that is proved without a line.
fn minutes_of(time: &[u8]) -> Option<u16> {
    let (hours, at) = read_exactly::<u16>(time, 0, 10, 2).ok()?;
    let at = expect_byte(time, at, b':').ok()?;
    let (minutes, _) = read_exactly::<u16>(time, at, 10, 2).ok()?;
    Some(hours * 60 + minutes)
}

#[test]
fn digits_whose_number_is_known(rt: HostRuntime) {
    assert_eq!(rt; minutes_of(b"07:05"), Some(425));
    assert_eq!(rt; minutes_of(b"7:05"), None);
    let date = b"2026-11-25T7:05";
    assert!(rt; read_exactly::<u16>(date, 0, 10, 4) == Ok((2026, 4)));
    assert!(rt; read_exactly::<u8>(date, 8, 10, 2) == Ok((25, 10)));
    assert!(rt; read_exactly::<u8>(date, 11, 10, 2) == Err(LiteralError::Empty(12)));
    assert!(rt; read_exactly::<u8>(date, 14, 10, 2) == Err(LiteralError::Empty(15)));
    assert!(rt; read_exactly::<u8>(date, 0, 10, 4) == Err(LiteralError::Overflow(3)));
    assert!(rt; read_exactly::<u32>(b"u00E9", 1, 16, 4) == Ok((233, 5)));
    assert!(rt; read_exactly::<u128>(b"18446744073709551616", 0, 10, 20) == Ok((1 << 64, 20)));
    assert!(rt; read_exactly::<i8>(b"128", 9, 10, 0) == Ok((0, 9)));
    assert!(rt; read_exactly::<u8>(b"000", 0, 1, 3) == Ok((0, 3)));
    assert!(rt; read_exactly::<u8>(b"01", 0, 1, 2) == Err(LiteralError::Empty(1)));
    assert!(rt; read_exactly::<u8>(b"0", 0, 0, 1) == Err(LiteralError::Empty(0)));
    assert!(rt; read_at_most::<u8>(date, 11, 10, 2) == Ok((7, 12)));
    assert!(rt; read_at_most::<i8>(b"128", 0, 10, 2) == Ok((12, 2)));
    assert!(rt; read_at_most::<u8>(b"x", 0, 10, 2) == Err(LiteralError::Empty(0)));
}

#[test]
fn where_a_name_ends(rt: HostRuntime) {
    assert!(rt; name_end(b"10px_2\xc3\xa9;", 2) == 8 && name_end(b"10 px", 2) == 2);
    assert!(rt; name_end(b"10", 2) == 2 && name_end(b"10", 9) == 9);
}

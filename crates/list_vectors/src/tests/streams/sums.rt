//! The sum of the integers of a stream, as digit_uses has it.

use super::readers::{Pieces, Turn};
use digit_literals::LiteralError;
use digit_streams::StreamError;
use digit_uses::sums::sum_of;
use std::io::ErrorKind;

/// What is answered of a text that comes by these turns.
fn sum(text: &[u8], turns: &[Turn], buffer: &mut [u8]) -> Result<i128, StreamError<LiteralError>> {
    sum_of(Pieces::new(text, turns), buffer)
}

#[test]
fn a_sum_cut_anywhere(rt: HostRuntime) {
    let text = b"12\n-5\r\n 1000\t\n+7";
    for n in 1..18 {
        assert_eq!(rt; sum(text, &[Turn::Pass(n)], &mut [0; 8]), Ok(1014));
        let turns = [Turn::Pass(n), Turn::Interrupt];
        assert_eq!(rt; sum(text, &turns, &mut [0; 64]), Ok(1014));
    }
}

#[test]
fn sums_without_carry(rt: HostRuntime) {
    let turns = [Turn::Pass(5)];
    assert_eq!(rt; sum(b"", &turns, &mut [0; 8]), Ok(0));
    assert_eq!(rt; sum(b"5", &turns, &mut [0; 8]), Ok(5));
    assert_eq!(rt; sum(b"5\n", &turns, &mut [0; 8]), Ok(5));
    let most = b"9223372036854775807\n9223372036854775807\n9223372036854775807";
    assert_eq!(rt;
        sum(most, &turns, &mut [0; 32]),
        Ok(27_670_116_110_564_327_421)
    );
    let least = b"-9223372036854775808\n-9223372036854775808\n";
    assert_eq!(rt;
        sum(least, &turns, &mut [0; 32]),
        Ok(-18_446_744_073_709_551_616)
    );
}

#[test]
fn a_sum_with_a_fault(rt: HostRuntime) {
    let turns = [Turn::Pass(3)];
    let empty = StreamError::Number(LiteralError::Empty(3));
    assert_eq!(rt; sum(b"1\n-\n2", &turns, &mut [0; 8]), Err(empty));
    let large = StreamError::Number(LiteralError::Overflow(20));
    assert_eq!(rt;
        sum(b"1\n9223372036854775808\n", &turns, &mut [0; 32]),
        Err(large)
    );
    let no_room = StreamError::NoRoom(2);
    assert_eq!(rt; sum(b"1\n2345\n", &turns, &mut [0; 4]), Err(no_room));
    let failed = StreamError::Read(ErrorKind::Other);
    let turns = [Turn::Pass(3), Turn::Fail];
    assert_eq!(rt; sum(b"1\n2\n", &turns, &mut [0; 8]), Err(failed));
}

#[test]
fn bytes_after_a_sum(rt: HostRuntime) {
    let turns = [Turn::Pass(2)];
    let trailing = [
        (b"x".as_slice(), 0),
        (b"\n1".as_slice(), 0),
        (b"1\n2x".as_slice(), 3),
        (b"1\n\n2".as_slice(), 2),
        (b"1\n2;".as_slice(), 3),
        (b"1\n2\nx".as_slice(), 4),
    ];
    for (text, at) in trailing {
        assert_eq!(rt;
            sum(text, &turns, &mut [0; 8]),
            Err(StreamError::Trailing(at, Some(LiteralError::Empty(at as usize))))
        );
    }
}

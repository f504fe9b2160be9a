//! Tests: texts that are cut into blocks, at each two positions, by worked rows.

use digit_blocks::laws::{
    a_piece_is_a_list, blocks_give_the_list, cuts_give_the_list, kinds_have_none_at_the_end,
};
use digit_blocks::{block_start, end_in_text};
use digit_literals::{COMMAS, Gap, LINES, LiteralError, WHITESPACE};
use digit_pieces::{Integers, Kind, PieceEnd, read_piece};
use lexical_format::STANDARD;

/// A text, what is between its numbers, a position, and where the first block from there on begins.
type Start = (&'static [u8], Gap, usize, usize);

static STARTS: [Start; 19] = [
    (b"12,345,6", COMMAS, 0, 0),
    (b"12,345,6", COMMAS, 1, 3),
    (b"12,345,6", COMMAS, 2, 3),
    (b"12,345,6", COMMAS, 3, 3),
    (b"12,345,6", COMMAS, 4, 7),
    (b"12,345,6", COMMAS, 7, 7),
    (b"12,345,6", COMMAS, 8, 8),
    (b"12,345,", COMMAS, 4, 7),
    (b"12 , 3", COMMAS, 1, 4),
    (b"12 3", COMMAS, 1, 4),
    (b"1\r\n2\n", LINES, 1, 3),
    (b"1\r\n2\n", LINES, 2, 3),
    (b"1\r\n2\n", LINES, 3, 3),
    (b"1\r\n2\n", LINES, 5, 5),
    (b"1  2", WHITESPACE, 1, 2),
    (b"1  2", WHITESPACE, 2, 2),
    (b"1  2", WHITESPACE, 3, 3),
    (b"1  2", WHITESPACE, 4, 4),
    (b"", LINES, 0, 0),
];

#[test]
fn a_block_begins_after_a_separator(rt: HostRuntime) {
    for &(text, gap, at, start) in &STARTS {
        if at <= text.len() {
            let found = block_start(text, at, gap);
            assert!(rt; found == start, "{text:?} from {at}: {found}");
        }
    }
}

/// Reads a text in blocks that are cut at positions: how many numbers are read, and why no more.
fn read_in_blocks<K: Kind>(
    kind: K,
    text: &[u8],
    gap: Gap,
    cuts: [usize; 2],
    out: &mut [K::Number],
) -> (usize, PieceEnd<K::Error>)
    requires { K.valid kind }
{
    let mut from = 0;
    let mut count = 0;
    for cut in [cuts[0], cuts[1], text.len()] {
        let to = block_start(text, cut.min(text.len()), gap);
        if from > to || count > out.len() {
            break;
        }
        let is_last = to == text.len();
        let read = read_piece(kind, &text[from..to], 0, gap, is_last, &mut out[count..]);
        count += read.count;
        match end_in_text::<K>(read.end, from) {
            Some(PieceEnd::More(_)) => from = to,
            Some(end) => return (count, end),
            None => break,
        }
    }
    (count, PieceEnd::More(from))
}

/// A text, what is between its numbers, these, and why there are no more.
type Row = (&'static [u8], Gap, &'static [i16], PieceEnd<LiteralError>);

static ROWS: [Row; 12] = [
    (
        b"1,-22, 333 ,4",
        COMMAS,
        &[1, -22, 333, 4],
        PieceEnd::Over(13),
    ),
    (b"1,22;3,4", COMMAS, &[1, 22], PieceEnd::Over(4)),
    (
        b"1,x,3",
        COMMAS,
        &[1],
        PieceEnd::Fault(LiteralError::Empty(2)),
    ),
    (
        b"1,2,",
        COMMAS,
        &[1, 2],
        PieceEnd::Fault(LiteralError::Empty(4)),
    ),
    (
        b"7,99999,1",
        COMMAS,
        &[7],
        PieceEnd::Fault(LiteralError::Overflow(6)),
    ),
    (b"", COMMAS, &[], PieceEnd::Fault(LiteralError::Empty(0))),
    (b"1\n22\n333\n", LINES, &[1, 22, 333], PieceEnd::Over(9)),
    (b"1\r\n22\n\n3", LINES, &[1, 22], PieceEnd::Over(6)),
    (
        b"1\n-\n3",
        LINES,
        &[1],
        PieceEnd::Fault(LiteralError::Empty(3)),
    ),
    (b"1\n2\n3x\n", LINES, &[1, 2, 3], PieceEnd::Over(5)),
    (
        b"10 20\n30  ",
        WHITESPACE,
        &[10, 20, 30],
        PieceEnd::Over(10),
    ),
    (b" 1  2, 3", WHITESPACE, &[1, 2], PieceEnd::Over(5)),
];

#[test]
#[tactic(auto, unfolding(lexical_format::proofs::OnLiterals::lexical_on_literals))]
fn blocks_have_the_numbers_of_the_text(rt: HostRuntime) {
    let kind = Integers::<i16>::new(STANDARD);
    for &(text, gap, numbers, end) in &ROWS {
        for first in 0..=text.len() {
            for second in first..=text.len() {
                let mut out = [0; 8];
                let cuts = [first, second];
                let read = read_in_blocks(kind, text, gap, cuts, &mut out);
                assert!(rt;
                    read.0 == numbers.len() && read.1 == end && out.starts_with(numbers),
                    "{text:?} cut at {cuts:?}: {read:?} {out:?}"
                );
            }
        }
    }
    blocks_give_the_list(kind, COMMAS);
    cuts_give_the_list(kind, LINES);
    a_piece_is_a_list(kind, WHITESPACE);
}

#[test]
#[tactic(auto, unfolding(lexical_format::proofs::OnLiterals::lexical_on_literals))]
fn an_end_is_later_by_the_blocks_offset(rt: HostRuntime) {
    let later = end_in_text::<Integers<u8>>(PieceEnd::Full(2), 40);
    assert!(rt; later == Some(PieceEnd::Full(42)));
    let none = PieceEnd::Fault(LiteralError::Overflow(3));
    let later = end_in_text::<Integers<u8>>(none, usize::MAX - 3);
    assert!(rt; later == Some(PieceEnd::Fault(LiteralError::Overflow(usize::MAX))));
    assert!(rt; end_in_text::<Integers<u8>>(none, usize::MAX - 2) == None);
    assert!(rt; end_in_text::<Integers<u8>>(PieceEnd::More(1), usize::MAX) == None);
}

/// The laws of kinds are for each text.
#[test]
#[tactic(auto, unfolding(lexical_format::proofs::OnLiterals::lexical_on_literals))]
fn no_number_is_at_the_end(_rt: HostRuntime) {
    kinds_have_none_at_the_end(b"1:2,", STANDARD);
}

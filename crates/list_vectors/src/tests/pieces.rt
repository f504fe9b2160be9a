//! Tests: worked rows, and texts that are cut by chance into pieces of 1 to 40 bytes.

ghost use Rattle.std.specs.Prelude.{◌<◌, length};

use digit_floats::FloatError;
use digit_languages::languages::RUST;
use digit_literals::{COMMAS, Gap, LINES, LiteralError, SPACES_IN_LINE, WHITESPACE};
use digit_numbers::{Number, forms};
use digit_pieces::laws::{
    a_number_is_given, a_piece_goes_on, a_text_is_a_list, pieces_give_the_list,
};
use digit_pieces::{
    Both, BothError, Floats, Integers, Kind, OfForm, OfLanguage, PieceEnd, Scaled,
    read_float_list_piece, read_list_piece, read_list_piece_of, read_piece, read_scaled_list_piece,
    sure_end,
};
use lexical_format::STANDARD;
use lexical_format::words::PYTHON_LITERAL;

/// A comma or blanks, so that what follows a blank decides.
const COMMAS_OR_BLANKS: Gap = Gap {
    blanks_separate: true,
    ..COMMAS
};

/// A piece, what is between its numbers, how many of its floats are read, and why no more.
type Row = (&'static [u8], Gap, usize, PieceEnd<FloatError>);

static ROWS: [Row; 28] = [
    (b"", COMMAS, 0, PieceEnd::More(0)),
    (b"1.5", COMMAS, 0, PieceEnd::More(0)),
    (b"1.5,-2", COMMAS, 1, PieceEnd::More(4)),
    (b"1.5,-", COMMAS, 1, PieceEnd::More(4)),
    (b"1.5,2e", COMMAS, 1, PieceEnd::More(4)),
    (b"1.5,2.", COMMAS, 1, PieceEnd::More(4)),
    (b"1.5,", COMMAS, 1, PieceEnd::More(4)),
    (b"1.5, ", COMMAS, 1, PieceEnd::More(5)),
    (b"1.5 ", COMMAS, 0, PieceEnd::More(0)),
    (b"1.5 ]", COMMAS, 1, PieceEnd::Over(4)),
    (b"1.5]", COMMAS, 1, PieceEnd::Over(3)),
    (b"1.5,]", COMMAS, 1, PieceEnd::Fault(FloatError::Empty(4))),
    (
        b"1.5,2e,",
        COMMAS,
        1,
        PieceEnd::Fault(FloatError::EmptyExponent(6)),
    ),
    (b"1,2,3,4,5,6", COMMAS, 4, PieceEnd::Full(8)),
    (b"1 2 ", WHITESPACE, 2, PieceEnd::More(4)),
    (b"1 2", WHITESPACE, 1, PieceEnd::More(2)),
    (b"1 2 3 4 ", WHITESPACE, 4, PieceEnd::Full(8)),
    (b"1 2 3 4\r\n\n5", WHITESPACE, 4, PieceEnd::Full(8)),
    (b"1 2 3 4;", WHITESPACE, 4, PieceEnd::Over(7)),
    (b"1 2 ;", WHITESPACE, 2, PieceEnd::Over(4)),
    (b"1\t ", SPACES_IN_LINE, 1, PieceEnd::More(3)),
    (b"1 2 ", COMMAS_OR_BLANKS, 1, PieceEnd::More(2)),
    (b"1 2 , 3 4 5", COMMAS_OR_BLANKS, 4, PieceEnd::Full(10)),
    (b"1 2\n\n3", WHITESPACE, 2, PieceEnd::More(5)),
    (b" \n", WHITESPACE, 0, PieceEnd::More(2)),
    (b"1\r", LINES, 0, PieceEnd::More(0)),
    (b"1\r\n2\n", LINES, 2, PieceEnd::More(5)),
    (b"1\n\n2", LINES, 1, PieceEnd::Over(2)),
];

#[test]
#[tactic(auto, unfolding(lexical_format::proofs::OnLiterals::lexical_on_literals))]
fn pieces_that_are_not_the_last(rt: HostRuntime) {
    for &(piece, gap, count, end) in &ROWS {
        let mut out = [0.0; 4];
        let read = read_float_list_piece::<f64>(piece, 0, STANDARD, gap, false, &mut out);
        assert!(rt;
            read.count == count && read.end == end,
            "{piece:?}: {read:?}"
        );
    }
}

/// A piece, what is between its numbers, whether it is the last, how many of its integers are read
/// into 64 places, and why no more. They are read as a list up to the last separator.
type LongRow = (&'static [u8], Gap, bool, usize, PieceEnd<LiteralError>);

static LONG_ROWS: [LongRow; 13] = [
    (
        b"100000000000000001,200000000000000002,300000000000000003,400000000000000004,500000000000000005,6",
        COMMAS,
        false,
        5,
        PieceEnd::More(95),
    ),
    (
        b"100000000000000001,200000000000000002,300000000000000003,400000000000000004,500000000000000005,6",
        COMMAS,
        true,
        6,
        PieceEnd::Over(96),
    ),
    (
        b"100000000000000001,200000000000000002,300000000000000003,400000000000000004,500000000000000005",
        COMMAS,
        false,
        4,
        PieceEnd::More(76),
    ),
    (
        b"100000000000000001,200000000000000002,300000000000000003,400000000000000004,500000000000000005",
        COMMAS,
        true,
        5,
        PieceEnd::Over(94),
    ),
    (
        b"100000000000000001,200000000000000002,300000000000000003,400000000000000004,500000000000000005]",
        COMMAS,
        false,
        5,
        PieceEnd::Over(94),
    ),
    (
        b"100000000000000001,200000000000000002,300000000000000003,400000000000000004,500000000000000005,",
        COMMAS,
        false,
        5,
        PieceEnd::More(95),
    ),
    (
        b"100000000000000001,200000000000000002,300000000000000003,400000000000000004,500000000000000005,",
        COMMAS,
        true,
        5,
        PieceEnd::Fault(LiteralError::Empty(95)),
    ),
    (
        b"100000000000000001,200000000000000002,300000000000000003,400000000000000004,500000000000000005 , ",
        COMMAS,
        false,
        5,
        PieceEnd::More(97),
    ),
    (
        b"100000000000000001,200000000000000002,300000000000000003,400000000000000004,500000000000000005,,7,",
        COMMAS,
        false,
        5,
        PieceEnd::Fault(LiteralError::Empty(95)),
    ),
    (
        b"100000000000000001,200000000000000002,300000000000000003,400000000000000004,500000000000000005x,7,",
        COMMAS,
        false,
        5,
        PieceEnd::Over(94),
    ),
    (
        b"100000000000000001\n200000000000000002\n300000000000000003\n400000000000000004\n500000000000000005\n\n7\n",
        LINES,
        false,
        5,
        PieceEnd::Over(95),
    ),
    (
        b"100000000000000001\n200000000000000002\n300000000000000003\n400000000000000004\n500000000000000005\r\n6",
        LINES,
        false,
        5,
        PieceEnd::More(96),
    ),
    (
        b"100000000000000001,9999999999999999999,300000000000000003,400000000000000004,500000000000000005,",
        COMMAS,
        false,
        1,
        PieceEnd::Fault(LiteralError::Overflow(37)),
    ),
];

#[test]
#[tactic(auto, unfolding(lexical_format::proofs::OnLiterals::lexical_on_literals))]
fn long_pieces(rt: HostRuntime) {
    for &(piece, gap, is_last, count, end) in &LONG_ROWS {
        let mut out = [0; 64];
        let read = read_list_piece::<i64>(piece, 0, STANDARD, gap, is_last, &mut out);
        assert!(rt;
            read.count == count && read.end == end,
            "{piece:?}: {read:?}"
        );
        assert!(rt; out[0] == 100_000_000_000_000_001);
        assert!(rt; out[1] == 200_000_000_000_000_002 || count == 1);
    }
}

#[test]
#[tactic(auto, unfolding(lexical_format::proofs::OnLiterals::lexical_on_literals))]
fn a_piece_of_each_kind(rt: HostRuntime) {
    let mut integers = [0i8; 3];
    let read = read_list_piece::<i8>(b"1, -12,3", 0, STANDARD, COMMAS, false, &mut integers);
    assert!(rt; integers == [1, -12, 0] && read.count == 2 && read.end == PieceEnd::More(7));
    let read = read_list_piece::<i8>(b"1, -12,3", 0, STANDARD, COMMAS, true, &mut integers);
    assert!(rt; integers == [1, -12, 3] && read.end == PieceEnd::Full(8) || read.count == 3);
    let read = read_list_piece::<i8>(b"200,", 0, STANDARD, COMMAS, false, &mut integers);
    assert!(rt; read.end == PieceEnd::Fault(LiteralError::Overflow(2)));
    let mut cents = [0u32; 2];
    let prices = Scaled::<u32>::new(STANDARD, b'.', 2);
    let read = read_scaled_list_piece(b"1.25\n7\n0.5", 0, prices, LINES, false, &mut cents);
    assert!(rt; cents == [125, 700] && read.count == 2 && read.end == PieceEnd::Full(7));
    let mut numbers = [Number::Float(0.5); 2];
    let read = read_list_piece_of::<f64>(b"1.5e3,12", 0, forms::JSON, COMMAS, false, &mut numbers);
    assert!(rt; numbers[0] == Number::Float(1500.0) && read.end == PieceEnd::More(6));
    assert!(rt; sure_end(Integers::<u64>::new(PYTHON_LITERAL), b"1_0;2_") == 4);
    assert!(rt; sure_end(Integers::<u64>::new(STANDARD), b"1-2") == 2);
    assert!(rt; sure_end(Integers::<i64>::new(STANDARD), b"1-2") == 0);
    assert!(rt; sure_end(OfLanguage::<u64>::new(RUST), b"0x1f, 0b") == 6);
}

/// Where blanks alone separate, a full slice ends after one blank: also of the last piece.
#[test]
#[tactic(auto, unfolding(lexical_format::proofs::OnLiterals::lexical_on_literals))]
fn a_full_slice_waits_for_no_blank(rt: HostRuntime) {
    let kind = Integers::<u8>::new(STANDARD);
    let mut two = [0; 2];
    for is_last in [false, true] {
        let read = read_piece(kind, b" 1  2   3", 0, WHITESPACE, is_last, &mut two);
        assert!(rt; read.count == 2 && read.end == PieceEnd::Full(6) && two == [1, 2]);
        let read = read_piece(kind, b" 1  2   3", 6, WHITESPACE, is_last, &mut two[..1]);
        assert!(rt;
            read.end
                == if is_last {
                    PieceEnd::Over(9)
                } else {
                    PieceEnd::More(8)
                }
        );
    }
    assert!(rt; two == [3, 2]);
    a_number_is_given(kind, b"1 2", WHITESPACE);
    a_piece_goes_on(kind, b"1 2", WHITESPACE);
    a_text_is_a_list(kind, b"1 2", WHITESPACE);
    pieces_give_the_list(kind, WHITESPACE);
}

/// Numbers by chance, from a seed.
#[derive(Drop)]
struct Chance {
    state: u64,
}

impl Chance {
    /// A number below a bound, which isn't 0.
    fn below(&mut self, bound: usize) -> usize
        requires { 0 < bound }
        ensures { result < bound }
    {
        let next = self.state.wrapping_mul(6_364_136_223_846_793_005);
        self.state = next.wrapping_add(1_442_695_040_888_963_407);
        (self.state >> 33) as usize % bound
    }
}

/// How long the made texts are.
const LENGTH: usize = 60;

/// How many numbers of a text are read.
const ROOM: usize = 12;

/// Reads a text piece by piece, cut by chance, each after what was left: how many numbers are read,
/// and why no more, with positions of the text.
fn read_cut<K: Kind>(
    kind: K,
    text: &[u8],
    gap: Gap,
    chance: &mut Chance,
    out: &mut [K::Number],
) -> (usize, PieceEnd<K::Error>)
    requires { K.valid kind }
{
    let mut from = 0;
    let mut end = 0usize;
    let mut count = 0;
    for _ in 0..=LENGTH {
        end = text.len().min(end.saturating_add(chance.below(41)));
        let is_last = end == text.len();
        if from > end || count > out.len() {
            break;
        }
        let read = read_piece(kind, &text[from..end], 0, gap, is_last, &mut out[count..]);
        count += read.count;
        match read.end {
            PieceEnd::More(at) => from += at,
            PieceEnd::Full(at) => return (count, PieceEnd::Full(from + at)),
            PieceEnd::Over(at) => return (count, PieceEnd::Over(from + at)),
            PieceEnd::Fault(error) if K::error_at(error) <= LENGTH => {
                return (count, PieceEnd::Fault(K::error_later(error, from)));
            }
            PieceEnd::Fault(_) => break,
        }
    }
    (count, PieceEnd::More(from))
}

/// Whether two slices have the same numbers.
fn are_same<T: PartialEq>(one: &[T], other: &[T]) -> bool {
    one == other
}

/// Whether made texts of some bytes are read the same in pieces and whole. The slices are equal.
fn reads_the_same<K: Kind>(
    kind: K,
    gap: Gap,
    bytes: &[u8],
    whole: &mut [K::Number],
    cut: &mut [K::Number],
) -> bool
where
    K::Number: PartialEq,
    K::Error: PartialEq,
    requires valid { K.valid kind }
    requires some { 0 < length bytes.now }
{
    let mut chance = Chance { state: 2026 };
    for _ in 0..TEXTS {
        let mut text = [b' '; LENGTH];
        for byte in &mut text {
            *byte = bytes[chance.below(bytes.len())];
        }
        let text = &text[..chance.below(LENGTH + 1)];
        let read = read_piece(kind, text, 0, gap, true, whole);
        let (count, end) = read_cut(kind, text, gap, &mut chance, cut);
        if count != read.count || end != read.end || !are_same(whole, cut) {
            return false;
        }
    }
    true
}

/// How many texts are made for each kind of numbers.
const TEXTS: u32 = 10_000;

#[test]
#[tactic(auto, unfolding(lexical_format::proofs::OnLiterals::lexical_on_literals))]
fn integers_are_the_same_in_pieces(rt: HostRuntime) {
    let kind = Integers::<i16>::new(PYTHON_LITERAL);
    assert!(rt;
        reads_the_same(
            kind,
            COMMAS,
            b"0123456789,,,,,,-+_ x",
            &mut [0; ROOM],
            &mut [0; ROOM]
        )
    );
    let kind = Integers::<u32>::new(STANDARD);
    assert!(rt;
        reads_the_same(
            kind,
            WHITESPACE,
            b"0123456789 \n\t\r",
            &mut [0; ROOM],
            &mut [0; ROOM]
        )
    );
}

#[test]
#[tactic(auto, unfolding(lexical_format::proofs::OnLiterals::lexical_on_literals))]
fn floats_are_the_same_in_pieces(rt: HostRuntime) {
    let kind = Floats::<f64>::new(STANDARD);
    assert!(rt;
        reads_the_same(
            kind,
            COMMAS,
            b"0123456789,,,,,,,-.e ",
            &mut [0.0; ROOM],
            &mut [0.0; ROOM]
        )
    );
    assert!(rt;
        reads_the_same(
            kind,
            LINES,
            b"123456789\n\n\n\n\n\r.e",
            &mut [0.0; ROOM],
            &mut [0.0; ROOM]
        )
    );
}

#[test]
#[tactic(auto, unfolding(lexical_format::proofs::OnLiterals::lexical_on_literals))]
fn points_are_the_same_in_pieces(rt: HostRuntime) {
    let side = Integers::<u16>::new(STANDARD);
    let kind = Both {
        first: side,
        between: b':',
        second: side,
    };
    let mut points = [(0, 0); 3];
    let read = read_piece(kind, b"3:4, 5:6,7", 0, COMMAS, false, &mut points);
    assert!(rt; points == [(3, 4), (5, 6), (0, 0)] && read.end == PieceEnd::More(9));
    let read = read_piece(kind, b"3:4,5:x", 0, COMMAS, false, &mut points);
    let none = BothError::Second(LiteralError::Empty(6));
    assert!(rt; read.count == 1 && read.end == PieceEnd::Fault(none));
    assert!(rt;
        reads_the_same(
            kind,
            COMMAS,
            b"0123456789:::::,,,,, ",
            &mut [(0, 0); ROOM],
            &mut [(0, 0); ROOM]
        )
    );
}

#[test]
#[tactic(auto, unfolding(lexical_format::proofs::OnLiterals::lexical_on_literals))]
fn scaled_numbers_are_the_same_in_pieces(rt: HostRuntime) {
    let kind = Scaled::<i64>::new(PYTHON_LITERAL, b'.', 2);
    assert!(rt;
        reads_the_same(
            kind,
            COMMAS,
            b"0123456789000,,,,,,,,-._ ",
            &mut [0; ROOM],
            &mut [0; ROOM]
        )
    );
}

#[test]
#[tactic(auto, unfolding(lexical_format::proofs::OnLiterals::lexical_on_literals))]
fn numbers_by_a_form_are_the_same_in_pieces(rt: HostRuntime) {
    let kind = OfForm::<f64>::new(forms::JSON);
    let zero = Number::Float(0.0);
    assert!(rt;
        reads_the_same(
            kind,
            COMMAS,
            b"0123456789,,,,,,,,-.e \n",
            &mut [zero; ROOM],
            &mut [zero; ROOM]
        )
    );
    let kind = OfForm::<f64>::new(forms::TOML);
    assert!(rt;
        reads_the_same(
            kind,
            WHITESPACE,
            b"01234567890x_inf  \n\n\n.e-",
            &mut [zero; ROOM],
            &mut [zero; ROOM]
        )
    );
}

#[test]
#[tactic(auto, unfolding(lexical_format::proofs::OnLiterals::lexical_on_literals))]
fn literals_are_the_same_in_pieces(rt: HostRuntime) {
    let kind = OfLanguage::<u16>::new(RUST);
    let same = reads_the_same(
        kind,
        COMMAS,
        b"00123456789xbo_af,,,,,,,,, ",
        &mut [0; ROOM],
        &mut [0; ROOM],
    );
    assert!(rt; same);
}

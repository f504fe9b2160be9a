//! Streams by a seed. A reader answers short, is interrupted, has nothing yet, waits too long or
//! fails between any two bytes; the buffer is about as long as the longest number. What is answered
//! is compared with the list of the whole text.

ghost use Rattle.std.specs.Prelude.{◌≤◌, length};

use digit_floats::FloatError;
use digit_lists::read_float_list;
use digit_literals::{COMMAS, Gap, LINES, ListEnd, WHITESPACE};
use digit_pieces::{Floats, Kind, read_piece, sure_end};
use digit_streams::{NumberReader, StreamEnd, StreamError};
use lexical_format::STANDARD;
use std::io;
use std::io::{ErrorKind, Read};

/// How many streams are tried, from which seed on: `.ci/streams` tries others.
const STREAMS: u64 = 1_000;

const SEED: u64 = 0;

/// The most bytes of a text, and the most numbers.
const LONGEST: usize = 96;

const MOST: usize = 64;

/// Numbers that look random: each follows from the one before.
#[derive(Clone, Copy)]
struct Seeded {
    state: u64,
}

impl Seeded {
    /// The next number below `n`, or 0 if there is none.
    fn below(&mut self, n: usize) -> usize
        ensures { result ≤ n }
    {
        self.state = self
            .state
            .wrapping_mul(6_364_136_223_846_793_005)
            .wrapping_add(1_442_695_040_888_963_407);
        if n == 0 {
            return 0;
        }
        (self.state >> 33) as usize % n
    }
}

/// A text that grows, and the length of its longest number.
#[derive(Drop)]
struct Text {
    bytes: [u8; LONGEST],
    length: usize,
    longest: usize,
}

impl Text {
    fn push(&mut self, byte: u8) {
        if let Some(place) = self.bytes.get_mut(self.length) {
            *place = byte;
            self.length += 1;
        }
    }

    fn push_any(&mut self, random: &mut Seeded, bytes: &[u8]) {
        if let Some(byte) = bytes.get(random.below(bytes.len())) {
            self.push(*byte);
        }
    }

    /// A number, or nearly one.
    fn push_number(&mut self, random: &mut Seeded) {
        let start = self.length;
        if random.below(4) == 0 {
            self.push_any(random, b"+-");
        }
        for _ in 0..1 + random.below(7) {
            self.push_any(random, b"0123456789");
        }
        if random.below(3) == 0 {
            self.push(b'.');
            for _ in 0..random.below(5) {
                self.push_any(random, b"0123456789");
            }
        }
        if random.below(5) == 0 {
            self.push_any(random, b"eE");
            self.push_any(random, b"+-0123456789");
            self.push_any(random, b"0123456789");
        }
        self.longest = self.longest.max(self.length.saturating_sub(start));
    }

    /// What is between two numbers, or rarely something else.
    fn push_gap(&mut self, random: &mut Seeded, gap: &[u8]) {
        if random.below(4) == 0 {
            self.push_any(random, b"  \t");
        }
        if random.below(24) == 0 {
            self.push_any(random, b";x-.e \n,");
        } else {
            self.push_any(random, gap);
        }
        for _ in 0..random.below(3) {
            if random.below(3) == 0 {
                self.push(b' ');
            }
        }
    }

    fn bytes(&self) -> &[u8] {
        &self.bytes[..self.length.min(LONGEST)]
    }
}

/// A text of some numbers.
fn text_of(random: &mut Seeded, gap: &[u8]) -> Text {
    let mut text = Text {
        bytes: [0; LONGEST],
        length: 0,
        longest: 0,
    };
    for _ in 0..random.below(12) {
        text.push_number(random);
        text.push_gap(random, gap);
    }
    if random.below(2) == 0 {
        text.push_number(random);
    }
    text
}

/// A reader of a text that may do anything between two bytes, and fails at a position.
#[derive(Drop)]
struct Unsteady<'a> {
    text: &'a [u8],
    at: usize,
    fails_at: usize,
    random: Seeded,
}

impl Read for Unsteady<'_> {
    fn read(&mut self, buf: &mut [u8]) -> io::Result<usize> {
        match self.random.below(9) {
            0 => return Err(io::Error::from(ErrorKind::Interrupted)),
            1 => return Err(io::Error::from(ErrorKind::WouldBlock)),
            2 => return Err(io::Error::from(ErrorKind::TimedOut)),
            _ => {}
        }
        if self.at >= self.fails_at {
            return Err(io::Error::from(ErrorKind::Other));
        }
        let rest = &self.text[self.at.min(self.text.len())..];
        let most = 1 + self.random.below(9);
        let count = most
            .min(rest.len())
            .min(buf.len())
            .min(self.fails_at - self.at);
        buf[..count].copy_from_slice(&rest[..count]);
        self.at += count;
        Ok(count)
    }
}

/// The floats of a stream.
type Reader<'b, 'r, 't> = NumberReader<'b, Floats<f64>, &'r mut Unsteady<'t>>;

/// What a stream gave: numbers, how many they are, and why no more.
#[derive(Drop)]
struct All {
    numbers: [f64; MOST],
    count: usize,
    end: StreamEnd<FloatError>,
}

/// Reads the next number, or a few.
#[tactic(auto, unfolding(lexical_format::proofs::OnLiterals::lexical_on_literals))]
fn read_some(
    reader: &mut Reader<'_, '_, '_>,
    out: &mut [f64],
    random: &mut Seeded,
) -> (usize, StreamEnd<FloatError>)
    ensures { result.0 ≤ length out.old }
{
    let few = random.below(5).min(out.len());
    if few > 0 {
        let read = reader.read_into(&mut out[..few]);
        return (read.count, read.end);
    }
    match (reader.next_number(), out.first_mut()) {
        (Some(Ok(number)), Some(place)) => {
            *place = number;
            (1, StreamEnd::Full(reader.position()))
        }
        (Some(Err(error)), _) => (0, StreamEnd::Fault(error)),
        _ => (0, StreamEnd::Over(reader.position())),
    }
}

/// Whether nothing had come yet.
fn waits(error: StreamError<FloatError>) -> bool {
    error == StreamError::Read(ErrorKind::WouldBlock)
        || error == StreamError::Read(ErrorKind::TimedOut)
}

/// Reads to the end of the numbers.
fn read_all(reader: &mut Reader<'_, '_, '_>, random: &mut Seeded) -> All {
    let mut numbers = [0.0; MOST];
    let mut count = 0;
    let mut end = StreamEnd::Full(0);
    for _ in 0..9_999 {
        if count >= MOST {
            break;
        }
        let (more, last) = read_some(reader, &mut numbers[count..], random);
        count += more;
        end = last;
        match end {
            StreamEnd::Full(_) => {}
            StreamEnd::Over(_) => break,
            StreamEnd::Fault(error) => {
                if !waits(error) {
                    break;
                }
            }
        }
    }
    All {
        numbers,
        count,
        end,
    }
}

/// How many numbers of a front of a text are sure.
#[tactic(auto, unfolding(lexical_format::proofs::OnLiterals::lexical_on_literals))]
fn count_sure(front: &[u8], gap: Gap) -> usize {
    let kind = Floats::<f64>::new(STANDARD);
    let read = read_piece(kind, front, 0, gap, false, &mut [0.0; MOST]);
    read.count
}

/// Whether the numbers are the first of the list, and whether they end as they have to: as the list
/// does; or where no number of the bytes that are held is sure; or after each number that is sure
/// in what the reader gave.
#[tactic(auto, unfolding(lexical_format::proofs::OnLiterals::lexical_on_literals))]
fn is_right(text: &[u8], gap: Gap, all: &All, held: &[u8], given: &[u8]) -> bool {
    let mut whole = [0.0; MOST];
    let list = read_float_list::<f64>(text, 0, STANDARD, gap, &mut whole);
    let count = all.count.min(MOST);
    if list.count < count || whole[..count] != all.numbers[..count] {
        return false;
    }
    match all.end {
        StreamEnd::Over(at) => list.count == count && list.end == ListEnd::Over(at as usize),
        StreamEnd::Fault(StreamError::Number(error)) => {
            list.count == count && list.end == ListEnd::Fault(error)
        }
        StreamEnd::Fault(StreamError::NoRoom(_)) => count_sure(held, gap) == 0,
        StreamEnd::Fault(StreamError::Read(kind)) => {
            kind == ErrorKind::Other && count_sure(given, gap) == count
        }
        StreamEnd::Full(_) | StreamEnd::Fault(_) => false,
    }
}

/// Whether this is why no number is at a position of a text, of which so many bytes are held there.
#[tactic(auto, unfolding(lexical_format::proofs::OnLiterals::lexical_on_literals))]
fn is_reason(text: &[u8], at: usize, held: &[u8], reason: Option<FloatError>) -> bool {
    if at >= text.len() {
        return false;
    }
    let kind = Floats::<f64>::new(STANDARD);
    match (kind.read_number(text, at), reason) {
        (Err(error), Some(told)) => error == told,
        (Err(_), None) => sure_end(kind, held) == 0,
        (Ok(_), reason) => reason.is_none(),
    }
}

/// Whether `finish` answers what it has to, where the numbers are over at a position.
fn is_finished(reader: &mut Reader<'_, '_, '_>, text: &[u8], at: usize) -> bool {
    for _ in 0..999 {
        match reader.finish() {
            Ok(()) => return at == text.len(),
            Err(StreamError::Trailing(place, reason)) => {
                return place == at as u64 && is_reason(text, at, reader.unread(), reason);
            }
            Err(error) => {
                if !waits(error) {
                    return error == StreamError::Read(ErrorKind::Other)
                        && reader.unread().is_empty();
                }
            }
        }
    }
    false
}

/// Whether a stream by a seed is read as its text is.
#[tactic(auto, unfolding(lexical_format::proofs::OnLiterals::lexical_on_literals))]
fn is_read(seed: u64) -> bool {
    let mut random = Seeded { state: seed };
    let (gap, between) = match random.below(3) {
        0 => (COMMAS, b",".as_slice()),
        1 => (LINES, b"\n".as_slice()),
        _ => (WHITESPACE, b" \n\t".as_slice()),
    };
    let text = text_of(&mut random, between);
    let room = match random.below(3) {
        0 => text.longest.saturating_add(random.below(4)),
        1 => LONGEST,
        _ => random.below(LONGEST),
    };
    let fails_at = match random.below(2) {
        0 => usize::MAX,
        _ => random.below(LONGEST),
    };
    let mut source = Unsteady {
        text: text.bytes(),
        at: 0,
        fails_at,
        random,
    };
    let mut buffer = [0; LONGEST];
    let room = room.min(LONGEST);
    let kind = Floats::<f64>::new(STANDARD);
    let mut reader = NumberReader::new(&mut source, &mut buffer[..room], kind, gap);
    let all = read_all(&mut reader, &mut random);
    if let StreamEnd::Over(at) = all.end {
        if !is_finished(&mut reader, text.bytes(), at as usize) {
            return false;
        }
    }
    let at = reader.position() as usize;
    let rest = text.bytes().get(at..).unwrap_or(b"");
    let Some(held) = rest.get(..reader.unread().len()) else {
        return false;
    };
    if held != reader.unread() {
        return false;
    }
    if all.end == StreamEnd::Fault(StreamError::NoRoom(at as u64)) && held.len() < room {
        return false;
    }
    let given = text.bytes().get(..source.at).unwrap_or(b"");
    is_right(text.bytes(), gap, &all, held, given)
}

#[test]
fn streams_by_a_seed(rt: HostRuntime) {
    for turn in 0..STREAMS {
        let seed = turn.wrapping_add(SEED);
        assert!(rt; is_read(seed), "{seed}");
    }
}

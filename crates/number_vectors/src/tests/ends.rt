//! Lists whose numbers are read by their ends, beside the same lists with each number read alone:
//! on made texts, with 60 to 256 bytes left, faults among the numbers, numbers of 1 to 40 digits,
//! up to three blanks around separators, and another form from the 21st number on.

ghost use Rattle.std.specs.Prelude.{IsTrue, ◌<◌};
ghost use Rattle.lexical_format.specs.Word.{is_supported};

use digit_literals::{
    COMMAS, COMMAS_IN_LINE, Gap, Integer, LINES, ListEnd, ListRead, LiteralError, WHITESPACE,
    read_list, read_number_from,
};
use lexical_digits::ops::ByteSet;
use lexical_format::words::{JAVA_LITERAL, PYTHON_LITERAL, RUST_LITERAL};
use lexical_format::{STANDARD, is_supported};
use std::process::Abort;

/// A list, with each number read alone.
fn read_alone<T: Integer>(
    rt: &impl Abort,
    text: &[u8],
    word: u128,
    gap: Gap,
    out: &mut [T],
) -> ListRead<LiteralError>
    requires { IsTrue (is_supported word) }
{
    let mut at = 0;
    for count in 0..out.len() {
        assert!(rt; at <= text.len(), "{at}");
        let place = gap.past_blanks(text, at);
        let (value, end) = match read_number_from::<T>(text, word, place) {
            Ok(read) => read,
            Err(error) => {
                let end = gap.no_number(place, error.is_none_at(place), error);
                return ListRead { count, end };
            }
        };
        out[count] = value;
        match gap.next_after(text, end) {
            Ok(next) => at = next,
            Err(over) => {
                return ListRead {
                    count: count.wrapping_add(1),
                    end: ListEnd::Over(over),
                };
            }
        }
    }
    ListRead {
        count: out.len(),
        end: ListEnd::Full(at),
    }
}

/// Whether a list of a text is the same both ways, in two slices.
fn is_same<T: Integer + PartialEq>(
    rt: &impl Abort,
    text: &[u8],
    word: u128,
    gap: Gap,
    alone: &mut [T],
    by_ends: &mut [T],
) -> bool {
    assert!(rt; is_supported(word));
    let expected = read_alone::<T>(rt, text, word, gap, alone);
    let read = read_list::<T>(text, 0, word, gap, by_ends);
    read == expected && alone[..] == by_ends[..]
}

/// Whether the lists of each type are the same both ways, in 160 places that hold 7; and of two
/// types in 63 and 64, of which the fewer are no reason to look for ends.
fn are_same(rt: &impl Abort, text: &[u8], word: u128, gap: Gap) -> bool {
    is_same::<u8>(rt, text, word, gap, &mut [7; 160], &mut [7; 160])
        && is_same::<i8>(rt, text, word, gap, &mut [7; 160], &mut [7; 160])
        && is_same::<u16>(rt, text, word, gap, &mut [7; 160], &mut [7; 160])
        && is_same::<i16>(rt, text, word, gap, &mut [7; 160], &mut [7; 160])
        && is_same::<u32>(rt, text, word, gap, &mut [7; 160], &mut [7; 160])
        && is_same::<i32>(rt, text, word, gap, &mut [7; 160], &mut [7; 160])
        && is_same::<u64>(rt, text, word, gap, &mut [7; 160], &mut [7; 160])
        && is_same::<i64>(rt, text, word, gap, &mut [7; 160], &mut [7; 160])
        && is_same::<u128>(rt, text, word, gap, &mut [7; 160], &mut [7; 160])
        && is_same::<i128>(rt, text, word, gap, &mut [7; 160], &mut [7; 160])
        && is_same::<u64>(rt, text, word, gap, &mut [7; 63], &mut [7; 63])
        && is_same::<i64>(rt, text, word, gap, &mut [7; 64], &mut [7; 64])
}

/// Numbers by chance.
#[derive(Drop)]
struct Random {
    last: u64,
}

impl Random {
    /// The next one, below a number.
    fn below(&mut self, most: u64) -> u64
        requires { 0 < most }
    {
        self.last = self.last.wrapping_mul(6364136223846793005).wrapping_add(1);
        (self.last >> 33) % most
    }
}

/// A text that is made.
#[derive(Drop)]
struct Page {
    bytes: [u8; 256],
    length: usize,
}

impl Page {
    /// One byte more, if there is room.
    fn push(&mut self, byte: u8) {
        if self.length < 256 {
            self.bytes[self.length] = byte;
            self.length += 1;
        }
    }
}

/// What a list is made of.
#[derive(Clone, Copy)]
struct Form {
    /// The fewest digits of a number, and how many more there may be.
    digits: u64,
    more: u64,
    /// One number of so many has a sign, and of how many bytes one is another than is due.
    signs: u64,
    faults: u64,
    /// What may be after a number: one of these bytes, or two.
    after: [u8; 4],
    /// How many blanks may be before these, and after them.
    blanks: u64,
}

/// A list whose first numbers have one form, and whose others another.
fn page_of(first: Form, then: Form, seed: u64) -> Page {
    let mut random = Random { last: seed };
    let mut page = Page {
        bytes: [b' '; 256],
        length: 0,
    };
    for number in 0..60 {
        let form = if number < 20 { first } else { then };
        if random.below(form.signs.max(1)) == 1 {
            page.push([b'-', b'+'][random.below(2) as usize % 2]);
        }
        for _ in 0..form.digits.saturating_add(random.below(form.more.max(1))) {
            if random.below(form.faults.max(1)) == 1 {
                page.push([b'_', b'x', b' ', b'/', b':', 0x80][random.below(6) as usize % 6]);
            }
            page.push(
                [b'0', b'1', b'2', b'3', b'4', b'5', b'6', b'7', b'8', b'9'][random.below(
                    10,
                ) as usize
                    % 10],
            );
        }
        for _ in 0..random.below(form.blanks.saturating_add(1)) {
            page.push([b' ', b'\r'][random.below(2) as usize % 2]);
        }
        page.push(form.after[random.below(4) as usize % 4]);
        for _ in 0..random.below(form.blanks.saturating_add(1)) {
            page.push(b' ');
        }
        if random.below(form.faults.max(1)) == 1 {
            page.push(form.after[random.below(4) as usize % 4]);
        }
    }
    page
}

const FORMS: [Form; 10] = [
    Form {
        digits: 1,
        more: 1,
        signs: 0,
        faults: 0,
        after: [b','; 4],
        blanks: 0,
    },
    Form {
        digits: 1,
        more: 4,
        signs: 0,
        faults: 0,
        after: [b','; 4],
        blanks: 0,
    },
    Form {
        digits: 1,
        more: 4,
        signs: 2,
        faults: 40,
        after: [b','; 4],
        blanks: 0,
    },
    Form {
        digits: 2,
        more: 3,
        signs: 3,
        faults: 300,
        after: [b',', b',', b' ', b'\n'],
        blanks: 0,
    },
    Form {
        digits: 7,
        more: 4,
        signs: 2,
        faults: 300,
        after: [b','; 4],
        blanks: 0,
    },
    Form {
        digits: 15,
        more: 7,
        signs: 3,
        faults: 0,
        after: [b','; 4],
        blanks: 0,
    },
    Form {
        digits: 1,
        more: 40,
        signs: 3,
        faults: 0,
        after: [b','; 4],
        blanks: 0,
    },
    Form {
        digits: 1,
        more: 19,
        signs: 0,
        faults: 100,
        after: [b' ', b'\n', b'\t', b' '],
        blanks: 0,
    },
    Form {
        digits: 3,
        more: 3,
        signs: 0,
        faults: 300,
        after: [b','; 4],
        blanks: 1,
    },
    Form {
        digits: 4,
        more: 9,
        signs: 5,
        faults: 200,
        after: [b',', b',', b'\n', b'_'],
        blanks: 3,
    },
];

/// A comma, or the separator of the words.
const COMMAS_AND_UNDERSCORES: Gap = Gap {
    separators: ByteSet {
        low: (1 << 44) | (1 << 95),
        high: 0,
    },
    ..COMMAS
};

#[test]
fn lists_by_ends_are_those_of_single_numbers(rt: HostRuntime) {
    let gaps = [
        COMMAS,
        COMMAS_IN_LINE,
        LINES,
        WHITESPACE,
        COMMAS_AND_UNDERSCORES,
    ];
    let words = [STANDARD, PYTHON_LITERAL, JAVA_LITERAL, RUST_LITERAL];
    for form in FORMS {
        for seed in 0..24u64 {
            let page = page_of(form, FORMS[seed as usize % 10], seed);
            let word = words[seed as usize % 4];
            for gap in gaps {
                for left in [
                    60, 63, 64, 65, 86, 87, 88, 89, 90, 127, 128, 129, 152, 190, 256,
                ] {
                    let text = &page.bytes[..left];
                    assert!(&rt; are_same(&rt, text, word, gap), "{left} of seed {seed}");
                }
            }
        }
    }
}

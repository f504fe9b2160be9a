//! Where reading stops, by the laws of texts.

use super::{CONSECUTIVE, INTERNAL, LEADING, TRAILING, UNFLAGGED};
use digit_literals::pass_digits;
use lexical_digits::iterator::{Iter, IterBodies};
use lexical_digits::skip::Bytes;
use lexical_digits::skip::Component::Integer;
use lexical_digits::texts::{all_flags_read_every, internal_reads_between, runs_read_between};
use lexical_format::is_supported;

/// Flags, a text, where reading begins, and where it stops.
static STOPS: [(u128, &str, usize, usize); 16] = [
    (INTERNAL, "1_2", 0, 3),
    (INTERNAL, "1__2", 0, 1),
    (INTERNAL, "_1", 0, 0),
    (INTERNAL, "1_", 0, 1),
    (INTERNAL, "", 0, 0),
    (INTERNAL, "1_2", 1, 3),
    (INTERNAL | CONSECUTIVE, "1__2", 0, 4),
    (INTERNAL | CONSECUTIVE, "__1", 0, 0),
    (INTERNAL | CONSECUTIVE, "1__", 0, 1),
    (INTERNAL | CONSECUTIVE, "1_2__x", 0, 3),
    (INTERNAL | CONSECUTIVE, "1__2", 2, 4),
    (INTERNAL | CONSECUTIVE, "x__2", 2, 2),
    (INTERNAL | LEADING | TRAILING | CONSECUTIVE, "__1__2_", 0, 7),
    (INTERNAL | LEADING | TRAILING | CONSECUTIVE, "_", 0, 1),
    (INTERNAL | LEADING | TRAILING | CONSECUTIVE, "1_x", 0, 2),
    (INTERNAL | LEADING | TRAILING | CONSECUTIVE, "x_1", 1, 3),
];

/// Where reading the integer of a text stops. The laws of such texts are called beside it.
fn stop_of(text: &[u8], word: u128, start: usize) -> Option<usize> {
    if !is_supported(word) || start > text.len() {
        return None;
    }
    internal_reads_between(text, word, Integer);
    runs_read_between(text, word, Integer);
    all_flags_read_every(text, word, Integer);
    let mut bytes = Bytes::new(text, word);
    bytes.set_cursor(start);
    pass_digits(&mut bytes, Integer);
    Some(bytes.cursor())
}

#[test]
fn reading_stops_at_the_first_byte_that_the_flags_do_not_allow(rt: HostRuntime) {
    for (flags, text, start, expected) in &STOPS {
        let stop = stop_of(text.as_bytes(), UNFLAGGED | *flags, *start);
        assert!(rt;
            stop == Some(*expected),
            "{text} from {start} by the flags {flags}: {stop:?}"
        );
    }
}

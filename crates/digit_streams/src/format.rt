//! The kind of the numbers of a stream, and the gap between two of them.

use digit_literals::Gap;
use digit_pieces::Kind;

/// A kind of numbers that is valid, and what is between two of them.
#[derive(Drop)]
pub struct Format<K: Kind> {
    pub kind: K,
    pub gap: Gap,
    ghost valid: { K.valid kind } by { K.valid_once kind },
}

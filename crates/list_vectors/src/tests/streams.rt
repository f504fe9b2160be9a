//! A reader of numbers, over streams that come in any pieces.
//!
//! What is tried, and where:
//!
//! - each text in pieces of 1 to 9 bytes, through buffers of 16 and 64 bytes, with an interrupted
//!   read before each piece, into slices of 1 to 4 places and number by number: `rows`
//! - a reader that fails in mid-stream, and what was read before; a number as long as the buffer,
//!   and one that is longer; what is answered again: `ends`
//! - why no number begins where a stream goes on: `reasons`
//! - a number that is answered before the reader is asked again: `waits`
//! - a caller: `uses`; the sum of a stream, which `digit_uses` proves: `sums`
//! - streams by a seed, beside the list of the whole text: `seeds`
//! - lists in brackets, an offset, and the sum of an array: `arrays`
//! - what steps make of the numbers, of a whole stream, in brackets, and call after call: `folds`

mod arrays;
mod ends;
mod folds;
mod readers;
mod reasons;
mod rows;
mod seeds;
mod sums;
mod uses;
mod waits;

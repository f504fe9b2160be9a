//! Tests over the public calls of `digit_pieces`, `digit_blocks`, `digit_streams`, `digit_lists`
//! and `digit_totals`.

mod blocks;
mod lists;
mod pieces;
mod streams;
mod sum;

//! Uses of the crates that read numbers, each proved, in a file of its own.
#![tactic(auto)]

pub mod amounts;
pub mod arrays;
pub mod blocks;
pub mod calling;
pub mod dates;
pub mod durations;
pub mod files;
pub mod geometry;
pub mod kinds;
pub mod lexer;
pub mod lists;
pub mod literal;
pub mod loops;
pub mod money;
pub mod own;
pub mod points;
pub mod proving;
pub mod quotes;
pub mod readme;
pub mod settings;
pub mod sums;
pub mod values;
pub mod writing;

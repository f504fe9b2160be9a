//! Adds up the numbers of an input, one a line, and writes their totals, as the program `digit_sum`
//! does. Start reading at [`engine::serve_arguments`].
#![tactic(auto)]

pub mod adds;
pub mod arguments;
pub mod around;
pub mod column;
pub mod csv;
pub mod decimal;
pub mod engine;
pub mod error_kind;
pub mod exact;
pub mod fault;
pub mod field;
pub mod floats;
pub mod input;
pub mod laws;
pub mod lines;
pub mod many;
pub mod options;
pub mod output;
pub mod quick;
pub mod search;
pub mod text;
pub mod totals;
pub mod value;

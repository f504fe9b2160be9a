//! Numbers written as a language or a data format writes them, by its `Form`: what is written is a
//! number of the form, to its end, and this one. Where a form has no such number, as JSON no NaN
//! and source code none below 0, the answer says so.
//!
//! ```text
//! number        JSON       TOML       YAML       ERLANG
//! Float(0.5)    0.5        0.5        0.5        0.5
//! Float(-2.0)   -2.0       -2.0       -2.0       none
//! Float(1e16)   1e16       1e16       1e16       1.0e16
//! Float(inf)    none       inf        .inf       none
//! Float(NaN)    none       nan        .nan       none
//! Integer 7     7          7          7          7
//! ```
//!
//! How: a text is written, and read by the form before it is answered.
#![tactic(auto)]

mod error;
mod float;
mod integer;
mod judge;
pub mod laws;
mod special;
mod write;

pub use self::error::FormTextError;
pub use self::write::{write_float_of, write_integer_of, write_number_of};

//! The shortest decimal of a float, and its text: the fewest digits that are read as the float, of
//! these the closest to it, and of two as close the one whose last digit is even.
#![tactic(auto)]

mod decimal;
mod grid;
pub mod laws;
mod parts;
mod powers;
mod write;

pub use self::decimal::{Decimal, shortest};
pub use self::parts::{Parts, WrittenFloat};
pub use self::write::{
    AnyFloat, FloatLayout, FloatTextError, PLAIN_ROOM, shortest_of, write_float,
};

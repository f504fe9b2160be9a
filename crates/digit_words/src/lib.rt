//! Digits of a text that are read as one word: three, four and eight at a time. A load takes the
//! bytes, a test says whether all are digits, and a few multiplications give their value.
//!
//! Nothing here knows of a separator, a sign or a format: a text is bytes, and the digits are
//! decimal or hexadecimal. The crates above say which texts are read so. `digits` doesn't pass
//! these calls on, so they may change in any version.
#![tactic(auto)]

pub mod eight;
pub mod hexadecimal;
pub mod powers;
pub mod three;

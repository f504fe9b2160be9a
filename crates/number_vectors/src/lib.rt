//! Tests of the crates that read numbers, and of `digit_uses`; and callers that show what lemmas
//! for callers prove.
#![tactic(auto)]

#[cfg(test)]
pub mod calls;
pub mod groups;
#[cfg(test)]
pub mod onward;
#[cfg(test)]
pub mod pieces;
#[cfg(test)]
pub mod remainder;
#[cfg(test)]
pub mod rest;
#[cfg(test)]
mod tests;

//! Worked examples and tests of the digit iterators, and a slow program of the role rule that the
//! tests compare them with.
#![tactic(auto)]

#[cfg(test)]
pub mod chains;
#[cfg(test)]
pub mod drained;
#[cfg(test)]
pub mod ends;
#[cfg(test)]
pub mod example;
#[cfg(test)]
pub mod slow;
pub mod spaced;
#[cfg(test)]
mod tests;

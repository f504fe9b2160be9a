//! Tests of the crates that write numbers, and callers that read back what was written.
#![tactic(auto)]

pub mod back;
#[cfg(test)]
mod tests;

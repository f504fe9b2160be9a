//! Tests of text in pieces, streams and lists.
#![tactic(auto)]

#[cfg(test)]
mod tests;

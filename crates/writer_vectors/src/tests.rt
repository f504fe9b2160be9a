//! Tests over the public calls of the crates that write numbers.

mod decimals;
mod forms;
mod integers;
mod scientific;
mod texts;

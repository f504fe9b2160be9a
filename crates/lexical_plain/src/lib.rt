//! A cursor and an iterator that drop no byte: lexical-util's `noskip.rs`. They are for words
//! without flags, and know exactly how many bytes are left. They implement the traits of
//! `lexical_digits`, and have its default bodies.
//!
//! Begin with [`Bytes::new`](crate::noskip::Bytes::new), and with
//! [`Bytes::integer_iter`](crate::noskip::Bytes::integer_iter) for the iterator. The law
//! [`plain_agrees`](crate::laws::plain_agrees) says when they can replace `skip`.
#![tactic(auto)]

pub mod laws;
pub mod noskip;

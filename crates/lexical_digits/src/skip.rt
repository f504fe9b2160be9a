//! A buffer with a cursor, and the iterators of its components, which drop separators:
//! lexical-util's `skip.rs`.

mod bytes;
mod component;
mod decision;
mod digits;
mod rule;

pub use bytes::{AsBytes, Bytes};
pub use component::Component;
pub use decision::{ByteSource, Run, Sight, SliceSource, decide};
pub use digits::{
    ExponentDigitsIterator, FractionDigitsIterator, IntegerDigitsIterator, SpecialDigitsIterator,
};
pub use rule::{Class, Rule};

/// Makes one call on the iterator of a component over a `Bytes`, for any of the four components:
/// `on_iterator!(bytes, component, iter => iter.skip_zeros())`. The macro makes the iterator in
/// place, as a `&mut`, so that a proof knows what the call leaves.
#[macro_export]
macro_rules! on_iterator {
    ($bytes:expr, $component:expr, $iter:ident => $call:expr) => {
        match $component {
            $crate::skip::Component::Integer => {
                let $iter = &mut $crate::skip::IntegerDigitsIterator { byte: $bytes };
                $call
            }
            $crate::skip::Component::Fraction => {
                let $iter = &mut $crate::skip::FractionDigitsIterator { byte: $bytes };
                $call
            }
            $crate::skip::Component::Exponent => {
                let $iter = &mut $crate::skip::ExponentDigitsIterator { byte: $bytes };
                $call
            }
            $crate::skip::Component::Special => {
                let $iter = &mut $crate::skip::SpecialDigitsIterator { byte: $bytes };
                $call
            }
        }
    };
}

//! Lists of any numbers: from a position on, as a whole text, and between two bytes; and numbers
//! that may be missing.
#![tactic(auto)]

mod enclosed;
mod error;
mod floats;
mod items;
pub mod laws;
mod list;
mod of_form;
mod optional;

pub use self::enclosed::{EnclosedError, read_enclosed};
pub use self::error::NoNumber;
pub use self::floats::read_float_list;
pub use self::items::{Item, Items, read_items};
pub use self::list::{ListError, after_full, parse_list, read_list_by};
pub use self::of_form::read_list_of;
pub use self::optional::read_optional;

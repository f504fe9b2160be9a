//! The kinds of numbers: integers, floats and scaled numbers by a word, numbers by a form, literals
//! of a language, two numbers with a byte between them, and a number between two bytes.

mod both;
mod bytes;
mod enclosed;
mod floats;
mod form_bytes;
mod integers;
mod of_form;
mod of_language;
mod prices;
mod scaled;

pub use self::both::{Both, BothError};
pub use self::enclosed::{BracketError, Enclosed};
pub use self::floats::Floats;
pub use self::integers::Integers;
pub use self::of_form::OfForm;
pub use self::of_language::OfLanguage;
pub use self::prices::Prices;
pub use self::scaled::Scaled;

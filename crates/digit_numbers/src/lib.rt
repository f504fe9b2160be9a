//! A number as a language or a data format writes it: an integer or a float, and where it ends.
#![tactic(auto)]

mod decimal;
mod float;
mod form;
pub mod forms;
mod hexadecimal;
mod integer;
pub mod laws;
pub mod names;
mod number;
mod numbered;
mod plain;
mod short;
mod sign;
mod special;

pub use self::decimal::read_decimal_of;
pub use self::form::{
    AfterPoint, Exponents, Form, HexFloats, NameSign, Signs, Special, SpecialValue, Specials,
    Whole, is_form,
};
pub use self::number::{Number, NumberError, parse_number_of, read_number_of};
pub use self::numbered::form_of;
pub use digit_values::{expect_bytes, has_bytes};

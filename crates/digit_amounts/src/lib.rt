//! Amounts: a decimal number as an integer in units of its last place, `12.5` with two places as
//! 1250; with an exact number of places, and with groups of three digits, as prices have.
#![tactic(auto)]

mod groups;
pub mod laws;
mod prices;
mod scaled;

pub use self::groups::wrong_group;
pub use self::prices::{PriceError, read_exact_from, read_grouped_from, read_price_from};
pub use self::scaled::{ScaledError, parse_scaled, read_scaled_from, read_scaled_up_to};

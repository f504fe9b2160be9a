//! Writes a decimal number, which is a sign, digits and a power of ten, as text: in three layouts,
//! into a slice, without memory. Each text is read by this library as the float that the number
//! rounds to.
//!
//! ```text
//! digits, power    write_plain                 write_exponent    write_usual
//! 12345, -2        123.45                      1.2345e2          123.45
//! 12, 3            12000                       1.2e4             12000.0
//! 1, -7            0.0000001                   1e-7              1e-7
//! 1, 23            100000000000000000000000    1e23              1e23
//! 0, 0             0                           0e0               0.0
//! 120, -2          1.20                        1.20e0            1.20
//! ```
//!
//! A number stands as it is given: 0 with a minus is `-0`, and a last digit that is 0 is written.
//! If the digits are the shortest of a float, its texts are those of Rust's `{}` and `{:e}`, and of
//! an `f64` those of serde_json.
//!
//! [`write_fixed`] writes a float itself with a fixed number of places: 0.125 with two is `0.12`,
//! rounded once and at a tie to the even digit, as C's `%.2f` does. [`write_scientific`] writes it
//! with one digit before the point, so many after it and an exponent: `1.25e-01`, as C's `%.2e`.
//!
//! A slice that is too short stays as it was, and the call answers the room needed ([`NoRoom`]).
#![tactic(auto)]

mod big;
mod digits;
mod exact;
mod exponent;
mod fixed;
pub mod laws;
mod pairs;
mod places;
mod point;
mod quick;
mod room;
mod scientific;
mod write;

pub use self::exponent::ExponentText;
pub use self::fixed::write_fixed;
pub use self::pairs::PAIRS;
pub use self::room::{FLOAT_ROOM, NoRoom};
pub use self::scientific::write_scientific;
pub use self::write::{write_exponent, write_plain, write_usual};

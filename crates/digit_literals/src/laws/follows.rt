//! That what follows a number makes no difference to it.

pub use digit_integers::laws::follows::what_follows_changes_no_number;

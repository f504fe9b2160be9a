//! Numbers of a text that comes in pieces: up to where its outcomes are sure, and lists that are
//! read piece by piece.
#![tactic(auto)]

mod apart;
mod gaps;
mod kind;
mod kinds;
pub mod laws;
mod lists;
mod piece;
mod sure;

pub use self::apart::is_apart;
pub use self::gaps::{is_of_blanks, is_parted, next_start, of_list};
pub use self::kind::Kind;
pub use self::kinds::{
    Both, BothError, BracketError, Enclosed, Floats, Integers, OfForm, OfLanguage, Prices, Scaled,
};
pub use self::lists::{
    read_float_list_piece, read_list_piece, read_list_piece_of, read_scaled_list_piece,
};
pub use self::piece::{PieceEnd, PieceRead, read_piece};
pub use self::sure::sure_end;

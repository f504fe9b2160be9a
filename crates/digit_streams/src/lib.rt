//! The numbers of any `Read`, such as a file or a socket.
#![tactic(auto)]

mod enclosed;
mod filling;
mod fold;
mod format;
mod held;
pub mod laws;
mod one;
mod reader;
mod stream;
mod window;

pub use self::enclosed::EnclosedFoldError;
pub use self::fold::{FoldError, fold_stream};
pub use self::reader::NumberReader;
pub use self::stream::{StreamEnd, StreamError, StreamRead};

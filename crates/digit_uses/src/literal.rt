//! Rust's integer literals with their suffix: the digits by `read_literal`, and then the name of a
//! type, whose greatest value counts.
//!
//! Proof by hand: none.

ghost use Rattle.std.specs.Prelude.{◌≡◌, IfOk, IfErr};
ghost use Rattle.digit_uses.specs.Literal.{most_of, suffix_of, IsTyped, IsTypedFault};

use digits::languages::RUST;
use digits::{LanguageError, Literal, read_literal};

/// The type that a literal names.
#[derive(Clone, Copy, Debug, PartialEq, Eq)]
pub enum Suffix {
    /// The literal ends with its digits.
    Absent,
    U8,
    U16,
    U32,
    U64,
    U128,
}

/// Why a text isn't one literal.
#[derive(Clone, Copy, Debug, PartialEq, Eq)]
pub enum LiteralFault {
    /// It begins with none.
    Number(LanguageError),
    /// What begins at the literal's end names no type.
    Name(Literal),
    /// The type hasn't the literal's value.
    Range(Literal, Suffix),
}

/// The type that a name says.
fn suffix_of(name: &[u8]) -> Option<Suffix>
    ensures { result ≡ suffix_of name.now }
{
    if name == b"".as_slice() {
        Some(Suffix::Absent)
    } else if name == b"u8".as_slice() {
        Some(Suffix::U8)
    } else if name == b"u16".as_slice() {
        Some(Suffix::U16)
    } else if name == b"u32".as_slice() {
        Some(Suffix::U32)
    } else if name == b"u64".as_slice() {
        Some(Suffix::U64)
    } else if name == b"u128".as_slice() {
        Some(Suffix::U128)
    } else {
        None
    }
}

/// The greatest value of a type.
fn most_of(suffix: Suffix) -> u128
    ensures { result ≡ most_of suffix }
{
    match suffix {
        Suffix::U8 => u128::from(u8::MAX),
        Suffix::U16 => u128::from(u16::MAX),
        Suffix::U32 => u128::from(u32::MAX),
        Suffix::U64 => u128::from(u64::MAX),
        Suffix::Absent | Suffix::U128 => u128::MAX,
    }
}

/// The literal that a text is, up to the name of its type: `1_000_u16` has the value 1000, of which
/// `u8` is out of range.
#[tactic(auto, unfolding(digits::proofs::Literals::lexical_on_literals))]
pub fn parse_literal(text: &[u8]) -> Result<(Literal, Suffix), LiteralFault>
    ensures ok { IfOk result (λ read. IsTyped text.now read.0 read.1) }
    ensures fault { IfErr result (IsTypedFault text.now) }
{
    let read = match read_literal(text, 0, RUST, u128::MAX) {
        Ok(read) => read,
        Err(error) => return Err(LiteralFault::Number(error)),
    };
    match suffix_of(&text[read.end..]) {
        None => Err(LiteralFault::Name(read)),
        Some(suffix) => {
            if read.value > most_of(suffix) {
                Err(LiteralFault::Range(read, suffix))
            } else {
                Ok((read, suffix))
            }
        }
    }
}

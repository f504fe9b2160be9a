//! A lexer of an expression such as `2 * (x + 0x1f) - 1.5e3`: three kinds of tokens, of which
//! numbers are read by the form of Rust.
//!
//! Proof by hand: none.

ghost use Rattle.std.specs.Prelude.{◌≡◌, ◌<◌, ◌≤◌, length, slice_get, Some, Err, IfOk, IfErr, IfSome, MatchOption};
ghost use Rattle.digits.specs.Words.{binary64, number_of_at, past_bytes};
ghost use Rattle.digit_uses.specs.Lexer.{IsToken};

use digits::forms::RUST;
use digits::{BLANKS, Number, NumberError, byte_at, name_end, past_bytes, read_number_of};

/// What is read at a position.
#[derive(Clone, Copy, Debug, PartialEq)]
pub enum Token {
    Number(Number<f64>),
    /// Bytes of a name, as `name_end` has them, that begin with no digit.
    Name,
    /// Any other byte that is no blank.
    Sign(u8),
}

/// A token with its first byte, and the byte after it.
#[derive(Clone, Copy, Debug, PartialEq)]
pub struct Lexeme {
    pub token: Token,
    pub start: usize,
    pub end: usize,
}

/// The token at a position that holds a byte, and where it ends.
#[tactic(auto, unfolding(digits::proofs::Literals::lexical_on_literals))]
fn token_at(text: &[u8], start: usize, byte: u8) -> Result<(Token, usize), NumberError>
    requires within { start < length text.now }
    requires here { slice_get text.now start ≡ Some byte }
    ensures token { IfOk result (λ read. IsToken text.now start read.0 read.1) }
    ensures onward { IfOk result (λ read. (start < read.1) × (read.1 ≤ length text.now)) }
    ensures fault { IfErr result (λ error. number_of_at RUST text.now start binary64 ≡ Err error) }
{
    if byte.is_ascii_digit() {
        let (number, end) = read_number_of::<f64>(text, start, RUST)?;
        return Ok((Token::Number(number), end));
    }
    let end = name_end(text, start);
    if end > start {
        Ok((Token::Name, end))
    } else {
        Ok((Token::Sign(byte), start + 1))
    }
}

/// The next token from a position on, after blanks; `None` if only blanks are left. An error is why
/// no number is at a digit.
pub fn next_token(text: &[u8], at: usize) -> Result<Option<Lexeme>, NumberError>
    requires { at ≤ length text.now }
    ensures token { let start = past_bytes text.now at BLANKS in IfOk result (λ next.
        MatchOption next (start ≡ length text.now)
        (λ read. (read.start ≡ start) × IsToken text.now start read.token read.end)) }
    ensures onward { IfOk result (λ next.
        IfSome next (λ read. (at < read.end) × (read.end ≤ length text.now))) }
    ensures fault { let start = past_bytes text.now at BLANKS in
        IfErr result (λ error. number_of_at RUST text.now start binary64 ≡ Err error) }
{
    let start = past_bytes(text, at, BLANKS);
    let Some(byte) = byte_at(text, start) else {
        return Ok(None);
    };
    let (token, end) = token_at(text, start, byte)?;
    Ok(Some(Lexeme { token, start, end }))
}

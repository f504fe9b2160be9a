//! A JSON array of numbers, read into a slice, with both halves of a contract: `Ok` is right, and
//! an error means that the text is no array of numbers for which the slice has room.
//!
//! Proof by hand: none.

ghost use Rattle.std.specs.Prelude.{◌≡◌, ◌≤◌, length, map, take, Ok, Err, IfOk, IfErr};
ghost use Rattle.digits.specs.Words.{IfOver, with_value};
ghost use Rattle.digit_uses.specs.Lists.{closed, ended, inner, array_of};

use digits::forms::JSON;
use digits::{
    BLANKS, COMMAS, ListEnd, Number, NumberError, expect_byte, has_byte, past_bytes, read_list_of,
};

/// Why a text is no array of numbers for a slice.
#[derive(Clone, Copy, Debug, PartialEq, Eq)]
pub enum ArrayError {
    /// The byte at this position is wrong, or the text ends there.
    Fault(usize),
    /// The slice is full, and the array goes on at this position.
    Full(usize),
}

/// The end of the text, if a bracket at a position ends the array, and nothing follows it.
fn close(text: &[u8], at: usize) -> Result<usize, ArrayError>
    requires { at ≤ length text.now }
    ensures { result ≡ closed text.now at }
{
    let last = expect_byte(text, at, b']').map_err(ArrayError::Fault)?;
    let end = past_bytes(text, last, BLANKS);
    if end == text.len() {
        Ok(end)
    } else {
        Err(ArrayError::Fault(end))
    }
}

/// The same of why a list is read no further.
fn end_list(text: &[u8], end: ListEnd<NumberError>) -> Result<usize, ArrayError>
    requires { IfOver end (λ at. at ≤ length text.now) }
    ensures { result ≡ ended text.now end }
{
    match end {
        ListEnd::Over(at) => close(text, at),
        ListEnd::Full(at) => Err(ArrayError::Full(at)),
        ListEnd::Fault(error) => Err(ArrayError::Fault(error.position())),
    }
}

/// How many numbers follow a bracket, which are read into the front of the slice.
#[tactic(auto, unfolding(digits::proofs::Literals::lexical_on_literals))]
fn read_inner(text: &[u8], start: usize, out: &mut [Number<f64>]) -> Result<usize, ArrayError>
    requires { start ≤ length text.now }
    ensures ok { IfOk result (λ count. inner text.now (length out.old) start
        ≡ Ok (map (with_value (λ x. x)) (take count out.new))) }
    ensures none { IfErr result (λ error. inner text.now (length out.old) start ≡ Err error) }
{
    if has_byte(text, start, b']') {
        close(text, start)?;
        return Ok(0);
    }
    let list = read_list_of::<f64>(text, start, JSON, COMMAS, out);
    match end_list(text, list.end) {
        Ok(_) => Ok(list.count),
        Err(error) => Err(error),
    }
}

/// How many numbers an array has, which are read into the front of the slice.
pub fn parse_array(text: &[u8], out: &mut [Number<f64>]) -> Result<usize, ArrayError>
    ensures ok { IfOk result (λ count. array_of text.now (length out.old)
        ≡ Ok (map (with_value (λ x. x)) (take count out.new))) }
    ensures none { IfErr result (λ error. array_of text.now (length out.old) ≡ Err error) }
{
    let open = expect_byte(text, past_bytes(text, 0, BLANKS), b'[').map_err(ArrayError::Fault)?;
    read_inner(text, past_bytes(text, open, BLANKS), out)
}

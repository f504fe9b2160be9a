//! The blocks of the page README.md, in its order. `.ci/pages` compares the two.
#![tactic(auto, unfolding(digits::proofs::Literals::lexical_on_literals))]

use digits::{
    MOST_ROOM, STANDARD, expect_byte, parse_float, parse_number, read_number, read_scaled_from,
    write_number,
};

pub fn first_calls() {
    // `STANDARD` says how digits are written: in plain decimal.
    let height = parse_number::<i32>(b"-1000", STANDARD); // Ok(-1000)
    let fault = parse_number::<i32>(b"12x", STANDARD); // Err(Invalid(2)): the `x`
    let rate = parse_float::<f64>(b"1.5e3", STANDARD); // Ok(1500.0)
    let port = read_number::<u16>(b"8080/tcp", STANDARD); // Ok((8080, 4)): it ends at 4
    let mut out = [0; MOST_ROOM];
    let length = write_number(-128i8, &mut out); // 4: `&out[..4]` is `-128`
}

/// Reads a line such as `17,12.50` as an id and exact cents: `(17, 1250)`. The error is the
/// position of the fault: in `17,12.5x` it is 7.
pub fn parse_order(line: &[u8]) -> Result<(u32, i64), usize> {
    let id = read_number::<u32>(line, STANDARD);
    let (id, at) = id.map_err(|error| error.position())?;
    let at = expect_byte(line, at, b',')?;
    // The point, and two places: `12`, `12.5` and `12.50` are read.
    let cents = read_scaled_from::<i64>(line, STANDARD, at, b'.', 2);
    let (cents, end) = cents.map_err(|error| error.position())?;
    if end < line.len() {
        return Err(end);
    }
    Ok((id, cents))
}

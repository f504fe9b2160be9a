//! The first numbers of the page README.md, read and printed.
#![tactic(auto, unfolding(digits::proofs::Literals::lexical_on_literals))]

use digits::words::PYTHON_LITERAL;
use digits::{parse_float, parse_number};

fn main(rt: HostRuntime) -> std::io::Result<()> {
    println!(rt; "{:?}", parse_number::<i32>(b"-1_000", PYTHON_LITERAL))?;
    println!(rt; "{:?}", parse_float::<f64>(b"1_234.5e-1", PYTHON_LITERAL))?;
    println!(rt; "{:?}", parse_number::<i32>(b"1__0", PYTHON_LITERAL))?;
    Ok(())
}

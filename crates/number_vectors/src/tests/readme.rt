//! The answers that the first block of README.md shows, each worked out by hand. `.ci/pages`
//! compares them.

use digit_amounts::parse_scaled;
use digit_floats::parse_float;
use digit_literals::ParseError::{Invalid, Overflow};
use digit_literals::{parse_number, read_number};
use digit_numbers::{Number, forms, parse_number_of};
use lexical_format::STANDARD;
use lexical_format::words::PYTHON_LITERAL;

#[test]
#[tactic(auto, unfolding(lexical_format::proofs::OnLiterals::lexical_on_literals))]
fn answers_of_the_readme(rt: HostRuntime) {
    assert!(rt; parse_number::<i32>(b"-1000", STANDARD) == Ok(-1000));
    assert!(rt; parse_number::<i32>(b"-1_000", PYTHON_LITERAL) == Ok(-1000));
    assert!(rt; parse_float::<f64>(b"1.5e3", STANDARD) == Ok(1500.0));
    assert!(rt; parse_scaled::<i64>(b"12.5", STANDARD, b'.', 2) == Ok(1250));
    assert!(rt; parse_number_of::<f64>(b"-1.5e3", forms::JSON) == Ok(Number::Float(-1500.0)));
    assert!(rt; read_number::<u16>(b"8080/tcp", STANDARD) == Ok((8080, 4)));
    assert!(rt; parse_number::<i32>(b"12x", STANDARD) == Err(Invalid(2)));
    assert!(rt; parse_number::<u16>(b"70000", STANDARD) == Err(Overflow(4)));
}

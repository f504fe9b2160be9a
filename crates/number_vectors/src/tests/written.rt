//! Numbers that are written, and read again.

ghost use Rattle.std.specs.Prelude.{◌≡◌, ℕ, ◌++◌, ◌∷◌, List, length, decimal, Ok, IfOk};

use digit_literals::laws::written::written_numbers_are_read;
use digit_literals::{LiteralError, parse_number, read_number};
use lexical_format::STANDARD;
use lexical_format::words::PYTHON_LITERAL;
use std::alloc::{AllocError, Global};

/// Writes a number, and reads what was written: the same number.
#[tactic(auto, unfolding(lexical_format::proofs::OnLiterals::lexical_on_literals))]
fn write_and_read(alloc: Global, n: u64) -> Result<u64, AllocError>
    ensures { IfOk result (λ read. read ≡ n) }
{
    written_numbers_are_read();
    let text = format!(in alloc; "{n}")?;
    match parse_number::<u64>(text.as_bytes(), PYTHON_LITERAL) {
        Ok(read) => Ok(read),
        Err(_) => unreachable!(),
    }
}

/// The number before a comma, and where it ends.
#[tactic(auto, unfolding(crate::proofs::OnTexts::on_digits))]
fn read_field(text: &[u8], n: u32) -> Result<(u32, usize), LiteralError>
    requires { (rest : List ℕ) × (text.now ≡ decimal n ++ (44 ∷ rest)) }
    ensures { result ≡ Ok (n, length (decimal n)) }
{
    written_numbers_are_read();
    read_number::<u32>(text, STANDARD)
}

/// Writes two numbers with a comma between them, and reads the first.
fn write_two_and_read(alloc: Global, n: u32, other: u32) -> Result<(u32, usize), AllocError>
    ensures { IfOk result (λ read. read ≡ (n, length (decimal n))) }
{
    let text = format!(in alloc; "{n},{other}")?;
    match read_field(text.as_bytes(), n) {
        Ok(read) => Ok(read),
        Err(_) => unreachable!(),
    }
}

#[test]
fn what_is_written_is_read(rt: HostRuntime) {
    for n in [0, 7, 1_000, u64::MAX] {
        assert!(rt; write_and_read(rt.alloc(), n).expect(&rt, "memory") == n);
    }
    let (first, end) = write_two_and_read(rt.alloc(), 70, 5).expect(&rt, "memory");
    assert!(rt; first == 70 && end == 2);
}

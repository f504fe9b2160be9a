//! A program that adds up the numbers of its input, one a line, by `digit_totals`.
#![tactic(auto)]

use digit_totals::engine;
use digit_totals::output::write_output;
use std::alloc::{AllocError, Global};
use std::process::ExitCode;
use std::{env, io};

/// Texts as bytes.
fn bytes_of(alloc: Global, texts: &[String]) -> Result<Vec<&[u8]>, AllocError> {
    let mut words = Vec::new(alloc);
    for text in texts {
        words.push(text.as_bytes())?;
    }
    Ok(words)
}

/// The exit status of the program, whose arguments are asked of the system.
fn start(rt: &HostRuntime) -> io::Result<u8> {
    let mut arguments = env::args(rt)?;
    let _program = arguments.next();
    let texts: Vec<String> = arguments.collect(rt.alloc())?;
    let words = bytes_of(rt.alloc(), &texts)?;
    Ok(engine::serve_arguments(
        rt.alloc(),
        &words,
        &mut rt.stdin(),
        &mut rt.stdout(),
        &mut rt.stderr(),
    ))
}

fn main(rt: HostRuntime) -> ExitCode {
    match start(&rt) {
        Ok(status) => ExitCode::from(status),
        Err(_) => {
            let _ = write_output(&mut rt.stderr(), b"error: arguments not read\n");
            ExitCode::from(2)
        }
    }
}

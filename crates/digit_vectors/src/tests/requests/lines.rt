//! What is written for each line.

use super::{FIVE_ANSWERS, FIVE_LINES, answer};
use digit_requests::line::read_is_spelled;
use std::alloc::Global;
use std::process::Abort;
use std::test::Fail;

/// The program writes this text for an input and ends with this status.
fn assert_answer(rt: &impl Abort, alloc: Global, input: &[u8], text: &[u8], status: u8) {
    let (written, ended) = answer(alloc, input);
    assert!(rt;
        written.as_slice() == text && ended == status,
        "{written:?}, {ended}"
    );
}

#[test]
fn run_answers_with_ample_memory(rt: HostRuntime) {
    let input = FIVE_LINES.as_bytes();
    assert_answer(&rt, rt.alloc(), input, FIVE_ANSWERS.as_bytes(), 0);
}

/// Lines, and the answers to them.
static REQUESTS: [(&str, &str); 17] = [
    ("", ""),
    ("integer 10 5f - 1_2", "1_2 count=0 cursor=3\n"),
    ("integer 10 5f IC 1__2", "12 count=2 cursor=4\n"),
    ("integer 10 5F LC +__+1", "++1 count=1 cursor=5\n"),
    ("integer 10 5f C 1__2", "1__2 count=2 cursor=4\n"),
    ("fraction 10 5f IL _4_5_.56", "45_.56 count=4 cursor=8\n"),
    ("fraction 10 5f - 1_2", "1_2 count=0 cursor=3\n"),
    ("special 10 5f S n_a__n", "nan count=0 cursor=6\n"),
    ("special 10 5f - n_a", "n_a count=0 cursor=3\n"),
    ("integer 2 39 I 1909", "109 count=2 cursor=4\n"),
    ("integer 16 5f I a_F_g", "aF_g count=2 cursor=5\n"),
    ("integer 10 5f I 1 2", "1 2 count=2 cursor=3\n"),
    ("integer 10 5f T 1\r", "1\r count=1 cursor=2\n"),
    ("exponent 16/10 5f I 1_a", "1_a count=1 cursor=3\n"),
    ("exponent 10/16 5f I a_b", "ab count=2 cursor=3\n"),
    ("exponent 10/0 5f I 1_2", "12 count=2 cursor=3\n"),
    ("special 16/10 5f S a_1", "a1 count=0 cursor=3\n"),
];

#[test]
fn requests_are_answered(rt: HostRuntime) {
    read_is_spelled();
    for (line, text) in &REQUESTS {
        assert_answer(&rt, rt.alloc(), line.as_bytes(), text.as_bytes(), 0);
    }
}

/// Lines of which the last is bad, what is written for them, and the status.
static BAD_LINES: [(&str, &str, u8); 12] = [
    ("\n", "error: line 1: not a request\n", 2),
    ("integer 10 5f II 4", "error: line 1: not a request\n", 2),
    ("integer 10 5f T", "error: line 1: not a request\n", 2),
    ("integer 300 5f I 4", "error: line 1: not a request\n", 2),
    ("special 10 5f I n_a", "error: line 1: not a request\n", 2),
    ("integer 10 5f S 1", "error: line 1: not a request\n", 2),
    (
        "integer 37 5f I 1",
        "error: line 1: word not supported\n",
        3,
    ),
    ("integer 0 5f I 1", "error: line 1: word not supported\n", 3),
    (
        "integer 10/16 61 I 1a2",
        "error: line 1: word not supported\n",
        3,
    ),
    (
        "exponent 10/1 5f I 1_2",
        "error: line 1: word not supported\n",
        3,
    ),
    (
        "integer 10/37 5f - 1",
        "error: line 1: word not supported\n",
        3,
    ),
    (
        "integer 10 5f I 4_5\ninteger 16 61 I a1",
        "45 count=2 cursor=3\nerror: line 2: word not supported\n",
        3,
    ),
];

#[test]
fn bad_lines_are_told_apart(rt: HostRuntime) {
    for (lines, text, status) in &BAD_LINES {
        assert_answer(&rt, rt.alloc(), lines.as_bytes(), text.as_bytes(), *status);
    }
}

#[test]
fn a_line_is_a_request_from_its_last_space_on(rt: HostRuntime) {
    let line = "integer 10 5f T 1".as_bytes();
    for n in 0..=line.len() {
        let (text, status) = match n {
            0 => ("", 0),
            16 => (" count=0 cursor=0\n", 0),
            17 => ("1 count=1 cursor=1\n", 0),
            _ => ("error: line 1: not a request\n", 2),
        };
        assert_answer(&rt, rt.alloc(), &line[..n], text.as_bytes(), status);
    }
}

#[test]
fn the_longest_input_is_answered(rt: HostRuntime) -> Result<(), Fail> {
    let ones = vec![in rt.alloc(); b'1'; 65520]?;
    let mut input = b"integer 10 5f T ".to_vec(rt.alloc())?;
    input.extend_from_slice(&ones)?;
    let mut text = ones.clone()?;
    text.extend_from_slice(b" count=65520 cursor=65520\n")?;
    assert_answer(&rt, rt.alloc(), &input, &text, 0);
    Ok(())
}

#[test]
fn a_longer_input_is_too_long(rt: HostRuntime) -> Result<(), Fail> {
    let mut input = b"integer 10 5f T ".to_vec(rt.alloc())?;
    input.extend_from_slice(&vec![in rt.alloc(); b'1'; 65521]?)?;
    let line = b"error: input longer than 65536 bytes\n";
    assert_answer(&rt, rt.alloc(), &input, line, 4);
    Ok(())
}

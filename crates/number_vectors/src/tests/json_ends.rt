//! Large and long numbers of JSON, and where each ends by a state machine, written from the RFC.

use super::forms::parse_by;
use digit_numbers::forms::{JSON, RUST};
use digit_numbers::{Number, NumberError, parse_number_of, read_number_of};

/// The number of that many digits `1`.
fn ones(digits: usize) -> u128 {
    let mut value = 0u128;
    for _ in 0..digits {
        value = value.wrapping_mul(10).wrapping_add(1);
    }
    value
}

#[test]
fn an_integer_is_parsed_alike_from_short_and_long_texts(rt: HostRuntime) {
    for len in 18..39 {
        let mut text = [b'1'; 40];
        let number = parse_by(&rt, JSON, &text[..len]);
        let is = Number::Integer {
            negative: false,
            magnitude: ones(len),
            word: JSON.integers.decimal,
        };
        assert!(&rt; number == Ok(is), "{len}: {number:?}");
        text[len - 1] = b'x';
        let fault = parse_by(&rt, JSON, text.get(..len).unwrap_or(b""));
        assert!(&rt;
            fault == Err(NumberError::Invalid(len - 1)),
            "{len}: {fault:?}"
        );
    }
}

#[test]
#[tactic(auto, unfolding(lexical_format::proofs::OnLiterals::lexical_on_literals))]
fn a_large_integer_is_a_float_in_json(rt: HostRuntime) {
    let text = b"340282366920938463463374607431768211456";
    let read = parse_number_of::<f64>(text, JSON);
    assert!(&rt; read == Ok(Number::Float(3.402823669209384634e38)));
    let read = parse_number_of::<f64>(text, RUST);
    assert!(&rt; read == Err(NumberError::Overflow(38)));
    assert!(&rt; parse_number_of::<f64>(b"1e400", JSON) == Ok(Number::Float(1.0 / 0.0)));
}

/// What was read of a number of JSON.
#[derive(Clone, Copy, PartialEq)]
enum State {
    Start,
    Minus,
    Zero,
    Int,
    Point,
    Frac,
    Mark,
    Sign,
    Exp,
}

/// The state after one more byte, if a number can go on with it.
fn step(state: State, byte: u8) -> Option<State> {
    let digit = byte.is_ascii_digit();
    match state {
        State::Start if byte == b'-' => Some(State::Minus),
        State::Start | State::Minus if byte == b'0' => Some(State::Zero),
        State::Start | State::Minus if digit => Some(State::Int),
        State::Int if digit => Some(State::Int),
        State::Zero | State::Int if byte == b'.' => Some(State::Point),
        State::Point | State::Frac if digit => Some(State::Frac),
        State::Zero | State::Int | State::Frac if byte == b'e' || byte == b'E' => Some(State::Mark),
        State::Mark if byte == b'-' || byte == b'+' => Some(State::Sign),
        State::Mark | State::Sign | State::Exp if digit => Some(State::Exp),
        _ => None,
    }
}

/// Where the longest number of JSON ends that begins at `start`, and whether it is a float.
fn model(text: &[u8], start: usize) -> Option<(usize, bool)> {
    let mut state = State::Start;
    let mut longest = None;
    for at in start..text.len() {
        let Some(next) = step(state, text[at]) else {
            return longest;
        };
        state = next;
        match state {
            State::Zero | State::Int => longest = Some((at + 1, false)),
            State::Frac | State::Exp => longest = Some((at + 1, true)),
            _ => {}
        }
    }
    longest
}

/// The same of what was read.
fn end_of(read: Result<(Number<f64>, usize), NumberError>) -> Option<(usize, bool)> {
    match read {
        Ok((Number::Integer { .. }, end)) => Some((end, false)),
        Ok((Number::Float(_), end)) => Some((end, true)),
        Err(_) => None,
    }
}

#[test]
#[tactic(auto, unfolding(lexical_format::proofs::OnLiterals::lexical_on_literals))]
fn json_numbers_end_as_by_a_state_machine(rt: HostRuntime) {
    let bytes = *b"01.eE+-x";
    for n in 0..4096_usize {
        let text = [
            bytes[n % 8],
            bytes[n / 8 % 8],
            bytes[n / 64 % 8],
            bytes[n / 512 % 8],
        ];
        for start in 0..5 {
            let read = end_of(read_number_of::<f64>(&text, start, JSON));
            assert!(&rt; read == model(&text, start), "{text:?} {start}: {read:?}");
        }
    }
}

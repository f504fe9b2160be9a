//! Numbers of JSON, and the calls that read the same.

ghost use Rattle.std.specs.Prelude.{◌≡◌, ◌≤◌, length, Ok, IfSome};
ghost use Rattle.std.specs.Float.{binary64};
ghost use Rattle.lexical_digits.specs.State.{rule_of};
ghost use Rattle.lexical_digits.specs.declared.skip.component.Component.TheVariants.{Integer};
ghost use Rattle.digit_literals.specs.Integers.{integer_at};
ghost use Rattle.digit_floats.specs.Float.{parse_at, plain_marks, read_at};
ghost use Rattle.digit_numbers.specs.Json.{IsDelimited, past_minus};

use digit_numbers::forms::JSON;
use digit_numbers::laws::{json_numbers_are_read, json_texts_are_rfc_8259};
use digit_numbers::{Number, parse_number_of, read_number_of};
use lexical_format::STANDARD;

/// The magnitude of the integer that a text is by JSON: that of its digits.
#[tactic(auto, unfolding(lexical_format::proofs::OnLiterals::lexical_on_literals))]
fn parse_integer(text: &[u8]) -> Option<u128>
    ensures { let r = rule_of STANDARD Integer in IfSome result (λ n.
        integer_at r text.now (past_minus text.now 0) n ≡ Ok (n, length text.now)) }
{
    json_texts_are_rfc_8259::<f64>(text);
    match parse_number_of::<f64>(text, JSON) {
        Ok(Number::Integer { magnitude, .. }) => Some(magnitude),
        _ => None,
    }
}

/// The float that a text is by JSON: that of `parse_float`.
#[tactic(auto, unfolding(lexical_format::proofs::OnLiterals::lexical_on_literals))]
fn parse_float(text: &[u8]) -> Option<f64>
    ensures { IfSome result (λ x. parse_at STANDARD text.now plain_marks binary64 0 ≡ Ok x) }
{
    json_texts_are_rfc_8259::<f64>(text);
    match parse_number_of::<f64>(text, JSON) {
        Ok(Number::Float(x)) => Some(x),
        _ => None,
    }
}

/// The float of JSON before a byte that doesn't go on with it: that of `read_float_from`.
#[tactic(auto, unfolding(lexical_format::proofs::OnLiterals::lexical_on_literals))]
fn read_float(text: &[u8], start: usize) -> Option<(f64, usize)>
    requires { start ≤ length text.now }
    ensures { IfSome result (λ read. IsDelimited text.now read.1 →
        read_at STANDARD text.now plain_marks binary64 start ≡ Ok read) }
{
    json_numbers_are_read::<f64>(text, start);
    match read_number_of::<f64>(text, start, JSON) {
        Ok((Number::Float(x), end)) => Some((x, end)),
        _ => None,
    }
}

#[test]
fn json_reads_integers_and_floats(rt: HostRuntime) {
    assert!(rt; parse_integer(b"-120") == Some(120) && parse_float(b"-120") == None);
    assert!(rt; parse_integer(b"1.5e1") == None && parse_float(b"1.5e1") == Some(15.0));
    assert!(rt; parse_integer(b"007") == None && parse_float(b"1.") == None);
    assert!(rt; read_float(b"[0.5,1]", 1) == Some((0.5, 4)));
}

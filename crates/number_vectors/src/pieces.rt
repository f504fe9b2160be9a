//! A text in pieces: a field before a comma, a line without its line feed. The contract speaks of
//! the text as a whole, since no number of the form has the byte where the piece ends.

ghost use Rattle.std.specs.Prelude.{◌≡◌, ◌-◌, ◌≤◌, true, false, length, Ok, MatchOption};
ghost use Rattle.std.specs.Float.{Float, binary64};
ghost use Rattle.digit_literals.specs.Numbers.{has_byte};
ghost use Rattle.digit_floats.specs.Bytes.{stands};
ghost use Rattle.digit_numbers.specs.Follows.{is_number_byte};
ghost use Rattle.digit_numbers.specs.Forms.{IsForm};
ghost use Rattle.digit_numbers.specs.Numbers.{number_of_at};
ghost use Rattle.digit_numbers.specs.Values.{with_value};

use digit_numbers::forms::{JSON, TOML};
use digit_numbers::laws::follows::what_follows_changes_no_outcome;
use digit_numbers::{Form, Number, read_number_of};

/// The number of a form from `start` up to a byte at `end` that no number of the form has.
pub fn parse_piece(text: &[u8], start: usize, end: usize, form: Form) -> Option<Number<f64>>
    requires form { IsForm form }
    requires onward { start ≤ end }
    requires within { end ≤ length text.now }
    requires ends { stands (is_number_byte form) text.now end ≡ false }
    ensures { let read = number_of_at form text.now start binary64 in
        MatchOption result ((n : Number Float) → read ≡ Ok (n, end) → ⊥)
        (λ n. read ≡ Ok (with_value (λ x. x) n, end)) }
{
    what_follows_changes_no_outcome();
    match read_number_of::<f64>(&text[..end], start, form) {
        Ok((number, stop)) if stop == end => Some(number),
        _ => None,
    }
}

/// The number of JSON in the field from `start` up to the comma at `end`.
#[tactic(auto, unfolding(lexical_format::proofs::OnLiterals::lexical_on_literals))]
pub fn parse_field(text: &[u8], start: usize, end: usize) -> Option<Number<f64>>
    requires onward { start ≤ end }
    requires comma { has_byte text.now end 44 ≡ true }
    ensures { let read = number_of_at JSON text.now start binary64 in
        MatchOption result ((n : Number Float) → read ≡ Ok (n, end) → ⊥)
        (λ n. read ≡ Ok (with_value (λ x. x) n, end)) }
{
    what_follows_changes_no_outcome();
    parse_piece(text, start, end, JSON)
}

/// The number of TOML that a line is, without the line feed at its end.
#[tactic(auto, unfolding(lexical_format::proofs::OnLiterals::lexical_on_literals))]
pub fn parse_line(line: &[u8]) -> Option<Number<f64>>
    requires { has_byte line.now (length line.now - 1) 10 ≡ true }
    ensures { let read = number_of_at TOML line.now 0 binary64 in
        let end = length line.now - 1 in
        MatchOption result ((n : Number Float) → read ≡ Ok (n, end) → ⊥)
        (λ n. read ≡ Ok (with_value (λ x. x) n, end)) }
{
    what_follows_changes_no_outcome();
    parse_piece(line, 0, line.len() - 1, TOML)
}

//! A number of any length, of which only the remainder of a division is asked for.

ghost use Rattle.std.specs.Prelude.{◌≡◌, ◌<◌, ◌≤◌, ◌+◌, ◌*◌, ◌%◌, length, IsTrue};
ghost use Rattle.std.specs.Str.Parse.{digits_value};
ghost use Rattle.lexical_format.specs.Word.{is_supported};
ghost use Rattle.lexical_digits.specs.declared.skip.component.Component.TheVariants.{Integer};
ghost use Rattle.lexical_digits.specs.State.{rule_of};
ghost use Rattle.lexical_digits.specs.Stop.{stop};
ghost use Rattle.digit_literals.specs.After.{digits_between};

use digit_literals::stop_from;
use lexical_digits::skip::{Component, Rule};
use lexical_format::char_to_digit_const;

/// The remainder of the integer that a text begins with, of any length. A check digit follows from
/// it.
pub fn remainder(text: &[u8], word: u128, by: u32) -> u64
    requires supported { IsTrue (is_supported word) }
    requires some { 0 < by }
    ensures { let r = rule_of word Integer in let end = stop r text.now 0 0 in
        result ≡ digits_value r.radix (digits_between r text.now 0 end) % by }
{
    let end = stop_from(text, word, Component::Integer, 0);
    let rule = Rule::of(word, Component::Integer);
    remainder_between(text, rule, end, by)
}

/// The remainder with one digit more.
fn push(rest: u64, radix: u32, digit: u32, by: u32) -> u64
    requires below { rest < by }
    ensures is { result ≡ (rest * radix + digit) % by }
    ensures below { result < by }
{
    (rest * u64::from(radix) + u64::from(digit)) % u64::from(by)
}

/// The remainder of the digits before a position.
#[tactic(auto, using(crate::proofs::Remainders::with_digit, crate::proofs::Remainders::without))]
fn remainder_between(text: &[u8], rule: Rule, end: usize, by: u32) -> u64
    requires within { end ≤ length text.now }
    requires some { 0 < by }
    ensures { result ≡ digits_value rule.radix (digits_between rule text.now 0 end) % by }
{
    let mut rest = 0u64;
    for at in 0..end {
        if let Some(digit) = char_to_digit_const(text[at], rule.radix) {
            rest = push(rest, rule.radix, digit, by);
        }
    }
    rest
}

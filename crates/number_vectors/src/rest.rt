//! A number in the rest of a text, and where it ends.

ghost use Rattle.std.specs.Prelude.{◌≡◌, ◌+◌, ◌<◌, ◌≤◌, length, drop, slice_index, true, IsTrue};
ghost use Rattle.lexical_format.specs.Word.{is_supported};
ghost use Rattle.lexical_digits.specs.declared.skip.component.Component.TheVariants.{Integer};
ghost use Rattle.lexical_digits.specs.Separators.{is_digit};
ghost use Rattle.lexical_digits.specs.State.{rule_of};
ghost use Rattle.lexical_digits.specs.Stop.{stop};

use digit_literals::stop_from;
use lexical_digits::skip::Component;

/// Where the number ends that begins with the digit at a position.
#[tactic(auto, using(digit_literals::proofs::ForCallers::rests))]
pub fn number_end(text: &[u8], word: u128, from: usize) -> usize
    requires supported { IsTrue (is_supported word) }
    requires within { from < length text.now }
    requires digit { is_digit (rule_of word Integer) (slice_index text.now from) ≡ true }
    ensures end { result ≡ from + stop (rule_of word Integer) (drop from text.now) 0 0 }
    ensures onward { from < result }
    ensures within { result ≤ length text.now }
{
    from + stop_from(&text[from..], word, Component::Integer, 0)
}

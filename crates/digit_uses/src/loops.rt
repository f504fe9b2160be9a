//! Loops over a `Bytes` and over an iterator (docs/IMPLEMENTING.md).
//!
//! Proof by hand: 19 lines, an invariant and a measure each.
#![tactic(auto)]

ghost use Rattle.std.specs.Prelude.{◌≡◌, ◌==◌, IsTrue, count_by};
ghost use Rattle.std.specs.List.{list_any};
ghost use Rattle.lexical_format.specs.Word.{is_supported};
ghost use Rattle.lexical_digits.specs.Separators.{is_digit};
ghost use Rattle.lexical_digits.specs.State.{start, rule_of};
ghost use Rattle.lexical_digits.specs.CallTable.{drain_of};
ghost use Rattle.lexical_digits.specs.declared.skip.component.Component.TheVariants.{Integer};

use lexical_digits::skip::{Bytes, Component, IntegerDigitsIterator};

/// How many digits a component of a text yields, up to the end of the text.
#[tactic(auto, using(lexical_digits::proofs::Calls::Loops::counts))]
pub fn count_yielded(text: &[u8], word: u128, component: Component) -> usize
    requires { IsTrue (is_supported word) }
    ensures { result ≡ count_by (is_digit (rule_of word component))
        (drain_of component (start text.now word)) }
{
    let mut bytes = Bytes::new(text, word);
    let mut digits = 0;
    while let Some(byte) = bytes.next_of(component) {
        if bytes.is_digit_of(component, *byte) {
            digits += 1;
        }
    }
    digits
}

/// Whether the integer yields a byte, from the cursor on.
pub fn yields(bytes: &mut Bytes, wanted: u8) -> bool
    ensures { result ≡ list_any (λ byte. byte == wanted) (drain_of Integer bytes.old.state) }
{
    let mut iter = IntegerDigitsIterator { byte: bytes };
    while let Some(byte) = iter.next() {
        if *byte == wanted {
            return true;
        }
    }
    false
}

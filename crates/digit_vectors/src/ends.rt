//! Loops that end early: by `peek_of` where the digits end, over a `Bytes` in a field, and by the
//! iterator at a byte that is wanted.

ghost use Rattle.std.specs.Prelude.{◌≡◌, ◌==◌, ◌<◌, slice_get, IsTrue};
ghost use Rattle.std.specs.List.{list_any, sum_by};
ghost use Rattle.std.specs.Io.BufRead.{drop_through};
ghost use Rattle.lexical_format.specs.Word.{is_supported};
ghost use Rattle.lexical_digits.specs.State.{start};
ghost use Rattle.lexical_digits.specs.CallTable.{drain_of, after_drain};
ghost use Rattle.lexical_digits.specs.Cursor.{holds_of};
ghost use Rattle.lexical_digits.specs.Stop.{stop_of};
ghost use Rattle.lexical_digits.specs.declared.skip.component.Component.TheVariants.{Integer, Fraction};
ghost use Rattle.digit_vectors.specs.Loops.{worth};

use lexical_digits::iterator::{Iter, IterBodies};
use lexical_digits::skip::{Bytes, Component, IntegerDigitsIterator};
use lexical_format::char_to_digit_const;

/// Where the digits of a component end, at the first kept byte that is no digit, and whether a
/// point is there.
pub fn component_end(text: &[u8], word: u128, component: Component) -> (usize, bool)
    requires { IsTrue (is_supported word) }
    ensures end { result.0 ≡ stop_of component (start text.now word) }
    ensures point { result.1 ≡ holds_of (λ byte. byte == 46) (slice_get text.now result.0) }
{
    let mut bytes = Bytes::new(text, word);
    while let Some(byte) = bytes.peek_of(component) {
        if !bytes.is_digit_of(component, *byte) {
            break;
        }
        bytes.next_of(component);
    }
    (bytes.cursor(), bytes.first_is_cased(b'.'))
}

/// A parser with its `Bytes` in a field.
#[derive(Drop)]
pub struct Parser<'a> {
    pub bytes: Bytes<'a>,
    /// The radix of the digits that are summed.
    pub radix: u32,
}

/// The value of a byte as a digit of that radix; 0 for every other byte.
#[tactic(auto, unfolding(lexical_format::specs::Digits::digit_value))]
fn worth(byte: u8, radix: u32) -> u32
    ensures value { result ≡ worth radix byte }
    ensures small { result < 36 }
{
    char_to_digit_const(byte, radix).unwrap_or(0)
}

impl<'a> Parser<'a> {
    /// The sum of the digits that the fraction yields, up to the end of the buffer.
    pub fn sum_digits(&mut self) -> u128
        ensures sum { let s = self.old.bytes.state in
            result ≡ sum_by (worth self.old.radix) (drain_of Fraction s) }
        ensures state { self.new.bytes.state ≡ after_drain Fraction self.old.bytes.state }
    {
        let mut sum = 0;
        while let Some(byte) = self.bytes.next_of(Component::Fraction) {
            sum += u128::from(worth(*byte, self.radix));
        }
        sum
    }
}

/// Whether the integer yields a byte from the cursor on. Takes what it yields, up to and with that
/// byte.
pub fn take_through(bytes: &mut Bytes, wanted: u8) -> bool
    ensures answer { result ≡ list_any (λ byte. byte == wanted) (drain_of Integer bytes.old.state) }
    ensures rest { drain_of Integer bytes.new.state
        ≡ drop_through wanted (drain_of Integer bytes.old.state) }
    ensures leaves { after_drain Integer bytes.new.state ≡ after_drain Integer bytes.old.state }
{
    let mut iter = IntegerDigitsIterator { byte: bytes };
    while let Some(byte) = iter.next() {
        if *byte == wanted {
            return true;
        }
    }
    false
}

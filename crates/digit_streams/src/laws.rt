//! Laws of numbers in a stream.

ghost use Rattle.std.specs.Prelude.{◌≡◌, false, ℕ, List, [], ◌∷◌, ◌+◌, ◌-◌, drop, IfSome};
ghost use Rattle.digit_pieces.specs.Apart.{is_between};
ghost use Rattle.digit_pieces.specs.Enclosed.{is_enclosed_byte};
ghost use Rattle.digit_pieces.specs.Texts.{IsApart};
ghost use Rattle.digit_streams.specs.Streams.{stream_list, then_from};

use super::reader::NumberReader;
use digit_literals::Gap;
use digit_pieces::Kind;

/// A stream may be read by several calls. With room for `n` numbers, and then, where the slice was
/// full, with room for `m`, they are the numbers with room for all; and the list ends as that.
pub fn calls_go_on<K: Kind>(kind: K, gap: Gap)
    requires { K.valid kind }
    ensures { (n m position : ℕ) (text : List ℕ) → IsApart (K.has_byte kind) gap →
        let list = stream_list (K.number_at kind) K.none_at K.error_later gap in
        list position text (n + m) ≡ then_from (list position text n)
        (λ at. list at (drop (at - position) text) m) }
{}

/// The first two numbers of a text, by two calls of a reader, if they give numbers: they are those
/// of the list.
pub fn first_two<K: Kind>(
    text: &[u8],
    buffer: &mut [u8],
    kind: K,
    gap: Gap,
) -> Option<(K::Number, K::Number)>
    requires { K.valid kind }
    ensures { IfSome result (λ two. IsApart (K.has_byte kind) gap →
        (stream_list (K.number_at kind) K.none_at K.error_later gap 0 text.now 2).0
        ≡ K.meaning two.0 ∷ K.meaning two.1 ∷ []) }
{
    calls_go_on(kind, gap);
    let mut numbers = NumberReader::new(text, buffer, kind, gap);
    let first = match numbers.next_number() {
        Some(Ok(first)) => first,
        _ => return None,
    };
    match numbers.next_number() {
        Some(Ok(second)) => Some((first, second)),
        _ => None,
    }
}

/// [`Enclosed`](digit_pieces::Enclosed): what holds of the numbers, and of the two bytes around
/// each, holds of the numbers with these bytes.
pub fn enclosed_are_apart<K: Kind>(opening: u8, kind: K, closing: u8, gap: Gap)
    requires kind { IsApart (K.has_byte kind) gap }
    requires opening { is_between gap opening ≡ false }
    requires closing { is_between gap closing ≡ false }
    ensures { IsApart (is_enclosed_byte opening (K.has_byte kind) closing) gap }
{}

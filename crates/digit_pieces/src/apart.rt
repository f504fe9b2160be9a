//! Whether a byte that may be between two numbers may be in one.

ghost use Rattle.std.specs.Prelude.{◌≡◌, ℕ, ◌&&◌, true, false};
ghost use Rattle.digit_pieces.specs.Apart.{is_between, IsShared};
ghost use Rattle.digit_pieces.specs.Texts.{IsApart};

use super::kind::Kind;
use digit_literals::Gap;

/// Whether a byte may be between two numbers: it separates, or is a blank.
fn is_between(gap: Gap, byte: u8) -> bool
    ensures { result ≡ is_between gap byte }
{
    gap.separators.accepts(byte) || gap.blanks.accepts(byte)
}

/// Whether a byte may be in a number, and between two.
fn is_shared<K: Kind>(kind: K, gap: Gap, byte: u8) -> bool
    ensures { result ≡ (K.has_byte kind byte && is_between gap byte) }
{
    kind.has_byte(byte) && is_between(gap, byte)
}

/// Tests that no byte of the gap can be in a number of the kind. If so, a stream, or a text in
/// pieces, gives the numbers of the whole text.
///
/// It is for a kind or a gap of run time: of constants a law says it
/// ([`apart`](crate::laws::apart)).
///
/// ```text
/// integers by `STANDARD` with COMMAS: true     by a word that drops `,`, as in `1,234`: false
/// ```
pub fn is_apart<K: Kind>(kind: K, gap: Gap) -> bool
    ensures apart { result ≡ true → IsApart (K.has_byte kind) gap }
    ensures shared { result ≡ false → (byte : ℕ) × IsShared (K.has_byte kind) gap byte }
    ensures none { result ≡ false → IsApart (K.has_byte kind) gap → ⊥ }
{
    for at in 0..256_usize {
        if is_shared(kind, gap, at as u8) {
            return false;
        }
    }
    true
}

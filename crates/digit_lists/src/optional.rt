//! A number or none.

ghost use Rattle.std.specs.Prelude.{◌≡◌, ◌≤◌, length, Ok, Err, IfOk, IfSome, MatchResult};
ghost use Rattle.digit_lists.specs.Optional.{optional, with_meaning};

use digit_pieces::Kind;

/// Reads the number at `start`, or returns `None` if none begins there. Requires that the kind is
/// valid and that `start` is within the text.
///
/// The number's error says that ([`Kind::is_none_at`]): at the end of the text, at a letter, or at
/// a blank. A sign without a digit is an error, and so is a number that is too large.
///
/// ```text
/// an `i8` of `x=-12;` from 2: Ok(Some((-12, 5))); from 5: Ok(None)
/// of `-;`: Err(Empty(1)); of `200`: Err(Overflow(2)); of ``: Ok(None)
/// ```
#[inline(always)]
pub fn read_optional<K: Kind>(
    kind: K,
    text: &[u8],
    start: usize,
) -> Result<Option<(K::Number, usize)>, K::Error>
    requires valid { K.valid kind }
    requires within { start ≤ length text.now }
    ensures is { let found = optional K.none_at start (K.number_at kind text.now start) in
        MatchResult result (λ number. found ≡ Ok (with_meaning K.meaning number))
        (λ error. found ≡ Err error) }
    ensures end { IfOk result (λ number.
        IfSome number (λ read. (start ≤ read.1) × (read.1 ≤ length text.now))) }
{
    match kind.read_number(text, start) {
        Ok(read) => Ok(Some(read)),
        Err(error) if K::is_none_at(error, start) => Ok(None),
        Err(error) => Err(error),
    }
}

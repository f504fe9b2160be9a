//! A kind of numbers: how one is read from a text, and which bytes it may have.

ghost use Rattle.std.specs.Prelude.{◌≡◌, ℕ, Bool, ◌+◌, ◌^◌, ◌<◌, ◌≤◌, List, length, drop, Result, Ok, Err, IfSome, IfNone, IfOk, MatchResult};
ghost use Rattle.digit_languages.specs.Follows.{AreSameBefore};
ghost use Rattle.digit_literals.specs.Lists.{list_at, Fills, IfFull, IfOver};
ghost use Rattle.lexical_digits.specs.Moves.{IsFresh, outcome_later};

use digit_literals::{Gap, ListRead};

/// A kind of numbers of a text, such as integers of a type by a word. It says how one number is
/// read, and which bytes may be in it. `read_number` may look left and right up to the nearest byte
/// for which `has_byte` is `false`, and no further: for the 12 of `a;12,b` at `;12,`.
pub trait Kind: Copy {
    /// A number.
    type Number: Copy;

    /// Why there is none.
    type Error: Copy;

    // What a number stands for.
    ghost Meaning: { Type 0 };

    ghost meaning: { Self.Number → Meaning };

    // The kinds that a value may be: its word is supported, say.
    ghost valid: { Self → Type 0 };

    // That is one fact, so that a value can hold it.
    ghost valid_once: { (k : Self) → IsProp (valid k) };

    // The number at a position of a text, and where it ends, or why there is none.
    ghost number_at: { Self → List ℕ → ℕ → Result (Meaning × ℕ) Self.Error };

    // Whether a byte may be in a number.
    ghost has_byte: { Self → ℕ → Bool };

    // The position that an error holds, and the error with its position so much later.
    ghost error_at: { Self.Error → ℕ };

    ghost error_later: { ℕ → Self.Error → Self.Error };

    // Whether an error says that no number begins at a position.
    ghost none_at: { ℕ → Self.Error → Bool };

    /// The number that begins at `start`, and the position after it.
    fn read_number(self, text: &[u8], start: usize) -> Result<(Self::Number, usize), Self::Error>
        requires valid { valid self }
        requires within { start ≤ length text.now }
        ensures is { let read = number_at self text.now start in
            MatchResult result (λ number. read ≡ Ok (meaning number.0, number.1))
            (λ error. read ≡ Err error) }
        ensures end { IfOk result (λ read. (start ≤ read.1) × (read.1 ≤ length text.now)) };

    /// Whether a byte may be in a number.
    fn has_byte(self, byte: u8) -> bool
        ensures { result ≡ has_byte self byte };

    /// The position that an error holds.
    fn error_at(error: Self::Error) -> usize
        ensures { result ≡ error_at error };

    /// The same error, with its position `by` bytes later.
    fn error_later(error: Self::Error, by: usize) -> Self::Error
        requires { by + error_at error < 2 ^ 64 }
        ensures { result ≡ error_later by error };

    /// Whether an error says that no number begins at a position: a list whose gap may trail is
    /// over there. Of a number that is refused, such as one too large, it is `false`.
    fn is_none_at(error: Self::Error, place: usize) -> bool
        ensures { result ≡ none_at place error };

    /// Whether [`read_list`](Kind::read_list) is faster here than one number after the other, into
    /// a slice of so many places. No answer depends on it.
    #[inline(always)]
    fn is_list_faster(self, text: &[u8], start: usize, gap: Gap, room: usize) -> bool
        requires { start ≤ length text.now }
    {
        false
    }

    /// The numbers from `start` on, read into a slice, with what `gap` says between two of them, if
    /// the kind has a faster way than one number after the other. If not, it is `None`, and nothing
    /// is written.
    #[inline(always)]
    fn read_list(
        self,
        text: &[u8],
        start: usize,
        gap: Gap,
        out: &mut [Self::Number],
    ) -> Option<ListRead<Self::Error>>
        requires valid { valid self }
        requires within { start ≤ length text.now }
        ensures is { let list = list_at (number_at self text.now) none_at gap text.now
            (length out.old) start in
            IfSome result (λ read. Fills meaning list read out.old out.new) }
        ensures none { IfNone result (out.new ≡ out.old) }
        ensures count { IfSome result (λ read. read.count ≤ length out.old) }
        ensures full { IfSome result (λ read.
            IfFull read.end (λ at. (start ≤ at) × (at ≤ length text.now))) }
        ensures over { IfSome result (λ read.
            IfOver read.end (λ at. (start ≤ at) × (at ≤ length text.now))) }
    {
        None
    }

    // What follows a byte that no number has makes no difference.
    ghost follows: { (k : Self) (one other : List ℕ) (at start : ℕ) → valid k
        → AreSameBefore (has_byte k) one other at → start ≤ at
        → number_at k one start ≡ number_at k other start };

    // Nor does what is before one.
    ghost precedes: { (k : Self) (text : List ℕ) (from at : ℕ) → valid k
        → from + at ≤ length text → IsFresh (has_byte k) text from
        → number_at k text (from + at)
        ≡ outcome_later error_later from (number_at k (drop from text) at) };

    // A number ends within the text.
    ghost ends: { (k : Self) (text : List ℕ) (start end : ℕ) (x : Meaning) → valid k
        → start ≤ length text → number_at k text start ≡ Ok (x, end) → end ≤ length text };

    ghost later_at: { (by : ℕ) (e : Self.Error) → error_at (error_later by e) ≡ by + error_at e };

    ghost later_more: { (by more : ℕ) (e : Self.Error) → error_later by (error_later more e)
        ≡ error_later (by + more) e };

    ghost none_later: { (by place : ℕ) (e : Self.Error)
        → none_at (by + place) (error_later by e) ≡ none_at place e };
}

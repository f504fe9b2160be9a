//! Laws of numbers in a text that comes in pieces.

ghost use Rattle.std.specs.Prelude.{◌≡◌, ℕ, ◌+◌, ◌<◌, ◌≤◌, Bool, true, false, List, [], ◌∷◌, ◌++◌, length, take, slice_index, Ok};
ghost use Rattle.std.specs.List.{concat};
ghost use Rattle.digit_literals.specs.Lists.{is_blank, list_at, past_blanks};
ghost use Rattle.digit_pieces.specs.Cuts.{sure_end};
ghost use Rattle.digit_pieces.specs.Pieces.{and_full, as_piece, full_past, is_of_blanks, piece_at, whole_at};
ghost use Rattle.digit_pieces.specs.Texts.{IsApart, list_of, read_pieces};

pub mod apart;
pub mod precedes;
pub mod precedes_form;

use super::kind::Kind;
use digit_literals::Gap;

/// A text may come in pieces, cut anywhere, into empty ones too. What is read piece by piece, each
/// after what was left of those before it, is the list of the whole text: the same numbers, each
/// once, and the same end or fault, at the same position of the text. Where blanks alone separate,
/// [`Full`](crate::PieceEnd::Full) is after one blank ([`a_text_is_a_list`]). The premise is that
/// no byte that may be between two numbers may be in one.
pub fn pieces_give_the_list<K: Kind>(kind: K, gap: Gap)
    requires { K.valid kind }
    ensures { (room : ℕ) (rest : List ℕ) (pieces : List (List ℕ)) (last : List ℕ) →
        IsApart (K.has_byte kind) gap →
        read_pieces (K.number_at kind) K.none_at K.error_later (K.has_byte kind) gap room rest
        pieces last
        ≡ list_of (K.number_at kind) K.none_at K.error_later (K.has_byte kind) gap
        (rest ++ (concat pieces ++ last)) room 0 }
{}

/// The numbers of a text that may come in pieces are its list, as
/// [`read_list`](digit_literals::read_list) reads it. Where blanks alone separate,
/// [`Full`](digit_literals::ListEnd::Full) differs: a list's is past all blanks, and here it is
/// after one, so that no byte that follows it is waited for. Past the blanks both are one.
#[tactic(auto, using(crate::proofs::AsLists::as_lists))]
pub fn a_text_is_a_list<K: Kind>(kind: K, text: &[u8], gap: Gap)
    ensures separators { (room start : ℕ) → is_of_blanks gap ≡ false →
        whole_at (K.number_at kind text.now) K.none_at gap text.now room start
        ≡ list_at (K.number_at kind text.now) K.none_at gap text.now room start }
    ensures blanks { (room start : ℕ) →
        full_past gap text.now
        (whole_at (K.number_at kind text.now) K.none_at gap text.now room start)
        ≡ full_past gap text.now
        (list_at (K.number_at kind text.now) K.none_at gap text.now room start) }
{}

/// The last piece is the whole text from its start on. A piece may be read by several calls: with
/// room for `n` numbers, and then, where the slice was full, with room for `m`, they are the
/// numbers with room for all; and the piece ends as that.
#[tactic(auto, using(crate::proofs::GoesOn::several))]
pub fn a_piece_goes_on<K: Kind>(kind: K, text: &[u8], gap: Gap)
    ensures last { (room start : ℕ) →
        piece_at (K.number_at kind text.now) K.none_at gap text.now
        (sure_end (K.has_byte kind) text.now) true room start
        ≡ as_piece (whole_at (K.number_at kind text.now) K.none_at gap text.now room start) }
    ensures on { (is_last : Bool) (n m start : ℕ) →
        let of = piece_at (K.number_at kind text.now) K.none_at gap text.now
        (sure_end (K.has_byte kind) text.now) is_last in
        of (n + m) start ≡ and_full (of n start) (of m) }
{}

/// When the number at the start of a piece is given: as soon as a byte follows it that no number
/// has, and that is no blank. Where blanks alone separate, a blank is such a byte too. `last` is
/// its position.
pub fn a_number_is_given<K: Kind>(kind: K, text: &[u8], gap: Gap)
    ensures before { (is_last : Bool) (room start end last : ℕ) (x : K.Meaning) →
        K.number_at kind text.now (past_blanks gap text.now start) ≡ Ok (x, end) →
        past_blanks gap text.now start ≤ last → end ≤ last → last < length text.now →
        K.has_byte kind (slice_index text.now last) ≡ false →
        is_blank gap (slice_index text.now last) ≡ false →
        take 1 (piece_at (K.number_at kind text.now) K.none_at gap text.now
        (sure_end (K.has_byte kind) text.now) is_last (room + 1) start).0 ≡ x ∷ [] }
    ensures blanks { (is_last : Bool) (room start end last : ℕ) (x : K.Meaning) →
        K.number_at kind text.now (past_blanks gap text.now start) ≡ Ok (x, end) →
        past_blanks gap text.now start ≤ last → end ≤ last → last < length text.now →
        K.has_byte kind (slice_index text.now last) ≡ false → is_of_blanks gap ≡ true →
        take 1 (piece_at (K.number_at kind text.now) K.none_at gap text.now
        (sure_end (K.has_byte kind) text.now) is_last (room + 1) start).0 ≡ x ∷ [] }
{}

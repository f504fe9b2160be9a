//! Laws: what an outcome says, std reads the same where there is no separator, and a zero keeps its
//! sign.

ghost use Rattle.std.specs.Prelude.{◌≡◌, ℕ, Bool, ◌<◌, ◌≤◌, ◌↔◌, List, ◌++◌, Some, Ok, Err, length};
ghost use Rattle.std.specs.Float.{Float, Format};
ghost use Rattle.std.specs.Float.Ieee.{round};
ghost use Rattle.std.specs.Float.Numeral.{Parts, IsWellFormed, numeral_digits, nearest_float, text_of};
ghost use Rattle.std.specs.Float.Parse.{parse_float as std_float};
ghost use Rattle.std.specs.Fmt.{sign_text};
ghost use Rattle.digit_floats.specs.Float.{IsDecimal, plain_marks, past_sign, parts_at, float_at, end_at, read_at, parse_at};
ghost use Rattle.digit_floats.specs.Bytes.{stands, is_minus};
ghost use Rattle.digit_floats.specs.declared.error.FloatError.{FloatError};
ghost use Rattle.digit_floats.specs.declared.parts.Marks.{Marks};
ghost use Rattle.digit_floats.specs.Follows.{IsSameFloatUpTo};
ghost use Rattle.digit_floats.specs.Separators.{HasNoSeparator};

/// On a text without separators, all of which is a float, std's `parse` answers the same float.
#[tactic(auto, using(crate::proofs::AsStd::as_parsed))]
pub fn std_reads_the_same(text: &[u8], word: u128)
    requires decimal { IsDecimal word }
    requires plain { HasNoSeparator word text.now }
    ensures value { (f : Format) (x : Float) → parse_at word text.now plain_marks f 0 ≡ Ok x →
        std_float f text.now ≡ Some x }
{}

/// A number whose digits are all `0` is a zero with its sign, whatever its exponent: `-0.0e9` is
/// -0.0. Here `round f negative 0 1` is that zero.
pub fn zeros_keep_their_sign(text: &[u8], word: u128)
    ensures { (marks : Marks) (f : Format) (at : ℕ) →
        numeral_digits (parts_at word text.now marks (past_sign text.now at)) ≡ 0 →
        float_at word text.now marks f at ≡ round f (stands is_minus text.now at) 0 1 }
{}

/// What each outcome says: the float that [`read_float_from`](crate::read_float_from) or
/// [`parse_float_from`](crate::parse_float_from) answers is the nearest one, and where it ends or
/// why there is none doesn't depend on its type. So a text has an `f32` exactly if it has an `f64`.
pub fn float_outcomes_say(text: &[u8], word: u128)
    ensures reads { (marks : Marks) (f : Format) (at end : ℕ) (x : Float) →
        read_at word text.now marks f at ≡ Ok (x, end) ↔
        ((x ≡ float_at word text.now marks f at) × (end_at word text.now marks at ≡ Ok end)) }
    ensures parses { (marks : Marks) (f : Format) (at : ℕ) (x : Float) →
        parse_at word text.now marks f at ≡ Ok x ↔ ((x ≡ float_at word text.now marks f at)
        × (end_at word text.now marks at ≡ Ok (length text.now))) }
    ensures none { (marks : Marks) (f : Format) (at : ℕ) (error : FloatError) →
        read_at word text.now marks f at ≡ Err error ↔
        end_at word text.now marks at ≡ Err error }
{}

/// What follows a float makes no difference to it. Where two texts have the same bytes up to a
/// position, and each ends there, or goes on with a byte that is no digit of the word, no
/// separator, point, mark or sign, the float from each start up to there is the same: the same
/// float and end, or the same fault.
pub fn what_follows_changes_no_float()
    ensures { (word : ℕ) (marks : Marks) (one other : List ℕ) (at start : ℕ) (f : Format) →
        IsSameFloatUpTo word marks one other at → start ≤ at →
        read_at word one marks f start ≡ read_at word other marks f start }
{}

/// A float that was written is read: perhaps a minus, digits, perhaps a point and digits, and
/// perhaps
/// an exponent, without separators, are the float nearest to the number that they write.
#[tactic(auto, using(crate::proofs::AsStd::as_written))]
pub fn written_floats_are_read()
    ensures { (word : ℕ) (text : List ℕ) (f : Format) (negative : Bool) (p : Parts) →
        IsDecimal word → HasNoSeparator word text → IsWellFormed p → 0 < length p.whole →
        text ≡ sign_text negative ++ text_of p →
        parse_at word text plain_marks f 0 ≡ Ok (nearest_float f negative p) }
{}

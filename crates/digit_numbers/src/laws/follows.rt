//! That what follows a number makes no difference to it.

ghost use Rattle.std.specs.Prelude.{◌≡◌, ℕ, ◌+◌, ◌<◌, ◌≤◌, ◌↔◌, true, false, List, length, take, Ok};
ghost use Rattle.std.specs.Float.{Float, Format};
ghost use Rattle.digit_values.specs.Bytes.{has_byte};
ghost use Rattle.digit_floats.specs.Bytes.{stands};
ghost use Rattle.digit_languages.specs.Follows.{AreSameBefore};
ghost use Rattle.digit_numbers.specs.Follows.{is_number_byte};
ghost use Rattle.digit_numbers.specs.Numbers.{number_of_at, to_end};

use crate::form::Form;
use crate::number::Number;

/// What follows a number makes no difference to it. Where two texts have the same bytes up to a
/// position, and each ends there, or goes on with a byte that no number of the form has, the
/// outcome from each start up to there is the same.
///
/// So a text that is cut before such a byte, as before a `,` or a blank, is read as it was. It is a
/// number as a whole exactly if a number is read in the longer text that ends there.
pub fn what_follows_changes_no_outcome()
    ensures outcome { (f : Form) (one other : List ℕ) (at start : ℕ) (format : Format) →
        AreSameBefore (is_number_byte f) one other at → start ≤ at →
        number_of_at f one start format ≡ number_of_at f other start format }
    // two texts with the same bytes, up to one that ends every number
    ensures through { (f : Form) (one other : List ℕ) (at start : ℕ) (format : Format) →
        at < length one → at < length other → take (at + 1) one ≡ take (at + 1) other →
        stands (is_number_byte f) one at ≡ false → start ≤ at →
        number_of_at f one start format ≡ number_of_at f other start format }
    // a text that is cut before such a byte, or at its end
    ensures cut { (f : Form) (text : List ℕ) (at start : ℕ) (format : Format) →
        at ≤ length text → stands (is_number_byte f) text at ≡ false → start ≤ at →
        number_of_at f (take at text) start format ≡ number_of_at f text start format }
    // it is a number as a whole exactly if one is read in the longer text that ends there
    ensures whole { (f : Form) (text : List ℕ) (at start : ℕ) (format : Format) (n : Number Float) →
        at ≤ length text → stands (is_number_byte f) text at ≡ false → start ≤ at →
        to_end (take at text) (number_of_at f (take at text) start format) ≡ Ok n ↔
        number_of_at f text start format ≡ Ok (n, at) }
    // what to show of such a byte
    ensures byte { (f : Form) (text : List ℕ) (at byte : ℕ) →
        has_byte text at byte ≡ true → is_number_byte f byte ≡ false →
        stands (is_number_byte f) text at ≡ false }
{}

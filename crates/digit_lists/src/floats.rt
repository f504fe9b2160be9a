//! Lists of floats, which are read into a slice.

ghost use Rattle.std.specs.Prelude.{◌≤◌, length, take, IsTrue};
ghost use Rattle.std.specs.Float.{NotNan};
ghost use Rattle.std.specs.List.{All};
ghost use Rattle.lexical_format.specs.Word.{is_supported};
ghost use Rattle.digit_literals.specs.Lists.{list_at, Fills, IfFull, IfOver};
ghost use Rattle.digit_floats.specs.Errors.{none_at};
ghost use Rattle.digit_floats.specs.Float.{IsDecimal, plain_marks, read_at};

use digit_floats::{Float, FloatError};
use digit_literals::{Gap, ListRead, read_list_with};
use digit_pieces::Floats;

/// Reads floats, as [`read_list`](digit_literals::read_list) reads integers. Requires that `start`
/// is within the text, that the word is supported, and that its mantissa and exponent are decimal.
///
/// Each is read as by [`read_float_from`](digit_floats::read_float_from), with what `gap` says
/// between two of them.
///
/// ```text
/// `1.5, -2e3]` with COMMAS, into 3 places: count 2, Over(9)
/// `48.2 16.37\n` with WHITESPACE, into 3 places: count 2, Over(11)
/// ```
#[inline(always)]
pub fn read_float_list<F: Float>(
    text: &[u8],
    start: usize,
    word: u128,
    gap: Gap,
    out: &mut [F],
) -> ListRead<FloatError>
    requires supported { IsTrue (is_supported word) }
    requires decimal { IsDecimal word }
    requires within { start ≤ length text.now }
    ensures is { let list = list_at (read_at word text.now plain_marks F.format) none_at gap
        text.now (length out.old) start in
        Fills F.value list result out.old out.new }
    ensures no_nan { All (λ x. NotNan (F.value x)) (take result.count out.new) }
    ensures count { result.count ≤ length out.old }
    ensures full { IfFull result.end (λ at. (start ≤ at) × (at ≤ length text.now)) }
    ensures over { IfOver result.end (λ at. (start ≤ at) × (at ≤ length text.now)) }
{
    read_list_with(Floats::<F>::new(word), text, start, gap, out)
}

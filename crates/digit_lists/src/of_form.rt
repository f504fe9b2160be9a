//! Lists of numbers by a form, which are read into a slice.

ghost use Rattle.std.specs.Prelude.{◌≤◌, length};
ghost use Rattle.digit_literals.specs.Lists.{list_at, Fills, IfFull, IfOver};
ghost use Rattle.digit_numbers.specs.Forms.{IsForm};
ghost use Rattle.digit_numbers.specs.Numbers.{number_of_at};
ghost use Rattle.digit_numbers.specs.Values.{none_at, with_value};

use digit_floats::Float;
use digit_literals::{Gap, ListRead, read_list_with};
use digit_numbers::{Form, Number, NumberError};
use digit_pieces::OfForm;

/// Reads numbers of a form, as [`read_list`](digit_literals::read_list) reads integers. Requires
/// that `start` is within the text, and that the form is one ([`is_form`](digit_numbers::is_form)).
///
/// Each is read as by [`read_number_of`](digit_numbers::read_number_of), with what `gap` says
/// between two of them.
///
/// ```text
/// of JSON, `1, -2.5e3 ]` with COMMAS, into 3 places: count 2, Over(10)
/// ```
#[inline(always)]
pub fn read_list_of<F: Float>(
    text: &[u8],
    start: usize,
    form: Form,
    gap: Gap,
    out: &mut [Number<F>],
) -> ListRead<NumberError>
    requires within { start ≤ length text.now }
    requires form { IsForm form }
    ensures is { let list = list_at (λ at. number_of_at form text.now at F.format) none_at gap
        text.now (length out.old) start in
        Fills (with_value F.value) list result out.old out.new }
    ensures count { result.count ≤ length out.old }
    ensures full { IfFull result.end (λ at. (start ≤ at) × (at ≤ length text.now)) }
    ensures over { IfOver result.end (λ at. (start ≤ at) × (at ≤ length text.now)) }
{
    read_list_with(OfForm::<F>::new(form), text, start, gap, out)
}

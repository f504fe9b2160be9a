//! What calls answer, and how many looks they take: of a list of calls, and of one number in three
//! components.

ghost use Rattle.std.specs.Prelude.{◌≡◌, ◌+◌, ◌*◌, ◌≤◌, pos, ◌≤ℤ◌, ◌+ℤ◌, length, IfOk, OnOk, OnErr};
ghost use Rattle.lexical_digits.specs.CallTable.{run_of};
ghost use Rattle.lexical_digits.specs.Looks.{owed};
ghost use Rattle.digit_script.specs.Script.{script_of, reads_of, set_backs_of};
ghost use Rattle.lexical_digits.specs.declared.skip.component.Component.TheVariants.{Integer, Fraction, Exponent};
ghost use Rattle.number_vectors.specs.Bytes.{past_component};

use digit_literals::pass_digits;
use digit_script::{Answer, Call, run};
use lexical_digits::iterator::{Iter, IterBodies};
use lexical_digits::laws::looks_are_bounded;
use lexical_digits::skip::{Bytes, Component};
use std::alloc::{AllocError, Global};

/// Makes the calls of a list on a `Bytes` and answers what they answer: by the call table, with at
/// most four looks for each read, and three for each byte and each time the cursor is set back.
pub fn make_calls(
    alloc: Global,
    bytes: &mut Bytes,
    calls: &[Call],
) -> Result<Vec<Answer>, AllocError>
    ensures answers { let script = script_of calls.now in IfOk result (λ answers.
        answers.items ≡ (run_of bytes.old.state script).answers) }
    ensures state { let script = script_of calls.now in
        OnOk result (bytes.new.state ≡ (run_of bytes.old.state script).state) }
    ensures memory { OnErr result (bytes.new ≡ bytes.old) }
    ensures looks { let s = bytes.old.state in let script = script_of calls.now in
        bytes.new.looks ≤ bytes.old.looks
        + 4 * reads_of s script + 3 * (length s.buffer * (set_backs_of s script + 1)) }
{
    run(alloc, bytes, calls)
}

/// Passes the digits of a component, then the byte after them if it is `mark`. Answers how many
/// digits there are.
fn pass_component(bytes: &mut Bytes, component: Component, mark: u8) -> usize
    ensures state { bytes.new.state ≡ past_component component mark bytes.old.state }
    ensures within { result + bytes.old.state.cursor ≤ bytes.new.state.cursor }
    ensures buffer { bytes.new.state.buffer ≡ bytes.old.state.buffer }
    ensures owes { owed bytes.new ≤ℤ (owed bytes.old +ℤ pos (8 * result + 4)) }
{
    let digits = pass_digits(bytes, component);
    if bytes.first_is_cased(mark) {
        let at = bytes.cursor();
        bytes.set_cursor(at + 1);
    }
    digits
}

/// Passes a number such as `123_456.789e10` from the cursor on. Each call says what it owes: 8 for
/// a digit and 4 for a component. With 3 for each byte of the text, that bounds the looks.
pub fn pass_number(bytes: &mut Bytes)
    ensures state { bytes.new.state ≡ past_component Exponent 32
        (past_component Fraction 101 (past_component Integer 46 bytes.old.state)) }
    ensures looks { let n = length bytes.old.state.buffer in
        bytes.new.looks ≤ bytes.old.looks + 11 * n + 12 }
{
    looks_are_bounded();
    pass_component(bytes, Component::Integer, b'.');
    pass_component(bytes, Component::Fraction, b'e');
    pass_component(bytes, Component::Exponent, b' ');
}

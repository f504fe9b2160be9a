//! Lists of calls on one `Bytes`. A [`Call`] names a part, which is the `Bytes` itself or the
//! iterator of a component over it, and an [`Op`](lexical_digits::ops::Op), which is a call of
//! lexical-util by its name.
//!
//! [`run`] makes the calls of a list, one after another, and answers what each of them answered.
//! Its contract is the theorem of calls and the bound on looks: for every list, the answers and
//! the state that is left are those of the call table, and the reads and the moves back of the
//! cursor bound the looks.
#![tactic(auto)]

ghost use Rattle.std.specs.Prelude.{◌≡◌, true};
ghost use Rattle.digit_script.specs.Script.{script_of, RunsCalls};

mod dispatch;

use dispatch::make;
pub use lexical_digits::ops::{Answer, ByteSet, Op};
use lexical_digits::skip::Bytes;
use std::alloc::{AllocError, Allocator, Global};

/// The part that a call is made on.
#[derive(Clone, Copy, Debug, PartialEq, Eq)]
pub enum Part {
    /// The `Bytes` itself.
    Bytes,
    /// The integer's iterator over the `Bytes`.
    Integer,
    /// The fraction's iterator over the `Bytes`.
    Fraction,
    /// The exponent's iterator over the `Bytes`.
    Exponent,
    /// The special iterator over the `Bytes`.
    Special,
}

/// A call on a part.
#[derive(Clone, Copy, Debug, PartialEq, Eq)]
pub struct Call {
    /// The part that the call is made on.
    pub part: Part,
    /// The call, with its arguments.
    pub op: Op,
}

/// Makes the calls of a list in order, and answers what each of them answered.
///
/// A call on a component makes that component's iterator, calls it once, and ends it. A call is
/// [`Answer::Refused`](lexical_digits::ops::Answer), and changes nothing, if its condition does not
/// hold or if its part does not have it.
///
/// Room for all answers is reserved first. If that is refused, the answer is `AllocError` and
/// `bytes` is unchanged. Nothing else can fail.
pub fn run(alloc: Global, bytes: &mut Bytes, calls: &[Call]) -> Result<Vec<Answer>, AllocError>
    ensures { RunsCalls bytes.old bytes.new (script_of calls.now) result }
{
    run_in(alloc, bytes, calls)
}

/// As [`run`], with any allocator.
pub fn run_in<A: Allocator>(
    alloc: A,
    bytes: &mut Bytes,
    calls: &[Call],
) -> Result<Vec<Answer, A>, AllocError>
    ensures { RunsCalls bytes.old bytes.new (script_of calls.now) result }
{
    let mut answers = Vec::with_capacity(alloc, calls.len())?;
    for call in calls {
        let answer = make(bytes, *call);
        answers.push(answer).unwrap();
    }
    Ok(answers)
}

/// Whether two parts are equal: exactly if they are the same variant.
pub fn same_part(a: Part, b: Part) -> bool
    ensures same { result ≡ true → a ≡ b }
    ensures equal { a ≡ b → result ≡ true }
{
    a == b
}

/// Whether two ops are equal: exactly if they are the same variant with the same arguments.
pub fn same_op(a: Op, b: Op) -> bool
    ensures same { result ≡ true → a ≡ b }
    ensures equal { a ≡ b → result ≡ true }
{
    a == b
}

/// Whether two calls are equal: exactly if their parts and their ops are.
pub fn same_call(a: Call, b: Call) -> bool
    ensures same { result ≡ true → a ≡ b }
    ensures equal { a ≡ b → result ≡ true }
{
    a == b
}

/// Whether two answers are equal: exactly if they are the same variant with the same content.
pub fn same_answer(a: Answer, b: Answer) -> bool
    ensures same { result ≡ true → a ≡ b }
    ensures equal { a ≡ b → result ≡ true }
{
    a == b
}

/// A clone is the same value.
pub fn clones_are_same(part: Part, op: Op, call: Call, answer: Answer) -> (Part, Op, Call, Answer)
    ensures { result ≡ (part, op, call, answer) }
{
    let part = part.clone().unwrap();
    let op = op.clone().unwrap();
    (part, op, call.clone().unwrap(), answer.clone().unwrap())
}

//! Laws: what is left after a [`TooLarge`](crate::TooLarge), the first digits, and the bytes of
//! [`BLANKS`](crate::BLANKS).

ghost use Rattle.std.specs.Prelude.{◌≡◌, ℕ, ◌+◌, ◌^◌, ◌<◌, ◌==◌, ◌||◌, List, ◌++◌};
ghost use Rattle.lexical_digits.specs.declared.skip.component.Component.{Component};
ghost use Rattle.lexical_digits.specs.State.{State, IsState, rule, own};
ghost use Rattle.digit_values.specs.After.{ExceedsAt};
ghost use Rattle.digit_values.specs.Bytes.{HasBytes};
ghost use Rattle.digit_values.specs.Rest.{LeavesRest};
ghost use Rattle.digit_values.specs.First.{ReadsFirst};
ghost use Rattle.digit_values.specs.Significant.{IsOfFirstDigits};
ghost use Rattle.digit_values.specs.declared.first.FirstDigits.{FirstDigits};

use super::bytes::BLANKS;
use super::first::FirstDigits;

/// What is left after a [`TooLarge`](crate::TooLarge): the digits that lead are those before its
/// position, and then those that lead from there on, of which there are some. With all of them the
/// value is too large too. The stop is the same. So [`pass_digits`](crate::pass_digits) goes on
/// from there, and leaves what it would have left from the start.
pub fn too_large_leaves_the_rest()
    ensures { (k : Component) (s : State) (before most at : ℕ) → IsState s →
        ExceedsAt (rule k s) s.buffer s.cursor (own k s) before most at →
        LeavesRest k s before most at }
{}

/// Where `most` is a power of the radix less 1,
/// [`read_first_digits`](crate::read_first_digits) reads the first significant digits of a
/// component, as many as the power says.
pub fn first_are_significant(radix: u32, digits: u32, most: u64)
    requires some { 0 < digits }
    requires power { most + 1 ≡ radix ^ digits }
    ensures { (r before : ℕ) (read : FirstDigits) (all : List ℕ) → r ≡ radix → before ≡ 0 →
        ReadsFirst r most before all read →
        IsOfFirstDigits radix digits all read.value read.dropped }
{}

/// [`first_are_significant`] of a component after others, of which the first significant digits
/// were read before: `read` is then of those of all.
pub fn first_go_on(radix: u32, digits: u32, most: u64, before: FirstDigits, read: FirstDigits)
    requires some { 0 < digits }
    requires power { most + 1 ≡ radix ^ digits }
    ensures { (r : ℕ) (others all : List ℕ) → r ≡ radix →
        IsOfFirstDigits radix digits others before.value before.dropped →
        ReadsFirst r most before.value all read →
        IsOfFirstDigits radix digits (others ++ all) read.value (before.dropped + read.dropped) }
{}

/// The bytes of [`BLANKS`](crate::BLANKS): tab, line feed, carriage return and space.
#[tactic(auto, using(crate::proofs::EachByte::has_bytes))]
pub fn blanks_are()
    ensures { HasBytes BLANKS (λ b. b == 9 || b == 10 || b == 13 || b == 32) }
{}

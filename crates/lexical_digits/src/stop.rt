//! Where the digits of a component end: laws of its iterator. Each law is the contract of a
//! function.

ghost use Rattle.std.specs.Prelude.{◌≡◌, ℕ, ◌+◌, ◌<◌, ◌≤◌, false, List, [], length, take, filter, slice_range};
ghost use Rattle.std.specs.Fn.{iterate};
ghost use Rattle.lexical_format.specs.Digits.{is_digit_of_radix};
ghost use Rattle.lexical_digits.specs.declared.skip.rule.Rule.{Rule};
ghost use Rattle.lexical_digits.specs.Separators.{is_digit, IsSupported, GrantsAtLeast};
ghost use Rattle.lexical_digits.specs.State.{State, IsState, rule};
ghost use Rattle.lexical_digits.specs.CallTable.{place_of, settled, taken};
ghost use Rattle.lexical_digits.specs.Looks.{separator_at};
ghost use Rattle.lexical_digits.specs.Follows.{Ends, AreSameUpTo};
ghost use Rattle.lexical_digits.specs.Stop.{leading, after_leading, stop, leading_digits, stop_of, leading_digits_of, past_digits_of, IsNthDigit};
ghost use Rattle.lexical_digits.specs.declared.skip.component.Component.{Component};

/// The leading digits of a component's iterator are the items before the first one that is no
/// digit. They are the digits of the buffer from the cursor to the stop: the first kept position
/// that holds no digit, or the length of the buffer. If `next` is called once for each of them,
/// and then `peek`, the cursor is at the stop, and an iterator that counts has counted them. If
/// there is none, the place is the stop. The n-th digit is at the place after n calls of
/// `next`.
///
/// A generic function that reads digits states its contract for any implementer. Its caller calls
/// this, and then knows what that contract says of an iterator over a `Bytes`.
#[tactic(auto, using(crate::proofs::Calls::ends), unfolding(crate::specs::Separators::is_digit))]
pub fn digits_end()
    ensures digits { (k : Component) (s : State) → IsState s →
        leading (λ (m : State). m.buffer) (λ m. m.cursor) (place_of k) (taken k)
        (is_digit (rule k s)) s
        ≡ leading_digits_of k s }
    ensures after { (k : Component) (s : State) → IsState s →
        after_leading (λ (m : State). m.buffer) (λ m. m.cursor) (place_of k) (taken k) (settled k)
        (is_digit (rule k s)) s
        ≡ past_digits_of k s }
    // the same, where a digit is a digit of the component's radix
    ensures digits_by_radix { (k : Component) (s : State) (radix : ℕ) → IsState s →
        radix ≡ (rule k s).radix →
        leading (λ (m : State). m.buffer) (λ m. m.cursor) (place_of k) (taken k)
        (is_digit_of_radix radix) s
        ≡ leading_digits_of k s }
    ensures after_by_radix { (k : Component) (s : State) (radix : ℕ) → IsState s →
        radix ≡ (rule k s).radix →
        after_leading (λ (m : State). m.buffer) (λ m. m.cursor) (place_of k) (taken k) (settled k)
        (is_digit_of_radix radix) s
        ≡ past_digits_of k s }
    ensures between { (k : Component) (s : State) → IsState s →
        leading_digits_of k s
        ≡ filter (is_digit (rule k s)) (slice_range s.buffer s.cursor (stop_of k s)) }
    ensures none { (k : Component) (s : State) →
        leading_digits_of k s ≡ [] → place_of k s ≡ stop_of k s }
    ensures nth { (n : ℕ) (k : Component) (s : State) → IsState s →
        n < length (leading_digits_of k s) →
        IsNthDigit k s n (place_of k (iterate (taken k) n s)) }
{}

/// More flags read on. Where one rule grants at least what another grants, with the same separator
/// and radix, then from each start and count its stop is no earlier, and the digits before it begin
/// with the other's.
///
/// Where the lesser rule stops at a byte that isn't the separator, or at the end, the stop and the
/// digits are the same. So a text that is read whole by a word is read whole, with the same digits,
/// by each word with more flags.
#[tactic(auto, using(crate::proofs::Calls::MoreFlags::more_flags))]
pub fn more_flags_read_on()
    ensures no_earlier { (lesser greater : Rule) (buffer : List ℕ) (start count : ℕ) →
        IsSupported lesser → GrantsAtLeast lesser greater →
        stop lesser buffer start count ≤ stop greater buffer start count }
    ensures begins { (lesser greater : Rule) (buffer : List ℕ) (start count : ℕ) →
        IsSupported lesser → GrantsAtLeast lesser greater →
        let before = leading_digits lesser buffer start count in
        take (length before) (leading_digits greater buffer start count) ≡ before }
    ensures same_stop { (lesser greater : Rule) (buffer : List ℕ) (start count : ℕ) →
        IsSupported lesser → GrantsAtLeast lesser greater →
        separator_at lesser.separator buffer (stop lesser buffer start count) ≡ false →
        stop greater buffer start count ≡ stop lesser buffer start count }
    ensures same_digits { (lesser greater : Rule) (buffer : List ℕ) (start count : ℕ) →
        IsSupported lesser → GrantsAtLeast lesser greater →
        separator_at lesser.separator buffer (stop lesser buffer start count) ≡ false →
        leading_digits greater buffer start count ≡ leading_digits lesser buffer start count }
{}

/// What follows makes no difference. Where two texts have the same bytes up to a position, and each
/// ends there, or goes on with a byte that is neither a digit nor the separator, the stop from any
/// start up to there is the same, and no later than that position.
///
/// So a number is read in a longer text as it is read alone.
#[tactic(auto, using(crate::proofs::Calls::WhatFollows::follows))]
pub fn what_follows_changes_no_stop()
    ensures upto { (rule : Rule) (one other : List ℕ) (at start count : ℕ) →
        AreSameUpTo rule one other at → start ≤ at →
        stop rule one start count ≤ at }
    ensures same_stop { (rule : Rule) (one other : List ℕ) (at start count : ℕ) →
        AreSameUpTo rule one other at → start ≤ at →
        stop rule one start count ≡ stop rule other start count }
    ensures same_digits { (rule : Rule) (one other : List ℕ) (at start count : ℕ) →
        AreSameUpTo rule one other at → start ≤ at →
        leading_digits rule one start count ≡ leading_digits rule other start count }
    // a text is the same as itself cut where a number ends, and as one with that byte there too
    ensures cut { (rule : Rule) (text : List ℕ) (at : ℕ) →
        at ≤ length text → Ends rule text at → AreSameUpTo rule (take at text) text at }
    ensures through { (rule : Rule) (one other : List ℕ) (at : ℕ) →
        at < length one → at < length other → take (at + 1) one ≡ take (at + 1) other →
        Ends rule one at → AreSameUpTo rule one other at }
{}

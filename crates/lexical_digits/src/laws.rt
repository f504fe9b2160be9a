//! Laws of the iterators, the definitions and the call table. Each law is the contract of a
//! function; [`equality`] has those of `==` and of clones, and [`rows`] those of the calls that
//! name a component.

ghost use Rattle.std.specs.Prelude.{◌≡◌, ℕ, ◌+◌, ◌*◌, ◌<◌, ◌≤◌, length, drop, filter, count_by, map, pos, ◌≤ℤ◌, ◌+ℤ◌, slice_get, option_copied, IfSome, IfNone, Some, None, [], ◌∷◌, if◌then◌else◌, true, false, not, IsTrue, is_some};
ghost use Rattle.std.specs.Option.{option_map_or};
ghost use Rattle.lexical_format.specs.Word.{separator, mantissa_radix, exponent_radix, bit, is_supported};
ghost use Rattle.lexical_digits.specs.Separators.{is_digit, is_separator, drain, is_kept, GrantsNone, GrantsAtLeast};
ghost use Rattle.lexical_digits.specs.State.{State, IsState, rule, radix_of, rule_of, own, counts, saturating};
ghost use Rattle.lexical_digits.specs.CallTable.{settled, counted, taken, drain_of, after_drain, zeros_of, past_zeros_of, ChangesOwn, run_of, On, Peek, Next, IncrementCount, TryRead, SkipZeros};
ghost use Rattle.lexical_digits.specs.Looks.{Held, owed};
ghost use Rattle.lexical_digits.specs.Stop.{leading_digits_of, past_digits_of, stop_of};
ghost use Rattle.lexical_digits.specs.Iterators.{items_in, after_items_in, zeros_in, after_zeros_in};
ghost use Rattle.lexical_digits.specs.Cursor.{ReadsIf, items, after_items, at_zero, past_zero, zeros, after_zeros};
ghost use Rattle.lexical_digits.specs.CallTable.{Part, Op};
ghost use Rattle.lexical_digits.specs.MantissaRadix.{mantissa_is_supported, mantissa_rule_of, with_one_radix, with_word, ran_with};
ghost use Rattle.std.specs.Prelude.{List};
ghost use Rattle.lexical_digits.specs.declared.skip.component.Component.{Component};
ghost use Rattle.lexical_digits.specs.declared.skip.component.Component.TheVariants as components;

pub mod equality;
pub mod rows;

use crate::iterator::{DigitsBodies, DigitsIter};
use crate::on_iterator;
use crate::skip::Bytes;
pub use crate::skip::Component;

/// Peeks twice, and answers both bytes: they are the same, and the second `peek` leaves what the
/// first left. `again` and `same_byte` say it of the states: a `peek` after a `peek` changes
/// nothing and finds the same byte.
pub fn peek_settles<'a, I: DigitsIter<'a>>(iter: &mut I) -> (Option<&'a u8>, Option<&'a u8>)
    ensures agree { option_copied result.0 ≡ option_copied result.1 }
    ensures byte { let m = I.meaning iter.old in
        option_copied result.0 ≡ slice_get (I.buffer m) (I.place m) }
    ensures settles { I.meaning iter.new ≡ I.settled (I.meaning iter.old) }
    ensures again { let m = I.meaning iter.old in I.settled (I.settled m) ≡ I.settled m }
    ensures same_byte { let m = I.meaning iter.old in let n = I.settled m in
        slice_get (I.buffer n) (I.place n) ≡ slice_get (I.buffer m) (I.place m) }
    ensures owes { I.owed iter.new ≤ℤ (I.owed iter.old +ℤ pos 8) }
    ensures keeps_loan { I.loan iter.new ≡ I.loan iter.old }
{
    let first = iter.peek();
    let second = iter.peek();
    (first, second)
}

/// Peeks, then takes the next byte, and answers both bytes: they are the same, and `next` leaves
/// what it leaves without the `peek`. `after_peek` and `same_byte` say it of the states.
pub fn next_after_peek<'a, I: DigitsIter<'a>>(iter: &mut I) -> (Option<&'a u8>, Option<&'a u8>)
    ensures agree { option_copied result.0 ≡ option_copied result.1 }
    ensures byte { let m = I.meaning iter.old in
        option_copied result.0 ≡ slice_get (I.buffer m) (I.place m) }
    ensures takes { I.meaning iter.new ≡ I.taken (I.meaning iter.old) }
    ensures after_peek { let m = I.meaning iter.old in I.taken (I.settled m) ≡ I.taken m }
    ensures same_byte { let m = I.meaning iter.old in let n = I.settled m in
        slice_get (I.buffer n) (I.place n) ≡ slice_get (I.buffer m) (I.place m) }
    ensures owes { I.owed iter.new ≤ℤ (I.owed iter.old +ℤ pos 8) }
    ensures keeps_loan { I.loan iter.new ≡ I.loan iter.old }
{
    let peeked = iter.peek();
    let next = iter.next();
    (peeked, next)
}

/// Reads the next byte if `pred` answers `true` for it, and peeks otherwise. Answers both bytes;
/// the second is `None` where the first is `Some`. After a refusal the byte can be read again:
/// `refused`, `again` and `same_byte` say it of the states. Requires that `pred` may be called on
/// the byte at the place, if there is one.
pub fn read_if_none<'a, I: DigitsIter<'a>, Pred: FnOnce(u8) -> bool + Drop>(
    iter: &mut I,
    pred: Pred,
) -> (Option<u8>, Option<&'a u8>)
    requires { let m = I.meaning iter.old in
        IfSome (slice_get (I.buffer m) (I.place m)) (λ b. b < 256 → Pred.pre pred b) }
    ensures read { let m = I.meaning iter.old in
        IfSome result.0 (λ b. (slice_get (I.buffer m) (I.place m) ≡ Some b) × (result.1 ≡ None)) }
    ensures not_read { let m = I.meaning iter.old in
        IfNone result.0 (option_copied result.1 ≡ slice_get (I.buffer m) (I.place m)) }
    ensures leaves { let m = I.meaning iter.old in
        let byte = slice_get (I.buffer m) (I.place m) in
        let past = I.moved (I.settled m) (I.place m + 1) in
        ReadsIf (Pred.post pred) byte (I.settled m) past result.0 (I.meaning iter.new) }
    ensures refused { let m = I.meaning iter.old in
        IfNone result.0 (I.meaning iter.new ≡ I.settled m) }
    ensures again { let m = I.meaning iter.old in I.settled (I.settled m) ≡ I.settled m }
    ensures same_byte { let m = I.meaning iter.old in let n = I.settled m in
        slice_get (I.buffer n) (I.place n) ≡ slice_get (I.buffer m) (I.place m) }
    ensures owes { I.owed iter.new ≤ℤ (I.owed iter.old +ℤ pos 8) }
    ensures keeps_loan { I.loan iter.new ≡ I.loan iter.old }
{
    match iter.read_if(pred) {
        Some(byte) => (Some(byte), None),
        None => {
            let peeked = iter.peek();
            (None, peeked)
        }
    }
}

/// The items of an iterator, one at a time: at the end there are none; otherwise they are the byte
/// at the place, and then the items of what `next` leaves. Reading all items leaves what the `next`
/// leaves that answers `None`.
pub fn items_unroll<'a, I: DigitsIter<'a>>(iter: &I)
    ensures items { let m = I.meaning iter.now in
        let byte = slice_get (I.buffer m) (I.place m) in
        let rest = items I.buffer I.cursor I.place I.taken (I.taken m) in
        items I.buffer I.cursor I.place I.taken m ≡ option_map_or (λ b. b ∷ rest) byte [] }
    ensures leaves { let m = I.meaning iter.now in
        after_items I.buffer I.cursor I.place I.taken m ≡
        if is_some (slice_get (I.buffer m) (I.place m))
        then after_items I.buffer I.cursor I.place I.taken (I.taken m)
        else I.taken m }
{}

/// The zeros that `skip_zeros` reads and what it leaves, one zero at a time: if the byte at the
/// place is `0`, it is one zero more than there are past it; otherwise there are none.
pub fn zeros_unroll<'a, I: DigitsIter<'a>>(iter: &I)
    ensures count { let m = I.meaning iter.now in
        let past = past_zero I.buffer I.cursor I.place I.moved I.settled I.counted m in
        zeros I.buffer I.cursor I.place I.moved I.settled I.counted m ≡
        if at_zero I.buffer I.cursor I.place I.moved I.settled I.counted m
        then zeros I.buffer I.cursor I.place I.moved I.settled I.counted past + 1
        else 0 }
    ensures after { let m = I.meaning iter.now in
        let past = past_zero I.buffer I.cursor I.place I.moved I.settled I.counted m in
        after_zeros I.buffer I.cursor I.place I.moved I.settled I.counted m ≡
        if at_zero I.buffer I.cursor I.place I.moved I.settled I.counted m
        then after_zeros I.buffer I.cursor I.place I.moved I.settled I.counted past
        else I.settled m }
{}

/// The drain theorem: the items of the iterator of a component, the bytes that `next` answers
/// before `None`, are exactly the bytes that a filter over the whole buffer keeps. They leave the
/// cursor at the end, and their digits counted. The zeros that `skip_zeros` reads are those that
/// the drain begins with; it leaves the cursor at the next kept byte after them.
#[tactic(auto, using(crate::proofs::Calls::ItemsOfComponents::are_drain))]
pub fn items_are_drain()
    ensures items { (k : Component) (s : State) → IsState s →
        items_in k s ≡ drain_of k s }
    ensures leaves { (k : Component) (s : State) → IsState s →
        after_items_in k s ≡ after_drain k s }
    ensures zeros { (k : Component) (s : State) → IsState s →
        zeros_in k s ≡ zeros_of k s }
    ensures past_zeros { (k : Component) (s : State) → IsState s →
        after_zeros_in k s ≡ past_zeros_of k s }
{}

/// What is left after a read. After a `peek`: the same drain, digits and stop. After `skip_zeros`:
/// the drain without those zeros, the digits that lead without them, and the same stop. After the
/// digits that lead: the drain without them, no digit that leads, and the same stop. The last two
/// leave the cursor at the place, so that a `peek` changes nothing.
pub fn rest_is_left()
    ensures peek { (k : Component) (s : State) → IsState s →
        drain_of k (settled k s) ≡ drain_of k s }
    ensures digits_after_peek { (k : Component) (s : State) → IsState s →
        leading_digits_of k (settled k s) ≡ leading_digits_of k s }
    ensures stop_after_peek { (k : Component) (s : State) → IsState s →
        stop_of k (settled k s) ≡ stop_of k s }
    ensures zeros { (k : Component) (s : State) → IsState s →
        drain_of k (past_zeros_of k s) ≡ drop (zeros_of k s) (drain_of k s) }
    ensures digits_after_zeros { (k : Component) (s : State) → IsState s →
        leading_digits_of k (past_zeros_of k s) ≡ drop (zeros_of k s) (leading_digits_of k s) }
    ensures stop_after_zeros { (k : Component) (s : State) → IsState s →
        stop_of k (past_zeros_of k s) ≡ stop_of k s }
    ensures zeros_lead { (k : Component) (s : State) → IsState s →
        zeros_of k s ≤ length (leading_digits_of k s) }
    ensures zeros_stay { (k : Component) (s : State) → IsState s →
        settled k (past_zeros_of k s) ≡ past_zeros_of k s }
    ensures digits { (k : Component) (s : State) → IsState s →
        drain_of k (past_digits_of k s) ≡ drop (length (leading_digits_of k s)) (drain_of k s) }
    ensures none_after_digits { (k : Component) (s : State) → IsState s →
        leading_digits_of k (past_digits_of k s) ≡ [] }
    ensures stop_after_digits { (k : Component) (s : State) → IsState s →
        stop_of k (past_digits_of k s) ≡ stop_of k s }
    ensures digits_stay { (k : Component) (s : State) → IsState s →
        settled k (past_digits_of k s) ≡ past_digits_of k s }
{}

/// What a `Bytes` owes bounds its looks: if it owes at most `more` more than before, over the same
/// buffer, then its looks rose by at most `more` and three for each byte of the buffer. So a caller
/// that adds up what its calls owe, 4 for a read, has a bound on the looks of all of them.
#[tactic(auto, using(crate::proofs::Looks::Owed::looks_within))]
pub fn looks_are_bounded()
    ensures { (a b : Held) (more : ℕ) → length b.state.buffer ≡ length a.state.buffer →
        owed b ≤ℤ (owed a +ℤ pos more) →
        b.looks ≤ a.looks + more + 3 * length a.state.buffer }
{}

/// Drains a component by `next_of`, and answers how many bytes it yielded.
#[tactic(auto, using(crate::proofs::Calls::Loops::drains))]
fn drain(bytes: &mut Bytes, component: Component) -> usize
    ensures yielded { result ≡ length (drain_of component bytes.old.state) }
    ensures state { bytes.new.state ≡ after_drain component bytes.old.state }
    ensures owes { owed bytes.new ≤ℤ (owed bytes.old +ℤ pos (4 * (result + 1))) }
{
    let mut items = 0;
    while let Some(_byte) = bytes.next_of(component) {
        items += 1;
    }
    items
}

/// Drains a component by `next_of`, and answers how many bytes it yielded. If its iterator counts,
/// the digits among them are then added to the component's count, which stops at `usize::MAX`.
#[tactic(auto, using(crate::proofs::Calls::ItemsOfComponents::drain_is_counted))]
pub fn drain_counts(bytes: &mut Bytes, component: Component) -> usize
    ensures yielded { result ≡ length (drain_of component bytes.old.state) }
    ensures state { bytes.new.state ≡ after_drain component bytes.old.state }
    ensures counts { let s = bytes.old.state in counts component s.word ≡ true →
        let digits = count_by (is_digit (rule component s)) (drain_of component s) in
        own component bytes.new.state ≡ saturating (own component s) digits }
    ensures owes { owed bytes.new ≤ℤ (owed bytes.old +ℤ pos (4 * (result + 1))) }
{
    drain(bytes, component)
}

/// Drains a component by `next_of`, and answers how many bytes it yielded. Without the internal,
/// leading and trailing flags these are all the bytes from the cursor on.
#[tactic(auto, using(crate::specs::Laws::Place::drain_if_none))]
pub fn ungranted_keeps_all(bytes: &mut Bytes, component: Component) -> usize
    ensures yielded { result ≡ length (drain_of component bytes.old.state) }
    ensures state { bytes.new.state ≡ after_drain component bytes.old.state }
    ensures keeps_all { let s = bytes.old.state in
        GrantsNone (rule component s) → drain_of component s ≡ drop s.cursor s.buffer }
    ensures owes { owed bytes.new ≤ℤ (owed bytes.old +ℤ pos (4 * (result + 1))) }
{
    drain(bytes, component)
}

/// Drains special by `next_of`, and answers how many bytes it yielded. With the special flag these
/// are the bytes from the cursor on that are not separators.
#[tactic(auto, using(crate::proofs::Calls::ItemsOfComponents::special_drains))]
pub fn special_drops_all(bytes: &mut Bytes) -> usize
    ensures yielded { result ≡ length (drain_of components.Special bytes.old.state) }
    ensures state { bytes.new.state ≡ after_drain components.Special bytes.old.state }
    ensures drops_all { let s = bytes.old.state in bit s.word 44 ≡ true →
        drain_of components.Special s ≡
        filter (λ b. not (is_separator (separator s.word) b)) (drop s.cursor s.buffer) }
    ensures owes { owed bytes.new ≤ℤ (owed bytes.old +ℤ pos (4 * (result + 1))) }
{
    drain(bytes, Component::Special)
}

/// Flags never change which digits a drain has: two words with the same separator and radix keep
/// the same digits, from the same cursor.
#[tactic(auto, using(crate::proofs::Calls::ItemsOfComponents::digits_same))]
pub fn digits_agree(
    buffer: &[u8],
    one: u128,
    other: u128,
    component: Component,
    start: usize,
    count: usize,
)
    ensures { let p = is_digit (rule_of one component) in
        separator one ≡ separator other →
        radix_of one component ≡ radix_of other component →
        filter p (drain (rule_of one component) buffer.now start count) ≡
        filter p (drain (rule_of other component) buffer.now start count) }
{}

/// More flags drop more: a position that the lesser word drops, the greater word drops too, from
/// the same start and count. Here `greater` grants a component at least what `lesser` does, with
/// the same separator and radix, and `lesser` is supported.
#[tactic(auto, using(crate::proofs::Rule::Grants::drops_more))]
pub fn grants_monotone(
    buffer: &[u8],
    lesser: u128,
    greater: u128,
    component: Component,
    start: usize,
    count: usize,
    position: usize,
)
    ensures { IsTrue (is_supported lesser) →
        GrantsAtLeast (rule_of lesser component) (rule_of greater component) →
        is_kept (rule_of lesser component) buffer.now start count position ≡ false →
        is_kept (rule_of greater component) buffer.now start count position ≡ false }
{}

/// Makes one `peek`, one `next`, one `increment_count`, one `try_read` and one `skip_zeros`.
fn call_each<'a, I: DigitsIter<'a>>(iter: &mut I)
    ensures leaves { let m = I.counted (I.taken (I.settled (I.meaning iter.old))) in
        let read = if is_some (slice_get (I.buffer m) (I.place m))
        then I.moved (I.settled m) (I.place m + 1) else I.settled m in
        I.meaning iter.new ≡
        after_zeros I.buffer I.cursor I.place I.moved I.settled I.counted read }
    ensures owes { let m = I.counted (I.taken (I.settled (I.meaning iter.old))) in
        let read = if is_some (slice_get (I.buffer m) (I.place m))
        then I.moved (I.settled m) (I.place m + 1) else I.settled m in
        let more = zeros I.buffer I.cursor I.place I.moved I.settled I.counted read in
        I.owed iter.new ≤ℤ (I.owed iter.old +ℤ pos (4 * (more + 4))) }
    ensures keeps_loan { I.loan iter.new ≡ I.loan iter.old }
{
    iter.peek();
    iter.next();
    iter.increment_count();
    iter.try_read();
    iter.skip_zeros();
}

/// Makes one `peek`, one `next`, one `increment_count`, one `try_read` and one `skip_zeros` on the
/// iterator of a component. They leave what the call table says, and change no count except the
/// component's own; special has none.
#[tactic(auto, using(crate::proofs::Calls::ChangesOwn::each_call))]
pub fn own_count_only(bytes: &mut Bytes, component: Component)
    ensures state { let calls = Peek ∷ Next ∷ IncrementCount ∷ TryRead ∷ SkipZeros ∷ [] in
        bytes.new.state ≡
        (run_of bytes.old.state (map (λ call. (On component, call)) calls)).state }
    ensures own_count { ChangesOwn component bytes.old.state bytes.new.state }
    ensures owes { let calls = Peek ∷ Next ∷ IncrementCount ∷ TryRead ∷ [] in
        let read = (run_of bytes.old.state (map (λ call. (On component, call)) calls)).state in
        owed bytes.new ≤ℤ (owed bytes.old +ℤ pos (4 * (zeros_of component read + 4))) }
{
    on_iterator!(bytes, component, iter => call_each(iter));
}

/// For a word whose two radixes are equal, it makes no difference that the exponent has a radix of
/// its own. The comparison is the word without an exponent radix: by it each component has the
/// mantissa radix (`one_radix`). A word whose radixes are equal is supported if its mantissa radix
/// serves, and has the rules of that radix. For every list of calls the two words give the same
/// answers, and leave the same state except for the word.
#[tactic(auto, using(crate::proofs::Rule::Radixes::equal))]
pub fn equal_radixes(buffer: &[u8], word: u128)
    ensures one_radix { (w : ℕ) (k : Component) →
        rule_of (with_one_radix w) k ≡ mantissa_rule_of w k }
    ensures supported { exponent_radix word ≡ mantissa_radix word →
        is_supported word ≡ mantissa_is_supported word }
    ensures rules { exponent_radix word ≡ mantissa_radix word → (k : Component) →
        rule_of word k ≡ mantissa_rule_of word k }
    ensures runs { exponent_radix word ≡ mantissa_radix word → (s : State) →
        s.buffer ≡ buffer.now → s.word ≡ word → (calls : List (Part × Op)) →
        run_of (with_word s (with_one_radix word)) calls ≡
        ran_with (run_of s calls) (with_one_radix word) }
{}

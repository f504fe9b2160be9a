//! Laws: what each outcome says, and that an iterator reads the same integer.

ghost use Rattle.std.specs.Prelude.{◌≡◌, ℕ, ◌-◌, ◌^◌, ◌≤◌, ◌↔◌, length, Ok, Err, IsTrue};
ghost use Rattle.lexical_format.specs.Word.{is_supported};
ghost use Rattle.lexical_digits.specs.declared.skip.component.Component.{Component};
ghost use Rattle.lexical_digits.specs.declared.skip.component.Component.TheVariants.{Integer};
ghost use Rattle.lexical_digits.specs.State.{State, IsState, rule, own, rule_of};
ghost use Rattle.lexical_digits.specs.CallTable.{place_of, settled, taken};
ghost use Rattle.digit_integers.specs.Integers.{integer_at, IsIntegerFrom, HasNoDigitFrom, IsTooLargeFrom};
ghost use Rattle.digit_values.specs.Outcomes.{ReadsAll, FindsNone, PassesMost};
ghost use Rattle.digit_values.specs.declared.LiteralError.TheVariants.{Empty, Overflow};

pub mod flags;
pub mod follows;
pub mod written;

/// What each outcome of [`read_integer_from`](crate::read_integer_from) says: there are digits
/// before the stop, and their value is at most `most`; there is none; or the one at this position
/// is the first with which the value is above `most`. Requires that the word is supported.
pub fn outcomes_say(text: &[u8], word: u128)
    requires { IsTrue (is_supported word) }
    ensures ok { (start most value end : ℕ) → let r = rule_of word Integer in
        integer_at r text.now start most ≡ Ok (value, end) ↔
        IsIntegerFrom r text.now start most value end }
    ensures empty { (start most at : ℕ) → let r = rule_of word Integer in
        integer_at r text.now start most ≡ Err (Empty at) ↔ HasNoDigitFrom r text.now start at }
    ensures overflow { (start most at : ℕ) → start ≤ length text.now →
        let r = rule_of word Integer in
        integer_at r text.now start most ≡ Err (Overflow at) ↔
        IsTooLargeFrom r text.now start most at }
{}

/// Two readings from one start up to different greatest values. What is read up to the lesser is
/// read up to the greater: the same value and end. Without a digit both say so, at one position. If
/// both are too large, the lesser is passed no later. So what
/// [`read_number`](crate::read_number) reads of a `u32`, it reads of a `u64`.
pub fn greater_reads_more(text: &[u8], word: u128)
    ensures reads { (start most more value end : ℕ) → most ≤ more → let r = rule_of word Integer in
        integer_at r text.now start most ≡ Ok (value, end) →
        integer_at r text.now start more ≡ Ok (value, end) }
    ensures empty { (start most more at : ℕ) → let r = rule_of word Integer in
        integer_at r text.now start most ≡ Err (Empty at) →
        integer_at r text.now start more ≡ Err (Empty at) }
    ensures later { (start most more over beyond : ℕ) → most ≤ more →
        let r = rule_of word Integer in
        integer_at r text.now start most ≡ Err (Overflow over) →
        integer_at r text.now start more ≡ Err (Overflow beyond) → over ≤ beyond }
{}

/// On a `Bytes` that has counted no digit, [`read_digits`](digit_values::read_digits) by a
/// component answers what [`read_integer_from`](crate::read_integer_from) answers of the text from
/// the cursor on, up to `u64::MAX`: the same value and end, or the same fault.
pub fn read_integer_is_read_digits()
    ensures ok { (k : Component) (s left : State) (value : ℕ) → IsState s → own k s ≡ 0 →
        ReadsAll (λ (m : State). m.buffer) (λ m. m.cursor) (place_of k) (taken k) (settled k)
        (rule k s).radix s value left →
        integer_at (rule k s) s.buffer s.cursor (2 ^ 64 - 1) ≡ Ok (value, left.cursor) }
    ensures empty { (k : Component) (s left : State) (at : ℕ) → IsState s → own k s ≡ 0 →
        FindsNone (λ (m : State). m.buffer) (λ m. m.cursor) (place_of k) (taken k) (settled k)
        (rule k s).radix s at left →
        integer_at (rule k s) s.buffer s.cursor (2 ^ 64 - 1) ≡ Err (Empty at) }
    ensures overflow { (k : Component) (s left : State) (over : ℕ) → IsState s → own k s ≡ 0 →
        PassesMost (λ (m : State). m.buffer) (λ m. m.cursor) (place_of k) (taken k) (settled k)
        (rule k s).radix s over left →
        integer_at (rule k s) s.buffer s.cursor (2 ^ 64 - 1) ≡ Err (Overflow over) }
{}

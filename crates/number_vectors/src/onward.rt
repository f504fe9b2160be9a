//! Two calls in a row: the second goes on from where the first ended.

ghost use Rattle.std.specs.Prelude.{◌≡◌, ℕ, List, ◌++◌, ◌+◌, ◌*◌, ◌-◌, ◌^◌, ◌<◌, ◌≤◌, length, IfSome, OnSome, Ok, IfOk, OnOk, IsTrue};
ghost use Rattle.std.specs.Str.Parse.{digits_value};
ghost use Rattle.lexical_format.specs.Digits.{is_digit_of_radix};
ghost use Rattle.lexical_format.specs.Word.{is_supported};
ghost use Rattle.lexical_digits.specs.State.{rule, rule_of};
ghost use Rattle.lexical_digits.specs.CallTable.{zeros_of, past_zeros_of};
ghost use Rattle.lexical_digits.specs.Stop.{after_leading, stop_of, leading_digits_of, past_digits_of};
ghost use Rattle.lexical_digits.specs.declared.skip.component.Component.TheVariants.{Integer, Fraction};
ghost use Rattle.digit_literals.specs.After.{IsDigits};
ghost use Rattle.digit_literals.specs.Integers.{integer_at};
ghost use Rattle.digit_literals.specs.Outcomes.{digits};
ghost use Rattle.digit_literals.specs.Significant.{IsOfFirstDigits};
ghost use Rattle.number_vectors.specs.Bytes.{past_component, past_leading};

use digit_literals::laws::{first_are_significant, first_go_on};
use digit_literals::{
    Digits, FirstDigits, LiteralError, TooLarge, pass_digits, pass_zeros, read_digits_after,
    read_digits_of, read_digits_up_to, read_first_digits, read_integer, read_integer_from,
};
use lexical_digits::iterator::{DigitsIter, Iter, IterBodies};
use lexical_digits::skip::{Bytes, Component};

/// Reads the digits of the integer, and passes the point after them if there is one.
fn read_up_to_point(bytes: &mut Bytes) -> Result<Digits, TooLarge>
    ensures ok { IfOk result (IsDigits Integer bytes.old.state 0) }
    ensures state { OnOk result (bytes.new.state ≡ past_component Integer 46 bytes.old.state) }
    ensures word { bytes.new.state.word ≡ bytes.old.state.word }
{
    let read = read_digits_of(bytes, Component::Integer, 0)?;
    if bytes.first_is_cased(b'.') {
        let at = bytes.cursor();
        bytes.set_cursor(at + 1);
    }
    Ok(read)
}

/// The value of integer and fraction as one number, where a point may be between them.
#[tactic(auto, using(digit_literals::proofs::ForCallers::value_of_both))]
pub fn read_mantissa(bytes: &mut Bytes) -> Result<u64, TooLarge>
    ensures value { let s = bytes.old.state in let t = past_component Integer 46 s in
        IfOk result (λ value. value ≡ digits_value (rule Integer s).radix
        (leading_digits_of Integer s ++ leading_digits_of Fraction t)) }
    ensures state { let t = past_component Integer 46 bytes.old.state in
        OnOk result (bytes.new.state ≡ past_digits_of Fraction t) }
{
    let integer = read_up_to_point(bytes)?;
    Ok(read_digits_of(bytes, Component::Fraction, integer.value)?.value)
}

/// [`read_up_to_point`] for any iterator and radix.
fn read_through_point<'a, I: DigitsIter<'a>>(iter: &mut I, radix: u32) -> Result<Digits, TooLarge>
    ensures ok { IfOk result (λ read. read.value ≡ digits_value radix
        (digits I.buffer I.cursor I.place I.taken I.settled radix (I.meaning iter.old))) }
    ensures leaves { OnOk result (I.meaning iter.new ≡ past_leading I.buffer I.cursor I.place
        I.taken I.settled I.moved radix 46 (I.meaning iter.old)) }
{
    let read = read_digits_after(iter, radix, 0, u64::MAX)?;
    if iter.first_is_cased(b'.') {
        let at = iter.cursor();
        iter.set_cursor(at + 1);
    }
    Ok(read)
}

/// [`read_mantissa`] for any iterator and radix: the fraction is read after the integer's value.
#[tactic(auto, using(digit_literals::proofs::ForCallers::value_of_both))]
pub fn read_number<'a, I: DigitsIter<'a>>(iter: &mut I, radix: u32) -> Result<u64, TooLarge>
    ensures value { let m = I.meaning iter.old in
        let t = past_leading I.buffer I.cursor I.place I.taken I.settled I.moved radix 46 m in
        IfOk result (λ value. value ≡ digits_value radix
        (digits I.buffer I.cursor I.place I.taken I.settled radix m
        ++ digits I.buffer I.cursor I.place I.taken I.settled radix t)) }
    ensures leaves { let m = I.meaning iter.old in
        let t = past_leading I.buffer I.cursor I.place I.taken I.settled I.moved radix 46 m in
        OnOk result (I.meaning iter.new ≡ after_leading I.buffer I.cursor I.place I.taken I.settled
        (is_digit_of_radix radix) t) }
{
    let integer = read_through_point(iter, radix)?;
    Ok(read_digits_after(iter, radix, integer.value, u64::MAX)?.value)
}

/// How many zeros the integer has in front, and the value of the digits after them.
pub fn read_past_zeros(bytes: &mut Bytes) -> Result<(usize, u64), TooLarge>
    ensures zeros { IfOk result (λ read. read.0 ≡ zeros_of Integer bytes.old.state) }
    ensures value { let s = past_zeros_of Integer bytes.old.state in IfOk result (λ read.
        read.1 ≡ digits_value (rule Integer s).radix (leading_digits_of Integer s)) }
    ensures state { let s = past_zeros_of Integer bytes.old.state in
        OnOk result (bytes.new.state ≡ past_digits_of Integer s) }
{
    let zeros = pass_zeros(bytes, Component::Integer);
    let read = read_digits_of(bytes, Component::Integer, 0)?;
    Ok((zeros, read.value))
}

/// Two integers, each with its end.
type Range = ((u64, usize), (u64, usize));

/// The two integers of a range such as `1_0-20`: any byte may be between them. The second is
/// empty if there is none.
pub fn read_range(text: &[u8], word: u128) -> Result<Range, LiteralError>
    requires { IsTrue (is_supported word) }
    ensures first { IfOk result (λ read. let one = read.0 in
        integer_at (rule_of word Integer) text.now 0 (2 ^ 64 - 1) ≡ Ok one) }
    ensures second { IfOk result (λ read. let one = read.0 in let other = read.1 in
        integer_at (rule_of word Integer) text.now (one.1 + 1) (2 ^ 64 - 1) ≡ Ok other) }
{
    let (value, end) = read_integer(text, word)?;
    if end == text.len() {
        return Err(LiteralError::Empty(end));
    }
    let other = read_integer_from(text, word, end + 1, u64::MAX)?;
    Ok(((value, end), other))
}

/// The greatest value of 19 decimal digits.
const MOST: u64 = 9_999_999_999_999_999_999;

/// A value and the digits after it, as one number.
fn join(value: u64, digits: Digits) -> Option<u128>
    ensures { IfSome result (λ both. both ≡ value * 10 ^ digits.count + digits.value) }
{
    let scale = 10u128.checked_pow(u32::try_from(digits.count).ok()?)?;
    u128::from(value)
        .checked_mul(scale)?
        .checked_add(u128::from(digits.value))
}

/// The value of up to 38 decimal digits: that of the first 19, and then that of the others.
#[tactic(auto, using(digit_literals::proofs::ForCallers::goes_on))]
pub fn read_wide(bytes: &mut Bytes, component: Component) -> Option<u128>
    requires decimal { (rule component bytes.old.state).radix ≡ 10 }
    ensures value { let s = bytes.old.state in
        IfSome result (λ value. value ≡ digits_value 10 (leading_digits_of component s)) }
    ensures state { OnSome result (bytes.new.state ≡ past_digits_of component bytes.old.state) }
{
    match read_digits_up_to(bytes, component, 0, MOST) {
        Ok(read) => Some(u128::from(read.value)),
        Err(error) => join(
            error.value,
            read_digits_up_to(bytes, component, 0, MOST).ok()?,
        ),
    }
}

/// How many digits lead, read up to a value and passed beyond.
#[tactic(auto, using(digit_literals::proofs::ForCallers::goes_on))]
pub fn count_beyond(bytes: &mut Bytes, component: Component, most: u64) -> usize
    ensures count { result ≡ length (leading_digits_of component bytes.old.state) }
    ensures state { bytes.new.state ≡ past_digits_of component bytes.old.state }
{
    match read_digits_up_to(bytes, component, 0, most) {
        Ok(read) => read.count,
        Err(error) => error.count + pass_digits(bytes, component),
    }
}

/// Reads the first 19 significant digits of a component, and passes the byte after them if it is
/// `mark`.
fn first_up_to(bytes: &mut Bytes, component: Component, mark: u8) -> FirstDigits
    requires decimal { (rule component bytes.old.state).radix ≡ 10 }
    ensures first { let s = bytes.old.state in
        IsOfFirstDigits 10 19 (leading_digits_of component s) result.value result.dropped }
    ensures fits { result.value ≤ 9999999999999999999 }
    ensures few { result.dropped ≤ length bytes.old.state.buffer }
    ensures state { bytes.new.state ≡ past_component component mark bytes.old.state }
    ensures word { bytes.new.state.word ≡ bytes.old.state.word }
{
    first_are_significant(10, 19, MOST);
    let read = read_first_digits(bytes, component, 0, MOST);
    if bytes.first_is_cased(mark) {
        let at = bytes.cursor();
        bytes.set_cursor(at + 1);
    }
    read
}

/// Reads a component after the first 19 significant digits of others: those of all as one number,
/// and how many follow them.
fn first_after(bytes: &mut Bytes, component: Component, before: FirstDigits) -> (u64, usize)
    requires decimal { (rule component bytes.old.state).radix ≡ 10 }
    requires fits { before.value ≤ 9999999999999999999 }
    requires few { before.dropped < 2 ^ 63 }
    ensures first { let s = bytes.old.state in (digits : List ℕ) →
        IsOfFirstDigits 10 19 digits before.value before.dropped →
        IsOfFirstDigits 10 19 (digits ++ leading_digits_of component s) result.0 result.1 }
    ensures state { bytes.new.state ≡ past_digits_of component bytes.old.state }
{
    let read = read_first_digits(bytes, component, before.value, MOST);
    first_go_on(10, 19, MOST, before, read);
    (read.value, before.dropped + read.dropped)
}

/// The first 19 significant digits of two components as one number, where `mark` may be between
/// them; how many digits follow them; and where the second ends.
pub fn first_of_both(
    bytes: &mut Bytes,
    integer: Component,
    mark: u8,
    fraction: Component,
) -> (u64, usize, usize)
    requires decimal { (rule integer bytes.old.state).radix ≡ 10 }
    requires both_decimal { (rule fraction bytes.old.state).radix ≡ 10 }
    ensures first { let s = bytes.old.state in let t = past_component integer mark s in
        IsOfFirstDigits 10 19 (leading_digits_of integer s ++ leading_digits_of fraction t)
        result.0 result.1 }
    ensures end { let t = past_component integer mark bytes.old.state in
        result.2 ≡ stop_of fraction t }
{
    let read = first_up_to(bytes, integer, mark);
    let (value, dropped) = first_after(bytes, fraction, read);
    (value, dropped, bytes.cursor())
}

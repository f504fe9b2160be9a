//! The text of a list of integers.

ghost use Rattle.std.specs.Prelude.{◌≡◌, ℕ, ◌+◌, ◌-◌, ◌^◌, ◌<◌, ◌≤◌, ◌∷◌, true, Ok, min, length, take, drop, map, All, IfOk, IfErr};
ghost use Rattle.std.specs.Fmt.{signed_decimal};
ghost use Rattle.std.specs.List.{splice};
ghost use Rattle.lexical_digits.specs.declared.skip.component.Component.TheVariants.{Integer};
ghost use Rattle.lexical_digits.specs.State.{rule_of};
ghost use Rattle.digit_literals.specs.declared.list.Gap.{Gap};
ghost use Rattle.digit_literals.specs.declared.list.ListEnd.TheVariants.{Over};
ghost use Rattle.digit_values.specs.Errors.{literal_none_at};
ghost use Rattle.digit_integers.specs.Numbers.{number_at};
ghost use Rattle.digit_lists.specs.Lists.{full_list, parsed};
ghost use Rattle.digit_writers.specs.Lists.{IsListReadBy, list_text};
ghost use Rattle.digit_writers.specs.Written.{IsOfType};

use super::by::count_signs;
use super::groups::count_digits;
use super::types::Written;
use super::wide::put_number;
use decimal_writers::NoRoom;

/// How long the text of a number is.
#[inline(always)]
#[tactic(auto, using(crate::proofs::ListTexts::parts))]
fn length_of<T: Written>(value: T) -> usize
    ensures is { result ≡ length (signed_decimal (T.number value)) }
    ensures few { result ≤ 129 }
    ensures of_type { IsOfType T.MIN_MAGNITUDE T.MAX (T.number value) }
{
    let (is_negative, magnitude) = value.parts();
    count_signs(false, is_negative) + count_digits(magnitude, 10)
}

/// How long the text of a list is that has a number, or the greatest `usize` if that is less.
#[inline(always)]
fn length_of_list<T: Written>(numbers: &[T]) -> usize
    requires { 0 < length numbers.now }
    ensures is { (separator : ℕ) → result
        ≡ min (length (list_text separator (map T.number numbers.now))) (2 ^ 64 - 1) }
    ensures of_type { All (IsOfType T.MIN_MAGNITUDE T.MAX) (map T.number numbers.now) }
{
    let mut count = length_of(numbers[0]);
    for i in 1..numbers.len() {
        count = count.saturating_add(1 + length_of(numbers[i]));
    }
    count
}

/// Writes a number from a position on, and answers where it ends.
#[inline(always)]
#[tactic(auto, using(crate::proofs::ListTexts::parts))]
fn put_one<T: Written>(value: T, out: &mut [u8], at: usize) -> usize
    requires room { at + length (signed_decimal (T.number value)) ≤ length out.old }
    ensures end { result ≡ at + length (signed_decimal (T.number value)) }
    ensures written { out.new ≡ splice out.old at result (signed_decimal (T.number value)) }
{
    let (is_negative, magnitude) = value.parts();
    if is_negative {
        out[at] = b'-';
        return put_number(magnitude, out, at + 1);
    }
    put_number(magnitude, out, at)
}

/// Writes a byte and a number from a position on, and answers where it ends.
#[inline(always)]
fn put_other<T: Written>(value: T, separator: u8, out: &mut [u8], at: usize) -> usize
    requires room { at + 1 + length (signed_decimal (T.number value)) ≤ length out.old }
    ensures end { result ≡ at + 1 + length (signed_decimal (T.number value)) }
    ensures written { out.new
        ≡ splice out.old at result (separator ∷ signed_decimal (T.number value)) }
{
    out[at] = separator;
    put_one(value, out, at + 1)
}

/// Writes a list that has a number at the front of a slice, and answers its length.
#[inline(always)]
fn put_list<T: Written>(numbers: &[T], separator: u8, out: &mut [u8]) -> usize
    requires some { 0 < length numbers.now }
    requires room { length (list_text separator (map T.number numbers.now)) ≤ length out.old }
    ensures written { take result out.new ≡ list_text separator (map T.number numbers.now) }
    ensures rest { drop result out.new ≡ drop result out.old }
    ensures within { result ≤ length out.old }
{
    let mut at = put_one(numbers[0], out, 0);
    for i in 1..numbers.len() {
        at = put_other(numbers[i], separator, out, at);
    }
    at
}

/// Writes integers with a byte between two of them. To read the text back with `parse_list` and
/// `STANDARD`, take `COMMAS` for `,`, and `LINES` for `\n`; of these only `LINES` reads an empty
/// list. Another gap works if it has this byte among its separators, and shares no byte with
/// numbers. Another word works if its radix is 10.
///
/// The call puts them at the front of a slice, in decimal, and returns how many bytes that takes.
/// Of no number there is no byte. `IsListReadBy` says which words and gaps read the list: by them
/// `read_list` reads it, too. The rest of the slice isn't changed. Without room nothing is written,
/// and the error has the room that is needed, or the greatest `usize` if that is less.
///
/// ```text
/// `[80, -1, 443]` with `,`: Ok(9), and `out` begins with `80,-1,443`
/// `[80, 443]` with a line feed, into 5 bytes: Err(NoRoom { needed: 6 })
/// ```
#[inline]
pub fn write_list<T: Written>(numbers: &[T], separator: u8, out: &mut [u8]) -> Result<usize, NoRoom>
    ensures written { IfOk result
        (λ end. take end out.new ≡ list_text separator (map T.number numbers.now)) }
    ensures rest { IfOk result (λ end. drop end out.new ≡ drop end out.old) }
    ensures within { IfOk result (λ end. end ≤ length out.old) }
    ensures reads { (word room : ℕ) (gap : Gap) → IsListReadBy word T.MIN_MAGNITUDE separator gap →
        length numbers.now ≤ room → (length numbers.now ≡ 0 → gap.may_trail ≡ true) → IfOk result
        (λ end. let text = take end out.new in
        full_list (number_at T.MIN_MAGNITUDE T.MAX (rule_of word Integer) text) literal_none_at gap
        text room 0 ≡ (map T.number numbers.now, Over (length text))) }
    ensures parses { (word room : ℕ) (gap : Gap) → IsListReadBy word T.MIN_MAGNITUDE separator gap →
        length numbers.now ≤ room → (length numbers.now ≡ 0 → gap.may_trail ≡ true) → IfOk result
        (λ end. let text = take end out.new in parsed text
        (full_list (number_at T.MIN_MAGNITUDE T.MAX (rule_of word Integer) text) literal_none_at gap
        text room 0) ≡ Ok (length numbers.now)) }
    ensures no_room { IfErr result (λ error. length out.old < error.needed) }
    ensures needed { IfErr result (λ error. error.needed
        ≡ min (length (list_text separator (map T.number numbers.now))) (2 ^ 64 - 1)) }
    ensures unchanged { IfErr result (λ _. out.new ≡ out.old) }
{
    if numbers.is_empty() {
        return Ok(0);
    }
    let needed = length_of_list(numbers);
    if needed > out.len() {
        return Err(NoRoom { needed });
    }
    Ok(put_list(numbers, separator, out))
}

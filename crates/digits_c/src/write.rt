//! Integers and amounts, written into places of the caller.

ghost use Rattle.std.specs.Prelude.{◌≡◌, ℕ, ◌-◌, ◌^◌, ◌<◌, ◌≤◌, false, pos, length, take, MatchOption, Ok};
ghost use Rattle.std.specs.Fmt.{signed_decimal};
ghost use Rattle.digit_writers.specs.Amounts.{ReadsAmounts, ReadsPrices};
ghost use Rattle.digits.specs.Words.{IsOfRadix, IsReadBy, IsShortest, Reads, laid_out, price_at, read_scaled_at};
ghost use Rattle.digit_writers.specs.Valid.{is_layout};
ghost use Rattle.digits_c.specs.Texts.{IsGrouped, Puts, ReadsGroups, grouped_text, in_groups_text, price_text, scaled_text};

use digits::{
    Layout, MOST_ROOM, Written, write_number, write_number_by, write_price, write_scaled,
};

/// The room that the longest text of an i64 takes: `-9223372036854775808`.
pub const ROOM_I64: usize = 20;
/// That of a u64: `18446744073709551615`.
pub const ROOM_U64: usize = 20;
/// That of an i32: `-2147483648`.
pub const ROOM_I32: usize = 11;
/// That of a u32: `4294967295`.
pub const ROOM_U32: usize = 10;

/// Copies a text to the front of places, and answers its length, or 0 where there is no room.
#[tactic(auto, using(crate::proofs::Puts::puts))]
fn put(out: &mut [u8], text: &[u8]) -> usize
    ensures { Puts text.now out.old out.new result }
{
    let count = text.len();
    if count > out.len() {
        return 0;
    }
    out[..count].copy_from_slice(text);
    count
}

/// [`write`] into places that may be too few.
#[inline(never)]
#[tactic(auto, using(crate::proofs::Puts::puts))]
fn write_into_few<T: Written>(out: &mut [u8], value: T) -> usize
    ensures written { Puts (signed_decimal (T.number value)) out.old out.new result }
    ensures reads { 0 < result → (word : ℕ) → IsOfRadix 10 word →
        Reads word T.MIN_MAGNITUDE T.MAX (T.number value) (take result out.new) }
    ensures shortest { 0 < result → (word : ℕ) → IsOfRadix 10 word →
        IsShortest word T.MIN_MAGNITUDE T.MAX (T.number value) (take result out.new) }
    ensures fits { length (signed_decimal (T.number value)) ≤ T.ROOM }
{
    let mut text = [0u8; MOST_ROOM];
    let count = write_number(value, &mut text);
    put(out, &text[..count])
}

/// Writes an integer into places, and answers its length, or 0 where there is no room.
#[inline(always)]
#[tactic(auto, using(crate::proofs::Puts::puts))]
fn write<T: Written>(out: &mut [u8], value: T) -> usize
    ensures written { Puts (signed_decimal (T.number value)) out.old out.new result }
    ensures reads { 0 < result → (word : ℕ) → IsOfRadix 10 word →
        Reads word T.MIN_MAGNITUDE T.MAX (T.number value) (take result out.new) }
    ensures shortest { 0 < result → (word : ℕ) → IsOfRadix 10 word →
        IsShortest word T.MIN_MAGNITUDE T.MAX (T.number value) (take result out.new) }
    ensures fits { length (signed_decimal (T.number value)) ≤ T.ROOM }
{
    if out.len() < T::ROOM {
        return write_into_few(out, value);
    }
    write_number(value, out)
}

/// Writes an `i64` in decimal at the front of places, and answers its length, or 0 where there is
/// no room. What is behind the text isn't touched.
#[unsafe(no_mangle)]
pub extern "C" fn digits_write_i64(out: &mut [u8], value: i64) -> usize
    ensures written { Puts (signed_decimal value) out.old out.new result }
    ensures reads { 0 < result → (word : ℕ) → IsOfRadix 10 word →
        Reads word (2 ^ 63) (2 ^ 63 - 1) value (take result out.new) }
    ensures shortest { 0 < result → (word : ℕ) → IsOfRadix 10 word →
        IsShortest word (2 ^ 63) (2 ^ 63 - 1) value (take result out.new) }
    ensures fits { length (signed_decimal value) ≤ ROOM_I64 }
{
    write::<i64>(out, value)
}

/// The same of a `u64`.
#[unsafe(no_mangle)]
pub extern "C" fn digits_write_u64(out: &mut [u8], value: u64) -> usize
    ensures written { Puts (signed_decimal (pos value)) out.old out.new result }
    ensures reads { 0 < result → (word : ℕ) → IsOfRadix 10 word →
        Reads word 0 (2 ^ 64 - 1) (pos value) (take result out.new) }
    ensures shortest { 0 < result → (word : ℕ) → IsOfRadix 10 word →
        IsShortest word 0 (2 ^ 64 - 1) (pos value) (take result out.new) }
    ensures fits { length (signed_decimal (pos value)) ≤ ROOM_U64 }
{
    write::<u64>(out, value)
}

/// The same of an `i32`.
#[unsafe(no_mangle)]
pub extern "C" fn digits_write_i32(out: &mut [u8], value: i32) -> usize
    ensures written { Puts (signed_decimal value) out.old out.new result }
    ensures reads { 0 < result → (word : ℕ) → IsOfRadix 10 word →
        Reads word (2 ^ 31) (2 ^ 31 - 1) value (take result out.new) }
    ensures shortest { 0 < result → (word : ℕ) → IsOfRadix 10 word →
        IsShortest word (2 ^ 31) (2 ^ 31 - 1) value (take result out.new) }
    ensures fits { length (signed_decimal value) ≤ ROOM_I32 }
{
    write::<i32>(out, value)
}

/// The same of a `u32`.
#[unsafe(no_mangle)]
pub extern "C" fn digits_write_u32(out: &mut [u8], value: u32) -> usize
    ensures written { Puts (signed_decimal (pos value)) out.old out.new result }
    ensures reads { 0 < result → (word : ℕ) → IsOfRadix 10 word →
        Reads word 0 (2 ^ 32 - 1) (pos value) (take result out.new) }
    ensures shortest { 0 < result → (word : ℕ) → IsOfRadix 10 word →
        IsShortest word 0 (2 ^ 32 - 1) (pos value) (take result out.new) }
    ensures fits { length (signed_decimal (pos value)) ≤ ROOM_U32 }
{
    write::<u32>(out, value)
}

/// Writes an integer in a layout into places, and answers its length, or 0 where there is no room.
#[inline(always)]
#[tactic(auto, using(crate::proofs::Puts::puts))]
fn write_by<T: Written>(out: &mut [u8], value: T, layout: Layout) -> usize
    ensures written { Puts (laid_out layout (T.number value)) out.old out.new result }
    ensures reads { 0 < result → (word : ℕ) → IsReadBy word layout T.MIN_MAGNITUDE →
        Reads word T.MIN_MAGNITUDE T.MAX (T.number value) (take result out.new) }
{
    write_number_by(value, layout, out).unwrap_or(0)
}

/// The layout of groups of so many decimal digits. `None`: the separator is 0 or a digit.
#[inline(always)]
#[tactic(auto, using(crate::proofs::Puts::groups))]
fn groups_of(separator: u8, every: u8) -> Option<Layout>
    ensures { MatchOption result (is_layout 10 separator every ≡ false)
        (IsGrouped separator every) }
{
    Layout::decimal().grouped(separator, every)
}

/// Writes an `i64` in groups of so many digits, counted from the last, with a separator between
/// them; of 0 digits there are no groups. Answers 0 too where the separator is 0 or a digit.
#[unsafe(no_mangle)]
#[tactic(auto, using(crate::proofs::Puts::puts_groups))]
pub extern "C" fn digits_write_i64_grouped(
    out: &mut [u8],
    value: i64,
    separator: u8,
    every: u8,
) -> usize
    ensures written { Puts (grouped_text separator every value) out.old out.new result }
    ensures reads { 0 < result → (word : ℕ) → ReadsGroups word separator every →
        Reads word (2 ^ 63) (2 ^ 63 - 1) value (take result out.new) }
{
    match groups_of(separator, every) {
        Some(layout) => write_by::<i64>(out, value, layout),
        None => 0,
    }
}

/// The same of a `u64`.
#[unsafe(no_mangle)]
#[tactic(auto, using(crate::proofs::Puts::puts_groups))]
pub extern "C" fn digits_write_u64_grouped(
    out: &mut [u8],
    value: u64,
    separator: u8,
    every: u8,
) -> usize
    ensures written { Puts (grouped_text separator every (pos value)) out.old out.new result }
    ensures reads { 0 < result → (word : ℕ) → ReadsGroups word separator every →
        Reads word 0 (2 ^ 64 - 1) (pos value) (take result out.new) }
{
    match groups_of(separator, every) {
        Some(layout) => write_by::<u64>(out, value, layout),
        None => 0,
    }
}

/// Writes an amount in units of its last place, without groups.
#[inline(always)]
#[tactic(auto, using(crate::proofs::Puts::puts_amounts))]
fn write_amount(out: &mut [u8], value: i64, places: usize, point: u8) -> usize
    ensures written { Puts (scaled_text point places value) out.old out.new result }
    ensures reads { 0 < result → (word : ℕ) → ReadsAmounts word point →
        read_scaled_at word (take result out.new) point places (2 ^ 63) (2 ^ 63 - 1) 0
        ≡ Ok (value, result) }
{
    if places > 38 {
        return 0;
    }
    write_scaled(value, point, places, out).unwrap_or(0)
}

/// The same in groups of three digits.
#[inline(always)]
#[tactic(auto, using(crate::proofs::Puts::puts_amounts))]
fn write_in_groups(out: &mut [u8], value: i64, places: usize, separator: u8, point: u8) -> usize
    ensures written { Puts (in_groups_text separator point places value) out.old out.new result }
    ensures reads { 0 < result → (word : ℕ) → ReadsPrices word point separator →
        price_at word (take result out.new) point places (2 ^ 63) (2 ^ 63 - 1) 0
        ≡ Ok (value, result) }
{
    if places > 38 {
        return 0;
    }
    write_price(value, point, places, separator, out).unwrap_or(0)
}

/// Writes an amount in units of its last place: -1250 with 2 places is `-12.50`. Answers 0 too
/// where there are more than 38 places.
#[unsafe(no_mangle)]
pub extern "C" fn digits_write_scaled_i64(out: &mut [u8], value: i64, places: usize) -> usize
    ensures written { Puts (scaled_text 46 places value) out.old out.new result }
    ensures reads { 0 < result → (word : ℕ) → ReadsAmounts word 46 →
        read_scaled_at word (take result out.new) 46 places (2 ^ 63) (2 ^ 63 - 1) 0
        ≡ Ok (value, result) }
{
    write_amount(out, value, places, b'.')
}

/// The same with another point, and with a separator between groups of three digits of the integer;
/// 0 stands for none.
#[unsafe(no_mangle)]
#[tactic(auto, using(crate::proofs::Puts::puts_prices))]
pub extern "C" fn digits_write_price_i64(
    out: &mut [u8],
    value: i64,
    places: usize,
    separator: u8,
    point: u8,
) -> usize
    ensures written { Puts (price_text separator point places value) out.old out.new result }
    ensures reads { 0 < result → (word : ℕ) → ReadsPrices word point separator →
        price_at word (take result out.new) point places (2 ^ 63) (2 ^ 63 - 1) 0
        ≡ Ok (value, result) }
    ensures reads_ungrouped { separator ≡ 0 → 0 < result → (word : ℕ) → ReadsAmounts word point →
        read_scaled_at word (take result out.new) point places (2 ^ 63) (2 ^ 63 - 1) 0
        ≡ Ok (value, result) }
{
    if separator == 0 {
        return write_amount(out, value, places, point);
    }
    write_in_groups(out, value, places, separator, point)
}

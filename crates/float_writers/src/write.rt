//! The shortest text of any float.

ghost use Rattle.std.specs.Prelude.{◌≡◌, ◌≤◌, ◌<◌, ◌≤ℤ◌, ◌^◌, pos, negsuc, List, ℕ, Some, true, false, length, take, drop, IsTrue, IfOk, IfErr, is_nan};
ghost use Rattle.std.specs.Float.{NotNan, float_is_finite, float_is_infinite, is_sign_negative, float_with_sign, float_zero};
ghost use Rattle.lexical_format.specs.declared.TheConstants.{STANDARD};
ghost use Rattle.digit_floats.specs.Float.{plain_marks, parse_at};
ghost use Rattle.decimal_writers.specs.Room.{Writes};
ghost use Rattle.decimal_writers.specs.Value.{Reads, IsOfFloats};
ghost use Rattle.float_writers.specs.Parts.{IsAboveZero};
ghost use Rattle.float_writers.specs.Write.{HasRoom, IsShortest, IsTextOf, IsReason, text_of, message};

use super::decimal::{Decimal, shortest};
use super::parts::WrittenFloat;
use decimal_writers::{NoRoom, write_exponent, write_plain, write_usual};
use std::error::Error;
use std::fmt;

/// The most bytes that [`FloatLayout::Plain`] takes of a float: those of the negative of the least
/// one above 0. The other layouts take at most [`FLOAT_ROOM`](decimal_writers::FLOAT_ROOM).
pub const PLAIN_ROOM: usize = 327;

/// How a decimal is laid out.
#[derive(Clone, Copy, Debug, PartialEq, Eq)]
pub enum FloatLayout {
    /// Without an exponent, as Rust's `{}`: `0.00012`, `1.5`, `12000`, `0`.
    Plain,
    /// With one digit before the point and an exponent, as Rust's `{:e}`: `1.2e-4`, `1.5e0`.
    Exponent,
    /// With an exponent below 1e-5 and from 1e16 on. In between without one, but with at least one
    /// place: `0.00012`, `12000.0`, `1e-7`, `1e16`. So serde_json writes an `f64`; its limits for
    /// an `f32` are others.
    Usual,
}

/// Why a float has no text.
#[derive(Clone, Copy, Debug, PartialEq, Eq)]
pub enum FloatTextError {
    /// The text needs this many bytes, and the slice has fewer. Nothing was written.
    NoRoom(usize),
    /// The float is an infinity.
    Infinite,
    /// The float is not a number.
    NaN,
}

impl fmt::Display for FloatTextError {
    ghost output = { λ e. Some (message e) };

    fn fmt<W: fmt::Write>(&self, f: &mut fmt::Formatter<W>) -> fmt::Result {
        match *self {
            FloatTextError::NoRoom(needed) => write!(f, "the text needs {needed} bytes"),
            FloatTextError::Infinite => write!(f, "an infinity has no text"),
            FloatTextError::NaN => write!(f, "what is not a number has no text"),
        }
    }
}

impl Error for FloatTextError {}

/// A type of floats that any call writes: `f64` and `f32`. Bound a type by it if you write its
/// floats.
pub trait AnyFloat: WrittenFloat {
    /// Whether it is not a number.
    fn is_not_a_number(self) -> bool
        ensures { result ≡ is_nan (Self.value self) };

    /// Whether it is an infinity.
    fn is_without_end(self) -> bool
        ensures { result ≡ float_is_infinite (Self.value self) };

    /// Whether it has a minus, as -0.0 has.
    fn has_minus(self) -> bool
        requires { NotNan (Self.value self) }
        ensures { result ≡ is_sign_negative (Self.value self) };

    /// Whether it is 0.0 or -0.0.
    fn is_zero(self) -> bool
        requires { IsTrue (float_is_finite (Self.value self)) }
        ensures zero { result ≡ true → float_with_sign false (Self.value self) ≡ float_zero }
        ensures above { result ≡ false → IsAboveZero (float_with_sign false (Self.value self)) };

    /// Whether it is the same as another one, bit by bit, or neither is a number.
    fn is_same(self, other: Self) -> bool
        ensures yes { result ≡ true → Self.value self ≡ Self.value other }
        ensures no { result ≡ false → Self.value self ≡ Self.value other → ⊥ };
}

impl AnyFloat for f64 {
    #[inline(always)]
    fn is_not_a_number(self) -> bool {
        self.is_nan()
    }

    #[inline(always)]
    fn is_without_end(self) -> bool {
        self.is_infinite()
    }

    #[inline(always)]
    fn has_minus(self) -> bool {
        self.is_sign_negative()
    }

    #[inline(always)]
    fn is_zero(self) -> bool {
        self == 0.0
    }

    #[tactic(auto, using(crate::proofs::Same::same))]
    fn is_same(self, other: f64) -> bool {
        if self.is_nan() {
            return other.is_nan();
        }
        if other.is_nan() {
            return false;
        }
        self.to_bits() == other.to_bits()
    }
}

impl AnyFloat for f32 {
    #[inline(always)]
    fn is_not_a_number(self) -> bool {
        self.is_nan()
    }

    #[inline(always)]
    fn is_without_end(self) -> bool {
        self.is_infinite()
    }

    #[inline(always)]
    fn has_minus(self) -> bool {
        self.is_sign_negative()
    }

    #[inline(always)]
    fn is_zero(self) -> bool {
        self == 0.0
    }

    #[tactic(auto, using(crate::proofs::Same::same))]
    fn is_same(self, other: f32) -> bool {
        if self.is_nan() {
            return other.is_nan();
        }
        if other.is_nan() {
            return false;
        }
        self.to_bits() == other.to_bits()
    }
}

/// The shortest decimal of a float's size, whatever its sign.
#[inline(always)]
fn shortest_size<F: AnyFloat>(x: F, negative: bool) -> Decimal
    requires finite { IsTrue (float_is_finite (F.value x)) }
    requires sign { negative ≡ is_sign_negative (F.value x) }
    ensures shortest { IsShortest F.format (float_with_sign false (F.value x)) result }
    ensures few { result.digits < 10 ^ 17 }
    ensures least { negsuc 323 ≤ℤ result.power }
    ensures most { result.power ≤ℤ pos 309 }
{
    if x.is_zero() {
        return Decimal {
            digits: 0,
            power: 0,
        };
    }
    shortest(x.negated_if(negative))
}

/// The sign of a finite float, and the shortest decimal of its size, as of [`shortest`]; that of a
/// zero is 0.
#[inline]
pub fn shortest_of<F: AnyFloat>(x: F) -> (bool, Decimal)
    requires { IsTrue (float_is_finite (F.value x)) }
    ensures sign { result.0 ≡ is_sign_negative (F.value x) }
    ensures shortest { IsShortest F.format (float_with_sign false (F.value x)) result.1 }
    ensures few { result.1.digits < 10 ^ 17 }
    ensures least { negsuc 323 ≤ℤ result.1.power }
    ensures most { result.1.power ≤ℤ pos 309 }
{
    let negative = x.has_minus();
    (negative, shortest_size(x, negative))
}

/// Writes a decimal in a layout.
#[inline(always)]
fn write_decimal(
    layout: FloatLayout,
    negative: bool,
    decimal: Decimal,
    out: &mut [u8],
) -> Result<usize, NoRoom>
    ensures writes { Writes (text_of layout negative decimal) out.old out.new result }
    ensures reads { IfOk result (λ n.
        Reads negative decimal.digits decimal.power (take n out.new)) }
{
    match layout {
        FloatLayout::Plain => write_plain(negative, decimal.digits, decimal.power, out),
        FloatLayout::Exponent => write_exponent(negative, decimal.digits, decimal.power, out),
        FloatLayout::Usual => write_usual(negative, decimal.digits, decimal.power, out),
    }
}

/// [`write_float`] of a number that is finite.
#[inline(always)]
fn write_finite<F: AnyFloat>(x: F, layout: FloatLayout, out: &mut [u8]) -> Result<usize, NoRoom>
    requires { IsTrue (float_is_finite (F.value x)) }
    ensures writes { (text : List ℕ) × (IsTextOf F.format (F.value x) layout text
        × Writes text out.old out.new result) }
    ensures reads { IfOk result (λ n.
        parse_at STANDARD (take n out.new) plain_marks F.format 0 ≡ Ok (F.value x)) }
    ensures room { HasRoom layout (length out.old) → IfErr result (λ error. ⊥) }
{
    let negative = x.has_minus();
    let decimal = shortest_size(x, negative);
    write_decimal(layout, negative, decimal, out)
}

/// Writes a float with the fewest significant digits that read back as the same float. A zero keeps
/// its sign.
///
/// Of the fewest digits these are the closest to the float, and of two as close the one whose last
/// digit is even. The call puts the text at the front of a slice, and returns its length. What
/// follows the text in the slice stays as it was. If there is no text, the slice stays as it was.
///
/// `parse_float` of the text is the float, bit by bit. A finite float always has room in 24 bytes
/// ([`FLOAT_ROOM`](decimal_writers::FLOAT_ROOM)), and by [`FloatLayout::Plain`] in [`PLAIN_ROOM`].
///
/// ```text
/// x         Plain                       Exponent    Usual
/// 0.1       0.1                         1e-1        0.1
/// -12000.0  -12000                      -1.2e4      -12000.0
/// 1e23      100000000000000000000000    1e23        1e23
/// -0.0      -0                          -0e0        -0.0
/// ```
#[inline(always)]
pub fn write_float<F: AnyFloat>(
    x: F,
    layout: FloatLayout,
    out: &mut [u8],
) -> Result<usize, FloatTextError>
    ensures written { IfOk result (λ n.
        IsTextOf F.format (F.value x) layout (take n out.new)) }
    ensures reads { IfOk result (λ n.
        parse_at STANDARD (take n out.new) plain_marks F.format 0 ≡ Ok (F.value x)) }
    ensures by_words { IfOk result (λ n. (word : ℕ) → IsOfFloats word →
        parse_at word (take n out.new) plain_marks F.format 0 ≡ Ok (F.value x)) }
    ensures within { IfOk result (λ n. n ≤ length out.old) }
    ensures rest { IfOk result (λ n. drop n out.new ≡ drop n out.old) }
    ensures none { IfErr result (λ error.
        IsReason F.format (F.value x) layout (length out.old) error) }
    ensures unchanged { IfErr result (λ error. out.new ≡ out.old) }
    ensures room { IsTrue (float_is_finite (F.value x)) → HasRoom layout (length out.old) →
        IfErr result (λ error. ⊥) }
{
    if x.is_not_a_number() {
        return Err(FloatTextError::NaN);
    }
    if x.is_without_end() {
        return Err(FloatTextError::Infinite);
    }
    match write_finite(x, layout, out) {
        Ok(len) => Ok(len),
        Err(NoRoom { needed }) => Err(FloatTextError::NoRoom(needed)),
    }
}

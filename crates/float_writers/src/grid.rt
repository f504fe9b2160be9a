//! A float on a grid of decimals: between which two of them it is, and which read as it.

ghost use Rattle.std.specs.Prelude.{◌≡◌, true, false, ◌/◌, ◌+◌, ◌-◌, ◌*◌, ◌^◌, ◌<◌, ◌≤◌};
ghost use Rattle.std.specs.Float.{Float, Format};
ghost use Rattle.float_writers.specs.Grid.{within, power_of, scale_of, gap, step, quarters, offset, IsReach, IsPlaced};
ghost use Rattle.float_writers.specs.Decimals.{IsShortestAt};
ghost use Rattle.float_writers.specs.Parts.{IsParts};

use super::parts::Parts;
use super::powers::{row, scale};

/// The whole and the rest of a product, the rest in 2 ^ 128ths.
#[inline(always)]
pub fn product(factor: u64, row: u128) -> (u64, u128)
    requires { factor < 2 ^ 57 }
    ensures whole { result.0 * 2 ^ 128 + result.1 ≡ factor * row }
    ensures rest { result.1 < 2 ^ 128 }
    ensures few { result.0 < 2 ^ 58 }
{
    let low = factor as u128 * (row % (1 << 64));
    let high = factor as u128 * (row >> 64) + (low >> 64);
    (
        (high >> 64) as u64,
        ((high % (1 << 64)) << 64) + low % (1 << 64),
    )
}

/// [`is_within`] by all digits, in code of its own.
#[cold]
#[inline(never)]
fn is_just_within(distance: u128, reach: u128, closed: bool) -> bool
    requires distance { distance < 2 ^ 128 - 2 ^ 64 }
    requires reach { reach < 2 ^ 128 - 2 ^ 64 }
    ensures { result ≡ within distance reach closed }
{
    if distance + (1 << 54) < reach {
        return true;
    }
    if reach + (1 << 54) < distance {
        return false;
    }
    closed
}

/// Whether a distance is less than the reach, both in 2 ^ 124ths and known to less than 2 ^ 54 of
/// them. Two that are so close are one number: `closed` says whether it is within then.
#[inline(always)]
pub fn is_within(distance: u128, reach: u128, closed: bool) -> bool
    requires distance { distance < 2 ^ 128 - 2 ^ 64 }
    requires reach { reach < 2 ^ 128 - 2 ^ 64 }
    ensures { result ≡ within distance reach closed }
{
    let near = (distance >> 64) as u64;
    let far = (reach >> 64) as u64;
    if near + 1 < far {
        return true;
    }
    if far + 1 < near {
        return false;
    }
    is_just_within(distance, reach, closed)
}

/// Where a float is on the grid of the decimals of a power of ten.
#[derive(Clone, Copy)]
struct Place {
    /// The power of ten of a step, plus 324.
    power: u64,
    /// The whole steps, and the rest in 2 ^ 128ths of a step.
    whole: u64,
    rest: u128,
    /// Half the gap to the next float, and how far a number below the float may be that reads as
    /// it, both in 2 ^ 124ths of a step.
    half: u128,
    reach: u128,
}

/// Half the gap to the next float, in 2 ^ 124ths of a step. That the shift is below 64, as `% 64`
/// says, saves a compiler the case of more.
#[inline(always)]
fn half_of(row: u128, shift: u64) -> u128
    requires shift { (0 < shift) × (shift ≤ 4) }
    ensures least { result * 2 ^ (5 - shift) ≤ row }
    ensures most { row < (result + 1) * 2 ^ (5 - shift) }
    ensures few { result < 2 ^ 127 }
{
    row >> ((5 - shift) % 64)
}

/// How far below the float a number may be that reads as it: half the gap below it.
#[inline(always)]
fn reach_of(half: u128, edge: bool) -> u128
    ensures regular { edge ≡ false → result ≡ half }
    ensures edge { edge ≡ true → result ≡ half / 2 }
    ensures few { result ≤ half }
{
    if edge { half / 2 } else { half }
}

/// The power of ten of the steps, plus 324: a step is a tenth of the gap up to all of it, at a
/// power of two up to three quarters.
#[inline(always)]
fn power_for(exponent: u64, edge: bool) -> u64
    requires { exponent < 2046 }
    ensures is { result ≡ power_of exponent (offset edge) }
    ensures few { result < 617 }
{
    let offset = if edge { 596_500 } else { 727_500 };
    (exponent * 315_653 + offset) / 1_048_576
}

/// How many binary digits a significand goes up so that its product with the row has steps.
#[inline(always)]
#[tactic(auto, using(crate::proofs::Place::shifts))]
fn shift_for(exponent: u64, edge: bool, power: u64) -> u64
    requires exponent { exponent < 2046 }
    requires power { power ≡ power_of exponent (offset edge) }
    ensures is { result + 2146 ≡ exponent + scale_of power }
    ensures few { (0 < result) × (result ≤ 4) }
{
    exponent + scale(power) - 2146
}

/// A significand, shifted.
#[inline(always)]
#[tactic(auto, using(crate::proofs::Place::factor))]
fn shifted(significand: u64, shift: u64) -> u64
    requires significand { significand < 2 ^ 53 }
    requires shift { shift ≤ 4 }
    ensures is { result ≡ significand * 2 ^ shift }
    ensures few { result < 2 ^ 57 }
{
    significand << shift
}

/// Where a float is on the grid.
#[inline(always)]
fn place_of(parts: Parts) -> Place
    requires significand { (0 < parts.significand) × (parts.significand < 2 ^ 53) }
    requires exponent { parts.exponent < 2046 }
    ensures power { result.power ≡ power_of parts.exponent (offset parts.edge) }
    ensures placed { IsPlaced parts.significand (gap parts.exponent result.power)
        (step result.power) result.whole result.rest }
    ensures half { IsReach 2 (gap parts.exponent result.power) (step result.power) result.half }
    ensures reach { IsReach (quarters parts.edge) (gap parts.exponent result.power)
        (step result.power) result.reach }
    ensures few { (result.half < 2 ^ 127) × (result.reach < 2 ^ 127) }
    ensures whole { (result.whole < 2 ^ 58) × (result.power < 617) }
{
    let power = power_for(parts.exponent, parts.edge);
    let row = row(power);
    let shift = shift_for(parts.exponent, parts.edge, power);
    let (whole, rest) = product(shifted(parts.significand, shift), row);
    let half = half_of(row, shift);
    let reach = reach_of(half, parts.edge);
    Place {
        power,
        whole,
        rest,
        half,
        reach,
    }
}

/// The shortest decimal that reads as a float, perhaps with zeros at its end, and its power of ten
/// plus 324.
#[inline(always)]
pub fn digits_of(parts: Parts) -> (u64, u64)
    requires significand { (0 < parts.significand) × (parts.significand < 2 ^ 53) }
    requires exponent { parts.exponent < 2046 }
    ensures shortest { (f : Format) (x : Float) → IsParts f x parts
        → IsShortestAt f x result.0 result.1 }
    ensures few { (f : Format) (x : Float) → IsParts f x parts → result.0 < 10 ^ 17 }
    ensures power { result.1 ≤ 617 }
{
    let place = place_of(parts);
    let even = parts.significand % 2 == 0;
    let tens = place.whole / 10;
    let rest = place.rest / 16;
    let down = ((place.whole % 10) as u128) * (1 << 124) + rest;
    if is_within(down, place.reach, even) {
        return (tens, place.power + 1);
    }
    if is_within(10 * (1 << 124) - down, place.half, even) {
        return (tens + 1, place.power + 1);
    }
    if !is_within(rest, 1 << 123, place.whole % 2 == 0) {
        return (place.whole + 1, place.power);
    }
    if !is_within(rest, place.reach, even) {
        return (place.whole + 1, place.power);
    }
    (place.whole, place.power)
}

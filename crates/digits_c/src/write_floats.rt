//! Floats, written into places of the caller.

ghost use Rattle.std.specs.Prelude.{◌≡◌, IsTrue};
ghost use Rattle.std.specs.Float.{binary32, binary64, float_is_finite};
ghost use Rattle.decimal_writers.specs.Fixed.{fixed_text};
ghost use Rattle.decimal_writers.specs.Scientific.{scientific_text};
ghost use Rattle.float_writers.specs.declared.write.FloatLayout.TheVariants.{Usual};
ghost use Rattle.digits_c.specs.Texts.{Puts, PutsFloat, PutsFloatBy, exponent_of, layout_of, scientific_by};

use digits::{AnyFloat, ExponentText, FloatLayout, write_fixed, write_float, write_scientific};

/// The room that the usual text of an f64 takes, and that with an exponent.
pub const ROOM_F64: usize = 24;
/// The same of an f32.
pub const ROOM_F32: usize = 24;

/// As JSON has it: with an exponent below 1e-5 and from 1e16 on, else with one place at least.
pub const USUAL: u32 = 0;
/// Without an exponent: `0.00012`, `1.5`, `12000`.
pub const PLAIN: u32 = 1;
/// With an exponent: `1.2e-4`, `1.5e0`.
pub const EXPONENT: u32 = 2;

/// As C's `%e`: with a sign and two digits at least, `1.5e+00`.
pub const EXPONENT_SIGNED: u32 = 0;
/// Short: `1.5e0`.
pub const EXPONENT_SHORT: u32 = 1;

/// Writes the shortest text of a float into places, and answers its length, or 0 where there is no
/// room or no text.
#[inline(always)]
#[tactic(auto, using(crate::proofs::Puts::puts_floats))]
fn write<F: AnyFloat>(out: &mut [u8], value: F, layout: FloatLayout) -> usize
    ensures { PutsFloat F.format (F.value value) layout out.old out.new result }
{
    write_float(value, layout, out).unwrap_or(0)
}

/// Writes the shortest text of an `f64` at the front of places: the fewest digits that are read as
/// the float, of these the closest to it. Answers its length, or 0 where there is no room or the
/// float isn't finite. What is behind the text isn't touched.
#[unsafe(no_mangle)]
pub extern "C" fn digits_write_f64(out: &mut [u8], value: f64) -> usize
    ensures { PutsFloat binary64 value Usual out.old out.new result }
{
    write::<f64>(out, value, FloatLayout::Usual)
}

/// The same of an `f32`.
#[unsafe(no_mangle)]
pub extern "C" fn digits_write_f32(out: &mut [u8], value: f32) -> usize
    ensures { PutsFloat binary32 value Usual out.old out.new result }
{
    write::<f32>(out, value, FloatLayout::Usual)
}

/// The layout with a number.
#[inline(always)]
#[tactic(auto, unfolding(crate::specs::Texts::layout_of))]
fn layout_of(layout: u32) -> Option<FloatLayout>
    ensures { result ≡ layout_of layout }
{
    match layout {
        USUAL => Some(FloatLayout::Usual),
        PLAIN => Some(FloatLayout::Plain),
        EXPONENT => Some(FloatLayout::Exponent),
        _ => None,
    }
}

/// The same of any float in a layout with a number.
#[inline(always)]
fn write_in<F: AnyFloat>(out: &mut [u8], value: F, layout: u32) -> usize
    ensures { PutsFloatBy F.format (F.value value) (layout_of layout) out.old out.new result }
{
    match layout_of(layout) {
        Some(layout) => write::<F>(out, value, layout),
        None => 0,
    }
}

/// Writes the shortest text of an `f64` in a layout. Answers 0 too where no layout has the number.
#[unsafe(no_mangle)]
pub extern "C" fn digits_write_f64_in(out: &mut [u8], value: f64, layout: u32) -> usize
    ensures { PutsFloatBy binary64 value (layout_of layout) out.old out.new result }
{
    write_in::<f64>(out, value, layout)
}

/// The same of an `f32`.
#[unsafe(no_mangle)]
pub extern "C" fn digits_write_f32_in(out: &mut [u8], value: f32, layout: u32) -> usize
    ensures { PutsFloatBy binary32 value (layout_of layout) out.old out.new result }
{
    write_in::<f32>(out, value, layout)
}

/// Writes an `f64` with a fixed number of places, as C's `%.2f` does: rounded once from its exact
/// value, at a tie to the even digit. Answers its length, or 0 where there is no room or the float
/// isn't finite.
#[unsafe(no_mangle)]
#[tactic(auto, using(crate::proofs::Puts::puts_fixed))]
pub extern "C" fn digits_write_f64_fixed(out: &mut [u8], value: f64, places: u32) -> usize
    ensures { Puts (fixed_text value places) out.old out.new result }
{
    if !value.is_finite() {
        return 0;
    }
    write_fixed(value, places, out).unwrap_or(0)
}

/// The text of an exponent with a number.
#[inline(always)]
#[tactic(auto, unfolding(crate::specs::Texts::exponent_of))]
fn exponent_of(style: u32) -> Option<ExponentText>
    ensures { result ≡ exponent_of style }
{
    match style {
        EXPONENT_SIGNED => Some(ExponentText::Signed),
        EXPONENT_SHORT => Some(ExponentText::Short),
        _ => None,
    }
}

/// Writes a finite float with one digit before the point, so many places and an exponent, and
/// answers its length, or 0 where there is no room.
#[inline(always)]
#[tactic(auto, using(crate::proofs::Puts::puts_fixed))]
fn write_with_exponent(out: &mut [u8], value: f64, places: u32, style: ExponentText) -> usize
    requires { IsTrue (float_is_finite value) }
    ensures { Puts (scientific_text value places style) out.old out.new result }
{
    write_scientific(value, places, style, out).unwrap_or(0)
}

/// Writes an `f64` with one digit before the point, so many places and an exponent, as C's `%.2e`
/// does: rounded once from its exact value, at a tie to the even digit. Answers its length, or 0
/// where there is no room, the float isn't finite or no exponent has the number.
#[unsafe(no_mangle)]
#[tactic(auto, using(crate::proofs::Puts::puts_scientific))]
pub extern "C" fn digits_write_f64_scientific(
    out: &mut [u8],
    value: f64,
    places: u32,
    style: u32,
) -> usize
    ensures { Puts (scientific_by value places (exponent_of style)) out.old out.new result }
{
    if !value.is_finite() {
        return 0;
    }
    match exponent_of(style) {
        Some(style) => write_with_exponent(out, value, places, style),
        None => 0,
    }
}

//! The nearest float.

ghost use Rattle.std.specs.Prelude.{◌≡◌, MatchResult};
ghost use Rattle.std.specs.Float.{binary32, binary64, float_zero};
ghost use Rattle.digits.specs.Words.{STANDARD};
ghost use Rattle.digits_c.specs.Calls.{float_from, whole_float, word_of};
ghost use Rattle.digits_c.specs.Outcomes.{Answers, done, float_fault};

use super::outcome::{BAD_START, BAD_WORD, Outcome};
use super::word::{Word, is_decimal};
use digits::{Float, FloatError, STANDARD, is_supported, parse_float, read_float_from};

// Each export by a constant word calls the reader itself: with an inlined function between them the
// compiler would inline neither, and the word would be no constant.

/// Writes a float that was read, and answers where it ends.
#[inline(always)]
fn answer<F: Float>(read: Result<(F, usize), FloatError>, value: &mut F) -> Outcome
    ensures { MatchResult read
        (λ r. (F.value value.new ≡ F.value r.0) × (result ≡ done r.1))
        (λ error. (value.new ≡ value.old) × (result ≡ float_fault error)) }
{
    match read {
        Ok((x, end)) => {
            *value = x;
            Outcome::done(end)
        }
        Err(error) => Outcome::of_float(error),
    }
}

/// Writes the float that a text is, and answers where it ends.
#[inline(always)]
fn answer_whole<F: Float>(read: Result<F, FloatError>, end: usize, value: &mut F) -> Outcome
    ensures { MatchResult read
        (λ x. (F.value value.new ≡ F.value x) × (result ≡ done end))
        (λ error. (value.new ≡ value.old) × (result ≡ float_fault error)) }
{
    match read {
        Ok(x) => {
            *value = x;
            Outcome::done(end)
        }
        Err(error) => Outcome::of_float(error),
    }
}

/// The `f64` that begins at a start. The value is 0 where there is none.
#[unsafe(no_mangle)]
#[tactic(auto, unfolding(crate::proofs::OnWords::on_floats))]
pub extern "C" fn digits_read_f64(text: &[u8], start: usize, value: &mut f64) -> Outcome
    ensures { Answers float_zero (float_from binary64 STANDARD text.now start) value.new result }
{
    *value = 0.0;
    if start > text.len() {
        return Outcome::fault(BAD_START, start);
    }
    answer(read_float_from::<f64>(text, STANDARD, start), value)
}

/// The `f32` that begins at a start.
#[unsafe(no_mangle)]
#[tactic(auto, unfolding(crate::proofs::OnWords::on_floats))]
pub extern "C" fn digits_read_f32(text: &[u8], start: usize, value: &mut f32) -> Outcome
    ensures { Answers float_zero (float_from binary32 STANDARD text.now start) value.new result }
{
    *value = 0.0;
    if start > text.len() {
        return Outcome::fault(BAD_START, start);
    }
    answer(read_float_from::<f32>(text, STANDARD, start), value)
}

/// The float that begins at a start, by a word. The value is `zero` where there is none. In code of
/// its own, where the word stays in registers.
#[inline(never)]
#[tactic(auto, unfolding(crate::specs::Calls::float_from))]
fn read_by<F: Float>(text: &[u8], start: usize, word: u128, zero: F, value: &mut F) -> Outcome
    ensures { Answers (F.value zero) (float_from F.format word text.now start)
        (F.value value.new) result }
{
    *value = zero;
    if !is_supported(word) || !is_decimal(word) {
        return Outcome::fault(BAD_WORD, start);
    }
    if start > text.len() {
        return Outcome::fault(BAD_START, start);
    }
    answer(read_float_from::<F>(text, word, start), value)
}

/// The `f64` that begins at a start, by a word.
#[unsafe(no_mangle)]
pub extern "C" fn digits_read_f64_by(
    text: &[u8],
    start: usize,
    word: Word,
    value: &mut f64,
) -> Outcome
    ensures { Answers float_zero (float_from binary64 (word_of word) text.now start)
        value.new result }
{
    read_by::<f64>(text, start, word.whole(), 0.0, value)
}

/// The `f32` that begins at a start, by a word.
#[unsafe(no_mangle)]
pub extern "C" fn digits_read_f32_by(
    text: &[u8],
    start: usize,
    word: Word,
    value: &mut f32,
) -> Outcome
    ensures { Answers float_zero (float_from binary32 (word_of word) text.now start)
        value.new result }
{
    read_by::<f32>(text, start, word.whole(), 0.0, value)
}

/// The `f64` that a text is. The value is 0 where there is none.
#[unsafe(no_mangle)]
#[tactic(auto, unfolding(crate::proofs::OnWords::on_floats))]
pub extern "C" fn digits_parse_f64(text: &[u8], value: &mut f64) -> Outcome
    ensures { Answers float_zero (whole_float binary64 STANDARD text.now) value.new result }
{
    *value = 0.0;
    answer_whole(parse_float::<f64>(text, STANDARD), text.len(), value)
}

/// The `f32` that a text is.
#[unsafe(no_mangle)]
#[tactic(auto, unfolding(crate::proofs::OnWords::on_floats))]
pub extern "C" fn digits_parse_f32(text: &[u8], value: &mut f32) -> Outcome
    ensures { Answers float_zero (whole_float binary32 STANDARD text.now) value.new result }
{
    *value = 0.0;
    answer_whole(parse_float::<f32>(text, STANDARD), text.len(), value)
}

/// The float that a text is, by a word. The value is `zero` where there is none.
#[inline(never)]
#[tactic(auto, unfolding(crate::specs::Calls::whole_float))]
fn parse_by<F: Float>(text: &[u8], word: u128, zero: F, value: &mut F) -> Outcome
    ensures { Answers (F.value zero) (whole_float F.format word text.now)
        (F.value value.new) result }
{
    *value = zero;
    if !is_supported(word) || !is_decimal(word) {
        return Outcome::fault(BAD_WORD, 0);
    }
    answer_whole(parse_float::<F>(text, word), text.len(), value)
}

/// The `f64` that a text is, by a word.
#[unsafe(no_mangle)]
pub extern "C" fn digits_parse_f64_by(text: &[u8], word: Word, value: &mut f64) -> Outcome
    ensures { Answers float_zero (whole_float binary64 (word_of word) text.now)
        value.new result }
{
    parse_by::<f64>(text, word.whole(), 0.0, value)
}

/// The `f32` that a text is, by a word.
#[unsafe(no_mangle)]
pub extern "C" fn digits_parse_f32_by(text: &[u8], word: Word, value: &mut f32) -> Outcome
    ensures { Answers float_zero (whole_float binary32 (word_of word) text.now)
        value.new result }
{
    parse_by::<f32>(text, word.whole(), 0.0, value)
}

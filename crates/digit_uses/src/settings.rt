//! A register and its value, as `0x1f = -1.5e3`: several fields, and a relation as the contract,
//! with both halves.
//!
//! Proof by hand: none.
#![tactic(auto, unfolding(digits::proofs::Literals::lexical_on_literals))]

ghost use Rattle.std.specs.Prelude.{ℕ, IfOk, IfErr};
ghost use Rattle.std.specs.Float.Ieee.{Float};
ghost use Rattle.digit_uses.specs.Settings.{IsSetting};

use digits::forms::JSON;
use digits::languages::RUST;
use digits::{
    BLANKS, LanguageError, NumberError, expect_byte, past_bytes, read_literal_as, read_number_of,
};

/// Why there is no setting.
#[derive(Clone, Copy, Debug, PartialEq, Eq)]
pub enum SettingError {
    Register(LanguageError),
    NoMark(usize),
    Value(NumberError),
}

/// The register and the value that a text begins with, and where they end: `0x1f = -1.5e3;`
/// gives `(31, -1500.0, 13)`.
pub fn read_setting(text: &[u8]) -> Result<(u16, f64, usize), SettingError>
    ensures ok { IfOk result (λ read. IsSetting text.now read.0 read.1 read.2) }
    ensures none { IfErr result (λ _. (register : ℕ) (value : Float) (end : ℕ) →
        IsSetting text.now register value end → ⊥) }
{
    let literal = read_literal_as::<u16>(text, 0, RUST);
    let (register, end) = literal.map_err(SettingError::Register)?;
    let mark = past_bytes(text, end, BLANKS);
    let after = expect_byte(text, mark, b'=').map_err(SettingError::NoMark)?;
    let start = past_bytes(text, after, BLANKS);
    let number = read_number_of::<f64>(text, start, JSON);
    let (number, end) = number.map_err(SettingError::Value)?;
    Ok((register, number.to_float(), end))
}

//! The blocks of the page OWN.md, in its order. `.ci/pages` compares the two.
#![tactic(auto, unfolding(digits::proofs::Literals::lexical_on_literals))]

use digits::{INTEGER_INTERNAL_DIGIT_SEPARATOR, ParseError, parse_number};

/// Radix 10, and `.` between two digits: `1.234`.
pub const POINT_DIGITS: u128 = (10 << 104)
    | ((b'.' as u128) << 64)
    | INTEGER_INTERNAL_DIGIT_SEPARATOR;

/// Reads a text as a count: `1.234` is 1234.
pub fn parse_count(text: &[u8]) -> Result<u64, ParseError> {
    parse_number::<u64>(text, POINT_DIGITS)
}

ghost use Rattle.std.specs.Prelude.{IfSome, IsTrue};
ghost use Rattle.digits.specs.Words.{is_supported};

use digits::{DECIMAL, DigitSeparatorFlags, NO_FLAGS, NumberFormatBuilder, is_supported};

/// The word with `_` between the digits of a radix, if there is one.
pub fn underscores(radix: u8) -> Option<u128>
    ensures { IfSome result (λ word. IsTrue (is_supported word)) }
{
    let internal = DigitSeparatorFlags {
        internal: true,
        ..NO_FLAGS
    };
    let word = NumberFormatBuilder {
        mantissa_radix: radix,
        digit_separator: b'_',
        integer: internal,
        ..DECIMAL
    }
    .build();
    if is_supported(word) { Some(word) } else { None }
}

use digits::languages::PYTHON;
use digits::{Language, LanguageError, read_literal_as};

/// Python's integers, without the prefixes `0b` and `0o`.
pub const DECIMAL_OR_HEX: Language = Language {
    binary: None,
    octal: None,
    ..PYTHON
};

/// Reads such an integer at the front of a text, and returns where it ends: `0xff_ff;` gives 65535
/// and 7.
pub fn read_color(text: &[u8]) -> Result<(u32, usize), LanguageError> {
    read_literal_as::<u32>(text, 0, DECIMAL_OR_HEX)
}

use digits::languages::CXX14;
use digits::words::CXX14_HEX_LITERAL;
use digits::{COMMAS, FirstZero, ListRead, OfLanguage, read_list_by};

/// Hexadecimal integers, with `0x` or without it, and with `'` between two digits.
pub const ALWAYS_HEX: Language = Language {
    decimal: CXX14_HEX_LITERAL,
    binary: None,
    octal: None,
    first_zero: FirstZero::Plain,
    ..CXX14
};

/// Reads the list of such integers at the front of a text into a slice: `ff, 0x1f, 1'000` has 255,
/// 31 and 4096.
pub fn read_masks(text: &[u8], out: &mut [u32]) -> ListRead<LanguageError> {
    read_list_by(OfLanguage::<u32>::new(ALWAYS_HEX), text, 0, COMMAS, out)
}

use digits::{Form, Marks, NumberError, forms, parse_number_of};

/// Floats with a comma in place of the point: `1,5e3`.
pub const COMMA_FLOATS: Form = Form {
    marks: Marks {
        point: b',',
        exponent: b'e',
    },
    ..forms::FLOAT
};

/// Reads a text as a float: `1,5e3` is 1500.0.
pub fn parse_comma_float(text: &[u8]) -> Result<f64, NumberError> {
    Ok(parse_number_of::<f64>(text, COMMA_FLOATS)?.to_float())
}

//! The form with a number. `c/constants` and `bench/forms/compare` read names and numbers here.

ghost use Rattle.std.specs.Prelude.{◌≡◌, IfSome};
ghost use Rattle.digit_numbers.specs.Forms.{IsForm};
ghost use Rattle.digit_numbers.specs.Numbered.{form_of, source_form, script_form};
ghost use Rattle.digit_numbers.specs.Numbered.{format_form, parse_form, take_form};

use super::form::Form;
use super::forms;

/// Source code.
#[tactic(auto, unfolding(crate::proofs::OnTexts::on_numbers))]
fn source_form(number: usize) -> Option<Form>
    ensures is { result ≡ source_form number }
    ensures serves { IfSome result IsForm }
{
    Some(match number {
        0 => forms::LITERAL,
        1 => forms::FLOAT,
        2 => forms::RUST,
        3 => forms::C89,
        4 => forms::C99,
        5 => forms::CXX14,
        6 => forms::CXX17,
        7 => forms::JAVA,
        8 => forms::KOTLIN,
        9 => forms::SCALA,
        10 => forms::CSHARP,
        11 => forms::FSHARP,
        12 => forms::GO,
        13 => forms::D,
        14 => forms::SWIFT,
        15 => forms::NIM,
        16 => forms::ADA,
        17 => forms::COBOL,
        18 => forms::FORTRAN,
        _ => return None,
    })
}

/// Source code of more languages.
#[tactic(auto, unfolding(crate::proofs::OnTexts::on_numbers))]
fn script_form(number: usize) -> Option<Form>
    ensures is { result ≡ script_form number }
    ensures serves { IfSome result IsForm }
{
    Some(match number {
        19 => forms::PYTHON,
        20 => forms::RUBY,
        21 => forms::PERL,
        22 => forms::PHP,
        23 => forms::LUA,
        24 => forms::R,
        25 => forms::OCTAVE,
        26 => forms::MATLAB,
        27 => forms::ERLANG,
        28 => forms::ELIXIR,
        29 => forms::HASKELL,
        30 => forms::SCHEME,
        31 => forms::OCAML,
        32 => forms::JAVASCRIPT,
        33 => forms::COFFEESCRIPT,
        34 => forms::POSTGRESQL,
        35 => forms::SQLITE,
        36 => forms::MYSQL,
        37 => forms::HCL,
        _ => return None,
    })
}

/// Data formats.
#[tactic(auto, unfolding(crate::proofs::OnTexts::on_numbers))]
fn format_form(number: usize) -> Option<Form>
    ensures is { result ≡ format_form number }
    ensures serves { IfSome result IsForm }
{
    Some(match number {
        38 => forms::JSON,
        39 => forms::JSON_FLOATS,
        40 => forms::JSON5,
        41 => forms::YAML,
        42 => forms::TOML,
        43 => forms::EDN,
        44 => forms::CSS,
        45 => forms::DECIMAL,
        46 => forms::XML_DOUBLE,
        47 => forms::PROMETHEUS,
        48 => forms::PROTOBUF_TEXT,
        _ => return None,
    })
}

/// The strings that a function takes for a number.
#[tactic(auto, unfolding(crate::proofs::OnTexts::on_numbers))]
fn parse_form(number: usize) -> Option<Form>
    ensures is { result ≡ parse_form number }
    ensures serves { IfSome result IsForm }
{
    Some(match number {
        49 => forms::STRTOD,
        50 => forms::FROM_CHARS,
        51 => forms::RUST_PARSE,
        52 => forms::PYTHON_FLOAT,
        53 => forms::JAVA_PARSE_DOUBLE,
        54 => forms::GO_PARSE_FLOAT,
        55 => forms::CSHARP_PARSE,
        _ => return None,
    })
}

/// The strings that more functions take.
#[tactic(auto, unfolding(crate::proofs::OnTexts::on_numbers))]
fn take_form(number: usize) -> Option<Form>
    ensures is { result ≡ take_form number }
    ensures serves { IfSome result IsForm }
{
    Some(match number {
        56 => forms::RUBY_FLOAT,
        57 => forms::LUA_TONUMBER,
        58 => forms::JAVASCRIPT_NUMBER,
        59 => forms::JAVASCRIPT_PARSE_FLOAT,
        60 => forms::POSTGRESQL_NUMERIC,
        61 => forms::FORTRAN_READ,
        62 => forms::STR2DOUBLE,
        _ => return None,
    })
}

/// The form to which `c/digits.h` gives this number, as 2 is `DIGITS_FORM_RUST`; `None` if it gives
/// it to none.
#[inline(never)]
#[tactic(auto, unfolding(crate::specs::Numbered::form_of))]
pub fn form_of(number: usize) -> Option<Form>
    ensures is { result ≡ form_of number }
    ensures serves { IfSome result IsForm }
{
    if number < 19 {
        source_form(number)
    } else if number < 38 {
        script_form(number)
    } else if number < 49 {
        format_form(number)
    } else if number < 56 {
        parse_form(number)
    } else {
        take_form(number)
    }
}

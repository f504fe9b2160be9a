//! Amounts as German writes them, such as `-1.234,56`: a form of one's own.
//!
//! Proof by hand: none.

ghost use Rattle.std.specs.Prelude.{◌≡◌, Ok, Err, MatchResult};
ghost use Rattle.digits.specs.Words.{binary64, number_of_at, number_to_end, with_value};

use digits::{
    Exponents, Form, INTEGER_INTERNAL_DIGIT_SEPARATOR, Language, Marks, Number, NumberError, forms,
    languages, parse_number_of,
};

/// Radix 10, and a `.` between two digits of the integer.
const POINTS: u128 = (10 << 104) | ((b'.' as u128) << 64) | INTEGER_INTERNAL_DIGIT_SEPARATOR;

/// A comma before the fraction, and no exponent. The other fields are those of JSON.
pub const AMOUNT: Form = Form {
    integers: Language {
        decimal: POINTS,
        ..languages::JSON_NUMBER
    },
    marks: Marks {
        point: b',',
        ..Marks::PLAIN
    },
    exponents: Exponents::Absent,
    ..forms::JSON
};

/// The amount that a text is: an integer, or the nearest float.
#[tactic(auto, unfolding(digits::proofs::Literals::lexical_on_literals))]
pub fn parse_amount(text: &[u8]) -> Result<Number<f64>, NumberError>
    ensures { let read = number_to_end text.now (number_of_at AMOUNT text.now 0 binary64) in
        MatchResult result (λ n. read ≡ Ok (with_value (λ x. x) n)) (λ error. read ≡ Err error) }
{
    parse_number_of::<f64>(text, AMOUNT)
}

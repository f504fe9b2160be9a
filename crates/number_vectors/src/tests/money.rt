//! Amounts of money in cents, by `digit_uses::money`.

use digit_amounts::ScaledError;
use digit_uses::money::parse_cents;
use lexical_format::words::PYTHON_LITERAL;

/// The cents of a text; the word has one `_` between two digits.
#[tactic(auto, unfolding(lexical_format::proofs::OnLiterals::lexical_on_literals))]
fn cents(text: &[u8]) -> Result<i64, ScaledError> {
    parse_cents(text, PYTHON_LITERAL)
}

#[test]
fn an_amount_has_at_most_two_places(rt: HostRuntime) {
    let rows: [(&[u8], Result<i64, ScaledError>); 20] = [
        (b"0", Ok(0)),
        (b"-0.00", Ok(0)),
        (b"12", Ok(1200)),
        (b"-1_234.5", Ok(-123450)),
        (b"0.05", Ok(5)),
        (b"+.5", Ok(50)),
        (b"99.", Ok(9900)),
        (b"0.1200000000000000000000000", Ok(12)),
        (b"92233720368547758.07", Ok(i64::MAX)),
        (b"-92233720368547758.08", Ok(i64::MIN)),
        (b"92233720368547758.08", Err(ScaledError::TooLarge(19))),
        (b"12345678901234567890", Err(ScaledError::TooLarge(17))),
        (b"0.125", Err(ScaledError::TooFine(4))),
        (
            b"0.12000000000000000000000000000000000000001",
            Err(ScaledError::TooFine(42)),
        ),
        (b"1e3", Err(ScaledError::Invalid(1))),
        (b"1.25e1", Err(ScaledError::Invalid(4))),
        (b"", Err(ScaledError::Empty(0))),
        (b"-.", Err(ScaledError::Empty(2))),
        (b"1.25EUR", Err(ScaledError::Invalid(4))),
        (b"1.25 EUR", Err(ScaledError::Invalid(4))),
    ];
    for (text, expected) in rows {
        let answer = cents(text);
        assert!(rt; answer == expected, "{text:?}: {answer:?}");
    }
}

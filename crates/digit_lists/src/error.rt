//! What the errors of the kinds of numbers say.

ghost use Rattle.std.specs.Prelude.{◌≡◌};

use digit_amounts::{PriceError, ScaledError};
use digit_floats::FloatError;
use digit_languages::LanguageError;
use digit_numbers::NumberError;
use digit_pieces::{BothError, BracketError};
use digit_values::LiteralError;

/// The trait of errors of one number: where the fault is, and whether no number was there. The
/// errors of all kinds of numbers here are of this trait.
pub trait NoNumber: Copy {
    ghost use Rattle.std.specs.Prelude.{◌≡◌, ℕ, Bool};

    ghost fault_at: { Self → ℕ };

    ghost is_empty: { Self → Bool };

    /// The position that the error holds.
    fn fault_at(self) -> usize
        ensures { result ≡ fault_at self };

    /// Whether nothing was there: no digit, or for a form no number. For two numbers, whether the
    /// error of the first says so. For a number between two bytes, whether the first byte is
    /// missing.
    fn is_empty(self) -> bool
        ensures { result ≡ is_empty self };
}

impl NoNumber for LiteralError {
    ghost use Rattle.digit_values.specs.Errors.{literal_position};
    ghost use Rattle.digit_lists.specs.Empty.{literal_is_empty};

    ghost fault_at = { literal_position };

    ghost is_empty = { literal_is_empty };

    #[inline(always)]
    fn fault_at(self) -> usize {
        self.position()
    }

    #[inline(always)]
    fn is_empty(self) -> bool {
        matches!(self, LiteralError::Empty(_))
    }
}

impl NoNumber for FloatError {
    ghost use Rattle.digit_floats.specs.Errors.{position};
    ghost use Rattle.digit_lists.specs.Empty.{float_is_empty};

    ghost fault_at = { position };

    ghost is_empty = { float_is_empty };

    #[inline(always)]
    fn fault_at(self) -> usize {
        self.position()
    }

    #[inline(always)]
    fn is_empty(self) -> bool {
        matches!(self, FloatError::Empty(_))
    }
}

impl NoNumber for ScaledError {
    ghost use Rattle.digit_amounts.specs.Scaled.{position};
    ghost use Rattle.digit_lists.specs.Empty.{scaled_is_empty};

    ghost fault_at = { position };

    ghost is_empty = { scaled_is_empty };

    #[inline(always)]
    fn fault_at(self) -> usize {
        self.position()
    }

    #[inline(always)]
    fn is_empty(self) -> bool {
        matches!(self, ScaledError::Empty(_))
    }
}

impl NoNumber for NumberError {
    ghost use Rattle.digit_numbers.specs.Values.{position};
    ghost use Rattle.digit_lists.specs.Empty.{number_is_empty};

    ghost fault_at = { position };

    ghost is_empty = { number_is_empty };

    #[inline(always)]
    fn fault_at(self) -> usize {
        self.position()
    }

    #[inline(always)]
    fn is_empty(self) -> bool {
        matches!(self, NumberError::Empty(_))
    }
}

impl NoNumber for LanguageError {
    ghost use Rattle.digit_languages.specs.Literals.{position};
    ghost use Rattle.digit_lists.specs.Empty.{language_is_empty};

    ghost fault_at = { position };

    ghost is_empty = { language_is_empty };

    #[inline(always)]
    fn fault_at(self) -> usize {
        self.position()
    }

    #[inline(always)]
    fn is_empty(self) -> bool {
        matches!(self, LanguageError::Empty(_))
    }
}

impl<D: NoNumber, E: NoNumber> NoNumber for BothError<D, E> {
    ghost use Rattle.digit_pieces.specs.Both.{both_error_at};
    ghost use Rattle.digit_lists.specs.Empty.{both_is_empty};

    ghost fault_at = { both_error_at D.fault_at E.fault_at };

    ghost is_empty = { both_is_empty D.is_empty };

    #[inline(always)]
    fn fault_at(self) -> usize {
        match self {
            BothError::First(error) => error.fault_at(),
            BothError::Between(at) => at,
            BothError::Second(error) => error.fault_at(),
        }
    }

    #[inline(always)]
    fn is_empty(self) -> bool {
        match self {
            BothError::First(error) => error.is_empty(),
            BothError::Between(_) | BothError::Second(_) => false,
        }
    }
}

impl<E: NoNumber> NoNumber for BracketError<E> {
    ghost use Rattle.digit_pieces.specs.Enclosed.{bracket_position};
    ghost use Rattle.digit_lists.specs.Empty.{bracket_is_empty};

    ghost fault_at = { bracket_position E.fault_at };

    ghost is_empty = { bracket_is_empty };

    #[inline(always)]
    fn fault_at(self) -> usize {
        match self {
            BracketError::Number(error) => error.fault_at(),
            BracketError::NoOpening(at) | BracketError::NoClosing(at) => at,
        }
    }

    #[inline(always)]
    fn is_empty(self) -> bool {
        matches!(self, BracketError::NoOpening(_))
    }
}

impl NoNumber for PriceError {
    ghost use Rattle.digit_amounts.specs.Prices.{price_position};
    ghost use Rattle.digit_lists.specs.Empty.{price_is_empty};

    ghost fault_at = { price_position };

    ghost is_empty = { price_is_empty };

    #[inline(always)]
    fn fault_at(self) -> usize {
        self.position()
    }

    #[inline(always)]
    fn is_empty(self) -> bool {
        matches!(self, PriceError::Number(ScaledError::Empty(_)))
    }
}

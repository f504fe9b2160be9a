//! Where a form comes from: it is a value, or follows from a type.

ghost use Rattle.std.specs.Prelude.{◌≡◌};
ghost use Rattle.digits.specs.Words.{Form};

use digits::{Form, forms};

/// What gives a form. Code by a type that has one form is compiled for that form.
pub trait FormSource: Copy {
    // The form.
    ghost form: { Self → Form };

    /// The form.
    fn form(self) -> Form
        ensures { result ≡ form self };
}

/// The form is the value.
impl FormSource for Form {
    ghost form = { λ source. source };

    #[inline(always)]
    fn form(self) -> Form {
        self
    }
}

/// The form of JSON.
#[derive(Clone, Copy)]
pub struct Json;

impl FormSource for Json {
    ghost use Rattle.digits.specs.Forms.{JSON};

    ghost form = { λ source. JSON };

    #[inline(always)]
    fn form(self) -> Form {
        forms::JSON
    }
}

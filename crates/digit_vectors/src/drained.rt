//! The bytes of a text without its separators, by std's chains.

ghost use Rattle.std.specs.Prelude.{◌≡◌, length, IsTrue, IfOk};
ghost use Rattle.lexical_format.specs.Word.{is_supported};
ghost use Rattle.lexical_digits.specs.Separators.{drain};
ghost use Rattle.lexical_digits.specs.State.{rule_of};
ghost use Rattle.lexical_digits.specs.declared.skip.component.Component.TheVariants.{Integer};

use lexical_digits::skip::Bytes;
use std::alloc::{AllocError, Global};

/// The bytes of a text without the separators that the word drops: `1_000` gives `1000`.
pub fn without_separators(alloc: Global, text: &[u8], word: u128) -> Result<Vec<u8>, AllocError>
    requires { IsTrue (is_supported word) }
    ensures { IfOk result (λ v. v.items ≡ drain (rule_of word Integer) text.now 0 0) }
{
    let mut bytes = Bytes::new(text, word);
    bytes.integer_iter().copied().collect(alloc)
}

/// How many bytes that are.
pub fn length_without_separators(text: &[u8], word: u128) -> usize
    requires { IsTrue (is_supported word) }
    ensures { result ≡ length (drain (rule_of word Integer) text.now 0 0) }
{
    let mut bytes = Bytes::new(text, word);
    bytes.integer_iter().count()
}

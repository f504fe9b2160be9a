//! Whether the last digits of some bytes are zeros.

ghost use Rattle.std.specs.Prelude.{◌≡◌, ◌==◌, ◌≤◌, length, filter, drop};
ghost use Rattle.std.specs.List.{list_all};
ghost use Rattle.std.specs.Char.{is_ascii_digit};

/// Whether all bytes are zeros. It goes on after another, so that a compiler compares many at once.
#[tactic(auto, using(std::proofs::lemmas::List::Folds::list_all_more))]
fn are_all_zeros(bytes: &[u8]) -> bool
    ensures { result ≡ list_all (λ d. d == 48) bytes.now }
{
    let mut are = true;
    for byte in bytes {
        are &= *byte == b'0';
    }
    are
}

/// Whether all digits of some bytes but the first are zeros.
pub fn are_zeros(bytes: &[u8], count: usize) -> bool
    ensures { result ≡ list_all (λ d. d == 48) (drop count (filter is_ascii_digit bytes.now)) }
{
    bytes
        .iter()
        .filter(|byte| byte.is_ascii_digit())
        .skip(count)
        .all(|byte| *byte == b'0')
}

/// [`are_zeros`], where it is known how many digits there are: `digits`, of which `count` are the
/// first.
#[inline(never)]
#[tactic(auto, using(crate::proofs::Others::all_digits))]
pub fn are_zeros_after(bytes: &[u8], digits: usize, count: usize) -> bool
    requires digits { digits ≡ length (filter is_ascii_digit bytes.now) }
    requires count { count ≤ digits }
    ensures { result ≡ list_all (λ d. d == 48) (drop count (filter is_ascii_digit bytes.now)) }
{
    // no other byte is among them
    if digits == bytes.len() {
        are_all_zeros(&bytes[count..])
    } else {
        are_zeros(bytes, count)
    }
}

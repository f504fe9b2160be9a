//! A float of few digits, by one multiplication or division of two floats that are exact.

ghost use Rattle.std.specs.Prelude.{◌≡◌, false, ◌+◌, ◌*◌, ◌^◌, ◌<◌, IfSome};
ghost use Rattle.std.specs.Float.Ieee.{round};
ghost use Rattle.digit_floats.specs.Rounds.{nearest_decimal};

use super::float::{Float, signed};

/// The digits times ten to `up` over ten to `down`, if one operation is enough.
#[inline(always)]
#[tactic(auto, using(crate::proofs::Tens::times_rest, crate::proofs::Tens::over_rest))]
fn magnitude<F: Float>(digits: u64, up: u64, down: u64) -> Option<F>
    ensures { IfSome result (λ x.
        F.value x ≡ round F.format false (digits * 10 ^ up) (10 ^ down)) }
{
    if down <= up {
        F::times_ten_to(digits, up - down)
    } else {
        F::over_ten_to(digits, down - up)
    }
}

/// The float nearest to the digits, of which the last `places` follow the point, times ten to a
/// power, if one operation is enough.
#[inline(always)]
pub fn round_exact<F: Float>(
    negative: bool,
    digits: u64,
    places: u64,
    down: bool,
    power: u64,
) -> Option<F>
    requires places { places < 2 ^ 63 }
    requires power { power < 2 ^ 32 }
    ensures { IfSome result (λ x.
        F.value x ≡ nearest_decimal F.format negative digits places down power) }
{
    if down {
        let x: F = F::over_ten_to(digits, places + power)?;
        Some(signed(negative, x))
    } else {
        let x: F = magnitude(digits, power, places)?;
        Some(signed(negative, x))
    }
}

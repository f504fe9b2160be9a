//! The types of integers that are written.

ghost use Rattle.std.specs.Prelude.{◌≡◌, ℕ, ◌<◌, ◌≤◌, true, if◌then◌else◌, ◌++◌, length, decimal};
ghost use Rattle.std.specs.Fmt.{sign_text};
ghost use Rattle.std.proofs.Common.{rules};
ghost use Rattle.digit_integers.specs.Numbers.{signed};

use digit_integers::Integer;

/// The room that the longest text of any type of integers takes: that of the least `i128`.
pub const MOST_ROOM: usize = 40;

/// A type of integers that are written: each [`Integer`](digit_integers::Integer) is one. Bound a
/// type by it if you write its numbers.
pub trait Written: Integer {
    /// The room that the longest text of the type takes, as 4 of `i8`: `-128`. It is at most
    /// [`MOST_ROOM`].
    const ROOM: usize;

    ghost ROOM: { ℕ };

    /// Whether a number is below 0, and how far from it.
    fn parts(self) -> (bool, u128)
        ensures number { signed result.0 result.1 ≡ Self.number self }
        ensures fits { result.1 ≤ (if result.0 then Self.MIN_MAGNITUDE else Self.MAX) }
        ensures minus { result.0 ≡ true → 0 < result.1 }
        ensures room { length (sign_text result.0 ++ decimal result.1) ≤ ROOM };

    ghost short: { ROOM ≤ 40 };
}

#[tactic(auto, using(crate::proofs::Rooms::rooms))]
impl Written for u8 {
    const ROOM: usize = 3;

    ghost ROOM = { 3 };

    ghost short = { Prim.search rules };

    #[inline(always)]
    fn parts(self) -> (bool, u128) {
        (false, u128::from(self))
    }
}

#[tactic(auto, using(crate::proofs::Rooms::rooms))]
impl Written for u16 {
    const ROOM: usize = 5;

    ghost ROOM = { 5 };

    ghost short = { Prim.search rules };

    #[inline(always)]
    fn parts(self) -> (bool, u128) {
        (false, u128::from(self))
    }
}

#[tactic(auto, using(crate::proofs::Rooms::rooms))]
impl Written for u32 {
    const ROOM: usize = 10;

    ghost ROOM = { 10 };

    ghost short = { Prim.search rules };

    #[inline(always)]
    fn parts(self) -> (bool, u128) {
        (false, u128::from(self))
    }
}

#[tactic(auto, using(crate::proofs::Rooms::rooms))]
impl Written for u64 {
    const ROOM: usize = 20;

    ghost ROOM = { 20 };

    ghost short = { Prim.search rules };

    #[inline(always)]
    fn parts(self) -> (bool, u128) {
        (false, u128::from(self))
    }
}

#[tactic(auto, using(crate::proofs::Rooms::rooms))]
impl Written for u128 {
    const ROOM: usize = 39;

    ghost ROOM = { 39 };

    ghost short = { Prim.search rules };

    #[inline(always)]
    fn parts(self) -> (bool, u128) {
        (false, self)
    }
}

#[tactic(auto, using(crate::proofs::Rooms::rooms))]
impl Written for usize {
    const ROOM: usize = 20;

    ghost ROOM = { 20 };

    ghost short = { Prim.search rules };

    #[inline(always)]
    fn parts(self) -> (bool, u128) {
        (false, self as u128)
    }
}

#[tactic(auto, using(crate::proofs::Rooms::rooms))]
impl Written for i8 {
    const ROOM: usize = 4;

    ghost ROOM = { 4 };

    ghost short = { Prim.search rules };

    #[inline(always)]
    fn parts(self) -> (bool, u128) {
        (self < 0, u128::from(self.unsigned_abs()))
    }
}

#[tactic(auto, using(crate::proofs::Rooms::rooms))]
impl Written for i16 {
    const ROOM: usize = 6;

    ghost ROOM = { 6 };

    ghost short = { Prim.search rules };

    #[inline(always)]
    fn parts(self) -> (bool, u128) {
        (self < 0, u128::from(self.unsigned_abs()))
    }
}

#[tactic(auto, using(crate::proofs::Rooms::rooms))]
impl Written for i32 {
    const ROOM: usize = 11;

    ghost ROOM = { 11 };

    ghost short = { Prim.search rules };

    #[inline(always)]
    fn parts(self) -> (bool, u128) {
        (self < 0, u128::from(self.unsigned_abs()))
    }
}

#[tactic(auto, using(crate::proofs::Rooms::rooms))]
impl Written for i64 {
    const ROOM: usize = 20;

    ghost ROOM = { 20 };

    ghost short = { Prim.search rules };

    #[inline(always)]
    fn parts(self) -> (bool, u128) {
        (self < 0, u128::from(self.unsigned_abs()))
    }
}

#[tactic(auto, using(crate::proofs::Rooms::rooms))]
impl Written for i128 {
    const ROOM: usize = 40;

    ghost ROOM = { 40 };

    ghost short = { Prim.search rules };

    #[inline(always)]
    fn parts(self) -> (bool, u128) {
        (self < 0, self.unsigned_abs())
    }
}

#[tactic(auto, using(crate::proofs::Rooms::rooms))]
impl Written for isize {
    const ROOM: usize = 20;

    ghost ROOM = { 20 };

    ghost short = { Prim.search rules };

    #[inline(always)]
    fn parts(self) -> (bool, u128) {
        (self < 0, self.unsigned_abs() as u128)
    }
}

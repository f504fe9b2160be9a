//! The types of integers that a number is read into.

ghost use Rattle.std.specs.Prelude.{◌≡◌, ℕ, ℤ, ◌^◌, ◌-◌, ◌≤◌, pos, if◌then◌else◌};
ghost use Rattle.digit_integers.specs.Numbers.{signed};

/// A type of integers that are read: `u8` to `u128`, `i8` to `i128`, `usize` and `isize`.
pub trait Integer: Copy {
    /// The greatest number.
    const MAX: u128;

    /// The magnitude of the least number, as 128 of `i8`. It is 0 exactly if the type has no sign.
    const MIN_MAGNITUDE: u128;

    ghost MAX: { ℕ };

    ghost MIN_MAGNITUDE: { ℕ };

    /// The number that a value is.
    ghost number: { Self → ℤ };

    /// The value of a magnitude with its sign. Requires that the type has it.
    fn of_magnitude(is_negative: bool, magnitude: u128) -> Self
        requires { magnitude ≤ (if is_negative then MIN_MAGNITUDE else MAX) }
        ensures { number result ≡ signed is_negative magnitude };
}

impl Integer for u8 {
    const MAX: u128 = u8::MAX as u128;

    const MIN_MAGNITUDE: u128 = 0;

    ghost MAX = { 2 ^ 8 - 1 };

    ghost MIN_MAGNITUDE = { 0 };

    ghost number = { λ x. pos x };

    #[inline(always)]
    fn of_magnitude(_is_negative: bool, magnitude: u128) -> u8 {
        magnitude as u8
    }
}

impl Integer for u16 {
    const MAX: u128 = u16::MAX as u128;

    const MIN_MAGNITUDE: u128 = 0;

    ghost MAX = { 2 ^ 16 - 1 };

    ghost MIN_MAGNITUDE = { 0 };

    ghost number = { λ x. pos x };

    #[inline(always)]
    fn of_magnitude(_is_negative: bool, magnitude: u128) -> u16 {
        magnitude as u16
    }
}

impl Integer for u32 {
    const MAX: u128 = u32::MAX as u128;

    const MIN_MAGNITUDE: u128 = 0;

    ghost MAX = { 2 ^ 32 - 1 };

    ghost MIN_MAGNITUDE = { 0 };

    ghost number = { λ x. pos x };

    #[inline(always)]
    fn of_magnitude(_is_negative: bool, magnitude: u128) -> u32 {
        magnitude as u32
    }
}

impl Integer for u64 {
    const MAX: u128 = u64::MAX as u128;

    const MIN_MAGNITUDE: u128 = 0;

    ghost MAX = { 2 ^ 64 - 1 };

    ghost MIN_MAGNITUDE = { 0 };

    ghost number = { λ x. pos x };

    #[inline(always)]
    fn of_magnitude(_is_negative: bool, magnitude: u128) -> u64 {
        magnitude as u64
    }
}

impl Integer for u128 {
    const MAX: u128 = u128::MAX;

    const MIN_MAGNITUDE: u128 = 0;

    ghost MAX = { 2 ^ 128 - 1 };

    ghost MIN_MAGNITUDE = { 0 };

    ghost number = { λ x. pos x };

    #[inline(always)]
    fn of_magnitude(_is_negative: bool, magnitude: u128) -> u128 {
        magnitude
    }
}

impl Integer for usize {
    const MAX: u128 = usize::MAX as u128;

    const MIN_MAGNITUDE: u128 = 0;

    ghost MAX = { 2 ^ 64 - 1 };

    ghost MIN_MAGNITUDE = { 0 };

    ghost number = { λ x. pos x };

    #[inline(always)]
    fn of_magnitude(_is_negative: bool, magnitude: u128) -> usize {
        magnitude as usize
    }
}

impl Integer for i8 {
    const MAX: u128 = (1 << 7) - 1;

    const MIN_MAGNITUDE: u128 = 1 << 7;

    ghost MAX = { 2 ^ 7 - 1 };

    ghost MIN_MAGNITUDE = { 2 ^ 7 };

    ghost number = { λ x. x };

    #[inline(always)]
    fn of_magnitude(is_negative: bool, magnitude: u128) -> i8 {
        if is_negative {
            -(magnitude as i128) as i8
        } else {
            magnitude as i8
        }
    }
}

impl Integer for i16 {
    const MAX: u128 = (1 << 15) - 1;

    const MIN_MAGNITUDE: u128 = 1 << 15;

    ghost MAX = { 2 ^ 15 - 1 };

    ghost MIN_MAGNITUDE = { 2 ^ 15 };

    ghost number = { λ x. x };

    #[inline(always)]
    fn of_magnitude(is_negative: bool, magnitude: u128) -> i16 {
        if is_negative {
            -(magnitude as i128) as i16
        } else {
            magnitude as i16
        }
    }
}

impl Integer for i32 {
    const MAX: u128 = (1 << 31) - 1;

    const MIN_MAGNITUDE: u128 = 1 << 31;

    ghost MAX = { 2 ^ 31 - 1 };

    ghost MIN_MAGNITUDE = { 2 ^ 31 };

    ghost number = { λ x. x };

    #[inline(always)]
    fn of_magnitude(is_negative: bool, magnitude: u128) -> i32 {
        if is_negative {
            -(magnitude as i128) as i32
        } else {
            magnitude as i32
        }
    }
}

impl Integer for i64 {
    const MAX: u128 = (1 << 63) - 1;

    const MIN_MAGNITUDE: u128 = 1 << 63;

    ghost MAX = { 2 ^ 63 - 1 };

    ghost MIN_MAGNITUDE = { 2 ^ 63 };

    ghost number = { λ x. x };

    #[inline(always)]
    fn of_magnitude(is_negative: bool, magnitude: u128) -> i64 {
        if is_negative {
            -(magnitude as i128) as i64
        } else {
            magnitude as i64
        }
    }
}

impl Integer for i128 {
    const MAX: u128 = (1 << 127) - 1;

    const MIN_MAGNITUDE: u128 = 1 << 127;

    ghost MAX = { 2 ^ 127 - 1 };

    ghost MIN_MAGNITUDE = { 2 ^ 127 };

    ghost number = { λ x. x };

    #[inline(always)]
    fn of_magnitude(is_negative: bool, magnitude: u128) -> i128 {
        if is_negative && magnitude > 0 {
            !((magnitude - 1) as i128)
        } else {
            magnitude as i128
        }
    }
}

impl Integer for isize {
    const MAX: u128 = (1 << 63) - 1;

    const MIN_MAGNITUDE: u128 = 1 << 63;

    ghost MAX = { 2 ^ 63 - 1 };

    ghost MIN_MAGNITUDE = { 2 ^ 63 };

    ghost number = { λ x. x };

    #[inline(always)]
    fn of_magnitude(is_negative: bool, magnitude: u128) -> isize {
        if is_negative {
            -(magnitude as i128) as isize
        } else {
            magnitude as isize
        }
    }
}

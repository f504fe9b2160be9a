//! Numbers by chance, from a seed: splitmix64.

ghost use Rattle.std.specs.Prelude.{◌<◌};

/// A generator.
#[derive(Clone, Copy)]
pub struct Random {
    state: u64,
}

/// A number of which each bit depends on each bit of another.
fn mix(state: u64) -> u64 {
    let x = (state ^ (state >> 30)).wrapping_mul(0xbf58_476d_1ce4_e5b9);
    let x = (x ^ (x >> 27)).wrapping_mul(0x94d0_49bb_1331_11eb);
    x ^ (x >> 31)
}

impl Random {
    /// The generator of a seed, for the document with a number.
    pub fn of(seed: u64, number: u64) -> Random {
        Random {
            state: mix(mix(seed).wrapping_add(number)),
        }
    }

    /// The next 64 bits.
    pub fn bits(&mut self) -> u64 {
        self.state = self.state.wrapping_add(0x9e37_79b9_7f4a_7c15);
        mix(self.state)
    }

    /// A number below another.
    #[inline(always)]
    pub fn below(&mut self, n: u64) -> u64
        requires { 0 < n }
        ensures { result < n }
    {
        // the upper half of the bits as a part of 1, times the number
        let below = (self.bits() >> 32).wrapping_mul(n) >> 32;
        below.min(n - 1)
    }

    /// A number from one to another.
    pub fn between(&mut self, least: u64, most: u64) -> u64 {
        let span = most.saturating_sub(least).saturating_add(1);
        least.saturating_add(self.below(span))
    }

    /// Whether a chance of one in `cases` is drawn.
    pub fn one_in(&mut self, cases: u64) -> bool
        requires { 0 < cases }
    {
        self.below(cases) == 0
    }
}

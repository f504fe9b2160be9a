//! The calls that the benchmark times, as a C library. Each export does one piece of work by the
//! public calls of the libraries. Under a word that isn't supported it answers nothing. A word
//! crosses as its two halves, low and high.
#![tactic(auto)]

mod components;
mod drains;
mod format;
mod forms;
mod json;
mod languages;
mod literals;
mod loops;
mod mostly;
mod numbers;
mod plain;
mod work;

/// What a piece of work came to.
#[repr(C)]
#[derive(Clone, Copy)]
pub struct Outcome {
    /// The sum of the bytes, or the number that they make, as the work says.
    pub value: u64,
    /// What `current_count` answers after the work.
    pub count: u64,
    /// How many looks at a byte were counted, by the two exports that ask; 0 by the others.
    pub looks: u64,
}

impl Outcome {
    /// Of work that asks no looks.
    #[inline(always)]
    fn of(value: u64, count: u64) -> Outcome {
        Outcome {
            value,
            count,
            looks: 0,
        }
    }

    /// Of no work.
    #[inline(always)]
    fn nothing() -> Outcome {
        Outcome::of(0, 0)
    }

    /// Of this work and another.
    #[inline(always)]
    fn with(self, other: Outcome) -> Outcome {
        Outcome {
            value: self.value.wrapping_add(other.value),
            count: self.count.wrapping_add(other.count),
            looks: self.looks.wrapping_add(other.looks),
        }
    }
}

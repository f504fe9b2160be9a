//! One call after the other, all over a text.

ghost use Rattle.std.specs.Prelude.{◌≤◌, length};

/// What a call answered, and where the next one begins.
#[derive(Clone, Copy)]
pub struct Step {
    pub value: u64,
    pub at: usize,
}

impl Step {
    /// After a number: one byte is passed.
    #[inline(always)]
    pub fn read(value: u64, text: &[u8], end: usize) -> Step {
        let at = if end < text.len() {
            end + 1
        } else {
            text.len()
        };
        Step { value, at }
    }

    /// Where there is no number: the byte at its position is passed.
    #[inline(always)]
    pub fn none(text: &[u8], at: usize) -> Step {
        Step::read(1, text, at)
    }
}

/// A call.
pub trait Work: Copy {
    /// Makes it at a position.
    fn step(self, text: &[u8], at: usize) -> Step
        requires { at ≤ length text.now };
}

/// A digest of all answers, and how many there were.
#[repr(C)]
#[derive(Clone, Copy)]
pub struct Told {
    pub value: u64,
    pub count: u64,
}

/// Makes a call from the start of a text to its end.
#[inline(never)]
pub fn run<W: Work>(work: W, text: &[u8]) -> Told {
    let mut told = Told { value: 0, count: 0 };
    let mut at = 0;
    for _ in 0..text.len() {
        if at >= text.len() {
            break;
        }
        let step = work.step(text, at);
        told.value = told.value.wrapping_mul(31).wrapping_add(step.value);
        told.count = told.count.wrapping_add(1);
        at = step.at;
    }
    told
}

/// No such call.
pub fn none() -> Told {
    Told { value: 0, count: 0 }
}

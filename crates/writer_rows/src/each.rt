//! Numbers, written one after another.

ghost use Rattle.std.specs.Prelude.{◌≤◌, length};

/// How one number is written.
pub trait WritesOne: Copy {
    /// A number.
    type Number: Copy;

    /// Writes a number at the front of a slice, and answers its length; 0 where it has no text, or
    /// no room.
    fn write_one(self, value: Self::Number, out: &mut [u8]) -> usize
        ensures within { result ≤ length out.old };
}

/// Writes numbers one after another, with a comma after each, as long as there is room, and answers
/// how many bytes that takes.
#[inline(always)]
pub fn write_each<W: WritesOne>(how: W, values: &[W::Number], out: &mut [u8]) -> usize
    ensures within { result ≤ length out.old }
{
    let mut at = 0;
    for value in values {
        let end = at + how.write_one(*value, &mut out[at..]);
        if end == out.len() {
            return at;
        }
        out[end] = b',';
        at = end + 1;
    }
    at
}

//! What is kept of a piece of a text, for the next one.

ghost use Rattle.std.specs.Prelude.{◌≡◌, ◌≤◌, ◌-◌, length, take, drop};
ghost use Rattle.digits_c.specs.Pieces.{KeepsUnless, is_beyond, kept_outcome};

use super::outcome::{BAD_START, MORE, Outcome, TOO_LONG};

impl Outcome {
    /// Of a piece of which so many bytes are kept, in a room of so many.
    #[inline(always)]
    fn with_kept(self, kept: usize, room: usize) -> Outcome
        ensures { result ≡ kept_outcome self kept room }
    {
        if self.status == MORE && kept == room {
            Outcome::fault(TOO_LONG, self.at)
        } else {
            self
        }
    }
}

/// Moves the bytes from a position up to another one to the front of a room.
#[inline(always)]
fn move_to_front(room: &mut [u8], from: usize, to: usize)
    requires order { from ≤ to }
    requires within { to ≤ length room.old }
    ensures bytes { take (to - from) room.new ≡ take (to - from) (drop from room.old) }
    ensures rest { drop (to - from) room.new ≡ drop (to - from) room.old }
    ensures room { length room.new ≡ length room.old }
{
    room.copy_within(from..to, 0);
}

/// Moves the bytes of a piece from where a list was read no further to the front of the room that
/// the piece is in, and sets the count to theirs. Where the list asks for more, and they fill the
/// room, the number is too long for it.
#[unsafe(no_mangle)]
pub extern "C" fn digits_keep(room: &mut [u8], count: &mut usize, list: Outcome) -> Outcome
    ensures { let beyond = is_beyond list.at count.old (length room.old) in
        KeepsUnless beyond list room.old room.new count.old count.new result }
{
    let to = *count;
    if list.at > to || to > room.len() {
        return Outcome::fault(BAD_START, list.at);
    }
    move_to_front(room, list.at, to);
    *count = to - list.at;
    list.with_kept(*count, room.len())
}

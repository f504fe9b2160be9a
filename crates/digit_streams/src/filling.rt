//! The numbers of a stream, whose bytes come by a window.

ghost use Rattle.std.specs.Prelude.{◌≡◌, true, false, [], ◌-◌, ◌<◌, ◌≤◌, length, map, take, drop, slice_get, IfOk, IfErr, IfSome, IsSome, ℕ};
ghost use Rattle.std.specs.Io.KnownBytes.{Keeps, IsAtEnd};
ghost use Rattle.digit_literals.specs.Lists.{past_blanks};
ghost use Rattle.digit_pieces.specs.Texts.{IsApart};
ghost use Rattle.digit_streams.specs.Windows.{unread, bytes_left};
ghost use Rattle.digit_streams.specs.Streams.{Gives, GoesOn, HasReason, IfEndsFault, IfNoRoom, IsFailure, IsNextByte, IsNoByte, NeedsMore, IsPlace, SkipsBlanks, StandsAfter, UsesKnown, stream_list, list_of_option};

use super::held::{Held, read_held_after, read_held_one};
use super::stream::{StreamEnd, StreamError, StreamRead};
use super::window::Window;
use digit_literals::Gap;
use digit_pieces::Kind;
use std::io::Read;

/// Reads once into a window: whether the reader is at its end.
pub fn fill<R: Read, E: Copy>(
    window: &mut Window<'_>,
    reader: &mut R,
) -> Result<bool, StreamError<E>>
    ensures text { Keeps (bytes_left window.old (R.remaining reader.old))
        (bytes_left window.new (R.remaining reader.new)) }
    ensures position { window.new.position ≡ window.old.position }
    ensures last { IfOk result (λ is_last. is_last ≡ true → IsAtEnd (R.remaining reader.new)) }
    ensures more { IfOk result (λ is_last. is_last ≡ false →
        length (unread window.old) < length (unread window.new)) }
    ensures none { IfOk result (λ is_last. is_last ≡ true →
        length (unread window.new) ≡ length (unread window.old)) }
    ensures failure { IfErr result (λ error. IsFailure error) }
    ensures same { IfErr result (λ error. unread window.new ≡ unread window.old) }
    ensures place { IfErr result (λ error. IsPlace (StreamEnd.Fault error) window.new.position
        (length window.new.buffer.now) (length (unread window.new))) }
    ensures capacity { length window.new.buffer.now ≡ length window.old.buffer.now }
{
    if window.is_full() {
        return Err(StreamError::NoRoom(window.position()));
    }
    match window.fill(reader) {
        Ok(count) => Ok(count == 0),
        Err(kind) => Err(StreamError::Read(kind)),
    }
}

/// Reads the numbers of a stream into a slice, until it is full or there are no more. `is_over`
/// says that the reader is at its end.
pub fn read_stream<K: Kind, R: Read>(
    window: &mut Window<'_>,
    reader: &mut R,
    is_over: &mut bool,
    kind: K,
    gap: Gap,
    out: &mut [K::Number],
) -> StreamRead<K::Error>
    requires valid { K.valid kind }
    requires over { is_over.old ≡ true → IsAtEnd (R.remaining reader.old) }
    ensures over { is_over.new ≡ true → IsAtEnd (R.remaining reader.new) }
    ensures count { result.count ≤ length out.old }
    ensures rest { drop result.count out.new ≡ drop result.count out.old }
    ensures uses { UsesKnown window.old.position window.new.position
        (bytes_left window.old (R.remaining reader.old))
        (bytes_left window.new (R.remaining reader.new)) }
    ensures no_room { IfNoRoom result.end
        (NeedsMore (K.number_at kind) K.none_at (K.has_byte kind) gap (unread window.new)) }
    ensures place { IsPlace result.end window.new.position (length window.new.buffer.now)
        (length (unread window.new)) }
    ensures reason { HasReason (K.number_at kind) K.none_at K.error_at (K.has_byte kind) gap
        result.end window.new.position (unread window.new) }
    ensures onward { IfSome (bytes_left window.old (R.remaining reader.old)) (λ text.
        IsApart (K.has_byte kind) gap →
        let list = stream_list (K.number_at kind) K.none_at K.error_later gap in
        let rest = drop (window.new.position - window.old.position) text in
        StandsAfter (list window.old.position text (length out.old))
        (map K.meaning (take result.count out.new)) result.end
        (λ count. list window.new.position rest (length out.old - count))) }
    ensures capacity { length window.new.buffer.now ≡ length window.old.buffer.now }
    ensures list { IfSome (bytes_left window.old (R.remaining reader.old)) (λ text.
        IsApart (K.has_byte kind) gap →
        Gives (stream_list (K.number_at kind) K.none_at K.error_later gap window.old.position text
        (length out.old)) (map K.meaning (take result.count out.new)) result.end) }
{
    let mut count = 0;
    for turn in 0..u64::MAX {
        let (more, held) = read_held_after(window, kind, gap, *is_over, out, count);
        count += more;
        match held {
            Held::End(end) => return StreamRead { count, end },
            Held::More => match fill(window, reader) {
                Ok(over) => *is_over = over,
                Err(error) => {
                    *is_over = false;
                    return StreamRead {
                        count,
                        end: StreamEnd::Fault(error),
                    };
                }
            },
        }
    }
    StreamRead {
        count,
        end: StreamEnd::Fault(StreamError::TooLong),
    }
}

/// Reads the next number of a stream, if there is one, and why there are no more. `is_over` says
/// that the reader is at its end.
pub fn read_next<K: Kind, R: Read>(
    window: &mut Window<'_>,
    reader: &mut R,
    is_over: &mut bool,
    kind: K,
    gap: Gap,
) -> (Option<K::Number>, StreamEnd<K::Error>)
    requires valid { K.valid kind }
    requires over { is_over.old ≡ true → IsAtEnd (R.remaining reader.old) }
    ensures over { is_over.new ≡ true → IsAtEnd (R.remaining reader.new) }
    ensures uses { UsesKnown window.old.position window.new.position
        (bytes_left window.old (R.remaining reader.old))
        (bytes_left window.new (R.remaining reader.new)) }
    ensures no_room { IfNoRoom result.1
        (NeedsMore (K.number_at kind) K.none_at (K.has_byte kind) gap (unread window.new)) }
    ensures place { IsPlace result.1 window.new.position (length window.new.buffer.now)
        (length (unread window.new)) }
    ensures reason { HasReason (K.number_at kind) K.none_at K.error_at (K.has_byte kind) gap
        result.1 window.new.position (unread window.new) }
    ensures onward { IfEndsFault result.1
        (IfSome (bytes_left window.old (R.remaining reader.old)) (λ text.
        IsApart (K.has_byte kind) gap →
        let list = stream_list (K.number_at kind) K.none_at K.error_later gap in
        let rest = drop (window.new.position - window.old.position) text in
        GoesOn (list window.old.position text 1) [] (list window.new.position rest 1))) }
    ensures fault { (error : StreamError K.Error) → result.1 ≡ StreamEnd.Fault error
        → IsSome result.0 → error ≡ StreamError.TooLong }
    ensures capacity { length window.new.buffer.now ≡ length window.old.buffer.now }
    ensures full { (at : ℕ) → result.1 ≡ StreamEnd.Full at → IsSome result.0 }
    ensures list { IfSome (bytes_left window.old (R.remaining reader.old)) (λ text.
        IsApart (K.has_byte kind) gap →
        Gives (stream_list (K.number_at kind) K.none_at K.error_later gap window.old.position text
        1) (list_of_option K.meaning result.0) result.1) }
{
    for turn in 0..u64::MAX {
        let (number, held) = read_held_one(window, kind, gap, *is_over);
        match held {
            Held::End(end) => return (number, end),
            Held::More => match fill(window, reader) {
                Ok(over) => *is_over = over,
                Err(error) => {
                    *is_over = false;
                    return (None, StreamEnd::Fault(error));
                }
            },
        }
    }
    (None, StreamEnd::Fault(StreamError::TooLong))
}

/// Uses the blanks that are next: the byte after them, if there is one. That isn't used. `is_over`
/// says that the reader is at its end.
pub fn pass_blanks<R: Read, E: Copy>(
    window: &mut Window<'_>,
    reader: &mut R,
    is_over: &mut bool,
    gap: Gap,
) -> Result<Option<u8>, StreamError<E>>
    requires { is_over.old ≡ true → IsAtEnd (R.remaining reader.old) }
    ensures over { is_over.new ≡ true → IsAtEnd (R.remaining reader.new) }
    ensures uses { UsesKnown window.old.position window.new.position
        (bytes_left window.old (R.remaining reader.old))
        (bytes_left window.new (R.remaining reader.new)) }
    ensures next { IfOk result (λ next.
        IfSome (bytes_left window.old (R.remaining reader.old)) (λ text.
        IsNextByte gap text (window.new.position - window.old.position) next)) }
    ensures held { IfOk result (λ next. next ≡ slice_get (unread window.new) 0) }
    ensures blanks { IfErr result (λ error.
        IfSome (bytes_left window.old (R.remaining reader.old)) (λ text.
        SkipsBlanks gap text (window.new.position - window.old.position))) }
    ensures reason { IfErr result (λ error. IsNoByte error window.new.position
        (length window.new.buffer.now) (unread window.new)) }
    ensures capacity { length window.new.buffer.now ≡ length window.old.buffer.now }
{
    for turn in 0..u64::MAX {
        let at = gap.past_blanks(window.unread(), 0);
        if !window.pass(at) {
            return Err(StreamError::TooLong);
        }
        if let Some(byte) = window.unread().first() {
            return Ok(Some(*byte));
        }
        if *is_over {
            return Ok(None);
        }
        match fill(window, reader) {
            Ok(over) => *is_over = over,
            Err(error) => return Err(error),
        }
    }
    Err(StreamError::TooLong)
}

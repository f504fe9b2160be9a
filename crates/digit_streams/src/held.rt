//! The numbers of what a buffer holds.

ghost use Rattle.std.specs.Prelude.{◌≡◌, ℕ, List, true, [], None, ◌+◌, ◌-◌, ◌^◌, ◌≤◌, ◌++◌, length, map, take, drop, IfSome, IfNone, IsSome};
ghost use Rattle.digit_pieces.specs.Texts.{IsApart};
ghost use Rattle.digit_pieces.specs.Pieces.{IfAt};
ghost use Rattle.digit_streams.specs.Windows.{unread};
ghost use Rattle.digit_streams.specs.Streams.{AsksFor, Uses, IfHeldFault, IsHeldPlace, IsTooLong, ReadsOn, stream_list, held_of, reach, reason_held, used, list_of_option};

use super::one::{error_in, read_one};
use super::stream::{StreamEnd, StreamError};
use super::window::Window;
use digit_literals::Gap;
use digit_pieces::{Kind, PieceEnd, read_piece};

/// Why no more of the bytes that a buffer holds was read.
#[derive(Clone, Copy)]
pub enum Held<E> {
    /// More bytes are needed.
    More,
    /// The numbers end so.
    End(StreamEnd<E>),
}

/// Uses the bytes up to the end of a piece. There is none if a position would be above `u64::MAX`.
fn use_piece<K: Kind>(window: &mut Window<'_>, end: PieceEnd<K::Error>) -> Option<Held<K::Error>>
    requires { IfAt end (λ at. at ≤ length (unread window.old)) }
    ensures is { IfSome result (λ held. held ≡ held_of K.error_later window.old.position end) }
    ensures position { IfSome result (λ held.
        window.new.position ≡ window.old.position + used end) }
    ensures unread { IfSome result (λ held.
        unread window.new ≡ drop (used end) (unread window.old)) }
    ensures none { IfNone result (window.new ≡ window.old) }
    ensures past { IfNone result (2 ^ 64 ≤ window.old.position + reach K.error_at end) }
    ensures capacity { length window.new.buffer.now ≡ length window.old.buffer.now }
{
    match end {
        PieceEnd::More(at) => window.pass(at).then_some(Held::More),
        PieceEnd::Full(at) => {
            if !window.pass(at) {
                return None;
            }
            Some(Held::End(StreamEnd::Full(window.position())))
        }
        PieceEnd::Over(at) => {
            if !window.pass(at) {
                return None;
            }
            Some(Held::End(StreamEnd::Over(window.position())))
        }
        PieceEnd::Fault(error) => {
            let position = window.position();
            position.checked_add(K::error_at(error) as u64)?;
            let later = K::error_later(error, position as usize);
            Some(Held::End(StreamEnd::Fault(StreamError::Number(later))))
        }
    }
}

/// Reads the numbers of what a window holds into a slice, and uses their bytes. `is_last` says that
/// the reader is at its end.
fn read_held<K: Kind>(
    window: &mut Window<'_>,
    kind: K,
    gap: Gap,
    is_last: bool,
    out: &mut [K::Number],
) -> (usize, Held<K::Error>)
    requires { K.valid kind }
    ensures count { result.0 ≤ length out.old }
    ensures rest { drop result.0 out.new ≡ drop result.0 out.old }
    ensures uses { Uses window.old.position window.new.position (unread window.old)
        (unread window.new) }
    ensures place { IsHeldPlace result.1 window.new.position
        (IsTooLong (K.number_at kind) K.none_at K.error_at (K.has_byte kind) gap window.new.position
        (unread window.new)) }
    ensures still { IfHeldFault result.1 (window.new.position ≡ window.old.position) }
    ensures capacity { length window.new.buffer.now ≡ length window.old.buffer.now }
    ensures asks { result.1 ≡ Held.More →
        AsksFor (K.number_at kind) K.none_at (K.has_byte kind) gap (unread window.old) is_last
        (length out.old) (map K.meaning (take result.0 out.new))
        (window.new.position - window.old.position) }
    ensures list { (more : List ℕ) → IsApart (K.has_byte kind) gap → (is_last ≡ true → more ≡ []) →
        let list = stream_list (K.number_at kind) K.none_at K.error_later gap in
        ReadsOn (list window.old.position (unread window.old ++ more) (length out.old))
        (map K.meaning (take result.0 out.new)) result.1
        (list window.new.position (unread window.new ++ more) (length out.old - result.0)) }
{
    let read = read_piece(kind, window.unread(), 0, gap, is_last, out);
    match use_piece::<K>(window, read.end) {
        Some(held) => (read.count, held),
        None => {
            let end = StreamEnd::Fault(StreamError::TooLong);
            (read.count, Held::End(end))
        }
    }
}

/// The same, into the part of a slice that begins at `count`.
pub fn read_held_after<K: Kind>(
    window: &mut Window<'_>,
    kind: K,
    gap: Gap,
    is_last: bool,
    out: &mut [K::Number],
    count: usize,
) -> (usize, Held<K::Error>)
    requires valid { K.valid kind }
    requires within { count ≤ length out.old }
    ensures count { count + result.0 ≤ length out.old }
    ensures front { take count out.new ≡ take count out.old }
    ensures rest { drop result.0 (drop count out.new) ≡ drop result.0 (drop count out.old) }
    ensures uses { Uses window.old.position window.new.position (unread window.old)
        (unread window.new) }
    ensures place { IsHeldPlace result.1 window.new.position
        (IsTooLong (K.number_at kind) K.none_at K.error_at (K.has_byte kind) gap window.new.position
        (unread window.new)) }
    ensures still { IfHeldFault result.1 (window.new.position ≡ window.old.position) }
    ensures capacity { length window.new.buffer.now ≡ length window.old.buffer.now }
    ensures asks { result.1 ≡ Held.More →
        AsksFor (K.number_at kind) K.none_at (K.has_byte kind) gap (unread window.old) is_last
        (length out.old - count) (map K.meaning (take result.0 (drop count out.new)))
        (window.new.position - window.old.position) }
    ensures list { (more : List ℕ) → IsApart (K.has_byte kind) gap → (is_last ≡ true → more ≡ []) →
        let list = stream_list (K.number_at kind) K.none_at K.error_later gap in
        let room = length out.old - count in
        ReadsOn (list window.old.position (unread window.old ++ more) room)
        (map K.meaning (take result.0 (drop count out.new))) result.1
        (list window.new.position (unread window.new ++ more) (room - result.0)) }
{
    read_held(window, kind, gap, is_last, &mut out[count..])
}

/// Reads the next number of what a window holds, if there is one, and uses its bytes. `is_last`
/// says that the reader is at its end.
pub fn read_held_one<K: Kind>(
    window: &mut Window<'_>,
    kind: K,
    gap: Gap,
    is_last: bool,
) -> (Option<K::Number>, Held<K::Error>)
    requires { K.valid kind }
    ensures more { result.1 ≡ Held.More → result.0 ≡ None }
    ensures full { (at : ℕ) → result.1 ≡ Held.End (StreamEnd.Full at) → IsSome result.0 }
    ensures fault { (error : StreamError K.Error) → result.1 ≡ Held.End (StreamEnd.Fault error)
        → IsSome result.0 → error ≡ StreamError.TooLong }
    ensures uses { Uses window.old.position window.new.position (unread window.old)
        (unread window.new) }
    ensures place { IsHeldPlace result.1 window.new.position
        (IsTooLong (K.number_at kind) K.none_at K.error_at (K.has_byte kind) gap window.new.position
        (unread window.new)) }
    ensures still { IfHeldFault result.1 (window.new.position ≡ window.old.position) }
    ensures capacity { length window.new.buffer.now ≡ length window.old.buffer.now }
    ensures asks { result.1 ≡ Held.More →
        AsksFor (K.number_at kind) K.none_at (K.has_byte kind) gap (unread window.old) is_last
        1 (list_of_option K.meaning result.0)
        (window.new.position - window.old.position) }
    ensures list { (more : List ℕ) → IsApart (K.has_byte kind) gap → (is_last ≡ true → more ≡ []) →
        let list = stream_list (K.number_at kind) K.none_at K.error_later gap in
        let numbers = list_of_option K.meaning result.0 in
        ReadsOn (list window.old.position (unread window.old ++ more) 1) numbers result.1
        (list window.new.position (unread window.new ++ more) (1 - length numbers)) }
{
    let read = read_one(kind, gap, window.unread(), is_last);
    match use_piece::<K>(window, read.end) {
        Some(held) => (read.number, held),
        None => {
            let end = StreamEnd::Fault(StreamError::TooLong);
            (read.number, Held::End(end))
        }
    }
}

/// Why no number begins in what a window holds, past its blanks. `is_last` says that the reader is
/// at its end. `None` if a number begins there, or may, or if the position of the error is above
/// `u64::MAX`.
pub fn reason_held<K: Kind>(
    window: &Window<'_>,
    kind: K,
    gap: Gap,
    is_last: bool,
) -> Option<K::Error>
    requires { K.valid kind }
    ensures { result ≡ reason_held (K.number_at kind) K.error_at K.error_later (K.has_byte kind)
        gap window.now.position (unread window.now) is_last }
{
    let error = error_in(kind, gap, window.unread(), is_last)?;
    let position = window.position();
    position.checked_add(K::error_at(error) as u64)?;
    Some(K::error_later(error, position as usize))
}

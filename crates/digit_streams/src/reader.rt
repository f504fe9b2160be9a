//! A reader of numbers.

use super::filling::{fill, pass_blanks, read_next, read_stream};
use super::format::Format;
use super::held::reason_held;
use super::stream::{Ended, StreamEnd, StreamError, StreamRead, ended_by, next_of};
use super::window::Window;
use digit_literals::Gap;
use digit_pieces::Kind;
use std::io::Read;
use std::marker::Model;

/// Reads the numbers of any `Read`, such as a file or a socket, through a buffer that you lend:
/// numbers of one kind, with what a gap says between two of them. Call
/// [`next_number`](NumberReader::next_number) until it returns `None`; then
/// [`finish`](NumberReader::finish) says whether anything follows. Takes no memory.
///
/// ```text
/// `1.5\n-2e3\n` by `Floats` and `LINES`: Some(Ok(1.5)), Some(Ok(-2000.0)), None; Ok(())
/// `1\nx` by `Integers` and `LINES`: Some(Ok(1)), None; Err(Trailing(2, Some(Empty(2))))
/// ```
///
/// **The numbers are those of the whole stream**, however the reader cuts it into pieces, if no
/// byte that may be between two numbers may be in one: test that by
/// [`is_apart`](digit_pieces::is_apart). Nothing refuses another kind or gap, and with it a number
/// may be split.
///
/// **A number comes** as soon as the first byte after it is read that is no blank of the gap. A
/// separator is no blank: by `LINES` the line feed is enough, by `COMMAS` it isn't. Where blanks
/// alone separate, as by `WHITESPACE`, the first blank is enough.
///
/// **The buffer** has to hold the longest number, the blanks up to that byte, and one byte more,
/// which the end of the stream needs, too. Otherwise a call returns
/// [`NoRoom`](StreamError::NoRoom).
///
/// **An error stays:** each later call returns it again. But after
/// [`Read`](StreamError::Read) of `WouldBlock` or `TimedOut` the next call goes on; after
/// `Interrupted` the call itself reads again. After `None` each call of `next_number` returns
/// `None`, until `pass_byte` passes a byte, or `fold_enclosed` begins the next list.
///
/// **A number is sure** once the next one came, or `finish` returned `Ok`: of a line `2x` you get
/// 2, and then `None`.
///
/// **To use the reader later**, give a `&mut reader`. It then stands after the bytes of
/// [`unread`](NumberReader::unread): use those first.
#[derive(Drop)]
pub struct NumberReader<'b, K: Kind, R: Read> {
    format: Format<K>,
    reader: R,
    window: Window<'b>,
    is_over: bool,
    ended: Option<Ended<K::Error>>,
}

impl<'b, K: Kind, R: Read> Model for NumberReader<'b, K, R> {
    ghost use Rattle.std.specs.Prelude.{◌≡◌, true, length};
    ghost use Rattle.std.specs.Io.KnownBytes.{IsAtEnd};
    ghost use Rattle.digit_streams.specs.Windows.{unread, bytes_left};
    ghost use Rattle.digit_streams.specs.Streams.{Stream};

    ghost Value = { Stream K K.Error };

    ghost view = { λ r. record {
      kind = r.format.kind;
      gap = r.format.gap;
      position = r.window.position;
      held = unread r.window;
      bytes = bytes_left r.window (R.remaining r.reader);
      capacity = length r.window.buffer.now;
      is_over = r.is_over;
      ended = r.ended;
    } };

    ghost invariant = { λ r. r.is_over ≡ true → IsAtEnd (R.remaining r.reader) };
}

impl<'b, K: Kind, R: Read> NumberReader<'b, K, R> {
    ghost use Rattle.std.specs.Prelude.{◌≡◌, ◌-◌, ◌<◌, ◌≤◌, [], length, map, take, drop, None, Err, IfSome, IfNone, IfOk, IfErr, OnOk, IsSome, ℕ, List, Option, ◌++◌};
    ghost use Rattle.std.specs.Io.KnownBytes.{Keeps};
    ghost use Rattle.digit_literals.specs.Lists.{past_blanks};
    ghost use Rattle.digit_pieces.specs.Texts.{IsApart};
    ghost use Rattle.digit_streams.specs.Streams.{EndsSo, Gives, GoesOn, HasGiven, HasGivenFrom, HasReason, IfEndsFault, IfFault, IfNoFault, IfNoRoom, IfNoRoomOfNext, IfReason, IfTrailing, IsNext, IsNoByte, IsPlace, IsPlaceOfNext, IsUnknown, NeedsMore, Passes, SkipsBlanks, StandsAfter, UsesKnown, stream_list, numbers_of, numbers_of_next, end_by, end_of_next, ended_after, ended_by, next_again, end_again, list_of_option, reason_held, reason_of};

    /// A reader of the numbers of a stream. Requires that the kind is valid.
    pub fn new(reader: R, buffer: &'b mut [u8], kind: K, gap: Gap) -> NumberReader<'b, K, R>
        requires { K.valid kind }
        ensures kind { result.kind ≡ kind }
        ensures gap { result.gap ≡ gap }
        ensures position { result.position ≡ 0 }
        ensures capacity { result.capacity ≡ length buffer.old }
        ensures bytes { result.bytes ≡ R.remaining reader }
        ensures ended { result.ended ≡ None }
        ensures given { let list = stream_list (K.number_at kind) K.none_at K.error_later gap in
            HasGiven (list 0) (R.remaining reader) [] (end_by result.position result.ended)
            result.position result.bytes }
    {
        NumberReader::new_at(reader, buffer, kind, gap, 0)
    }

    /// A reader for a stream of which you have already read some bytes. `offset` is the position of
    /// its next byte. Requires that the kind is valid.
    pub fn new_at(
        reader: R,
        buffer: &'b mut [u8],
        kind: K,
        gap: Gap,
        offset: u64,
    ) -> NumberReader<'b, K, R>
        requires { K.valid kind }
        ensures kind { result.kind ≡ kind }
        ensures gap { result.gap ≡ gap }
        ensures position { result.position ≡ offset }
        ensures capacity { result.capacity ≡ length buffer.old }
        ensures bytes { result.bytes ≡ R.remaining reader }
        ensures ended { result.ended ≡ None }
        ensures given { HasGivenFrom offset offset (stream_list (K.number_at kind) K.none_at
            K.error_later gap) (R.remaining reader) [] (end_by result.position result.ended)
            result.position result.bytes }
    {
        NumberReader {
            format: Format { kind, gap },
            reader,
            window: Window::new(buffer, offset),
            is_over: false,
            ended: None,
        }
    }

    /// The position in the stream of the first byte that no call has used. Where a list is over,
    /// the blanks after its last number are used, too: after the 1 of `1 ]` by
    /// [`COMMAS`](digit_literals::COMMAS) it is 2. After the error [`Number`](StreamError::Number)
    /// of [`read_into`](NumberReader::read_into) it may be before numbers that are already in your
    /// slice: the error has the position of the fault.
    pub fn position(&self) -> u64
        ensures { result ≡ self.now.position }
    {
        self.window.position()
    }

    /// The bytes that the buffer holds from `position()` on. The rest of the stream is still in the
    /// reader.
    pub fn unread(&self) -> &[u8]
        ensures { result.now ≡ self.now.held }
    {
        self.window.unread()
    }

    /// Reads numbers into a slice, until it is full, the list is over, or there is an error. It
    /// writes the numbers into the front of the slice, and leaves its rest as it is.
    ///
    /// If the list was over, or there was an error, then each later call returns that again. But
    /// after [`Read`](StreamError::Read) of `WouldBlock` or `TimedOut` the next call goes on, and
    /// loses no byte.
    pub fn read_into(&mut self, out: &mut [K::Number]) -> StreamRead<K::Error>
        ensures list { IfSome self.old.bytes (λ bytes.
            IsApart (K.has_byte self.old.kind) self.old.gap →
            let list = numbers_of K.number_at K.none_at K.error_later self.old bytes
            (length out.old) in
            Gives list (map K.meaning (take result.count out.new)) result.end) }
        ensures count { result.count ≤ length out.old }
        ensures rest { drop result.count out.new ≡ drop result.count out.old }
        ensures uses { UsesKnown self.old.position self.new.position self.old.bytes
            self.new.bytes }
        ensures no_room { IfNone self.old.ended (IfNoRoom result.end
            (NeedsMore (K.number_at self.old.kind) K.none_at (K.has_byte self.old.kind)
            self.old.gap self.new.held)) }
        ensures place { IfNone self.old.ended (IsPlace result.end self.new.position
            self.new.capacity (length self.new.held)) }
        ensures reason { IfNone self.old.ended (HasReason (K.number_at self.old.kind) K.none_at
            K.error_at (K.has_byte self.old.kind) self.old.gap result.end self.new.position
            self.new.held) }
        ensures onward { IfNone self.old.ended (IfSome self.old.bytes (λ bytes.
            IsApart (K.has_byte self.old.kind) self.old.gap →
            let list = stream_list (K.number_at self.old.kind) K.none_at K.error_later
            self.old.gap in
            let rest = drop (self.new.position - self.old.position) bytes in
            StandsAfter (list self.old.position bytes (length out.old))
            (map K.meaning (take result.count out.new)) result.end
            (λ count. list self.new.position rest (length out.old - count)))) }
        ensures ended { IfNone self.old.ended (self.new.ended ≡ ended_by result.end) }
        ensures again { IfSome self.old.ended (λ end. self.new.ended ≡ self.old.ended) }
        ensures still { IfSome self.old.ended (λ end. self.new.position ≡ self.old.position) }
        ensures kind { self.new.kind ≡ self.old.kind }
        ensures gap { self.new.gap ≡ self.old.gap }
        ensures capacity { self.new.capacity ≡ self.old.capacity }
    {
        if let Some(ended) = self.ended {
            return StreamRead {
                count: 0,
                end: ended.again(),
            };
        }
        let (kind, gap) = (self.format.kind, self.format.gap);
        let read = read_stream(
            &mut self.window,
            &mut self.reader,
            &mut self.is_over,
            kind,
            gap,
            out,
        );
        self.ended = ended_by(read.end);
        read
    }

    /// Reads the next number. It returns `None` if the list is over: no separator follows, or no
    /// number begins where one is optional. [`finish`](NumberReader::finish) says whether the
    /// stream is at its end there.
    ///
    /// If the list was over, or there was an error, then each later call returns that again. But
    /// after [`Read`](StreamError::Read) of `WouldBlock` or `TimedOut` the next call goes on, and
    /// loses no byte.
    pub fn next_number(&mut self) -> Option<Result<K::Number, StreamError<K::Error>>>
        ensures next { IfSome self.old.bytes (λ bytes.
            IsApart (K.has_byte self.old.kind) self.old.gap →
            IsNext K.meaning (numbers_of K.number_at K.none_at K.error_later self.old bytes 1)
            result) }
        ensures uses { UsesKnown self.old.position self.new.position self.old.bytes
            self.new.bytes }
        ensures no_room { IfNone self.old.ended (IfNoRoomOfNext result
            (NeedsMore (K.number_at self.old.kind) K.none_at (K.has_byte self.old.kind)
            self.old.gap self.new.held)) }
        ensures place { IfNone self.old.ended (IsPlaceOfNext result self.new.position
            self.new.capacity (length self.new.held)) }
        ensures end { IfNone self.old.ended (IsPlace
            (end_of_next result self.new.position self.new.ended) self.new.position
            self.new.capacity (length self.new.held)) }
        ensures reason { IfNone self.old.ended (HasReason (K.number_at self.old.kind) K.none_at
            K.error_at (K.has_byte self.old.kind) self.old.gap
            (end_of_next result self.new.position self.new.ended) self.new.position
            self.new.held) }
        ensures list { IfNone self.old.ended (IfSome self.old.bytes (λ bytes.
            IsApart (K.has_byte self.old.kind) self.old.gap →
            let list = stream_list (K.number_at self.old.kind) K.none_at K.error_later
            self.old.gap in
            Gives (list self.old.position bytes 1) (numbers_of_next K.meaning result)
            (end_of_next result self.new.position self.new.ended))) }
        ensures onward { IfNone self.old.ended (IfEndsFault
            (end_of_next result self.new.position self.new.ended)
            (IfSome self.old.bytes (λ bytes.
            IsApart (K.has_byte self.old.kind) self.old.gap →
            let list = stream_list (K.number_at self.old.kind) K.none_at K.error_later
            self.old.gap in
            let rest = drop (self.new.position - self.old.position) bytes in
            GoesOn (list self.old.position bytes 1) [] (list self.new.position rest 1)))) }
        ensures given { (known : Option (List ℕ)) (before : List K.Meaning) →
            IsApart (K.has_byte self.old.kind) self.old.gap →
            let list = stream_list (K.number_at self.old.kind) K.none_at K.error_later
            self.old.gap in
            HasGiven (list 0) known before (end_by self.old.position self.old.ended)
            self.old.position self.old.bytes →
            HasGiven (list 0) known (before ++ numbers_of_next K.meaning result)
            (end_of_next result self.new.position self.new.ended) self.new.position
            self.new.bytes }
        ensures given_from { (start from : ℕ) (known : Option (List ℕ)) (before : List K.Meaning) →
            IsApart (K.has_byte self.old.kind) self.old.gap →
            let list = stream_list (K.number_at self.old.kind) K.none_at K.error_later
            self.old.gap in
            HasGivenFrom start from list known before (end_by self.old.position self.old.ended)
            self.old.position self.old.bytes →
            HasGivenFrom start from list known (before ++ numbers_of_next K.meaning result)
            (end_of_next result self.new.position self.new.ended) self.new.position
            self.new.bytes }
        ensures ended { EndsSo result self.new.ended }
        ensures goes_on { IfNone self.old.ended (self.new.ended
            ≡ ended_by (end_of_next result self.new.position self.new.ended)) }
        ensures again { IfSome self.old.ended (λ ended. result ≡ next_again ended) }
        ensures stays { IfSome self.old.ended (λ ended. self.new.ended ≡ self.old.ended) }
        ensures still { IfSome self.old.ended (λ ended. self.new.position ≡ self.old.position) }
        ensures kind { self.new.kind ≡ self.old.kind }
        ensures gap { self.new.gap ≡ self.old.gap }
        ensures capacity { self.new.capacity ≡ self.old.capacity }
    {
        let (number, end) = self.read_one();
        next_of(number, end)
    }

    /// Skips the gap's blanks, and then `byte` if it comes next: `Ok(true)` says that it did. Use
    /// it for a bracket before or after the numbers. After `Ok(true)` a new list may begin, even
    /// where one had ended. After `Ok(false)` the list stays as it is, and
    /// [`position`](NumberReader::position) is that of the other byte, or of the stream's end.
    ///
    /// ```text
    /// `[1, 2] x` by `Integers` and `COMMAS`: pass_byte(b'[') is Ok(true), and pass_byte(b']')
    /// Ok(false); then 1, 2, None; pass_byte(b']') is Ok(true), and the position 6
    /// `[ ]`: pass_byte(b'[') is Ok(true), and pass_byte(b']') Ok(true)
    /// ```
    ///
    /// A buffer of one byte is enough. If the reader fails, the next call looks on from there.
    /// After an error of the numbers it returns that again.
    pub fn pass_byte(&mut self, byte: u8) -> Result<bool, StreamError<K::Error>>
        ensures passes { IfOk result (λ is. IfSome self.old.bytes (λ bytes.
            Passes self.old.gap byte bytes 0 is (self.new.position - self.old.position))) }
        ensures given { (known : Option (List ℕ)) →
            UsesKnown 0 self.old.position known self.old.bytes → IfOk result (λ is.
            IfSome known (λ text. Passes self.old.gap byte text self.old.position is
            self.new.position)) }
        ensures given_from { (start : ℕ) (known : Option (List ℕ)) →
            UsesKnown start self.old.position known self.old.bytes → IfOk result (λ is.
            IfSome known (λ text. Passes self.old.gap byte text (self.old.position - start) is
            (self.new.position - start))) }
        ensures given_none { (start : ℕ) (known : Option (List ℕ)) →
            UsesKnown start self.old.position known self.old.bytes →
            let list = stream_list (K.number_at self.old.kind) K.none_at K.error_later
            self.old.gap in
            HasGivenFrom start self.new.position list known [] (end_by self.new.position None)
            self.new.position self.new.bytes }
        ensures blanks { IfNoFault self.old.ended (IfErr result (λ error.
            IfSome self.old.bytes (λ bytes.
            SkipsBlanks self.old.gap bytes (self.new.position - self.old.position)))) }
        ensures reason { IfNoFault self.old.ended (IfErr result (λ error. IsNoByte error
            self.new.position self.new.capacity self.new.held)) }
        ensures uses { UsesKnown self.old.position self.new.position self.old.bytes
            self.new.bytes }
        ensures ended { self.new.ended ≡ ended_after result self.old.ended }
        ensures again { IfSome self.old.ended (λ ended.
            IfFault ended (λ error. result ≡ Err error)) }
        ensures still { IfSome self.old.ended (λ ended.
            IfFault ended (λ error. self.new.position ≡ self.old.position)) }
        ensures kind { self.new.kind ≡ self.old.kind }
        ensures gap { self.new.gap ≡ self.old.gap }
        ensures capacity { self.new.capacity ≡ self.old.capacity }
    {
        self.find_byte(byte)
    }

    /// Skips the gap's blanks, such as those after the `]` of an array, which
    /// [`finish`](NumberReader::finish) doesn't skip. Then [`position`](NumberReader::position) is
    /// that of the next byte that is no blank, or of the stream's end. The list stays as it is.
    ///
    /// ```text
    /// `[1] \nx` by `Integers` and `COMMAS`, after `fold_enclosed`: the position is 3, and then 5
    /// ```
    ///
    /// So the position of the next number is known before it is read. A buffer of one byte is
    /// enough. If the reader fails, the next call goes on from there. After an error of the numbers
    /// it returns that again.
    pub fn pass_blanks(&mut self) -> Result<(), StreamError<K::Error>>
        ensures past { OnOk result (IfSome self.old.bytes (λ bytes.
            past_blanks self.old.gap bytes 0 ≡ self.new.position - self.old.position)) }
        ensures given_none { (start : ℕ) (known : Option (List ℕ)) →
            UsesKnown start self.old.position known self.old.bytes →
            let list = stream_list (K.number_at self.old.kind) K.none_at K.error_later
            self.old.gap in
            HasGivenFrom start self.new.position list known [] (end_by self.new.position None)
            self.new.position self.new.bytes }
        ensures blanks { IfNoFault self.old.ended (IfErr result (λ error.
            IfSome self.old.bytes (λ bytes.
            SkipsBlanks self.old.gap bytes (self.new.position - self.old.position)))) }
        ensures reason { IfNoFault self.old.ended (IfErr result (λ error. IsNoByte error
            self.new.position self.new.capacity self.new.held)) }
        ensures uses { UsesKnown self.old.position self.new.position self.old.bytes
            self.new.bytes }
        ensures ended { self.new.ended ≡ self.old.ended }
        ensures again { IfSome self.old.ended (λ ended.
            IfFault ended (λ error. result ≡ Err error)) }
        ensures still { IfSome self.old.ended (λ ended.
            IfFault ended (λ error. self.new.position ≡ self.old.position)) }
        ensures kind { self.new.kind ≡ self.old.kind }
        ensures gap { self.new.gap ≡ self.old.gap }
        ensures capacity { self.new.capacity ≡ self.old.capacity }
    {
        self.skip_blanks()
    }

    /// Checks that nothing follows the numbers: `Ok` means that the stream is at its end. Otherwise
    /// the error is [`Trailing`](StreamError::Trailing), with the position of what follows and the
    /// reason why no number begins there. Call it after the last number, since a list may end
    /// before the stream does: at a letter, or with [`LINES`](digit_literals::LINES) at an empty
    /// line. Blanks after the last number don't count: `1, 2\n` with
    /// [`COMMAS`](digit_literals::COMMAS) is at its end. After an error it returns that error
    /// again.
    ///
    /// ```text
    /// `1.50` by `Enclosed` in `"` and `LINES`: None; Err(Trailing(0, Some(NoOpening(0))))
    /// `1 2` by `Integers` and `COMMAS`: Some(Ok(1)), None; Err(Trailing(2, None))
    /// ```
    ///
    /// What follows in the stream can't change the reason. It is `None` if a number begins there,
    /// or may: it touches the end of what the buffer holds, as the `-` of `1 -` does, and more
    /// bytes may come.
    pub fn finish(&mut self) -> Result<(), StreamError<K::Error>>
        ensures ok { OnOk result (IfSome self.old.bytes (λ bytes. bytes ≡ [])) }
        ensures trailing { IfNoFault self.old.ended (IfErr result (λ error. IfTrailing error (λ at.
            (at ≡ self.old.position)
            × IfSome self.old.bytes (λ bytes. 0 < length bytes)))) }
        ensures reason { IfNoFault self.old.ended (IfErr result (λ error. IfReason error (λ why.
            why ≡ reason_held (K.number_at self.old.kind) K.error_at K.error_later
            (K.has_byte self.old.kind) self.old.gap self.old.position self.new.held
            self.new.is_over))) }
        ensures stays { IfNoFault self.old.ended (IfErr result (λ error. IfReason error (λ why.
            IfSome why (λ told. IfSome self.old.bytes (λ bytes.
            why ≡ reason_of (K.number_at self.old.kind) K.error_at K.error_later self.old.gap
            self.old.position bytes))))) }
        ensures unknown { IfNoFault self.old.ended (IfErr result (λ error. IsUnknown error
            self.old.position self.old.capacity self.old.held)) }
        ensures again { IfSome self.old.ended (λ ended.
            IfFault ended (λ error. result ≡ Err error)) }
        ensures bytes { Keeps self.old.bytes self.new.bytes }
        ensures position { self.new.position ≡ self.old.position }
        ensures ended { self.new.ended ≡ self.old.ended }
        ensures kind { self.new.kind ≡ self.old.kind }
        ensures gap { self.new.gap ≡ self.old.gap }
        ensures capacity { self.new.capacity ≡ self.old.capacity }
    {
        if let Some(Ended::Fault(error)) = self.ended {
            return Err(error);
        }
        let at = self.window.position();
        if !self.window.unread().is_empty() {
            return Err(StreamError::Trailing(at, self.reason()));
        }
        if self.is_over {
            return Ok(());
        }
        let is_over = fill(&mut self.window, &mut self.reader)?;
        self.is_over = is_over;
        if !is_over {
            return Err(StreamError::Trailing(at, self.reason()));
        }
        Ok(())
    }

    /// Why no number begins in what the buffer holds, past its blanks. `None` if a number begins
    /// there, or may, or if the position of the error is above `u64::MAX`.
    fn reason(&self) -> Option<K::Error>
        ensures reason { result ≡ reason_held (K.number_at self.now.kind) K.error_at K.error_later
            (K.has_byte self.now.kind) self.now.gap self.now.position self.now.held
            self.now.is_over }
        ensures stays { IfSome result (λ told. IfSome self.now.bytes (λ bytes.
            result ≡ reason_of (K.number_at self.now.kind) K.error_at K.error_later self.now.gap
            self.now.position bytes)) }
    {
        let (kind, gap) = (self.format.kind, self.format.gap);
        reason_held(&self.window, kind, gap, self.is_over)
    }

    /// Uses the blanks that are next, and then a byte, if it is next: whether it was.
    fn find_byte(&mut self, byte: u8) -> Result<bool, StreamError<K::Error>>
        ensures passes { IfOk result (λ is. IfSome self.old.bytes (λ bytes.
            Passes self.old.gap byte bytes 0 is (self.new.position - self.old.position))) }
        ensures blanks { IfNoFault self.old.ended (IfErr result (λ error.
            IfSome self.old.bytes (λ bytes.
            SkipsBlanks self.old.gap bytes (self.new.position - self.old.position)))) }
        ensures reason { IfNoFault self.old.ended (IfErr result (λ error. IsNoByte error
            self.new.position self.new.capacity self.new.held)) }
        ensures uses { UsesKnown self.old.position self.new.position self.old.bytes
            self.new.bytes }
        ensures ended { self.new.ended ≡ ended_after result self.old.ended }
        ensures again { IfSome self.old.ended (λ ended.
            IfFault ended (λ error. result ≡ Err error)) }
        ensures still { IfSome self.old.ended (λ ended.
            IfFault ended (λ error. self.new.position ≡ self.old.position)) }
        ensures kind { self.new.kind ≡ self.old.kind }
        ensures gap { self.new.gap ≡ self.old.gap }
        ensures capacity { self.new.capacity ≡ self.old.capacity }
    {
        if let Some(Ended::Fault(error)) = self.ended {
            return Err(error);
        }
        let gap = self.format.gap;
        match pass_blanks(&mut self.window, &mut self.reader, &mut self.is_over, gap) {
            Ok(Some(next)) if next == byte => {
                if !self.window.pass(1) {
                    return Err(StreamError::TooLong);
                }
                self.ended = None;
                Ok(true)
            }
            Ok(_) => Ok(false),
            Err(error) => Err(error),
        }
    }

    /// Uses the blanks that are next.
    fn skip_blanks(&mut self) -> Result<(), StreamError<K::Error>>
        ensures past { OnOk result (IfSome self.old.bytes (λ bytes.
            past_blanks self.old.gap bytes 0 ≡ self.new.position - self.old.position)) }
        ensures blanks { IfNoFault self.old.ended (IfErr result (λ error.
            IfSome self.old.bytes (λ bytes.
            SkipsBlanks self.old.gap bytes (self.new.position - self.old.position)))) }
        ensures reason { IfNoFault self.old.ended (IfErr result (λ error. IsNoByte error
            self.new.position self.new.capacity self.new.held)) }
        ensures uses { UsesKnown self.old.position self.new.position self.old.bytes
            self.new.bytes }
        ensures ended { self.new.ended ≡ self.old.ended }
        ensures again { IfSome self.old.ended (λ ended.
            IfFault ended (λ error. result ≡ Err error)) }
        ensures still { IfSome self.old.ended (λ ended.
            IfFault ended (λ error. self.new.position ≡ self.old.position)) }
        ensures kind { self.new.kind ≡ self.old.kind }
        ensures gap { self.new.gap ≡ self.old.gap }
        ensures capacity { self.new.capacity ≡ self.old.capacity }
    {
        if let Some(Ended::Fault(error)) = self.ended {
            return Err(error);
        }
        let gap = self.format.gap;
        match pass_blanks(&mut self.window, &mut self.reader, &mut self.is_over, gap) {
            Ok(_) => {}
            Err(error) => return Err(error),
        }
        Ok(())
    }

    /// Reads the next number, if there is one, and why there are no more.
    fn read_one(&mut self) -> (Option<K::Number>, StreamEnd<K::Error>)
        ensures valid { K.valid self.old.kind }
        ensures list { IfSome self.old.bytes (λ bytes.
            IsApart (K.has_byte self.old.kind) self.old.gap →
            let list = numbers_of K.number_at K.none_at K.error_later self.old bytes 1 in
            Gives list (list_of_option K.meaning result.0) result.1) }
        ensures uses { UsesKnown self.old.position self.new.position self.old.bytes
            self.new.bytes }
        ensures no_room { IfNone self.old.ended (IfNoRoom result.1
            (NeedsMore (K.number_at self.old.kind) K.none_at (K.has_byte self.old.kind)
            self.old.gap self.new.held)) }
        ensures place { IfNone self.old.ended (IsPlace result.1 self.new.position
            self.new.capacity (length self.new.held)) }
        ensures reason { IfNone self.old.ended (HasReason (K.number_at self.old.kind) K.none_at
            K.error_at (K.has_byte self.old.kind) self.old.gap result.1 self.new.position
            self.new.held) }
        ensures onward { IfNone self.old.ended (IfEndsFault result.1
            (IfSome self.old.bytes (λ bytes.
            IsApart (K.has_byte self.old.kind) self.old.gap →
            let list = stream_list (K.number_at self.old.kind) K.none_at K.error_later
            self.old.gap in
            let rest = drop (self.new.position - self.old.position) bytes in
            GoesOn (list self.old.position bytes 1) [] (list self.new.position rest 1)))) }
        ensures full { (at : ℕ) → result.1 ≡ StreamEnd.Full at → IsSome result.0 }
        ensures fault { (error : StreamError K.Error) → result.1 ≡ StreamEnd.Fault error
            → IsSome result.0 → error ≡ StreamError.TooLong }
        ensures ended { IfNone self.old.ended (self.new.ended ≡ ended_by result.1) }
        ensures again { IfSome self.old.ended (λ ended. result ≡ (None, end_again ended)) }
        ensures stays { IfSome self.old.ended (λ ended. self.new.ended ≡ self.old.ended) }
        ensures still { IfSome self.old.ended (λ ended. self.new.position ≡ self.old.position) }
        ensures kind { self.new.kind ≡ self.old.kind }
        ensures gap { self.new.gap ≡ self.old.gap }
        ensures capacity { self.new.capacity ≡ self.old.capacity }
    {
        if let Some(ended) = self.ended {
            return (None, ended.again());
        }
        let (kind, gap) = (self.format.kind, self.format.gap);
        let read = read_next(
            &mut self.window,
            &mut self.reader,
            &mut self.is_over,
            kind,
            gap,
        );
        self.ended = ended_by(read.1);
        read
    }
}

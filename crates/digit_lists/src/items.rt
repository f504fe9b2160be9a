//! Lists of values of one's own, which are read into a slice.

ghost use Rattle.std.specs.Prelude.{◌≡◌, ℕ, ◌≤◌, Bool, List, length, take, Result, IfOk};
ghost use Rattle.digit_literals.specs.Lists.{list_at, Fills, IfFull, IfOver};

use digit_literals::{Gap, ListRead, ReadsOne, read_list_with};
use std::marker::PhantomData;

/// A value of your own that is read from a text, such as a point or a row.
pub trait Item: Copy {
    /// Why there is none.
    type Error: Copy;

    /// The value at a position of a text, and where it ends, or why there is none.
    ghost item_at: { List ℕ → ℕ → Result (Self × ℕ) Self.Error };

    /// The position that an error holds.
    ghost error_at: { Self.Error → ℕ };

    /// Whether an error says that no value begins at a position.
    ghost none_at: { ℕ → Self.Error → Bool };

    /// The value that begins at `start`, and the position after it.
    fn read_item(text: &[u8], start: usize) -> Result<(Self, usize), Self::Error>
        requires within { start ≤ length text.now }
        ensures is { result ≡ item_at text.now start }
        ensures end { IfOk result (λ read. (start ≤ read.1) × (read.1 ≤ length text.now)) };

    /// The position that an error holds.
    fn error_at(error: Self::Error) -> usize
        ensures { result ≡ error_at error };

    /// Whether an error says that no value begins at a position: a list whose gap may trail is over
    /// there. Of a value that is refused, such as one too large, it is `false`.
    fn is_none_at(error: Self::Error, place: usize) -> bool
        ensures { result ≡ none_at place error };
}

/// The values of a type of your own, as a list has them.
#[derive(Clone, Copy)]
pub struct Items<T: Item> {
    of: PhantomData<T>,
}

impl<T: Item> Items<T> {
    /// The values of a type.
    #[inline(always)]
    pub const fn new() -> Items<T> {
        Items { of: PhantomData }
    }
}

impl<T: Item> ReadsOne for Items<T> {
    type Number = T;

    type Error = T::Error;

    ghost Meaning = { T };

    ghost meaning = { λ item. item };

    ghost valid = { λ k. Unit {0} };

    ghost number_at = { λ k text start. T.item_at text start };

    ghost none_at = { T.none_at };

    #[inline(always)]
    fn read_number(self, text: &[u8], start: usize) -> Result<(T, usize), T::Error> {
        T::read_item(text, start)
    }

    #[inline(always)]
    fn is_none_at(error: T::Error, place: usize) -> bool {
        T::is_none_at(error, place)
    }
}

/// Reads values of your own type, as [`read_list`](digit_literals::read_list) reads integers.
/// Requires that `start` is within the text.
///
/// Each is read as by its [`read_item`](Item::read_item), with what `gap` says between two of them.
#[inline(always)]
pub fn read_items<T: Item>(text: &[u8], start: usize, gap: Gap, out: &mut [T]) -> ListRead<T::Error>
    requires within { start ≤ length text.now }
    ensures is { let list = list_at (T.item_at text.now) T.none_at gap text.now
        (length out.old) start in
        Fills (λ item. item) list result out.old out.new }
    ensures front { let list = list_at (T.item_at text.now) T.none_at gap text.now
        (length out.old) start in
        take result.count out.new ≡ list.0 }
    ensures count { result.count ≤ length out.old }
    ensures full { IfFull result.end (λ at. (start ≤ at) × (at ≤ length text.now)) }
    ensures over { IfOver result.end (λ at. (start ≤ at) × (at ≤ length text.now)) }
{
    read_list_with(Items::<T>::new(), text, start, gap, out)
}

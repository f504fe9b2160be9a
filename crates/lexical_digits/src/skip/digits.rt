//! The iterators of the four components. Each holds only a borrowed `Bytes`. Each of its calls is
//! one call on that `Bytes` for its component. The four differ only in the component, and special
//! has no `new` and no `take_n`.

ghost use Rattle.lexical_digits.specs.Iterators.{Makes};

mod exponent;
mod fraction;
mod integer;
mod special;

pub use self::exponent::ExponentDigitsIterator;
pub use self::fraction::FractionDigitsIterator;
pub use self::integer::IntegerDigitsIterator;
pub use self::special::SpecialDigitsIterator;
use super::bytes::Bytes;
use super::component::Component;

impl<'a> Bytes<'a> {
    /// The iterator of the integer over this `Bytes`. It reads from the cursor on and goes on with
    /// the counts. The `Bytes` keeps the cursor and the counts that it reaches.
    ///
    /// A proof that goes on with the `Bytes` after the iterator makes the iterator by the literal
    /// `IntegerDigitsIterator { byte: &mut bytes }`.
    #[inline(always)]
    pub fn integer_iter<'b>(&'b mut self) -> IntegerDigitsIterator<'a, 'b>
        ensures { Makes self.entry result.byte }
    {
        self.read_as(Component::Integer);
        IntegerDigitsIterator { byte: self }
    }

    /// The iterator of the fraction over this `Bytes`. It reads from the cursor on and goes on with
    /// the counts. The `Bytes` keeps the cursor and the counts that it reaches.
    ///
    /// A proof that goes on with the `Bytes` after the iterator makes the iterator by the literal
    /// `FractionDigitsIterator { byte: &mut bytes }`.
    #[inline(always)]
    pub fn fraction_iter<'b>(&'b mut self) -> FractionDigitsIterator<'a, 'b>
        ensures { Makes self.entry result.byte }
    {
        self.read_as(Component::Fraction);
        FractionDigitsIterator { byte: self }
    }

    /// The iterator of the exponent over this `Bytes`. It reads from the cursor on and goes on with
    /// the counts. The `Bytes` keeps the cursor and the counts that it reaches.
    ///
    /// A proof that goes on with the `Bytes` after the iterator makes the iterator by the literal
    /// `ExponentDigitsIterator { byte: &mut bytes }`.
    #[inline(always)]
    pub fn exponent_iter<'b>(&'b mut self) -> ExponentDigitsIterator<'a, 'b>
        ensures { Makes self.entry result.byte }
    {
        self.read_as(Component::Exponent);
        ExponentDigitsIterator { byte: self }
    }

    /// The iterator of a special value over this `Bytes`. It reads from the cursor on and goes on
    /// with the counts. The `Bytes` keeps the cursor and the counts that it reaches.
    ///
    /// A proof that goes on with the `Bytes` after the iterator makes the iterator by the literal
    /// `SpecialDigitsIterator { byte: &mut bytes }`.
    #[inline(always)]
    pub fn special_iter<'b>(&'b mut self) -> SpecialDigitsIterator<'a, 'b>
        ensures { Makes self.entry result.byte }
    {
        self.read_as(Component::Special);
        SpecialDigitsIterator { byte: self }
    }
}

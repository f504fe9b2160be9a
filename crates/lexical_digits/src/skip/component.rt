//! The components of a number.

/// A component of a number. Its flags in the format word say which separators are dropped; its
/// count says how many digits were read.
#[derive(Clone, Copy, Debug, PartialEq, Eq)]
pub enum Component {
    /// The digits before the point.
    Integer,
    /// The digits after the point.
    Fraction,
    /// The digits of the exponent, after its mark and its sign.
    Exponent,
    /// A value that is no number, such as `nan`. It has one flag, which allows
    /// separators anywhere, and no count.
    Special,
}

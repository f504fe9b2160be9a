//! What a form says of its numbers.

ghost use Rattle.std.specs.Prelude.{◌≡◌, IsTrue, IfSome, if◌then◌else◌, true};
ghost use Rattle.digit_floats.specs.Hexadecimal.{IsHexadecimal};
ghost use Rattle.digit_numbers.specs.Forms.{IsForm, is_minus_of, is_plus_of, is_barred, is_prefix_letter, may_be_point, may_mark};
ghost use Rattle.digit_numbers.specs.Forms.{allows_exponent, begins_name, is_always_float, may_be_float};
ghost use Rattle.digit_numbers.specs.Forms.{has_hex, is_pointed_hex, is_always_hex, takes_sign};

use digit_floats::Marks;
use digit_languages::{Language, is_language};
use lexical_format::NumberFormat;

/// How a language or a data format writes numbers: a sign, and an integer or a float. Later 0.1.x
/// may add fields: write one with `..`, from a form that is close.
#[derive(Clone, Copy, Debug, PartialEq, Eq)]
pub struct Form {
    /// The signs that a number may begin with.
    pub signs: Signs,
    /// How integers are written. Their decimal word is the word of floats too.
    pub integers: Language,
    /// Whether a sign may be before a prefix.
    pub signed_prefix: bool,
    /// Whether digits without a point and an exponent are an integer or a float.
    pub whole: Whole,
    /// The byte of the point and the letter of the exponent. Neither may be another part of a
    /// number: see [`is_form`].
    pub marks: Marks,
    /// Another letter of the exponent of a decimal float, such as the `d` of Fortran, if there is
    /// one. A form that has one is read a little slower.
    pub other_mark: Option<u8>,
    /// Where an exponent of a decimal float may be.
    pub exponents: Exponents,
    /// Whether a point needs a digit before it.
    pub needs_integer: bool,
    /// Whether a point needs a digit after it.
    pub needs_fraction: bool,
    /// What may not follow a point that no digit follows.
    pub after_point: AfterPoint,
    /// Whether digits or separators may follow a leading `0` of a float, as in `00.5`. Otherwise
    /// the number is that `0` alone.
    pub float_zeros: bool,
    /// The values that have a name, such as `inf`, if there are any.
    pub specials: Option<Specials>,
    /// The hexadecimal digits, after their prefix, that are a float.
    pub hex_floats: HexFloats,
}

/// Values that have a name. Names are tried, after any sign, before digits. The longest name that
/// matches wins; of equal names, the first.
///
/// If the form's decimal word has the special flag, separators inside of a name are skipped.
#[derive(Clone, Copy, Debug, PartialEq, Eq)]
pub struct Specials {
    /// The values. [`Special::ABSENT`] is in the places that aren't used.
    pub names: [Special; 8],
    /// Whether letters of ASCII may be in either case.
    pub any_case: bool,
}

/// A value that has a name.
#[derive(Clone, Copy, Debug, PartialEq, Eq)]
pub struct Special {
    /// The name, without a sign: the bytes before the first 0, as in `*b"inf\0\0\0\0\0"`. An empty
    /// name never matches.
    pub name: [u8; 8],
    /// What it stands for.
    pub value: SpecialValue,
    /// The sign before it.
    pub sign: NameSign,
}

/// What a name stands for.
#[derive(Clone, Copy, Debug, PartialEq, Eq)]
pub enum SpecialValue {
    /// An infinity. A minus makes it negative.
    Infinity,
    /// The negative infinity, as `##-Inf`. A minus makes it positive.
    NegativeInfinity,
    /// A NaN, with or without a minus. No contract says which bits it has.
    NotANumber,
}

impl Special {
    /// No name.
    pub const ABSENT: Special = Special {
        name: [0; 8],
        value: SpecialValue::NotANumber,
        sign: NameSign::Absent,
    };
}

/// The signs that may be before a name, of those that the form has.
#[derive(Clone, Copy, Debug, PartialEq, Eq)]
pub enum NameSign {
    /// None: `nan` of Go.
    Absent,
    /// A minus, or none: `INF` of XML Schema 1.0.
    Minus,
    /// Either, or none.
    Either,
    /// One: `+inf.0` of Scheme.
    Required,
}

impl NameSign {
    /// Whether a name may be after a sign, or after none.
    #[inline(always)]
    #[tactic(auto, unfolding(crate::specs::Forms::takes_sign))]
    pub(crate) fn takes(self, is_signed: bool, is_minus: bool) -> bool
        ensures { result ≡ takes_sign self is_signed is_minus }
    {
        match self {
            NameSign::Absent => !is_signed,
            NameSign::Minus => !is_signed || is_minus,
            NameSign::Either => true,
            NameSign::Required => is_signed,
        }
    }
}

/// Which hexadecimal digits are a float. They are read with the hexadecimal word of the form's
/// integers. The rules for the point are those of decimal floats. The exponent is a decimal number
/// after `p` or `P`.
#[derive(Clone, Copy, Debug, PartialEq, Eq)]
pub enum HexFloats {
    /// None.
    Absent,
    /// Those with an exponent: `0x1.8p3`.
    Exponent,
    /// Those with a point or an exponent: also `0x1.8`.
    PointOrExponent,
    /// All: also `0x18`.
    Always,
}

/// Where an exponent of a decimal float may be.
#[derive(Clone, Copy, Debug, PartialEq, Eq)]
pub enum Exponents {
    /// Nowhere: an amount of money, or a version.
    Absent,
    /// After a digit of a fraction: `1.0e5` of Erlang, and not `1e5`.
    AfterFraction,
    /// After any digits.
    Anywhere,
}

/// The signs that a number may begin with.
#[derive(Clone, Copy, Debug, PartialEq, Eq)]
pub enum Signs {
    /// None: a minus is an operator.
    Absent,
    /// `-`.
    Minus,
    /// `-` and `+`.
    Either,
}

/// Whether digits without a point and an exponent are an integer or a float.
#[derive(Clone, Copy, Debug, PartialEq, Eq)]
pub enum Whole {
    /// An integer. Above 128 bits it is refused.
    Integer,
    /// An integer. Above 128 bits it is a float, if its first digit isn't 0.
    LargeIsFloat,
    /// A float, by the decimal word. A prefix is read only as `hex_floats` says.
    Float,
}

/// What must not follow a point that has no digit after it. If it does follow, the number ends
/// before the point.
#[derive(Clone, Copy, Debug, PartialEq, Eq)]
pub enum AfterPoint {
    /// No restriction.
    Anything,
    /// A second point, as in the range `1..2`.
    NoPoint,
    /// A second point, or what begins a name, as in `1.max(2)`: `_`, a letter, a byte above ASCII.
    NoPointOrName,
    /// An operator that begins with the point, as in `1./x` of Octave: `*`, `/`, `\`, `^`, `'`.
    NoOperator,
}

impl HexFloats {
    /// Whether there are any.
    #[inline(always)]
    pub(crate) fn exist(self) -> bool
        ensures { result ≡ has_hex self }
    {
        match self {
            HexFloats::Absent => false,
            HexFloats::Exponent | HexFloats::PointOrExponent | HexFloats::Always => true,
        }
    }

    /// Whether digits without an exponent are one, by whether they have a point.
    #[inline(always)]
    pub(crate) fn take_no_exponent(self, is_pointed: bool) -> bool
        ensures { result ≡ (if is_pointed then is_pointed_hex self else is_always_hex self) }
    {
        match self {
            HexFloats::Absent | HexFloats::Exponent => false,
            HexFloats::PointOrExponent => is_pointed,
            HexFloats::Always => true,
        }
    }
}

impl Exponents {
    /// Whether one may follow digits, by whether they have a fraction.
    #[inline(always)]
    pub(crate) fn allow(self, has_fraction: bool) -> bool
        ensures { result ≡ allows_exponent self has_fraction }
    {
        match self {
            Exponents::Absent => false,
            Exponents::AfterFraction => has_fraction,
            Exponents::Anywhere => true,
        }
    }
}

impl Signs {
    /// Whether a byte is a minus that a number may have.
    #[inline(always)]
    pub(crate) fn is_minus(self, byte: u8) -> bool
        ensures { result ≡ is_minus_of self byte }
    {
        match self {
            Signs::Absent => false,
            Signs::Minus | Signs::Either => byte == b'-',
        }
    }

    /// Whether a byte is a plus that a number may have.
    #[inline(always)]
    pub(crate) fn is_plus(self, byte: u8) -> bool
        ensures { result ≡ is_plus_of self byte }
    {
        match self {
            Signs::Absent | Signs::Minus => false,
            Signs::Either => byte == b'+',
        }
    }
}

impl Whole {
    /// Whether digits are always a float.
    #[inline(always)]
    pub(crate) fn is_float(self) -> bool
        ensures { result ≡ is_always_float self }
    {
        match self {
            Whole::Integer | Whole::LargeIsFloat => false,
            Whole::Float => true,
        }
    }

    /// Whether a large integer is a float.
    #[inline(always)]
    pub(crate) fn may_be_float(self) -> bool
        ensures { result ≡ may_be_float self }
    {
        match self {
            Whole::Integer => false,
            Whole::LargeIsFloat | Whole::Float => true,
        }
    }
}

/// Whether a byte may begin a name.
#[inline(always)]
fn begins_name(byte: u8) -> bool
    ensures { result ≡ begins_name byte }
{
    byte == b'_' || byte.is_ascii_alphabetic() || byte >= 128
}

impl AfterPoint {
    /// Whether a byte after a point says that it is none.
    #[inline(always)]
    pub(crate) fn is_barred(self, byte: u8) -> bool
        ensures { result ≡ is_barred self byte }
    {
        match self {
            AfterPoint::Anything => false,
            AfterPoint::NoPoint => byte == b'.',
            AfterPoint::NoPointOrName => byte == b'.' || begins_name(byte),
            AfterPoint::NoOperator => matches!(byte, b'*' | b'/' | b'\\' | b'^' | b'\''),
        }
    }
}

/// Whether a form's hexadecimal floats have a hexadecimal mantissa and a decimal exponent.
#[inline(always)]
fn serves_hex(form: Form) -> bool
    ensures is { IsTrue result → has_hex form.hex_floats ≡ true
        → IfSome form.integers.hexadecimal IsHexadecimal }
    ensures only { (has_hex form.hex_floats ≡ true → IfSome form.integers.hexadecimal IsHexadecimal)
        → IsTrue result }
{
    match form.integers.hexadecimal {
        Some(word) if form.hex_floats.exist() => {
            let format = NumberFormat::new(word);
            format.mantissa_radix() == 16 && format.exponent_radix() == 10
        }
        _ => true,
    }
}

/// Whether a byte is the letter of a prefix that a language has, in either case.
#[inline(always)]
fn is_prefix_letter(language: Language, byte: u8) -> bool
    ensures { result ≡ is_prefix_letter language byte }
{
    (language.binary.is_some() && byte.eq_ignore_ascii_case(&b'b'))
        || (language.octal.is_some() && byte.eq_ignore_ascii_case(&b'o'))
        || (language.hexadecimal.is_some() && byte.eq_ignore_ascii_case(&b'x'))
}

/// Whether a byte may mark an exponent: a letter that is no separator, and says no prefix.
#[inline(always)]
fn may_mark(language: Language, byte: u8) -> bool
    ensures { result ≡ may_mark language byte }
{
    let separator = NumberFormat::new(language.decimal).digit_separator();
    byte.is_ascii_alphabetic()
        && separator != byte
        && separator != byte.to_ascii_uppercase()
        && !is_prefix_letter(language, byte)
}

/// Whether a byte may be the point: no letter, digit, sign or separator.
#[inline(always)]
fn may_be_point(language: Language, byte: u8) -> bool
    ensures { result ≡ may_be_point language byte }
{
    let separator = NumberFormat::new(language.decimal).digit_separator();
    !byte.is_ascii_alphanumeric() && byte != b'+' && byte != b'-' && byte != separator
}

/// Whether the marks of a form are no other part of a number.
#[inline(always)]
fn are_apart(form: Form) -> bool
    ensures is { IsTrue result → (may_be_point form.integers form.marks.point ≡ true)
        × (may_mark form.integers form.marks.exponent ≡ true)
        × IfSome form.other_mark (λ mark. may_mark form.integers mark ≡ true) }
    ensures only { may_be_point form.integers form.marks.point ≡ true →
        may_mark form.integers form.marks.exponent ≡ true →
        IfSome form.other_mark (λ mark. may_mark form.integers mark ≡ true) → IsTrue result }
{
    let has_other = match form.other_mark {
        Some(mark) => may_mark(form.integers, mark),
        None => true,
    };
    has_other
        && may_be_point(form.integers, form.marks.point)
        && may_mark(form.integers, form.marks.exponent)
}

/// Tests whether calls can read numbers with this form. Every named form passes.
///
/// The words of the form are supported, its floats are decimal, or hexadecimal with a decimal
/// exponent, and its marks are no other part of a number, as
/// [`read_number_of`](crate::read_number_of) requires: the point is no letter, digit, sign or
/// separator, and a mark of an exponent is a letter that is neither the separator nor that of a
/// prefix of the form.
#[inline(always)]
pub fn is_form(form: Form) -> bool
    ensures is { IsTrue result → IsForm form }
    ensures only { IsForm form → IsTrue result }
{
    let format = NumberFormat::new(form.integers.decimal);
    is_language(form.integers)
        && format.mantissa_radix() == 10
        && format.exponent_radix() == 10
        && serves_hex(form)
        && are_apart(form)
}

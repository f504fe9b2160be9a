//! The rule by which a component's separators are judged: its fields, its verdict on a byte and on
//! two sides, how a format word gives it, and the bytes that it keeps whatever is around them. It
//! knows no buffer and no cursor.

ghost use Rattle.std.specs.Prelude.{◌≡◌, ◌+◌, ◌<◌, ◌&&◌, if◌then◌else◌, not, Some};
ghost use Rattle.std.specs.List.{list_any};
ghost use Rattle.lexical_format.specs.Word.{bit};
ghost use Rattle.lexical_digits.specs.Separators.{class, is_digit, is_separator, roles, grants, has_flags, IsSupported};
ghost use Rattle.lexical_digits.specs.State.{radix_of, rule_at, special_rule, rule_of, is_special};

use super::component::Component;
use lexical_format::{NumberFormat, char_is_digit_const, digit_value};

/// The bytes that are a component's digits and separators, and the separators that it drops.
///
/// A separator that has another one as its left or right side is kept. Where neither side is a
/// digit, it is both a leading and a trailing separator.
#[derive(Clone, Copy, Debug, PartialEq, Eq)]
pub struct Rule {
    /// The byte that separates digits; zero means that none does.
    pub separator: u8,
    /// The radix of the digits.
    pub radix: u32,
    /// Drops a separator between digits.
    pub internal: bool,
    /// Drops a separator with no digit before it.
    pub leading: bool,
    /// Drops a separator with no digit after it.
    pub trailing: bool,
    /// Judges a run of separators as a single one.
    pub consecutive: bool,
}

/// The class of a position under a rule.
#[derive(Clone, Copy, Debug, PartialEq, Eq)]
pub enum Class {
    /// A digit of the rule's radix.
    Digit,
    /// The rule's separator.
    Separator,
    /// Any other byte, or a position outside of the buffer.
    Other,
}

/// Whether a bit of the word is set.
fn is_set(word: u128, bit_index: u32) -> bool
    requires { bit_index < 128 }
    ensures { result ≡ bit word bit_index }
{
    (word >> bit_index) & 1 == 1
}

/// The radix of a component's digits: the exponent radix for the exponent, and for the other three
/// the mantissa radix.
#[inline(always)]
fn radix_of(word: u128, component: Component) -> u32
    ensures { result ≡ radix_of word component }
{
    let format = NumberFormat::new(word);
    match component {
        Component::Exponent => format.exponent_radix(),
        Component::Integer | Component::Fraction | Component::Special => format.mantissa_radix(),
    }
}

/// The rule of four flags: the internal flag is that bit of the word, and the others follow at
/// distances of three bits.
fn rule_at(word: u128, radix: u32, bit_index: u32) -> Rule
    requires { bit_index < 100 }
    ensures { result ≡ rule_at word radix bit_index }
{
    Rule {
        separator: NumberFormat::new(word).digit_separator(),
        radix,
        internal: is_set(word, bit_index),
        leading: is_set(word, bit_index + 3),
        trailing: is_set(word, bit_index + 6),
        consecutive: is_set(word, bit_index + 9),
    }
}

/// The rule of the special component, whose flag grants everything.
fn special_rule(word: u128, radix: u32) -> Rule
    ensures { result ≡ special_rule word radix }
{
    let format = NumberFormat::new(word);
    let special = format.special_digit_separator();
    Rule {
        separator: format.digit_separator(),
        radix,
        internal: special,
        leading: special,
        trailing: special,
        consecutive: special,
    }
}

impl Rule {
    /// The rule of a component by a format word. The exponent uses the exponent radix, the others
    /// use the mantissa radix. Integer, fraction and exponent have four flags each; special has one
    /// flag, which means all four.
    #[inline(always)]
    pub fn of(word: u128, component: Component) -> Rule
        ensures { result ≡ rule_of word component }
    {
        let radix = radix_of(word, component);
        match component {
            Component::Integer => rule_at(word, radix, 32),
            Component::Fraction => rule_at(word, radix, 33),
            Component::Exponent => rule_at(word, radix, 34),
            Component::Special => special_rule(word, radix),
        }
    }

    /// Whether a byte is a digit of the radix.
    #[tactic(auto, unfolding(crate::specs::Separators::is_digit))]
    #[inline(always)]
    pub fn is_digit(self, byte: u8) -> bool
        ensures { result ≡ is_digit self byte }
    {
        char_is_digit_const(byte, self.radix)
    }

    /// Whether a byte is the separator. A separator of zero means that no byte is one.
    #[tactic(auto, unfolding(crate::specs::Separators::is_separator))]
    #[inline(always)]
    pub fn is_separator(self, byte: u8) -> bool
        ensures { result ≡ is_separator self.separator byte }
    {
        self.separator != 0 && byte == self.separator
    }

    /// Whether any flag is set.
    #[inline(always)]
    pub(crate) fn has_flags(self) -> bool
        ensures { result ≡ has_flags self }
    {
        self.internal || self.leading || self.trailing || self.consecutive
    }

    /// Whether `next` of a component with this rule counts its digits.
    #[inline(always)]
    pub(crate) fn counts(self, component: Component) -> bool
        ensures { result ≡ (not (is_special component) && has_flags self) }
    {
        !matches!(component, Component::Special) && self.has_flags()
    }

    /// How many of that many digits `next` of a component with this rule counts: all or none.
    #[inline(always)]
    pub(crate) fn counted(self, component: Component, digits: usize) -> usize
        ensures { result ≡
            if not (is_special component) && has_flags self then digits else 0 }
    {
        if self.counts(component) { digits } else { 0 }
    }

    /// Whether `next` of a component with this rule counts that byte.
    #[inline(always)]
    pub(crate) fn counts_byte(self, component: Component, byte: u8) -> bool
        ensures { result ≡ ((not (is_special component) && has_flags self) && is_digit self byte) }
    {
        self.counts(component) && self.is_digit(byte)
    }

    /// The class of that byte.
    #[inline(always)]
    pub(crate) fn class_of(self, byte: u8) -> Class
        ensures { result ≡ class self (Some byte) }
    {
        if self.is_digit(byte) {
            Class::Digit
        } else if self.is_separator(byte) {
            Class::Separator
        } else {
            Class::Other
        }
    }

    /// Whether a separator with these sides has a role that is granted.
    #[inline(always)]
    pub(crate) fn drops(self, left: Class, right: Class) -> bool
        ensures { result ≡ list_any (grants self) (roles left right) }
    {
        match (left, right) {
            (Class::Digit, Class::Digit) => self.internal,
            (Class::Other, Class::Digit) => self.leading,
            (Class::Digit, Class::Other) => self.trailing,
            (Class::Other, Class::Other) => self.leading || self.trailing,
            _ => false,
        }
    }
}

/// The direct bytes: a component takes them whatever is around them. They are its digits, or
/// all bytes where it has no flags.
#[derive(Clone, Copy)]
pub(super) struct Shortcuts {
    /// A byte is direct if its value is below this one: the radix, or 255 where every byte is.
    direct_below: u8,
    /// The separator that is dropped between two digits, and at least 256 where there is none.
    pub(super) inner_separator: u16,
}

impl Shortcuts {
    ghost use Rattle.lexical_digits.specs.Fields.Shortcuts.{is_direct_by, AreShortcuts, IsInner};

    /// The shortcuts of a rule, by a reader that counts its digits or doesn't.
    #[tactic(auto, unfolding(crate::specs::Separators::is_separator))]
    #[inline(always)]
    pub(super) fn of(rule: Rule, is_counting: bool) -> Shortcuts
        requires { IsSupported rule }
        ensures direct { AreShortcuts rule result }
        ensures inner { result.inner_separator < 256
            → IsInner rule is_counting result.inner_separator }
    {
        let direct_below = if rule.has_flags() {
            rule.radix as u8
        } else {
            255
        };
        let has_inner = is_counting && rule.internal && rule.separator != 0;
        Shortcuts {
            direct_below,
            // a sum, which a compiler doesn't take apart at each byte
            inner_separator: rule.separator as u16 + if has_inner { 0 } else { 256 },
        }
    }

    /// Whether the byte is direct.
    #[inline(always)]
    pub(super) fn is_direct(self, byte: u8) -> bool
        ensures value { result ≡ is_direct_by self byte }
        ensures fits { byte < 256 }
    {
        digit_value(byte) < self.direct_below
    }
}

//! Reads a line of the input as a request.

ghost use Rattle.std.specs.Prelude.{◌≡◌, ◌≤◌, ◌==◌, ℕ, List, length, position, option_map};
ghost use Rattle.digit_requests.specs.Line as Line;

use lexical_digits::skip::Component;
use lexical_format::{DECIMAL, DigitSeparatorFlags, NumberFormatBuilder};

/// The request of a line: the drain of a text by the iterator of a component, under the word of a
/// format in which no other component has a flag.
#[derive(Clone, Copy, Debug, PartialEq, Eq)]
pub struct Request<'a> {
    pub component: Component,
    pub format: NumberFormatBuilder,
    pub text: &'a [u8],
}

fn find(bytes: &[u8], mark: u8) -> Option<usize>
    ensures { result ≡ position (λ byte. byte == mark) bytes.now }
{
    bytes.iter().position(|byte| *byte == mark)
}

/// The bytes before the first `mark`, and the bytes after it. `None` if there is no `mark`.
pub fn cut(bytes: &[u8], mark: u8) -> Option<(&[u8], &[u8])>
    ensures { Line.cut mark bytes.now ≡ option_map (λ parts. (parts.0.now, parts.1.now)) result }
{
    let i = find(bytes, mark)?;
    Some((&bytes[..i], &bytes[i + 1..]))
}

fn read_component(field: &[u8]) -> Option<Component>
    ensures { result ≡ Line.component_of field.now }
{
    if field == b"integer".as_slice() {
        Some(Component::Integer)
    } else if field == b"fraction".as_slice() {
        Some(Component::Fraction)
    } else if field == b"exponent".as_slice() {
        Some(Component::Exponent)
    } else if field == b"special".as_slice() {
        Some(Component::Special)
    } else {
        None
    }
}

/// The number that at most three digits write, if it is at most 255.
fn read_number(field: &[u8], radix: u32) -> Option<u8>
    requires few { length field.now ≤ 3 }
    requires from_two { 2 ≤ radix }
    requires to_sixteen { radix ≤ 16 }
    ensures { result ≡ Line.number_of radix field.now }
{
    let mut value = 0;
    for byte in field {
        value = value * radix + char::from(*byte).to_digit(radix)?;
    }
    u8::try_from(value).ok()
}

fn read_decimal(field: &[u8]) -> Option<u8>
    ensures { result ≡ Line.decimal_of field.now }
{
    if field.is_empty() || field.len() > 3 {
        return None;
    }
    read_number(field, 10)
}

fn read_hexadecimal(field: &[u8]) -> Option<u8>
    ensures { result ≡ Line.hexadecimal_of field.now }
{
    if field.len() != 2 {
        return None;
    }
    read_number(field, 16)
}

/// The mantissa's radix and the exponent's. If one is missing, it is the exponent's, and zero.
#[tactic(auto, unfolding(crate::specs::Line::radixes_of))]
fn read_radixes(field: &[u8]) -> Option<(u8, u8)>
    ensures { result ≡ Line.radixes_of field.now }
{
    match cut(field, b'/') {
        None => Some((read_decimal(field)?, 0)),
        Some((mantissa, exponent)) => Some((read_decimal(mantissa)?, read_decimal(exponent)?)),
    }
}

fn has_letter(field: &[u8], letter: u8) -> bool
    ensures { result ≡ Line.has_letter letter field.now }
{
    field.iter().any(|byte| *byte == letter)
}

fn is_flag_letter(byte: u8) -> bool
    ensures { result ≡ Line.is_flag_letter byte }
{
    byte == b'I' || byte == b'L' || byte == b'T' || byte == b'C'
}

/// Whether the bytes are letters of a number's flags, none of them twice.
fn are_flag_letters(field: &[u8]) -> bool
    ensures { result ≡ Line.are_flag_letters field.now }
{
    let mut rest = field;
    while !rest.is_empty() {
        let letter = rest[0];
        rest = &rest[1..];
        if !is_flag_letter(letter) || has_letter(rest, letter) {
            return false;
        }
    }
    true
}

/// One or more of the letters `I`, `L`, `T` and `C`, none of them twice, in any order.
fn read_number_flags(field: &[u8]) -> Option<DigitSeparatorFlags>
    ensures { result ≡ Line.number_flags_of field.now }
{
    if field.is_empty() || !are_flag_letters(field) {
        return None;
    }
    Some(DigitSeparatorFlags {
        internal: has_letter(field, b'I'),
        leading: has_letter(field, b'L'),
        trailing: has_letter(field, b'T'),
        consecutive: has_letter(field, b'C'),
    })
}

/// The decimal format in which a component has these flags.
fn read_flags(component: Component, field: &[u8]) -> Option<NumberFormatBuilder>
    ensures { result ≡ Line.flags_of component field.now }
{
    let mut format = DECIMAL;
    if field == b"-".as_slice() {
        return Some(format);
    }
    match component {
        Component::Integer => format.integer = read_number_flags(field)?,
        Component::Fraction => format.fraction = read_number_flags(field)?,
        Component::Exponent => format.exponent = read_number_flags(field)?,
        Component::Special if field == b"S".as_slice() => format.special = true,
        Component::Special => return None,
    }
    Some(format)
}

/// Reads a line, without its line feed, as a request. `None` if it is not one.
#[tactic(auto, unfolding(crate::specs::Line::request_of))]
pub fn read_request(line: &[u8]) -> Option<Request<'_>>
    ensures { Line.request_of line.now ≡ option_map Line.asked_by result }
{
    let (component, rest) = cut(line, b' ')?;
    let (radixes, rest) = cut(rest, b' ')?;
    let (separator, rest) = cut(rest, b' ')?;
    let (flags, text) = cut(rest, b' ')?;
    let component = read_component(component)?;
    let (mantissa_radix, exponent_radix) = read_radixes(radixes)?;
    let digit_separator = read_hexadecimal(separator)?;
    let format = NumberFormatBuilder {
        mantissa_radix,
        exponent_radix,
        digit_separator,
        ..read_flags(component, flags)?
    };
    Some(Request {
        component,
        format,
        text,
    })
}

/// The law of [`read_request`]: a line is read as a request exactly if it is spelled as one.
pub fn read_is_spelled()
    ensures read { (line : List ℕ) (asked : Line.Asked) →
        Line.request_of line ≡ Some asked → Line.Spells line asked }
    ensures spelled { (line : List ℕ) (asked : Line.Asked) →
        Line.Spells line asked → Line.request_of line ≡ Some asked }
{}

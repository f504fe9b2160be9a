//! Source code of many languages: a lexer that passes names and signs, and reads literals by a form
//! or a language that is known only at run time.

ghost use Rattle.std.specs.Prelude.{◌≤◌, ◌<◌, length};
ghost use Rattle.digits.specs.Words.{IsForm, IsLanguage};

use super::page::Page;
use super::tally::Tally;
use super::work::Work;
use digits::{
    BLANKS, Form, Language, LanguageError, NumberError, byte_at, form_of, forms, languages,
    name_end, past_bytes, read_literal, read_number_of,
};
use std::alloc::{AllocError, Global};

/// How many bytes a document has, about.
const SIZE: usize = 393_216;

/// The byte that begins a file.
const FILE: u8 = 2;

/// In a revision a literal of one digit becomes one of these: a zero as often as before.
const ONE_DIGIT: [u8; 16] = *b"0000123456789123";

/// The decimal digits, some of them twice.
const DIGITS: [u8; 16] = *b"0123456789123456";

/// The first digit of a decimal literal.
const FIRST_DIGITS: [u8; 16] = *b"1234567891234567";

/// The digits that no octal literal has.
const NOT_OCTAL: [u8; 16] = *b"8989898989898989";

/// The digits of a binary literal.
const BITS: [u8; 16] = *b"0101010101010101";

/// The digits of a hexadecimal literal.
const HEXADECIMAL: [u8; 16] = *b"0123456789abcdef";

/// The letters of a prefix that no digit follows.
const PREFIXES: [u8; 16] = *b"xXbBoOxXbBoOxXbB";

/// Documents of source code. Digits from 2 to 7 are changed, so that binary and octal literals stay
/// what they are; of a literal without such a digit each digit is replaced by one of its radix.
pub struct Sources;

impl Work for Sources {
    const FIRST: u8 = b'2';

    const TURNED: u8 = 6;

    fn write(page: &mut Page) -> Result<(), AllocError> {
        for _ in 0..SIZE {
            if page.len() >= SIZE {
                break;
            }
            write_file(page)?;
        }
        Ok(())
    }

    fn read(_alloc: Global, text: &[u8], tally: &mut Tally) -> Result<(), AllocError> {
        let mut at = 0;
        for _ in 0..text.len() {
            if at >= text.len() {
                break;
            }
            at = read_file(text, at, tally);
        }
        Ok(())
    }
}

/// The separator of a form, by its number; 0 for none.
fn separator_of_form(number: u64) -> u8 {
    match number {
        3 | 4 | 17 | 18 | 23 | 24 | 26 | 30 | 33..=37 => 0,
        5 | 6 => b'\'',
        _ => b'_',
    }
}

/// The separator of a language, by its number; 0 for none.
fn separator_of_language(number: u64) -> u8 {
    match number {
        0 | 1 => 0,
        2 => b'\'',
        _ => b'_',
    }
}

/// Adds a file: the byte that begins it, a letter for form or language, and a byte for its number.
fn write_file(page: &mut Page) -> Result<(), AllocError> {
    page.byte(FILE)?;
    let separator = if page.random.below(3) == 0 {
        let number = page.random.below(12);
        page.byte(b'L')?;
        page.byte(b'@' + number as u8)?;
        separator_of_language(number)
    } else {
        let number = page.random.below(36) + 2;
        page.byte(b'F')?;
        page.byte(b'@'.wrapping_add(number as u8))?;
        separator_of_form(number)
    };
    let lines = page.random.between(120, 480);
    for _ in 0..lines {
        write_statement(page, separator)?;
    }
    Ok(())
}

/// Adds a name.
fn write_name(page: &mut Page) -> Result<(), AllocError> {
    page.one_of(&[
        "x", "i", "count", "total", "value", "width_of", "y", "buffer", "n", "index", "k",
        "max_len", "a1", "node", "j", "at", "f", "state", "mask", "Point",
    ])
}

/// Adds an operator.
fn write_sign(page: &mut Page) -> Result<(), AllocError> {
    page.one_of(&[
        " + ", " - ", "*", ", ", "[", "] = ", " << ", ", ", "(", ") & ", ", ", "/",
    ])
}

/// Adds a line of code, or a comment or a string without literals.
fn write_statement(page: &mut Page, separator: u8) -> Result<(), AllocError> {
    page.one_of(&["    ", "        ", "  ", "", "    "])?;
    if page.random.one_in(16) {
        return page.one_of(&[
            "// the rest is read again\n",
            "log(\"no value was found\");\n",
            "}\n",
            "\n",
            "if done { break; }\n",
        ]);
    }
    page.one_of(&["let ", "", "const ", "", "", "if "])?;
    write_name(page)?;
    page.bytes(b" = ")?;
    let terms = page.random.between(1, 6);
    for _ in 0..terms {
        if page.random.below(5) < 4 {
            write_literal(page, separator)?;
        } else {
            write_name(page)?;
        }
        write_sign(page)?;
    }
    write_literal(page, separator)?;
    page.bytes(b";\n")
}

/// Adds the separator, if there is one.
fn write_separator(page: &mut Page, separator: u8) -> Result<(), AllocError> {
    if separator == 0 {
        return Ok(());
    }
    page.byte(separator)
}

/// Adds an integer in groups of three.
fn write_groups(page: &mut Page, separator: u8) -> Result<(), AllocError> {
    page.some_digits(1, 3)?;
    let groups = page.random.between(1, 3);
    for _ in 0..groups {
        write_separator(page, separator)?;
        page.any_digits(3)?;
    }
    Ok(())
}

/// Lets each revision change the decimal literal that begins at a position, if no digit of it is
/// changed anyway, or if it has only one.
fn free_decimal(page: &mut Page, start: usize) -> Result<(), AllocError> {
    if page.len().saturating_sub(start) == 1 {
        return page.free(start, ONE_DIGIT);
    }
    if page.turned(start) == 0 {
        page.free(start, FIRST_DIGITS)?;
        page.free(start.saturating_add(1), DIGITS)?;
    }
    Ok(())
}

/// Lets each revision change the literal with a prefix that begins at a position, if no digit of it
/// is changed anyway.
fn free_prefixed(page: &mut Page, start: usize) -> Result<(), AllocError> {
    if page.turned(start) > 0 {
        return Ok(());
    }
    let digits = start.saturating_add(2);
    match byte_at(page.text(), start.saturating_add(1)) {
        Some(b'b') => page.free(digits, BITS),
        Some(b'x') => page.free(digits, HEXADECIMAL),
        _ => Ok(()),
    }
}

/// Adds a fault. In a revision `0b2` may be a literal, such as `0x2`.
fn write_fault(page: &mut Page) -> Result<(), AllocError> {
    let start = page.len();
    page.one_of(&["1__0", "0x", "1_", "09", "0b2", "1e", "0x_", "7''7"])?;
    if byte_at(page.text(), start) == Some(b'0') {
        page.free(start, NOT_OCTAL)?;
        page.free(start, PREFIXES)
    } else {
        free_decimal(page, start)
    }
}

/// Adds an integer with a prefix.
fn write_prefixed(page: &mut Page, separator: u8) -> Result<(), AllocError> {
    let start = page.len();
    match page.random.below(12) {
        0 | 1 => page.one_of(&["0b1010", "0b1", "0b1100", "0b0"])?,
        2 => page.one_of(&["0o17", "0o755", "0o644", "0o2"])?,
        3 => page.one_of(&["017", "0644", "0777"])?,
        4..=6 => page.one_of(&["0xff", "0x7f", "0x0", "0xF0", "0x10"])?,
        _ => {
            page.one_of(&["0xdead", "0x12ab", "0xC0DE", "0x3fff", "0x00ff"])?;
            if page.random.one_in(2) {
                write_separator(page, separator)?;
                page.one_of(&["beef", "5678", "0000", "ffff"])?;
            }
        }
    }
    free_prefixed(page, start)?;
    if page.random.one_in(4) {
        page.one_of(&["_u8", "u", "_u32", "L", "n"])?;
    }
    Ok(())
}

/// Adds a float.
fn write_float(page: &mut Page, separator: u8) -> Result<(), AllocError> {
    let start = page.len();
    if page.random.one_in(6) {
        write_groups(page, separator)?;
    } else {
        page.some_digits(1, 3)?;
    }
    page.places(1, 4)?;
    if page.random.one_in(4) {
        page.one_of(&["e", "e-", "E+"])?;
        page.some_digits(1, 2)?;
    }
    free_decimal(page, start)?;
    if page.random.one_in(4) {
        page.one_of(&["f", "f32", "d"])?;
    }
    Ok(())
}

/// Adds a literal, or one that is none.
fn write_literal(page: &mut Page, separator: u8) -> Result<(), AllocError> {
    let start = page.len();
    let case = page.random.below(60);
    match case {
        0 => return write_fault(page),
        1 => page.digits(40)?,
        2..=4 => page.byte(b'0')?,
        5..=9 => write_groups(page, separator)?,
        10..=19 => return write_prefixed(page, separator),
        20..=28 => return write_float(page, separator),
        29..=31 => page.some_digits(1, 3)?,
        32..=49 => page.some_digits(1, 2)?,
        _ => page.some_digits(3, 6)?,
    }
    free_decimal(page, start)?;
    if case >= 29 && case <= 31 {
        page.one_of(&["u32", "L", "i64", "u8"])?;
    }
    Ok(())
}

/// A form by its number, which no compiler knows.
#[inline(never)]
fn run_time_form(number: usize) -> Form
    ensures { IsForm result }
{
    match form_of(number) {
        Some(form) => form,
        None => forms::RUST,
    }
}

/// A language by its number, which no compiler knows.
#[inline(never)]
fn run_time_language(number: usize) -> Language
    ensures { IsLanguage result }
{
    match number {
        0 => languages::C,
        1 => languages::DIGITS,
        2 => languages::CXX14,
        3 => languages::RUST,
        4 => languages::PYTHON,
        5 => languages::GO,
        6 => languages::JAVA,
        7 => languages::JAVASCRIPT,
        8 => languages::RUBY,
        9 => languages::OCAML,
        10 => languages::D,
        _ => languages::PERL,
    }
}

/// Folds an error of a number.
fn refuse(error: NumberError, tally: &mut Tally) {
    match error {
        NumberError::Empty(at) => tally.refuse(1, at),
        NumberError::Overflow(at) => tally.refuse(2, at),
        NumberError::Invalid(at) => tally.refuse(3, at),
    }
}

/// Folds an error of a literal.
fn refuse_literal(error: LanguageError, tally: &mut Tally) {
    match error {
        LanguageError::Empty(at) => tally.refuse(4, at),
        LanguageError::Overflow(at) => tally.refuse(5, at),
        LanguageError::Zero(at) => tally.refuse(6, at),
    }
}

/// Reads the number here by a form. Answers where it and its suffix end.
#[inline(always)]
fn read_by_form(text: &[u8], at: usize, form: Form, tally: &mut Tally) -> usize
    requires within { at < length text.now }
    requires form { IsForm form }
    ensures { result ≤ length text.now }
{
    match read_number_of::<f64>(text, at, form) {
        Ok((number, end)) => {
            tally.number(number, end);
            name_end(text, end)
        }
        Err(error) => {
            refuse(error, tally);
            name_end(text, at + 1)
        }
    }
}

/// Reads the literal here of a language. Answers where it and its suffix end.
#[inline(always)]
fn read_by_language(text: &[u8], at: usize, language: Language, tally: &mut Tally) -> usize
    requires within { at < length text.now }
    requires language { IsLanguage language }
    ensures { result ≤ length text.now }
{
    match read_literal(text, at, language, u128::MAX) {
        Ok(literal) => {
            tally.word(literal.word, literal.digits);
            tally.wide(literal.value, literal.end);
            name_end(text, literal.end)
        }
        Err(error) => {
            refuse_literal(error, tally);
            name_end(text, at + 1)
        }
    }
}

/// Passes what is here and no number: a name, blanks, or one byte.
#[inline(always)]
fn past_other(text: &[u8], at: usize, byte: u8) -> usize
    requires { at < length text.now }
    ensures { result ≤ length text.now }
{
    if byte == b' ' || byte == b'\n' {
        past_bytes(text, at + 1, BLANKS)
    } else if byte.is_ascii_alphabetic() || byte == b'_' {
        name_end(text, at + 1)
    } else {
        at + 1
    }
}

/// Reads a file by a form, up to the next file.
fn read_form_file(text: &[u8], start: usize, form: Form, tally: &mut Tally) -> usize
    requires { IsForm form }
{
    let mut at = start;
    let mut steps = 0u64;
    for _ in 0..text.len() {
        let Some(byte) = byte_at(text, at) else {
            break;
        };
        if byte == FILE {
            break;
        }
        at = if byte.is_ascii_digit() {
            read_by_form(text, at, form, tally)
        } else {
            past_other(text, at, byte)
        };
        steps = steps.wrapping_add(1);
    }
    tally.fold_with(steps, at);
    at
}

/// Reads a file of a language, up to the next file.
fn read_language_file(text: &[u8], start: usize, language: Language, tally: &mut Tally) -> usize
    requires { IsLanguage language }
{
    let mut at = start;
    let mut steps = 0u64;
    for _ in 0..text.len() {
        let Some(byte) = byte_at(text, at) else {
            break;
        };
        if byte == FILE {
            break;
        }
        at = if byte.is_ascii_digit() {
            read_by_language(text, at, language, tally)
        } else {
            past_other(text, at, byte)
        };
        steps = steps.wrapping_add(1);
    }
    tally.fold_with(steps, at);
    at
}

/// Reads the file that begins here. Answers where it ends.
fn read_file(text: &[u8], at: usize, tally: &mut Tally) -> usize
    requires { at < length text.now }
{
    let kind = byte_at(text, at + 1).unwrap_or(0);
    let letter = byte_at(text, (at + 1).saturating_add(1)).unwrap_or(0);
    let number = usize::from(letter.wrapping_sub(b'@'));
    let start = (at + 1).saturating_add(2);
    if kind == b'L' {
        read_language_file(text, start, run_time_language(number), tally)
    } else {
        read_form_file(text, start, run_time_form(number), tally)
    }
}

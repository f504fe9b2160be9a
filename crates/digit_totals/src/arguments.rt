//! What the arguments of the program ask for.

ghost use Rattle.std.specs.Prelude.{◌≡◌, ◌==◌, ◌+◌, ◌≤◌, ◌<◌, map, position, IfOk, IfSome};
ghost use Rattle.digit_totals.specs.Arguments as Arguments;
ghost use Rattle.digit_totals.specs.Value.{HasFewPlaces, MayServe};

use super::options::{Column, FloatOptions, Kind, Options, Request};
use super::search::find;
use digit_integers::parse_number;
use lexical_format::STANDARD;
use std::alloc::{AllocError, Allocator};

/// An option.
#[derive(Clone, Copy, Debug, PartialEq, Eq)]
pub enum Name {
    Column,
    Separator,
    Csv,
    Places,
    Underscores,
    Floats,
    Header,
    Help,
}

/// Why the arguments ask for nothing. Arguments count from 1.
#[derive(Clone, Copy, Debug, PartialEq, Eq)]
pub enum UsageError {
    /// This argument is no option.
    Unknown(usize),
    /// This option was given before.
    Twice(usize),
    /// This option, the last argument, has no value.
    NoValue(usize),
    /// This argument is no value of the option before it.
    BadValue(usize),
    /// There is a separator, and no column.
    NoColumn,
    /// Quotes are read, and there is no column.
    NoCsvColumn,
    /// The numbers are floats, and have a number of places.
    FloatPlaces,
}

/// What the first arguments set.
#[derive(Clone, Copy, Debug, PartialEq, Eq)]
pub struct Settings {
    pub column: Option<usize>,
    pub separator: Option<u8>,
    pub csv: bool,
    pub places: Option<usize>,
    pub underscores: bool,
    pub floats: bool,
    pub header: bool,
    pub help: bool,
    /// The option whose value is the next argument.
    pub awaits: Option<Name>,
}

#[tactic(auto, unfolding(crate::specs::Arguments::name_of))]
fn name_of(word: &[u8]) -> Option<Name>
    ensures { result ≡ Arguments.name_of word.now }
{
    if word == b"--column".as_slice() {
        Some(Name::Column)
    } else if word == b"--separator".as_slice() {
        Some(Name::Separator)
    } else if word == b"--csv".as_slice() {
        Some(Name::Csv)
    } else if word == b"--places".as_slice() {
        Some(Name::Places)
    } else if word == b"--underscores".as_slice() {
        Some(Name::Underscores)
    } else if word == b"--floats".as_slice() {
        Some(Name::Floats)
    } else if word == b"--header".as_slice() {
        Some(Name::Header)
    } else if word == b"--help".as_slice() {
        Some(Name::Help)
    } else {
        None
    }
}

/// The number that a word is, if it is in a range.
#[tactic(auto, unfolding(crate::proofs::OnWords::numbers))]
fn number_of(least: usize, most: usize, word: &[u8]) -> Option<usize>
    ensures is { result ≡ Arguments.number_of least most word.now }
    ensures within { IfSome result (λ n. n ≤ most) }
{
    match parse_number::<usize>(word, STANDARD) {
        Ok(n) => {
            if least <= n && n <= most {
                Some(n)
            } else {
                None
            }
        }
        Err(_) => None,
    }
}

/// The byte that a word is, other than a line feed; `\t` is a tab.
fn byte_of(word: &[u8]) -> Option<u8>
    ensures { result ≡ Arguments.byte_of word.now }
{
    match word {
        [byte] if *byte != b'\n' => Some(*byte),
        [b'\\', b't'] => Some(b'\t'),
        _ => None,
    }
}

impl Settings {
    /// Nothing yet.
    fn new() -> Settings
        ensures { result ≡ Arguments.no_settings }
    {
        Settings {
            column: None,
            separator: None,
            csv: false,
            places: None,
            underscores: false,
            floats: false,
            header: false,
            help: false,
            awaits: None,
        }
    }

    /// With the value of an option, which is argument `n`.
    fn with_value(self, name: Name, n: usize, word: &[u8]) -> Result<Settings, UsageError>
        requires { IfSome self.places (λ places. places ≤ 38) }
        ensures is { result ≡ Arguments.with_value self name n word.now }
        ensures few { IfOk result (λ s. IfSome s.places (λ places. places ≤ 38)) }
    {
        let mut settings = self;
        settings.awaits = None;
        match name {
            Name::Column => match number_of(1, usize::MAX, word) {
                Some(number) => settings.column = Some(number),
                None => return Err(UsageError::BadValue(n)),
            },
            Name::Separator => match byte_of(word) {
                Some(byte) => settings.separator = Some(byte),
                None => return Err(UsageError::BadValue(n)),
            },
            Name::Places => match number_of(0, 38, word) {
                Some(places) => settings.places = Some(places),
                None => return Err(UsageError::BadValue(n)),
            },
            Name::Csv | Name::Underscores | Name::Floats | Name::Header | Name::Help => {
                return Err(UsageError::BadValue(n));
            }
        }
        Ok(settings)
    }

    /// Whether an option was given before.
    fn is_set(self, name: Name) -> bool
        ensures { result ≡ Arguments.is_set self name }
    {
        match name {
            Name::Column => self.column.is_some(),
            Name::Separator => self.separator.is_some(),
            Name::Csv => self.csv,
            Name::Places => self.places.is_some(),
            Name::Underscores => self.underscores,
            Name::Floats => self.floats,
            Name::Header => self.header,
            Name::Help => self.help,
        }
    }

    /// With an option.
    fn with_option(self, name: Name) -> Settings
        ensures is { result ≡ Arguments.with_option self name }
        ensures places { result.places ≡ self.places }
    {
        let mut settings = self;
        match name {
            Name::Csv => settings.csv = true,
            Name::Underscores => settings.underscores = true,
            Name::Floats => settings.floats = true,
            Name::Header => settings.header = true,
            Name::Help => settings.help = true,
            _ => settings.awaits = Some(name),
        }
        settings
    }

    /// With argument `n`, which is an option.
    fn with_name(self, n: usize, word: &[u8]) -> Result<Settings, UsageError>
        ensures is { result ≡ Arguments.with_name self n (Arguments.name_of word.now) }
        ensures places { IfOk result (λ s. s.places ≡ self.places) }
    {
        match name_of(word) {
            None => Err(UsageError::Unknown(n)),
            Some(name) => {
                if self.is_set(name) {
                    Err(UsageError::Twice(n))
                } else {
                    Ok(self.with_option(name))
                }
            }
        }
    }

    /// With argument `n`, which is an option and after a `=` its value.
    fn with_both(self, n: usize, name: &[u8], value: &[u8]) -> Result<Settings, UsageError>
        requires { IfSome self.places (λ places. places ≤ 38) }
        ensures is { result
            ≡ Arguments.with_both self n (Arguments.name_of name.now) value.now }
        ensures few { IfOk result (λ s. IfSome s.places (λ places. places ≤ 38)) }
    {
        match name_of(name) {
            None => Err(UsageError::Unknown(n)),
            Some(name) => {
                if self.is_set(name) {
                    Err(UsageError::Twice(n))
                } else {
                    self.with_value(name, n, value)
                }
            }
        }
    }

    /// With argument `n`, where an option may be.
    fn by_equals(self, n: usize, word: &[u8]) -> Result<Settings, UsageError>
        requires { IfSome self.places (λ places. places ≤ 38) }
        ensures is { result ≡ Arguments.by_equals self n word.now
            (position (λ byte. byte == 61) word.now) }
        ensures few { IfOk result (λ s. IfSome s.places (λ places. places ≤ 38)) }
    {
        match find(word, b'=') {
            None => self.with_name(n, word),
            Some(at) => self.with_both(n, &word[..at], &word[at + 1..]),
        }
    }

    /// With argument `n`.
    #[tactic(auto, unfolding(crate::specs::Arguments::with_word))]
    fn with_word(self, n: usize, word: &[u8]) -> Result<Settings, UsageError>
        requires { IfSome self.places (λ places. places ≤ 38) }
        ensures is { result ≡ Arguments.with_word self n word.now }
        ensures few { IfOk result (λ s. IfSome s.places (λ places. places ≤ 38)) }
    {
        match self.awaits {
            None => self.by_equals(n, word),
            Some(name) => self.with_value(name, n, word),
        }
    }

    /// The column, if there is one.
    fn column(self) -> Result<Option<Column>, UsageError>
        ensures { result ≡ Arguments.column_of self.column self.separator self.csv }
    {
        let csv = self.csv;
        match (self.column, self.separator) {
            (None, None) => {
                if csv {
                    Err(UsageError::NoCsvColumn)
                } else {
                    Ok(None)
                }
            }
            (None, Some(_)) => Err(UsageError::NoColumn),
            (Some(number), None) => Ok(Some(Column {
                number,
                separator: b',',
                csv,
            })),
            (Some(number), Some(separator)) => Ok(Some(Column {
                number,
                separator,
                csv,
            })),
        }
    }

    /// The kind of the numbers.
    fn kind(self) -> Kind
        requires { IfSome self.places (λ places. places ≤ 38) }
        ensures is { result ≡ Arguments.kind_of self.places }
        ensures few { HasFewPlaces result }
    {
        match self.places {
            None => Kind::Integers,
            Some(places) => Kind::Places(places),
        }
    }

    /// What the settings ask for in a column.
    fn request(self, column: Option<Column>) -> Result<Request, UsageError>
        requires { IfSome self.places (λ places. places ≤ 38) }
        ensures is { result ≡ Arguments.request_of self column }
        ensures few { IfOk result MayServe }
    {
        let underscores = self.underscores;
        let header = self.header;
        if !self.floats {
            return Ok(Request::Exact(Options {
                column,
                kind: self.kind(),
                underscores,
                header,
            }));
        }
        if self.places.is_some() {
            return Err(UsageError::FloatPlaces);
        }
        Ok(Request::Floats(FloatOptions {
            column,
            underscores,
            header,
        }))
    }

    /// What the settings of `n` arguments ask for.
    #[tactic(auto, unfolding(crate::specs::Arguments::asked_of))]
    fn asks(self, n: usize) -> Result<Request, UsageError>
        requires { IfSome self.places (λ places. places ≤ 38) }
        ensures is { result ≡ Arguments.asked_of self n }
        ensures few { IfOk result MayServe }
    {
        if self.awaits.is_some() {
            return Err(UsageError::NoValue(n));
        }
        if self.help {
            return Ok(Request::Help);
        }
        match self.column() {
            Ok(column) => self.request(column),
            Err(error) => Err(error),
        }
    }
}

/// What the arguments ask for.
pub fn read_arguments(words: &[&[u8]]) -> Result<Request, UsageError>
    ensures is { result ≡ Arguments.asked (map (λ word. word.now) words.now) }
    ensures few { IfOk result MayServe }
{
    let mut settings = Settings::new();
    for at in 0..words.len() {
        match settings.with_word(at + 1, words[at]) {
            Ok(more) => settings = more,
            Err(error) => return Err(error),
        }
    }
    settings.asks(words.len())
}

/// What is wrong with argument `n`, which is quoted.
fn wrong_word<'a, A: Allocator>(
    alloc: &'a A,
    words: &[&[u8]],
    n: usize,
    what: &str,
) -> Result<Vec<u8, &'a A>, AllocError>
    ensures { IfOk result (λ text. text.items
        ≡ Arguments.wrong_word (map (λ word. word.now) words.now) n what.now) }
{
    let front = format!(in alloc; "error: argument {n}, `")?;
    let end = format!(in alloc; "`, {what}\n")?;
    let mut text = Vec::new(alloc);
    text.extend_from_slice(front.as_bytes())?;
    text.extend_from_slice(word_at(words, n))?;
    text.extend_from_slice(end.as_bytes())?;
    Ok(text)
}

/// Argument `n`.
fn word_at<'a>(words: &[&'a [u8]], n: usize) -> &'a [u8]
    ensures { result.now ≡ Arguments.word_at (map (λ word. word.now) words.now) n }
{
    match words.get(n.saturating_sub(1)) {
        Some(word) => word,
        None => &[],
    }
}

/// A text as bytes.
fn bytes_of<'a, A: Allocator>(alloc: &'a A, text: &str) -> Result<Vec<u8, &'a A>, AllocError>
    ensures { IfOk result (λ bytes. bytes.items ≡ text.now) }
{
    let mut bytes = Vec::new(alloc);
    bytes.extend_from_slice(text.as_bytes())?;
    Ok(bytes)
}

/// What is wrong with the arguments.
fn usage_error<'a, A: Allocator>(
    alloc: &'a A,
    words: &[&[u8]],
    error: UsageError,
) -> Result<Vec<u8, &'a A>, AllocError>
    ensures { IfOk result (λ text. text.items
        ≡ Arguments.usage_error (map (λ word. word.now) words.now) error) }
{
    match error {
        UsageError::Unknown(n) => wrong_word(alloc, words, n, "is no option"),
        UsageError::Twice(n) => wrong_word(alloc, words, n, "was given before"),
        UsageError::NoValue(n) => wrong_word(alloc, words, n, "has no value"),
        UsageError::BadValue(n) => wrong_word(alloc, words, n, "is no such value"),
        UsageError::NoColumn => bytes_of(alloc, "error: a separator without a column\n"),
        UsageError::NoCsvColumn => bytes_of(alloc, "error: csv without a column\n"),
        UsageError::FloatPlaces => bytes_of(alloc, "error: floats with places\n"),
    }
}

/// What is allowed.
#[tactic(auto, unfolding(crate::specs::Arguments::usage))]
fn usage() -> &'static str
    ensures { result.now ≡ Arguments.usage }
{
    concat!(
        "usage: digit_sum [--column N [--separator C] [--csv]] [--places N | --floats] ",
        "[--underscores] [--header] [--help]\n",
    )
}

/// What is written for `--help`.
#[tactic(auto, unfolding(crate::specs::Arguments::help, crate::specs::Arguments::usage))]
pub fn help() -> &'static str
    ensures { result.now ≡ Arguments.help }
{
    concat!(
        "usage: digit_sum [--column N [--separator C] [--csv]] [--places N | --floats] ",
        "[--underscores] [--header] [--help]\n",
        "Adds up the numbers of its input, one a line.\n",
        "  --column N     the number is in column N, from 1, and not the whole line\n",
        "  --separator C  the byte between two columns, \\t for a tab; otherwise a comma\n",
        "  --csv          quotes are read, as in RFC 4180; otherwise a column has none\n",
        "  --places N     decimal numbers of at most N places, 0 to 38; otherwise integers\n",
        "  --floats       floats: each number and each sum is the nearest one\n",
        "  --underscores  one _ may be between two digits\n",
        "  --header       the first line is a header, and is passed\n",
        "  --help         this text, and no sum\n",
    )
}

/// The lines of a fault of the arguments: what is wrong, and what is allowed.
pub fn usage_line<'a, A: Allocator>(
    alloc: &'a A,
    words: &[&[u8]],
    error: UsageError,
) -> Result<Vec<u8, &'a A>, AllocError>
    ensures { IfOk result (λ text. text.items
        ≡ Arguments.usage_line (map (λ word. word.now) words.now) error) }
{
    let mut text = usage_error(alloc, words, error)?;
    text.extend_from_slice(usage().as_bytes())?;
    Ok(text)
}

//! Forms by name, in three parts: the source code of languages, such as `RUST` and `C99`, data
//! formats, such as `JSON`, `TOML` and `CSS`, and the strings that a function takes for a number,
//! such as `STRTOD` and `RUST_PARSE`. A form of one's own begins with [`LITERAL`] or [`FLOAT`].

ghost use Rattle.digit_numbers.specs.Forms.{IsForm};

use super::form::{AfterPoint, Exponents, Form, HexFloats, Signs, Whole};
use super::names::{
    ANY_CASE, ANY_CASE_UNSIGNED_NAN, CAPITALIZED, CSHARP_NAMES, EDN_NAMES, LOWER_CASE,
    ONLY_INFINITY, R_NAMES, SCHEME_NAMES, SHORT_ANY_CASE, XML_NAMES, YAML_NAMES,
};
use digit_floats::Marks;
use digit_languages::{FirstZero, Language, languages};
use lexical_format::words::{
    ADA_LITERAL, BINARY, GO_HEX_LITERAL, GO_LITERAL, HEXADECIMAL, OCTAL, OCTAVE_BINARY_LITERAL,
    OCTAVE_HEX_LITERAL, OCTAVE_LITERAL, PYTHON_LITERAL,
};
use lexical_format::{
    INTEGER_CONSECUTIVE_DIGIT_SEPARATOR, INTEGER_DIGIT_SEPARATOR_FLAG_MASK,
    INTEGER_INTERNAL_DIGIT_SEPARATOR, INTEGER_TRAILING_DIGIT_SEPARATOR, STANDARD,
};

/// The simplest form of source code: decimal digits without a sign, with a point or an exponent if
/// they are a float. Other forms are written from it: `Form { needs_fraction: true, ..LITERAL }`.
pub const LITERAL: Form = Form {
    signs: Signs::Absent,
    integers: languages::DIGITS,
    signed_prefix: false,
    whole: Whole::Integer,
    marks: Marks::PLAIN,
    other_mark: None,
    exponents: Exponents::Anywhere,
    needs_integer: false,
    needs_fraction: false,
    after_point: AfterPoint::Anything,
    float_zeros: true,
    specials: None,
    hex_floats: HexFloats::Absent,
};

/// The simplest form of data: `-1.5e3`, `+1`, `01`, `.5` and `5.`, all of them floats.
pub const FLOAT: Form = Form {
    signs: Signs::Either,
    whole: Whole::Float,
    ..LITERAL
};

// ---- the source code of languages

/// Rust's source code. A point that a second one or a name follows is none: `1..2`, `1.max(2)`.
pub const RUST: Form = Form {
    integers: languages::RUST,
    needs_integer: true,
    after_point: AfterPoint::NoPointOrName,
    ..LITERAL
};

/// C's source code before C99, and C++'s before C++14.
pub const C89: Form = Form {
    integers: languages::C,
    ..LITERAL
};

/// C's source code from C99 up to C18, and Objective-C's.
pub const C99: Form = Form {
    hex_floats: HexFloats::Exponent,
    ..C89
};

/// C++14's source code.
pub const CXX14: Form = Form {
    hex_floats: HexFloats::Absent,
    ..CXX17
};

/// C++17 and C23.
pub const CXX17: Form = Form {
    integers: languages::CXX14,
    hex_floats: HexFloats::Exponent,
    ..LITERAL
};

/// Java's source code.
pub const JAVA: Form = Form {
    integers: languages::JAVA,
    hex_floats: HexFloats::Exponent,
    ..LITERAL
};

/// Kotlin's source code.
pub const KOTLIN: Form = Form {
    integers: languages::KOTLIN,
    needs_fraction: true,
    ..LITERAL
};

/// Scala's source code from 2.13 on. Scala 2.11 has no separators.
pub const SCALA: Form = Form {
    integers: languages::SCALA,
    needs_fraction: true,
    ..LITERAL
};

/// C#'s source code, by its standard. Mono's compiler reads `1_000` as 10000, and refuses `1.5_5`.
pub const CSHARP: Form = Form {
    integers: languages::CSHARP,
    needs_fraction: true,
    ..LITERAL
};

/// F#'s source code, by its grammar. A point that a second one follows is none: `1..2`.
pub const FSHARP: Form = Form {
    integers: languages::FSHARP,
    needs_integer: true,
    after_point: AfterPoint::NoPoint,
    ..LITERAL
};

/// Go's source code.
pub const GO: Form = Form {
    integers: languages::GO,
    hex_floats: HexFloats::Exponent,
    ..LITERAL
};

/// D's source code. A point that a second one or a name follows is none. D refuses integers that
/// begin with `0` and aren't octal digits up to 7, such as `010`.
pub const D: Form = Form {
    integers: languages::D,
    after_point: AfterPoint::NoPointOrName,
    hex_floats: HexFloats::Exponent,
    ..LITERAL
};

/// Swift's source code.
pub const SWIFT: Form = Form {
    integers: languages::SWIFT,
    needs_integer: true,
    needs_fraction: true,
    hex_floats: HexFloats::Exponent,
    ..LITERAL
};

/// Nim's source code. Nim refuses `0O17`.
pub const NIM: Form = Form {
    integers: NIM_INTEGER,
    needs_integer: true,
    needs_fraction: true,
    ..LITERAL
};

/// Ada's source code, except for a radix and `#`. In Ada `1E5` is an integer, and `1E-5` is none.
pub const ADA: Form = Form {
    integers: ADA_INTEGER,
    needs_integer: true,
    needs_fraction: true,
    ..LITERAL
};

/// COBOL's source code. A decimal number has a sign, and an exponent follows a fraction.
pub const COBOL: Form = Form {
    exponents: Exponents::AfterFraction,
    needs_fraction: true,
    ..FLOAT
};

/// Fortran's source code. `1d5` is `1e5`, in double precision.
pub const FORTRAN: Form = Form {
    other_mark: Some(b'd'),
    ..LITERAL
};

/// Python's source code. Python refuses `001`; here it is `0`, and then `01`.
pub const PYTHON: Form = Form {
    integers: languages::PYTHON,
    ..LITERAL
};

/// Ruby's source code, except for the prefix `0d`.
pub const RUBY: Form = Form {
    integers: languages::RUBY,
    needs_integer: true,
    needs_fraction: true,
    float_zeros: false,
    ..LITERAL
};

/// Perl's source code, except for floats in binary or octal digits. A point that a second one
/// follows is none: `1..2`. A decimal integer above 128 bits is a float. Perl refuses `._1`, which
/// is 0.1 here, and reads `1e_+5`, which is `1` here, and then `e_+5`.
pub const PERL: Form = Form {
    integers: languages::PERL,
    whole: Whole::LargeIsFloat,
    after_point: AfterPoint::NoPoint,
    float_zeros: false,
    hex_floats: HexFloats::Exponent,
    ..LITERAL
};

/// PHP's source code. A decimal integer above 128 bits is a float.
pub const PHP: Form = Form {
    integers: languages::PHP,
    whole: Whole::LargeIsFloat,
    ..LITERAL
};

/// Lua's source code. A decimal integer above 128 bits is a float. Lua's integers have 64 bits:
/// above them decimal ones are floats, and hexadecimal ones wrap.
pub const LUA: Form = Form {
    integers: languages::HEX_DIGITS,
    whole: Whole::LargeIsFloat,
    hex_floats: HexFloats::PointOrExponent,
    ..LITERAL
};

/// R's source code. An integer above 128 bits is a float.
pub const R: Form = Form {
    integers: languages::HEX_DIGITS,
    whole: Whole::LargeIsFloat,
    specials: Some(R_NAMES),
    hex_floats: HexFloats::Exponent,
    ..LITERAL
};

/// Octave's source code. A decimal integer above 128 bits is a float. A point that an operator
/// follows is none: `1./x`. Octave refuses `1._`.
pub const OCTAVE: Form = Form {
    integers: OCTAVE_INTEGER,
    whole: Whole::LargeIsFloat,
    other_mark: Some(b'd'),
    after_point: AfterPoint::NoOperator,
    ..LITERAL
};

/// MATLAB's source code, by its documentation: as Octave's, without separators.
pub const MATLAB: Form = Form {
    integers: MATLAB_INTEGER,
    ..OCTAVE
};

/// Erlang's source code, except for a radix and `#`.
pub const ERLANG: Form = Form {
    integers: languages::ERLANG,
    exponents: Exponents::AfterFraction,
    needs_integer: true,
    needs_fraction: true,
    ..LITERAL
};

/// Elixir's source code.
pub const ELIXIR: Form = Form {
    integers: languages::ELIXIR,
    ..ERLANG
};

/// Haskell's source code with GHC's extensions `NumericUnderscores` and `BinaryLiterals`, for `1_0`
/// and `0b1`, and without a third, for hexadecimal floats. GHC also reads `_1.5`, which is none
/// here, and `1_e5`, which is `1` here, and then `_e5`.
pub const HASKELL: Form = Form {
    integers: languages::HASKELL,
    needs_integer: true,
    needs_fraction: true,
    ..LITERAL
};

/// Scheme's source code, as Guile reads it, except for ratios, `#x`, and the marks `s`, `f`, `l`.
/// A sign is before `inf.0` and `nan.0`. Guile refuses large exponents.
pub const SCHEME: Form = Form {
    signs: Signs::Either,
    other_mark: Some(b'd'),
    specials: Some(SCHEME_NAMES),
    ..LITERAL
};

/// OCaml's source code.
pub const OCAML: Form = Form {
    integers: languages::OCAML,
    needs_integer: true,
    hex_floats: HexFloats::PointOrExponent,
    ..LITERAL
};

/// JavaScript's source code, in strict mode and in modules. A decimal integer above 128 bits is a
/// float.
pub const JAVASCRIPT: Form = Form {
    integers: languages::JAVASCRIPT,
    whole: Whole::LargeIsFloat,
    float_zeros: false,
    ..LITERAL
};

/// CoffeeScript's source code. CoffeeScript refuses `1E5`.
pub const COFFEESCRIPT: Form = Form {
    integers: COFFEESCRIPT_INTEGER,
    needs_fraction: true,
    specials: Some(CAPITALIZED),
    ..JAVASCRIPT
};

/// PostgreSQL's SQL up to version 15. A point that a second one follows is none. An integer above
/// 128 bits is a float.
pub const POSTGRESQL: Form = Form {
    whole: Whole::LargeIsFloat,
    after_point: AfterPoint::NoPoint,
    ..LITERAL
};

/// SQLite's SQL before 3.46. A decimal integer above 128 bits is a float.
pub const SQLITE: Form = Form {
    integers: ZERO_X,
    whole: Whole::LargeIsFloat,
    ..LITERAL
};

/// The SQL of MySQL and MariaDB. A decimal integer above 128 bits is a float. There `0x1F` is a
/// string of bytes if no number is expected.
pub const MYSQL: Form = Form {
    integers: MYSQL_INTEGER,
    whole: Whole::LargeIsFloat,
    ..LITERAL
};

/// HCL, of Terraform. An integer above 128 bits is a float. Its parser also reads `1.e5`.
pub const HCL: Form = Form {
    whole: Whole::LargeIsFloat,
    needs_integer: true,
    needs_fraction: true,
    ..LITERAL
};

// ---- data formats

/// JSON, by RFC 8259. An integer above 128 bits is a float.
pub const JSON: Form = Form {
    signs: Signs::Minus,
    integers: languages::JSON_NUMBER,
    whole: Whole::LargeIsFloat,
    needs_integer: true,
    needs_fraction: true,
    float_zeros: false,
    ..LITERAL
};

/// JSON, of which every number is a float.
pub const JSON_FLOATS: Form = Form {
    whole: Whole::Float,
    ..JSON
};

/// JSON5. A sign may be before `Infinity`, `NaN` and `0x`. A decimal integer above 128 bits is a
/// float.
pub const JSON5: Form = Form {
    signs: Signs::Either,
    integers: JSON5_INTEGER,
    signed_prefix: true,
    whole: Whole::LargeIsFloat,
    float_zeros: false,
    specials: Some(CAPITALIZED),
    ..LITERAL
};

/// YAML, by the core schema of 1.2. No sign is before `0o`, `0x` and `.nan`.
pub const YAML: Form = Form {
    signs: Signs::Either,
    integers: YAML_INTEGER,
    specials: Some(YAML_NAMES),
    ..LITERAL
};

/// TOML 1.0. A sign is before no prefix.
pub const TOML: Form = Form {
    signs: Signs::Either,
    integers: languages::TOML,
    needs_integer: true,
    needs_fraction: true,
    float_zeros: false,
    specials: Some(LOWER_CASE),
    ..LITERAL
};

/// EDN, and Clojure's source code, except for ratios, a radix and `r`, and `M`.
pub const EDN: Form = Form {
    signs: Signs::Either,
    integers: languages::C,
    signed_prefix: true,
    needs_integer: true,
    specials: Some(EDN_NAMES),
    ..LITERAL
};

/// CSS, and SVG 2.
pub const CSS: Form = Form {
    needs_fraction: true,
    ..FLOAT
};

/// A decimal number without an exponent: XML Schema's `decimal`, COBOL's `NUMVAL`, amounts in CSV.
pub const DECIMAL: Form = Form {
    exponents: Exponents::Absent,
    ..FLOAT
};

/// XML Schema's `double` and `float`, by 1.0; by 1.1 `+INF` is one too. libxml2 also takes `1e`.
pub const XML_DOUBLE: Form = Form {
    specials: Some(XML_NAMES),
    ..FLOAT
};

/// Prometheus, and OpenMetrics. A sign is before no `nan`.
pub const PROMETHEUS: Form = Form {
    specials: Some(ANY_CASE_UNSIGNED_NAN),
    ..FLOAT
};

/// Protobuf's text format. An integer above 128 bits is a float.
pub const PROTOBUF_TEXT: Form = Form {
    signs: Signs::Minus,
    integers: languages::C,
    signed_prefix: true,
    whole: Whole::LargeIsFloat,
    float_zeros: false,
    specials: Some(ANY_CASE),
    ..LITERAL
};

// ---- functions that take a string

/// What C's `strtod` takes in the locale `C`, without blanks before it and what follows `nan` in
/// parentheses.
pub const STRTOD: Form = Form {
    integers: languages::HEX_DIGITS,
    signed_prefix: true,
    specials: Some(ANY_CASE),
    hex_floats: HexFloats::Always,
    ..FLOAT
};

/// What C++'s `std::from_chars` takes for a float, without what follows `nan` in parentheses.
pub const FROM_CHARS: Form = Form {
    signs: Signs::Minus,
    specials: Some(ANY_CASE),
    ..FLOAT
};

/// What Rust's `str::parse::<f64>` takes.
pub const RUST_PARSE: Form = Form {
    specials: Some(ANY_CASE),
    ..FLOAT
};

/// What Python's `float` takes, without blanks around it and digits beyond ASCII.
pub const PYTHON_FLOAT: Form = Form {
    integers: PYTHON_DIGITS,
    specials: Some(ANY_CASE),
    ..FLOAT
};

/// What Java's `Double.parseDouble` takes, without blanks around it and a suffix such as `d`.
pub const JAVA_PARSE_DOUBLE: Form = Form {
    integers: languages::HEX_DIGITS,
    signed_prefix: true,
    specials: Some(CAPITALIZED),
    hex_floats: HexFloats::Exponent,
    ..FLOAT
};

/// What Go's `strconv.ParseFloat` takes. A sign is before no `nan`. Where Go says that a value is
/// out of range, it is infinite here.
pub const GO_PARSE_FLOAT: Form = Form {
    integers: GO_DIGITS,
    signed_prefix: true,
    specials: Some(ANY_CASE_UNSIGNED_NAN),
    hex_floats: HexFloats::Exponent,
    ..FLOAT
};

/// What C#'s `double.Parse` takes, as Mono has it, without blanks around it.
pub const CSHARP_PARSE: Form = Form {
    integers: GROUPED,
    specials: Some(CSHARP_NAMES),
    ..FLOAT
};

/// What Ruby's `Float` takes, without blanks around it. Ruby refuses `0x.8p1`, and reads `0x1_1`,
/// but not `0x1_F`.
pub const RUBY_FLOAT: Form = Form {
    signs: Signs::Either,
    integers: RUBY_DIGITS,
    signed_prefix: true,
    whole: Whole::LargeIsFloat,
    needs_fraction: true,
    hex_floats: HexFloats::Exponent,
    ..LITERAL
};

/// What Lua's `tonumber` takes, without blanks around it.
pub const LUA_TONUMBER: Form = Form {
    signs: Signs::Either,
    signed_prefix: true,
    ..LUA
};

/// What JavaScript's `Number` takes, without blanks around it. What isn't a number is `NaN` there.
/// A decimal integer above 128 bits is a float.
pub const JAVASCRIPT_NUMBER: Form = Form {
    integers: PREFIXED,
    whole: Whole::LargeIsFloat,
    specials: Some(ONLY_INFINITY),
    ..FLOAT
};

/// What JavaScript's `parseFloat` takes, without blanks before it. What isn't a number is `NaN`
/// there.
pub const JAVASCRIPT_PARSE_FLOAT: Form = Form {
    specials: Some(ONLY_INFINITY),
    ..FLOAT
};

/// What PostgreSQL's `::numeric` takes up to version 15, without blanks around it. There `-0` is 0.
pub const POSTGRESQL_NUMERIC: Form = Form {
    specials: Some(ANY_CASE_UNSIGNED_NAN),
    ..FLOAT
};

/// What Fortran's `read` takes by the edit descriptor `F`, without blanks. There `1+5` is `1e5`,
/// and what has no digit is 0.
pub const FORTRAN_READ: Form = Form {
    other_mark: Some(b'd'),
    specials: Some(ANY_CASE),
    ..FLOAT
};

/// What Octave's and MATLAB's `str2double` take for a real number, without blanks. Octave also
/// takes `,` everywhere, two signs, and `.nan`.
pub const STR2DOUBLE: Form = Form {
    integers: COMMAS,
    specials: Some(SHORT_ANY_CASE),
    ..FLOAT
};

// ---- integers of forms

/// One `_` between two digits.
const PYTHON_DIGITS: Language = Language {
    decimal: PYTHON_LITERAL,
    ..languages::DIGITS
};

/// The same. Hexadecimal digits follow `0x`, in either case, with a `_` after it or none.
const GO_DIGITS: Language = Language {
    decimal: GO_LITERAL,
    hexadecimal: Some(GO_HEX_LITERAL),
    ..languages::HEX_DIGITS
};

/// One `_` between two decimal digits. `0x`, in either case.
const RUBY_DIGITS: Language = Language {
    decimal: PYTHON_LITERAL,
    ..languages::HEX_DIGITS
};

/// `0x`, in either case, without hexadecimal floats.
const ZERO_X: Language = Language {
    hexadecimal: Some(HEXADECIMAL),
    ..languages::HEX_DIGITS
};

/// JSON5: the same. No digit follows a first `0`.
const JSON5_INTEGER: Language = Language {
    first_zero: FirstZero::Alone,
    ..ZERO_X
};

/// `0b`, `0o`, `0x`, in either case.
const PREFIXED: Language = Language {
    binary: Some(BINARY),
    octal: Some(OCTAL),
    ..ZERO_X
};

/// YAML: `0o`, `0x`.
const YAML_INTEGER: Language = Language {
    octal: Some(OCTAL),
    hexadecimal: Some(HEXADECIMAL),
    ..languages::DIGITS
};

/// MySQL: `0b`, `0x`.
const MYSQL_INTEGER: Language = Language {
    binary: Some(BINARY),
    hexadecimal: Some(HEXADECIMAL),
    ..languages::DIGITS
};

/// Nim: `0b`, `0o`, `0x`, in either case.
const NIM_INTEGER: Language = Language {
    upper: true,
    ..languages::ELIXIR
};

/// CoffeeScript: as JavaScript, in lower case.
const COFFEESCRIPT_INTEGER: Language = Language {
    upper: false,
    ..languages::JAVASCRIPT
};

/// Octave: `0b`, `0x`, in either case, and `_` after a digit.
const OCTAVE_INTEGER: Language = Language {
    decimal: OCTAVE_LITERAL,
    binary: Some(OCTAVE_BINARY_LITERAL),
    hexadecimal: Some(OCTAVE_HEX_LITERAL),
    upper: true,
    ..languages::DIGITS
};

/// MATLAB: the same without separators.
const MATLAB_INTEGER: Language = Language {
    binary: Some(BINARY),
    ..ZERO_X
};

/// Ada: no prefix, and one `_` between two digits.
const ADA_INTEGER: Language = Language {
    decimal: ADA_LITERAL,
    ..languages::DIGITS
};

/// `,` as a separator, as a word has it.
const COMMA: u128 = STANDARD | (0x2c << 64);

/// Any number of `,` after a digit of the integer.
const GROUPED: Language = Language {
    decimal: COMMA
        | INTEGER_INTERNAL_DIGIT_SEPARATOR
        | INTEGER_TRAILING_DIGIT_SEPARATOR
        | INTEGER_CONSECUTIVE_DIGIT_SEPARATOR,
    ..languages::DIGITS
};

/// Any number of `,` anywhere in the integer.
const COMMAS: Language = Language {
    decimal: COMMA | INTEGER_DIGIT_SEPARATOR_FLAG_MASK,
    ..languages::DIGITS
};

// ---- the forms serve

/// The forms of source code serve, and what others are written from.
#[tactic(auto, unfolding(lexical_format::proofs::OnLiterals::lexical_on_literals))]
pub fn source_code_serves()
    ensures literal { IsForm LITERAL }
    ensures float { IsForm FLOAT }
    ensures rust { IsForm RUST }
    ensures c89 { IsForm C89 }
    ensures c99 { IsForm C99 }
    ensures cxx14 { IsForm CXX14 }
    ensures cxx17 { IsForm CXX17 }
    ensures java { IsForm JAVA }
    ensures kotlin { IsForm KOTLIN }
    ensures scala { IsForm SCALA }
    ensures csharp { IsForm CSHARP }
    ensures fsharp { IsForm FSHARP }
    ensures go { IsForm GO }
    ensures d { IsForm D }
    ensures swift { IsForm SWIFT }
    ensures nim { IsForm NIM }
    ensures ada { IsForm ADA }
    ensures cobol { IsForm COBOL }
    ensures fortran { IsForm FORTRAN }
    ensures python { IsForm PYTHON }
    ensures ruby { IsForm RUBY }
    ensures perl { IsForm PERL }
    ensures php { IsForm PHP }
    ensures lua { IsForm LUA }
    ensures r { IsForm R }
    ensures octave { IsForm OCTAVE }
    ensures matlab { IsForm MATLAB }
    ensures erlang { IsForm ERLANG }
    ensures elixir { IsForm ELIXIR }
    ensures haskell { IsForm HASKELL }
    ensures scheme { IsForm SCHEME }
    ensures ocaml { IsForm OCAML }
    ensures javascript { IsForm JAVASCRIPT }
    ensures coffeescript { IsForm COFFEESCRIPT }
    ensures postgresql { IsForm POSTGRESQL }
    ensures sqlite { IsForm SQLITE }
    ensures mysql { IsForm MYSQL }
    ensures hcl { IsForm HCL }
{}

/// The forms of data formats serve.
#[tactic(auto, unfolding(lexical_format::proofs::OnLiterals::lexical_on_literals))]
pub fn data_formats_serve()
    ensures json { IsForm JSON }
    ensures json_floats { IsForm JSON_FLOATS }
    ensures json5 { IsForm JSON5 }
    ensures yaml { IsForm YAML }
    ensures toml { IsForm TOML }
    ensures edn { IsForm EDN }
    ensures css { IsForm CSS }
    ensures decimal { IsForm DECIMAL }
    ensures xml_double { IsForm XML_DOUBLE }
    ensures prometheus { IsForm PROMETHEUS }
    ensures protobuf_text { IsForm PROTOBUF_TEXT }
{}

/// The forms of functions serve.
#[tactic(auto, unfolding(lexical_format::proofs::OnLiterals::lexical_on_literals))]
pub fn functions_serve()
    ensures strtod { IsForm STRTOD }
    ensures from_chars { IsForm FROM_CHARS }
    ensures rust_parse { IsForm RUST_PARSE }
    ensures python_float { IsForm PYTHON_FLOAT }
    ensures java_parse_double { IsForm JAVA_PARSE_DOUBLE }
    ensures go_parse_float { IsForm GO_PARSE_FLOAT }
    ensures csharp_parse { IsForm CSHARP_PARSE }
    ensures ruby_float { IsForm RUBY_FLOAT }
    ensures lua_tonumber { IsForm LUA_TONUMBER }
    ensures javascript_number { IsForm JAVASCRIPT_NUMBER }
    ensures javascript_parse_float { IsForm JAVASCRIPT_PARSE_FLOAT }
    ensures postgresql_numeric { IsForm POSTGRESQL_NUMERIC }
    ensures fortran_read { IsForm FORTRAN_READ }
    ensures str2double { IsForm STR2DOUBLE }
{}

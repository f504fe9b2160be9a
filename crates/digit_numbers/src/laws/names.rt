//! The names of special values, byte by byte.

ghost use Rattle.std.specs.Prelude.{◌≡◌, true, false, not, is_some, Some, [], ◌∷◌, codes};
ghost use Rattle.std.specs.List.{list_all};
ghost use Rattle.digit_numbers.specs.declared.form.Form.{Form};
ghost use Rattle.digit_numbers.specs.Tables.{IsTable, named};
ghost use Rattle.digit_numbers.specs.declared.form.NameSign.TheVariants.{Absent, Minus, Either, Required};
ghost use Rattle.digit_numbers.specs.declared.form.SpecialValue.TheVariants.{Infinity, NegativeInfinity, NotANumber};

use crate::forms::*;
use crate::names::{
    ANY_CASE, ANY_CASE_UNSIGNED_NAN, CAPITALIZED, CSHARP_NAMES, EDN_NAMES, LOWER_CASE,
    ONLY_INFINITY, R_NAMES, SCHEME_NAMES, SHORT_ANY_CASE, XML_NAMES, YAML_NAMES,
};

/// The names of each table: whether their letters may be in any case, and of each name its bytes,
/// what it stands for, and which sign may be before it.
pub fn names_are()
    ensures lower_case { IsTable LOWER_CASE false (
        named (codes "inf") Infinity Either ∷ named (codes "nan") NotANumber Either ∷ []) }
    ensures capitalized { IsTable CAPITALIZED false (
        named (codes "Infinity") Infinity Either ∷ named (codes "NaN") NotANumber Either ∷ []) }
    ensures any_case { IsTable ANY_CASE true (
        named (codes "inf") Infinity Either ∷ named (codes "infinity") Infinity Either ∷
        named (codes "nan") NotANumber Either ∷ []) }
    ensures any_case_unsigned_nan { IsTable ANY_CASE_UNSIGNED_NAN true (
        named (codes "inf") Infinity Either ∷ named (codes "infinity") Infinity Either ∷
        named (codes "nan") NotANumber Absent ∷ []) }
    ensures yaml_names { IsTable YAML_NAMES false (
        named (codes ".inf") Infinity Either ∷ named (codes ".Inf") Infinity Either ∷
        named (codes ".INF") Infinity Either ∷ named (codes ".nan") NotANumber Absent ∷
        named (codes ".NaN") NotANumber Absent ∷ named (codes ".NAN") NotANumber Absent ∷ []) }
    ensures r_names { IsTable R_NAMES false (
        named (codes "Inf") Infinity Either ∷ named (codes "NaN") NotANumber Either ∷ []) }
    ensures short_any_case { IsTable SHORT_ANY_CASE true (
        named (codes "inf") Infinity Either ∷ named (codes "nan") NotANumber Either ∷ []) }
    ensures only_infinity { IsTable ONLY_INFINITY false (
        named (codes "Infinity") Infinity Either ∷ []) }
    ensures xml_names { IsTable XML_NAMES false (
        named (codes "INF") Infinity Minus ∷ named (codes "NaN") NotANumber Absent ∷ []) }
    ensures csharp_names { IsTable CSHARP_NAMES false (
        named (codes "Infinity") Infinity Minus ∷ named (codes "NaN") NotANumber Absent ∷ []) }
    ensures edn_names { IsTable EDN_NAMES false (
        named (codes "##Inf") Infinity Absent ∷ named (codes "##-Inf") NegativeInfinity Absent ∷
        named (codes "##NaN") NotANumber Absent ∷ []) }
    ensures scheme_names { IsTable SCHEME_NAMES true (
        named (codes "inf.0") Infinity Required ∷ named (codes "nan.0") NotANumber Required ∷ []) }
{}

/// Which names each form has, of [`names_are`]; the forms of `none` have none.
pub fn forms_have_names()
    ensures r { R.specials ≡ Some R_NAMES }
    ensures scheme { SCHEME.specials ≡ Some SCHEME_NAMES }
    ensures coffeescript { COFFEESCRIPT.specials ≡ Some CAPITALIZED }
    ensures json5 { JSON5.specials ≡ Some CAPITALIZED }
    ensures yaml { YAML.specials ≡ Some YAML_NAMES }
    ensures toml { TOML.specials ≡ Some LOWER_CASE }
    ensures edn { EDN.specials ≡ Some EDN_NAMES }
    ensures xml_double { XML_DOUBLE.specials ≡ Some XML_NAMES }
    ensures prometheus { PROMETHEUS.specials ≡ Some ANY_CASE_UNSIGNED_NAN }
    ensures protobuf_text { PROTOBUF_TEXT.specials ≡ Some ANY_CASE }
    ensures strtod { STRTOD.specials ≡ Some ANY_CASE }
    ensures from_chars { FROM_CHARS.specials ≡ Some ANY_CASE }
    ensures rust_parse { RUST_PARSE.specials ≡ Some ANY_CASE }
    ensures python_float { PYTHON_FLOAT.specials ≡ Some ANY_CASE }
    ensures java_parse_double { JAVA_PARSE_DOUBLE.specials ≡ Some CAPITALIZED }
    ensures go_parse_float { GO_PARSE_FLOAT.specials ≡ Some ANY_CASE_UNSIGNED_NAN }
    ensures csharp_parse { CSHARP_PARSE.specials ≡ Some CSHARP_NAMES }
    ensures javascript_number { JAVASCRIPT_NUMBER.specials ≡ Some ONLY_INFINITY }
    ensures javascript_parse_float { JAVASCRIPT_PARSE_FLOAT.specials ≡ Some ONLY_INFINITY }
    ensures postgresql_numeric { POSTGRESQL_NUMERIC.specials ≡ Some ANY_CASE_UNSIGNED_NAN }
    ensures fortran_read { FORTRAN_READ.specials ≡ Some ANY_CASE }
    ensures str2double { STR2DOUBLE.specials ≡ Some SHORT_ANY_CASE }
    ensures none { list_all (λ (f : Form). not (is_some f.specials)) (
        LITERAL ∷ FLOAT ∷ RUST ∷ C89 ∷ C99 ∷ CXX14 ∷ CXX17 ∷ JAVA ∷ KOTLIN ∷ SCALA ∷ CSHARP ∷
        FSHARP ∷ GO ∷ D ∷ SWIFT ∷ NIM ∷ ADA ∷ COBOL ∷ FORTRAN ∷ PYTHON ∷ RUBY ∷ PERL ∷ PHP ∷
        LUA ∷ OCTAVE ∷ MATLAB ∷ ERLANG ∷ ELIXIR ∷ HASKELL ∷ OCAML ∷ JAVASCRIPT ∷ POSTGRESQL ∷
        SQLITE ∷ MYSQL ∷ HCL ∷ JSON ∷ JSON_FLOATS ∷ CSS ∷ DECIMAL ∷ RUBY_FLOAT ∷ LUA_TONUMBER ∷
        []) ≡ true }
{}

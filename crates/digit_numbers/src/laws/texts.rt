//! What short texts are, by form: `01`, `1.` and `.5`.

ghost use Rattle.std.specs.Prelude.{◌≡◌};
ghost use Rattle.digit_numbers.specs.Texts.{float_to, none, one_by, zero_by, zero_one, HavePoints};

use crate::forms::*;
use lexical_format::words::{
    CXX14_OCTAL_LITERAL, GO_OCTAL_LITERAL, JAVA_OCTAL_LITERAL, OCTAL, PERL_OCTAL_LITERAL,
    PHP_OCTAL_LITERAL, RUBY_OCTAL_LITERAL, RUST_OCTAL_LITERAL,
};

/// What `01` is, by form: the integer 1, by the decimal word or an octal one; the integer 0, and
/// the number ends before the `1`; or a float that ends at this position. By
/// [`formats_agree`](crate::laws::alike::formats_agree) it is so of `f32` and of `f64`.
#[tactic(auto, unfolding(crate::proofs::OnTexts::on_texts))]
pub fn zero_one_is()
    ensures literal { zero_one LITERAL ≡ one_by LITERAL.integers.decimal 2 }
    ensures float { zero_one FLOAT ≡ float_to 2 }
    ensures rust { zero_one RUST ≡ one_by RUST.integers.decimal 2 }
    ensures c89 { zero_one C89 ≡ one_by OCTAL 2 }
    ensures c99 { zero_one C99 ≡ one_by OCTAL 2 }
    ensures cxx14 { zero_one CXX14 ≡ one_by CXX14_OCTAL_LITERAL 2 }
    ensures cxx17 { zero_one CXX17 ≡ one_by CXX14_OCTAL_LITERAL 2 }
    ensures java { zero_one JAVA ≡ one_by JAVA_OCTAL_LITERAL 2 }
    ensures kotlin { zero_one KOTLIN ≡ zero_by KOTLIN.integers.decimal 1 }
    ensures scala { zero_one SCALA ≡ zero_by SCALA.integers.decimal 1 }
    ensures csharp { zero_one CSHARP ≡ one_by CSHARP.integers.decimal 2 }
    ensures fsharp { zero_one FSHARP ≡ one_by FSHARP.integers.decimal 2 }
    ensures go { zero_one GO ≡ one_by GO_OCTAL_LITERAL 2 }
    ensures d { zero_one D ≡ one_by RUST_OCTAL_LITERAL 2 }
    ensures swift { zero_one SWIFT ≡ one_by SWIFT.integers.decimal 2 }
    ensures nim { zero_one NIM ≡ one_by NIM.integers.decimal 2 }
    ensures ada { zero_one ADA ≡ one_by ADA.integers.decimal 2 }
    ensures cobol { zero_one COBOL ≡ float_to 2 }
    ensures fortran { zero_one FORTRAN ≡ one_by FORTRAN.integers.decimal 2 }
    ensures python { zero_one PYTHON ≡ zero_by PYTHON.integers.decimal 1 }
    ensures ruby { zero_one RUBY ≡ one_by RUBY_OCTAL_LITERAL 2 }
    ensures perl { zero_one PERL ≡ one_by PERL_OCTAL_LITERAL 2 }
    ensures php { zero_one PHP ≡ one_by PHP_OCTAL_LITERAL 2 }
    ensures lua { zero_one LUA ≡ one_by LUA.integers.decimal 2 }
    ensures r { zero_one R ≡ one_by R.integers.decimal 2 }
    ensures octave { zero_one OCTAVE ≡ one_by OCTAVE.integers.decimal 2 }
    ensures matlab { zero_one MATLAB ≡ one_by MATLAB.integers.decimal 2 }
    ensures erlang { zero_one ERLANG ≡ one_by ERLANG.integers.decimal 2 }
    ensures elixir { zero_one ELIXIR ≡ one_by ELIXIR.integers.decimal 2 }
    ensures haskell { zero_one HASKELL ≡ one_by HASKELL.integers.decimal 2 }
    ensures scheme { zero_one SCHEME ≡ one_by SCHEME.integers.decimal 2 }
    ensures ocaml { zero_one OCAML ≡ one_by OCAML.integers.decimal 2 }
    ensures javascript { zero_one JAVASCRIPT ≡ zero_by JAVASCRIPT.integers.decimal 1 }
    ensures coffeescript { zero_one COFFEESCRIPT ≡ zero_by COFFEESCRIPT.integers.decimal 1 }
    ensures postgresql { zero_one POSTGRESQL ≡ one_by POSTGRESQL.integers.decimal 2 }
    ensures sqlite { zero_one SQLITE ≡ one_by SQLITE.integers.decimal 2 }
    ensures mysql { zero_one MYSQL ≡ one_by MYSQL.integers.decimal 2 }
    ensures hcl { zero_one HCL ≡ one_by HCL.integers.decimal 2 }
    ensures json { zero_one JSON ≡ zero_by JSON.integers.decimal 1 }
    ensures json_floats { zero_one JSON_FLOATS ≡ float_to 1 }
    ensures json5 { zero_one JSON5 ≡ zero_by JSON5.integers.decimal 1 }
    ensures yaml { zero_one YAML ≡ one_by YAML.integers.decimal 2 }
    ensures toml { zero_one TOML ≡ zero_by TOML.integers.decimal 1 }
    ensures edn { zero_one EDN ≡ one_by OCTAL 2 }
    ensures css { zero_one CSS ≡ float_to 2 }
    ensures decimal { zero_one DECIMAL ≡ float_to 2 }
    ensures xml_double { zero_one XML_DOUBLE ≡ float_to 2 }
    ensures prometheus { zero_one PROMETHEUS ≡ float_to 2 }
    ensures protobuf_text { zero_one PROTOBUF_TEXT ≡ one_by OCTAL 2 }
    ensures strtod { zero_one STRTOD ≡ float_to 2 }
    ensures from_chars { zero_one FROM_CHARS ≡ float_to 2 }
    ensures rust_parse { zero_one RUST_PARSE ≡ float_to 2 }
    ensures python_float { zero_one PYTHON_FLOAT ≡ float_to 2 }
    ensures java_parse_double { zero_one JAVA_PARSE_DOUBLE ≡ float_to 2 }
    ensures go_parse_float { zero_one GO_PARSE_FLOAT ≡ float_to 2 }
    ensures csharp_parse { zero_one CSHARP_PARSE ≡ float_to 2 }
    ensures ruby_float { zero_one RUBY_FLOAT ≡ one_by RUBY_FLOAT.integers.decimal 2 }
    ensures lua_tonumber { zero_one LUA_TONUMBER ≡ one_by LUA_TONUMBER.integers.decimal 2 }
    ensures javascript_number { zero_one JAVASCRIPT_NUMBER
        ≡ one_by JAVASCRIPT_NUMBER.integers.decimal 2 }
    ensures javascript_parse_float { zero_one JAVASCRIPT_PARSE_FLOAT ≡ float_to 2 }
    ensures postgresql_numeric { zero_one POSTGRESQL_NUMERIC ≡ float_to 2 }
    ensures fortran_read { zero_one FORTRAN_READ ≡ float_to 2 }
    ensures str2double { zero_one STR2DOUBLE ≡ float_to 2 }
{}

/// What `1.` and `.5` are, by form. `1.` is a float to its end, or the number that ends before the
/// point. `.5` is a float, or no number.
#[tactic(auto, unfolding(crate::proofs::OnTexts::on_texts))]
pub fn points_are()
    ensures literal { HavePoints LITERAL (float_to 2) (float_to 2) }
    ensures float { HavePoints FLOAT (float_to 2) (float_to 2) }
    ensures rust { HavePoints RUST (float_to 2) none }
    ensures c89 { HavePoints C89 (float_to 2) (float_to 2) }
    ensures c99 { HavePoints C99 (float_to 2) (float_to 2) }
    ensures cxx14 { HavePoints CXX14 (float_to 2) (float_to 2) }
    ensures cxx17 { HavePoints CXX17 (float_to 2) (float_to 2) }
    ensures java { HavePoints JAVA (float_to 2) (float_to 2) }
    ensures kotlin { HavePoints KOTLIN (one_by KOTLIN.integers.decimal 1) (float_to 2) }
    ensures scala { HavePoints SCALA (one_by SCALA.integers.decimal 1) (float_to 2) }
    ensures csharp { HavePoints CSHARP (one_by CSHARP.integers.decimal 1) (float_to 2) }
    ensures fsharp { HavePoints FSHARP (float_to 2) none }
    ensures go { HavePoints GO (float_to 2) (float_to 2) }
    ensures d { HavePoints D (float_to 2) (float_to 2) }
    ensures swift { HavePoints SWIFT (one_by SWIFT.integers.decimal 1) none }
    ensures nim { HavePoints NIM (one_by NIM.integers.decimal 1) none }
    ensures ada { HavePoints ADA (one_by ADA.integers.decimal 1) none }
    ensures cobol { HavePoints COBOL (float_to 1) (float_to 2) }
    ensures fortran { HavePoints FORTRAN (float_to 2) (float_to 2) }
    ensures python { HavePoints PYTHON (float_to 2) (float_to 2) }
    ensures ruby { HavePoints RUBY (one_by RUBY.integers.decimal 1) none }
    ensures perl { HavePoints PERL (float_to 2) (float_to 2) }
    ensures php { HavePoints PHP (float_to 2) (float_to 2) }
    ensures lua { HavePoints LUA (float_to 2) (float_to 2) }
    ensures r { HavePoints R (float_to 2) (float_to 2) }
    ensures octave { HavePoints OCTAVE (float_to 2) (float_to 2) }
    ensures matlab { HavePoints MATLAB (float_to 2) (float_to 2) }
    ensures erlang { HavePoints ERLANG (one_by ERLANG.integers.decimal 1) none }
    ensures elixir { HavePoints ELIXIR (one_by ELIXIR.integers.decimal 1) none }
    ensures haskell { HavePoints HASKELL (one_by HASKELL.integers.decimal 1) none }
    ensures scheme { HavePoints SCHEME (float_to 2) (float_to 2) }
    ensures ocaml { HavePoints OCAML (float_to 2) none }
    ensures javascript { HavePoints JAVASCRIPT (float_to 2) (float_to 2) }
    ensures coffeescript { HavePoints COFFEESCRIPT (one_by COFFEESCRIPT.integers.decimal 1)
        (float_to 2) }
    ensures postgresql { HavePoints POSTGRESQL (float_to 2) (float_to 2) }
    ensures sqlite { HavePoints SQLITE (float_to 2) (float_to 2) }
    ensures mysql { HavePoints MYSQL (float_to 2) (float_to 2) }
    ensures hcl { HavePoints HCL (one_by HCL.integers.decimal 1) none }
    ensures json { HavePoints JSON (one_by JSON.integers.decimal 1) none }
    ensures json_floats { HavePoints JSON_FLOATS (float_to 1) none }
    ensures json5 { HavePoints JSON5 (float_to 2) (float_to 2) }
    ensures yaml { HavePoints YAML (float_to 2) (float_to 2) }
    ensures toml { HavePoints TOML (one_by TOML.integers.decimal 1) none }
    ensures edn { HavePoints EDN (float_to 2) none }
    ensures css { HavePoints CSS (float_to 1) (float_to 2) }
    ensures decimal { HavePoints DECIMAL (float_to 2) (float_to 2) }
    ensures xml_double { HavePoints XML_DOUBLE (float_to 2) (float_to 2) }
    ensures prometheus { HavePoints PROMETHEUS (float_to 2) (float_to 2) }
    ensures protobuf_text { HavePoints PROTOBUF_TEXT (float_to 2) (float_to 2) }
    ensures strtod { HavePoints STRTOD (float_to 2) (float_to 2) }
    ensures from_chars { HavePoints FROM_CHARS (float_to 2) (float_to 2) }
    ensures rust_parse { HavePoints RUST_PARSE (float_to 2) (float_to 2) }
    ensures python_float { HavePoints PYTHON_FLOAT (float_to 2) (float_to 2) }
    ensures java_parse_double { HavePoints JAVA_PARSE_DOUBLE (float_to 2) (float_to 2) }
    ensures go_parse_float { HavePoints GO_PARSE_FLOAT (float_to 2) (float_to 2) }
    ensures csharp_parse { HavePoints CSHARP_PARSE (float_to 2) (float_to 2) }
    ensures ruby_float { HavePoints RUBY_FLOAT (one_by RUBY_FLOAT.integers.decimal 1) (float_to 2) }
    ensures lua_tonumber { HavePoints LUA_TONUMBER (float_to 2) (float_to 2) }
    ensures javascript_number { HavePoints JAVASCRIPT_NUMBER (float_to 2) (float_to 2) }
    ensures javascript_parse_float { HavePoints JAVASCRIPT_PARSE_FLOAT (float_to 2) (float_to 2) }
    ensures postgresql_numeric { HavePoints POSTGRESQL_NUMERIC (float_to 2) (float_to 2) }
    ensures fortran_read { HavePoints FORTRAN_READ (float_to 2) (float_to 2) }
    ensures str2double { HavePoints STR2DOUBLE (float_to 2) (float_to 2) }
{}

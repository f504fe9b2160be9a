//! Names of special values, as forms have them: `LOWER_CASE` is `inf` and `nan`, `CAPITALIZED` is
//! `Infinity` and `NaN`.

use super::form::{NameSign, Special, SpecialValue, Specials};

/// `inf`, `nan`.
pub const LOWER_CASE: Specials = Specials {
    names: [INF, NAN, ABSENT, ABSENT, ABSENT, ABSENT, ABSENT, ABSENT],
    any_case: false,
};

/// `Infinity`, `NaN`.
pub const CAPITALIZED: Specials = Specials {
    names: [
        CAPITAL_INFINITY,
        CAPITAL_NAN,
        ABSENT,
        ABSENT,
        ABSENT,
        ABSENT,
        ABSENT,
        ABSENT,
    ],
    any_case: false,
};

/// `inf`, `infinity`, `nan`, in any case.
pub const ANY_CASE: Specials = Specials {
    names: [INF, INFINITY, NAN, ABSENT, ABSENT, ABSENT, ABSENT, ABSENT],
    any_case: true,
};

/// `inf`, `infinity`, `nan`, in any case, without a sign before `nan`.
pub const ANY_CASE_UNSIGNED_NAN: Specials = Specials {
    names: [
        INF,
        INFINITY,
        UNSIGNED_NAN,
        ABSENT,
        ABSENT,
        ABSENT,
        ABSENT,
        ABSENT,
    ],
    any_case: true,
};

/// `.inf`, `.Inf`, `.INF`, `.nan`, `.NaN`, `.NAN`, without a sign before the last three.
pub const YAML_NAMES: Specials = Specials {
    names: [
        DOT_INF,
        DOT_CAPITAL_INF,
        DOT_UPPER_INF,
        DOT_NAN,
        DOT_CAPITAL_NAN,
        DOT_UPPER_NAN,
        ABSENT,
        ABSENT,
    ],
    any_case: false,
};

/// `Inf`, `NaN`.
pub const R_NAMES: Specials = Specials {
    names: [
        CAPITAL_INF,
        CAPITAL_NAN,
        ABSENT,
        ABSENT,
        ABSENT,
        ABSENT,
        ABSENT,
        ABSENT,
    ],
    any_case: false,
};

/// `inf`, `nan`, in any case.
pub const SHORT_ANY_CASE: Specials = Specials {
    any_case: true,
    ..LOWER_CASE
};

/// `Infinity`.
pub const ONLY_INFINITY: Specials = Specials {
    names: [
        CAPITAL_INFINITY,
        ABSENT,
        ABSENT,
        ABSENT,
        ABSENT,
        ABSENT,
        ABSENT,
        ABSENT,
    ],
    any_case: false,
};

/// `INF`, `NaN`, with a minus or no sign before the first, and no sign before the second.
pub const XML_NAMES: Specials = Specials {
    names: [
        XML_INF,
        UNSIGNED_CAPITAL_NAN,
        ABSENT,
        ABSENT,
        ABSENT,
        ABSENT,
        ABSENT,
        ABSENT,
    ],
    any_case: false,
};

/// `Infinity`, with a minus or without a sign before it; `NaN`, without a sign.
pub const CSHARP_NAMES: Specials = Specials {
    names: [
        CSHARP_INFINITY,
        UNSIGNED_CAPITAL_NAN,
        ABSENT,
        ABSENT,
        ABSENT,
        ABSENT,
        ABSENT,
        ABSENT,
    ],
    any_case: false,
};

/// `##Inf`, `##-Inf`, `##NaN`, without a sign before them.
pub const EDN_NAMES: Specials = Specials {
    names: [
        EDN_INF,
        EDN_NEGATIVE_INF,
        EDN_NAN,
        ABSENT,
        ABSENT,
        ABSENT,
        ABSENT,
        ABSENT,
    ],
    any_case: false,
};

/// `inf.0`, `nan.0`, in any case, after a sign.
pub const SCHEME_NAMES: Specials = Specials {
    names: [
        SCHEME_INF, SCHEME_NAN, ABSENT, ABSENT, ABSENT, ABSENT, ABSENT, ABSENT,
    ],
    any_case: true,
};

const ABSENT: Special = Special::ABSENT;

const INF: Special = Special {
    name: *b"inf\0\0\0\0\0",
    value: SpecialValue::Infinity,
    sign: NameSign::Either,
};

const CAPITAL_INF: Special = Special {
    name: *b"Inf\0\0\0\0\0",
    ..INF
};

const INFINITY: Special = Special {
    name: *b"infinity",
    value: SpecialValue::Infinity,
    sign: NameSign::Either,
};

const CAPITAL_INFINITY: Special = Special {
    name: *b"Infinity",
    value: SpecialValue::Infinity,
    sign: NameSign::Either,
};

const NAN: Special = Special {
    name: *b"nan\0\0\0\0\0",
    value: SpecialValue::NotANumber,
    sign: NameSign::Either,
};

const CAPITAL_NAN: Special = Special {
    name: *b"NaN\0\0\0\0\0",
    value: SpecialValue::NotANumber,
    sign: NameSign::Either,
};

const UNSIGNED_NAN: Special = Special {
    name: *b"nan\0\0\0\0\0",
    value: SpecialValue::NotANumber,
    sign: NameSign::Absent,
};

const DOT_INF: Special = Special {
    name: *b".inf\0\0\0\0",
    value: SpecialValue::Infinity,
    sign: NameSign::Either,
};

const DOT_CAPITAL_INF: Special = Special {
    name: *b".Inf\0\0\0\0",
    value: SpecialValue::Infinity,
    sign: NameSign::Either,
};

const DOT_UPPER_INF: Special = Special {
    name: *b".INF\0\0\0\0",
    value: SpecialValue::Infinity,
    sign: NameSign::Either,
};

const DOT_NAN: Special = Special {
    name: *b".nan\0\0\0\0",
    value: SpecialValue::NotANumber,
    sign: NameSign::Absent,
};

const DOT_CAPITAL_NAN: Special = Special {
    name: *b".NaN\0\0\0\0",
    value: SpecialValue::NotANumber,
    sign: NameSign::Absent,
};

const DOT_UPPER_NAN: Special = Special {
    name: *b".NAN\0\0\0\0",
    value: SpecialValue::NotANumber,
    sign: NameSign::Absent,
};

const XML_INF: Special = Special {
    name: *b"INF\0\0\0\0\0",
    value: SpecialValue::Infinity,
    sign: NameSign::Minus,
};

const CSHARP_INFINITY: Special = Special {
    name: *b"Infinity",
    value: SpecialValue::Infinity,
    sign: NameSign::Minus,
};

const UNSIGNED_CAPITAL_NAN: Special = Special {
    name: *b"NaN\0\0\0\0\0",
    value: SpecialValue::NotANumber,
    sign: NameSign::Absent,
};

const EDN_INF: Special = Special {
    name: *b"##Inf\0\0\0",
    value: SpecialValue::Infinity,
    sign: NameSign::Absent,
};

const EDN_NEGATIVE_INF: Special = Special {
    name: *b"##-Inf\0\0",
    value: SpecialValue::NegativeInfinity,
    sign: NameSign::Absent,
};

const EDN_NAN: Special = Special {
    name: *b"##NaN\0\0\0",
    value: SpecialValue::NotANumber,
    sign: NameSign::Absent,
};

const SCHEME_INF: Special = Special {
    name: *b"inf.0\0\0\0",
    value: SpecialValue::Infinity,
    sign: NameSign::Required,
};

const SCHEME_NAN: Special = Special {
    name: *b"nan.0\0\0\0",
    value: SpecialValue::NotANumber,
    sign: NameSign::Required,
};

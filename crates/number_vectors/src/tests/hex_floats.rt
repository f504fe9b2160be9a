//! The nearest floats of hexadecimal digits, by `CXX14_HEX_LITERAL`: one `'` between two digits of
//! each component.

use digit_floats::{Float, FloatError, Marks, read_hex_float_from};
use lexical_format::words::CXX14_HEX_LITERAL;

const P: Marks = Marks {
    point: b'.',
    exponent: b'p',
};

/// The bits of the nearest `f64` and `f32`, by `strtod` and `strtof` of C (glibc), which read no
/// separators.
const FLOATS: [(&[u8], u64, u32); 67] = [
    (b"1.8p3", 0x4028000000000000, 0x41400000),
    (b"0", 0x0000000000000000, 0x00000000),
    (b"0p99999999999999999999", 0x0000000000000000, 0x00000000),
    (b"0.0p-5", 0x0000000000000000, 0x00000000),
    (b"1", 0x3ff0000000000000, 0x3f800000),
    (b"A", 0x4024000000000000, 0x41200000),
    (b"a.b", 0x4025600000000000, 0x412b0000),
    (b"FF.Fp+4", 0x40affe0000000000, 0x457ff000),
    (b"1'8.8p1'0", 0x40d8800000000000, 0x46c40000),
    (b".8", 0x3fe0000000000000, 0x3f000000),
    (b"8.", 0x4020000000000000, 0x41000000),
    (b"123456789abcdef", 0x43723456789abcdf, 0x5b91a2b4),
    (b"1.fffffffffffffp1023", 0x7fefffffffffffff, 0x7f800000),
    (b"1.fffffffffffff7p1023", 0x7fefffffffffffff, 0x7f800000),
    (b"1.fffffffffffff8p1023", 0x7ff0000000000000, 0x7f800000),
    (
        b"1.fffffffffffff7fffffffffffffffffffp1023",
        0x7fefffffffffffff,
        0x7f800000,
    ),
    (b"1p1024", 0x7ff0000000000000, 0x7f800000),
    (b"1p-1074", 0x0000000000000001, 0x00000000),
    (b"1p-1075", 0x0000000000000000, 0x00000000),
    (
        b"1.0000000000000000000000000001p-1075",
        0x0000000000000001,
        0x00000000,
    ),
    (b"1p-1076", 0x0000000000000000, 0x00000000),
    (b"1.8p-1074", 0x0000000000000002, 0x00000000),
    (b"2.8p-1074", 0x0000000000000002, 0x00000000),
    (b"0.8p-1073", 0x0000000000000001, 0x00000000),
    (b"1.4p-1074", 0x0000000000000001, 0x00000000),
    (b"1.bp-1074", 0x0000000000000002, 0x00000000),
    (b"0.fffffffffffff8p-1022", 0x0010000000000000, 0x00000000),
    (b"0.fffffffffffff7fp-1022", 0x000fffffffffffff, 0x00000000),
    (b"1p-1022", 0x0010000000000000, 0x00000000),
    (b"1.0000000000000cp-1030", 0x0000100000000000, 0x00000000),
    (b"1.00000000000008p0", 0x3ff0000000000000, 0x3f800000),
    (b"1.00000000000018p0", 0x3ff0000000000002, 0x3f800000),
    (
        b"1.000000000000080000000000000001p0",
        0x3ff0000000000001,
        0x3f800000,
    ),
    (
        b"1.0000000000000800000000000000000p0",
        0x3ff0000000000000,
        0x3f800000,
    ),
    (
        b"1.00000000000007ffffffffffffffffffp0",
        0x3ff0000000000000,
        0x3f800000,
    ),
    (b"20000000000001p0", 0x4340000000000000, 0x5a000000),
    (b"20000000000003p0", 0x4340000000000002, 0x5a000000),
    (
        b"2000000000000100000000000000000000000000000000000001",
        0x4cc0000000000001,
        0x7f800000,
    ),
    (
        b"20000000000001000000000000000000000000000000",
        0x4ac0000000000000,
        0x7f800000,
    ),
    (b"1.0000010p0", 0x3ff0000010000000, 0x3f800000),
    (b"1.000003p0", 0x3ff0000030000000, 0x3f800002),
    (
        b"1.0000010000000000000000000000001p0",
        0x3ff0000010000000,
        0x3f800001,
    ),
    (b"1.000001p0", 0x3ff0000010000000, 0x3f800000),
    (b"1.fffffep127", 0x47efffffe0000000, 0x7f7fffff),
    (b"1.ffffffp127", 0x47effffff0000000, 0x7f800000),
    (b"1.fffffefp127", 0x47efffffef000000, 0x7f7fffff),
    (b"1p128", 0x47f0000000000000, 0x7f800000),
    (b"1p-149", 0x36a0000000000000, 0x00000001),
    (b"1p-150", 0x3690000000000000, 0x00000000),
    (
        b"1.00000000000000000000001p-150",
        0x3690000000000000,
        0x00000001,
    ),
    (b"1.8p-149", 0x36a8000000000000, 0x00000002),
    (b"2.8p-149", 0x36b4000000000000, 0x00000002),
    (b"0.ffffffp-126", 0x380fffffe0000000, 0x00800000),
    (b"1p-126", 0x3810000000000000, 0x00800000),
    (b"1.8p-148", 0x36b8000000000000, 0x00000003),
    (b"1p18446744073709551616", 0x7ff0000000000000, 0x7f800000),
    (b"1p-18446744073709551616", 0x0000000000000000, 0x00000000),
    (b"1p18446744073709551615", 0x7ff0000000000000, 0x7f800000),
    (b"1p-99999999999999999999", 0x0000000000000000, 0x00000000),
    (
        b"0.00000000000000000000000000000000000000000000000000000000000000000001p300",
        0x41b0000000000000,
        0x4d800000,
    ),
    (
        b"fffffffffffffffffffffffffffffffffffffffffffffffffffffffffffffffp-300",
        0x3cf0000000000000,
        0x27800000,
    ),
    (b"1000000000000000p-60", 0x3ff0000000000000, 0x3f800000),
    (b"fffffffffffffffp-60", 0x3ff0000000000000, 0x3f800000),
    (b"10000000000000001p-64", 0x3ff0000000000000, 0x3f800000),
    (b"ffffffffffffffffp0", 0x43f0000000000000, 0x5f800000),
    (b"fffffffffffffbffp0", 0x43efffffffffffff, 0x5f800000),
    (b"fffffffffffffc00p0", 0x43f0000000000000, 0x5f800000),
];

#[tactic(auto, unfolding(lexical_format::proofs::OnLiterals::lexical_on_literals))]
fn double(text: &[u8], negative: bool) -> Result<(u64, usize), FloatError> {
    let (x, end) = read_hex_float_from::<f64>(text, CXX14_HEX_LITERAL, P, negative, 0)?;
    Ok((x.to_bits(), end))
}

#[tactic(auto, unfolding(lexical_format::proofs::OnLiterals::lexical_on_literals))]
fn single(text: &[u8], negative: bool) -> Result<(u32, usize), FloatError> {
    let (x, end) = read_hex_float_from::<f32>(text, CXX14_HEX_LITERAL, P, negative, 0)?;
    Ok((x.to_bits(), end))
}

#[test]
fn floats_are_nearest(rt: HostRuntime) {
    for (text, bits64, bits32) in FLOATS {
        assert!(&rt; double(text, false) == Ok((bits64, text.len())), "{text:?}");
        assert!(&rt; single(text, false) == Ok((bits32, text.len())), "{text:?}");
    }
    assert!(&rt; double(b"1.8p1", true) == Ok((0xc008000000000000, 5)));
    assert!(&rt; single(b"0p9", true) == Ok((0x80000000, 3)));
}

/// By hand.
#[test]
fn a_number_ends_where_its_digits_end(rt: HostRuntime) {
    assert!(&rt; double(b"1'F.8'p1", false) == Ok((0x403f800000000000, 5)));
    assert!(&rt; double(b"1'F.8p'1", false) == Err(FloatError::EmptyExponent(6)));
    assert!(&rt; double(b"1.8f", false) == Ok((0x3ff8f00000000000, 4)));
    assert!(&rt; double(b"1.8g", false) == Ok((0x3ff8000000000000, 3)));
    assert!(&rt; double(b".p1", false) == Err(FloatError::Empty(1)));
    assert!(&rt; double(b"1P+", false) == Err(FloatError::EmptyExponent(3)));
}

#[test]
fn infinity_and_nan(rt: HostRuntime) {
    let infinity: f64 = Float::infinity();
    assert!(&rt; infinity == f64::INFINITY);
    let nan: f32 = Float::not_a_number();
    assert!(&rt; nan != nan);
}

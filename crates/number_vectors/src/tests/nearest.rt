//! The nearest floats of texts, by `PYTHON_LITERAL`: one `_` between two digits of each component.

use digit_floats::{FloatError, parse_float, parse_float_from, read_float, read_short_whole};
use lexical_format::words::{JAVA_LITERAL, PYTHON_LITERAL};
use lexical_format::{
    FRACTION_LEADING_DIGIT_SEPARATOR, INTEGER_TRAILING_DIGIT_SEPARATOR, NumberFormat, STANDARD,
    is_supported,
};
use std::alloc::{AllocError, Global};
use std::process::Abort;

/// The bits of the nearest `f64`, by CPython's `float` and `struct.pack`.
const DOUBLES: [(&[u8], u64); 37] = [
    (b"0", 0x0000000000000000),
    (b"-0", 0x8000000000000000),
    (b"1", 0x3ff0000000000000),
    (b"-1_234.5_6e+1_0", 0xc2a674de34800000),
    (b"9007199254740993", 0x4340000000000000),
    (
        b"9007199254740993.0_000_000_000_000_000_000_000_001",
        0x4340000000000001,
    ),
    (b"9_007_199_254_740_992.9", 0x4340000000000000),
    (b"1.7976931348623158e308", 0x7fefffffffffffff),
    (b"1.7976931348623159e308", 0x7ff0000000000000),
    (b"1e400", 0x7ff0000000000000),
    (b"1e-400", 0x0000000000000000),
    (b"-1e-400", 0x8000000000000000),
    (b"0e999999999999999999999", 0x0000000000000000),
    (b"1e1_000_000_000_000", 0x7ff0000000000000),
    (b"5e-324", 0x0000000000000001),
    (b"2.4703282292062327e-324", 0x0000000000000000),
    (b"2.4703282292062328e-324", 0x0000000000000001),
    (b"2.2250738585072011e-308", 0x000fffffffffffff),
    (b"4.9406564584124654e-324", 0x0000000000000001),
    (b"2.2250738585072014e-308", 0x0010000000000000),
    (b"4.4501477170144023e-308", 0x001fffffffffffff),
    (b"1e22", 0x4480f0cf064dd592),
    (b"1e23", 0x44b52d02c7e14af6),
    (b"1e-22", 0x3b5e392010175ee6),
    (b"1e-1_0_0", 0x2b2bff2ee48e0530),
    (b"9007199254740995", 0x4340000000000002),
    (b"18_446_744_073_709_565_952", 0x43f0000000000004),
    (b"123456789012345678901234567890e-10", 0x43e56a95319d63e1),
    (b"-.0e5", 0x8000000000000000),
    (b".5", 0x3fe0000000000000),
    (b"5.", 0x4014000000000000),
    (b"+1E5", 0x40f86a0000000000),
    (b"123_456.789_012e1_0", 0x43118b54f22ab500),
    (b"0.1", 0x3fb999999999999a),
    (b"3.141_592_653_589_793_238_462", 0x400921fb54442d18),
    (
        b"0.000_000_000_000_000_000_000_000_000_001",
        0x39b4484bfeebc2a0,
    ),
    (
        b"179769313486231570000000000000000000000000000000000000000000000000000000000000000000000000000000000000000000000000000000000000000000000000000000000000000000000000000000000000000000000000000000000000000000000000000000000000000000000000000000000000000000000000000000000000000000000000000000000000000000000000000",
        0x7fefffffffffffff,
    ),
];

/// Numbers that one product with a power of ten of 64 bits leaves undecided, found by a search in
/// Python: random digits and exponents for which both ends of the product's error round apart. Of
/// the last three the digits after the first 19 are cut off. The bits by CPython's `float`.
const UNDECIDED: [(&[u8], u64); 11] = [
    (b"227717055223185445e-55", 0x381efec802a6be2d),
    (b"8895197897916929638e1", 0x441349d3a6600599),
    (b"7979182616979197296e40", 0x4c296c531247e68f),
    (b"4848635383755091692e34", 0x4ae032f6b4b16da3),
    (b"5811781575790392445e-39", 0x3bbb7203472f230b),
    (b"3485459327916018644e-30", 0x3d8ea88e819c729f),
    (b"6562061377389666858e-35", 0x3c92e9f25929303b),
    (b"9682979594741840190e-32", 0x3d3b415276ecd99f),
    (b"1390923018544942847688123e33", 0x4bcc5cf4faad9114),
    (b"6305818351636392315829886e-27", 0x3f79d421398447b1),
    (b"362001326456210211263681e5", 0x45dd3e0310bbaa98),
];

/// The greatest and the least floats, subnormal and normal, and their neighbours, by CPython: the
/// first three are the middle between the greatest float and 2^1024, and one less and one more.
const ENDS: [(&[u8], u64); 11] = [
    (
        b"179769313486231580793728971405303415079934132710037826936173778980444968292764750946649017977587207096330286416692887910946555547851940402630657488671505820681908902000708383676273854845817711531764475730270069855571366959622842914819860834936475292719074168444365510704342711559699508093042880177904174497791",
        0x7fefffffffffffff,
    ),
    (
        b"179769313486231580793728971405303415079934132710037826936173778980444968292764750946649017977587207096330286416692887910946555547851940402630657488671505820681908902000708383676273854845817711531764475730270069855571366959622842914819860834936475292719074168444365510704342711559699508093042880177904174497792",
        0x7ff0000000000000,
    ),
    (
        b"179769313486231580793728971405303415079934132710037826936173778980444968292764750946649017977587207096330286416692887910946555547851940402630657488671505820681908902000708383676273854845817711531764475730270069855571366959622842914819860834936475292719074168444365510704342711559699508093042880177904174497793",
        0x7ff0000000000000,
    ),
    (b"1.7976931348623157e308", 0x7fefffffffffffff),
    (b"1.7976931348623158e308", 0x7fefffffffffffff),
    (b"4.9e-324", 0x0000000000000001),
    (b"2.5e-324", 0x0000000000000001),
    (b"2.4703282292062328e-324", 0x0000000000000001),
    (b"2.2250738585072012e-308", 0x0010000000000000),
    (b"2.2250738585072011e-308", 0x000fffffffffffff),
    (b"2.225073858507201e-308", 0x000fffffffffffff),
];

/// Random 17 digits, times ten to each power beside an end of the table or of the floats, from
/// 10^-342 to 10^308, by CPython.
const POWERS: [(&[u8], u64); 32] = [
    (b"35916947868522639e-358", 0x0000000000000000),
    (b"62565044657441663e-357", 0x0000000000000000),
    (b"62595834767757723e-346", 0x0000000000000000),
    (b"95910763460448536e-341", 0x0000000000000000),
    (b"76562008400908709e-340", 0x0000000000000002),
    (b"23054362709331936e-339", 0x0000000000000005),
    (b"33271430322502792e-336", 0x0000000000001a4e),
    (b"50285543250006564e-326", 0x00005c9149782cac),
    (b"43915062847535739e-324", 0x001f940cf68533b2),
    (b"75913330518247753e-323", 0x00610f0102320976),
    (b"13155881391795284e-316", 0x01ac317ad138cc2c),
    (b"68083526232190067e-305", 0x041a8a313acce978),
    (b"58893507766105182e-304", 0x044cb260969b9a7e),
    (b"55730155862392934e-303", 0x0480f8dcea4f03b3),
    (b"27110549468110600e-216", 0x168099f72393f4b4),
    (b"48066007766635295e-116", 0x2b50d239390f48a1),
    (b"14587837167737820e-66", 0x3595d4f2e8012c42),
    (b"18105259427682275e-16", 0x3ffcf7ea0d0bfc55),
    (b"67839753304915680e34", 0x4a7d02dad7afda65),
    (b"33688619368862807e84", 0x54cecdf5ec3ede95),
    (b"55039877847468020e184", 0x699cc317db5662b4),
    (b"45917397139200025e254", 0x7821621d1bcd1562),
    (b"53541434867210349e255", 0x78595640b142c01d),
    (b"65125280185735042e256", 0x789342fb93f36cf0),
    (b"14792269973180976e271", 0x7b8f161750494d6e),
    (b"31668432990323718e272", 0x7bd4cc27a29649d7),
    (b"59512335540605574e273", 0x7c186d539dcfa073),
    (b"97749292156449783e275", 0x7c8f584fb3ec018a),
    (b"53188674402309441e276", 0x7cb551df2d75bfc4),
    (b"11884763592558348e284", 0x7e3c65009f2af794),
    (b"34576286223978172e291", 0x7fc89e7f7ff236cd),
    (b"94046129320945141e292", 0x7ff0000000000000),
];

/// The bits of the nearest `f32`, by CPython's `fractions`. The first four are undecided as above.
const SINGLES: [(&[u8], u32); 23] = [
    (b"746338464e0", 0x4e31f0e2),
    (b"225996510e-1", 0x4bac6bf2),
    (b"745876920e-1", 0x4c8e43c6),
    (b"599151475e-2", 0x4ab6d8b6),
    (b"16777217", 0x4b800000),
    (b"16777217.000000000000000000000000001", 0x4b800001),
    (b"3.4028235677973366e38", 0x7f7fffff),
    (b"3.4028235677973365e38", 0x7f7fffff),
    (b"7.006492321624085e-46", 0x00000000),
    (b"7.006492321624086e-46", 0x00000001),
    (b"0.1", 0x3dcccccd),
    (b"340282356779733661637539395458142568447", 0x7f7fffff),
    (b"340282356779733661637539395458142568448", 0x7f800000),
    (b"3.4028235e38", 0x7f7fffff),
    (b"1.4e-45", 0x00000001),
    (b"7.1e-46", 0x00000001),
    (b"1.17549435e-38", 0x00800000),
    (b"1.1754942e-38", 0x007fffff),
    (
        b"1.00000017881393421514957253748434595763683319091796875",
        0x3f800001,
    ),
    (b"1.00000017881393432617187499", 0x3f800001),
    (b"1.00000017881393432617187500", 0x3f800002),
    (b"1.00000017881393432617187501", 0x3f800002),
    (b"1_6.5", 0x41840000),
];

#[tactic(auto, unfolding(lexical_format::proofs::OnLiterals::lexical_on_literals))]
fn double(text: &[u8]) -> Result<u64, FloatError> {
    Ok(parse_float::<f64>(text, PYTHON_LITERAL)?.to_bits())
}

#[tactic(auto, unfolding(lexical_format::proofs::OnLiterals::lexical_on_literals))]
fn single(text: &[u8]) -> Result<u32, FloatError> {
    Ok(parse_float::<f32>(text, PYTHON_LITERAL)?.to_bits())
}

#[test]
fn doubles_are_nearest(rt: HostRuntime) {
    for (text, bits) in DOUBLES {
        assert!(&rt; double(text) == Ok(bits), "{text:?}");
    }
}

#[test]
fn the_hardest_doubles_are_nearest(rt: HostRuntime) {
    for (text, bits) in UNDECIDED {
        assert!(&rt; double(text) == Ok(bits), "{text:?}");
    }
    for (text, bits) in ENDS {
        assert!(&rt; double(text) == Ok(bits), "{text:?}");
    }
    for (text, bits) in POWERS {
        assert!(&rt; double(text) == Ok(bits), "{text:?}");
    }
}

#[test]
fn singles_are_nearest(rt: HostRuntime) {
    for (text, bits) in SINGLES {
        assert!(&rt; single(text) == Ok(bits), "{text:?}");
    }
}

#[test]
fn what_is_no_float_has_one_fault(rt: HostRuntime) {
    let rows: [(&[u8], FloatError); 13] = [
        (b"", FloatError::Empty(0)),
        (b".", FloatError::Empty(1)),
        (b"-", FloatError::Empty(1)),
        (b"-.e5", FloatError::Empty(2)),
        (b"e5", FloatError::Empty(0)),
        (b"nan", FloatError::Empty(0)),
        (b"inf", FloatError::Empty(0)),
        (b"1e", FloatError::EmptyExponent(2)),
        (b"1e-", FloatError::EmptyExponent(3)),
        (b"1_.5", FloatError::Invalid(1)),
        (b"1._5", FloatError::Invalid(2)),
        (b"1__0", FloatError::Invalid(1)),
        (b"1.5x", FloatError::Invalid(3)),
    ];
    for (text, fault) in rows {
        assert!(&rt; double(text) == Err(fault), "{text:?}");
    }
}

#[test]
#[tactic(auto, unfolding(lexical_format::proofs::OnLiterals::lexical_on_literals))]
fn a_float_is_read_from_a_start_on(rt: HostRuntime) {
    let read = read_float::<f64>(b"-1_0.5e1_0x", PYTHON_LITERAL);
    assert!(&rt; read == Ok((-1.05e11, 10)), "{read:?}");
    let part = parse_float_from::<f64>(b"x=2_5e-1", PYTHON_LITERAL, 2);
    assert!(&rt; part == Ok(2.5), "{part:?}");
    let long = read_float::<f64>(b"-12345678901234567890.5, 1", PYTHON_LITERAL);
    assert!(&rt; long == Ok((-12345678901234567890.5, 23)), "{long:?}");
    let long = parse_float_from::<f64>(b"x=0.12345678901234567890123", PYTHON_LITERAL, 2);
    assert!(&rt; long == Ok(0.12345678901234568), "{long:?}");
}

/// A text, then a byte so many times, then another text.
fn padded(
    alloc: Global,
    before: &[u8],
    byte: u8,
    count: usize,
    after: &[u8],
) -> Result<Vec<u8>, AllocError> {
    let mut text = Vec::new(alloc);
    text.extend_from_slice(before)?;
    for _ in 0..count {
        text.push(byte)?;
    }
    text.extend_from_slice(after)?;
    Ok(text)
}

/// `1.` and zeros.
const ONE: [u8; 40] = *b"1.00000000000000000000000000000000000000";

#[test]
#[tactic(auto, unfolding(lexical_format::proofs::OnLiterals::lexical_on_literals))]
fn a_float_is_parsed_alike_from_short_and_long_texts(rt: HostRuntime) {
    for len in 28..37 {
        let mut text = ONE;
        let one = parse_float::<f64>(&text[..len], PYTHON_LITERAL);
        assert!(&rt; one == Ok(1.0), "{len}: {one:?}");
        let last = parse_float_from::<f64>(&text[..len], PYTHON_LITERAL, len - 2);
        assert!(&rt; last == Ok(0.0), "{len}: {last:?}");
        text[len - 1] = b'x';
        let text = text.get(..len).unwrap_or(b"");
        let fault = parse_float::<f64>(text, PYTHON_LITERAL);
        assert!(&rt;
            fault == Err(FloatError::Invalid(len - 1)),
            "{len}: {fault:?}"
        );
    }
}

/// A text, and the float that it begins with and its end. The value is what the digits write.
const IN_TEXTS: [(&[u8], f64, usize); 8] = [
    (b"7,  ,  ,  ,  ,  ,  ,  ,  ,  ,  ,  ,  ,  ,  ,", 7.0, 1),
    (b"122.5;  ;  ;  ;  ;  ;  ;  ;  ;  ;  ;  ;  ;  ;", 122.5, 5),
    (
        b"1234567.5e2 to 12345678.5e2 meters, and no more",
        123456750.0,
        11,
    ),
    (
        b"12345678.25 to 87654321.75 meters, and no more",
        12345678.25,
        11,
    ),
    (
        b"1_234_567.5, and then 1_234_567.5 once more",
        1234567.5,
        11,
    ),
    (
        b"123456789012345.25x, 123456789012, and more",
        123456789012345.25,
        18,
    ),
    (b"0.0000000000000000000000e1 or 0.0, or 0.00", 0.0, 26),
    (b"1_.5 is one, since no digit is after the line", 1.0, 1),
];

#[test]
#[tactic(auto, unfolding(lexical_format::proofs::OnLiterals::lexical_on_literals))]
fn a_float_is_the_same_however_long_its_text_is(rt: HostRuntime) {
    for (text, value, end) in IN_TEXTS {
        for len in end..text.len() {
            let answer = read_float::<f64>(text.get(..len).unwrap_or(b""), PYTHON_LITERAL);
            assert!(&rt; answer == Ok((value, end)), "{text:?}, {len}: {answer:?}");
        }
    }
}

/// The value and the end of the digits from a position on, if there are 1 to 19 and no `_` follows:
/// one by one.
fn short_digits(text: &[u8], start: usize) -> Option<(u64, usize)> {
    let mut value = 0u64;
    let mut end = start;
    for at in start..text.len() {
        if !text[at].is_ascii_digit() {
            break;
        }
        value = value
            .wrapping_mul(10)
            .wrapping_add(u64::from(text[at] & 15));
        end = at + 1;
    }
    let is_short = start < end && end - start <= 19 && text.get(end) != Some(&b'_');
    if is_short { Some((value, end)) } else { None }
}

#[test]
#[tactic(auto, unfolding(lexical_format::proofs::OnLiterals::lexical_on_literals))]
fn a_short_integer_is_the_same_however_long_its_text_is(rt: HostRuntime) {
    for start in 0..40 {
        for digits in 0..22 {
            let mut text = [b' '; 80];
            for at in start..start + digits {
                text[at] = b'1' + (at % 9) as u8;
            }
            text[start + digits] = if start % 3 == 0 { b'_' } else { b'.' };
            for more in [0, 1, 2, 8, 16] {
                let text = &text[..start + digits + more];
                let whole = read_short_whole(text, PYTHON_LITERAL, start);
                let read = whole.map(|whole| (whole.value, whole.whole_end));
                let is = short_digits(text, start);
                assert!(&rt; read == is, "{start}, {digits}, {more}: {read:?}");
            }
        }
    }
}

/// Long numbers; their bits follow from the row's words.
#[test]
fn a_number_of_any_length_is_read(rt: HostRuntime) -> Result<(), AllocError> {
    let rows: [(&[u8], u8, usize, &[u8], u64); 19] = [
        // 2^53 + 1, in the middle: to the even one, and above it with a digit at the end
        (b"9007199254740993.", b'0', 770, b"", 0x4340000000000000),
        (b"9007199254740993.", b'0', 770, b"1", 0x4340000000000001),
        (b"9007199254740993.", b'0', 2_000, b"1", 0x4340000000000001),
        (b"9007199254740993.", b'0', 100_000, b"", 0x4340000000000000),
        (
            b"9007199254740993.",
            b'0',
            100_000,
            b"1",
            0x4340000000000001,
        ),
        (b"9007199254740992.", b'9', 100_000, b"", 0x4340000000000000),
        // the same with a separator or an exponent
        (b"9_007199254740993.", b'0', 2_000, b"", 0x4340000000000000),
        (b"9_007199254740993.", b'0', 2_000, b"1", 0x4340000000000001),
        (
            b"9_007199254740992.",
            b'9',
            100_000,
            b"",
            0x4340000000000000,
        ),
        (
            b"9007199254740993",
            b'0',
            100_000,
            b"1e-100001",
            0x4340000000000001,
        ),
        (b"0.", b'3', 2_000, b"e1", 0x400aaaaaaaaaaaab),
        // 1 / 3 and 1, with the point far from the first digit
        (b"0.", b'3', 2_000, b"", 0x3fd5555555555555),
        (b"0.", b'0', 100_000, b"1e100001", 0x3ff0000000000000),
        (b"1", b'0', 100_000, b"e-100000", 0x3ff0000000000000),
        (b"", b'0', 100_000, b"1", 0x3ff0000000000000),
        // beyond all floats, and below all
        (b"1", b'0', 100_000, b"", 0x7ff0000000000000),
        (b"0.", b'0', 100_000, b"1", 0),
        // exponents of 100,000 digits
        (b"-1e", b'9', 100_000, b"", 0xfff0000000000000),
        (b"1e-", b'9', 100_000, b"", 0),
    ];
    for (before, byte, count, after, bits) in rows {
        let text = padded(rt.alloc(), before, byte, count, after)?;
        let is = double(&text);
        assert!(&rt; is == Ok(bits), "{before:?} {count} {after:?}: {is:?}");
    }
    Ok(())
}

/// `0.` and the 1,075 places of a number times 2 to the power -1,075, which is half the least
/// float: the number times 5 to the power 1,075.
fn halves(alloc: Global, number: u64) -> Result<Vec<u8>, AllocError> {
    let mut digits = [0u8; 800];
    let mut rest = number;
    for digit in &mut digits {
        *digit = (rest % 10) as u8;
        rest = rest / 10;
    }
    for _ in 0..1075 {
        let mut carry = 0;
        for digit in &mut digits {
            let five = digit.wrapping_mul(5).wrapping_add(carry);
            *digit = five % 10;
            carry = five / 10;
        }
    }
    let mut text = padded(alloc, b"0.", b'0', 1075 - 800, b"")?;
    for digit in digits.iter().rev() {
        text.push(digit.wrapping_add(b'0'))?;
    }
    Ok(text)
}

/// Middles between two floats, of 752 to 768 digits, by CPython: the bits of the middle, of a
/// number just below it, and of one just above.
#[test]
fn the_middle_between_two_floats_is_even(rt: HostRuntime) -> Result<(), AllocError> {
    let rows: [(u64, u64, u64, u64); 5] = [
        (1, 0, 0, 1),
        (3, 2, 1, 2),
        // beside the least normal float
        (
            0x1f_ffff_ffff_ffff,
            0x0010000000000000,
            0x000fffffffffffff,
            0x0010000000000000,
        ),
        (
            0x20_0000_0000_0001,
            0x0010000000000000,
            0x0010000000000000,
            0x0010000000000001,
        ),
        (
            0x3f_ffff_ffff_ffff,
            0x0020000000000000,
            0x001fffffffffffff,
            0x0020000000000000,
        ),
    ];
    for (number, middle, below, above) in rows {
        let mut text = halves(rt.alloc(), number)?;
        assert!(&rt; double(&text) == Ok(middle), "{number}");
        text.push(b'1')?;
        assert!(&rt; double(&text) == Ok(above), "{number}");
        // the last digit is 5
        text.pop();
        text.pop();
        text.extend_from_slice(b"49")?;
        assert!(&rt; double(&text) == Ok(below), "{number}");
    }
    Ok(())
}

#[tactic(auto, unfolding(lexical_format::proofs::OnLiterals::lexical_on_literals))]
fn double_of_java(text: &[u8]) -> Result<u64, FloatError> {
    Ok(parse_float::<f64>(text, JAVA_LITERAL)?.to_bits())
}

#[test]
fn a_hundred_thousand_separators_are_dropped(rt: HostRuntime) -> Result<(), AllocError> {
    let text = padded(rt.alloc(), b"1", b'_', 100_000, b"2.5")?;
    assert!(&rt; double_of_java(&text) == Ok(0x4029000000000000));
    let text = padded(rt.alloc(), b"1", b'_', 100_000, b".5")?;
    assert!(&rt; double_of_java(&text) == Err(FloatError::Invalid(1)));
    Ok(())
}

/// The float by a word of radix 10 and `_`.
fn double_by(rt: &impl Abort, text: &[u8], flags: u128) -> Result<u64, FloatError> {
    let word = STANDARD | (0x5f << 64) | flags;
    let format = NumberFormat::new(word);
    assert!(rt; is_supported(word));
    assert!(rt; format.mantissa_radix() == 10 && format.exponent_radix() == 10);
    Ok(parse_float::<f64>(text, word)?.to_bits())
}

/// The flags of a word are its bits 32 to 44.
#[test]
fn a_separator_beside_the_point_needs_its_flag(rt: HostRuntime) {
    for bit in 32..45u32 {
        let flag = 1u128 << bit;
        let before = if flag == INTEGER_TRAILING_DIGIT_SEPARATOR {
            Ok(0x3ff8000000000000)
        } else {
            Err(FloatError::Invalid(1))
        };
        let after = if flag == FRACTION_LEADING_DIGIT_SEPARATOR {
            Ok(0x3ff8000000000000)
        } else {
            Err(FloatError::Invalid(2))
        };
        assert!(&rt; double_by(&rt, b"1_.5", flag) == before, "{bit}");
        assert!(&rt; double_by(&rt, b"1._5", flag) == after, "{bit}");
    }
}

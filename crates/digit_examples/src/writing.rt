//! What WRITING.md says that its functions write.

use digit_uses::writing::{
    put_array, put_float, put_price, put_row, write_array, write_bits, write_two_places,
};
use digits::{Layout, NoRoom, write_number_by};

/// A float with two places.
#[test]
fn two_places(rt: HostRuntime) {
    let mut out = [0; 8];
    assert_eq!(rt; write_two_places(2.5, &mut out), Some(4));
    assert_eq!(rt; &out[..4], b"2.50".as_slice());
    assert_eq!(rt; write_two_places(-0.001, &mut out), Some(5));
    assert_eq!(rt; &out[..5], b"-0.00".as_slice());
    assert_eq!(rt; write_two_places(f64::NAN, &mut out), None);
    assert_eq!(rt; write_two_places(123456.0, &mut out), None);
}

/// Prices in a column.
#[test]
fn a_column_of_prices(rt: HostRuntime) {
    let mut out = Vec::new(rt.alloc());
    assert!(rt; put_price(123450, &mut out).is_ok());
    assert!(rt; out.as_slice() == b"    1,234.50".as_slice());
    let mut out = Vec::new(rt.alloc());
    assert!(rt; put_price(i64::MIN, &mut out).is_ok());
    assert!(rt; out.as_slice() == b"-92,233,720,368,547,758.08".as_slice());
}

/// An array that is written.
#[test]
fn an_array_in_a_slice(rt: HostRuntime) {
    let mut out = [0; 9];
    assert!(rt; write_array(&[1.5, 2.0], &mut out) == Some(9));
    assert_eq!(rt; &out[..], b"[1.5,2.0]".as_slice());
    assert!(rt; write_array(&[], &mut out) == Some(2));
    assert_eq!(rt; &out[..2], b"[]".as_slice());
    assert!(rt; write_array(&[1.5, -2.0], &mut out) == None);
    assert!(rt; write_array(&[f64::NAN], &mut out) == None);
    assert!(rt; write_array(&[], &mut []) == None);
}

/// The bits of a number.
#[test]
fn bits(rt: HostRuntime) {
    let mut out = [0; 16];
    assert_eq!(rt; write_bits(-1, &mut out), Ok(16));
    assert!(rt; out == *b"ffffffffffffffff");
    assert_eq!(rt; write_bits(255, &mut out), Ok(16));
    assert!(rt; out == *b"00000000000000ff");
    assert_eq!(rt; write_bits(255, &mut [0; 15]), Err(NoRoom { needed: 16 }));
    let hexadecimal = Layout::of_radix(16).expect(&rt, "a layout").with_digits(16);
    assert_eq!(rt; write_number_by(-1i64, hexadecimal, &mut [0; 17]), Ok(17));
}

/// An array, and a float at the right end of a column.
#[test]
fn into_a_write(rt: HostRuntime) {
    let mut to = Vec::new(rt.alloc());
    assert!(rt; matches!(put_array(&[1.5, 2.0], &mut to), Ok(true)));
    assert!(rt; matches!(put_array(&[], &mut to), Ok(true)));
    assert!(rt; matches!(put_array(&[1.0, f64::NAN], &mut to), Ok(false)));
    assert!(rt; put_float(2.5, &mut to).is_ok() && put_float(f64::INFINITY, &mut to).is_ok());
    assert!(rt; to.as_slice() == b"[1.5,2.0][]        2.50           -".as_slice());
    let mut row = Vec::new(rt.alloc());
    assert!(rt; matches!(put_row(17, 123450, 0.1, &mut row), Ok(true)));
    assert!(rt; matches!(put_row(17, 123450, f64::NAN, &mut row), Ok(false)));
    assert!(rt; row.as_slice() == b"17,\"1,234.50\",0.1\n".as_slice());
    let mut wide = Vec::new(rt.alloc());
    assert!(rt; put_float(-f64::MAX, &mut wide).is_ok() && wide.len() == 313);
}

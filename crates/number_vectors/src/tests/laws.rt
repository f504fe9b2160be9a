//! The laws of integers and of floats, and those of what follows a number, each called once.

use super::{INTERNAL, UNFLAGGED, bytes_of};
use crate::pieces::{parse_field, parse_line};
use digit_amounts::laws::what_follows_changes_no_decimal;
use digit_floats::laws::{
    float_outcomes_say, what_follows_changes_no_float, zeros_keep_their_sign,
};
use digit_languages::laws::what_follows_changes_no_literal;
use digit_literals::laws::flags::more_flags_read_the_same;
use digit_literals::laws::follows::what_follows_changes_no_number;
use digit_literals::laws::{
    first_are_significant, first_go_on, greater_reads_more, outcomes_say,
    read_integer_is_read_digits, too_large_leaves_the_rest,
};
use digit_literals::{FirstDigits, outcomes_differ};
use digit_numbers::Number;
use digit_numbers::laws::follows::what_follows_changes_no_outcome;
use digit_numbers::laws::json_is_rfc_8259;
use lexical_format::{STANDARD, is_supported};

/// One digit, which is 0.
const FIRST: FirstDigits = FirstDigits {
    value: 0,
    count: 1,
    dropped: 0,
};

#[test]
fn laws_of_literals_may_be_called(rt: HostRuntime) {
    let mut bytes = bytes_of(&rt, b"12", UNFLAGGED | INTERNAL);
    outcomes_differ(&bytes.integer_iter(), 10);
    more_flags_read_the_same();
    what_follows_changes_no_number();
    what_follows_changes_no_literal();
    what_follows_changes_no_float();
    what_follows_changes_no_decimal();
    what_follows_changes_no_outcome();
    assert!(rt; is_supported(STANDARD));
    outcomes_say(b"12", STANDARD);
    greater_reads_more(b"12", STANDARD);
    too_large_leaves_the_rest();
    first_are_significant(16, 2, 0xff);
    first_go_on(10, 1, 9, FIRST, FIRST);
    read_integer_is_read_digits();
}

#[test]
fn laws_of_floats_may_be_called(_rt: HostRuntime) {
    float_outcomes_say(b"1.5", STANDARD);
    zeros_keep_their_sign(b"-0.0", STANDARD);
    json_is_rfc_8259::<f64>(b"1.5", 0);
}

#[test]
fn a_piece_is_read_as_in_the_whole_text(rt: HostRuntime) {
    assert!(rt; parse_field(b"1,2.5,-3e1", 2, 5) == Some(Number::Float(2.5)));
    assert!(rt; parse_field(b"1,2.5x,", 2, 6) == None);
    assert!(rt; parse_line(b"-2.50\n") == Some(Number::Float(-2.5)));
    assert!(rt; parse_line(b"2. \n") == None);
}

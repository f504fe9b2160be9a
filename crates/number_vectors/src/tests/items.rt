//! Lists of values of one's own: boxes with two sides each, `3 x 4`.

ghost use Rattle.std.specs.Prelude.{codes};
ghost use Rattle.std.specs.Result.{result_flatten, result_map_both};
ghost use Rattle.lexical_digits.specs.State.{rule_of};
ghost use Rattle.lexical_digits.specs.declared.skip.component.Component.TheVariants.{Integer};
ghost use Rattle.lexical_format.specs.declared.TheConstants.{STANDARD};
ghost use Rattle.digit_literals.specs.Errors.{literal_none_at, literal_position};
ghost use Rattle.digit_literals.specs.Integers.{integer_at};
ghost use Rattle.digit_values.specs.declared.LiteralError.TheVariants.{Empty};
ghost use Rattle.digit_numbers.specs.Bytes.{expect_bytes};

use digit_lists::{Item, read_items};
use digit_literals::{COMMAS, Gap, ListEnd, LiteralError, WHITESPACE, read_integer_from};
use digit_numbers::expect_bytes;
use lexical_format::STANDARD;

/// The sides of a box, each up to 255.
#[derive(Clone, Copy, Debug, PartialEq, Eq)]
struct Sides {
    x: u64,
    y: u64,
}

impl Item for Sides {
    type Error = LiteralError;

    ghost item_at = { λ text start.
        result_flatten (result_map_both (λ x.
        result_flatten (result_map_both (λ at.
        result_map_both (λ y. (record { x = x.0; y = y.0 }, y.1)) (λ e. e)
        (integer_at (rule_of STANDARD Integer) text at 255))
        Empty (expect_bytes text x.1 (codes " x "))))
        (λ e. e) (integer_at (rule_of STANDARD Integer) text start 255)) };

    ghost error_at = { literal_position };

    ghost none_at = { literal_none_at };

    #[tactic(auto, unfolding(lexical_format::proofs::OnLiterals::lexical_on_literals))]
    fn read_item(text: &[u8], start: usize) -> Result<(Sides, usize), LiteralError> {
        let (x, end) = read_integer_from(text, STANDARD, start, 255)?;
        let at = expect_bytes(text, end, b" x ").map_err(LiteralError::Empty)?;
        let (y, end) = read_integer_from(text, STANDARD, at, 255)?;
        Ok((Sides { x, y }, end))
    }

    fn error_at(error: LiteralError) -> usize {
        error.position()
    }

    fn is_none_at(error: LiteralError, place: usize) -> bool {
        error.is_none_at(place)
    }
}

/// The boxes of a text, in two places that hold `0 x 0`; how many were read, and why no more.
fn two(text: &[u8], gap: Gap) -> ([Sides; 2], usize, ListEnd<LiteralError>) {
    let mut out = [Sides { x: 0, y: 0 }; 2];
    let read = read_items(text, 0, gap, &mut out);
    (out, read.count, read.end)
}

#[test]
fn values_of_ones_own_are_read(rt: HostRuntime) {
    let none = Sides { x: 0, y: 0 };
    let small = Sides { x: 3, y: 4 };
    let large = Sides { x: 255, y: 10 };
    let empty = |at: usize| ListEnd::Fault(LiteralError::Empty(at));
    let too_large = ListEnd::Fault(LiteralError::Overflow(14));
    let rows: [(&[u8], Gap, [Sides; 2], usize, ListEnd<LiteralError>); 9] = [
        (
            b"3 x 4 , 255 x 10;",
            COMMAS,
            [small, large],
            2,
            ListEnd::Over(16),
        ),
        (
            b"3 x 4,255 x 10,1 x 1",
            COMMAS,
            [small, large],
            2,
            ListEnd::Full(15),
        ),
        (b"3 x 4,255 x 256", COMMAS, [small, none], 1, too_large),
        (b"3 x 4, 255 10", COMMAS, [small, none], 1, empty(10)),
        (b"3 x 4,", COMMAS, [small, none], 1, empty(6)),
        (b"3 x y", COMMAS, [none, none], 0, empty(4)),
        (b"", WHITESPACE, [none, none], 0, ListEnd::Over(0)),
        (b"3 x 4\n", WHITESPACE, [small, none], 1, ListEnd::Over(6)),
        (b"3 x 4\n255 x ", WHITESPACE, [small, none], 1, empty(12)),
    ];
    for (text, gap, out, count, end) in rows {
        let answer = two(text, gap);
        assert!(rt; answer == (out, count, end), "{text:?}: {answer:?}");
    }
}

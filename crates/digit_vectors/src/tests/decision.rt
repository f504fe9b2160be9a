//! The decision over a source that counts its looks, here over `1__2` by a rule with internal and
//! consecutive.

ghost use Rattle.std.specs.Prelude.{◌≡◌};
ghost use Rattle.lexical_digits.specs.Separators.{IsSupported};

use lexical_digits::skip::{ByteSource, Rule, Run, Sight, SliceSource, decide};

/// Radix 10, separator `_`, internal.
#[tactic(auto, unfolding(crate::proofs::Unfolded::digits_of_rule))]
fn internal_rule(consecutive: bool) -> Rule
    ensures supported { IsSupported result }
    ensures separator { result.separator ≡ 95 }
{
    Rule {
        separator: b'_',
        radix: 10,
        internal: true,
        leading: false,
        trailing: false,
        consecutive,
    }
}

/// The run of `1__2`.
const RUN: Run = Run { from: 1, to: 3 };

#[test]
fn a_source_counts_each_look(rt: HostRuntime) {
    let mut src = SliceSource::new(b"1__2");
    assert!(rt; src.length() == 4);
    assert!(rt; src.at(3) == b'2');
    assert!(rt; src.looks() == 1);
}

#[test]
fn a_scan_finds_the_run_and_what_is_behind_it(rt: HostRuntime) {
    let mut src = SliceSource::new(b"1__2");
    let sight = decide(&mut src, internal_rule(true), 1, true, None);
    assert!(rt;
        sight
            == Sight {
                place: 3,
                run: Some(RUN)
            }
    );
    let looks = src.looks();
    assert!(rt; 2 <= looks && looks <= 9, "{looks}");
}

#[test]
fn a_run_at_hand_is_not_scanned(rt: HostRuntime) {
    let mut src = SliceSource::new(b"1__2");
    let run = decide(&mut src, internal_rule(true), 1, true, None).run;
    assert!(rt; run == Some(RUN));
    let before = src.looks();
    let sight = decide(&mut src, internal_rule(true), 2, false, run);
    assert!(rt; sight == Sight { place: 3, run });
    assert!(rt; src.looks().saturating_sub(before) <= 3, "within the run");
    let before = src.looks();
    let sight = decide(&mut src, internal_rule(true), 4, false, run);
    assert!(rt; sight == Sight { place: 4, run });
    assert!(rt; src.looks().saturating_sub(before) <= 3, "at the end");
}

#[test]
fn without_consecutive_nothing_is_scanned(rt: HostRuntime) {
    let mut src = SliceSource::new(b"1__2");
    let sight = decide(&mut src, internal_rule(false), 1, true, None);
    assert!(rt;
        sight
            == Sight {
                place: 1,
                run: None
            }
    );
    let looks = src.looks();
    assert!(rt; looks <= 3, "{looks}");
}

#[test]
fn without_consecutive_a_run_stays_as_it_is(rt: HostRuntime) {
    let mut src = SliceSource::new(b"1__2");
    let run = decide(&mut src, internal_rule(true), 1, true, None).run;
    assert!(rt; run == Some(RUN));
    let before = src.looks();
    let sight = decide(&mut src, internal_rule(false), 1, true, run);
    assert!(rt; sight == Sight { place: 1, run });
    assert!(rt; src.looks().saturating_sub(before) <= 3);
}

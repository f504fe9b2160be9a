//! Where reading a text stops, and which texts are read to their end, in words of their bytes: laws
//! for the most common states of the flags. Clauses `fault_from` hold of a text that is read from
//! any position on, the others from its start. Each law is the contract of a function.

ghost use Rattle.std.specs.Prelude.{◌≡◌, ◌≤◌, ℕ, length, IsTrue};
ghost use Rattle.lexical_format.specs.Word.{is_supported};
ghost use Rattle.lexical_digits.specs.Separators.{GrantsAll};
ghost use Rattle.lexical_digits.specs.State.{rule_of};
ghost use Rattle.lexical_digits.specs.Stop.{stop};
ghost use Rattle.lexical_digits.specs.Texts.{IsInternalAlone, IsInternalInRuns, is_digit_or_between, is_digit_or_in_run, is_digit_or_separator, IsFirstFault, IsFirstFaultFrom, AllDigitsOrBetween, AllDigitsOrSeparators, IsFromDigitToDigit};

use crate::skip::Component;

/// With the internal flag only, reading stops at the first byte that is neither a digit nor a
/// separator between two digits. So a text is read to its end exactly if it has no such byte. Of a
/// separator at the start of the reading the byte before it is the left side. Requires a supported
/// word.
#[tactic(auto, using(crate::proofs::Calls::Texts::between))]
pub fn internal_reads_between(text: &[u8], word: u128, component: Component)
    requires { IsTrue (is_supported word) }
    ensures fault { let r = rule_of word component in IsInternalAlone r →
        IsFirstFault (is_digit_or_between r text.now) (length text.now) (stop r text.now 0 0) }
    ensures fault_from { let r = rule_of word component in IsInternalAlone r →
        (start : ℕ) → start ≤ length text.now →
        IsFirstFaultFrom start (is_digit_or_between r text.now) (length text.now)
        (stop r text.now start 0) }
    ensures if_read { let r = rule_of word component in IsInternalAlone r →
        stop r text.now 0 0 ≡ length text.now → AllDigitsOrBetween r text.now }
    ensures reads { let r = rule_of word component in IsInternalAlone r →
        AllDigitsOrBetween r text.now → stop r text.now 0 0 ≡ length text.now }
{}

/// With the internal and the consecutive flag only, reading stops at the first byte that is neither
/// a digit nor a separator in a run of separators between two digits. So a text is read to its end
/// exactly if each byte is a digit or a separator, and the first and the last byte are digits. The
/// digit before a run may be before the start of the reading. Requires a supported word.
#[tactic(auto, using(crate::proofs::Calls::Texts::in_runs))]
pub fn runs_read_between(text: &[u8], word: u128, component: Component)
    requires { IsTrue (is_supported word) }
    ensures fault { let r = rule_of word component in IsInternalInRuns r →
        IsFirstFault (is_digit_or_in_run r text.now) (length text.now) (stop r text.now 0 0) }
    ensures fault_from { let r = rule_of word component in IsInternalInRuns r →
        (start : ℕ) → start ≤ length text.now →
        IsFirstFaultFrom start (is_digit_or_in_run r text.now) (length text.now)
        (stop r text.now start 0) }
    ensures if_read { let r = rule_of word component in IsInternalInRuns r →
        stop r text.now 0 0 ≡ length text.now → IsFromDigitToDigit r text.now }
    ensures reads { let r = rule_of word component in IsInternalInRuns r →
        IsFromDigitToDigit r text.now → stop r text.now 0 0 ≡ length text.now }
{}

/// With all four flags, reading stops at the first byte that is neither a digit nor a separator. So
/// a text is read to its end exactly if it has no such byte. Requires a supported word.
#[tactic(auto, using(crate::proofs::Calls::Texts::every))]
pub fn all_flags_read_every(text: &[u8], word: u128, component: Component)
    requires { IsTrue (is_supported word) }
    ensures fault { let r = rule_of word component in GrantsAll r →
        IsFirstFault (is_digit_or_separator r text.now) (length text.now) (stop r text.now 0 0) }
    ensures fault_from { let r = rule_of word component in GrantsAll r →
        (start : ℕ) → start ≤ length text.now →
        IsFirstFaultFrom start (is_digit_or_separator r text.now) (length text.now)
        (stop r text.now start 0) }
    ensures if_read { let r = rule_of word component in GrantsAll r →
        stop r text.now 0 0 ≡ length text.now → AllDigitsOrSeparators r text.now }
    ensures reads { let r = rule_of word component in GrantsAll r →
        AllDigitsOrSeparators r text.now → stop r text.now 0 0 ≡ length text.now }
{}

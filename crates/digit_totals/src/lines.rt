//! The numbers of whole lines.

ghost use Rattle.std.specs.Prelude.{◌^◌, ◌<◌, ◌+◌, ◌≤◌, All, ◌≢◌, length, MatchOption, IfSome, IfErr, IfOk};
ghost use Rattle.digit_totals.specs.Lines.{IsFirstLine, EndsWith};
ghost use Rattle.digit_totals.specs.Report.{most_bytes, Leaves, EndsIn};

use super::adds::{Added, Adds};
use super::fault::LineFault;
use super::search::find;

/// The first line of a text, and what follows its line feed. `None`: there is no line feed.
pub fn first_line(text: &[u8]) -> Option<(&[u8], &[u8])>
    ensures lines { MatchOption result (All (λ byte. byte ≢ 10) text.now)
        (λ parts. IsFirstLine text.now parts.0.now parts.1.now) }
    ensures short { IfSome result (λ parts. length parts.0.now < length text.now) }
    ensures shorter { IfSome result (λ parts. length parts.1.now < length text.now) }
    ensures suffix { IfSome result (λ parts. EndsWith text.now parts.1.now) }
{
    match find(text, b'\n') {
        Some(end) => Some((&text[..end], &text[end + 1..])),
        None => None,
    }
}

/// Adds the numbers of the whole lines at the front of a text. What is left has no line feed.
pub fn add_lines<'a, K: Adds>(
    options: K,
    totals: K::Totals,
    text: &'a [u8],
) -> Result<Added<'a, K::Totals>, LineFault>
    requires valid { K.valid options }
    requires short { length text.now ≤ most_bytes + 1 }
    requires room { (K.adding options).count_of totals + length text.now ≤ 2 ^ 127 }
    ensures rest { IfOk result (λ added.
        Leaves (K.adding options) totals text.now added.totals added.rest.now) }
    ensures whole { IfOk result (λ added. All (λ byte. byte ≢ 10) added.rest.now) }
    ensures fault { IfErr result (EndsIn (K.adding options) totals text.now) }
{
    let many = options.add_many(totals, text);
    let mut added = match options.add_quick(many.totals, many.rest) {
        Ok(added) => added,
        Err(fault) => return Err(fault),
    };
    while let Some((line, after)) = first_line(added.rest) {
        let totals = match options.add_line(added.totals, line) {
            Ok(totals) => totals,
            Err(fault) => return Err(fault),
        };
        match options.add_quick(totals, after) {
            Ok(more) => added = more,
            Err(fault) => return Err(fault),
        }
    }
    Ok(added)
}

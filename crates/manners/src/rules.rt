// The rule that a record breaks, if it breaks one; no report breaks two. Each rule of specs/Rules.antt is a function over the fields that it names.
// Relies on the records of reports, and on lines for what an outcome is.
ghost use Rattle.std.specs.Prelude.{◌≡◌, [], ◌∷◌};
ghost use Rattle.words.specs.Tests.{all};
ghost use Rattle.reports.specs.Layouts.{mode_c_of, radar};
ghost use Rattle.manners.specs.Rules.{is_sea_level};
ghost use Rattle.manners.specs.Breaches.{found_of, found_in};
ghost use Rattle.manners.specs.Steps.{atcrbs_found, dabs_found, map_found};

use crate::Rule;
use lines::What;
use measures::CoarseRange;
use reports::{Height, Report};

// ---- the rules

// 1: data of a radar stand in for the height, and Mode 3/A is set.
fn substitution_mode3a(mode3a: bool, height: Height) -> bool
    ensures { result ≡ all (radar height ∷ mode3a ∷ []) }
{
    height.is_radar() && mode3a
}

// 3: an altitude, and it is zero.
fn mode_c_all_zeros(height: Height) -> bool
    ensures { result ≡ is_sea_level height }
{
    matches!(height, Height::Altitude(0))
}

// ---- the records

fn atcrbs_found(mode3a: bool, height: Height) -> Option<Rule>
    ensures { result ≡ atcrbs_found mode3a height }
{
    if substitution_mode3a(mode3a, height) {
        Some(Rule::SubstitutionMode3a)
    } else if mode_c_all_zeros(height) {
        Some(Rule::ModeCAllZeros)
    } else {
        None
    }
}

// 2: relayed, and bit 6 is zero.
fn dabs_found(relay: bool, height: Height) -> Option<Rule>
    ensures { result ≡ dabs_found relay height }
{
    (relay && !height.mode_c()).then_some(Rule::RelayWithoutModeC)
}

// 4: the stop is below the start.
fn map_found(start: CoarseRange, stop: CoarseRange) -> Option<Rule>
    ensures { result ≡ map_found start.0 stop.0 }
{
    (stop.0 < start.0).then_some(Rule::MapStopBelowStart)
}

fn found_of(report: Report) -> Option<Rule>
    ensures { result ≡ found_of report }
{
    match report {
        Report::Atcrbs(a) => atcrbs_found(a.mode3a, a.height),
        Report::Dabs(d) => dabs_found(d.relay, d.height),
        Report::Map(m) => map_found(m.start, m.stop),
        _ => None,
    }
}

// ---- what is found in an outcome

pub fn found_in(what: What) -> Option<Rule>
    ensures { result ≡ found_in what }
{
    match what {
        What::Accepted(report) => found_of(report),
        What::Refused(_) | What::End => None,
    }
}

// The calls that read a line lent as bytes, two a word, high byte first, at a place counted in words. Each answers one thing about the run
// at or behind the place, and reads that run and no more. Any bytes, any place, any number of an altitude form and any link number may be passed.
// Relies on line_reader for the outcome, report_items for the fields, reports for kinds and values.
ghost use Rattle.std.specs.Prelude.{◌≡◌};
ghost use Rattle.measures.specs.Exact.{Exact};
ghost use Rattle.lines.specs.Links.{read_bytes_on};
ghost use Rattle.reports.specs.Altitude.{chosen};
ghost use Rattle.reports.specs.Values.{Yields};
ghost use Rattle.report_items.specs.Items.{is_of, value_of};
ghost use Rattle.host.specs.Line.{version, kind_number_of, refusal_of, item_at, counted_at, has, range_of, azimuth_of, time_of, Shows};

use lines::{Outcome, Received, What};
use measures::{Azimuth, COARSE_AZIMUTH, COARSE_RANGE, Measured, Range, Time};
use report_items::items;
use reports::altitude::Form;
use reports::{kinds, values};

// ---- the kind of what is no report; reports::kinds has the others. They are no Kind: no report has them, and C reads their numbers.

const REFUSED: u32 = 120;

const END: u32 = 121;

// ---- the version of these calls

// It grows with each new call, and whenever a call is changed or accepts more than before.
const VERSION: u32 = 8;

// Numbers keep their meaning. A call that accepts more than before keeps its name; any other change of its meaning gives it a new name.
#[unsafe(no_mangle)]
pub extern "C" fn siamrung_version() -> u32
    ensures { result ≡ version }
{
    VERSION
}

// ---- what stands at a place

// The bytes, the place, the form and the link are four arguments, as C passes them: a struct would be made in each call, and used there once.

// The answer there, with its link; altitudes are read in the form of this number.
fn received_at(bytes: &[u8], place: usize, form: u32, link: u32) -> Received
    ensures { result ≡ read_bytes_on (chosen form) link bytes.now place }
{
    line_reader::bytes::read(bytes, place, Form::from(form), link)
}

// Its outcome.
fn outcome_at(bytes: &[u8], place: usize, form: u32, link: u32) -> Outcome
    ensures { result ≡ (read_bytes_on (chosen form) link bytes.now place).outcome }
{
    received_at(bytes, place, form, link).outcome
}

fn kind_number(what: What) -> u32
    ensures { result ≡ kind_number_of what }
{
    match what {
        What::Accepted(report) => u32::from(u8::from(kinds::kind_of(report))),
        What::Refused(_) => REFUSED,
        What::End => END,
    }
}

fn refusal_number(what: What) -> u32
    ensures { result ≡ refusal_of what }
{
    match what {
        What::Refused(why) => u32::from(u8::from(why)),
        What::Accepted(_) | What::End => 0,
    }
}

#[unsafe(no_mangle)]
pub extern "C" fn siamrung_kind(bytes: &[u8], place: usize, form: u32, link: u32) -> u32
    ensures { result ≡ kind_number_of (read_bytes_on (chosen form) link bytes.now place).outcome.what }
{
    kind_number(outcome_at(bytes, place, form, link).what)
}

#[unsafe(no_mangle)]
pub extern "C" fn siamrung_refusal(bytes: &[u8], place: usize, form: u32, link: u32) -> u32
    ensures { result ≡ refusal_of (read_bytes_on (chosen form) link bytes.now place).outcome.what }
{
    refusal_number(outcome_at(bytes, place, form, link).what)
}

#[unsafe(no_mangle)]
pub extern "C" fn siamrung_first(bytes: &[u8], place: usize, form: u32, link: u32) -> usize
    ensures { result ≡ (read_bytes_on (chosen form) link bytes.now place).outcome.first }
{
    outcome_at(bytes, place, form, link).first
}

#[unsafe(no_mangle)]
pub extern "C" fn siamrung_after(bytes: &[u8], place: usize, form: u32, link: u32) -> usize
    ensures { result ≡ (read_bytes_on (chosen form) link bytes.now place).outcome.after }
{
    outcome_at(bytes, place, form, link).after
}

#[unsafe(no_mangle)]
pub extern "C" fn siamrung_named(bytes: &[u8], place: usize, form: u32, link: u32) -> usize
    ensures { result ≡ (read_bytes_on (chosen form) link bytes.now place).outcome.named }
{
    outcome_at(bytes, place, form, link).named
}

// The number of its link; 0 where it is refused with 13.
#[unsafe(no_mangle)]
pub extern "C" fn siamrung_link(bytes: &[u8], place: usize, form: u32, link: u32) -> u32
    ensures { result ≡ (read_bytes_on (chosen form) link bytes.now place).link }
{
    received_at(bytes, place, form, link).link
}

// ---- the fields of a report

// The outcome is taken out of what is received here and not by outcome_at: else the report is copied twice, and reading every item takes a third to a
// half more time (docs/PERFORMANCE.md).
fn item_at(bytes: &[u8], place: usize, form: u32, link: u32, item: u32) -> Option<i64>
    ensures { result ≡ item_at (read_bytes_on (chosen form) link bytes.now place).outcome.what item }
{
    let received = received_at(bytes, place, form, link);
    let o = received.outcome;
    let what = o.what;
    match what {
        What::Accepted(report) => items::item_of(report, item as usize),
        What::Refused(_) | What::End => None,
    }
}

#[unsafe(no_mangle)]
pub extern "C" fn siamrung_has(bytes: &[u8], place: usize, form: u32, link: u32, item: u32) -> u32
    ensures { result ≡ is_of (item_at (read_bytes_on (chosen form) link bytes.now place).outcome.what item) }
{
    u32::from(item_at(bytes, place, form, link, item).is_some())
}

// 0 where the report has no such item, which siamrung_has tells.
#[unsafe(no_mangle)]
pub extern "C" fn siamrung_item(bytes: &[u8], place: usize, form: u32, link: u32, item: u32) -> i64
    ensures { result ≡ value_of (item_at (read_bytes_on (chosen form) link bytes.now place).outcome.what item) }
{
    item_at(bytes, place, form, link, item).unwrap_or(0)
}

// ---- range, azimuth and time as floats

fn values_at(bytes: &[u8], place: usize, form: u32, link: u32) -> Option<Measured>
    ensures { Yields (counted_at (read_bytes_on (chosen form) link bytes.now place).outcome.what) result }
{
    match outcome_at(bytes, place, form, link).what {
        What::Accepted(report) => values::values_of(report),
        What::Refused(_) | What::End => None,
    }
}

#[unsafe(no_mangle)]
pub extern "C" fn siamrung_has_values(bytes: &[u8], place: usize, form: u32, link: u32) -> u32
    ensures { result ≡ has (counted_at (read_bytes_on (chosen form) link bytes.now place).outcome.what) }
{
    u32::from(values_at(bytes, place, form, link).is_some())
}

// All plus zero where there are none, which siamrung_has_values tells.
fn measured_at(bytes: &[u8], place: usize, form: u32, link: u32) -> Measured
    ensures { Shows (counted_at (read_bytes_on (chosen form) link bytes.now place).outcome.what) result }
{
    let zero = Measured::of::<COARSE_RANGE, COARSE_AZIMUTH>(Range(0), Azimuth(0), Time(0));
    values_at(bytes, place, form, link).unwrap_or(zero)
}

#[unsafe(no_mangle)]
pub extern "C" fn siamrung_nmi(bytes: &[u8], place: usize, form: u32, link: u32) -> f64
    ensures { Exact (range_of (counted_at (read_bytes_on (chosen form) link bytes.now place).outcome.what)) result }
{
    measured_at(bytes, place, form, link).range
}

#[unsafe(no_mangle)]
pub extern "C" fn siamrung_degrees(bytes: &[u8], place: usize, form: u32, link: u32) -> f64
    ensures { Exact (azimuth_of (counted_at (read_bytes_on (chosen form) link bytes.now place).outcome.what)) result }
{
    measured_at(bytes, place, form, link).azimuth
}

#[unsafe(no_mangle)]
pub extern "C" fn siamrung_seconds(bytes: &[u8], place: usize, form: u32, link: u32) -> f64
    ensures { Exact (time_of (counted_at (read_bytes_on (chosen form) link bytes.now place).outcome.what)) result }
{
    measured_at(bytes, place, form, link).time
}

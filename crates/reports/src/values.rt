// Range in nmi, azimuth in degrees and time in seconds of each report that has them, exactly. Status has none, and says so.
// Relies on the records of the crate, and on measures.
ghost use Rattle.reports.specs.Values.{counted_of, Yields};

use crate::Report;
use measures::{Measured, Time};

pub fn values_of(report: Report) -> Option<Measured>
    ensures { Yields (counted_of report) result }
{
    match report {
        Report::Search(s) => Some(Measured::of(s.range, s.azimuth, s.time)),
        Report::Strobe(s) => Some(Measured::of(s.range, s.azimuth, s.time)),
        Report::Map(m) => Some(Measured::of(m.start, m.azimuth, Time(0))),
        Report::Status(_) => None,
        Report::Rtqc(s) => Some(Measured::of(s.range, s.azimuth, s.time)),
        Report::Dabs(d) => Some(Measured::of(d.range, d.azimuth, d.time)),
        Report::Atcrbs(a) => Some(Measured::of(a.range, a.azimuth, a.time)),
        Report::Mtd(m) => Some(Measured::of(m.range, m.azimuth, m.time)),
        Report::Rdas(r) => Some(Measured::of(r.range, r.azimuth, r.time)),
    }
}

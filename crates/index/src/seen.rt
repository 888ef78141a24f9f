// What an outcome brings to the index: the file number of an ATCRBS, MTD or RDAS report, and number 0 for every other outcome.
// 0, not None, for no number and for no kind: an entry is as a C program declares it.
// Relies on lines and reports; specs/Entries.antt says which outcome brings what.
ghost use Rattle.std.specs.Prelude.{◌≡◌};
ghost use Rattle.index.specs.Entries.{file_of, number_in, kind_in, entry_of};

use crate::{Entry, UNCORRELATED};
use lines::{Outcome, What};
use reports::{Report, kinds};

fn file_of(report: Report) -> u16
    ensures { result ≡ file_of report }
{
    match report {
        Report::Atcrbs(a) => a.file,
        Report::Mtd(m) => m.file,
        Report::Rdas(r) => r.file,
        _ => UNCORRELATED,
    }
}

fn number_in(what: What) -> u16
    ensures { result ≡ number_in what }
{
    match what {
        What::Accepted(report) => file_of(report),
        What::Refused(_) | What::End => UNCORRELATED,
    }
}

fn kind_in(what: What) -> u16
    ensures { result ≡ kind_in what }
{
    match what {
        What::Accepted(report) => u16::from(u8::from(kinds::kind_of(report))),
        What::Refused(_) | What::End => 0,
    }
}

pub fn entry_of(o: Outcome, scan: u32) -> Entry
    ensures { result ≡ entry_of o scan }
{
    Entry {
        number: number_in(o.what),
        kind: kind_in(o.what),
        scan,
        place: o.first,
    }
}

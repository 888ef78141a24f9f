// The lister's name of each report: nine kinds, and DABS and ATCRBS once more for each radar that may stand in for the height.
// Relies on the records of the crate.
ghost use Rattle.std.specs.Prelude.{◌≡◌, Some};
ghost use Rattle.reports.specs.Kinds.{kind_by, kind_of, kind_number, Numbered, no_kind, name_of};

use crate::{Height, Report};
use std::error::Error;
use std::fmt;

#[derive(Clone, Copy, Debug, PartialEq, Eq)]
pub enum Kind {
    Search = 101,
    Strobe = 102,
    Map = 103,
    Status = 104,
    Rtqc = 105,
    Dabs = 106,
    DabsCd = 107,
    DabsMtd = 108,
    DabsRdas = 109,
    Atcrbs = 110,
    AtcrbsCd = 111,
    AtcrbsMtd = 112,
    AtcrbsRdas = 113,
    Mtd = 114,
    Rdas = 115,
}

// ---- the number that a C program knows each kind by

impl From<Kind> for u8 {
    ghost from_gives = { λ kind number. number ≡ kind_number kind };

    fn from(kind: Kind) -> u8 {
        kind as u8
    }
}

// A number that no kind has.
#[derive(Clone, Copy, Debug, PartialEq, Eq)]
pub struct UnknownKind(pub u32);

impl TryFrom<u32> for Kind {
    type Error = UnknownKind;

    ghost try_from_gives = { Numbered };

    fn try_from(number: u32) -> Result<Kind, UnknownKind> {
        match number {
            101 => Ok(Kind::Search),
            102 => Ok(Kind::Strobe),
            103 => Ok(Kind::Map),
            104 => Ok(Kind::Status),
            105 => Ok(Kind::Rtqc),
            106 => Ok(Kind::Dabs),
            107 => Ok(Kind::DabsCd),
            108 => Ok(Kind::DabsMtd),
            109 => Ok(Kind::DabsRdas),
            110 => Ok(Kind::Atcrbs),
            111 => Ok(Kind::AtcrbsCd),
            112 => Ok(Kind::AtcrbsMtd),
            113 => Ok(Kind::AtcrbsRdas),
            114 => Ok(Kind::Mtd),
            115 => Ok(Kind::Rdas),
            _ => Err(UnknownKind(number)),
        }
    }
}

impl fmt::Display for UnknownKind {
    ghost output = { λ e. Some (no_kind e) };

    fn fmt<W: fmt::Write>(&self, f: &mut fmt::Formatter<W>) -> fmt::Result {
        write!(f, "no kind of report has the number {}", self.0)
    }
}

impl Error for UnknownKind {}

// ---- the name that a listing says

impl Kind {
    pub fn name(self) -> &'static str
        ensures { result.now ≡ name_of self }
    {
        match self {
            Kind::Search => "SEARCH",
            Kind::Strobe => "STROBE",
            Kind::Map => "MAP",
            Kind::Status => "STATUS",
            Kind::Rtqc => "RTQC",
            Kind::Dabs => "DABS",
            Kind::DabsCd => "DABS-CD",
            Kind::DabsMtd => "DABS-MTD",
            Kind::DabsRdas => "DABS-RDAS",
            Kind::Atcrbs => "ATCRBS",
            Kind::AtcrbsCd => "ATCRBS-CD",
            Kind::AtcrbsMtd => "ATCRBS-MTD",
            Kind::AtcrbsRdas => "ATCRBS-RDAS",
            Kind::Mtd => "MTD",
            Kind::Rdas => "RDAS",
        }
    }
}

impl fmt::Display for Kind {
    ghost output = { λ kind. Some (name_of kind) };

    fn fmt<W: fmt::Write>(&self, f: &mut fmt::Formatter<W>) -> fmt::Result {
        f.write_str(self.name())
    }
}

// ---- a report's kind

// Which of four kinds a DABS or ATCRBS is of, by what stands in bits 79 to 90.
fn kind_by(height: Height, plain: Kind, cd: Kind, mtd: Kind, rdas: Kind) -> Kind
    ensures { result ≡ kind_by height plain cd mtd rdas }
{
    match height {
        Height::Altitude(_) | Height::Carried(_) => plain,
        Height::Cd { .. } => cd,
        Height::Mtd { .. } => mtd,
        Height::Rdas { .. } => rdas,
    }
}

pub fn kind_of(report: Report) -> Kind
    ensures { result ≡ kind_of report }
{
    match report {
        Report::Search(_) => Kind::Search,
        Report::Strobe(_) => Kind::Strobe,
        Report::Map(_) => Kind::Map,
        Report::Status(_) => Kind::Status,
        Report::Rtqc(_) => Kind::Rtqc,
        Report::Dabs(d) => kind_by(
            d.height,
            Kind::Dabs,
            Kind::DabsCd,
            Kind::DabsMtd,
            Kind::DabsRdas,
        ),
        Report::Atcrbs(a) => kind_by(
            a.height,
            Kind::Atcrbs,
            Kind::AtcrbsCd,
            Kind::AtcrbsMtd,
            Kind::AtcrbsRdas,
        ),
        Report::Mtd(_) => Kind::Mtd,
        Report::Rdas(_) => Kind::Rdas,
    }
}

// The surveillance reports of document 004, 4.1 to 4.5, as document 01's "Formats and fields" lays them out: the records, and the answers
// of reading and of writing. What the kind of a report tells is no field of its record. The reader stands in report_reader, the writer in
// report_writer; what both mean, and demand 2, stand here in specs/ and proofs/.
// Relies on words for bits and layouts, measures for what a count weighs, refusals for names and numbers.
#![tactic(auto)]

ghost use Rattle.std.specs.Prelude.{◌≡◌};
ghost use Rattle.reports.specs.Layouts.{mode_c_of, radar, words_in};

use measures::{CoarseAzimuth, CoarseRange, FineAzimuth, FineRange, RunLength, Time};
use refusals::LineRefusal;

pub mod altitude; // altitude.rt: the two forms of the altitude
pub mod forms; // forms.rt: the patterns that tell a report's form
pub mod kinds; // kinds.rt: the lister's name of a report, and its number
pub mod values; // values.rt: range, azimuth and time as floats

// ---- four words

#[derive(Clone, Copy)]
pub struct Search {
    pub test: bool,
    pub faa: bool,
    pub af: bool,
    pub range: CoarseRange,
    pub azimuth: CoarseAzimuth,
    pub aims: bool,
    pub code: u8,
    pub run: RunLength,
    pub time: Time,
}

#[derive(Clone, Copy)]
pub struct Strobe {
    pub test: bool,
    pub faa: bool,
    pub af: bool,
    pub range: CoarseRange,
    pub azimuth: CoarseAzimuth,
    pub run: RunLength,
    pub time: Time,
}

#[derive(Clone, Copy)]
pub struct Map {
    pub test: bool,
    pub variation: u8,
    pub faa: bool,
    pub af: bool,
    pub start: CoarseRange,
    pub azimuth: CoarseAzimuth,
    pub stop: CoarseRange,
}

// The twelve data bits of the last three words are carried unread.
#[derive(Clone, Copy)]
pub struct Status {
    pub test: bool,
    pub faa: bool,
    pub af: bool,
    pub second: u16,
    pub third: u16,
    pub fourth: u16,
}

// Bit 1, test, is one in every RTQC, so there is no field for it.
#[derive(Clone, Copy)]
pub struct Rtqc {
    pub faa: bool,
    pub af: bool,
    pub range: CoarseRange,
    pub azimuth: CoarseAzimuth,
    pub run: RunLength,
    pub time: Time,
}

// ---- seven words

// Bits 79 to 90 of DABS and ATCRBS. With bit 12 zero, bit 6 tells: an altitude in hundreds of feet, or twelve carried bits. With bit 12
// one, bits 88 to 90 tell which radar's data stands in its place, and bit 6 is carried.
#[derive(Clone, Copy)]
pub enum Height {
    Altitude(i16),
    Carried(u16),
    Cd { mode_c: bool, run: RunLength },
    Mtd { mode_c: bool, quality: u8 },
    Rdas { mode_c: bool, quality: u8 },
}

impl Height {
    // Bit 6.
    pub fn mode_c(self) -> bool
        ensures { result ≡ mode_c_of self }
    {
        match self {
            Height::Altitude(_) => true,
            Height::Carried(_) => false,
            Height::Cd { mode_c, .. } | Height::Mtd { mode_c, .. } | Height::Rdas { mode_c, .. } =>
                mode_c,
        }
    }

    // Bit 12: data of a radar stand in its place.
    pub fn is_radar(self) -> bool
        ensures { result ≡ radar self }
    {
        !matches!(self, Height::Altitude(_) | Height::Carried(_))
    }
}

#[derive(Clone, Copy)]
pub struct Dabs {
    pub test: bool,
    pub primary: bool,
    pub spi: bool,
    pub reinforced: bool,
    pub code7700: bool,
    pub code7600: bool,
    pub faa: bool,
    pub range: FineRange,
    pub azimuth: FineAzimuth,
    pub alert: bool,
    pub relay: bool,
    pub time: Time,
    pub address: u32,
    pub height: Height,
}

#[derive(Clone, Copy)]
pub struct Atcrbs {
    pub test: bool,
    pub mode3a: bool,
    pub spi: bool,
    pub reinforced: bool,
    pub code7700: bool,
    pub code7600: bool,
    pub faa: bool,
    pub range: FineRange,
    pub azimuth: FineAzimuth,
    pub confidence: bool,
    pub transition: bool,
    pub false_target: bool,
    pub relay: bool,
    pub time: Time,
    pub code: u16,
    pub file: u16,
    pub height: Height,
}

// MTD search.
#[derive(Clone, Copy)]
pub struct Mtd {
    pub test: bool,
    pub faa: bool,
    pub range: FineRange,
    pub azimuth: FineAzimuth,
    pub aims: bool,
    pub time: Time,
    pub doppler1: u8,
    pub doppler2: u8,
    pub file: u16,
    pub quality: u8,
    pub confidence: u8,
    pub false_target: bool,
    pub ground_traffic: bool,
}

// RDAS search.
#[derive(Clone, Copy)]
pub struct Rdas {
    pub test: bool,
    pub faa: bool,
    pub range: FineRange,
    pub azimuth: FineAzimuth,
    pub aims: bool,
    pub time: Time,
    pub file: u16,
    pub quality: u8,
    pub false_target: bool,
}

#[derive(Clone, Copy)]
pub enum Report {
    Search(Search),
    Strobe(Strobe),
    Map(Map),
    Status(Status),
    Rtqc(Rtqc),
    Dabs(Dabs),
    Atcrbs(Atcrbs),
    Mtd(Mtd),
    Rdas(Rdas),
}

// ---- answers

// Why a run is no report, and the offset, in the run, of the word that the refusal names.
#[derive(Clone, Copy)]
pub struct RunRefusal {
    pub why: LineRefusal,
    pub offset: usize,
}

// A report's words, four or seven.
#[derive(Clone, Copy)]
pub enum Words {
    Four([u16; 4]),
    Seven([u16; 7]),
}

impl Words {
    pub fn as_slice(&self) -> &[u16]
        ensures { result.now ≡ words_in self.now }
    {
        match self {
            Words::Four(words) => words,
            Words::Seven(words) => words,
        }
    }
}

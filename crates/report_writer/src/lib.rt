// A report to its words, or to refusal 11 where a value is too large for its field.
// Each word's data is computed without a branch, field by field as its layout has it; a value too large pushes the number above 4095
// (`data_or_more`), and one function looks at the numbers at the end and makes the words. A number and no Option: a sum of fields stays one sum,
// as `data_or_more` has it. Relies on words for the parity bit, measures for the types of counts.
#![tactic(auto)]

ghost use Rattle.std.specs.Prelude.{◌≡◌, [], ◌∷◌, ◌/◌, ◌<◌, ◌^◌};
ghost use Rattle.words.specs.Word.{word_of};
ghost use Rattle.words.specs.Layout.{flag, count, rest, fixed, spare};
ghost use Rattle.reports.specs.Altitude.{form_of};
ghost use Rattle.reports.specs.Forms.{four_words, seven_words};
ghost use Rattle.reports.specs.Layouts.{last_word, mode_c_of, radar, search_layout, strobe_layout, map_layout, status_layout, rtqc_layout, dabs_layout, atcrbs_layout, mtd_layout, rdas_layout, layout_of, written};
ghost use Rattle.report_writer.specs.Data.{data_or_more, data_by, words_or_11};

use altitude::altitude_bits;
use field::{count, flag, rest};
use measures::{CoarseRange, FineAzimuth, FineRange, RunLength, Time};
use refusals::LineRefusal;
use reports::altitude::Form;
use reports::{
    Atcrbs, Dabs, Height, Map, Mtd, Rdas, Report, Rtqc, Search, Status, Strobe, Words, forms,
};
use words::weights;

mod altitude; // altitude.rt: the twelve bits of an altitude, in each form
mod field; // field.rt: what a field adds to the data of its word

// The data of a report's words, each 4096 or more where a value in it is too large (`data_or_more`). Beside `Words`: a generic one would show in
// every crate that names it.
#[derive(Clone, Copy)]
enum Data {
    Four([u32; 4]),
    Seven([u32; 7]),
}

// The least number that twelve bits cannot hold.
const TOO_LARGE: u16 = weights::TWELVE_BITS;

// ---- words that several reports have

// The first word of four.
fn first_of_four(test: bool, pattern: u16, faa: bool, af: bool) -> u32
    ensures { result ≡ data_or_more (flag test ∷ fixed 2 four_words ∷ fixed 7 pattern ∷ flag faa ∷ flag af ∷ []) }
{
    flag::<1>(test) + count::<7, 10>(pattern.into()) + flag::<11>(faa) + flag::<12>(af)
}

// Twelve bits that are one number.
fn whole(n: u16) -> u32
    ensures { result ≡ data_or_more (count 12 n ∷ []) }
{
    count::<12, 12>(n.into())
}

// A range of eleven bits, or a Map's range stop, and a zero.
fn coarse_range(range: CoarseRange) -> u32
    ensures { result ≡ data_or_more (count 11 range.0 ∷ spare 1 ∷ []) }
{
    count::<11, 11>(range.0.into())
}

// The last word of Strobe and of RTQC.
fn strobe_last(run: RunLength, time: Time) -> u32
    ensures { result ≡ data_or_more (count 7 run.0 ∷ count 5 time.0 ∷ []) }
{
    count::<7, 7>(run.0.into()) + count::<5, 12>(time.0.into())
}

// The first word of MTD and RDAS search.
fn radar_first(test: bool, faa: bool) -> u32
    ensures { result ≡ data_or_more (flag test ∷ fixed 2 seven_words ∷ fixed 1 0 ∷ spare 6 ∷ flag faa ∷ fixed 1 1 ∷ []) }
{
    flag::<1>(test) + count::<2, 3>(forms::SEVEN_WORDS.into()) + flag::<11>(faa) + flag::<12>(true)
}

// The end of a range of fifteen bits, and the start of an azimuth of thirteen.
fn range_azimuth(range: FineRange, azimuth: FineAzimuth) -> u32
    ensures { result ≡ data_or_more (rest 3 range.0 ∷ count 9 (azimuth.0 / 2 ^ 4) ∷ []) }
{
    rest::<3>(range.0.into()) + count::<9, 12>((azimuth.0 >> 4).into())
}

// The fourth word of MTD and RDAS search.
fn radar_fourth(azimuth: FineAzimuth, aims: bool, time: Time) -> u32
    ensures { result ≡ data_or_more (rest 4 azimuth.0 ∷ flag aims ∷ spare 1 ∷ count 6 time.0 ∷ []) }
{
    rest::<4>(azimuth.0.into()) + flag::<5>(aims) + count::<6, 12>(time.0.into())
}

// ---- bits 6, 12 and 79 to 90 of DABS and ATCRBS

// An altitude that has no twelve bits in the form becomes a number that is too large.
fn height_last(h: Height, form: Form) -> u32
    ensures { result ≡ data_or_more (last_word (form_of form) h) }
{
    match h {
        Height::Altitude(z) => whole(altitude_bits(z, form).unwrap_or(TOO_LARGE)),
        Height::Carried(n) => whole(n),
        Height::Cd { run, .. } => count::<3, 3>(run.0.into())
            + count::<3, 12>(forms::CD_CODE.into()),
        Height::Mtd { quality, .. } => count::<2, 2>(quality.into())
            + count::<3, 12>(forms::MTD_CODE.into()),
        Height::Rdas { quality, .. } => count::<4, 4>(quality.into())
            + count::<3, 12>(forms::RDAS_CODE.into()),
    }
}

// What the first word of DABS and of ATCRBS has: bit 4 tells which of the two, bit 5 is primary or mode 3/A, and the height tells bits 6 and 12.
#[derive(Clone, Copy)]
struct Beacon {
    test: bool,
    dabs: bool,
    fifth: bool,
    spi: bool,
    reinforced: bool,
    code7700: bool,
    code7600: bool,
    faa: bool,
    height: Height,
}

impl Beacon {
    fn first_word(self) -> u32
        ensures { result ≡ data_or_more (flag self.test ∷ fixed 2 seven_words ∷ flag self.dabs ∷ flag self.fifth ∷ flag (mode_c_of self.height) ∷ flag self.spi ∷ flag self.reinforced ∷ flag self.code7700 ∷ flag self.code7600 ∷ flag self.faa ∷ flag (radar self.height) ∷ []) }
    {
        let first = flag::<1>(self.test)
            + count::<2, 3>(forms::SEVEN_WORDS.into())
            + flag::<4>(self.dabs)
            + flag::<5>(self.fifth);
        let middle = flag::<6>(self.height.mode_c())
            + flag::<7>(self.spi)
            + flag::<8>(self.reinforced);
        let last = flag::<9>(self.code7700)
            + flag::<10>(self.code7600)
            + flag::<11>(self.faa)
            + flag::<12>(self.height.is_radar());
        first + middle + last
    }
}

// ---- the data of each report

fn search_data(s: Search) -> Data
    ensures { result ≡ data_by (search_layout s) }
{
    Data::Four([
        first_of_four(s.test, forms::SEARCH_PATTERN, s.faa, s.af),
        coarse_range(s.range),
        whole(s.azimuth.0),
        flag::<1>(s.aims)
            + count::<2, 3>(s.code.into())
            + count::<3, 6>(s.run.0.into())
            + count::<6, 12>(s.time.0.into()),
    ])
}

fn strobe_data(s: Strobe) -> Data
    ensures { result ≡ data_by (strobe_layout s) }
{
    Data::Four([
        first_of_four(s.test, forms::STROBE_PATTERN, s.faa, s.af),
        coarse_range(s.range),
        whole(s.azimuth.0),
        strobe_last(s.run, s.time),
    ])
}

fn map_data(m: Map) -> Data
    ensures { result ≡ data_by (map_layout m) }
{
    Data::Four([
        flag::<1>(m.test)
            + count::<2, 10>(m.variation.into())
            + flag::<11>(m.faa)
            + flag::<12>(m.af),
        coarse_range(m.start),
        whole(m.azimuth.0),
        coarse_range(m.stop),
    ])
}

fn status_data(s: Status) -> Data
    ensures { result ≡ data_by (status_layout s) }
{
    Data::Four([
        first_of_four(s.test, forms::STATUS_PATTERN, s.faa, s.af),
        whole(s.second),
        whole(s.third),
        whole(s.fourth),
    ])
}

fn rtqc_data(s: Rtqc) -> Data
    ensures { result ≡ data_by (rtqc_layout s) }
{
    Data::Four([
        first_of_four(true, forms::RTQC_PATTERN, s.faa, s.af),
        coarse_range(s.range),
        whole(s.azimuth.0),
        strobe_last(s.run, s.time),
    ])
}

fn dabs_data(d: Dabs, form: Form) -> Data
    ensures { result ≡ data_by (dabs_layout (form_of form) d) }
{
    let beacon = Beacon {
        test: d.test,
        dabs: true,
        fifth: d.primary,
        spi: d.spi,
        reinforced: d.reinforced,
        code7700: d.code7700,
        code7600: d.code7600,
        faa: d.faa,
        height: d.height,
    };
    Data::Seven([
        beacon.first_word(),
        whole(d.range.0 >> 3),
        range_azimuth(d.range, d.azimuth),
        rest::<4>(d.azimuth.0.into())
            + flag::<5>(d.alert)
            + flag::<8>(d.relay)
            + count::<4, 12>(d.time.0.into()),
        count::<12, 12>(d.address >> 12),
        rest::<12>(d.address),
        height_last(d.height, form),
    ])
}

fn atcrbs_data(a: Atcrbs, form: Form) -> Data
    ensures { result ≡ data_by (atcrbs_layout (form_of form) a) }
{
    let beacon = Beacon {
        test: a.test,
        dabs: false,
        fifth: a.mode3a,
        spi: a.spi,
        reinforced: a.reinforced,
        code7700: a.code7700,
        code7600: a.code7600,
        faa: a.faa,
        height: a.height,
    };
    let flags = flag::<5>(a.confidence)
        + flag::<6>(a.transition)
        + flag::<7>(a.false_target)
        + flag::<8>(a.relay);
    Data::Seven([
        beacon.first_word(),
        whole(a.range.0 >> 3),
        range_azimuth(a.range, a.azimuth),
        rest::<4>(a.azimuth.0.into()) + flags + count::<4, 12>(a.time.0.into()),
        whole(a.code),
        whole(a.file),
        height_last(a.height, form),
    ])
}

fn mtd_data(m: Mtd) -> Data
    ensures { result ≡ data_by (mtd_layout m) }
{
    let flags = flag::<7>(m.false_target) + flag::<8>(m.ground_traffic);
    Data::Seven([
        radar_first(m.test, m.faa),
        whole(m.range.0 >> 3),
        range_azimuth(m.range, m.azimuth),
        radar_fourth(m.azimuth, m.aims, m.time),
        count::<6, 6>(m.doppler1.into()) + count::<6, 12>(m.doppler2.into()),
        whole(m.file),
        count::<2, 2>(m.quality.into())
            + count::<4, 6>(m.confidence.into())
            + flags
            + count::<3, 12>(forms::MTD_SEARCH_CODE.into()),
    ])
}

fn rdas_data(r: Rdas) -> Data
    ensures { result ≡ data_by (rdas_layout r) }
{
    Data::Seven([
        radar_first(r.test, r.faa),
        whole(r.range.0 >> 3),
        range_azimuth(r.range, r.azimuth),
        radar_fourth(r.azimuth, r.aims, r.time),
        0,
        whole(r.file),
        count::<4, 4>(r.quality.into())
            + flag::<7>(r.false_target)
            + count::<3, 12>(forms::RDAS_SEARCH_CODE.into()),
    ])
}

fn data_of(report: Report, form: Form) -> Data
    ensures { result ≡ data_by (layout_of (form_of form) report) }
{
    match report {
        Report::Search(s) => search_data(s),
        Report::Strobe(s) => strobe_data(s),
        Report::Map(m) => map_data(m),
        Report::Status(s) => status_data(s),
        Report::Rtqc(s) => rtqc_data(s),
        Report::Dabs(d) => dabs_data(d, form),
        Report::Atcrbs(a) => atcrbs_data(a, form),
        Report::Mtd(m) => mtd_data(m),
        Report::Rdas(r) => rdas_data(r),
    }
}

// ---- the words

// The word of data that fits.
fn word_of(data: u32) -> u16
    requires { «data» < 4096 }
    ensures { result ≡ word_of «data» }
{
    words::word(data as u16) as u16
}

// The words of such data; refusal 11 where a number is above 4095.
fn words_or_refusal<const N: usize>(each: [u32; N]) -> Result<[u16; N], LineRefusal>
    ensures { result ≡ words_or_11 each.entry }
{
    if each.iter().any(|&d| d >= TOO_LARGE.into()) {
        return Err(LineRefusal::ValueTooLarge);
    }
    let mut words = [0; N];
    // not by `map`: it requires that eight bytes a word and more fit the memory, which nothing says of a generic N
    for (i, word) in words.iter_mut().enumerate() {
        *word = word_of(each[i]);
    }
    Ok(words)
}

// A report's words, its altitude in the form; or refusal 11.
pub fn words_of(report: Report, form: Form) -> Result<Words, LineRefusal>
    ensures { result ≡ written (form_of form) report }
{
    match data_of(report, form) {
        Data::Four(each) => words_or_refusal(each).map(Words::Four),
        Data::Seven(each) => words_or_refusal(each).map(Words::Seven),
    }
}

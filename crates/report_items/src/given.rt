// The report that a C program gives by a kind's number and items, sixteen bytes an item. There must be as many items as the kind has. Whatever
// their values are, a record is built from them, cut to its fields; then the record's own items are held against those given, and counted. So
// one test finds a value that was cut, a flag that is neither 0 nor 1, an item that is missing, foreign or given twice; what fails stands for
// one record that the writer refuses.
// Relies on pairs for the items' values, items for a record's own, numbers and reports::kinds for their numbers.
ghost use Rattle.std.specs.Prelude.{◌≡◌, ◌<◌, List, ℕ, Option, ◌^◌, length, get_or, unwrap_or};
ghost use Rattle.pairs.specs.Pairs.{value_of};
ghost use Rattle.reports.specs.Kinds.{kind_number};
ghost use Rattle.report_items.specs.Items.{last, item_of, items_of};
ghost use Rattle.report_items.specs.Given.{as_signed, flag_of, count_of, item_gathered, search_given, strobe_given, map_given, status_given, rtqc_given, plain_given, cd_given, mtd_height_given, rdas_height_given, dabs_given, atcrbs_given, mtd_given, rdas_given, unfit, built, same_item, agree_to, given};

use crate::items::item_of;
use crate::numbers;
use measures::{Azimuth, Range, RunLength, Time};
use pairs::SLOTS;
use reports::kinds::Kind;
use reports::{Atcrbs, Dabs, Height, Map, Mtd, Rdas, Report, Rtqc, Search, Status, Strobe};

// ---- what the items say

// What is given for each number from 0 on; 0 is the number of no item.
#[derive(Drop)]
struct Values([Option<u64>; SLOTS]);

impl Values {
    // 0 where it is not given.
    fn value(&self, item: usize) -> u64
        ensures { result ≡ value_of (get_or self.now.0 item None) }
    {
        self.0.get(item).copied().flatten().unwrap_or(0)
    }

    fn flag(&self, item: usize) -> bool
        ensures { result ≡ flag_of self.now.0 item }
    {
        self.value(item) == 1
    }

    // A count is cut to its width. One generic function would need a trait with an impl for each width, which is longer than these three.
    fn byte(&self, item: usize) -> u8
        ensures { result ≡ count_of 8 self.now.0 item }
    {
        (self.value(item) % (1 << 8)) as u8
    }

    fn word(&self, item: usize) -> u16
        ensures { result ≡ count_of 16 self.now.0 item }
    {
        (self.value(item) % (1 << 16)) as u16
    }

    fn long(&self, item: usize) -> u32
        ensures { result ≡ count_of 32 self.now.0 item }
    {
        (self.value(item) % (1 << 32)) as u32
    }
}

// Two's complement; an altitude that an i16 does not hold counts as 0.
fn altitude_of(v: u64) -> i16
    ensures { result ≡ as_signed (2 ^ 15) v }
{
    i16::try_from(v.cast_signed()).unwrap_or(0)
}

// ---- the record that values make: four words

fn search_given(v: &Values) -> Search
    ensures { result ≡ search_given v.now.0 }
{
    Search {
        test: v.flag(numbers::TEST),
        faa: v.flag(numbers::FAA),
        af: v.flag(numbers::AF),
        range: Range(v.word(numbers::RANGE)),
        azimuth: Azimuth(v.word(numbers::AZIMUTH)),
        aims: v.flag(numbers::AIMS),
        code: v.byte(numbers::AIMS_CODE),
        run: RunLength(v.byte(numbers::RUN)),
        time: Time(v.byte(numbers::TIME)),
    }
}

fn strobe_given(v: &Values) -> Strobe
    ensures { result ≡ strobe_given v.now.0 }
{
    Strobe {
        test: v.flag(numbers::TEST),
        faa: v.flag(numbers::FAA),
        af: v.flag(numbers::AF),
        range: Range(v.word(numbers::RANGE)),
        azimuth: Azimuth(v.word(numbers::AZIMUTH)),
        run: RunLength(v.byte(numbers::RUN)),
        time: Time(v.byte(numbers::TIME)),
    }
}

fn map_given(v: &Values) -> Map
    ensures { result ≡ map_given v.now.0 }
{
    Map {
        test: v.flag(numbers::TEST),
        variation: v.byte(numbers::VARIATION),
        faa: v.flag(numbers::FAA),
        af: v.flag(numbers::AF),
        start: Range(v.word(numbers::START)),
        azimuth: Azimuth(v.word(numbers::AZIMUTH)),
        stop: Range(v.word(numbers::STOP)),
    }
}

fn status_given(v: &Values) -> Status
    ensures { result ≡ status_given v.now.0 }
{
    Status {
        test: v.flag(numbers::TEST),
        faa: v.flag(numbers::FAA),
        af: v.flag(numbers::AF),
        second: v.word(numbers::SECOND),
        third: v.word(numbers::THIRD),
        fourth: v.word(numbers::FOURTH),
    }
}

fn rtqc_given(v: &Values) -> Rtqc
    ensures { result ≡ rtqc_given v.now.0 }
{
    Rtqc {
        faa: v.flag(numbers::FAA),
        af: v.flag(numbers::AF),
        range: Range(v.word(numbers::RANGE)),
        azimuth: Azimuth(v.word(numbers::AZIMUTH)),
        run: RunLength(v.byte(numbers::RUN)),
        time: Time(v.byte(numbers::TIME)),
    }
}

// ---- seven words

// An altitude, if one is among the items.
fn plain_given(v: &Values) -> Height
    ensures { result ≡ plain_given v.now.0 }
{
    match v.0[numbers::ALTITUDE] {
        Some(altitude) => Height::Altitude(altitude_of(altitude)),
        None => Height::Carried(v.word(numbers::CARRIED)),
    }
}

fn cd_given(v: &Values) -> Height
    ensures { result ≡ cd_given v.now.0 }
{
    Height::Cd {
        mode_c: v.flag(numbers::MODE_C),
        run: RunLength(v.byte(numbers::RUN)),
    }
}

// Beside `rdas_height_given` only the case differs, and `built` of specs/Given.antt names the two.
fn mtd_height_given(v: &Values) -> Height
    ensures { result ≡ mtd_height_given v.now.0 }
{
    Height::Mtd {
        mode_c: v.flag(numbers::MODE_C),
        quality: v.byte(numbers::QUALITY),
    }
}

fn rdas_height_given(v: &Values) -> Height
    ensures { result ≡ rdas_height_given v.now.0 }
{
    Height::Rdas {
        mode_c: v.flag(numbers::MODE_C),
        quality: v.byte(numbers::QUALITY),
    }
}

fn dabs_given(v: &Values, height: Height) -> Dabs
    ensures { result ≡ dabs_given v.now.0 height }
{
    Dabs {
        test: v.flag(numbers::TEST),
        primary: v.flag(numbers::PRIMARY),
        spi: v.flag(numbers::SPI),
        reinforced: v.flag(numbers::REINFORCED),
        code7700: v.flag(numbers::CODE7700),
        code7600: v.flag(numbers::CODE7600),
        faa: v.flag(numbers::FAA),
        range: Range(v.word(numbers::RANGE)),
        azimuth: Azimuth(v.word(numbers::AZIMUTH)),
        alert: v.flag(numbers::ALERT),
        relay: v.flag(numbers::RELAY),
        time: Time(v.byte(numbers::TIME)),
        address: v.long(numbers::ADDRESS),
        height,
    }
}

fn atcrbs_given(v: &Values, height: Height) -> Atcrbs
    ensures { result ≡ atcrbs_given v.now.0 height }
{
    Atcrbs {
        test: v.flag(numbers::TEST),
        mode3a: v.flag(numbers::MODE3A),
        spi: v.flag(numbers::SPI),
        reinforced: v.flag(numbers::REINFORCED),
        code7700: v.flag(numbers::CODE7700),
        code7600: v.flag(numbers::CODE7600),
        faa: v.flag(numbers::FAA),
        range: Range(v.word(numbers::RANGE)),
        azimuth: Azimuth(v.word(numbers::AZIMUTH)),
        confidence: v.flag(numbers::CONFIDENCE),
        transition: v.flag(numbers::TRANSITION),
        false_target: v.flag(numbers::FALSE_TARGET),
        relay: v.flag(numbers::RELAY),
        time: Time(v.byte(numbers::TIME)),
        code: v.word(numbers::CODE),
        file: v.word(numbers::FILE),
        height,
    }
}

fn mtd_given(v: &Values) -> Mtd
    ensures { result ≡ mtd_given v.now.0 }
{
    Mtd {
        test: v.flag(numbers::TEST),
        faa: v.flag(numbers::FAA),
        range: Range(v.word(numbers::RANGE)),
        azimuth: Azimuth(v.word(numbers::AZIMUTH)),
        aims: v.flag(numbers::AIMS),
        time: Time(v.byte(numbers::TIME)),
        doppler1: v.byte(numbers::DOPPLER1),
        doppler2: v.byte(numbers::DOPPLER2),
        file: v.word(numbers::FILE),
        quality: v.byte(numbers::QUALITY),
        confidence: v.byte(numbers::CONFIDENCE),
        false_target: v.flag(numbers::FALSE_TARGET),
        ground_traffic: v.flag(numbers::GROUND),
    }
}

fn rdas_given(v: &Values) -> Rdas
    ensures { result ≡ rdas_given v.now.0 }
{
    Rdas {
        test: v.flag(numbers::TEST),
        faa: v.flag(numbers::FAA),
        range: Range(v.word(numbers::RANGE)),
        azimuth: Azimuth(v.word(numbers::AZIMUTH)),
        aims: v.flag(numbers::AIMS),
        time: Time(v.byte(numbers::TIME)),
        file: v.word(numbers::FILE),
        quality: v.byte(numbers::QUALITY),
        false_target: v.flag(numbers::FALSE_TARGET),
    }
}

#[tactic(auto, unfolding(crate::specs::Given::built))]
fn built_of(kind: Kind, v: &Values) -> Report
    ensures { result ≡ built (kind_number kind) v.now.0 }
{
    match kind {
        Kind::Search => Report::Search(search_given(v)),
        Kind::Strobe => Report::Strobe(strobe_given(v)),
        Kind::Map => Report::Map(map_given(v)),
        Kind::Status => Report::Status(status_given(v)),
        Kind::Rtqc => Report::Rtqc(rtqc_given(v)),
        Kind::Dabs => Report::Dabs(dabs_given(v, plain_given(v))),
        Kind::DabsCd => Report::Dabs(dabs_given(v, cd_given(v))),
        Kind::DabsMtd => Report::Dabs(dabs_given(v, mtd_height_given(v))),
        Kind::DabsRdas => Report::Dabs(dabs_given(v, rdas_height_given(v))),
        Kind::Atcrbs => Report::Atcrbs(atcrbs_given(v, plain_given(v))),
        Kind::AtcrbsCd => Report::Atcrbs(atcrbs_given(v, cd_given(v))),
        Kind::AtcrbsMtd => Report::Atcrbs(atcrbs_given(v, mtd_height_given(v))),
        Kind::AtcrbsRdas => Report::Atcrbs(atcrbs_given(v, rdas_height_given(v))),
        Kind::Mtd => Report::Mtd(mtd_given(v)),
        Kind::Rdas => Report::Rdas(rdas_given(v)),
    }
}

// ---- the test

// How many items the record of a kind has, whatever their values are.
#[tactic(auto, unfolding(crate::specs::Given::built))]
fn size_of(kind: Kind) -> usize
    ensures { (v : List (Option ℕ)) → length (items_of (built (kind_number kind) v)) ≡ result }
{
    match kind {
        Kind::Search => 9,
        Kind::Strobe => 7,
        Kind::Map => 7,
        Kind::Status => 6,
        Kind::Rtqc => 6,
        Kind::Dabs => 14,
        Kind::DabsCd => 15,
        Kind::DabsMtd => 15,
        Kind::DabsRdas => 15,
        Kind::Atcrbs => 17,
        Kind::AtcrbsCd => 18,
        Kind::AtcrbsMtd => 18,
        Kind::AtcrbsRdas => 18,
        Kind::Mtd => 13,
        Kind::Rdas => 9,
    }
}

// The report has this value for the number.
fn stands(report: Report, n: usize, value: u64) -> bool
    ensures { result ≡ same_item (item_of report n) (Some (as_signed (2 ^ 63) value)) }
{
    item_of(report, n) == Some(value.cast_signed())
}

// For each number the report, of so many items, has what is given for it: whatever is given stands in the report, and so many are given. Only
// what is given is looked up in the report: to look up every number takes more time (docs/PERFORMANCE.md). By the number, which the look-up asks
// for too; from the last one on, since what only some kinds have stands there.
fn agrees(report: Report, size: usize, v: &Values) -> bool
    requires { length (items_of report) ≡ size }
    ensures { result ≡ agree_to last report (item_gathered v.now.0) }
{
    let mut count = 0;
    for n in (1..SLOTS).rev() {
        if let Some(value) = v.0[n] {
            if !stands(report, n, value) {
                return false;
            }
            count += 1;
        }
    }
    count == size
}

// The record of a kind and these items, where they are a record's.
fn record_given(kind: u32, items: &[u8]) -> Option<Report>
    ensures { unwrap_or result unfit ≡ given kind items.now }
{
    if !pairs::whole(items) {
        return None;
    }
    let kind = Kind::try_from(kind).ok()?;
    let size = size_of(kind);
    if pairs::count(items) != size {
        return None;
    }
    let values = Values(pairs::gather(items, 0));
    let report = built_of(kind, &values);
    if agrees(report, size, &values) {
        Some(report)
    } else {
        None
    }
}

// What is no record: the second word of a Status has twelve bits, and 65535 takes sixteen, so the writer refuses it with number 11.
fn no_record() -> Report
    ensures { result ≡ unfit }
{
    Report::Status(Status {
        test: false,
        faa: false,
        af: false,
        second: 65535,
        third: 0,
        fourth: 0,
    })
}

// The report, or the one that the writer refuses. The Option ends here: `given` of specs/, which the claims and the C calls name, is a report.
pub fn given(kind: u32, items: &[u8]) -> Report
    ensures { result ≡ given kind items.now }
{
    record_given(kind, items).unwrap_or(no_record())
}

// The items of a report: what a C program asks for by number. Every number is answered: None for an item that the report has not.
// Relies on the records of reports, numbers for the items.
ghost use Rattle.std.specs.Prelude.{◌≡◌};
ghost use Rattle.reports.specs.declared.Height.TheVariants as Ht;
ghost use Rattle.reports.specs.declared.Report.TheVariants as R;
ghost use Rattle.report_items.specs.Items.{lookup, height_items, item_of};

use crate::numbers;
use measures::RunLength;
use reports::{Atcrbs, Dabs, Height, Map, Mtd, Rdas, Report, Rtqc, Search, Status, Strobe};

// ---- bits 79 to 90

fn altitude_item(z: i16, item: usize) -> Option<i64>
    ensures { result ≡ lookup item (height_items (Ht.Altitude z)) }
{
    match item {
        numbers::ALTITUDE => Some(z.into()),
        _ => None,
    }
}

fn carried_item(n: u16, item: usize) -> Option<i64>
    ensures { result ≡ lookup item (height_items (Ht.Carried n)) }
{
    match item {
        numbers::CARRIED => Some(n.into()),
        _ => None,
    }
}

fn cd_item(mode_c: bool, run: RunLength, item: usize) -> Option<i64>
    ensures { result ≡ lookup item (height_items (Ht.Cd mode_c run)) }
{
    match item {
        numbers::MODE_C => Some(mode_c.into()),
        numbers::RUN => Some(run.0.into()),
        _ => None,
    }
}

// An MTD and an RDAS have the same items.
fn quality_item(mode_c: bool, quality: u8, item: usize) -> Option<i64>
    ensures { result ≡ lookup item (height_items (Ht.Mtd mode_c quality)) }
{
    match item {
        numbers::MODE_C => Some(mode_c.into()),
        numbers::QUALITY => Some(quality.into()),
        _ => None,
    }
}

fn height_item(h: Height, item: usize) -> Option<i64>
    ensures { result ≡ lookup item (height_items h) }
{
    match h {
        Height::Altitude(z) => altitude_item(z, item),
        Height::Carried(n) => carried_item(n, item),
        Height::Cd { mode_c, run } => cd_item(mode_c, run, item),
        Height::Mtd { mode_c, quality } => quality_item(mode_c, quality, item),
        Height::Rdas { mode_c, quality } => quality_item(mode_c, quality, item),
    }
}

// ---- four words

fn search_item(s: Search, item: usize) -> Option<i64>
    ensures { result ≡ item_of (R.Search s) item }
{
    match item {
        numbers::TEST => Some(s.test.into()),
        numbers::FAA => Some(s.faa.into()),
        numbers::AF => Some(s.af.into()),
        numbers::RANGE => Some(s.range.0.into()),
        numbers::AZIMUTH => Some(s.azimuth.0.into()),
        numbers::AIMS => Some(s.aims.into()),
        numbers::AIMS_CODE => Some(s.code.into()),
        numbers::RUN => Some(s.run.0.into()),
        numbers::TIME => Some(s.time.0.into()),
        _ => None,
    }
}

fn strobe_item(s: Strobe, item: usize) -> Option<i64>
    ensures { result ≡ item_of (R.Strobe s) item }
{
    match item {
        numbers::TEST => Some(s.test.into()),
        numbers::FAA => Some(s.faa.into()),
        numbers::AF => Some(s.af.into()),
        numbers::RANGE => Some(s.range.0.into()),
        numbers::AZIMUTH => Some(s.azimuth.0.into()),
        numbers::RUN => Some(s.run.0.into()),
        numbers::TIME => Some(s.time.0.into()),
        _ => None,
    }
}

fn map_item(m: Map, item: usize) -> Option<i64>
    ensures { result ≡ item_of (R.Map m) item }
{
    match item {
        numbers::TEST => Some(m.test.into()),
        numbers::VARIATION => Some(m.variation.into()),
        numbers::FAA => Some(m.faa.into()),
        numbers::AF => Some(m.af.into()),
        numbers::START => Some(m.start.0.into()),
        numbers::AZIMUTH => Some(m.azimuth.0.into()),
        numbers::STOP => Some(m.stop.0.into()),
        _ => None,
    }
}

fn status_item(s: Status, item: usize) -> Option<i64>
    ensures { result ≡ item_of (R.Status s) item }
{
    match item {
        numbers::TEST => Some(s.test.into()),
        numbers::FAA => Some(s.faa.into()),
        numbers::AF => Some(s.af.into()),
        numbers::SECOND => Some(s.second.into()),
        numbers::THIRD => Some(s.third.into()),
        numbers::FOURTH => Some(s.fourth.into()),
        _ => None,
    }
}

fn rtqc_item(s: Rtqc, item: usize) -> Option<i64>
    ensures { result ≡ item_of (R.Rtqc s) item }
{
    match item {
        numbers::FAA => Some(s.faa.into()),
        numbers::AF => Some(s.af.into()),
        numbers::RANGE => Some(s.range.0.into()),
        numbers::AZIMUTH => Some(s.azimuth.0.into()),
        numbers::RUN => Some(s.run.0.into()),
        numbers::TIME => Some(s.time.0.into()),
        _ => None,
    }
}

// ---- seven words

fn dabs_item(d: Dabs, item: usize) -> Option<i64>
    ensures { result ≡ item_of (R.Dabs d) item }
{
    let height = d.height;
    match item {
        numbers::TEST => Some(d.test.into()),
        numbers::PRIMARY => Some(d.primary.into()),
        numbers::SPI => Some(d.spi.into()),
        numbers::REINFORCED => Some(d.reinforced.into()),
        numbers::CODE7700 => Some(d.code7700.into()),
        numbers::CODE7600 => Some(d.code7600.into()),
        numbers::FAA => Some(d.faa.into()),
        numbers::RANGE => Some(d.range.0.into()),
        numbers::AZIMUTH => Some(d.azimuth.0.into()),
        numbers::ALERT => Some(d.alert.into()),
        numbers::RELAY => Some(d.relay.into()),
        numbers::TIME => Some(d.time.0.into()),
        numbers::ADDRESS => Some(d.address.into()),
        _ => height_item(height, item),
    }
}

fn atcrbs_item(a: Atcrbs, item: usize) -> Option<i64>
    ensures { result ≡ item_of (R.Atcrbs a) item }
{
    let height = a.height;
    match item {
        numbers::TEST => Some(a.test.into()),
        numbers::MODE3A => Some(a.mode3a.into()),
        numbers::SPI => Some(a.spi.into()),
        numbers::REINFORCED => Some(a.reinforced.into()),
        numbers::CODE7700 => Some(a.code7700.into()),
        numbers::CODE7600 => Some(a.code7600.into()),
        numbers::FAA => Some(a.faa.into()),
        numbers::RANGE => Some(a.range.0.into()),
        numbers::AZIMUTH => Some(a.azimuth.0.into()),
        numbers::CONFIDENCE => Some(a.confidence.into()),
        numbers::TRANSITION => Some(a.transition.into()),
        numbers::FALSE_TARGET => Some(a.false_target.into()),
        numbers::RELAY => Some(a.relay.into()),
        numbers::TIME => Some(a.time.0.into()),
        numbers::CODE => Some(a.code.into()),
        numbers::FILE => Some(a.file.into()),
        _ => height_item(height, item),
    }
}

fn mtd_item(m: Mtd, item: usize) -> Option<i64>
    ensures { result ≡ item_of (R.Mtd m) item }
{
    match item {
        numbers::TEST => Some(m.test.into()),
        numbers::FAA => Some(m.faa.into()),
        numbers::RANGE => Some(m.range.0.into()),
        numbers::AZIMUTH => Some(m.azimuth.0.into()),
        numbers::AIMS => Some(m.aims.into()),
        numbers::TIME => Some(m.time.0.into()),
        numbers::DOPPLER1 => Some(m.doppler1.into()),
        numbers::DOPPLER2 => Some(m.doppler2.into()),
        numbers::FILE => Some(m.file.into()),
        numbers::QUALITY => Some(m.quality.into()),
        numbers::CONFIDENCE => Some(m.confidence.into()),
        numbers::FALSE_TARGET => Some(m.false_target.into()),
        numbers::GROUND => Some(m.ground_traffic.into()),
        _ => None,
    }
}

fn rdas_item(x: Rdas, item: usize) -> Option<i64>
    ensures { result ≡ item_of (R.Rdas x) item }
{
    match item {
        numbers::TEST => Some(x.test.into()),
        numbers::FAA => Some(x.faa.into()),
        numbers::RANGE => Some(x.range.0.into()),
        numbers::AZIMUTH => Some(x.azimuth.0.into()),
        numbers::AIMS => Some(x.aims.into()),
        numbers::TIME => Some(x.time.0.into()),
        numbers::FILE => Some(x.file.into()),
        numbers::QUALITY => Some(x.quality.into()),
        numbers::FALSE_TARGET => Some(x.false_target.into()),
        _ => None,
    }
}

pub fn item_of(report: Report, item: usize) -> Option<i64>
    ensures { result ≡ item_of report item }
{
    match report {
        Report::Search(s) => search_item(s, item),
        Report::Strobe(s) => strobe_item(s, item),
        Report::Map(m) => map_item(m, item),
        Report::Status(s) => status_item(s, item),
        Report::Rtqc(s) => rtqc_item(s, item),
        Report::Dabs(d) => dabs_item(d, item),
        Report::Atcrbs(a) => atcrbs_item(a, item),
        Report::Mtd(m) => mtd_item(m, item),
        Report::Rdas(r) => rdas_item(r, item),
    }
}

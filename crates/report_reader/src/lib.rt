// A run's words to a report or a refusal. The conditions stand in the order of document 01's table, and each test is one of its rows.
// Relies on bits and records for what words hold; what each test means stands in specs/Conditions.antt of reports.
#![tactic(auto)]

ghost use Rattle.std.specs.Prelude.{◌≡◌, ◌<◌, true, false, MatchOption};
ghost use Rattle.reports.specs.Altitude.{form_of};
ghost use Rattle.words.specs.Word.{bits, bit};
ghost use Rattle.reports.specs.Forms.{is_four, is_seven, word_count};
ghost use Rattle.reports.specs.Conditions.{unknown_form, unassigned, minus_zero, four_zeros, height_spares, seven_spares, zeros};
ghost use Rattle.reports.specs.Records.{four_of, height_of, seven_of, report_of};
ghost use Rattle.reports.specs.Runs.{judged};
ghost use Rattle.report_reader.specs.Reading.{tested};

use bits::{bit, bits, byte};
use measures::RunLength;
use refusals::LineRefusal;
use reports::altitude::Form;
use reports::{Height, Report, RunRefusal, forms};

mod altitude; // altitude.rt: the altitude of twelve bits, in each form
mod bits; // bits.rt: the bits of a report by number
mod records; // records.rt: what words hold, field by field

// ---- what words hold, and the sum of the bits that are zero in an accepted report: a number, and no bool, as `zeros` of specs/Conditions.antt of
// reports has it

// Of four words of a known form: what is none of the first four is an RTQC.
#[tactic(auto, unfolding(reports::specs::Records::four_of, reports::specs::Conditions::four_zeros))]
#[inline(always)]
fn four_of(words: &[u16; 7]) -> (Report, u16)
    requires { is_four words.now ≡ true }
    ensures report { result.0 ≡ four_of words.now }
    ensures zeros { result.1 ≡ four_zeros words.now }
{
    let bit25 = bits(words, 25, 25);
    match bits(words, 4, 10) {
        forms::SEARCH_PATTERN => (Report::Search(records::search_of(words)), bit25),
        forms::STROBE_PATTERN => (Report::Strobe(records::strobe_of(words)), bit25),
        forms::STATUS_PATTERN => (Report::Status(records::status_of(words)), 0),
        _ if bits(words, 4, 8) == forms::MAP_PATTERN => {
            (
                Report::Map(records::map_of(words)),
                bit25 + bits(words, 51, 51),
            )
        }
        _ => (Report::Rtqc(records::rtqc_of(words)), bit25),
    }
}

// Bits 88 to 90 where bit 12 is one.
fn radar_code(words: &[u16; 7]) -> Option<u16>
    ensures { MatchOption result (bit words.now 12 ≡ false) (λ code. (bit words.now 12 ≡ true) × (code ≡ bits words.now 88 90)) }
{
    bit(words, 12).then(|| bits(words, 88, 90))
}

// Of bits 6, 12 and 79 to 90 of DABS and ATCRBS.
#[tactic(auto, unfolding(reports::specs::Records::height_of, reports::specs::Conditions::height_spares))]
fn height_of(words: &[u16; 7], form: Form) -> (Height, u16)
    requires { is_seven words.now ≡ true }
    ensures height { result.0 ≡ height_of (form_of form) words.now }
    ensures spares { result.1 ≡ height_spares words.now }
    ensures seven_bits { result.1 < 128 }
{
    let mode_c = bit(words, 6);
    match radar_code(words) {
        Some(forms::CD_CODE) => {
            let run = RunLength(byte(words, 79, 81));
            (Height::Cd { mode_c, run }, bits(words, 82, 87))
        }
        Some(forms::MTD_CODE) => {
            let quality = byte(words, 79, 80);
            (Height::Mtd { mode_c, quality }, bits(words, 81, 87))
        }
        Some(forms::RDAS_CODE) => {
            let quality = byte(words, 79, 82);
            (Height::Rdas { mode_c, quality }, bits(words, 83, 87))
        }
        _ if mode_c => (
            Height::Altitude(altitude::altitude_of(bits(words, 79, 90), form)),
            0,
        ),
        _ => (Height::Carried(bits(words, 79, 90)), 0),
    }
}

// Of seven words: what is none of the first three is an ATCRBS.
#[tactic(auto, unfolding(reports::specs::Records::seven_of, reports::specs::Conditions::seven_spares))]
#[inline(always)]
fn seven_of(words: &[u16; 7], form: Form) -> (Report, u16)
    requires { is_seven words.now ≡ true }
    ensures report { result.0 ≡ seven_of (form_of form) words.now }
    ensures spares { result.1 ≡ seven_spares words.now }
{
    if bit(words, 4) {
        let (height, spare) = height_of(words, form);
        return (
            Report::Dabs(records::dabs_of(words, height)),
            bits(words, 45, 46) + spare,
        );
    }
    match radar_code(words) {
        Some(forms::MTD_SEARCH_CODE) => {
            let spare = bits(words, 5, 10) + bits(words, 45, 45) + bits(words, 87, 87);
            (Report::Mtd(records::mtd_of(words)), spare)
        }
        Some(forms::RDAS_SEARCH_CODE) => {
            let spare = bits(words, 5, 10)
                + bits(words, 45, 45)
                + bits(words, 53, 64)
                + bits(words, 83, 84)
                + bits(words, 86, 87);
            (Report::Rdas(records::rdas_of(words)), spare)
        }
        _ => {
            let (height, spare) = height_of(words, form);
            (Report::Atcrbs(records::atcrbs_of(words, height)), spare)
        }
    }
}

// Of words of a known form.
#[tactic(auto, unfolding(reports::specs::Records::report_of, reports::specs::Conditions::zeros))]
#[inline(always)]
fn report_of(words: &[u16; 7], form: Form) -> (Report, u16)
    requires { unknown_form words.now ≡ false }
    ensures report { result.0 ≡ report_of (form_of form) words.now }
    ensures zeros { result.1 ≡ zeros words.now }
{
    if bits(words, 2, 3) == forms::SEVEN_WORDS {
        seven_of(words, form)
    } else {
        four_of(words)
    }
}

// ---- the conditions

fn is_unknown_form(words: &[u16; 7]) -> bool
    ensures { result ≡ unknown_form words.now }
{
    match bits(words, 2, 3) {
        forms::FOUR_WORDS => match bits(words, 4, 10) {
            forms::SEARCH_PATTERN | forms::STROBE_PATTERN | forms::STATUS_PATTERN => false,
            forms::RTQC_PATTERN => !bit(words, 1),
            _ => bits(words, 4, 8) != forms::MAP_PATTERN,
        },
        forms::SEVEN_WORDS => false,
        _ => true,
    }
}

fn word_count(words: &[u16; 7]) -> usize
    ensures { result ≡ word_count words.now }
{
    if bits(words, 2, 3) == forms::SEVEN_WORDS {
        7
    } else {
        4
    }
}

fn is_unassigned(words: &[u16; 7]) -> bool
    ensures { result ≡ unassigned words.now }
{
    bits(words, 2, 3) == forms::SEVEN_WORDS
        && match radar_code(words) {
            None | Some(forms::CD_CODE | forms::MTD_CODE | forms::RDAS_CODE) => false,
            Some(forms::MTD_SEARCH_CODE | forms::RDAS_SEARCH_CODE) => bit(words, 4),
            Some(_) => true,
        }
}

fn is_minus_zero(words: &[u16; 7], form: Form) -> bool
    ensures { result ≡ minus_zero (form_of form) words.now }
{
    bits(words, 2, 3) == forms::SEVEN_WORDS
        && !bit(words, 12)
        && bit(words, 6)
        && altitude::is_refused(bits(words, 79, 90), form)
}

// ---- the answer

// A row of the table: the refusal, where its condition holds.
fn row(holds: bool, why: LineRefusal, offset: usize) -> Result<(), RunRefusal>
    ensures { result ≡ tested holds why offset }
{
    if holds {
        Err(RunRefusal { why, offset })
    } else {
        Ok(())
    }
}

// The answer to a run of `n` words whose first seven are given, with 0 for those past its end; its first word that is too wide is at
// `too_wide` and its first word with an even number of ones at `even`, or these are `n`. Where a word is too wide, `even` does not matter.
// Altitudes are read in the form.
// Inlined, with what makes the report: else the report goes through memory three times, and a short run takes twice the time (bench/).
#[inline(always)]
pub fn judge(
    words: &[u16; 7],
    n: usize,
    too_wide: usize,
    even: usize,
    form: Form,
) -> Result<Report, RunRefusal>
    ensures { result ≡ judged (form_of form) words.now n too_wide even }
{
    row(too_wide < n, LineRefusal::WordTooWide, too_wide)?;
    row(even < n, LineRefusal::EvenWord, even)?;
    row(is_unknown_form(words), LineRefusal::UnknownForm, 0)?;
    row(n != word_count(words), LineRefusal::WrongLength, 0)?;
    row(is_unassigned(words), LineRefusal::UnassignedRadar, 0)?;
    let (report, spare) = report_of(words, form);
    row(spare != 0, LineRefusal::SpareBitSet, 0)?;
    row(is_minus_zero(words, form), LineRefusal::MinusZero, 0)?;
    Ok(report)
}

// The calls of a C program for the index (document 02, Ticket 3): a table of entries that the program declares, numbers and byte slices in, one number
// out. include/siamrung.h says what each means to the caller; a call keeps nothing.
// Relies on index for the answers, line_reader for the outcome; specs/Calls.antt says what each call answers.
#![tactic(auto)]

ghost use Rattle.std.specs.Prelude.{◌≡◌};
ghost use Rattle.index.specs.Indexing.{found};
ghost use Rattle.reports.specs.Altitude.{chosen};
ghost use Rattle.index.specs.Numbers.{index_number};
ghost use Rattle.index_host.specs.Calls.{answer_number, found_number, file_number, entry_at, Enters};

use index::{Entry, IndexRefusal, Indexed, entering, seen};
use reports::altitude::Form;

// ---- an answer as one number: what was done, and behind it, counted in 256, the entry where it was done. A refusal is its number.
// What was done stays a number: the C interface needs it (include/siamrung.h has these numbers).

const ENTERED: u32 = 123;

const REPLACED: u32 = 124;

const LEFT: u32 = 125;

const FOUND: u32 = 126;

const MISSING: u32 = 127;

const STEP: u32 = 256;

fn refused(why: IndexRefusal) -> u32
    ensures { result ≡ index_number why }
{
    u32::from(u8::from(why))
}

fn answer_number(answer: Result<Indexed, IndexRefusal>) -> u32
    ensures { result ≡ answer_number answer }
{
    match answer {
        Ok(Indexed::Entered(i)) => ENTERED + STEP * u32::from(i),
        Ok(Indexed::Replaced(i)) => REPLACED + STEP * u32::from(i),
        Ok(Indexed::Left) => LEFT,
        Err(why) => refused(why),
    }
}

fn found_number(answer: Result<Option<u16>, IndexRefusal>) -> u32
    ensures { result ≡ found_number answer }
{
    match answer {
        Ok(Some(i)) => FOUND + STEP * u32::from(i),
        Ok(None) => MISSING,
        Err(why) => refused(why),
    }
}

// ---- entering

// The arguments are those that C passes: a struct would be made in each call, and used there once.

// What the outcome at a place of the line brings. An entry has no link number.
fn brought(bytes: &[u8], place: usize, form: u32, link: u32, scan: u32) -> Entry
    ensures { result ≡ entry_at (chosen form) link bytes.now place scan }
{
    let received = line_reader::bytes::read(bytes, place, Form::from(form), link);
    seen::entry_of(received.outcome, scan)
}

#[unsafe(no_mangle)]
pub extern "C" fn siamrung_index_enter(
    table: &mut [Entry],
    bytes: &[u8],
    place: usize,
    form: u32,
    link: u32,
    scan: u32,
) -> u32
    ensures { Enters (chosen form) link table.old bytes.now place scan result table.new }
{
    let e = brought(bytes, place, form, link, scan);
    answer_number(entering::enter(table, e))
}

// ---- finding

// An entry's number has sixteen bits. A greater one is in no entry, as 0 is in none.
fn file_number(number: u32) -> u16
    ensures { result ≡ file_number number }
{
    u16::try_from(number).unwrap_or(0)
}

#[unsafe(no_mangle)]
pub extern "C" fn siamrung_index_find(table: &[Entry], number: u32) -> u32
    ensures { result ≡ found_number (found table.now (file_number number)) }
{
    found_number(entering::find(table, file_number(number)))
}

// The last report of each file number (document 02, Ticket 3): an index beside the line. It is a table of entries that the caller lends; a call
// enters what an outcome brings, or finds a number's entry. Here are the types, the refusals and the limit.
// Relies on lines for the outcome and reports for kinds; specs/Indexing.antt says what a call answers and what the table then holds.
#![tactic(auto)]

ghost use Rattle.std.specs.Prelude.{◌≡◌};
ghost use Rattle.index.specs.Numbers.{index_number};

mod judging; // judging.rt: what a look at a table finds
mod marks; // marks.rt: a mark for each number
pub mod entering; // entering.rt: the two calls
pub mod seen; // seen.rt: what an outcome brings

// The most entries of a table.
const MOST: usize = 512;

// The file number that is never entered, and marks an unused entry.
const UNCORRELATED: u16 = 0;

// An entry, as a C program declares it: a file number, the number of the report's kind, the scan number that the caller gave, and the place of the
// run. There is no gap between the fields and none behind them.
#[repr(C)]
#[derive(Clone, Copy, Debug, PartialEq, Eq)]
pub struct Entry {
    pub number: u16,
    pub kind: u16,
    pub scan: u32,
    pub place: usize,
}

// Why a call is refused, by its number in document 02.
#[derive(Clone, Copy, Debug, PartialEq, Eq)]
pub enum IndexRefusal {
    TableBroken = 50,
    TableFull = 51,
}

impl From<IndexRefusal> for u8 {
    ghost from_gives = { λ why n. n ≡ index_number why };

    fn from(why: IndexRefusal) -> u8 {
        why as u8
    }
}

// What entering a report does: a new number takes an entry; the entry of a number that was there is replaced; the table is left as it is, because the
// outcome has no number to enter.
#[derive(Clone, Copy, Debug, PartialEq, Eq)]
pub enum Indexed {
    Entered(u16),
    Replaced(u16),
    Left,
}

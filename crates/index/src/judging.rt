// What a look at a table finds: whether it is broken, its first unused entry, and the entry of a number. The work is linear in the table: a number held
// twice is found by marks, not by comparing every entry with every other.
// Relies on marks.rt for the marks, and on the definitions of specs/Table.antt and specs/Steps.antt.
ghost use Rattle.std.specs.Prelude.{◌≡◌, length, IfOk};
ghost use Rattle.index.specs.Table.{numbers_of, held_twice};
ghost use Rattle.index.specs.Steps.{placed, some_used, looked_in, IsWithin};

use crate::marks::Marks;
use crate::{Entry, IndexRefusal, MOST, UNCORRELATED};

// ---- searches

// The first entry with a number.
fn placed(entries: &[Entry], x: u16) -> Option<usize>
    ensures { result ≡ placed x entries.now }
{
    entries.iter().position(|e| e.number == x)
}

// Whether one of these is used.
fn any_used(entries: &[Entry]) -> bool
    ensures { result ≡ some_used entries.now }
{
    entries.iter().any(|e| e.number != UNCORRELATED)
}

// Whether a number other than 0 stands twice. Nothing is marked at first; a number that is marked when it is met stands there a second time. So each
// number is looked at once, whatever the others are.
fn doubled(entries: &[Entry]) -> bool
    ensures { result ≡ held_twice (numbers_of entries.now) }
{
    let mut marks = Marks::none();
    for e in entries {
        if e.number != UNCORRELATED && marks.mark(e.number) {
            return true;
        }
    }
    false
}

// ---- a look at a table

// A table that is not broken: its first unused entry, and the entry of a number.
#[derive(Clone, Copy)]
pub struct Sound {
    pub free: Option<usize>,
    pub at: Option<usize>,
}

// What is found: number x's entry and the first unused one; or that the table is broken.
pub fn look(entries: &[Entry], x: u16) -> Result<Sound, IndexRefusal>
    ensures found { result ≡ looked_in entries.now x }
    ensures within { IfOk result (λ s. IsWithin (length entries.now) s.free × IsWithin (length entries.now) s.at) }
{
    if MOST < entries.len() {
        return Err(IndexRefusal::TableBroken);
    }
    let free = placed(entries, UNCORRELATED);
    let used = free.unwrap_or(entries.len());
    let (front, rest) = entries.split_at(used);
    if any_used(rest) || doubled(front) {
        return Err(IndexRefusal::TableBroken);
    }
    let at = placed(entries, x);
    Ok(Sound { free, at })
}

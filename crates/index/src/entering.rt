// The two calls on a lent table: what an outcome brought is entered, and a number's entry is found. Any table, any entry and any number are taken. Both
// look at the table once; the first then writes at most one entry.
// Relies on judging.rt for the look.
ghost use Rattle.std.specs.Prelude.{◌≡◌};
ghost use Rattle.index.specs.Indexing.{Indexes, found};

use crate::{Entry, IndexRefusal, Indexed, UNCORRELATED, judging};

// Enters what an outcome brought (seen::entry_of). A refused call, and number 0, leave the table as it was.
pub fn enter(entries: &mut [Entry], e: Entry) -> Result<Indexed, IndexRefusal>
    ensures { Indexes entries.old e result entries.new }
{
    let seen = judging::look(entries, e.number)?;
    if e.number == UNCORRELATED {
        return Ok(Indexed::Left);
    }
    if let Some(i) = seen.at {
        entries[i] = e;
        return Ok(Indexed::Replaced(i as u16));
    }
    let i = seen.free.ok_or(IndexRefusal::TableFull)?;
    entries[i] = e;
    Ok(Indexed::Entered(i as u16))
}

// The entry of a number. Nothing is written.
pub fn find(entries: &[Entry], number: u16) -> Result<Option<u16>, IndexRefusal>
    ensures { result ≡ found entries.now number }
{
    let seen = judging::look(entries, number)?;
    if number == UNCORRELATED {
        return Ok(None);
    }
    Ok(seen.at.map(|i| i as u16))
}

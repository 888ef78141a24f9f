// What a C program gives: a type, its items as pairs of numbers, and a list of thirty numbers; and the record and the list that they are.
// The pairs are gathered once. The record is made of the items that its type has. Each of its items must be among the pairs, and there must be as
// many pairs as items. So one rule finds an item that is missing, foreign or given twice. Where the items are no record, the answer is a record
// that the writer refuses with 30.
// Relies on fields for the records, pairs for what is given, items for the parts; specs/Given.antt says what each function gives.
ghost use Rattle.std.specs.Prelude.{◌≡◌, ◌<◌, ℕ, true, cond, eqb, slice_index, unwrap_or};
ghost use Rattle.pairs.specs.Pairs.{value_of};
ghost use Rattle.field_items.specs.Items.{pairs_by, items_of_field, items_of};
ghost use Rattle.field_items.specs.Given.{found_in, record_given, same_found, covers, fits, unfit, given, signed_of, list_given};

use crate::items;
use fields::{Field, Record, records, table};
use pairs::SLOTS;

// The first item's number: there are thirty-seven.
const FIRST: u64 = 201;

// What is given for each item's number, from the first one on. An array, not a map: the memory is fixed. Beside `Values` of report_items, with which it has
// no method in common but the look-up: there the numbers begin at 0 and are cut to widths.
#[derive(Drop)]
struct Gathered([Option<u64>; SLOTS]);

impl Gathered {
    // ---- the record

    // What is given for an item; nothing for a number that is none.
    fn found(&self, item: u64) -> Option<u64>
        ensures { result ≡ found_in self.now.0 item }
    {
        let k = item.checked_sub(FIRST)? as usize;
        if k < SLOTS { self.0[k] } else { None }
    }

    // Its value; 0 where it is not given.
    fn value(&self, item: u64) -> u64
        ensures { result ≡ value_of (found_in self.now.0 item) }
    {
        self.found(item).unwrap_or(0)
    }

    // The values of these items, in order.
    fn values(&self, items: [u64; 11]) -> [u64; 11]
        ensures { (k : ℕ) → k < 11 → slice_index result k ≡ value_of (found_in self.now.0 (slice_index items k)) }
    {
        // `map` was tried; the proof did not close: its calls are tied by a chain of states, so that call k lends this `self` nothing says at once.
        let mut v = [0; 11];
        for (k, x) in v.iter_mut().enumerate() {
            *x = self.value(items[k]);
        }
        v
    }

    // The record of the type at place i, of what is given for its items. A sensor that is given makes a relay of it.
    fn record(&self, i: usize) -> Record
        requires { i < 22 }
        ensures { result ≡ record_given self.now.0 i }
    {
        let inner = records::field_at(i, self.values(items::items_at(i)));
        match self.found(items::SENSOR) {
            Some(sensor) => Record::Relay { sensor, inner },
            None => Record::Single(inner),
        }
    }

    // ---- the comparison

    // An item is given, with this value.
    fn tells(&self, item: u64, value: u64) -> bool
        ensures { result ≡ same_found (found_in self.now.0 item) (Some value) }
    {
        self.found(item) == Some(value)
    }

    // A part is no item, or is given with this value.
    fn tells_part(&self, item: u64, value: u64) -> bool
        ensures { result ≡ cond (eqb item 0) true (same_found (found_in self.now.0 item) (Some value)) }
    {
        item == 0 || self.tells(item, value)
    }

    // All of these parts that are items are given, with these values.
    fn tells_parts(&self, items: [u64; 11], v: [u64; 11]) -> bool
        ensures { result ≡ covers self.now.0 (pairs_by items v) }
    {
        for (item, value) in items.iter().zip(v.iter()) {
            if !self.tells_part(*item, *value) {
                return false;
            }
        }
        true
    }

    #[tactic(auto, using(fields::proofs::Rows::found_within), unfolding(crate::specs::Items::items_of_field, crate::specs::Given::covers))]
    fn tells_field(&self, f: Field) -> bool
        ensures { result ≡ covers self.now.0 (items_of_field f) }
    {
        let v = records::numbers(f);
        match table::find(v[0]) {
            Some(i) => self.tells_parts(items::items_at(i), v),
            None => true,
        }
    }

    // Each of the record's items is given, with its value.
    #[tactic(auto, unfolding(crate::specs::Given::covers))]
    fn tells_all(&self, r: Record) -> bool
        ensures { result ≡ covers self.now.0 (items_of r) }
    {
        match r {
            Record::Single(f) => self.tells_field(f),
            Record::Relay { sensor, inner } => {
                self.tells(items::SENSOR, sensor) && self.tells_field(inner)
            }
        }
    }

    // Whether `count` pairs that tell this are just the items of the record, and the type is the record's.
    #[tactic(auto, unfolding(crate::specs::Given::fits))]
    fn fits(&self, code: u32, count: usize, r: Record) -> bool
        ensures { result ≡ fits code count self.now.0 r }
    {
        items::inner(r) == code && count == items::count_of(r) && self.tells_all(r)
    }
}

// The record of that type and these items, where they are a record's.
#[tactic(auto, using(fields::proofs::Rows::found_within), unfolding(crate::specs::Given::given, crate::specs::Given::checked_at))]
fn checked(code: u32, told: &[u8], list: &[u8]) -> Option<Record>
    ensures { unwrap_or result unfit ≡ given code told.now list.now }
{
    if list.len() != 240 || !pairs::whole(told) {
        return None;
    }
    let i = table::find(u64::from(code))?;
    let gathered = Gathered(pairs::gather(told, FIRST));
    let record = gathered.record(i);
    if gathered.fits(code, pairs::count(told), record) {
        Some(record)
    } else {
        None
    }
}

// A record that the writer refuses with 30, whatever list and text are given: state 0 is not in use.
fn unfit() -> Record
    ensures { result ≡ unfit }
{
    Record::Single(Field::AtcFailure { state: 0 })
}

// The record of that type and these items, which goes with a list of thirty numbers; or the one that the writer refuses. The Option ends here:
// `given` of specs/, which the claims and the C calls name, is a record.
pub fn record_of(code: u32, told: &[u8], list: &[u8]) -> Record
    ensures { result ≡ given code told.now list.now }
{
    checked(code, told, list).unwrap_or(unfit())
}

// ---- the list

// A number of eight bytes in two's complement. One that 32 bits do not hold becomes the least that they do, which no entry holds,
// as `signed_of` of specs/Given.antt has it.
fn signed(x: u64) -> i32
    ensures { result ≡ signed_of x }
{
    i32::try_from(x.cast_signed()).unwrap_or(i32::MIN)
}

// Thirty numbers, from the first byte on.
pub fn list_given(list: &[u8]) -> [i32; 30]
    ensures { result ≡ list_given list.now }
{
    // The loop stays: `from_fn` ties its calls by a chain of states, as `map` in `values`, and its proof would follow `list` through all thirty.
    let mut v = [0; 30];
    for (k, x) in v.iter_mut().enumerate() {
        *x = signed(bits::read(list, 64 * k, 64));
    }
    v
}

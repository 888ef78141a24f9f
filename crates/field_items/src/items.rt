// The items of a record: what a C program asks for by number, and gives. Every number is answered: None for an item that the record has not.
// One table says for each type which item each of its parts is; no function goes by type.
// Relies on fields for a record's parts and a type's place; specs/Items.antt says what the table holds.
ghost use Rattle.std.specs.Prelude.{◌≡◌, ◌<◌, ◌≤◌, length, get_or};
ghost use Rattle.pairs.specs.Pairs.{find_in};
ghost use Rattle.fields.specs.Records.{numbers_of};
ghost use Rattle.field_items.specs.Items.{items_at, tally_of, pairs_by, items_of_field, items_of, item_of, inner_of};

use fields::{Field, Record, records, table};

pub const SENSOR: u64 = 237;

// What the parts of the type at place i are, in the order of the table of types. 0 is no item: a table of Options would say Some at each number, and
// is no plainer. That i is below 22 stands in two `requires` and in invariants: `find` gives a number, and a type for it would be made once a call.
#[tactic(auto, using(fields::proofs::Rows::last_is), unfolding(crate::specs::Items::item_table, crate::specs::Items::items_at))]
pub(crate) fn items_at(i: usize) -> [u64; 11]
    requires { i < 22 }
    ensures { result ≡ items_at i }
{
    match i {
        0 => [0, 201, 202, 203, 204, 205, 0, 0, 0, 0, 0], // 21
        1 => [0, 201, 202, 203, 204, 0, 206, 0, 0, 0, 0], // 22
        2 => [0, 201, 202, 203, 204, 207, 0, 0, 0, 0, 0], // 23
        3 => [0, 201, 202, 0, 0, 0, 0, 0, 0, 0, 0], // 24
        4 => [0, 201, 202, 0, 0, 0, 0, 0, 0, 0, 0], // 02
        5 => [0, 201, 202, 208, 209, 0, 0, 0, 0, 0, 0], // 25
        6 => [0, 210, 0, 0, 0, 0, 0, 0, 0, 0, 0], // 61
        7 => [0, 0, 211, 0, 0, 0, 0, 0, 0, 0, 0], // 9B
        8 => [0, 212, 0, 0, 0, 0, 0, 0, 0, 0, 0], // 99
        9 => [0, 213, 0, 214, 0, 0, 0, 0, 0, 0, 0], // 65
        10 => [0, 215, 216, 217, 0, 0, 0, 0, 0, 0, 0], // 9A
        11 => [0, 218, 219, 0, 0, 0, 0, 0, 0, 0, 0], // 96
        12 => [0, 201, 208, 220, 0, 0, 0, 0, 0, 0, 0], // 31
        13 => [0, 201, 208, 221, 0, 0, 0, 0, 0, 0, 0], // 32
        14 => [0, 201, 205, 0, 0, 0, 0, 0, 0, 0, 0], // 41
        15 => [0, 201, 0, 206, 0, 0, 0, 0, 0, 0, 0], // 42
        16 => [0, 201, 0, 222, 0, 0, 0, 0, 0, 0, 0], // 43
        17 => [0, 201, 223, 224, 225, 0, 0, 0, 0, 0, 0], // 44
        18 => [0, 201, 0, 226, 0, 0, 0, 0, 0, 0, 0], // 45
        19 => [0, 210, 0, 0, 0, 0, 0, 0, 0, 0, 0], // 62
        20 => [0, 227, 228, 229, 230, 231, 232, 233, 234, 235, 236], // 83
        _ => [0, 0, 0, 0, 0, 0, 0, 0, 0, 0, 0], // 03
    }
}

// Items and values stay apart, as the table and `pairs_by` of specs/Items.antt have them.
// Among parts with these items and values, the value of this one.
fn search(items: [u64; 11], v: [u64; 11], item: u64) -> Option<u64>
    ensures { result ≡ find_in item (pairs_by items v) }
{
    if item == 0 {
        return None;
    }
    for (k, x) in items.iter().zip(v.iter()) {
        if *k == item {
            return Some(*x);
        }
    }
    None
}

// How many of these parts are items.
fn tally(items: [u64; 11]) -> usize
    ensures { (result ≡ tally_of items) × (result ≤ 11) }
{
    items.iter().filter(|k| **k != 0).count()
}

// The type of a field that is no relay.
pub fn type_of(f: Field) -> u32
    ensures { result ≡ get_or (numbers_of f) 0 0 }
{
    records::numbers(f)[0] as u32
}

// The type that a record's items speak of: of a relay that of the field inside.
pub fn inner(r: Record) -> u32
    ensures { result ≡ inner_of r }
{
    match r {
        Record::Single(f) => type_of(f),
        Record::Relay { sensor: _, inner } => type_of(inner),
    }
}

#[tactic(auto, using(fields::proofs::Rows::found_within), unfolding(crate::specs::Items::items_of_field, pairs::specs::Pairs::find_in))]
fn field_item(f: Field, item: u64) -> Option<u64>
    ensures { result ≡ find_in item (items_of_field f) }
{
    let v = records::numbers(f);
    let i = table::find(v[0])?;
    search(items_at(i), v, item)
}

#[tactic(auto, using(fields::proofs::Rows::found_within), unfolding(crate::specs::Items::items_of_field))]
fn field_count(f: Field) -> usize
    ensures { (result ≡ length (items_of_field f)) × (result ≤ 11) }
{
    let v = records::numbers(f);
    match table::find(v[0]) {
        Some(i) => tally(items_at(i)),
        None => 0,
    }
}

// A relay's sensor stands beside the items of the field inside.
fn relay_item(sensor: u64, inner: Field, item: u64) -> Option<u64>
    ensures { result ≡ item_of (Record.Relay sensor inner) item }
{
    if item == SENSOR {
        return Some(sensor);
    }
    field_item(inner, item)
}

pub fn item_of(given: Record, item: u64) -> Option<u64>
    ensures { result ≡ item_of given item }
{
    match given {
        Record::Single(f) => field_item(f, item),
        Record::Relay { sensor, inner } => relay_item(sensor, inner, item),
    }
}

// How many items a record has.
pub fn count_of(given: Record) -> usize
    ensures { result ≡ length (items_of given) }
{
    match given {
        Record::Single(f) => field_count(f),
        Record::Relay { sensor: _, inner } => 1 + field_count(inner),
    }
}

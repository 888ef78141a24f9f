// The calls that read a link data field: its bytes, its count of bits, and which way it travels: 0 to the sensor, any other number from it.
// Each answers one thing about it. Any bytes, any count and any number are taken.
// Relies on field_reader for the answer, field_items for the parts; specs/Reading.antt says what each call answers.
ghost use Rattle.std.specs.Prelude.{◌≡◌, ◌-◌, pos, length, get_or};
ghost use Rattle.pairs.specs.Pairs.{value_of};
ghost use Rattle.fields.specs.Reading.{way_numbered, answer_of, answer_number, read_field, text_of};
ghost use Rattle.field_host.specs.Reading.{outer_of, inner_type, type_of, item_in, is_there, entries_of};

use field_items::items;
use field_reader::reading;
use fields::{Direction, RELAY, Record};
use refusals::FieldRefusal;

// The bytes, the count and the direction are three arguments, as C passes them: a struct would be made in each call, and used there once.
fn answer(bytes: &[u8], count: usize, from_sensor: u32) -> Result<Record, FieldRefusal>
    ensures { result ≡ answer_of bytes.now count (way_numbered from_sensor) }
{
    reading::judge(bytes, count, Direction::from(from_sensor))
}

// ---- what the field is

#[unsafe(no_mangle)]
pub extern "C" fn siamrung_field_refusal(bytes: &[u8], count: usize, from_sensor: u32) -> u32
    ensures { result ≡ answer_number (answer_of bytes.now count (way_numbered from_sensor)) }
{
    u32::from(fields::number(answer(bytes, count, from_sensor)))
}

fn outer(r: Record) -> u32
    ensures { result ≡ outer_of r }
{
    match r {
        Record::Single(f) => items::type_of(f),
        Record::Relay { .. } => RELAY as u32,
    }
}

fn outer_type(a: Result<Record, FieldRefusal>) -> u32
    ensures { result ≡ type_of a }
{
    a.map_or(0, outer)
}

fn inner_type(a: Result<Record, FieldRefusal>) -> u32
    ensures { result ≡ inner_type a }
{
    a.map_or(0, items::inner)
}

// The type; 3 for a relay, 0 where the field is refused.
#[unsafe(no_mangle)]
pub extern "C" fn siamrung_field_type(bytes: &[u8], count: usize, from_sensor: u32) -> u32
    ensures { result ≡ type_of (answer_of bytes.now count (way_numbered from_sensor)) }
{
    outer_type(answer(bytes, count, from_sensor))
}

// The type that the items speak of: of a relay that of the field inside; 0 where the field is refused.
#[unsafe(no_mangle)]
pub extern "C" fn siamrung_field_inner_type(bytes: &[u8], count: usize, from_sensor: u32) -> u32
    ensures { result ≡ inner_type (answer_of bytes.now count (way_numbered from_sensor)) }
{
    inner_type(answer(bytes, count, from_sensor))
}

// ---- its items

fn item_in(a: Result<Record, FieldRefusal>, item: u32) -> Option<u64>
    ensures { result ≡ item_in a item }
{
    items::item_of(a.ok()?, u64::from(item))
}

#[unsafe(no_mangle)]
pub extern "C" fn siamrung_field_has(bytes: &[u8], count: usize, from_sensor: u32, item: u32) -> u32
    ensures { result ≡ is_there (item_in (answer_of bytes.now count (way_numbered from_sensor)) item) }
{
    u32::from(item_in(answer(bytes, count, from_sensor), item).is_some())
}

// 0 where there is none, which siamrung_field_has tells.
#[unsafe(no_mangle)]
pub extern "C" fn siamrung_field_item(
    bytes: &[u8],
    count: usize,
    from_sensor: u32,
    item: u32,
) -> u64
    ensures { result ≡ value_of (item_in (answer_of bytes.now count (way_numbered from_sensor)) item) }
{
    item_in(answer(bytes, count, from_sensor), item).unwrap_or(0)
}

// ---- its list

// What stands behind the first 16 bits, by the bits of an entry. It goes by the type's number, as `entries_of` of specs/Reading.antt has it: to find
// the row of the type for its `Behind` would be no plainer.
fn entries(code: u32, count: usize) -> usize
    ensures { result ≡ entries_of code count }
{
    match code {
        0x9B => count.saturating_sub(16) / 8,
        0x9A | 0x96 => count.saturating_sub(16) / 24,
        _ => 0,
    }
}

#[unsafe(no_mangle)]
pub extern "C" fn siamrung_field_entries(bytes: &[u8], count: usize, from_sensor: u32) -> usize
    ensures { result ≡ entries_of (type_of (answer_of bytes.now count (way_numbered from_sensor))) count }
{
    entries(outer_type(answer(bytes, count, from_sensor)), count)
}

fn entry(list: [i32; 30], index: usize) -> i64
    ensures { result ≡ get_or list index (pos 0) }
{
    i64::from(list.get(index).copied().unwrap_or(0))
}

// 0 from siamrung_field_entries on: the list is zero from its count on.
#[unsafe(no_mangle)]
pub extern "C" fn siamrung_field_entry(
    bytes: &[u8],
    count: usize,
    from_sensor: u32,
    index: usize,
) -> i64
    ensures { result ≡ get_or (read_field bytes.now count (way_numbered from_sensor)).list index (pos 0) }
{
    entry(
        reading::read(bytes, count, Direction::from(from_sensor)).list,
        index,
    )
}

// ---- its text, which runs to the end of the bytes

#[unsafe(no_mangle)]
pub extern "C" fn siamrung_field_text_length(bytes: &[u8], count: usize, from_sensor: u32) -> usize
    ensures { result ≡ length (text_of bytes.now count (way_numbered from_sensor)) }
{
    reading::text(bytes, count, Direction::from(from_sensor)).len()
}

#[unsafe(no_mangle)]
pub extern "C" fn siamrung_field_text_place(bytes: &[u8], count: usize, from_sensor: u32) -> usize
    ensures { result ≡ length bytes.now - length (text_of bytes.now count (way_numbered from_sensor)) }
{
    bytes
        .len()
        .saturating_sub(siamrung_field_text_length(bytes, count, from_sensor))
}

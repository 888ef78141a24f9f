// The reader: the bytes of a field, its bit count and its direction to its record and list, its text, or a refusal.
// The public functions take every input.
// Relies on `bits` and, of `fields`, on the table, the parts and the records. specs/Reading.antt of `fields` says what is answered, specs/Steps.antt
// the same by steps.
ghost use Rattle.std.specs.Prelude.{◌≡◌, ◌≤◌, ◌&&◌, eqb, leb};
ghost use Rattle.bits.specs.Bits.{bits_of};
ghost use Rattle.fields.specs.Reading.{from_sensor, type_of, type_not_carried, not_relayed, answer_of, list_in, list_of, read_field, text_in, text_place, text_of};
ghost use Rattle.field_reader.specs.Steps.{unknown_of, plain_of, relayed, opened_of, outer_of};

use crate::lists;
use crate::typed::Typed;
use fields::{Behind, Direction, Field, Found, RELAY, Record, TEST_RESPONSE, table};
use refusals::FieldRefusal;

// A type of Table 5-1 that is not carried.
#[tactic(auto, unfolding(fields::specs::Reading::type_not_carried))]
fn type_not_carried(code: u64) -> bool
    ensures { result ≡ type_not_carried code }
{
    code != 0x83 && (code / 16 == 8 || matches!(code, 0x64 | 0x9C | 0xC1 | 0xC2))
}

// Why a type that has no row is refused.
fn unknown(code: u64) -> FieldRefusal
    ensures { result ≡ unknown_of code }
{
    if type_not_carried(code) {
        return FieldRefusal::TypeNotCarried;
    }
    FieldRefusal::UnknownType
}

// Inside a relay, which no relay and no test response stands in.
#[tactic(auto, unfolding(fields::specs::Reading::not_relayed))]
fn not_relayed(code: u64, before: usize) -> bool
    ensures { result ≡ not_relayed code before }
{
    before == 16 && matches!(code, RELAY | TEST_RESPONSE)
}

// The type of a field that begins behind the first `before` bits.
#[tactic(auto, using(bits::proofs::Laws::whole))]
fn type_at(bytes: &[u8], before: usize) -> u64
    ensures { result ≡ type_of bytes.now before }
{
    bits::read(bytes, before, 8)
}

// What is asked: whether these bytes are a field of `count` bits that travels `way`.
#[derive(Clone, Copy)]
struct Asked<'a> {
    bytes: &'a [u8],
    count: usize,
    way: Direction,
}

impl<'a> Asked<'a> {
    // What the count and the bytes alone tell: 20, 21, 22, or nothing.
    #[tactic(auto, using(bits::proofs::Laws::whole), unfolding(crate::specs::Steps::outer_of, fields::specs::Reading::count_out_of_range, fields::specs::Reading::wrong_byte_count, fields::specs::Reading::bit_after_count))]
    fn outer(&self) -> Result<(), FieldRefusal>
        ensures { result ≡ outer_of self.now.bytes.now self.now.count }
    {
        if !(8..=2008).contains(&self.count) {
            return Err(FieldRefusal::CountOutOfRange);
        }
        if self.bytes.len() != self.count.div_ceil(8) {
            return Err(FieldRefusal::WrongByteCount);
        }
        if bits::read(self.bytes, self.count, (8 - self.count % 8) % 8) != 0 {
            return Err(FieldRefusal::BitAfterCount);
        }
        Ok(())
    }

    // `before`, 0 or 16, is a number: the definitions take it so, and `Typed` keeps that it is at most 16.
    // A field of the type `code` that is no relay and begins behind the first `before` bits: 23 to 28, or its record.
    #[tactic(auto, using(crate::proofs::Order::unplaced, crate::proofs::Order::placed, fields::proofs::Rows::found_within), unfolding(crate::specs::Steps::row_read, fields::specs::Reading::same_way_as))]
    fn plain(&self, before: usize, code: u64) -> Result<Field, FieldRefusal>
        requires { (before ≤ 16) × (code ≡ type_of self.now.bytes.now before) }
        ensures { result ≡ plain_of self.now.bytes.now self.now.count before self.now.way }
    {
        let Some(place) = table::find(code) else {
            return Err(unknown(code));
        };
        // Asked before the values are read: a field of the other direction needs none of them.
        if table::row_at(place).way != self.way {
            return Err(FieldRefusal::WrongDirection);
        }
        let field = Typed::new(self.bytes, before, code, place);
        // Both are asked first: an edit of must-fail/ swaps the two tests, and is to be refused for their order, not for a name.
        let relayed = not_relayed(code, before);
        let sized = field.is_sized(self.count);
        if relayed {
            return Err(FieldRefusal::NotRelayed);
        }
        if !sized {
            return Err(FieldRefusal::WrongBitCount);
        }
        field.judged()
    }

    // A relay: its inner field is opened first, and the refusal of that handed up.
    #[tactic(auto, using(bits::proofs::Laws::whole))]
    fn relay(&self) -> Result<Record, FieldRefusal>
        ensures { result ≡ relayed (bits_of self.now.bytes.now 8 8) (plain_of self.now.bytes.now self.now.count 16 self.now.way) }
    {
        let inner = self.plain(16, type_at(self.bytes, 16))?;
        Ok(Record::Relay {
            sensor: bits::read(self.bytes, 8, 8),
            inner,
        })
    }

    // A relay of at least 24 bits that comes from the sensor.
    #[tactic(auto, unfolding(fields::specs::Reading::from_sensor))]
    fn opens(&self, code: u64) -> bool
        ensures { result ≡ (eqb code 0x03 && (from_sensor self.now.way && leb 24 self.now.count)) }
    {
        code == RELAY && self.way == Direction::FromSensor && 24 <= self.count
    }

    // A field whose count and bytes nothing is said against.
    #[tactic(auto, using(crate::proofs::Order::opened_relay, crate::proofs::Order::opened_field), unfolding(fields::specs::Reading::opens))]
    fn opened(&self) -> Result<Record, FieldRefusal>
        ensures { result ≡ opened_of self.now.bytes.now self.now.count self.now.way }
    {
        let code = type_at(self.bytes, 0);
        if self.opens(code) {
            return self.relay();
        }
        Ok(Record::Single(self.plain(0, code)?))
    }

    #[tactic(auto, using(crate::proofs::Order::outer_first))]
    fn answer(&self) -> Result<Record, FieldRefusal>
        ensures { result ≡ answer_of self.now.bytes.now self.now.count self.now.way }
    {
        self.outer()?;
        self.opened()
    }
}

// The answer alone, for callers that ask for nothing of the list.
pub fn judge(b: &[u8], count: usize, way: Direction) -> Result<Record, FieldRefusal>
    ensures { result ≡ answer_of b.now count way }
{
    let asked = Asked {
        bytes: b,
        count,
        way,
    };
    asked.answer()
}

// The list of a field that is no relay.
#[tactic(auto, using(fields::proofs::Rows::found_within), unfolding(fields::specs::Reading::list_in, fields::specs::Lists::entries_in))]
fn list_in(b: &[u8]) -> [i32; 30]
    ensures { result ≡ list_in b.now }
{
    let code = type_at(b, 0);
    let Some(place) = table::find(code) else {
        return [0; 30];
    };
    Typed::new(b, 0, code, place).list()
}

// No relayed type has a list.
#[tactic(auto, unfolding(fields::specs::Lists::entries_in))]
fn list_of(b: &[u8], answer: Result<Record, FieldRefusal>) -> [i32; 30]
    ensures { result ≡ list_of b.now answer }
{
    match answer {
        Ok(Record::Single(_)) => list_in(b),
        _ => [0; 30],
    }
}

// Reads a field: its record and list, or why it is refused.
#[tactic(auto, unfolding(fields::specs::Reading::read_field))]
pub fn read(b: &[u8], count: usize, way: Direction) -> Found
    ensures { result ≡ read_field b.now count way }
{
    let answer = judge(b, count, way);
    Found {
        answer,
        list: list_of(b, answer),
    }
}

// Where the text of a field that begins behind the first `before` bits stands; the end where there is none. The
// end, not None: `text_place` of specs/Reading.antt has it, and the slice from there on is empty.
#[tactic(auto, using(fields::proofs::Rows::row_base, fields::proofs::Rows::found_within), unfolding(fields::specs::Reading::text_in))]
fn text_in(b: &[u8], before: usize) -> usize
    requires { before ≤ 16 }
    ensures { result ≡ text_in b.now before }
{
    let Some(place) = table::find(type_at(b, before)) else {
        return b.len();
    };
    let row = table::row_at(place);
    if row.behind() == Behind::Text {
        return (before + row.base) / 8;
    }
    b.len()
}

fn text_place(b: &[u8], answer: Result<Record, FieldRefusal>) -> usize
    ensures { result ≡ text_place b.now answer }
{
    match answer {
        Ok(Record::Single(_)) => text_in(b, 0),
        Ok(Record::Relay { .. }) => text_in(b, 16),
        Err(_) => b.len(),
    }
}

// The text of an ELM, bare or relayed, as that part of the bytes: empty for other types and for what is refused.
#[tactic(auto, unfolding(fields::specs::Reading::text_of))]
pub fn text(b: &[u8], count: usize, way: Direction) -> &[u8]
    ensures { result.now ≡ text_of b.now count way }
{
    b.get(text_place(b, judge(b, count, way))..).unwrap_or(&[])
}

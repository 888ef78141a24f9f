// A field whose type has a row in the table: the row, and the values of its parts. What the table says of the type stands with it once, as its
// invariants.
// Relies on `bits` and, of `fields`, on the table, the parts and the records. specs/Steps.antt says what its methods answer.
ghost use Rattle.std.specs.Prelude.{◌≡◌, ◌+◌, ◌≤◌, ◌<◌, replicate};
ghost use Rattle.fields.specs.Table.{row_at, widths_at, values_of, count_in};
ghost use Rattle.fields.specs.Lists.{entries_in};
ghost use Rattle.fields.specs.Reading.{type_of, values_at, sized_by, block_count, listed_as};
ghost use Rattle.field_reader.specs.Steps.{judged_by};

use crate::lists::Entries;
use crate::parts;
use fields::{Behind, Field, RELAY, Row, records, table};
use refusals::FieldRefusal;

// It begins behind the first `before` bits, 16 inside a relay, else none.
#[derive(Drop)]
pub struct Typed<'a> {
    bytes: &'a [u8],
    before: usize,
    place: usize,
    pub row: Row,
    widths: [u8; 11],
    values: [u64; 11],
    ghost near: { before ≤ 16 },
    ghost in_table: { place < 22 },
    ghost its_row: { row ≡ row_at place },
    ghost its_widths: { widths ≡ widths_at place },
    ghost its_values: { values ≡ values_at bytes.now before place },
}

impl<'a> Typed<'a> {
    // The field whose type is `code`, which stands at `place`.
    #[tactic(auto, using(fields::proofs::Rows::first_width, fields::proofs::Rows::widths_narrow, fields::proofs::Rows::widths_taper))]
    pub fn new(bytes: &'a [u8], before: usize, code: u64, place: usize) -> Typed<'a>
        requires { (before ≤ 16) × (place < 22) × (code ≡ type_of bytes.now before) }
        ensures where_it_is { (result.bytes.now ≡ bytes.now) × (result.before ≡ before) × (result.place ≡ place) }
        ensures what_it_is { (result.row ≡ row_at place) × (result.values ≡ values_at bytes.now before place) }
    {
        let widths = table::widths_at(place);
        let values = parts::values(bytes, before, code, widths);
        Typed {
            bytes,
            before,
            place,
            row: table::row_at(place),
            widths,
            values,
        }
    }

    // How many steps it has.
    fn steps(&self) -> usize
        ensures { (result ≡ count_in self.now.row self.now.values) × (result ≤ 46) }
    {
        fields::parts::count_in(self.row, self.values)
    }

    // The count is the layout's.
    #[tactic(auto, using(crate::proofs::Small::steps_small, crate::proofs::Small::small), unfolding(fields::specs::Reading::sized_by, fields::specs::Table::size_in))]
    pub fn is_sized(&self, count: usize) -> bool
        ensures { result ≡ sized_by count self.now.before self.now.row self.now.values }
    {
        self.row.code != RELAY
            && count == self.before + (self.row.base + self.row.step * self.steps())
    }

    // How many altimeter blocks it has.
    #[tactic(auto, using(fields::proofs::Steps::is_blocks, fields::proofs::Steps::no_blocks), unfolding(fields::specs::Reading::block_count))]
    fn block_count(&self) -> usize
        ensures { (result ≡ block_count self.now.row self.now.values) × (result ≤ 46) }
    {
        if self.row.behind() == Behind::Blocks {
            self.steps()
        } else {
            0
        }
    }

    // 27 and 28, or its record.
    #[tactic(auto, using(fields::proofs::Rows::row_base, fields::proofs::Values::within_quiet, crate::proofs::Small::quiet), unfolding(crate::specs::Steps::judged_by))]
    pub fn judged(&self) -> Result<Field, FieldRefusal>
        ensures { result ≡ judged_by self.now.bytes.now self.now.before self.now.place self.now.row self.now.values }
    {
        let rules = table::rules_at(self.place);
        let found = fields::parts::faults_by(&self.widths, &rules, &self.values);
        if found.spare {
            return Err(FieldRefusal::SpareBitSet);
        }
        if found.unused {
            return Err(FieldRefusal::ValueNotInUse);
        }
        let blocks = Entries {
            bytes: self.bytes,
            before: self.before + self.row.base,
            step: 8,
            n: self.block_count(),
        };
        if blocks.any_unused() {
            return Err(FieldRefusal::ValueNotInUse);
        }
        Ok(records::field_at(self.place, self.values))
    }

    // Its list: an ELM's steps are text and no entries.
    #[tactic(auto, using(fields::proofs::Steps::is_text, fields::proofs::Steps::no_text, fields::proofs::Rows::row_base, fields::proofs::Rows::row_step), unfolding(fields::specs::Reading::listed_as, fields::specs::Table::values_of, fields::specs::Lists::entries_in))]
    pub fn list(&self) -> [i32; 30]
        ensures { result
            ≡ entries_in self.now.row.step 30 (values_of self.now.bytes.now (self.now.before + self.now.row.base) (replicate (listed_as self.now.row self.now.values) self.now.row.step)) }
    {
        if self.row.behind() == Behind::Text {
            return [0; 30];
        }
        let entries = Entries {
            bytes: self.bytes,
            before: self.before + self.row.base,
            step: self.row.step,
            n: self.steps(),
        };
        entries.numbers()
    }
}

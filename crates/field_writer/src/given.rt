// A record that is to be written, its list and its text. What the table says of its type stands with it once, as its invariants.
// Relies on `bits` and, of `fields`, on the table, the parts and the records. specs/Writing.antt of `fields` says what each method answers or leaves.
ghost use Rattle.std.specs.Prelude.{◌≡◌, ◌≤◌, ◌<◌, true, length, slice_index, MatchOption};
ghost use Rattle.fields.specs.Table.{place_of, row_at, widths_at, count_in, RowSmall};
ghost use Rattle.fields.specs.Reading.{listed_as};
ghost use Rattle.fields.specs.Writing.{numbers_in, head_bits, head_widths, head_values, text_length_by, head_fits, takes_at, bits_at, put_all, put_field};
ghost use Rattle.field_writer.specs.Steps.{written_at};

use crate::{lists, puts};
use fields::{Behind, Direction, RELAY, Record, Row, TEST_RESPONSE, parts, records, table};
use refusals::FieldRefusal;

// The list is an array, not a Vec: the memory is fixed.
// `RowSmall`, which four contracts have, is no invariant: `is_taken` finds it of a value that is there already.
#[derive(Drop)]
pub struct Given<'a> {
    given: Record,
    list: &'a [i32; 30],
    text: &'a [u8],
    place: usize,
    row: Row,
    widths: [u8; 11],
    values: [u64; 11],
    ghost all_thirty: { length list.now ≡ 30 },
    ghost in_table: { place < 22 },
    ghost its_row: { row ≡ row_at place },
    ghost its_widths: { widths ≡ widths_at place },
    ghost its_values: { values ≡ numbers_in given },
}

impl<'a> Given<'a> {
    // Nothing where its type has no row; no record has such a type.
    #[tactic(auto, using(fields::proofs::Rows::found_within))]
    pub fn new(given: Record, list: &'a [i32; 30], text: &'a [u8]) -> Option<Given<'a>>
        ensures { MatchOption result (place_of (slice_index (numbers_in given) 0) ≡ None)
            (λ g. (place_of (slice_index (numbers_in given) 0) ≡ Some g.place) × (g.given ≡ given) × (g.list.now ≡ list.now) × (g.text.now ≡ text.now)) }
    {
        let field = match given {
            Record::Single(f) => f,
            Record::Relay { sensor: _, inner } => inner,
        };
        let values = records::numbers(field);
        let place = table::find(values[0])?;
        Some(Given {
            given,
            list,
            text,
            place,
            row: table::row_at(place),
            widths: table::widths_at(place),
            values,
        })
    }

    // How many bits stand before the field: a relay's type and its sensor.
    fn head_bits(&self) -> usize
        ensures { (result ≡ head_bits self.now.given) × (result ≤ 16) }
    {
        match self.given {
            Record::Single(_) => 0,
            Record::Relay { .. } => 16,
        }
    }

    // A relay's sensor has 8 bits, and what it holds may be relayed: it is from the sensor and no test response.
    #[tactic(auto, unfolding(fields::specs::Writing::head_fits, fields::specs::Writing::relays_at, fields::specs::Reading::from_sensor))]
    fn head_fits(&self) -> bool
        ensures { result ≡ head_fits self.now.place self.now.given }
    {
        match self.given {
            Record::Single(_) => true,
            Record::Relay { sensor, inner: _ } => {
                sensor < 256
                    && self.row.way == Direction::FromSensor
                    && self.row.code != TEST_RESPONSE
            }
        }
    }

    // How many steps it has.
    #[tactic(auto, using(fields::proofs::Rows::count_small, fields::proofs::Rows::count_whole))]
    fn steps(&self) -> usize
        requires { RowSmall self.now.row self.now.values }
        ensures { (result ≡ count_in self.now.row self.now.values) × (result ≤ 46) }
    {
        parts::count_in(self.row, self.values)
    }

    // How many bytes of text go with it.
    #[tactic(auto, using(fields::proofs::Steps::is_text, fields::proofs::Steps::no_text), unfolding(fields::specs::Writing::text_length_by))]
    fn text_length(&self) -> usize
        requires { RowSmall self.now.row self.now.values }
        ensures { result ≡ text_length_by self.now.row self.now.values }
    {
        if self.row.behind() == Behind::Text {
            10 * self.steps()
        } else {
            0
        }
    }

    // How many entries its list has: an ELM's steps are text and no entries.
    #[tactic(auto, using(fields::proofs::Steps::is_text, fields::proofs::Steps::no_text), unfolding(fields::specs::Reading::listed_as))]
    fn listed(&self) -> usize
        requires { RowSmall self.now.row self.now.values }
        ensures { result ≡ listed_as self.now.row self.now.values }
    {
        if self.row.behind() == Behind::Text {
            0
        } else {
            self.steps()
        }
    }

    // The writer takes it.
    pub fn is_taken(&self) -> bool
        ensures { result ≡ takes_at self.now.place self.now.given self.now.list.now (length self.now.text.now) }
    {
        if !self.head_fits() {
            return false;
        }
        if !puts::fit_all(&self.widths, &self.values) {
            return false;
        }
        let rules = table::rules_at(self.place);
        let found = parts::faults_by(&self.widths, &rules, &self.values);
        if found.unused {
            return false;
        }
        lists::list_fits(self.row.step, self.listed(), self.list)
            && self.text.len() == self.text_length()
    }

    // How many bits it has.
    #[tactic(auto, using(fields::proofs::Entries::product), unfolding(fields::specs::Table::size_in))]
    fn bits(&self) -> usize
        requires { RowSmall self.now.row self.now.values }
        ensures { (result ≡ bits_at self.now.place self.now.given) × (result ≤ 4096) }
    {
        self.head_bits() + (self.row.base + self.row.step * self.steps())
    }

    // What writing it into so many bytes answers.
    #[tactic(auto, using(crate::proofs::Left::taken_row), unfolding(crate::specs::Steps::written_at))]
    pub fn answer(&self, room: usize) -> Result<usize, FieldRefusal>
        ensures { result ≡ written_at self.now.place self.now.given self.now.list.now (length self.now.text.now) room }
    {
        if !self.is_taken() {
            return Err(FieldRefusal::NotWritable);
        }
        let n = self.bits();
        if room < n.div_ceil(8) {
            return Err(FieldRefusal::NoRoom);
        }
        Ok(n)
    }

    // Writes a relay's type and its sensor.
    #[tactic(auto, unfolding(fields::specs::Writing::put_all))]
    fn put_head(&self, s: &mut [u8])
        ensures { s.new ≡ put_all s.old 0 (head_widths self.now.given) (head_values self.now.given) }
    {
        if let Record::Relay { sensor, inner: _ } = self.given {
            bits::write(s, 0, 8, RELAY);
            bits::write(s, 8, 8, sensor);
        }
    }

    // Writes it where it is taken, and zeros to the end of the started byte.
    pub fn put(&self, s: &mut [u8])
        requires { takes_at self.now.place self.now.given self.now.list.now (length self.now.text.now) ≡ true }
        ensures { s.new ≡ put_field self.now.place self.now.given self.now.list.now self.now.text.now s.old }
    {
        let at = self.head_bits();
        let step = self.row.step;
        let n = self.listed();
        let size = self.bits();
        self.put_head(s);
        puts::put_parts(s, at, &self.widths, &self.values);
        lists::put_entries(s, at + self.row.base, step, n, self.list);
        puts::put_text(s, at + self.row.base + step * n, self.text);
        bits::write(s, size, (8 - size % 8) % 8, 0);
    }
}

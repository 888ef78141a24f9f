// The writer: a record, its list and its text into lent bytes, or a refusal that leaves them as they are.
// specs/Writing.antt of `fields` says what is answered and what the bytes then hold, specs/Steps.antt the same by the place of the record's type in
// the table.
ghost use Rattle.std.specs.Prelude.{◌≡◌};
ghost use Rattle.fields.specs.Writing.{written_of, left_of};

use crate::given::Given;
use fields::Record;
use refusals::FieldRefusal;

// Writes a field into lent bytes: its record, its list and its text. Answers how many bits it has, or why nothing was written.
#[tactic(auto, using(crate::proofs::Left::placed, crate::proofs::Left::unplaced, crate::proofs::Left::bits_taken))]
pub fn write(
    s: &mut [u8],
    given: Record,
    list: [i32; 30],
    text: &[u8],
) -> Result<usize, FieldRefusal>
    ensures answer { result ≡ written_of given list text.now s.old }
    ensures left { s.new ≡ left_of given list text.now s.old }
{
    let Some(field) = Given::new(given, &list, text) else {
        return Err(FieldRefusal::NotWritable);
    };
    let n = field.answer(s.len())?;
    field.put(s);
    Ok(n)
}

// What `write` answers, without writing.
#[tactic(auto, using(crate::proofs::Left::placed, crate::proofs::Left::unplaced))]
pub fn answer(s: &[u8], given: Record, list: [i32; 30], text: &[u8]) -> Result<usize, FieldRefusal>
    ensures { result ≡ written_of given list text.now s.now }
{
    let Some(field) = Given::new(given, &list, text) else {
        return Err(FieldRefusal::NotWritable);
    };
    field.answer(s.len())
}

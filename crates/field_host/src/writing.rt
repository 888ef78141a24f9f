// The calls that write a link data field: a type, its items as pairs of numbers, a list of thirty numbers and a text, into lent bytes.
// Relies on field_items for the record and the list that are given, field_writer for the writer; specs/Writing.antt says what a written field
// answers.
ghost use Rattle.std.specs.Prelude.{◌≡◌};
ghost use Rattle.fields.specs.Writing.{written_of, left_of, written_number};
ghost use Rattle.field_items.specs.Given.{given, list_given};
ghost use Rattle.field_host.specs.Writing.{bits_of};

use field_items::given;
use field_writer::writing;

// The arguments are those that C passes: a struct would be made in each call, and used there once.
// Writes the field. Answers how many bits it has; 0 where it is refused and every byte left as it was.
#[unsafe(no_mangle)]
pub extern "C" fn siamrung_field_write(
    bytes: &mut [u8],
    code: u32,
    told: &[u8],
    list: &[u8],
    text: &[u8],
) -> usize
    ensures answer { result ≡ bits_of (written_of (given code told.now list.now) (list_given list.now) text.now bytes.old) }
    ensures left { bytes.new ≡ left_of (given code told.now list.now) (list_given list.now) text.now bytes.old }
{
    let record = given::record_of(code, told, list);
    writing::write(bytes, record, given::list_given(list), text).unwrap_or(0)
}

// Why the same call of siamrung_field_write is refused; 0 where it is not. Writes nothing.
#[unsafe(no_mangle)]
pub extern "C" fn siamrung_field_write_refusal(
    bytes: &[u8],
    code: u32,
    told: &[u8],
    list: &[u8],
    text: &[u8],
) -> u32
    ensures { result ≡ written_number (written_of (given code told.now list.now) (list_given list.now) text.now bytes.now) }
{
    let record = given::record_of(code, told, list);
    u32::from(fields::number(writing::answer(bytes, record, given::list_given(list), text)))
}

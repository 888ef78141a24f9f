// The calls that write a report into a line lent as bytes. The report is given by its kind's number and its items, sixteen bytes an item.
// Any bytes, any place, any number of an altitude form, any kind and any items are taken: what is no record is refused with number 11.
// The arguments are those that C passes: a struct would be made in each call, and used there once.
// Relies on report_items for the report, line_writer for the writer, refusals for numbers.
ghost use Rattle.std.specs.Prelude.{◌≡◌};
ghost use Rattle.lines.specs.ByteWriting.{write_bytes};
ghost use Rattle.reports.specs.Altitude.{chosen};
ghost use Rattle.report_items.specs.Given.{given};
ghost use Rattle.host.specs.Write.{write_refusal, Writes};

use report_items::given;
use reports::altitude::Form;

// Refused, the place given; siamrung_write_refusal tells.
#[unsafe(no_mangle)]
pub extern "C" fn siamrung_write(
    bytes: &mut [u8],
    place: usize,
    form: u32,
    kind: u32,
    items: &[u8],
) -> usize
    ensures { Writes (chosen form) bytes.old place (given kind items.now) result bytes.new }
{
    let report = given::given(kind, items);
    line_writer::bytes::write(bytes, place, Form::from(form), report).unwrap_or(place)
}

#[unsafe(no_mangle)]
pub extern "C" fn siamrung_write_refusal(
    bytes: &[u8],
    place: usize,
    form: u32,
    kind: u32,
    items: &[u8],
) -> u32
    ensures { result ≡ write_refusal (write_bytes (chosen form) bytes.now place (given kind items.now)) }
{
    let report = given::given(kind, items);
    match line_writer::bytes::answer(bytes, place, Form::from(form), report) {
        Ok(_) => 0,
        Err(refusal) => u32::from(u8::from(refusal.why)),
    }
}

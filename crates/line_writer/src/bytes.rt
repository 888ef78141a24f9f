// The writer on a line that is lent as bytes, two a word, high byte first; places count words.
// Relies on lent for what is written, report_writer for the words of a report or the refusal that it gets.
ghost use Rattle.std.specs.Prelude.{◌≡◌, ◌/◌};
ghost use Rattle.reports.specs.Altitude.{form_of};
ghost use Rattle.lines.specs.ByteWriting.{write_bytes, WritesBytes};
ghost use Rattle.lines.specs.Taking.{bytes_refused};
ghost use Rattle.line_writer.specs.Deciding.{put_bytes};

use crate::lent::{self, Lent};
use lines::NotWritten;
use refusals::LineRefusal;
use reports::Report;
use reports::altitude::Form;

// A line of bytes.
struct Bytes;

impl Lent for Bytes {
    type Unit = u8;

    ghost refused = { bytes_refused };

    ghost count_of = { λ size. size / 2 };

    ghost put_into = { put_bytes };

    fn refusal(size: usize) -> Option<LineRefusal> {
        lines::refusal_of_bytes(size)
    }

    fn count(size: usize) -> usize {
        size / 2
    }

    fn put(line: &mut [u8], place: usize, words: &[u16]) {
        // no chunks_exact_mut: the proof does not close, since once its borrows are over a slice's length is known and not its elements
        let part = &mut line[place * 2..];
        for (i, word) in words.iter().enumerate() {
            let [high, low] = word.to_be_bytes();
            part[i * 2] = high;
            part[i * 2 + 1] = low;
        }
    }
}

// What `write` answers to the same arguments; nothing is written.
pub fn answer(bytes: &[u8], place: usize, form: Form, report: Report) -> Result<usize, NotWritten>
    ensures { result ≡ write_bytes (form_of form) bytes.now place report }
{
    let made = report_writer::words_of(report, form);
    lent::answer::<Bytes>(bytes.len(), place, made)
}

// A report's words, its altitude in the form, and one idle word, from a place on.
pub fn write(
    bytes: &mut [u8],
    place: usize,
    form: Form,
    report: Report,
) -> Result<usize, NotWritten>
    ensures { WritesBytes (form_of form) bytes.old place report result bytes.new }
{
    lent::write::<Bytes>(bytes, place, form, report)
}

// The writer on a line that is lent as 16-bit numbers, a word each.
// Relies on lent for what is written.
ghost use Rattle.std.specs.Prelude.{◌≡◌};
ghost use Rattle.reports.specs.Altitude.{form_of};
ghost use Rattle.lines.specs.Claims.{put};
ghost use Rattle.lines.specs.Writing.{Writes};
ghost use Rattle.lines.specs.Taking.{wide_refused};

use crate::lent::{self, Lent};
use lines::NotWritten;
use refusals::LineRefusal;
use reports::Report;
use reports::altitude::Form;

// A line of words.
struct Wide;

impl Lent for Wide {
    type Unit = u16;

    ghost refused = { wide_refused };

    ghost count_of = { λ size. size };

    ghost put_into = { put };

    fn refusal(size: usize) -> Option<LineRefusal> {
        lines::refusal_of_words(size)
    }

    fn count(size: usize) -> usize {
        size
    }

    fn put(line: &mut [u16], place: usize, words: &[u16]) {
        line[place..place + words.len()].copy_from_slice(words);
    }
}

// A report's words, its altitude in the form, and one idle word, from a place on.
pub fn write(
    line: &mut [u16],
    place: usize,
    form: Form,
    report: Report,
) -> Result<usize, NotWritten>
    ensures { Writes (form_of form) line.old place report result line.new }
{
    lent::write::<Wide>(line, place, form, report)
}

// The reader of a line that is lent as 16-bit numbers, a word each.
// Relies on line for what is found.
ghost use Rattle.std.specs.Prelude.{◌≡◌, length};
ghost use Rattle.reports.specs.Altitude.{form_of};
ghost use Rattle.lines.specs.Links.{read_on};
ghost use Rattle.lines.specs.Taking.{wide_refused};

use crate::line::{self, Line};
use lines::Received;
use refusals::LineRefusal;
use reports::altitude::Form;

// The words of a line.
#[derive(Clone, Copy)]
struct Wide<'a> {
    words: &'a [u16],
}

impl<'a> Line for Wide<'a> {
    ghost held = { λ line. line.words.now };

    ghost refused = { λ line. wide_refused (length line.words.now) };

    fn refusal(&self) -> Option<LineRefusal> {
        lines::refusal_of_words(self.words.len())
    }

    fn count(&self) -> usize {
        self.words.len()
    }

    fn word(&self, i: usize) -> u16 {
        self.words[i]
    }
}

// The answer at a place, with the number of the link that the line came on.
pub fn read(line: &[u16], place: usize, form: Form, link: u32) -> Received
    ensures { result ≡ read_on (form_of form) link line.now place }
{
    line::read(&Wide { words: line }, place, form, link)
}

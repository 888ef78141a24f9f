// The reader of a line that is lent as bytes: two bytes a word, high byte first, places counted in words.
// Relies on line for what is found.
ghost use Rattle.std.specs.Prelude.{◌≡◌, length};
ghost use Rattle.reports.specs.Altitude.{form_of};
ghost use Rattle.lines.specs.Bytes.{words_in};
ghost use Rattle.lines.specs.Links.{read_bytes_on};
ghost use Rattle.lines.specs.Taking.{bytes_refused};

use crate::line::{self, Line};
use lines::Received;
use refusals::LineRefusal;
use reports::altitude::Form;

// The bytes of a line.
#[derive(Clone, Copy)]
struct Bytes<'a> {
    bytes: &'a [u8],
}

impl<'a> Line for Bytes<'a> {
    ghost held = { λ line. words_in line.bytes.now };

    ghost refused = { λ line. bytes_refused (length line.bytes.now) };

    fn refusal(&self) -> Option<LineRefusal> {
        lines::refusal_of_bytes(self.bytes.len())
    }

    #[tactic(auto, using(lines::proofs::ByteWords::words_length))]
    fn count(&self) -> usize {
        self.bytes.len() / 2
    }

    #[tactic(auto, using(lines::proofs::ByteWords::words_length, lines::proofs::ByteWords::word_at))]
    fn word(&self, i: usize) -> u16 {
        // not u16::from_be_bytes: tried; bad words in one run then take near twice the time (that row of docs/PERFORMANCE.md)
        self.bytes[i * 2] as u16 * 256 + self.bytes[i * 2 + 1] as u16
    }
}

// The answer at a place, with the number of the link that the line came on.
pub fn read(bytes: &[u8], place: usize, form: Form, link: u32) -> Received
    ensures { result ≡ read_bytes_on (form_of form) link bytes.now place }
{
    line::read(&Bytes { bytes }, place, form, link)
}

// The manners of a line that is lent as bytes, two a word, high byte first. The list is bytes too: four a breach.
// Relies on line_reader for the outcome at a place, listing for the list.
ghost use Rattle.std.specs.Prelude.{◌≡◌};
ghost use Rattle.reports.specs.Altitude.{form_of};
ghost use Rattle.lines.specs.Bytes.{words_in, bytes_of};
ghost use Rattle.manners.specs.Breaches.{numbers_of};
ghost use Rattle.manners.specs.Listing.{ListsBytes};
ghost use Rattle.manners.specs.Laws.{byte_laws};

use crate::lent::{Element, Taken};
use crate::{LINK, NotListed, Rule};
use line_reader::bytes;
use lines::Outcome;
use reports::altitude::Form;

impl Element for u8 {
    ghost words = { words_in };

    ghost held_in = { 2 };

    ghost said = { λ breaches. bytes_of (numbers_of breaches) };

    ghost WIDTH = { 4 };

    const WIDTH: usize = 4;

    fn count_words(line: &[u8]) -> usize {
        line.len() / 2
    }

    fn outcome_at(line: &[u8], place: usize, form: Form) -> Outcome {
        bytes::read(line, place, form, LINK).outcome
    }

    fn put(list: &mut [u8], k: usize, place: usize, rule: Rule) {
        let at = k * 4;
        let [a, b] = (place as u16).to_be_bytes();
        let [c, d] = u16::from(rule).to_be_bytes();
        list[at] = a;
        list[at + 1] = b;
        list[at + 2] = c;
        list[at + 3] = d;
    }

    ghost laws = { byte_laws };
}

// The breaches of a line, from the start of the list on; altitudes are read in the form.
pub fn list(line: &[u8], form: Form, list: &mut [u8]) -> Result<usize, NotListed>
    ensures { ListsBytes (form_of form) line.now list.old result list.new }
{
    if let Some(why) = lines::refusal_of_bytes(line.len()) {
        return Err(NotListed::Line(why));
    }
    Taken { held: line, form }.list(list)
}

// The manners of a line that is lent as 16-bit numbers, a word each. The list has two such numbers a breach.
// Relies on line_reader for the outcome at a place, listing for the list.
ghost use Rattle.std.specs.Prelude.{◌≡◌};
ghost use Rattle.reports.specs.Altitude.{form_of};
ghost use Rattle.manners.specs.Breaches.{numbers_of};
ghost use Rattle.manners.specs.Listing.{Lists};
ghost use Rattle.manners.specs.Laws.{wide_laws};

use crate::lent::{Element, Taken};
use crate::{LINK, NotListed, Rule};
use line_reader::wide;
use lines::Outcome;
use reports::altitude::Form;

impl Element for u16 {
    ghost words = { λ line. line };

    ghost held_in = { 1 };

    ghost said = { numbers_of };

    ghost WIDTH = { 2 };

    const WIDTH: usize = 2;

    fn count_words(line: &[u16]) -> usize {
        line.len()
    }

    fn outcome_at(line: &[u16], place: usize, form: Form) -> Outcome {
        wide::read(line, place, form, LINK).outcome
    }

    fn put(list: &mut [u16], k: usize, place: usize, rule: Rule) {
        let at = k * 2;
        list[at] = place as u16;
        list[at + 1] = u16::from(rule);
    }

    ghost laws = { wide_laws };
}

// The breaches of a line, from the start of the list on; altitudes are read in the form.
pub fn list(line: &[u16], form: Form, list: &mut [u16]) -> Result<usize, NotListed>
    ensures { Lists (form_of form) line.now list.old result list.new }
{
    if let Some(why) = lines::refusal_of_words(line.len()) {
        return Err(NotListed::Line(why));
    }
    Taken { held: line, form }.list(list)
}

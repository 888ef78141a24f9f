// What is answered: to what is not taken, and to a run, of which only places are remembered; its first seven words are handed in at the end.
// Relies on run for what is remembered, report_reader for the answer to a run's words. specs/Places.antt says what each function computes.
ghost use Rattle.std.specs.Prelude.{◌≡◌, ◌+◌, ◌≤◌, ◌<◌, ◌^◌};
ghost use Rattle.reports.specs.Altitude.{form_of};
ghost use Rattle.reports.specs.Runs.{answer_offset};
ghost use Rattle.refusals.specs.declared.LineRefusal.TheVariants.{NoSuchLink};
ghost use Rattle.lines.specs.Line.{placed, not_taken_at};
ghost use Rattle.lines.specs.Links.{no_link, received_on};
ghost use Rattle.line_reader.specs.Places.{answered};

use crate::run::Places;
use lines::{Outcome, Received, What};
use refusals::LineRefusal;
use reports::altitude::Form;
use reports::{Report, RunRefusal};

// A link number, a line or a place that is not taken: the caller's place for all three.
pub fn not_taken(why: LineRefusal, place: usize) -> Outcome
    ensures { result ≡ not_taken_at why place }
{
    Outcome::new(What::Refused(why), place, place, place)
}

// The number of an outcome that came on no link. It is the first link's number too. It stays a number: C and document 02, Ticket 7 have 0 here.
const NO_LINK: u32 = 0;

// A number that no link has.
pub fn no_such_link(place: usize) -> Received
    ensures { result ≡ received_on no_link (not_taken_at NoSuchLink place) }
{
    Received::new(NO_LINK, not_taken(LineRefusal::NoSuchLink, place))
}

// The answer to a run of n words, at its place in the line.
fn set_at(first: usize, n: usize, answer: Result<Report, RunRefusal>) -> Outcome
    requires { (first + n < 2 ^ 64) × (answer_offset answer ≤ n) }
    ensures { result ≡ placed first n answer }
{
    match answer {
        Ok(report) => { Outcome::new(What::Accepted(report), first, first + n, first) }
        Err(RunRefusal { why, offset }) => {
            Outcome::new(What::Refused(why), first, first + n, first + offset)
        }
    }
}

impl Places {
    // The answer to the run, whose first seven words are handed in, with 0 for those past its end; the end where it has no word. Where the run
    // has a fault its words do not matter. Altitudes are read in the form. Inlined, so that the seven words need not go through memory.
    #[inline(always)]
    pub fn answer(self, words: &[u16; 7], form: Form) -> Outcome
        ensures { result ≡ answered (form_of form) self words.now }
    {
        let first = self.first;
        let n = self.after - first;
        if n == 0 {
            return Outcome::new(What::End, first, first, first);
        }
        let answer = report_reader::judge(
            words,
            n,
            self.too_wide - first,
            self.fault - first,
            form,
        );
        set_at(first, n, answer)
    }
}

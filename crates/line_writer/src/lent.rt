// A line as a writer sees it: words are put into it. Each form in which a line is lent is a type with this trait; a report is written here, once for
// all of them. What is answered is decided first, from numbers alone; then words are put, and one idle word.
// Relies on deciding for the answer, report_writer for the words of a report or the refusal that it gets, words for the idle word.
ghost use Rattle.std.specs.Prelude.{ℕ, List, Option, ◌≡◌, ◌+◌, ◌≤◌, length};
ghost use Rattle.reports.specs.Altitude.{form_of};
ghost use Rattle.reports.specs.Layouts.{written};
ghost use Rattle.refusals.specs.declared.LineRefusal.{LineRefusal};
ghost use Rattle.line_writer.specs.Deciding.{handed, lent_answer, left_by};

use crate::deciding;
use lines::NotWritten;
use refusals::LineRefusal;
use reports::altitude::Form;
use reports::{Report, Words};
use words::IDLE;

pub trait Lent {
    // What the line is made of.
    type Unit;

    // Why a line of so many units is not taken, where it is not.
    ghost refused: { ℕ → Option LineRefusal };

    // How many words so many units hold.
    ghost count_of: { ℕ → ℕ };

    // A line with these words in it from a place on, and all others as they were.
    ghost put_into: { List Self.Unit → ℕ → List ℕ → List Self.Unit };

    fn refusal(size: usize) -> Option<LineRefusal>
        ensures { result ≡ refused size };

    fn count(size: usize) -> usize
        ensures { result ≡ count_of size };

    fn put(line: &mut [Self::Unit], place: usize, words: &[u16])
        requires { place + length words.now ≤ count_of (length line.old) }
        ensures { line.new ≡ put_into line.old place words.now };
}

// The answer on a line of so many units, to a place and what a report was made into: the form's own rows, then those of every form.
pub fn answer<L: Lent>(
    size: usize,
    place: usize,
    made: Result<Words, LineRefusal>,
) -> Result<usize, NotWritten>
    ensures { result ≡ lent_answer (L.refused size) (L.count_of size) place made }
{
    match L::refusal(size) {
        Some(why) => Err(NotWritten { why, place }),
        None => deciding::decide(L::count(size), place, made),
    }
}

// A report's words, its altitude in the form, and one idle word, from a place on. Line, place, form and report are four arguments, as the caller has
// them: a struct would be made in each call, and used there once.
pub fn write<L: Lent>(
    line: &mut [L::Unit],
    place: usize,
    form: Form,
    report: Report,
) -> Result<usize, NotWritten>
    ensures answers { result ≡ lent_answer (L.refused (length line.old)) (L.count_of (length line.old)) place (written (form_of form) report) }
    ensures leaves { line.new ≡ left_by L.put_into result line.old place (handed (written (form_of form) report)) }
{
    let made = report_writer::words_of(report, form);
    let next = answer::<L>(line.len(), place, made)?;
    // where the answer is a place there are words
    if let Ok(words) = made {
        let words = words.as_slice();
        L::put(line, place, words);
        L::put(line, place + words.len(), &[IDLE]);
    }
    Ok(next)
}

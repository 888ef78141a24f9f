// A line as a reader sees it: words that are counted and fetched. Each form in which a line is lent is a type with this trait; what is found at a
// place is found here, once for all of them.
// Relies on run for what is remembered of a run, answers for what is answered; words for the tests of a word. specs/Places.antt says what each function computes.
ghost use Rattle.std.specs.Prelude.{ℕ, Bool, List, Option, ◌≡◌, ◌≤◌, ◌<◌, length, get_or};
ghost use Rattle.reports.specs.Altitude.{form_of};
ghost use Rattle.reports.specs.Runs.{read_run};
ghost use Rattle.refusals.specs.declared.LineRefusal.{LineRefusal};
ghost use Rattle.lines.specs.Line.{run_at};
ghost use Rattle.lines.specs.Links.{on_link};
ghost use Rattle.line_reader.specs.Places.{Decides, Ended, RunPlaces, faulty, run_words, found_in};

use crate::answers::{no_such_link, not_taken};
use crate::run::Places;
use lines::{LAST_LINK, Outcome, Received};
use refusals::LineRefusal;
use reports::altitude::Form;

pub trait Line: Copy {
    // The words that the line holds.
    ghost held: { Self → List ℕ };

    // Why the line is not taken, where it is not.
    ghost refused: { Self → Option LineRefusal };

    fn refusal(&self) -> Option<LineRefusal>
        ensures { result ≡ refused self.now };

    // How many words the line has.
    fn count(&self) -> usize
        ensures { result ≡ length (held self.now) };

    // The word at i.
    fn word(&self, i: usize) -> u16
        requires { i < length (held self.now) }
        ensures { result ≡ get_or (held self.now) i 0 };
}

// Along the words from a place up to another: the place of the first at which the search stops, or that other place.
// No Option: `report_reader::judge` is asked by these places.
#[inline(always)]
fn seek<L: Line, F: Fn(u16) -> bool>(line: &L, from: usize, to: usize, stops: F) -> usize
    requires range { (from ≤ to) × (to ≤ length (L.held line.now)) }
    requires callable { F.IsAlwaysCallable stops }
    ensures within { (from ≤ result) × (result ≤ to) }
    ensures ended { (stop : ℕ → Bool) → Decides (F.post stops) stop → Ended (L.held line.now) from to stop result }
{
    for i in from..to {
        if stops(line.word(i)) {
            return i;
        }
    }
    to
}

// The same search as a call of its own, so that the loop has all registers: inlined, a long run takes twice the time (bench/). The line comes by value,
// since a call that is lent it must fetch it from memory first.
#[inline(never)]
fn seek_apart<L: Line, F: Fn(u16) -> bool>(line: L, from: usize, to: usize, stops: F) -> usize
    requires range { (from ≤ to) × (to ≤ length (L.held line)) }
    requires callable { F.IsAlwaysCallable stops }
    ensures within { (from ≤ result) × (result ≤ to) }
    ensures ended { (stop : ℕ → Bool) → Decides (F.post stops) stop → Ended (L.held line) from to stop result }
{
    seek(&line, from, to, stops)
}

// The same search where there may be many words to pass, or none.
#[inline(always)]
fn seek_far<L: Line, F: Fn(u16) -> bool>(line: &L, from: usize, to: usize, stops: F) -> usize
    requires range { (from ≤ to) × (to ≤ length (L.held line.now)) }
    requires callable { F.IsAlwaysCallable stops }
    ensures within { (from ≤ result) × (result ≤ to) }
    ensures ended { (stop : ℕ → Bool) → Decides (F.post stops) stop → Ended (L.held line.now) from to stop result }
{
    if from == to {
        return from;
    }
    seek_apart(*line, from, to, stops)
}

// The same search where it may be a long one, and often stops at its first word: that word is asked here, and the others by a call.
#[inline(always)]
fn seek_on<L: Line, F: Fn(u16) -> bool>(line: &L, from: usize, to: usize, stops: F) -> usize
    requires range { (from ≤ to) × (to ≤ length (L.held line.now)) }
    requires callable { F.IsAlwaysCallable stops }
    ensures within { (from ≤ result) × (result ≤ to) }
    ensures ended { (stop : ℕ → Bool) → Decides (F.post stops) stop → Ended (L.held line.now) from to stop result }
{
    if from == to {
        return from;
    }
    if stops(line.word(from)) {
        return from;
    }
    seek_apart(*line, from + 1, to, stops)
}

// A word with a fault: too wide, or even.
fn is_faulty(w: u16) -> bool
    ensures { result ≡ faulty w }
{
    words::is_too_wide(w) || !words::is_odd(w)
}

// The places of the run at a place, or behind the idle words there. One search passes the words in front of the first fault, two pass those
// behind it. Where there is no fault the last search has no word to look at. An idle word is even, so a search for a fault needs no test of its own
// to stop at the end of the run.
fn places<L: Line>(line: &L, place: usize) -> Places
    requires { place ≤ length (L.held line.now) }
    ensures { RunPlaces (L.held line.now) place result }
{
    let n = line.count();
    let first = seek_far(line, place, n, |w| !words::is_idle(w));
    let fault = seek_on(line, first, n, is_faulty);
    let after = seek(line, fault, n, words::is_idle);
    let too_wide = seek(line, fault, after, words::is_too_wide);
    Places {
        first,
        fault,
        too_wide,
        after,
    }
}

// Word k of a run, 0 past its end.
fn word<L: Line>(line: &L, run: Places, k: usize) -> u16
    requires { run.after ≤ length (L.held line.now) }
    ensures { result ≡ get_or (run_words (L.held line.now) run) k 0 }
{
    let first = run.first;
    if k < run.after - first {
        return line.word(first + k);
    }
    0
}

// The answer to the run at a place, or behind the idle words there.
fn run_at<L: Line>(line: &L, place: usize, form: Form) -> Outcome
    requires { place ≤ length (L.held line.now) }
    ensures { result ≡ run_at (read_run (form_of form)) (L.held line.now) place }
{
    let run = places(line, place);
    // a run with a fault is refused whatever its words hold, so they are not fetched
    if run.fault < run.after {
        return run.answer(&[0; 7], form);
    }
    let words = [
        word(line, run, 0),
        word(line, run, 1),
        word(line, run, 2),
        word(line, run, 3),
        word(line, run, 4),
        word(line, run, 5),
        word(line, run, 6),
    ];
    run.answer(&words, form)
}

// What is found at a place; altitudes are read in the form.
fn found_at<L: Line>(line: &L, place: usize, form: Form) -> Outcome
    ensures { result ≡ found_in (form_of form) (L.refused line.now) (L.held line.now) place }
{
    if let Some(why) = line.refusal() {
        return not_taken(why, place);
    }
    if line.count() < place {
        return not_taken(LineRefusal::PlaceBeyondLine, place);
    }
    run_at(line, place, form)
}

// The answer at a place, with the number of the link that the line came on.
pub fn read<L: Line>(line: &L, place: usize, form: Form, link: u32) -> Received
    ensures { result ≡ on_link link place (found_in (form_of form) (L.refused line.now) (L.held line.now) place) }
{
    if LAST_LINK < link {
        return no_such_link(place);
    }
    Received::new(link, found_at(line, place, form))
}

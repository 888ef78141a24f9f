// The listing of a recording (document 01, "The C host and the lister"), and the walk that puts it, line by line, into a lent buffer.
// Relies on line_reader for the outcome at a place, reports for the kind of a report, refusals for a refusal's number.
#![tactic(auto)]

ghost use Rattle.std.specs.Prelude.{◌≡◌, ◌≤◌, [], length, Some, IfOk, IfSome};
ghost use Rattle.lines.specs.Links.{read_bytes_on};
ghost use Rattle.listing.specs.Listing.{lister_form, lister_link};
ghost use Rattle.listing.specs.Walking.{start, closed, Says, step_on, step_at, step_in, said, came_to, Tells};
ghost use Rattle.listing.specs.Bounds.{Within};
ghost use Rattle.listing.specs.Errors.{error_text};

pub use letters::LONGEST;
use letters::Text;
use line_reader::bytes;
use lines::{MOST_BYTES, Outcome, What};
use reports::altitude::Form;
use reports::kinds;
use std::error::Error;
use std::fmt;

mod letters; // letters.rt: a line of text while it is put together
mod said; // said.rt: the lines of a listing

// The lister reads altitudes in document 01's form: a recording does not tell its own.
const FORM: Form = Form::SignMagnitude;

// A listing has no link number. The lister reads with link 0; with any other from 0 to 15 the same is found.
const LINK: u32 = 0;

// How far a walk over a recording has come: the place in its words, how many of the words before it stand in reports and in refused
// runs, and whether all is said.
#[derive(Clone, Copy, Debug, PartialEq, Eq)]
pub struct Walk {
    pub place: usize,
    pub reported: usize,
    pub refused: usize,
    // a walk that is done keeps its counts, so an enum of two states would hold them twice; the claim Whole speaks of this field
    pub done: bool,
}

// One line of the listing in the buffer: so many bytes; the walk goes on from here.
#[derive(Clone, Copy, Debug, PartialEq, Eq)]
pub struct Line {
    pub len: usize,
    pub next: Walk,
}

// Why nothing was put into the buffer though the listing is not whole.
#[derive(Clone, Copy, Debug, PartialEq, Eq)]
pub enum WalkError {
    // No walk over this recording comes to such a state.
    Astray,
    // The buffer may be too short for the line.
    NoRoom,
}

impl fmt::Display for WalkError {
    ghost output = { λ why. Some (error_text why) };

    fn fmt<W: fmt::Write>(&self, f: &mut fmt::Formatter<W>) -> fmt::Result {
        f.write_str(match self {
            WalkError::Astray => "the walk over the recording went astray",
            WalkError::NoRoom => "the buffer may be too short for a line",
        })
    }
}

impl Error for WalkError {}

impl Walk {
    // A walk that has not begun.
    pub fn new() -> Self
        ensures { result ≡ start }
    {
        Walk {
            place: 0,
            reported: 0,
            refused: 0,
            done: false,
        }
    }

    // All is said.
    fn closed(self) -> Self
        ensures { result ≡ closed self }
    {
        Walk { done: true, ..self }
    }
}

// The outcome at a place of a recording.
fn outcome_at(recording: &[u8], place: usize) -> Outcome
    ensures { result ≡ (read_bytes_on lister_form lister_link recording.now place).outcome }
{
    bytes::read(recording, place, FORM, LINK).outcome
}

// The line for an outcome on a line of n words, into a text that is empty; the walk behind it.
#[inline(always)]
fn say(walk: Walk, n: usize, o: Outcome, text: &mut Text) -> Walk
    requires within { Within n walk o }
    requires empty { text.old ≡ [] }
    ensures { step_on n walk o ≡ Says text.new result }
{
    let first = o.first as u16;
    let after = o.after;
    let count = after - o.first;
    match o.what {
        What::Accepted(report) => {
            said::report(text, first, kinds::kind_of(report), count as u16);
            Walk {
                place: after,
                reported: walk.reported + count,
                refused: walk.refused,
                done: false,
            }
        }
        What::Refused(why) => {
            said::refused(text, first, u8::from(why), count as u16, o.named);
            Walk {
                place: after,
                reported: walk.reported,
                refused: walk.refused + count,
                done: false,
            }
        }
        What::End => {
            let idle = n - walk.reported - walk.refused;
            said::totals(
                text,
                idle as u16,
                walk.reported as u16,
                walk.refused as u16,
                n as u16,
            );
            walk.closed()
        }
    }
}

// What a call comes to, before the buffer: a line into a text that is empty, and the walk behind it; nothing where the listing is whole; or a refusal.
#[inline(always)]
fn step(recording: &[u8], walk: Walk, text: &mut Text) -> Result<Option<Walk>, WalkError>
    requires { text.old ≡ [] }
    ensures text { text.new ≡ said (step_at recording.now walk) }
    ensures walk { result ≡ came_to (step_at recording.now walk) }
{
    if walk.done {
        return Ok(None);
    }
    // not lines::refusal_of_bytes: each of the two has a text of its own here, and a match would need an arm for refusals that it never gives
    if MOST_BYTES < recording.len() {
        text.text(b"LONG\n");
        return Ok(Some(walk.closed()));
    }
    if recording.len() % 2 == 1 {
        text.text(b"ODD\n");
        return Ok(Some(walk.closed()));
    }
    let n = recording.len() / 2;
    if n < walk.place || walk.place < walk.reported || walk.place - walk.reported < walk.refused {
        return Err(WalkError::Astray);
    }
    Ok(Some(say(walk, n, outcome_at(recording, walk.place), text)))
}

// The next line of a recording's listing, into the buffer; nothing where the listing is whole.
pub fn next(recording: &[u8], walk: Walk, out: &mut [u8]) -> Result<Option<Line>, WalkError>
    ensures tells { Tells (step_in (length out.old) recording.now walk) out.old result out.new }
    ensures within { IfOk result (λ told. IfSome told (λ line. line.len ≤ length out.old)) }
{
    if out.len() < LONGEST {
        return Err(WalkError::NoRoom);
    }
    let mut text = Text::new();
    match step(recording, walk, &mut text)? {
        Some(next) => Ok(Some(Line {
            len: text.copy_to(out),
            next,
        })),
        None => Ok(None),
    }
}

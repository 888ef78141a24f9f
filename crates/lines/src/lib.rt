// The line (document 01, "The line" and "Line refusal numbers"): what is found at a place, with the number of its link (document 02, Ticket 7), what the
// writer answers, and how long a line may be.
// The reader stands in line_reader, the writer in line_writer; what both mean, and the laws on whole lines, stand here in specs/ and proofs/.
// Relies on reports for the records, refusals for names.
#![tactic(auto)]

ghost use Rattle.std.specs.Prelude.{◌≡◌};
ghost use Rattle.lines.specs.Line.{outcome_of};
ghost use Rattle.lines.specs.Links.{received_on};
ghost use Rattle.lines.specs.Taking.{wide_refused, bytes_refused};

use refusals::LineRefusal;
use reports::Report;

// The most words of a line.
pub const MOST: usize = 32768;

// The most bytes of a line that is lent as bytes.
pub const MOST_BYTES: usize = 65536;

// Why a line of so many words is not taken, where it is not.
pub fn refusal_of_words(n: usize) -> Option<LineRefusal>
    ensures { result ≡ wide_refused n }
{
    if MOST < n {
        return Some(LineRefusal::LineTooLong);
    }
    None
}

// Why a line of so many bytes is not taken, where it is not.
pub fn refusal_of_bytes(n: usize) -> Option<LineRefusal>
    ensures { result ≡ bytes_refused n }
{
    if MOST_BYTES < n {
        return Some(LineRefusal::LineTooLong);
    }
    if n % 2 == 1 {
        return Some(LineRefusal::OddByteCount);
    }
    None
}

// What reading at a place found. It stays an enum: the document names these three, and `Option<Result<Report, LineRefusal>>` is no plainer.
#[derive(Clone, Copy)]
pub enum What {
    Accepted(Report),
    Refused(LineRefusal),
    End,
}

// What was found, the place of the run's first word, the place after its last, and the place that a refusal names (a report: its first
// word). The end has the line's length for all three; a link number, a line or a place that is not taken has the caller's place.
#[derive(Clone, Copy)]
pub struct Outcome {
    pub what: What,
    pub first: usize,
    pub after: usize,
    pub named: usize,
}

impl Outcome {
    // Every outcome is made here.
    pub fn new(what: What, first: usize, after: usize, named: usize) -> Self
        ensures { result ≡ outcome_of what first after named }
    {
        Outcome {
            what,
            first,
            after,
            named,
        }
    }
}

// The last link number; the first is 0.
pub const LAST_LINK: u32 = 15;

// An outcome, and the number of the link that it came on, as the caller gave it; 0 with refusal 13. This is what a reader answers.
#[derive(Clone, Copy)]
pub struct Received {
    pub link: u32,
    pub outcome: Outcome,
}

impl Received {
    // Each is made here.
    pub fn new(link: u32, outcome: Outcome) -> Self
        ensures { result ≡ received_on link outcome }
    {
        Received { link, outcome }
    }
}

// Why the writer wrote nothing, and the place that it was given.
#[derive(Clone, Copy)]
pub struct NotWritten {
    pub why: LineRefusal,
    pub place: usize,
}

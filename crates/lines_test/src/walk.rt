// A line read call by call, continuing from the place given: lent as words and as bytes.
use crate::case::Case;
use crate::print::Found;
use lines::{Outcome, Received, What};
use std::io::Stdout;
use std::{fmt, io};

// How many calls, reports and refusals, the words in each, and how often the two readers differ.
#[derive(Clone, Copy, Debug, Default)]
struct Tally {
    calls: usize,
    reports: usize,
    refusals: usize,
    reported: usize,
    refused: usize,
    differ: usize,
}

// More than any line can need.
const CALLS: usize = 40000;

impl Tally {
    // One more outcome. No count comes near a number's end.
    fn add(&mut self, o: Outcome, differ: bool) {
        let span = o.after.saturating_sub(o.first);
        self.calls = self.calls.saturating_add(1);
        self.differ = self.differ.saturating_add(usize::from(differ));
        match o.what {
            What::Accepted(_) => {
                self.reports = self.reports.saturating_add(1);
                self.reported = self.reported.saturating_add(span);
            }
            What::Refused(_) => {
                self.refusals = self.refusals.saturating_add(1);
                self.refused = self.refused.saturating_add(span);
            }
            What::End => {}
        }
    }
}

impl fmt::Display for Tally {
    fn fmt<W: fmt::Write>(&self, f: &mut fmt::Formatter<W>) -> fmt::Result {
        write!(
            f,
            "CALLS {} REPORTS {} {}",
            self.calls, self.reports, self.reported
        )?;
        write!(
            f,
            " REFUSED {} {} DIFFER {}",
            self.refusals, self.refused, self.differ
        )
    }
}

// What tells two findings apart: a kind, a refusal or the end.
fn told(what: What) -> u8 {
    match what {
        What::Accepted(report) => u8::from(reports::kinds::kind_of(report)),
        What::Refused(why) => u8::from(why),
        What::End => 0,
    }
}

// What is compared of what a reader answers. Not all of it is, so no PartialEq: a report's fields are agree.c's.
fn compared(r: Received) -> (u32, u8, usize, usize, usize) {
    let o = r.outcome;
    (r.link, told(o.what), o.first, o.after, o.named)
}

// A refusal that gives the place back.
fn gives_back(o: Outcome, place: usize) -> bool {
    matches!(o.what, What::Refused(_)) && o.after == place
}

// The end, or a refusal that gives the place back.
fn is_last(o: Outcome, place: usize) -> bool {
    matches!(o.what, What::End) || gives_back(o, place)
}

// Each outcome is printed where the line is short; of a long line only a refusal that gives the place back is.
pub fn to_the_end(out: Stdout, words: &[u16], bytes: &[u8], case: &Case) -> io::Result<()> {
    let mut tally = Tally::default();
    let mut at = case.place;
    for _ in 0..CALLS {
        let of_words = line_reader::wide::read(words, at, case.form, case.link);
        let of_bytes = line_reader::bytes::read(bytes, at, case.form, case.link);
        let o = of_words.outcome;
        tally.add(o, compared(of_words) != compared(of_bytes));
        if words.len() <= 64 || gives_back(o, at) {
            println!(out; "{}", Found(of_words))?;
        }
        if is_last(o, at) {
            break;
        }
        at = o.after;
    }
    println!(out; "{tally}")
}

// A sensor's manners (document 02, Ticket 6): rules between fields that are accepted either way. Over a whole line, the list of the runs that break
// one, each with its place. Here are the rules by name, the refusals, and how many breaches a line can have.
// Relies on line_reader for the outcome at a place; specs/Listing.antt says what a call answers and what the list then holds.
#![tactic(auto)]

ghost use Rattle.std.specs.Prelude.{◌≡◌, ◌≤◌};
ghost use Rattle.lines.specs.Line.{most};
ghost use Rattle.manners.specs.Listing.{most_in};
ghost use Rattle.manners.specs.Numbers.{rule_number, manners_number};

use refusals::LineRefusal;

pub mod bytes; // bytes.rt: a line lent as bytes, the list as bytes
mod lent; // lent.rt: what the two kinds of lines have in common
mod listing; // listing.rt: the breaches of a line, counted and listed
mod rules; // rules.rt: the rule that a record breaks
pub mod wide; // wide.rt: a line lent as 16-bit numbers, the list as such numbers

// A breach has no link number. The line is read with link 0; with any other from 0 to 15 the same is found.
const LINK: u32 = 0;

// The most breaches that a line of so many words can have.
fn most_in(words: usize) -> usize
    requires { words ≤ most }
    ensures { result ≡ most_in words }
{
    (words + 1) / 5
}

// The rules, by their numbers in the order of document 02. specs/Rules.antt says each by the printed bits.
#[derive(Clone, Copy, Debug, PartialEq, Eq)]
pub enum Rule {
    SubstitutionMode3a = 1,
    RelayWithoutModeC = 2,
    ModeCAllZeros = 3,
    MapStopBelowStart = 4,
}

impl From<Rule> for u16 {
    ghost from_gives = { λ rule n. n ≡ rule_number rule };

    fn from(rule: Rule) -> u16 {
        rule as u16
    }
}

// Why a call is refused though the line is taken, by its number in document 02.
#[derive(Clone, Copy, Debug, PartialEq, Eq)]
pub enum MannersRefusal {
    ListTooSmall = 52,
}

impl From<MannersRefusal> for u8 {
    ghost from_gives = { λ why n. n ≡ manners_number why };

    fn from(why: MannersRefusal) -> u8 {
        why as u8
    }
}

// Why the breaches of a line are not listed: the line is not taken; or the list is too small for the breaches, of which there are so many.
#[derive(Clone, Copy)]
pub enum NotListed {
    Line(LineRefusal),
    List(MannersRefusal, usize),
}

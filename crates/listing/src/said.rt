// The three kinds of line that a listing has, each into a text that is empty. Places and counts of words are below 65,536: of at most five digits.
// Relies on letters, which says why all is inlined.
ghost use Rattle.std.specs.Prelude.{◌≡◌, []};
ghost use Rattle.listing.specs.Letters.{report_line, refused_line, totals_line};

use crate::letters::Text;
use reports::kinds::Kind;

// The line of a report.
#[tactic(auto, using(crate::proofs::Decimals::five))]
#[inline(always)]
pub fn report(line: &mut Text, place: u16, kind: Kind, count: u16)
    requires { line.old ≡ [] }
    ensures { line.new ≡ report_line place kind count }
{
    line.number(usize::from(place));
    line.text(b" ");
    line.text(kind.name().as_bytes());
    line.item(b" ", usize::from(count));
    line.text(b"\n");
}

// The line of a refused run.
#[tactic(auto, using(crate::proofs::Decimals::five, crate::proofs::Decimals::twenty))]
#[inline(always)]
pub fn refused(line: &mut Text, place: u16, number: u8, count: u16, named: usize)
    requires { line.old ≡ [] }
    ensures { line.new ≡ refused_line place number count named }
{
    line.number(usize::from(place));
    line.item(b" REFUSED ", usize::from(number));
    line.item(b" ", usize::from(count));
    line.item(b" ", named);
    line.text(b"\n");
}

// The last line.
#[tactic(auto, using(crate::proofs::Decimals::five))]
#[inline(always)]
pub fn totals(line: &mut Text, idle: u16, reported: u16, refused: u16, total: u16)
    requires { line.old ≡ [] }
    ensures { line.new ≡ totals_line idle reported refused total }
{
    line.item(b"IDLE ", usize::from(idle));
    line.item(b" REPORTED ", usize::from(reported));
    line.item(b" REFUSED ", usize::from(refused));
    line.item(b" TOTAL ", usize::from(total));
    line.text(b"\n");
}

// The call of a C program for manners (document 02, Ticket 6): byte slices and a number in, one number out. include/siamrung.h says what it means to
// the caller; the call keeps nothing, and writes nothing but the list.
// Relies on manners for the answer and the list; specs/Calls.antt says what the call answers.
#![tactic(auto)]

ghost use Rattle.std.specs.Prelude.{◌≡◌, ◌≤◌, ◌<◌};
ghost use Rattle.reports.specs.Altitude.{chosen};
ghost use Rattle.manners.specs.Listing.{most_breaches, count_in};
ghost use Rattle.manners_host.specs.Calls.{done_with, answer_number, GivesNumber};

use manners::NotListed;
use reports::altitude::Form;

// ---- an answer as one number: what was done, and behind it, counted in 256, how many breaches the line has
// What was done stays a number: the C interface needs it (include/siamrung.h has it).

const LISTED: u32 = 128;

const STEP: u32 = 256;

fn done_with(done: u32, count: usize) -> u32
    requires { (done < 256) × (count ≤ most_breaches) }
    ensures { result ≡ done_with done count }
{
    done + STEP * (count as u32)
}

fn answer_number(answer: Result<usize, NotListed>) -> u32
    requires { count_in answer ≤ most_breaches }
    ensures { result ≡ answer_number answer }
{
    match answer {
        Ok(n) => done_with(LISTED, n),
        Err(NotListed::Line(why)) => u32::from(u8::from(why)),
        Err(NotListed::List(why, n)) => done_with(u32::from(u8::from(why)), n),
    }
}

#[unsafe(no_mangle)]
pub extern "C" fn siamrung_manners(bytes: &[u8], form: u32, list: &mut [u8]) -> u32
    ensures { GivesNumber (chosen form) bytes.now list.old result list.new }
{
    let answer = manners::bytes::list(bytes, Form::from(form), list);
    answer_number(answer)
}

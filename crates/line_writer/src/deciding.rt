// What every form of a line asks before a word is written, once the line itself is taken: rows 1, 11 and 10, on a line of so many words.
// Relies on what a report was made into. specs/Deciding.antt says what each function computes.
ghost use Rattle.std.specs.Prelude.{◌≡◌, ◌≤◌};
ghost use Rattle.line_writer.specs.Deciding.{room, decided};

use lines::NotWritten;
use refusals::LineRefusal;
use reports::Words;

// The place behind n words and an idle word, or number 10.
fn room_for(size: usize, place: usize, n: usize) -> Result<usize, NotWritten>
    requires { place ≤ size }
    ensures { result ≡ room size place n }
{
    if size - place <= n {
        return Err(NotWritten {
            why: LineRefusal::NoRoom,
            place,
        });
    }
    Ok(place + n + 1)
}

// The answer on a line of so many words, to a place and what a report was made into.
#[tactic(auto, unfolding(crate::specs::Deciding::decided))]
pub fn decide(
    size: usize,
    place: usize,
    made: Result<Words, LineRefusal>,
) -> Result<usize, NotWritten>
    ensures { result ≡ decided size place made }
{
    if size < place {
        return Err(NotWritten {
            why: LineRefusal::PlaceBeyondLine,
            place,
        });
    }
    let words = made.map_err(|why| NotWritten { why, place })?;
    room_for(size, place, words.as_slice().len())
}

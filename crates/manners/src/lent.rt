// What a line and its list of breaches are lent as: 16-bit numbers (wide.rt) or bytes (bytes.rt). listing.rt goes by what is said here alone.
// Relies on lines for what an outcome is; specs/Lent.antt has the laws.
ghost use Rattle.std.specs.Prelude.{◌≡◌, ℕ, [], ◌∷◌, ◌+◌, ◌*◌, ◌≤◌, ◌<◌, List, length};
ghost use Rattle.reports.specs.Altitude.{form_of};
ghost use Rattle.lines.specs.Line.{most, read_at};
ghost use Rattle.manners.specs.Breaches.{Breach, breach};
ghost use Rattle.manners.specs.Lent.{LentLaws, stored};

use crate::Rule;
use lines::Outcome;
use reports::altitude::Form;

// One of what a line and its list are made of.
pub trait Element: Copy {
    // The words of a line, each held in so many.
    ghost words: { List Self → List ℕ };

    ghost held_in: { ℕ };

    // Breaches as they stand in a list, each so many wide.
    ghost said: { List Breach → List Self };

    ghost WIDTH: { ℕ };

    const WIDTH: usize;

    fn count_words(line: &[Self]) -> usize
        ensures { result ≡ length (words line.now) };

    // The outcome at a place, counted in words.
    fn outcome_at(line: &[Self], place: usize, form: Form) -> Outcome
        requires short { length (words line.now) ≤ most }
        requires whole { length (words line.now) * held_in ≡ length line.now }
        ensures { result ≡ read_at (form_of form) (words line.now) place };

    // Stores a breach behind the k that stand in the list.
    fn put(list: &mut [Self], k: usize, place: usize, rule: Rule)
        requires room { (k + 1) * WIDTH ≤ length list.old }
        requires in_line { place < 65536 }
        ensures { list.new ≡ stored list.old (k * WIDTH) (said (breach place rule ∷ [])) };

    ghost laws: { LentLaws said WIDTH };
}

// A line that is not too long and has no part of a word, and the form in which its altitudes are read.
#[derive(Drop)]
pub struct Taken<'a, L: Element> {
    pub held: &'a [L],
    pub form: Form,
    ghost short: { length (L.words held.now) ≤ most },
    ghost whole: { length (L.words held.now) * L.held_in ≡ length held.now },
}

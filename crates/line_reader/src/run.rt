// What is remembered of a run.
ghost use Rattle.std.specs.Prelude.{◌≤◌};

// The places that decide the answer to a run: of its first word, of its first word with a fault, of its first word that is too wide, and the
// place after its last word. Where no word has the fault, that place is the place after.
// No Option: `report_reader::judge` is asked by these places.
#[derive(Clone, Copy)]
pub struct Places {
    pub first: usize,
    pub fault: usize,
    pub too_wide: usize,
    pub after: usize,
    ghost in_order: { (first ≤ fault) × (fault ≤ too_wide) × (too_wide ≤ after) },
}
